//! The frames of a table of nodes, by their places.

ghost use Rattle.std.specs.Prelude.{◌≡◌, ◌<◌, ◌≤◌, ◌==◌, All, IfSome, find};
ghost use Rattle.cop_rows.specs.declared.node_table.FrameRow.{FrameRow};
ghost use Rattle.cop_net.specs.Fixed.{rank_of, key_of, IsOwner, IsTimed, IsErrors, KnowsFrames};
ghost use Rattle.cop_net.specs.Heartbeats.{time_in, heartbeat_of};
ghost use Rattle.cop_net.specs.Signals.{sync_of, errors_in, has_sdo_deadline};
ghost use Rattle.cop_net.specs.Pdos.{IsSync};

use cop_rows::{FrameKind, FrameRow};
use std::marker::Model;

/// How many places the frames of all nodes have in their order.
pub const PLACES: usize = 768;

/// The place of the row of disturbed transfers, which is the last.
const ERRORS: usize = 768;

/// How many places there are with that one.
const ALL_PLACES: usize = 769;

/// The place of a kind in the order of the frames of one node.
fn rank(kind: FrameKind) -> usize
    ensures value { result ≡ rank_of kind }
    ensures most { result ≤ 768 }
{
    match kind {
        FrameKind::Nmt => 0,
        FrameKind::Sync => 1,
        FrameKind::Emcy => 2,
        FrameKind::SdoResponse => 3,
        FrameKind::SdoRequest => 4,
        FrameKind::Heartbeat => 5,
        FrameKind::Errors => ERRORS,
    }
}

/// The place of a row in the order of the frames: by rising node, and of one node by kind; disturbed transfers stand last.
fn key(row: FrameRow) -> usize
    ensures value { result ≡ key_of row }
    ensures most { row.node ≤ 127 → IsOwner row.kind row.node → result < 769 }
{
    6 * usize::from(row.node) + rank(row.kind)
}

/// The number of the first row at each place in the order of the frames.
fn by_place(frames: &[FrameRow]) -> [u16; ALL_PLACES]
    requires { All IsTimed frames.now }
    ensures { KnowsFrames result frames.now }
{
    let mut places = [u16::MAX; ALL_PLACES];
    for number in (0..frames.len()).rev() {
        places[key(frames[number])] = u16::try_from(number).unwrap_or(u16::MAX);
    }
    places
}

/// The first row at a place.
fn first_at(frames: &[FrameRow], place: usize) -> Option<FrameRow>
    ensures { result ≡ find (λ row. key_of row == place) frames.now }
{
    for row in frames {
        if key(*row) == place {
            return Some(*row);
        }
    }
    None
}

/// The time of a row in ms, 0 where there is none.
fn time_in(row: Option<FrameRow>) -> u16
    requires { IfSome row IsTimed }
    ensures { result ≡ time_in row }
{
    match row {
        Some(row) => (row.period / 1000) as u16,
        None => 0,
    }
}

/// The frames of a table, which stand at their places too. Contracts see them in the order of the records.
#[derive(Drop)]
pub struct Frames<'a> {
    rows: &'a [FrameRow],
    // No row before the one of this number is at the place; behind all where none is.
    places: [u16; ALL_PLACES],
}

impl<'a> Model for Frames<'a> {
    ghost use Rattle.std.specs.Prelude.{List, All};
    ghost use Rattle.cop_rows.specs.declared.node_table.FrameRow.{FrameRow};
    ghost use Rattle.cop_net.specs.Fixed.{IsTimed, KnowsFrames};

    ghost Value = { List FrameRow };

    ghost view = { λ f. f.rows.now };

    ghost invariant = { λ f. All IsTimed f.rows.now × KnowsFrames f.places f.rows.now };
}

impl<'a> Frames<'a> {
    /// The frames of a table.
    pub fn new(rows: &'a [FrameRow]) -> Frames<'a>
        requires { All IsTimed rows.now }
        ensures { result ≡ rows.now }
    {
        Frames {
            rows,
            places: by_place(rows),
        }
    }

    /// The frame at a place.
    pub fn at(&self, place: usize) -> Option<FrameRow>
        ensures row { result ≡ find (λ row. key_of row == place) self.now }
        ensures timed { IfSome result IsTimed }
    {
        if place < ALL_PLACES {
            let before = usize::from(self.places[place]).min(self.rows.len());
            first_at(&self.rows[before..], place)
        } else {
            None
        }
    }

    /// The time of a node's heartbeat in ms, 0 where it has none.
    pub fn time(&self, node: u8) -> u16
        ensures { result ≡ heartbeat_of self.now node }
    {
        time_in(self.at(6 * usize::from(node) + 5))
    }

    /// The row of SYNC, where it is sent.
    pub fn sync(&self) -> Option<FrameRow>
        ensures row { result ≡ sync_of self.now }
        ensures times { IfSome result IsSync }
    {
        match self.at(1) {
            Some(row) if row.period != 0 => Some(row),
            _ => None,
        }
    }

    /// The row of disturbed transfers, where there are any.
    pub fn errors(&self) -> Option<FrameRow>
        ensures row { result ≡ errors_in self.now }
        ensures times { IfSome result IsErrors }
    {
        let row = self.at(ERRORS)?;
        if row.period == 0 { None } else { Some(row) }
    }

    /// Whether some SDO frame has a deadline.
    pub fn has_sdo_deadline(&self) -> bool
        ensures { result ≡ has_sdo_deadline self.now }
    {
        self.rows.iter().any(|row| row.deadline.is_some())
    }
}
