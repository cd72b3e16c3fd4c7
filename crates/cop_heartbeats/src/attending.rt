//! The heartbeats of nodes are awaited.

ghost use Rattle.std.specs.Prelude.{◌≡◌, option_to_list, IfSome, IfNone};
ghost use Rattle.cop_slcan.specs.Meaning.{told_of};
ghost use Rattle.cop_slcan.specs.Reading.{said_from, left_from, taken};
ghost use Rattle.cop_live.specs.Nodes.{nobody};
ghost use Rattle.cop_heartbeats.specs.Attending.{beat_at, beats_in, heard_at, heard_in, late_if, late_at, turned, presence_of, are_all_operational, Attended, AttendFails};

use cop_live::{NodeSet, Port, beat_of};
use cop_slcan::{Reader, Said};
use std::marker::Model;

/// A node whose heartbeat has to say operational, at least once in so many ticks.
#[derive(Clone, Copy, Debug, PartialEq, Eq)]
pub struct Awaited {
    pub node: u8,
    pub time: u64,
}

/// What was heard of nodes whose heartbeats were awaited: which said operational at all, and which were late.
#[derive(Drop)]
pub struct Heartbeats {
    pub heard: NodeSet,
    pub late: NodeSet,
}

/// What the heartbeats of a node say of it.
#[derive(Clone, Copy, Debug, PartialEq, Eq)]
pub enum Presence {
    /// A heartbeat said operational, and none was overdue.
    Operational,
    /// No heartbeat said operational, and its time had not passed yet.
    Unheard,
    /// Its time passed in which no heartbeat said operational.
    Late,
}

impl Heartbeats {
    /// Nothing was heard of any node.
    pub fn new() -> Heartbeats
        ensures { result ≡ record { heard = nobody; late = nobody } }
    {
        Heartbeats {
            heard: NodeSet::new(),
            late: NodeSet::new(),
        }
    }

    /// What was heard of a node.
    pub fn presence_of(&self, node: u8) -> Presence
        ensures { result ≡ presence_of self.now node }
    {
        if self.late.has(node) {
            Presence::Late
        } else if self.heard.has(node) {
            Presence::Operational
        } else {
            Presence::Unheard
        }
    }

    /// Whether each of some nodes is operational.
    pub fn are_all_operational(&self, awaited: &[Awaited]) -> bool
        ensures { result ≡ are_all_operational self.now awaited.now }
    {
        awaited
            .iter()
            .all(|one| self.presence_of(one.node) == Presence::Operational)
    }
}

// What was heard: of each node the moment at which it last was operational, or that of the beginning; which nodes were operational, and
// which late; and the reader of what comes.
#[derive(Drop)]
struct Attendance {
    last: [u64; 256],
    heartbeats: Heartbeats,
    reader: Reader,
}

impl Model for Attendance {
    ghost use Rattle.cop_heartbeats.specs.Attending.{Hearing};

    ghost Value = { Hearing };

    ghost view = { λ a. record { last = a.last; heard = a.heartbeats.heard; late = a.heartbeats.late; reader = a.reader } };
}

// Notes the moment of a heartbeat that says operational, and whose it is.
fn hear(last: &mut [u64; 256], heard: &mut NodeSet, now: u64, said: &Said)
    ensures last { last.new ≡ beat_at now last.old (told_of said.now) }
    ensures heard { heard.new ≡ heard_at heard.old (told_of said.now) }
{
    match said {
        Said::Heard(frame) => match beat_of(frame) {
            Some(node) => {
                last[usize::from(node)] = now;
                heard.add(node);
            }
            None => {}
        },
        Said::Done | Said::Refused | Said::Other => {}
    }
}

// Hears what a byte says, if it ends a line.
fn hear_byte(last: &mut [u64; 256], heard: &mut NodeSet, reader: &mut Reader, now: u64, byte: u8)
    ensures reader { reader.new ≡ (taken reader.old byte).0 }
    ensures last { last.new ≡ beats_in now last.old (option_to_list (taken reader.old byte).1) }
    ensures heard { heard.new ≡ heard_in heard.old (option_to_list (taken reader.old byte).1) }
{
    match reader.take(byte) {
        Some(said) => hear(last, heard, now, &said),
        None => {}
    }
}

// Hears what bytes say.
fn hear_bytes(
    last: &mut [u64; 256],
    heard: &mut NodeSet,
    reader: &mut Reader,
    now: u64,
    bytes: &[u8],
)
    ensures reader { reader.new ≡ left_from reader.old bytes.now }
    ensures last { last.new ≡ beats_in now last.old (said_from reader.old bytes.now) }
    ensures heard { heard.new ≡ heard_in heard.old (said_from reader.old bytes.now) }
{
    match bytes {
        [] => {}
        [byte, rest @ ..] => {
            hear_byte(last, heard, reader, now, *byte);
            hear_bytes(last, heard, reader, now, rest)
        }
    }
}

// Notes a node that is late.
fn look_at(late: &mut NodeSet, last: &[u64; 256], now: u64, one: Awaited)
    ensures { late.new ≡ late_if now last.now late.old one }
{
    if now.saturating_sub(last[usize::from(one.node)]) >= one.time {
        late.add(one.node);
    }
}

// Notes which nodes are late.
fn look(late: &mut NodeSet, last: &[u64; 256], now: u64, awaited: &[Awaited])
    ensures { late.new ≡ late_at now last.now late.old awaited.now }
{
    match awaited {
        [] => {}
        [one, rest @ ..] => {
            look_at(late, last, now, *one);
            look(late, last, now, rest)
        }
    }
}

// Takes a turn: hears what was read, and looks at the clock then.
fn turn(attendance: &mut Attendance, awaited: &[Awaited], now: u64, bytes: &[u8])
    ensures { attendance.new ≡ turned awaited.now attendance.old now bytes.now }
{
    hear_bytes(
        &mut attendance.last,
        &mut attendance.heartbeats.heard,
        &mut attendance.reader,
        now,
        bytes,
    );
    look(
        &mut attendance.heartbeats.late,
        &attendance.last,
        now,
        awaited,
    );
}

// What was heard of the nodes.
fn heartbeats_of(attendance: Attendance) -> Heartbeats
    ensures { result ≡ record { heard = attendance.heard; late = attendance.late } }
{
    attendance.heartbeats
}

/// Listens for so many ticks at least, and gives which nodes said by a heartbeat that they are operational, and which were late: a node is,
/// once its time passes in which no heartbeat of it says operational. Nothing is written. `None` if the port or its clock fails.
pub fn attend<P: Port>(awaited: &[Awaited], limit: u64, port: &mut P) -> Option<Heartbeats>
    ensures attended { IfSome result (λ heartbeats. Attended P.reads P.writes P.asks awaited.now limit port.old heartbeats port.new) }
    ensures failed { IfNone result (AttendFails P.reads P.writes P.asks P.fails port.old port.new) }
{
    let Some(began) = port.now() else {
        return None;
    };
    let mut attendance = Attendance {
        last: [began; 256],
        heartbeats: Heartbeats::new(),
        reader: Reader::new(),
    };
    for _turn in 0..u64::MAX {
        let mut buffer = [0; 256];
        let Some(count) = port.read(&mut buffer) else {
            return None;
        };
        let Some(now) = port.now() else {
            return None;
        };
        turn(&mut attendance, awaited, now, &buffer[..count]);
        if now.saturating_sub(began) >= limit {
            return Some(heartbeats_of(attendance));
        }
    }
    None
}
