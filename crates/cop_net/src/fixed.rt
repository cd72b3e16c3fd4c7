//! The streams of the frames of fixed identifiers, and of disturbed transfers.

ghost use Rattle.std.specs.Prelude.{◌≡◌, ◌≤◌, ◌<◌, ◌++◌, [], ◌∷◌, IfSome, Ok, map, length};
ghost use Rattle.cop_table.specs.Reading.{Gives};
ghost use Rattle.cop_rta.specs.Entries.{entry_of};
ghost use Rattle.cop_rta.specs.Errors.{HasNoOne, errors_stream};
ghost use Rattle.cop_rows.specs.declared.node_table.FrameRow.{FrameRow};
ghost use Rattle.cop_net.specs.Faults.{refusal};
ghost use Rattle.cop_net.specs.Sets.{AreOneSet};
ghost use Rattle.cop_net.specs.Fixed.{base_of, size_of, frame_stream, sent, fixed_streams, IsTimed, IsErrors};
ghost use Rattle.cop_net.specs.Network.{through};

use crate::faults::PlanFault;
use crate::frames::{Frames, PLACES};
use cop_frame::DISTURBED;
use cop_frame::identifiers::{EMCY, HEARTBEAT, NMT, SDO_REQUEST, SDO_RESPONSE, SYNC};
use cop_rows::{FrameKind, FrameRow};
use cop_rta::{Errors, SetFault, Stream, StreamSet};
use std::alloc::Global;

/// The identifier of node 0's frame of a kind. That of disturbed transfers is above all, where NMT counts as 001h.
fn base(kind: FrameKind) -> u16
    ensures value { result ≡ base_of kind }
    ensures most { result ≤ 0x700 }
{
    match kind {
        FrameKind::Nmt => NMT,
        FrameKind::Sync => SYNC,
        FrameKind::Emcy => EMCY,
        FrameKind::SdoResponse => SDO_RESPONSE,
        FrameKind::SdoRequest => SDO_REQUEST,
        FrameKind::Heartbeat => HEARTBEAT,
        FrameKind::Errors => 0,
    }
}

/// How many data bytes a frame of a kind has. A disturbed transfer counts as a frame of 9.
fn size(kind: FrameKind) -> u8
    ensures value { result ≡ size_of kind }
    ensures most { result ≤ 9 }
{
    match kind {
        FrameKind::Nmt => 2,
        FrameKind::Sync => 0,
        FrameKind::Emcy | FrameKind::SdoResponse | FrameKind::SdoRequest => 8,
        FrameKind::Heartbeat => 1,
        FrameKind::Errors => DISTURBED,
    }
}

/// The stream of a frame that is sent.
fn stream(row: FrameRow) -> Stream
    requires timed { IsTimed row }
    requires sent { 100 ≤ row.period }
    ensures { entry_of result ≡ frame_stream row }
{
    Stream {
        id: base(row.kind) + u16::from(row.node),
        bytes: size(row.kind),
        period: u64::from(row.period) * 4,
        jitter: u64::from(row.jitter) * 4,
        deadline: row.deadline.map(|time| u64::from(time) * 4),
        every: 0,
    }
}

#[tactic(auto, using(crate::proofs::SetLemmas::is_new, crate::proofs::SetLemmas::has_room))]
/// Puts a stream behind the others, with which it makes one set.
pub fn put(set: &mut StreamSet, stream: Stream) -> Result<(), PlanFault>
    requires { AreOneSet (map entry_of set.old ++ entry_of stream ∷ []) }
    ensures { Gives (λ _. set.new) refusal result (Ok (set.old ++ stream ∷ [])) }
{
    match set.push(stream) {
        Ok(()) => Ok(()),
        Err(SetFault::Memory) => Err(PlanFault::Memory),
        Err(SetFault::Repeated) => unreachable!(),
        Err(SetFault::Full) => unreachable!(),
    }
}

/// Puts the stream of a row behind the others, where there is one.
fn put_sent(set: &mut StreamSet, row: Option<FrameRow>) -> Result<(), PlanFault>
    requires timed { IfSome row IsTimed }
    requires one_set { AreOneSet (map entry_of set.old ++ sent row) }
    ensures { Gives (λ _. map entry_of set.new) refusal result (Ok (map entry_of set.old ++ sent row)) }
{
    match row {
        Some(row) if row.period != 0 => put(set, stream(row)),
        _ => Ok(()),
    }
}

/// Puts the streams of the fixed identifiers behind the others.
pub fn put_fixed(set: &mut StreamSet, frames: &Frames<'_>) -> Result<(), PlanFault>
    requires { AreOneSet (map entry_of set.old ++ fixed_streams frames.now) }
    ensures { Gives (λ _. map entry_of set.new) refusal result (Ok (map entry_of set.old ++ fixed_streams frames.now)) }
{
    for place in 0..PLACES {
        put_sent(set, frames.at(place))?;
    }
    Ok(())
}

/// How rare the disturbed transfers of a row are, in ticks.
fn rarity(row: FrameRow) -> Errors
    requires { IsErrors row }
    ensures { entry_of (errors_stream result) ≡ frame_stream row }
{
    Errors {
        period: u64::from(row.period) * 4,
        jitter: u64::from(row.jitter) * 4,
    }
}

/// The streams of the bus as they are tested: where transfers may be disturbed, these transfers are one more stream.
pub fn through(
    alloc: Global,
    errors: Option<FrameRow>,
    set: StreamSet,
) -> Result<StreamSet, PlanFault>
    requires errors { IfSome errors IsErrors }
    requires free { HasNoOne set }
    requires room { length set < 1100 }
    ensures { Gives (λ tested. map entry_of tested) refusal result (Ok (through errors (map entry_of set))) }
{
    match errors {
        Some(row) => Ok(set.through(alloc, rarity(row))?),
        None => Ok(set),
    }
}
