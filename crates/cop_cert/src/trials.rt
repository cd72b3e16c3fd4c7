//! What is above in a trial, and the fixed frames that are tried.

ghost use Rattle.std.specs.Prelude.{◌≡◌, ◌↔◌, ◌<◌, ◌≤◌, ℕ, IsTrue, MatchOption, length, false};
ghost use Rattle.cop_rta.specs.Test.{is_flagged};
ghost use Rattle.cop_cert.specs.Assignments.{id_at, IsSdo, IsTested};
ghost use Rattle.cop_cert.specs.Causes.{IsSync, HasSynchronous, IsSyncLong};
ghost use Rattle.cop_cert.specs.Sets.{is_in_trial};

use cop_frame::Rate;
use cop_frame::identifiers::SYNC;
use cop_rta::{Busy, Stream, StreamSet};

/// Flags the fixed frames with an identifier below a bound, and all PDOs or none.
pub(crate) fn flag_fixed(streams: &[Stream], pdos: usize, bound: u16, all: bool, out: &mut [bool])
    requires size { length out.old ≡ length streams.now }
    requires count { pdos ≤ length streams.now }
    ensures { (k : ℕ) → is_flagged out.new k ≡ is_in_trial bound streams.now pdos (λ _. all) k }
{
    for (k, stream) in streams.iter().enumerate() {
        out[k] = if k < pdos { all } else { stream.id < bound };
    }
}

#[tactic(auto, using(cop_rta::specs::SumsLemmas::of_stream_read))]
/// Whether some PDO is synchronous.
fn has_synchronous(streams: &[Stream], pdos: usize) -> bool
    requires { pdos ≤ length streams.now }
    ensures { IsTrue result ↔ HasSynchronous streams.now pdos }
{
    for (k, stream) in streams.iter().enumerate() {
        if k < pdos && stream.every > 0 {
            return true;
        }
    }
    false
}

/// Where SYNC stands, if it is a fixed frame and some PDO is synchronous.
pub(crate) fn sync_of(set: &StreamSet, pdos: usize) -> Option<usize>
    requires { pdos ≤ length set.now }
    ensures { MatchOption result (HasSynchronous set.now pdos → (sync : ℕ) → IsSync set.now pdos sync → ⊥)
        (λ sync. HasSynchronous set.now pdos × IsSync set.now pdos sync × (sync < length set.now)) }
{
    if !has_synchronous(set.streams(), pdos) {
        return None;
    }
    let Some(sync) = set.place_of(SYNC) else {
        return None;
    };
    if sync < pdos {
        return None;
    }
    Some(sync)
}

/// Whether some PDO is synchronous, and SYNC's busy time is above the horizon. The first `pdos` streams are the PDOs. No memory is taken.
pub fn is_sync_long(set: &StreamSet, pdos: usize, rate: Rate) -> bool
    requires { pdos ≤ length set.now }
    ensures { IsTrue result ↔ IsSyncLong rate set.now pdos }
{
    let Some(sync) = sync_of(set, pdos) else {
        return false;
    };
    let streams = set.streams();
    let mut flags = [false; StreamSet::MOST];
    let above = &mut flags[..streams.len()];
    flag_fixed(streams, pdos, SYNC, false, above);
    Busy::new(set, above, sync, rate).time().is_none()
}

/// Whether an identifier is one of SDO frames.
fn is_sdo(id: u16) -> bool
    ensures { IsTrue result ↔ IsSdo id }
{
    (0x581 <= id && id <= 0x5FF) || (0x601 <= id && id <= 0x67F)
}

/// Whether a stream is an SDO frame with a deadline, which is tested as the PDOs are. The first `pdos` streams are the PDOs.
pub fn is_tested(streams: &[Stream], pdos: usize, frame: usize) -> bool
    requires { frame < length streams.now }
    ensures { IsTrue result ↔ IsTested streams.now pdos frame }
{
    let stream = &streams[frame];
    let (id, deadline) = (stream.id, stream.deadline);
    if frame < pdos {
        return false;
    }
    if !is_sdo(id) {
        return false;
    }
    match deadline {
        Some(_) => true,
        None => false,
    }
}

/// Where the SDO frame of an identifier stands, if it has a deadline.
pub(crate) fn tested_frame(set: &StreamSet, pdos: usize, id: u16) -> Option<usize>
    ensures { MatchOption result ((f : ℕ) → IsTested set.now pdos f → id_at set.now f ≡ id → ⊥)
        (λ f. IsTested set.now pdos f × (id_at set.now f ≡ id) × ((g : ℕ) → IsTested set.now pdos g → id_at set.now g ≡ id → g ≡ f)) }
{
    let Some(frame) = set.place_of(id) else {
        return None;
    };
    if is_tested(set.streams(), pdos, frame) {
        Some(frame)
    } else {
        None
    }
}
