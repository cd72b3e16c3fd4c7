//! The identifiers of which an instance waits, in their order.

ghost use Rattle.std.specs.Prelude.{◌≡◌, ℕ, ◌+◌, ◌==◌, OnOk, List, slice_index, length, nat_lt, if◌then◌else◌};
ghost use Rattle.std.specs.BTreeSet.{contains};
ghost use Rattle.std.specs.Ordering.{nat_cmp};
ghost use Rattle.cop_rta.specs.declared.streams.Stream.{Stream};
ghost use Rattle.cop_bus.specs.declared.steps.Step.{Step};
ghost use Rattle.cop_bus.specs.Judge.{any_waits, lower_waits};
ghost use Rattle.cop_bus.specs.Tables.{IsWaiting, is_queue_or_start};

use crate::steps::Step;
use std::alloc::AllocError;
use std::collections::BTreeSet;

// Puts the identifier in or takes it out.
fn set_waits(waiting: &mut BTreeSet<u16>, id: u16, waits: bool) -> Result<(), AllocError>
    ensures { OnOk result ((k : ℕ) → contains nat_cmp waiting.new k ≡ (if id == k then waits else contains nat_cmp waiting.old k)) }
{
    if waits {
        if waiting.insert(id).is_err() {
            return Err(AllocError);
        }
    } else {
        waiting.remove(&id);
    }
    Ok(())
}

// Notes whether an instance of the step's stream waits after step number `i`, by the places of the unsent ones.
pub(crate) fn note_waiting(
    step: &Step,
    unsent: &[usize],
    i: usize,
    waiting: &mut BTreeSet<u16>,
) -> Result<(), AllocError>
    requires { length unsent.now ≡ 65536 }
    ensures { OnOk result ((k : ℕ) → contains nat_cmp waiting.new k ≡ (if is_queue_or_start k step.now then nat_lt (slice_index unsent.now k) (i + 1) else contains nat_cmp waiting.old k)) }
{
    match step {
        Step::Queue { id, .. } | Step::Start { id, .. } => {
            set_waits(waiting, *id, unsent[usize::from(*id)] <= i)
        }
        Step::End { .. } => Ok(()),
    }
}

// Whether an instance of some stream waits.
pub(crate) fn any_waits(waiting: &BTreeSet<u16>) -> bool
    ensures { (streams : List Stream) (steps : List Step) (i : ℕ) → IsWaiting streams steps i waiting.now → result ≡ any_waits steps i streams }
{
    match waiting.first() {
        Some(_) => true,
        None => false,
    }
}

// Whether one of a stream with a lower identifier does.
pub(crate) fn lower_waits(waiting: &BTreeSet<u16>, id: u16) -> bool
    ensures { (streams : List Stream) (steps : List Step) (i : ℕ) → IsWaiting streams steps i waiting.now → result ≡ lower_waits steps i id streams }
{
    match waiting.first() {
        Some(first) => *first < id,
        None => false,
    }
}
