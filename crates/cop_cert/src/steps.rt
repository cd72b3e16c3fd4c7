//! Records taken one by one into the draft of those before them.

ghost use Rattle.std.specs.Prelude.{◌≡◌};
ghost use Rattle.cop_table.specs.Reading.{Gives};
ghost use Rattle.cop_cert.specs.Faults.{breach_of, placed};
ghost use Rattle.cop_cert.specs.Steps.{fault_at};
ghost use Rattle.cop_cert.specs.Reading.{taken, next, at_hand};

use crate::drafts::{self, Draft, StepFault};
use crate::entries::{Entry, Version, entry_in};
use crate::faults::{Breach, CertFault};
use cop_table::Record;
use std::alloc::Global;

/// The fault of a step at a record.
pub(crate) fn at(place: u64, fault: StepFault) -> CertFault
    ensures { result ≡ fault_at place fault }
{
    match fault {
        StepFault::Broken(rule) => CertFault::Refused(Breach { rule, place }),
        StepFault::OutOfMemory => CertFault::Memory,
    }
}

/// Takes what a record says into the draft of those before it. After an `Err` the draft is not to be used.
pub(crate) fn take_entry(
    alloc: Global,
    draft: &mut Option<Draft>,
    place: u64,
    entry: Entry,
) -> Result<(), CertFault>
    ensures { Gives (λ _. draft.new) breach_of result (placed place (at_hand (next draft.old entry))) }
{
    match drafts::take(alloc, draft, entry) {
        Ok(()) => Ok(()),
        Err(fault) => Err(at(place, fault)),
    }
}

/// Takes a record into the draft of those before it. After an `Err` the draft is not to be used.
pub(crate) fn take(
    alloc: Global,
    version: Version,
    draft: &mut Option<Draft>,
    place: u64,
    row: &Record,
) -> Result<(), CertFault>
    ensures { Gives (λ _. draft.new) breach_of result (taken version place draft.old row.now) }
{
    let entry = match entry_in(version, row) {
        Ok(entry) => entry,
        Err(rule) => return Err(CertFault::Refused(Breach { rule, place })),
    };
    take_entry(alloc, draft, place, entry)
}
