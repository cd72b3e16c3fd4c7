//! What the program says of a fault, its status, and the words of the command line that it reads.

ghost use Rattle.std.specs.Prelude.{◌≡◌, MatchOption, IfOk};
ghost use Rattle.std.specs.String.{string_bytes};
ghost use Rattle.cop_frame.specs.declared.rates.Rate.{Rate};
ghost use Rattle.cop_engine.specs.Messages.{refusal_message, message_of, plan_status_of, test_status_of, check_status_of, strict_check_status_of, IsRateWord};

use crate::faults::Fault;
use cop_frame::Rate;
use cop_table::number;
use std::alloc::{AllocError, Global};

/// The line of what is refused.
fn refusal_message(alloc: Global, number: u8, place: u64) -> Result<String, AllocError>
    ensures { IfOk result (λ line. string_bytes line ≡ refusal_message number place) }
{
    format!(in alloc; "canplan: refused {number} {place}\n")
}

/// The line that the program says of a fault.
pub fn message(alloc: Global, fault: &Fault) -> Result<String, AllocError>
    ensures { IfOk result (λ line. string_bytes line ≡ message_of fault.now) }
{
    match fault {
        Fault::Network(refusal) => refusal_message(alloc, refusal.rule.number(), refusal.place),
        Fault::Refused { number, place } => refusal_message(alloc, *number, *place),
        Fault::Simulation => String::from_str(alloc, "canplan: simulation refused\n"),
        Fault::File(name) => format!(in alloc; "canplan: file {name}\n"),
        Fault::Usage => String::from_str(alloc, "canplan: usage\n"),
        Fault::Memory => String::from_str(alloc, "canplan: memory\n"),
    }
}

/// The status after a plan: 0 where some rate passes, else 4.
pub fn plan_status(planned: bool) -> u8
    ensures { result ≡ plan_status_of planned }
{
    if planned { 0 } else { 4 }
}

/// The status after a test of which each stream is wanted to pass: 0 where all do, else 3.
pub fn test_status(all_pass: bool) -> u8
    ensures { result ≡ test_status_of all_pass }
{
    if all_pass { 0 } else { 3 }
}

/// The status after a check: 0 where all refusals hold, else 3.
pub fn check_status(all_hold: bool) -> u8
    ensures { result ≡ check_status_of all_hold }
{
    if all_hold { 0 } else { 3 }
}

/// The status after a check that wants a refusal of each rate which the plan refuses: 3 where some refusal fails, else 4 where one is
/// wanting, else 0.
pub fn strict_check_status(all_hold: bool, covers: bool) -> u8
    ensures { result ≡ strict_check_status_of all_hold covers }
{
    if all_hold {
        plan_status(covers)
    } else {
        check_status(all_hold)
    }
}

/// The rate that a word writes in kbit/s.
pub fn rate_of(word: &[u8]) -> Option<Rate>
    ensures { MatchOption result ((rate : Rate) → IsRateWord word.now rate → ⊥) (IsRateWord word.now) }
{
    let kbits = number(4, word)?;
    Rate::from_kbits(u32::try_from(kbits).ok()?)
}
