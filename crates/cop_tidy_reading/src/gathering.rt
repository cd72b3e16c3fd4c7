//! What is read one after the other, and the earliest question that it leaves open.

ghost use Rattle.std.specs.Prelude.{◌≡◌, ◌++◌, [], Ok, OnOk};
ghost use Rattle.std.specs.Option.{option_to_list};
ghost use Rattle.cop_tidy_reading.specs.Questions.{asked_after};
ghost use Rattle.cop_tidy_reading.specs.Gathering.{with_found, gathered, vec_seen};

use crate::combining::Earliest;
use crate::question::Question;
use std::alloc::AllocError;

/// Adds what was read, where there is something, or asks the question that it leaves open.
pub fn gather<T: Drop>(
    found: &mut Vec<T>,
    earliest: &mut Earliest,
    read: Result<Option<T>, Question>,
) -> Result<(), AllocError>
    ensures found { OnOk result (found.new.items ≡ with_found option_to_list found.old.items read) }
    ensures asked { OnOk result (earliest.new.question ≡ asked_after earliest.old.question read) }
{
    match read {
        Ok(Some(value)) => found.push(value)?,
        Ok(None) => {}
        Err(question) => earliest.ask(question),
    }
    Ok(())
}

/// Adds all that was read, or asks the question that it leaves open.
pub fn gather_all<T: Drop>(
    found: &mut Vec<T>,
    earliest: &mut Earliest,
    read: Result<Vec<T>, Question>,
) -> Result<(), AllocError>
    ensures found { OnOk result (found.new.items ≡ with_found (λ list. list) found.old.items (vec_seen read)) }
    ensures asked { OnOk result (earliest.new.question ≡ asked_after earliest.old.question (vec_seen read)) }
{
    match read {
        Ok(mut values) => found.append(&mut values)?,
        Err(question) => earliest.ask(question),
    }
    Ok(())
}

/// What was found, or the earliest question.
#[tactic(auto, using(crate::proofs::GatheringLemmas::none_further))]
pub fn gathered<T: Drop>(found: Vec<T>, earliest: Earliest) -> Result<Vec<T>, Question>
    ensures { vec_seen result ≡ gathered earliest.question found.items (Ok []) }
{
    match earliest.check() {
        Ok(()) => Ok(found),
        Err(question) => Err(question),
    }
}
