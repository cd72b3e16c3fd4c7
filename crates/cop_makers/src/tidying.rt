//! An EDS file as a maker ships it, made such that plan reads it.

use crate::folders::tidy_folder;
use crate::words::{is_same, is_taken, last_part, left_words};
use cop_answers::Inputs;
use cop_engine::Fault;
use cop_files::{Failure, Form, print, read_file, write_file};
use cop_frame::Rate;
use cop_orders::{TidyChoices, TidyOrder};
use cop_tidy::{Refusal, Tidied, TidyFault, Words, tidy, told};
use std::alloc::{AllocError, Global};
use std::fs;

fn refused(alloc: Global, refusal: Refusal) -> Failure {
    match left_words(alloc, refusal) {
        Ok(reason) => Failure {
            fault: Fault::Refused {
                number: refusal.question.number(),
                place: refusal.line as u64,
            },
            reason,
        },
        Err(error) => Failure::from(error),
    }
}

/// The choices that are made, as words of the reading.
pub(crate) fn words_of(alloc: Global, choices: TidyChoices) -> Result<Words, AllocError> {
    let mut rates = Vec::new(alloc);
    if let Some(chosen) = choices.rates {
        let set = chosen.set();
        for rate in Rate::ALL {
            if set.contains(rate) {
                rates.push(rate)?;
            }
        }
    }
    Ok(Words {
        digits: choices.digits,
        access: choices.access,
        unlisted: choices.unlisted,
        rates,
    })
}

/// What becomes of a text.
#[derive(Drop)]
pub(crate) enum Answer {
    Tidied(Tidied),
    Refused(Refusal),
}

/// What becomes of a text; a failure is want of memory.
pub(crate) fn answer_for(alloc: Global, text: &[u8], words: &Words) -> Result<Answer, Failure> {
    match tidy(alloc, text, words) {
        Ok(tidied) => Ok(Answer::Tidied(tidied)),
        Err(TidyFault::Refused(refusal)) => Ok(Answer::Refused(refusal)),
        Err(TidyFault::Memory) => Err(Failure::from(Fault::Memory)),
    }
}

/// Refuses a file's name that the table of nodes does not take, as one that no plan could read.
pub(crate) fn check_name(alloc: Global, path: &str) -> Result<(), Failure> {
    let name = last_part(path);
    if is_taken(alloc, name)? {
        return Ok(());
    }
    Err(Failure {
        fault: Fault::Usage,
        reason: Some(format!(in alloc;
            "the table of nodes takes no file of the name {name}: it takes 1 to 40 letters, digits, blanks, _, - and .\n"
        )?),
    })
}

/// Makes of an EDS file one that plan reads: each change is told, and then the text is written, where that is wanted.
fn tidy_file(rt: &HostRuntime, order: TidyOrder<'_>, inputs: &mut Inputs) -> Result<u8, Failure> {
    if let Some(out) = order.out {
        check_name(rt.alloc(), out)?;
    }
    inputs.other = read_file(rt, order.input)?;
    let words = words_of(rt.alloc(), order.choices)?;
    let tidied = match answer_for(rt.alloc(), &inputs.other, &words)? {
        Answer::Tidied(tidied) => tidied,
        Answer::Refused(refusal) => return Err(refused(rt.alloc(), refusal)),
    };
    print(rt, &told(rt.alloc(), &tidied)?)?;
    if let Some(out) = order.out {
        write_file(rt, out, &tidied.text)?;
        return Ok(0);
    }
    Ok(if is_same(&tidied) { 0 } else { 3 })
}

/// Makes of an EDS file, or of all of a folder, what plan reads.
#[inline(never)]
pub fn carry_tidy(
    rt: &HostRuntime,
    order: TidyOrder<'_>,
    form: Form,
    inputs: &mut Inputs,
) -> Result<u8, Failure> {
    match fs::metadata(rt, order.input) {
        Ok(found) if found.is_dir() => tidy_folder(rt, order, form),
        _ => tidy_file(rt, order, inputs),
    }
}
