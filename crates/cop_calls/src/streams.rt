//! The test of the streams of a table.

use cop_answers::Inputs;
use cop_documents::test_document;
use cop_engine::{Tested, test_of};
use cop_files::{Failure, Form, print, print_document, read_input, tell};
use cop_frame::Rate;
use cop_rta::Verdict;
use cop_words::late_words;
use std::alloc::{AllocError, Global};

/// What the test says of each stream, by rising identifier.
fn by_identifier(alloc: Global, tested: &Tested) -> Result<Vec<(u16, Verdict)>, AllocError> {
    let mut all = Vec::new(alloc);
    for id in 0..2048 {
        if let Some(verdict) = tested.verdict(id) {
            all.push((id, verdict))?;
        }
    }
    Ok(all)
}

/// The test of the streams of a table: whether all pass. What does not pass is told in words where that is wanted.
#[inline(never)]
pub fn test(
    rt: &HostRuntime,
    rate: Rate,
    file: &str,
    form: Form,
    inputs: &mut Inputs,
) -> Result<bool, Failure> {
    inputs.other = read_input(rt, file)?;
    let alloc = rt.alloc();
    let tested = test_of(alloc, &inputs.other, rate)?;
    if form == Form::Document {
        let verdicts = by_identifier(alloc, &tested)?;
        print_document(rt, &test_document(alloc, rate.kbits(), &verdicts)?)?;
        return Ok(tested.all_pass());
    }
    print(rt, &tested.text(alloc)?)?;
    if form == Form::Told {
        tell(rt, late_words(alloc, &by_identifier(alloc, &tested)?));
    }
    Ok(tested.all_pass())
}
