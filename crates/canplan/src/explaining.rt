//! What is said of a failure in words, below its line.

use crate::hints::{file_hint, log_hint};
use cop_answers::{Inputs, refused_eds, words_on_file, words_on_network, words_on_refusal};
use cop_engine::Fault;
use cop_files::Failure;
use cop_makers::mend_words;
use cop_orders::{Order, PlanOrder};
use std::alloc::AllocError;
use std::fs;

/// What is said of a run that is given up.
const CROWDED: &str =
    "more than 64 instances of one fixed frame wait: its row asks for more than the bus can carry\n";

/// Adds that the files in the folder of a plan that is refused are of an earlier run, where there are any.
fn push_earlier(words: &mut Vec<u8>, rt: &HostRuntime, order: Order<'_>) -> Result<(), AllocError> {
    let Order::Plan(PlanOrder { out, .. }) = order else {
        return Ok(());
    };
    // The first of the files that a plan writes.
    let plan = format!(in rt.alloc(); "{out}/plan.txt")?;
    if let Ok(true) = fs::exists(rt, plan.as_str()) {
        let line = format!(in rt.alloc(); "the files in {out} are of an earlier run\n")?;
        words.extend_from_slice(line.as_bytes())?;
    }
    Ok(())
}

/// Whether a rule is one of logs.
fn is_log_rule(number: u8) -> bool {
    number >= 90 && number < 97
}

/// What is said of a failure in words.
pub fn explain(
    rt: &HostRuntime,
    order: Order<'_>,
    inputs: &Inputs,
    failure: &Failure,
) -> Result<Vec<u8>, AllocError> {
    let alloc = rt.alloc();
    let mut words = Vec::new(alloc);
    if let Some(reason) = &failure.reason {
        words.extend_from_slice(reason.as_bytes())?;
    }
    match &failure.fault {
        Fault::Network(refusal) => {
            let said = words_on_network(alloc, order, inputs, refusal)?;
            words.extend_from_slice(&said)?;
            if let Some(eds) = refused_eds(alloc, order, inputs, refusal)? {
                let said = mend_words(alloc, &eds.path, eds.text)?;
                words.extend_from_slice(said.as_bytes())?;
            }
            push_earlier(&mut words, rt, order)?;
        }
        Fault::Refused { number, place } => {
            let said = words_on_refusal(alloc, order, inputs, *number, *place)?;
            words.extend_from_slice(&said)?;
            if is_log_rule(*number) {
                words.extend_from_slice(log_hint(rt, order).as_bytes())?;
            }
            push_earlier(&mut words, rt, order)?;
        }
        Fault::File(name) => {
            words.extend_from_slice(file_hint(rt, order, name)?.as_bytes())?;
            let said = words_on_file(alloc, order, inputs, name)?;
            words.extend_from_slice(said.as_bytes())?;
        }
        Fault::Simulation => words.extend_from_slice(CROWDED.as_bytes())?,
        Fault::Usage | Fault::Memory => {}
    }
    Ok(words)
}
