//! The check of a refusal file against a network.

use cop_answers::{Inputs, Tables, status_after_check};
use cop_cert::{Refusal, read};
use cop_documents::check_document;
use cop_engine::{Fault, checked, checks_text};
use cop_files::{
    Failure, Form, print, print_document, read_eds_files, read_file, read_tables, tell,
};
use cop_orders::NetworkFiles;
use cop_words::uncovered_words;
use std::alloc::Global;

/// What is wanted of a check.
#[derive(Clone, Copy)]
pub struct Wanted {
    /// In which form it is told. Rates that the file does not refuse are told where words are wanted.
    pub form: Form,
    /// Whether a slower candidate that the file does not refuse is a failure.
    pub strict: bool,
}

/// Reads what a check needs: the tables, the refusal file, and then the EDS files.
fn read_for_check(
    rt: &HostRuntime,
    network: NetworkFiles<'_>,
    refusals: &str,
    inputs: &mut Inputs,
) -> Result<Tables, Failure> {
    read_tables(rt, &mut inputs.network, network)?;
    inputs.other = read_file(rt, refusals)?;
    read_eds_files(rt, &mut inputs.network, network)
}

/// The refusals that a text has.
fn read_refusals(alloc: Global, text: &[u8]) -> Result<Vec<Refusal>, Fault> {
    Ok(read(alloc, text)?)
}

/// Prints what a check found of each refusal in a form.
fn print_checks(
    rt: &HostRuntime,
    refusals: &[Refusal],
    answers: &[bool],
    form: Form,
) -> Result<(), Failure> {
    if form == Form::Document {
        print_document(rt, &check_document(rt.alloc(), refusals, answers)?)
    } else {
        print(rt, &checks_text(rt.alloc(), refusals, answers)?)
    }
}

/// The check of a refusal file against a network.
#[inline(never)]
pub fn check(
    rt: &HostRuntime,
    files: NetworkFiles<'_>,
    name: &str,
    wanted: Wanted,
    inputs: &mut Inputs,
) -> Result<u8, Failure> {
    let alloc = rt.alloc();
    let tables = read_for_check(rt, files, name, inputs)?;
    let network = inputs.network.network(alloc, &tables)?;
    let refusals = read_refusals(alloc, &inputs.other)?;
    let answers = checked(alloc, &network, &refusals)?;
    let status = status_after_check(alloc, &network, &refusals, &answers, wanted.strict)?;
    print_checks(rt, &refusals, &answers, wanted.form)?;
    if wanted.form == Form::Told {
        tell(rt, uncovered_words(alloc, name, &network, &refusals));
    }
    Ok(status)
}
