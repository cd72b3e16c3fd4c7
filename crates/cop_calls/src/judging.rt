//! The judgement of a trace.

use cop_answers::Inputs;
use cop_documents::judge_document;
use cop_engine::{Judgement, judge_outcome, judge_pieces, judged_bytes, plan_status};
use cop_files::{
    Failure, Form, is_regular, open_file, print, print_document, read_eds_files, read_file,
    read_opened, read_tables,
};
use cop_orders::NetworkFiles;
use cop_plan::Outcome;
use std::fs::File;

/// A trace that is to be judged.
#[derive(Drop)]
enum Trace {
    /// In a regular file, which is read in pieces.
    File(File),
    /// Its bytes were read.
    Bytes,
}

/// The judgement of the trace in a regular file, by what the planner answers. It is read in pieces, and judged as a whole only where
/// its judgement is not seen by them. Where it breaks a rule its bytes are kept, if they are not too many, for the words on it.
fn judged_by(
    rt: &HostRuntime,
    name: &str,
    file: File,
    outcome: &Outcome,
    read: &mut Vec<u8>,
) -> Result<Judgement, Failure> {
    match judge_pieces(rt.alloc(), outcome, file) {
        Some(Ok(judgement)) => Ok(judgement),
        Some(Err(fault)) => {
            if let Ok(bytes) = read_file(rt, name) {
                *read = bytes;
            }
            Err(Failure::from(fault))
        }
        None => {
            *read = read_file(rt, name)?;
            Ok(judge_outcome(rt.alloc(), outcome, read)?)
        }
    }
}

/// What is said of a trace by what the planner answers for the network that was read.
fn judged(
    rt: &HostRuntime,
    name: &str,
    trace: Trace,
    outcome: &Outcome,
    read: &mut Vec<u8>,
) -> Result<Judgement, Failure> {
    match trace {
        Trace::File(file) => judged_by(rt, name, file, outcome, read),
        Trace::Bytes => Ok(judged_bytes(rt.alloc(), outcome, read)?),
    }
}

/// Opens a trace: one that is no regular file is read at once.
fn open_trace(rt: &HostRuntime, name: &str, read: &mut Vec<u8>) -> Result<Trace, Failure> {
    let file = open_file(rt, name)?;
    if is_regular(&file) {
        return Ok(Trace::File(file));
    }
    *read = read_opened(rt, name, file)?;
    Ok(Trace::Bytes)
}

/// Prints a judgement in a form.
fn print_judgement(rt: &HostRuntime, judgement: Judgement, form: Form) -> Result<(), Failure> {
    let transfers = match judgement {
        Judgement::NonePasses => None,
        Judgement::OnTime { transfers } => Some(transfers),
    };
    if form == Form::Document {
        print_document(rt, &judge_document(rt.alloc(), transfers)?)
    } else {
        print(rt, &judgement.text(rt.alloc())?)
    }
}

/// The judgement of a trace by the plan of a network.
#[inline(never)]
pub fn judge(
    rt: &HostRuntime,
    network: NetworkFiles<'_>,
    name: &str,
    form: Form,
    inputs: &mut Inputs,
) -> Result<u8, Failure> {
    read_tables(rt, &mut inputs.network, network)?;
    let trace = open_trace(rt, name, &mut inputs.other)?;
    let tables = read_eds_files(rt, &mut inputs.network, network)?;
    let planned = inputs.network.planned(rt.alloc(), &tables)?;
    let (_network, outcome) = planned.parts();
    let judgement = judged(rt, name, trace, outcome, &mut inputs.other)?;
    print_judgement(rt, judgement, form)?;
    Ok(plan_status(planned.is_planned()))
}
