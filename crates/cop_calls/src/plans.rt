//! The plan of a network.

use cop_answers::{Inputs, Notes, Texts, findings, plan_notes, plan_text, status_after};
use cop_engine::{Files, PlannedNetwork, deliver};
use cop_figures::figures_of;
use cop_files::{
    Failure, Folder, Form, NodeFiles, print, print_document, read_network, remove_earlier, tell,
};
use cop_net::NodeTable;
use cop_orders::PlanOrder;
use std::alloc::{AllocError, Global};

/// The names of the DCF files of a plan.
fn dcf_names(alloc: Global, files: &Files) -> Result<Vec<String>, AllocError> {
    let mut names = Vec::new(alloc);
    for file in files.dcf.as_slice() {
        names.push(String::from_str(alloc, file.name())?)?;
    }
    Ok(names)
}

/// Writes the files of a plan into a folder, and removes those of an earlier plan that it has not.
fn write_files(rt: &HostRuntime, files: &Files, out: &str) -> Result<(), Failure> {
    let mut folder = Folder {
        rt,
        path: out,
        failure: None,
    };
    let _ = deliver(files, &mut folder);
    if let Some(failure) = folder.failure {
        return Err(failure);
    }
    let names = dcf_names(rt.alloc(), files)?;
    let written = NodeFiles {
        ending: ".dcf",
        names: &names,
    };
    remove_earlier(rt, out, written)
}

/// How long a refusal file is, in words, if it is longer than 1 MB.
fn length_words(alloc: Global, bytes: usize) -> Result<Vec<u8>, AllocError> {
    if bytes <= 1_000_000 {
        return Ok(Vec::new(alloc));
    }
    let megabytes = bytes / 1_000_000;
    let words = format!(in alloc; "canplan: refusals.csv will have {megabytes} MB\n")?;
    Ok(words.into_bytes())
}

/// A plan that is to be told and written.
#[derive(Clone, Copy)]
struct Made<'a> {
    texts: &'a Texts,
    nodes: &'a NodeTable,
    planned: &'a PlannedNetwork<'a>,
    files: &'a Files,
}

/// Writes the files of a plan, and then prints its document. The status tells warnings only if that is asked.
fn give_document(rt: &HostRuntime, order: PlanOrder<'_>, made: &Made<'_>) -> Result<u8, Failure> {
    let alloc = rt.alloc();
    let (network, outcome) = made.planned.parts();
    let figures = figures_of(alloc, network, outcome)?;
    let findings = findings(alloc, made.texts, made.nodes, network, &figures)?;
    let document = plan_text(alloc, made.planned, &figures, &findings)?;
    write_files(rt, made.files, order.out)?;
    print_document(rt, &document)?;
    Ok(status_after(made.files.planned, order.strict && !findings.is_empty()))
}

/// Prints a plan, and then writes its files.
fn give_lines(rt: &HostRuntime, order: PlanOrder<'_>, made: &Made<'_>) -> Result<(), Failure> {
    print(rt, &made.files.plan)?;
    write_files(rt, made.files, order.out)
}

/// What is said of a plan.
fn notes(rt: &HostRuntime, made: &Made<'_>) -> Result<Notes, AllocError> {
    plan_notes(rt.alloc(), made.texts, made.nodes, made.planned)
}

/// Prints a plan and writes its files. Warnings are looked for first, and the status tells of them.
fn give_strictly(
    rt: &HostRuntime,
    order: PlanOrder<'_>,
    is_told: bool,
    made: &Made<'_>,
) -> Result<u8, Failure> {
    let notes = notes(rt, made)?;
    let status = status_after(made.files.planned, !notes.warnings.is_empty());
    give_lines(rt, order, made)?;
    if is_told {
        tell(rt, notes.into_words());
    }
    Ok(status)
}

/// Prints a plan and writes its files. What is to be said of it in words follows, if there is memory for it.
fn give(
    rt: &HostRuntime,
    order: PlanOrder<'_>,
    is_told: bool,
    made: &Made<'_>,
) -> Result<u8, Failure> {
    give_lines(rt, order, made)?;
    if is_told {
        if let Ok(notes) = notes(rt, made) {
            tell(rt, notes.into_words());
        }
    }
    Ok(status_after(made.files.planned, false))
}

/// The plan of a network: it is printed in a form, and written into a folder.
#[inline(never)]
pub fn plan(
    rt: &HostRuntime,
    order: PlanOrder<'_>,
    form: Form,
    inputs: &mut Inputs,
) -> Result<u8, Failure> {
    let tables = read_network(rt, &mut inputs.network, order.network)?;
    let texts = &inputs.network;
    let (planned, files) = texts.planned_with_files(rt.alloc(), &tables)?;
    let made = Made {
        texts,
        nodes: &tables.nodes,
        planned: &planned,
        files: &files,
    };
    let is_told = form == Form::Told;
    tell(rt, length_words(rt.alloc(), made.files.refusals.len()));
    if form == Form::Document {
        give_document(rt, order, &made)
    } else if order.strict {
        give_strictly(rt, order, is_told, &made)
    } else {
        give(rt, order, is_told, &made)
    }
}
