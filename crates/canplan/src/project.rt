//! A project file among the words: it is read, and the words that it stands for take its place.

use crate::faults::{tell, tell_failure};
use cop_answers::{Inputs, words_of_rule};
use cop_engine::{Fault, status};
use cop_files::{Failure, Form, read_file};
use cop_orders::Order;
use cop_project::{
    Project, ProjectFault, Refusal, is_said_twice, project_word, read_project, with_project,
};
use cop_words::{Source, maker_words};
use std::alloc::{AllocError, Global};
use std::io::{IsTerminal, Write};
use std::str;

/// The words to go on with, or the status of a fault that was said.
#[derive(Drop)]
pub enum Expanded {
    Words(Vec<String>),
    Status(u8),
}

/// What is said of a project file that is refused: the line with its text, or the file alone where it is none's, and the rule.
fn refusal_words(
    alloc: Global,
    source: Source<'_>,
    refusal: Refusal,
) -> Result<String, AllocError> {
    let Refusal { number, line } = refusal;
    let place = maker_words(alloc, source, number, line as usize)?;
    let rule = words_of_rule(alloc, number)?;
    let (name, rule) = (source.name, str::from_utf8(&rule).unwrap_or(""));
    match str::from_utf8(&place) {
        Ok(place) if !place.is_empty() => format!(in alloc; "{place}{rule}"),
        _ => format!(in alloc; "{name}\n{rule}"),
    }
}

/// The failure of a project file.
fn project_failure(alloc: Global, source: Source<'_>, fault: &ProjectFault) -> Failure {
    let Some(refusal) = fault.refusal() else {
        return Failure::from(Fault::Memory);
    };
    Failure {
        fault: Fault::Refused {
            number: refusal.number,
            place: refusal.line,
        },
        reason: refusal_words(alloc, source, refusal).ok(),
    }
}

/// What a project file says.
fn project_at(rt: &HostRuntime, name: &str) -> Result<Project, Failure> {
    let text = read_file(rt, name)?;
    match read_project(rt.alloc(), &text) {
        Ok(project) => Ok(project),
        Err(fault) => {
            let source = Source { name, text: &text };
            Err(project_failure(rt.alloc(), source, &fault))
        }
    }
}

/// Whether a word stands among the words.
fn has(words: &[String], wanted: &str) -> bool {
    words.iter().any(|word| word.as_str() == wanted)
}

/// Whether standard output is the port of a machine.
fn is_port(words: &[String]) -> bool {
    has(words, "--port=-") || has(words, "--port") && has(words, "-")
}

/// In which form the fault of a project file is said. A document goes to standard output, and so to no port of a machine.
fn form_of(rt: &HostRuntime, words: &[String]) -> Form {
    if has(words, "--json") && !is_port(words) {
        Form::Document
    } else if has(words, "--explain") || rt.stderr().is_terminal() {
        Form::Told
    } else {
        Form::Lines
    }
}

/// Says that the words say what a project file says, too, and gives the status.
fn refuse_twice(rt: &HostRuntime, name: &str) -> Result<Expanded, Failure> {
    let fault = Fault::Usage;
    tell(rt, &fault);
    let line = format!(in rt.alloc();
        "canplan: {name} says the rates and the choice: leave --rates and --margin out\n"
    )?;
    let _ = rt.stderr().write_all(line.as_bytes());
    Ok(Expanded::Status(status(&fault)))
}

/// The words, with those that a project file among them stands for. Where one is refused or not read that is said.
pub fn expand(rt: &HostRuntime, words: Vec<String>) -> Result<Expanded, Failure> {
    let Some(place) = project_word(&words) else {
        return Ok(Expanded::Words(words));
    };
    let name = words[place].as_str();
    if is_said_twice(&words) {
        return refuse_twice(rt, name);
    }
    match project_at(rt, name) {
        Ok(project) => Ok(Expanded::Words(with_project(rt.alloc(), &words, place, &project)?)),
        Err(failure) => {
            let inputs = Inputs::new(rt.alloc());
            let order = Order::Explain { number: None };
            tell_failure(rt, order, form_of(rt, &words), &inputs, &failure);
            Ok(Expanded::Status(status(&failure.fault)))
        }
    }
}
