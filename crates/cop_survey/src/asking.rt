//! Devices are asked over a port, with a pause before each question.

ghost use Rattle.std.specs.Prelude.{◌≡◌, true, false, IfSome, IfNone, IfOk, OnErr};
ghost use Rattle.cop_identity.specs.Asking.{is_silent, silent_after};
ghost use Rattle.cop_survey.specs.Asking.{Pauses, PauseFails, WasNext, NextFails, AskedAll, AskingFails, AskedSome};

use cop_identity::{Exchange, Outcome, Question, ask};
use cop_live::Port;
use std::alloc::{AllocError, Global};

/// Waits for so many ticks, and drops what comes meanwhile. `false` where the port or its clock fails.
pub fn wait<P: Port>(ticks: u64, port: &mut P) -> bool
    ensures paused { result ≡ true → Pauses P.reads P.writes P.asks ticks port.old port.new }
    ensures failed { result ≡ false → PauseFails P.reads P.writes P.asks P.fails port.old port.new }
{
    let Some(began) = port.now() else {
        return false;
    };
    for _turn in 0..u64::MAX {
        let Some(now) = port.now() else {
            return false;
        };
        if now.saturating_sub(began) >= ticks {
            return true;
        }
        let mut buffer = [0; 256];
        let Some(_) = port.read(&mut buffer) else {
            return false;
        };
    }
    false
}

// Whether a node is the one that was silent.
fn is_silent(silent: Option<u8>, node: u8) -> bool
    ensures { result ≡ is_silent silent node }
{
    match silent {
        Some(number) => number == node,
        None => false,
    }
}

// The node that was silent last.
fn silent_after(silent: Option<u8>, node: u8, outcome: Outcome) -> Option<u8>
    ensures { result ≡ silent_after silent node outcome }
{
    match outcome {
        Outcome::Silent => Some(node),
        Outcome::Answered { .. } | Outcome::Unasked => silent,
    }
}

// Asks a question behind a pause, unless its node was silent.
fn ask_next<P: Port>(
    ticks: u64,
    silent: Option<u8>,
    question: &Question,
    port: &mut P,
) -> Option<Outcome>
    ensures asked { IfSome result (λ outcome. WasNext P.reads P.writes P.asks ticks (is_silent silent question.now.node) question.now port.old outcome port.new) }
    ensures failed { IfNone result (NextFails P.reads P.writes P.asks P.fails ticks (is_silent silent question.now.node) question.now port.old port.new) }
{
    if is_silent(silent, question.node) {
        return Some(Outcome::Unasked);
    }
    if wait(ticks, port) {
        ask(question, port)
    } else {
        None
    }
}

/// Asks questions in their order, each once so many ticks have passed since the one before, and waits for each answer; a node that was silent
/// is not asked again. Those of one node stand together. `None` where the port or its clock fails, and otherwise want of memory.
pub fn ask_all<P: Port>(
    alloc: Global,
    ticks: u64,
    questions: &[Question],
    port: &mut P,
) -> Result<Option<Vec<Exchange>>, AllocError>
    ensures asked { IfOk result (λ asked. IfSome asked (λ all. AskedAll P.reads P.writes P.asks ticks questions.now port.old all.items port.new)) }
    ensures failed { IfOk result (λ asked. IfNone asked (AskingFails P.reads P.writes P.asks P.fails ticks questions.now port.old port.new)) }
    ensures short { OnErr result (AskedSome P.reads P.writes P.asks ticks questions.now port.old port.new) }
{
    let mut all = Vec::new(alloc);
    let mut silent = None;
    for question in questions {
        let Some(outcome) = ask_next(ticks, silent, question, port) else {
            return Ok(None);
        };
        silent = silent_after(silent, question.node, outcome);
        all.push(Exchange {
            question: *question,
            outcome,
        })?;
    }
    Ok(Some(all))
}
