//! Settings are read back, question after question.

ghost use Rattle.std.specs.Prelude.{◌≡◌, ◌∷◌, [], ℕ, List, map, IfSome, IfNone, IfOk, OnErr};
ghost use Rattle.cop_live.specs.Session.{turns};
ghost use Rattle.cop_identity.specs.Questions.{request_of};
ghost use Rattle.cop_live.specs.Session.{Request};
ghost use Rattle.cop_readback.specs.Reading.{Round, round_steps, rounds_steps, exchanges_of, IsOutcome, IsRound, AreRounds, Steps, is_wanted, are_right_at, all_wanted, is_ready_end, is_ready_at, are_ready, is_asked};
ghost use Rattle.cop_readback.specs.Reading.{AwaitingFails, RequestFails, RoundFails, RoundsFail, RoundsStop};

use cop_boot::{End, Manager};
use cop_identity::{Answer, Exchange, Outcome, Question, answer_from, limit_of, request_of};
use cop_live::{Boot, Port, send, take_turn};
use cop_slcan::Reader;
use std::alloc::{AllocError, Global};

/// Whether the answer is the one that is wanted.
pub fn is_wanted(outcome: &Outcome) -> bool
    ensures { result ≡ is_wanted outcome.now }
{
    matches!(
        outcome,
        Outcome::Answered {
            answer: Answer::Wanted
        }
    )
}

/// Whether each question was answered as it should be.
pub fn all_wanted(all: &[Exchange]) -> bool
    ensures { result ≡ all_wanted all.now }
{
    all.iter().all(|asked| is_wanted(&asked.outcome))
}

// Whether each question to a node was.
fn are_right_at(node: u8, all: &[Exchange]) -> bool
    ensures { result ≡ are_right_at node all.now }
{
    all.iter().all(|asked| asked.question.node != node || is_wanted(&asked.outcome))
}

// Whether the end of a node's boot is that it is ready.
fn is_ready_end(end: Option<End>) -> bool
    ensures { result ≡ is_ready_end end }
{
    match end {
        Some(End::Ready) => true,
        Some(End::Aborted { .. } | End::Silent { .. } | End::Restarting { .. }) | None => false,
    }
}

// Whether a node is ready.
fn is_ready_at(manager: &Manager, node: u8) -> bool
    ensures { result ≡ is_ready_at manager.now.nodes node }
{
    is_ready_end(manager.end(node))
}

/// Whether each of some nodes is ready.
pub fn are_ready(manager: &Manager, nodes: &[u8]) -> bool
    ensures { result ≡ are_ready manager.now.nodes nodes.now }
{
    nodes.iter().all(|node| is_ready_at(manager, *node))
}

// Whether a question is asked: its node is ready, and has answered each question before as it should.
fn is_asked(manager: &Manager, before: &[Exchange], question: &Question) -> bool
    ensures { result ≡ is_asked manager.now before.now question.now }
{
    is_ready_at(manager, question.node) && are_right_at(question.node, before)
}

// Takes turns until a question is answered, or its limit has passed.
fn await_answer<P: Port>(
    question: &Question,
    manager: &mut Manager,
    boot: &mut Boot,
    port: &mut P,
) -> Option<Outcome>
    ensures began { boot.new.began ≡ boot.old.began }
    ensures awaited { IfSome result (λ outcome. (taken : List (ℕ × List ℕ)) × IsOutcome question.now taken outcome
        × Steps P.reads P.writes P.asks boot.old.began (record { manager = manager.old; pending = boot.old.reader }) boot.old.booted port.old (turns taken)
        (record { manager = manager.new; pending = boot.new.reader }) boot.new.booted port.new) }
    ensures failed { IfNone result (AwaitingFails P.reads P.writes P.asks P.fails boot.old.began (record { manager = manager.old; pending = boot.old.reader }) port.old port.new) }
{
    let limit = limit_of(question.demand);
    let mut reader = Reader::new();
    let mut first = None;
    let mut buffer = [0; 256];
    for _turn in 0..u64::MAX {
        let Some(turn) = take_turn(manager, boot, port, &mut buffer) else {
            return None;
        };
        if let Some(answer) = answer_from(question, &mut reader, &buffer[..turn.count]) {
            return Some(Outcome::Answered { answer });
        }
        let since = first.unwrap_or(turn.now);
        if turn.now.saturating_sub(since) >= limit {
            return Some(Outcome::Silent);
        }
        first = Some(since);
    }
    None
}

// Asks a question.
fn ask<P: Port>(
    question: &Question,
    manager: &mut Manager,
    boot: &mut Boot,
    port: &mut P,
) -> Option<Outcome>
    ensures began { boot.new.began ≡ boot.old.began }
    ensures asked { IfSome result (λ outcome. (taken : List (ℕ × List ℕ)) × IsOutcome question.now taken outcome
        × Steps P.reads P.writes P.asks boot.old.began (record { manager = manager.old; pending = boot.old.reader }) boot.old.booted port.old (Request (request_of question.now) ∷ turns taken)
        (record { manager = manager.new; pending = boot.new.reader }) boot.new.booted port.new) }
    ensures failed { IfNone result (RequestFails P.reads P.writes P.asks P.fails boot.old.began (record { manager = manager.old; pending = boot.old.reader }) question.now port.old port.new) }
{
    if !send(port, &request_of(question)) {
        return None;
    }
    await_answer(question, manager, boot, port)
}

// Asks a question behind others, unless it is left out.
fn ask_next<P: Port>(
    before: &[Exchange],
    question: &Question,
    manager: &mut Manager,
    boot: &mut Boot,
    port: &mut P,
) -> Option<Outcome>
    ensures began { boot.new.began ≡ boot.old.began }
    ensures asked { IfSome result (λ outcome. (taken : List (ℕ × List ℕ)) × IsRound manager.old before.now (record { exchange = record { question = question.now; outcome = outcome }; taken = taken })
        × Steps P.reads P.writes P.asks boot.old.began (record { manager = manager.old; pending = boot.old.reader }) boot.old.booted port.old (round_steps (record { exchange = record { question = question.now; outcome = outcome }; taken = taken }))
        (record { manager = manager.new; pending = boot.new.reader }) boot.new.booted port.new) }
    ensures failed { IfNone result (RoundFails P.reads P.writes P.asks P.fails boot.old.began (record { manager = manager.old; pending = boot.old.reader }) before.now question.now port.old port.new) }
{
    if is_asked(manager, before, question) {
        ask(question, manager, boot, port)
    } else {
        Some(Outcome::Unasked)
    }
}

/// Asks questions in their order after a boot, and waits for each answer as long as `limit_of` says, while the manager meets all that comes. A question is left out where its
/// node is not ready, or has answered one before otherwise than it should. `None` where the port or its clock fails, and otherwise want
/// of memory.
pub(crate) fn read_back<P: Port>(
    alloc: Global,
    questions: &[Question],
    manager: &mut Manager,
    boot: &mut Boot,
    port: &mut P,
) -> Result<Option<Vec<Exchange>>, AllocError>
    ensures began { boot.new.began ≡ boot.old.began }
    ensures asked { IfOk result (λ asked. IfSome asked (λ all. (rounds : List Round) × (all.items ≡ exchanges_of rounds) × (map (λ one. one.question) (exchanges_of rounds) ≡ questions.now)
        × AreRounds boot.old.began (record { manager = manager.old; pending = boot.old.reader }) [] rounds
        × Steps P.reads P.writes P.asks boot.old.began (record { manager = manager.old; pending = boot.old.reader }) boot.old.booted port.old (rounds_steps rounds)
        (record { manager = manager.new; pending = boot.new.reader }) boot.new.booted port.new)) }
    ensures failed { IfOk result (λ asked. IfNone asked (RoundsFail P.reads P.writes P.asks P.fails questions.now boot.old.began (record { manager = manager.old; pending = boot.old.reader }) port.old port.new)) }
    ensures short { OnErr result (RoundsStop P.reads P.writes P.asks questions.now boot.old.began (record { manager = manager.old; pending = boot.old.reader }) port.old port.new) }
{
    let mut all = Vec::new(alloc);
    for question in questions {
        let Some(outcome) = ask_next(&all, question, manager, boot, port) else {
            return Ok(None);
        };
        all.push(Exchange {
            question: *question,
            outcome,
        })?;
    }
    Ok(Some(all))
}
