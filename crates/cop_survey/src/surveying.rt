//! A survey of devices over a port, from the opening of the adapter to its closing.

ghost use Rattle.std.specs.Prelude.{IfOk, OnErr};
ghost use Rattle.cop_survey.specs.Asking.{AskedSome};
ghost use Rattle.cop_survey.specs.Surveying.{IsSurvey, Asks, if_failed, AsksFail, SurveyFails, SurveyStops};

use crate::asking::ask_all;
use crate::reaching::{Reached, Reason, reach};
use cop_frame::Rate;
use cop_identity::{Exchange, Question};
use cop_live::{Port, close};
use std::alloc::{AllocError, Global};

/// What came of a survey.
#[derive(Drop)]
pub enum Surveyed {
    /// The devices were asked, and this came of each question.
    Asked { exchanges: Vec<Exchange> },
    /// Nothing was sent.
    Left { reason: Reason },
    /// The port or its clock failed.
    Failed,
}

// Asks questions over an open adapter, and closes it.
fn ask_and_close<P: Port>(
    alloc: Global,
    ticks: u64,
    questions: &[Question],
    port: &mut P,
) -> Result<Surveyed, AllocError>
    ensures asks { IfOk result (λ survey. Asks P.reads P.writes P.asks ticks questions.now port.old port.new survey) }
    ensures failed { IfOk result (λ survey. if_failed survey (AsksFail P.reads P.writes P.asks P.fails ticks questions.now port.old port.new)) }
    ensures short { OnErr result (AskedSome P.reads P.writes P.asks ticks questions.now port.old port.new) }
{
    let Some(exchanges) = ask_all(alloc, ticks, questions, port)? else {
        return Ok(Surveyed::Failed);
    };
    if close(port) {
        Ok(Surveyed::Asked { exchanges })
    } else {
        Ok(Surveyed::Failed)
    }
}

/// Reaches the bus at a rate, asks questions in their order, each once so many ticks have passed since the one before, and closes the adapter.
/// A node that was silent is not asked again; the questions to one node stand together. `Failed` where the port or its clock fails, and
/// otherwise want of memory.
pub fn survey<P: Port>(
    alloc: Global,
    rate: Rate,
    ticks: u64,
    questions: &[Question],
    port: &mut P,
) -> Result<Surveyed, AllocError>
    ensures survey { IfOk result (λ survey. IsSurvey P.reads P.writes P.asks rate ticks questions.now port.old port.new survey) }
    ensures failed { IfOk result (λ survey. if_failed survey (SurveyFails P.reads P.writes P.asks P.fails rate ticks questions.now port.old port.new)) }
    ensures short { OnErr result (SurveyStops P.reads P.writes P.asks rate ticks questions.now port.old port.new) }
{
    match reach(rate, port) {
        Reached::Open => ask_and_close(alloc, ticks, questions, port),
        Reached::Left { reason } => Ok(Surveyed::Left { reason }),
        Reached::Failed => Ok(Surveyed::Failed),
    }
}
