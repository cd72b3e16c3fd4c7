//! A network as it stands, tested at each of its rates.

ghost use Rattle.std.specs.Prelude.{◌≡◌, ◌≢◌, [], ℕ, ◌<◌, ◌≤◌, IfOk, MatchOption, MatchResult, Contains, All, length, get_or};
ghost use Rattle.cop_standing.specs.declared.answers.Answer.{Answer};
ghost use Rattle.cop_standing.specs.Answers.{AreAnswers, IsStanding, IsSlowest};
ghost use Rattle.cop_standing.specs.Identifiers.{StandAs, Explains};

use crate::answers::{Answer, answer_at};
use crate::faults::StandingFault;
use crate::identifiers::standing_ids;
use crate::renaming::renamed;
use cop_frame::{Rate, RateSet};
use cop_net::Network;
use cop_rta::StreamSet;
use std::alloc::{AllocError, Global};

/// A network as it stands: its streams, each PDO under its device's own identifier, and what the test says of them at each rate.
#[derive(Drop)]
pub struct Standing {
    /// The streams, the PDOs first, in the order of their rows.
    pub streams: StreamSet,
    /// The answers, slowest rate first.
    pub answers: Vec<Answer>,
}

/// The streams of a network as it stands: each PDO has the identifier that its device has for it by its EDS file, whether or not it is switched on.
/// Otherwise the first row whose PDO cannot keep it, or want of memory.
pub fn standing_streams(alloc: Global, network: &Network<'_>) -> Result<StreamSet, StandingFault>
    ensures { MatchResult result (λ set. StandAs network.now set) (Explains network.now) }
{
    let ids = standing_ids(alloc, network)?;
    Ok(renamed(alloc, network.set(), &ids)?)
}

/// The answers at some rates, slowest first.
fn answers_at(
    alloc: Global,
    set: &StreamSet,
    pdos: usize,
    rates: &RateSet,
) -> Result<Vec<Answer>, AllocError>
    ensures { IfOk result (λ answers. AreAnswers set.now pdos (Contains rates.now) answers.items) }
{
    let mut answers = Vec::new(alloc);
    for rate in Rate::ALL {
        if rates.contains(rate) {
            answers.push(answer_at(alloc, set, pdos, rate)?)?;
        }
    }
    Ok(answers)
}

/// What the test says of a network as it stands, at each of its rates: no identifier is chosen. Otherwise the first row whose PDO cannot keep its own,
/// or want of memory.
pub fn tested_as_is(alloc: Global, network: &Network<'_>) -> Result<Standing, StandingFault>
    ensures { MatchResult result (IsStanding network.now) (Explains network.now) }
{
    let streams = standing_streams(alloc, network)?;
    let answers = answers_at(alloc, &streams, network.pdos(), &network.rates())?;
    Ok(Standing { streams, answers })
}

/// The place of the slowest rate at which all pass, among answers that go by rising rate.
pub fn slowest(answers: &[Answer]) -> Option<usize>
    ensures { MatchOption result (All (λ a. a.failing.items ≢ []) answers.now) (IsSlowest answers.now) }
{
    for place in 0..answers.len() {
        if answers[place].failing.is_empty() {
            return Some(place);
        }
    }
    None
}
