//! The devices of a planned network are asked over a port whether they are as planned.

ghost use Rattle.std.specs.Prelude.{◌≡◌, ◌⊎◌, length, IfOk, OnErr, MatchResult};
ghost use Rattle.cop_net.specs.Devices.{handed_in};
ghost use Rattle.cop_plan.specs.Plans.{IsPlan};
ghost use Rattle.cop_engine.specs.Networks.{ExplainsNetwork};
ghost use Rattle.cop_commission.specs.Commissioning.{meant_nodes};
ghost use Rattle.cop_verify.specs.Verifying.{IsVerified, IsVerifiedOrAbsent, IsVerifiedFor, IsVerifying, VerifyStops, StopsFor, VerifyingStops};

use crate::checks::checks_of;
use crate::telling::{are_planned, verify_answer};
use cop_boot_answer::BootAnswer;
use cop_commission::meant_nodes;
use cop_engine::{Fault, PlannedNetwork, planned};
use cop_frame::Rate;
use cop_identity::Exchange;
use cop_live::Port;
use cop_net::{Network, read_nodes, read_pdos};
use cop_plan::{Asked, Outcome, Plan};
use cop_survey::{Reason, Surveyed, survey};
use std::alloc::{AllocError, Global};

/// How the devices are asked.
#[derive(Clone, Copy, Debug, PartialEq, Eq)]
pub struct Way {
    /// The node that is asked alone. Otherwise all are.
    pub only: Option<u8>,
    /// For how many ticks of 250 ns nothing is sent before each question.
    pub pause: u64,
}

/// What came of it.
#[derive(Drop)]
pub enum Verified {
    /// The devices were asked at a rate: this is said of each, this came of each question, and each is as planned, or not.
    Asked {
        answer: BootAnswer,
        exchanges: Vec<Exchange>,
        planned: bool,
        rate: Rate,
    },
    /// Nothing was sent at a rate.
    Left {
        reason: Reason,
        rate: Rate,
    },
    /// The node that is meant alone has no device row: nothing was done at the port.
    Absent,
    /// No rate passes: nothing was done at the port.
    NonePasses,
    /// The port or its clock failed. Of frames questions alone were sent.
    Failed,
}

// Asks nodes of a network whether they are as its plan has them.
#[tactic(auto, using(crate::proofs::VerifyLemmas::asked_so, crate::proofs::VerifyLemmas::fails_so, crate::proofs::VerifyLemmas::stops_so, crate::proofs::VerifyLemmas::untold_so))]
fn verify_nodes<P: Port>(
    alloc: Global,
    network: &Network<'_>,
    plan: &Plan,
    nodes: &[u8],
    pause: u64,
    port: &mut P,
) -> Result<Verified, AllocError>
    requires { IsPlan network.now.equipment.rates network.now.set (length network.now.rows) plan.now }
    ensures verified { IfOk result (λ verified. IsVerified P.reads P.writes P.asks P.fails network.now plan.now.rate plan.now.ids nodes.now pause port.old port.new verified) }
    ensures short { OnErr result (VerifyStops P.reads P.writes P.asks network.now plan.now.rate plan.now.ids nodes.now pause port.old port.new) }
{
    let rate = plan.rate();
    let questions = checks_of(alloc, plan, network, nodes)?;
    match survey(alloc, rate, pause, &questions, port)? {
        Surveyed::Asked { exchanges } => {
            let answer = verify_answer(alloc, nodes, &exchanges)?;
            let planned = are_planned(&answer.nodes);
            Ok(Verified::Asked {
                answer,
                exchanges,
                planned,
                rate,
            })
        }
        Surveyed::Left { reason } => Ok(Verified::Left { reason, rate }),
        Surveyed::Failed => Ok(Verified::Failed),
    }
}

// Asks the nodes of a network that are meant whether they are as its plan has them.
fn verify_by<P: Port>(
    alloc: Global,
    network: &Network<'_>,
    plan: &Plan,
    way: Way,
    port: &mut P,
) -> Result<Verified, AllocError>
    requires { IsPlan network.now.equipment.rates network.now.set (length network.now.rows) plan.now }
    ensures verified { IfOk result (λ verified. IsVerifiedOrAbsent P.reads P.writes P.asks P.fails network.now plan.now.rate plan.now.ids (meant_nodes network.now way.only) way.pause port.old port.new verified) }
    ensures short { OnErr result (VerifyStops P.reads P.writes P.asks network.now plan.now.rate plan.now.ids (meant_nodes network.now way.only) way.pause port.old port.new) }
{
    let nodes = meant_nodes(alloc, network, way.only)?;
    if nodes.is_empty() {
        Ok(Verified::Absent)
    } else {
        verify_nodes(alloc, network, plan, &nodes, way.pause, port)
    }
}

/// Asks the devices of a planned network over a port whether they are as planned, one node alone or all. The adapter
/// is opened at the plan's rate, after it was listened for 2 s, or until somebody is heard to run, which is no fault. Of each node is asked who its device
/// is (1000h, 1018h), what the plan relies on in it (types and mappings of used PDOs, and that each other PDO is off), and what the plan sets. Of
/// frames requests of uploads alone are sent, each once the pause has passed since the one before; then the adapter is closed. If no rate
/// passes nothing is done. `Err` is want of memory.
pub fn verify_planned<P: Port>(
    alloc: Global,
    planned: &PlannedNetwork<'_>,
    way: Way,
    port: &mut P,
) -> Result<Verified, AllocError>
    ensures verified { IfOk result (λ verified. IsVerifiedFor P.reads P.writes P.asks P.fails planned.now.net planned.now.outcome way port.old port.new verified) }
    ensures short { OnErr result (StopsFor P.reads P.writes P.asks planned.now.net planned.now.outcome way port.old port.new) }
{
    let (network, outcome) = planned.parts();
    match outcome {
        Outcome::Planned(plan) => verify_by(alloc, network, plan, way, port),
        Outcome::Refused(_) => Ok(Verified::NonePasses),
    }
}

/// Asks the devices of the network of some tables and EDS files whether they are as its plan has them, as `verify_planned` does it. Otherwise the
/// first rule that the network breaks, or want of memory.
pub fn verify<P: Port>(
    alloc: Global,
    nodes: &[u8],
    pdos: &[u8],
    eds_files: &[(String, Vec<u8>)],
    asked: &Asked,
    way: Way,
    port: &mut P,
) -> Result<Verified, Fault>
    ensures verified { MatchResult result
        (λ verified. IsVerifying P.reads P.writes P.asks P.fails asked.now nodes.now pdos.now (handed_in eds_files.now) way port.old port.new verified)
        (λ fault. ExplainsNetwork asked.now.rates nodes.now pdos.now (handed_in eds_files.now) fault) }
    ensures short { OnErr result ((port.old ≡ port.new) ⊎ VerifyingStops P.reads P.writes P.asks asked.now nodes.now pdos.now (handed_in eds_files.now) way port.old port.new) }
{
    let nodes = read_nodes(alloc, nodes)?;
    let pdos = read_pdos(alloc, pdos)?;
    let planned = planned(alloc, asked, &nodes, &pdos, eds_files)?;
    Ok(verify_planned(alloc, &planned, way, port)?)
}
