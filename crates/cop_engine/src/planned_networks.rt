//! A network and what the planner answers for it, which a call makes once.

ghost use Rattle.std.specs.Prelude.{◌≡◌, length, IfOk, MatchResult};
ghost use Rattle.cop_net.specs.Devices.{handed_in};
ghost use Rattle.cop_net.specs.Network.{IsNetwork};
ghost use Rattle.cop_plan.specs.Plans.{IsOutcome, IsChosenBy};
ghost use Rattle.cop_engine.specs.Dcfs.{HaveTexts};
ghost use Rattle.cop_engine.specs.PlannedNetworks.{IsPlanningOf, ExplainsMaking};
ghost use Rattle.cop_engine.specs.PlanTexts.{is_planned};
ghost use Rattle.cop_engine.specs.Plans.{AreFilesFor};

use crate::plans::{Files, outcome_files};
use cop_net::{EdsFiles, Network, NodeTable, PdoTable, PlanFault, network, network_of_files};
use cop_plan::{Asked, Choice, Outcome, plan};
use std::alloc::{AllocError, Global};
use std::marker::Model;

/// A network and what the planner answers for it.
pub struct PlannedNetwork<'a> {
    network: Network<'a>,
    outcome: Outcome,
}

/// One call on each way out is cheaper to prove than the fields one by one.
impl Drop for PlannedNetwork<'_> {
    fn drop(self) {
        let PlannedNetwork {
            network: _network,
            outcome: _outcome,
        } = self;
    }
}

impl<'a> Model for PlannedNetwork<'a> {
    ghost use Rattle.cop_engine.specs.PlannedNetworks.{Planning, IsPlanning};

    ghost Value = { Planning };

    ghost view = { λ p. record { net = p.network; outcome = p.outcome } };

    ghost invariant = { λ p. IsPlanning (record { net = p.network; outcome = p.outcome }) };
}

impl<'a> PlannedNetwork<'a> {
    /// Plans a network, by the order of plans or by the greatest margin.
    fn of(
        alloc: Global,
        network: Network<'a>,
        choice: Choice,
    ) -> Result<PlannedNetwork<'a>, AllocError>
        ensures network { IfOk result (λ p. p.net ≡ network.entry) }
        ensures chosen { IfOk result (λ p. IsChosenBy choice p.outcome) }
    {
        let outcome = plan(alloc, &network, choice)?;
        Ok(PlannedNetwork { network, outcome })
    }

    /// The network, and the plan or the refusals of all rates.
    pub fn parts(&self) -> (&Network<'a>, &Outcome)
        ensures network { result.0.now ≡ self.now.net }
        ensures outcome { result.1.now ≡ self.now.outcome }
        ensures is_network { IsNetwork result.0.now }
        ensures planned { IsOutcome result.0.now.equipment.rates result.0.now.set (length result.0.now.rows) result.1.now }
    {
        (&self.network, &self.outcome)
    }

    /// The plan alone, or the refusals of all rates.
    pub(crate) fn into_outcome(self) -> Outcome
        ensures { result ≡ self.entry.outcome }
    {
        let PlannedNetwork {
            network: _network,
            outcome,
        } = self;
        outcome
    }

    /// Whether some rate passes.
    pub fn is_planned(&self) -> bool
        ensures { result ≡ is_planned self.now.outcome }
    {
        matches!(self.outcome, Outcome::Planned(_))
    }
}

/// What the planner answers for what is asked of the network that tables and EDS files make. The files have names and texts; of two with
/// one name the first counts. Otherwise the first rule that they break, or want of memory.
pub fn planned<'a>(
    alloc: Global,
    asked: &Asked,
    nodes: &'a NodeTable,
    pdos: &'a PdoTable,
    eds_files: &[(String, Vec<u8>)],
) -> Result<PlannedNetwork<'a>, PlanFault>
    ensures { MatchResult result (IsPlanningOf asked.now nodes.now pdos.now (handed_in eds_files.now)) (ExplainsMaking asked.now nodes.now pdos.now (handed_in eds_files.now)) }
{
    let network = network(alloc, &asked.rates, nodes, pdos, eds_files)?;
    Ok(PlannedNetwork::of(alloc, network, asked.choice)?)
}

/// The same with the files of the plan, which has a DCF file for each device.
pub fn planned_with_files<'a>(
    alloc: Global,
    asked: &Asked,
    nodes: &'a NodeTable,
    pdos: &'a PdoTable,
    eds_files: &[(String, Vec<u8>)],
) -> Result<(PlannedNetwork<'a>, Files), PlanFault>
    ensures planned { MatchResult result (λ r. IsPlanningOf asked.now nodes.now pdos.now (handed_in eds_files.now) r.0) (ExplainsMaking asked.now nodes.now pdos.now (handed_in eds_files.now)) }
    ensures files { IfOk result (λ r. AreFilesFor (handed_in eds_files.now) r.0.net r.0.outcome r.1) }
{
    let eds_files = EdsFiles::new(alloc, eds_files)?;
    let network = network_of_files(alloc, &asked.rates, nodes, pdos, &eds_files)?;
    let planned = PlannedNetwork::of(alloc, network, asked.choice)?;
    let (network, outcome) = planned.parts();
    let files = outcome_files(alloc, network, outcome, &eds_files)?;
    Ok((planned, files))
}
