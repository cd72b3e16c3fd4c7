//! The plan of a network, from its files to the files of the plan.

ghost use Rattle.std.specs.Prelude.{List, length, IfOk, All, MatchResult};
ghost use Rattle.cop_cert.specs.Causes.{IsRefusal};
ghost use Rattle.cop_net.specs.Devices.{File, handed_in};
ghost use Rattle.cop_plan.specs.Plans.{IsPlan, IsOutcome};
ghost use Rattle.cop_plan.specs.declared.assigning.Outcome.TheVariants.{Planned, Refused};
ghost use Rattle.cop_engine.specs.Networks.{ExplainsNetwork};
ghost use Rattle.cop_engine.specs.Dcfs.{HaveTexts};
ghost use Rattle.cop_engine.specs.PlanTexts.{HasIdentifier};
ghost use Rattle.cop_engine.specs.Plans.{AreFilesFor, IsPlanText};
ghost use Rattle.cop_engine.specs.Guarantee.{AreGuaranteedFiles};

use crate::dcfs::{DcfFile, dcf_files};
use crate::faults::Fault;
use crate::plan_texts::{planned_text, refused_text};
use crate::planned_networks::planned_with_files;
use crate::tests_of_streams::judge_first;
use cop_cert::{Items, Refusal, write_file};
use cop_net::{EdsFiles, Network, read_nodes, read_pdos};
use cop_plan::{Asked, Outcome, Plan};
use std::alloc::{AllocError, Global};

/// What `plan` gives: the text of the plan, the refusal file, and the DCF file of each device.
#[derive(Drop)]
pub struct Files {
    /// Whether some rate passes.
    pub planned: bool,
    pub plan: Vec<u8>,
    pub refusals: Vec<u8>,
    /// By rising node; none where no rate passes.
    pub dcf: Items<DcfFile>,
}

/// The text of a plan of a network, with the response of each PDO.
fn plan_text(alloc: Global, network: &Network<'_>, plan: &Plan) -> Result<Vec<u8>, AllocError>
    requires { IsPlan network.now.equipment.rates network.now.set (length network.now.rows) plan.now }
    ensures { IfOk result (λ text. IsPlanText network.now.rows plan.now text.items) }
{
    let verdicts = judge_first(alloc, plan.streams(), plan.rate(), network.pdos())?;
    planned_text(alloc, network.rows(), &verdicts, plan)
}

/// The files of a plan of a network.
fn planned_files(
    alloc: Global,
    network: &Network<'_>,
    plan: &Plan,
    eds_files: &EdsFiles<'_>,
) -> Result<Files, AllocError>
    requires plan { IsPlan network.now.equipment.rates network.now.set (length network.now.rows) plan.now }
    requires texts { HaveTexts eds_files.now network.now.nodes.devices }
    ensures { IfOk result (AreFilesFor eds_files.now network.now (Planned plan.now)) }
{
    Ok(Files {
        planned: true,
        plan: plan_text(alloc, network, plan)?,
        refusals: write_file(alloc, network.set(), network.pdos(), plan.refusals())?,
        dcf: dcf_files(alloc, network, plan, eds_files)?,
    })
}

/// The files where no rate passes.
fn refused_files(
    alloc: Global,
    network: &Network<'_>,
    refusals: &[Refusal],
) -> Result<Files, AllocError>
    requires named { All (λ r. HasIdentifier r.cause) refusals.now }
    requires hold { All (IsRefusal network.now.set (length network.now.rows)) refusals.now }
    ensures { (eds : List File) → IfOk result (AreFilesFor eds network.now (Refused refusals.now)) }
{
    Ok(Files {
        planned: false,
        plan: refused_text(alloc, refusals)?,
        refusals: write_file(alloc, network.set(), network.pdos(), refusals)?,
        dcf: Items::new(alloc),
    })
}

/// The files of what the planner answers for a network.
pub(crate) fn outcome_files(
    alloc: Global,
    network: &Network<'_>,
    outcome: &Outcome,
    eds_files: &EdsFiles<'_>,
) -> Result<Files, AllocError>
    requires outcome { IsOutcome network.now.equipment.rates network.now.set (length network.now.rows) outcome.now }
    requires texts { HaveTexts eds_files.now network.now.nodes.devices }
    ensures { IfOk result (AreFilesFor eds_files.now network.now outcome.now) }
{
    match outcome {
        Outcome::Planned(plan) => planned_files(alloc, network, plan, eds_files),
        Outcome::Refused(refusals) => refused_files(alloc, network, refusals.as_slice()),
    }
}

/// The plan that is asked of a network, from its tables and its EDS files: a table of nodes, a table of PDOs, and the EDS
/// files by the names that the devices give. Otherwise the first rule that they break, or want of memory.
///
/// What the files guarantee is told at [`planner_guarantee`](crate::planner_guarantee).
pub fn plan_bytes(
    alloc: Global,
    nodes: &[u8],
    pdos: &[u8],
    eds_files: &[(String, Vec<u8>)],
    asked: &Asked,
) -> Result<Files, Fault>
    ensures { MatchResult result (AreGuaranteedFiles asked.now nodes.now pdos.now (handed_in eds_files.now))
        (λ fault. ExplainsNetwork asked.now.rates nodes.now pdos.now (handed_in eds_files.now) fault) }
{
    let nodes = read_nodes(alloc, nodes)?;
    let pdos = read_pdos(alloc, pdos)?;
    let planned = planned_with_files(alloc, asked, &nodes, &pdos, eds_files)?;
    Ok(planned.1)
}
