//! The check of a refusal file against a network.

ghost use Rattle.std.specs.Prelude.{◌≡◌, ◌≤◌, ◌↔◌, ◌++◌, true, false, get_or, length, OnOk, IfOk, IsTrue, MatchResult, All};
ghost use Rattle.cop_net.specs.Devices.{handed_in};
ghost use Rattle.cop_engine.specs.Reports.{lines_below};
ghost use Rattle.cop_engine.specs.Checks.{said, check_line, check_line_at, AreChecked, IsCheckOf, ExplainsCheck};

use crate::faults::Fault;
use crate::reports::push_number;
use cop_cert::{Refusal, check, read};
use cop_frame::RateSet;
use cop_net::{Network, network, read_nodes, read_pdos};
use cop_rta::StreamSet;
use std::alloc::{AllocError, Global};

/// What is said of a refusal.
fn push_said(text: &mut Vec<u8>, holds: bool) -> Result<(), AllocError>
    ensures { OnOk result (text.new.items ≡ text.old.items ++ said holds) }
{
    if holds {
        text.extend_from_slice(b" holds\n")
    } else {
        text.extend_from_slice(b" fails\n")
    }
}

/// The line of a refusal.
fn push_check(text: &mut Vec<u8>, refusal: &Refusal, holds: bool) -> Result<(), AllocError>
    ensures { OnOk result (text.new.items ≡ text.old.items ++ check_line refusal.now holds) }
{
    push_number(text, u64::from(refusal.rate.kbits()))?;
    push_said(text, holds)
}

/// Whether the refusal at a place holds.
fn holds_at(answers: &[bool], place: usize) -> bool
    ensures { result ≡ get_or answers.now place false }
{
    match answers.get(place) {
        Some(holds) => *holds,
        None => false,
    }
}

/// A line for each refusal: its rate, and whether it holds.
pub fn checks_text(
    alloc: Global,
    refusals: &[Refusal],
    answers: &[bool],
) -> Result<Vec<u8>, AllocError>
    ensures { IfOk result (λ text. text.items ≡ lines_below (check_line_at refusals.now answers.now) (length refusals.now)) }
{
    let mut text = Vec::new(alloc);
    for (k, refusal) in refusals.iter().enumerate() {
        push_check(&mut text, refusal, holds_at(answers, k))?;
    }
    Ok(text)
}

/// Whether each refusal holds.
fn check_each(
    alloc: Global,
    set: &StreamSet,
    pdos: usize,
    refusals: &[Refusal],
) -> Result<Vec<bool>, AllocError>
    requires { pdos ≤ length set.now }
    ensures { IfOk result (λ answers. AreChecked set.now pdos refusals.now answers.items (length refusals.now)) }
{
    let mut answers = Vec::new(alloc);
    for refusal in refusals {
        answers.push(check(set, pdos, refusal))?;
    }
    Ok(answers)
}

/// Whether all refusals hold.
pub fn all_hold(answers: &[bool]) -> bool
    ensures { IsTrue result ↔ All (λ answer. answer ≡ true) answers.now }
{
    answers.iter().all(|answer| *answer)
}

/// Whether each refusal holds against a network.
pub fn checked(
    alloc: Global,
    network: &Network<'_>,
    refusals: &[Refusal],
) -> Result<Vec<bool>, AllocError>
    ensures { IfOk result (λ answers. AreChecked network.now.set (length network.now.rows) refusals.now answers.items (length refusals.now)) }
{
    check_each(alloc, network.set(), network.pdos(), refusals)
}

/// The check of a refusal file against the network of some tables and EDS files: a line for each refusal, and whether all
/// hold. Otherwise the first rule that the network breaks, or else that the file breaks, or want of memory.
pub fn check_bytes(
    alloc: Global,
    wanted: &RateSet,
    nodes: &[u8],
    pdos: &[u8],
    eds_files: &[(String, Vec<u8>)],
    refusals: &[u8],
) -> Result<(Vec<u8>, bool), Fault>
    ensures { MatchResult result (λ found. IsCheckOf wanted.now nodes.now pdos.now (handed_in eds_files.now) refusals.now found.0.items found.1)
        (λ fault. ExplainsCheck wanted.now nodes.now pdos.now (handed_in eds_files.now) refusals.now fault) }
{
    let nodes = read_nodes(alloc, nodes)?;
    let pdos = read_pdos(alloc, pdos)?;
    let network = network(alloc, wanted, &nodes, &pdos, eds_files)?;
    let refusals = read(alloc, refusals)?;
    let answers = checked(alloc, &network, &refusals)?;
    Ok((checks_text(alloc, &refusals, &answers)?, all_hold(&answers)))
}
