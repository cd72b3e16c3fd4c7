//! What the devices of a planned network are asked where it is verified.

ghost use Rattle.std.specs.Prelude.{◌≡◌, ◌++◌, length, IfOk, OnOk};
ghost use Rattle.cop_plan.specs.Plans.{IsPlan};
ghost use Rattle.cop_dcf.specs.Settings.{dictionary_of};
ghost use Rattle.cop_verify.specs.Checks.{demand_of, check_of, checks_about, node_checks, checks_of};

use cop_boot::Setting;
use cop_commission::{add_identity, add_relied, is_set_again, question_about, switches_off};
use cop_dcf::settings;
use cop_identity::{Demand, Question};
use cop_net::Network;
use cop_plan::Plan;
use std::alloc::{AllocError, Global};

// What a device is to tell about a setting: any COB-ID with bit 31, where it switches a PDO off.
fn demand_of(setting: &Setting) -> Demand
    ensures { result ≡ demand_of setting.now }
{
    if switches_off(setting) {
        Demand::TellOff
    } else {
        Demand::Tell
    }
}

// The question whether a node has a setting.
fn check_of(node: u8, setting: &Setting) -> Question
    ensures { result ≡ check_of node setting.now }
{
    Question {
        demand: demand_of(setting),
        ..question_about(node, setting)
    }
}

// Adds the questions whether a node has settings: of each address the last.
fn add_checks(
    questions: &mut Vec<Question>,
    node: u8,
    settings: &[Setting],
) -> Result<(), AllocError>
    ensures { OnOk result (questions.new.items ≡ questions.old.items ++ checks_about node settings.now) }
{
    match settings {
        [] => Ok(()),
        [setting, rest @ ..] => {
            if !is_set_again(setting, rest) {
                questions.push(check_of(node, setting))?;
            }
            add_checks(questions, node, rest)
        }
    }
}

// Adds the questions to a node of a network: who its device is, whether it has what a plan relies on that sets this in it, and whether it has
// these settings.
fn add_node(
    questions: &mut Vec<Question>,
    network: &Network<'_>,
    node: u8,
    settings: &[Setting],
) -> Result<(), AllocError>
    ensures { OnOk result (questions.new.items ≡ questions.old.items ++ node_checks node (dictionary_of network.now node) settings.now) }
{
    if let Some(dict) = network.dictionary(node) {
        add_identity(questions, node, dict)?;
        add_relied(questions, node, dict, settings)?;
    }
    add_checks(questions, node, settings)
}

/// The questions to nodes of a network whether they are as its plan has them. Those to one node stand together. Otherwise want of memory.
pub fn checks_of(
    alloc: Global,
    plan: &Plan,
    network: &Network<'_>,
    nodes: &[u8],
) -> Result<Vec<Question>, AllocError>
    requires { IsPlan network.now.equipment.rates network.now.set (length network.now.rows) plan.now }
    ensures { IfOk result (λ questions. questions.items ≡ checks_of network.now plan.now.ids nodes.now) }
{
    let mut questions = Vec::new(alloc);
    for node in nodes {
        let settings = settings(alloc, plan, network, *node)?;
        add_node(&mut questions, network, *node, &settings)?;
    }
    Ok(questions)
}
