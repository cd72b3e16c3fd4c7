//! COB-IDs that a plan switches off. Bits 0 to 29 of one may not change while its PDO exists (CiA 301, "PDO communication parameter
//! record"), and a device may have another than its EDS file says, once it has stored it: so the devices are asked which they have.

ghost use Rattle.std.specs.Prelude.{◌≡◌, ◌≤◌, ◌<◌, ◌++◌, length, map, All, OnOk, IfOk};
ghost use Rattle.std.specs.List.{AllPairs};
ghost use Rattle.cop_dict.specs.Pdo.{is_communication};
ghost use Rattle.cop_net.specs.Network.{IsNetwork};
ghost use Rattle.cop_plan.specs.Plans.{IsPlan};
ghost use Rattle.cop_dcf.specs.Settings.{node_settings};
ghost use Rattle.cop_boot.specs.Member.{unheard_within};
ghost use Rattle.cop_commission.specs.Told.{question_about, switches_off, offs_of, off_questions, with_told, told_settings, told_node, told_manager};

use cop_boot::{Manager, Setting};
use cop_dcf::settings;
use cop_identity::{Address, Demand, Exchange, Question, told_at};
use cop_net::Network;
use cop_pdo::{exists, off};
use cop_plan::Plan;
use std::alloc::{AllocError, Global};
use std::collections::BTreeMap;

/// The question whether a node has a setting.
pub fn question_about(node: u8, setting: &Setting) -> Question
    ensures { result ≡ question_about node setting.now }
{
    let Setting {
        index,
        sub,
        value,
        ..
    } = *setting;
    Question {
        node,
        demand: Demand::Tell,
        at: Address { index, sub },
        wanted: value,
    }
}

// Whether an index is that of the communication record of a PDO.
fn is_communication(index: u16) -> bool
    ensures { result ≡ is_communication index }
{
    matches!(index, 0x1400..=0x15FF | 0x1800..=0x19FF)
}

/// Whether a setting switches a PDO off.
pub fn switches_off(setting: &Setting) -> bool
    ensures { result ≡ switches_off setting.now }
{
    let Setting {
        index,
        sub,
        value,
        width,
    } = *setting;
    is_communication(index) && sub == 1 && width.bytes() == 4 && !exists(value)
}

// Adds the questions to a node which COB-IDs it has that are to be switched off.
fn add_offs(questions: &mut Vec<Question>, node: u8, settings: &[Setting]) -> Result<(), AllocError>
    ensures { OnOk result (questions.new.items ≡ questions.old.items ++ offs_of node settings.now) }
{
    match settings {
        [] => Ok(()),
        [setting, rest @ ..] => {
            if switches_off(setting) {
                questions.push(question_about(node, setting))?;
            }
            add_offs(questions, node, rest)
        }
    }
}

/// The questions which COB-IDs nodes of a network have that a plan switches off. Otherwise want of memory.
pub fn off_questions(
    alloc: Global,
    plan: &Plan,
    network: &Network<'_>,
    nodes: &[u8],
) -> Result<Vec<Question>, AllocError>
    requires { IsPlan network.now.equipment.rates network.now.set (length network.now.rows) plan.now }
    ensures { IfOk result (λ questions. questions.items ≡ off_questions network.now plan.now.ids nodes.now) }
{
    let mut questions = Vec::new(alloc);
    for node in nodes {
        let settings = settings(alloc, plan, network, *node)?;
        add_offs(&mut questions, *node, &settings)?;
    }
    Ok(questions)
}

// A setting of a node: one that switches a PDO off has the COB-ID that the device told, if it did.
fn with_told(told: &[Exchange], node: u8, setting: Setting) -> Setting
    ensures { result ≡ with_told told.now node setting }
{
    if !switches_off(&setting) {
        return setting;
    }
    let Setting { index, sub, .. } = setting;
    match told_at(told, node, Address { index, sub }) {
        Some(value) => Setting {
            value: off(value),
            ..setting
        },
        None => setting,
    }
}

/// What a plan sets in a node of its network by what the devices told: the COB-ID of a PDO that is switched off is the one that the device
/// has, with bit 31 set, and where it did not tell it, as the plan says. Otherwise want of memory.
pub fn told_settings(
    alloc: Global,
    plan: &Plan,
    network: &Network<'_>,
    told: &[Exchange],
    node: u8,
) -> Result<Vec<Setting>, AllocError>
    requires { IsPlan network.now.equipment.rates network.now.set (length network.now.rows) plan.now }
    ensures { IfOk result (λ settings. settings.items ≡ told_settings told.now node (node_settings network.now plan.now.ids node)) }
{
    settings(alloc, plan, network, node)?
        .iter()
        .copied()
        .map(|setting| with_told(told, node, setting))
        .collect(alloc)
}

// What is set in each of the nodes, whose boot-ups are awaited for so many ticks.
fn told_by_node(
    alloc: Global,
    plan: &Plan,
    network: &Network<'_>,
    told: &[Exchange],
    nodes: &[u8],
    limit: u64,
) -> Result<BTreeMap<u8, Vec<Setting>>, AllocError>
    requires planned { IsPlan network.now.equipment.rates network.now.set (length network.now.rows) plan.now }
    requires rise { AllPairs (λ node later. node < later) nodes.now }
    ensures { IfOk result (λ plan_of. map (unheard_within limit) plan_of.entries ≡ map (told_node limit network.now plan.now.ids told.now) nodes.now) }
{
    let mut plan_of = BTreeMap::new(alloc);
    for node in nodes {
        plan_of.insert(*node, told_settings(alloc, plan, network, told, *node)?)?;
    }
    Ok(plan_of)
}

/// The manager of a plan by what the devices told, where boot-ups are awaited for so many ticks. Otherwise want of memory.
pub fn told_manager(
    alloc: Global,
    plan: &Plan,
    network: &Network<'_>,
    told: &[Exchange],
    nodes: &[u8],
    limit: u64,
) -> Result<Manager, AllocError>
    requires network { IsNetwork network.now }
    requires planned { IsPlan network.now.equipment.rates network.now.set (length network.now.rows) plan.now }
    requires nodes { All (λ node. (1 ≤ node) × (node ≤ 127)) nodes.now }
    requires rise { AllPairs (λ node later. node < later) nodes.now }
    ensures { IfOk result (λ manager. manager ≡ told_manager limit network.now plan.now.ids told.now nodes.now) }
{
    let plan_of = told_by_node(alloc, plan, network, told, nodes, limit)?;
    Manager::with_limit(alloc, plan_of, limit)
}
