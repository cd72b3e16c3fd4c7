//! The boot of a planned network by drawn turns.

ghost use Rattle.std.specs.Prelude.{◌≡◌, ◌≤◌, ◌<◌, length, map, is_some, All, IfOk, MatchResult};
ghost use Rattle.std.specs.List.{AllPairs};
ghost use Rattle.std.specs.Option.{option_copied};
ghost use Rattle.cop_dict.specs.Dict.{initial};
ghost use Rattle.cop_net.specs.Devices.{handed_in};
ghost use Rattle.cop_net.specs.Network.{IsNetwork};
ghost use Rattle.cop_plan.specs.Plans.{IsPlan};
ghost use Rattle.cop_dcf.specs.Settings.{dictionary_of};
ghost use Rattle.cop_boot.specs.Member.{unheard};
ghost use Rattle.cop_engine.specs.Networks.{ExplainsNetwork};
ghost use Rattle.cop_engine.specs.Boots.{device_nodes, managed, manager_of, device_at, state_of, node_line, boot_answer, boot_said, IsBooted, IsBootedBy, IsBootOf};

use crate::faults::Fault;
use crate::judgements::none_passes;
use crate::planned_networks::{PlannedNetwork, planned};
use crate::turns::boot_by_drawn;
use cop_boot::{Device, End, Manager};
use cop_boot_answer::{BootAnswer, NodeLine, State};
use cop_dcf::{Setting, settings};
use cop_dict::{Dictionary, Object};
use cop_net::{Network, read_nodes, read_pdos};
use cop_plan::{Asked, Outcome, Plan};
use cop_sdo::Address;
use std::alloc::{AllocError, Global};
use std::collections::BTreeMap;

/// Whether a node has a device.
fn has_device(network: &Network<'_>, node: u8) -> bool
    ensures { result ≡ is_some (dictionary_of network.now node) }
{
    network.dictionary(node).is_some()
}

/// The nodes of a network that have devices, by rising number. Otherwise want of memory.
pub fn device_nodes(alloc: Global, network: &Network<'_>) -> Result<Vec<u8>, AllocError>
    ensures { IfOk result (λ nodes. nodes.items ≡ device_nodes network.now) }
{
    let mut nodes = Vec::new(alloc);
    for node in 1..128 {
        if has_device(network, node) {
            nodes.push(node)?;
        }
    }
    Ok(nodes)
}

/// A dictionary with the same objects and their initial values.
fn initial(alloc: Global, dict: &Dictionary) -> Result<Dictionary, AllocError>
    ensures { IfOk result (λ copy. copy ≡ initial dict.now) }
{
    let mut copy = Dictionary::with_room(alloc, dict.entries().len())?;
    for object in dict.entries() {
        copy.push(Object::new(
            alloc,
            object.index(),
            object.sub(),
            object.description(),
            object.initial(),
        )?)?;
    }
    Ok(copy)
}

/// The device of a node, as its EDS file describes it.
fn device_at(alloc: Global, network: &Network<'_>, node: u8) -> Result<Device, AllocError>
    requires { (1 ≤ node) × (node ≤ 127) }
    ensures { IfOk result (λ device. device ≡ device_at network.now node) }
{
    let dict = match network.dictionary(node) {
        Some(dict) => initial(alloc, dict)?,
        None => Dictionary::new(alloc),
    };
    Ok(Device::new(alloc, node, dict))
}

/// The devices of nodes.
fn devices_of(alloc: Global, network: &Network<'_>, nodes: &[u8]) -> Result<Vec<Device>, AllocError>
    requires { All (λ node. (1 ≤ node) × (node ≤ 127)) nodes.now }
    ensures { IfOk result (λ devices. devices.items ≡ map (device_at network.now) nodes.now) }
{
    let mut devices = Vec::new(alloc);
    for node in nodes {
        devices.push(device_at(alloc, network, *node)?)?;
    }
    Ok(devices)
}

/// What a plan sets in each of the nodes.
fn settings_by_node(
    alloc: Global,
    plan: &Plan,
    network: &Network<'_>,
    nodes: &[u8],
) -> Result<BTreeMap<u8, Vec<Setting>>, AllocError>
    requires planned { IsPlan network.now.equipment.rates network.now.set (length network.now.rows) plan.now }
    requires rise { AllPairs (λ node later. node < later) nodes.now }
    ensures { IfOk result (λ plan_of. map unheard plan_of.entries ≡ map (managed network.now plan.now.ids) nodes.now) }
{
    let mut plan_of = BTreeMap::new(alloc);
    for node in nodes {
        plan_of.insert(*node, settings(alloc, plan, network, *node)?)?;
    }
    Ok(plan_of)
}

/// The manager of a plan, with the settings that it has for each of some nodes. Otherwise want of memory.
pub fn manager_of(
    alloc: Global,
    plan: &Plan,
    network: &Network<'_>,
    nodes: &[u8],
) -> Result<Manager, AllocError>
    requires network { IsNetwork network.now }
    requires planned { IsPlan network.now.equipment.rates network.now.set (length network.now.rows) plan.now }
    requires nodes { All (λ node. (1 ≤ node) × (node ≤ 127)) nodes.now }
    requires rise { AllPairs (λ node later. node < later) nodes.now }
    ensures { IfOk result (λ manager. manager ≡ manager_of network.now plan.now.ids nodes.now) }
{
    let plan_of = settings_by_node(alloc, plan, network, nodes)?;
    Manager::new(alloc, plan_of)
}

/// What is said of a node's end.
fn state_of(end: Option<End>) -> State
    ensures { result ≡ state_of end }
{
    match end {
        None => State::Undecided,
        Some(End::Ready) => State::Ready,
        Some(End::Silent { .. }) => State::Silent,
        Some(End::Restarting { .. }) => State::Restarting,
        Some(
            End::Aborted {
                index,
                sub,
                code,
                ..
            },
        ) => State::Aborted {
            at: Address { index, sub },
            code,
        },
    }
}

/// The line of a node.
fn node_line(manager: &Manager, node: u8) -> NodeLine
    ensures { result ≡ node_line manager.now node }
{
    NodeLine {
        node,
        state: state_of(manager.end(node)),
    }
}

/// What is said of a boot: a line for each of some nodes, and whether they were started. Otherwise want of memory.
pub fn boot_answer(alloc: Global, manager: &Manager, nodes: &[u8]) -> Result<BootAnswer, AllocError>
    ensures { IfOk result (λ answer. answer ≡ boot_answer manager.now nodes.now) }
{
    let mut lines = Vec::new(alloc);
    for node in nodes {
        lines.push(node_line(manager, *node))?;
    }
    Ok(BootAnswer {
        nodes: lines,
        started: Some(manager.started()),
        heartbeats: Vec::new(alloc),
    })
}

/// The boot of a network by its plan.
fn booted(
    alloc: Global,
    seed: u64,
    network: &Network<'_>,
    plan: &Plan,
) -> Result<BootAnswer, AllocError>
    requires network { IsNetwork network.now }
    requires planned { IsPlan network.now.equipment.rates network.now.set (length network.now.rows) plan.now }
    ensures { IfOk result (λ answer. IsBooted seed network.now plan.now.ids answer) }
{
    let nodes = device_nodes(alloc, network)?;
    let mut manager = manager_of(alloc, plan, network, &nodes)?;
    let mut devices = devices_of(alloc, network, &nodes)?;
    boot_by_drawn(alloc, seed, &nodes, &mut manager, &mut devices)?;
    boot_answer(alloc, &manager, &nodes)
}

/// The boot of a network by what the planner answers for it, by the turns that a seed draws; `None` where no rate passes.
pub fn boot_of(
    alloc: Global,
    seed: u64,
    planned: &PlannedNetwork<'_>,
) -> Result<Option<BootAnswer>, AllocError>
    ensures { IfOk result (λ answer. IsBootedBy seed planned.now.net planned.now.outcome answer) }
{
    let (network, outcome) = planned.parts();
    match outcome {
        Outcome::Planned(plan) => Ok(Some(booted(alloc, seed, network, plan)?)),
        Outcome::Refused(_) => Ok(None),
    }
}

/// The text of what came of a boot; that no rate passes where nothing did.
pub fn boot_text(alloc: Global, answer: Option<&BootAnswer>) -> Result<Vec<u8>, AllocError>
    ensures { IfOk result (λ text. text.items ≡ boot_said (option_copied answer.entry)) }
{
    match answer {
        Some(answer) => answer.text(alloc),
        None => none_passes(alloc),
    }
}

/// The boot of the network of some tables and EDS files by its plan: the settings of each node are sent to its device, as its
/// EDS file describes it, by the turns that a seed draws; and what came of it: a line for each node, and whether they were
/// started. Where no rate passes that is said. Otherwise the first rule that the network breaks, or want of memory.
pub fn boot_bytes(
    alloc: Global,
    seed: u64,
    nodes: &[u8],
    pdos: &[u8],
    eds_files: &[(String, Vec<u8>)],
    asked: &Asked,
) -> Result<Vec<u8>, Fault>
    ensures { MatchResult result (λ text. IsBootOf asked.now seed nodes.now pdos.now (handed_in eds_files.now) text.items)
        (λ fault. ExplainsNetwork asked.now.rates nodes.now pdos.now (handed_in eds_files.now) fault) }
{
    let nodes = read_nodes(alloc, nodes)?;
    let pdos = read_pdos(alloc, pdos)?;
    let planned = planned(alloc, asked, &nodes, &pdos, eds_files)?;
    let answer = boot_of(alloc, seed, &planned)?;
    Ok(boot_text(alloc, answer.as_ref())?)
}
