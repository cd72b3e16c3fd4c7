//! The boot of a planned network over a port.

ghost use Rattle.std.specs.Prelude.{◌≡◌, ◌⊎◌, length, IfOk, OnErr, MatchResult};
ghost use Rattle.cop_net.specs.Devices.{handed_in};
ghost use Rattle.cop_net.specs.Network.{IsNetwork};
ghost use Rattle.cop_plan.specs.Plans.{IsPlan};
ghost use Rattle.cop_engine.specs.Networks.{ExplainsNetwork};
ghost use Rattle.cop_heartbeats.specs.Attending.{are_all_operational};
ghost use Rattle.cop_commission.specs.Sessions.{awaited_if};
ghost use Rattle.cop_commission.specs.Commissioning.{senders_of, questions_for, settings_for, meant_nodes, is_meant_device, awaited_for, longest, limit_for, way_of, ended_answer, IsBooting, IsMet, IsCommissioned, IsCommissionedFor, IsCommissioning};
ghost use Rattle.cop_commission.specs.Commissioning.{if_failed, BootingFails, BootingStops, MeetingFails, MeetingStops, CommissionFails, CommissionStops, FailsFor, StopsFor, CommissioningFails, CommissioningStops};

use crate::heartbeats::{attendance_lines, awaited_of};
use crate::identities::{identity_answer, questions_of};
use crate::readings::{settings_questions, standing_lines, storing_questions};
use crate::restoring::{restores_for, restoring_answer};
use crate::senders::add_own_senders;
use crate::sessions::{Bus, Closing, Questions, Session, awaited_if, boot_and_close, run_session};
use crate::told::{off_questions, told_manager};
use crate::unended::unended_answer;
use cop_boot::Manager;
use cop_boot_answer::BootAnswer;
use cop_engine::{Fault, PlannedNetwork, device_nodes, planned};
use cop_frame::Rate;
use cop_heartbeats::{Awaited, Heartbeats};
use cop_identity::{Exchange, Question};
use cop_live::{Command, Port, Runner, Sender};
use cop_net::{Network, read_nodes, read_pdos};
use cop_plan::{Asked, Outcome, Plan};
use cop_readback::{Reach, ReadBack};
use cop_rows::PdoRow;
use std::alloc::{AllocError, Global};

/// For how long the heartbeats of nodes that were started are awaited.
#[derive(Clone, Copy, Debug, PartialEq, Eq)]
pub enum Watch {
    /// They are not awaited.
    Never,
    /// Until the time has passed in which each has to come once.
    OnceEach,
    /// For so many ticks of 250 ns.
    For(u64),
}

/// How the devices are approached.
#[derive(Clone, Copy, Debug, PartialEq, Eq)]
pub struct Approach {
    /// Whether the bus is taken over: otherwise nothing is sent where a node is heard to run.
    pub take_over: bool,
    /// Whether the devices are asked who they are.
    pub identify: bool,
    /// Whether devices take the values that they left the factory with first, where they can.
    pub restore: bool,
    /// How far the boot reaches.
    pub reach: Reach,
    /// For how many ticks of 250 ns the boot-up of a node is awaited after a reset, before the node is silent.
    pub boot_limit: u64,
    /// Whether devices that have their settings store them, where they can.
    pub store: bool,
    /// For how long the heartbeats of nodes that were started are awaited.
    pub watch: Watch,
}

/// What came of a boot over a port.
#[derive(Drop)]
pub enum Commissioned {
    /// The boot of each node ended, at a rate, and its settings were read back; all are ready, or not, and each node whose heartbeat was awaited
    /// is operational, or not.
    Ended {
        answer: BootAnswer,
        ready: bool,
        started: bool,
        operational: bool,
        rate: Rate,
    },
    /// Somebody runs already: no frame was sent.
    Running {
        runner: Runner,
    },
    /// Lines came, so many (at most a million are counted), and none of them is a frame: no frame was sent.
    Garbled {
        lines: u64,
    },
    /// No frame was heard at a rate, and these flags of the adapter tell of errors on the bus: no frame was sent.
    Erroneous {
        flags: u16,
        rate: Rate,
    },
    /// The adapter refuses a command by which it is opened at a rate: no frame was sent.
    Unopened {
        command: Command,
        rate: Rate,
    },
    /// Some device is another one than is planned: of frames questions alone were sent.
    Others {
        answer: BootAnswer,
        exchanges: Vec<Exchange>,
    },
    /// Some device does not take the values that it left the factory with: besides questions, no frame but downloads to 1011h was sent.
    Unrestored {
        answer: BootAnswer,
    },
    /// The node that is meant alone has no device row: nothing was done at the port.
    Absent,
    /// No rate passes: nothing was done at the port.
    NonePasses,
    /// The port or its clock failed. The answer says where the boot of each node stood then, and whether the start was sent; nothing where the
    /// settings had not been begun.
    Failed {
        answer: BootAnswer,
    },
}

/// The identifiers of a plan's PDOs, and who sends each.
fn senders_of(alloc: Global, rows: &[PdoRow], ids: &[u16]) -> Result<Vec<Sender>, AllocError>
    requires { length ids.now ≡ length rows.now }
    ensures { IfOk result (λ senders. senders.items ≡ senders_of rows.now ids.now) }
{
    let mut senders = Vec::new(alloc);
    for (k, row) in rows.iter().enumerate() {
        senders.push(Sender {
            id: ids[k],
            node: row.node,
        })?;
    }
    Ok(senders)
}

/// The questions to nodes of a network, where their devices are to be asked who they are.
fn questions_for(
    alloc: Global,
    identify: bool,
    network: &Network<'_>,
    nodes: &[u8],
) -> Result<Vec<Question>, AllocError>
    ensures { IfOk result (λ questions. questions.items ≡ questions_for identify network.now nodes.now) }
{
    if identify {
        questions_of(alloc, network, nodes)
    } else {
        Ok(Vec::new(alloc))
    }
}

/// What nodes of a network are asked after their boot: whether they have the settings of a plan, by what they told of their COB-IDs, and to
/// store them, if they are to.
fn settings_for(
    alloc: Global,
    store: bool,
    plan: &Plan,
    network: &Network<'_>,
    told: &[Exchange],
    nodes: &[u8],
) -> Result<Vec<Question>, AllocError>
    requires { IsPlan network.now.equipment.rates network.now.set (length network.now.rows) plan.now }
    ensures { IfOk result (λ questions. questions.items ≡ settings_for store network.now plan.now.ids told.now nodes.now) }
{
    let mut questions = settings_questions(alloc, plan, network, told, nodes)?;
    if store {
        let storing = storing_questions(alloc, network, nodes)?;
        questions.extend_from_slice(&storing)?;
    }
    Ok(questions)
}

/// Whether a node has a device in a network.
fn is_meant_device(network: &Network<'_>, node: u8) -> bool
    ensures { result ≡ is_meant_device network.now node }
{
    node >= 1 && node <= 127 && network.dictionary(node).is_some()
}

/// The nodes of a network that are meant: one alone, if it has a device, or all that have one. Otherwise want of memory.
pub fn meant_nodes(
    alloc: Global,
    network: &Network<'_>,
    only: Option<u8>,
) -> Result<Vec<u8>, AllocError>
    ensures { IfOk result (λ nodes. nodes.items ≡ meant_nodes network.now only) }
{
    match only {
        Some(node) => {
            let mut nodes = Vec::new(alloc);
            if is_meant_device(network, node) {
                nodes.push(node)?;
            }
            Ok(nodes)
        }
        None => device_nodes(alloc, network),
    }
}

/// The heartbeats of nodes of a network that are awaited, if they are to be watched.
fn awaited_for(
    alloc: Global,
    watch: Watch,
    network: &Network<'_>,
    nodes: &[u8],
) -> Result<Vec<Awaited>, AllocError>
    ensures { IfOk result (λ awaited. awaited.items ≡ awaited_for watch network.now nodes.now) }
{
    match watch {
        Watch::Never => Ok(Vec::new(alloc)),
        Watch::OnceEach | Watch::For(_) => awaited_of(alloc, network, nodes),
    }
}

/// The longest time in which a heartbeat has to come, 0 if none is awaited.
fn longest(awaited: &[Awaited]) -> u64
    ensures { result ≡ longest awaited.now }
{
    match awaited {
        [] => 0,
        [one, rest @ ..] => one.time.max(longest(rest)),
    }
}

/// For how many ticks heartbeats are awaited.
fn limit_for(watch: Watch, awaited: &[Awaited]) -> u64
    ensures { result ≡ limit_for watch awaited.now }
{
    match watch {
        Watch::Never => 0,
        Watch::OnceEach => longest(awaited),
        Watch::For(ticks) => ticks,
    }
}

/// How the bus of a network is met by its plan.
fn bus_of(
    alloc: Global,
    network: &Network<'_>,
    plan: &Plan,
    nodes: &[u8],
    approach: Approach,
) -> Result<Bus, AllocError>
    requires { length plan.now.ids ≡ length network.now.rows }
    ensures { IfOk result (λ bus. bus ≡ way_of network.now plan.now.rate plan.now.ids nodes.now approach) }
{
    let mut senders = senders_of(alloc, network.rows(), plan.ids())?;
    add_own_senders(&mut senders, network, approach.reach.only)?;
    let awaited = awaited_for(alloc, approach.watch, network, nodes)?;
    let limit = limit_for(approach.watch, &awaited);
    Ok(Bus {
        rate: plan.rate(),
        senders,
        take_over: approach.take_over,
        reach: approach.reach,
        boot_limit: approach.boot_limit,
        awaited,
        limit,
    })
}

/// What is said of a boot, and of the heartbeats that were awaited after it.
fn ended_answer(
    alloc: Global,
    manager: &Manager,
    nodes: &[u8],
    back: &ReadBack,
    bus: &Bus,
    heartbeats: &Heartbeats,
) -> Result<BootAnswer, AllocError>
    ensures { IfOk result (λ answer. answer ≡ ended_answer manager.now nodes.now back.now bus.now.awaited heartbeats.now) }
{
    let awaited = awaited_if(back.started, &bus.awaited);
    Ok(BootAnswer {
        nodes: standing_lines(alloc, manager, nodes, back)?,
        started: Some(back.started),
        heartbeats: attendance_lines(alloc, awaited, heartbeats)?,
    })
}

/// Whether each node whose heartbeat was awaited is operational.
fn is_operational(back: &ReadBack, bus: &Bus, heartbeats: &Heartbeats) -> bool
    ensures { result ≡ are_all_operational heartbeats.now (awaited_if back.now.started bus.now.awaited) }
{
    heartbeats.are_all_operational(awaited_if(back.started, &bus.awaited))
}

/// The boot of nodes by a manager over an open adapter.
fn boot_nodes<P: Port>(
    alloc: Global,
    manager: &mut Manager,
    nodes: &[u8],
    settings: &[Question],
    bus: &Bus,
    port: &mut P,
) -> Result<Commissioned, AllocError>
    ensures booting { IfOk result (λ ended. IsBooting P.reads P.writes P.asks bus.now manager.old nodes.now settings.now port.old port.new ended) }
    ensures failed { IfOk result (λ ended. if_failed ended (BootingFails P.reads P.writes P.asks P.fails bus.now manager.old nodes.now settings.now port.old port.new)) }
    ensures short { OnErr result (BootingStops P.reads P.writes P.asks P.fails bus.now manager.old nodes.now settings.now port.old port.new) }
{
    match boot_and_close(alloc, manager, nodes, settings, bus, port)? {
        Closing::Closed { back, heartbeats } => Ok(Commissioned::Ended {
            answer: ended_answer(alloc, manager, nodes, &back, bus, &heartbeats)?,
            ready: back.ready,
            started: back.started,
            operational: is_operational(&back, bus, &heartbeats),
            rate: bus.rate,
        }),
        Closing::Failed { started } => Ok(Commissioned::Failed {
            answer: unended_answer(alloc, manager, nodes, started)?,
        }),
    }
}

/// The boot of nodes of a network by its plan.
fn commission_nodes<P: Port>(
    alloc: Global,
    network: &Network<'_>,
    plan: &Plan,
    nodes: &[u8],
    approach: Approach,
    port: &mut P,
) -> Result<Commissioned, AllocError>
    requires network { IsNetwork network.now }
    requires planned { IsPlan network.now.equipment.rates network.now.set (length network.now.rows) plan.now }
    requires meant { nodes.now ≡ meant_nodes network.now approach.reach.only }
    ensures met { IfOk result (λ ended. IsMet P.reads P.writes P.asks network.now plan.now.rate plan.now.ids nodes.now approach port.old port.new ended) }
    ensures failed { IfOk result (λ ended. if_failed ended (MeetingFails P.reads P.writes P.asks P.fails network.now plan.now.ids nodes.now (way_of network.now plan.now.rate plan.now.ids nodes.now approach) approach.identify approach.restore approach.store port.old port.new)) }
    ensures short { OnErr result (MeetingStops P.reads P.writes P.asks P.fails network.now plan.now.ids nodes.now (way_of network.now plan.now.rate plan.now.ids nodes.now approach) approach.identify approach.restore approach.store port.old port.new) }
{
    let bus = bus_of(alloc, network, plan, nodes, approach)?;
    let questions = Questions {
        identity: questions_for(alloc, approach.identify, network, nodes)?,
        restores: restores_for(alloc, approach.restore, network, nodes)?,
        offs: off_questions(alloc, plan, network, nodes)?,
    };
    match run_session(alloc, nodes, &bus, &questions, port)? {
        Session::Told { told } => {
            let limit = approach.boot_limit;
            let mut manager = told_manager(alloc, plan, network, &told, nodes, limit)?;
            let settings = settings_for(alloc, approach.store, plan, network, &told, nodes)?;
            boot_nodes(alloc, &mut manager, nodes, &settings, &bus, port)
        }
        Session::Running { runner } => Ok(Commissioned::Running { runner }),
        Session::Garbled { lines } => Ok(Commissioned::Garbled { lines }),
        Session::Erroneous { flags } => Ok(Commissioned::Erroneous {
            flags,
            rate: plan.rate(),
        }),
        Session::Unopened { command } => Ok(Commissioned::Unopened {
            command,
            rate: plan.rate(),
        }),
        Session::Others { exchanges } => Ok(Commissioned::Others {
            answer: identity_answer(alloc, nodes, &exchanges)?,
            exchanges,
        }),
        Session::Unrestored { exchanges } => Ok(Commissioned::Unrestored {
            answer: restoring_answer(alloc, nodes, &exchanges)?,
        }),
        Session::Failed => Ok(Commissioned::Failed {
            answer: BootAnswer::nothing(alloc),
        }),
    }
}

/// The boot of a network by its plan.
fn commission_by<P: Port>(
    alloc: Global,
    network: &Network<'_>,
    plan: &Plan,
    approach: Approach,
    port: &mut P,
) -> Result<Commissioned, AllocError>
    requires network { IsNetwork network.now }
    requires planned { IsPlan network.now.equipment.rates network.now.set (length network.now.rows) plan.now }
    ensures commissioned { IfOk result (λ ended. IsCommissioned P.reads P.writes P.asks network.now plan.now.rate plan.now.ids approach port.old port.new ended) }
    ensures failed { IfOk result (λ ended. if_failed ended (CommissionFails P.reads P.writes P.asks P.fails network.now plan.now.rate plan.now.ids approach port.old port.new)) }
    ensures short { OnErr result (CommissionStops P.reads P.writes P.asks P.fails network.now plan.now.rate plan.now.ids approach port.old port.new) }
{
    let nodes = meant_nodes(alloc, network, approach.reach.only)?;
    if nodes.is_empty() {
        Ok(Commissioned::Absent)
    } else {
        commission_nodes(alloc, network, plan, &nodes, approach, port)
    }
}

/// The boot of the devices of a planned network over a port, of one node alone or of all. The adapter is opened
/// at the plan's rate. Unless the bus is taken over, it is opened to listen only, if it can, for 2 s. No frame is sent if somebody who is
/// meant is heard to run, if lines come of which none is a frame, or if none comes and the adapter's flags tell of errors. If
/// they are to be identified, the devices are asked who they are, and if one is another than its EDS file says nothing else is sent. If they
/// are to, those that can take the values that they left the factory with, and if one does not nothing else is sent.
/// If PDOs are to be switched off the nodes are reset then, and those that boot up are asked which COB-IDs these have, which are switched
/// off as they are. Then the nodes are reset; the settings of each node are sent to it, and read back once the boot of each has ended; devices that have theirs store them, if
/// they are to and can; the nodes are started if they are to be, if each has its settings; and the adapter is closed. If no rate passes
/// nothing is done. `Err` is want of memory.
pub fn commission_planned<P: Port>(
    alloc: Global,
    planned: &PlannedNetwork<'_>,
    approach: Approach,
    port: &mut P,
) -> Result<Commissioned, AllocError>
    ensures commissioned { IfOk result (λ ended. IsCommissionedFor P.reads P.writes P.asks planned.now.net planned.now.outcome approach port.old port.new ended) }
    ensures failed { IfOk result (λ ended. if_failed ended (FailsFor P.reads P.writes P.asks P.fails planned.now.net planned.now.outcome approach port.old port.new)) }
    ensures short { OnErr result (StopsFor P.reads P.writes P.asks P.fails planned.now.net planned.now.outcome approach port.old port.new) }
{
    let (network, outcome) = planned.parts();
    match outcome {
        Outcome::Planned(plan) => commission_by(alloc, network, plan, approach, port),
        Outcome::Refused(_) => Ok(Commissioned::NonePasses),
    }
}

/// The boot of the devices of the network of some tables and EDS files by its plan, as `commission_planned` does it. Otherwise the
/// first rule that the network breaks, or want of memory.
pub fn commission<P: Port>(
    alloc: Global,
    nodes: &[u8],
    pdos: &[u8],
    eds_files: &[(String, Vec<u8>)],
    asked: &Asked,
    approach: Approach,
    port: &mut P,
) -> Result<Commissioned, Fault>
    ensures commissioned { MatchResult result
        (λ ended. IsCommissioning P.reads P.writes P.asks asked.now nodes.now pdos.now (handed_in eds_files.now) approach port.old port.new ended)
        (λ fault. ExplainsNetwork asked.now.rates nodes.now pdos.now (handed_in eds_files.now) fault) }
    ensures failed { IfOk result (λ ended. if_failed ended (CommissioningFails P.reads P.writes P.asks P.fails asked.now nodes.now pdos.now (handed_in eds_files.now) approach port.old port.new)) }
    ensures short { OnErr result ((port.old ≡ port.new) ⊎ CommissioningStops P.reads P.writes P.asks P.fails asked.now nodes.now pdos.now (handed_in eds_files.now) approach port.old port.new) }
{
    let nodes = read_nodes(alloc, nodes)?;
    let pdos = read_pdos(alloc, pdos)?;
    let planned = planned(alloc, asked, &nodes, &pdos, eds_files)?;
    Ok(commission_planned(alloc, &planned, approach, port)?)
}
