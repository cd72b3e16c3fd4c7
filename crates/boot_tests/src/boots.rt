mod hostile;

ghost use Rattle.std.specs.Prelude.{◌≡◌, ◌≤◌, false, IfOk};

use cop_boot::{
    Device, End, Input, Manager, Setting, Turn, Width, can_manage, drive, run_schedule,
};
use cop_dict::{Dictionary, build};
use cop_eds::{EdsFault, parse};
use cop_frame::Frame;
use cop_nmt::NodeState;
use std::alloc::{AllocError, Global};
use std::collections::BTreeMap;
use std::test::Fail;

/// The sample device, with its heartbeat's time and one TPDO.
const UNIT: &[u8] =
    b"[OptionalObjects]\nSupportedObjects=2\n1=0x1017\n2=0x1800\n[1017]\nDataType=0x0006\nAccessType=rw\nDefaultValue=0\n[1800]\nObjectType=0x9\nSubNumber=3\n[1800sub0]\nDataType=0x0005\nAccessType=ro\nDefaultValue=2\n[1800sub1]\nDataType=0x0007\nAccessType=rw\nDefaultValue=$NODEID+0x40000180\n[1800sub2]\nDataType=0x0005\nAccessType=rw\nDefaultValue=255\n";

/// The dictionary of the sample device as a node.
fn dictionary(alloc: Global, node: u8) -> Result<Dictionary, EdsFault> {
    let eds = parse(alloc, UNIT)?;
    build(alloc, &eds, node)
}

pub fn device(alloc: Global, node: u8) -> Result<Device, EdsFault>
    requires { (1 ≤ node) × (node ≤ 127) }
{
    let dict = dictionary(alloc, node)?;
    Ok(Device::new(alloc, node, dict))
}

/// The devices of nodes 5 and 6.
fn two_devices(alloc: Global) -> Result<Vec<Device>, EdsFault> {
    let mut devices = Vec::new(alloc);
    devices.push(device(alloc, 5)?)?;
    devices.push(device(alloc, 6)?)?;
    Ok(devices)
}

fn cob_id(value: u32) -> Setting {
    Setting {
        index: 0x1800,
        sub: 1,
        value,
        width: Width::Four,
    }
}

/// The settings by which a node's TPDO is switched off, and then gets an identifier: 181h at node 5, 182h at 6.
fn settings(alloc: Global, node: u8) -> Result<Vec<Setting>, AllocError> {
    let own = u32::from(node);
    Vec::from_slice(
        alloc,
        &[cob_id(0xC000_0180 + own), cob_id(0x4000_017C + own)],
    )
}

/// The settings of each of some nodes.
fn plan_of(alloc: Global, nodes: &[u8]) -> Result<BTreeMap<u8, Vec<Setting>>, Fail> {
    let mut plan = BTreeMap::new(alloc);
    for node in nodes {
        plan.insert(*node, settings(alloc, *node)?)?;
    }
    Ok(plan)
}

/// A manager of nodes from 5 on, which has not begun.
pub fn manager(alloc: Global, nodes: &[u8]) -> Result<Manager, Fail>
    ensures { IfOk result (λ manager. manager.begun ≡ false) }
{
    let plan = plan_of(alloc, nodes)?;
    if !can_manage(&plan) {
        return Err(Fail::from("no plan"));
    }
    Ok(Manager::new(alloc, plan)?)
}

/// A manager of node 5, whose boot-up is awaited for so many ticks.
fn manager_within(alloc: Global, limit: u64) -> Result<Manager, Fail> {
    let plan = plan_of(alloc, &[5])?;
    if !can_manage(&plan) {
        return Err(Fail::from("no plan"));
    }
    Ok(Manager::with_limit(alloc, plan, limit)?)
}

/// Whether the device at a place has this COB-ID.
fn has_cob_id(devices: &[Device], place: usize, value: &[u8]) -> bool {
    match devices.get(place) {
        Some(device) => device.dictionary().read(0x1800, 1) == Ok(value),
        None => false,
    }
}

/// A frame by its identifier and its data.
pub type Sent = (u16, &'static [u8]);

pub fn frame(sent: Sent) -> Result<Frame, Fail> {
    let (id, data) = sent;
    if id < 2048 && data.len() <= 8 {
        Ok(Frame::new(id, data))
    } else {
        Err(Fail::from("no frame"))
    }
}

pub fn is_frame(found: Option<Frame>, wanted: Option<Sent>) -> bool {
    match (found, wanted) {
        (Some(frame), Some((id, data))) => frame.id == id && frame.data() == data,
        (None, None) => true,
        _ => false,
    }
}

pub const BOOT_UP: Sent = (0x705, &[0]);

pub const CONFIRMED: Sent = (0x585, &[0x60, 0x00, 0x18, 0x01, 0, 0, 0, 0]);

pub const REFUSED: Sent = (0x585, &[0x80, 0x00, 0x18, 0x01, 0x22, 0, 0, 0x08]);

pub const OFF: Sent = (0x605, &[0x23, 0x00, 0x18, 0x01, 0x85, 0x01, 0x00, 0xC0]);

pub const ON: Sent = (0x605, &[0x23, 0x00, 0x18, 0x01, 0x81, 0x01, 0x00, 0x40]);

const GIVEN_UP: Sent = (0x605, &[0x80, 0x00, 0x18, 0x01, 0, 0, 0x04, 0x05]);

const RESET: Sent = (0x000, &[130, 0]);

pub const START: Sent = (0x000, &[1, 0]);

pub const ABORTED: End = End::Aborted {
    node: 5,
    index: 0x1800,
    sub: 1,
    code: 0x0800_0022,
};

pub const SILENT: End = End::Silent { node: 5 };

pub const RESTARTING: End = End::Restarting { node: 5 };

/// A frame that the manager hears, or a moment that is reached.
#[derive(Clone, Copy)]
enum Event {
    Hears(Sent),
    Reaches(u64),
}

/// What comes to the manager of node 5, what it sends then, and the end of the node.
type Step = (Event, Option<Sent>, Option<End>);

const CONFIGURES: &[Step] = &[
    (Event::Hears(BOOT_UP), Some(OFF), None),
    (Event::Hears(CONFIRMED), Some(ON), None),
    (Event::Hears(CONFIRMED), Some(START), Some(End::Ready)),
    // It boots again: its settings begin anew, and nothing is started a second time.
    (Event::Hears(BOOT_UP), Some(OFF), None),
    (Event::Hears(CONFIRMED), Some(ON), None),
    (Event::Hears(CONFIRMED), None, Some(End::Ready)),
];

const ABORTS: &[Step] = &[
    (Event::Hears(BOOT_UP), Some(OFF), None),
    (Event::Hears(REFUSED), None, Some(ABORTED)),
    (Event::Hears(BOOT_UP), None, Some(ABORTED)),
];

const GIVES_NO_ANSWER: &[Step] = &[
    (Event::Hears(BOOT_UP), Some(OFF), None),
    (Event::Reaches(3_999_999), None, None),
    (Event::Reaches(4_000_000), Some(GIVEN_UP), Some(SILENT)),
    (Event::Hears(CONFIRMED), None, Some(SILENT)),
];

const NEVER_BOOTS: &[Step] = &[
    (Event::Reaches(19_999_999), None, None),
    (Event::Reaches(20_000_000), None, Some(SILENT)),
];

/// It boots up after 6 s, while it is awaited.
const BOOTS_LATE: &[Step] = &[
    (Event::Reaches(24_000_000), None, None),
    (Event::Hears(BOOT_UP), Some(OFF), None),
    (Event::Hears(CONFIRMED), Some(ON), None),
    (Event::Hears(CONFIRMED), Some(START), Some(End::Ready)),
];

/// It boots up after 6 s, once it is given up.
const BOOTS_TOO_LATE: &[Step] = &[
    (Event::Reaches(24_000_000), None, Some(SILENT)),
    (Event::Hears(BOOT_UP), None, Some(SILENT)),
];

const RESTARTS: &[Step] = &[
    (Event::Hears(BOOT_UP), Some(OFF), None),
    (Event::Hears(CONFIRMED), Some(ON), None),
    (Event::Hears(BOOT_UP), Some(OFF), None),
    (Event::Hears(BOOT_UP), Some(OFF), None),
    (Event::Hears(BOOT_UP), None, Some(RESTARTING)),
];

/// What the node does, and the steps.
const BOOTS: &[(&str, &[Step])] = &[
    ("configures", CONFIGURES),
    ("aborts", ABORTS),
    ("gives no answer", GIVES_NO_ANSWER),
    ("never boots", NEVER_BOOTS),
    ("restarts", RESTARTS),
];

/// What a manager sends at an event.
fn sent_at(manager: &mut Manager, event: Event) -> Result<Option<Frame>, Fail> {
    match event {
        Event::Hears(sent) => {
            let now = manager.clock();
            Ok(manager.on_frame(&frame(sent)?, now))
        }
        Event::Reaches(now) => Ok(manager.on_moment(now)),
    }
}

/// Whether the manager of node 5 does at each step what is due.
fn does_each(manager: &mut Manager, steps: &[Step]) -> Result<bool, Fail> {
    for step in steps {
        let (event, sends, end) = *step;
        let sent = sent_at(manager, event)?;
        if !is_frame(sent, sends) || manager.end(5) != end {
            return Ok(false);
        }
    }
    Ok(true)
}

#[test]
fn boots_of_one_node(rt: HostRuntime) -> Result<(), Fail> {
    for boot in BOOTS {
        let (name, steps) = *boot;
        let mut manager = manager(rt.alloc(), &[5])?;
        let _ = manager.begin(0);
        assert!(rt; does_each(&mut manager, steps)?, "it {name}");
    }
    Ok(())
}

/// Whether node 5 does at each step what is due where its boot-up is awaited for so many ticks.
fn does_each_within(alloc: Global, limit: u64, steps: &[Step]) -> Result<bool, Fail> {
    let mut manager = manager_within(alloc, limit)?;
    let _ = manager.begin(0);
    does_each(&mut manager, steps)
}

#[test]
fn a_boot_up_after_six_seconds(rt: HostRuntime) -> Result<(), Fail> {
    assert!(rt;
        does_each_within(rt.alloc(), 40_000_000, BOOTS_LATE)?,
        "within 10 s"
    );
    assert!(rt;
        does_each_within(rt.alloc(), 20_000_000, BOOTS_TOO_LATE)?,
        "within 5 s"
    );
    Ok(())
}

/// What is handed in at an event.
fn input_of(event: Event) -> Result<Input, Fail> {
    match event {
        Event::Hears(sent) => Ok(Input::Heard(frame(sent)?)),
        Event::Reaches(now) => Ok(Input::Moment(now)),
    }
}

/// What is handed in at the steps of a boot.
fn inputs_of(alloc: Global, steps: &[Step]) -> Result<Vec<Input>, Fail> {
    let mut inputs = Vec::new(alloc);
    for (event, _, _) in steps {
        inputs.push(input_of(*event)?)?;
    }
    Ok(inputs)
}

/// Whether frames are a reset, and then what is sent at the steps of a boot.
fn are_sent(frames: &[Frame], steps: &[Step]) -> Result<bool, Fail> {
    let mut frames = frames.iter();
    let mut are_sent = frames.next() == Some(&frame(RESET)?);
    for (_, sends, _) in steps {
        if let Some(sent) = sends {
            are_sent = frames.next() == Some(&frame(*sent)?) && are_sent;
        }
    }
    Ok(are_sent && frames.next().is_none())
}

/// The same through `drive`: whether all frames that are sent are due, and the end of node 5.
fn drives(alloc: Global, steps: &[Step]) -> Result<bool, Fail> {
    let inputs = inputs_of(alloc, steps)?;
    let mut manager = manager(alloc, &[5])?;
    let frames = drive(alloc, &mut manager, &inputs)?;
    let end = steps.last().and_then(|step| step.2);
    Ok(are_sent(&frames, steps)? && manager.end(5) == end)
}

#[test]
fn boots_over_lists_of_inputs(rt: HostRuntime) -> Result<(), Fail> {
    for boot in BOOTS {
        let (name, steps) = *boot;
        assert!(rt; drives(rt.alloc(), steps)?, "it {name}");
    }
    Ok(())
}

/// So many turns to a node and from it, each after the other.
fn push_turns(turns: &mut Vec<Turn>, node: u8, count: u8) -> Result<(), AllocError> {
    for _ in 0..count {
        turns.push(Turn::ToNode(node))?;
        turns.push(Turn::FromNode(node))?;
    }
    Ok(())
}

/// So many rounds, of so many turns to and from each of nodes 5 and 6.
fn turns_of_two(alloc: Global, rounds: u8, each: u8) -> Result<Vec<Turn>, AllocError> {
    let mut turns = Vec::new(alloc);
    for _ in 0..rounds {
        push_turns(&mut turns, 5, each)?;
        push_turns(&mut turns, 6, each)?;
    }
    Ok(turns)
}

/// Whether nodes 5 and 6 are ready after some turns, all is started and each has its own COB-ID.
fn boots_two(alloc: Global, turns: &[Turn]) -> Result<bool, Fail> {
    let mut manager = manager(alloc, &[5, 6])?;
    let mut devices = two_devices(alloc)?;
    run_schedule(alloc, &mut manager, &mut devices, turns)?;
    let are_ready = are_ready(&manager) && manager.started();
    Ok(
        are_ready
            && has_cob_id(&devices, 0, &[0x81, 0x01, 0, 0x40])
            && has_cob_id(&devices, 1, &[0x82, 0x01, 0, 0x40]),
    )
}

/// Whether nodes 5 and 6 are ready.
fn are_ready(manager: &Manager) -> bool {
    manager.end(5) == Some(End::Ready) && manager.end(6) == Some(End::Ready)
}

#[test]
fn node_by_node_and_by_turns(rt: HostRuntime) -> Result<(), Fail> {
    let node_by_node = turns_of_two(rt.alloc(), 1, 3)?;
    assert!(rt; boots_two(rt.alloc(), &node_by_node)?, "node by node");
    let by_turns = turns_of_two(rt.alloc(), 3, 1)?;
    assert!(rt; boots_two(rt.alloc(), &by_turns)?, "by turns");
    Ok(())
}

/// Turns to and from each of nodes 5, 6 and 7, and the moment at which one that is silent is given up.
fn turns_of_three(alloc: Global) -> Result<Vec<Turn>, AllocError> {
    let mut turns = Vec::new(alloc);
    push_turns(&mut turns, 5, 3)?;
    push_turns(&mut turns, 6, 3)?;
    push_turns(&mut turns, 7, 3)?;
    turns.push(Turn::Moment(20_000_000))?;
    Ok(turns)
}

#[test]
fn a_node_without_a_device(rt: HostRuntime) -> Result<(), Fail> {
    let turns = turns_of_three(rt.alloc())?;
    let mut manager = manager(rt.alloc(), &[5, 6, 7])?;
    let mut devices = two_devices(rt.alloc())?;
    run_schedule(rt.alloc(), &mut manager, &mut devices, &turns)?;
    assert!(rt; are_ready(&manager) && !manager.started());
    assert!(rt; manager.end(7) == Some(End::Silent { node: 7 }));
    Ok(())
}

/// What comes to the device of node 5, what it answers, and its state then.
type Exchange = (Sent, Option<Sent>, NodeState);

const EXCHANGES: &[Exchange] = &[
    (OFF, Some(CONFIRMED), NodeState::PreOperational),
    (ON, Some(CONFIRMED), NodeState::PreOperational),
    // Frames of other nodes, or of another length, are ignored.
    (
        (0x606, &[0x40, 0x00, 0x18, 0x01, 0, 0, 0, 0]),
        None,
        NodeState::PreOperational,
    ),
    (
        (0x605, &[0x40, 0x00, 0x18, 0x01]),
        None,
        NodeState::PreOperational,
    ),
    // Stopped, it gives no SDO answer.
    ((0x000, &[2, 5]), None, NodeState::Stopped),
    (OFF, None, NodeState::Stopped),
    (START, None, NodeState::Operational),
    // A reset gives it its initial values.
    (
        (0x000, &[0x81, 5]),
        Some(BOOT_UP),
        NodeState::PreOperational,
    ),
    (
        (0x605, &[0x40, 0x00, 0x18, 0x01, 0, 0, 0, 0]),
        Some((0x585, &[0x43, 0x00, 0x18, 0x01, 0x85, 0x01, 0, 0x40])),
        NodeState::PreOperational,
    ),
];

/// Whether a device answers as it should in an exchange, and is in the state that it should be in then.
fn exchanges(device: &mut Device, exchange: Exchange) -> Result<bool, Fail> {
    let (comes, answers, state) = exchange;
    let answer = device.on_frame(&frame(comes)?);
    Ok(is_frame(answer, answers) && device.state() == state)
}

#[test]
fn a_device(rt: HostRuntime) -> Result<(), Fail> {
    let mut device = device(rt.alloc(), 5)?;
    assert!(rt; device.node() == 5);
    for exchange in EXCHANGES {
        let (id, data) = exchange.0;
        assert!(rt; exchanges(&mut device, *exchange)?, "{id}: {data:?}");
    }
    Ok(())
}

/// A node, the value and the width of its setting of 1017h, and whether it can be managed.
const PLANS: &[(u8, u32, Width, bool)] = &[
    (5, 0xFF, Width::One, true),
    (1, 0xFFFF, Width::Two, true),
    (127, 0xFFFF_FFFF, Width::Four, true),
    (0, 0, Width::Two, false),
    (128, 0, Width::Two, false),
    (5, 0x100, Width::One, false),
    (5, 0x1_0000, Width::Two, false),
];

/// Whether a plan of one node with one setting can be managed.
fn can_manage_one(alloc: Global, node: u8, setting: Setting) -> Result<bool, Fail> {
    let mut plan = BTreeMap::new(alloc);
    plan.insert(node, Vec::from_slice(alloc, &[setting])?)?;
    Ok(can_manage(&plan))
}

#[test]
fn plans(rt: HostRuntime) -> Result<(), Fail> {
    for case in PLANS {
        let (node, value, width, can) = *case;
        let setting = Setting {
            index: 0x1017,
            sub: 0,
            value,
            width,
        };
        assert!(rt;
            can_manage_one(rt.alloc(), node, setting)? == can,
            "node {node}"
        );
    }
    Ok(())
}
