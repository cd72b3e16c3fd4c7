use cop_frame::Frame;
use cop_nmt::{
    Consumer, Effect, NodeState, Producer, Service, boot_up, emcy, heartbeat, state_after, sync,
};

fn is_frame(frame: Frame, id: u16, data: &[u8]) -> bool {
    frame.id == id && frame.data() == data
}

#[test]
fn heartbeats(rt: HostRuntime) {
    assert!(rt; is_frame(heartbeat(5, NodeState::Stopped), 0x705, &[4]));
    assert!(rt; is_frame(heartbeat(5, NodeState::Operational), 0x705, &[5]));
    assert!(rt; is_frame(heartbeat(127, NodeState::PreOperational), 0x77F, &[127]));
    assert!(rt; is_frame(boot_up(5), 0x705, &[0]));
}

#[test]
fn sync_and_emergency(rt: HostRuntime) {
    let error = emcy(5, 0x8130, 0x11, [0; 5]);
    assert!(rt; is_frame(sync(), 0x80, &[]));
    assert!(rt; is_frame(error, 0x85, &[0x30, 0x81, 0x11, 0, 0, 0, 0, 0]));
}

/// The data of a command, the state of node 5 after it, and what it does.
const COMMANDS: &[(&[u8], NodeState, Effect)] = &[
    (&[1, 0], NodeState::Operational, Effect::Changed),
    (&[1, 5], NodeState::Operational, Effect::Nothing),
    (&[2, 6], NodeState::Operational, Effect::Nothing),
    (&[2, 5], NodeState::Stopped, Effect::Changed),
    (&[3, 5], NodeState::Stopped, Effect::Nothing),
    (&[128, 5, 0], NodeState::Stopped, Effect::Nothing),
    (&[129, 5], NodeState::PreOperational, Effect::ResetNode),
    (
        &[130, 0],
        NodeState::PreOperational,
        Effect::ResetCommunication,
    ),
];

#[test]
fn commands(rt: HostRuntime) {
    let mut state = NodeState::PreOperational;
    for case in COMMANDS {
        let (data, after, effect) = *case;
        let done = state.on_command(5, &Frame::new(0, data));
        assert!(rt; done == effect && state == after, "{data:?}");
    }
}

#[test]
fn commands_one_after_another(rt: HostRuntime) {
    let state = NodeState::PreOperational;
    let frames = [
        Frame::new(0, &[1, 0]),
        Frame::new(1, &[2, 0]),
        Frame::new(0, &[2, 7]),
    ];
    assert!(rt; state_after(5, state, &frames) == NodeState::Operational);
    assert!(rt; state_after(7, state, &frames) == NodeState::Stopped);
}

/// Whether a service is there in the states pre-operational, operational and stopped.
const SERVICES: &[(Service, bool, bool, bool)] = &[
    (Service::Pdo, false, true, false),
    (Service::Sdo, true, true, false),
    (Service::Sync, true, true, false),
    (Service::Emcy, true, true, false),
    (Service::Nmt, true, true, true),
    (Service::Heartbeat, true, true, true),
];

#[test]
fn services(rt: HostRuntime) {
    for case in SERVICES {
        let (service, before, running, stopped) = *case;
        assert!(rt; NodeState::PreOperational.allows(service) == before);
        assert!(rt; NodeState::Operational.allows(service) == running);
        assert!(rt; NodeState::Stopped.allows(service) == stopped);
    }
}

/// Moments one after another, and whether a heartbeat is due at each.
const DUE: &[(u64, bool)] = &[
    (0, true),
    (399, false),
    (400, true),
    (900, true),
    (1299, false),
    (1300, true),
    (1000, false),
];

#[test]
fn heartbeats_that_are_due(rt: HostRuntime) {
    let mut producer = Producer::new(400);
    for case in DUE {
        let (now, due) = *case;
        assert!(rt; producer.due(now) == due, "at {now}");
    }
}

#[test]
fn heartbeats_that_are_late(rt: HostRuntime) {
    let mut consumer = Consumer::new(400);
    assert!(rt; !consumer.late(1000));
    consumer.heard(1000);
    assert!(rt; !consumer.late(999) && !consumer.late(1399) && consumer.late(1400));
}
