//! Frames that no well-meant node sends: each first byte, each length, other nodes, in each state of a manager and of a
//! device.

use crate::boots::{
    ABORTED, BOOT_UP, CONFIRMED, OFF, ON, REFUSED, RESTARTING, SILENT, START, Sent, device, frame,
    is_frame, manager,
};
use cop_boot::{Device, End, Input, Manager, drive};
use cop_eds::EdsFault;
use cop_frame::Frame;
use cop_nmt::NodeState;
use std::alloc::Global;
use std::test::Fail;

/// What a manager of node 5 hears before, the setting that is out then (its place, or none), and the end of the node.
struct State {
    heard: &'static [Sent],
    reached: u64,
    out: Option<u8>,
    end: Option<End>,
}

const STATES: &[State] = &[
    State {
        heard: &[],
        reached: 0,
        out: None,
        end: None,
    },
    State {
        heard: &[BOOT_UP],
        reached: 0,
        out: Some(0),
        end: None,
    },
    State {
        heard: &[BOOT_UP, CONFIRMED],
        reached: 0,
        out: Some(1),
        end: None,
    },
    State {
        heard: &[BOOT_UP, CONFIRMED, CONFIRMED],
        reached: 0,
        out: None,
        end: Some(End::Ready),
    },
    State {
        heard: &[BOOT_UP, REFUSED],
        reached: 0,
        out: None,
        end: Some(ABORTED),
    },
    State {
        heard: &[BOOT_UP],
        reached: 4_000_000,
        out: None,
        end: Some(SILENT),
    },
    State {
        heard: &[BOOT_UP, BOOT_UP, BOOT_UP, BOOT_UP],
        reached: 0,
        out: None,
        end: Some(RESTARTING),
    },
];

/// The end of a node of whose setting an answer made nothing.
const UNEXPECTED: End = End::Aborted {
    node: 5,
    index: 0x1800,
    sub: 1,
    code: 0x0504_0001,
};

/// What the manager sends then.
const ENDED: Sent = (0x605, &[0x80, 0x00, 0x18, 0x01, 0x01, 0, 0x04, 0x05]);

/// The rest of each answer: the setting's address, and the code of an abort.
fn answer(first: u8) -> Frame {
    Frame::new(0x585, &[first, 0x00, 0x18, 0x01, 0x22, 0, 0, 0x08])
}

/// What is due to an answer with some first byte: only its top three bits tell a confirmation and an abort.
fn due(state: &State, first: u8) -> (Option<Sent>, Option<End>) {
    match (state.out, first >> 5) {
        (Some(0), 3) => (Some(ON), None),
        (Some(_), 3) => (Some(START), Some(End::Ready)),
        (Some(_), 4) => (None, Some(ABORTED)),
        (Some(_), _) => (Some(ENDED), Some(UNEXPECTED)),
        (None, _) => (None, state.end),
    }
}

/// A manager hears frames one after another.
fn hear_each(manager: &mut Manager, heard: &[Sent]) -> Result<(), Fail> {
    for sent in heard {
        let _ = manager.on_frame(&frame(*sent)?, 0);
    }
    Ok(())
}

/// A manager of node 5, brought into a state.
fn brought_to(alloc: Global, state: &State) -> Result<Manager, Fail> {
    let mut manager = manager(alloc, &[5])?;
    let _ = manager.begin(0);
    hear_each(&mut manager, state.heard)?;
    let _ = manager.on_moment(state.reached);
    Ok(manager)
}

/// All that is handed in to bring it there, and a frame after it.
fn inputs(alloc: Global, state: &State, last: Frame) -> Result<Vec<Input>, Fail> {
    let mut inputs = Vec::new(alloc);
    for sent in state.heard {
        inputs.push(Input::Heard(frame(*sent)?))?;
    }
    inputs.push(Input::Moment(state.reached))?;
    inputs.push(Input::Heard(last))?;
    Ok(inputs)
}

/// Whether all is started after an answer that comes by the call, where it has done what is due.
fn called(alloc: Global, state: &State, first: u8) -> Result<Option<bool>, Fail> {
    let (sends, end) = due(state, first);
    let mut manager = brought_to(alloc, state)?;
    let sent = manager.on_frame(&answer(first), state.reached);
    let is_due = is_frame(sent, sends) && manager.end(5) == end;
    Ok(is_due.then_some(manager.started()))
}

/// The same where the answer ends a whole list.
fn driven(alloc: Global, state: &State, first: u8) -> Result<Option<bool>, Fail> {
    let (sends, end) = due(state, first);
    let inputs = inputs(alloc, state, answer(first))?;
    let mut manager = manager(alloc, &[5])?;
    let frames = drive(alloc, &mut manager, &inputs)?;
    let is_last = sends.is_none() || is_frame(frames.last().copied(), sends);
    let is_due = is_last && manager.end(5) == end;
    Ok(is_due.then_some(manager.started()))
}

/// Whether a manager in a state does what is due to an answer, by the call and through a whole list.
fn does_what_is_due(alloc: Global, state: &State, first: u8) -> Result<bool, Fail> {
    let called = called(alloc, state, first)?;
    Ok(called.is_some() && called == driven(alloc, state, first)?)
}

#[test]
fn each_first_byte_of_an_answer(rt: HostRuntime) -> Result<(), Fail> {
    for state in STATES {
        for first in 0..=u8::MAX {
            let is_due = does_what_is_due(rt.alloc(), state, first)?;
            assert!(rt;
                is_due,
                "first byte {first} after {} frames",
                state.heard.len()
            );
        }
    }
    Ok(())
}

/// Frames that are nothing to the manager: too short ones, those of other nodes, a heartbeat, requests.
const IGNORED: &[Sent] = &[
    (0x585, &[]),
    (0x585, &[0x60]),
    (0x585, &[0x60, 0x00]),
    (0x585, &[0x60, 0x00, 0x18]),
    (0x585, &[0x60, 0x00, 0x18, 0x01]),
    (0x585, &[0x60, 0x00, 0x18, 0x01, 0]),
    (0x585, &[0x60, 0x00, 0x18, 0x01, 0, 0]),
    (0x585, &[0x80, 0x00, 0x18, 0x01, 0, 0, 0]),
    (0x584, &[0x60, 0x00, 0x18, 0x01, 0, 0, 0, 0]),
    (0x586, &[0x80, 0x00, 0x18, 0x01, 0, 0, 0, 0]),
    (0x706, &[0]),
    (0x705, &[]),
    (0x705, &[5]),
    (0x705, &[0, 0]),
    (0x605, &[0x60, 0x00, 0x18, 0x01, 0, 0, 0, 0]),
    (0x000, &[1, 5]),
];

/// Whether a manager in a state sends nothing at a frame, and the end of the node stays.
fn ignores(manager: &mut Manager, state: &State, sent: Sent) -> Result<bool, Fail> {
    let answer = manager.on_frame(&frame(sent)?, state.reached);
    Ok(answer.is_none() && manager.end(5) == state.end)
}

#[test]
fn frames_that_are_nothing_to_a_manager(rt: HostRuntime) -> Result<(), Fail> {
    for state in STATES {
        let mut manager = brought_to(rt.alloc(), state)?;
        let started = manager.started();
        for sent in IGNORED {
            let (id, data) = *sent;
            assert!(rt; ignores(&mut manager, state, *sent)?, "{id}: {data:?}");
        }
        assert!(rt; manager.started() == started);
    }
    Ok(())
}

/// Answers with the right first byte and another address.
const MISDIRECTED: &[Sent] = &[
    (0x585, &[0x60, 0x01, 0x18, 0x01, 0, 0, 0, 0]),
    (0x585, &[0x60, 0x00, 0x19, 0x01, 0, 0, 0, 0]),
    (0x585, &[0x60, 0x00, 0x18, 0x02, 0, 0, 0, 0]),
];

/// Whether a manager in a state aborts what it asked at a frame.
fn aborts_at(alloc: Global, state: &State, sent: Sent) -> Result<bool, Fail> {
    let mut manager = brought_to(alloc, state)?;
    let answer = manager.on_frame(&frame(sent)?, 0);
    Ok(is_frame(answer, Some(ENDED)) && manager.end(5) == Some(UNEXPECTED))
}

#[test]
fn answers_to_what_was_not_asked(rt: HostRuntime) -> Result<(), Fail> {
    for state in STATES {
        for sent in MISDIRECTED {
            if state.out.is_some() {
                assert!(rt; aborts_at(rt.alloc(), state, *sent)?, "{:?}", sent.1);
            }
        }
    }
    Ok(())
}

/// The state that a command of NMT leaves, and whether the node boots.
fn obeyed(state: NodeState, command: u8) -> (NodeState, bool) {
    match command {
        1 => (NodeState::Operational, false),
        2 => (NodeState::Stopped, false),
        128 => (NodeState::PreOperational, false),
        129 | 130 => (NodeState::PreOperational, true),
        _ => (state, false),
    }
}

/// The commands that bring a device into each state, and that state.
const DEVICE_STATES: &[(u8, NodeState)] = &[
    (128, NodeState::PreOperational),
    (1, NodeState::Operational),
    (2, NodeState::Stopped),
];

/// A device of node 5 in a state.
fn device_in(alloc: Global, enters: u8) -> Result<Device, EdsFault> {
    let mut device = device(alloc, 5)?;
    let _ = device.on_frame(&Frame::new(0x000, &[enters, 5]));
    Ok(device)
}

/// Whether a device of node 5 obeys a command to it, and none to another node.
fn obeys(mut device: Device, state: NodeState, command: u8) -> bool {
    let other = device.on_frame(&Frame::new(0x000, &[command, 6]));
    let is_left = other.is_none() && device.state() == state;
    let (wanted, boots) = obeyed(state, command);
    let answer = device.on_frame(&Frame::new(0x000, &[command, 5]));
    let says = if boots { Some(BOOT_UP) } else { None };
    is_left && is_frame(answer, says) && device.state() == wanted
}

#[test]
fn each_command_to_a_device(rt: HostRuntime) -> Result<(), EdsFault> {
    for case in DEVICE_STATES {
        let (enters, state) = *case;
        for command in 0..=u8::MAX {
            let device = device_in(rt.alloc(), enters)?;
            assert!(rt; obeys(device, state, command), "command {command}");
        }
    }
    Ok(())
}

/// Whether a device answers an SDO request where its state has it, but for an abort, and whether only a download can
/// have changed the value.
fn serves(mut device: Device, state: NodeState, first: u8) -> bool {
    let answer = device.on_frame(&Frame::new(0x605, &[first, 0x00, 0x18, 0x02, 7, 0, 0, 0]));
    let kind = first >> 5;
    let hears = state != NodeState::Stopped;
    let Ok(value) = device.dictionary().read(0x1800, 2) else {
        return false;
    };
    let is_kept = value == [255].as_slice();
    answer.is_some() == (hears && kind != 4) && (is_kept || hears && kind == 1)
}

/// Whether a device answers no frame to its node of fewer than 8 bytes, and none of another identifier.
fn is_deaf(device: &mut Device, body: &[u8; 8]) -> bool {
    for len in 0..8usize {
        if device.on_frame(&Frame::new(0x605, &body[..len])).is_some() {
            return false;
        }
    }
    for id in 1..2048u16 {
        if id != 0x605 && device.on_frame(&Frame::new(id, body)).is_some() {
            return false;
        }
    }
    true
}

/// The objects of the sample device as node 5, and their initial values.
const BUILT: &[(u16, u8, &[u8])] = &[
    (0x1017, 0, &[0, 0]),
    (0x1800, 0, &[2]),
    (0x1800, 1, &[0x85, 0x01, 0, 0x40]),
    (0x1800, 2, &[255]),
];

/// Whether an object of a device has a value.
fn has_value(device: &Device, index: u16, sub: u8, value: &[u8]) -> bool {
    device.dictionary().read(index, sub) == Ok(value)
}

/// Whether a device has all its initial values.
fn is_as_built(device: &Device) -> bool {
    for object in BUILT {
        let (index, sub, value) = *object;
        if !has_value(device, index, sub, value) {
            return false;
        }
    }
    true
}

/// Whether a device in a state ignores such frames with a first byte, and they leave it as it was.
fn ignores_others(device: &mut Device, state: NodeState, first: u8) -> bool {
    let is_deaf = is_deaf(device, &[first, 0x00, 0x18, 0x02, 7, 0, 0, 0]);
    is_deaf && device.state() == state && is_as_built(device)
}

#[test]
fn each_first_byte_to_a_device(rt: HostRuntime) -> Result<(), EdsFault> {
    for case in DEVICE_STATES {
        let (enters, state) = *case;
        for first in 0..=u8::MAX {
            let mut device = device_in(rt.alloc(), enters)?;
            let is_ignored = ignores_others(&mut device, state, first);
            assert!(rt; is_ignored, "first byte {first} to others");
            assert!(rt; serves(device, state, first), "first byte {first}");
        }
    }
    Ok(())
}

/// A device of node 5 in a state, in the midst of a download of one byte to 1800h sub 2.
fn downloading_in(alloc: Global, enters: u8) -> Result<Device, EdsFault> {
    let mut device = device(alloc, 5)?;
    let _ = device.on_frame(&Frame::new(0x605, &[0x21, 0x00, 0x18, 0x02, 1, 0, 0, 0]));
    let _ = device.on_frame(&Frame::new(0x000, &[enters, 5]));
    Ok(device)
}

/// The answer to a download's segment.
const TAKEN: Sent = (0x585, &[0x20, 0, 0, 0, 0, 0, 0, 0]);

/// Whether a device takes the byte, once it has SDO again.
fn ends_download(device: &mut Device) -> bool {
    let _ = device.on_frame(&Frame::new(0x000, &[128, 5]));
    let answer = device.on_frame(&Frame::new(0x605, &[0x0D, 7, 0, 0, 0, 0, 0, 0]));
    is_frame(answer, Some(TAKEN)) && has_value(device, 0x1800, 2, &[7])
}

#[test]
fn other_frames_in_a_download(rt: HostRuntime) -> Result<(), EdsFault> {
    for case in DEVICE_STATES {
        let (enters, state) = *case;
        let mut device = downloading_in(rt.alloc(), enters)?;
        for first in 0..=u8::MAX {
            let is_ignored = ignores_others(&mut device, state, first);
            assert!(rt; is_ignored, "first byte {first}");
        }
        assert!(rt; ends_download(&mut device), "after {enters}");
    }
    Ok(())
}
