//! Each first byte to a server in each state: the answer, and the values after it.

use crate::sdo::{DEVICE, asks, dictionary, is_joined, says};
use cop_dict::Dictionary;
use cop_frame::Frame;
use cop_sdo::Server;
use std::alloc::{AllocError, Global};

/// An object's index and sub.
#[derive(Clone, Copy)]
struct Address {
    index: u16,
    sub: u8,
}

/// The transfer that runs, with what its next segment has to keep.
#[derive(Clone, Copy)]
enum Transfer {
    Idle,
    Download {
        at: Address,
        size: Option<usize>,
        toggle: bool,
    },
    Upload {
        at: Address,
        toggle: bool,
    },
}

const NOWHERE: Address = Address { index: 0, sub: 0 };

const TEXT: Address = Address {
    index: 0x2000,
    sub: 0,
};

const TEN_BYTES: Address = Address {
    index: 0x2001,
    sub: 0,
};

const NUMBER: Address = Address {
    index: 0x1017,
    sub: 0,
};

// What an initiate meets at an address.
#[derive(Clone, Copy)]
enum Kind {
    Text,
    Number,
    ReadOnly,
    Absent,
}

// An address, and what an upload gives there.
struct Target {
    at: Address,
    kind: Kind,
    value: &'static [u8],
}

const TARGETS: &[Target] = &[
    Target {
        at: TEXT,
        kind: Kind::Text,
        value: b"",
    },
    Target {
        at: NUMBER,
        kind: Kind::Number,
        value: &[0, 0],
    },
    Target {
        at: TEN_BYTES,
        kind: Kind::ReadOnly,
        value: b"ten bytes!",
    },
    Target {
        at: Address {
            index: 0x2002,
            sub: 0,
        },
        kind: Kind::ReadOnly,
        value: &[1, 2, 3],
    },
    Target {
        at: Address {
            index: 0x2009,
            sub: 0,
        },
        kind: Kind::Absent,
        value: b"",
    },
];

// A state, and the requests that bring an idle server into it.
struct State {
    name: &'static str,
    requests: &'static [[u8; 8]],
    transfer: Transfer,
    bytes: &'static [u8],
}

const SEVEN: [u8; 8] = [0, 1, 2, 3, 4, 5, 6, 7];

const SEVEN_MORE: [u8; 8] = [0x10, 8, 9, 10, 11, 12, 13, 14];

const ASK: [u8; 8] = [0x40, 1, 0x20, 0, 0, 0, 0, 0];

const STATES: &[State] = &[
    State {
        name: "idle",
        requests: &[],
        transfer: Transfer::Idle,
        bytes: b"",
    },
    // a download of no stated size, of 5 bytes, of 10 after toggle 0, and of 17 after toggle 1
    State {
        name: "a download of no stated size",
        requests: &[[0x20, 0, 0x20, 0, 0, 0, 0, 0]],
        transfer: Transfer::Download {
            at: TEXT,
            size: None,
            toggle: false,
        },
        bytes: b"",
    },
    State {
        name: "a download of 5 bytes",
        requests: &[[0x21, 0, 0x20, 0, 5, 0, 0, 0]],
        transfer: Transfer::Download {
            at: TEXT,
            size: Some(5),
            toggle: false,
        },
        bytes: b"",
    },
    State {
        name: "a download of 10 bytes, after toggle 0",
        requests: &[[0x21, 0, 0x20, 0, 10, 0, 0, 0], SEVEN],
        transfer: Transfer::Download {
            at: TEXT,
            size: Some(10),
            toggle: true,
        },
        bytes: &[1, 2, 3, 4, 5, 6, 7],
    },
    State {
        name: "a download of 17 bytes, after toggle 1",
        requests: &[[0x21, 0, 0x20, 0, 17, 0, 0, 0], SEVEN, SEVEN_MORE],
        transfer: Transfer::Download {
            at: TEXT,
            size: Some(17),
            toggle: false,
        },
        bytes: &[1, 2, 3, 4, 5, 6, 7, 8, 9, 10, 11, 12, 13, 14],
    },
    // an upload of 10 bytes, and after its first segment
    State {
        name: "an upload",
        requests: &[ASK],
        transfer: Transfer::Upload {
            at: TEN_BYTES,
            toggle: false,
        },
        bytes: b"ten bytes!",
    },
    State {
        name: "an upload, after its first segment",
        requests: &[ASK, [0x60, 0, 0, 0, 0, 0, 0, 0]],
        transfer: Transfer::Upload {
            at: TEN_BYTES,
            toggle: true,
        },
        bytes: b"ten bytes!",
    },
];

// What is written where, in two parts: what came before, and what the request brings.
type Written<'a> = Option<(Address, &'a [u8], &'a [u8])>;

// What comes of a request: the answer, and what is written.
#[derive(Clone, Copy)]
struct After<'a> {
    answer: Option<[u8; 8]>,
    written: Written<'a>,
}

// An answer, where nothing is written.
fn says_only(answer: Option<[u8; 8]>) -> After<'static> {
    After {
        answer,
        written: None,
    }
}

// An abort of a transfer at an address.
fn aborts(at: Address, code: u32) -> After<'static> {
    let [low, high] = at.index.to_le_bytes();
    let [a, b, c, d] = code.to_le_bytes();
    says_only(Some([0x80, low, high, at.sub, a, b, c, d]))
}

// Where the transfer is, or another address where none runs.
fn running(state: &State, other: Address) -> Address {
    match state.transfer {
        Transfer::Idle => other,
        Transfer::Download { at, .. } | Transfer::Upload { at, .. } => at,
    }
}

fn is_set(first: u8, bit: u8) -> bool {
    first & bit != 0
}

// Bits 7 to 5 are 0: a segment with toggle t, 7 - n bytes, and the last where c is 1.
fn segment<'a>(state: &State, body: &'a [u8; 8]) -> After<'a> {
    let first = body[0];
    let more = &body[1..8 - usize::from(first / 2 % 8)];
    let count = state.bytes.len() + more.len();
    let Transfer::Download { at, size, toggle } = state.transfer else {
        return aborts(running(state, NOWHERE), 0x0504_0001);
    };
    if is_set(first, 0x10) != toggle {
        return aborts(at, 0x0503_0000);
    }
    if size.is_some_and(|stated| stated < count) {
        return aborts(at, 0x0607_0012);
    }
    let answer = Some([if toggle { 0x30 } else { 0x20 }, 0, 0, 0, 0, 0, 0, 0]);
    if !is_set(first, 1) {
        return says_only(answer);
    }
    if size.is_some_and(|stated| count < stated) {
        return aborts(at, 0x0607_0013);
    }
    stored(answer, (at, state.bytes, more))
}

// A download is complete: its bytes are written, and the server is idle.
fn stored<'a>(answer: Option<[u8; 8]>, written: (Address, &'a [u8], &'a [u8])) -> After<'a> {
    After {
        answer,
        written: Some(written),
    }
}

// Bits 7 to 5 are 1: an initiate of a download, by s (bit 0), e (bit 1) and n (bits 2 and 3).
fn initiate<'a>(target: &Target, body: &'a [u8; 8]) -> After<'a> {
    let at = target.at;
    let answer = Some([0x60, body[1], body[2], body[3], 0, 0, 0, 0]);
    let given = &body[4..8 - usize::from(body[0] / 4 % 4)];
    match (target.kind, body[0] % 4) {
        (Kind::ReadOnly, _) => aborts(at, 0x0601_0002),
        (Kind::Absent, _) => aborts(at, 0x0602_0000),
        (Kind::Number, 3) if given.len() > 2 => aborts(at, 0x0607_0012),
        (Kind::Number, 3) if given.len() < 2 => aborts(at, 0x0607_0013),
        (Kind::Number, 2) => stored(answer, (at, &body[4..6], b"")),
        (Kind::Text, 2) => aborts(at, 0x0607_0010),
        (_, 3) => stored(answer, (at, given, b"")),
        (_, _) => says_only(answer),
    }
}

// Bits 7 to 5 are 2: an initiate of an upload.
fn upload(target: &Target, body: &[u8; 8]) -> After<'static> {
    let (low, high, sub) = (body[1], body[2], body[3]);
    match (target.kind, target.value) {
        (Kind::Absent, _) => aborts(target.at, 0x0602_0000),
        (_, [a, b]) => says_only(Some([0x4B, low, high, sub, *a, *b, 0, 0])),
        (_, [a, b, c]) => says_only(Some([0x47, low, high, sub, *a, *b, *c, 0])),
        (_, value) => {
            let size = if value.is_empty() { 0 } else { 10 };
            says_only(Some([0x41, low, high, sub, size, 0, 0, 0]))
        }
    }
}

// Bits 7 to 5 are 3: the next segment of an upload is asked for, with toggle t.
fn segment_asked(state: &State, first: u8) -> After<'static> {
    match (state.transfer, is_set(first, 0x10)) {
        (Transfer::Upload { toggle: false, .. }, false) => says_only(Some([
            0, b't', b'e', b'n', b' ', b'b', b'y', b't',
        ])),
        (Transfer::Upload { toggle: true, .. }, true) => says_only(Some([
            0x19, b'e', b's', b'!', 0, 0, 0, 0,
        ])),
        (Transfer::Upload { at, .. }, _) => aborts(at, 0x0503_0000),
        _ => aborts(running(state, NOWHERE), 0x0504_0001),
    }
}

// What a request is due, by the top three bits of its first byte.
fn due<'a>(state: &State, target: &Target, body: &'a [u8; 8]) -> After<'a> {
    match body[0] / 32 {
        0 => segment(state, body),
        1 => initiate(target, body),
        2 => upload(target, body),
        3 => segment_asked(state, body[0]),
        4 => says_only(None),
        _ => aborts(running(state, target.at), 0x0504_0001),
    }
}

fn body_of(first: u8, target: &Target) -> [u8; 8] {
    let [low, high] = target.at.index.to_le_bytes();
    [first, low, high, target.at.sub, 2, 0, 0, 0]
}

// Whether all values are as in another dictionary, but for one that is written.
fn is_written(dict: &Dictionary, before: &Dictionary, written: Written<'_>) -> bool {
    dict.entries().iter().zip(before.entries()).all(|(entry, old)| match written {
        Some((at, front, back)) if at.index == entry.index() && at.sub == entry.sub() => is_joined(
            entry.value(),
            front,
            back,
        ),
        _ => entry.value() == old.value(),
    })
}

fn brought_to(alloc: Global, dict: &mut Dictionary, state: &State) -> Server {
    let mut server = Server::new(alloc, 5);
    for request in state.requests {
        let _ = server.step(dict, &asks(*request));
    }
    server
}

// Whether a server in a state does with a request what is due, and nothing else.
fn does_what_is_due(
    alloc: Global,
    state: &State,
    target: &Target,
    first: u8,
) -> Result<bool, AllocError> {
    let before = dictionary(alloc, DEVICE)?;
    let mut dict = dictionary(alloc, DEVICE)?;
    let mut server = brought_to(alloc, &mut dict, state);
    let body = body_of(first, target);
    let after = due(state, target, &body);
    let answer = server.step(&mut dict, &asks(body));
    Ok(answer == after.answer.map(says) && is_written(&dict, &before, after.written))
}

// Whether a server ignores a frame to another node, and frames of fewer bytes.
fn ignores_each(server: &mut Server, dict: &mut Dictionary, body: &[u8; 8]) -> bool {
    if server.step(dict, &Frame::new(0x606, body)).is_some() {
        return false;
    }
    for len in 0..8usize {
        if server
            .step(dict, &Frame::new(0x605, &body[..len]))
            .is_some()
        {
            return false;
        }
    }
    true
}

// Whether a server in a state ignores such frames, and leaves all values.
fn ignores(alloc: Global, state: &State, body: &[u8; 8]) -> Result<bool, AllocError> {
    let before = dictionary(alloc, DEVICE)?;
    let mut dict = dictionary(alloc, DEVICE)?;
    let mut server = brought_to(alloc, &mut dict, state);
    Ok(ignores_each(&mut server, &mut dict, body) && is_written(&dict, &before, None))
}

#[test]
fn each_first_byte_in_each_state(rt: HostRuntime) -> Result<(), AllocError> {
    for state in STATES {
        for target in TARGETS {
            for first in 0..=255u8 {
                let is_due = does_what_is_due(rt.alloc(), state, target, first)?;
                let index = target.at.index;
                assert!(rt; is_due, "{first} to {index} in {}", state.name);
            }
        }
    }
    Ok(())
}

#[test]
fn other_frames_in_each_state(rt: HostRuntime) -> Result<(), AllocError> {
    for state in STATES {
        for first in 0..=255u8 {
            let is_ignored = ignores(rt.alloc(), state, &[first, 0, 0x20, 0, 2, 0, 0, 0])?;
            assert!(rt; is_ignored, "{first} in {}", state.name);
        }
    }
    Ok(())
}
