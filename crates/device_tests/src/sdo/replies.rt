//! Each first byte to a client in each state: what comes of it, and the bytes that it has then.

use crate::sdo::{asks, is_joined, says};
use cop_frame::Frame;
use cop_sdo::{Client, ClientFault, Progress};
use std::alloc::Global;

/// What the client awaits, with what the next answer has to keep.
#[derive(Clone, Copy)]
enum Task {
    Idle,
    Giving,
    Beginning,
    Sending { sent: usize, toggle: bool },
    Asking,
    Receiving { size: Option<usize>, toggle: bool },
}

// The call that begins a transfer.
#[derive(Clone, Copy)]
enum Call {
    Nothing,
    Download(&'static [u8]),
    Upload,
}

// A state, and what brings an idle client into it: a call, and answers in turn.
struct State {
    name: &'static str,
    call: Call,
    answers: &'static [[u8; 8]],
    task: Task,
    bytes: &'static [u8],
}

const VALUE: &[u8] = b"a value of 20 bytes.";

// The segments in which the value goes.
const SEGMENTS: [[u8; 8]; 3] = [
    [0x00, b'a', b' ', b'v', b'a', b'l', b'u', b'e'],
    [0x10, b' ', b'o', b'f', b' ', b'2', b'0', b' '],
    [0x03, b'b', b'y', b't', b'e', b's', b'.', 0],
];

const CONFIRMED: [u8; 8] = [0x60, 0, 0x20, 0, 0, 0, 0, 0];

const CONFIRMED_EVEN: [u8; 8] = [0x20, 0, 0, 0, 0, 0, 0, 0];

const CONFIRMED_ODD: [u8; 8] = [0x30, 0, 0, 0, 0, 0, 0, 0];

const TEN_BYTES: [u8; 8] = [0x41, 0, 0x20, 0, 10, 0, 0, 0];

const SEVEN: [u8; 8] = [0, 1, 2, 3, 4, 5, 6, 7];

const STATES: &[State] = &[
    State {
        name: "idle",
        call: Call::Nothing,
        answers: &[],
        task: Task::Idle,
        bytes: b"",
    },
    // a download with its bytes, and one in segments: its initiate, two segments and the last
    State {
        name: "one byte is sent",
        call: Call::Download(&[1]),
        answers: &[],
        task: Task::Giving,
        bytes: b"",
    },
    State {
        name: "a download is asked for",
        call: Call::Download(VALUE),
        answers: &[],
        task: Task::Beginning,
        bytes: VALUE,
    },
    State {
        name: "the first segment is sent",
        call: Call::Download(VALUE),
        answers: &[CONFIRMED],
        task: Task::Sending {
            sent: 7,
            toggle: false,
        },
        bytes: VALUE,
    },
    State {
        name: "the second segment is sent",
        call: Call::Download(VALUE),
        answers: &[CONFIRMED, CONFIRMED_EVEN],
        task: Task::Sending {
            sent: 14,
            toggle: true,
        },
        bytes: VALUE,
    },
    State {
        name: "the last segment is sent",
        call: Call::Download(VALUE),
        answers: &[CONFIRMED, CONFIRMED_EVEN, CONFIRMED_ODD],
        task: Task::Sending {
            sent: 21,
            toggle: false,
        },
        bytes: VALUE,
    },
    // an upload: its initiate, and segments of 5 bytes, of 10, and of no stated size
    State {
        name: "an upload is asked for",
        call: Call::Upload,
        answers: &[],
        task: Task::Asking,
        bytes: b"",
    },
    State {
        name: "5 bytes are awaited",
        call: Call::Upload,
        answers: &[[0x41, 0, 0x20, 0, 5, 0, 0, 0]],
        task: Task::Receiving {
            size: Some(5),
            toggle: false,
        },
        bytes: b"",
    },
    State {
        name: "10 bytes are awaited, 7 are there",
        call: Call::Upload,
        answers: &[TEN_BYTES, SEVEN],
        task: Task::Receiving {
            size: Some(10),
            toggle: true,
        },
        bytes: &[1, 2, 3, 4, 5, 6, 7],
    },
    State {
        name: "bytes of no stated size are awaited",
        call: Call::Upload,
        answers: &[[0x40, 0, 0x20, 0, 0, 0, 0, 0]],
        task: Task::Receiving {
            size: None,
            toggle: false,
        },
        bytes: b"",
    },
    State {
        name: "bytes of no stated size are awaited, 7 are there",
        call: Call::Upload,
        answers: &[[0x40, 0, 0x20, 0, 0, 0, 0, 0], SEVEN],
        task: Task::Receiving {
            size: None,
            toggle: true,
        },
        bytes: &[1, 2, 3, 4, 5, 6, 7],
    },
];

// What comes of an answer, and the bytes, in two parts: what was there and what the answer brings.
#[derive(Clone, Copy)]
struct After<'a> {
    progress: Progress,
    bytes: (&'a [u8], &'a [u8]),
}

fn idle(progress: Progress) -> After<'static> {
    After {
        progress,
        bytes: (b"", b""),
    }
}

// The client aborts, by this code.
fn ends(code: u32) -> After<'static> {
    let [a, b, c, d] = code.to_le_bytes();
    idle(Progress::Ended(asks([0x80, 0, 0x20, 0, a, b, c, d]), code))
}

fn is_set(first: u8, bit: u8) -> bool {
    first & bit != 0
}

// A segment of the value goes.
fn sends(segment: [u8; 8]) -> After<'static> {
    After {
        progress: Progress::Send(asks(segment)),
        bytes: (VALUE, b""),
    }
}

// A segment is asked for, with a toggle.
fn receives<'a>(toggle: bool, bytes: (&'a [u8], &'a [u8])) -> After<'a> {
    let first = if toggle { 0x70 } else { 0x60 };
    After {
        progress: Progress::Send(asks([first, 0, 0, 0, 0, 0, 0, 0])),
        bytes,
    }
}

// An upload is complete.
fn has<'a>(front: &'a [u8], back: &'a [u8]) -> After<'a> {
    After {
        progress: Progress::Done,
        bytes: (front, back),
    }
}

// Bits 7 to 5 are 1 while segments go: the segment before a place is confirmed, with toggle t.
fn segment_confirmed(sent: usize, toggle: bool, first: u8) -> After<'static> {
    if is_set(first, 0x10) != toggle {
        return ends(0x0503_0000);
    }
    match sent {
        7 => sends(SEGMENTS[1]),
        14 => sends(SEGMENTS[2]),
        _ => idle(Progress::Done),
    }
}

// Bits 7 to 5 are 2 while an upload is asked for, by s (bit 0), e (bit 1) and n (bits 2 and 3).
fn told(body: &[u8; 8]) -> After<'_> {
    match body[0] % 4 {
        0 | 1 => receives(false, (b"", b"")),
        2 => has(&body[4..], b""),
        _ => has(&body[4..8 - usize::from(body[0] / 4 % 4)], b""),
    }
}

// Bits 7 to 5 are 0 while segments come: toggle t, 7 - n bytes, and the last where c is 1.
fn segment<'a>(state: &State, size: Option<usize>, toggle: bool, body: &'a [u8; 8]) -> After<'a> {
    let first = body[0];
    let more = &body[1..8 - usize::from(first / 2 % 8)];
    let count = state.bytes.len() + more.len();
    if is_set(first, 0x10) != toggle {
        return ends(0x0503_0000);
    }
    if size.is_some_and(|stated| stated < count) {
        return ends(0x0504_0001);
    }
    if !is_set(first, 1) {
        return receives(!toggle, (state.bytes, more));
    }
    if size.is_some_and(|stated| count < stated) {
        return ends(0x0504_0001);
    }
    has(state.bytes, more)
}

// What an answer is due, by the state and the top three bits of its first byte.
fn due<'a>(state: &State, body: &'a [u8; 8]) -> After<'a> {
    let is_here = [body[1], body[2], body[3]] == [0, 0x20, 0];
    match (state.task, body[0] / 32) {
        (Task::Idle, _) => idle(Progress::Ignored),
        (_, 4) => idle(Progress::Aborted(0x0607_0013)),
        (Task::Giving, 3) if is_here => idle(Progress::Done),
        (Task::Beginning, 3) if is_here => sends(SEGMENTS[0]),
        (Task::Sending { sent, toggle }, 1) => segment_confirmed(sent, toggle, body[0]),
        (Task::Asking, 2) if is_here => told(body),
        (Task::Receiving { size, toggle }, 0) => segment(state, size, toggle, body),
        _ => ends(0x0504_0001),
    }
}

fn has_taken(client: &Client, bytes: (&[u8], &[u8])) -> bool {
    is_joined(client.taken(), bytes.0, bytes.1)
}

fn brought_to(alloc: Global, state: &State) -> Result<Client, ClientFault> {
    let mut client = Client::new(alloc, 5);
    match state.call {
        Call::Nothing => {}
        Call::Download(value) => {
            let _ = client.download(0x2000, 0, value)?;
        }
        Call::Upload => {
            let _ = client.upload(0x2000, 0)?;
        }
    }
    for answer in state.answers {
        let _ = client.step(&says(*answer));
    }
    Ok(client)
}

// Whether a client in a state does with an answer what is due.
fn does_what_is_due(alloc: Global, state: &State, body: &[u8; 8]) -> Result<bool, ClientFault> {
    let mut client = brought_to(alloc, state)?;
    let is_there = has_taken(&client, (state.bytes, b""));
    let after = due(state, body);
    let progress = client.step(&says(*body));
    Ok(is_there && progress == after.progress && has_taken(&client, after.bytes))
}

// Whether a client ignores a frame from another node, and frames of fewer bytes.
fn ignores_each(client: &mut Client, body: &[u8; 8]) -> bool {
    if client.step(&Frame::new(0x586, body)) != Progress::Ignored {
        return false;
    }
    for len in 0..8usize {
        if client.step(&Frame::new(0x585, &body[..len])) != Progress::Ignored {
            return false;
        }
    }
    true
}

// Whether a client in a state ignores such frames, and has the same bytes then.
fn ignores(alloc: Global, state: &State, body: &[u8; 8]) -> Result<bool, ClientFault> {
    let mut client = brought_to(alloc, state)?;
    Ok(ignores_each(&mut client, body) && has_taken(&client, (state.bytes, b"")))
}

// The address of the transfer, another index, and another sub.
const ADDRESSES: &[[u8; 3]] = &[[0, 0x20, 0], [1, 0x20, 0], [0, 0x20, 1]];

#[test]
fn each_first_byte_in_each_state(rt: HostRuntime) -> Result<(), ClientFault> {
    for state in STATES {
        for address in ADDRESSES {
            let [low, high, sub] = *address;
            for first in 0..=255u8 {
                let body = [first, low, high, sub, 0x13, 0, 7, 6];
                let is_due = does_what_is_due(rt.alloc(), state, &body)?;
                assert!(rt; is_due, "{first} where {}", state.name);
            }
        }
    }
    Ok(())
}

#[test]
fn other_frames_in_each_state(rt: HostRuntime) -> Result<(), ClientFault> {
    for state in STATES {
        for first in 0..=255u8 {
            let is_ignored = ignores(rt.alloc(), state, &[first, 0, 0x20, 0, 2, 0, 0, 0])?;
            assert!(rt; is_ignored, "{first} where {}", state.name);
        }
    }
    Ok(())
}
