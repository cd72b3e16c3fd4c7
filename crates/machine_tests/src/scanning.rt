//! Nodes are asked over a port what their devices are.

use crate::scripts::{Script, Turn};
use cop_frame::Rate;
use cop_scan::{Found, Reason, Scanned, scan};
use std::test::Fail;

/// Node 5 runs, and tells all but its product; node 6 is silent.
const ONE: &[Turn] = &[
    (0, b"t705105\r"),
    (10, b"t58584300100091010F00\r"),
    (20, b"t5858431810015A010000\r"),
    (30, b"t58588018100211000906\r"),
    (40, b"t58584318100302000100\r"),
    (50, b""),
    (4_000_050, b""),
    (4_000_400, b""),
];

/// A line that is no frame.
const GARBLED: &[Turn] = &[(0, b"#1\r"), (8_000_010, b""), (8_000_400, b"")];

/// The adapter is opened to listen only, and then to send; the questions; and it is closed.
const ASKED: &[u8] =
    b"\r\rC\rS6\rL\r\r\rC\rS6\rO\rt60584000100000000000\rt60584018100100000000\rt60584018100200000000\rt60584018100300000000\rt60684000100000000000\rC\r";

const UNASKED: &[u8] = b"\r\rC\rS6\rL\rC\r";

const FOUND: &[Found] = &[Found {
    node: 5,
    device_type: Some(0x000F_0191),
    vendor: Some(0x15A),
    product: None,
    revision: Some(0x0001_0002),
}];

#[test]
fn finds_who_answers(rt: HostRuntime) -> Result<(), Fail> {
    let mut port = Script::new(rt.alloc(), ONE);
    match scan(rt.alloc(), Rate::Kbit500, 0, &[5, 6], &mut port)? {
        Scanned::Seen { found } => assert!(rt; found.as_slice() == FOUND),
        Scanned::Left { .. } | Scanned::Failed => assert!(rt; false),
    }
    assert!(rt; port.written.as_slice() == ASKED);
    Ok(())
}

#[test]
fn asks_nobody_on_another_bus(rt: HostRuntime) -> Result<(), Fail> {
    let mut port = Script::new(rt.alloc(), GARBLED);
    match scan(rt.alloc(), Rate::Kbit500, 0, &[5], &mut port)? {
        Scanned::Left { reason } => assert!(rt; reason == Reason::Garbled { lines: 1 }),
        Scanned::Seen { .. } | Scanned::Failed => assert!(rt; false),
    }
    assert!(rt; port.written.as_slice() == UNASKED);
    Ok(())
}
