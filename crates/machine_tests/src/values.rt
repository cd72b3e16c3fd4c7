//! Values that are read and written over a port.

use crate::scripts::{Script, Turn};
use cop_frame::Rate;
use cop_transfer::{
    Address, ClientFault, EachRead, End, NodeValue, Reason, Transferred, read, read_each, write,
};
use std::test::Fail;

/// An object of node 5.
const AT: Address = Address {
    index: 0x2001,
    sub: 2,
};

/// Node 5 runs, and tells a value of nine bytes in two segments.
const TOLD: &[Turn] = &[
    (0, b"t705105\r"),
    (10, b"t585841012002"),
    (20, b"09000000\r"),
    (30, b"t585800414243"),
    (40, b"44454647\rt1812"),
    (50, b"t58581B4849000000"),
    (60, b"0000\r"),
    (70, b""),
    (80, b""),
];

/// It takes a value of nine bytes.
const TAKEN: &[Turn] = &[
    (0, b"t705105\r"),
    (10, b"t58586001200200000000\r"),
    (20, b"t58582000000000000000\r"),
    (30, b"t58583000000000000000\r"),
    (40, b""),
    (50, b""),
];

/// It refuses.
const REFUSED: &[Turn] = &[
    (0, b"t705105\r"),
    (10, b"t58588001200202000106\r"),
    (20, b""),
    (30, b""),
];

/// It does not answer.
const UNANSWERED: &[Turn] = &[
    (0, b"t705105\r"),
    (10, b"t705105\r"),
    (3_999_999, b""),
    (4_000_010, b""),
    (4_000_020, b""),
];

/// The name of a device.
const NAME: Address = Address {
    index: 0x1008,
    sub: 0,
};

/// Node 5 tells a name of nine bytes in two segments, node 6 one of four bytes at once; node 7 does not answer.
const NAMES: &[Turn] = &[
    (0, b"t705105\r"),
    (10, b"t585841081000"),
    (20, b"09000000\r"),
    (30, b"t585800414243"),
    (40, b"44454647\r"),
    (50, b"t58581B4849000000"),
    (60, b"0000\r"),
    (70, b"t586843081000464F5552\r"),
    (80, b""),
    (4_000_090, b""),
    (4_000_100, b""),
];

/// A line that is no frame.
const GARBLED: &[Turn] = &[(0, b"#1\r"), (8_000_010, b""), (8_000_400, b"")];

const OPENED: &[u8] = b"\r\rC\rS6\rL\r\r\rC\rS6\rO\r";

/// The frames that were sent over an adapter that was opened, and is closed.
fn sent(port: &Script) -> Option<&[u8]> {
    let behind = port.written.strip_prefix(OPENED)?;
    behind.strip_suffix(b"C\r")
}

#[test]
fn reads_a_value_in_segments(rt: HostRuntime) -> Result<(), Fail> {
    let mut port = Script::new(rt.alloc(), TOLD);
    let value = read(rt.alloc(), Rate::Kbit500, 5, AT, &mut port)?;
    assert!(rt; value.came == Transferred::Ended { end: End::Done });
    assert!(rt; value.bytes.as_slice() == b"ABCDEFGHI".as_slice());
    assert!(rt;
        sent(&port)
            == Some(
                b"t60584001200200000000\rt60586000000000000000\rt60587000000000000000\r".as_slice()
            )
    );
    Ok(())
}

#[test]
fn writes_a_value_in_segments(rt: HostRuntime) -> Result<(), Fail> {
    let mut port = Script::new(rt.alloc(), TAKEN);
    let came = write(rt.alloc(), Rate::Kbit500, 5, AT, b"ABCDEFGHI", &mut port);
    assert!(rt; came == Ok(Transferred::Ended { end: End::Done }));
    assert!(rt;
        sent(&port)
            == Some(
                b"t60582101200209000000\rt60580041424344454647\rt60581B48490000000000\r".as_slice()
            )
    );
    Ok(())
}

#[test]
fn tells_what_a_node_refuses(rt: HostRuntime) -> Result<(), Fail> {
    let mut port = Script::new(rt.alloc(), REFUSED);
    let came = write(rt.alloc(), Rate::Kbit500, 5, AT, b"A", &mut port);
    assert!(rt;
        came == Ok(Transferred::Ended {
            end: End::Refused { code: 0x0601_0002 }
        })
    );
    assert!(rt; sent(&port) == Some(b"t60582F01200241000000\r".as_slice()));
    Ok(())
}

#[test]
fn gives_up_where_no_answer_comes(rt: HostRuntime) -> Result<(), Fail> {
    let mut port = Script::new(rt.alloc(), UNANSWERED);
    let value = read(rt.alloc(), Rate::Kbit500, 5, AT, &mut port)?;
    assert!(rt; value.came == Transferred::Ended { end: End::Silent });
    assert!(rt; value.bytes.is_empty());
    assert!(rt; sent(&port) == Some(b"t60584001200200000000\rt60588001200200000405\r".as_slice()));
    Ok(())
}

/// What is told of a node, if the nodes were asked.
fn value_at(each: &EachRead, place: usize) -> Option<&NodeValue> {
    match each {
        EachRead::Ended { values } => values.get(place),
        EachRead::Left { .. } | EachRead::Failed => None,
    }
}

/// Whether a node ended so, with these bytes.
fn is_told(value: Option<&NodeValue>, node: u8, end: End, bytes: &[u8]) -> bool {
    match value {
        Some(value) => value.node == node && value.end == end && value.bytes.as_slice() == bytes,
        None => false,
    }
}

#[test]
fn reads_an_object_of_several_nodes(rt: HostRuntime) -> Result<(), Fail> {
    let mut port = Script::new(rt.alloc(), NAMES);
    let each = read_each(rt.alloc(), Rate::Kbit500, 0, &[5, 6, 7], NAME, &mut port)?;
    assert!(rt; is_told(value_at(&each, 0), 5, End::Done, b"ABCDEFGHI"));
    assert!(rt; is_told(value_at(&each, 1), 6, End::Done, b"FOUR"));
    assert!(rt; is_told(value_at(&each, 2), 7, End::Silent, b""));
    assert!(rt; value_at(&each, 3).is_none());
    assert!(rt;
        sent(&port)
            == Some(
                b"t60584008100000000000\rt60586000000000000000\rt60587000000000000000\rt60684008100000000000\rt60784008100000000000\rt60788008100000000405\r".as_slice()
            )
    );
    Ok(())
}

#[test]
fn asks_several_nodes_nothing_on_another_bus(rt: HostRuntime) -> Result<(), Fail> {
    let mut port = Script::new(rt.alloc(), GARBLED);
    match read_each(rt.alloc(), Rate::Kbit500, 0, &[5, 6], NAME, &mut port)? {
        EachRead::Left { reason } => assert!(rt; reason == Reason::Garbled { lines: 1 }),
        EachRead::Ended { .. } | EachRead::Failed => assert!(rt; false),
    }
    assert!(rt; port.written.as_slice() == b"\r\rC\rS6\rL\rC\r".as_slice());
    Ok(())
}

#[test]
fn sends_nothing_on_another_bus(rt: HostRuntime) -> Result<(), Fail> {
    let mut port = Script::new(rt.alloc(), GARBLED);
    let value = read(rt.alloc(), Rate::Kbit500, 5, AT, &mut port)?;
    let reason = Reason::Garbled { lines: 1 };
    assert!(rt; value.came == Transferred::Left { reason });
    assert!(rt; port.written.as_slice() == b"\r\rC\rS6\rL\rC\r".as_slice());
    Ok(())
}

#[test]
fn writes_no_more_than_a_client_can(rt: HostRuntime) -> Result<(), Fail> {
    let mut port = Script::new(rt.alloc(), GARBLED);
    let mut bytes = Vec::new(rt.alloc());
    for _byte in 0..65_536_u32 {
        bytes.push(0_u8)?;
    }
    let came = write(rt.alloc(), Rate::Kbit500, 5, AT, &bytes, &mut port);
    assert!(rt; came == Err(ClientFault::TooLong));
    assert!(rt; port.written.is_empty());
    Ok(())
}
