//! Lines of logs.

use cop_lines::{Entry, LineFault, line_in};
use cop_log::{LogFault, read_log};
use std::alloc::AllocError;
use std::test::Fail;

const LINE: &[u8] = b"(1436509052.249713) can0 181#0011223344556677";

// The stamp of the lines, in microseconds.
const AT: u64 = 1436509052249713;

// Channels, lines, and what is read of them: identifiers have bit 31 of 29 bits, and bit 30 of remote frames.
const ENTRIES: &[(&[u8], &[u8], u32, u8)] = &[
    (b"can0", LINE, 0x181, 8),
    (b"vcan0", b"(1436509052.249713) vcan0 181# T", 0x181, 0),
    (b"can0", b"(1436509052.249713) can0 181#R8", 0x40000181, 0),
    (
        b"can0",
        b"(1436509052.249713) can0 00000181#00",
        0x80000181,
        1,
    ),
];

#[test]
fn an_entry_is_read(rt: HostRuntime) -> Result<(), Fail> {
    for row in ENTRIES {
        let (channel, line, id, len) = *row;
        assert!(rt;
            line_in(channel, line)
                == Ok(Some(Entry {
                    line: 0,
                    at: AT,
                    id,
                    len
                }))
        );
    }
    assert!(rt; line_in(b"can1", LINE) == Ok(None));
    Ok(())
}

const WRONG: &[(&[u8], LineFault, u8)] = &[
    (b"(1436509052.249713) can0 181#00 X", LineFault::Form, 90),
    (b"(1436509052.24971) can0 181#00", LineFault::Stamp, 91),
    (
        b"(1436509052.249713) can0 1810#00",
        LineFault::Identifier,
        92,
    ),
    (b"(1436509052.249713) can0 181#000", LineFault::Data, 93),
];

#[test]
fn a_wrong_line_is_told(rt: HostRuntime) -> Result<(), Fail> {
    for row in WRONG {
        let (line, fault, number) = *row;
        assert!(rt; line_in(b"can0", line) == Err(fault));
        assert!(rt; fault.number() == number);
    }
    Ok(())
}

// The channel of a name.
pub(crate) fn named(rt: &HostRuntime, name: &[u8]) -> Result<Option<Vec<u8>>, AllocError> {
    let mut bytes = Vec::new(rt.alloc());
    bytes.extend_from_slice(name)?;
    Ok(Some(bytes))
}

#[test]
fn a_log_is_read_up_to_its_end(rt: HostRuntime) -> Result<(), Fail> {
    // The last line has no end.
    let text =
        b"(1.000000) can0 181#00\n\n(1.000001) can1 182#\n(1.000002) can0 183#\n(1.000003) can0 18";
    let log = read_log(rt.alloc(), named(&rt, b"can0")?, false, text)?;
    let last = Entry {
        line: 4,
        at: 1000002,
        id: 0x183,
        len: 0,
    };
    assert!(rt; log.len() == 2 && log.get(1) == Some(&last));
    let broken = b"(1.000000) can0 181#00\n1.000001\n(1.000002) can0 183#\n";
    let fault = LogFault::Line {
        number: 2,
        fault: LineFault::Stamp,
    };
    let wanted = named(&rt, b"can0")?;
    assert!(rt; read_log(rt.alloc(), wanted, false, broken).err() == Some(fault));
    Ok(())
}
