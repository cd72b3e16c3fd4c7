//! Values as people write them.

use cop_value::{DataType, bytes_of, number_in};
use std::test::Fail;

/// A type, a text that is written for node 5, its bytes, and the number that they are.
type Case = (DataType, &'static [u8], &'static [u8], Option<i128>);

const CASES: &[Case] = &[
    (DataType::Boolean, b"1", &[1], Some(1)),
    (DataType::Integer8, b"-128", &[0x80], Some(-128)),
    (DataType::Integer16, b"-3", &[0xFD, 0xFF], Some(-3)),
    (DataType::Integer16, b"0xFFFD", &[0xFD, 0xFF], Some(-3)),
    (DataType::Unsigned16, b"1000", &[0xE8, 3], Some(1000)),
    (
        DataType::Unsigned32,
        b"$NODEID+0x40000180",
        &[0x85, 1, 0, 0x40],
        Some(0x4000_0185),
    ),
    (DataType::VisibleString, b"IO-3216", b"IO-3216", None),
    (DataType::OctetString, b"0a0B", &[10, 11], None),
    (DataType::Domain, b"", &[], None),
    (
        DataType::Real32,
        b"DB0F4940",
        &[0xDB, 0x0F, 0x49, 0x40],
        None,
    ),
];

/// What is no value of its type.
const REFUSED: &[(DataType, &[u8])] = &[
    (DataType::Boolean, b"2"),
    (DataType::Unsigned8, b"256"),
    (DataType::Unsigned8, b"-1"),
    (DataType::Integer8, b"-129"),
    (DataType::Unsigned16, b""),
    (DataType::Unsigned16, b"one"),
    (DataType::Domain, b"0A0"),
    (DataType::OctetString, b"0x0A"),
    (DataType::Real32, b"DB0F49"),
];

#[test]
fn texts_are_bytes(rt: HostRuntime) -> Result<(), Fail> {
    for case in CASES {
        let (data_type, text, bytes, number) = *case;
        let written = bytes_of(rt.alloc(), data_type, 5, text)?;
        assert!(rt; written.is_some_and(|written| written.as_slice() == bytes));
        assert!(rt; number_in(data_type, bytes) == number);
    }
    Ok(())
}

#[test]
fn other_texts_are_none(rt: HostRuntime) -> Result<(), Fail> {
    for case in REFUSED {
        let (data_type, text) = *case;
        assert!(rt; bytes_of(rt.alloc(), data_type, 5, text)?.is_none());
    }
    Ok(())
}

#[test]
fn other_lengths_are_no_numbers(rt: HostRuntime) -> Result<(), Fail> {
    assert!(rt; number_in(DataType::Unsigned16, &[1]).is_none());
    assert!(rt; number_in(DataType::Unsigned16, &[1, 0, 0]).is_none());
    assert!(rt; number_in(DataType::Real32, &[0, 0, 0, 0]).is_none());
    Ok(())
}
