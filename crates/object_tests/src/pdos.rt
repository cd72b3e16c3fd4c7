use cop_dict::{Access, DataType, Description, Dictionary, Object};
use cop_pdo::{
    Direction, MappingFault, exists, off, on, pack, payload, refusal_number, same_layout, unpack,
};
use std::alloc::{AllocError, Global};
use std::test::Fail;

// An entry of a dictionary: its address, type, access, and initial value.
type Row<'a> = (u16, u8, DataType, Access, &'a [u8]);

fn dictionary(alloc: Global, rows: &[Row<'_>]) -> Result<Dictionary, AllocError> {
    let mut dict = Dictionary::new(alloc);
    for row in rows {
        push(alloc, &mut dict, row)?;
    }
    Ok(dict)
}

// An entry behind those of a dictionary, where it is of its type's width and they are before it.
fn push(alloc: Global, dict: &mut Dictionary, row: &Row<'_>) -> Result<(), AllocError> {
    let (index, sub, data_type, access, initial) = *row;
    let description = Description {
        data_type,
        access,
        is_mappable: true,
        low: None,
        high: None,
    };
    let fits = data_type.width().is_none_or(|width| width == initial.len());
    if fits && dict.entries().iter().all(|e| e.is_before(index, sub)) {
        dict.push(Object::new(alloc, index, sub, description, initial)?)?;
    }
    Ok(())
}

const FLAG_AND_BYTE: &[Row<'static>] = &[
    (
        0x1400,
        1,
        DataType::Unsigned32,
        Access::ReadWrite,
        &[0x05, 2, 0, 0],
    ),
    (
        0x1401,
        1,
        DataType::Unsigned32,
        Access::ReadWrite,
        &[0x05, 3, 0, 0],
    ),
    (0x1600, 0, DataType::Unsigned8, Access::ReadWrite, &[2]),
    (
        0x1600,
        1,
        DataType::Unsigned32,
        Access::ReadWrite,
        &[1, 0, 0, 0x20],
    ),
    (
        0x1600,
        2,
        DataType::Unsigned32,
        Access::ReadWrite,
        &[8, 0, 1, 0x20],
    ),
    (0x1601, 0, DataType::Unsigned8, Access::ReadWrite, &[1]),
    (
        0x1601,
        1,
        DataType::Unsigned32,
        Access::ReadWrite,
        &[8, 0, 5, 0],
    ),
    (
        0x1800,
        1,
        DataType::Unsigned32,
        Access::ReadWrite,
        &[0x85, 1, 0, 0x40],
    ),
    (0x1A00, 0, DataType::Unsigned8, Access::ReadWrite, &[2]),
    (
        0x1A00,
        1,
        DataType::Unsigned32,
        Access::ReadWrite,
        &[1, 0, 0, 0x20],
    ),
    (
        0x1A00,
        2,
        DataType::Unsigned32,
        Access::ReadWrite,
        &[8, 0, 1, 0x20],
    ),
    (0x2000, 0, DataType::Boolean, Access::ReadWrite, &[1]),
    (0x2001, 0, DataType::Unsigned8, Access::ReadWrite, &[0xAB]),
];

/// COB-IDs, and what they are switched on with 181h to.
const SWITCHED_ON: &[(u32, u32)] = &[
    (0x4000_0185, 0x4000_0181),
    (0xC000_0185, 0x4000_0181),
    (0x8000_0185, 0x181),
];

#[test]
fn cob_ids(rt: HostRuntime) {
    for case in SWITCHED_ON {
        let (from, to) = *case;
        assert!(rt; on(from, 0x181) == to, "{from}");
    }
    assert!(rt; off(0x4000_0185) == 0xC000_0185);
    assert!(rt; exists(0x4000_0185) && !exists(0x8000_0185));
}

#[test]
fn a_flag_and_a_byte_are_packed(rt: HostRuntime) -> Result<(), Fail> {
    let dict = dictionary(rt.alloc(), FLAG_AND_BYTE)?;
    let sent = payload(&dict, Direction::Transmit, 1)?;
    assert!(rt; sent.bits() == 9 && sent.bytes() == 2);
    assert!(rt; pack(&dict, &sent) == ([0x57, 0x01, 0, 0, 0, 0, 0, 0], 2));
    Ok(())
}

#[test]
fn layouts_are_compared(rt: HostRuntime) -> Result<(), Fail> {
    let dict = dictionary(rt.alloc(), FLAG_AND_BYTE)?;
    let sent = payload(&dict, Direction::Transmit, 1)?;
    let received = payload(&dict, Direction::Receive, 1)?;
    let dummy = payload(&dict, Direction::Receive, 2)?;
    assert!(rt; same_layout(&sent, &received) && !same_layout(&sent, &dummy));
    Ok(())
}

/// Whether an entry holds this value.
fn holds(dict: &Dictionary, index: u16, sub: u8, value: &[u8]) -> bool {
    match dict.read(index, sub) {
        Ok(found) => found == value,
        Err(_) => false,
    }
}

#[test]
fn a_flag_and_a_byte_are_unpacked(rt: HostRuntime) -> Result<(), Fail> {
    let mut dict = dictionary(rt.alloc(), FLAG_AND_BYTE)?;
    let received = payload(&dict, Direction::Receive, 1)?;
    assert!(rt; unpack(&mut dict, &received, &[0x22, 0, 0xFF]).is_ok());
    assert!(rt; holds(&dict, 0x2000, 0, &[0]) && holds(&dict, 0x2001, 0, &[0x11]));
    Ok(())
}

#[test]
fn a_body_that_is_too_short(rt: HostRuntime) -> Result<(), Fail> {
    let mut dict = dictionary(rt.alloc(), FLAG_AND_BYTE)?;
    let received = payload(&dict, Direction::Receive, 1)?;
    assert!(rt; unpack(&mut dict, &received, &[0x57]).is_err());
    assert!(rt; holds(&dict, 0x2001, 0, &[0xAB]));
    Ok(())
}

const COB_ID: Row<'static> = (
    0x1800,
    1,
    DataType::Unsigned32,
    Access::ReadWrite,
    &[0x85, 1, 0, 0x40],
);

const COUNT: Row<'static> = (0x1A00, 0, DataType::Unsigned8, Access::ReadWrite, &[1]);

const ENTRY: Row<'static> = (
    0x1A00,
    1,
    DataType::Unsigned32,
    Access::ReadWrite,
    &[8, 0, 0, 0x20],
);

const OBJECT: Row<'static> = (0x2000, 0, DataType::Unsigned8, Access::ReadWrite, &[1]);

/// The rows of a dictionary, and the number of what is refused in it.
const REFUSED: &[(&[Row<'static>], u8)] = &[
    (&[COUNT, ENTRY, OBJECT], 20),
    (&[COB_ID, ENTRY, OBJECT], 20),
    (&[COB_ID, COUNT, OBJECT], 20),
    (
        &[
            COB_ID,
            (0x1A00, 0, DataType::Unsigned8, Access::ReadWrite, &[65]),
        ],
        21,
    ),
    (&[COB_ID, COUNT, ENTRY], 22),
    (
        &[
            COB_ID,
            COUNT,
            ENTRY,
            (0x2000, 0, DataType::Unsigned8, Access::WriteOnly, &[1]),
        ],
        23,
    ),
];

/// The number of the rule for which the TPDO has no payload.
fn refused(dict: &Dictionary) -> Option<u8> {
    match payload(dict, Direction::Transmit, 1) {
        Ok(_) => None,
        Err(fault) => Some(refusal_number(fault)),
    }
}

#[test]
fn refused_payloads(rt: HostRuntime) -> Result<(), Fail> {
    for case in REFUSED {
        let (rows, number) = *case;
        let dict = dictionary(rt.alloc(), rows)?;
        assert!(rt; refused(&dict) == Some(number), "rule {number}");
        let received = payload(&dict, Direction::Receive, 1);
        assert!(rt; matches!(received, Err(MappingFault::Absent)));
    }
    Ok(())
}
