//! What rows of a table of settings ask of a device, and what it answers.

use cop_dict::{Abort, Dictionary, build};
use cop_eds::{Amount, parse};
use cop_setup::{AskFault, Setting, Width, ask};
use std::alloc::Global;
use std::test::Fail;

/// A device with an object of each kind: read only, with limits, signed, a BOOLEAN, a text, and one of 8 bytes.
const DEVICE: &[u8] = b"[OptionalObjects]
SupportedObjects=2
1=0x6041
2=0x6060
[ManufacturerObjects]
SupportedObjects=6
1=0x2000
2=0x2001
3=0x2002
4=0x2003
5=0x2004
6=0x2005
[2000]
DataType=0x0001
AccessType=rw
[2001]
DataType=0x0007
AccessType=rw
LowLimit=100
HighLimit=1000
[2002]
DataType=0x0009
AccessType=rw
[2003]
DataType=0x001B
AccessType=rw
[2004]
DataType=0x0003
AccessType=wo
[2005]
DataType=0x0008
AccessType=rw
[6041]
DataType=0x0006
AccessType=ro
DefaultValue=7
[6060]
DataType=0x0002
AccessType=rw
HighLimit=10
";

fn device(alloc: Global) -> Result<Dictionary, Fail> {
    let eds = parse(alloc, DEVICE)?;
    Ok(build(alloc, &eds, 5)?)
}

/// An index, a sub and an amount, and what asking gives: the value and how wide it is, none where it is so already, or a fault.
type Case = (u16, u8, Amount, Result<Option<(u32, Width)>, AskFault>);

const CASES: &[Case] = &[
    (0x6060, 0, Amount::Negative(3), Ok(Some((0xFD, Width::One)))),
    (
        0x6060,
        0,
        Amount::Negative(128),
        Ok(Some((0x80, Width::One))),
    ),
    (
        0x6060,
        0,
        Amount::Negative(129),
        Err(AskFault::NoSuchNumber),
    ),
    (0x6060, 0, Amount::Negative(0), Ok(Some((0, Width::One)))),
    // A pattern is a signed number's own.
    (
        0x6060,
        0,
        Amount::Hexadecimal(0xFD),
        Ok(Some((0xFD, Width::One))),
    ),
    (0x6060, 0, Amount::Decimal(10), Ok(Some((10, Width::One)))),
    (
        0x6060,
        0,
        Amount::Decimal(11),
        Err(AskFault::Aborted(Abort::AboveLimit)),
    ),
    (0x6060, 0, Amount::Decimal(128), Err(AskFault::NoSuchNumber)),
    (0x6060, 0, Amount::PlusNode(2), Ok(Some((7, Width::One)))),
    (
        0x6060,
        0,
        Amount::PlusNode(u64::MAX),
        Err(AskFault::NoSuchNumber),
    ),
    (0x2000, 0, Amount::Decimal(1), Ok(Some((1, Width::One)))),
    (0x2000, 0, Amount::Decimal(2), Err(AskFault::NoSuchNumber)),
    (
        0x2001,
        0,
        Amount::PlusNode(0x80),
        Ok(Some((0x85, Width::Four))),
    ),
    (
        0x2001,
        0,
        Amount::Decimal(99),
        Err(AskFault::Aborted(Abort::BelowLimit)),
    ),
    (
        0x2001,
        0,
        Amount::Decimal(1 << 32),
        Err(AskFault::NoSuchNumber),
    ),
    (0x2001, 0, Amount::Negative(1), Err(AskFault::NoSuchNumber)),
    (0x2002, 0, Amount::Decimal(1), Err(AskFault::NoNumbers)),
    (0x2003, 0, Amount::Decimal(1), Err(AskFault::NoNumbers)),
    (0x2005, 0, Amount::Decimal(1), Err(AskFault::NoNumbers)),
    // Nobody can read back what it has.
    (
        0x2004,
        0,
        Amount::Negative(2),
        Err(AskFault::Aborted(Abort::WriteOnly)),
    ),
    // Nobody can write it: it is not set where it is so, and else the device aborts.
    (0x6041, 0, Amount::Decimal(7), Ok(None)),
    (
        0x6041,
        0,
        Amount::Decimal(8),
        Err(AskFault::Aborted(Abort::ReadOnly)),
    ),
    (0x6041, 1, Amount::Decimal(7), Err(AskFault::NoObject)),
    (0x2006, 0, Amount::Decimal(7), Err(AskFault::NoObject)),
];

#[test]
fn what_is_asked(rt: HostRuntime) -> Result<(), Fail> {
    for case in CASES {
        let (index, sub, amount, wanted) = *case;
        let mut dict = device(rt.alloc())?;
        let wanted = match wanted {
            Ok(Some((value, width))) => Ok(Some(Setting {
                index,
                sub,
                value,
                width,
            })),
            Ok(None) => Ok(None),
            Err(fault) => Err(fault),
        };
        assert!(rt;
            ask(&mut dict, 5, index, sub, amount) == wanted,
            "{index:X} {sub} {amount:?}"
        );
    }
    Ok(())
}

#[test]
fn what_is_asked_is_written(rt: HostRuntime) -> Result<(), Fail> {
    let mut dict = device(rt.alloc())?;
    let gave = ask(&mut dict, 5, 0x2001, 0, Amount::Decimal(500));
    assert!(rt; gave.is_ok());
    assert!(rt; dict.read(0x2001, 0)? == [0xF4, 1, 0, 0].as_slice());
    let refused = ask(&mut dict, 5, 0x2001, 0, Amount::Decimal(99));
    assert!(rt; refused.is_err());
    assert!(rt; dict.read(0x2001, 0)? == [0xF4, 1, 0, 0].as_slice());
    Ok(())
}
