use cop_compare::{Change, Difference, IdentifierChange, differences, identifier_changes};
use cop_dict::{Dictionary, build};
use cop_eds::{EdsFault, parse};
use std::alloc::Global;

/// A device with three TPDOs, of which the third is off.
const OLD: &[u8] = b"[OptionalObjects]
SupportedObjects=5
1=0x1017
2=0x1800
3=0x1801
4=0x1802
5=0x1A00
[ManufacturerObjects]
SupportedObjects=2
1=0x2000
2=0x2001
[1017]
DataType=6
AccessType=rw
DefaultValue=1000
[1800]
ObjectType=9
[1800sub1]
DataType=7
AccessType=rw
ParameterValue=0x40000181
[1801]
ObjectType=9
[1801sub1]
DataType=7
AccessType=rw
ParameterValue=0x40000281
[1802]
ObjectType=9
[1802sub1]
DataType=7
AccessType=rw
ParameterValue=0xC0000381
[1A00]
ObjectType=9
[1A00sub0]
DataType=5
AccessType=rw
ParameterValue=1
[2000]
DataType=5
AccessType=rw
HighLimit=10
[2001]
DataType=9
AccessType=rw
ParameterValue=left
";

/// Another identifier, TPDO 3 on, one entry more, one fewer, and another limit.
const NEW: &[u8] = b"[OptionalObjects]
SupportedObjects=5
1=0x1017
2=0x1800
3=0x1801
4=0x1802
5=0x1A00
[ManufacturerObjects]
SupportedObjects=1
1=0x2000
[1017]
DataType=6
AccessType=rw
ParameterValue=1000
[1800]
ObjectType=9
[1800sub1]
DataType=7
AccessType=rw
ParameterValue=0x40000183
[1801]
ObjectType=9
[1801sub1]
DataType=7
AccessType=rw
ParameterValue=0x281
[1802]
ObjectType=9
[1802sub1]
DataType=7
AccessType=rw
ParameterValue=0x40000381
[1A00]
ObjectType=9
[1A00sub0]
DataType=5
AccessType=rw
ParameterValue=1
[1A00sub2]
DataType=7
AccessType=rw
ParameterValue=0x60640020
[2000]
DataType=5
AccessType=rw
HighLimit=20
";

fn device(alloc: Global, text: &[u8]) -> Result<Dictionary, EdsFault> {
    let eds = parse(alloc, text)?;
    build(alloc, &eds, 5)
}

fn at(index: u16, sub: u8, change: Change) -> Difference {
    Difference { index, sub, change }
}

#[test]
fn two_devices(rt: HostRuntime) -> Result<(), EdsFault> {
    let old = device(rt.alloc(), OLD)?;
    let new = device(rt.alloc(), NEW)?;
    let wanted = [
        at(0x1800, 1, Change::Value),
        at(0x1801, 1, Change::Value),
        at(0x1802, 1, Change::Value),
        at(0x1A00, 2, Change::New),
        at(0x2000, 0, Change::Description),
        at(0x2001, 0, Change::Gone),
    ];
    let found = differences(rt.alloc(), &old, &new)?;
    assert!(rt; found.as_slice() == wanted.as_slice(), "{found:?}");
    assert!(rt; differences(rt.alloc(), &new, &new)?.is_empty());
    Ok(())
}

fn moves(tpdo: u16, old: Option<u32>, new: Option<u32>) -> IdentifierChange {
    IdentifierChange { tpdo, old, new }
}

#[test]
fn identifiers_of_two_devices(rt: HostRuntime) -> Result<(), EdsFault> {
    let old = device(rt.alloc(), OLD)?;
    let new = device(rt.alloc(), NEW)?;
    let wanted = [
        moves(1, Some(0x181), Some(0x183)),
        moves(3, None, Some(0x381)),
    ];
    let found = identifier_changes(rt.alloc(), &old, &new)?;
    assert!(rt; found.as_slice() == wanted.as_slice(), "{found:?}");
    Ok(())
}
