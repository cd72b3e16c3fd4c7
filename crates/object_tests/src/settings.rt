use cop_dict::{Abort, Dictionary, build};
use cop_eds::parse;
use cop_setup::{Setting, Trouble, Untaken, Width, try_all};
use std::alloc::{AllocError, Global};
use std::test::Fail;

/// A device with a TPDO that exists and two objects that it can move, an INTEGER8 up to 10, a BOOLEAN, a REAL32, a text, and a value
/// that is read only.
const DEVICE: &[u8] = b"[OptionalObjects]
SupportedObjects=7
1=0x1800
2=0x1A00
3=0x2000
4=0x2001
5=0x2002
6=0x6041
7=0x6060
[ManufacturerObjects]
SupportedObjects=2
1=0x2003
2=0x2004
[1800]
ObjectType=0x9
SubNumber=2
[1800sub0]
DataType=0x0005
AccessType=ro
DefaultValue=1
[1800sub1]
DataType=0x0007
AccessType=rw
DefaultValue=$NODEID+0x40000180
[1A00]
ObjectType=0x9
SubNumber=3
[1A00sub0]
DataType=0x0005
AccessType=rw
DefaultValue=1
[1A00sub1]
DataType=0x0007
AccessType=rw
DefaultValue=0x20030010
[1A00sub2]
DataType=0x0007
AccessType=rw
[2000]
DataType=0x0001
AccessType=rw
[2001]
DataType=0x0008
AccessType=rw
[2002]
DataType=0x0009
AccessType=rw
[2003]
DataType=0x0003
AccessType=rw
PDOMapping=1
[2004]
DataType=0x0005
AccessType=rw
PDOMapping=1
[6041]
DataType=0x0006
AccessType=ro
[6060]
DataType=0x0002
AccessType=rw
HighLimit=10
";

fn device(alloc: Global) -> Result<Dictionary, Fail> {
    let eds = parse(alloc, DEVICE)?;
    Ok(build(alloc, &eds, 5)?)
}

/// An index, a sub, how wide the value is, and the value.
type Row = (u16, u8, Width, u32);

fn settings_of(alloc: Global, rows: &[Row]) -> Result<Vec<Setting>, AllocError> {
    let mut settings = Vec::new(alloc);
    for row in rows {
        let (index, sub, width, value) = *row;
        settings.push(Setting {
            index,
            sub,
            value,
            width,
        })?;
    }
    Ok(settings)
}

/// -3, and then both objects in the TPDO, which is switched off meanwhile.
const TAKEN: &[Row] = &[
    (0x6060, 0, Width::One, 0xFD),
    (0x2000, 0, Width::One, 1),
    (0x1800, 1, Width::Four, 0xC000_0185),
    (0x1A00, 0, Width::One, 0),
    (0x1A00, 1, Width::Four, 0x2004_0008),
    (0x1A00, 2, Width::Four, 0x2003_0010),
    (0x1A00, 0, Width::One, 2),
    (0x1800, 1, Width::Four, 0x4000_0181),
    (0x2003, 0, Width::Two, 0xFFFE),
];

/// Settings, which of them is not taken, and why.
const UNTAKEN: &[(&[Row], usize, Trouble)] = &[
    // The PDO exists.
    (
        &[(0x2004, 0, Width::One, 7), (0x1A00, 0, Width::One, 0)],
        1,
        Trouble::Aborted(Abort::DeviceState),
    ),
    // Its mapping still has entries.
    (
        &[
            (0x1800, 1, Width::Four, 0xC000_0185),
            (0x1A00, 1, Width::Four, 0x2004_0008),
        ],
        1,
        Trouble::Aborted(Abort::DeviceState),
    ),
    // No such object can be mapped.
    (
        &[
            (0x1800, 1, Width::Four, 0xC000_0185),
            (0x1A00, 0, Width::One, 0),
            (0x1A00, 1, Width::Four, 0x6041_0010),
            (0x1A00, 0, Width::One, 1),
        ],
        3,
        Trouble::Aborted(Abort::NotMappable),
    ),
    (
        &[(0x6060, 0, Width::One, 11)],
        0,
        Trouble::Aborted(Abort::AboveLimit),
    ),
    (
        &[(0x2000, 0, Width::One, 2)],
        0,
        Trouble::Aborted(Abort::InvalidValue),
    ),
    (
        &[(0x6041, 0, Width::Two, 7)],
        0,
        Trouble::Aborted(Abort::ReadOnly),
    ),
    (
        &[(0x2004, 1, Width::One, 7)],
        0,
        Trouble::Aborted(Abort::NoSub),
    ),
    (
        &[(0x2005, 0, Width::One, 7)],
        0,
        Trouble::Aborted(Abort::NoObject),
    ),
    (&[(0x6060, 0, Width::Two, 1)], 0, Trouble::Unlike),
    (&[(0x2001, 0, Width::Four, 1)], 0, Trouble::Unlike),
    (&[(0x2002, 0, Width::One, 65)], 0, Trouble::Unlike),
];

#[test]
fn settings_that_a_device_takes(rt: HostRuntime) -> Result<(), Fail> {
    let mut dict = device(rt.alloc())?;
    let settings = settings_of(rt.alloc(), TAKEN)?;
    assert!(rt; try_all(&mut dict, settings.as_slice()) == Ok(()));
    assert!(rt; dict.read(0x6060, 0)? == [0xFD].as_slice());
    assert!(rt; dict.read(0x1A00, 1)? == [8, 0, 4, 0x20].as_slice());
    assert!(rt; dict.read(0x2003, 0)? == [0xFE, 0xFF].as_slice());
    Ok(())
}

#[test]
fn settings_that_it_does_not_take(rt: HostRuntime) -> Result<(), Fail> {
    for case in UNTAKEN {
        let (rows, place, trouble) = *case;
        let settings = settings_of(rt.alloc(), rows)?;
        let mut dict = device(rt.alloc())?;
        let wanted = Err(Untaken { place, trouble });
        assert!(rt;
            try_all(&mut dict, settings.as_slice()) == wanted,
            "place {place}: {trouble:?}"
        );
    }
    Ok(())
}
