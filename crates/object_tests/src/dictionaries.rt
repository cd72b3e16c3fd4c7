use cop_dict::{Abort, DataType, Dictionary, MappingFault, Object, build};
use cop_eds::{EdsFault, parse};
use std::alloc::{AllocError, Global};
use std::process;

// The sample device.
const SAMPLE: &[u8] = b"[FileInfo]
FileName=unit.eds
[DeviceInfo]
BaudRate_250=1
BaudRate_500=1
BaudRate_1000=1
[MandatoryObjects]
SupportedObjects=1
1=0x1000
[OptionalObjects]
SupportedObjects=3
1=0x1017
2=0x1800
3=0x1A00
[ManufacturerObjects]
SupportedObjects=1
1=0x2000
[1000]
DataType=0x0007
AccessType=ro
[1017]
DataType=0x0006
AccessType=rw
DefaultValue=0
[1800]
ObjectType=0x9
SubNumber=3
[1800sub0]
DataType=0x0005
AccessType=ro
DefaultValue=2
[1800sub1]
DataType=0x0007
AccessType=rw
DefaultValue=$NODEID+0x40000180
[1800sub2]
DataType=0x0005
AccessType=rw
DefaultValue=255
[1A00]
ObjectType=0x9
SubNumber=3
[1A00sub0]
DataType=0x0005
AccessType=ro
DefaultValue=2
[1A00sub1]
DataType=0x0007
AccessType=ro
DefaultValue=0x20000120
[1A00sub2]
DataType=0x0007
AccessType=ro
DefaultValue=0x20000220
[2000]
ObjectType=0x8
SubNumber=3
[2000sub0]
DataType=0x0005
AccessType=ro
DefaultValue=2
[2000sub1]
DataType=0x0007
AccessType=ro
PDOMapping=1
[2000sub2]
DataType=0x0007
AccessType=ro
PDOMapping=1
";

// Entries of each kind, and two PDOs: RPDO 1 doesn't exist, TPDO 1 does.
const DEVICE: &[u8] = b"[OptionalObjects]
SupportedObjects=4
1=0x1A00
2=0x1400
3=0x1600
4=0x1800
[ManufacturerObjects]
SupportedObjects=5
1=0x2000
2=0x2001
3=0x2002
4=0x2003
5=0x2004
[1400]
ObjectType=9
[1400sub1]
DataType=7
AccessType=rw
DefaultValue=$NODEID+0x80000200
[1600]
ObjectType=9
[1600sub0]
DataType=5
AccessType=rw
DefaultValue=1
[1600sub1]
DataType=7
AccessType=rw
DefaultValue=0x20000120
[1600sub2]
DataType=7
AccessType=rw
DefaultValue=0x00050008
[1600sub3]
DataType=7
AccessType=rw
DefaultValue=0x20000220
[1800]
ObjectType=9
[1800SUB01]
DataType=7
AccessType=rw
DefaultValue=0x180+$NODEID
[1A00]
ObjectType=9
[1A00sub0]
DataType=5
AccessType=rw
DefaultValue=1
[2000]
ObjectType=9
[2000sub1]
DataType=7
AccessType=rw
PDOMapping=1
[2000sub2]
DataType=1
AccessType=ro
PDOMapping=1
ParameterValue=1
DefaultValue=nothing
[2001]
DataType=3
AccessType=rww
DefaultValue=0xFFFE
LowLimit=-5
HighLimit=0x5
[2002]
DataType=9
AccessType=rw
DefaultValue=n+$NODEID
[2003]
DataType=0x21
AccessType=rw
[2004]
DataType=0x11
AccessType=wo
DefaultValue=1.5
LowLimit=x
";

fn device(alloc: Global, text: &[u8]) -> Result<Dictionary, EdsFault> {
    let eds = parse(alloc, text)?;
    build(alloc, &eds, 5)
}

/// A write: index and sub, bytes, and the answer, where an error is the code of the abort.
type Row = ((u16, u8), &'static [u8], Result<(), u32>);

// Writes in turn have these answers.
fn answer(rt: &impl process::Abort, dict: &mut Dictionary, rows: &[Row]) {
    for case in rows {
        let ((index, sub), bytes, wanted) = *case;
        let answer = dict.write(index, sub, bytes);
        assert_eq!(rt;
            answer.map_err(|abort| abort.code()),
            wanted,
            "{bytes:?} to {index} sub {sub}"
        );
    }
}

/// Whether a value is read at an index and sub.
fn holds(dict: &Dictionary, index: u16, sub: u8, value: &[u8]) -> bool {
    dict.read(index, sub) == Ok(value)
}

/// Writes to the sample in turn.
const SAMPLE_WRITES: &[Row] = &[
    ((0x1017, 0), &[0x64, 0], Ok(())),
    ((0x1017, 0), &[0x64, 0, 0], Err(0x0607_0012)),
    ((0x1017, 0), &[0x64], Err(0x0607_0013)),
    ((0x1000, 0), &[0], Err(0x0601_0002)),
    ((0x1018, 0), &[1], Err(0x0602_0000)),
    ((0x1017, 1), &[1], Err(0x0609_0011)),
    ((0x1800, 1), &[0x81, 0x01, 0x00, 0x40], Err(0x0800_0022)),
    ((0x1800, 1), &[0x81, 0x01, 0x00, 0xC0], Err(0x0800_0022)),
    ((0x1800, 1), &[0x85, 0x01, 0x00, 0xC0], Ok(())),
    ((0x1800, 1), &[0x80, 0x01, 0x00, 0x40], Err(0x0609_0030)),
    ((0x1800, 1), &[0x81, 0x01, 0x00, 0x60], Err(0x0609_0030)),
    ((0x1800, 1), &[0x81, 0x01, 0x00, 0x40], Ok(())),
];

#[test]
fn sample(rt: HostRuntime) -> Result<(), EdsFault> {
    let mut dict = device(rt.alloc(), SAMPLE)?;
    assert!(rt; holds(&dict, 0x1A00, 2, &[0x20, 0x02, 0x00, 0x20]));
    answer(&rt, &mut dict, SAMPLE_WRITES);
    assert!(rt; holds(&dict, 0x1017, 0, &[0x64, 0]));
    assert!(rt; holds(&dict, 0x1800, 1, &[0x81, 0x01, 0x00, 0x40]));
    dict.reset_communication();
    assert!(rt; holds(&dict, 0x1800, 1, &[0x85, 0x01, 0x00, 0x40]));
    Ok(())
}

/// An address, and what is read there.
type Reading = ((u16, u8), Result<&'static [u8], Abort>);

const READINGS: &[Reading] = &[
    ((0x1800, 1), Ok(&[0x85, 0x01, 0x00, 0x00])),
    ((0x2000, 2), Ok(&[1])),
    ((0x2001, 0), Ok(&[0xFE, 0xFF])),
    ((0x2002, 0), Ok(b"n+$NODEID")),
    ((0x2003, 0), Err(Abort::OpaqueType)),
    ((0x2004, 0), Err(Abort::WriteOnly)),
];

/// The place of the first address where something else is read.
fn other_reading(dict: &Dictionary, readings: &[Reading]) -> Option<usize> {
    for place in 0..readings.len() {
        let ((index, sub), wanted) = readings[place];
        if dict.read(index, sub) != wanted {
            return Some(place);
        }
    }
    None
}

/// The number that is at 2001h.
fn limited(dict: &Dictionary) -> Option<i128> {
    dict.entry(0x2001, 0)?.integer()
}

#[test]
fn values_by_type(rt: HostRuntime) -> Result<(), EdsFault> {
    let dict = device(rt.alloc(), DEVICE)?;
    let other = other_reading(&dict, READINGS);
    assert!(rt; other.is_none(), "{other:?}");
    assert!(rt; dict.entries().len() == 13 && limited(&dict) == Some(-2));
    Ok(())
}

/// Writes by the type of the object.
const TYPED_WRITES: &[Row] = &[
    ((0x2000, 2), &[1, 2], Err(0x0601_0002)),
    ((0x2003, 0), &[], Err(0x0601_0000)),
    ((0x2001, 0), &[0xFB, 0xFF], Ok(())),
    ((0x2001, 0), &[0xFA, 0xFF], Err(0x0609_0032)),
    ((0x2001, 0), &[0x05, 0x00], Ok(())),
    ((0x2001, 0), &[0x06, 0x00], Err(0x0609_0031)),
    ((0x2002, 0), b"a longer name", Ok(())),
];

#[test]
fn writes_by_type(rt: HostRuntime) -> Result<(), EdsFault> {
    let mut dict = device(rt.alloc(), DEVICE)?;
    answer(&rt, &mut dict, TYPED_WRITES);
    Ok(())
}

#[test]
fn resets(rt: HostRuntime) -> Result<(), EdsFault> {
    let mut dict = device(rt.alloc(), DEVICE)?;
    answer(&rt, &mut dict, &[((0x2002, 0), b"a longer name", Ok(()))]);
    dict.reset_communication();
    assert!(rt; holds(&dict, 0x2002, 0, b"a longer name"));
    dict.reset_all();
    assert!(rt; holds(&dict, 0x2002, 0, b"n+$NODEID"));
    Ok(())
}

/// Writes to the mappings of two PDOs in turn.
const MAPPING_WRITES: &[Row] = &[
    // The TPDO exists; the RPDO doesn't, and its sub 0 is 1.
    ((0x1A00, 0), &[0], Err(0x0800_0022)),
    ((0x1600, 1), &[0x20, 0x02, 0x00, 0x20], Err(0x0800_0022)),
    ((0x1600, 0), &[0], Ok(())),
    ((0x1600, 1), &[0x20, 0x01, 0x00, 0x20], Ok(())),
    // Two entries, the second a dummy of 8 bits; the third can't be written.
    ((0x1600, 0), &[2], Ok(())),
    ((0x1600, 0), &[3], Err(0x0604_0041)),
    ((0x1600, 0), &[4], Err(0x0604_0041)),
    ((0x1600, 0), &[65], Err(0x0604_0042)),
    ((0x1600, 0), &[0], Ok(())),
    // 32, 8 and 32 bits are more than 64.
    ((0x1600, 3), &[0x20, 0x01, 0x00, 0x20], Ok(())),
    ((0x1600, 0), &[3], Err(0x0604_0042)),
    // A dummy has the width of its type, and the others have their objects'.
    ((0x1600, 2), &[0x07, 0x00, 0x05, 0x00], Ok(())),
    ((0x1600, 0), &[2], Err(0x0604_0041)),
    ((0x1600, 1), &[0x1F, 0x01, 0x00, 0x20], Ok(())),
    ((0x1600, 0), &[1], Err(0x0604_0041)),
];

#[test]
fn mappings(rt: HostRuntime) -> Result<(), EdsFault> {
    let mut dict = device(rt.alloc(), DEVICE)?;
    answer(&rt, &mut dict, MAPPING_WRITES);
    assert!(rt; dict.layout_bits(0x1A00, 1) == Err(MappingFault::Absent));
    assert!(rt; dict.mapped(0x1600, 1) == Err(MappingFault::NotMappable));
    Ok(())
}

#[test]
fn stores(rt: HostRuntime) -> Result<(), EdsFault> {
    let mut dict = device(rt.alloc(), DEVICE)?;
    let is_flag = |entry: &Object| matches!(entry.description().data_type, DataType::Boolean);
    if dict.entry(0x2000, 2).is_some_and(is_flag) {
        dict.store(0x2000, 2, &[0]);
    }
    assert!(rt; holds(&dict, 0x2000, 2, &[0]));
    assert!(rt; dict.entry(0x2002, 1).is_none());
    Ok(())
}

#[test]
fn widths_are_admitted(rt: HostRuntime) -> Result<(), EdsFault> {
    let dict = device(rt.alloc(), DEVICE)?;
    assert!(rt; dict.admits(0x2001, 0, None) == Ok(Some(2)));
    assert!(rt; dict.admits(0x2001, 0, Some(3)) == Err(Abort::TooLong));
    assert!(rt; dict.admits(0x2002, 0, Some(3)) == Ok(None));
    Ok(())
}

// A device with one object of a data type, and these further lines from line 6 on.
fn device_of(alloc: Global, data_type: &[u8], lines: &[u8]) -> Result<Vec<u8>, AllocError> {
    let head = b"[OptionalObjects]\nSupportedObjects=1\n1=0x2000\n[2000]\nAccessType=rw\n";
    let mut text = Vec::from_slice(alloc, head)?;
    text.extend_from_slice(lines)?;
    text.extend_from_slice(b"\nDataType=")?;
    text.extend_from_slice(data_type)?;
    Ok(text)
}

// What a text is refused for, and the line.
fn refusal(alloc: Global, text: &[u8]) -> Result<Option<(u8, usize)>, EdsFault> {
    match device(alloc, text) {
        Ok(_) => Ok(None),
        Err(EdsFault::Refused(refusal)) => Ok(Some((refusal.rule.number(), refusal.line))),
        Err(fault) => Err(fault),
    }
}

/// A data type, lines of its object, and the number of the rule that they break with the line from 1, or none.
const REFUSALS: &[(&[u8], &[u8], Option<(u8, usize)>)] = &[
    // BOOLEAN, INTEGER8, UNSIGNED8, UNSIGNED64, VISIBLE_STRING, REAL32
    (b"1", b"DefaultValue=1", None),
    (b"1", b"DefaultValue=2", Some((13, 6))),
    (b"2", b"DefaultValue=-128", None),
    (b"2", b"DefaultValue=-129", Some((13, 6))),
    (b"2", b"DefaultValue=128", Some((13, 6))),
    (b"2", b"DefaultValue=0xFF", None),
    (b"2", b"DefaultValue=0x100", Some((13, 6))),
    (b"2", b"DefaultValue=$NODEID+0x7B", Some((13, 6))),
    (b"5", b"DefaultValue=-1", Some((13, 6))),
    (b"5", b"DefaultValue=010", Some((14, 6))),
    (b"5", b"DefaultValue=x\nParameterValue=2", None),
    (b"5", b"LowLimit=256\nDefaultValue=256", Some((13, 7))),
    (
        b"5",
        b"HighLimit=256\nLowLimit=08\nDefaultValue=1",
        Some((13, 6)),
    ),
    (b"5", b"HighLimit=256\nLowLimit=x", Some((13, 7))),
    (b"0x1B", b"DefaultValue=0xFFFFFFFFFFFFFFFF", None),
    (
        b"0x1B",
        b"DefaultValue=$NODEID+0xFFFFFFFFFFFFFFFF",
        Some((13, 6)),
    ),
    (b"9", b"DefaultValue=010\nHighLimit=x", None),
    (b"8", b"DefaultValue=x", None),
];

#[test]
fn refusals(rt: HostRuntime) -> Result<(), EdsFault> {
    for case in REFUSALS {
        let (data_type, lines, wanted) = *case;
        let text = device_of(rt.alloc(), data_type, lines)?;
        assert!(rt;
            refusal(rt.alloc(), &text)? == wanted,
            "{data_type:?} {lines:?}"
        );
    }
    Ok(())
}
