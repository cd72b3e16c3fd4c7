use crate::networks::{nodes_of, pdos_of};
use cop_dcf::{Setting, Width, settings, write};
use cop_dict::build;
use cop_eds::parse;
use cop_frame::Rate;
use cop_net::{Network, NodeTable, PdoTable, all_rates, network};
use cop_plan::{Choice, Outcome, plan};
use std::alloc::{AllocError, Global};
use std::test::Fail;

const UNIT: &[u8] =
    b"[FileInfo]\nFileName=unit.eds\n[DeviceInfo]\nBaudRate_250=1\nBaudRate_500=1\nBaudRate_1000=1\n[MandatoryObjects]\nSupportedObjects=1\n1=0x1000\n[OptionalObjects]\nSupportedObjects=3\n1=0x1017\n2=0x1800\n3=0x1A00\n[ManufacturerObjects]\nSupportedObjects=1\n1=0x2000\n[1000]\nDataType=0x0007\nAccessType=ro\n[1017]\nDataType=0x0006\nAccessType=rw\nDefaultValue=0\n[1800]\nObjectType=0x9\nSubNumber=3\n[1800sub0]\nDataType=0x0005\nAccessType=ro\nDefaultValue=2\n[1800sub1]\nDataType=0x0007\nAccessType=rw\nDefaultValue=$NODEID+0x40000180\n[1800sub2]\nDataType=0x0005\nAccessType=rw\nDefaultValue=255\n[1A00]\nObjectType=0x9\nSubNumber=3\n[1A00sub0]\nDataType=0x0005\nAccessType=ro\nDefaultValue=2\n[1A00sub1]\nDataType=0x0007\nAccessType=ro\nDefaultValue=0x20000120\n[1A00sub2]\nDataType=0x0007\nAccessType=ro\nDefaultValue=0x20000220\n[2000]\nObjectType=0x8\nSubNumber=3\n[2000sub0]\nDataType=0x0005\nAccessType=ro\nDefaultValue=2\n[2000sub1]\nDataType=0x0007\nAccessType=ro\nPDOMapping=1\n[2000sub2]\nDataType=0x0007\nAccessType=ro\nPDOMapping=1\n";

const DCF: &[u8] =
    b"[FileInfo]\nFileName=unit.eds\nLastEDS=unit.eds\n[DeviceInfo]\nBaudRate_250=1\nBaudRate_500=1\nBaudRate_1000=1\n[MandatoryObjects]\nSupportedObjects=1\n1=0x1000\n[OptionalObjects]\nSupportedObjects=3\n1=0x1017\n2=0x1800\n3=0x1A00\n[ManufacturerObjects]\nSupportedObjects=1\n1=0x2000\n[1000]\nDataType=0x0007\nAccessType=ro\n[1017]\nDataType=0x0006\nAccessType=rw\nDefaultValue=0\nParameterValue=0x0064\n[1800]\nObjectType=0x9\nSubNumber=3\n[1800sub0]\nDataType=0x0005\nAccessType=ro\nDefaultValue=2\n[1800sub1]\nDataType=0x0007\nAccessType=rw\nDefaultValue=$NODEID+0x40000180\nParameterValue=0x40000181\n[1800sub2]\nDataType=0x0005\nAccessType=rw\nDefaultValue=255\n[1A00]\nObjectType=0x9\nSubNumber=3\n[1A00sub0]\nDataType=0x0005\nAccessType=ro\nDefaultValue=2\n[1A00sub1]\nDataType=0x0007\nAccessType=ro\nDefaultValue=0x20000120\n[1A00sub2]\nDataType=0x0007\nAccessType=ro\nDefaultValue=0x20000220\n[2000]\nObjectType=0x8\nSubNumber=3\n[2000sub0]\nDataType=0x0005\nAccessType=ro\nDefaultValue=2\n[2000sub1]\nDataType=0x0007\nAccessType=ro\nPDOMapping=1\n[2000sub2]\nDataType=0x0007\nAccessType=ro\nPDOMapping=1\n[DeviceComissioning]\nNodeID=5\nNodeName=Valve\nBaudrate=500\n";

/// A device that has no PDO, and whose heartbeat has the time of one that is not planned.
const PLAIN: &[u8] =
    b"[DeviceInfo]\nBaudRate_500=1\n[OptionalObjects]\nSupportedObjects=1\n1=0x1017\n[1017]\nDataType=0x0006\nAccessType=rw\nDefaultValue=0\n";

/// The valve at node 5, and the plain device at node 7.
fn valve_tables(alloc: Global) -> Result<(NodeTable, PdoTable), Fail> {
    let nodes = nodes_of(
        alloc,
        "device,5,Valve,unit.eds,0,0\ndevice,7,Plain,plain.eds,0,0\nemcy,5,,,100000,0\nheartbeat,5,,,100000,0\n",
    )?;
    Ok((nodes, pdos_of(alloc, "5,1,10000,0,670,\n")?))
}

fn file(alloc: Global, name: &str, text: &[u8]) -> Result<(String, Vec<u8>), Fail> {
    Ok((
        String::from_str(alloc, name)?,
        Vec::from_slice(alloc, text)?,
    ))
}

// What the plan of a network sets in a node.
fn settings_of(alloc: Global, network: &Network<'_>, node: u8) -> Result<Vec<Setting>, Fail> {
    match plan(alloc, network, Choice::Order)? {
        Outcome::Planned(plan) => Ok(settings(alloc, &plan, network, node)?),
        Outcome::Refused(_) => Err(Fail::from("no rate passes")),
    }
}

// What the plan of the valve's network sets in a node.
fn valve_settings(alloc: Global, node: u8) -> Result<Vec<Setting>, Fail> {
    let (nodes, pdos) = valve_tables(alloc)?;
    let files = [
        file(alloc, "unit.eds", UNIT)?,
        file(alloc, "plain.eds", PLAIN)?,
    ];
    let valve = network(alloc, &all_rates(), &nodes, &pdos, &files)?;
    settings_of(alloc, &valve, node)
}

fn setting(index: u16, sub: u8, value: u32, width: Width) -> Setting {
    Setting {
        index,
        sub,
        value,
        width,
    }
}

#[test]
fn the_valve_has_three_settings(rt: HostRuntime) -> Result<(), Fail> {
    let wanted = [
        setting(0x1800, 1, 0xC0000185, Width::Four),
        setting(0x1800, 1, 0x40000181, Width::Four),
        setting(0x1017, 0, 100, Width::Two),
    ];
    let found = valve_settings(rt.alloc(), 5)?;
    assert!(rt; found.as_slice() == wanted.as_slice());
    Ok(())
}

/// The plain device's node, and nodes without a device.
const UNSET: &[u8] = &[7, 0, 4, 6, 127, 128, 255];

#[test]
fn nodes_in_which_nothing_is_set(rt: HostRuntime) -> Result<(), Fail> {
    for node in UNSET {
        let found = valve_settings(rt.alloc(), *node)?;
        assert!(rt; found.is_empty(), "node {node}");
    }
    Ok(())
}

// The DCF of a text for node 5.
fn dcf_of(alloc: Global, text: &[u8], settings: &[Setting], name: &[u8]) -> Result<Vec<u8>, Fail> {
    let eds = parse(alloc, text)?;
    Ok(write(alloc, &eds, settings, 5, b"Valve", Rate::Kbit500, name)?)
}

/// The DCF of the valve is written of its EDS text, and of itself again.
const VALVE_TEXTS: &[&[u8]] = &[UNIT, DCF];

#[test]
fn the_dcf_of_the_valve(rt: HostRuntime) -> Result<(), Fail> {
    let found = valve_settings(rt.alloc(), 5)?;
    for text in VALVE_TEXTS {
        let dcf = dcf_of(rt.alloc(), text, &found, b"unit.eds")?;
        assert!(rt; dcf.as_slice() == DCF);
    }
    Ok(())
}

// A value of the device that a text describes as node 5.
fn value_in(alloc: Global, text: &[u8], index: u16, sub: u8) -> Result<Vec<u8>, Fail> {
    let eds = parse(alloc, text)?;
    let dict = build(alloc, &eds, 5)?;
    Ok(dict.read(index, sub)?.to_vec(alloc)?)
}

#[test]
fn the_device_of_the_dcf(rt: HostRuntime) -> Result<(), Fail> {
    let cob_id = value_in(rt.alloc(), DCF, 0x1800, 1)?;
    assert!(rt; cob_id.as_slice() == [0x81, 1, 0, 0x40].as_slice());
    let heartbeat = value_in(rt.alloc(), DCF, 0x1017, 0)?;
    assert!(rt; heartbeat.as_slice() == [100, 0].as_slice());
    Ok(())
}

/// A setting of each width, and the value that the device of the DCF has.
const WIDTHS: &[(u16, u8, u32, Width, &[u8])] = &[
    (0x1800, 2, 0xFE, Width::One, &[0xFE]),
    (0x1017, 0, 0x1FE, Width::Two, &[0xFE, 1]),
    (0x1800, 1, 0x8000_0185, Width::Four, &[0x85, 1, 0, 0x80]),
];

#[test]
fn settings_of_each_width(rt: HostRuntime) -> Result<(), Fail> {
    for case in WIDTHS {
        let (index, sub, value, width, bytes) = *case;
        let settings = [setting(index, sub, value, width)];
        let dcf = dcf_of(rt.alloc(), UNIT, &settings, b"unit.eds")?;
        let found = value_in(rt.alloc(), &dcf, index, sub)?;
        assert!(rt; found.as_slice() == bytes);
    }
    Ok(())
}

/// The three lists of a text with one object, each line with CR LF, LF or LF as its end.
const LISTS: &str = "[OptionalObjects]\r\nSupportedObjects=1\n1=0x1017\n";

/// What stands behind the lists in an EDS text, and in its DCF.
const ENDS: &[(&str, &str)] = &[
    // The last line has no end, and a line is added after it; both sections are there, in other case.
    (
        "[fileinfo]\nlasteds=b\n[DeviceComissioning]\n; c\nNodeID=7\n[1017]\nDataType=6\nAccessType=rw",
        "[fileinfo]\nLastEDS=a.eds\n[DeviceComissioning]\n; c\nNodeID=5\nNodeName=Valve\r\nBaudrate=500\r\n[1017]\nDataType=6\nAccessType=rw\r\nParameterValue=0x0064\r\n",
    ),
    // A replaced line keeps its want of an end; an empty value is a key's line as any other.
    (
        "[1017]\nDataType=6\nAccessType=rw\n[FileInfo]\n[DeviceComissioning]\nNodeID=\nNodeName=\nBaudrate=",
        "[1017]\nDataType=6\nAccessType=rw\nParameterValue=0x0064\r\n[FileInfo]\nLastEDS=a.eds\r\n[DeviceComissioning]\nNodeID=5\nNodeName=Valve\nBaudrate=500",
    ),
    // A comment after a section's last key stays behind what is added.
    (
        "[1017]\nDataType=6\nAccessType=rw\n; c",
        "[1017]\nDataType=6\nAccessType=rw\nParameterValue=0x0064\r\n; c\r\n[FileInfo]\r\nLastEDS=a.eds\r\n[DeviceComissioning]\r\nNodeID=5\r\nNodeName=Valve\r\nBaudrate=500\r\n",
    ),
];

/// A text behind the lists.
fn behind_lists(alloc: Global, text: &str) -> Result<String, AllocError> {
    format!(in alloc; "{LISTS}{text}")
}

#[test]
fn ends_of_lines(rt: HostRuntime) -> Result<(), Fail> {
    let alloc = rt.alloc();
    // a heartbeat of 100 ms
    let beat = [setting(0x1017, 0, 100, Width::Two)];
    for case in ENDS {
        let (eds, dcf) = *case;
        let text = behind_lists(alloc, eds)?;
        let found = dcf_of(alloc, text.as_bytes(), &beat, b"a.eds")?;
        let wanted = behind_lists(alloc, dcf)?;
        assert!(rt; found.as_slice() == wanted.as_bytes());
    }
    Ok(())
}

/// A text without objects, and its DCF.
const WITHOUT_OBJECTS: &[(&[u8], &[u8])] = &[
    // A last line that ends in CR keeps it.
    (
        b"[a]\nb=c\r",
        b"[a]\nb=c\r\r\n[FileInfo]\nLastEDS=a.eds\n[DeviceComissioning]\nNodeID=5\nNodeName=Valve\nBaudrate=500\n",
    ),
    (
        b"",
        b"[FileInfo]\nLastEDS=a.eds\n[DeviceComissioning]\nNodeID=5\nNodeName=Valve\nBaudrate=500\n",
    ),
];

#[test]
fn texts_without_objects(rt: HostRuntime) -> Result<(), Fail> {
    for case in WITHOUT_OBJECTS {
        let (text, wanted) = *case;
        let dcf = dcf_of(rt.alloc(), text, &[], b"a.eds")?;
        assert!(rt; dcf.as_slice() == wanted);
    }
    Ok(())
}

/// A text behind twenty thousand lines of comment.
fn behind_comments(alloc: Global, text: &[u8]) -> Result<Vec<u8>, AllocError> {
    let mut long = Vec::new(alloc);
    for _ in 0..20_000 {
        long.extend_from_slice(b";\n")?;
    }
    long.extend_from_slice(text)?;
    Ok(long)
}

#[test]
fn the_dcf_of_twenty_thousand_lines(rt: HostRuntime) -> Result<(), Fail> {
    let text = behind_comments(rt.alloc(), UNIT)?;
    let found = valve_settings(rt.alloc(), 5)?;
    let dcf = dcf_of(rt.alloc(), &text, &found, b"unit.eds")?;
    assert!(rt; dcf == behind_comments(rt.alloc(), DCF)?);
    Ok(())
}
