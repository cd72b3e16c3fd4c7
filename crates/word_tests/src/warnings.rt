use crate::words::{NODES, UNIT, files, text_of, unit_with};
use cop_net::{NodeTable, PdoTable, all_rates, network, read_nodes, read_pdos};
use cop_warn::warnings_of;
use cop_words::{Finding, finding_words, findings_of};
use std::alloc::Global;
use std::test::Fail;

/// What is warned of: a part of the EDS text of the device and what stands in its place, what is appended to it, the row of the
/// PDO, and the words.
const WARNED: &[(&str, &str, &str, &str, &str)] = &[
    ("BaudRate", "BaudRate", "", "5,1,10000,669,670,", ""),
    (
        "BaudRate",
        "BaudRate",
        "",
        "5,1,10000,670,670,",
        "warning: TPDO 1 of node 5: its deadline of 670 us is not above its jitter of 670 us, so it is late at every rate: give it a longer deadline, or a shorter jitter where the device keeps it\n",
    ),
    (
        "BaudRate",
        "BaudRate",
        "[1800sub5]\nDataType=6\nAccessType=rw\nDefaultValue=9\n[1800sub3]\nDataType=6\nAccessType=rw\nDefaultValue=100\n",
        "5,1,10000,0,670,",
        "warning: TPDO 1 of node 5: its event timer (1800h sub 5) is 9 ms and its row's period 10000 us, so it is sent more often than planned: set the timer to 0 or to the period, or the row to the timer\n",
    ),
    (
        "BaudRate",
        "BaudRate",
        "[1800sub5]\nDataType=6\nAccessType=rw\nDefaultValue=10\n[1800sub3]\nDataType=6\nAccessType=rw\nDefaultValue=101\n",
        "5,1,10000,0,670,",
        "warning: TPDO 1 of node 5: its inhibit time (1800h sub 3) is 10100 us and its row's period 10000 us, so it may wait longer than planned: set the inhibit time to the period at most\n",
    ),
    (
        "AccessType=rw\n[1400]",
        "AccessType=rw\nDefaultValue=1000\n[1400]",
        "",
        "5,1,10000,0,670,",
        "warning: no row heartbeat of node 5: by its EDS file it begins with a heartbeat (1017h), which the plan switches off: add the row to keep it\n",
    ),
    (
        "SupportedObjects=5",
        "SupportedObjects=6\n6=0x1014",
        "[1014]\nDataType=7\nAccessType=rw\nDefaultValue=0x85\n",
        "5,1,10000,0,670,",
        "warning: no row emcy of node 5: by its EDS file it sends EMCY frames (1014h), and these are not counted: add the row, with the least time between two as its period\n",
    ),
    (
        "SupportedObjects=5",
        "SupportedObjects=6\n6=0x1005",
        "[1005]\nDataType=7\nAccessType=rw\nDefaultValue=0x181\n",
        "5,1,10000,0,670,",
        "warning: node 5: 1005h sub 0 is 00000181h by its EDS file, another identifier than the one that the plan counts on, and perhaps that of a PDO: set it back in the device\n",
    ),
    (
        "SupportedObjects=5",
        "SupportedObjects=6\n6=0x1005",
        "[1005]\nDataType=7\nAccessType=rw\nDefaultValue=0x40000080\n",
        "5,1,10000,0,670,",
        "warning: node 5 makes SYNC itself by its EDS file (bit 30 of 1005h): it alone may, with the period of the row sync\n",
    ),
    (
        "SupportedObjects=5",
        "SupportedObjects=6\n6=0x1006",
        "[1006]\nDataType=7\nAccessType=rw\nDefaultValue=0\nLowLimit=10\nHighLimit=5\n",
        "5,1,10000,0,670,",
        "warning: node 5: 1006h sub 0 takes no value by its EDS file: its LowLimit is above its HighLimit. Correct them, or leave them out\n",
    ),
    (
        "BaudRate",
        "BaudRate",
        "[DeviceComissioning]\nNodeID=11\n",
        "5,1,10000,0,670,",
        "warning: unit.eds, line 57: NodeID=11: this is the DCF of node 11, and Valve is node 5: name the maker's EDS file, or the DCF of this node\n",
    ),
    (
        "BaudRate",
        "BaudRate",
        "[1801]\nObjectType=9\n[1801sub1]\nDataType=7\nAccessType=rw\n",
        "5,1,10000,0,670,",
        "warning: unit.eds, line 56: TPDO 2 of Valve stands in [1801], which no list names: it is not switched off. canplan tidy --unlisted add lists it\n",
    ),
    (
        "SupportedObjects=5",
        "SupportedObjects=6\n6=0x1801",
        "[1801]\nObjectType=9\n[1801sub0]\nDataType=5\nAccessType=ro\nDefaultValue=2\n",
        "5,1,10000,0,670,",
        "warning: unit.eds, line 57: TPDO 2 of Valve has no UNSIGNED32 at sub 1 of [1801]: it is not switched off. Describe the record (ObjectType=9) and its sub 1 as the device has them\n",
    ),
    (
        "SupportedObjects=5",
        "SupportedObjects=6\n6=0x1801",
        "[1801]\nObjectType=7\nDataType=7\nAccessType=rw\n[1801sub1]\nDataType=7\nAccessType=rw\n",
        "5,1,10000,0,670,",
        "warning: unit.eds, line 57: TPDO 2 of Valve has no UNSIGNED32 at sub 1 of [1801]: it is not switched off. Describe the record (ObjectType=9) and its sub 1 as the device has them\n",
    ),
    (
        "BaudRate_250=1",
        "BaudRate_250=1\nCompactPDO=7",
        "",
        "5,1,10000,0,670,",
        "warning: unit.eds, line 3: by CompactPDO=7 Valve may have PDOs that no section describes: they are not switched off. canplan tidy writes them out\n",
    ),
    (
        "5=0x1A00",
        "5=0x1A00\n6=0x2000",
        "",
        "5,1,10000,0,670,",
        "warning: unit.eds, line 10: 6=0x2000 stands behind the number of entries of its list: nothing reads it. canplan tidy counts it\n",
    ),
    (
        "BaudRate",
        "BaudRate",
        "[0x2001]\nDataType=7\n",
        "5,1,10000,0,670,",
        "warning: unit.eds, line 56: [0x2001] is spelled otherwise than CiA 306 says: nothing reads that section. canplan tidy respells it if the name has one reading; else correct it, or make the section a comment\n",
    ),
    (
        "BaudRate_250=1",
        "BaudRate_250=1\nNrOfTXPDO=2",
        "",
        "5,1,10000,0,670,",
        "warning: unit.eds, line 3: NrOfTXPDO=2 is more than the lists of Valve name: the number is wrong, or PDOs are not switched off: correct it, or list the PDOs that the device has\n",
    ),
];

/// The table of PDOs that has a row.
fn pdos_of(alloc: Global, row: &str) -> Result<PdoTable, Fail> {
    let text = format!(in alloc; "node,tpdo,period,jitter,deadline,consumers\n{row}\n")?;
    Ok(read_pdos(alloc, text.as_bytes())?)
}

/// The words on the warnings of tables and files.
fn words_on(
    alloc: Global,
    nodes: &NodeTable,
    pdos: &PdoTable,
    files: &[(String, Vec<u8>)],
) -> Result<Vec<u8>, Fail> {
    let network = network(alloc, &all_rates(), nodes, pdos, files)?;
    let warnings = warnings_of(alloc, nodes, &network)?;
    Ok(finding_words(alloc, files, nodes, &network, &warnings, None)?)
}

/// What is found worth a look in tables and files.
fn findings_on(
    alloc: Global,
    nodes: &NodeTable,
    pdos: &PdoTable,
    files: &[(String, Vec<u8>)],
) -> Result<Vec<Finding>, Fail> {
    let network = network(alloc, &all_rates(), nodes, pdos, files)?;
    let warnings = warnings_of(alloc, nodes, &network)?;
    Ok(findings_of(alloc, files, nodes, &network, &warnings, None)?)
}

/// What is found worth a look in a network of one device.
fn found(alloc: Global, eds: &str, pdo: &str) -> Result<Vec<Finding>, Fail> {
    let files = files(alloc, &[("unit.eds", eds)])?;
    let nodes = read_nodes(alloc, NODES.as_bytes())?;
    let pdos = pdos_of(alloc, pdo)?;
    findings_on(alloc, &nodes, &pdos, &files)
}

/// The words on the warnings of a network of one device.
fn warned(alloc: Global, eds: &str, pdo: &str) -> Result<String, Fail> {
    let files = files(alloc, &[("unit.eds", eds)])?;
    let nodes = read_nodes(alloc, NODES.as_bytes())?;
    let pdos = pdos_of(alloc, pdo)?;
    let said = words_on(alloc, &nodes, &pdos, &files)?;
    text_of(alloc, &said)
}

#[test]
fn what_devices_say_otherwise_is_warned_of(rt: HostRuntime) -> Result<(), Fail> {
    for case in WARNED {
        let (old, new, more, pdo, wanted) = *case;
        let mut eds = unit_with(rt.alloc(), old, new)?;
        eds.push_str(more)?;
        let said = warned(rt.alloc(), &eds, pdo)?;
        assert!(rt; said.as_str() == wanted, "{said}");
    }
    Ok(())
}

/// Two devices of one EDS text, and SYNC.
const BOTH: &str =
    "row,node,name,eds,period,jitter\ndevice,5,Valve,unit.eds,0,0\ndevice,6,Pump,unit.eds,0,0\nsync,0,,,10000,0\n";

/// What both devices have beside the unit's objects: an RPDO of type 255, and bit 30 of 1005h.
const TOGETHER: &str =
    "[1005]\nDataType=7\nAccessType=rw\nDefaultValue=0x40000080\n[1400sub2]\nDataType=5\nAccessType=rw\nDefaultValue=255\n";

#[test]
fn what_two_devices_do_together_is_warned_of(rt: HostRuntime) -> Result<(), Fail> {
    let alloc = rt.alloc();
    let unit = unit_with(alloc, "DefaultValue=255", "DefaultValue=1")?;
    let Some((before, after)) = unit.split_once("SupportedObjects=5") else {
        return Err(Fail::from("no list"));
    };
    let eds = format!(in alloc; "{before}SupportedObjects=6\n6=0x1005{after}{TOGETHER}")?;
    let files = files(alloc, &[("unit.eds", eds.as_str())])?;
    let nodes = read_nodes(alloc, BOTH.as_bytes())?;
    let pdos = pdos_of(alloc, "5,1,0,0,5000,6.1")?;
    let said = text_of(alloc, &words_on(alloc, &nodes, &pdos, &files)?)?;
    assert!(rt;
        said.as_str()
            == "warning: TPDO 1 of node 5 is sent by SYNC, and RPDO 1 of node 6 uses it at once (1400h sub 2 is 255): give that RPDO a type of 0 to 240 if the node is to act with SYNC\nwarning: node 5 makes SYNC itself by its EDS file (bit 30 of 1005h): it alone may, with the period of the row sync\nwarning: node 6 makes SYNC itself by its EDS file (bit 30 of 1005h): it alone may, with the period of the row sync\nwarning: nodes 5 and 6 both make SYNC by their EDS files (bit 30 of 1005h): clear the bit in all devices but one\n",
        "{said}"
    );
    Ok(())
}

#[test]
fn findings_have_numbers_and_places(rt: HostRuntime) -> Result<(), Fail> {
    let eds = format!(in rt.alloc(); "{UNIT}[1801]\nObjectType=9\n")?;
    let found = found(rt.alloc(), &eds, "5,1,10000,670,670,")?;
    let [unlisted, late] = found.as_slice() else {
        return Err(Fail::from("not two"));
    };
    assert!(rt; unlisted.number == Some(80) && late.number.is_none());
    assert!(rt; unlisted.node == Some(5) && unlisted.record == Some(1));
    assert!(rt; late.node == Some(5) && late.record == Some(1) && late.at.is_none());
    assert!(rt; unlisted.at.as_ref().is_some_and(|at| at.line == 56));
    Ok(())
}
