use cop_frame::{Rate, RateSet};
use cop_net::{PlanFault, all_rates, network, read_nodes, read_pdos};
use cop_rta::Verdict;
use cop_words::{Network, Source, late_words, network_words, others_words};
use std::alloc::{AllocError, Global};
use std::str;
use std::test::Fail;

pub(crate) const NODES: &str = "row,node,name,eds,period,jitter\ndevice,5,Valve,unit.eds,0,0\n";

pub(crate) const PDOS: &str = "node,tpdo,period,jitter,deadline,consumers\n5,1,10000,0,670,\n";

/// A device that sends one PDO of 32 bits and receives one.
pub(crate) const UNIT: &str = "[DeviceInfo]
BaudRate_250=1
[OptionalObjects]
SupportedObjects=5
1=0x1017
2=0x1400
3=0x1600
4=0x1800
5=0x1A00
[ManufacturerObjects]
SupportedObjects=1
1=0x2000
[1017]
DataType=0x0006
AccessType=rw
[1400]
ObjectType=9
[1400sub1]
DataType=7
AccessType=rw
DefaultValue=$NODEID+0x200
[1600]
ObjectType=9
[1600sub0]
DataType=5
AccessType=rw
DefaultValue=1
[1600sub1]
DataType=7
AccessType=rw
DefaultValue=0x20000020
[1800]
ObjectType=9
[1800sub1]
DataType=7
AccessType=rw
DefaultValue=$NODEID+0x40000180
[1800sub2]
DataType=5
AccessType=rw
DefaultValue=255
[1A00]
ObjectType=9
[1A00sub0]
DataType=5
AccessType=rw
DefaultValue=1
[1A00sub1]
DataType=7
AccessType=rw
DefaultValue=0x20000020
[2000]
DataType=7
AccessType=rw
PDOMapping=1
";

pub(crate) fn files(
    alloc: Global,
    texts: &[(&str, &str)],
) -> Result<Vec<(String, Vec<u8>)>, AllocError> {
    let mut files = Vec::new(alloc);
    for named in texts {
        let (name, text) = *named;
        files.push((
            String::from_str(alloc, name)?,
            Vec::from_slice(alloc, text.as_bytes())?,
        ))?;
    }
    Ok(files)
}

/// The text that some bytes are.
pub(crate) fn text_of(alloc: Global, bytes: &[u8]) -> Result<String, Fail> {
    match str::from_utf8(bytes) {
        Ok(text) => Ok(String::from_str(alloc, text)?),
        Err(_) => Err(Fail::from("no text")),
    }
}

/// The words on a network of one device.
fn words(alloc: Global, nodes: &str, pdos: &str, eds: &str) -> Result<String, Fail> {
    words_of(alloc, nodes, pdos, &[("unit.eds", eds)], &all_rates())
}

/// Reads a network, and nothing more.
fn read(alloc: Global, files: Network<'_>) -> Result<(), PlanFault> {
    let nodes = read_nodes(alloc, files.nodes.text)?;
    let pdos = read_pdos(alloc, files.pdos.text)?;
    network(alloc, files.wanted, &nodes, &pdos, files.eds_files)?;
    Ok(())
}

/// The words on a network.
fn words_of(
    alloc: Global,
    nodes: &str,
    pdos: &str,
    texts: &[(&str, &str)],
    wanted: &RateSet,
) -> Result<String, Fail> {
    let files = files(alloc, texts)?;
    let network = Network {
        nodes: Source {
            name: "nodes.csv",
            text: nodes.as_bytes(),
        },
        pdos: Source {
            name: "pdos.csv",
            text: pdos.as_bytes(),
        },
        settings: Source {
            name: "",
            text: b"",
        },
        eds_files: &files,
        wanted,
    };
    match read(alloc, network) {
        Ok(()) => Ok(String::new(alloc)),
        Err(PlanFault::Refused(refusal)) => {
            text_of(alloc, &network_words(alloc, network, &refusal)?)
        }
        Err(PlanFault::Memory) => Err(Fail::from("no memory")),
    }
}

/// Mistakes in the table of nodes: a record, and what the words begin with and have in them.
const NODE_MISTAKES: &[(&str, &str, &str)] = &[
    (
        "devise,5,Valve,unit.eds,0,0",
        "nodes.csv, line 2: devise,5,",
        "in column row: device, nmt",
    ),
    (
        ",5,Valve,unit.eds,0,0",
        "nodes.csv, line 2: ,5,",
        "in column row: device",
    ),
    (
        "device,128,Valve,unit.eds,0,0",
        "nodes.csv, line 2: ",
        "in column node: 1 to 127",
    ),
    (
        "device,0,Valve,unit.eds,0,0",
        "nodes.csv, line 2: ",
        "in column node: 1 to 127",
    ),
    (
        "device,x,Valve,unit.eds,0,0",
        "nodes.csv, line 2: ",
        "in column node: 1 to 127",
    ),
    (
        "nmt,5,,,1000,0",
        "nodes.csv, line 2: nmt,5",
        "in column node: 1 to 127, and 0 of nmt",
    ),
    (
        "device,5,,unit.eds,0,0",
        "nodes.csv, line 2: ",
        "in column name: 1 to 40 letters",
    ),
    (
        "device,5,Val/ve,unit.eds,0,0",
        "nodes.csv, line 2: ",
        "in column name: ",
    ),
    (
        "emcy,5,Valve,,1000,0",
        "nodes.csv, line 2: emcy",
        "in column name: ",
    ),
    (
        "device,5,Valve,,0,0",
        "nodes.csv, line 2: ",
        "in column eds: the name of a file",
    ),
    (
        "emcy,5,,unit.eds,1000,0",
        "nodes.csv, line 2: emcy",
        "in column eds: ",
    ),
    (
        "device,5,Valve,unit.eds,10,0",
        "nodes.csv, line 2: ",
        "in column period: 100 to 60000000",
    ),
    (
        "emcy,5,,,99,0",
        "nodes.csv, line 2: emcy",
        "in column period: 100 to 60000000",
    ),
    (
        "heartbeat,5,,,1500,0",
        "nodes.csv, line 2: heartbeat",
        "in column period: ",
    ),
    (
        "emcy,5,,,60000001,0",
        "nodes.csv, line 2: emcy",
        "in column period: ",
    ),
    (
        "emcy,5,,,1000,60000001",
        "nodes.csv, line 2: emcy",
        "in column jitter: 0 to 60000000",
    ),
    (
        "device,5,Valve,unit.eds,0,1",
        "nodes.csv, line 2: ",
        "in column jitter: 0 to 60000000",
    ),
    (
        "device,5,Valve,unit.eds,0",
        "nodes.csv, line 2: ",
        "wanted are six fields: row,node",
    ),
    (
        "emcy,6,,,1000,0",
        "nodes.csv, line 2: emcy,6",
        "its device row is missing",
    ),
    (
        "device,5,Valve,unit.eds,0,0\ndevice,5,Other,unit.eds,0,0",
        "nodes.csv, line 3: ",
        "the same row and node",
    ),
    (
        ",,,,,",
        "nodes.csv, line 2: ,,,,,",
        "the row is empty, as Excel leaves some",
    ),
    (
        "device,5,Valve,long/unit.eds,0,0",
        "nodes.csv, line 2: ",
        "right: rename the file",
    ),
    (
        "\n\nemcy,7,,,x,0",
        "nodes.csv, line 4: emcy,7",
        "in column period: ",
    ),
];

/// Mistakes under the header with deadlines.
const DEADLINE_MISTAKES: &[(&str, &str)] = &[
    (
        "device,5,Valve,unit.eds,0,0,7",
        "in column deadline: 1 to 60000000 microseconds of an sdo_request",
    ),
    ("emcy,5,,,100000,0,7", "in column deadline: "),
    ("sdo_request,5,,,0,0,7", "in column deadline: "),
    (
        "device,5,Valve,unit.eds,0,0",
        "wanted are seven fields: row,node,name,eds,period,jitter,deadline",
    ),
];

/// The same of the table of PDOs.
const PDO_MISTAKES: &[(&str, &str, &str)] = &[
    (
        "0,1,10000,0,670,",
        "pdos.csv, line 2: ",
        "in column node: 1 to 127",
    ),
    (
        "5,513,10000,0,670,",
        "pdos.csv, line 2: ",
        "in column tpdo: 1 to 512",
    ),
    (
        "5,1,99,0,670,",
        "pdos.csv, line 2: ",
        "in column period: 100 to 60000000 microseconds",
    ),
    (
        "5,1,60000001,0,670,",
        "pdos.csv, line 2: ",
        "in column period: 100 to 60000000 microseconds, or 0 of a PDO that is sent by SYNC\nrule 41: ",
    ),
    (
        "5,1,10 ms,0,670,",
        "pdos.csv, line 2: ",
        "in column period: ",
    ),
    (
        "5,1800,10000,0,670,",
        "pdos.csv, line 2: ",
        "right: 1 for the TPDO at 1800h",
    ),
    (
        "5,1,10000,-1,670,",
        "pdos.csv, line 2: ",
        "in column jitter: 0 to 60000000 microseconds",
    ),
    (
        "5,1,10000,0,,",
        "pdos.csv, line 2: ",
        "in column deadline: 1 to 60000000 microseconds",
    ),
    (
        "5,1,10000,0,0,",
        "pdos.csv, line 2: ",
        "in column deadline: ",
    ),
    (
        "5,1,10000,0,670,11",
        "pdos.csv, line 2: ",
        "in column consumers: node.rpdo such as",
    ),
    (
        "5,1,10000,0,670,5.1  5.2",
        "pdos.csv, line 2: ",
        "in column consumers: ",
    ),
    (
        "5,1,10000,0,670,5.1.2",
        "pdos.csv, line 2: ",
        "in column consumers: ",
    ),
    (
        "5,1,10000,0,670,128.1",
        "pdos.csv, line 2: ",
        "in column consumers: ",
    ),
    (
        "5,1,10000,0,670",
        "pdos.csv, line 2: ",
        "wanted are six fields: node,tpdo",
    ),
    (
        "5,1,10000,0,670,\n5,1,10000,0,670,",
        "pdos.csv, line 3: ",
        "the same node and tpdo",
    ),
    (
        "6,1,10000,0,670,",
        "pdos.csv, line 2: 6,1",
        "rule 45: the TPDO has no payload",
    ),
    (
        "5,2,10000,0,670,",
        "pdos.csv, line 2: 5,2",
        "rule 20: the COB-ID of the PDO",
    ),
    (
        "5,1,10000,0,670,5.2",
        "pdos.csv, line 2: ",
        "rule 48: the RPDO has no payload",
    ),
    (
        "5,1,10000,0,670,5.1 5.1",
        "pdos.csv, line 2: ",
        "right: another RPDO of the consumer",
    ),
    (
        "5,2,10000,0,670,",
        "pdos.csv, line 2: ",
        "node 5 is Valve, by the EDS file unit.eds\n",
    ),
];

/// Mistakes in the EDS text of the device: a part of it, and what stands there in its place.
const EDS_MISTAKES: &[(&str, &str, &str, &str)] = &[
    (
        "[1017]",
        "[1017",
        "its EDS file, line 13: [1017",
        "rule 10: ",
    ),
    (
        "[1017]",
        "[1400]",
        "its EDS file, line 16: [1400]",
        "rule 11: ",
    ),
    (
        "AccessType=rw\n[1400]",
        "DataType=6\n[1400]",
        "its EDS file, line 15: DataType=6",
        "rule 12: ",
    ),
    (
        "$NODEID+0x200",
        "20x",
        "its EDS file, line 21: DefaultValue=20x",
        "rule 13: ",
    ),
    (
        "$NODEID+0x200",
        "0200",
        "its EDS file, line 21: DefaultValue=0200",
        "rule 14: ",
    ),
    (
        "1=0x1017",
        "1=0x1018",
        "its EDS file, line 5: 1=0x1018",
        "rule 15: ",
    ),
    (
        "ObjectType=9\n[1400sub1]",
        "ObjectType=4\n[1400sub1]",
        "its EDS file, line 17: ObjectType=4",
        "rule 16: ",
    ),
    (
        "BaudRate_250=1",
        "BaudRate_250=0",
        "nodes.csv",
        "rule 52: no bit rate",
    ),
    (
        "DefaultValue=255",
        "DefaultValue=0",
        "TPDO 1 of node 5: 1800h sub 2, its transmission type, is 0\nits EDS file, line 41: DefaultValue=0\n",
        "rule 47: ",
    ),
    (
        "DataType=5\nAccessType=rw\nDefaultValue=255",
        "DataType=1\nAccessType=rw\nDefaultValue=1",
        "TPDO 1 of node 5: 1800h sub 2, its transmission type, is a BOOLEAN, which is no integer type\nits EDS file, line 39: DataType=1\n",
        "rule 47: ",
    ),
    (
        "DataType=5\nAccessType=rw\nDefaultValue=255",
        "DataType=9\nAccessType=rw\nDefaultValue=1",
        "TPDO 1 of node 5: 1800h sub 2, its transmission type, is of no integer type\nits EDS file, line 39: DataType=9\n",
        "rule 47: ",
    ),
    (
        "DataType=5\nAccessType=rw\nDefaultValue=255",
        "DataType=0x1B\nAccessType=rw\nDefaultValue=0xFFFFFFFFFFFFFFFF",
        "TPDO 1 of node 5: 1800h sub 2, its transmission type, is 18446744073709551615\nits EDS file, line 41: ",
        "rule 47: ",
    ),
    (
        "DefaultValue=255",
        "DefaultValue=1",
        "pdos.csv, line 2: ",
        "rule 53: ",
    ),
    (
        "PDOMapping=1",
        "PDOMapping=0",
        "TPDO 1 of node 5: 1A00h sub 1 maps 32 bits of 2000h sub 0, whose PDOMapping is 0\nits EDS file, line 51: DefaultValue=0x20000020\n",
        "rule 23: ",
    ),
];

/// Mistakes of a second device, node 6: a part of its EDS text and what stands in its place, the row of PDOs, what the words have
/// in them, and the rule.
const CONSUMER_MISTAKES: &[(&str, &str, &str, &str, &str)] = &[
    (
        "AccessType=rw\nDefaultValue=$NODEID+0x200",
        "AccessType=ro\nDefaultValue=$NODEID+0x200",
        "5,1,10000,0,670,6.1",
        "node 6 is Drive, by the EDS file other.eds\nRPDO 1 of node 6: its COB-ID is 1400h sub 1: its AccessType does not let it be written, so the device fixes this identifier; another word in the file does not change the device\nits EDS file, line 21: DefaultValue=$NODEID+0x200\n",
        "rule 46: ",
    ),
    (
        "BaudRate",
        "BaudRate",
        "5,1,10000,0,670,7.1",
        "RPDO 1 of node 7: node 7 has no device row in nodes.csv\n",
        "rule 48: ",
    ),
    (
        "BaudRate",
        "BaudRate",
        "5,1,10000,0,670,6.2",
        "RPDO 2 of node 6: 1401h sub 1 is absent\nrule 20: ",
        "rule 48: ",
    ),
    (
        "BaudRate",
        "BaudRate",
        "5,1,10000,0,670,6.1 6.1",
        "RPDO 1 of node 6: it stands twice in this record\n",
        "rule 48: ",
    ),
    (
        "BaudRate",
        "BaudRate",
        "5,1,10000,0,670,6.1\n6,1,10000,0,670,6.1",
        "RPDO 1 of node 6: record 1 has it as a consumer already\n",
        "rule 48: ",
    ),
    (
        "DefaultValue=0x20000020\n[1800]",
        "DefaultValue=0x00050008\n[1800]",
        "5,1,10000,0,670,6.1",
        "TPDO 1 of node 5 has the bits 32 (2000h sub 0)\nRPDO 1 of node 6 has the bits 8 (0005h sub 0)\n",
        "rule 48: ",
    ),
    (
        "AccessType=rw\nDefaultValue=$NODEID+0x40000180",
        "AccessType=ro\nDefaultValue=$NODEID+0x40000180",
        "5,1,10000,0,670,",
        "nodes.csv, line 3: device,6,Drive,other.eds,0,0\nnode 6 is Drive, by the EDS file other.eds\nTPDO 1 of node 6: its COB-ID is 1800h sub 1: ",
        "rule 50: ",
    ),
    (
        "BaudRate_250",
        "BaudRate_125",
        "5,1,10000,0,670,",
        "nodes.csv\nunit.eds supports 250 kbit/s\nother.eds supports 125 kbit/s\n",
        "rule 52: ",
    ),
];

/// Tables of nodes that are no CSV with commas, and what is seen of them.
const SEPARATORS: &[(&str, &str)] = &[
    (
        "row;node;name;eds;period;jitter\ndevice;5;Valve;unit.eds;0;0\n",
        "a semicolon stands there",
    ),
    (
        "row\tnode\tname\teds\tperiod\tjitter\n",
        "a tab stands there",
    ),
    (
        "\u{FEFF}row,node,name,eds,period,jitter\n",
        "no row of the table is one of a device",
    ),
    (
        "row,node,name,eds,period,jitter\ndevice,5,\"Valve,unit.eds,0,0\n",
        "a quote opens a field and does not close it",
    ),
];

/// The EDS text of the device with another text in place of a part.
pub(crate) fn unit_with(alloc: Global, old: &str, new: &str) -> Result<String, Fail> {
    match UNIT.split_once(old) {
        Some((before, after)) => Ok(format!(in alloc; "{before}{new}{after}")?),
        None => Err(Fail::from("no such part")),
    }
}

/// The table of PDOs with these rows.
fn pdos_with(alloc: Global, rows: &str) -> Result<String, AllocError> {
    format!(in alloc; "node,tpdo,period,jitter,deadline,consumers\n{rows}\n")
}

/// The words on a network of one device whose table of nodes has this header and record.
fn words_on_node(alloc: Global, header: &str, record: &str) -> Result<String, Fail> {
    let nodes = format!(in alloc; "{header}\n{record}\n")?;
    words(alloc, &nodes, PDOS, UNIT)
}

/// The words on a network of one device whose table of PDOs has these rows.
fn words_on_pdos(alloc: Global, rows: &str) -> Result<String, Fail> {
    let pdos = pdos_with(alloc, rows)?;
    words(alloc, NODES, &pdos, UNIT)
}

/// The words on a network of one device with another text in place of a part of its EDS text.
fn words_on_unit(alloc: Global, old: &str, new: &str) -> Result<String, Fail> {
    let eds = unit_with(alloc, old, new)?;
    words(alloc, NODES, PDOS, &eds)
}

/// Whether the words on a mistake begin so and have this in them.
fn says(said: &str, begin: &str, part: &str) -> bool {
    said.starts_with(begin) && said.contains(part)
}

#[test]
fn mistakes_in_the_table_of_nodes(rt: HostRuntime) -> Result<(), Fail> {
    for case in NODE_MISTAKES {
        let (record, begin, part) = *case;
        let said = words_on_node(rt.alloc(), "row,node,name,eds,period,jitter", record)?;
        assert!(rt; says(&said, begin, part), "{said}");
    }
    Ok(())
}

#[test]
fn mistakes_with_deadlines(rt: HostRuntime) -> Result<(), Fail> {
    for case in DEADLINE_MISTAKES {
        let (record, part) = *case;
        let said = words_on_node(
            rt.alloc(),
            "row,node,name,eds,period,jitter,deadline",
            record,
        )?;
        assert!(rt; says(&said, "nodes.csv, line 2: ", part), "{said}");
    }
    let said = words(rt.alloc(), "row,node\n", PDOS, UNIT)?;
    assert!(rt;
        says(&said, "nodes.csv, line 1: ", "or with deadlines row,node"),
        "{said}"
    );
    Ok(())
}

#[test]
fn mistakes_in_the_table_of_pdos(rt: HostRuntime) -> Result<(), Fail> {
    for case in PDO_MISTAKES {
        let (record, begin, part) = *case;
        let said = words_on_pdos(rt.alloc(), record)?;
        assert!(rt; says(&said, begin, part), "{said}");
    }
    Ok(())
}

/// A transmission type, a row of SYNC and one of the PDO that do not go together, and what is said.
const PACES: &[(&str, &str, &str, &str)] = &[
    (
        "255",
        "sync,0,,,10000,0",
        "5,1,0,100,1620,",
        "it is sent by events, and wanted is its period",
    ),
    (
        "1",
        "sync,0,,,10000,0",
        "5,1,10000,0,670,",
        "wanted are period 0 and its latency after SYNC",
    ),
    (
        "1",
        "sync,0,,,0,0",
        "5,1,0,100,1620,",
        "wanted is a row of SYNC with a period in nodes.csv",
    ),
    (
        "240",
        "sync,0,,,250001,0",
        "5,1,0,100,1620,",
        "240 times SYNC's period of 250001 is 60000240 microseconds",
    ),
    (
        "1",
        "sync,0,,,10000,20000000",
        "5,1,0,20000001,1620,",
        "jitter of 20000000 and the latency of 20000001 are 40000001 microseconds",
    ),
];

/// The words on a transmission type, a row of SYNC and one of the PDO.
fn words_on_pace(alloc: Global, value: &str, sync: &str, pdo: &str) -> Result<String, Fail> {
    let eds = unit_with(alloc, "255", value)?;
    let nodes = format!(in alloc; "{NODES}{sync}\n")?;
    let pdos = pdos_with(alloc, pdo)?;
    words(alloc, &nodes, &pdos, &eds)
}

#[test]
fn rows_that_do_not_go_with_the_type(rt: HostRuntime) -> Result<(), Fail> {
    for case in PACES {
        let (value, sync, pdo, part) = *case;
        let said = words_on_pace(rt.alloc(), value, sync, pdo)?;
        assert!(rt; says(&said, "pdos.csv, line 2: ", part), "{said}");
        assert!(rt; said.contains("rule 53: "), "{said}");
    }
    Ok(())
}

#[test]
fn mistakes_in_the_eds_text(rt: HostRuntime) -> Result<(), Fail> {
    for case in EDS_MISTAKES {
        let (old, new, place, part) = *case;
        let said = words_on_unit(rt.alloc(), old, new)?;
        assert!(rt; said.contains(place) && said.contains(part), "{said}");
    }
    Ok(())
}

/// The words on the device and a second one, node 6, with another text in place of a part of its EDS text.
fn words_on_two(alloc: Global, old: &str, new: &str, rows: &str) -> Result<String, Fail> {
    let nodes = format!(in alloc; "{NODES}device,6,Drive,other.eds,0,0\n")?;
    let eds = unit_with(alloc, old, new)?;
    let pdos = pdos_with(alloc, rows)?;
    let texts = [("unit.eds", UNIT), ("other.eds", eds.as_str())];
    words_of(alloc, &nodes, &pdos, &texts, &all_rates())
}

#[test]
fn mistakes_of_a_consumer(rt: HostRuntime) -> Result<(), Fail> {
    for case in CONSUMER_MISTAKES {
        let (old, new, rows, part, rule) = *case;
        let said = words_on_two(rt.alloc(), old, new, rows)?;
        assert!(rt; said.contains(part) && said.contains(rule), "{said}");
    }
    Ok(())
}

#[test]
fn rates_that_are_not_listed(rt: HostRuntime) -> Result<(), Fail> {
    let mut wanted = RateSet::new();
    wanted.insert(Rate::Kbit125);
    let said = words_of(rt.alloc(), NODES, PDOS, &[("unit.eds", UNIT)], &wanted)?;
    let part = "unit.eds supports 250 kbit/s\n--rates lists 125 kbit/s\nrule 52: no bit rate that ";
    assert!(rt; said.contains(part), "{said}");
    Ok(())
}

#[test]
fn other_separators_are_seen(rt: HostRuntime) -> Result<(), Fail> {
    for case in SEPARATORS {
        let (nodes, part) = *case;
        let said = words(rt.alloc(), nodes, PDOS, UNIT)?;
        assert!(rt; said.contains(part), "{said}");
    }
    Ok(())
}

#[test]
fn what_the_others_have_left_is_said(rt: HostRuntime) -> Result<(), Fail> {
    let words = others_words(rt.alloc(), 8761)?;
    let said =
        "each of the others has at least 2190.25 us left, or as much as any identifiers leave it\n";
    assert!(rt; words.as_str() == said);
    Ok(())
}

#[test]
fn late_streams_are_told(rt: HostRuntime) -> Result<(), Fail> {
    let verdicts = &[
        (0x181, Verdict::Pass { response: 8000 }),
        (
            0x183,
            Verdict::Late {
                q: 1,
                response: 14000,
            },
        ),
        (0x184, Verdict::Long),
    ];
    let wanted =
        "183h: its instance 1 can end 14000 ticks of 250 ns after its event, which is past its deadline\n184h: it and the frames above it can keep the bus busy for more than 10 s; they ask for more than this rate carries\n";
    let said = late_words(rt.alloc(), verdicts)?;
    assert!(rt; said.as_slice() == wanted.as_bytes());
    Ok(())
}
