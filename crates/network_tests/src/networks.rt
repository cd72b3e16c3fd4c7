use cop_dict::{MappingFault, build};
use cop_eds::parse;
use cop_frame::{Rate, RateSet};
use cop_net::{
    EdsFiles, Network, NodeTable, PdoTable, PlanFault, Rule, Table, all_rates, network,
    network_of_files, read_nodes, read_pdos,
};
use cop_pdo::{Direction, payload};
use cop_rta::Stream;
use std::alloc::{AllocError, Global};
use std::test::Fail;

/// The number of a refusal, its table and its record.
pub(crate) type Refused = (u8, Table, u64);

/// What differs between the EDS files of the tests: keys of an object, or of DeviceInfo.
#[derive(Clone, Copy)]
pub(crate) struct Parts<'a> {
    rates: &'a str,
    heartbeat: &'a str,
    cob_id: &'a str,
    transmission: &'a str,
    second_bits: &'a str,
}

pub(crate) const USUAL: Parts<'static> = Parts {
    rates: "BaudRate_250=1\nBaudRate_500=1\nBaudRate_1000=1\n",
    heartbeat: "DataType=0x0006\nAccessType=rw\n",
    cob_id: "DataType=0x0007\nAccessType=rw\nDefaultValue=$NODEID+0x40000180\n",
    transmission: "DataType=0x0005\nAccessType=rw\nDefaultValue=255\n",
    second_bits: "0x20000220",
};

/// The lists of the objects.
const LISTS: &str = "[MandatoryObjects]
SupportedObjects=0
[OptionalObjects]
SupportedObjects=5
1=0x1017
2=0x1400
3=0x1600
4=0x1800
5=0x1A00
[ManufacturerObjects]
SupportedObjects=1
1=0x2000
";

/// The records of RPDO 1, up to the value of its second entry.
const RECEIVE: &str = "[1400]
ObjectType=9
[1400sub1]
DataType=0x0007
AccessType=rw
DefaultValue=0x80000200
[1600]
ObjectType=9
[1600sub0]
DataType=0x0005
AccessType=ro
DefaultValue=2
[1600sub1]
DataType=0x0007
AccessType=ro
DefaultValue=0x20000120
[1600sub2]
DataType=0x0007
AccessType=ro
";

/// The mapping of TPDO 1, and the two words.
const TRANSMIT: &str = "[1A00]
ObjectType=9
[1A00sub0]
DataType=0x0005
AccessType=ro
DefaultValue=2
[1A00sub1]
DataType=0x0007
AccessType=ro
DefaultValue=0x20000120
[1A00sub2]
DataType=0x0007
AccessType=ro
DefaultValue=0x20000220
[2000]
ObjectType=8
[2000sub1]
DataType=0x0007
AccessType=rw
PDOMapping=1
[2000sub2]
DataType=0x0007
AccessType=rw
PDOMapping=1
";

/// The text of a device that sends two words by TPDO 1 and takes two words by RPDO 1.
fn text_of(alloc: Global, parts: Parts<'_>) -> Result<Vec<u8>, AllocError> {
    let pieces: &[&str] = &[
        "[DeviceInfo]\n",
        parts.rates,
        LISTS,
        "[1017]\n",
        parts.heartbeat,
        RECEIVE,
        "DefaultValue=",
        parts.second_bits,
        "\n[1800]\nObjectType=9\n[1800sub1]\n",
        parts.cob_id,
        "[1800sub2]\n",
        parts.transmission,
        TRANSMIT,
    ];
    let mut text = Vec::new(alloc);
    for piece in pieces {
        text.extend_from_slice(piece.as_bytes())?;
    }
    Ok(text)
}

/// A file of this name.
fn file(alloc: Global, name: &str, text: Vec<u8>) -> Result<(String, Vec<u8>), Fail> {
    Ok((String::from_str(alloc, name)?, text))
}

/// The files of a network whose device has these parts.
fn files_of(alloc: Global, parts: Parts<'_>) -> Result<[(String, Vec<u8>); 1], Fail> {
    let text = text_of(alloc, parts)?;
    Ok([file(alloc, "unit.eds", text)?])
}

pub(crate) fn nodes_of(alloc: Global, rows: &str) -> Result<NodeTable, Fail> {
    let text = format!(in alloc; "row,node,name,eds,period,jitter\n{rows}")?;
    Ok(read_nodes(alloc, text.as_bytes())?)
}

pub(crate) fn pdos_of(alloc: Global, rows: &str) -> Result<PdoTable, Fail> {
    let text = format!(in alloc; "node,tpdo,period,jitter,deadline,consumers\n{rows}")?;
    Ok(read_pdos(alloc, text.as_bytes())?)
}

/// The refusal that is told, where it is not for want of memory.
pub(crate) fn told<T: Drop>(outcome: Result<T, PlanFault>) -> Result<Option<Refused>, Fail> {
    match outcome {
        Ok(_) => Ok(None),
        Err(PlanFault::Refused(refusal)) => Ok(Some((
            refusal.rule.number(),
            refusal.table,
            refusal.place,
        ))),
        Err(fault) => Err(fault.into()),
    }
}

/// Whether a refusal is told as it is wanted.
pub(crate) fn is_told(found: Option<Refused>, wanted: Option<Refused>) -> bool {
    match (found, wanted) {
        (Some((number, table, place)), Some((rule, of, record))) => {
            number == rule && table == of && place == record
        }
        (None, None) => true,
        _ => false,
    }
}

/// How these rows and files are refused.
fn refused_of(
    alloc: Global,
    nodes: &str,
    pdos: &str,
    files: &[(String, Vec<u8>)],
) -> Result<Option<Refused>, Fail> {
    let nodes = nodes_of(alloc, nodes)?;
    let pdos = pdos_of(alloc, pdos)?;
    told(network(alloc, &all_rates(), &nodes, &pdos, files))
}

pub(crate) const VALVE_PDO: &str = "5,1,10000,0,670,\n";

const VALVE: &str = "device,5,Valve,unit.eds,0,0\nemcy,5,,,100000,0\nheartbeat,5,,,100000,0\n";

/// The tables of the valve's network, and its EDS file.
fn valve(alloc: Global) -> Result<(NodeTable, PdoTable, [(String, Vec<u8>); 1]), Fail> {
    Ok((
        nodes_of(alloc, VALVE)?,
        pdos_of(alloc, VALVE_PDO)?,
        files_of(alloc, USUAL)?,
    ))
}

/// The streams of the valve: identifier, bytes, period and deadline. None has a jitter.
const VALVE_STREAMS: &[(u16, u8, u64, Option<u64>)] = &[
    (0x181, 8, 40_000, Some(2_680)),
    (0x085, 8, 400_000, None),
    (0x705, 1, 400_000, None),
];

/// Whether a stream is the one that is wanted.
fn is_stream(stream: &Stream, wanted: Option<&(u16, u8, u64, Option<u64>)>) -> bool {
    match wanted {
        Some((id, bytes, period, deadline)) => {
            stream.id == *id
                && stream.bytes == *bytes
                && stream.period == *period
                && stream.deadline == *deadline
                && stream.jitter == 0
        }
        None => false,
    }
}

/// The streams of a network.
fn streams_with(
    alloc: Global,
    nodes: &NodeTable,
    pdos: &PdoTable,
    files: &[(String, Vec<u8>)],
) -> Result<Vec<Stream>, Fail> {
    let network = network(alloc, &all_rates(), nodes, pdos, files)?;
    Ok(Vec::from_slice(alloc, network.set().streams())?)
}

/// The streams of a network of the device of these parts.
pub(crate) fn streams_of(
    alloc: Global,
    nodes: &NodeTable,
    pdos: &str,
    parts: Parts<'_>,
) -> Result<Vec<Stream>, Fail> {
    let pdos = pdos_of(alloc, pdos)?;
    let files = files_of(alloc, parts)?;
    streams_with(alloc, nodes, &pdos, &files)
}

#[test]
fn the_streams_of_the_valve(rt: HostRuntime) -> Result<(), Fail> {
    let nodes = nodes_of(rt.alloc(), VALVE)?;
    let streams = streams_of(rt.alloc(), &nodes, VALVE_PDO, USUAL)?;
    assert!(rt; streams.len() == VALVE_STREAMS.len());
    let mut wanted = VALVE_STREAMS.iter();
    for stream in streams.iter() {
        assert!(rt; is_stream(stream, wanted.next()));
    }
    Ok(())
}

const ANSWERED_IN_TIME: &[u8] = b"row,node,name,eds,period,jitter,deadline
device,5,Valve,unit.eds,0,0,
sdo_response,5,,,100000,0,1080
emcy,5,,,100000,0,
";

#[test]
fn an_sdo_frame_with_a_deadline(rt: HostRuntime) -> Result<(), Fail> {
    let nodes = read_nodes(rt.alloc(), ANSWERED_IN_TIME)?;
    let streams = streams_of(rt.alloc(), &nodes, "5,1,10000,0,670,\n", USUAL)?;
    match streams.as_slice() {
        [_, emergency, response] => {
            assert!(rt; emergency.id == 0x085 && emergency.deadline.is_none());
            assert!(rt; response.id == 0x585 && response.deadline == Some(4_320));
        }
        _ => assert!(rt; false),
    }
    Ok(())
}

/// Whether the file of a name is accepted, where there is one.
fn is_accepted(files: &EdsFiles<'_>, name: &str) -> Option<bool> {
    match files.read(name.as_bytes()) {
        Some(Ok(_)) => Some(true),
        Some(Err(_)) => Some(false),
        None => None,
    }
}

/// The sample device's file, and two that are cut off, of which one has the same name.
fn three_files(alloc: Global) -> Result<[(String, Vec<u8>); 3], Fail> {
    let cut = b"[1000";
    Ok([
        file(alloc, "unit.eds", text_of(alloc, USUAL)?)?,
        file(alloc, "other.eds", Vec::from_slice(alloc, cut)?)?,
        file(alloc, "unit.eds", Vec::from_slice(alloc, cut)?)?,
    ])
}

#[test]
fn a_file_is_read_by_its_name(rt: HostRuntime) -> Result<(), Fail> {
    let files = three_files(rt.alloc())?;
    let read = EdsFiles::new(rt.alloc(), &files)?;
    assert!(rt; is_accepted(&read, "unit.eds") == Some(true));
    assert!(rt; is_accepted(&read, "other.eds") == Some(false));
    assert!(rt; is_accepted(&read, "none.eds").is_none());
    Ok(())
}

#[test]
fn a_network_is_made_of_files_that_are_read(rt: HostRuntime) -> Result<(), Fail> {
    let (nodes, pdos, files) = valve(rt.alloc())?;
    let read = EdsFiles::new(rt.alloc(), &files)?;
    let valve = network_of_files(rt.alloc(), &all_rates(), &nodes, &pdos, &read)?;
    assert!(rt; valve.pdos() == 1);
    Ok(())
}

/// Whether a network has one device, one PDO and one heartbeat, all of node 5.
fn is_of_one_device(network: &Network<'_>) -> bool {
    let has_one = network.devices().len() == 1 && network.rows().len() == 1 && network.pdos() == 1;
    let beats = network.heartbeat(5) == 100 && network.heartbeat(6) == 0;
    has_one && beats && network.dictionary(5).is_some() && network.dictionary(6).is_none()
}

#[test]
fn the_tables_of_the_valve(rt: HostRuntime) -> Result<(), Fail> {
    let (nodes, pdos, files) = valve(rt.alloc())?;
    let valve = network(rt.alloc(), &all_rates(), &nodes, &pdos, &files)?;
    assert!(rt; is_of_one_device(&valve));
    Ok(())
}

/// The rates that are wanted, the slowest that the valve's network has of them, and how it is refused where it has none.
const WANTED: &[(&[Rate], Option<Rate>, Option<Refused>)] = &[
    (&Rate::ALL, Some(Rate::Kbit250), None),
    (&[Rate::Kbit1000], Some(Rate::Kbit1000), None),
    (
        &[Rate::Kbit1000, Rate::Kbit500, Rate::Kbit10],
        Some(Rate::Kbit500),
        None,
    ),
    (
        &[Rate::Kbit800, Rate::Kbit125],
        None,
        Some((52, Table::Nodes, 0)),
    ),
];

/// The set of these rates.
fn set_of(rates: &[Rate]) -> RateSet {
    let mut set = RateSet::new();
    for rate in rates {
        set.insert(*rate);
    }
    set
}

/// The rates that the valve's network has of those that are wanted; none where it is refused, and how.
fn rates_of(alloc: Global, wanted: &RateSet) -> Result<(Option<RateSet>, Option<Refused>), Fail> {
    let (nodes, pdos, files) = valve(alloc)?;
    match network(alloc, wanted, &nodes, &pdos, &files) {
        Ok(network) => Ok((Some(network.rates()), None)),
        refused => Ok((None, told(refused)?)),
    }
}

/// The slowest of some rates, where there are any.
fn slowest_of(rates: Option<RateSet>) -> Option<Rate> {
    rates?.slowest()
}

#[test]
fn the_rates_of_the_valve(rt: HostRuntime) -> Result<(), Fail> {
    for case in WANTED {
        let (rates, slowest, refused) = *case;
        let (found, told) = rates_of(rt.alloc(), &set_of(rates))?;
        assert!(rt; slowest_of(found) == slowest && is_told(told, refused));
    }
    let (rates, _) = rates_of(rt.alloc(), &all_rates())?;
    let rates = rates.ok_or("no rate")?;
    assert!(rt; rates.slowest() == Some(Rate::Kbit250));
    assert!(rt; !rates.contains(Rate::Kbit800));
    Ok(())
}

/// Two devices with one EDS file, and a heartbeat of the second.
const TWO: &str =
    "device,6,Second,unit.eds,0,0\nheartbeat,5,,,100000,0\ndevice,5,First,unit.eds,0,0\n";

const READ_ONLY: &str = "DataType=0x0007\nAccessType=ro\nDefaultValue=$NODEID+0x40000180\n";

const CLOSED: Parts<'static> = Parts {
    cob_id: READ_ONLY,
    ..USUAL
};

const MUTE: Parts<'static> = Parts {
    heartbeat: "DataType=0x0006\nAccessType=ro\n",
    ..USUAL
};

/// Rows of nodes and PDOs, what is in the EDS file, and the refusal.
const REFUSED: &[(&str, &str, Parts<'static>, Option<Refused>)] = &[
    (TWO, "5,1,10000,0,670,6.1\n", USUAL, None),
    // Each device record looks for its file.
    (
        "device,5,First,other.eds,0,0\n",
        "",
        USUAL,
        Some((43, Table::Nodes, 1)),
    ),
    (
        TWO,
        "",
        Parts {
            rates: "BaudRate_250=x\n",
            ..USUAL
        },
        Some((43, Table::Nodes, 1)),
    ),
    // The TPDO is absent, or its node is.
    (
        TWO,
        "5,1,10000,0,670,\n5,2,10000,0,670,\n",
        USUAL,
        Some((45, Table::Pdos, 2)),
    ),
    (TWO, "7,1,10000,0,670,\n", USUAL, Some((45, Table::Pdos, 1))),
    // The COB-ID can't be written, or not with 181h.
    (
        TWO,
        "5,1,10000,0,670,\n",
        CLOSED,
        Some((46, Table::Pdos, 1)),
    ),
    (
        TWO,
        "5,1,10000,0,670,\n",
        Parts {
            cob_id: "DataType=0x0007\nAccessType=rw\nDefaultValue=$NODEID+0x40000180\nLowLimit=0x40000182\n",
            ..USUAL
        },
        Some((46, Table::Pdos, 1)),
    ),
    (
        TWO,
        "5,1,10000,0,670,\n",
        Parts {
            cob_id: "DataType=0x0007\nAccessType=rw\nDefaultValue=$NODEID+0x40000180\nLowLimit=0x40000181\n",
            ..USUAL
        },
        None,
    ),
    // The transmission type is no number.
    (
        TWO,
        "5,1,10000,0,670,\n",
        Parts {
            transmission: "DataType=0x0009\nAccessType=rw\nDefaultValue=255\n",
            ..USUAL
        },
        Some((47, Table::Pdos, 1)),
    ),
    // The RPDO is absent, or its node is; it is used twice; its layout is another.
    (
        TWO,
        "5,1,10000,0,670,6.1 6.2\n",
        USUAL,
        Some((48, Table::Pdos, 1)),
    ),
    (
        TWO,
        "5,1,10000,0,670,7.1\n",
        USUAL,
        Some((48, Table::Pdos, 1)),
    ),
    (
        TWO,
        "5,1,10000,0,670,6.1 6.1\n",
        USUAL,
        Some((48, Table::Pdos, 1)),
    ),
    (
        TWO,
        "5,1,10000,0,670,6.1\n6,1,10000,0,670,6.1\n",
        USUAL,
        Some((48, Table::Pdos, 2)),
    ),
    (
        TWO,
        "5,1,10000,0,670,6.1\n",
        Parts {
            second_bits: "0x00060010",
            ..USUAL
        },
        Some((48, Table::Pdos, 1)),
    ),
    (
        TWO,
        "5,1,10000,0,670,6.1\n",
        Parts {
            second_bits: "0x00070020",
            ..USUAL
        },
        None,
    ),
    // What nobody uses stays on; the heartbeat's time can't be set; of both, the lowest node counts.
    (
        "device,5,First,unit.eds,0,0\n",
        "",
        CLOSED,
        Some((50, Table::Nodes, 1)),
    ),
    (TWO, "", MUTE, Some((51, Table::Nodes, 3))),
    // No rate is supported.
    (
        TWO,
        "5,1,10000,0,670,6.1\n",
        Parts { rates: "", ..USUAL },
        Some((52, Table::Nodes, 0)),
    ),
    // Of several, the PDOs come before the devices, and these before the rates.
    (
        TWO,
        "5,1,10000,0,670,7.1\n",
        Parts {
            rates: "",
            heartbeat: "DataType=0x0006\nAccessType=ro\n",
            ..USUAL
        },
        Some((48, Table::Pdos, 1)),
    ),
];

/// A transmission type, its value, a row of SYNC, a row of the PDO, and the number of the refusal.
const TYPES: &[(&str, &str, &str, &str, Option<u8>)] = &[
    ("0x0005", "255", "", "5,1,10000,0,670,", None),
    ("0x0005", "254", "", "5,1,10000,0,670,", None),
    ("0x0005", "1", "sync,0,,,10000,0", "5,1,0,100,1620,", None),
    ("0x0002", "1", "sync,0,,,10000,0", "5,1,0,100,1620,", None),
    // others are no types that are planned
    (
        "0x0005",
        "0",
        "sync,0,,,10000,0",
        "5,1,0,100,1620,",
        Some(47),
    ),
    (
        "0x0005",
        "241",
        "sync,0,,,10000,0",
        "5,1,0,100,1620,",
        Some(47),
    ),
    (
        "0x0005",
        "253",
        "sync,0,,,10000,0",
        "5,1,0,100,1620,",
        Some(47),
    ),
    (
        "0x0001",
        "1",
        "sync,0,,,10000,0",
        "5,1,0,100,1620,",
        Some(47),
    ),
    ("0x0002", "-1", "", "5,1,10000,0,670,", Some(47)),
    // a period where none is wanted, and none where one is
    (
        "0x0005",
        "1",
        "sync,0,,,10000,0",
        "5,1,10000,0,670,",
        Some(53),
    ),
    (
        "0x0005",
        "255",
        "sync,0,,,10000,0",
        "5,1,0,100,1620,",
        Some(53),
    ),
    // no SYNC that is sent
    ("0x0005", "1", "", "5,1,0,100,1620,", Some(53)),
    ("0x0005", "1", "sync,0,,,0,0", "5,1,0,100,1620,", Some(53)),
    // too rare, also where the product passes 32 bits
    (
        "0x0005",
        "240",
        "sync,0,,,250000,0",
        "5,1,0,100,1620,",
        None,
    ),
    (
        "0x0005",
        "240",
        "sync,0,,,250001,0",
        "5,1,0,100,1620,",
        Some(53),
    ),
    (
        "0x0005",
        "215",
        "sync,0,,,20000000,0",
        "5,1,0,100,1620,",
        Some(53),
    ),
    // both jitters
    (
        "0x0005",
        "1",
        "sync,0,,,10000,20000000",
        "5,1,0,20000000,1620,",
        None,
    ),
    (
        "0x0005",
        "1",
        "sync,0,,,10000,20000000",
        "5,1,0,20000001,1620,",
        Some(53),
    ),
    // and then its consumers
    ("0x0005", "1", "", "5,1,0,100,1620,7.1", Some(53)),
    (
        "0x0005",
        "1",
        "sync,0,,,10000,0",
        "5,1,0,100,1620,7.1",
        Some(48),
    ),
];

/// The number of a refusal.
fn number_in(refused: Option<Refused>) -> Option<u8> {
    let (number, _, _) = refused?;
    Some(number)
}

/// A network of the valve alone, with a row of SYNC and a transmission type.
fn number_of(alloc: Global, case: (&str, &str, &str, &str)) -> Result<Option<u8>, Fail> {
    let (data_type, value, sync, pdo) = case;
    let transmission = format!(in alloc;
        "DataType={data_type}\nAccessType=rw\nDefaultValue={value}\n"
    )?;
    let parts = Parts {
        transmission: &transmission,
        ..USUAL
    };
    let nodes = format!(in alloc; "device,5,Valve,unit.eds,0,0\n{sync}\n")?;
    let files = files_of(alloc, parts)?;
    let refused = refused_of(alloc, &nodes, pdo, &files)?;
    Ok(number_in(refused))
}

#[test]
fn transmission_types(rt: HostRuntime) -> Result<(), Fail> {
    for case in TYPES {
        let (data_type, value, sync, pdo, number) = *case;
        let found = number_of(rt.alloc(), (data_type, value, sync, pdo))?;
        assert!(rt; found == number, "{data_type} {value} {sync} {pdo}");
    }
    Ok(())
}

#[test]
fn the_stream_of_a_pdo_that_is_sent_by_sync(rt: HostRuntime) -> Result<(), Fail> {
    let parts = Parts {
        transmission: "DataType=0x0005\nAccessType=rw\nDefaultValue=3\n",
        ..USUAL
    };
    let nodes = nodes_of(
        rt.alloc(),
        "device,5,Valve,unit.eds,0,0\nsync,0,,,10000,0\n",
    )?;
    let streams = streams_of(rt.alloc(), &nodes, "5,1,0,100,1620,\n", parts)?;
    match streams.as_slice() {
        [pdo, sync] => {
            assert!(rt; pdo.every == 3 && pdo.period == 120_000 && pdo.jitter == 400);
            assert!(rt; pdo.id == 0x181 && pdo.deadline == Some(6_480));
            assert!(rt; sync.id == 0x080 && sync.every == 0 && sync.period == 40_000);
        }
        _ => assert!(rt; false),
    }
    Ok(())
}

#[test]
fn refused_networks(rt: HostRuntime) -> Result<(), Fail> {
    for case in REFUSED {
        let (nodes, pdos, parts, refused) = *case;
        let files = files_of(rt.alloc(), parts)?;
        let found = refused_of(rt.alloc(), nodes, pdos, &files)?;
        assert!(rt; is_told(found, refused));
    }
    Ok(())
}

#[test]
fn of_files_with_one_name_the_first_counts(rt: HostRuntime) -> Result<(), Fail> {
    let files = three_files(rt.alloc())?;
    assert!(rt; refused_of(rt.alloc(), TWO, "", &files)?.is_none());
    Ok(())
}

#[test]
fn an_empty_file_supports_no_rate(rt: HostRuntime) -> Result<(), Fail> {
    let empty = [file(rt.alloc(), "unit.eds", Vec::new(rt.alloc()))?];
    let refused = refused_of(rt.alloc(), "device,5,First,unit.eds,0,0\n", "", &empty)?;
    assert!(rt; is_told(refused, Some((52, Table::Nodes, 0))));
    Ok(())
}

/// The rule that a network of one device breaks, whose PDO is no device's.
fn rule_of(alloc: Global, files: &[(String, Vec<u8>)]) -> Result<Option<Rule>, Fail> {
    let nodes = nodes_of(alloc, "device,5,First,unit.eds,0,0\n")?;
    let pdos = pdos_of(alloc, "5,2,10000,0,670,\n")?;
    match network(alloc, &all_rates(), &nodes, &pdos, files) {
        Ok(_) => Ok(None),
        Err(PlanFault::Refused(refusal)) => Ok(Some(refusal.rule)),
        Err(fault) => Err(Fail::from(fault)),
    }
}

#[test]
fn a_refusal_carries_the_rule_of_the_text(rt: HostRuntime) -> Result<(), Fail> {
    assert!(rt; rule_of(rt.alloc(), &[])? == Some(Rule::Eds(None)));
    let line = cop_eds::Refusal {
        rule: cop_eds::Rule::Line,
        line: 2,
    };
    let cut = Vec::from_slice(rt.alloc(), b"[A]\n[1800su")?;
    let files = [file(rt.alloc(), "unit.eds", cut)?];
    assert!(rt; rule_of(rt.alloc(), &files)? == Some(Rule::Eds(Some(line))));
    Ok(())
}

#[test]
fn a_refusal_carries_the_rule_of_the_mapping(rt: HostRuntime) -> Result<(), Fail> {
    let files = files_of(rt.alloc(), USUAL)?;
    let absent = Rule::Transmit(Some(MappingFault::Absent));
    assert!(rt; rule_of(rt.alloc(), &files)? == Some(absent));
    Ok(())
}

#[test]
fn the_sample_device_sends_eight_bytes(rt: HostRuntime) -> Result<(), Fail> {
    let text = text_of(rt.alloc(), USUAL)?;
    let eds = parse(rt.alloc(), &text)?;
    let dict = build(rt.alloc(), &eds, 5)?;
    match payload(&dict, Direction::Transmit, 1) {
        Ok(mapping) => {
            assert!(rt; mapping.bits() == 64 && mapping.bytes() == 8);
        }
        Err(_) => assert!(rt; false),
    }
    Ok(())
}
