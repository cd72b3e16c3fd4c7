//! Networks as they stand.

use cop_frame::Rate;
use cop_net::{all_rates, network, read_nodes, read_pdos};
use cop_standing::{Answer, Standing, StandingFault, slowest, tested_as_is};
use std::alloc::{AllocError, Global};
use std::test::Fail;

/// Two devices with one EDS file.
const TWO: &[u8] = b"row,node,name,eds,period,jitter
device,5,Valve,unit.eds,0,0
device,6,Pump,unit.eds,0,0
";

/// The second PDO is late at 250 kbit/s, by one microsecond.
const ROWS: &[u8] = b"node,tpdo,period,jitter,deadline,consumers
5,1,10000,0,1080,
6,1,10000,0,1079,
";

/// The device, up to the value of its COB-ID.
const BEFORE: &str = "[DeviceInfo]
BaudRate_250=1
BaudRate_500=1
BaudRate_1000=1
[MandatoryObjects]
SupportedObjects=0
[OptionalObjects]
SupportedObjects=2
1=0x1800
2=0x1A00
[ManufacturerObjects]
SupportedObjects=1
1=0x2000
[1800]
ObjectType=9
[1800sub1]
DataType=0x0007
AccessType=rw
DefaultValue=";

/// What stands behind it: the PDO is sent by events, and has two words.
const BEHIND: &str = "
[1800sub2]
DataType=0x0005
AccessType=rw
DefaultValue=255
[1A00]
ObjectType=9
[1A00sub0]
DataType=0x0005
AccessType=ro
DefaultValue=2
[1A00sub1]
DataType=0x0007
AccessType=ro
DefaultValue=0x20000120
[1A00sub2]
DataType=0x0007
AccessType=ro
DefaultValue=0x20000220
[2000]
ObjectType=8
[2000sub1]
DataType=0x0007
AccessType=rw
PDOMapping=1
[2000sub2]
DataType=0x0007
AccessType=rw
PDOMapping=1
";

/// The file of a device with a COB-ID.
fn device(alloc: Global, cob_id: &str) -> Result<(String, Vec<u8>), AllocError> {
    let mut text = Vec::new(alloc);
    for piece in &[BEFORE, cob_id, BEHIND] {
        text.extend_from_slice(piece.as_bytes())?;
    }
    Ok((String::from_str(alloc, "unit.eds")?, text))
}

/// What is answered where both devices have a COB-ID.
fn answered(alloc: Global, cob_id: &str) -> Result<Result<Standing, StandingFault>, Fail> {
    let nodes = read_nodes(alloc, TWO)?;
    let pdos = read_pdos(alloc, ROWS)?;
    let files = [device(alloc, cob_id)?];
    let network = network(alloc, &all_rates(), &nodes, &pdos, &files)?;
    Ok(tested_as_is(alloc, &network))
}

/// Whether at a rate exactly these fail.
fn has_failing(answer: Option<&Answer>, rate: Rate, failing: &[usize]) -> bool {
    match answer {
        Some(answer) => answer.rate == rate && answer.failing.as_slice() == failing,
        None => false,
    }
}

/// Whether the PDOs have 185h and 186h, and pass from 500 kbit/s on.
fn stands_by_nodes(standing: &Standing) -> bool {
    let answers = standing.answers.as_slice();
    let has_ids = match standing.streams.streams() {
        [first, second] => first.id == 0x185 && second.id == 0x186,
        _ => false,
    };
    let fails = has_failing(answers.get(0), Rate::Kbit250, &[1]);
    let passes = has_failing(answers.get(1), Rate::Kbit500, &[])
        && has_failing(answers.get(2), Rate::Kbit1000, &[]);
    has_ids && fails && passes && answers.len() == 3 && slowest(answers) == Some(1)
}

/// COB-IDs by the node, with and without bit 30, and one that is off.
const BY_NODE: &[&str] = &["$NODEID+0x180", "$NODEID+0x40000180", "$NODEID+0xC0000180"];

#[test]
fn pdos_keep_the_identifiers_of_their_devices(rt: HostRuntime) -> Result<(), Fail> {
    for cob_id in BY_NODE {
        match answered(rt.alloc(), cob_id)? {
            Ok(standing) => assert!(rt; stands_by_nodes(&standing), "{cob_id}"),
            Err(_) => assert!(rt; false, "{cob_id}"),
        }
    }
    Ok(())
}

/// COB-IDs that cannot stay, and why.
const BROKEN: &[(&str, StandingFault)] = &[
    ("0x40000185", StandingFault::Taken { row: 1, earlier: 0 }),
    ("0xC0000000", StandingFault::Outside { row: 0, id: 0 }),
    ("0x580", StandingFault::Outside { row: 0, id: 0x580 }),
    (
        "0xA0000185",
        StandingFault::Outside {
            row: 0,
            id: 0x2000_0185,
        },
    ),
];

#[test]
fn what_cannot_be_tested_as_it_stands(rt: HostRuntime) -> Result<(), Fail> {
    for case in BROKEN {
        let (cob_id, wanted) = *case;
        match answered(rt.alloc(), cob_id)? {
            Ok(_) => assert!(rt; false, "{cob_id}"),
            Err(fault) => assert!(rt; fault == wanted, "{cob_id}"),
        }
    }
    Ok(())
}
