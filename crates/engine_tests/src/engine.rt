mod boots;
mod coverings;
mod cut;
mod large;
mod margins;
mod outlets;
mod pieces;
mod ranges;
mod runs;

use cop_engine::{
    Fault, Files, check_bytes, judge_bytes, plan_bytes, read_all, status, test_bytes,
};
use cop_frame::Rate;
use cop_net::all_rates;
use cop_plan::{Asked, Choice};
use std::alloc::{AllocError, Global};
use std::io;
use std::test::Fail;

const THREE_FRAMES: &[u8] =
    b"id,bytes,period,jitter,deadline\n0x181,7,2500,0,2500\n0x182,7,3500,0,3250\n0x183,7,3500,0,3250\n";

// The number of a refusal and its place, or None for an answer.
pub(crate) fn refused<T: Drop>(answer: Result<T, Fault>) -> Result<Option<(u8, u64)>, Fail> {
    match answer {
        Ok(_) => Ok(None),
        Err(Fault::Network(refusal)) => Ok(Some((refusal.rule.number(), refusal.place))),
        Err(Fault::Refused { number, place }) => Ok(Some((number, place))),
        Err(fault) => Err(Fail::from(fault)),
    }
}

/// Tables of streams, the rate, the report and whether all streams pass.
const REPORTS: &[(&[u8], Rate, &[u8], bool)] = &[
    (
        THREE_FRAMES,
        Rate::Kbit125,
        b"181h pass 8000\n182h pass 12000\n183h late 1 14000\n",
        false,
    ),
    (
        b"id,bytes,period,jitter,deadline\n0x181,8,100,0,\n",
        Rate::Kbit1000,
        b"181h long\n",
        false,
    ),
    // The lines stand by rising identifier, whatever the order of the records.
    (
        b"id,bytes,period,jitter,deadline\n\"386\",8,100000,0,1080\r\n385,8,100000,0,1079\r\n",
        Rate::Kbit125,
        b"181h late 0 8640\n182h late 0 8640\n",
        false,
    ),
    (
        b"\xEF\xBB\xBFid,bytes,period,jitter,deadline\n0x181,8,1000,2500,2635\n",
        Rate::Kbit1000,
        b"181h pass 10540\n",
        true,
    ),
    (
        b"id,bytes,period,jitter,deadline\n",
        Rate::Kbit125,
        b"",
        true,
    ),
];

#[test]
fn reports(rt: HostRuntime) -> Result<(), Fail> {
    for case in REPORTS {
        let (text, rate, want, wanted) = *case;
        let (lines, all_pass) = test_bytes(rt.alloc(), text, rate)?;
        assert!(rt; lines.as_slice() == want);
        assert!(rt; all_pass == wanted);
    }
    Ok(())
}

/// Tables of streams that are refused, the number and the record.
const REFUSED_STREAMS: &[(&[u8], u8, u64)] = &[
    (
        b"id,bytes,period,jitter,deadline\n0x181,7,2500,0,2500\n385,7,3500,0,3250\n",
        5,
        2,
    ),
    (b"", 1, 0),
    (
        b"id,bytes,period,jitter,deadline\n0x181,9,2500,0,2500\n",
        4,
        1,
    ),
];

#[test]
fn refusals(rt: HostRuntime) -> Result<(), Fail> {
    for case in REFUSED_STREAMS {
        let (text, wanted, at) = *case;
        let report = test_bytes(rt.alloc(), text, Rate::Kbit125);
        assert!(rt; refused(report)? == Some((wanted, at)));
    }
    Ok(())
}

#[test]
fn statuses(rt: HostRuntime) {
    assert!(rt; status(&Fault::Usage) == 2);
    assert!(rt;
        status(&Fault::Refused {
            number: 5,
            place: 2
        }) == 3
    );
    assert!(rt; status(&Fault::File(String::new(rt.alloc()))) == 5);
    assert!(rt; status(&Fault::Memory) == 6);
}

#[test]
fn every_prefix_returns(rt: HostRuntime) -> Result<(), Fail> {
    for length in 0..=THREE_FRAMES.len() {
        let _ = refused(test_bytes(rt.alloc(), &THREE_FRAMES[..length], Rate::Kbit125))?;
    }
    Ok(())
}

#[test]
fn large_inputs_are_file_faults(rt: HostRuntime) {
    match read_all(rt.alloc(), io::repeat(b'0'), 0) {
        Ok(_) => assert!(rt; false),
        Err(error) => assert!(rt; error.kind() == io::ErrorKind::FileTooLarge),
    }
}

#[test]
fn inputs_are_read_whole(rt: HostRuntime) -> Result<(), Fail> {
    let table = b"id,bytes,period,jitter,deadline\n".as_slice();
    for expected in [0, 10, table.len() as u64, u64::MAX] {
        assert!(rt; read_all(rt.alloc(), table, expected)?.as_slice() == table);
    }
    Ok(())
}

// The sample device.
pub(crate) const UNIT: &[u8] = b"[FileInfo]
FileName=unit.eds
[DeviceInfo]
BaudRate_250=1
BaudRate_500=1
BaudRate_1000=1
[MandatoryObjects]
SupportedObjects=1
1=0x1000
[OptionalObjects]
SupportedObjects=3
1=0x1017
2=0x1800
3=0x1A00
[ManufacturerObjects]
SupportedObjects=1
1=0x2000
[1000]
DataType=0x0007
AccessType=ro
[1017]
DataType=0x0006
AccessType=rw
DefaultValue=0
[1800]
ObjectType=0x9
SubNumber=3
[1800sub0]
DataType=0x0005
AccessType=ro
DefaultValue=2
[1800sub1]
DataType=0x0007
AccessType=rw
DefaultValue=$NODEID+0x40000180
[1800sub2]
DataType=0x0005
AccessType=rw
DefaultValue=255
[1A00]
ObjectType=0x9
SubNumber=3
[1A00sub0]
DataType=0x0005
AccessType=ro
DefaultValue=2
[1A00sub1]
DataType=0x0007
AccessType=ro
DefaultValue=0x20000120
[1A00sub2]
DataType=0x0007
AccessType=ro
DefaultValue=0x20000220
[2000]
ObjectType=0x8
SubNumber=3
[2000sub0]
DataType=0x0005
AccessType=ro
DefaultValue=2
[2000sub1]
DataType=0x0007
AccessType=ro
PDOMapping=1
[2000sub2]
DataType=0x0007
AccessType=ro
PDOMapping=1
";

// A device that supports 125 kbit/s alone.
pub(crate) const SLOW: &[u8] = b"[DeviceInfo]
BaudRate_125=1
[OptionalObjects]
SupportedObjects=2
1=0x1800
2=0x1A00
[ManufacturerObjects]
SupportedObjects=1
1=0x2000
[1800]
ObjectType=9
[1800sub1]
DataType=7
AccessType=rw
DefaultValue=0x180+$NODEID
[1800sub2]
DataType=5
AccessType=rw
DefaultValue=255
[1A00]
ObjectType=9
[1A00sub0]
DataType=5
AccessType=rw
DefaultValue=1
[1A00sub1]
DataType=7
AccessType=rw
DefaultValue=0x20000040
[2000]
DataType=0x1B
AccessType=ro
PDOMapping=1
";

pub(crate) const VALVE: &[u8] =
    b"row,node,name,eds,period,jitter\ndevice,5,Valve,unit.eds,0,0\nemcy,5,,,100000,0\nheartbeat,5,,,100000,0\n";

pub(crate) const ALONE: &[u8] = b"row,node,name,eds,period,jitter\ndevice,5,Valve,unit.eds,0,0\n";

pub(crate) const NO_PDO: &[u8] = b"node,tpdo,period,jitter,deadline,consumers\n";

pub(crate) const ONE_PDO: &[u8] = b"node,tpdo,period,jitter,deadline,consumers\n5,1,10000,0,670,\n";

const SLOW_PDO: &[u8] = b"node,tpdo,period,jitter,deadline,consumers\n5,1,10000,0,10000,\n";

pub(crate) const BUSY_PDO: &[u8] = b"node,tpdo,period,jitter,deadline,consumers\n5,1,500,0,500,\n";

const NOTHING_REFUSED: &[u8] = b"rate,pdo,what,value\n0,0,version,1\n";

pub(crate) const VALVE_REFUSED: &[u8] =
    b"rate,pdo,what,value\n0,0,version,1\n250,1,late,0\n250,1,busy,1\n250,1,busy,5360\n250,1,queue,1040\n250,1,queue,3200\n";

pub(crate) fn eds_files(alloc: Global, text: &[u8]) -> Result<Vec<(String, Vec<u8>)>, AllocError> {
    let mut files = Vec::new(alloc);
    let name = String::from_str(alloc, "unit.eds")?;
    files.push((name, Vec::from_slice(alloc, text)?))?;
    Ok(files)
}

/// A plan by a choice, which may have each rate.
pub(crate) fn by(choice: Choice) -> Asked {
    Asked {
        rates: all_rates(),
        choice,
    }
}

/// The files of a network's plan, by the order of the PDOs.
pub(crate) fn plan_of(
    alloc: Global,
    nodes: &[u8],
    pdos: &[u8],
    eds: &[(String, Vec<u8>)],
) -> Result<Files, Fault> {
    plan_bytes(alloc, nodes, pdos, eds, &by(Choice::Order))
}

fn planned(alloc: Global, nodes: &[u8], pdos: &[u8], eds: &[u8]) -> Result<Files, Fault> {
    let files = eds_files(alloc, eds)?;
    plan_of(alloc, nodes, pdos, &files)
}

/// Tables and an EDS file, whether some rate passes, and the plan.
const PLANNED: &[(&[u8], &[u8], &[u8], bool, &[u8])] = &[
    (
        VALVE,
        ONE_PDO,
        UNIT,
        true,
        b"rate 500\npdo 5.1 id 181h response 2680\nrefused 250 members 1\n",
    ),
    (ALONE, NO_PDO, UNIT, true, b"rate 250\n"),
    (
        ALONE,
        SLOW_PDO,
        UNIT,
        true,
        b"rate 250\npdo 5.1 id 181h response 2160\n",
    ),
    (
        ALONE,
        BUSY_PDO,
        SLOW,
        false,
        b"no rate passes\nrefused 125 members 1\n",
    ),
];

#[test]
fn networks_are_planned(rt: HostRuntime) -> Result<(), Fail> {
    for case in PLANNED {
        let (nodes, pdos, eds, passes, text) = *case;
        let files = planned(rt.alloc(), nodes, pdos, eds)?;
        assert!(rt; files.planned == passes && files.plan.as_slice() == text);
    }
    Ok(())
}

/// Tables and the refusals of their plan.
const PLANNED_REFUSALS: &[(&[u8], &[u8], &[u8])] = &[
    (VALVE, ONE_PDO, VALVE_REFUSED),
    (ALONE, NO_PDO, NOTHING_REFUSED),
];

#[test]
fn refusals_of_plans(rt: HostRuntime) -> Result<(), Fail> {
    for case in PLANNED_REFUSALS {
        let (nodes, pdos, text) = *case;
        let files = planned(rt.alloc(), nodes, pdos, UNIT)?;
        assert!(rt; files.refusals.as_slice() == text);
    }
    Ok(())
}

/// A table with a PDO twice.
const TWICE: &[u8] =
    b"node,tpdo,period,jitter,deadline,consumers\n5,1,10000,0,670,\n5,1,10000,0,670,\n";

/// Tables and an EDS file that are refused, the number and the record.
const REFUSED_NETWORKS: &[(&[u8], &[u8], &[u8], u8, u64)] = &[
    (b"row,node\n", ONE_PDO, UNIT, 40, 0),
    (VALVE, b"", UNIT, 40, 0),
    (VALVE, TWICE, UNIT, 44, 2),
    (VALVE, ONE_PDO, b"[1800su", 43, 1),
    (ALONE, NO_PDO, b"", 52, 0),
    (ALONE, ONE_PDO, b"", 45, 1),
];

#[test]
fn networks_are_refused(rt: HostRuntime) -> Result<(), Fail> {
    for case in REFUSED_NETWORKS {
        let (nodes, pdos, eds, number, place) = *case;
        let files = planned(rt.alloc(), nodes, pdos, eds);
        assert!(rt; refused(files)? == Some((number, place)));
    }
    Ok(())
}

// The DCF of the valve's node.
const VALVE_DCF: &[u8] =
    b"[FileInfo]\nFileName=unit.eds\nLastEDS=unit.eds\n[DeviceInfo]\nBaudRate_250=1\nBaudRate_500=1\nBaudRate_1000=1\n[MandatoryObjects]\nSupportedObjects=1\n1=0x1000\n[OptionalObjects]\nSupportedObjects=3\n1=0x1017\n2=0x1800\n3=0x1A00\n[ManufacturerObjects]\nSupportedObjects=1\n1=0x2000\n[1000]\nDataType=0x0007\nAccessType=ro\n[1017]\nDataType=0x0006\nAccessType=rw\nDefaultValue=0\nParameterValue=0x0064\n[1800]\nObjectType=0x9\nSubNumber=3\n[1800sub0]\nDataType=0x0005\nAccessType=ro\nDefaultValue=2\n[1800sub1]\nDataType=0x0007\nAccessType=rw\nDefaultValue=$NODEID+0x40000180\nParameterValue=0x40000181\n[1800sub2]\nDataType=0x0005\nAccessType=rw\nDefaultValue=255\n[1A00]\nObjectType=0x9\nSubNumber=3\n[1A00sub0]\nDataType=0x0005\nAccessType=ro\nDefaultValue=2\n[1A00sub1]\nDataType=0x0007\nAccessType=ro\nDefaultValue=0x20000120\n[1A00sub2]\nDataType=0x0007\nAccessType=ro\nDefaultValue=0x20000220\n[2000]\nObjectType=0x8\nSubNumber=3\n[2000sub0]\nDataType=0x0005\nAccessType=ro\nDefaultValue=2\n[2000sub1]\nDataType=0x0007\nAccessType=ro\nPDOMapping=1\n[2000sub2]\nDataType=0x0007\nAccessType=ro\nPDOMapping=1\n[DeviceComissioning]\nNodeID=5\nNodeName=Valve\nBaudrate=500\n";

// A device at node 7, and one at node 5 with the same EDS file.
pub(crate) const TWO_VALVES: &[u8] =
    b"row,node,name,eds,period,jitter\ndevice,7,Other,unit.eds,0,0\ndevice,5,Valve,unit.eds,0,0\n";

#[test]
fn the_valve_has_a_dcf(rt: HostRuntime) -> Result<(), Fail> {
    let files = planned(rt.alloc(), VALVE, ONE_PDO, UNIT)?;
    let dcf = files.dcf.as_slice();
    assert!(rt; dcf.len() == 1);
    assert!(rt; dcf[0].name() == "node-005.dcf" && dcf[0].text() == VALVE_DCF);
    Ok(())
}

/// Tables and an EDS file, and the names of the DCF files.
const DCF_NAMES: &[(&[u8], &[u8], &[u8], &[&str])] = &[
    (TWO_VALVES, NO_PDO, UNIT, &["node-005.dcf", "node-007.dcf"]),
    // No rate passes.
    (ALONE, BUSY_PDO, SLOW, &[]),
];

#[test]
fn dcf_files_stand_by_rising_node(rt: HostRuntime) -> Result<(), Fail> {
    for case in DCF_NAMES {
        let (nodes, pdos, eds, names) = *case;
        let files = planned(rt.alloc(), nodes, pdos, eds)?;
        let dcf = files.dcf.as_slice();
        assert!(rt; dcf.len() == names.len());
        let mut wanted = names.iter();
        for file in dcf {
            assert!(rt; wanted.next() == Some(&file.name()));
        }
    }
    Ok(())
}

// The check of a refusal file against the valve's network.
fn checked(alloc: Global, refusals: &[u8]) -> Result<(Vec<u8>, bool), Fault> {
    let files = eds_files(alloc, UNIT)?;
    check_bytes(alloc, &all_rates(), VALVE, ONE_PDO, &files, refusals)
}

/// Refusal files, the lines of their check and whether all refusals hold.
const CHECKED: &[(&[u8], &[u8], bool)] = &[
    (VALVE_REFUSED, b"250 holds\n", true),
    (NOTHING_REFUSED, b"", true),
    (
        b"rate,pdo,what,value\n0,0,version,1\n250,1,late,0\n250,1,busy,1\n250,1,busy,5360\n250,1,queue,1040\n250,1,queue,3201\n",
        b"250 fails\n",
        false,
    ),
    (
        b"rate,pdo,what,value\n0,0,version,1\n250,1,late,0\n250,1,busy,1\n250,1,busy,5360\n250,1,queue,3",
        b"250 fails\n",
        false,
    ),
];

#[test]
fn refusals_are_checked(rt: HostRuntime) -> Result<(), Fail> {
    for case in CHECKED {
        let (refusals, text, all) = *case;
        let (lines, hold) = checked(rt.alloc(), refusals)?;
        assert!(rt; lines.as_slice() == text && hold == all);
    }
    Ok(())
}

/// Refusal files that are refused, the number and the record.
const REFUSED_FILES: &[(&[u8], u8, u64)] = &[
    (b"", 31, 0),
    (b"rate,pdo,what,value\n", 31, 1),
    (
        b"rate,pdo,what,value\n0,0,version,1\n250,1,late,0\n250,1,busy,1\n250,1,busy,5360",
        35,
        4,
    ),
];

#[test]
fn refusal_files_are_refused(rt: HostRuntime) -> Result<(), Fail> {
    for case in REFUSED_FILES {
        let (refusals, number, place) = *case;
        let found = checked(rt.alloc(), refusals);
        assert!(rt; refused(found)? == Some((number, place)));
    }
    Ok(())
}

/// A run of the valve's plan: the heartbeat, then EMCY, then the PDO, which ends at its deadline but for one tick.
pub(crate) const VALVE_TRACE: &[u8] = b"kind,moment,id,event,bits,data
queue,0,0x705,0,65,05
start,0,0x705,,,
queue,1,0x85,1,135,0000000000000000
queue,1,0x181,1,135,0000000000000000
end,520,0x705,,,
start,520,0x85,,,
end,1600,0x85,,,
start,1600,0x181,,,
end,2680,0x181,,,
until,4000,0,,,
";

#[test]
fn a_trace_of_the_valve_is_on_time(rt: HostRuntime) -> Result<(), Fail> {
    let files = eds_files(rt.alloc(), UNIT)?;
    let text = judge_bytes(
        rt.alloc(),
        VALVE,
        ONE_PDO,
        &files,
        &by(Choice::Order),
        VALVE_TRACE,
    )?;
    assert!(rt; text.as_slice() == b"transfers 3\non time\n".as_slice());
    Ok(())
}

/// Traces that are refused, the number and the place.
const BROKEN_TRACES: &[(&[u8], u8, u64)] = &[
    (b"kind\n", 69, 0),
    (
        b"kind,moment,id,event,bits,data\nqueue,0,0x705,0,65,05\n",
        69,
        2,
    ),
    (
        b"kind,moment,id,event,bits,data\nqueue,0,0x705,0,65,05\nuntil,4000,0,,,\n",
        68,
        2,
    ),
];

#[test]
fn traces_are_refused(rt: HostRuntime) -> Result<(), Fail> {
    let files = eds_files(rt.alloc(), UNIT)?;
    for case in BROKEN_TRACES {
        let (trace, number, place) = *case;
        let judged = judge_bytes(
            rt.alloc(),
            VALVE,
            ONE_PDO,
            &files,
            &by(Choice::Order),
            trace,
        );
        assert!(rt; refused(judged)? == Some((number, place)));
    }
    Ok(())
}
