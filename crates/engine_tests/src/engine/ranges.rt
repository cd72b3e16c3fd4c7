//! Plans with synchronous PDOs and over both ranges of identifiers, their refusals, their boots and their traces.

use crate::engine::{UNIT, by, eds_files, plan_of, refused};
use cop_engine::{Fault, Files, boot_bytes, check_bytes, judge_bytes};
use cop_net::all_rates;
use cop_plan::Choice;
use std::alloc::{AllocError, Global};
use std::fmt::Write;
use std::str;
use std::test::Fail;

/// The EDS file of the sample device, where its TPDO has this transmission type.
fn eds_of(alloc: Global, transmission: &str) -> Result<Vec<(String, Vec<u8>)>, Fail> {
    let text = str::from_utf8(UNIT).ok().ok_or("no text")?;
    let (before, after) = text.split_once("DefaultValue=255").ok_or("no such part")?;
    let text = format!(in alloc; "{before}DefaultValue={transmission}{after}")?;
    Ok(eds_files(alloc, text.as_bytes())?)
}

/// A network and what is said of it: its plan, its refusals, their check, and its boot.
#[derive(Drop)]
struct Row {
    transmission: &'static str,
    nodes: &'static [u8],
    pdos: &'static [u8],
    plan: &'static [u8],
    refusals: &'static [u8],
    check: &'static [u8],
    boot: &'static [u8],
}

/// A node and SYNC each 10 ms.
const SYNCED: &[u8] =
    b"row,node,name,eds,period,jitter\ndevice,5,Valve,unit.eds,0,0\nsync,0,,,10000,0\n";

/// A PDO that is sent at each SYNC within 100 us.
const AT_SYNC: &[u8] = b"node,tpdo,period,jitter,deadline,consumers\n5,1,0,100,1620,\n";

/// Two PDOs that can wait.
pub(crate) const TWO_PDOS: &[u8] =
    b"node,tpdo,period,jitter,deadline,consumers\n5,1,10000,0,10000,\n6,1,10000,0,10000,\n";

const NO_PDO: &[u8] = b"node,tpdo,period,jitter,deadline,consumers\n";

/// Two nodes, and an SDO response that does not pass at 250 kbit/s.
pub(crate) const LATE_RESPONSE: &[u8] =
    b"row,node,name,eds,period,jitter,deadline\ndevice,5,Valve,unit.eds,0,0,\ndevice,6,Pump,unit.eds,0,0,\nsdo_response,5,,,100000,0,1079\n";

/// The refusal of that rate, with those two PDOs.
pub(crate) const RESPONSE_REFUSED: &[u8] =
    b"rate,pdo,what,value\n0,0,version,2\n250,0,sdo,1413\n250,0,late,0\n250,0,busy,1\n250,0,busy,4320\n250,0,queue,2160\n";

const NOTHING_REFUSED: &[u8] = b"rate,pdo,what,value\n0,0,version,1\n";

const ROWS: &[Row] = &[
    // SYNC ends within 3,040 ticks, the PDO is queued 400 later at most, waits for the next SYNC and takes 2,160.
    Row {
        transmission: "1",
        nodes: SYNCED,
        pdos: AT_SYNC,
        plan: b"rate 250\npdo 5.1 id 181h response 6480\n",
        refusals: NOTHING_REFUSED,
        check: b"",
        boot: b"node 5 ready\nstarted\n",
    },
    Row {
        transmission: "1",
        nodes: SYNCED,
        pdos: b"node,tpdo,period,jitter,deadline,consumers\n5,1,0,100,1619,\n",
        plan: b"rate 500\npdo 5.1 id 181h response 3440\nrefused 250 members 1\n",
        refusals: b"rate,pdo,what,value\n0,0,version,1\n250,1,late,0\n250,1,busy,1\n250,1,busy,3040\n250,1,queue,0\n250,1,queue,880\n",
        check: b"250 holds\n",
        boot: b"node 5 ready\nstarted\n",
    },
    // The SDO response passes below neither PDO, and behind one of them.
    Row {
        transmission: "255",
        nodes: b"row,node,name,eds,period,jitter,deadline\ndevice,5,Valve,unit.eds,0,0,\ndevice,6,Pump,unit.eds,0,0,\nsdo_response,5,,,100000,0,1080\n",
        pdos: TWO_PDOS,
        plan: b"rate 250\npdo 5.1 id 680h response 6480\npdo 6.1 id 681h response 6480\n",
        refusals: NOTHING_REFUSED,
        check: b"",
        boot: b"node 5 ready\nnode 6 ready\nstarted\n",
    },
    Row {
        transmission: "255",
        nodes: LATE_RESPONSE,
        pdos: TWO_PDOS,
        plan: b"rate 500\npdo 5.1 id 181h response 2160\npdo 6.1 id 182h response 3240\nrefused 250 sdo 585\n",
        refusals: RESPONSE_REFUSED,
        check: b"250 holds\n",
        boot: b"node 5 ready\nnode 6 ready\nstarted\n",
    },
    // An SDO response is judged where there is no PDO, too.
    Row {
        transmission: "255",
        nodes: b"row,node,name,eds,period,jitter,deadline\ndevice,5,Valve,unit.eds,0,0,\nsdo_response,5,,,100000,0,539\n",
        pdos: NO_PDO,
        plan: b"rate 500\nrefused 250 sdo 585\n",
        refusals: b"rate,pdo,what,value\n0,0,version,2\n250,0,sdo,1413\n250,0,late,0\n250,0,busy,1\n250,0,busy,2160\n250,0,queue,0\n",
        check: b"250 holds\n",
        boot: b"node 5 ready\nstarted\n",
    },
];

/// The files of a network's plan, and the check of its refusals.
fn planned_and_checked(
    alloc: Global,
    transmission: &str,
    nodes: &[u8],
    pdos: &[u8],
) -> Result<(Files, (Vec<u8>, bool)), Fail> {
    let eds = eds_of(alloc, transmission)?;
    let files = plan_of(alloc, nodes, pdos, &eds)?;
    let check = check_bytes(alloc, &all_rates(), nodes, pdos, &eds, &files.refusals)?;
    Ok((files, check))
}

#[test]
fn synchronous_pdos_and_sdo_deadlines_are_planned(rt: HostRuntime) -> Result<(), Fail> {
    for row in ROWS {
        let (files, (lines, _)) = planned_and_checked(
            rt.alloc(),
            row.transmission,
            row.nodes,
            row.pdos,
        )?;
        assert!(rt; files.plan.as_slice() == row.plan);
        assert!(rt; files.refusals.as_slice() == row.refusals);
        assert!(rt; lines.as_slice() == row.check);
    }
    Ok(())
}

#[test]
fn their_devices_take_the_plan(rt: HostRuntime) -> Result<(), Fail> {
    for row in ROWS {
        let eds = eds_of(rt.alloc(), row.transmission)?;
        let text = boot_bytes(rt.alloc(), 1, row.nodes, row.pdos, &eds, &by(Choice::Order))?;
        assert!(rt; text.as_slice() == row.boot);
    }
    Ok(())
}

/// SYNC each 100 us.
const TOO_OFTEN: &[u8] =
    b"row,node,name,eds,period,jitter\ndevice,5,Valve,unit.eds,0,0\nsync,0,,,100,0\n";

#[test]
fn sync_past_the_horizon_is_told(rt: HostRuntime) -> Result<(), Fail> {
    let (files, (lines, hold)) = planned_and_checked(rt.alloc(), "1", TOO_OFTEN, AT_SYNC)?;
    let plan =
        b"no rate passes\nrefused 250 sync\nrefused 500 sync\nrefused 1000 members 1\n".as_slice();
    assert!(rt; !files.planned && files.plan.as_slice() == plan);
    let begin =
        b"rate,pdo,what,value\n0,0,version,2\n250,0,sync,0\n250,0,busy,1\n250,0,busy,3040\n";
    assert!(rt; files.refusals.starts_with(begin));
    assert!(rt; lines.as_slice() == b"250 holds\n500 holds\n1000 holds\n".as_slice() && hold);
    Ok(())
}

/// The nodes from 1 to some number, with an SDO response of the first with this deadline in microseconds.
fn many_nodes(alloc: Global, count: u16, deadline: u32) -> Result<String, AllocError> {
    let mut text = String::from_str(alloc, "row,node,name,eds,period,jitter,deadline\n")?;
    for node in 1..=count {
        write!(text, "device,{node},Unit,unit.eds,0,0,\n")?;
    }
    write!(text, "sdo_response,1,,,1000000,0,{deadline}\n")?;
    Ok(text)
}

/// A PDO of each node, sent each second.
fn many_pdos(alloc: Global, count: u16) -> Result<String, AllocError> {
    let mut text = String::from_str(alloc, "node,tpdo,period,jitter,deadline,consumers\n")?;
    for node in 1..=count {
        write!(text, "{node},1,1000000,0,1000000,\n")?;
    }
    Ok(text)
}

/// How many PDOs there are, the deadline of the SDO response, and how the plan begins and ends. At 250 kbit/s each frame takes
/// 540 us. The second range has room for 96.
const ROOM: &[(u16, u32, &str, &str)] = &[
    (96, 52380, "rate 250\npdo 1.1 id 181h ", "209520\n"),
    (96, 52379, "rate 250\npdo 1.1 id 680h ", "209520\n"),
    (97, 52920, "rate 250\npdo 1.1 id 181h ", "211680\n"),
    (
        97,
        52919,
        "rate 500\npdo 1.1 id 181h ",
        "refused 250 sdo 581\n",
    ),
];

/// The plan of so many PDOs, with this deadline of the SDO response.
fn plan_of_many(
    alloc: Global,
    eds: &[(String, Vec<u8>)],
    count: u16,
    deadline: u32,
) -> Result<Vec<u8>, Fault> {
    let nodes = many_nodes(alloc, count, deadline)?;
    let pdos = many_pdos(alloc, count)?;
    Ok(plan_of(alloc, nodes.as_bytes(), pdos.as_bytes(), eds)?.plan)
}

#[test]
fn the_second_range_has_room_for_96(rt: HostRuntime) -> Result<(), Fail> {
    let eds = eds_of(rt.alloc(), "255")?;
    for case in ROOM {
        let (count, deadline, begin, end) = *case;
        let plan = plan_of_many(rt.alloc(), &eds, count, deadline)?;
        assert!(rt;
            plan.starts_with(begin.as_bytes()) && plan.ends_with(end.as_bytes()),
            "{count} {deadline}"
        );
    }
    Ok(())
}

/// A SYNC of 47 bits at 250 kbit/s, where a bit takes 16 ticks: its transfer ends at 752, and the latency at 1152.
const SYNC_STEPS: &str = "kind,moment,id,event,bits,data\nqueue,0,0x80,0,47,\nstart,0,0x80,,,\n";

/// What comes after that, and the refusal with its step.
const TRACES: &[(&str, Option<(u8, u64)>)] = &[
    (
        "end,752,0x80,,,\nqueue,752,0x181,0,135,0000000000000000\nstart,752,0x181,,,\nend,2912,0x181,,,\n",
        None,
    ),
    (
        "end,752,0x80,,,\nqueue,1152,0x181,0,135,0000000000000000\nstart,1152,0x181,,,\nend,3312,0x181,,,\n",
        None,
    ),
    // a tick before SYNC has ended, and a tick after the latency
    (
        "queue,751,0x181,0,135,0000000000000000\nend,752,0x80,,,\nstart,752,0x181,,,\nend,2912,0x181,,,\n",
        Some((63, 3)),
    ),
    (
        "end,752,0x80,,,\nqueue,1153,0x181,0,135,0000000000000000\nstart,1153,0x181,,,\nend,3313,0x181,,,\n",
        Some((63, 4)),
    ),
    // two instances of one SYNC
    (
        "end,752,0x80,,,\nqueue,752,0x181,0,135,0000000000000000\nstart,752,0x181,,,\nqueue,800,0x181,0,135,0000000000000000\nend,2912,0x181,,,\n",
        Some((62, 6)),
    ),
];

/// The judgement of a trace that begins with a SYNC.
fn judged(alloc: Global, eds: &[(String, Vec<u8>)], steps: &str) -> Result<Vec<u8>, Fault> {
    let trace = format!(in alloc; "{SYNC_STEPS}{steps}until,4000,0,,,\n")?;
    judge_bytes(
        alloc,
        SYNCED,
        AT_SYNC,
        eds,
        &by(Choice::Order),
        trace.as_bytes(),
    )
}

#[test]
fn synchronous_pdos_follow_their_sync(rt: HostRuntime) -> Result<(), Fail> {
    let eds = eds_of(rt.alloc(), "1")?;
    for case in TRACES {
        let (steps, wanted) = *case;
        match wanted {
            None => {
                let text = judged(rt.alloc(), &eds, steps)?;
                assert!(rt;
                    text.as_slice() == b"transfers 2\non time\n".as_slice(),
                    "{steps}"
                );
            }
            Some(_) => assert!(rt;
                refused(judged(rt.alloc(), &eds, steps))? == wanted,
                "{steps}"
            ),
        }
    }
    Ok(())
}
