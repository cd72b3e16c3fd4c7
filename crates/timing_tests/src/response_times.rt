ghost use Rattle.std.specs.Prelude.{◌<◌, ◌≤◌};
ghost use Rattle.std.specs.Option.{ForSome};

use cop_frame::Rate;
use cop_rta::{
    Busy, HORIZON, Search, SetFault, Stream, StreamSet, TableFault, Verdict, least, read_streams,
    seek_least, sync_response, verdict, verdicts_by_id,
};
use std::alloc::{AllocError, Global};
use std::test::Fail;

/// The set of these streams.
fn set_of(alloc: Global, streams: &[Stream]) -> Result<StreamSet, SetFault> {
    let mut set = StreamSet::new(alloc);
    for stream in streams {
        set.push(*stream)?;
    }
    Ok(set)
}

/// Whether the verdict on the stream at an index is the one that is wanted.
fn is_judged(set: &StreamSet, above: &[bool], index: usize, rate: Rate, wanted: Verdict) -> bool {
    above.len() == set.len() && index < set.len() && verdict(set, above, index, rate) == wanted
}

/// A PDO of 7 bytes without jitter, with its period and deadline in ticks.
fn pdo(id: u16, period: u64, deadline: u64) -> Stream
    requires id { id < 2048 }
    requires period { (400 ≤ period) × (period ≤ 240000000) }
    requires deadline { (1 ≤ deadline) × (deadline ≤ 240000000) }
{
    Stream {
        id,
        bytes: 7,
        period,
        jitter: 0,
        deadline: Some(deadline),
        every: 0,
    }
}

/// A stream of 8 bytes, with its period, jitter and deadline in ticks.
fn alone(period: u64, jitter: u64, deadline: u64) -> Stream
    requires period { (400 ≤ period) × (period ≤ 240000000) }
    requires jitter { jitter ≤ 240000000 }
    requires deadline { (1 ≤ deadline) × (deadline ≤ 240000000) }
{
    Stream {
        id: 0x181,
        bytes: 8,
        period,
        jitter,
        deadline: Some(deadline),
        every: 0,
    }
}

/// A stream of 8 bytes every 400 ticks without jitter or deadline.
fn frequent() -> Stream {
    Stream {
        id: 0x181,
        bytes: 8,
        period: 400,
        jitter: 0,
        deadline: None,
        every: 0,
    }
}

/// SYNC with its deadline in ticks, and a PDO that is sent at each SYNC within a latency of 400 ticks, with its deadline.
fn synchronous(sync_deadline: Option<u64>, deadline: u64) -> [Stream; 2]
    requires sync { ForSome sync_deadline (λ d. (1 ≤ d) × (d ≤ 240000000)) }
    requires deadline { (1 ≤ deadline) × (deadline ≤ 240000000) }
{
    let sync = Stream {
        id: 0x80,
        bytes: 0,
        period: 40_000,
        jitter: 0,
        deadline: sync_deadline,
        every: 0,
    };
    let pdo = Stream {
        id: 0x181,
        bytes: 8,
        period: 40_000,
        jitter: 400,
        deadline: Some(deadline),
        every: 1,
    };
    [sync, pdo]
}

const FIRST: Verdict = Verdict::Pass { response: 8000 };

const SECOND: Verdict = Verdict::Pass { response: 12_000 };

const THIRD: Verdict = Verdict::Late {
    q: 1,
    response: 14_000,
};

#[test]
fn three_streams(rt: HostRuntime) -> Result<(), SetFault> {
    let streams = [
        pdo(0x181, 10_000, 10_000),
        pdo(0x182, 14_000, 13_000),
        pdo(0x183, 14_000, 13_000),
    ];
    let set = set_of(rt.alloc(), &streams)?;
    let rate = Rate::Kbit125;
    assert!(rt; is_judged(&set, &[false, false, false], 0, rate, FIRST));
    assert!(rt; is_judged(&set, &[true, false, false], 1, rate, SECOND));
    assert!(rt; is_judged(&set, &[true, true, false], 2, rate, THIRD));
    Ok(())
}

#[test]
fn three_streams_at_once(rt: HostRuntime) -> Result<(), TableFault> {
    let table: &[u8] =
        b"id,bytes,period,jitter,deadline\n0x183,7,3500,0,3250\n0x181,7,2500,0,2500\n0x182,7,3500,0,3250\n";
    let set = read_streams(rt.alloc(), table)?;
    let verdicts = verdicts_by_id(rt.alloc(), &set, Rate::Kbit125)?;
    assert!(rt; verdicts.as_slice() == [THIRD, FIRST, SECOND].as_slice());
    Ok(())
}

#[test]
fn one_synchronous_stream(rt: HostRuntime) -> Result<(), Fail> {
    // SYNC waits for the PDO and is sent, 135 and 55 bits; the PDO is queued 400 ticks later, and SYNC is sent before it
    let pass = Verdict::Pass { response: 6480 };
    let late = Verdict::Late {
        q: 0,
        response: 6480,
    };
    let sync = Verdict::Pass { response: 3040 };
    let sync_late = Verdict::Late {
        q: 0,
        response: 3040,
    };
    // SYNC and the PDO, and the verdicts at 250 kbit/s: the PDO's jitter stands on SYNC's response, not on its verdict
    let cases: &[([Stream; 2], [Verdict; 2])] = &[
        (synchronous(None, 6480), [sync, pass]),
        (synchronous(None, 6476), [sync, late]),
        (synchronous(Some(3036), 6480), [sync_late, pass]),
    ];
    for case in cases {
        let (streams, wanted) = *case;
        let set = set_of(rt.alloc(), &streams)?;
        let verdicts = verdicts_by_id(rt.alloc(), &set, Rate::Kbit250)?;
        assert!(rt; verdicts.as_slice() == wanted.as_slice());
        assert!(rt; is_judged(&set, &[true, false], 1, Rate::Kbit250, wanted[1]));
    }
    Ok(())
}

#[test]
fn sync_responds_sooner_at_a_faster_rate(rt: HostRuntime) -> Result<(), Fail> {
    let set = set_of(rt.alloc(), &synchronous(None, 6480))?;
    assert!(rt; sync_response(&set, Rate::Kbit250) == Some(3040));
    assert!(rt; sync_response(&set, Rate::Kbit500) == Some(1520));
    let faster = Verdict::Pass { response: 3440 };
    assert!(rt; is_judged(&set, &[true, false], 1, Rate::Kbit500, faster));
    Ok(())
}

#[test]
fn one_stream(rt: HostRuntime) -> Result<(), Fail> {
    // a stream that is alone on the bus, the rate, and the verdict
    let cases: &[(Stream, Rate, Verdict)] = &[
        (
            alone(4000, 10_000, 10_540),
            Rate::Kbit1000,
            Verdict::Pass { response: 10_540 },
        ),
        (alone(53_996, 0, 54_000), Rate::Kbit10, Verdict::Long),
        (
            alone(54_000, 0, 54_000),
            Rate::Kbit10,
            Verdict::Pass { response: 54_000 },
        ),
        (frequent(), Rate::Kbit1000, Verdict::Long),
    ];
    for case in cases {
        let (stream, rate, wanted) = *case;
        let period = stream.period;
        let set = set_of(rt.alloc(), &[stream])?;
        assert!(rt; is_judged(&set, &[false], 0, rate, wanted), "at {period}");
        let verdicts = verdicts_by_id(rt.alloc(), &set, rate)?;
        assert!(rt; verdicts.as_slice() == [wanted].as_slice(), "at {period}");
    }
    Ok(())
}

const THREE_TABLE: &[u8] =
    b"id,bytes,period,jitter,deadline\n0x181,7,2500,0,2500\n0x182,7,3500,0,3250\n0x183,7,3500,0,3250\n";

/// A stream whose jitter is above its period.
const MUCH_JITTER: &[u8] = b"id,bytes,period,jitter,deadline\n0x181,8,1000,2500,2635\n";

#[test]
fn the_third_stream_is_busy_and_waits(rt: HostRuntime) -> Result<(), TableFault> {
    let three = read_streams(rt.alloc(), THREE_TABLE)?;
    assert!(rt; three.len() == 3);
    let busy = Busy::new(&three, &[true, true, false], 2, Rate::Kbit125);
    assert!(rt; busy.time() == Some(28_000));
    assert!(rt; least(&busy.queueing(1), 0, HORIZON) == Some(24_000));
    Ok(())
}

#[test]
fn a_stream_beside_another_has_its_busy_time(rt: HostRuntime) -> Result<(), TableFault> {
    let three = read_streams(rt.alloc(), THREE_TABLE)?;
    assert!(rt; three.len() == 3);
    let second = Busy::new(&three, &[true, true, false], 0, Rate::Kbit125).beside(1);
    assert!(rt; second.stream().id == 0x182);
    assert!(rt; second.time() == Some(20_000));
    assert!(rt; least(&second.queueing(0), 0, HORIZON) == Some(8000));
    Ok(())
}

/// An instance of the stream with much jitter, its wait and its response, in ticks.
const INSTANCES: &[(u64, u64, u128)] = &[(0, 0, 10_540), (1, 540, 7080), (2, 1080, 3620)];

#[test]
fn busy_times_and_waits_with_much_jitter(rt: HostRuntime) -> Result<(), TableFault> {
    let one = read_streams(rt.alloc(), MUCH_JITTER)?;
    assert!(rt; one.len() == 1);
    let busy = Busy::new(&one, &[false], 0, Rate::Kbit1000);
    assert!(rt; busy.time() == Some(1620));
    for case in INSTANCES {
        let (instance, wait, _) = *case;
        assert!(rt;
            least(&busy.queueing(instance), 0, HORIZON) == Some(wait),
            "{instance}"
        );
    }
    Ok(())
}

#[test]
fn instances_and_responses(rt: HostRuntime) -> Result<(), TableFault> {
    let one = read_streams(rt.alloc(), MUCH_JITTER)?;
    assert!(rt; one.len() == 1);
    let busy = Busy::new(&one, &[false], 0, Rate::Kbit1000);
    assert!(rt; busy.instances(1620) == 3);
    for case in INSTANCES {
        let (instance, wait, response) = *case;
        assert!(rt; busy.response(instance, wait) == response, "{instance}");
    }
    Ok(())
}

/// A limit in ticks, and the wait that is found within it.
const LIMITS: &[(u64, Option<u64>)] = &[(HORIZON, Some(24_000)), (23_999, None)];

#[test]
fn steps_of_a_search(rt: HostRuntime) -> Result<(), TableFault> {
    let three = read_streams(rt.alloc(), THREE_TABLE)?;
    assert!(rt; three.len() == 3);
    let busy = Busy::new(&three, &[true, true, false], 2, Rate::Kbit125);
    let queueing = busy.queueing(1);
    // from 0 by 12,000, 16,000 and 20,000
    for case in LIMITS {
        let (limit, solution) = *case;
        let search = seek_least(&queueing, 0, limit);
        assert!(rt; search == Search { solution, steps: 4 }, "to {limit}");
    }
    Ok(())
}

#[test]
fn repeated(rt: HostRuntime) -> Result<(), SetFault> {
    let stream = frequent();
    let mut set = set_of(rt.alloc(), &[stream])?;
    assert!(rt; set.push(stream) == Err(SetFault::Repeated));
    assert!(rt; set.streams() == [stream].as_slice());
    Ok(())
}

/// Tables, the number of the rule that each breaks, and the record.
const BROKEN: &[(&[u8], u8, u64)] = &[
    (b"", 1, 0),
    (b"id,bytes,period,jitter\n", 1, 0),
    (b"id,bytes,period,jitter,deadline\n1,8,100,0\n", 2, 1),
    (
        b"id,bytes,period,jitter,deadline\n1,8,100,0,\n0x800,8,10O,0,\n",
        3,
        2,
    ),
    (b"id,bytes,period,jitter,deadline\n1,8,99,0,\n", 4, 1),
    (b"id,bytes,period,jitter,deadline\n1,8,100,0,0\n", 4, 1),
    (
        b"id,bytes,period,jitter,deadline\n1,8,100,0,\n\n0x1,8,100,0,\n",
        5,
        2,
    ),
];

/// The number of the rule that a table breaks, and the record.
fn refusal(alloc: Global, table: &[u8]) -> Result<Option<(u8, u64)>, TableFault> {
    match read_streams(alloc, table) {
        Ok(_) => Ok(None),
        Err(TableFault::Refused(refusal)) => Ok(Some((refusal.rule.number(), refusal.place))),
        Err(TableFault::Memory) => Err(TableFault::Memory),
    }
}

#[test]
fn tables_are_read(rt: HostRuntime) -> Result<(), TableFault> {
    for case in BROKEN {
        let (table, number, place) = *case;
        let found = refusal(rt.alloc(), table)?;
        assert!(rt; found == Some((number, place)), "rule {number} at {place}");
    }
    Ok(())
}

/// Whether a fault is printed so.
fn is_printed(alloc: Global, fault: &TableFault, wanted: &str) -> Result<bool, AllocError> {
    Ok(format!(in alloc; "{fault}")?.as_str() == wanted)
}

#[test]
fn faults_of_tables_are_printed(rt: HostRuntime) -> Result<(), AllocError> {
    match read_streams(
        rt.alloc(),
        b"id,bytes,period,jitter,deadline\n1,8,100,0,\n2,8,99,0,\n",
    ) {
        Ok(_) => assert!(rt; false),
        Err(TableFault::Memory) => return Err(AllocError),
        Err(fault) => assert!(rt; is_printed(rt.alloc(), &fault, "refused at record 2")?),
    }
    assert!(rt; is_printed(rt.alloc(), &TableFault::Memory, "out of memory")?);
    Ok(())
}
