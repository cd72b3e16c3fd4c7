//! Refusals by SYNC and by SDO frames, and refusal files of version 2.

ghost use Rattle.std.specs.Prelude.{◌≤◌, ◌<◌};

use crate::plans::answer_for;
use crate::ranges::{BOTH_TOO_MANY, ONE_TOO_MANY, RATES, TOO_LATE, many, synchronous};
use crate::refusals::{BEGIN, are_written, breach, holds, joined, late_member};
use cop_cert::{
    Breach, Cause, CertFault, Evidence, Items, Member, Refusal, Rule, fail_together, is_sync_long,
    is_tested, make_for_sync, read, write,
};
use cop_frame::Rate;
use cop_plan::Outcome;
use cop_rta::{IdRange, SetFault, Stream, StreamSet, read_streams};
use std::alloc::{AllocError, Global};
use std::test::Fail;

/// SYNC's busy list at 250 kbit/s where SYNC and a PDO of 8 bytes are sent each 100 us.
const SYNC_BUSY: &[u64] = &[
    1, 3_040, 9_200, 22_400, 51_440, 115_680, 257_360, 568_880, 1_254_400, 2_761_840, 6_078_560,
    13_375_520, 29_428_480, 64_745_520,
];

fn numbers(alloc: Global, list: &[u64]) -> Result<Items<u64>, AllocError> {
    Ok(Items::from(Vec::from_slice(alloc, list)?))
}

/// A refusal by SYNC with this busy list.
fn by_sync(alloc: Global, rate: Rate, list: &[u64]) -> Result<Refusal, AllocError> {
    let busy = numbers(alloc, list)?;
    let cause = Cause::Sync { busy };
    Ok(Refusal { rate, cause })
}

/// A refusal by the first PDO alone, which is busy past the horizon, with this busy list.
fn by_first(alloc: Global, rate: Rate, list: &[u64]) -> Result<Refusal, AllocError> {
    let busy = numbers(alloc, list)?;
    let mut members = Items::new(alloc);
    members.push(Member {
        pdo: 0,
        evidence: Evidence::Long { busy },
    })?;
    let cause = Cause::Places { members };
    Ok(Refusal { rate, cause })
}

/// The refusal by SYNC, where SYNC is past the horizon.
fn made(
    alloc: Global,
    set: &StreamSet,
    pdos: usize,
    rate: Rate,
) -> Result<Option<Refusal>, AllocError> {
    if pdos > set.len() || !is_sync_long(set, pdos, rate) {
        return Ok(None);
    }
    Ok(Some(make_for_sync(alloc, set, pdos, rate)?))
}

/// The busy list of a refusal by SYNC.
fn sync_list(refusal: &Refusal) -> &[u64] {
    match &refusal.cause {
        Cause::Sync { busy } => busy.as_slice(),
        Cause::Places { .. } | Cause::Sdo { .. } => &[],
    }
}

/// Whether a refusal by SYNC is made with this busy list, and holds.
fn is_made(alloc: Global, set: &StreamSet, rate: Rate, list: &[u64]) -> Result<bool, AllocError> {
    match made(alloc, set, 1, rate)? {
        Some(refusal) => Ok(sync_list(&refusal) == list && holds(set, 1, &refusal) == Some(true)),
        None => Ok(false),
    }
}

/// Whether a refusal by SYNC is made where SYNC is sent each so many ticks.
fn is_any_made(alloc: Global, period: u64, rate: Rate) -> Result<bool, Fail>
    requires { (400 ≤ period) × (period ≤ 240000000) }
{
    let set = synchronous(alloc, period, 6_480)?;
    Ok(made(alloc, &set, 1, rate)?.is_some())
}

#[test]
fn refusals_by_sync_are_made(rt: HostRuntime) -> Result<(), Fail> {
    let set = synchronous(rt.alloc(), 400, 6_480)?;
    assert!(rt; is_made(rt.alloc(), &set, Rate::Kbit250, SYNC_BUSY)?);
    assert!(rt; is_any_made(rt.alloc(), 400, Rate::Kbit500)?);
    Ok(())
}

#[test]
fn none_is_made_where_sync_is_short(rt: HostRuntime) -> Result<(), Fail> {
    assert!(rt; !is_any_made(rt.alloc(), 400, Rate::Kbit1000)?);
    assert!(rt; !is_any_made(rt.alloc(), 40_000, Rate::Kbit250)?);
    Ok(())
}

/// Busy lists of SYNC, and whether they show that it is past the horizon.
const SYNC_LISTS: &[(&[u64], bool)] = &[
    (SYNC_BUSY, true),
    (
        &[
            1, 3_000, 9_200, 22_400, 51_440, 115_680, 257_360, 568_880, 1_254_400, 2_761_840,
            6_078_560, 13_375_520, 29_428_480, 40_000_001,
        ],
        true,
    ),
    (
        &[
            1, 3_040, 9_200, 22_400, 51_440, 115_680, 257_360, 568_880, 1_254_400, 2_761_840,
            6_078_560, 13_375_520, 29_428_480, 40_000_000,
        ],
        false,
    ),
    (
        &[
            1, 3_041, 9_200, 22_400, 51_440, 115_680, 257_360, 568_880, 1_254_400, 2_761_840,
            6_078_560, 13_375_520, 29_428_480, 64_745_520,
        ],
        false,
    ),
    (&[29_428_480, 64_745_520], false),
    (&[], false),
];

#[test]
fn busy_lists_of_sync_are_checked(rt: HostRuntime) -> Result<(), Fail> {
    let set = synchronous(rt.alloc(), 400, 6_480)?;
    for (k, case) in SYNC_LISTS.iter().enumerate() {
        let (list, wanted) = *case;
        let refusal = by_sync(rt.alloc(), Rate::Kbit250, list)?;
        assert!(rt; holds(&set, 1, &refusal) == Some(wanted), "list {k}");
    }
    Ok(())
}

/// SYNC and a PDO that are sent each 100 us, which is synchronous or not.
fn often(alloc: Global, every: u8) -> Result<StreamSet, SetFault>
    requires { every ≤ 1 }
{
    let mut set = StreamSet::new(alloc);
    for (id, bytes, every) in [(0x181, 8, every), (0x80, 0, 0)] {
        set.push(Stream {
            id,
            bytes,
            period: 400,
            jitter: 0,
            deadline: Some(6_480),
            every,
        })?;
    }
    Ok(set)
}

/// Whether the refusal by SYNC holds of them.
fn sync_is_cause(alloc: Global, set: &StreamSet) -> Result<Option<bool>, AllocError> {
    Ok(holds(set, 1, &by_sync(alloc, Rate::Kbit250, SYNC_BUSY)?))
}

/// Whether the refusal by the PDO holds of them.
fn first_is_cause(alloc: Global, set: &StreamSet) -> Result<Option<bool>, AllocError> {
    Ok(holds(set, 1, &by_first(alloc, Rate::Kbit250, SYNC_BUSY)?))
}

#[test]
fn sync_past_the_horizon_is_the_cause_where_a_pdo_is_synchronous(
    rt: HostRuntime,
) -> Result<(), Fail> {
    let set = often(rt.alloc(), 1)?;
    assert!(rt; sync_is_cause(rt.alloc(), &set)? == Some(true));
    assert!(rt; first_is_cause(rt.alloc(), &set)? == Some(false));
    Ok(())
}

#[test]
fn sync_past_the_horizon_is_no_cause_where_no_pdo_is_synchronous(
    rt: HostRuntime,
) -> Result<(), Fail> {
    let set = often(rt.alloc(), 0)?;
    assert!(rt; sync_is_cause(rt.alloc(), &set)? == Some(false));
    assert!(rt; first_is_cause(rt.alloc(), &set)? == Some(true));
    Ok(())
}

/// The refusals of an outcome.
fn refusals_of(outcome: &Outcome) -> &[Refusal] {
    match outcome {
        Outcome::Planned(plan) => plan.refusals(),
        Outcome::Refused(refusals) => refusals.as_slice(),
    }
}

fn all_hold(set: &StreamSet, pdos: usize, refusals: &[Refusal]) -> bool {
    refusals
        .iter()
        .all(|refusal| holds(set, pdos, refusal) == Some(true))
}

/// An SDO frame is late at 250 kbit/s above all PDOs.
const FRAME_AT_250: &[u8] =
    b"rate,pdo,what,value\n0,0,version,2\n250,0,sdo,1413\n250,0,late,0\n250,0,busy,1\n250,0,busy,4320\n250,0,queue,2160\n";

/// The first PDO cannot stand below the SDO frames, and below it one of them is late.
const BELOW_FIRST_AT_250: &[u8] =
    b"rate,pdo,what,value\n0,0,version,2\n250,1,uplate,0\n250,1,busy,1\n250,1,busy,6480\n250,1,queue,2160\n250,1,queue,4320\n250,0,sdo,1413\n250,0,late,0\n250,0,busy,1\n250,0,busy,6480\n250,0,queue,2160\n250,0,queue,4320\n";

/// Neither PDO can stand below the SDO frames, and below both one of them is late.
const BELOW_BOTH_AT_250: &[u8] =
    b"rate,pdo,what,value\n0,0,version,2\n250,1,uplate,0\n250,1,busy,1\n250,1,busy,8640\n250,1,queue,0\n250,1,queue,6480\n250,2,uplate,0\n250,2,busy,1\n250,2,busy,8640\n250,2,queue,0\n250,2,queue,6480\n250,0,sdo,1413\n250,0,late,0\n250,0,busy,1\n250,0,busy,8640\n250,0,queue,2160\n250,0,queue,6480\n";

/// A table whose first streams are PDOs, and the file of its plan's refusals.
const FILES: &[(&[u8], usize, &[u8])] = &[
    (TOO_LATE, 2, FRAME_AT_250),
    (ONE_TOO_MANY, 3, BELOW_FIRST_AT_250),
    (BOTH_TOO_MANY, 2, BELOW_BOTH_AT_250),
];

/// The file of the refusals that are planned for streams of which the first are PDOs.
fn file_for(alloc: Global, set: &StreamSet, pdos: usize) -> Result<Vec<u8>, Fail> {
    let (outcome, _) = answer_for(alloc, set, pdos, RATES)?;
    Ok(write(alloc, refusals_of(&outcome))?)
}

/// Whether a file has so many refusals, which all hold and are written as they were read.
fn holds_all(
    alloc: Global,
    set: &StreamSet,
    pdos: usize,
    file: &[u8],
    count: usize,
) -> Result<bool, Fail> {
    let refusals = read(alloc, file)?;
    let all_hold = refusals.len() == count && all_hold(set, pdos, &refusals);
    Ok(all_hold && are_written(alloc, &refusals, file)?)
}

#[test]
fn refusals_by_sdo_frames_are_written_and_read(rt: HostRuntime) -> Result<(), Fail> {
    for case in FILES {
        let (table, pdos, file) = *case;
        let set = read_streams(rt.alloc(), table)?;
        assert!(rt; file_for(rt.alloc(), &set, pdos)?.as_slice() == file);
        assert!(rt; holds_all(rt.alloc(), &set, pdos, file, 1)?);
    }
    Ok(())
}

/// Where a file with refusals by SYNC begins.
const SYNC_AT_250: &[u8] =
    b"rate,pdo,what,value\n0,0,version,2\n250,0,sync,0\n250,0,busy,1\n250,0,busy,3040\n250,0,busy,9200\n";

#[test]
fn refusals_by_sync_are_written_and_read(rt: HostRuntime) -> Result<(), Fail> {
    let set = synchronous(rt.alloc(), 400, 6_480)?;
    let file = file_for(rt.alloc(), &set, 1)?;
    assert!(rt; file.starts_with(SYNC_AT_250));
    assert!(rt; holds_all(rt.alloc(), &set, 1, &file, 3)?);
    Ok(())
}

/// A refusal at 250 kbit/s by an SDO frame below some PDOs, which are all late at the first instance by one and the same evidence.
fn by_frame(alloc: Global, up: &[usize], id: u16) -> Result<Refusal, AllocError> {
    let mut members = Items::new(alloc);
    for pdo in up {
        members.push(late_member(alloc, *pdo, &[1, 6_480], &[2_160, 4_320])?)?;
    }
    let frame = late_member(alloc, 0, &[1, 6_480], &[2_160, 4_320])?;
    let cause = Cause::Sdo {
        up: members,
        id,
        evidence: frame.evidence,
    };
    Ok(Refusal {
        rate: Rate::Kbit250,
        cause,
    })
}

/// The PDOs above the SDO frame, its identifier, and whether that is a refusal: the first PDO alone fails below the frame.
const BY_FRAME: &[(&[usize], u16, bool)] = &[
    (&[0], 0x585, true),
    (&[], 0x585, false),
    (&[1], 0x585, false),
    (&[0, 1], 0x585, false),
    (&[0, 0], 0x585, false),
    (&[0, 4], 0x585, false),
    (&[0], 0x605, false),
    (&[0], 0x181, false),
];

#[test]
fn members_above_an_sdo_frame_are_proved(rt: HostRuntime) -> Result<(), Fail> {
    let set = read_streams(rt.alloc(), ONE_TOO_MANY)?;
    for (k, case) in BY_FRAME.iter().enumerate() {
        let (up, id, wanted) = *case;
        let refusal = by_frame(rt.alloc(), up, id)?;
        assert!(rt; holds(&set, 3, &refusal) == Some(wanted), "case {k}");
    }
    Ok(())
}

/// PDOs of that table, the range, and whether each fails with the others above it, at 250 kbit/s.
const TOGETHER: &[(&[usize], u16, bool)] = &[
    (&[0], IdRange::SECOND.least, true),
    (&[0], IdRange::FIRST.least, false),
    (&[0, 1], IdRange::SECOND.least, false),
    (&[], IdRange::SECOND.least, true),
];

#[test]
fn pdos_fail_in_the_second_range_sooner(rt: HostRuntime) -> Result<(), Fail> {
    let set = read_streams(rt.alloc(), ONE_TOO_MANY)?;
    assert!(rt; set.len() == 4);
    for (k, case) in TOGETHER.iter().enumerate() {
        let (pdos, least, wanted) = *case;
        let found = fail_together(&set, 3, Rate::Kbit250, least, pdos);
        assert!(rt; found == wanted, "case {k}");
    }
    Ok(())
}

/// The busy list at 250 kbit/s of a frame that is sent each 100 us and waits for a PDO.
const FRAME_BUSY: &[u64] = &[
    1,
    4_320,
    25_920,
    142_560,
    773_280,
    4_179_600,
    22_572_000,
    121_890_960,
];

/// The frame's identifier, its deadline in ticks, and whether it is tested.
const FRAMES: &[(u16, Option<u64>, bool)] = &[
    (0x605, Some(4_000), true),
    (0x605, None, false),
    (0x580, Some(4_000), false),
    (0x581, Some(4_000), true),
    (0x5FF, Some(4_000), true),
    (0x600, Some(4_000), false),
    (0x601, Some(4_000), true),
    (0x67F, Some(4_000), true),
    (0x680, Some(4_000), false),
];

/// A PDO, and a frame that is sent each 100 us, of 8 bytes.
fn beside(alloc: Global, id: u16, deadline: Option<u64>) -> Result<StreamSet, Fail> {
    let mut set = StreamSet::new(alloc);
    let frame = Stream {
        id: id.min(0x7FF),
        bytes: 8,
        period: 400,
        jitter: 0,
        deadline: deadline.map(|ticks| ticks.clamp(1, 4_000)),
        every: 0,
    };
    set.push(Stream {
        id: 0x181,
        bytes: 8,
        period: 40_000,
        jitter: 0,
        deadline: Some(40_000),
        every: 0,
    })?;
    set.push(frame)?;
    Ok(set)
}

/// Whether the frame behind the PDO is tested. `None` where there are not two streams, or it is tested as a second PDO, too.
fn is_frame_tested(streams: &[Stream]) -> Option<bool> {
    if streams.len() == 2 && !is_tested(streams, 2, 1) {
        Some(is_tested(streams, 1, 1))
    } else {
        None
    }
}

/// A refusal at 250 kbit/s by this frame, which is busy past the horizon above all PDOs.
fn by_busy_frame(alloc: Global, id: u16) -> Result<Refusal, AllocError> {
    let busy = numbers(alloc, FRAME_BUSY)?;
    let cause = Cause::Sdo {
        up: Items::new(alloc),
        id,
        evidence: Evidence::Long { busy },
    };
    Ok(Refusal {
        rate: Rate::Kbit250,
        cause,
    })
}

#[test]
fn sdo_frames_with_deadlines_are_tested(rt: HostRuntime) -> Result<(), Fail> {
    for case in FRAMES {
        let (id, deadline, wanted) = *case;
        let set = beside(rt.alloc(), id, deadline)?;
        assert!(rt; is_frame_tested(set.streams()) == Some(wanted), "{id}");
        let refusal = by_busy_frame(rt.alloc(), id)?;
        assert!(rt; holds(&set, 1, &refusal) == Some(wanted), "{id}");
    }
    Ok(())
}

/// How many PDOs there are, and the evidence against an SDO frame at 1 Mbit/s: above 96 all are above it, else none.
const ABOVE: &[(u16, &[u64], &[u64])] = &[
    (96, &[1, 1_080], &[540]),
    (97, &[1, 52_920], &[0, 52_380]),
];

/// Whether no PDO is named, and the SDO frame is late by these lists.
fn is_late(refusal: &Refusal, busy: &[u64], queue: &[u64]) -> bool {
    match &refusal.cause {
        Cause::Sdo {
            up,
            id: 0x585,
            evidence: Evidence::Late {
                q: 0,
                busy: longer,
                queue: waits,
            },
        } => up.as_slice().is_empty() && longer.as_slice() == busy && waits.as_slice() == queue,
        _ => false,
    }
}

/// Whether the last of some refusals is such a one, and holds.
fn ends_late(
    set: &StreamSet,
    pdos: usize,
    refusals: &[Refusal],
    busy: &[u64],
    queue: &[u64],
) -> bool {
    match refusals {
        [.., refusal] => is_late(refusal, busy, queue) && holds(set, pdos, refusal) == Some(true),
        [] => false,
    }
}

#[test]
fn above_96_all_pdos_are_above_the_sdo_frames(rt: HostRuntime) -> Result<(), Fail> {
    for case in ABOVE {
        let (pdos, busy, queue) = *case;
        let set = many(rt.alloc(), pdos.min(512), 1_076)?;
        let pdos = usize::from(pdos);
        let (outcome, _) = answer_for(rt.alloc(), &set, pdos, &[Rate::Kbit1000])?;
        let refusals = refusals_of(&outcome);
        assert!(rt; ends_late(&set, pdos, refusals, busy, queue), "{pdos}");
    }
    Ok(())
}

/// The header and the second version.
const SECOND: &[u8] = b"rate,pdo,what,value\n0,0,version,2\n";

/// The two parts of a file, the rule that it breaks, and where.
const BROKEN: &[(&[u8], &[u8], Rule, u64)] = &[
    // numbers out of range
    (SECOND, b"250,513,uplong,0\n", Rule::Number, 2),
    (SECOND, b"250,1,uplong,1\n", Rule::Number, 2),
    (SECOND, b"250,0,sync,1\n", Rule::Number, 2),
    (SECOND, b"250,0,sdo,1408\n", Rule::Number, 2),
    (SECOND, b"250,0,sdo,1536\n", Rule::Number, 2),
    (SECOND, b"250,0,sdo,1664\n", Rule::Number, 2),
    (SECOND, b"250,0,sdo,66949\n", Rule::Number, 2),
    (BEGIN, b"250,0,sync,0\n", Rule::Number, 2),
    // a second cause at one rate, or a lower rate
    (
        SECOND,
        b"250,0,sync,0\n250,0,busy,1\n125,0,sync,0\n",
        Rule::Rates,
        4,
    ),
    (
        SECOND,
        b"250,0,sync,0\n250,0,busy,1\n250,1,long,0\n",
        Rule::Rates,
        4,
    ),
    (
        SECOND,
        b"250,1,long,0\n250,1,busy,1\n250,0,sync,0\n",
        Rule::Rates,
        4,
    ),
    (
        SECOND,
        b"250,1,long,0\n250,1,busy,1\n250,2,uplong,0\n",
        Rule::Rates,
        4,
    ),
    (
        SECOND,
        b"250,1,long,0\n250,1,busy,1\n250,0,sdo,1413\n",
        Rule::Rates,
        4,
    ),
    (
        SECOND,
        b"250,0,sdo,1413\n250,0,long,0\n250,0,busy,1\n250,0,sdo,1414\n",
        Rule::Rates,
        5,
    ),
    (
        SECOND,
        b"250,2,uplong,0\n250,2,busy,1\n250,1,uplong,0\n",
        Rule::Members,
        4,
    ),
    // the first version has no words for other causes
    (BEGIN, b"250,1,uplong,0\n", Rule::Misplaced, 2),
    (BEGIN, b"250,1,uplate,0\n", Rule::Misplaced, 2),
    (BEGIN, b"250,1,sync,0\n", Rule::Misplaced, 2),
    (BEGIN, b"250,1,sdo,1413\n", Rule::Misplaced, 2),
    // words at numbers where they may not stand
    (SECOND, b"250,1,sync,0\n", Rule::Misplaced, 2),
    (SECOND, b"250,1,sdo,1413\n", Rule::Misplaced, 2),
    (SECOND, b"250,0,uplong,0\n", Rule::Misplaced, 2),
    (SECOND, b"250,0,uplate,0\n", Rule::Misplaced, 2),
    (SECOND, b"250,0,long,0\n", Rule::Misplaced, 2),
    (SECOND, b"250,0,busy,1\n", Rule::Misplaced, 2),
    (SECOND, b"250,0,sync,0\n250,0,queue,1\n", Rule::Misplaced, 3),
    (SECOND, b"250,0,sync,0\n250,0,long,0\n", Rule::Misplaced, 3),
    (SECOND, b"250,0,sync,0\n250,1,busy,1\n", Rule::Misplaced, 3),
    (
        SECOND,
        b"250,0,sdo,1413\n250,0,busy,1\n",
        Rule::Misplaced,
        3,
    ),
    (
        SECOND,
        b"250,0,sdo,1413\n500,0,long,0\n",
        Rule::Misplaced,
        3,
    ),
    (
        SECOND,
        b"250,0,sdo,1413\n250,1,long,0\n",
        Rule::Misplaced,
        3,
    ),
    // parts that are missing
    (SECOND, b"250,0,sync,0\n", Rule::Misplaced, 2),
    (SECOND, b"250,0,sync,0\n500,0,sync,0\n", Rule::Misplaced, 3),
    (SECOND, b"250,0,sdo,1413\n", Rule::Misplaced, 2),
    (
        SECOND,
        b"250,0,sdo,1413\n250,0,long,0\n",
        Rule::Misplaced,
        3,
    ),
    (
        SECOND,
        b"250,1,uplong,0\n250,1,busy,1\n",
        Rule::Misplaced,
        3,
    ),
    (
        SECOND,
        b"250,1,uplong,0\n250,1,busy,1\n250,2,long,0\n",
        Rule::Misplaced,
        4,
    ),
    (
        SECOND,
        b"250,1,uplong,0\n250,0,sdo,1413\n",
        Rule::Misplaced,
        3,
    ),
    (
        SECOND,
        b"250,1,uplong,0\n250,1,busy,1\n500,1,long,0\n",
        Rule::Misplaced,
        4,
    ),
];

/// The rule that the file with both PDOs breaks, and where, if it ends after so many records. The first record is the version, and the last two
/// are the numbers of a queue list, of which one is enough.
fn breach_after(records: usize) -> Option<Breach> {
    match records {
        0 => Some(Breach {
            rule: Rule::Version,
            place: 1,
        }),
        2..=15 => Some(Breach {
            rule: Rule::Misplaced,
            place: records as u64,
        }),
        _ => None,
    }
}

/// How many records a text has that ends before a line feed.
fn records_in(text: &[u8]) -> usize {
    text.iter().filter(|byte| **byte == b'\n').count()
}

#[test]
fn a_file_that_ends_within_a_refusal_is_refused(rt: HostRuntime) -> Result<(), CertFault> {
    let file = BELOW_BOTH_AT_250;
    for length in 0..file.len() {
        if file[length] == b'\n' {
            let cut = &file[..length];
            let found = breach(rt.alloc(), cut)?;
            assert!(rt; found == breach_after(records_in(cut)), "{length}");
        }
    }
    Ok(())
}

#[test]
fn broken_files_of_both_versions_are_refused(rt: HostRuntime) -> Result<(), CertFault> {
    for (k, case) in BROKEN.iter().enumerate() {
        let (begin, end, rule, place) = *case;
        let text = joined(rt.alloc(), begin, end)?;
        let found = breach(rt.alloc(), &text)?;
        assert!(rt; found == Some(Breach { rule, place }), "file {k}");
    }
    Ok(())
}
