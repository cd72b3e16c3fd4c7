ghost use Rattle.std.specs.Prelude.{◌≤◌, ◌<◌};

use cop_cert::{
    Breach, Cause, CertFault, Evidence, Items, Member, Refusal, Rule, check, fail_together,
    is_sync_long, make, read, write,
};
use cop_frame::Rate;
use cop_rta::{IdRange, SetFault, Stream, StreamSet};
use std::alloc::{AllocError, Global};
use std::test::Fail;

/// The set of these streams.
fn set_of(alloc: Global, streams: &[Stream]) -> Result<StreamSet, SetFault> {
    let mut set = StreamSet::new(alloc);
    for stream in streams {
        set.push(*stream)?;
    }
    Ok(set)
}

/// One PDO of 8 bytes without jitter.
fn one_pdo(alloc: Global, period: u64, deadline: u64) -> Result<StreamSet, SetFault>
    requires period { (400 ≤ period) × (period ≤ 240000000) }
    requires deadline { (1 ≤ deadline) × (deadline ≤ 240000000) }
{
    let pdo = Stream {
        id: 0x181,
        bytes: 8,
        period,
        jitter: 0,
        deadline: Some(deadline),
        every: 0,
    };
    set_of(alloc, &[pdo])
}

/// A PDO of 8 bytes every 10 ms within 670 us, an emergency frame and a heartbeat every 100 ms.
fn valve(alloc: Global) -> Result<StreamSet, SetFault> {
    let pdo = Stream {
        id: 0x181,
        bytes: 8,
        period: 40_000,
        jitter: 0,
        deadline: Some(2_680),
        every: 0,
    };
    let emergency = Stream {
        id: 0x085,
        bytes: 8,
        period: 400_000,
        jitter: 0,
        deadline: None,
        every: 0,
    };
    let heartbeat = Stream {
        id: 0x705,
        bytes: 1,
        period: 400_000,
        jitter: 0,
        deadline: None,
        every: 0,
    };
    set_of(alloc, &[pdo, emergency, heartbeat])
}

/// A PDO of 8 bytes every 10 ms within 150 us.
fn soon(id: u16) -> Stream
    requires { id < 2048 }
{
    Stream {
        id,
        bytes: 8,
        period: 40_000,
        jitter: 0,
        deadline: Some(600),
        every: 0,
    }
}

/// Two PDOs of 8 bytes every 10 ms within 150 us.
fn two_pdos(alloc: Global) -> Result<StreamSet, SetFault> {
    set_of(alloc, &[soon(0x181), soon(0x182)])
}

/// A member that is late at instance 0.
pub(crate) fn late_member(
    alloc: Global,
    pdo: usize,
    busy: &[u64],
    queue: &[u64],
) -> Result<Member, AllocError> {
    let evidence = Evidence::Late {
        q: 0,
        busy: Items::from(Vec::from_slice(alloc, busy)?),
        queue: Items::from(Vec::from_slice(alloc, queue)?),
    };
    Ok(Member { pdo, evidence })
}

fn late(alloc: Global, rate: Rate, busy: &[u64], queue: &[u64]) -> Result<Refusal, AllocError> {
    let mut members = Items::new(alloc);
    members.push(late_member(alloc, 0, busy, queue)?)?;
    let cause = Cause::Places { members };
    Ok(Refusal { rate, cause })
}

/// Two members that are late at instance 0, with a busy list each.
fn late_both(alloc: Global, first: &[u64], second: &[u64]) -> Result<Refusal, AllocError> {
    let mut members = Items::new(alloc);
    members.push(late_member(alloc, 0, first, &[0, 540])?)?;
    members.push(late_member(alloc, 1, second, &[0, 540])?)?;
    let cause = Cause::Places { members };
    Ok(Refusal {
        rate: Rate::Kbit1000,
        cause,
    })
}

/// Whether a refusal holds for the first streams. `None` where there are not as many.
pub(crate) fn holds(set: &StreamSet, pdos: usize, refusal: &Refusal) -> Option<bool> {
    if pdos <= set.len() {
        Some(check(set, pdos, refusal))
    } else {
        None
    }
}

/// Where the busy list ends, the wait, and whether the valve's PDO is so late at 250 kbit/s.
const LATE_AT_250: &[(u64, u64, bool)] = &[
    (5_360, 3_200, true),
    (5_360, 3_201, false),
    (5_361, 3_200, false),
];

#[test]
fn valve_at_250(rt: HostRuntime) -> Result<(), Fail> {
    let set = valve(rt.alloc())?;
    for case in LATE_AT_250 {
        let (busy, wait, wanted) = *case;
        let refusal = late(rt.alloc(), Rate::Kbit250, &[1, busy], &[1_040, wait])?;
        assert!(rt; holds(&set, 1, &refusal) == Some(wanted), "{busy} {wait}");
    }
    Ok(())
}

#[test]
fn no_members_do_not_hold(rt: HostRuntime) -> Result<(), SetFault> {
    let set = valve(rt.alloc())?;
    let members = Items::new(rt.alloc());
    let empty = Refusal {
        rate: Rate::Kbit250,
        cause: Cause::Places { members },
    };
    assert!(rt; holds(&set, 1, &empty) == Some(false));
    Ok(())
}

/// Whether the refusal at 125 kbit/s holds for one PDO of this deadline in ticks.
fn holds_at_125(alloc: Global, deadline: u64) -> Result<Option<bool>, Fail>
    requires { (1 ≤ deadline) × (deadline ≤ 240000000) }
{
    let set = one_pdo(alloc, 4_320, deadline)?;
    let refusal = late(alloc, Rate::Kbit125, &[1, 4_320], &[0])?;
    Ok(holds(&set, 1, &refusal))
}

#[test]
fn one_pdo_past_the_deadline(rt: HostRuntime) -> Result<(), Fail> {
    assert!(rt; holds_at_125(rt.alloc(), 4_316)? == Some(true));
    assert!(rt; holds_at_125(rt.alloc(), 4_320)? == Some(false));
    Ok(())
}

/// The refusal of all PDOs, where they fail together.
fn made(
    alloc: Global,
    set: &StreamSet,
    pdos: usize,
    rate: Rate,
    members: &[usize],
) -> Result<Option<Refusal>, AllocError> {
    if pdos > set.len() || members.is_empty() || is_sync_long(set, pdos, rate) {
        return Ok(None);
    }
    if !fail_together(set, pdos, rate, IdRange::FIRST.least, members) {
        return Ok(None);
    }
    Ok(Some(make(alloc, set, pdos, rate, members)?))
}

/// The members of a refusal by places.
fn members_of(refusal: &Refusal) -> &[Member] {
    match &refusal.cause {
        Cause::Places { members } => members.as_slice(),
        Cause::Sync { .. } | Cause::Sdo { .. } => &[],
    }
}

/// Whether the first member is late at instance 0 with these lists.
fn is_late(refusal: &Refusal, busy: &[u64], queue: &[u64]) -> bool {
    match members_of(refusal) {
        [member] => match &member.evidence {
            Evidence::Late {
                q: 0,
                busy: first,
                queue: second,
            } => member.pdo == 0 && first.as_slice() == busy && second.as_slice() == queue,
            _ => false,
        },
        _ => false,
    }
}

/// Whether the refusal of the first PDO is made with these lists, and holds.
fn is_made(
    alloc: Global,
    set: &StreamSet,
    rate: Rate,
    busy: &[u64],
    queue: &[u64],
) -> Result<bool, AllocError> {
    match made(alloc, set, 1, rate, &[0])? {
        Some(refusal) => {
            Ok(is_late(&refusal, busy, queue) && holds(set, 1, &refusal) == Some(true))
        }
        None => Ok(false),
    }
}

#[test]
fn chains_are_made(rt: HostRuntime) -> Result<(), Fail> {
    let set = valve(rt.alloc())?;
    assert!(rt;
        is_made(
            rt.alloc(),
            &set,
            Rate::Kbit250,
            &[1, 5_360],
            &[1_040, 3_200]
        )?
    );
    assert!(rt; made(rt.alloc(), &set, 1, Rate::Kbit500, &[0])?.is_none());
    Ok(())
}

#[test]
fn a_chain_of_one_wait_is_made(rt: HostRuntime) -> Result<(), Fail> {
    let set = one_pdo(rt.alloc(), 4_320, 4_316)?;
    assert!(rt; is_made(rt.alloc(), &set, Rate::Kbit125, &[1, 4_320], &[0])?);
    Ok(())
}

/// Where the busy lists of two members end, and whether both may end there.
const BUSY_ENDS: &[(u64, u64, bool)] = &[
    (1_080, 1_080, true),
    (1_080, 540, true),
    (1_080, 1_081, false),
    (1_081, 1_080, false),
    (1_081, 1_081, false),
];

/// Whether a member is late with this busy list.
fn has_busy_list(member: &Member, wanted: &[u64]) -> bool {
    match &member.evidence {
        Evidence::Late { busy, .. } => busy.as_slice() == wanted,
        Evidence::Long { .. } => false,
    }
}

/// Whether there are two members, each with this busy list.
fn have_busy_list(refusal: &Refusal, wanted: &[u64]) -> bool {
    match members_of(refusal) {
        [first, second] => has_busy_list(first, wanted) && has_busy_list(second, wanted),
        _ => false,
    }
}

#[test]
fn members_have_one_busy_list(rt: HostRuntime) -> Result<(), Fail> {
    let set = two_pdos(rt.alloc())?;
    match made(rt.alloc(), &set, 2, Rate::Kbit1000, &[0, 1])? {
        Some(refusal) => {
            assert!(rt; holds(&set, 2, &refusal) == Some(true));
            assert!(rt; have_busy_list(&refusal, &[1, 1_080]));
        }
        None => assert!(rt; false),
    }
    Ok(())
}

#[test]
fn members_have_busy_lists_of_their_own(rt: HostRuntime) -> Result<(), Fail> {
    let set = two_pdos(rt.alloc())?;
    for case in BUSY_ENDS {
        let (first, second, wanted) = *case;
        let refusal = late_both(rt.alloc(), &[1, first], &[1, second])?;
        assert!(rt;
            holds(&set, 2, &refusal) == Some(wanted),
            "{first} {second}"
        );
    }
    Ok(())
}

/// The busy list of the first member, where it is long.
fn long_list(refusal: &Refusal) -> &[u64] {
    match members_of(refusal) {
        [member] => match &member.evidence {
            Evidence::Long { busy } => busy.as_slice(),
            Evidence::Late { .. } => &[],
        },
        _ => &[],
    }
}

/// Whether these are the multiples of a period, from the period itself on.
fn are_multiples(numbers: &[u64], period: u64) -> bool {
    let mut last = 0u64;
    for number in numbers {
        if last.checked_add(period) != Some(*number) {
            return false;
        }
        last = *number;
    }
    true
}

/// Whether a busy list goes from 1 to 40,014,000 by the multiples of 54,000.
fn goes_on_for_ten_seconds(busy: &[u64]) -> bool {
    match busy {
        [1, rest @ ..] => {
            busy.len() == 742 && busy.last() == Some(&40_014_000) && are_multiples(rest, 54_000)
        }
        _ => false,
    }
}

#[test]
fn busy_for_ten_seconds(rt: HostRuntime) -> Result<(), Fail> {
    let set = one_pdo(rt.alloc(), 53_996, 54_000)?;
    match made(rt.alloc(), &set, 1, Rate::Kbit10, &[0])? {
        Some(refusal) => {
            assert!(rt; holds(&set, 1, &refusal) == Some(true));
            assert!(rt; goes_on_for_ten_seconds(long_list(&refusal)));
        }
        None => assert!(rt; false),
    }
    Ok(())
}

#[test]
fn busy_for_one_frame(rt: HostRuntime) -> Result<(), Fail> {
    let set = one_pdo(rt.alloc(), 54_000, 54_000)?;
    assert!(rt; made(rt.alloc(), &set, 1, Rate::Kbit10, &[0])?.is_none());
    Ok(())
}

/// The header and the version.
pub(crate) const BEGIN: &[u8] = b"rate,pdo,what,value\n0,0,version,1\n";

/// The refusal of the valve at 250 kbit/s.
const VALVE_AT_250: &[u8] =
    b"rate,pdo,what,value\n0,0,version,1\n250,1,late,0\n250,1,busy,1\n250,1,busy,5360\n250,1,queue,1040\n250,1,queue,3200\n";

/// Whether these refusals are written so.
pub(crate) fn are_written(
    alloc: Global,
    refusals: &[Refusal],
    wanted: &[u8],
) -> Result<bool, AllocError> {
    Ok(write(alloc, refusals)?.as_slice() == wanted)
}

#[test]
fn refusals_are_written(rt: HostRuntime) -> Result<(), Fail> {
    let set = valve(rt.alloc())?;
    match made(rt.alloc(), &set, 1, Rate::Kbit250, &[0])? {
        Some(refusal) => assert!(rt; are_written(rt.alloc(), &[refusal], VALVE_AT_250)?),
        None => assert!(rt; false),
    }
    Ok(())
}

#[test]
fn refusals_are_read(rt: HostRuntime) -> Result<(), Fail> {
    let set = valve(rt.alloc())?;
    let refusals = read(rt.alloc(), VALVE_AT_250)?;
    assert!(rt; are_written(rt.alloc(), &refusals, VALVE_AT_250)?);
    match refusals.as_slice() {
        [refusal] => assert!(rt; holds(&set, 1, refusal) == Some(true)),
        _ => assert!(rt; false),
    }
    Ok(())
}

#[test]
fn no_refusals_are_a_header(rt: HostRuntime) -> Result<(), CertFault> {
    assert!(rt; are_written(rt.alloc(), &[], BEGIN)?);
    assert!(rt; read(rt.alloc(), BEGIN)?.is_empty());
    Ok(())
}

/// The two parts of a file, the rule that it breaks, and where.
const BROKEN: &[(&[u8], &[u8], Rule, u64)] = &[
    (b"", b"", Rule::Version, 0),
    (b"rate,pdo,what\n0,0,version,1\n", b"", Rule::Version, 0),
    (b"rate,pdo,what,value\n", b"", Rule::Version, 1),
    (b"rate,pdo,what,value\n0,0,version\n", b"", Rule::Fields, 1),
    (
        b"rate,pdo,what,value\n0,0,version,4\n",
        b"",
        Rule::Version,
        1,
    ),
    (BEGIN, b"250,1,late\n", Rule::Fields, 2),
    (BEGIN, b"251,1,late,0\n", Rule::Number, 2),
    (BEGIN, b"250,0,late,0\n", Rule::Number, 2),
    (BEGIN, b"250,513,late,0\n", Rule::Number, 2),
    (BEGIN, b"250,1,late,18446744073709551616\n", Rule::Number, 2),
    (BEGIN, b"250,1,long,1\n", Rule::Number, 2),
    (
        BEGIN,
        b"250,1,long,0\n250,1,busy,1\n125,1,long,0\n",
        Rule::Rates,
        4,
    ),
    (
        BEGIN,
        b"250,1,long,0\n250,1,busy,1\n250,1,long,0\n",
        Rule::Members,
        4,
    ),
    (BEGIN, b"250,1,wide,0\n", Rule::Misplaced, 2),
    (BEGIN, b"250,1,busy,1\n", Rule::Misplaced, 2),
    (BEGIN, b"250,1,long,0\n250,2,busy,1\n", Rule::Misplaced, 3),
    (BEGIN, b"250,1,late,0\n250,1,queue,1\n", Rule::Misplaced, 3),
    (BEGIN, b"250,1,long,0\n250,2,long,0\n", Rule::Misplaced, 3),
    (BEGIN, b"250,1,late,0\n250,1,busy,1\n", Rule::Misplaced, 3),
    (
        BEGIN,
        b"250,1,late,0\n250,1,busy,1\n250,1,queue,0\n250,1,busy,9\n",
        Rule::Misplaced,
        5,
    ),
];

/// Two texts in one.
pub(crate) fn joined(alloc: Global, begin: &[u8], end: &[u8]) -> Result<Vec<u8>, AllocError> {
    let mut text = Vec::from_slice(alloc, begin)?;
    text.extend_from_slice(end)?;
    Ok(text)
}

/// The rule that a text breaks, and where.
pub(crate) fn breach(alloc: Global, text: &[u8]) -> Result<Option<Breach>, CertFault> {
    match read(alloc, text) {
        Ok(_) => Ok(None),
        Err(CertFault::Refused(breach)) => Ok(Some(breach)),
        Err(CertFault::Memory) => Err(CertFault::Memory),
    }
}

#[test]
fn broken_files_are_refused(rt: HostRuntime) -> Result<(), CertFault> {
    for case in BROKEN {
        let (begin, end, rule, place) = *case;
        let text = joined(rt.alloc(), begin, end)?;
        let found = breach(rt.alloc(), &text)?;
        assert!(rt; found == Some(Breach { rule, place }), "at {place}");
    }
    Ok(())
}

/// A file whose busy list has so many numbers.
fn long_file(alloc: Global, count: u32) -> Result<Vec<u8>, AllocError> {
    let mut text = joined(alloc, BEGIN, b"10,1,long,0\n")?;
    for _ in 0..count {
        text.extend_from_slice(b"10,1,busy,7\n")?;
    }
    Ok(text)
}

#[test]
fn long_lists_are_refused(rt: HostRuntime) -> Result<(), CertFault> {
    let text = long_file(rt.alloc(), 200_000)?;
    assert!(rt; breach(rt.alloc(), &text)?.is_none());
    let longer = long_file(rt.alloc(), 200_001)?;
    let wanted = Breach {
        rule: Rule::TooLong,
        place: 200_003,
    };
    assert!(rt; breach(rt.alloc(), &longer)? == Some(wanted));
    Ok(())
}

/// Whether a fault is printed so.
fn is_printed(alloc: Global, fault: &CertFault, wanted: &str) -> Result<bool, AllocError> {
    Ok(format!(in alloc; "{fault}")?.as_str() == wanted)
}

#[test]
fn faults_of_refusal_files_are_printed(rt: HostRuntime) -> Result<(), AllocError> {
    match read(rt.alloc(), b"x") {
        Ok(_) => assert!(rt; false),
        Err(CertFault::Memory) => return Err(AllocError),
        Err(fault) => {
            assert!(rt; is_printed(rt.alloc(), &fault, "rule 31 is broken at record 0")?);
        }
    }
    assert!(rt; is_printed(rt.alloc(), &CertFault::Memory, "out of memory")?);
    Ok(())
}
