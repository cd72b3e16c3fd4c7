//! Traces with a synchronous PDO, at 500 kbit/s.

ghost use Rattle.std.specs.Prelude.{◌≤◌};

use crate::bus::{end, queue, set_of, start, trace};
use cop_bus::{BusFault, Step, judge};
use cop_frame::Rate;
use cop_rta::{SetFault, Stream, StreamSet};
use std::alloc::Global;
use std::test::Fail;

const SYNC: u16 = 0x80;

const PDO: u16 = 0x181;

const OTHER: u16 = 0x182;

// The end of a SYNC of 47 bits that starts at its event 0.
const SYNC_ENDS: u64 = 376;

// How long after its event SYNC is queued at most.
const DELAY: u64 = 100;

const LATENCY: u64 = 400;

// A latency that reaches past the next SYNC.
const LONG_LATENCY: u64 = 50_000;

const PERIOD: u64 = 40_000;

// A period in which less than a SYNC and a PDO of 8 bytes are sent.
const CLOSE_PERIOD: u64 = 400;

// SYNC of a period, a PDO of 8 bytes for each so many SYNCs, and one that is not synchronous.
fn streams(every: u8, period: u64, latency: u64) -> [Stream; 3]
    requires every { (1 ≤ every) × (every ≤ 2) }
    requires period { (400 ≤ period) × (period ≤ 40000) }
    requires latency { latency ≤ 240000000 }
{
    [
        Stream {
            id: SYNC,
            bytes: 0,
            period,
            jitter: DELAY,
            deadline: None,
            every: 0,
        },
        Stream {
            id: PDO,
            bytes: 8,
            period: period * u64::from(every),
            jitter: latency,
            deadline: Some(40_000),
            every,
        },
        Stream {
            id: OTHER,
            bytes: 8,
            period: 40_000,
            jitter: 0,
            deadline: Some(40_000),
            every: 0,
        },
    ]
}

/// The set of these.
pub fn set(alloc: Global, every: u8) -> Result<StreamSet, SetFault>
    requires { (1 ≤ every) × (every ≤ 2) }
{
    set_of(alloc, &streams(every, PERIOD, LATENCY))
}

/// The same with a PDO for each SYNC, whose latency reaches past the next one.
pub fn long_set(alloc: Global) -> Result<StreamSet, SetFault> {
    set_of(alloc, &streams(1, PERIOD, LONG_LATENCY))
}

/// The same with so short a period of SYNC that several SYNCs wait at once behind a PDO.
pub fn close_set(alloc: Global) -> Result<StreamSet, SetFault> {
    set_of(alloc, &streams(1, CLOSE_PERIOD, LATENCY))
}

/// The step that breaks a rule first, and the rule, in a trace that ends with its last step.
fn broken(alloc: Global, every: u8, until: u64, steps: &[Step]) -> Result<Option<(usize, u8)>, Fail>
    requires { (1 ≤ every) × (every ≤ 2) }
{
    let set = set(alloc, every)?;
    let trace = trace(alloc, until, steps)?;
    match judge(alloc, &set, Rate::Kbit500, &trace) {
        Ok(_) => Ok(None),
        Err(BusFault::Refused { place, number }) => Ok(Some((place, number))),
        Err(BusFault::Memory) => Err(Fail::from(BusFault::Memory)),
    }
}

/// The same of an instance of the PDO with this event that is queued after the first SYNC, whose event is 0 and which is queued so much later.
fn after_sync(alloc: Global, delay: u64, at: u64, event: u64) -> Result<Option<(usize, u8)>, Fail>
    requires { delay ≤ 1000 }
{
    let steps = [
        queue(delay, SYNC, 0, 47, 0),
        start(delay, SYNC),
        end(delay + SYNC_ENDS, SYNC),
        queue(at, PDO, event, 111, 8),
    ];
    broken(alloc, 1, at, &steps)
}

#[test]
fn a_synchronous_instance_is_queued_from_the_end_of_its_sync_on(
    rt: HostRuntime,
) -> Result<(), Fail> {
    let alloc = rt.alloc();
    let latest = SYNC_ENDS + LATENCY;
    // how much later SYNC is queued, the queue moment, the event, and the rule that is broken
    let cases: &[(u64, u64, u64, Option<(usize, u8)>)] = &[
        (0, SYNC_ENDS, 0, None),
        (0, latest, 0, None),
        (0, latest + 1, 0, Some((4, 63))),
        (0, 500, 1, Some((4, 63))),
        (DELAY, DELAY + SYNC_ENDS, 0, None),
        (DELAY, DELAY + latest, 0, None),
        (DELAY, DELAY + latest + 1, 0, Some((4, 63))),
        // SYNC's queue moment in place of its event
        (DELAY, 500, DELAY, Some((4, 63))),
    ];
    for case in cases {
        let (delay, at, event, wanted) = *case;
        assert!(rt; after_sync(alloc, delay.min(DELAY), at, event)? == wanted);
    }
    let sooner = [
        queue(0, SYNC, 0, 47, 0),
        start(0, SYNC),
        queue(SYNC_ENDS - 1, PDO, 0, 111, 8),
    ];
    assert!(rt; broken(alloc, 1, SYNC_ENDS - 1, &sooner)? == Some((3, 63)));
    Ok(())
}

/// The same of a second instance with this event, after a second SYNC at this moment.
fn after_two(alloc: Global, every: u8, again: u64, event: u64) -> Result<Option<(usize, u8)>, Fail>
    requires every { (1 ≤ every) × (every ≤ 2) }
    requires again { again ≤ 1000000 }
{
    let ends = again + SYNC_ENDS;
    let steps = [
        queue(0, SYNC, 0, 47, 0),
        start(0, SYNC),
        end(SYNC_ENDS, SYNC),
        queue(SYNC_ENDS, PDO, 0, 111, 8),
        start(SYNC_ENDS, PDO),
        end(1264, PDO),
        queue(again, SYNC, again, 47, 0),
        start(again, SYNC),
        end(ends, SYNC),
        queue(ends, PDO, event, 111, 8),
    ];
    broken(alloc, every, ends, &steps)
}

#[test]
fn synchronous_instances_are_so_many_syncs_apart(rt: HostRuntime) -> Result<(), Fail> {
    let alloc = rt.alloc();
    assert!(rt; after_two(alloc, 1, 40_000, 40_000)?.is_none());
    assert!(rt; after_two(alloc, 1, 40_000, 0)? == Some((10, 62)));
    assert!(rt; after_two(alloc, 1, 40_000, 1)? == Some((10, 63)));
    Ok(())
}

#[test]
fn syncs_are_counted_by_their_numbers(rt: HostRuntime) -> Result<(), Fail> {
    // By its event the second SYNC is far enough from the first, by its number it is not.
    assert!(rt; after_two(rt.alloc(), 1, 80_000, 80_000)?.is_none());
    assert!(rt; after_two(rt.alloc(), 2, 80_000, 80_000)? == Some((10, 62)));
    Ok(())
}

#[test]
fn a_synchronous_instance_may_join(rt: HostRuntime) -> Result<(), Fail> {
    let steps = [
        queue(0, SYNC, 0, 47, 0),
        start(0, SYNC),
        end(SYNC_ENDS, SYNC),
        queue(SYNC_ENDS, OTHER, SYNC_ENDS, 111, 8),
        start(SYNC_ENDS, PDO),
        queue(SYNC_ENDS + 7, PDO, 0, 111, 8),
        end(1264, PDO),
    ];
    assert!(rt; broken(rt.alloc(), 1, 1264, &steps)?.is_none());
    Ok(())
}
