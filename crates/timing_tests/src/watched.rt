//! Traces that are judged while they are read, in pieces.

ghost use Rattle.std.specs.Prelude.{◌≤◌};

use crate::bus::{LATE_JOINER, two_streams};
use crate::syncs::{close_set, long_set, set};
use cop_bus::{BusFault, judge, read_trace};
use cop_frame::Rate;
use cop_rta::StreamSet;
use cop_watch::{Seen, TraceWatch};
use std::alloc::{AllocError, Global};
use std::test::Fail;

/// What is seen of a trace that is read in pieces of so many bytes.
fn seen(
    alloc: Global,
    set: &StreamSet,
    rate: Rate,
    text: &str,
    size: usize,
) -> Result<Option<Seen>, AllocError>
    requires { 1 ≤ size }
{
    let mut watch = TraceWatch::new(alloc, set, rate)?;
    for piece in text.as_bytes().chunks(size) {
        if !watch.feed(piece) {
            return Ok(None);
        }
    }
    Ok(watch.finish())
}

/// How many transfers start in such a trace, if it breaks no rule.
fn starts(
    alloc: Global,
    set: &StreamSet,
    rate: Rate,
    text: &str,
    size: usize,
) -> Result<Option<u64>, AllocError>
    requires { 1 ≤ size }
{
    match seen(alloc, set, rate, text, size)? {
        Some(Seen::Lawful { sent }) => Ok(Some(sent)),
        Some(Seen::Broken { .. }) | None => Ok(None),
    }
}

#[test]
fn a_late_joiner_is_watched(rt: HostRuntime) -> Result<(), Fail> {
    let set = two_streams(rt.alloc(), 984)?;
    assert!(rt; starts(rt.alloc(), &set, Rate::Kbit1000, LATE_JOINER, 1)? == Some(2));
    assert!(rt; starts(rt.alloc(), &set, Rate::Kbit1000, LATE_JOINER, 7)? == Some(2));
    assert!(rt; starts(rt.alloc(), &set, Rate::Kbit1000, LATE_JOINER, 4096)? == Some(2));
    assert!(rt; starts(rt.alloc(), &set, Rate::Kbit500, LATE_JOINER, 4096)?.is_none());
    Ok(())
}

/// An instance after a SYNC that is queued at its event, and one at the end of the latency after a SYNC that is queued 100 ticks later.
const AFTER_SYNC: &[&str] = &[
    "kind,moment,id,event,bits,data\n\
        queue,0,128,0,47,\n\
        start,0,128,,,\n\
        end,376,128,,,\n\
        queue,376,385,0,111,0000000000000000\n\
        start,376,385,,,\n\
        end,1264,385,,,\n\
        until,1264,0,,,\n",
    "kind,moment,id,event,bits,data\n\
        queue,100,128,0,47,\n\
        start,100,128,,,\n\
        end,476,128,,,\n\
        queue,876,385,0,111,0000000000000000\n\
        start,876,385,,,\n\
        end,1764,385,,,\n\
        until,1764,0,,,\n",
];

#[test]
fn a_synchronous_instance_is_watched(rt: HostRuntime) -> Result<(), Fail> {
    let set = set(rt.alloc(), 1)?;
    for text in AFTER_SYNC {
        assert!(rt; starts(rt.alloc(), &set, Rate::Kbit500, *text, 64)? == Some(2));
    }
    Ok(())
}

/// An instance of the first SYNC that is queued after the second has ended, and then one of the second.
const AFTER_TWO: &str = "kind,moment,id,event,bits,data\n\
    queue,0,128,0,47,\n\
    start,0,128,,,\n\
    end,376,128,,,\n\
    queue,40000,128,40000,47,\n\
    start,40000,128,,,\n\
    end,40376,128,,,\n\
    queue,40376,385,0,111,0000000000000000\n\
    start,40376,385,,,\n\
    end,41264,385,,,\n\
    queue,41264,385,40000,111,0000000000000000\n\
    start,41264,385,,,\n\
    end,42152,385,,,\n\
    until,42152,0,,,\n";

#[test]
fn an_instance_of_an_earlier_sync_is_watched(rt: HostRuntime) -> Result<(), Fail> {
    let set = long_set(rt.alloc())?;
    assert!(rt; starts(rt.alloc(), &set, Rate::Kbit500, AFTER_TWO, 64)? == Some(4));
    Ok(())
}

/// Three SYNCs wait at once, and an instance hangs on the first of them after it has ended.
const WAITING_SYNCS: &str = "kind,moment,id,event,bits,data\n\
    queue,0,128,0,47,\n\
    start,0,128,,,\n\
    end,376,128,,,\n\
    queue,376,385,0,111,0000000000000000\n\
    start,376,385,,,\n\
    queue,400,128,400,47,\n\
    queue,800,128,800,47,\n\
    queue,1200,128,1200,47,\n\
    end,1264,385,,,\n\
    start,1264,128,,,\n\
    end,1640,128,,,\n\
    queue,1640,385,400,111,0000000000000000\n\
    start,1640,128,,,\n\
    until,1999,0,,,\n";

/// The same where that instance has the event of the SYNC that waits next.
const TOO_EARLY: &str = "kind,moment,id,event,bits,data\n\
    queue,0,128,0,47,\n\
    start,0,128,,,\n\
    end,376,128,,,\n\
    queue,376,385,0,111,0000000000000000\n\
    start,376,385,,,\n\
    queue,400,128,400,47,\n\
    queue,800,128,800,47,\n\
    end,1264,385,,,\n\
    start,1264,128,,,\n\
    end,1640,128,,,\n\
    queue,1640,385,800,111,0000000000000000\n\
    start,1640,128,,,\n\
    until,1999,0,,,\n";

#[test]
fn several_syncs_that_wait_are_watched(rt: HostRuntime) -> Result<(), Fail> {
    let set = close_set(rt.alloc())?;
    assert!(rt; starts(rt.alloc(), &set, Rate::Kbit500, WAITING_SYNCS, 64)? == Some(4));
    let early = seen(rt.alloc(), &set, Rate::Kbit500, TOO_EARLY, 64)?;
    assert!(rt; early == Some(Seen::Broken { step: 11, rule: 63 }));
    Ok(())
}

/// A step of a trace that breaks a rule first, and the rule, with the lines of the steps behind the header.
struct Case {
    lines: &'static str,
    step: u64,
    rule: u8,
}

const HEADER: &str = "kind,moment,id,event,bits,data\n";

const SYNC_SENT: &str = "queue,0,128,0,47,\nstart,0,128,,,\nend,376,128,,,\n";

/// Behind a SYNC that was sent from 0 to 376, at 500 kbit/s.
const CASES: &[Case] = &[
    Case {
        lines: "queue,376,385,1,111,0000000000000000\nuntil,400,0,,,\n",
        step: 4,
        rule: 63,
    },
    Case {
        lines: "queue,777,385,0,111,0000000000000000\nuntil,777,0,,,\n",
        step: 4,
        rule: 63,
    },
    Case {
        lines: "queue,376,385,0,111,0000000000000000\nstart,376,385,,,\nqueue,377,385,0,111,0000000000000000\nuntil,400,0,,,\n",
        step: 6,
        rule: 62,
    },
    Case {
        lines: "queue,376,386,376,111,0000000000000000\nstart,376,386,,,\nqueue,400,386,400,111,0000000000000000\nuntil,400,0,,,\n",
        step: 6,
        rule: 62,
    },
    Case {
        lines: "queue,300,386,300,111,0000000000000000\nuntil,400,0,,,\n",
        step: 4,
        rule: 60,
    },
    Case {
        lines: "queue,400,387,400,111,0000000000000000\nstart,400,387,,,\nuntil,400,0,,,\n",
        step: 4,
        rule: 61,
    },
    Case {
        lines: "queue,400,386,399,111,0000000000000000\nuntil,400,0,,,\n",
        step: 4,
        rule: 63,
    },
    Case {
        lines: "queue,400,386,400,47,\nuntil,400,0,,,\n",
        step: 4,
        rule: 64,
    },
    Case {
        lines: "end,400,386,,,\nuntil,400,0,,,\n",
        step: 4,
        rule: 65,
    },
    Case {
        lines: "start,400,386,,,\nuntil,400,0,,,\n",
        step: 4,
        rule: 66,
    },
    Case {
        lines: "queue,376,385,0,111,0000000000000000\nqueue,376,386,376,111,0000000000000000\nstart,376,386,,,\nuntil,400,0,,,\n",
        step: 6,
        rule: 67,
    },
    Case {
        lines: "queue,376,385,0,111,0000000000000000\nstart,377,385,,,\nuntil,400,0,,,\n",
        step: 5,
        rule: 68,
    },
    Case {
        lines: "queue,376,385,0,111,0000000000000000\nstart,376,385,,,\nend,1263,385,,,\nuntil,1263,0,,,\n",
        step: 6,
        rule: 65,
    },
    Case {
        lines: "queue,376,385,0,111,0000000000000000\nuntil,400,0,,,\n",
        step: 5,
        rule: 68,
    },
    Case {
        lines: "queue,376,385,0,111,0000000000000000\nstart,376,385,,,\nuntil,1264,0,,,\n",
        step: 6,
        rule: 65,
    },
];

/// The text of a case.
fn text_of(alloc: Global, case: &Case) -> Result<String, AllocError> {
    let lines = case.lines;
    format!(in alloc; "{HEADER}{SYNC_SENT}{lines}")
}

#[test]
fn the_first_step_that_breaks_a_rule_is_seen(rt: HostRuntime) -> Result<(), Fail> {
    let set = set(rt.alloc(), 1)?;
    for case in CASES {
        let text = text_of(rt.alloc(), case)?;
        let seen = seen(rt.alloc(), &set, Rate::Kbit500, &text, 64)?;
        let (step, rule) = (case.step, case.rule);
        assert!(rt; seen == Some(Seen::Broken { step, rule }));
        let trace = read_trace(rt.alloc(), text.as_bytes())?;
        let judged = judge(rt.alloc(), &set, Rate::Kbit500, &trace);
        assert!(rt;
            matches!(judged, Err(BusFault::Refused { place, number }) if place as u64 == step && number == rule)
        );
    }
    Ok(())
}
