//! Tests of the bus over time.

use crate::reports::networks::{PDOS, assert_says, planned, timeline_under, valve_page};
use cop_bus::{BusFault, Transfer};
use cop_figures::{Lane, MOST_SHOWN, Timeline, timeline_of};
use std::alloc::{AllocError, Global};
use std::test::Fail;

/// At 500 kbit/s a bit takes 8 ticks. The EMCY waits for the PDO, which takes 928 ticks, and then takes 1,048 itself.
const TRACE: &str = "kind,moment,id,event,bits,data
queue,1000,385,1000,116,0000000000000000
start,1000,385,,,
queue,1200,133,1200,131,0000000000000000
end,1928,385,,,
start,1928,133,,,
end,2976,133,,,
until,4000,0,,,
";

/// The transfers of the trace, that with the lowest identifier first.
const TRANSFERS: &[Transfer] = &[
    Transfer {
        id: 0x085,
        queued: 1200,
        started: 1928,
        ended: 2976,
    },
    Transfer {
        id: 0x181,
        queued: 1000,
        started: 1000,
        ended: 1928,
    },
];

/// Whether a lane has this transfer alone.
fn has_alone(lane: &Lane, wanted: Option<&Transfer>) -> bool {
    match (lane.transfers.as_slice(), wanted) {
        ([shown], Some(wanted)) => shown == wanted && shown.id == lane.id,
        _ => false,
    }
}

/// What a trace tells of the bus under the plan of the valve.
fn valve_timeline(alloc: Global, trace: &str) -> Result<Timeline, Fail> {
    let plan = planned(alloc)?;
    timeline_under(alloc, &plan, trace)
}

#[test]
fn the_timeline_is_that_of_the_trace(rt: HostRuntime) -> Result<(), Fail> {
    let timeline = valve_timeline(rt.alloc(), TRACE)?;
    assert!(rt; timeline.until == 4000 && timeline.ended == 2 && timeline.late.is_none());
    assert!(rt; timeline.lanes.len() == 2);
    let mut wanted = TRANSFERS.iter();
    for lane in timeline.lanes.iter() {
        assert!(rt; has_alone(lane, wanted.next()));
    }
    Ok(())
}

/// Traces that no legal run has, and the fault of each.
const REFUSED: &[(&str, BusFault)] = &[
    (
        "kind,moment\n",
        BusFault::Refused {
            place: 0,
            number: 69,
        },
    ),
    (
        "kind,moment,id,event,bits,data\nstart,0,385,,,\nuntil,9,0,,,\n",
        BusFault::Refused {
            place: 1,
            number: 66,
        },
    ),
    (
        "kind,moment,id,event,bits,data\nqueue,0,400,0,116,0000000000000000\nuntil,9,0,,,\n",
        BusFault::Refused {
            place: 1,
            number: 61,
        },
    ),
];

#[test]
fn traces_are_refused(rt: HostRuntime) -> Result<(), Fail> {
    let plan = planned(rt.alloc())?;
    for (trace, fault) in REFUSED {
        let found = timeline_of(rt.alloc(), &plan, trace.as_bytes()).err();
        assert!(rt; found == Some(*fault));
    }
    Ok(())
}

/// What the page says of the trace. Its lanes begin at the first moment, which is 250 us.
const SAID: &[&str] = &[
    "The trace goes up to 1.000 ms. In it 2 transfers came to an end. Each PDO is on time.",
    "<b>085h</b> EMCY of Valve (node 5)",
    "aria-label=\"181h, TPDO 1 of Valve (node 5): 1 transfer\"",
    "<rect class=\"waits\" x=\"200\" y=\"8\" width=\"728\" height=\"4\"/>",
    "<rect class=\"sends\" x=\"928\" y=\"3\" width=\"1048\" height=\"14\"/>",
    "data-begin=\"1000\" data-span=\"3000\" style=\"--span:3000;--first:200;--step:400\">",
    "<span style=\"--at:200\">0.3</span><span style=\"--at:600\">0.4</span>",
    "<span style=\"--at:2600\">0.9</span><span style=\"--at:3000\">1</span></div>",
    "</svg><div class=\"n\">0.444</div>",
    "</svg><div class=\"n\">0.232 / 0.670</div>",
    "<script>",
];

#[test]
fn the_page_shows_the_bus_over_time(rt: HostRuntime) -> Result<(), Fail> {
    let page = valve_page(rt.alloc(), PDOS, Some(TRACE))?;
    assert_says(&rt, &page, SAID);
    assert!(rt; page.matches("class=\"sends\"").count() == 2);
    assert!(rt; page.matches("class=\"waits\"").count() == 1);
    assert!(rt; !page.contains("Only the first"));
    Ok(())
}

#[test]
fn a_page_without_a_trace_has_no_lanes(rt: HostRuntime) -> Result<(), Fail> {
    let page = valve_page(rt.alloc(), PDOS, None)?;
    assert!(rt; !page.contains("id=\"lanes\""));
    assert!(rt; !page.contains("The bus over time"));
    Ok(())
}

#[test]
fn a_trace_with_no_transfer_has_no_lanes(rt: HostRuntime) -> Result<(), Fail> {
    let empty = "kind,moment,id,event,bits,data\nuntil,400,0,,,\n";
    let page = valve_page(rt.alloc(), PDOS, Some(empty))?;
    assert!(rt; page.contains("In it 0 transfers came to an end."));
    assert!(rt; !page.contains("id=\"lanes\""));
    Ok(())
}

/// A trace of so many PDOs, one each 10 ms.
fn long_trace(alloc: Global, transfers: u16) -> Result<String, AllocError> {
    let mut trace = String::from_str(alloc, "kind,moment,id,event,bits,data\n")?;
    for number in 0..transfers {
        let at = u64::from(number) * 40000;
        let end = at + 928;
        write!(
            trace,
            "queue,{at},385,{at},116,0000000000000000\nstart,{at},385,,,\nend,{end},385,,,\n"
        )?;
    }
    let until = u64::from(transfers) * 40000;
    write!(trace, "until,{until},0,,,\n")?;
    Ok(trace)
}

#[test]
fn a_long_trace_is_cut(rt: HostRuntime) -> Result<(), Fail> {
    let trace = long_trace(rt.alloc(), 5001)?;
    let page = valve_page(rt.alloc(), PDOS, Some(trace.as_str()))?;
    assert!(rt; page.matches("class=\"sends\"").count() == MOST_SHOWN);
    assert!(rt; page.contains("In it 5001 transfers came to an end."));
    assert!(rt; page.contains("Only the first 5000 transfers are drawn"));
    Ok(())
}
