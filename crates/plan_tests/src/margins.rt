use crate::plans::{plan_of, rates_of};
use cop_frame::Rate;
use cop_plan::{Count, Plan, assign_with_margin, can_assign};
use cop_rta::read_streams;
use std::alloc::Global;
use std::test::Fail;

// The plan of a table all of whose streams are PDOs, by the greatest margin.
fn widest(alloc: Global, table: &[u8]) -> Result<Plan, Fail> {
    let set = read_streams(alloc, table)?;
    if !can_assign(&set, set.len()) {
        return Err(Fail::from("not to be assigned"));
    }
    let mut count = Count { trials: 0, busy: 0 };
    let rates = rates_of(&Rate::ALL);
    plan_of(assign_with_margin(alloc, &set, set.len(), &rates, &mut count)?)
}

// The first PDO has 560 us, of which its transfer and one below take 540.
const TIGHT: &[u8] = b"id,bytes,period,jitter,deadline\n\
0x181,8,20000,0,560\n\
0x182,8,20000,0,3000\n\
0x183,8,20000,0,3270\n\
0x184,8,20000,0,3540\n\
0x185,8,20000,0,3810\n\
0x186,8,20000,0,4080\n\
0x187,8,20000,0,4350\n\
0x188,8,20000,0,4620\n\
0x189,8,20000,0,4890\n\
0x18A,8,20000,0,5160\n\
0x18B,8,20000,0,5430\n\
0x18C,8,20000,0,5700\n\
0x18D,8,20000,0,5970\n\
0x18E,8,20000,0,6240\n\
0x18F,8,20000,0,6510\n\
0x190,8,20000,0,6780\n\
0x191,8,20000,0,7050\n\
0x192,8,20000,0,7320\n\
0x193,8,20000,0,7590\n\
0x194,8,20000,0,7860\n\
0x195,8,20000,0,8130\n";

// Tables, their slowest rate, and there in ticks the greatest margin that all keep, and the greatest that those keep which can have it, if that is more.
const ROWS: &[(&[u8], Rate, u64, Option<u64>)] = &[
    (
        b"id,bytes,period,jitter,deadline\n0x181,7,2500,0,2500\n0x182,7,3500,0,3250\n0x183,7,3500,0,3250\n",
        Rate::Kbit250,
        6000,
        Some(7000),
    ),
    (
        b"id,bytes,period,jitter,deadline\n0x181,8,100000,0,1080\n0x182,8,100000,0,100000\n",
        Rate::Kbit250,
        0,
        Some(395680),
    ),
    (
        b"id,bytes,period,jitter,deadline\n0x181,8,1350,1282,1600\n0x182,8,13500,0,330\n",
        Rate::Kbit1000,
        192,
        Some(240),
    ),
    (
        b"id,bytes,period,jitter,deadline\n0x181,8,10000,0,9000\n0x182,2,10000,4000,9000\n0x183,4,20000,100,7000\n0x184,1,5000,0,4000\n",
        Rate::Kbit125,
        9600,
        Some(11200),
    ),
    (
        b"id,bytes,period,jitter,deadline\n0x181,1,4000,900,3000\n0x182,8,6000,0,6000\n0x183,8,6000,2500,9000\n0x184,3,3000,0,2800\n",
        Rate::Kbit125,
        2000,
        Some(2080),
    ),
    // One that has 20 us left at its best place, above 20 others.
    (TIGHT, Rate::Kbit500, 80, Some(8760)),
    // No stream has a deadline.
    (b"id,bytes,period,jitter,deadline\n", Rate::Kbit10, 0, None),
];

#[test]
fn the_margins_are_the_greatest(rt: HostRuntime) -> Result<(), Fail> {
    for row in ROWS {
        let (table, rate, margin, others) = *row;
        let plan = widest(rt.alloc(), table)?;
        assert!(rt; plan.rate() == rate && plan.margin() == Some(margin));
        assert!(rt; plan.others() == others);
    }
    Ok(())
}

#[test]
fn the_order_is_that_of_lowered_deadlines(rt: HostRuntime) -> Result<(), Fail> {
    // The last row passes below the others, and is left more above them.
    let table =
        b"id,bytes,period,jitter,deadline\n0x181,8,100000,0,100000\n0x182,8,100000,0,100000\n0x183,8,100000,0,12000\n";
    let plan = widest(rt.alloc(), table)?;
    let order: &[u16] = &[0x182, 0x183, 0x181];
    assert!(rt; plan.ids() == order && plan.margin() == Some(26400));
    Ok(())
}
