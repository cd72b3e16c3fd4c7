//! Runs in which a PDO is sent for each second SYNC, at 500 kbit/s.

use crate::simulator::{LONG, Script, are_steps, fault_of, plan_for};
use cop_bus::{Content, Step};
use cop_frame::Rate;
use cop_plan::Plan;
use cop_rta::{SetFault, Stream, StreamSet};
use cop_sim::{Behaviour, Offer, Seeded, SimFault};
use std::alloc::Global;
use std::test::Fail;

/// A PDO of 8 bytes for each second SYNC, queued at most 400 ticks after SYNC's end.
const SECOND: Stream = Stream {
    id: 0x181,
    bytes: 8,
    period: 80_000,
    jitter: 400,
    deadline: Some(40_000),
    every: 2,
};

/// The PDO, and SYNC each 40,000 ticks, queued at most 100 ticks after its event.
fn streams(alloc: Global) -> Result<StreamSet, SetFault> {
    let mut set = StreamSet::new(alloc);
    set.push(SECOND)?;
    set.push(Stream {
        id: 0x80,
        bytes: 0,
        period: 40_000,
        jitter: 100,
        deadline: None,
        every: 0,
    })?;
    Ok(set)
}

fn plan(alloc: Global) -> Result<Plan, Fail> {
    let set = streams(alloc)?;
    plan_for(alloc, &set, 1, &[Rate::Kbit500])
}

/// SYNC's frame, which takes 440 ticks.
const SYNC: Content = Content {
    bits: 55,
    body: [0; 8],
    len: 0,
};

/// Three SYNCs, of which the second is the PDO's: its answer's event is not looked at, it has that of the SYNC, which is queued 60 ticks
/// after it, and is itself queued 100 ticks after SYNC's end.
const SCRIPTS: &[Script] = &[
    (
        &[
            Offer {
                event: 7,
                delay: 100,
                frame: LONG,
            },
            Offer {
                event: 7,
                delay: 0,
                frame: LONG,
            },
        ],
        &[],
    ),
    (
        &[
            Offer {
                event: 0,
                delay: 0,
                frame: SYNC,
            },
            Offer {
                event: 40_000,
                delay: 60,
                frame: SYNC,
            },
            Offer {
                event: 80_000,
                delay: 0,
                frame: SYNC,
            },
        ],
        &[],
    ),
];

const STEPS: &[Step] = &[
    Step::Queue {
        at: 0,
        id: 0x80,
        event: 0,
        frame: SYNC,
    },
    Step::Start { at: 0, id: 0x80 },
    Step::End { at: 440, id: 0x80 },
    Step::Queue {
        at: 40_060,
        id: 0x80,
        event: 40_000,
        frame: SYNC,
    },
    Step::Start {
        at: 40_060,
        id: 0x80,
    },
    Step::End {
        at: 40_500,
        id: 0x80,
    },
    Step::Queue {
        at: 40_600,
        id: 0x181,
        event: 40_000,
        frame: LONG,
    },
    Step::Start {
        at: 40_600,
        id: 0x181,
    },
    Step::End {
        at: 41_680,
        id: 0x181,
    },
    Step::Queue {
        at: 80_000,
        id: 0x80,
        event: 80_000,
        frame: SYNC,
    },
    Step::Start {
        at: 80_000,
        id: 0x80,
    },
    Step::End {
        at: 80_440,
        id: 0x80,
    },
];

#[test]
fn an_answer_waits_for_the_end_of_its_sync(rt: HostRuntime) -> Result<(), Fail> {
    let plan = plan(rt.alloc())?;
    assert!(rt; are_steps(rt.alloc(), &plan, SCRIPTS, 100_000, STEPS)?);
    Ok(())
}

/// Answers of the PDO to the second SYNC and the fourth, and the fault: none up to the latency.
const ANSWERS: &[(&[Offer], Option<SimFault>)] = &[
    (
        &[
            Offer {
                event: 7,
                delay: 400,
                frame: LONG,
            },
            Offer {
                event: 7,
                delay: 400,
                frame: LONG,
            },
        ],
        None,
    ),
    (
        &[Offer {
            event: 7,
            delay: 401,
            frame: LONG,
        }],
        Some(SimFault::Disobeys {
            stream: 0,
            instance: 0,
        }),
    ),
    (
        &[
            Offer {
                event: 7,
                delay: 0,
                frame: LONG,
            },
            Offer {
                event: 7,
                delay: 401,
                frame: LONG,
            },
        ],
        Some(SimFault::Disobeys {
            stream: 0,
            instance: 1,
        }),
    ),
];

/// Four SYNCs.
const SYNCS: &[Offer] = &[
    Offer {
        event: 0,
        delay: 0,
        frame: SYNC,
    },
    Offer {
        event: 40_000,
        delay: 0,
        frame: SYNC,
    },
    Offer {
        event: 80_000,
        delay: 0,
        frame: SYNC,
    },
    Offer {
        event: 120_000,
        delay: 0,
        frame: SYNC,
    },
];

#[test]
fn an_answer_is_queued_within_the_latency(rt: HostRuntime) -> Result<(), Fail> {
    let plan = plan(rt.alloc())?;
    for case in ANSWERS {
        let (answers, wanted) = *case;
        let fault = fault_of(rt.alloc(), &plan, &[(answers, &[]), (SYNCS, &[])], 130_000)?;
        assert!(rt; fault == wanted);
    }
    Ok(())
}

/// What the seed 42 offers for the PDO: the delay in ticks and the frame's bits.
const SEEDED: &[(u64, u32)] = &[(367, 112), (372, 115)];

#[test]
fn two_words_of_a_seed_for_an_answer(rt: HostRuntime) -> Result<(), Fail> {
    let mut seeded = Seeded::new(42, &SECOND);
    for case in SEEDED {
        let (delay, bits) = *case;
        let frame = Content {
            bits,
            body: [0; 8],
            len: 8,
        };
        let offer = Offer {
            event: 0,
            delay,
            frame,
        };
        assert!(rt; seeded.next() == Some(offer), "after {delay}");
    }
    Ok(())
}
