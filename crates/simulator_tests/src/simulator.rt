mod sinks;
mod steady;
mod synced;

ghost use Rattle.std.specs.Prelude.{◌≤◌};

use cop_bus::{Content, Step, Trace};
use cop_frame::{Rate, RateSet};
use cop_plan::{Count, Outcome, Plan, assign, can_assign};
use cop_rta::{Stream, StreamSet, read_streams};
use cop_sim::{Behaviour, Offer, Scripted, Seeded, SimFault, simulate};
use std::alloc::{AllocError, Global};
use std::collections::VecDeque;
use std::test::Fail;

/// A table of streams, how many of them are PDOs, and the rates that it may be planned at.
pub type Table = (&'static [u8], usize, &'static [Rate]);

/// The valve: a PDO, its emergency messages and its heartbeat, planned at 500 kbit/s.
pub const VALVE: Table = (
    b"id,bytes,period,jitter,deadline\n0x181,8,10000,0,670\n0x85,8,100000,0,\n0x705,1,100000,0,\n",
    1,
    &[Rate::Kbit250, Rate::Kbit500, Rate::Kbit1000],
);

/// Two PDOs at 1000 kbit/s, of which the second gets the lower identifier.
const TWO: Table = (
    b"id,bytes,period,jitter,deadline\n0x181,8,1350,1282,1600\n0x182,8,13500,0,330\n",
    2,
    &[Rate::Kbit1000],
);

/// The set of these rates.
fn set_of(rates: &[Rate]) -> RateSet {
    let mut set = RateSet::new();
    for rate in rates {
        set.insert(*rate);
    }
    set
}

/// The plan of streams of which so many are PDOs.
pub fn plan_for(
    alloc: Global,
    streams: &StreamSet,
    pdos: usize,
    rates: &[Rate],
) -> Result<Plan, Fail> {
    if !can_assign(streams, pdos) {
        return Err(Fail::new("not to be planned"));
    }
    let mut count = Count { trials: 0, busy: 0 };
    match assign(alloc, streams, pdos, &set_of(rates), &mut count)? {
        Outcome::Planned(plan) => Ok(plan),
        Outcome::Refused(_) => Err(Fail::new("no plan")),
    }
}

/// The plan of a table.
pub fn plan_of(alloc: Global, table: Table) -> Result<Plan, Fail> {
    let (text, pdos, rates) = table;
    let streams = read_streams(alloc, text)?;
    plan_for(alloc, &streams, pdos, rates)
}

/// A frame of 8 bytes with the most stuff bits.
pub const LONG: Content = Content {
    bits: 135,
    body: [0; 8],
    len: 8,
};

/// A heartbeat with the most stuff bits.
const BEAT: Content = Content {
    bits: 65,
    body: [5, 0, 0, 0, 0, 0, 0, 0],
    len: 1,
};

/// The offers of a stream, and the starts that it joins.
pub type Script = (&'static [Offer], &'static [u64]);

/// These offers in order.
fn queue_of(alloc: Global, offers: &[Offer]) -> Result<VecDeque<Offer>, AllocError> {
    let mut queue = VecDeque::new(alloc);
    for offer in offers {
        queue.push_back(*offer)?;
    }
    Ok(queue)
}

pub fn scripted(alloc: Global, script: Script) -> Result<Scripted, AllocError> {
    let (offers, yes) = script;
    Ok(Scripted {
        offers: queue_of(alloc, offers)?,
        yes: Vec::from_slice(alloc, yes)?,
    })
}

/// The behaviours by scripts.
fn boxed(alloc: Global, scripts: &[Script]) -> Result<Vec<Box<dyn Behaviour>>, AllocError> {
    let mut behaviours = Vec::new(alloc);
    for script in scripts {
        let one: Box<dyn Behaviour> = Box::new(alloc, scripted(alloc, *script)?)?;
        behaviours.push(one)?;
    }
    Ok(behaviours)
}

/// What the simulator answers to scripts of the plan's streams.
fn simulated(alloc: Global, plan: &Plan, scripts: &[Script], until: u64) -> Result<Trace, SimFault>
    requires { until ≤ 4000000000 }
{
    simulate(alloc, plan, boxed(alloc, scripts)?, until)
}

/// Whether these are the steps of the play of scripts.
pub fn are_steps(
    alloc: Global,
    plan: &Plan,
    scripts: &[Script],
    until: u64,
    wanted: &[Step],
) -> Result<bool, SimFault>
    requires { until ≤ 4000000000 }
{
    let trace = simulated(alloc, plan, scripts, until)?;
    Ok(trace.steps.as_slice() == wanted)
}

/// Whether these are the steps of the play of scripts by the plan of a table.
fn plays(
    alloc: Global,
    table: Table,
    scripts: &[Script],
    until: u64,
    wanted: &[Step],
) -> Result<bool, Fail>
    requires { until ≤ 4000000000 }
{
    let plan = plan_of(alloc, table)?;
    Ok(are_steps(alloc, &plan, scripts, until, wanted)?)
}

/// The fault of an answer, if there is one but for want of memory.
pub fn fault_in<T: Drop>(answer: Result<T, SimFault>) -> Result<Option<SimFault>, AllocError> {
    match answer {
        Ok(_) => Ok(None),
        Err(SimFault::Memory) => Err(AllocError),
        Err(fault) => Ok(Some(fault)),
    }
}

/// The fault of the simulation of scripts, if there is one.
pub fn fault_of(
    alloc: Global,
    plan: &Plan,
    scripts: &[Script],
    until: u64,
) -> Result<Option<SimFault>, AllocError>
    requires { until ≤ 4000000000 }
{
    fault_in(simulated(alloc, plan, scripts, until))
}

pub const VALVE_SCRIPTS: &[Script] = &[
    (
        &[Offer {
            event: 1,
            delay: 0,
            frame: LONG,
        }],
        &[],
    ),
    (
        &[Offer {
            event: 1,
            delay: 0,
            frame: LONG,
        }],
        &[],
    ),
    (
        &[Offer {
            event: 0,
            delay: 0,
            frame: BEAT,
        }],
        &[],
    ),
];

pub const VALVE_STEPS: &[Step] = &[
    Step::Queue {
        at: 0,
        id: 0x705,
        event: 0,
        frame: BEAT,
    },
    Step::Start { at: 0, id: 0x705 },
    Step::Queue {
        at: 1,
        id: 0x85,
        event: 1,
        frame: LONG,
    },
    Step::Queue {
        at: 1,
        id: 0x181,
        event: 1,
        frame: LONG,
    },
    Step::End { at: 520, id: 0x705 },
    Step::Start { at: 520, id: 0x85 },
    Step::End { at: 1600, id: 0x85 },
    Step::Start {
        at: 1600,
        id: 0x181,
    },
    Step::End {
        at: 2680,
        id: 0x181,
    },
];

#[test]
fn the_valve_to_4000_ticks(rt: HostRuntime) -> Result<(), Fail> {
    assert!(rt; plays(rt.alloc(), VALVE, VALVE_SCRIPTS, 4000, VALVE_STEPS)?);
    Ok(())
}

/// The scripts of two PDOs with an end, and the steps of their play.
const PLAYS: &[(&[Script], u64, &[Step])] = &[
    // The lower identifier is queued two ticks after the start, and joins it.
    (
        &[
            (
                &[Offer {
                    event: 100,
                    delay: 0,
                    frame: LONG,
                }],
                &[],
            ),
            (
                &[Offer {
                    event: 102,
                    delay: 0,
                    frame: LONG,
                }],
                &[100],
            ),
        ],
        2000,
        &[
            Step::Queue {
                at: 100,
                id: 0x182,
                event: 100,
                frame: LONG,
            },
            Step::Start { at: 100, id: 0x181 },
            Step::Queue {
                at: 102,
                id: 0x181,
                event: 102,
                frame: LONG,
            },
            Step::End { at: 640, id: 0x181 },
            Step::Start { at: 640, id: 0x182 },
            Step::End {
                at: 1180,
                id: 0x182,
            },
        ],
    ),
    // The same, where it does not join.
    (
        &[
            (
                &[Offer {
                    event: 100,
                    delay: 0,
                    frame: LONG,
                }],
                &[],
            ),
            (
                &[Offer {
                    event: 102,
                    delay: 0,
                    frame: LONG,
                }],
                &[],
            ),
        ],
        2000,
        &[
            Step::Queue {
                at: 100,
                id: 0x182,
                event: 100,
                frame: LONG,
            },
            Step::Start { at: 100, id: 0x182 },
            Step::Queue {
                at: 102,
                id: 0x181,
                event: 102,
                frame: LONG,
            },
            Step::End { at: 640, id: 0x182 },
            Step::Start { at: 640, id: 0x181 },
            Step::End {
                at: 1180,
                id: 0x181,
            },
        ],
    ),
    // Two instances of one PDO wait at once, its ring's two places.
    (
        &[
            (
                &[
                    Offer {
                        event: 0,
                        delay: 5128,
                        frame: LONG,
                    },
                    Offer {
                        event: 5400,
                        delay: 0,
                        frame: LONG,
                    },
                ],
                &[],
            ),
            (
                &[Offer {
                    event: 5127,
                    delay: 0,
                    frame: LONG,
                }],
                &[],
            ),
        ],
        7000,
        &[
            Step::Queue {
                at: 5127,
                id: 0x181,
                event: 5127,
                frame: LONG,
            },
            Step::Start {
                at: 5127,
                id: 0x181,
            },
            Step::Queue {
                at: 5128,
                id: 0x182,
                event: 0,
                frame: LONG,
            },
            Step::Queue {
                at: 5400,
                id: 0x182,
                event: 5400,
                frame: LONG,
            },
            Step::End {
                at: 5667,
                id: 0x181,
            },
            Step::Start {
                at: 5667,
                id: 0x182,
            },
            Step::End {
                at: 6207,
                id: 0x182,
            },
            Step::Start {
                at: 6207,
                id: 0x182,
            },
            Step::End {
                at: 6747,
                id: 0x182,
            },
        ],
    ),
    // Nothing starts at the end.
    (
        &[
            (
                &[Offer {
                    event: 100,
                    delay: 0,
                    frame: LONG,
                }],
                &[],
            ),
            (&[], &[]),
        ],
        100,
        &[Step::Queue {
            at: 100,
            id: 0x182,
            event: 100,
            frame: LONG,
        }],
    ),
];

#[test]
fn plays_of_two(rt: HostRuntime) -> Result<(), Fail> {
    for case in PLAYS {
        let (scripts, until, wanted) = *case;
        assert!(rt; plays(rt.alloc(), TWO, scripts, until.min(10000), wanted)?);
    }
    Ok(())
}

/// Scripts of the valve's streams that are no play, and the fault.
const FAULTS: &[(&[Script], u64, Option<SimFault>)] = &[
    (
        &[
            (
                &[
                    Offer {
                        event: 1,
                        delay: 0,
                        frame: LONG,
                    },
                    Offer {
                        event: 40000,
                        delay: 0,
                        frame: LONG,
                    },
                ],
                &[],
            ),
            (
                &[Offer {
                    event: 1,
                    delay: 0,
                    frame: LONG,
                }],
                &[],
            ),
            (
                &[Offer {
                    event: 0,
                    delay: 0,
                    frame: BEAT,
                }],
                &[],
            ),
        ],
        50000,
        Some(SimFault::Disobeys {
            stream: 0,
            instance: 1,
        }),
    ),
    (
        &[
            (
                &[
                    Offer {
                        event: 1,
                        delay: 0,
                        frame: LONG,
                    },
                    Offer {
                        event: 40001,
                        delay: 0,
                        frame: LONG,
                    },
                ],
                &[],
            ),
            (
                &[Offer {
                    event: 1,
                    delay: 0,
                    frame: LONG,
                }],
                &[],
            ),
            (
                &[Offer {
                    event: 0,
                    delay: 0,
                    frame: BEAT,
                }],
                &[],
            ),
        ],
        50000,
        None,
    ),
    // A heartbeat of 8 bytes, and one that is late.
    (
        &[
            (&[], &[]),
            (&[], &[]),
            (
                &[Offer {
                    event: 0,
                    delay: 0,
                    frame: LONG,
                }],
                &[],
            ),
        ],
        100,
        Some(SimFault::Disobeys {
            stream: 2,
            instance: 0,
        }),
    ),
    (
        &[
            (&[], &[]),
            (&[], &[]),
            (
                &[Offer {
                    event: 0,
                    delay: 1,
                    frame: BEAT,
                }],
                &[],
            ),
        ],
        100,
        Some(SimFault::Disobeys {
            stream: 2,
            instance: 0,
        }),
    ),
    // Each stream is asked for its first offer before any is asked for its second.
    (
        &[
            (
                &[
                    Offer {
                        event: 1,
                        delay: 0,
                        frame: LONG,
                    },
                    Offer {
                        event: 40000,
                        delay: 0,
                        frame: LONG,
                    },
                ],
                &[],
            ),
            (
                &[Offer {
                    event: 1,
                    delay: 1,
                    frame: LONG,
                }],
                &[],
            ),
            (&[], &[]),
        ],
        50000,
        Some(SimFault::Disobeys {
            stream: 1,
            instance: 0,
        }),
    ),
    (&[(&[], &[]), (&[], &[])], 100, Some(SimFault::Count)),
];

#[test]
fn faults(rt: HostRuntime) -> Result<(), Fail> {
    let plan = plan_of(rt.alloc(), VALVE)?;
    for case in FAULTS {
        let (scripts, until, wanted) = *case;
        let fault = fault_of(rt.alloc(), &plan, scripts, until.min(50000))?;
        assert!(rt; fault == wanted);
    }
    Ok(())
}

/// What a seed offers for a stream of period 40000 and jitter 99: the event and the delay in ticks,
/// and the frame's bits.
const SEEDED: &[(u64, u64, u32)] = &[(1783, 97, 135), (44499, 55, 127)];

#[test]
fn offers_of_a_seed(rt: HostRuntime) -> Result<(), Fail> {
    let stream = Stream {
        id: 0x36,
        bytes: 8,
        period: 40000,
        jitter: 99,
        deadline: None,
        every: 0,
    };
    let mut seeded = Seeded::new(42, &stream);
    for case in SEEDED {
        let (event, delay, bits) = *case;
        let frame = Content {
            bits,
            body: [0; 8],
            len: 8,
        };
        let offer = Offer {
            event,
            delay,
            frame,
        };
        assert!(rt; seeded.next() == Some(offer), "at {event}");
    }
    Ok(())
}

/// Three PDOs whose second and third have deadlines of their periods at 125 kbit/s.
const THREE: Table = (
    b"id,bytes,period,jitter,deadline\n0x181,7,2500,0,2500\n0x182,7,3500,0,3500\n0x183,7,3500,0,3500\n",
    3,
    &[Rate::Kbit125],
);

/// A frame of 7 bytes with the most stuff bits.
const SEVEN: Content = Content {
    bits: 125,
    body: [0; 8],
    len: 7,
};

const THREE_SCRIPTS: &[Script] = &[
    (
        &[
            Offer {
                event: 0,
                delay: 0,
                frame: SEVEN,
            },
            Offer {
                event: 10000,
                delay: 0,
                frame: SEVEN,
            },
            Offer {
                event: 20000,
                delay: 0,
                frame: SEVEN,
            },
        ],
        &[],
    ),
    (
        &[
            Offer {
                event: 0,
                delay: 0,
                frame: SEVEN,
            },
            Offer {
                event: 14000,
                delay: 0,
                frame: SEVEN,
            },
        ],
        &[],
    ),
    (
        &[
            Offer {
                event: 0,
                delay: 0,
                frame: SEVEN,
            },
            Offer {
                event: 14000,
                delay: 0,
                frame: SEVEN,
            },
        ],
        &[],
    ),
];

/// When the transfers of a run start, and of which identifiers.
fn starts_of(alloc: Global, steps: &[Step]) -> Result<Vec<(u64, u16)>, AllocError> {
    let mut starts = Vec::new(alloc);
    for step in steps {
        if let Step::Start { at, id } = step {
            starts.push((*at, *id))?;
        }
    }
    Ok(starts)
}

/// When the transfers of the three PDOs start, and of which identifiers.
const STARTS: &[(u64, u16)] = &[
    (0, 0x181),
    (4000, 0x182),
    (8000, 0x183),
    (12000, 0x181),
    (16000, 0x182),
    (20000, 0x181),
    (24000, 0x183),
];

/// The run of the three PDOs to 28,000 ticks.
fn three_run(alloc: Global) -> Result<Trace, Fail> {
    let plan = plan_of(alloc, THREE)?;
    Ok(simulated(alloc, &plan, THREE_SCRIPTS, 28_000)?)
}

/// Whether a run has these starts and this last step.
fn runs_so(
    alloc: Global,
    trace: &Trace,
    starts: &[(u64, u16)],
    last: &Step,
) -> Result<bool, AllocError> {
    let found = starts_of(alloc, &trace.steps)?;
    Ok(found.as_slice() == starts && trace.steps.last() == Some(last))
}

// The second instance of the third PDO, of 14,000, ends at 28,000: its longest response.
#[test]
fn the_longest_response_is_reached(rt: HostRuntime) -> Result<(), Fail> {
    let trace = three_run(rt.alloc())?;
    let last = Step::End {
        at: 28_000,
        id: 0x183,
    };
    assert!(rt; runs_so(rt.alloc(), &trace, STARTS, &last)?);
    Ok(())
}
