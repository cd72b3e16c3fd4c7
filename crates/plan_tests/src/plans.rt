ghost use Rattle.std.specs.Prelude.{◌≤◌, ◌<◌};

use cop_cert::{Cause, Evidence, Member, Refusal};
use cop_frame::{Rate, RateSet};
use cop_plan::{Count, Outcome, Plan, assign, can_assign};
use cop_rta::{SetFault, Stream, StreamSet, Verdict, above_by_id, read_streams, verdict};
use std::alloc::Global;
use std::test::Fail;

const ALL: &[Rate] = &Rate::ALL;

const THREE: &[u8] =
    b"id,bytes,period,jitter,deadline\n0x181,7,2500,0,2500\n0x182,7,3500,0,3250\n0x183,7,3500,0,3250\n";

const TWO: &[u8] =
    b"id,bytes,period,jitter,deadline\n0x181,8,100000,0,1080\n0x182,8,100000,0,100000\n";
// The order by deadline minus jitter fails here.
const LATE_JITTER: &[u8] =
    b"id,bytes,period,jitter,deadline\n0x181,8,1350,1282,1600\n0x182,8,13500,0,330\n";

const AT_THE_DEADLINE: &[u8] = b"id,bytes,period,jitter,deadline\n0x181,8,1080,0,1080\n";

const PAST_THE_DEADLINE: &[u8] = b"id,bytes,period,jitter,deadline\n0x181,8,1080,0,1079\n";

const WITHIN_169: &[u8] = b"id,bytes,period,jitter,deadline\n0x181,8,100000,0,169\n";

const WITHIN_168: &[u8] = b"id,bytes,period,jitter,deadline\n0x181,8,100000,0,168\n";

const TOO_BUSY: &[u8] = b"id,bytes,period,jitter,deadline\n0x181,8,500,0,500\n";

const NONE: &[u8] = b"id,bytes,period,jitter,deadline\n";

// What is planned for a table all of whose streams are PDOs, and what it took.
fn answer(alloc: Global, table: &[u8], candidates: &[Rate]) -> Result<(Outcome, Count), Fail> {
    let set = read_streams(alloc, table)?;
    let pdos = set.len();
    answer_for(alloc, &set, pdos, candidates)
}

/// The set of these rates.
pub(crate) fn rates_of(rates: &[Rate]) -> RateSet {
    let mut set = RateSet::new();
    for rate in rates {
        set.insert(*rate);
    }
    set
}

// What is planned for streams of which the first are PDOs, and what it took.
pub(crate) fn answer_for(
    alloc: Global,
    set: &StreamSet,
    pdos: usize,
    candidates: &[Rate],
) -> Result<(Outcome, Count), Fail> {
    let rates = rates_of(candidates);
    if !can_assign(set, pdos) {
        return Err(Fail::from("not to be assigned"));
    }
    let mut count = Count { trials: 0, busy: 0 };
    let outcome = assign(alloc, set, pdos, &rates, &mut count)?;
    Ok((outcome, count))
}

// The plan of an outcome.
pub(crate) fn plan_of(outcome: Outcome) -> Result<Plan, Fail> {
    match outcome {
        Outcome::Planned(plan) => Ok(plan),
        Outcome::Refused(_) => Err(Fail::from("no rate passes")),
    }
}

// The response of each PDO of a plan, in ticks.
fn responses(alloc: Global, plan: &Plan) -> Result<Vec<u64>, Fail> {
    let set = plan.streams();
    let mut above = [false; StreamSet::MOST];
    let above = &mut above[..set.streams().len()];
    let mut found = Vec::new(alloc);
    for pdo in 0..plan.ids().len().min(set.len()) {
        above_by_id(set, pdo, above);
        match verdict(set, above, pdo, plan.rate()) {
            Verdict::Pass { response } => found.push(response)?,
            _ => return Err(Fail::from("late")),
        }
    }
    Ok(found)
}

// Whether the PDOs of a plan have these responses, in ticks.
pub(crate) fn respond_so(alloc: Global, plan: &Plan, wanted: &[u64]) -> Result<bool, Fail> {
    Ok(responses(alloc, plan)?.as_slice() == wanted)
}

// A table, the candidates, the rate, the identifiers, the responses, and the rates and members of the refusals.
#[derive(Drop)]
struct Row {
    table: &'static [u8],
    candidates: &'static [Rate],
    rate: Rate,
    ids: &'static [u16],
    responses: &'static [u64],
    refused: &'static [(Rate, usize)],
    // n(n+1)/2 for each rate that is tried
    trials: u64,
}

const ROWS: &[Row] = &[
    Row {
        table: THREE,
        candidates: ALL,
        rate: Rate::Kbit250,
        ids: &[0x181, 0x182, 0x183],
        responses: &[4000, 6000, 6000],
        refused: &[
            (Rate::Kbit10, 3),
            (Rate::Kbit20, 3),
            (Rate::Kbit50, 3),
            (Rate::Kbit125, 3),
        ],
        trials: 30,
    },
    Row {
        table: AT_THE_DEADLINE,
        candidates: ALL,
        rate: Rate::Kbit125,
        ids: &[0x181],
        responses: &[4320],
        refused: &[(Rate::Kbit10, 1), (Rate::Kbit20, 1), (Rate::Kbit50, 1)],
        trials: 4,
    },
    Row {
        table: WITHIN_169,
        candidates: &[Rate::Kbit800, Rate::Kbit1000],
        rate: Rate::Kbit800,
        ids: &[0x181],
        responses: &[675],
        refused: &[],
        trials: 1,
    },
    Row {
        table: WITHIN_168,
        candidates: &[Rate::Kbit1000, Rate::Kbit800],
        rate: Rate::Kbit1000,
        ids: &[0x181],
        responses: &[540],
        refused: &[(Rate::Kbit800, 1)],
        trials: 2,
    },
    Row {
        table: TWO,
        candidates: &[Rate::Kbit125, Rate::Kbit250],
        rate: Rate::Kbit250,
        ids: &[0x181, 0x182],
        responses: &[4320, 4320],
        refused: &[(Rate::Kbit125, 1)],
        trials: 6,
    },
    Row {
        table: LATE_JITTER,
        candidates: &[Rate::Kbit1000],
        rate: Rate::Kbit1000,
        ids: &[0x182, 0x181],
        responses: &[6208, 1080],
        refused: &[],
        trials: 3,
    },
    Row {
        table: NONE,
        candidates: &[Rate::Kbit500, Rate::Kbit250],
        rate: Rate::Kbit250,
        ids: &[],
        responses: &[],
        refused: &[],
        trials: 0,
    },
];

// The members of a refusal by places.
fn members_of(refusal: &Refusal) -> &[Member] {
    match &refusal.cause {
        Cause::Places { members } => members.as_slice(),
        Cause::Sync { .. } | Cause::Sdo { .. } => &[],
    }
}

fn are_refused(refusals: &[Refusal], rows: &[(Rate, usize)]) -> bool {
    let mut wanted = rows.iter();
    for refusal in refusals {
        let members = members_of(refusal).len();
        if wanted.next() != Some(&(refusal.rate, members)) {
            return false;
        }
    }
    wanted.next().is_none()
}

// Whether each member has a busy period above the horizon.
fn is_long(refusal: &Refusal) -> bool {
    members_of(refusal)
        .iter()
        .all(|member| matches!(member.evidence, Evidence::Long { .. }))
}

// Whether a plan is as its row says, with its trials.
fn is_planned(plan: &Plan, count: Count, row: &Row) -> bool {
    plan.rate() == row.rate
        && plan.ids() == row.ids
        && are_refused(plan.refusals(), row.refused)
        && count.trials <= row.trials
}

// Whether the table of a row is planned as the row says.
fn plans_row(alloc: Global, row: &Row) -> Result<bool, Fail> {
    let (outcome, count) = answer(alloc, row.table, row.candidates)?;
    let plan = plan_of(outcome)?;
    Ok(is_planned(&plan, count, row) && respond_so(alloc, &plan, row.responses)?)
}

#[test]
fn slowest_rates_are_planned(rt: HostRuntime) -> Result<(), Fail> {
    for row in ROWS {
        assert!(rt; plans_row(rt.alloc(), row)?);
    }
    Ok(())
}

// A table, the candidates, and how many busy times are sought: one for each place that is looked at.
const SOUGHT: &[(&[u8], &[Rate], u64)] = &[
    // At four rates no PDO passes at the lowest place, at the fifth each gets its place.
    (THREE, ALL, 7),
    (AT_THE_DEADLINE, ALL, 4),
    // At the first rate one PDO gets its place, and the other does not pass.
    (TWO, &[Rate::Kbit125, Rate::Kbit250], 4),
    (TOO_BUSY, &[Rate::Kbit125], 1),
    (NONE, &[Rate::Kbit500], 0),
];

#[test]
fn busy_times_are_counted(rt: HostRuntime) -> Result<(), Fail> {
    for case in SOUGHT {
        let (table, candidates, busy) = *case;
        let (_, count) = answer(rt.alloc(), table, candidates)?;
        assert!(rt; count.busy == busy);
    }
    Ok(())
}

// A table, the candidates, and the whole evidence of the one member of the last refusal, which is the first PDO.
#[derive(Drop)]
struct Alone {
    table: &'static [u8],
    candidates: &'static [Rate],
    busy: &'static [u64],
    queue: &'static [u64],
}

const ALONE: &[Alone] = &[
    Alone {
        table: PAST_THE_DEADLINE,
        candidates: ALL,
        busy: &[1, 4320],
        queue: &[0],
    },
    Alone {
        table: TWO,
        candidates: &[Rate::Kbit125, Rate::Kbit250],
        busy: &[1, 8640],
        queue: &[4320],
    },
];

// Whether the one member is the first PDO, with this evidence that its first instance is late.
fn is_late(refusal: &Refusal, busy: &[u64], queue: &[u64]) -> bool {
    match members_of(refusal) {
        [member] => match &member.evidence {
            Evidence::Late {
                q,
                busy: longer,
                queue: waits,
            } => {
                member.pdo == 0 && *q == 0 && longer.as_slice() == busy && waits.as_slice() == queue
            }
            Evidence::Long { .. } => false,
        },
        _ => false,
    }
}

// Whether the last of some refusals has the evidence of a row.
fn ends_so(refusals: &[Refusal], row: &Alone) -> bool {
    match refusals {
        [.., refusal] => is_late(refusal, row.busy, row.queue),
        [] => false,
    }
}

// Whether the last refusal for a row's table has its evidence.
fn has_evidence(alloc: Global, row: &Alone) -> Result<bool, Fail> {
    let (outcome, _) = answer(alloc, row.table, row.candidates)?;
    Ok(ends_so(plan_of(outcome)?.refusals(), row))
}

#[test]
fn the_last_refusal_has_its_evidence(rt: HostRuntime) -> Result<(), Fail> {
    for row in ALONE {
        assert!(rt; has_evidence(rt.alloc(), row)?);
    }
    Ok(())
}

// Whether the one candidate of 125 kbit/s is refused by one PDO, which is busy past the horizon.
fn is_too_busy(outcome: &Outcome) -> bool {
    match outcome {
        Outcome::Refused(refusals) => {
            let refusals = refusals.as_slice();
            are_refused(refusals, &[(Rate::Kbit125, 1)])
                && refusals.iter().all(|refusal| is_long(refusal))
        }
        Outcome::Planned(_) => false,
    }
}

#[test]
fn no_rate_passes(rt: HostRuntime) -> Result<(), Fail> {
    let (outcome, count) = answer(rt.alloc(), TOO_BUSY, &[Rate::Kbit125])?;
    assert!(rt; is_too_busy(&outcome) && count.trials == 1);
    Ok(())
}

// 512 PDOs of 8 bytes, each with a period and a deadline of a second.
fn largest(alloc: Global) -> Result<StreamSet, Fail> {
    let mut set = StreamSet::new(alloc);
    for k in 0..512u16 {
        set.push(Stream {
            id: 0x181 + k,
            bytes: 8,
            period: 4_000_000,
            jitter: 0,
            deadline: Some(4_000_000),
            every: 0,
        })?;
    }
    Ok(set)
}

// Whether the PDOs have the first identifiers in their own order.
fn keeps_order(plan: &Plan) -> bool {
    plan.ids()
        .iter()
        .enumerate()
        .all(|(k, id)| usize::from(*id) == 0x181 + k)
        && plan.order().iter().enumerate().all(|(k, pdo)| *pdo == k)
}

// The plan of the largest table.
fn largest_plan(alloc: Global) -> Result<Plan, Fail> {
    let set = largest(alloc)?;
    if !can_assign(&set, 512) {
        return Err(Fail::from("not to be assigned"));
    }
    let mut count = Count { trials: 0, busy: 0 };
    plan_of(assign(alloc, &set, 512, &rates_of(&[Rate::Kbit1000]), &mut count)?)
}

// PDOs of the largest table, and their responses in ticks.
const RESPONSES: &[(usize, u64)] = &[(0, 1080), (1, 1620), (510, 276_480), (511, 276_480)];

// Whether some places of a list have these numbers.
fn are_there(list: &[u64], wanted: &[(usize, u64)]) -> bool {
    for case in wanted {
        let (place, number) = *case;
        if list.get(place) != Some(&number) {
            return false;
        }
    }
    true
}

#[test]
fn the_largest_table_keeps_its_order(rt: HostRuntime) -> Result<(), Fail> {
    let plan = largest_plan(rt.alloc())?;
    assert!(rt; keeps_order(&plan));
    assert!(rt; are_there(&responses(rt.alloc(), &plan)?, RESPONSES));
    Ok(())
}

// 512 PDOs of 8 bytes, each sent at each SYNC, which comes each second.
fn push_synchronous(set: &mut StreamSet) -> Result<(), SetFault> {
    for k in 0..512u16 {
        set.push(Stream {
            id: 0x181 + k,
            bytes: 8,
            period: 4_000_000,
            jitter: 0,
            deadline: Some(4_000_000),
            every: 1,
        })?;
    }
    Ok(())
}

// A frame without data.
fn without_data(id: u16, period: u64) -> Stream
    requires id { id < 2048 }
    requires period { (400 ≤ period) × (period ≤ 240000000) }
{
    Stream {
        id,
        bytes: 0,
        period,
        jitter: 0,
        deadline: None,
        every: 0,
    }
}

// The identifiers of 587 other frames, from one on and below another.
const OTHERS: &[(u16, u16)] = &[(0, 0x80), (0x81, 0x181), (0x580, 0x64B)];

// SYNC each second, and these each minute.
fn push_fixed(set: &mut StreamSet) -> Result<(), SetFault> {
    set.push(without_data(0x80, 4_000_000))?;
    for case in OTHERS {
        let (first, end) = *case;
        for id in first..end {
            set.push(without_data(id.min(0x7FF), 240_000_000))?;
        }
    }
    Ok(())
}

// The plan at 1 Mbit/s of as many streams as a set has at most, of which all PDOs are synchronous.
fn synchronous_plan(alloc: Global) -> Result<Plan, Fail> {
    let mut set = StreamSet::new(alloc);
    push_synchronous(&mut set)?;
    push_fixed(&mut set)?;
    let (outcome, _) = answer_for(alloc, &set, 512, &[Rate::Kbit1000])?;
    plan_of(outcome)
}

// PDOs of that plan, and their responses in ticks. A frame without data takes 220, a PDO 540. SYNC waits for a PDO and for the 128 frames
// below 80h, and ends 28,920 after its event; the first PDO is queued then, and waits for another PDO and for all 385 frames below 181h.
const SYNCHRONOUS_RESPONSES: &[(usize, u64)] = &[
    (0, 114_700),
    (1, 115_240),
    (510, 390_100),
    // No PDO is below it, but a frame without data.
    (511, 390_320),
];

#[test]
fn eleven_hundred_streams_with_synchronous_pdos_are_planned(rt: HostRuntime) -> Result<(), Fail> {
    let plan = synchronous_plan(rt.alloc())?;
    assert!(rt; plan.streams().len() == StreamSet::MOST && keeps_order(&plan));
    assert!(rt; are_there(&responses(rt.alloc(), &plan)?, SYNCHRONOUS_RESPONSES));
    Ok(())
}

#[test]
fn what_cannot_be_assigned(rt: HostRuntime) -> Result<(), Fail> {
    let table: &[u8] =
        b"id,bytes,period,jitter,deadline\n0x181,8,1000,0,1000\n0x182,8,1000,0,\n0x81,8,1000,0,\n";
    let set = read_streams(rt.alloc(), table)?;
    for pdos in [0, 1, 2, 4] {
        assert!(rt; !can_assign(&set, pdos));
    }
    Ok(())
}

#[test]
fn what_can_be_assigned(rt: HostRuntime) -> Result<(), Fail> {
    let table: &[u8] =
        b"id,bytes,period,jitter,deadline\n0x181,8,1000,0,1000\n0x81,8,1000,0,\n0x580,8,1000,0,\n";
    let set = read_streams(rt.alloc(), table)?;
    assert!(rt; can_assign(&set, 1) && !can_assign(&set, 2));
    Ok(())
}
