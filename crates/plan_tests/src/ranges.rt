//! Plans with synchronous PDOs, and over both ranges of identifiers.

ghost use Rattle.std.specs.Prelude.{◌≤◌, ◌<◌, ◌*◌};

use crate::plans::{answer_for, plan_of, respond_so};
use cop_cert::{Cause, Refusal};
use cop_frame::Rate;
use cop_plan::{Outcome, Plan, can_assign};
use cop_rta::{SetFault, Stream, StreamSet, read_streams};
use std::alloc::Global;
use std::test::Fail;

pub(crate) const RATES: &[Rate] = &[Rate::Kbit250, Rate::Kbit500, Rate::Kbit1000];

/// Why a rate is refused.
#[derive(Clone, Copy)]
enum Why {
    /// By so many PDOs.
    Places(usize),
    Sync,
    /// By the SDO frame of this identifier, below so many PDOs that cannot stand below it.
    Sdo(u16, usize),
}

fn has_reason(cause: &Cause, why: Why) -> bool {
    match cause {
        Cause::Places { members } => {
            matches!(why, Why::Places(count) if count == members.as_slice().len())
        }
        Cause::Sync { .. } => matches!(why, Why::Sync),
        Cause::Sdo { up, id, .. } => {
            let above = up.as_slice().len();
            matches!(why, Why::Sdo(frame, count) if frame == *id && count == above)
        }
    }
}

/// Whether a refusal is of this rate, for this reason.
fn is_refused(refusal: &Refusal, row: &(Rate, Why)) -> bool {
    let (rate, why) = *row;
    refusal.rate == rate && has_reason(&refusal.cause, why)
}

fn are_refused(refusals: &[Refusal], rows: &[(Rate, Why)]) -> bool {
    let mut wanted = rows.iter();
    for refusal in refusals {
        let Some(row) = wanted.next() else {
            return false;
        };
        if !is_refused(refusal, row) {
            return false;
        }
    }
    wanted.next().is_none()
}

/// A PDO of 8 bytes that is sent at each SYNC within a latency of 400 ticks, with its deadline, and SYNC. Numbers are ticks.
pub(crate) fn synchronous(alloc: Global, period: u64, deadline: u64) -> Result<StreamSet, SetFault>
    requires period { (400 ≤ period) × (period ≤ 240000000) }
    requires deadline { (1 ≤ deadline) × (deadline ≤ 240000000) }
{
    let mut set = StreamSet::new(alloc);
    set.push(Stream {
        id: 0x181,
        bytes: 8,
        period,
        jitter: 400,
        deadline: Some(deadline),
        every: 1,
    })?;
    set.push(Stream {
        id: 0x80,
        bytes: 0,
        period,
        jitter: 0,
        deadline: None,
        every: 0,
    })?;
    Ok(set)
}

/// The PDO's deadline where SYNC is sent each 10 ms, the rate, the response, and the refusals.
const SYNCED: &[(u64, Rate, u64, &[(Rate, Why)])] = &[
    (6_480, Rate::Kbit250, 6_480, &[]),
    (
        6_476,
        Rate::Kbit500,
        3_440,
        &[(Rate::Kbit250, Why::Places(1))],
    ),
];

/// The plan of a synchronous PDO with this deadline where SYNC is sent each 10 ms.
fn plan_with_sync(alloc: Global, deadline: u64) -> Result<Plan, Fail>
    requires { (1 ≤ deadline) × (deadline ≤ 240000000) }
{
    let set = synchronous(alloc, 40_000, deadline)?;
    let (outcome, _) = answer_for(alloc, &set, 1, RATES)?;
    plan_of(outcome)
}

/// Whether the plan of one PDO is at this rate, with the first identifier and after these refusals.
fn is_plan_of_one(plan: &Plan, rate: Rate, refused: &[(Rate, Why)]) -> bool {
    let ids: &[u16] = &[0x181];
    plan.rate() == rate && plan.ids() == ids && are_refused(plan.refusals(), refused)
}

#[test]
fn a_synchronous_pdo_is_planned(rt: HostRuntime) -> Result<(), Fail> {
    for case in SYNCED {
        let (deadline, rate, response, refused) = *case;
        let plan = plan_with_sync(rt.alloc(), deadline.clamp(1, 40_000))?;
        assert!(rt; is_plan_of_one(&plan, rate, refused));
        assert!(rt; respond_so(rt.alloc(), &plan, &[response])?);
    }
    Ok(())
}

/// The refusals where SYNC is sent each 100 us: at the fastest rate it is not past the horizon, but the PDO is.
const TOO_OFTEN: &[(Rate, Why)] = &[
    (Rate::Kbit250, Why::Sync),
    (Rate::Kbit500, Why::Sync),
    (Rate::Kbit1000, Why::Places(1)),
];

/// Whether there is no plan, but these refusals.
fn has_no_plan(outcome: &Outcome, rows: &[(Rate, Why)]) -> bool {
    match outcome {
        Outcome::Refused(refusals) => are_refused(refusals.as_slice(), rows),
        Outcome::Planned(_) => false,
    }
}

#[test]
fn sync_past_the_horizon_is_refused(rt: HostRuntime) -> Result<(), Fail> {
    let set = synchronous(rt.alloc(), 400, 6_480)?;
    let (outcome, count) = answer_for(rt.alloc(), &set, 1, RATES)?;
    assert!(rt; has_no_plan(&outcome, TOO_OFTEN) && count.trials == 1 && count.busy == 1);
    Ok(())
}

/// Two PDOs without much haste, and an SDO frame: it passes at 250 kbit/s below none of them.
pub(crate) const BELOW_NONE: &[u8] =
    b"id,bytes,period,jitter,deadline\n0x181,8,10000,0,10000\n0x182,8,10000,0,10000\n0x585,8,100000,0,1080\n";

/// There it does not pass at all.
pub(crate) const TOO_LATE: &[u8] =
    b"id,bytes,period,jitter,deadline\n0x181,8,10000,0,10000\n0x182,8,10000,0,10000\n0x585,8,100000,0,1079\n";

/// The first PDO cannot stand below the SDO frame.
const ONE_ABOVE: &[u8] =
    b"id,bytes,period,jitter,deadline\n0x181,8,10000,0,1080\n0x182,8,10000,0,10000\n0x183,8,10000,0,10000\n0x585,8,100000,0,1620\n";

/// There the SDO frame does not pass below it.
pub(crate) const ONE_TOO_MANY: &[u8] =
    b"id,bytes,period,jitter,deadline\n0x181,8,10000,0,1080\n0x182,8,10000,0,10000\n0x183,8,10000,0,10000\n0x585,8,100000,0,1619\n";

/// Neither PDO can stand below both SDO frames, and the first of these passes below both PDOs. At 250 kbit/s each frame takes 540 us: a
/// PDO ends within four of them below the other PDO and the SDO frames, and within three above the SDO frames.
const BOTH_ABOVE: &[u8] =
    b"id,bytes,period,jitter,deadline\n0x181,8,10000,0,1620\n0x182,8,10000,0,1620\n0x585,8,100000,0,2160\n0x605,8,100000,0,\n";

/// There it does not.
pub(crate) const BOTH_TOO_MANY: &[u8] =
    b"id,bytes,period,jitter,deadline\n0x181,8,10000,0,1620\n0x182,8,10000,0,1620\n0x585,8,100000,0,2159\n0x605,8,100000,0,\n";

/// The first PDO can stand below both SDO frames, the others cannot. Among all three the second PDO has the lowest place of the first range,
/// since the third does not pass there; among these two the third has it.
const PLACED_ANEW: &[u8] =
    b"id,bytes,period,jitter,deadline\n0x181,8,10000,0,10000\n0x182,8,10000,0,2160\n0x183,8,10000,0,1620\n0x585,8,100000,0,2160\n0x605,8,100000,0,\n";

/// Two SDO frames that pass below no PDO.
const TWO_FRAMES: &[u8] =
    b"id,bytes,period,jitter,deadline\n0x181,8,10000,0,10000\n0x182,8,10000,0,10000\n0x605,8,100000,0,1079\n0x585,8,100000,0,1079\n";

/// No PDO, and an SDO frame.
const FRAME_ALONE: &[u8] = b"id,bytes,period,jitter,deadline\n0x585,8,100000,0,539\n";

/// The same frames without deadlines.
const NOT_TESTED: &[u8] =
    b"id,bytes,period,jitter,deadline\n0x181,8,10000,0,10000\n0x182,8,10000,0,10000\n0x585,8,100000,0,\n";

/// A table whose first streams are PDOs, the rate, the identifiers, the responses, and the refusals.
#[derive(Drop)]
struct Row {
    table: &'static [u8],
    pdos: usize,
    rate: Rate,
    ids: &'static [u16],
    responses: &'static [u64],
    refused: &'static [(Rate, Why)],
}

const ROWS: &[Row] = &[
    Row {
        table: BELOW_NONE,
        pdos: 2,
        rate: Rate::Kbit250,
        ids: &[0x680, 0x681],
        responses: &[6_480, 6_480],
        refused: &[],
    },
    Row {
        table: TOO_LATE,
        pdos: 2,
        rate: Rate::Kbit500,
        ids: &[0x181, 0x182],
        responses: &[2_160, 3_240],
        refused: &[(Rate::Kbit250, Why::Sdo(0x585, 0))],
    },
    Row {
        table: ONE_ABOVE,
        pdos: 3,
        rate: Rate::Kbit250,
        ids: &[0x181, 0x680, 0x681],
        responses: &[4_320, 8_640, 8_640],
        refused: &[],
    },
    Row {
        table: ONE_TOO_MANY,
        pdos: 3,
        rate: Rate::Kbit500,
        ids: &[0x181, 0x182, 0x183],
        responses: &[2_160, 3_240, 4_320],
        refused: &[(Rate::Kbit250, Why::Sdo(0x585, 1))],
    },
    Row {
        table: BOTH_ABOVE,
        pdos: 2,
        rate: Rate::Kbit250,
        ids: &[0x181, 0x182],
        responses: &[4_320, 6_480],
        refused: &[],
    },
    Row {
        table: BOTH_TOO_MANY,
        pdos: 2,
        rate: Rate::Kbit500,
        ids: &[0x181, 0x182],
        responses: &[2_160, 3_240],
        refused: &[(Rate::Kbit250, Why::Sdo(0x585, 2))],
    },
    Row {
        table: PLACED_ANEW,
        pdos: 3,
        rate: Rate::Kbit250,
        ids: &[0x680, 0x181, 0x182],
        responses: &[10_800, 4_320, 6_480],
        refused: &[],
    },
    Row {
        table: TWO_FRAMES,
        pdos: 2,
        rate: Rate::Kbit500,
        ids: &[0x680, 0x681],
        responses: &[4_320, 4_320],
        refused: &[(Rate::Kbit250, Why::Sdo(0x585, 0))],
    },
    Row {
        table: FRAME_ALONE,
        pdos: 0,
        rate: Rate::Kbit500,
        ids: &[],
        responses: &[],
        refused: &[(Rate::Kbit250, Why::Sdo(0x585, 0))],
    },
    Row {
        table: NOT_TESTED,
        pdos: 2,
        rate: Rate::Kbit250,
        ids: &[0x181, 0x182],
        responses: &[4_320, 6_480],
        refused: &[],
    },
];

fn is_planned(plan: &Plan, row: &Row) -> bool {
    plan.rate() == row.rate && plan.ids() == row.ids && are_refused(plan.refusals(), row.refused)
}

/// The plan of a row.
fn plan_for(alloc: Global, row: &Row) -> Result<Plan, Fail> {
    let set = read_streams(alloc, row.table)?;
    let (outcome, _) = answer_for(alloc, &set, row.pdos, RATES)?;
    plan_of(outcome)
}

#[test]
fn sdo_frames_with_deadlines_are_planned_for(rt: HostRuntime) -> Result<(), Fail> {
    for row in ROWS {
        let plan = plan_for(rt.alloc(), row)?;
        assert!(rt; is_planned(&plan, row) && respond_so(rt.alloc(), &plan, row.responses)?);
    }
    Ok(())
}

/// A frame of 8 bytes that is sent each second.
fn frame_of(id: u16, deadline: u64) -> Stream
    requires id { id < 2048 }
    requires deadline { (1 ≤ deadline) × (deadline ≤ 240000000) }
{
    Stream {
        id,
        bytes: 8,
        period: 4_000_000,
        jitter: 0,
        deadline: Some(deadline),
        every: 0,
    }
}

/// So many PDOs, and after them an SDO frame with its deadline, all of 8 bytes and sent each second. Numbers are ticks.
pub(crate) fn many(alloc: Global, pdos: u16, deadline: u64) -> Result<StreamSet, SetFault>
    requires pdos { pdos ≤ 512 }
    requires deadline { (1 ≤ deadline) × (deadline ≤ 240000000) }
{
    let mut set = StreamSet::new(alloc);
    for k in 0..pdos {
        set.push(frame_of(0x181 + k, 4_000_000))?;
    }
    set.push(frame_of(0x585, deadline))?;
    Ok(set)
}

/// How many PDOs there are, the SDO frame's deadline, and the first identifier at 1 Mbit/s. The second range has room for 96.
const ROOM: &[(u16, u64, Option<u16>)] = &[
    (96, 52_380, Some(0x181)),
    (96, 52_376, Some(0x680)),
    (96, 1_080, Some(0x680)),
    (96, 1_076, None),
    (97, 52_920, Some(0x181)),
    (97, 52_916, None),
];

/// The first identifier of PDOs whose identifiers rise by one. `None` where no rate passes.
fn first_id(outcome: &Outcome) -> Result<Option<u16>, Fail> {
    let Outcome::Planned(plan) = outcome else {
        return Ok(None);
    };
    let first = *plan.ids().first().ok_or("no PDO")?;
    let mut next = u32::from(first);
    for id in plan.ids() {
        if u32::from(*id) != next {
            return Err(Fail::from("a gap"));
        }
        next = u32::from(*id) + 1;
    }
    Ok(Some(first))
}

/// The first identifier of so many PDOs above an SDO frame with its deadline.
fn first_of_many(alloc: Global, pdos: u16, deadline: u64) -> Result<Option<u16>, Fail>
    requires pdos { pdos ≤ 512 }
    requires deadline { (1 ≤ deadline) × (deadline ≤ 240000000) }
{
    let set = many(alloc, pdos, deadline)?;
    let (outcome, _) = answer_for(alloc, &set, usize::from(pdos), &[Rate::Kbit1000])?;
    first_id(&outcome)
}

#[test]
fn the_second_range_has_room_for_96(rt: HostRuntime) -> Result<(), Fail> {
    for case in ROOM {
        let (pdos, deadline, first) = *case;
        let found = first_of_many(rt.alloc(), pdos.min(512), deadline.clamp(1, 4_000_000))?;
        assert!(rt; found == first, "{pdos} {deadline}");
    }
    Ok(())
}

/// A PDO and another frame, of this identifier, and whether the PDO can be planned.
const BESIDE: &[(u16, bool)] = &[
    (0x180, true),
    (0x182, false),
    (0x57F, false),
    (0x580, true),
    (0x67F, true),
    (0x680, false),
    (0x6DF, false),
    (0x6E0, true),
];

fn beside(alloc: Global, id: u16) -> Result<StreamSet, SetFault>
    requires { id < 2048 }
{
    let mut set = StreamSet::new(alloc);
    for id in [0x181, id] {
        set.push(Stream {
            id,
            bytes: 8,
            period: 40_000,
            jitter: 0,
            deadline: Some(40_000),
            every: 0,
        })?;
    }
    Ok(set)
}

#[test]
fn no_other_frame_has_an_identifier_of_a_range(rt: HostRuntime) -> Result<(), Fail> {
    for case in BESIDE {
        let (id, wanted) = *case;
        let set = beside(rt.alloc(), id.min(0x7FF))?;
        assert!(rt; can_assign(&set, 1) == wanted, "{id}");
    }
    Ok(())
}

/// The PDO's period for each second SYNC, SYNC's, and whether the PDO can be planned.
const PACES: &[(u64, u64, bool)] = &[
    (80_000, 40_000, true),
    (40_000, 40_000, false),
    (80_004, 40_000, false),
];

fn each_second(alloc: Global, period: u64, sync: u64) -> Result<StreamSet, SetFault>
    requires period { (400 ≤ period) × (period ≤ 240000000) }
    requires sync { (400 ≤ sync) × (sync ≤ 240000000) }
{
    let mut set = StreamSet::new(alloc);
    set.push(Stream {
        id: 0x181,
        bytes: 8,
        period,
        jitter: 0,
        deadline: Some(40_000),
        every: 2,
    })?;
    set.push(Stream {
        id: 0x80,
        bytes: 0,
        period: sync,
        jitter: 0,
        deadline: None,
        every: 0,
    })?;
    Ok(set)
}

#[test]
fn synchronous_pdos_keep_pace_with_sync(rt: HostRuntime) -> Result<(), Fail> {
    for case in PACES {
        let (period, sync, wanted) = *case;
        let set = each_second(
            rt.alloc(),
            period.clamp(400, 80_004),
            sync.clamp(400, 80_004),
        )?;
        assert!(rt; can_assign(&set, 1) == wanted, "{period} {sync}");
    }
    Ok(())
}
