//! The numbers of a plan that are tried.

ghost use Rattle.std.specs.Prelude.{◌≡◌, ℕ, ◌*◌, ◌+◌, ◌≤◌, ◌==◌, if◌then◌else◌};
ghost use Rattle.cop_rta.specs.Entries.{entry_of};
ghost use Rattle.cop_room.specs.Changes.{with_period, with_deadline, with_pace, with_jitter, with_bytes, with_sync_period, with_periods, with_times, with_deadlines, scaled, scaled_period};
ghost use Rattle.cop_room.specs.Numbers.{change_of, IsInRange};

use cop_frame::identifiers::SYNC;
use cop_rta::Stream;

/// The longest jitter of a table, in microseconds.
pub(crate) const LONGEST_JITTER: u64 = 60_000_000;

/// The longest deadline, in ticks.
const LONGEST_DEADLINE: u64 = 240_000_000;

/// The most bytes of a frame.
pub(crate) const MOST_BYTES: u64 = 8;

/// A number of a plan, by whose place in its range streams are changed: the first place asks the most of a bus. Times are in microseconds.
#[derive(Clone, Copy, PartialEq, Eq, Debug)]
pub(crate) enum Number {
    /// The period of a row.
    Period(usize),
    /// The deadline of a row.
    Deadline(usize),
    /// The period and the deadline of a row, alike.
    Pace(usize),
    /// How far the jitter of a row is below the longest.
    Jitter(usize),
    /// How many bytes a row has less than the most.
    Bytes(usize),
    /// The period of SYNC, with all synchronous rows.
    SyncPeriod,
    /// Thousandths of all periods.
    Periods,
    /// Thousandths of all periods and deadlines.
    Times,
    /// Thousandths of all deadlines, 60 s at most.
    Deadlines,
}

/// The stream with another period, in ticks.
fn with_period(stream: &Stream, period: u64) -> Stream
    requires least { 400 ≤ period }
    requires most { period ≤ 240000000 }
    ensures { entry_of result ≡ with_period period (entry_of stream.now) }
{
    let Stream {
        id,
        bytes,
        jitter,
        deadline,
        every,
        ..
    } = *stream;
    Stream {
        id,
        bytes,
        period,
        jitter,
        deadline,
        every,
    }
}

/// The stream with another jitter, in ticks.
fn with_jitter(stream: &Stream, jitter: u64) -> Stream
    requires { jitter ≤ 240000000 }
    ensures { entry_of result ≡ with_jitter jitter (entry_of stream.now) }
{
    let Stream {
        id,
        bytes,
        period,
        deadline,
        every,
        ..
    } = *stream;
    Stream {
        id,
        bytes,
        period,
        jitter,
        deadline,
        every,
    }
}

/// The stream with so many bytes.
fn with_bytes(stream: &Stream, bytes: u8) -> Stream
    requires { bytes ≤ 8 }
    ensures { entry_of result ≡ with_bytes bytes (entry_of stream.now) }
{
    let Stream {
        id,
        period,
        jitter,
        deadline,
        every,
        ..
    } = *stream;
    Stream {
        id,
        bytes,
        period,
        jitter,
        deadline,
        every,
    }
}

/// The stream with another deadline, in ticks.
fn with_deadline(stream: &Stream, ticks: u64) -> Stream
    requires least { 1 ≤ ticks }
    requires most { ticks ≤ 240000000 }
    ensures { entry_of result ≡ with_deadline ticks (entry_of stream.now) }
{
    let Stream {
        id,
        bytes,
        period,
        jitter,
        every,
        ..
    } = *stream;
    Stream {
        id,
        bytes,
        period,
        jitter,
        deadline: Some(ticks),
        every,
    }
}

/// The stream with another period, and as many ticks for its deadline.
fn with_pace(stream: &Stream, ticks: u64) -> Stream
    requires least { 400 ≤ ticks }
    requires most { ticks ≤ 240000000 }
    ensures { entry_of result ≡ with_pace ticks (entry_of stream.now) }
{
    with_deadline(&with_period(stream, ticks), ticks)
}

/// The stream where SYNC has another period, in ticks.
fn with_sync_period(stream: &Stream, period: u64) -> Stream
    requires period { period ≤ 240000000000 }
    requires range { IsInRange (with_sync_period period 0 (entry_of stream.now)) }
    ensures { entry_of result ≡ with_sync_period period 0 (entry_of stream.now) }
{
    let (id, every) = (stream.id, stream.every);
    if id == SYNC {
        with_period(stream, period)
    } else if every == 0 {
        *stream
    } else {
        with_period(stream, u64::from(every) * period)
    }
}

/// So many thousandths of a time in whole microseconds, and so many ticks at least.
fn scaled(least: u64, part: u64, time: u64) -> u64
    requires least { least ≤ 400 }
    requires part { part ≤ 60000000000 }
    requires time { time ≤ 240000000 }
    ensures { result ≡ scaled least part time }
{
    (4 * (time / 4 * part).div_ceil(1000)).max(least)
}

/// A period in so many thousandths.
fn scaled_period(stream: &Stream, part: u64) -> u64
    requires { part ≤ 60000000000 }
    ensures { result ≡ scaled_period part (entry_of stream.now) }
{
    let Stream { period, every, .. } = *stream;
    if every == 0 {
        scaled(400, part, period)
    } else {
        let every = u64::from(every);
        every * scaled(400, part, period / every)
    }
}

/// The stream with its period in so many thousandths.
fn with_periods(stream: &Stream, part: u64) -> Stream
    requires part { part ≤ 60000000000 }
    requires range { IsInRange (with_periods part 0 (entry_of stream.now)) }
    ensures { entry_of result ≡ with_periods part 0 (entry_of stream.now) }
{
    with_period(stream, scaled_period(stream, part))
}

/// The stream with its period and its deadline in so many thousandths.
fn with_times(stream: &Stream, part: u64) -> Stream
    requires part { part ≤ 60000000000 }
    requires range { IsInRange (with_times part 0 (entry_of stream.now)) }
    ensures { entry_of result ≡ with_times part 0 (entry_of stream.now) }
{
    let shorter = with_period(stream, scaled_period(stream, part));
    match stream.deadline {
        Some(deadline) => with_deadline(&shorter, scaled(4, part, deadline)),
        None => shorter,
    }
}

/// The stream with its deadline in so many thousandths, 60 s at most.
fn with_deadlines(stream: &Stream, part: u64) -> Stream
    requires { part ≤ 60000000000 }
    ensures { entry_of result ≡ with_deadlines part 0 (entry_of stream.now) }
{
    match stream.deadline {
        Some(deadline) => with_deadline(stream, scaled(4, part, deadline).min(LONGEST_DEADLINE)),
        None => *stream,
    }
}

/// The stream at an index, where a number has some place in its range.
pub(crate) fn changed(stream: &Stream, index: usize, number: Number, place: u64) -> Stream
    requires place { place ≤ 60000000000 }
    requires range { IsInRange (change_of number place index (entry_of stream.now)) }
    ensures { entry_of result ≡ change_of number place index (entry_of stream.now) }
{
    match number {
        Number::Period(row) if row == index => with_period(stream, 4 * place),
        Number::Deadline(row) if row == index => with_deadline(stream, 4 * place),
        Number::Pace(row) if row == index => with_pace(stream, 4 * place),
        Number::Jitter(row) if row == index => {
            with_jitter(stream, 4 * LONGEST_JITTER.saturating_sub(place))
        }
        Number::Bytes(row) if row == index => {
            with_bytes(stream, MOST_BYTES.saturating_sub(place) as u8)
        }
        Number::SyncPeriod => with_sync_period(stream, 4 * place),
        Number::Periods => with_periods(stream, place),
        Number::Times => with_times(stream, place),
        Number::Deadlines => with_deadlines(stream, place),
        _ => *stream,
    }
}
