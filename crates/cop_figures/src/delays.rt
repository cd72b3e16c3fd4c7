//! What the greatest responses of PDOs are made of.

ghost use Rattle.std.specs.Prelude.{◌≡◌, ◌+◌, ◌-◌, ◌*◌, ◌<◌, ◌≤◌, IfOk, length, map, All};
ghost use Rattle.cop_rta.specs.Solutions.{IsLeastSolution};
ghost use Rattle.cop_rta.specs.Test.{place_of, place_by_id, horizon, ahead_of, cost_of, jitter_at, period_at, cost_at, blocking, queueing_at};
ghost use Rattle.cop_rta.specs.Verdict.{PassesBy};
ghost use Rattle.cop_figures.specs.Delays.{delay_by, delays_before, IsBrokenDown, AreBrokenDown};
ghost use Rattle.cop_figures.specs.Figures.{AreTimes};

use crate::times::PdoTimes;
use cop_frame::{Rate, worst_bits};
use cop_plan::Plan;
use cop_rta::{AtRate, Busy, HORIZON, Stream, above_by_id, each_instance_waits, least};
use std::alloc::{AllocError, Global};

/// What a stream with a lower identifier puts in front of a transfer.
#[derive(Clone, Copy, PartialEq, Eq, Debug)]
pub struct Delay {
    pub id: u16,
    /// How many of its transfers go before.
    pub transfers: u64,
    /// How long these take at most, in ticks of 250 ns.
    pub ticks: u64,
}

/// What the greatest response of a PDO is made of. The response is the jitter, the wait and the transfer, less the periods of the instances
/// before it. The wait is the longest transfer from below, its own transfers before it, and the delays. Times are in ticks of 250 ns.
#[derive(Drop)]
pub struct Breakdown {
    /// Its number: the place of its row in the table of PDOs, from 0 on.
    pub pdo: usize,
    /// Its greatest response.
    pub response: u64,
    /// The instance that has this response, counted from 0 since the bus was last free for it.
    pub instance: u64,
    /// From the event until it is queued at the latest; for a synchronous PDO from SYNC's event.
    pub jitter: u64,
    /// From then until its transfer starts.
    pub wait: u64,
    /// The longest transfer of those with higher identifiers, one of which has just begun.
    pub blocking: u64,
    /// Its own transfer, and each of the instances before it.
    pub transfer: u64,
    /// What goes before it, of each stream with a lower identifier.
    pub delays: Vec<Delay>,
}

/// The longest transfer of a stream.
fn transfer_of(stream: &Stream, rate: Rate) -> u64
    ensures value { result ≡ cost_of rate stream.now }
    ensures most { result ≤ 66400 }
{
    let Stream { bytes, .. } = *stream;
    u64::from(worst_bits(bytes)) * u64::from(rate.ticks_per_bit())
}

/// What a stream puts in front of a wait.
fn delay_by(at: &AtRate<'_>, wait: u64, stream: &Stream) -> Delay
    requires { wait ≤ horizon }
    ensures { result ≡ delay_by at.now.rate (ahead_of at.now.streams at.now.rate) wait stream.now }
{
    let Stream { period, .. } = *stream;
    let bit = u64::from(at.rate().ticks_per_bit());
    let transfers = (wait + bit + at.jitter(stream)).div_ceil(period);
    Delay {
        id: stream.id,
        transfers,
        ticks: transfers * transfer_of(stream, at.rate()),
    }
}

/// What the streams with lower identifiers than one put in front of a wait.
fn delays_before(
    alloc: Global,
    at: &AtRate<'_>,
    id: u16,
    wait: u64,
) -> Result<Vec<Delay>, AllocError>
    requires { wait ≤ horizon }
    ensures { IfOk result (λ delays. delays.items ≡ delays_before at.now.streams at.now.rate (ahead_of at.now.streams at.now.rate) id wait) }
{
    let mut delays = Vec::new(alloc);
    for stream in at.set().streams() {
        if stream.id < id {
            delays.push(delay_by(at, wait, stream))?;
        }
    }
    Ok(delays)
}

/// The instance whose response is the greatest of a stream, and how long it waits.
fn latest(busy: &Busy<'_>, response: u64) -> (u64, u64)
    requires index { busy.now.index < length busy.now.streams }
    requires greatest { PassesBy (place_of busy.now) response }
    ensures waits { IsLeastSolution (queueing_at (place_of busy.now) result.0) 0 result.1 }
    ensures within { result.1 ≤ horizon }
    ensures response { response ≡ jitter_at (place_of busy.now) + result.1 + cost_at (place_of busy.now) - result.0 * period_at (place_of busy.now) }
{
    each_instance_waits();
    let Some(time) = busy.time() else {
        unreachable!();
    };
    for number in 0..busy.instances(time) {
        let Some(wait) = least(&busy.queueing(number), 0, HORIZON) else {
            unreachable!();
        };
        if busy.response(number, wait) == u128::from(response) {
            return (number, wait);
        }
    }
    unreachable!()
}

/// The longest transfer from below that an instance waits for.
fn blocking_of(busy: &Busy<'_>, number: u64, wait: u64) -> u64
    requires { IsLeastSolution (queueing_at (place_of busy.now) number) 0 wait }
    ensures { result ≡ blocking (place_of busy.now) }
{
    let _ = (number, wait);
    busy.start_of(0) as u64
}

/// What the greatest response of a PDO is made of. The flags are of its streams, and each is set anew.
fn breakdown_of(
    alloc: Global,
    at: &AtRate<'_>,
    above: &mut [bool],
    times: &PdoTimes,
) -> Result<Breakdown, AllocError>
    requires flags { length above.old ≡ length at.now.streams }
    requires index { times.now.pdo < length at.now.streams }
    requires greatest { PassesBy (place_by_id at.now.streams times.now.pdo at.now.rate) times.now.response }
    ensures flags { length above.new ≡ length at.now.streams }
    ensures pdo { IfOk result (λ b. b.pdo ≡ times.now.pdo) }
    ensures parts { IfOk result (IsBrokenDown (place_by_id at.now.streams times.now.pdo at.now.rate)) }
{
    above_by_id(at.set(), times.pdo, above);
    let busy = Busy::among(at, above, times.pdo);
    let stream = busy.stream();
    let (instance, wait) = latest(&busy, times.response);
    Ok(Breakdown {
        pdo: times.pdo,
        response: times.response,
        instance,
        jitter: busy.jitter(),
        wait,
        blocking: blocking_of(&busy, instance, wait),
        transfer: transfer_of(stream, at.rate()),
        delays: delays_before(alloc, at, stream.id, wait)?,
    })
}

/// What the greatest responses of some PDOs are made of, in their order. The flags are of the streams, and are set anew.
fn break_down(
    alloc: Global,
    at: &AtRate<'_>,
    above: &mut [bool],
    times: &[PdoTimes],
) -> Result<Vec<Breakdown>, AllocError>
    requires flags { length above.old ≡ length at.now.streams }
    requires within { All (λ t. t.pdo < length at.now.streams) times.now }
    requires greatest { All (λ t. PassesBy (place_by_id at.now.streams t.pdo at.now.rate) t.response) times.now }
    ensures pdos { IfOk result (λ parts. map (λ b. b.pdo) parts.items ≡ map (λ t. t.pdo) times.now) }
    ensures each { IfOk result (λ parts. All (λ b. IsBrokenDown (place_by_id at.now.streams b.pdo at.now.rate) b) parts.items) }
{
    let mut parts = Vec::new(alloc);
    for time in times {
        parts.push(breakdown_of(alloc, at, above, time)?)?;
    }
    Ok(parts)
}

/// What the greatest responses of the PDOs of a plan are made of, that with the lowest identifier first. `Err` is want of memory.
pub fn breakdowns_of(
    alloc: Global,
    plan: &Plan,
    times: &[PdoTimes],
) -> Result<Vec<Breakdown>, AllocError>
    requires { AreTimes plan.now times.now }
    ensures { IfOk result (λ parts. AreBrokenDown plan.now parts.items) }
{
    let set = plan.streams();
    let at = AtRate::new(set, plan.rate());
    let mut above = vec![in alloc; false; set.len()]?;
    break_down(alloc, &at, &mut above, times)
}
