ghost use Rattle.std.specs.Prelude.{◌≤◌, ◌<◌, ◌^◌, ◌≡◌, ℕ, None, IfOk, All, [], true};
ghost use Rattle.cop_bus.specs.Bus.{AreQueuedBy};

use cop_bus::{
    Bus, BusFault, Content, Full, Instance, Ring, Started, Step, Trace, first_late, judge,
    read_trace, write_trace,
};
use cop_frame::Rate;
use cop_rta::{SetFault, Stream, StreamSet};
use std::alloc::{AllocError, Global};
use std::test::Fail;

pub fn queue(at: u64, id: u16, event: u64, bits: u32, len: u8) -> Step {
    Step::Queue {
        at,
        id,
        event,
        frame: Content {
            bits,
            body: [0; 8],
            len,
        },
    }
}

pub fn start(at: u64, id: u16) -> Step {
    Step::Start { at, id }
}

pub fn end(at: u64, id: u16) -> Step {
    Step::End { at, id }
}

pub fn trace(alloc: Global, until: u64, steps: &[Step]) -> Result<Trace, AllocError> {
    let steps = Vec::from_slice(alloc, steps)?;
    Ok(Trace { until, steps })
}

/// The set of these streams.
pub fn set_of(alloc: Global, streams: &[Stream]) -> Result<StreamSet, SetFault> {
    let mut set = StreamSet::new(alloc);
    for stream in streams {
        set.push(*stream)?;
    }
    Ok(set)
}

/// 181h and 182h of 8 bytes, the second with a deadline.
pub fn two_streams(alloc: Global, deadline: u64) -> Result<StreamSet, SetFault>
    requires { (1 ≤ deadline) × (deadline ≤ 240000000) }
{
    let first = Stream {
        id: 0x181,
        bytes: 8,
        period: 4000,
        jitter: 0,
        deadline: None,
        every: 0,
    };
    let second = Stream {
        id: 0x182,
        bytes: 8,
        period: 4000,
        jitter: 0,
        deadline: Some(deadline),
        every: 0,
    };
    set_of(alloc, &[first, second])
}

/// The step of a run that is late first.
fn late_in(
    alloc: Global,
    set: &StreamSet,
    rate: Rate,
    trace: &Trace,
) -> Result<Option<usize>, BusFault> {
    let run = judge(alloc, set, rate, trace)?;
    Ok(first_late(&run))
}

fn late_joiner() -> [Step; 6] {
    [
        queue(100, 0x182, 100, 135, 8),
        start(100, 0x181),
        queue(102, 0x181, 102, 111, 8),
        end(544, 0x181),
        start(544, 0x182),
        end(1084, 0x182),
    ]
}

/// The step of the late joiner's trace that is late first, by this deadline of 182h in ticks.
fn late_joiner_step(alloc: Global, deadline: u64) -> Result<Option<usize>, Fail>
    requires { (1 ≤ deadline) × (deadline ≤ 240000000) }
{
    let set = two_streams(alloc, deadline)?;
    let trace = trace(alloc, 1084, &late_joiner())?;
    Ok(late_in(alloc, &set, Rate::Kbit1000, &trace)?)
}

#[test]
fn late_joiner_is_judged(rt: HostRuntime) -> Result<(), Fail> {
    assert!(rt; late_joiner_step(rt.alloc(), 983)? == Some(1));
    assert!(rt; late_joiner_step(rt.alloc(), 984)?.is_none());
    Ok(())
}

/// Whether a trace is refused at this place, by the rule of this number.
fn is_refused(
    alloc: Global,
    set: &StreamSet,
    trace: &Trace,
    place: usize,
    number: u8,
) -> Result<bool, BusFault> {
    match judge(alloc, set, Rate::Kbit1000, trace) {
        Err(BusFault::Memory) => Err(BusFault::Memory),
        Err(fault) => Ok(fault == BusFault::Refused { place, number }),
        Ok(_) => Ok(false),
    }
}

/// Whether these steps of the two streams are refused at this place, by the rule of this number.
fn are_refused(
    alloc: Global,
    until: u64,
    steps: &[Step],
    place: usize,
    number: u8,
) -> Result<bool, Fail> {
    let set = two_streams(alloc, 984)?;
    let trace = trace(alloc, until, steps)?;
    Ok(is_refused(alloc, &set, &trace, place, number)?)
}

#[test]
fn a_late_join_is_refused(rt: HostRuntime) -> Result<(), Fail> {
    let mut joins_later = late_joiner();
    joins_later[2] = queue(104, 0x181, 104, 111, 8);
    assert!(rt; are_refused(rt.alloc(), 1084, &joins_later, 2, 66)?);
    Ok(())
}

#[test]
fn broken_traces_are_refused(rt: HostRuntime) -> Result<(), Fail> {
    let overtaken = [
        queue(100, 0x181, 100, 135, 8),
        queue(100, 0x182, 100, 135, 8),
        start(100, 0x182),
    ];
    assert!(rt; are_refused(rt.alloc(), 100, &overtaken, 3, 67)?);
    let idle = [queue(100, 0x182, 100, 135, 8), start(101, 0x182)];
    assert!(rt; are_refused(rt.alloc(), 101, &idle, 2, 68)?);
    let short = [queue(100, 0x182, 100, 135, 7)];
    assert!(rt; are_refused(rt.alloc(), 100, &short, 1, 64)?);
    Ok(())
}

/// A PDO of 7 bytes, with its period and deadline in ticks.
fn pdo(id: u16, period: u64, deadline: u64) -> Stream
    requires id { id < 2048 }
    requires period { (400 ≤ period) × (period ≤ 240000000) }
    requires deadline { (1 ≤ deadline) × (deadline ≤ 240000000) }
{
    Stream {
        id,
        bytes: 7,
        period,
        jitter: 0,
        deadline: Some(deadline),
        every: 0,
    }
}

fn three_streams(alloc: Global, deadline: u64) -> Result<StreamSet, SetFault>
    requires { (1 ≤ deadline) × (deadline ≤ 240000000) }
{
    let streams = [
        pdo(0x181, 10_000, 10_000),
        pdo(0x182, 14_000, 13_000),
        pdo(0x183, 14_000, deadline),
    ];
    set_of(alloc, &streams)
}

fn steps_of_three() -> [Step; 21] {
    [
        queue(0, 0x181, 0, 125, 7),
        queue(0, 0x182, 0, 125, 7),
        queue(0, 0x183, 0, 125, 7),
        start(0, 0x181),
        end(4000, 0x181),
        start(4000, 0x182),
        end(8000, 0x182),
        start(8000, 0x183),
        queue(10_000, 0x181, 10_000, 125, 7),
        end(12_000, 0x183),
        start(12_000, 0x181),
        queue(14_000, 0x182, 14_000, 125, 7),
        queue(14_000, 0x183, 14_000, 125, 7),
        end(16_000, 0x181),
        start(16_000, 0x182),
        end(20_000, 0x182),
        queue(20_000, 0x181, 20_000, 125, 7),
        start(20_000, 0x181),
        end(24_000, 0x181),
        start(24_000, 0x183),
        end(28_000, 0x183),
    ]
}

/// The step of the trace of three streams that is late first, by this deadline of 183h in ticks.
fn step_of_three(alloc: Global, deadline: u64) -> Result<Option<usize>, Fail>
    requires { (1 ≤ deadline) × (deadline ≤ 240000000) }
{
    let set = three_streams(alloc, deadline)?;
    let trace = trace(alloc, 28_000, &steps_of_three())?;
    Ok(late_in(alloc, &set, Rate::Kbit125, &trace)?)
}

// The longest response of the third stream is reached: its second instance ends 14,000 ticks after its event.
#[test]
fn bound_is_reached(rt: HostRuntime) -> Result<(), Fail> {
    assert!(rt; step_of_three(rt.alloc(), 13_000)? == Some(13));
    assert!(rt; step_of_three(rt.alloc(), 14_000)?.is_none());
    Ok(())
}

pub const LATE_JOINER: &str = "kind,moment,id,event,bits,data\n\
     queue,100,386,100,135,0000000000000000\n\
     start,100,385,,,\n\
     queue,102,385,102,111,0000000000000000\n\
     end,544,385,,,\n\
     start,544,386,,,\n\
     end,1084,386,,,\n\
     until,1084,0,,,\n";

#[test]
fn trace_is_written(rt: HostRuntime) -> Result<(), AllocError> {
    let trace = trace(rt.alloc(), 1084, &late_joiner())?;
    let text = write_trace(rt.alloc(), &trace)?;
    assert!(rt; text.as_slice() == LATE_JOINER.as_bytes());
    Ok(())
}

#[test]
fn trace_is_read(rt: HostRuntime) -> Result<(), BusFault> {
    let read = read_trace(rt.alloc(), LATE_JOINER.as_bytes())?;
    assert!(rt; read.until == 1084 && read.steps.as_slice() == late_joiner().as_slice());
    Ok(())
}

// A text that is cut within a record of a step, or before the end's, is refused; the last line feed may be missing.
#[test]
fn cut_traces_are_refused(rt: HostRuntime) -> Result<(), BusFault> {
    let text = LATE_JOINER.as_bytes();
    for cut in 0..text.len() {
        match read_trace(rt.alloc(), &text[..cut]) {
            Err(BusFault::Refused { number, .. }) => assert!(rt; number == 69),
            Err(BusFault::Memory) => return Err(BusFault::Memory),
            Ok(_) => assert!(rt; cut + 1 == text.len()),
        }
    }
    Ok(())
}

/// Whether a text is refused at this record, since it is none of a trace.
fn is_no_trace(alloc: Global, text: &[u8], place: usize) -> Result<bool, BusFault> {
    match read_trace(alloc, text) {
        Err(BusFault::Memory) => Err(BusFault::Memory),
        Err(fault) => Ok(fault == BusFault::Refused { place, number: 69 }),
        Ok(_) => Ok(false),
    }
}

#[test]
fn other_headers_are_refused(rt: HostRuntime) -> Result<(), BusFault> {
    let short = b"kind,moment,id,event,bits\nuntil,0,0,,\n";
    assert!(rt; is_no_trace(rt.alloc(), b"", 0)? && is_no_trace(rt.alloc(), short, 0)?);
    Ok(())
}

fn under_header(alloc: Global, records: &str) -> Result<Vec<u8>, AllocError> {
    let mut text = Vec::from_slice(alloc, b"kind,moment,id,event,bits,data\n")?;
    text.extend_from_slice(records.as_bytes())?;
    Ok(text)
}

/// Records under the header, and which of them, from 1, is none of a trace.
const OTHER_RECORDS: &[(&str, usize)] = &[
    ("", 1),
    ("start,100,385,,,\n", 2),
    ("until,0,0,,,\nuntil,0,0,,,\n", 2),
    ("until,0,1,,,\n", 1),
    ("start,100,65536,,,\n", 1),
    ("start,18446744073709551616,1,,,\n", 1),
    ("start,100,1,,,\nqueue,100,1,100,4294967296,\n", 2),
    ("queue,100,1,100,47,ABC\n", 1),
    ("queue,100,1,100,47,000000000000000000\n", 1),
    ("end,100,0x,,,\n", 1),
    ("end,100,0x1,,,\n", 2),
    ("end,100,1,0,,\n", 1),
];

#[test]
fn other_records_are_refused(rt: HostRuntime) -> Result<(), BusFault> {
    for case in OTHER_RECORDS {
        let (records, place) = *case;
        let text = under_header(rt.alloc(), records)?;
        assert!(rt; is_no_trace(rt.alloc(), &text, place)?, "at {records}");
    }
    Ok(())
}

#[test]
fn data_is_read(rt: HostRuntime) -> Result<(), BusFault> {
    let text = b"kind,moment,id,event,bits,data\nqueue,7,2047,5,67,0aF1\nuntil,9,0,,,\n";
    let read = read_trace(rt.alloc(), text)?;
    let wanted = Step::Queue {
        at: 7,
        id: 2047,
        event: 5,
        frame: Content {
            bits: 67,
            body: [0x0A, 0xF1, 0, 0, 0, 0, 0, 0],
            len: 2,
        },
    };
    assert!(rt; read.steps.as_slice() == [wanted].as_slice());
    Ok(())
}

fn instance(at: u64, id: u16, bits: u32) -> Instance
    ensures at { result.at ≡ at }
    ensures id { result.id ≡ id }
{
    Instance {
        at,
        id,
        event: at,
        frame: Content {
            bits,
            body: [0; 8],
            len: 8,
        },
    }
}

// A bus of the two streams, with a deadline of 8,000 ticks, which begins two periods of 4,000.
fn bus_of_two(alloc: Global) -> Result<Bus, Fail>
    ensures idle { IfOk result (λ bus. bus.running ≡ None) }
    ensures queued { IfOk result (λ bus. (now : ℕ) → AreQueuedBy bus.rings now) }
{
    let streams = two_streams(alloc, 8000)?;
    let bus = Bus::with_rings(alloc, &streams, Rate::Kbit1000)?;
    Ok(bus)
}

// Lets an instance wait on a bus that has its stream. `None` where it has not.
fn wait(bus: &mut Bus, instance: Instance) -> Option<Result<(), Full>>
    ensures running { bus.new.running ≡ bus.old.running }
    ensures queued { (now : ℕ) → instance.at ≤ now → AreQueuedBy bus.old.rings now → AreQueuedBy bus.new.rings now }
{
    if !bus.has_stream(instance.id) {
        return None;
    }
    Some(bus.queue(instance))
}

#[test]
fn ring_holds_what_may_wait(rt: HostRuntime) -> Result<(), Fail> {
    let mut bus = bus_of_two(rt.alloc())?;
    for _place in 0..2 {
        assert!(rt; wait(&mut bus, instance(100, 0x182, 135)) == Some(Ok(())));
    }
    assert!(rt; wait(&mut bus, instance(100, 0x182, 135)) == Some(Err(Full {})));
    let lengths = bus.rings().get(1).map(|ring| ring.len());
    assert!(rt; lengths == Some(2));
    Ok(())
}

// A ring without a deadline has 64 places.
#[test]
fn ring_without_deadline_holds_64(rt: HostRuntime) -> Result<(), Fail> {
    let mut bus = bus_of_two(rt.alloc())?;
    for _place in 0..64 {
        assert!(rt; wait(&mut bus, instance(100, 0x181, 135)) == Some(Ok(())));
    }
    assert!(rt; wait(&mut bus, instance(100, 0x181, 135)) == Some(Err(Full {})));
    Ok(())
}

// A bus on which nothing was started runs nothing, though an instance waits.
#[test]
fn bus_at_rest_runs_nothing(rt: HostRuntime) -> Result<(), Fail> {
    let mut bus = bus_of_two(rt.alloc())?;
    assert!(rt; !bus.has_stream(0x183));
    assert!(rt; wait(&mut bus, instance(100, 0x182, 135)) == Some(Ok(())));
    assert!(rt; bus.running().is_none() && bus.end().is_none());
    Ok(())
}

// A bus on which two instances of 182h wait since 100 and 101, and then one of 181h since 102.
fn bus_with_three(alloc: Global) -> Result<Bus, Fail>
    ensures idle { IfOk result (λ bus. bus.running ≡ None) }
    ensures queued { IfOk result (λ bus. (now : ℕ) → 102 ≤ now → AreQueuedBy bus.rings now) }
{
    let mut bus = bus_of_two(alloc)?;
    wait(&mut bus, instance(100, 0x182, 135));
    wait(&mut bus, instance(101, 0x182, 111));
    wait(&mut bus, instance(102, 0x181, 125));
    Ok(bus)
}

// The lowest identifier is sent, for its bits times 4 ticks, and its ring is empty.
#[test]
fn lowest_identifier_is_sent(rt: HostRuntime) -> Result<(), Fail> {
    let mut bus = bus_with_three(rt.alloc())?;
    let started = Started {
        id: 0x181,
        joined: false,
    };
    assert!(rt; bus.start(102, &[]) == Some(started));
    let lengths = bus.rings().first().map(|ring| ring.len());
    assert!(rt; lengths == Some(0));
    assert!(rt; bus.end() == Some((602, 0x181)));
    assert!(rt; bus.running().is_none());
    Ok(())
}

/// Whether no instance waits in a ring, if it is that of the identifier.
#[tactic(auto, using(std::proofs::lemmas::List::nil_from_length))]
fn is_free(ring: &Ring, id: u16) -> bool
    ensures { result ≡ true → ring.now.id ≡ id → ring.now.waiting ≡ [] }
{
    ring.id() != id || ring.len() == 0
}

/// Whether there are two rings, and no instance waits in one of the identifier.
fn are_free(rings: &[Ring], id: u16) -> bool
    ensures { result ≡ true → All (λ r. r.id ≡ id → r.waiting ≡ []) rings.now }
{
    match rings {
        [first, second] => is_free(first, id) && is_free(second, id),
        _ => false,
    }
}

/// What starts at 100 where 182h waits since then and an instance of 181h joins at 102.
fn started_with_joiner(bus: &mut Bus) -> Option<Started>
    requires idle { bus.old.running ≡ None }
    requires queued { (now : ℕ) → 100 ≤ now → AreQueuedBy bus.old.rings now }
{
    if bus.rate() == Rate::Kbit1000 && are_free(bus.rings(), 0x181) {
        bus.start(100, &[instance(102, 0x181, 111)])
    } else {
        None
    }
}

// A joiner with a lower identifier than what waits is sent, for its own bits, and what waits goes on waiting.
#[test]
fn lower_joiner_is_sent(rt: HostRuntime) -> Result<(), Fail> {
    let mut bus = bus_of_two(rt.alloc())?;
    assert!(rt; wait(&mut bus, instance(100, 0x182, 135)) == Some(Ok(())));
    let started = Started {
        id: 0x181,
        joined: true,
    };
    assert!(rt; started_with_joiner(&mut bus) == Some(started));
    assert!(rt; bus.running() == Some((544, 0x181)));
    let lengths = bus.rings().get(1).map(|ring| ring.len());
    assert!(rt; lengths == Some(1));
    Ok(())
}

// Starts what waits, and ends it.
fn sent(bus: &mut Bus, now: u64) -> Option<(u64, u16)>
    requires idle { bus.old.running ≡ None }
    requires early { now < 2 ^ 63 }
    requires queued { AreQueuedBy bus.old.rings now }
    ensures idle { bus.new.running ≡ None }
    ensures queued { (later : ℕ) → AreQueuedBy bus.old.rings later → AreQueuedBy bus.new.rings later }
{
    let _started = bus.start(now, &[]);
    bus.end()
}

// Of two instances of one stream that which waits longest is sent first.
#[test]
fn first_of_a_ring_is_sent(rt: HostRuntime) -> Result<(), Fail> {
    let mut bus = bus_with_three(rt.alloc())?;
    let first = sent(&mut bus, 102);
    let second = sent(&mut bus, 602);
    let third = sent(&mut bus, 1142);
    assert!(rt; first == Some((602, 0x181)));
    assert!(rt; second == Some((1142, 0x182)));
    assert!(rt; third == Some((1586, 0x182)));
    Ok(())
}

#[test]
fn nothing_starts_where_nothing_waits(rt: HostRuntime) -> Result<(), Fail> {
    let mut bus = bus_of_two(rt.alloc())?;
    assert!(rt; bus.start(0, &[]).is_none());
    Ok(())
}

/// Whether a fault is told so.
fn is_told(alloc: Global, fault: BusFault, wanted: &str) -> Result<bool, AllocError> {
    Ok(format!(in alloc; "{fault}")?.as_str() == wanted)
}

#[test]
fn faults_are_told_with_rule_and_place(rt: HostRuntime) -> Result<(), AllocError> {
    let refused = BusFault::Refused {
        place: 2,
        number: 66,
    };
    assert!(rt; is_told(rt.alloc(), refused, "rule 66 is broken at 2")?);
    assert!(rt; is_told(rt.alloc(), BusFault::Memory, "out of memory")?);
    Ok(())
}

// 181h every 10 ms: 33,334 instances, each queued, started and ended.
fn long_trace(alloc: Global) -> Result<Trace, AllocError> {
    let mut steps = Vec::new(alloc);
    for k in 0..33_334u64 {
        let at = k * 40_000;
        let transfer = [
            queue(at, 0x181, at, 135, 8),
            start(at, 0x181),
            end(at + 540, 0x181),
        ];
        steps.extend_from_slice(&transfer)?;
    }
    Ok(Trace {
        until: 33_334 * 40_000,
        steps,
    })
}

// 250,000 instances of 181h, each queued at a moment of 19 digits.
fn long_text(alloc: Global) -> Result<Trace, AllocError> {
    let mut steps = Vec::new(alloc);
    for k in 0..250_000u64 {
        let at = 1_000_000_000_000_000_000 + k;
        steps.push(queue(at, 0x181, at, 135, 8))?;
    }
    Ok(Trace {
        until: 2_000_000_000_000_000_000,
        steps,
    })
}

/// Whether a trace's text has so many bytes or more, and is read again as it was written.
fn is_read_again(alloc: Global, trace: &Trace, least: usize) -> Result<bool, BusFault> {
    let text = write_trace(alloc, trace)?;
    let read = read_trace(alloc, &text)?;
    let is_same = read.until == trace.until && read.steps.as_slice() == trace.steps.as_slice();
    Ok(text.len() >= least && is_same)
}

// No trace is too long for the judge, the writer or the reader.
#[test]
fn hundred_thousand_steps(rt: HostRuntime) -> Result<(), Fail> {
    let trace = long_trace(rt.alloc())?;
    assert!(rt; trace.steps.len() == 100_002);
    let set = two_streams(rt.alloc(), 984)?;
    assert!(rt; late_in(rt.alloc(), &set, Rate::Kbit1000, &trace)?.is_none());
    assert!(rt; is_read_again(rt.alloc(), &trace, 3_000_000)?);
    let trace = long_text(rt.alloc())?;
    assert!(rt; is_read_again(rt.alloc(), &trace, 16 * 1024 * 1024)?);
    Ok(())
}
