//! The breaches that a log shows, and their words.

ghost use Rattle.std.specs.Prelude.{◌≡◌, ◌+◌, ◌-◌, ◌*◌, ◌^◌, ◌≤◌, ◌<◌, ◌++◌, ◌∷◌, [], List, Option, IfOk, OnOk, length, set, slice_index_or};
ghost use Rattle.std.specs.Option.{ForSome};
ghost use Rattle.cop_frame.specs.Rate.{ticks_of};
ghost use Rattle.cop_bus.specs.Run.{least_bits};
ghost use Rattle.cop_lines.specs.declared.entries.Entry.{Entry as Seen};
ghost use Rattle.cop_log.specs.declared.anchors.Anchor.{Anchor as Counted};
ghost use Rattle.cop_log.specs.declared.anchors.Pile.{Pile as Piled};
ghost use Rattle.cop_log.specs.declared.anchors.Top.{Top as Highest};
ghost use Rattle.cop_log.specs.Log.{Terms};
ghost use Rattle.cop_logbook.specs.declared.breaches.Broken.TheVariants as broken;
ghost use Rattle.cop_logbook.specs.declared.breaches.Breach.{Breach as Told};
ghost use Rattle.std.specs.String.{string_bytes};
ghost use Rattle.cop_logbook.specs.Words.{has_error, premise_of, IsLine, AreLines};
ghost use Rattle.cop_logbook.specs.Told.{broken_by, breach_by, kind_of, kept_of, bytes_with, or_zero, nearest_with, all_with, HasKept, Shows, IsSeenOf};

use crate::disturbed::is_error;
use cop_frame::{Rate, least_bits};
use cop_lines::Entry;
use cop_log::{Clock, Finding, Scene, least_ticks};
use cop_rta::Stream;
use std::alloc::{AllocError, Global};

/// How many breaches of an identifier are told; all are counted.
const MOST: u64 = 20;

/// How many identifiers streams can have. All others are counted together.
const IDS: usize = 2048;

/// How near a frame of a stream can be to one so many instances before it: so many periods, less the greatest response, and the
/// time of its own transfer, less a bit time. Times are ticks of 250 ns.
#[derive(Clone, Copy)]
pub struct Nearest {
    pub count: u64,
    pub period: u64,
    pub response: u64,
    pub transfer: u64,
    pub bit: u64,
}

impl Nearest {
    /// The least distance in ticks.
    pub fn ticks(&self) -> u128
        ensures { result ≡ self.now.count * self.now.period + self.now.transfer + 1 - (self.now.response + self.now.bit) }
    {
        let all = u128::from(self.count) * u128::from(self.period) + u128::from(self.transfer) + 1;
        all.saturating_sub(u128::from(self.response) + u128::from(self.bit))
    }
}

/// What a frame of a log breaks.
#[derive(Clone, Copy)]
pub enum Broken {
    /// Nothing else sends, and no frame is disturbed.
    Unknown,
    /// Each frame is as long as its mapping, which has so many bytes.
    Length {
        planned: u8,
    },
    /// Events are as far apart as the periods say: the frame comes so many microseconds after that of an earlier line.
    Soon {
        from: u64,
        since: u64,
        nearest: Option<Nearest>,
    },
    /// The bus has the planned rate: the transfers after an earlier line take so many ticks at least, and end so many microseconds
    /// after it.
    Crowded {
        from: u64,
        since: u64,
        ticks: u128,
    },
    /// The clock of the log does not fall: the frame's stamp is so many microseconds lower than that of an earlier line.
    Fallen {
        from: u64,
        by: u64,
    },
}

/// A breach: the line that shows it, what stands there, and what it breaks.
#[derive(Clone, Copy)]
pub struct Breach {
    pub line: u64,
    pub entry: Entry,
    pub broken: Broken,
}

/// The breaches so far: how many of each identifier, and the first of them.
#[derive(Drop)]
pub struct Breaches {
    counts: Vec<u64>,
    count: u64,
    told: Vec<Breach>,
}

/// The bound, or 0.
fn or_zero(bound: Option<u64>) -> u64
    ensures { result ≡ or_zero bound }
{
    match bound {
        Some(bound) => bound,
        None => 0,
    }
}

/// How near frames of the stream can be that are so many instances apart.
fn nearest_of(scene: &Scene, count: u64) -> Option<Nearest>
    ensures { result ≡ nearest_with scene.now.rate scene.now.stream scene.now.bound count }
{
    match scene.stream {
        Some(stream) => {
            let bit = u64::from(scene.rate.ticks_per_bit());
            Some(Nearest {
                count,
                period: stream.period,
                response: or_zero(scene.bound),
                transfer: u64::from(least_bits(stream.bytes)) * bit,
                bit,
            })
        }
        None => None,
    }
}

fn bytes_of(stream: Option<Stream>) -> u8
    ensures { result ≡ bytes_with stream }
{
    match stream {
        Some(stream) => stream.bytes,
        None => 0,
    }
}

fn soon(scene: &Scene, count: u64) -> Broken
    ensures { (a : Counted) → scene.now.anchor ≡ Option.Some a
        → result ≡ broken.Soon a.entry.line (scene.now.entry.at - a.entry.at) (nearest_with scene.now.rate scene.now.stream scene.now.bound count) }
{
    match scene.anchor {
        Some(anchor) => Broken::Soon {
            from: anchor.entry.line,
            since: scene.entry.at.saturating_sub(anchor.entry.at),
            nearest: nearest_of(scene, count),
        },
        None => Broken::Unknown,
    }
}

fn crowded(scene: &Scene) -> Broken
    ensures { (x : Piled) → scene.now.pile ≡ Option.Some x → x.ticks ≤ 2 ^ 84
        → result ≡ broken.Crowded x.entry.line (scene.now.entry.at - x.entry.at) (x.ticks + least_bits scene.now.entry.len * ticks_of scene.now.rate) }
{
    match scene.pile {
        Some(pile) => {
            let own = least_ticks(scene.rate, scene.entry.len);
            Broken::Crowded {
                from: pile.entry.line,
                since: scene.entry.at.saturating_sub(pile.entry.at),
                ticks: pile.ticks.saturating_add(own),
            }
        }
        None => Broken::Unknown,
    }
}

fn fallen(scene: &Scene) -> Broken
    ensures { (x : Highest) → scene.now.top ≡ Option.Some x → result ≡ broken.Fallen x.entry.line (x.entry.at - scene.now.entry.at) }
{
    match scene.top {
        Some(top) => Broken::Fallen {
            from: top.entry.line,
            by: top.entry.at.saturating_sub(scene.entry.at),
        },
        None => Broken::Unknown,
    }
}

/// What a finding breaks.
fn broken_of(scene: &Scene, finding: Finding) -> Broken
    ensures { (t : Terms) (log : List Seen) → Shows t log scene.now finding → result ≡ broken_by t log finding }
{
    match finding {
        Finding::Unknown { .. } => Broken::Unknown,
        Finding::Length { .. } => Broken::Length {
            planned: bytes_of(scene.stream),
        },
        Finding::Soon { count, .. } => soon(scene, count),
        Finding::Crowded { .. } => crowded(scene),
        Finding::Fallen { .. } => fallen(scene),
    }
}

/// The breach that a finding is of an entry.
fn breach_of(entry: &Entry, scene: &Scene, finding: Finding) -> Breach
    ensures { (t : Terms) (log : List Seen) → IsSeenOf t log entry.now scene.now finding → result ≡ breach_by t log finding }
{
    Breach {
        line: entry.line,
        entry: *entry,
        broken: broken_of(scene, finding),
    }
}

/// The kind of a breach: its identifier, or that of all that no stream can have.
fn kind_of(breach: &Breach) -> usize
    ensures { result ≡ kind_of breach.now }
{
    (breach.entry.id as usize).min(IDS)
}

fn count_at(counts: &[u64], kind: usize) -> u64
    ensures { result ≡ slice_index_or counts.now kind 0 }
{
    match counts.get(kind) {
        Some(count) => *count,
        None => 0,
    }
}

fn set_at(counts: &mut Vec<u64>, kind: usize, count: u64)
    ensures { kind < length counts.old.items → counts.new.items ≡ set counts.old.items kind count }
{
    if kind < counts.len() {
        counts[kind] = count;
    }
}

/// Keeps a breach, as long as not too many of its kind came before.
fn keep(told: &mut Vec<Breach>, breach: Breach, before: u64) -> Result<(), AllocError>
    ensures { OnOk result (told.new.items ≡ told.old.items ++ kept_of breach before) }
{
    if before < MOST {
        told.push(breach)?;
    }
    Ok(())
}

/// An identifier in words.
fn write_id(text: &mut String, id: u32) -> Result<(), AllocError> {
    let number = id & 0x1FFFFFFF;
    if id & 0x20000000 != 0 {
        write!(text, "an error frame")
    } else if id & 0x80000000 != 0 {
        write!(text, "{number:08X}h of 29 bits")
    } else if id & 0x40000000 != 0 {
        write!(text, "{number:03X}h, a remote frame,")
    } else {
        write!(text, "{number:03X}h")
    }
}

/// The sum by which a frame is too near: of periods, response, shortest frame and a bit time. The last two are one another's for an error frame.
fn write_sum(
    text: &mut String,
    nearest: &Nearest,
    clock: Clock,
    is_error: bool,
) -> Result<(), AllocError> {
    let (least, count, period) = (nearest.ticks() / 4, nearest.count, nearest.period / 4);
    let (response, transfer, bit) = (nearest.response / 4, nearest.transfer / 4, nearest.bit / 4);
    let (error, drift) = (clock.error, clock.drift);
    write!(
        text,
        "; the least is {least} us ({count} x {period} us - {response} us response"
    )?;
    if !is_error {
        write!(text, " + {transfer} us frame - {bit} us bit")?;
    }
    write!(text, "), with {error} us and {drift} ppm for the clock")
}

/// What does not hold, where a frame comes too soon.
fn soon_premise(is_error: bool, from: u64, since: u64, nearest: Option<Nearest>) -> &'static str
    ensures { result.now ≡ premise_of is_error (broken.Soon from since nearest) }
{
    if is_error {
        "disturbed transfers are as rare as the row errors says"
    } else {
        "events are as far apart as the periods say"
    }
}

/// What does not hold, where an identifier is of no sender.
fn unknown_premise(is_error: bool) -> &'static str
    ensures { result.now ≡ premise_of is_error broken.Unknown }
{
    if is_error {
        "no frame is disturbed"
    } else {
        "nothing else sends"
    }
}

/// Writes that an identifier is of no sender; of an error frame its name alone.
fn write_unknown(text: &mut String, id: u32) -> Result<(), AllocError> {
    write_id(text, id)?;
    if id & 0x20000000 != 0 {
        return Ok(());
    }
    write!(text, " is of no sender in the tables")
}

impl Breach {
    /// What does not hold of the machine, or of the clock.
    pub fn premise(&self) -> &'static str
        ensures { result.now ≡ premise_of (has_error self.now) self.now.broken }
    {
        match self.broken {
            Broken::Unknown => unknown_premise(is_error(self.entry.id)),
            Broken::Length { .. } => "each frame is as long as its mapping",
            Broken::Soon {
                from,
                since,
                nearest,
            } => soon_premise(is_error(self.entry.id), from, since, nearest),
            Broken::Crowded { .. } => "the bus has the planned rate",
            Broken::Fallen { .. } => "the clock of the log does not fall",
        }
    }

    fn write_broken(&self, text: &mut String, clock: Clock) -> Result<(), AllocError> {
        let (id, len) = (self.entry.id, self.entry.len);
        match self.broken {
            Broken::Unknown => write_unknown(text, id),
            Broken::Length { planned } => {
                write!(
                    text,
                    "{id:03X}h has {len} bytes, and {planned} by the tables"
                )
            }
            Broken::Soon {
                from,
                since,
                nearest,
            } => {
                write_id(text, id)?;
                write!(text, " comes {since} us after that of line {from}")?;
                match nearest {
                    Some(nearest) => write_sum(text, &nearest, clock, is_error(id)),
                    None => Ok(()),
                }
            }
            Broken::Crowded { from, since, ticks } => {
                let (all, error, drift) = (ticks / 4, clock.error, clock.drift);
                write!(
                    text,
                    "the transfers after line {from} take {all} us at least, and end {since} us after it, with {error} us and {drift} ppm for the clock"
                )
            }
            Broken::Fallen { from, by } => {
                let error = clock.error;
                write!(
                    text,
                    "the log's clock falls by {by} us from line {from} on, with {error} us for the clock"
                )
            }
        }
    }

    /// Its line.
    fn line_of(&self, alloc: Global, clock: Clock) -> Result<String, AllocError>
        ensures { IfOk result (λ line. IsLine self.now (string_bytes line)) }
    {
        let mut shown = String::new(alloc);
        self.write_broken(&mut shown, clock)?;
        let (line, premise) = (self.line, self.premise());
        format!(in alloc; "line {line}: {shown}; breaks: {premise}\n")
    }
}

/// The lines of breaches, in their order.
pub(crate) fn lines_of(
    alloc: Global,
    clock: Clock,
    breaches: &[Breach],
) -> Result<String, AllocError>
    ensures { IfOk result (λ text. AreLines breaches.now (string_bytes text)) }
{
    let mut text = String::new(alloc);
    for breach in breaches {
        let line = breach.line_of(alloc, clock)?;
        text.push_str(&line)?;
    }
    Ok(text)
}

impl Breaches {
    /// None yet.
    pub fn new(alloc: Global) -> Result<Breaches, AllocError>
        ensures { IfOk result (HasKept []) }
    {
        Ok(Breaches {
            counts: vec![in alloc; 0; IDS + 1]?,
            count: 0,
            told: Vec::new(alloc),
        })
    }

    /// How many there are.
    pub fn count(&self) -> u64
        ensures { result ≡ self.now.count }
    {
        self.count
    }

    /// Those that are told.
    pub fn told(&self) -> &[Breach]
        ensures { result.now ≡ self.now.told.items }
    {
        &self.told
    }

    /// Counts a breach, and keeps it as long as not too many of its identifier were kept.
    fn add(&mut self, breach: Breach) -> Result<(), AllocError>
        ensures { OnOk result ((all : List Told) → HasKept all self.old → HasKept (all ++ breach ∷ []) self.new) }
    {
        self.count = self.count.saturating_add(1);
        let kind = kind_of(&breach);
        let before = count_at(&self.counts, kind);
        set_at(&mut self.counts, kind, before.saturating_add(1));
        keep(&mut self.told, breach, before)?;
        Ok(())
    }

    /// Adds what was found of an entry, if something was.
    pub fn note(
        &mut self,
        entry: &Entry,
        scene: &Scene,
        finding: Option<Finding>,
    ) -> Result<(), AllocError>
        ensures { OnOk result ((t : Terms) (log : List Seen) (all : List Told) → ForSome finding (IsSeenOf t log entry.now scene.now)
            → HasKept all self.old → HasKept (all_with t log all finding) self.new) }
    {
        match finding {
            Some(finding) => self.add(breach_of(entry, scene, finding)),
            None => Ok(()),
        }
    }
}
