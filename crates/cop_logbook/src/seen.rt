//! What was seen of an identifier in a log.

ghost use Rattle.std.specs.Prelude.{◌≡◌, ◌+◌, ◌-◌, ◌*◌, ◌/◌, ◌^◌, ◌≤◌, ◌<◌, min, max, Some, None};
ghost use Rattle.cop_frame.specs.Rate.{ticks_of};

use cop_frame::Rate;
use cop_rta::Stream;
use std::alloc::AllocError;

/// How many bits a frame of so many bytes has at least (CiA 301: a data frame, its space after it counted).
pub(crate) fn least_bits_of(len: u8) -> u64
    ensures { result ≡ 47 + 8 * len }
{
    47 + 8 * u64::from(len)
}

/// The frames of an identifier. Stamps and distances are in microseconds.
#[derive(Clone, Copy)]
pub struct Seen {
    pub frames: u64,
    pub first_line: u64,
    pub first: u64,
    pub last: u64,
    pub least: u64,
    pub greatest: u64,
    /// The line of the frame that came after the greatest distance.
    pub greatest_line: u64,
    /// The bits that the frames have at least.
    pub bits: u64,
}

impl Seen {
    /// Nothing was seen yet.
    pub const NOTHING: Seen = Seen {
        frames: 0,
        first_line: 0,
        first: 0,
        last: 0,
        least: u64::MAX,
        greatest: 0,
        greatest_line: 0,
        bits: 0,
    };

    /// One frame more was seen: its distance from the one before, where there is one.
    pub(crate) fn note(&mut self, line: u64, at: u64, len: u8) -> Option<u64>
        ensures frames { self.new.frames ≡ min (self.old.frames + 1) (2 ^ 64 - 1) }
        ensures last { self.new.last ≡ at }
        ensures first { self.old.frames ≡ 0 → (result ≡ None) × (self.new.first ≡ at) }
        ensures next { 0 < self.old.frames → (result ≡ Some (at - self.old.last)) × (self.new.first ≡ self.old.first) }
    {
        let distance = if self.frames == 0 {
            self.first_line = line;
            self.first = at;
            None
        } else {
            Some(at.saturating_sub(self.last))
        };
        if let Some(distance) = distance {
            self.note_distance(line, distance);
        }
        self.last = at;
        self.frames = self.frames.saturating_add(1);
        self.bits = self.bits.saturating_add(least_bits_of(len));
        distance
    }

    fn note_distance(&mut self, line: u64, distance: u64)
        ensures same { (self.new.frames ≡ self.old.frames) × (self.new.first ≡ self.old.first) }
        ensures least { self.new.least ≡ min self.old.least distance }
        ensures greatest { self.new.greatest ≡ max self.old.greatest distance }
    {
        self.least = self.least.min(distance);
        if distance > self.greatest {
            self.greatest = distance;
            self.greatest_line = line;
        }
    }

    /// The time from the first frame to the last.
    pub fn span(&self) -> u64
        ensures { result ≡ self.now.last - self.now.first }
    {
        self.last.saturating_sub(self.first)
    }

    /// The mean distance, 0 where there are not two frames.
    pub fn mean(&self) -> u64
        ensures { 2 ≤ self.now.frames → result ≡ (self.now.last - self.now.first) / (self.now.frames - 1) }
    {
        match self.span().checked_div(self.frames.saturating_sub(1)) {
            Some(mean) => mean,
            None => 0,
        }
    }

    /// The share of the bus that the frames have at least in a time, where the whole bus is so many.
    fn share(&self, rate: Rate, span: u64, whole: u32) -> u64
        ensures { 0 < span → self.now.bits * ticks_of rate * whole / (4 * span) < 2 ^ 64
            → result ≡ self.now.bits * ticks_of rate * whole / (4 * span) }
    {
        let ticks = u128::from(self.bits) * u128::from(rate.ticks_per_bit());
        match (ticks * u128::from(whole)).checked_div(4 * u128::from(span)) {
            Some(load) => u64::try_from(load).unwrap_or(u64::MAX),
            None => 0,
        }
    }

    /// The share of the bus that the frames have at least in a time, in hundredths of a percent.
    pub fn load(&self, rate: Rate, span: u64) -> u64
        ensures { 0 < span → self.now.bits * ticks_of rate * 10000 / (4 * span) < 2 ^ 64
            → result ≡ self.now.bits * ticks_of rate * 10000 / (4 * span) }
    {
        self.share(rate, span, 10_000)
    }

    /// The same in billionths of the bus.
    pub fn billionths(&self, rate: Rate, span: u64) -> u64
        ensures { 0 < span → self.now.bits * ticks_of rate * 1000000000 / (4 * span) < 2 ^ 64
            → result ≡ self.now.bits * ticks_of rate * 1000000000 / (4 * span) }
    {
        self.share(rate, span, 1_000_000_000)
    }

    /// Adds the line of the error frames, which are to be as rare as a stream says.
    pub(crate) fn write_errors(
        &self,
        text: &mut String,
        errors: &Stream,
    ) -> Result<(), AllocError> {
        let (frames, table) = (self.frames, errors.period / 4);
        if frames < 2 {
            return write!(text, "errors frames {frames} table {table}\n");
        }
        let (least, mean, greatest) = (self.least, self.mean(), self.greatest);
        write!(
            text,
            "errors frames {frames} distance {least} {mean} {greatest} table {table}\n"
        )
    }

    /// Adds the line of the identifier of a stream of the plan.
    pub(crate) fn write(
        &self,
        text: &mut String,
        stream: &Stream,
        rate: Rate,
        span: u64,
    ) -> Result<(), AllocError> {
        let (id, frames) = (stream.id, self.frames);
        let table = stream.period / 4;
        if frames < 2 {
            return write!(text, "{id:03X}h frames {frames} table {table}\n");
        }
        let (least, mean, greatest) = (self.least, self.mean(), self.greatest);
        let load = self.load(rate, span);
        let (whole, part) = (load / 100, load % 100);
        write!(
            text,
            "{id:03X}h frames {frames} distance {least} {mean} {greatest} table {table} load {whole}.{part:02}%\n"
        )
    }
}
