//! The text of a trace, which is watched piece by piece.

ghost use Rattle.std.specs.Prelude.{◌≡◌, ◌<◌, ◌++◌, ◌∷◌, [], ℕ, List, All, IfOk, IfSome, true, false, length};
ghost use Rattle.cop_frame.specs.Rate.{ticks_of};
ghost use Rattle.cop_rta.specs.declared.streams.Stream.{Stream};
ghost use Rattle.cop_table.specs.Plain.{is_comma, is_line_end, pieces};
ghost use Rattle.cop_table.specs.Lines.{first_line};
ghost use Rattle.cop_bus.specs.Format.{Fields};
ghost use Rattle.cop_watch.specs.declared.reading.Stage.TheVariants.{Steps};
ghost use Rattle.cop_watch.specs.Reading.{IsAt, IsRead, HasRead, Shows, TakesLine, is_mark_byte};

use crate::found::Seen;
use crate::lines::step_line;
use crate::watching::Watch;
use cop_bus::{Entry, entry_in, is_header};
use cop_frame::Rate;
use cop_rta::StreamSet;
use cop_table::{Record, has_quote};
use memchr::memchr;
use std::alloc::{AllocError, Global};

/// How long a line may be of which a piece has a part, in bytes, without that part.
const LONGEST: usize = 4096;

/// Where a trace stands after the records so far.
#[derive(Clone, Copy)]
pub(crate) enum Stage {
    /// The header is to come.
    Header,
    /// Steps are to come, or the end.
    Steps,
    /// The trace ends at the moment.
    Ended(u64),
}

/// The text of a trace that is read in pieces, each of any length, and judged as it comes.
#[derive(Drop)]
pub struct TraceWatch<'a> {
    watch: Watch<'a>,
    row: Record,
    // What was read of a line that has not ended.
    line: Vec<u8>,
    stage: Stage,
}

// Whether the first byte of a byte order mark stands in a text.
fn has_mark_byte(text: &[u8]) -> bool
    ensures { result ≡ false → All (λ c. is_mark_byte c ≡ false) text.now }
{
    memchr(0xEF, text).is_some()
}

impl<'a> TraceWatch<'a> {
    /// A trace of which nothing was read.
    pub fn new(
        alloc: Global,
        streams: &'a StreamSet,
        rate: Rate,
    ) -> Result<TraceWatch<'a>, AllocError>
        ensures { IfOk result (HasRead (ticks_of rate) streams.now []) }
    {
        Ok(TraceWatch {
            watch: Watch::new(alloc, streams, rate)?,
            row: Record::new(alloc),
            line: Vec::new(alloc),
            stage: Stage::Header,
        })
    }

    /// Reads the next piece. Where it does not say that it did, nothing is known of the trace, and nothing more is to be read. A record
    /// may be none, or there is what is rare in a trace, as a quote, a byte order mark or a very long line. Or there is what
    /// [`Watch::take`](crate::Watch::take) does not know. Once a step breaks a rule, the records behind it are read all the same. One that is
    /// none is told before any rule of a step.
    pub fn feed(&mut self, piece: &[u8]) -> bool
        ensures { result ≡ true → (tau : ℕ) (streams : List Stream) (text : List ℕ)
            → HasRead tau streams text self.old → HasRead tau streams (text ++ piece.now) self.new }
    {
        if has_quote(piece) || has_mark_byte(piece) {
            return false;
        }
        self.feed_lines(piece)
    }

    /// At the end of the text: what is seen of the trace of the text. Where the answer is none, nothing is known of it.
    pub fn finish(&mut self) -> Option<Seen>
        ensures { (tau : ℕ) (streams : List Stream) (text : List ℕ) → HasRead tau streams text self.old → IfSome result (Shows tau streams text) }
    {
        if !self.end_line() {
            return None;
        }
        match self.stage {
            Stage::Ended(until) => self.watch.finish(until),
            Stage::Header | Stage::Steps => None,
        }
    }

    fn feed_lines(&mut self, piece: &[u8]) -> bool
        ensures { result ≡ true → (tau : ℕ) (streams : List Stream) (text : List ℕ)
            → IsRead tau streams text self.old.watch self.old.line.items self.old.stage
            → IsRead tau streams (text ++ piece.now) self.new.watch self.new.line.items self.new.stage }
    {
        let mut rest = piece;
        'lines: while !rest.is_empty() {
            match self.feed_line(rest) {
                Some(left) => rest = left,
                None => return false,
            }
        }
        true
    }

    // Whether the text so far ends between two lines of which the next may be a step's.
    fn is_at_step(&self) -> bool
        ensures line { result ≡ true → self.now.line.items ≡ [] }
        ensures stage { result ≡ true → self.now.stage ≡ Steps }
    {
        matches!(self.stage, Stage::Steps) && self.line.is_empty()
    }

    // Reads a line, or the part of it that is there, and tells what comes after it.
    fn feed_line<'b>(&mut self, rest: &'b [u8]) -> Option<&'b [u8]>
        requires { 0 < length rest.now }
        ensures { IfSome result (λ left. TakesLine rest.now left.now
            self.old.watch self.old.line.items self.old.stage self.new.watch self.new.line.items self.new.stage) }
    {
        if self.is_at_step() {
            if let Some((step, left)) = step_line(rest) {
                let is_known = self.watch.take(&step).is_known();
                return if is_known { Some(left) } else { None };
            }
        }
        self.feed_fields(rest)
    }

    // The same by the fields of the line.
    fn feed_fields<'b>(&mut self, rest: &'b [u8]) -> Option<&'b [u8]>
        requires { 0 < length rest.now }
        ensures { IfSome result (λ left. TakesLine rest.now left.now
            self.old.watch self.old.line.items self.old.stage self.new.watch self.new.line.items self.new.stage) }
    {
        let len = match self.row.cut(rest) {
            Ok(len) => len,
            Err(_) => return None,
        };
        if len == rest.len() {
            return if self.keep(rest) { Some(&[]) } else { None };
        }
        if self.take_line(&rest[..len]) {
            Some(&rest[len + 1..])
        } else {
            None
        }
    }

    // Keeps a part of a line.
    fn keep(&mut self, part: &[u8]) -> bool
        requires { first_line part.now ≡ part.now }
        ensures { result ≡ true → (tau : ℕ) (streams : List Stream) (text : List ℕ)
            → IsRead tau streams text self.old.watch self.old.line.items self.old.stage
            → IsRead tau streams (text ++ part.now) self.new.watch self.new.line.items self.new.stage }
    {
        self.line.len() <= LONGEST && self.line.extend_from_slice(part).is_ok()
    }

    // Takes the rest of a line that ends, whose fields are in the row.
    fn take_line(&mut self, line: &[u8]) -> bool
        requires row { self.old.row ≡ pieces is_comma line.now }
        requires whole { first_line line.now ≡ line.now }
        ensures { result ≡ true → (tau : ℕ) (streams : List Stream) (text : List ℕ) (c : ℕ) → is_line_end c ≡ true
            → IsRead tau streams text self.old.watch self.old.line.items self.old.stage
            → IsRead tau streams (text ++ (line.now ++ c ∷ [])) self.new.watch self.new.line.items self.new.stage }
    {
        if self.line.is_empty() {
            return line.is_empty() || self.take_row();
        }
        self.keep(line) && self.end_line()
    }

    // Takes the line that was kept, which ends.
    fn end_line(&mut self) -> bool
        ensures empty { result ≡ true → self.new.line.items ≡ [] }
        ensures read { result ≡ true → (tau : ℕ) (streams : List Stream) (text : List ℕ) (c : ℕ) → is_line_end c ≡ true
            → IsRead tau streams text self.old.watch self.old.line.items self.old.stage
            → IsRead tau streams (text ++ c ∷ []) self.new.watch self.new.line.items self.new.stage }
    {
        if self.line.is_empty() {
            return true;
        }
        if self.row.cut(&self.line).is_err() {
            return false;
        }
        self.line.clear();
        self.take_row()
    }

    // Takes the record in the row.
    fn take_row(&mut self) -> bool
        ensures at { result ≡ true → (tau : ℕ) (streams : List Stream) (rows : List Fields)
            → IsAt tau streams rows self.old.watch self.old.stage → IsAt tau streams (rows ++ self.old.row ∷ []) self.new.watch self.new.stage }
        ensures line { self.new.line.items ≡ self.old.line.items }
    {
        match self.stage {
            Stage::Header => {
                self.stage = Stage::Steps;
                is_header(&self.row)
            }
            Stage::Steps => match entry_in(&self.row) {
                Ok(Entry::Taken(step)) => self.watch.take(&step).is_known(),
                Ok(Entry::Until(until)) => {
                    self.stage = Stage::Ended(until);
                    true
                }
                Err(_) => false,
            },
            Stage::Ended(_) => false,
        }
    }
}
