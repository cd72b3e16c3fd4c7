//! Writing a trace step by step.

ghost use Rattle.std.specs.Prelude.{◌≡◌, ◌+◌, ◌≤◌, ◌++◌, [], true, false, IfSome, length};
ghost use Rattle.std.specs.Io.KnownBytes.{Keeps};

use crate::last_line::LastLine;
use crate::lines::header;
use crate::steps::Step;
use arrayvec::ArrayVec;
use std::io::Write;

/// Records, one behind another, that are handed over together.
type Piece = ArrayVec<u8, 4096>;

/// From how many bytes on a piece may have no room for another record.
const FULL: usize = 4096 - 112;

// Adds a record's line.
fn add(piece: &mut Piece, line: &[u8])
    requires { length piece.old.items + length line.now ≤ 4096 }
    ensures { piece.new.items ≡ piece.old.items ++ line.now }
{
    let _fits = piece.try_extend_from_slice(line);
}

/// A writer of a trace's table: the record of each step as it comes, and at last the end's. They are handed to the writer
/// underneath in pieces of some 4 KiB. It takes no memory, and so fails where the writer underneath does alone. Once it has
/// failed, it writes no more.
#[derive(Drop)]
pub struct TraceWriter<W: Write + Drop> {
    writer: W,
    // The records that the writer has not got yet, but for the one that was made last. That is added when the next comes: a line
    // is copied faster some time after its digits were put down.
    pending: Piece,
    last: LastLine,
    failed: bool,
}

impl<W: Write + Drop> TraceWriter<W> {
    ghost use Rattle.cop_bus.specs.LastLine.{text_of};
    ghost use Rattle.cop_bus.specs.Piecewise.{has_failed, told, Begins, Writes, Finishes, HandsOver};

    /// A writer that has written the names of the fields, or has failed.
    pub fn new(writer: W) -> TraceWriter<W>
        ensures { has_failed result ≡ false → Begins W.contents writer result }
    {
        let mut pending = Piece::new();
        add(&mut pending, header());
        TraceWriter {
            writer,
            pending,
            last: LastLine::none(),
            failed: false,
        }
    }

    /// Whether it has failed.
    pub fn failed(&self) -> bool
        ensures { result ≡ has_failed self.now }
    {
        self.failed
    }

    // Hands what is pending to the writer underneath; `false` where that fails.
    fn hand_piece(&mut self) -> bool
        ensures none { self.new.pending.items ≡ [] }
        ensures last { text_of self.new.last ≡ text_of self.old.last }
        ensures same { result ≡ true → Keeps (told W.contents self.old) (told W.contents self.new) }
    {
        let is_written = self.writer.write_all(&self.pending).is_ok();
        self.pending.clear();
        is_written
    }

    // Adds the record that was made last to what is pending, which is handed over first where there may be no room; `false`
    // where that fails.
    fn keep_last(&mut self) -> bool
        ensures none { result ≡ true → text_of self.new.last ≡ [] }
        ensures same { result ≡ true → Keeps (told W.contents self.old) (told W.contents self.new) }
    {
        let has_room = self.pending.len() <= FULL || self.hand_piece();
        if has_room {
            add(&mut self.pending, self.last.text());
            self.last.clear();
        }
        has_room
    }

    #[tactic(auto, using(crate::proofs::WriterLemmas::all_handed))]
    /// Hands what was written so far to the writer underneath, as where a run is given up; `false` where that fails, and it
    /// has failed then.
    pub fn hand_over(&mut self) -> bool
        ensures handed { result ≡ true → HandsOver W.contents self.old self.new }
        ensures fails { result ≡ false → has_failed self.new ≡ true }
    {
        let is_handed = self.keep_last() && self.hand_piece();
        self.failed = self.failed || !is_handed;
        is_handed
    }

    /// Writes the record of a step; `false` where it fails.
    pub fn write(&mut self, step: &Step) -> bool
        requires { has_failed self.old ≡ false }
        ensures written { result ≡ true → Writes W.contents self.old step.now self.new }
        ensures works { result ≡ true → has_failed self.new ≡ false }
        ensures fails { result ≡ false → has_failed self.new ≡ true }
    {
        let is_kept = self.keep_last();
        self.failed = !is_kept;
        if is_kept {
            self.last.set_step(step);
        }
        is_kept
    }

    /// Writes the last record, which tells the end, and gives the writer back. `None` where it has failed or fails here:
    /// the writer's write or flush failed.
    pub fn finish(self, until: u64) -> Option<W>
        ensures { IfSome result (λ w. Finishes W.contents self until w) }
    {
        let mut trace = self;
        if trace.failed || !trace.keep_last() {
            return None;
        }
        trace.last.set_end(until);
        if !trace.hand_over() {
            return None;
        }
        let TraceWriter { mut writer, .. } = trace;
        match writer.flush() {
            Ok(()) => Some(writer),
            Err(_) => None,
        }
    }
}
