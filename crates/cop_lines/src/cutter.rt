//! A text that comes in pieces, cut into its lines.

ghost use Rattle.std.specs.Prelude.{◌≡◌, ◌++◌, ◌≤◌, [], ◌+◌, ◌<◌, length, MatchOption, MatchResult};
ghost use Rattle.cop_lines.specs.Words.{place_in};
ghost use Rattle.cop_lines.specs.Texts.{GoesOn, Ends, IsWhy, most_line};

use memchr::memchr;
use std::alloc::Global;
use std::marker::Model;
use thiserror::Error;

/// The greatest length of a line, without its end.
const MOST_LINE: usize = 4096;

/// Why a piece is not taken.
#[derive(Clone, Copy, PartialEq, Eq, Debug, Drop, Error)]
pub enum CutFault {
    #[error("the line is longer than 4096 bytes")]
    Long,
    #[error("out of memory")]
    Memory,
}

/// What was read of a line of a text that comes in pieces, each of any length. Lines end by LF, and are at most 4096 bytes long.
#[derive(Drop)]
pub struct LineCutter {
    line: Vec<u8>,
}

impl Model for LineCutter {
    ghost use Rattle.std.specs.Prelude.{List, ℕ};

    ghost Value = { List ℕ };

    ghost view = { λ c. c.line.items };
}

// Where a line ends in a piece, or the length of the piece.
fn end_of(piece: &[u8]) -> usize
    ensures end { result ≡ place_in 10 piece.now }
    ensures within { result ≤ length piece.now }
{
    match memchr(b'\n', piece) {
        Some(end) => end,
        None => piece.len(),
    }
}

impl LineCutter {
    /// A line of which nothing was read.
    pub fn new(alloc: Global) -> LineCutter
        ensures { result ≡ [] }
    {
        LineCutter {
            line: Vec::new(alloc),
        }
    }

    /// What was read of the line: all of it, where it has ended.
    pub fn line(&self) -> &[u8]
        ensures { result.now ≡ self.now }
    {
        &self.line
    }

    /// Begins the next line.
    pub fn clear(&mut self)
        ensures { self.new ≡ [] }
    {
        self.line.clear();
    }

    /// Reads on in a piece up to the end of the line, and tells what comes behind that; nothing where the line does not end in the piece.
    /// Where the line is refused, or memory is wanting, nothing of the piece is kept.
    pub fn cut<'p>(&mut self, piece: &'p [u8]) -> Result<Option<&'p [u8]>, CutFault>
        ensures cut { MatchResult result
            (λ left. MatchOption left (GoesOn self.old piece.now self.new) (λ left. Ends self.old piece.now self.new left.now))
            (λ fault. (self.new ≡ self.old) × IsWhy self.old piece.now fault) }
    {
        let end = end_of(piece);
        if let Err(fault) = self.keep(&piece[..end]) {
            return Err(fault);
        }
        if end < piece.len() {
            Ok(Some(&piece[end + 1..]))
        } else {
            Ok(None)
        }
    }

    fn keep(&mut self, more: &[u8]) -> Result<(), CutFault>
        ensures { MatchResult result
            (λ _. (self.new ≡ self.old ++ more.now) × (length self.new ≤ most_line))
            (λ fault. (self.new ≡ self.old) × (fault ≡ CutFault.Long → most_line < length self.old + length more.now)) }
    {
        if more.len() > MOST_LINE || self.line.len() > MOST_LINE - more.len() {
            return Err(CutFault::Long);
        }
        match self.line.extend_from_slice(more) {
            Ok(()) => Ok(()),
            Err(_) => Err(CutFault::Memory),
        }
    }
}
