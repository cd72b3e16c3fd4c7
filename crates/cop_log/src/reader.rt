//! A log that comes in pieces.

ghost use Rattle.std.specs.Prelude.{◌≡◌, ◌<◌, [], length, Option, IfOk, MatchOption, MatchResult};
ghost use Rattle.cop_table.specs.Reading.{Gives};
ghost use Rattle.cop_lines.specs.Texts.{GoesOn, Ends};
ghost use Rattle.cop_log.specs.Reading.{at_line, channel_with, counts, fault_of_text, line_taken, name_of, numbered, unended, HasRead, Reads, Refuses, IsWhole, TakesLine, IsWrong};

use crate::faults::LogFault;
use cop_lines::{CutFault, Entry, LineCutter, LineFault, LineReader, Message};
use std::alloc::{AllocError, Global};

/// A frame of a log, and what the piece has behind its line.
#[derive(Clone, Copy)]
pub struct Found<'p> {
    pub message: Message,
    pub rest: &'p [u8],
}

/// A log that comes in pieces, each of any length, in one of the forms of logs.
#[derive(Drop)]
pub struct LogReader {
    alloc: Global,
    cutter: LineCutter,
    reader: LineReader,
    // That of the first frame, where none is wanted.
    channel: Option<Vec<u8>>,
    // How many lines were read.
    line: u64,
}

// Whether a frame of a channel counts; the first one's is wanted, where none is.
fn is_wanted(alloc: Global, channel: &mut Option<Vec<u8>>, own: &[u8]) -> Result<bool, AllocError>
    ensures { IfOk result (λ is. (is ≡ counts (name_of channel.old) own.now) × (name_of channel.new ≡ channel_with (name_of channel.old) own.now)) }
{
    if let Some(wanted) = channel {
        return Ok(wanted.as_slice() == own);
    }
    let mut bytes = Vec::new(alloc);
    bytes.extend_from_slice(own)?;
    *channel = Some(bytes);
    Ok(true)
}

// A frame of the line of a number.
fn at_line(number: u64, message: Message) -> Message
    ensures { result ≡ at_line number message }
{
    let Entry { at, id, len, .. } = message.entry;
    let body = message.body;
    Message {
        entry: Entry {
            line: number,
            at,
            id,
            len,
        },
        body,
    }
}

// The frame of a line that has a number, if it counts.
fn frame_in(
    alloc: Global,
    reader: &mut LineReader,
    channel: &mut Option<Vec<u8>>,
    number: u64,
    line: &[u8],
) -> Result<Option<Message>, LogFault>
    ensures { Gives (λ message. record { reader = reader.new; channel = name_of channel.new; message = message }) fault_of_text result
        (numbered number (line_taken number reader.old (name_of channel.old) line.now)) }
{
    let read = match reader.read(line) {
        Ok(read) => read,
        Err(fault) => return Err(LogFault::Line { number, fault }),
    };
    let Some(message) = read else {
        return Ok(None);
    };
    match is_wanted(alloc, channel, reader.channel_in(line)) {
        Ok(true) => Ok(Some(at_line(number, message))),
        Ok(false) => Ok(None),
        Err(_) => Err(LogFault::Memory),
    }
}

impl LogReader {
    /// A log of which nothing was read. Frames of the channel count, those of the first frame's channel where none is given. `are_distances`
    /// says that the stamps of a log in columns are distances, as `candump -td` writes them.
    pub fn new(alloc: Global, channel: Option<Vec<u8>>, are_distances: bool) -> LogReader
        ensures { HasRead (record { channel = name_of channel; are_distances = are_distances }) [] [] result [] }
    {
        LogReader {
            alloc,
            cutter: LineCutter::new(alloc),
            reader: LineReader::new(are_distances),
            channel,
            line: 0,
        }
    }

    /// How many lines were read.
    pub fn line(&self) -> u64
        ensures { result ≡ self.now.line }
    {
        self.line
    }

    /// Reads on in a piece up to the end of the next line that has a frame of the channel; nothing where the piece ends before.
    /// Where a line is refused, or memory is wanting, nothing more is to be read.
    pub fn next<'p>(&mut self, piece: &'p [u8]) -> Result<Option<Found<'p>>, LogFault>
        ensures { MatchResult result
            (λ found. MatchOption found (Reads self.old piece.now self.new [] Option.None)
            (λ found. Reads self.old piece.now self.new found.rest.now (Option.Some found.message) × (length found.rest.now < length piece.now)))
            (Refuses self.old piece.now) }
    {
        let mut rest = piece;
        'lines: loop {
            rest = match self.cut(rest) {
                Ok(Some(left)) => left,
                Ok(None) => return Ok(None),
                Err(fault) => return Err(fault),
            };
            match self.take_line() {
                Ok(Some(message)) => return Ok(Some(Found { message, rest })),
                Ok(None) => {}
                Err(fault) => return Err(fault),
            }
        }
    }

    /// Once all pieces were read: the number of the last line, where it has no end. It may be cut, and was not read.
    pub fn unended(&self) -> Option<u64>
        ensures number { result ≡ unended self.now }
        ensures whole { IsWhole self.now }
    {
        if self.cutter.line().is_empty() {
            return None;
        }
        Some(self.line.saturating_add(1))
    }

    // Reads on to the end of a line, and tells what is left behind it.
    fn cut<'p>(&mut self, piece: &'p [u8]) -> Result<Option<&'p [u8]>, LogFault>
        ensures same { (self.new.line ≡ self.old.line) × (self.new.reader ≡ self.old.reader) × (self.new.channel ≡ self.old.channel) }
        ensures cut { MatchResult result
            (λ left. MatchOption left (GoesOn self.old.cutter piece.now self.new.cutter) (λ left. Ends self.old.cutter piece.now self.new.cutter left.now))
            (Refuses self.old piece.now) }
    {
        match self.cutter.cut(piece) {
            Ok(left) => Ok(left),
            Err(CutFault::Memory) => Err(LogFault::Memory),
            Err(CutFault::Long) => Err(LogFault::Line {
                number: self.line.saturating_add(1),
                fault: LineFault::Long,
            }),
        }
    }

    // Reads the line that was kept.
    fn take_line(&mut self) -> Result<Option<Message>, LogFault>
        ensures { MatchResult result (TakesLine self.old self.new) (IsWrong self.old) }
    {
        self.line = self.line.saturating_add(1);
        let message = frame_in(
            self.alloc,
            &mut self.reader,
            &mut self.channel,
            self.line,
            self.cutter.line(),
        )?;
        self.cutter.clear();
        Ok(message)
    }
}
