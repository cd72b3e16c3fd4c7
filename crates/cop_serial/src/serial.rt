//! A serial line to a CAN adapter, and standard streams in its place.

ghost use Rattle.std.specs.Prelude.{◌≤◌, length, IfOk};

use crate::heard::Heard;
use cop_live::Port;
use std::fs::File;
use std::io::{self, IsTerminal, Read, Write};
use std::time::Instant;

/// BEL, by which an adapter refuses a command.
const BEL: u8 = 0x07;

/// A second has so many ticks.
pub(crate) const SECOND: u64 = 4_000_000;

/// A millisecond has so many ticks.
pub(crate) const MILLISECOND: u64 = 4_000;

/// A tick is so many nanoseconds.
const TICK: u128 = 250;

/// Where an adapter is reached.
#[derive(Drop)]
enum Line {
    /// The device file of a serial line.
    Device(File),
    /// Standard input and output.
    Streams,
}

/// A line to an adapter, with a clock that began as it was opened. What a line and a clock give no contract can say.
pub struct Serial<'a> {
    rt: &'a HostRuntime,
    line: Line,
    opened: Instant,
    /// How many commands the adapter refused since it was opened.
    pub refused: u64,
    /// Whether it refused to listen only.
    pub cannot_listen: bool,
    /// Whether it was set to `S7`, which adapters take in two ways.
    pub is_at_seven: bool,
    /// What was heard beside what a boot waits for.
    pub heard: Heard,
    /// The command that was written last, by its letter.
    letter: u8,
    /// What the system said of a read or a write that failed.
    pub error: Option<io::Error>,
    /// After how many ticks the line is given up.
    limit: u64,
    /// Whether it was given up.
    pub over: bool,
}

/// One call on each way out is cheaper to prove than the fields one by one.
impl Drop for Serial<'_> {
    fn drop(self) {
        let Serial {
            rt: _rt,
            line: _line,
            opened: _opened,
            refused: _refused,
            cannot_listen: _cannot_listen,
            is_at_seven: _is_at_seven,
            heard: _heard,
            letter: _letter,
            error: _error,
            limit: _limit,
            over: _over,
        } = self;
    }
}

// The device file of a serial line. Any other file is refused before a byte is written there.
fn open_device(rt: &HostRuntime, name: &str) -> io::Result<File> {
    let file = File::options().read(true).write(true).open(rt, name)?;
    if file.is_terminal() {
        Ok(file)
    } else {
        Err(io::Error::new(
            io::ErrorKind::InvalidInput,
            "it is no device file of a serial line, and nothing was written to it",
        ))
    }
}

/// After how many ticks a line is given up that is after so many seconds, if it ever is.
pub(crate) fn limit_of(seconds: Option<u64>) -> u64 {
    match seconds {
        Some(seconds) => seconds.saturating_mul(SECOND),
        None => u64::MAX,
    }
}

/// The line to an adapter by the name of its device file; `-` is standard input and output. It is given up after so many ticks.
pub fn open_serial<'a>(rt: &'a HostRuntime, name: &str, limit: u64) -> io::Result<Serial<'a>> {
    let line = if name == "-" {
        Line::Streams
    } else {
        Line::Device(open_device(rt, name)?)
    };
    Ok(Serial {
        rt,
        line,
        opened: Instant::now(rt)?,
        refused: 0,
        cannot_listen: false,
        is_at_seven: false,
        heard: Heard::nothing(),
        letter: b'\r',
        error: None,
        limit,
        over: false,
    })
}

impl Serial<'_> {
    /// Whether a read that gives nothing says that nothing came for a while, and not that the line has ended.
    fn is_terminal(&self) -> bool {
        match &self.line {
            Line::Device(file) => file.is_terminal(),
            Line::Streams => self.rt.stdin().is_terminal(),
        }
    }

    /// The ticks since the line was opened.
    pub(crate) fn ticks(&self) -> Option<u64> {
        match Instant::now(self.rt) {
            Ok(now) => u64::try_from(now.duration_since(self.opened).as_nanos() / TICK).ok(),
            Err(_) => None,
        }
    }

    fn read_line(&mut self, buffer: &mut [u8]) -> io::Result<usize>
        ensures { IfOk result (λ count. count ≤ length buffer.old) }
    {
        match &mut self.line {
            Line::Device(file) => file.read(buffer),
            Line::Streams => self.rt.stdin().read(buffer),
        }
    }

    fn write_line(&mut self, bytes: &[u8]) -> io::Result<()> {
        match &mut self.line {
            Line::Device(file) => file.write_all(bytes),
            Line::Streams => {
                self.rt.stdout().write_all(bytes)?;
                self.rt.stdout().flush()
            }
        }
    }
}

impl Serial<'_> {
    /// Closes the adapter if its line was given up before that was done. No frame is sent, and if this fails too, nothing is left to do.
    pub fn close_if_over(&mut self) {
        if self.over {
            let _ = self.write_line(b"C\r");
        }
    }

    /// Notes a command. `O` behind `L` is given where that is refused. What the adapter refuses counts from its opening on, since one that is
    /// closed already refuses to be closed.
    fn note(&mut self, bytes: &[u8]) {
        let Some(letter) = bytes.first() else {
            return;
        };
        if *letter == b'O' || *letter == b'L' {
            self.cannot_listen = self.cannot_listen || *letter == b'O' && self.letter == b'L';
            self.refused = 0;
        }
        self.is_at_seven = self.is_at_seven || bytes.starts_with(b"S7");
        self.letter = *letter;
    }
}

impl Port for Serial<'_> {
    ghost reads = { λ _ _ _. Unit {0} };

    ghost writes = { λ _ _ _. Unit {0} };

    ghost asks = { λ _ _ _. Unit {0} };

    ghost fails = { λ _ _ _. Unit {0} };

    fn read(&mut self, buffer: &mut [u8]) -> Option<usize> {
        match self.read_line(buffer) {
            Ok(0) if !self.is_terminal() => None,
            Ok(count) => {
                let refused = buffer
                    .iter()
                    .take(count)
                    .filter(|byte| **byte == BEL)
                    .count();
                self.refused = self.refused.saturating_add(refused as u64);
                if let Some(bytes) = buffer.get(..count) {
                    self.heard.note_read(bytes);
                }
                Some(count)
            }
            Err(error) if error.kind() == io::ErrorKind::Interrupted => Some(0),
            Err(error) => {
                self.error = Some(error);
                None
            }
        }
    }

    fn write(&mut self, bytes: &[u8]) -> bool {
        self.note(bytes);
        self.heard.note_written(bytes);
        match self.write_line(bytes) {
            Ok(()) => true,
            Err(error) => {
                self.error = Some(error);
                false
            }
        }
    }

    fn now(&mut self) -> Option<u64> {
        let now = self.ticks()?;
        if now < self.limit {
            Some(now)
        } else {
            self.over = true;
            None
        }
    }
}
