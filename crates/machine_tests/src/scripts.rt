//! A port that gives what a script has.

use cop_live::Port;
use std::alloc::Global;

/// What comes in one turn: a moment, and bytes.
pub type Turn = (u64, &'static [u8]);

/// What the device of node 5 tells of itself wherever it is asked: the type and the mapping of its PDO, as its EDS file has them.
const TOLD: &[(&[u8], &[u8])] = &[
    (b"t60584000180200000000\r", b"t58584F001802FF000000\r"),
    (b"t605840001A0000000000\r", b"t58584F001A0002000000\r"),
    (b"t605840001A0100000000\r", b"t585843001A0120010020\r"),
    (b"t605840001A0200000000\r", b"t585843001A0220020020\r"),
];

/// What the device tells in answer to a request, if it tells that wherever it is asked.
fn told_to(request: &[u8]) -> Option<&'static [u8]> {
    for (asked, answer) in TOLD {
        if *asked == request {
            return Some(*answer);
        }
    }
    None
}

/// A port that gives what a script has, turn by turn, and then fails. The commands that open an adapter are answered beside the script: one
/// that closes it by nothing, `F` by flags, and `S`, `L` and `O` by CR, or by BEL if they are to be refused, or by nothing in two reads if they are not to be
/// answered. It notes what is written.
#[derive(Drop)]
pub struct Script {
    turns: &'static [Turn],
    place: usize,
    refused: &'static [u8],
    silent: &'static [u8],
    pub flags: &'static [u8],
    answer: Option<&'static [u8]>,
    silences: u8,
    pub written: Vec<u8>,
}

impl Script {
    pub fn new(alloc: Global, turns: &'static [Turn]) -> Script {
        Script::refusing(alloc, turns, b"", b"")
    }

    /// A port whose adapter refuses the commands of some letters, and does not answer those of others.
    pub fn refusing(
        alloc: Global,
        turns: &'static [Turn],
        refused: &'static [u8],
        silent: &'static [u8],
    ) -> Script {
        Script {
            turns,
            place: 0,
            refused,
            silent,
            flags: b"F00\r",
            answer: None,
            silences: 0,
            written: Vec::new(alloc),
        }
    }
}

impl Script {
    /// What the adapter says to a command, and nothing for a frame.
    fn answer_to(&self, bytes: &[u8]) -> Option<&'static [u8]> {
        let letter = bytes.first()?;
        match *letter {
            b'\r' => Some(b""),
            b'F' => Some(self.flags),
            b'S' | b'L' | b'O' if self.refused.contains(letter) => Some(b"\x07"),
            b'S' | b'L' | b'O' if self.silent.contains(letter) => None,
            b'S' | b'L' | b'O' => Some(b"\r"),
            _ => told_to(bytes),
        }
    }
}

impl Port for Script {
    ghost use Rattle.std.specs.Prelude.{◌≡◌, ◌++◌};

    ghost reads = { λ p bytes q. q.written.items ≡ p.written.items };

    ghost writes = { λ p bytes q. q.written.items ≡ p.written.items ++ bytes };

    ghost asks = { λ p now q. q.written.items ≡ p.written.items };

    ghost fails = { λ _ _ _. Unit {0} };

    fn read(&mut self, buffer: &mut [u8]) -> Option<usize> {
        let bytes = match self.answer.take() {
            Some(answer) => answer,
            None if self.silences > 0 => {
                self.silences -= 1;
                b""
            }
            None => {
                let (_, bytes) = *self.turns.get(self.place)?;
                self.place += 1;
                bytes
            }
        };
        let room = buffer.get_mut(..bytes.len())?;
        room.copy_from_slice(bytes);
        Some(bytes.len())
    }

    fn write(&mut self, bytes: &[u8]) -> bool {
        self.answer = self.answer_to(bytes);
        self.silences = match bytes.first() {
            Some(letter) if self.silent.contains(letter) => 2,
            _ => 0,
        };
        self.written.extend_from_slice(bytes).is_ok()
    }

    fn now(&mut self) -> Option<u64> {
        let (now, _) = *self.turns.get(self.place)?;
        Some(now)
    }
}
