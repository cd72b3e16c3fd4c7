//! Listening at a port before anything is sent.

ghost use Rattle.std.specs.Prelude.{◌≡◌, None, option_to_list};
ghost use Rattle.cop_sdo.specs.Message.{message_of};
ghost use Rattle.cop_slcan.specs.Meaning.{told_of};
ghost use Rattle.cop_slcan.specs.Reading.{said_from, left_from, taken};
ghost use Rattle.cop_live.specs.Listening.{beat_of, sender_of, is_of_machine, known_of, is_meant, runner_of, runner_by, runner_told, first_runner, tallying, tallied, found_through, Listened, ListenFails, if_failed};

use crate::opening::Command;
use crate::port::Port;
use cop_frame::Frame;
use cop_frame::identifiers::HEARTBEAT;
use cop_slcan::{Reader, Said};

/// So many ticks are listened for, 2 s.
const LISTENING: u64 = 8_000_000;

/// So many lines that are no frames are counted.
const COUNTED: u64 = 1_000_000;

/// The identifier of a PDO, and the node that sends it.
#[derive(Clone, Copy, Debug, PartialEq, Eq)]
pub struct Sender {
    pub id: u16,
    pub node: u8,
}

/// Who is heard to run: a node, or 0 where it is not known which, by a frame of this identifier.
#[derive(Clone, Copy, Debug, PartialEq, Eq)]
pub struct Runner {
    pub node: u8,
    pub id: u16,
}

/// What lines were so far: whether one was a frame, and how many were neither a frame nor an answer of the adapter.
#[derive(Clone, Copy, Debug, PartialEq, Eq)]
struct Tally {
    frame: bool,
    others: u64,
}

/// The node whose heartbeat says operational.
pub fn beat_of(frame: &Frame) -> Option<u8>
    ensures { result ≡ beat_of (message_of frame.now) }
{
    if frame.id > HEARTBEAT && frame.id < HEARTBEAT + 128 && frame.len == 1 && frame.body[0] == 5 {
        Some((frame.id - HEARTBEAT) as u8)
    } else {
        None
    }
}

// The node that sends a PDO.
fn sender_of(senders: &[Sender], id: u16) -> Option<u8>
    ensures { result ≡ sender_of senders.now id }
{
    for sender in senders {
        if sender.id == id {
            return Some(sender.node);
        }
    }
    None
}

// Whether a machine that runs sends by an identifier: SYNC, or that of a PDO.
fn is_of_machine(id: u16) -> bool
    ensures { result ≡ is_of_machine id }
{
    id == 0x80 || id >= 0x181 && id <= 0x57F || id >= 0x680 && id <= 0x6DF
}

// The node that a frame comes from that runs, where it is known.
fn known_of(senders: &[Sender], frame: &Frame) -> Option<u8>
    ensures { result ≡ known_of senders.now (message_of frame.now) }
{
    match beat_of(frame) {
        Some(node) => Some(node),
        None => sender_of(senders, frame.id),
    }
}

// The node that a frame comes from that runs, or 0 where it is not known which.
fn runner_of(senders: &[Sender], frame: &Frame) -> Option<u8>
    ensures { result ≡ runner_of senders.now (message_of frame.now) }
{
    match known_of(senders, frame) {
        Some(node) => Some(node),
        None if is_of_machine(frame.id) => Some(0),
        None => None,
    }
}

// Whether a node is meant, where it is one alone, or all are.
fn is_meant(only: Option<u8>, node: u8) -> bool
    ensures { result ≡ is_meant only node }
{
    match only {
        Some(wanted) => node == wanted,
        None => true,
    }
}

// Who is shown to run by a frame, if it is meant.
fn runner_by(senders: &[Sender], only: Option<u8>, frame: &Frame) -> Option<Runner>
    ensures { result ≡ runner_by senders.now only (message_of frame.now) }
{
    match runner_of(senders, frame) {
        Some(node) if is_meant(only, node) => Some(Runner { node, id: frame.id }),
        Some(_) | None => None,
    }
}

// Who is shown to run by a line.
fn runner_told(senders: &[Sender], only: Option<u8>, said: &Said) -> Option<Runner>
    ensures { result ≡ runner_told senders.now only (told_of said.now) }
{
    match said {
        Said::Heard(frame) => runner_by(senders, only, frame),
        Said::Done | Said::Refused | Said::Other => None,
    }
}

// A line is counted.
fn count(tally: &mut Tally, said: &Said)
    ensures { tally.new ≡ tallying tally.old (told_of said.now) }
{
    match said {
        Said::Heard(_) => tally.frame = true,
        Said::Other => {
            if tally.others < COUNTED {
                tally.others += 1;
            }
        }
        Said::Done | Said::Refused => {}
    }
}

/// What has been heard so far: the bytes of a line that is begun, and what the lines before it were.
#[derive(Drop)]
struct Hearing {
    reader: Reader,
    tally: Tally,
}

// Who is shown to run by what a byte says, if it ends a line.
fn runner_at(
    senders: &[Sender],
    only: Option<u8>,
    hearing: &mut Hearing,
    byte: u8,
) -> Option<Runner>
    ensures reader { hearing.new.reader ≡ (taken hearing.old.reader byte).0 }
    ensures tally { hearing.new.tally ≡ tallied hearing.old.tally (option_to_list (taken hearing.old.reader byte).1) }
    ensures found { result ≡ first_runner senders.now only (option_to_list (taken hearing.old.reader byte).1) }
{
    match hearing.reader.take(byte) {
        Some(said) => {
            count(&mut hearing.tally, &said);
            runner_told(senders, only, &said)
        }
        None => None,
    }
}

// The first who is shown to run by bytes.
fn runner_in(
    senders: &[Sender],
    only: Option<u8>,
    hearing: &mut Hearing,
    bytes: &[u8],
) -> Option<Runner>
    ensures found { result ≡ first_runner senders.now only (said_from hearing.old.reader bytes.now) }
    ensures reader { result ≡ None → hearing.new.reader ≡ left_from hearing.old.reader bytes.now }
    ensures tally { result ≡ None → hearing.new.tally ≡ tallied hearing.old.tally (said_from hearing.old.reader bytes.now) }
{
    match bytes {
        [] => None,
        [byte, rest @ ..] => match runner_at(senders, only, hearing, *byte) {
            Some(runner) => Some(runner),
            None => runner_in(senders, only, hearing, rest),
        },
    }
}

/// What was heard before a boot.
#[derive(Clone, Copy, Debug, PartialEq, Eq)]
pub enum Found {
    /// Nobody who runs.
    Nobody,
    /// No line but answers of the adapter.
    Silence,
    /// A node runs: its heartbeat says operational; or a frame comes by an identifier by which only machines send that run.
    Running { runner: Runner },
    /// Lines came, so many (at most a million are counted), and none of them is a frame.
    Garbled { lines: u64 },
    /// No frame was heard, and these flags of the adapter tell of errors on the bus.
    Erroneous { flags: u16 },
    /// The adapter refuses a command.
    Refused { command: Command },
    /// The port or its clock failed.
    Failed,
}

// What was found where nobody was heard to run.
fn found_through(tally: &Tally) -> Found
    ensures { result ≡ found_through tally.now }
{
    if tally.frame {
        Found::Nobody
    } else if tally.others > 0 {
        Found::Garbled {
            lines: tally.others,
        }
    } else {
        Found::Silence
    }
}

/// Listens for 2 s, or until somebody is heard to run: a heartbeat says operational, or SYNC or a PDO comes, whoever sends it. Where one
/// node alone is meant, that one's heartbeat and PDOs count alone. Nothing is written. `Garbled` where lines came and none of them is a
/// frame; `Silence` where none came but answers of the adapter; `Failed` where the port or its clock fails.
pub fn listen<P: Port>(senders: &[Sender], only: Option<u8>, port: &mut P) -> Found
    ensures listened { Listened P.reads P.writes P.asks senders.now only port.old result port.new }
    ensures failed { if_failed result (ListenFails P.reads P.writes P.asks P.fails port.old port.new) }
{
    let mut hearing = Hearing {
        reader: Reader::new(),
        tally: Tally {
            frame: false,
            others: 0,
        },
    };
    let Some(began) = port.now() else {
        return Found::Failed;
    };
    for _turn in 0..u64::MAX {
        let Some(now) = port.now() else {
            return Found::Failed;
        };
        if now.saturating_sub(began) >= LISTENING {
            return found_through(&hearing.tally);
        }
        let mut buffer = [0; 256];
        let Some(count) = port.read(&mut buffer) else {
            return Found::Failed;
        };
        if let Some(runner) = runner_in(senders, only, &mut hearing, &buffer[..count]) {
            return Found::Running { runner };
        }
    }
    Found::Failed
}
