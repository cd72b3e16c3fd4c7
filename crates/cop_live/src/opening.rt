//! Opening an adapter: to listen only, or to send.

ghost use Rattle.std.specs.Prelude.{◌≡◌, [], true, false, None, IfSome, IfNone};
ghost use Rattle.cop_live.specs.Opening.{reply_in, RepliedThen, Replied, Commanded, is_obeyed, Obeys, Dropped, IsShut, IsSet, SwitchedOn, ListensBy, OpenedBy, OpenedToListenBy};
ghost use Rattle.cop_live.specs.Opening.{ReplyFails, CommandFails, DropFails, ShutFails, SetFails, open_command, OpenFails, ListensFail, OpenToListenFails, if_failed};

use crate::port::Port;
use cop_frame::Rate;
use cop_slcan::rate_digit;

/// So many reads are dropped at most while a closed adapter has something to say.
const DROPPED: u8 = 64;

/// What an adapter answers to a command.
#[derive(Clone, Copy, Debug, PartialEq, Eq)]
pub enum Reply {
    /// CR.
    Taken,
    /// BEL.
    Refused,
    /// Nothing in two reads.
    Silent,
}

/// A command that an adapter has to take before frames are sent.
#[derive(Clone, Copy, Debug, PartialEq, Eq)]
pub enum Command {
    /// `S` and a digit: its rate is set.
    Rate,
    /// `O`: it is opened to send.
    Open,
}

/// What came of the opening of an adapter.
#[derive(Clone, Copy, Debug, PartialEq, Eq)]
pub enum Opening {
    /// It is open to send.
    Active,
    /// It is open to listen only.
    Passive,
    /// It did not answer whether it listens only: it may be closed.
    Untold,
    /// It refuses a command.
    Refused { command: Command },
    /// The port failed.
    Failed,
}

// The first answer in bytes.
fn reply_in(bytes: &[u8]) -> Option<Reply>
    ensures { result ≡ reply_in bytes.now }
{
    for byte in bytes {
        if *byte == b'\r' {
            return Some(Reply::Taken);
        }
        if *byte == 0x07 {
            return Some(Reply::Refused);
        }
    }
    None
}

// A second read, where the first had no answer.
fn late_reply<P: Port>(port: &mut P) -> Option<Reply>
    ensures told { IfSome result (λ reply. RepliedThen P.reads None port.old reply port.new) }
    ensures failed { IfNone result (P.fails port.old [] port.new) }
{
    let mut buffer = [0; 256];
    let Some(count) = port.read(&mut buffer) else {
        return None;
    };
    match reply_in(&buffer[..count]) {
        Some(reply) => Some(reply),
        None => Some(Reply::Silent),
    }
}

// The answer to a command.
fn reply_at<P: Port>(port: &mut P) -> Option<Reply>
    ensures told { IfSome result (λ reply. Replied P.reads port.old reply port.new) }
    ensures failed { IfNone result (ReplyFails P.reads P.fails port.old port.new) }
{
    let mut buffer = [0; 256];
    let Some(count) = port.read(&mut buffer) else {
        return None;
    };
    match reply_in(&buffer[..count]) {
        Some(reply) => Some(reply),
        None => late_reply(port),
    }
}

// Gives a command, and awaits its answer.
fn give<P: Port>(port: &mut P, command: &[u8]) -> Option<Reply>
    ensures given { IfSome result (λ reply. Commanded P.reads P.writes command.now port.old reply port.new) }
    ensures failed { IfNone result (CommandFails P.reads P.writes P.fails command.now port.old port.new) }
{
    if port.write(command) {
        reply_at(port)
    } else {
        None
    }
}

// Whether an answer says that a command is taken. No answer does, since some adapters answer nothing.
fn is_obeyed(reply: Reply) -> bool
    ensures { result ≡ is_obeyed reply }
{
    match reply {
        Reply::Taken | Reply::Silent => true,
        Reply::Refused => false,
    }
}

// Gives a command, and says whether it is taken.
fn order<P: Port>(port: &mut P, command: &[u8]) -> Option<bool>
    ensures given { IfSome result (λ taken. Obeys P.reads P.writes command.now port.old taken port.new) }
    ensures failed { IfNone result (CommandFails P.reads P.writes P.fails command.now port.old port.new) }
{
    match give(port, command) {
        Some(reply) => Some(is_obeyed(reply)),
        None => None,
    }
}

// What is said is read and dropped, until nothing is said, in at most so many reads.
fn drop_said<P: Port>(port: &mut P, reads: u8) -> bool
    ensures dropped { result ≡ true → Dropped P.reads reads port.old port.new }
    ensures failed { result ≡ false → DropFails P.reads P.fails reads port.old port.new }
{
    if reads == 0 {
        return true;
    }
    let mut buffer = [0; 256];
    match port.read(&mut buffer) {
        Some(0) => true,
        Some(_) => drop_said(port, reads - 1),
        None => false,
    }
}

// Ends a line that is begun, closes the adapter, and drops what it says.
fn shut<P: Port>(port: &mut P) -> bool
    ensures shut { result ≡ true → IsShut P.reads P.writes port.old port.new }
    ensures failed { result ≡ false → ShutFails P.reads P.writes P.fails port.old port.new }
{
    port.write(b"\r\rC\r") && drop_said(port, DROPPED)
}

// Closes the adapter and sets its rate.
fn set<P: Port>(port: &mut P, rate: Rate) -> Option<bool>
    ensures set { IfSome result (λ taken. IsSet P.reads P.writes rate port.old taken port.new) }
    ensures failed { IfNone result (SetFails P.reads P.writes P.fails rate port.old port.new) }
{
    if shut(port) {
        order(port, &[b'S', rate_digit(rate), b'\r'])
    } else {
        None
    }
}

// Opens an adapter whose rate is set.
fn switch_on<P: Port>(port: &mut P) -> Opening
    ensures switched { SwitchedOn P.reads P.writes port.old result port.new }
    ensures failed { if_failed result (CommandFails P.reads P.writes P.fails open_command port.old port.new) }
{
    match order(port, b"O\r") {
        Some(true) => Opening::Active,
        Some(false) => Opening::Refused {
            command: Command::Open,
        },
        None => Opening::Failed,
    }
}

/// Opens the adapter at a rate to send: ends a line that is begun, closes it, sets the rate, opens it; and drops what it says.
pub fn open<P: Port>(port: &mut P, rate: Rate) -> Opening
    ensures opened { OpenedBy P.reads P.writes rate port.old result port.new }
    ensures failed { if_failed result (OpenFails P.reads P.writes P.fails rate port.old port.new) }
{
    match set(port, rate) {
        Some(true) => switch_on(port),
        Some(false) => Opening::Refused {
            command: Command::Rate,
        },
        None => Opening::Failed,
    }
}

// Has an adapter whose rate is set listen only, or opens it where it cannot.
fn listen_only<P: Port>(port: &mut P) -> Opening
    ensures listens { ListensBy P.reads P.writes port.old result port.new }
    ensures failed { if_failed result (ListensFail P.reads P.writes P.fails port.old port.new) }
{
    match give(port, b"L\r") {
        Some(Reply::Taken) => Opening::Passive,
        Some(Reply::Silent) => Opening::Untold,
        Some(Reply::Refused) => switch_on(port),
        None => Opening::Failed,
    }
}

/// Opens the adapter at a rate to listen only, by `L`. Where it refuses that, it is opened by `O`, which acknowledges what it hears.
pub fn open_to_listen<P: Port>(port: &mut P, rate: Rate) -> Opening
    ensures opened { OpenedToListenBy P.reads P.writes rate port.old result port.new }
    ensures failed { if_failed result (OpenToListenFails P.reads P.writes P.fails rate port.old port.new) }
{
    match set(port, rate) {
        Some(true) => listen_only(port),
        Some(false) => Opening::Refused {
            command: Command::Rate,
        },
        None => Opening::Failed,
    }
}
