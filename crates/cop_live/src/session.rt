//! A boot over a port. The start of the nodes is held back.

ghost use Rattle.std.specs.Prelude.{◌≡◌, ◌≤◌, ◌∷◌, [], ℕ, true, false, map, take, is_some, option_to_list, IfSome, IfNone};
ghost use Rattle.std.specs.List.{list_all};
ghost use Rattle.cop_sdo.specs.Message.{message_of};
ghost use Rattle.cop_boot.specs.Manager.{passed, heard, end_at};
ghost use Rattle.cop_slcan.specs.Meaning.{told_of};
ghost use Rattle.cop_slcan.specs.Reading.{taken, said_from, left_from};
ghost use Rattle.cop_live.specs.Log.{Asked, Sent, DidAll, BrokeOff};
ghost use Rattle.cop_live.specs.Session.{State, told, told_all, is_start, held, boot_up_of, boot_up_told, noting, noted, turn_log, turn_state, command_to, node_reset_of, reset_of, start_of, Closed, Booted, CloseFails, TurnFails, BootFails};

use crate::nodes::NodeSet;
use crate::port::Port;
use cop_boot::Manager;
use cop_frame::Frame;
use cop_frame::identifiers::HEARTBEAT;
use cop_slcan::{Reader, Said, line_of};

/// Sends a frame. `false` where the port fails.
pub fn send<P: Port>(port: &mut P, frame: &Frame) -> bool
    ensures sent { result ≡ true → DidAll P.reads P.writes P.asks port.old (Sent (message_of frame.now) ∷ []) port.new }
    ensures failed { result ≡ false → BrokeOff P.reads P.writes P.asks P.fails port.old (Sent (message_of frame.now) ∷ []) port.new }
{
    port.write(&line_of(frame))
}

// Whether a frame starts nodes.
fn is_start(frame: &Frame) -> bool
    ensures { result ≡ is_start (message_of frame.now) }
{
    frame.id == 0 && frame.body[0] == 1
}

// Sends a frame of the manager, unless it is the start.
fn send_held<P: Port>(port: &mut P, frame: &Frame) -> bool
    ensures sent { result ≡ true → DidAll P.reads P.writes P.asks port.old (map Sent (held (message_of frame.now ∷ []))) port.new }
    ensures failed { result ≡ false → BrokeOff P.reads P.writes P.asks P.fails port.old (map Sent (held (message_of frame.now ∷ []))) port.new }
{
    is_start(frame) || send(port, frame)
}

// A moment passes: what the manager gives up is sent.
fn pass<P: Port>(manager: &mut Manager, port: &mut P, now: u64) -> bool
    ensures manager { result ≡ true → manager.new ≡ (passed manager.old now).manager }
    ensures sent { result ≡ true → DidAll P.reads P.writes P.asks port.old (map Sent (held (passed manager.old now).frames)) port.new }
    ensures failed { result ≡ false → BrokeOff P.reads P.writes P.asks P.fails port.old (map Sent (held (passed manager.old now).frames)) port.new }
{
    match manager.on_moment(now) {
        Some(frame) => {
            if send_held(port, &frame) {
                pass(manager, port, now)
            } else {
                false
            }
        }
        None => true,
    }
}

// The manager hears a frame, and answers.
fn hear_frame<P: Port>(manager: &mut Manager, port: &mut P, frame: &Frame) -> bool
    ensures manager { result ≡ true → manager.new ≡ (heard manager.old (message_of frame.now) manager.old.clock).manager }
    ensures sent { result ≡ true → DidAll P.reads P.writes P.asks port.old (map Sent (held (heard manager.old (message_of frame.now) manager.old.clock).frames)) port.new }
    ensures failed { result ≡ false → BrokeOff P.reads P.writes P.asks P.fails port.old (map Sent (held (heard manager.old (message_of frame.now) manager.old.clock).frames)) port.new }
{
    let now = manager.clock();
    match manager.on_frame(frame, now) {
        Some(answer) => send_held(port, &answer),
        None => true,
    }
}

// The manager is told something, and answers.
fn tell<P: Port>(manager: &mut Manager, port: &mut P, said: &Said) -> bool
    ensures manager { result ≡ true → manager.new ≡ (told manager.old (told_of said.now)).manager }
    ensures sent { result ≡ true → DidAll P.reads P.writes P.asks port.old (map Sent (held (told manager.old (told_of said.now)).frames)) port.new }
    ensures failed { result ≡ false → BrokeOff P.reads P.writes P.asks P.fails port.old (map Sent (held (told manager.old (told_of said.now)).frames)) port.new }
{
    match said {
        Said::Heard(frame) => hear_frame(manager, port, frame),
        Said::Done | Said::Refused | Said::Other => true,
    }
}

// The node whose boot-up a frame is.
fn boot_up_of(frame: &Frame) -> Option<u8>
    ensures { result ≡ boot_up_of (message_of frame.now) }
{
    if frame.id > HEARTBEAT && frame.id < HEARTBEAT + 128 && frame.len == 1 && frame.body[0] == 0 {
        Some((frame.id - HEARTBEAT) as u8)
    } else {
        None
    }
}

// The node whose boot-up a line tells.
fn boot_up_told(said: &Said) -> Option<u8>
    ensures { result ≡ boot_up_told (told_of said.now) }
{
    match said {
        Said::Heard(frame) => boot_up_of(frame),
        Said::Done | Said::Refused | Said::Other => None,
    }
}

/// A boot over a port: the moment at which it began, the reader of what comes, and the nodes that booted up.
#[derive(Drop)]
pub struct Boot {
    pub began: u64,
    pub reader: Reader,
    pub booted: NodeSet,
}

// Notes the node whose boot-up a line tells.
pub(crate) fn note(booted: &mut NodeSet, said: &Said)
    ensures { booted.new ≡ noting booted.old (boot_up_told (told_of said.now)) }
{
    match boot_up_told(said) {
        Some(node) => booted.add(node),
        None => {}
    }
}

// The manager is told what a byte says, if it ends a line.
fn take_byte<P: Port>(manager: &mut Manager, boot: &mut Boot, port: &mut P, byte: u8) -> bool
    ensures began { boot.new.began ≡ boot.old.began }
    ensures reader { boot.new.reader ≡ (taken boot.old.reader byte).0 }
    ensures booted { boot.new.booted ≡ noted boot.old.booted (option_to_list (taken boot.old.reader byte).1) }
    ensures manager { result ≡ true → manager.new ≡ (told_all manager.old (option_to_list (taken boot.old.reader byte).1)).manager }
    ensures sent { result ≡ true → DidAll P.reads P.writes P.asks port.old (map Sent (held (told_all manager.old (option_to_list (taken boot.old.reader byte).1)).frames)) port.new }
    ensures failed { result ≡ false → BrokeOff P.reads P.writes P.asks P.fails port.old (map Sent (held (told_all manager.old (option_to_list (taken boot.old.reader byte).1)).frames)) port.new }
{
    match boot.reader.take(byte) {
        Some(said) => {
            note(&mut boot.booted, &said);
            tell(manager, port, &said)
        }
        None => true,
    }
}

// The manager is told what bytes say.
fn take_bytes<P: Port>(manager: &mut Manager, boot: &mut Boot, port: &mut P, bytes: &[u8]) -> bool
    ensures began { boot.new.began ≡ boot.old.began }
    ensures reader { result ≡ true → boot.new.reader ≡ left_from boot.old.reader bytes.now }
    ensures booted { result ≡ true → boot.new.booted ≡ noted boot.old.booted (said_from boot.old.reader bytes.now) }
    ensures manager { result ≡ true → manager.new ≡ (told_all manager.old (said_from boot.old.reader bytes.now)).manager }
    ensures sent { result ≡ true → DidAll P.reads P.writes P.asks port.old (map Sent (held (told_all manager.old (said_from boot.old.reader bytes.now)).frames)) port.new }
    ensures failed { result ≡ false → BrokeOff P.reads P.writes P.asks P.fails port.old (map Sent (held (told_all manager.old (said_from boot.old.reader bytes.now)).frames)) port.new }
{
    match bytes {
        [] => true,
        [byte, rest @ ..] => {
            if take_byte(manager, boot, port, *byte) {
                take_bytes(manager, boot, port, rest)
            } else {
                false
            }
        }
    }
}

// Whether the boot of each node has ended.
fn have_ended(manager: &Manager, nodes: &[u8]) -> bool
    ensures { result ≡ list_all (λ node. is_some (end_at manager.now.nodes node)) nodes.now }
{
    nodes.iter().all(|node| manager.end(*node).is_some())
}

/// A turn that was taken: its moment, and how many bytes were read in it.
#[derive(Clone, Copy)]
pub struct Turn {
    pub now: u64,
    pub count: usize,
}

/// Takes a turn: lets time pass, and hears what comes, of which the bytes are put into the buffer's beginning. Moments count from that at
/// which the boot began. `None` where the port or its clock fails.
pub fn take_turn<P: Port>(
    manager: &mut Manager,
    boot: &mut Boot,
    port: &mut P,
    buffer: &mut [u8; 256],
) -> Option<Turn>
    ensures count { IfSome result (λ turn. turn.count ≤ 256) }
    ensures began { boot.new.began ≡ boot.old.began }
    ensures did { IfSome result (λ turn. DidAll P.reads P.writes P.asks port.old (turn_log boot.old.began (record { manager = manager.old; pending = boot.old.reader }) turn.now (take turn.count buffer.new)) port.new) }
    ensures booted { IfSome result (λ turn. boot.new.booted ≡ noted boot.old.booted (said_from boot.old.reader (take turn.count buffer.new))) }
    ensures state { IfSome result (λ turn. (let later : State = record { manager = manager.new; pending = boot.new.reader } in later) ≡ turn_state boot.old.began (record { manager = manager.old; pending = boot.old.reader }) turn.now (take turn.count buffer.new)) }
    ensures failed { IfNone result (TurnFails P.reads P.writes P.asks P.fails boot.old.began (record { manager = manager.old; pending = boot.old.reader }) port.old port.new) }
{
    let Some(now) = port.now() else {
        return None;
    };
    if !pass(manager, port, now.saturating_sub(boot.began)) {
        return None;
    }
    let Some(count) = port.read(buffer) else {
        return None;
    };
    if take_bytes(manager, boot, port, &buffer[..count]) {
        Some(Turn { now, count })
    } else {
        None
    }
}

/// Closes the adapter, once it has had time to send what it took.
pub fn close<P: Port>(port: &mut P) -> bool
    ensures closed { result ≡ true → Closed P.reads P.writes port.old port.new }
    ensures failed { result ≡ false → CloseFails P.reads P.writes P.fails port.old port.new }
{
    let mut buffer = [0; 256];
    port.read(&mut buffer).is_some() && port.read(&mut buffer).is_some() && port.write(b"C\r")
}

// An NMT command to one node alone, or to all.
fn command_to(command: u8, only: Option<u8>) -> Frame
    ensures { message_of result ≡ command_to command only }
{
    Frame {
        id: 0,
        body: [command, only.unwrap_or(0), 0, 0, 0, 0, 0, 0],
        len: 2,
    }
}

/// The NMT command that resets the communication of one node alone, or of all.
pub(crate) fn reset_of(only: Option<u8>) -> Frame
    ensures { message_of result ≡ reset_of only }
{
    command_to(130, only)
}

/// The NMT command that resets one node alone, or all, whole.
pub fn node_reset_of(only: Option<u8>) -> Frame
    ensures { message_of result ≡ node_reset_of only }
{
    command_to(129, only)
}

/// The NMT command that starts one node alone, or all.
pub fn start_of(only: Option<u8>) -> Frame
    ensures { message_of result ≡ start_of only }
{
    command_to(1, only)
}

// Asks the clock when the boot begins, and resets the communication of one node alone, or of all.
fn begin<P: Port>(manager: &mut Manager, only: Option<u8>, port: &mut P) -> Option<Boot>
    ensures booted { IfSome result (λ boot. Booted P.reads P.writes P.asks only manager.old port.old boot.began (record { manager = manager.new; pending = boot.reader }) port.new) }
    ensures failed { IfNone result ((began : ℕ) × BrokeOff P.reads P.writes P.asks P.fails port.old (Asked began ∷ Sent (reset_of only) ∷ []) port.new) }
{
    let Some(began) = port.now() else {
        return None;
    };
    let _to_all = manager.begin(0);
    if send(port, &reset_of(only)) {
        Some(Boot {
            began,
            reader: Reader::new(),
            booted: NodeSet::new(),
        })
    } else {
        None
    }
}

/// Boots the nodes of a manager over a port, until the boot of each of some nodes has ended: whatever bytes come, and at whatever
/// moments. The communication of one node alone is reset, or of all; the start of the nodes is held back. `None` where the port or its
/// clock fails.
pub fn boot_over<P: Port>(
    manager: &mut Manager,
    nodes: &[u8],
    only: Option<u8>,
    port: &mut P,
) -> Option<Boot>
    ensures booted { IfSome result (λ boot. Booted P.reads P.writes P.asks only manager.old port.old boot.began (record { manager = manager.new; pending = boot.reader }) port.new) }
    ensures ended { IfSome result (λ boot. list_all (λ node. is_some (end_at manager.new.nodes node)) nodes.now ≡ true) }
    ensures failed { IfNone result (BootFails P.reads P.writes P.asks P.fails only manager.old port.old port.new) }
{
    let Some(mut boot) = begin(manager, only, port) else {
        return None;
    };
    let mut buffer = [0; 256];
    for _turn in 0..u64::MAX {
        if have_ended(manager, nodes) {
            return Some(boot);
        }
        let Some(_turn) = take_turn(manager, &mut boot, port, &mut buffer) else {
            return None;
        };
    }
    None
}
