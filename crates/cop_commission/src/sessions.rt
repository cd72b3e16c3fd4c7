//! A boot by a manager over a port, from the opening of the adapter to its closing: what goes before it, and the boot itself.

ghost use Rattle.std.specs.Prelude.{◌≡◌, ◌⊎◌, [], ◌∷◌, true, false, IfOk, IfSome, IfNone, OnErr};
ghost use Rattle.cop_live.specs.Log.{Sent, BrokeOff};
ghost use Rattle.cop_live.specs.Session.{CloseFails, node_reset_of};
ghost use Rattle.cop_readback.specs.Session.{ReadBackStops};
ghost use Rattle.cop_commission.specs.Sessions.{awaited_if, IsWatched, IsClosing, Refrains, AreReset, GoesOn, IsSession};
ghost use Rattle.cop_commission.specs.Sessions.{WatchFails, ClosingFails, if_unclosed, is_kept_off, AskFirstFails, AskFirstStops, Restores, RestoringFails, RestoringStops, TellingFails, SessionFails, SessionStops, if_failed};

use crate::restoring::has_untaken;
use cop_boot::Manager;
use cop_frame::Rate;
use cop_heartbeats::{Awaited, Heartbeats, attend};
use cop_identity::{Exchange, Question, ask_all, has_other, reset_and_ask};
use cop_live::{Command, Found, Port, Runner, Sender, approach, close, node_reset_of, send};
use cop_readback::{Reach, ReadBack, boot_and_read_back};
use std::alloc::{AllocError, Global};
use std::marker::Model;

/// How a bus is met: at which rate; to whose PDOs it is listened first, unless it is taken over; how far the boot reaches; for how many ticks
/// a node's boot-up is awaited after a reset; and whose heartbeats are awaited after the start, for so many ticks. Contracts see the lists.
#[derive(Drop)]
pub struct Bus {
    pub rate: Rate,
    pub senders: Vec<Sender>,
    pub take_over: bool,
    pub reach: Reach,
    pub boot_limit: u64,
    pub awaited: Vec<Awaited>,
    pub limit: u64,
}

impl Model for Bus {
    ghost use Rattle.cop_commission.specs.Sessions.{Way};

    ghost Value = { Way };

    ghost view = { λ bus. record { rate = bus.rate; senders = bus.senders.items; take_over = bus.take_over; reach = bus.reach; boot_limit = bus.boot_limit; awaited = bus.awaited.items; limit = bus.limit } };
}

/// What the devices are asked before a boot: who they are, to take the values that they left the factory with, and which COB-IDs they have that
/// are to be switched off.
#[derive(Drop)]
pub struct Questions {
    pub identity: Vec<Question>,
    pub restores: Vec<Question>,
    pub offs: Vec<Question>,
}

/// How a session began.
#[derive(Drop)]
pub enum Session {
    /// The nodes may be booted: this is what came of the questions about COB-IDs.
    Told { told: Vec<Exchange> },
    /// Somebody runs already: no frame was sent.
    Running { runner: Runner },
    /// Lines came, so many, and none of them is a frame: no frame was sent.
    Garbled { lines: u64 },
    /// No frame was heard, and these flags of the adapter tell of errors on the bus: no frame was sent.
    Erroneous { flags: u16 },
    /// The adapter refuses a command by which it is opened: no frame was sent.
    Unopened { command: Command },
    /// Some device is another one: of frames questions alone were sent.
    Others { exchanges: Vec<Exchange> },
    /// Some device does not take the values that it left the factory with: besides questions, no frame but downloads to 1011h was sent.
    Unrestored { exchanges: Vec<Exchange> },
    /// The port or its clock failed.
    Failed,
}

// Awaits heartbeats, if there are any to be awaited, and gives what was heard of their nodes.
fn watch<P: Port>(awaited: &[Awaited], limit: u64, port: &mut P) -> Option<Heartbeats>
    ensures watched { IfSome result (λ heartbeats. IsWatched P.reads P.writes P.asks awaited.now limit port.old heartbeats port.new) }
    ensures failed { IfNone result (WatchFails P.reads P.writes P.asks P.fails awaited.now port.old port.new) }
{
    match awaited {
        [] => Some(Heartbeats::new()),
        [_, ..] => attend(awaited, limit, port),
    }
}

/// The heartbeats that are awaited where nodes were started.
pub fn awaited_if(started: bool, awaited: &[Awaited]) -> &[Awaited]
    ensures { result.now ≡ awaited_if started awaited.now }
{
    if started { awaited } else { &[] }
}

/// How a boot over an open adapter ended.
#[derive(Drop)]
pub enum Closing {
    /// The boot of each node ended, its settings were read back, this was heard of those whose heartbeats were awaited, and the adapter was
    /// closed.
    Closed {
        back: ReadBack,
        heartbeats: Heartbeats,
    },
    /// The port or its clock failed, once the start of the nodes was sent, or before.
    Failed {
        started: bool,
    },
}

/// Boots the nodes of a manager over an open adapter, reads their settings back, awaits heartbeats where they were started, and closes the
/// adapter. Otherwise want of memory.
pub fn boot_and_close<P: Port>(
    alloc: Global,
    manager: &mut Manager,
    nodes: &[u8],
    settings: &[Question],
    bus: &Bus,
    port: &mut P,
) -> Result<Closing, AllocError>
    ensures closes { IfOk result (λ closing. IsClosing P.reads P.writes P.asks bus.now manager.old nodes.now settings.now port.old manager.new port.new closing) }
    ensures failed { IfOk result (λ closing. if_unclosed closing (λ started. ClosingFails P.reads P.writes P.asks P.fails bus.now manager.old nodes.now settings.now port.old manager.new started port.new)) }
    ensures short { OnErr result (ReadBackStops P.reads P.writes P.asks bus.now.reach.only manager.old nodes.now settings.now port.old port.new) }
{
    let Some(back) = boot_and_read_back(alloc, manager, nodes, settings, bus.reach, port)? else {
        return Ok(Closing::Failed { started: false });
    };
    let started = back.started;
    let Some(heartbeats) = watch(awaited_if(started, &bus.awaited), bus.limit, port) else {
        return Ok(Closing::Failed { started });
    };
    if close(port) {
        Ok(Closing::Closed { back, heartbeats })
    } else {
        Ok(Closing::Failed { started })
    }
}

// Closes an adapter over which nothing is to be sent, for what was found.
fn refrain<P: Port>(found: Found, port: &mut P) -> Session
    ensures refrains { Refrains P.reads P.writes found port.old result port.new }
    ensures failed { if_failed result (is_kept_off found ≡ true → CloseFails P.reads P.writes P.fails port.old port.new) }
{
    if !close(port) {
        return Session::Failed;
    }
    match found {
        Found::Running { runner } => Session::Running { runner },
        Found::Garbled { lines } => Session::Garbled { lines },
        Found::Erroneous { flags } => Session::Erroneous { flags },
        Found::Refused { command } => Session::Unopened { command },
        Found::Nobody | Found::Silence | Found::Failed => Session::Failed,
    }
}

// Resets one node alone, or all, whole, where some devices were told to take other values. `false` where the port fails.
fn reset_restored<P: Port>(restores: &[Question], only: Option<u8>, port: &mut P) -> bool
    ensures resets { result ≡ true → AreReset P.reads P.writes P.asks only restores.now port.old port.new }
    ensures failed { result ≡ false → BrokeOff P.reads P.writes P.asks P.fails port.old (Sent (node_reset_of only) ∷ []) port.new }
{
    match restores {
        [] => true,
        [_, ..] => send(port, &node_reset_of(only)),
    }
}

// Has some devices that are known take the values that they left the factory with, and unless one does not, resets the nodes and asks which
// COB-IDs they have.
fn restore_first<P: Port>(
    alloc: Global,
    nodes: &[u8],
    questions: &Questions,
    bus: &Bus,
    port: &mut P,
) -> Result<Session, AllocError>
    ensures goes_on { IfOk result (λ session. Restores P.reads P.writes P.asks bus.now nodes.now questions.now.restores.items questions.now.offs.items port.old port.new session) }
    ensures failed { IfOk result (λ session. if_failed session (RestoringFails P.reads P.writes P.asks P.fails bus.now.reach.only questions.now.restores.items port.old port.new ⊎ TellingFails P.reads P.writes P.asks P.fails bus.now nodes.now questions.now.restores.items questions.now.offs.items port.old port.new)) }
    ensures short { OnErr result (RestoringStops P.reads P.writes P.asks bus.now nodes.now questions.now.restores.items questions.now.offs.items port.old port.new) }
{
    let Some(exchanges) = ask_all(alloc, &questions.restores, port)? else {
        return Ok(Session::Failed);
    };
    if has_untaken(&exchanges) {
        if close(port) {
            return Ok(Session::Unrestored { exchanges });
        }
        return Ok(Session::Failed);
    }
    let (limit, only) = (bus.boot_limit, bus.reach.only);
    if !reset_restored(&questions.restores, only, port) {
        return Ok(Session::Failed);
    }
    match reset_and_ask(alloc, nodes, limit, only, &questions.offs, port)? {
        Some(told) => Ok(Session::Told { told }),
        None => Ok(Session::Failed),
    }
}

// Asks the devices at an open adapter who they are, and unless one is another resets the nodes and asks which COB-IDs they have.
fn ask_first<P: Port>(
    alloc: Global,
    nodes: &[u8],
    questions: &Questions,
    bus: &Bus,
    port: &mut P,
) -> Result<Session, AllocError>
    ensures goes_on { IfOk result (λ session. GoesOn P.reads P.writes P.asks bus.now nodes.now questions.now.identity.items questions.now.restores.items questions.now.offs.items port.old port.new session) }
    ensures failed { IfOk result (λ session. if_failed session (AskFirstFails P.reads P.writes P.asks P.fails bus.now nodes.now questions.now.identity.items questions.now.restores.items questions.now.offs.items port.old port.new)) }
    ensures short { OnErr result (AskFirstStops P.reads P.writes P.asks bus.now nodes.now questions.now.identity.items questions.now.restores.items questions.now.offs.items port.old port.new) }
{
    let Some(exchanges) = ask_all(alloc, &questions.identity, port)? else {
        return Ok(Session::Failed);
    };
    if has_other(&exchanges) {
        if close(port) {
            return Ok(Session::Others { exchanges });
        }
        return Ok(Session::Failed);
    }
    restore_first(alloc, nodes, questions, bus, port)
}

/// Opens the adapter at a port at the bus's rate to listen only, and listens for 2 s, unless the bus is taken over. If nobody that is meant
/// is heard to run, nor errors without a frame, it opens it to send and asks the devices who they are. Unless a device is found to be another
/// one, some take the values that they left the factory with; and unless one does not, it resets the nodes and asks those that boot up which COB-IDs they have, if some are to be switched off. `Failed` if the port or its
/// clock fails, and otherwise want of memory.
pub fn run_session<P: Port>(
    alloc: Global,
    nodes: &[u8],
    bus: &Bus,
    questions: &Questions,
    port: &mut P,
) -> Result<Session, AllocError>
    ensures session { IfOk result (λ session. IsSession P.reads P.writes P.asks bus.now nodes.now questions.now.identity.items questions.now.restores.items questions.now.offs.items port.old port.new session) }
    ensures failed { IfOk result (λ session. if_failed session (SessionFails P.reads P.writes P.asks P.fails bus.now nodes.now questions.now.identity.items questions.now.restores.items questions.now.offs.items port.old port.new)) }
    ensures short { OnErr result (SessionStops P.reads P.writes P.asks bus.now nodes.now questions.now.identity.items questions.now.restores.items questions.now.offs.items port.old port.new) }
{
    let (only, take_over) = (bus.reach.only, bus.take_over);
    match approach(bus.rate, &bus.senders, only, take_over, port) {
        Found::Nobody | Found::Silence => { ask_first(alloc, nodes, questions, bus, port) }
        Found::Failed => Ok(Session::Failed),
        found => Ok(refrain(found, port)),
    }
}
