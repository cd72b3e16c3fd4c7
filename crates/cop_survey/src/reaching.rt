//! A bus is reached to ask its devices, whether they run or not.

ghost use Rattle.std.specs.Prelude.{◌≡◌};
ghost use Rattle.cop_live.specs.Listening as listening;
ghost use Rattle.cop_live.specs.Session.{CloseFails};
ghost use Rattle.cop_survey.specs.Reaching.{is_running, IsFound, FindFails, IsReached, ReachFails, Leaves, if_failed};

use cop_frame::Rate;
use cop_live::{Command, Found, Port, approach, close};

/// Why nothing is sent over a bus.
#[derive(Clone, Copy, Debug, PartialEq, Eq)]
pub enum Reason {
    /// Lines came, so many (at most a million are counted), and none of them is a frame.
    Garbled { lines: u64 },
    /// No frame was heard, and these flags of the adapter tell of errors on the bus.
    Erroneous { flags: u16 },
    /// The adapter refuses a command by which it is opened.
    Unopened { command: Command },
}

/// What came of reaching a bus.
#[derive(Clone, Copy, Debug, PartialEq, Eq)]
pub enum Reached {
    /// The adapter is open to send.
    Open,
    /// Nothing is to be sent: the adapter was closed, and no frame was sent.
    Left { reason: Reason },
    /// The port or its clock failed.
    Failed,
}

// Whether somebody was heard to run.
fn is_running(found: &Found) -> bool
    ensures { result ≡ is_running found.now }
{
    matches!(found, Found::Running { .. })
}

// Listens, by an adapter that listens only if it can, and leaves it open to send where that may be, whoever runs.
fn find<P: Port>(rate: Rate, port: &mut P) -> Found
    ensures found { IsFound P.reads P.writes P.asks rate port.old result port.new }
    ensures failed { listening.if_failed result (FindFails P.reads P.writes P.asks P.fails rate port.old port.new) }
{
    let found = approach(rate, &[], None, false, port);
    if is_running(&found) {
        approach(rate, &[], None, true, port)
    } else {
        found
    }
}

// Closes an adapter over which nothing is to be sent.
fn leave<P: Port>(reason: Reason, port: &mut P) -> Reached
    ensures leaves { Leaves P.reads P.writes reason port.old result port.new }
    ensures failed { if_failed result (CloseFails P.reads P.writes P.fails port.old port.new) }
{
    if close(port) {
        Reached::Left { reason }
    } else {
        Reached::Failed
    }
}

/// Opens the adapter at a rate to send. It is opened to listen only before, and listened for 2 s, or until somebody is heard to run, which is no
/// fault. Where lines come of which none is a frame, or none comes and its flags tell of errors on the bus, no frame is sent, and it is closed.
pub fn reach<P: Port>(rate: Rate, port: &mut P) -> Reached
    ensures reached { IsReached P.reads P.writes P.asks rate port.old result port.new }
    ensures failed { if_failed result (ReachFails P.reads P.writes P.asks P.fails rate port.old port.new) }
{
    match find(rate, port) {
        Found::Nobody | Found::Silence => Reached::Open,
        Found::Garbled { lines } => leave(Reason::Garbled { lines }, port),
        Found::Erroneous { flags } => leave(Reason::Erroneous { flags }, port),
        Found::Refused { command } => leave(Reason::Unopened { command }, port),
        Found::Running { .. } | Found::Failed => Reached::Failed,
    }
}
