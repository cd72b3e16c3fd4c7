//! One NMT command is given over a port, whether nodes run or not.

ghost use Rattle.std.specs.Prelude.{◌≡◌, true, false};
ghost use Rattle.cop_sdo.specs.Message.{message_of};
ghost use Rattle.cop_command.specs.Commanding.{number_of, frame_of, SentAndClosed, SendFails, IsCommanded, CommandFails, if_failed};

use cop_frame::{Frame, Rate};
use cop_live::{Port, close, send};
use cop_survey::{Reached, Reason, reach};

/// An NMT command (CiA 301, "NMT node control").
#[derive(Clone, Copy, Debug, PartialEq, Eq)]
pub enum Command {
    /// Nodes become operational.
    Start,
    /// They are stopped: heartbeats and NMT alone are left.
    Stop,
    /// They become pre-operational: no PDOs.
    EnterPreOperational,
    /// They begin anew.
    ResetNode,
    /// Their communication begins anew.
    ResetCommunication,
}

/// What came of it.
#[derive(Clone, Copy, Debug, PartialEq, Eq)]
pub enum Commanded {
    /// It was sent. No node confirms one.
    Given,
    /// Nothing was sent.
    Left { reason: Reason },
    /// The port or its clock failed.
    Failed,
}

// The number of a command.
fn number_of(command: Command) -> u8
    ensures { result ≡ number_of command }
{
    match command {
        Command::Start => 1,
        Command::Stop => 2,
        Command::EnterPreOperational => 128,
        Command::ResetNode => 129,
        Command::ResetCommunication => 130,
    }
}

// A command to one node, or to all.
fn frame_of(command: Command, only: Option<u8>) -> Frame
    ensures { message_of result ≡ frame_of command only }
{
    Frame {
        id: 0,
        body: [number_of(command), only.unwrap_or(0), 0, 0, 0, 0, 0, 0],
        len: 2,
    }
}

// Sends a command over an open adapter, and closes it.
fn send_and_close<P: Port>(command: Command, only: Option<u8>, port: &mut P) -> bool
    ensures sent { result ≡ true → SentAndClosed P.reads P.writes P.asks command only port.old port.new }
    ensures failed { result ≡ false → SendFails P.reads P.writes P.asks P.fails command only port.old port.new }
{
    send(port, &frame_of(command, only)) && close(port)
}

/// Reaches the bus at a rate, gives a command to one node or to all, and closes the adapter. Nothing else is sent.
pub fn give<P: Port>(rate: Rate, command: Command, only: Option<u8>, port: &mut P) -> Commanded
    ensures commanded { IsCommanded P.reads P.writes P.asks rate command only port.old port.new result }
    ensures failed { if_failed result (CommandFails P.reads P.writes P.asks P.fails rate command only port.old port.new) }
{
    match reach(rate, port) {
        Reached::Open => {
            if send_and_close(command, only, port) {
                Commanded::Given
            } else {
                Commanded::Failed
            }
        }
        Reached::Left { reason } => Commanded::Left { reason },
        Reached::Failed => Commanded::Failed,
    }
}
