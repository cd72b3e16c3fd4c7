//! The frames of fixed identifiers that a node or the manager sends.

ghost use Rattle.std.specs.Prelude.{◌≡◌, ℕ, ◌+◌, ◌<◌, ◌∷◌, [], ◌%◌, ◌/◌, Some};
ghost use Rattle.cop_frame.specs.Frame.{data_of};
ghost use Rattle.cop_nmt.specs.States.{state_byte, number_of, command_numbered, command_of};

use crate::states::{Command, NodeState};
use cop_frame::{Frame, identifiers};

/// The heartbeat of a node in a state.
pub fn heartbeat(node: u8, state: NodeState) -> Frame
    requires { node < 128 }
    ensures id { result.id ≡ 0x700 + node }
    ensures body { data_of result ≡ state_byte state ∷ [] }
{
    let byte = match state {
        NodeState::Stopped => 4,
        NodeState::Operational => 5,
        NodeState::PreOperational => 127,
    };
    Frame::new(identifiers::HEARTBEAT + u16::from(node), &[byte])
}

/// What a node sends when it has booted.
pub fn boot_up(node: u8) -> Frame
    requires { node < 128 }
    ensures id { result.id ≡ 0x700 + node }
    ensures body { data_of result ≡ 0 ∷ [] }
    ensures whole { (result.len ≡ 1) × (result.body ≡ 0 ∷ 0 ∷ 0 ∷ 0 ∷ 0 ∷ 0 ∷ 0 ∷ 0 ∷ []) }
{
    Frame {
        id: identifiers::HEARTBEAT + u16::from(node),
        body: [0; 8],
        len: 1,
    }
}

/// The NMT command to a node, 1 to 127, or with 0 to all. Each node that it is for reads it as that command.
pub fn command(node: u8, command: Command) -> Frame
    requires { node < 128 }
    ensures whole { (result.id ≡ 0) × (result.len ≡ 2) × (result.body ≡ number_of command ∷ node ∷ 0 ∷ 0 ∷ 0 ∷ 0 ∷ 0 ∷ 0 ∷ []) }
    ensures read { command_of node result ≡ Some command }
    ensures all { node ≡ 0 → (other : ℕ) → command_of other result ≡ Some command }
{
    Frame {
        id: identifiers::NMT,
        body: [number_of(command), node, 0, 0, 0, 0, 0, 0],
        len: 2,
    }
}

// The number of a command.
fn number_of(command: Command) -> u8
    ensures value { result ≡ number_of command }
    ensures read { command_numbered result ≡ Some command }
{
    match command {
        Command::Start => 1,
        Command::Stop => 2,
        Command::EnterPreOperational => 128,
        Command::ResetNode => 129,
        Command::ResetCommunication => 130,
    }
}

/// The frame that keeps synchronous PDOs in step.
pub fn sync() -> Frame
    ensures id { result.id ≡ 0x80 }
    ensures body { data_of result ≡ [] }
{
    Frame::new(identifiers::SYNC, &[])
}

/// The emergency of a node: its error code, the least significant byte first, its error register, and five bytes of
/// the maker's own.
pub fn emcy(node: u8, code: u16, register: u8, details: [u8; 5]) -> Frame
    requires { node < 128 }
    ensures id { result.id ≡ 0x80 + node }
    ensures body { data_of result ≡ code % 256 ∷ code / 256 ∷ register ∷ details }
{
    let [low, high] = code.to_le_bytes();
    let [a, b, c, d, e] = details;
    Frame::new(
        identifiers::EMCY + u16::from(node),
        &[low, high, register, a, b, c, d, e],
    )
}
