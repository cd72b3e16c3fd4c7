//! The states of a node.

ghost use Rattle.std.specs.Prelude.{◌≡◌};
ghost use Rattle.cop_nmt.specs.States.{command_of, commanded, effect_of, stepped, state_over, last_command, is_allowed};
ghost use Rattle.std.specs.Option.{option_map_or};

use cop_frame::Frame;

/// The state of a node that has booted (CiA 301, NMT).
#[derive(Clone, Copy, PartialEq, Eq, Debug)]
pub enum NodeState {
    PreOperational,
    Operational,
    Stopped,
}

/// What a frame means for a node.
#[derive(Clone, Copy, PartialEq, Eq, Debug)]
pub enum Effect {
    /// No command for the node, or one that leaves its state as it was.
    Nothing,
    /// The node has another state.
    Changed,
    /// The node begins anew with all its objects as built, and a boot-up is due.
    ResetNode,
    /// The node begins anew with its communication objects as built, and a boot-up is due.
    ResetCommunication,
}

/// What a node may send or answer.
#[derive(Clone, Copy, PartialEq, Eq, Debug)]
pub enum Service {
    Pdo,
    Sdo,
    Sync,
    Emcy,
    Nmt,
    Heartbeat,
}

/// What the manager asks of a node, or of all.
#[derive(Clone, Copy, PartialEq, Eq, Debug)]
pub enum Command {
    Start,
    Stop,
    EnterPreOperational,
    ResetNode,
    ResetCommunication,
}

// The command for a node in a frame: identifier 0, the command, and the node or 0 for all.
fn command_in(frame: &Frame, node: u8) -> Option<Command>
    ensures { result ≡ command_of node frame.now }
{
    let Frame { id, body, len, .. } = *frame;
    if id != 0 || len != 2 || (body[1] != 0 && body[1] != node) {
        return None;
    }
    match body[0] {
        1 => Some(Command::Start),
        2 => Some(Command::Stop),
        128 => Some(Command::EnterPreOperational),
        129 => Some(Command::ResetNode),
        130 => Some(Command::ResetCommunication),
        _ => None,
    }
}

// The state that a command asks for.
fn commanded(command: Command) -> NodeState
    ensures { result ≡ commanded command }
{
    match command {
        Command::Start => NodeState::Operational,
        Command::Stop => NodeState::Stopped,
        Command::EnterPreOperational | Command::ResetNode | Command::ResetCommunication => {
            NodeState::PreOperational
        }
    }
}

// What a command does to a node that has this state.
fn effect_of(command: Command, state: NodeState) -> Effect
    ensures { result ≡ effect_of command state }
{
    match command {
        Command::ResetNode => Effect::ResetNode,
        Command::ResetCommunication => Effect::ResetCommunication,
        _ if commanded(command) == state => Effect::Nothing,
        _ => Effect::Changed,
    }
}

impl NodeState {
    /// Obeys the command for a node that a frame carries. Other frames do nothing.
    pub fn on_command(&mut self, node: u8, frame: &Frame) -> Effect
        ensures { (self.new, result) ≡ stepped node self.old frame.now }
    {
        let Some(command) = command_in(frame, node) else {
            return Effect::Nothing;
        };
        let effect = effect_of(command, *self);
        *self = commanded(command);
        effect
    }

    /// Whether a node in this state has the service.
    pub fn allows(self, service: Service) -> bool
        ensures { result ≡ is_allowed self service }
    {
        match service {
            Service::Pdo => self == NodeState::Operational,
            Service::Sdo | Service::Sync | Service::Emcy => self != NodeState::Stopped,
            Service::Nmt | Service::Heartbeat => true,
        }
    }
}

/// The state of a node after a list of frames: what the last command for it asks for, or the state before them.
pub fn state_after(node: u8, start: NodeState, frames: &[Frame]) -> NodeState
    ensures fold { result ≡ state_over node start frames.now }
    ensures last { result ≡ option_map_or commanded (last_command node frames.now) start }
{
    let mut state = start;
    for frame in frames {
        state.on_command(node, frame);
    }
    state
}
