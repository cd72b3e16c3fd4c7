//! A manager over a list of inputs.

ghost use Rattle.std.specs.Prelude.{◌≡◌, ◌+◌, ◌≤◌, ℕ, false, map, filter, length, IfOk, OnErr, vec_len, vec_capacity, option_and_then};
ghost use Rattle.cop_sdo.specs.Message.{message_of};
ghost use Rattle.cop_boot.specs.Manager.{behind, driven, met, meeting_of, node_of, end_at, open_nodes, passed, is_command, commands_of};
ghost use Rattle.cop_boot.specs.Ends.{end_of, events};

use crate::input::Input;
use crate::manager::Manager;
use cop_frame::Frame;
use std::alloc::{AllocError, Global};

// A moment passes, until nothing more is to be sent.
pub fn pass(manager: &mut Manager, now: u64, frames: &mut Vec<Frame>)
    requires { vec_len frames.old + length (passed manager.old now).frames ≤ vec_capacity frames.old }
    ensures sent { record { manager = manager.new; frames = map message_of frames.new.items } ≡ behind (map message_of frames.old.items) (passed manager.old now) }
    ensures room { vec_capacity frames.old ≤ vec_capacity frames.new }
{
    while let Some(frame) = manager.on_moment(now) {
        frames.push(frame).unwrap();
    }
}

// Hears a frame at the moment handed in last, or lets a moment pass.
fn meet(manager: &mut Manager, input: Input, frames: &mut Vec<Frame>)
    requires { vec_len frames.old + 1 + open_nodes manager.old.nodes ≤ vec_capacity frames.old }
    ensures sent { record { manager = manager.new; frames = map message_of frames.new.items } ≡ behind (map message_of frames.old.items) (met manager.old (meeting_of input)) }
    ensures fewer { vec_len frames.new + open_nodes manager.new.nodes ≤ vec_len frames.old + 1 + open_nodes manager.old.nodes }
    ensures room { vec_capacity frames.old ≤ vec_capacity frames.new }
{
    match input {
        Input::Heard(frame) => {
            let now = manager.clock();
            match manager.on_frame(&frame, now) {
                Some(answer) => frames.push(answer).unwrap(),
                None => {}
            }
        }
        Input::Moment(now) => pass(manager, now, frames),
    }
}

/// Begins at 0, and meets each input: a frame is heard at the moment handed in last, and at each moment
/// `on_moment` is called until None. Gives all frames that are sent, in order.
pub fn drive(
    alloc: Global,
    manager: &mut Manager,
    inputs: &[Input],
) -> Result<Vec<Frame>, AllocError>
    requires { manager.old.begun ≡ false }
    ensures sent { IfOk result (λ frames. record { manager = manager.new; frames = map message_of frames.items } ≡ driven manager.old (map meeting_of inputs.now)) }

    // How the boot of each node ends is what came from it says, and the moments.
    ensures ends { IfOk result (λ frames. (number : ℕ) → end_at manager.new.nodes number
        ≡ option_and_then (λ node. end_of node.number node.limit node.settings (events node.number 0 (map meeting_of inputs.now))) (node_of manager.old.nodes number)) }

    // The NMT commands among the frames are one reset of the communication of all nodes, and one start where they were started.
    ensures commands { IfOk result (λ frames. filter is_command (map message_of frames.items) ≡ commands_of manager.new.started) }

    ensures err { OnErr result (manager.new ≡ manager.old) }
{
    let mut frames = Vec::with_capacity(alloc, 1 + inputs.len() + manager.count())?;
    frames.push(manager.begin(0)).unwrap();
    for input in inputs {
        meet(manager, *input, &mut frames);
    }
    Ok(frames)
}
