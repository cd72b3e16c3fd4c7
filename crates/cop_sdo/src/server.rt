//! A server over an object dictionary.

ghost use Rattle.std.specs.Prelude.{◌≡◌, ◌≤◌, All, IfOk, OnErr, false, map, option_map};
ghost use Rattle.cop_sdo.specs.Message.{message_of};
ghost use Rattle.cop_sdo.specs.Request.{requests};
ghost use Rattle.cop_sdo.specs.Service.{after, downloads};
ghost use Rattle.cop_sdo.specs.Server.{idle};
ghost use Rattle.cop_sdo.specs.Serve.{MayServe, Serves, granted, ran_out};

use crate::session::Session;
use cop_dict::Dictionary;
use cop_frame::Frame;
use cop_frame::identifiers::{SDO_REQUEST, SDO_RESPONSE};
use std::alloc::{AllocError, Global};
use std::marker::Model;

/// The SDO server of a node.
#[derive(Drop)]
pub struct Server {
    node: u8,
    session: Session,
}

impl Model for Server {
    ghost use Rattle.std.specs.Prelude.{◌≤◌};
    ghost use Rattle.cop_sdo.specs.Serve.{Serving};

    ghost Value = { Serving };

    ghost use Rattle.cop_sdo.specs.Session.{state_of};

    ghost view = { λ s. record { node = s.node; state = state_of s.session } };

    ghost invariant = { λ s. s.node ≤ 127 };
}

impl Server {
    /// An idle server of a node, 1 to 127.
    pub fn new(alloc: Global, node: u8) -> Server
        requires node { (1 ≤ node) × (node ≤ 127) }
        ensures { result ≡ record { node = node; state = idle } }
    {
        Server {
            node,
            session: Session::new(alloc),
        }
    }

    /// Drops what is under way: the server is idle then.
    pub fn reset(&mut self)
        ensures { self.new ≡ record { node = self.old.node; state = idle } }
    {
        self.session.end();
    }

    /// Hears a frame, and answers it.
    pub fn step(&mut self, dict: &mut Dictionary, frame: &Frame) -> Option<Frame>
        ensures { MayServe self.old dict.old (message_of frame.now) (record { server = self.new; dict = dict.new; answer = option_map message_of result }) }
    {
        if frame.id != SDO_REQUEST + u16::from(self.node) || frame.len != 8 {
            return None;
        }
        let body = self.session.answer(dict, &frame.body)?;
        Some(Frame {
            id: SDO_RESPONSE + u16::from(self.node),
            body,
            len: 8,
        })
    }
}

/// Hears frames one after the other, and gives the answers.
pub fn serve(
    alloc: Global,
    server: &mut Server,
    dict: &mut Dictionary,
    frames: &[Frame],
) -> Result<Vec<Frame>, AllocError>
    ensures steps { IfOk result (λ answers. Serves server.old dict.old (map message_of frames.now) (map message_of answers.items) server.new dict.new) }

    // From an idle server on, unless memory is refused, the dictionary is the one before with the
    // writes of the completed downloads that it accepts, in order, and nothing else.
    ensures writes { server.old.state ≡ idle → IfOk result (λ answers. All (λ answer. ran_out answer ≡ false) (map message_of answers.items)
        → dict.new ≡ after dict.old (downloads (requests server.old.node (map message_of frames.now)))) }

    // Where memory is refused, the same holds, with the client's abort in the place of each request
    // that was answered so.
    ensures granted { server.old.state ≡ idle → IfOk result (λ answers.
        dict.new ≡ after dict.old (downloads (granted (requests server.old.node (map message_of frames.now)) (map message_of answers.items)))) }

    ensures err { OnErr result ((server.new ≡ server.old) × (dict.new ≡ dict.old)) }
{
    let mut answers = Vec::with_capacity(alloc, frames.len())?;
    for frame in frames {
        match server.step(dict, frame) {
            Some(answer) => answers.push(answer).unwrap(),
            None => {}
        }
    }
    Ok(answers)
}
