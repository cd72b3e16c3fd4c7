//! A device of the network: its state, its dictionary and its SDO server.

ghost use Rattle.std.specs.Prelude.{◌≡◌, ◌≤◌, option_map};
ghost use Rattle.cop_nmt.specs.declared.states.NodeState.TheVariants.{PreOperational};
ghost use Rattle.cop_sdo.specs.Message.{message_of};
ghost use Rattle.cop_sdo.specs.Server.{idle};
ghost use Rattle.cop_boot.specs.Device.{MayRespond};

use cop_dict::Dictionary;
use cop_frame::Frame;
use cop_nmt::{Effect, NodeState, Service, boot_up};
use cop_sdo::Server;
use std::alloc::Global;
use std::marker::Model;

/// A device of a node.
#[derive(Drop)]
pub struct Device {
    node: u8,
    state: NodeState,
    dictionary: Dictionary,
    server: Server,
}

impl Model for Device {
    ghost use Rattle.std.specs.Prelude.{◌≡◌, ◌≤◌};
    ghost use Rattle.cop_boot.specs.Device.{Attached};

    ghost Value = { Attached };

    ghost view = { λ d. record { number = d.node; state = d.state; dict = d.dictionary; server = d.server } };

    ghost invariant = { λ d. (1 ≤ d.node) × (d.node ≤ 127) × (d.server.node ≡ d.node) };
}

impl Device {
    /// A device of a node, 1 to 127, with an idle server.
    pub fn new(alloc: Global, node: u8, dictionary: Dictionary) -> Device
        requires { (1 ≤ node) × (node ≤ 127) }
        ensures { result ≡ record { number = node; state = PreOperational; dict = dictionary; server = record { node = node; state = idle } } }
    {
        Device {
            node,
            state: NodeState::PreOperational,
            dictionary,
            server: Server::new(alloc, node),
        }
    }

    pub fn node(&self) -> u8
        ensures { result ≡ self.now.number }
    {
        self.node
    }

    pub fn state(&self) -> NodeState
        ensures { result ≡ self.now.state }
    {
        self.state
    }

    pub fn dictionary(&self) -> &Dictionary
        ensures { result.now ≡ self.now.dict }
    {
        &self.dictionary
    }

    /// Obeys an NMT command, and answers SDO where the state has it. A reset is answered by a boot-up.
    pub fn on_frame(&mut self, frame: &Frame) -> Option<Frame>
        ensures responds { MayRespond self.old (message_of frame.now) (record { device = self.new; answer = option_map message_of result }) }
        ensures number { self.new.number ≡ self.old.number }
    {
        match self.state.on_command(self.node, frame) {
            Effect::ResetNode => {
                self.dictionary.reset_all();
                self.server.reset();
                Some(boot_up(self.node))
            }
            Effect::ResetCommunication => {
                self.dictionary.reset_communication();
                self.server.reset();
                Some(boot_up(self.node))
            }
            Effect::Changed => None,
            Effect::Nothing => {
                if self.state.allows(Service::Sdo) {
                    self.server.step(&mut self.dictionary, frame)
                } else {
                    None
                }
            }
        }
    }
}
