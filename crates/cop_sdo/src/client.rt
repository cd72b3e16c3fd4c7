//! A client of one node.

ghost use Rattle.std.specs.Prelude.{◌≡◌, ◌≤◌, length, option_map};
ghost use Rattle.cop_sdo.specs.Message.{message_of};
ghost use Rattle.cop_sdo.specs.Client.{resting, request, is_idle};
ghost use Rattle.cop_sdo.specs.Calls.{Starts, StartsExactly, MayCall, downloading, uploading, expiring};

use crate::address::Address;
use crate::answers::abort_body;
use crate::exchange::{Exchange, ask_body, begin_body, give_body, task_at};
use crate::fault::ClientFault;
use crate::reply::reply_of;
use crate::task::{Progress, Reaction, Task};
use cop_dict::Abort;
use cop_frame::Frame;
use cop_frame::identifiers::{SDO_REQUEST, SDO_RESPONSE};
use std::alloc::Global;
use std::marker::Model;

/// A download has at most so many bytes.
const MAX_BYTES: usize = 65_535;

/// The SDO client of a node.
#[derive(Drop)]
pub struct Client {
    node: u8,
    exchange: Exchange,
}

impl Model for Client {
    ghost use Rattle.std.specs.Prelude.{◌≤◌};
    ghost use Rattle.cop_sdo.specs.Client.{Calling};

    ghost Value = { Calling };

    ghost use Rattle.cop_sdo.specs.Exchange.{asking_of};

    ghost view = { λ c. record { node = c.node; asking = asking_of c.exchange } };

    ghost invariant = { λ c. c.node ≤ 127 };
}

fn frame_of(node: u8, body: [u8; 8]) -> Frame
    requires { node ≤ 127 }
    ensures { message_of result ≡ request node body }
{
    Frame {
        id: SDO_REQUEST + u16::from(node),
        body,
        len: 8,
    }
}

fn is_idle(task: Task) -> bool
    ensures { result ≡ is_idle task }
{
    matches!(task, Task::Idle)
}

impl Client {
    ghost use Rattle.cop_sdo.specs.Outcome.{outcome_of};

    /// An idle client of a node, 1 to 127.
    pub fn new(alloc: Global, node: u8) -> Client
        requires node { (1 ≤ node) × (node ≤ 127) }
        ensures { result ≡ record { node = node; asking = resting } }
    {
        Client {
            node,
            exchange: Exchange::new(alloc),
        }
    }

    /// Begins a download. Only more than four bytes, or none, take memory.
    pub fn download(&mut self, index: u16, sub: u8, bytes: &[u8]) -> Result<Frame, ClientFault>
        ensures exact { Starts result self.old self.new (downloading self.old (record { index = index; sub = sub }) bytes.now) }
        ensures in_place { 1 ≤ length bytes.now → length bytes.now ≤ 4
            → StartsExactly result self.old self.new (downloading self.old (record { index = index; sub = sub }) bytes.now) }
    {
        let at = Address { index, sub };
        if !is_idle(self.exchange.task) {
            return Err(ClientFault::Busy);
        }
        if bytes.len() > MAX_BYTES {
            return Err(ClientFault::TooLong);
        }
        if !bytes.is_empty() && bytes.len() <= 4 {
            self.exchange.bytes.clear();
            self.exchange.task = Task::Giving { at };
            return Ok(frame_of(self.node, give_body(at, bytes)));
        }
        match Vec::from_slice(*self.exchange.bytes.allocator(), bytes) {
            Ok(all) => {
                self.exchange.bytes = all;
                self.exchange.task = Task::Beginning { at };
                Ok(frame_of(self.node, begin_body(at, bytes.len())))
            }
            Err(_) => Err(ClientFault::Memory),
        }
    }

    /// Begins an upload.
    pub fn upload(&mut self, index: u16, sub: u8) -> Result<Frame, ClientFault>
        ensures { StartsExactly result self.old self.new (uploading self.old (record { index = index; sub = sub })) }
    {
        let at = Address { index, sub };
        if !is_idle(self.exchange.task) {
            return Err(ClientFault::Busy);
        }
        self.exchange.bytes.clear();
        self.exchange.task = Task::Asking { at };
        Ok(frame_of(self.node, ask_body(at)))
    }

    /// Hears a frame.
    pub fn step(&mut self, frame: &Frame) -> Progress
        ensures { MayCall self.old (message_of frame.now) (record { client = self.new; progress = outcome_of result }) }
    {
        if is_idle(self.exchange.task)
            || frame.id != SDO_RESPONSE + u16::from(self.node)
            || frame.len != 8
        {
            return Progress::Ignored;
        }
        let at = task_at(self.exchange.task);
        match self.exchange.react(reply_of(&frame.body)) {
            Ok(Reaction::Send(body)) => Progress::Send(frame_of(self.node, body)),
            Ok(Reaction::Done) => Progress::Done,
            Ok(Reaction::Aborted(code)) => Progress::Aborted(code),
            Err(abort) => {
                self.exchange.end();
                Progress::Ended(
                    frame_of(self.node, abort_body(at, abort.code())),
                    abort.code(),
                )
            }
        }
    }

    /// The bytes of the last upload, until another transfer begins.
    pub fn taken(&self) -> &[u8]
        ensures { result.now ≡ self.now.asking.bytes }
    {
        &self.exchange.bytes
    }

    /// Gives up, where a transfer runs.
    pub fn expire(&mut self) -> Option<Frame>
        ensures { (option_map message_of result, self.new) ≡ expiring self.old }
    {
        if is_idle(self.exchange.task) {
            return None;
        }
        let at = task_at(self.exchange.task);
        self.exchange.end();
        Some(frame_of(self.node, abort_body(at, Abort::TimeOut.code())))
    }
}
