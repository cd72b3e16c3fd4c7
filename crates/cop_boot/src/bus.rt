//! The frames of a boot, and how far they are delivered.

ghost use Rattle.std.specs.Prelude.{◌≡◌, ◌==◌, ◌+◌, ◌<◌, ◌≤◌, ℕ, false, [], ◌∷◌, IfOk, IfSome, IsSome, List, None, Some, map, filter, length, drop, get_or, replicate, vec_len, vec_capacity};
ghost use Rattle.std.specs.List.{position};
ghost use Rattle.cop_sdo.specs.Message.{message_of};
ghost use Rattle.cop_boot.specs.Booted.{device_of};
ghost use Rattle.cop_boot.specs.Schedule.{is_for, DeliveredBy, Takes};
ghost use Rattle.cop_boot.specs.Device.{Attached};
ghost use Rattle.cop_boot.specs.Manager.{node_of, open_nodes};
ghost use Rattle.cop_boot.specs.declared.turn.Turn.TheVariants.{FromNode};
ghost use Rattle.std.specs.Option.{MatchOption};
ghost use Rattle.cop_boot.specs.Bus.{IsBus, to_of, from_of, line_at, world_at};

use crate::device::Device;
use crate::manager::Manager;
use cop_frame::Frame;
use cop_frame::identifiers::{NMT, SDO_REQUEST};
use std::alloc::{AllocError, Global};

/// A frame that a node's device has sent.
#[derive(Clone, Copy)]
pub struct Answer {
    pub node: u8,
    pub frame: Frame,
}

/// All frames of a boot in the order in which they were sent, and how many of them are behind each node's
/// channels, to it and from it.
#[derive(Drop)]
pub struct Bus {
    pub sent: Vec<Frame>,
    pub answers: Vec<Answer>,
    pub delivered: [usize; 256],
    pub heard: [usize; 256],
}

// Whether the manager's frame goes to a node: NMT frames go to all.
fn is_for(node: u8, frame: &Frame) -> bool
    ensures { result ≡ is_for node (message_of frame.now) }
{
    frame.id == NMT || frame.id == SDO_REQUEST + u16::from(node)
}

// The place of the first frame from a place on that goes to a node.
fn next_to(sent: &[Frame], from: usize, node: u8) -> Option<usize>
    requires { from ≤ length sent.now }
    ensures some { IfSome result (λ place. (place < length sent.now) × ((d : Frame)
        → filter (λ frame. is_for node (message_of frame)) (drop from sent.now) ≡ get_or sent.now place d ∷ filter (λ frame. is_for node (message_of frame)) (drop (place + 1) sent.now))) }
    ensures reached { IfSome result (λ place. filter (λ frame. is_for node (message_of frame)) (drop place sent.now) ≡ filter (λ frame. is_for node (message_of frame)) (drop from sent.now)) }
    ensures none { result ≡ None → filter (λ frame. is_for node (message_of frame)) (drop from sent.now) ≡ [] }
{
    for place in from..sent.len() {
        if is_for(node, &sent[place]) {
            return Some(place);
        }
    }
    None
}

// The place of the first frame from a place on that comes from a node.
fn next_from(answers: &[Answer], from: usize, node: u8) -> Option<usize>
    requires { from ≤ length answers.now }
    ensures some { IfSome result (λ place. (place < length answers.now) × ((d : Answer)
        → filter (λ answer. answer.node == node) (drop from answers.now) ≡ get_or answers.now place d ∷ filter (λ answer. answer.node == node) (drop (place + 1) answers.now))) }
    ensures reached { IfSome result (λ place. filter (λ answer. answer.node == node) (drop place answers.now) ≡ filter (λ answer. answer.node == node) (drop from answers.now)) }
    ensures none { result ≡ None → filter (λ answer. answer.node == node) (drop from answers.now) ≡ [] }
{
    for place in from..answers.len() {
        if answers[place].node == node {
            return Some(place);
        }
    }
    None
}

// The place of the device of a node.
fn device_place(devices: &[Device], node: u8) -> Option<usize>
    ensures { result ≡ position (λ device. device.number == node) devices.now }
{
    devices.iter().position(|device| device.node() == node)
}

impl Bus {
    /// An empty bus with room for so many frames of the manager, and of the devices.
    pub fn new(alloc: Global, sent: usize, answers: usize) -> Result<Bus, AllocError>
        ensures { IfOk result (λ bus. IsBus bus × (bus.sent.items ≡ []) × (bus.answers.items ≡ []) × (sent ≤ vec_capacity bus.sent) × (answers ≤ vec_capacity bus.answers)
            × (bus.delivered ≡ replicate 256 0) × (bus.heard ≡ replicate 256 0)) }
    {
        Ok(Bus {
            sent: Vec::with_capacity(alloc, sent)?,
            answers: Vec::with_capacity(alloc, answers)?,
            delivered: [0; 256],
            heard: [0; 256],
        })
    }
}

// Passes over the frames in front that do not go to a node, so that no turn looks at them again.
fn pass_to(bus: &mut Bus, node: u8)
    requires { IsBus bus.old }
    ensures bus { IsBus bus.new }
    ensures to { (n : ℕ) → to_of bus.new n ≡ to_of bus.old n }
    ensures kept { (bus.new.sent ≡ bus.old.sent) × (bus.new.answers ≡ bus.old.answers) × (bus.new.heard ≡ bus.old.heard) }
{
    let from = bus.delivered[usize::from(node)];
    let front = match next_to(&bus.sent, from, node) {
        Some(front) => front,
        None => bus.sent.len(),
    };
    bus.delivered[usize::from(node)] = front;
}

// Passes over the frames in front that do not come from a node.
fn pass_from(bus: &mut Bus, node: u8)
    requires { IsBus bus.old }
    ensures bus { IsBus bus.new }
    ensures from { (n : ℕ) → from_of bus.new n ≡ from_of bus.old n }
    ensures kept { (bus.new.sent ≡ bus.old.sent) × (bus.new.answers ≡ bus.old.answers) × (bus.new.delivered ≡ bus.old.delivered) }
{
    let from = bus.heard[usize::from(node)];
    let front = match next_from(&bus.answers, from, node) {
        Some(front) => front,
        None => bus.answers.len(),
    };
    bus.heard[usize::from(node)] = front;
}

// The front frame to a node is delivered to its device, where there is one, and its answer is sent.
fn deliver_front(bus: &mut Bus, devices: &mut [Device], node: u8)
    requires bus { IsBus bus.old }
    requires room { vec_len bus.old.answers < vec_capacity bus.old.answers }
    ensures bus { IsBus bus.new }
    ensures line { DeliveredBy (line_at bus.old devices.old node) (device_of devices.old node) (to_of bus.old node) (line_at bus.new devices.new node) }
    ensures others { (other : ℕ) → (other == node) ≡ false → line_at bus.new devices.new other ≡ line_at bus.old devices.old other }
    ensures room { (vec_len bus.new.sent ≡ vec_len bus.old.sent) × (vec_capacity bus.old.sent ≤ vec_capacity bus.new.sent)
        × (vec_len bus.new.answers ≤ vec_len bus.old.answers + 1) × (vec_capacity bus.old.answers ≤ vec_capacity bus.new.answers) }
{
    let Some(front) = next_to(&bus.sent, bus.delivered[usize::from(node)], node) else {
        return;
    };
    let Some(place) = device_place(devices, node) else {
        return;
    };
    bus.delivered[usize::from(node)] = front + 1;
    let frame = bus.sent[front];
    match devices[place].on_frame(&frame) {
        Some(answer) => bus
            .answers
            .push(Answer {
                node,
                frame: answer,
            })
            .unwrap(),
        None => {}
    }
}

/// The front frame to a node is delivered to its device, where there is one, and its answer is sent.
pub fn deliver(bus: &mut Bus, devices: &mut [Device], node: u8)
    requires bus { IsBus bus.old }
    requires room { vec_len bus.old.answers < vec_capacity bus.old.answers }
    ensures bus { IsBus bus.new }
    ensures line { DeliveredBy (line_at bus.old devices.old node) (device_of devices.old node) (to_of bus.old node) (line_at bus.new devices.new node) }
    ensures others { (other : ℕ) → (other == node) ≡ false → line_at bus.new devices.new other ≡ line_at bus.old devices.old other }
    ensures room { (vec_len bus.new.sent ≡ vec_len bus.old.sent) × (vec_capacity bus.old.sent ≤ vec_capacity bus.new.sent)
        × (vec_len bus.new.answers ≤ vec_len bus.old.answers + 1) × (vec_capacity bus.old.answers ≤ vec_capacity bus.new.answers) }
{
    pass_to(bus, node);
    deliver_front(bus, devices, node);
}

// The front frame from a node is taken.
fn take_from(bus: &mut Bus, node: u8) -> Option<Frame>
    requires { IsBus bus.old }
    ensures bus { IsBus bus.new }
    ensures front { MatchOption result ((bus.new ≡ bus.old) × (from_of bus.old node ≡ [])) (λ frame. from_of bus.old node ≡ message_of frame ∷ from_of bus.new node) }
    ensures others { (other : ℕ) → (other == node) ≡ false → from_of bus.new other ≡ from_of bus.old other }
    ensures kept { (bus.new.sent ≡ bus.old.sent) × (bus.new.answers ≡ bus.old.answers) × (bus.new.delivered ≡ bus.old.delivered) }
{
    let Some(front) = next_from(&bus.answers, bus.heard[usize::from(node)], node) else {
        return None;
    };
    bus.heard[usize::from(node)] = front + 1;
    Some(bus.answers[front].frame)
}

// The front frame from a node is heard by the manager.
fn hear_front(bus: &mut Bus, manager: &mut Manager, node: u8)
    requires bus { IsBus bus.old }
    requires room { vec_len bus.old.sent < vec_capacity bus.old.sent }
    requires has { IsSome (node_of manager.old.nodes node) }
    ensures bus { IsBus bus.new }
    ensures takes { (devices : List Attached) → Takes (world_at manager.old bus.old devices) (FromNode node) (world_at manager.new bus.new devices) }
    ensures room { (vec_len bus.new.sent + open_nodes manager.new.nodes ≤ vec_len bus.old.sent + 1 + open_nodes manager.old.nodes) × (vec_capacity bus.old.sent ≤ vec_capacity bus.new.sent)
        × (bus.new.answers ≡ bus.old.answers) }
    ensures names { map (λ n. n.number) manager.new.nodes ≡ map (λ n. n.number) manager.old.nodes }
{
    let Some(frame) = take_from(bus, node) else {
        return;
    };
    let now = manager.clock();
    match manager.on_frame(&frame, now) {
        Some(sent) => bus.sent.push(sent).unwrap(),
        None => {}
    }
}

/// The front frame from a node is heard by the manager.
pub fn hear(bus: &mut Bus, manager: &mut Manager, node: u8)
    requires bus { IsBus bus.old }
    requires room { vec_len bus.old.sent < vec_capacity bus.old.sent }
    requires has { IsSome (node_of manager.old.nodes node) }
    ensures bus { IsBus bus.new }
    ensures takes { (devices : List Attached) → Takes (world_at manager.old bus.old devices) (FromNode node) (world_at manager.new bus.new devices) }
    ensures room { (vec_len bus.new.sent + open_nodes manager.new.nodes ≤ vec_len bus.old.sent + 1 + open_nodes manager.old.nodes) × (vec_capacity bus.old.sent ≤ vec_capacity bus.new.sent)
        × (bus.new.answers ≡ bus.old.answers) }
    ensures names { map (λ n. n.number) manager.new.nodes ≡ map (λ n. n.number) manager.old.nodes }
{
    pass_from(bus, node);
    hear_front(bus, manager, node);
}
