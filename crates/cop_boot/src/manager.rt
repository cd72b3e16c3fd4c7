//! The manager of a boot.

ghost use Rattle.std.specs.Prelude.{◌≡◌, ◌+◌, ◌<◌, ◌≤◌, ◌^◌, ◌↔◌, ◌&&◌, nat_le, IsTrue, true, false, IfOk, max, ◌∷◌, [], All, map, min, option_map, option_to_list, length, is_some};
ghost use Rattle.cop_sdo.specs.Message.{message_of};
ghost use Rattle.std.specs.List.{position};
ghost use Rattle.cop_boot.specs.Manager.{begun_at, node_of, comes_from, all_ready, heard, heard_by, reached, first_silent, sent_by, waiting_from, is_ready, end_at};
ghost use Rattle.cop_boot.specs.Booted.{Apart};
ghost use Rattle.cop_boot.specs.Member.{seen, unheard, unheard_within, is_managed, CanManage, IsMember, AllLast};
ghost use Rattle.cop_boot.specs.Settings.{is_short_value};

use crate::end::{End, Phase};
use crate::member::{ANSWER_LIMIT, Member};
use cop_frame::Frame;
use cop_frame::identifiers::{HEARTBEAT, SDO_RESPONSE};
use cop_nmt::{Command, command};
use cop_setup::{Setting, Width};
use std::alloc::{AllocError, Global};
use std::collections::BTreeMap;
use std::marker::Model;

// A boot-up is awaited for so many ticks, 5 s, where no other limit is given.
const BOOT_LIMIT: u64 = 20_000_000;

/// A manager of nodes: it gives each its settings, all at once, and starts them when all are ready.
#[derive(Drop)]
pub struct Manager {
    begun: bool,
    clock: u64,
    // No node is silent before this moment, so that earlier ones look at none of them.
    due: u64,
    started: bool,
    members: Vec<Member>,
}

impl Model for Manager {
    ghost use Rattle.std.specs.Prelude.{map, All};
    ghost use Rattle.cop_boot.specs.Manager.{Managing};

    ghost Value = { Managing };

    ghost use Rattle.cop_boot.specs.Booted.{Apart};
    ghost use Rattle.cop_boot.specs.Member.{seen, IsMember, IsDueFrom};

    ghost view = { λ m. record { begun = m.begun; clock = m.clock; started = m.started; nodes = map seen m.members.items } };

    ghost invariant = { λ m. All IsMember m.members.items × Apart (map seen m.members.items) × IsDueFrom m.due m.clock (map seen m.members.items) };
}

// Whether a node is ready.
fn is_ready(member: &Member) -> bool
    ensures { result ≡ is_ready (seen member.now) }
{
    matches!(member.phase, Phase::Over { end: End::Ready })
}

fn begin_all(members: &mut Vec<Member>, now: u64)
    requires { All IsMember members.old.items }
    ensures nodes { map seen members.new.items ≡ map (waiting_from now) (map seen members.old.items) }
    ensures members { All IsMember members.new.items }
{
    for member in members.iter_mut() {
        member.begin(now);
    }
}

// The first members from which nothing came in time are silent, up to one that gives a frame.
fn wait_first(members: &mut Vec<Member>, now: u64) -> Option<Frame>
    requires { All IsMember members.old.items }
    ensures nodes { (map seen members.new.items, option_map message_of result) ≡ first_silent now (map seen members.old.items) }
    ensures members { All IsMember members.new.items }
{
    let mut sent = None;
    for member in members.iter_mut() {
        match sent {
            None => sent = member.wait(now),
            Some(_) => {}
        }
    }
    sent
}

// The earlier of two moments.
fn earlier(a: u64, b: u64) -> u64
    ensures { result ≡ min a b }
{
    if b < a { b } else { a }
}

// A moment before which no member is silent, as long as nothing comes. It is at most so far ahead as the limit of what can be sent
// until then.
fn due_after(members: &[Member], now: u64) -> u64
    ensures soon { result ≤ now + 4000000 }
    ensures last { AllLast result (map seen members.now) }
{
    let mut due = now.saturating_add(ANSWER_LIMIT);
    for member in members {
        due = earlier(due, member.lasts_to());
    }
    due
}

// Whether a frame has the identifier of a node's boot-up, or of its answers.
fn comes_from(node: u8, frame: &Frame) -> bool
    ensures { result ≡ comes_from node frame.now.id }
{
    frame.id == HEARTBEAT + u16::from(node) || frame.id == SDO_RESPONSE + u16::from(node)
}

// The place of the member from whose node a frame comes.
fn place_of(members: &[Member], frame: &Frame) -> Option<usize>
    ensures { result ≡ position (λ member. comes_from member.node frame.now.id) members.now }
{
    members
        .iter()
        .position(|member| comes_from(member.node, frame))
}

// The member from whose node a frame comes hears it.
fn hear_in(members: &mut Vec<Member>, frame: &Frame, now: u64) -> Option<Frame>
    requires members { All IsMember members.old.items }
    requires apart { Apart (map seen members.old.items) }
    ensures nodes { map seen members.new.items ≡ map (λ node. (heard_by (message_of frame.now) now node).node) (map seen members.old.items) }
    ensures frames { option_to_list (option_map message_of result) ≡ sent_by (heard_by (message_of frame.now) now) (map seen members.old.items) }
    ensures members { All IsMember members.new.items }
{
    match place_of(members, frame) {
        Some(place) => members[place].hear(frame, now),
        None => None,
    }
}

// Whether all nodes are ready, and there is one.
fn all_ready(members: &[Member]) -> bool
    ensures { result ≡ all_ready (map seen members.now) }
{
    !members.is_empty() && members.iter().all(is_ready)
}

// Whether a value has one, two or four bytes that hold it.
fn is_short_value(setting: &Setting) -> bool
    ensures { result ≡ is_short_value setting.now }
{
    match setting.width {
        Width::One => setting.value < 0x100,
        Width::Two => setting.value < 0x1_0000,
        Width::Four => true,
    }
}

// Whether a number is a node's.
fn is_node(node: u8) -> bool
    ensures { result ≡ (nat_le 1 node && nat_le node 127) }
{
    matches!(node, 1..=127)
}

// Whether a node has a number of 1 to 127, and short values.
fn is_managed(node: u8, settings: &[Setting]) -> bool
    ensures { result ≡ is_managed node settings.now }
{
    is_node(node) && settings.iter().all(is_short_value)
}

/// Whether a plan can be handed to [`Manager::new`]: the nodes are 1 to 127, and the values of their settings have one,
/// two or four bytes that hold them. It takes no memory.
pub fn can_manage(plan: &BTreeMap<u8, Vec<Setting>>) -> bool
    ensures { IsTrue result ↔ CanManage plan.now.entries }
{
    for (node, settings) in plan {
        if !is_managed(*node, settings) {
            return false;
        }
    }
    true
}

impl Manager {
    /// A manager of nodes, 1 to 127, each with the settings that it is to have, whose values are of one, two or
    /// four bytes that hold them. A boot-up is awaited for 20,000,000 ticks (5 s). It makes all room here: no later call
    /// takes memory.
    pub fn new(alloc: Global, plan: BTreeMap<u8, Vec<Setting>>) -> Result<Manager, AllocError>
        requires { CanManage plan.entries }
        ensures { IfOk result (λ m. m ≡ record { begun = false; clock = 0; started = false; nodes = map unheard plan.entries }) }
    {
        Manager::with_limit(alloc, plan, BOOT_LIMIT)
    }

    /// The same, where a boot-up is awaited for so many ticks of 250 ns.
    pub fn with_limit(
        alloc: Global,
        plan: BTreeMap<u8, Vec<Setting>>,
        limit: u64,
    ) -> Result<Manager, AllocError>
        requires { CanManage plan.entries }
        ensures { IfOk result (λ m. m ≡ record { begun = false; clock = 0; started = false; nodes = map (unheard_within limit) plan.entries }) }
    {
        let mut members = Vec::with_capacity(alloc, plan.len())?;
        for (node, settings) in plan {
            members.push(Member::new(alloc, node, settings, limit))?;
        }
        Ok(Manager {
            begun: false,
            clock: 0,
            due: 0,
            started: false,
            members,
        })
    }

    /// Whether the nodes were started.
    pub fn started(&self) -> bool
        ensures { result ≡ self.now.started }
    {
        self.started
    }

    /// The greatest moment that was handed in.
    pub fn clock(&self) -> u64
        ensures { result ≡ self.now.clock }
    {
        self.clock
    }

    /// Whether a node is one of its.
    pub fn has(&self, node: u8) -> bool
        ensures { result ≡ is_some (node_of self.now.nodes node) }
    {
        for member in &self.members {
            if member.node == node {
                return true;
            }
        }
        false
    }

    /// How many nodes it has.
    pub fn count(&self) -> usize
        ensures value { result ≡ length self.now.nodes }
        ensures few { result < 2 ^ 63 }
    {
        self.members.len()
    }

    // A moment below an earlier one counts as that one.
    fn latest(&self, now: u64) -> u64
        ensures { result ≡ max self.now.clock now }
    {
        if now > self.clock { now } else { self.clock }
    }

    /// How the boot of a node ended, if it has.
    pub fn end(&self, node: u8) -> Option<End>
        ensures { result ≡ end_at self.now.nodes node }
    {
        for member in &self.members {
            if member.node == node {
                return match member.phase {
                    Phase::Over { end } => Some(end),
                    Phase::Waiting { .. } | Phase::Sending { .. } => None,
                };
            }
        }
        None
    }

    /// Begins: resets the communication of all nodes, and awaits their boot-ups.
    pub fn begin(&mut self, now: u64) -> Frame
        ensures { record { manager = self.new; frames = message_of result ∷ [] } ≡ begun_at self.old now }
    {
        begin_all(&mut self.members, now);
        self.due = due_after(&self.members, now);
        self.begun = true;
        self.clock = now;
        self.started = false;
        command(0, Command::ResetCommunication)
    }

    /// A moment is reached; called until None.
    pub fn on_moment(&mut self, now: u64) -> Option<Frame>
        ensures { (self.new, option_map message_of result) ≡ reached self.old now }
    {
        if !self.begun {
            return None;
        }
        let clock = self.latest(now);
        self.clock = clock;
        if clock < self.due {
            return None;
        }
        let sent = wait_first(&mut self.members, clock);
        self.due = due_after(&self.members, clock);
        sent
    }

    /// Hears a frame.
    pub fn on_frame(&mut self, frame: &Frame, now: u64) -> Option<Frame>
        ensures { record { manager = self.new; frames = option_to_list (option_map message_of result) } ≡ heard self.old (message_of frame.now) now }
    {
        if !self.begun {
            return None;
        }
        let clock = self.latest(now);
        self.clock = clock;
        let sent = hear_in(&mut self.members, frame, clock);
        if !self.started && all_ready(&self.members) {
            self.started = true;
            return Some(command(0, Command::Start));
        }
        sent
    }
}
