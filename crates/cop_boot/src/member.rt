//! One node of a manager.

ghost use Rattle.std.specs.Prelude.{◌≡◌, ◌≤◌, ◌+◌, true, nat_le, All};
ghost use Rattle.cop_sdo.specs.Message.{message_of};
ghost use Rattle.cop_sdo.specs.Client.{is_idle};
ghost use Rattle.cop_boot.specs.Settings.{is_short_value};
ghost use Rattle.cop_boot.specs.Node.{goes_on, booted, answered, awaited, is_final, ended_at};
ghost use Rattle.cop_boot.specs.Manager.{is_boot_up, heard_by, waiting_from};
ghost use Rattle.cop_sdo.specs.Reply.{is_answer};
ghost use Rattle.cop_boot.specs.declared.«end».Phase.TheVariants.{Over};
ghost use Rattle.cop_boot.specs.Member.{seen, unheard_within, IsMember, LastsTo, Moves};

use crate::end::{End, Phase};
use cop_frame::Frame;
use cop_frame::identifiers::{HEARTBEAT, SDO_RESPONSE};
use cop_sdo::{Client, Progress};
use cop_setup::Setting;
use std::alloc::Global;

/// An answer is awaited for so many ticks, 1 s.
pub const ANSWER_LIMIT: u64 = 4_000_000;

/// A node, and how far its boot is.
#[derive(Drop)]
pub struct Member {
    pub node: u8,
    pub settings: Vec<Setting>,
    // A boot-up is awaited for so many ticks.
    pub limit: u64,
    pub boots: u8,
    pub phase: Phase,
    pub client: Client,
}

// A boot-up of a node.
fn is_boot_up(node: u8, frame: &Frame) -> bool
    ensures { result ≡ is_boot_up node (message_of frame.now) }
{
    frame.id == HEARTBEAT + u16::from(node) && frame.len == 1 && frame.body[0] == 0
}

// An end that stands, whatever comes.
fn is_final(phase: Phase) -> bool
    ensures { result ≡ is_final phase }
{
    match phase {
        Phase::Over { end: End::Ready } => false,
        Phase::Over { .. } => true,
        Phase::Waiting { .. } | Phase::Sending { .. } => false,
    }
}

// So many ticks are over since a moment.
fn is_past(since: u64, limit: u64, now: u64) -> bool
    ensures { result ≡ nat_le (since + limit) now }
{
    now >= since && now - since >= limit
}

// The end of a node that has not taken a setting.
fn aborted(node: u8, setting: Setting, code: u32) -> Phase
    ensures { result ≡ Over (ended_at node setting code) }
{
    let Setting { index, sub, .. } = setting;
    Phase::Over {
        end: End::Aborted {
            node,
            index,
            sub,
            code,
        },
    }
}

impl Member {
    /// A node whose boot has not begun, and whose boot-up is awaited for so many ticks.
    pub fn new(alloc: Global, node: u8, settings: Vec<Setting>, limit: u64) -> Member
        requires node { (1 ≤ node) × (node ≤ 127) }
        requires short { All (λ s. is_short_value s ≡ true) settings.items }
        ensures node { seen result ≡ unheard_within limit (node, settings) }
        ensures member { IsMember result }
    {
        Member {
            node,
            settings,
            limit,
            boots: 0,
            phase: Phase::Waiting { since: 0 },
            client: Client::new(alloc, node),
        }
    }

    /// Sends the setting after so many, or is ready.
    pub fn go_on(&mut self, done: usize, now: u64) -> Option<Frame>
        requires member { IsMember self.old }
        requires idle { is_idle self.old.client.asking.task ≡ true }
        ensures moves { Moves result self.new (goes_on (seen self.old) done now) }
        ensures member { IsMember self.new }
    {
        if done < self.settings.len() {
            let setting = self.settings[done];
            let Setting {
                index,
                sub,
                value,
                width,
            } = setting;
            let all = value.to_le_bytes();
            match self
                .client
                .download(index, sub, &all[..usize::from(width.bytes())])
            {
                Ok(frame) => {
                    self.phase = Phase::Sending { done, since: now };
                    Some(frame)
                }
                Err(_) => None,
            }
        } else {
            self.phase = Phase::Over { end: End::Ready };
            None
        }
    }

    /// A boot-up begins the settings anew, and the fourth ends the node. The client forgets what it waits on.
    pub fn boot(&mut self, now: u64) -> Option<Frame>
        requires { IsMember self.old }
        ensures moves { Moves result self.new (booted (seen self.old) now) }
        ensures member { IsMember self.new }
    {
        if is_final(self.phase) {
            return None;
        }
        self.client.expire();
        self.phase = Phase::Waiting { since: now };
        if self.boots == 3 {
            let end = End::Restarting { node: self.node };
            self.phase = Phase::Over { end };
            return None;
        }
        self.boots += 1;
        self.go_on(0, now)
    }

    /// Hears an answer.
    pub fn answer(&mut self, frame: &Frame, now: u64) -> Option<Frame>
        requires member { IsMember self.old }
        requires answer { is_answer self.old.node (message_of frame.now) ≡ true }
        ensures moves { Moves result self.new (answered (seen self.old) now frame.now.body) }
        ensures member { IsMember self.new }
    {
        match self.phase {
            Phase::Sending { done, .. } => {
                let setting = self.settings[done];
                match self.client.step(frame) {
                    Progress::Done => {
                        self.phase = Phase::Waiting { since: now };
                        self.go_on(done + 1, now)
                    }
                    Progress::Aborted(code) => {
                        self.phase = aborted(self.node, setting, code);
                        None
                    }
                    Progress::Ended(abort, code) => {
                        self.phase = aborted(self.node, setting, code);
                        Some(abort)
                    }
                    Progress::Send(_) | Progress::Ignored => None,
                }
            }
            Phase::Waiting { .. } | Phase::Over { .. } => None,
        }
    }

    /// A moment is reached: a node from which nothing came in time is silent.
    pub fn wait(&mut self, now: u64) -> Option<Frame>
        requires { IsMember self.old }
        ensures moves { Moves result self.new (awaited (seen self.old) now) }
        ensures member { IsMember self.new }
    {
        let end = End::Silent { node: self.node };
        match self.phase {
            Phase::Waiting { since } => {
                if is_past(since, self.limit, now) {
                    self.phase = Phase::Over { end };
                }
                None
            }
            Phase::Sending { since, .. } => {
                if is_past(since, ANSWER_LIMIT, now) {
                    self.phase = Phase::Over { end };
                    self.client.expire()
                } else {
                    None
                }
            }
            Phase::Over { .. } => None,
        }
    }

    /// A moment before which the node is not silent, as long as nothing comes from it.
    pub fn lasts_to(&self) -> u64
        ensures { LastsTo result (seen self.now) }
    {
        match self.phase {
            Phase::Waiting { since } => since.saturating_add(self.limit),
            Phase::Sending { since, .. } => since.saturating_add(ANSWER_LIMIT),
            Phase::Over { .. } => u64::MAX,
        }
    }

    /// Hears a frame: the node's own boot-ups and answers alone count.
    pub fn hear(&mut self, frame: &Frame, now: u64) -> Option<Frame>
        requires { IsMember self.old }
        ensures moves { Moves result self.new (heard_by (message_of frame.now) now (seen self.old)) }
        ensures member { IsMember self.new }
    {
        if is_boot_up(self.node, frame) {
            self.boot(now)
        } else if frame.id == SDO_RESPONSE + u16::from(self.node) && frame.len == 8 {
            self.answer(frame, now)
        } else {
            None
        }
    }

    /// Its boot-up is awaited from a moment on.
    pub fn begin(&mut self, now: u64)
        requires { IsMember self.old }
        ensures node { seen self.new ≡ waiting_from now (seen self.old) }
        ensures member { IsMember self.new }
    {
        self.client.expire();
        self.boots = 0;
        self.phase = Phase::Waiting { since: now };
    }
}
