//! The SYNCs of a play, which its synchronous streams wait for.

ghost use Rattle.std.specs.Prelude.{◌≡◌, OnOk, slice_get};
ghost use Rattle.cop_sim.specs.Cues.{awaited_sync};
ghost use Rattle.cop_sim.specs.Syncs.{some_synchronous, is_noted, with_event, with_end, noted_cue, is_awaited};
ghost use Rattle.cop_sim.specs.Stages.{no_syncs};

use crate::cues::Cue;
use cop_frame::identifiers::SYNC;
use cop_rta::Stream;
use std::alloc::{AllocError, Global};
use std::marker::Model;

/// The SYNCs by their numbers, if some stream is synchronous: the events of those that are queued and the ends of their transfers.
#[derive(Drop)]
pub(crate) struct Syncs {
    synchronous: bool,
    events: Vec<u64>,
    ends: Vec<u64>,
}

impl Model for Syncs {
    ghost use Rattle.cop_sim.specs.Syncs.{SyncsValue};

    ghost Value = { SyncsValue };

    ghost view = { λ s. record { synchronous = s.synchronous; events = s.events.items; ends = s.ends.items } };
}

// Whether some stream is synchronous.
fn some_synchronous(streams: &[Stream]) -> bool
    ensures { result ≡ some_synchronous streams.now }
{
    streams.iter().any(|stream| 0 < stream.every)
}

// The number of the SYNC, from 0, that an answer of a synchronous stream waits for.
fn awaited_sync(stream: &Stream, number: u64) -> u128
    ensures { result ≡ awaited_sync stream.now number }
{
    ((u128::from(number) + 1) * u128::from(stream.every)).saturating_sub(1)
}

// The moment with a number.
fn at(moments: &[u64], number: u128) -> Option<u64>
    ensures { result ≡ slice_get moments.now number }
{
    if number < moments.len() as u128 {
        Some(moments[number as usize])
    } else {
        None
    }
}

impl Syncs {
    /// None yet.
    pub(crate) fn new(alloc: Global, streams: &[Stream]) -> Syncs
        ensures { result ≡ no_syncs streams.now }
    {
        Syncs {
            synchronous: some_synchronous(streams),
            events: Vec::new(alloc),
            ends: Vec::new(alloc),
        }
    }

    /// Whether a step of the identifier is one of SYNC's that is noted.
    pub(crate) fn is_noted(&self, id: u16) -> bool
        ensures { result ≡ is_noted self.now id }
    {
        self.synchronous && id == SYNC
    }

    /// An instance is queued.
    pub(crate) fn queued(&mut self, id: u16, event: u64) -> Result<(), AllocError>
        ensures { OnOk result (self.new ≡ with_event self.old id event) }
    {
        if self.is_noted(id) {
            self.events.push(event)?;
        }
        Ok(())
    }

    /// A transfer ends.
    pub(crate) fn ended(&mut self, id: u16, at: u64) -> Result<(), AllocError>
        ensures { OnOk result (self.new ≡ with_end self.old id at) }
    {
        if self.is_noted(id) {
            self.ends.push(at)?;
        }
        Ok(())
    }

    /// What an answer of a stream waits for, by its number from 0.
    pub(crate) fn cue(&self, stream: &Stream, number: u64) -> Cue
        ensures { result ≡ noted_cue self.now stream.now number }
    {
        if stream.every == 0 {
            return Cue::Own;
        }
        let sync = awaited_sync(stream, number);
        match (at(&self.events, sync), at(&self.ends, sync)) {
            (Some(event), Some(ended)) => Cue::Sync { event, ended },
            _ => Cue::Awaited,
        }
    }

    /// Whether it waits for the SYNC that ended last.
    pub(crate) fn is_awaited(&self, stream: &Stream, number: u64) -> bool
        ensures { result ≡ is_awaited self.now stream.now number }
    {
        0 < stream.every
            && (u128::from(number) + 1) * u128::from(stream.every) == self.ends.len() as u128
    }
}
