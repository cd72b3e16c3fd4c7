//! The SYNCs that have ended, on which the instances of synchronous streams hang.

ghost use Rattle.std.specs.Prelude.{◌≡◌, ℕ, true, false, Some, IfOk, IfSome, IfNone, slice_get};
ghost use Rattle.cop_watch.specs.Syncs.{EndsLast, AreNone, IsAmong, Puts, EndsOne, EndsFirst, IsForgotten, IsNoSync, events_with};
ghost use Rattle.cop_watch.specs.declared.syncs.EndedSync.{EndedSync as Recalled};

use cop_frame::identifiers::SYNC;
use std::alloc::{AllocError, Global};
use std::collections::VecDeque;

/// How many SYNCs are recalled at most.
const MOST: u64 = 64;

/// A SYNC that has ended: its event, its number, from 0, and the end of its transfer.
#[derive(Clone, Copy)]
pub(crate) struct EndedSync {
    pub(crate) event: u64,
    pub(crate) mark: u64,
    pub(crate) from: u64,
}

/// What is known of the SYNC that ended last.
#[derive(Clone, Copy)]
pub(crate) enum Newest {
    /// None has ended.
    Nothing,
    /// It is this.
    Sync(EndedSync),
}

/// The SYNC with an event that ends, if its event is later than those before: SYNC's period is never 0.
fn ended(newest: Newest, event: u64, at: u64) -> Option<EndedSync>
    ensures { IfSome result (λ sync. EndsLast event newest at (Newest.Sync sync)) }
{
    let mark = match newest {
        Newest::Nothing => 0,
        Newest::Sync(before) => {
            if before.event >= event || before.mark == u64::MAX {
                return None;
            }
            before.mark + 1
        }
    };
    Some(EndedSync {
        event,
        mark,
        from: at,
    })
}

/// The latest event that is recalled no more, after another.
fn forget(forgotten: Option<u64>, event: u64) -> Option<u64>
    ensures its { IsForgotten result event }
    ensures others { (v : ℕ) → IsForgotten forgotten v → IsForgotten result v }
{
    match forgotten {
        Some(latest) => Some(latest.max(event)),
        None => Some(event),
    }
}

/// Puts a SYNC in the place of its number among those that are recalled, and gives the latest event that is recalled no more.
fn put(recent: &mut Vec<Option<EndedSync>>, forgotten: Option<u64>, sync: EndedSync) -> Option<u64>
    ensures { Puts recent.old.items recent.new.items sync forgotten result }
{
    let place = (sync.mark % MOST) as usize;
    if place >= recent.len() {
        return forget(forgotten, sync.event);
    }
    let before = recent[place];
    recent[place] = Some(sync);
    match before {
        Some(before) => forget(forgotten, before.event),
        None => forgotten,
    }
}

/// The SYNC with an event among some.
fn recalled(recent: &[Option<EndedSync>], event: u64) -> Option<EndedSync>
    ensures its { IfSome result (λ sync. sync.event ≡ event) }
    ensures there { IfSome result (λ sync. (place : ℕ) × (slice_get recent.now place ≡ Some (Some sync))) }
    ensures none { IfNone result ((place : ℕ) (s : Recalled) → slice_get recent.now place ≡ Some (Some s) → s.event ≡ event → ⊥) }
{
    for kept in recent {
        if let Some(sync) = kept {
            if sync.event == event {
                return Some(*sync);
            }
        }
    }
    None
}

/// The SYNCs that have ended, as far as they are known: the last of them, and those that ended last, by their numbers.
#[derive(Drop)]
pub(crate) struct Syncs {
    newest: Newest,
    recent: Vec<Option<EndedSync>>,
    // The latest event of those that are recalled no more.
    forgotten: Option<u64>,
}

impl Syncs {
    /// None has ended.
    pub(crate) fn new(alloc: Global) -> Result<Syncs, AllocError>
        ensures { IfOk result AreNone }
    {
        Ok(Syncs {
            newest: Newest::Nothing,
            recent: vec![in alloc; None; MOST as usize]?,
            forgotten: None,
        })
    }

    /// One with an event ends at a moment. Where it does not say so, the event is not later than those before.
    fn end(&mut self, event: u64, at: u64) -> bool
        ensures { result ≡ true → EndsOne event self.old at self.new }
    {
        match ended(self.newest, event, at) {
            Some(sync) => {
                match self.newest {
                    Newest::Nothing => {}
                    Newest::Sync(before) => {
                        self.forgotten = put(&mut self.recent, self.forgotten, before);
                    }
                }
                self.newest = Newest::Sync(sync);
                true
            }
            None => false,
        }
    }

    /// The one with an event, if it is recalled. Mostly it is the newest.
    pub(crate) fn of_event(&self, event: u64) -> Option<EndedSync>
        ensures its { IfSome result (λ sync. sync.event ≡ event) }
        ensures recalled { IfSome result (IsAmong self.now) }
        ensures none { IfNone result ((s : Recalled) → IsAmong self.now s → s.event ≡ event → ⊥) }
    {
        match self.newest {
            Newest::Sync(newest) => {
                if newest.event == event {
                    Some(newest)
                } else {
                    recalled(&self.recent, event)
                }
            }
            Newest::Nothing => recalled(&self.recent, event),
        }
    }

    // Whether an event may be that of a SYNC that is recalled no more.
    fn is_forgotten(&self, event: u64) -> bool
        ensures { result ≡ false → IsForgotten self.now.forgotten event → ⊥ }
    {
        match self.forgotten {
            Some(latest) => event <= latest,
            None => false,
        }
    }

    /// Whether it is known that no SYNC that has ended has an event.
    pub(crate) fn has_none(&self, event: u64) -> bool
        ensures { result ≡ true → IsNoSync self.now event }
    {
        match self.of_event(event) {
            Some(_) => false,
            None => !self.is_forgotten(event),
        }
    }
}

/// Keeps the event of an instance that is queued, if it is SYNC's and there is memory.
pub(crate) fn keep_event(events: &mut VecDeque<u64>, id: u16, event: u64) -> bool
    ensures { result ≡ true → events.new.items ≡ events_with id event events.old.items }
{
    id != SYNC || events.push_back(event).is_ok()
}

/// Ends the SYNC whose event was kept first: it is the one that runs.
pub(crate) fn end_first(syncs: &mut Syncs, events: &mut VecDeque<u64>, at: u64) -> bool
    ensures { result ≡ true → EndsFirst events.old.items events.new.items syncs.old at syncs.new }
{
    match events.pop_front() {
        Some(event) => syncs.end(event, at),
        None => false,
    }
}
