//! A log that is watched, entry by entry.

ghost use Rattle.std.specs.Prelude.{◌≡◌, ◌+◌, ◌^◌, ◌<◌, ◌&&◌, true, false, is_none, Option, IfOk, IfSome, IfNone, length, List, slice_index_or};
ghost use Rattle.cop_rta.specs.Streams.{place_of_id};
ghost use Rattle.cop_rta.specs.Errors.{errors_of};
ghost use Rattle.cop_lines.specs.declared.entries.Entry.{Entry as Seen};
ghost use Rattle.std.specs.Option.{ForSome};
ghost use Rattle.cop_log.specs.declared.anchors.Anchor.{Anchor as Counted};
ghost use Rattle.cop_log.specs.declared.anchors.Pile.{Pile as Piled};
ghost use Rattle.cop_log.specs.declared.anchors.Top.{Top as Highest};
ghost use Rattle.cop_log.specs.declared.watcher.Placed.{Placed as At};
ghost use Rattle.cop_log.specs.declared.findings.Finding.TheVariants.{Soon, Fallen};
ghost use Rattle.cop_log.specs.Log.{entry_at, IsEvidence};
ghost use Rattle.cop_log.specs.Watching.{lane_of, tells_nothing, IsTold, Stands};
ghost use Rattle.cop_log.specs.Watchers.{terms_of, AreOf, IsKept, IsReady, IsScene, IsShown, HasNoLane, HasLane, IsStepOfAll, named_by};

use crate::anchors::{Anchor, Pile, Top};
use crate::clocks::Clock;
use crate::crowding::load_next;
use crate::findings::Finding;
use crate::naming::{Naming, naming_of};
use crate::rising::rise_next;
use crate::scenes::Scene;
use crate::told::Told;
use crate::watches::Watch;
use crate::watching::watch_next;
use cop_frame::Rate;
use cop_lines::Entry;
use cop_rta::{Stream, StreamSet};
use std::alloc::{AllocError, Global};

/// What is known of the entries of a log that were taken so far. It keeps none of them but one for each stream and one for all, so that
/// its memory does not grow with the log.
#[derive(Drop)]
pub struct Watcher<'a> {
    streams: &'a StreamSet,
    bounds: Vec<Option<u64>>,
    rate: Rate,
    clock: Clock,
    anchors: Vec<Option<Anchor>>,
    pile: Option<Pile>,
    top: Option<Top>,
    number: u64,
    is_clean: bool,
}

/// A stream with a bound, and its place.
#[derive(Clone, Copy)]
pub(crate) struct Placed {
    pub(crate) place: usize,
    pub(crate) watch: Watch,
}

fn anchor_at(anchors: &[Option<Anchor>], place: usize) -> Option<Anchor>
    ensures { result ≡ slice_index_or anchors.now place Option.None }
{
    match anchors.get(place) {
        Some(anchor) => *anchor,
        None => None,
    }
}

fn both(first: bool, second: bool) -> bool
    ensures { result ≡ (first && second) }
{
    first && second
}

fn bound_at(bounds: &[Option<u64>], place: usize) -> Option<u64>
    ensures { result ≡ slice_index_or bounds.now place Option.None }
{
    match bounds.get(place) {
        Some(bound) => *bound,
        None => None,
    }
}

// The stream with an identifier, which stands at a place, if it has a bound.
fn placed_at(
    streams: &StreamSet,
    bounds: &[Option<u64>],
    rate: Rate,
    clock: Clock,
    place: usize,
    id: u16,
) -> Option<Placed>
    requires within { place < length streams.now }
    requires its { place_of_id streams.now id ≡ Option.Some place }
    ensures none { IfNone result (HasNoLane (record { rate = rate; streams = streams.now; bounds = bounds.now; clock = clock }) id) }
    ensures some { IfSome result (λ x. HasLane (record { rate = rate; streams = streams.now; bounds = bounds.now; clock = clock }) x.place (lane_of x.watch) id) }
    ensures same { IfSome result (λ x. x.place ≡ place) }
{
    let _distinct = streams.streams();
    let stream = streams.streams()[place];
    match bound_at(bounds, place) {
        None => None,
        Some(bound) => Some(Placed {
            place,
            watch: Watch {
                stream,
                rate,
                bound,
                clock,
            },
        }),
    }
}

// The stream with a bound that has an identifier.
fn seek(
    streams: &StreamSet,
    bounds: &[Option<u64>],
    rate: Rate,
    clock: Clock,
    id: u32,
) -> Option<Placed>
    ensures none { IfNone result (HasNoLane (record { rate = rate; streams = streams.now; bounds = bounds.now; clock = clock }) id) }
    ensures some { IfSome result (λ x. HasLane (record { rate = rate; streams = streams.now; bounds = bounds.now; clock = clock }) x.place (lane_of x.watch) id) }
    ensures its { IfSome result (λ x. place_of_id streams.now id ≡ Option.Some x.place) }
{
    match u16::try_from(id) {
        Err(_) => None,
        Ok(short) => match streams.place_of(short) {
            None => None,
            Some(place) => placed_at(streams, bounds, rate, clock, place, short),
        },
    }
}

// Watches an entry for its stream.
fn step(
    placed: Option<Placed>,
    entry: Entry,
    number: u64,
    anchors: &mut Vec<Option<Anchor>>,
) -> Option<Finding>
    ensures none { IfNone placed ((anchors.new.items ≡ anchors.old.items) × (result ≡ Option.None)) }
    ensures some { IfSome placed (λ x. IsStepOfAll x entry number anchors.old.items anchors.new.items result) }
    ensures shown { ForSome result (λ f. (x : At) × (a : Counted) × (placed ≡ Option.Some x) × (slice_index_or anchors.old.items x.place Option.None ≡ Option.Some a) × (f ≡ Soon a.from number a.count)) }
{
    match placed {
        None => None,
        Some(placed) => {
            if placed.place >= anchors.len() {
                return None;
            }
            let before = anchor_at(anchors, placed.place);
            let next = watch_next(&placed.watch, entry, number, before);
            anchors[placed.place] = Some(next.anchor);
            next.soon
        }
    }
}

// Lets go of all entries from which was counted.
fn forget(anchors: &mut Vec<Option<Anchor>>)
    ensures count { length anchors.new.items ≡ length anchors.old.items }
    ensures few { AreOf anchors.new.items anchors.old.items }
{
    for place in 0..anchors.len() {
        anchors[place] = None;
    }
}

fn named(naming: Naming, number: u64) -> Option<Finding>
    ensures { result ≡ named_by naming number }
{
    match naming {
        Naming::Known => None,
        Naming::Unknown => Some(Finding::Unknown { at: number }),
        Naming::Length => Some(Finding::Length { at: number }),
    }
}

impl<'a> Watcher<'a> {
    /// A log of no entry yet, to be watched for the streams of a set. A bound is the greatest response of the stream at its place in
    /// ticks, and a stream that has none is watched for its length alone.
    pub fn new(
        alloc: Global,
        streams: &'a StreamSet,
        bounds: Vec<Option<u64>>,
        rate: Rate,
        clock: Clock,
    ) -> Result<Watcher<'a>, AllocError>
        ensures terms { IfOk result (λ w. terms_of w ≡ record { rate = rate; streams = streams.now; bounds = bounds.items; clock = clock }) }
        ensures begins { IfOk result (λ w. (w.number ≡ 0) × (w.is_clean ≡ true)) }
        ensures kept { IfOk result (λ w. (log : List Seen) → IsKept w log) }
    {
        let anchors = vec![in alloc; None; streams.len()]?;
        Ok(Watcher {
            streams,
            bounds,
            rate,
            clock,
            anchors,
            pile: None,
            top: None,
            number: 0,
            is_clean: true,
        })
    }

    /// Whether nothing was shown so far.
    pub fn is_clean(&self) -> bool
        ensures { result ≡ self.now.is_clean }
    {
        self.is_clean
    }

    /// How many entries were taken.
    pub fn number(&self) -> u64
        ensures { result ≡ self.now.number }
    {
        self.number
    }

    /// The stream of disturbed transfers, if the set counts them.
    pub fn errors(&self) -> Option<Stream>
        ensures { result ≡ errors_of (terms_of self.now).streams }
    {
        self.streams.errors()
    }

    /// The entry from which those of the stream at a place are counted.
    pub fn anchor(&self, place: usize) -> Option<Anchor>
        ensures { result ≡ slice_index_or self.now.anchors.items place Option.None }
    {
        anchor_at(&self.anchors, place)
    }

    /// The entry from which all are counted.
    pub fn pile(&self) -> Option<Pile>
        ensures { result ≡ self.now.pile }
    {
        self.pile
    }

    /// The entry from which the clock may fall.
    pub fn top(&self) -> Option<Top>
        ensures { result ≡ self.now.top }
    {
        self.top
    }

    // The place of the stream of an identifier.
    fn place_of(&self, id: u32) -> Option<usize>
        ensures place { result ≡ place_of_id self.now.streams.now id }
        ensures within { IfSome result (λ p. p < length self.now.streams.now) }
    {
        match u16::try_from(id) {
            Ok(short) => self.streams.place_of(short),
            Err(_) => None,
        }
    }

    // What is known of an entry whose stream stands at a place.
    fn scene_at(&self, entry: &Entry, place: usize) -> Scene
        requires within { place < length self.now.streams.now }
        requires its { place_of_id self.now.streams.now entry.now.id ≡ Option.Some place }
        ensures { IsScene self.now entry.now result }
    {
        Scene {
            entry: *entry,
            rate: self.rate,
            stream: Some(self.streams.streams()[place]),
            bound: bound_at(&self.bounds, place),
            anchor: anchor_at(&self.anchors, place),
            pile: self.pile,
            top: self.top,
        }
    }

    /// What is known of an entry before it is taken.
    pub fn scene(&self, entry: &Entry) -> Scene
        ensures { IsScene self.now entry.now result }
    {
        match self.place_of(entry.id) {
            Some(place) => self.scene_at(entry, place),
            None => Scene {
                entry: *entry,
                rate: self.rate,
                stream: None,
                bound: None,
                anchor: None,
                pile: self.pile,
                top: self.top,
            },
        }
    }

    // Forgets the entries from which was counted, since the clock that stamped them has fallen.
    fn restart(&mut self)
        ensures same { (terms_of self.new ≡ terms_of self.old) × (self.new.number ≡ self.old.number) × (self.new.top ≡ self.old.top) }
        ensures clean { self.new.is_clean ≡ false }
        ensures anchors { AreOf self.new.anchors.items self.old.anchors.items }
        ensures pile { (x : Piled) → self.new.pile ≡ Option.Some x → self.old.pile ≡ Option.Some x }
        ensures kept { (log : List Seen) → Stands (terms_of self.old) log self.old.number self.old.anchors.items self.old.pile self.old.is_clean
            → Stands (terms_of self.new) log self.new.number self.new.anchors.items self.new.pile self.new.is_clean }
    {
        forget(&mut self.anchors);
        self.pile = None;
        self.is_clean = false;
    }

    // Looks at the stamp of the next entry.
    fn rise(&mut self, entry: Entry) -> Option<Finding>
        ensures same { (terms_of self.new ≡ terms_of self.old) × (self.new.number ≡ self.old.number) }
        ensures clean { self.new.is_clean ≡ (self.old.is_clean && is_none result) }
        ensures anchors { AreOf self.new.anchors.items self.old.anchors.items }
        ensures pile { (x : Piled) → self.new.pile ≡ Option.Some x → self.old.pile ≡ Option.Some x }
        ensures shown { ForSome result (λ f. (x : Highest) × (self.old.top ≡ Option.Some x) × (f ≡ Fallen x.from self.old.number)) }
        ensures kept { (log : List Seen) → self.old.number < length log → entry_at log self.old.number ≡ entry
            → IsKept self.old log → ForSome result (IsEvidence (terms_of self.old) log) × IsReady self.new log }
    {
        let rise = rise_next(self.clock, entry, self.number, self.top);
        self.top = Some(rise.top);
        match rise.fallen {
            Some(fallen) => {
                self.restart();
                Some(fallen)
            }
            None => None,
        }
    }

    /// Takes the next entry, and tells what it shows. What is told is evident from the log, and as long as nothing is, nothing is evident.
    /// Where the clock has fallen, counting begins anew.
    pub fn take(&mut self, entry: &Entry) -> Told
        ensures shown { IsShown self.old entry.now result }
        ensures terms { terms_of self.new ≡ terms_of self.old }
        ensures number { self.old.number + 1 < 2 ^ 64 → self.new.number ≡ self.old.number + 1 }
        ensures clean { self.new.is_clean ≡ (self.old.is_clean && tells_nothing result) }
        ensures told { (log : List Seen) → length log < 2 ^ 64 → self.old.number < length log → entry_at log self.old.number ≡ entry.now
            → IsKept self.old log → IsTold (terms_of self.old) log result × IsKept self.new log }
    {
        let was_clean = self.is_clean;
        let fallen = self.rise(*entry);
        let number = self.number;
        let _distinct = self.streams.streams();
        let named = named(naming_of(self.streams, entry), number);
        let placed = seek(self.streams, &self.bounds, self.rate, self.clock, entry.id);
        let soon = step(placed, *entry, number, &mut self.anchors);
        let load = load_next(self.rate, self.clock, entry, number, self.pile);
        self.pile = Some(load.pile);
        self.number = number.saturating_add(1);
        let told = Told {
            fallen,
            named,
            soon,
            crowded: load.crowded,
        };
        self.is_clean = both(was_clean, told.is_nothing());
        told
    }
}
