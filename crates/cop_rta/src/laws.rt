//! What holds of the test, whatever the streams are.

ghost use Rattle.std.specs.Prelude.{◌≡◌, ◌↔◌, ℕ, ◌+◌, ◌<◌, ◌≤◌, Bool, List, length, slice_get, Some};
ghost use Rattle.cop_frame.specs.declared.rates.Rate.{Rate};
ghost use Rattle.cop_rta.specs.declared.streams.Stream.{Stream};
ghost use Rattle.cop_rta.specs.declared.errors.Errors.{Errors};
ghost use Rattle.cop_rta.specs.declared.verdicts.Verdict.{Verdict};
ghost use Rattle.cop_rta.specs.Solutions.{IsLeastSolution};
ghost use Rattle.cop_rta.specs.Test.{StreamPlace, Passes, IsResponse, jitter_of, busy_at, queueing_at, cost_at, IsBusyTime, IsQueuedWithin, place_by_id};
ghost use Rattle.cop_rta.specs.Streams.{AreDistinct};
ghost use Rattle.cop_rta.specs.Errors.{HasNoOne, tested, errors_of, rarity, bus_of};
ghost use Rattle.cop_rta.specs.Verdict.{IsJudged};
ghost use Rattle.cop_rta.specs.Jittered.{PassesWith, IsResponseBy, busy_by, queueing_by};
ghost use Rattle.cop_rta.specs.Witnesses.{HasWitnesses, HasMoreAbove, under};

/// A stream passes exactly where there are numbers that neither equation leads past and that are in time.
pub fn passes_by_witnesses()
    ensures { (p : StreamPlace) → p.index < length p.streams → (Passes p ↔ HasWitnesses p) }
{}

/// Neither equation falls as time goes on.
pub fn equations_never_fall()
    ensures busy { (p : StreamPlace) (x y : ℕ) → x ≤ y → busy_at p x ≤ busy_at p y }
    ensures queueing { (p : StreamPlace) (q x y : ℕ) → x ≤ y → queueing_at p q x ≤ queueing_at p q y }
{}

/// More streams above never lower either equation: what the longest transfer from below loses, the sums gain.
pub fn more_above_asks_no_less()
    ensures busy { (p : StreamPlace) (more : ℕ → Bool) (t : ℕ) → HasMoreAbove p more → 1 ≤ t → busy_at p t ≤ busy_at (under p more) t }
    ensures queueing { (p : StreamPlace) (more : ℕ → Bool) (q w : ℕ) → HasMoreAbove p more → queueing_at p q w ≤ queueing_at (under p more) q w }
{}

/// A stream that passes with more streams above it passes with fewer.
pub fn passes_with_fewer_above()
    ensures { (p : StreamPlace) (more : ℕ → Bool) → p.index < length p.streams → HasMoreAbove p more → Passes (under p more) → Passes p }
{}

/// Each instance of a busy period has a least waiting time, and its transfer ends within the period.
pub fn each_instance_waits()
    ensures { (p : StreamPlace) (t q : ℕ) → p.index < length p.streams → IsBusyTime p t → IsQueuedWithin p t q
        → (w : ℕ) × IsLeastSolution (queueing_at p q) 0 w × (w + cost_at p ≤ t) }
{}

/// The test of a place is the test with the jitters that streams have by what is ahead there.
pub fn passes_with()
    ensures passes { (p : StreamPlace) → (Passes p ↔ PassesWith (jitter_of p.ahead) p) }
    ensures busy { (p : StreamPlace) (t : ℕ) → busy_by (jitter_of p.ahead) p t ≡ busy_at p t }
    ensures queueing { (p : StreamPlace) (q w : ℕ) → queueing_by (jitter_of p.ahead) p q w ≡ queueing_at p q w }
    ensures responses { (p : StreamPlace) (q r : ℕ) → (IsResponse p q r ↔ IsResponseBy (jitter_of p.ahead) p q r) }
{}

/// The test says one thing of each place.
pub fn one_verdict()
    ensures { (p : StreamPlace) (v w : Verdict) → IsJudged p v → IsJudged p w → v ≡ w }
{}

/// What passes with disturbed transfers above it passes without them.
pub fn passes_without_errors()
    ensures { (rate : Rate) (e : Errors) (streams : List Stream) (index : ℕ) (m : Stream) → slice_get streams index ≡ Some m → HasNoOne streams
        → Passes (place_by_id (tested (Some e) streams) index rate) → Passes (place_by_id streams index rate) }
{}

/// A set that counts disturbed transfers is the tested set of the streams of the bus in it, and NMT's identifier there is free on the bus.
pub fn tested_again()
    ensures again { (streams : List Stream) (s : Stream) → AreDistinct streams → errors_of streams ≡ Some s → streams ≡ tested (Some (rarity s)) (bus_of streams) }
    ensures free { (streams : List Stream) (s : Stream) → AreDistinct streams → errors_of streams ≡ Some s → HasNoOne (bus_of streams) }
{}
