//! Laws of frames that are handed over so far apart.

ghost use Rattle.std.specs.Prelude.{◌≡◌, ◌+◌, ◌≤◌, ◌⊎◌, ℕ, Bool, true, false, List, All, AllPairs};
ghost use Rattle.cop_frame.specs.Rate.{ticks_of};
ghost use Rattle.cop_rta.specs.declared.streams.Stream.{Stream};
ghost use Rattle.cop_rta.specs.Test.{sync_id};
ghost use Rattle.cop_bus.specs.Run.{Instance, IsLegal, IsObeying, IsOnTime};
ghost use Rattle.cop_sim.specs.Guarantee.{IsPdo, IsFrame, IsKept};
ghost use Rattle.cop_held.specs.Held.{AreHeldApart, redated, IsHeldRunOf, IsSentOnTime};
ghost use Rattle.cop_held.specs.Causes.{Cause, AreSpaced, handed_over, AreWithin};

use cop_plan::Plan;
use cop_sim::plans_keep;

/// A stream that is sent by events, and whose frames are handed over a period apart, obeys in the run in which its hand-overs are its
/// events, whatever its events are. That run is as legal, and the other streams obey in it if they did, where SYNC is not held.
pub fn held_streams_obey()
    ensures legal { (tau until : ℕ) (streams : List Stream) (held : ℕ → Bool) (run : List Instance) → IsLegal tau streams until run → IsLegal tau streams until (redated held run) }
    ensures held { (tau until : ℕ) (held : ℕ → Bool) (run : List Instance) (k : Stream) → k.every ≡ 0 → held k.id ≡ true → AreHeldApart k.period k.id run
        → IsObeying tau until (redated held run) k }
    ensures others { (tau until : ℕ) (held : ℕ → Bool) (run : List Instance) (k : Stream) → held sync_id ≡ false → held k.id ≡ false → IsObeying tau until run k
        → IsObeying tau until (redated held run) k }
{}

/// A plan is kept where some of its streams are held a period apart and all others obey, with the hand-overs of those that are held as
/// their events. So each PDO that is held ends by its deadline after its hand-over, and each other PDO, and each SDO frame that has a
/// deadline, by its own after its event.
pub fn held_plans_keep(plan: &Plan)
    ensures kept { (held : ℕ → Bool) (until : ℕ) (run : List Instance) → IsHeldRunOf plan.now held until run → IsKept plan.now until (redated held run) }
    ensures held { (held : ℕ → Bool) (until : ℕ) (run : List Instance) → IsHeldRunOf plan.now held until run → (k : Stream) → IsPdo plan.now k ⊎ IsFrame plan.now k
        → held k.id ≡ true → All (λ y. y.id ≡ k.id → IsSentOnTime (ticks_of plan.now.rate) until k.deadline y) run }
    ensures others { (held : ℕ → Bool) (until : ℕ) (run : List Instance) → IsHeldRunOf plan.now held until run → (k : Stream) → IsPdo plan.now k ⊎ IsFrame plan.now k
        → held k.id ≡ false → All (λ y. y.id ≡ k.id → IsOnTime (ticks_of plan.now.rate) until k.deadline y) run }
{
    plans_keep(plan);
}

/// An inhibit time that is not above the period makes no frame later than the jitter after its cause, where causes are a period apart
/// and each frame is ready within the jitter. And the frames are handed over that time apart, whatever the causes are.
pub fn ready_within_are_queued_within()
    ensures within { (period inhibit jitter : ℕ) (causes : List Cause) → inhibit ≤ period → AreSpaced period jitter causes → AreWithin jitter causes (handed_over inhibit causes) }
    ensures apart { (inhibit : ℕ) (causes : List Cause) → AllPairs (λ p q. p + inhibit ≤ q) (handed_over inhibit causes) }
{}
