//! What holds of SYNC's instances, and so of the streams that wait for them.

ghost use Rattle.std.specs.Prelude.{◌≡◌, ℕ, ◌+◌, ◌-◌, ◌*◌, ◌≤◌, ◌<◌, All, List, length, None};
ghost use Rattle.std.specs.Option.{ForSome};
ghost use Rattle.cop_frame.specs.declared.rates.Rate.{Rate};
ghost use Rattle.cop_frame.specs.Rate.{ticks_of};
ghost use Rattle.cop_rta.specs.declared.streams.Stream.{Stream};
ghost use Rattle.cop_rta.specs.Test.{sync_id, sync_place};
ghost use Rattle.cop_rta.specs.Greatest.{AreSynced, HasGreatest};
ghost use Rattle.cop_bus.specs.Run.{Instance, IsRunAbove, IsSync, HasResponseAbove, jitter_at};
ghost use Rattle.cop_bus.specs.Spread.{IsSpread};
ghost use Rattle.cop_rta.specs.Streams.{AreDistinct};
ghost use Rattle.cop_bus.specs.declared.steps.Step.{Step};
ghost use Rattle.cop_bus.specs.Trace.{at_of, rank_of, step_at, instances};
ghost use Rattle.cop_bus.specs.Judge.{first_broken};
ghost use Rattle.cop_bus.specs.Ends.{HasEnded};

/// The events of two SYNCs lie as many of its periods apart as their numbers.
pub fn numbers_apart()
    ensures { (rate : Rate) (streams : List Stream) (until : ℕ) (run : List Instance) (index : ℕ) (m : Stream) (a b d e ended later : ℕ)
        → IsRunAbove rate streams until run index m → m.id ≡ sync_id
        → IsSync (ticks_of rate) until run a d ended → IsSync (ticks_of rate) until run b e later → a < b → d + (b - a) * m.period ≤ e }
{}

/// Each SYNC that starts by the run's end ends by its response after its event.
pub fn syncs_respond()
    ensures { (rate : Rate) (streams : List Stream) (until : ℕ) (run : List Instance) (index : ℕ) (m : Stream) (r : ℕ)
        → IsRunAbove rate streams until run index m → m.id ≡ sync_id → HasGreatest (sync_place streams rate index) r
        → All (λ y. y.id ≡ m.id → ForSome y.start (λ s. s ≤ until → s + y.bits * ticks_of rate ≤ y.event + r)) run }
{}

/// So the instances of each stream are queued within its jitter after their events, which are periods apart: of a synchronous
/// one the jitter is SYNC's response and the latency.
pub fn spread_by_sync()
    ensures { (rate : Rate) (streams : List Stream) (until : ℕ) (run : List Instance) (index : ℕ) (m : Stream)
        → IsRunAbove rate streams until run index m → AreSynced streams → HasResponseAbove rate streams m
        → All (λ k. k.id ≤ m.id → IsSpread (jitter_at streams rate) run k) streams }
{}

/// In a trace that breaks no rule the SYNCs that have ended are those of its run, by number: each is in the run, and each of the run
/// that ends by a step that queues an instance has ended before that step.
pub fn ended_syncs_are_of_the_run()
    ensures of_run { (rate : Rate) (streams : List Stream) (until : ℕ) (steps : List Step) (i number event ended : ℕ)
        → AreDistinct streams → first_broken (ticks_of rate) streams until steps ≡ None
        → HasEnded steps i number event ended → IsSync (ticks_of rate) until (instances steps) number event ended }
    ensures have_ended { (rate : Rate) (streams : List Stream) (until : ℕ) (steps : List Step) (j number event ended : ℕ)
        → AreDistinct streams → first_broken (ticks_of rate) streams until steps ≡ None
        → j < length steps → rank_of (step_at steps j) ≡ 1 → ended ≤ at_of (step_at steps j)
        → IsSync (ticks_of rate) until (instances steps) number event ended → HasEnded steps j number event ended }
{}
