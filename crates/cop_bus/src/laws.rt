//! What holds of each legal run of the bus.

ghost use Rattle.std.specs.Prelude.{◌≡◌, ℕ, ◌+◌, ◌*◌, ◌≤◌, ◌<◌, All, Any, Contains, List, Some, None, [], ◌∷◌, ◌++◌, ◌↔◌};
ghost use Rattle.std.specs.Int.{div_ceil};
ghost use Rattle.std.specs.Option.{ForSome};
ghost use Rattle.cop_frame.specs.declared.rates.Rate.{Rate};
ghost use Rattle.cop_frame.specs.Rate.{ticks_of};
ghost use Rattle.cop_rta.specs.declared.streams.Stream.{Stream};
ghost use Rattle.cop_rta.specs.Test.{place_by_id, busy_at, queueing_at};
ghost use Rattle.cop_rta.specs.Greatest.{AreSynced};
ghost use Rattle.cop_rta.specs.Verdict.{PassesBy};
ghost use Rattle.cop_bus.specs.Run.{Instance, IsRunAbove, HasResponseAbove, PassesById, jitter_at, IsOnTime, Runs, waiting};
ghost use Rattle.cop_bus.specs.Period.{IsPeriodOf, starts_of, queued_since};
ghost use Rattle.cop_rta.specs.Streams.{AreDistinct};
ghost use Rattle.cop_bus.specs.declared.steps.Step.{Step};
ghost use Rattle.cop_bus.specs.Judge.{first_broken};
ghost use Rattle.cop_bus.specs.Trace.{IsLegalTrace, instances};
ghost use Rattle.cop_bus.specs.Growing.{KeepTheRules, AreOfOthers};
ghost use Rattle.cop_bus.specs.Late.{first_late};

/// The response-time test is sound: in each legal run in which the stream and those above it obey, each
/// instance of a stream that passes is on time.
pub fn passing_is_on_time()
    ensures { (rate : Rate) (streams : List Stream) (until : ℕ) (run : List Instance) (index : ℕ) (m : Stream)
        → IsRunAbove rate streams until run index m → AreSynced streams → PassesById rate streams index
        → All (λ y. y.id ≡ m.id → IsOnTime (ticks_of rate) until m.deadline y) run }
{}

/// Each instance of such a stream that starts by the run's end ends in time, also where its deadline falls after
/// the run.
pub fn started_is_on_time()
    ensures { (rate : Rate) (streams : List Stream) (until : ℕ) (run : List Instance) (index : ℕ) (m : Stream)
        → IsRunAbove rate streams until run index m → AreSynced streams → PassesById rate streams index
        → All (λ y. y.id ≡ m.id → ForSome m.deadline (λ d. ForSome y.start (λ s. s ≤ until → s + y.bits * ticks_of rate ≤ y.event + d))) run }
{}

/// Each instance of a stream that passes has ended by its greatest response after its event, whatever its deadline.
pub fn passing_ends_by_its_response()
    ensures { (rate : Rate) (streams : List Stream) (until : ℕ) (run : List Instance) (index : ℕ) (m : Stream) (r : ℕ)
        → IsRunAbove rate streams until run index m → AreSynced streams → PassesBy (place_by_id streams index rate) r
        → All (λ y. y.id ≡ m.id → IsOnTime (ticks_of rate) until (Some r) y) run }
{}

/// At no moment of such a run do more instances of the stream wait than periods begin within its deadline.
pub fn passing_waits_bounded()
    ensures { (rate : Rate) (streams : List Stream) (until : ℕ) (run : List Instance) (index : ℕ) (m : Stream)
        → IsRunAbove rate streams until run index m → AreSynced streams → PassesById rate streams index
        → ForSome m.deadline (λ d. (x : ℕ) → x ≤ until → waiting m.id x run ≤ div_ceil d m.period) }
{}

/// The laws of the busy period of an instance x, which starts at the last moment t, not after x is queued, at
/// which all instances of its stream or above that are queued before t have ended.
pub fn busy_period()
    // each instance has such a moment
    ensures begins { (rate : Rate) (streams : List Stream) (until : ℕ) (pre : List Instance) (x : Instance) (post : List Instance) (index : ℕ) (m : Stream)
        → IsRunAbove rate streams until (pre ++ (x ∷ post)) index m → x.id ≡ m.id
        → (t : ℕ) × IsPeriodOf rate streams until pre x post index m t }
    // transfers follow without a gap until x ends
    ensures no_gap { (rate : Rate) (streams : List Stream) (until : ℕ) (pre : List Instance) (x : Instance) (post : List Instance) (index : ℕ) (m : Stream) (t : ℕ)
        → IsPeriodOf rate streams until pre x post index m t → AreSynced streams → HasResponseAbove rate streams m
        → (u : ℕ) → t ≤ u → u < until → ForSome x.start (λ s. u < s + x.bits * ticks_of rate)
        → Any (λ y. Runs (ticks_of rate) y u) (pre ++ (x ∷ post)) }
    // a lower one that is sent before x began before t
    ensures lower_before { (rate : Rate) (streams : List Stream) (until : ℕ) (pre : List Instance) (x : Instance) (post : List Instance) (index : ℕ) (m : Stream) (t : ℕ)
        → IsPeriodOf rate streams until pre x post index m t → AreSynced streams → HasResponseAbove rate streams m
        → All (λ y. m.id < y.id → ForSome y.start (λ s. ForSome x.start (λ e. s < e) → s < t)) (pre ++ (x ∷ post)) }
    // at most so many of a stream start up to t + w
    ensures few { (rate : Rate) (streams : List Stream) (until : ℕ) (pre : List Instance) (x : Instance) (post : List Instance) (index : ℕ) (m : Stream) (t : ℕ)
        → IsPeriodOf rate streams until pre x post index m t → AreSynced streams → HasResponseAbove rate streams m
        → (k : Stream) → Contains streams k → k.id ≤ m.id → (w : ℕ)
        → starts_of k.id t w (pre ++ (x ∷ post)) ≤ div_ceil (w + jitter_at streams rate k + ticks_of rate) k.period }
    // x, which is number q of its stream there, starts by t + w, or the run ends by then
    ensures starts { (rate : Rate) (streams : List Stream) (until : ℕ) (pre : List Instance) (x : Instance) (post : List Instance) (index : ℕ) (m : Stream) (t : ℕ)
        → IsPeriodOf rate streams until pre x post index m t → AreSynced streams → HasResponseAbove rate streams m
        → (w : ℕ) → queueing_at (place_by_id streams index rate) (queued_since m.id t pre) w ≤ w → t + w < until
        → (s : ℕ) × (x.start ≡ Some s) × (s ≤ t + w) }
    // that number lies in the range of the test, if x is queued within the run: it is below a busy time and the jitter
    ensures in_range { (rate : Rate) (streams : List Stream) (until : ℕ) (pre : List Instance) (x : Instance) (post : List Instance) (index : ℕ) (m : Stream) (t : ℕ)
        → IsPeriodOf rate streams until pre x post index m t → AreSynced streams → HasResponseAbove rate streams m → x.queued ≤ until
        → (b : ℕ) → 1 ≤ b → busy_at (place_by_id streams index rate) b ≤ b
        → queued_since m.id t pre * m.period < b + jitter_at streams rate m }
{}

/// A trace breaks no rule, step by step, exactly where it is that of a legal run in which all streams obey.
pub fn clean_is_legal()
    ensures { (rate : Rate) (streams : List Stream) (until : ℕ) (steps : List Step)
        → AreDistinct streams
        → (first_broken (ticks_of rate) streams until steps ≡ None ↔ IsLegalTrace (ticks_of rate) streams until steps) }
{}

/// A trace has no late instance exactly where each instance of each stream is on time.
pub fn none_late_is_on_time()
    ensures { (rate : Rate) (streams : List Stream) (until : ℕ) (steps : List Step)
        → AreDistinct streams
        → (first_late (ticks_of rate) streams until steps ≡ None
        ↔ All (λ k. All (λ y. y.id ≡ k.id → IsOnTime (ticks_of rate) until k.deadline y) (instances steps)) streams) }
{}

/// A trace stays lawful while it grows.
pub fn grown_is_lawful()
    // steps that keep the rules keep them where more steps come behind them and the end is later
    ensures behind { (rate : Rate) (streams : List Stream) (until later : ℕ) (steps more : List Step) → until ≤ later
        → KeepTheRules (ticks_of rate) streams until steps [] → KeepTheRules (ticks_of rate) streams later steps more }
    // and where a step of another stream comes before the one that was ahead, as before the queue step of a joiner that was sent
    ensures between { (rate : Rate) (streams : List Stream) (until later : ℕ) (steps : List Step) (x ahead : Step) → until ≤ later
        → AreOfOthers x ahead → KeepTheRules (ticks_of rate) streams until steps (ahead ∷ []) → KeepTheRules (ticks_of rate) streams later steps (x ∷ ahead ∷ []) }
{}
