//! What holds of each run of the bus in which transfers are disturbed.

ghost use Rattle.std.specs.Prelude.{◌≡◌, ℕ, ◌+◌, ◌*◌, ◌≤◌, ◌<◌, ◌↔◌, All, AllPairs, List, [], ◌∷◌, Option, Some, slice_get, Contains};
ghost use Rattle.std.specs.Int.{div_ceil};
ghost use Rattle.std.specs.Option.{ForSome};
ghost use Rattle.cop_frame.specs.declared.rates.Rate.{Rate};
ghost use Rattle.cop_frame.specs.declared.rates.Rate.TheVariants.{Kbit250};
ghost use Rattle.cop_frame.specs.Rate.{ticks_of};
ghost use Rattle.cop_rta.specs.declared.streams.Stream.{Stream};
ghost use Rattle.cop_rta.specs.Greatest.{AreSynced};
ghost use Rattle.cop_bus.specs.Run.{Instance, IsLegal, IsKnown, IsObeying, PassesById, IsOnTime, waiting};
ghost use Rattle.cop_rta.specs.declared.errors.Errors.{Errors};
ghost use Rattle.cop_errors.specs.Errors.{Disturbance, AreRare, IsDisturbed};
ghost use Rattle.cop_rta.specs.Errors.{HasNoOne, up, errors_stream, tested, errors_of};
ghost use Rattle.cop_errors.specs.Extended.{extended, extended_by, IsRunThrough};
ghost use Rattle.cop_rta.specs.Streams.{AreDistinct};
ghost use Rattle.cop_errors.specs.Example.{one_pdo, each_ten, one_hit, one_instance};

/// A run with disturbances is a legal run of one more stream.
pub fn disturbed_is_legal()
    ensures { (tau : ℕ) (e : Errors) (streams : List Stream) (until : ℕ) (run : List Instance) (hits : List Disturbance) (events : List ℕ)
        → 1 ≤ tau → HasNoOne streams → IsDisturbed tau streams until run hits
        → IsLegal tau (tested (Some e) streams) until (extended run hits events) }
{}

/// Where disturbances are rare the errors' stream obeys.
pub fn rare_obeys()
    ensures { (tau until : ℕ) (e : Errors) (run : List Instance) (hits : List Disturbance) (events : List ℕ)
        → AreRare e.period e.jitter events hits → AllPairs (λ g h. g.start < h.start) hits
        → IsObeying tau until (extended run hits events) (errors_stream e) }
{}

/// The other streams obey in it as they did.
pub fn obeys_still()
    ensures { (tau until : ℕ) (streams : List Stream) (run : List Instance) (hits : List Disturbance) (events : List ℕ) (k : Stream)
        → HasNoOne streams → All (IsKnown streams) run → Contains streams k
        → IsObeying tau until run k → IsObeying tau until (extended run hits events) (up k) }
{}

/// The response-time test is sound through errors: in each run with disturbances that are rare, in which the stream and those above it
/// obey, each instance of a stream that passes with the errors above it is on time.
pub fn on_time_through_errors()
    ensures { (rate : Rate) (e : Errors) (streams : List Stream) (until : ℕ) (run : List Instance) (hits : List Disturbance) (events : List ℕ) (index : ℕ) (m : Stream)
        → slice_get streams index ≡ Some m → HasNoOne streams
        → IsDisturbed (ticks_of rate) streams until run hits → AreRare e.period e.jitter events hits
        → All (λ k. k.id ≤ m.id → IsObeying (ticks_of rate) until run k) streams
        → AreSynced streams → PassesById rate (tested (Some e) streams) index
        → All (λ y. y.id ≡ m.id → IsOnTime (ticks_of rate) until m.deadline y) run }
{}

/// Each instance of such a stream that starts by the run's end ends in time, also where its deadline falls after the run.
pub fn started_on_time_through_errors()
    ensures { (rate : Rate) (e : Errors) (streams : List Stream) (until : ℕ) (run : List Instance) (hits : List Disturbance) (events : List ℕ) (index : ℕ) (m : Stream)
        → slice_get streams index ≡ Some m → HasNoOne streams
        → IsDisturbed (ticks_of rate) streams until run hits → AreRare e.period e.jitter events hits
        → All (λ k. k.id ≤ m.id → IsObeying (ticks_of rate) until run k) streams
        → AreSynced streams → PassesById rate (tested (Some e) streams) index
        → All (λ y. y.id ≡ m.id → ForSome m.deadline (λ d. ForSome y.start (λ s. s ≤ until → s + y.bits * ticks_of rate ≤ y.event + d))) run }
{}

/// At no moment of such a run do more instances of the stream wait than periods begin within its deadline.
pub fn few_wait_through_errors()
    ensures { (rate : Rate) (e : Errors) (streams : List Stream) (until : ℕ) (run : List Instance) (hits : List Disturbance) (events : List ℕ) (index : ℕ) (m : Stream)
        → slice_get streams index ≡ Some m → HasNoOne streams
        → IsDisturbed (ticks_of rate) streams until run hits → AreRare e.period e.jitter events hits
        → All (λ k. k.id ≤ m.id → IsObeying (ticks_of rate) until run k) streams
        → AreSynced streams → PassesById rate (tested (Some e) streams) index
        → ForSome m.deadline (λ d. (x : ℕ) → x ≤ until → waiting m.id x run ≤ div_ceil d m.period) }
{}

/// With no disturbance these are the legal runs.
pub fn undisturbed_is_legal()
    ensures { (tau : ℕ) (streams : List Stream) (until : ℕ) (run : List Instance)
        → (IsDisturbed tau streams until run [] ↔ IsLegal tau streams until run) }
{}

/// Of any n + 1 disturbances in a row the last starts at least n periods less the jitter after the first.
pub fn rare_windows()
    ensures { (T J : ℕ) (events : List ℕ) (hits : List Disturbance) → AreRare T J events hits
        → (i n : ℕ) (g h : Disturbance) → slice_get hits i ≡ Some g → slice_get hits (i + n) ≡ Some h
        → g.start + n * T ≤ h.start + J }
{}

/// Starts that are so far apart are those of rare disturbances, if none is nearer to the beginning than the jitter.
pub fn spaced_are_rare()
    ensures { (T J : ℕ) (hits : List Disturbance) → All (λ h. J ≤ h.start) hits
        → ((i n : ℕ) (g h : Disturbance) → slice_get hits i ≡ Some g → slice_get hits (i + n) ≡ Some h → g.start + n * T ≤ h.start + J)
        → (events : List ℕ) × AreRare T J events hits }
{}

/// There is a run with a rare disturbance in which an instance of a stream that passes ends just at its deadline.
pub fn an_error_is_met()
    ensures disturbed { IsDisturbed 16 (one_pdo ∷ []) 5000 (one_instance ∷ []) (one_hit ∷ []) }
    ensures rare { AreRare 40000 0 (0 ∷ []) (one_hit ∷ []) }
    ensures passes { PassesById Kbit250 (tested (Some each_ten) (one_pdo ∷ [])) 0 }
    ensures ends { one_instance.start ≡ Some 2656 }
    ensures at_the_deadline { 2656 + one_instance.bits * 16 ≡ one_instance.event + 4816 }
{}

/// A run of the bus through disturbances that are as rare as a tested set says is a legal run of the whole set, in which all of it obeys.
pub fn runs_through_errors()
    ensures legal { (rate : Rate) (streams : List Stream) (until : ℕ) (run : List Instance) (hits : List Disturbance) (events : List ℕ) → AreDistinct streams
        → IsRunThrough rate streams until run hits events → IsLegal (ticks_of rate) streams until (extended_by (errors_of streams) run hits events) }
    ensures obeying { (rate : Rate) (streams : List Stream) (until : ℕ) (run : List Instance) (hits : List Disturbance) (events : List ℕ) → AreDistinct streams
        → IsRunThrough rate streams until run hits events → All (IsObeying (ticks_of rate) until (extended_by (errors_of streams) run hits events)) streams }
{}

/// What is on time in that run of the whole set is on time in the run of the bus.
pub fn kept_through_errors()
    ensures { (errors : Option Stream) (tau until : ℕ) (run : List Instance) (hits : List Disturbance) (events : List ℕ) (id : ℕ) (deadline : Option ℕ) → 2 ≤ id
        → All (λ y. y.id ≡ id → IsOnTime tau until deadline y) (extended_by errors run hits events) → All (λ y. y.id ≡ id → IsOnTime tau until deadline y) run }
{}
