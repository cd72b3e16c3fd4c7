//! What holds of plans, whatever the streams are.

ghost use Rattle.std.specs.Prelude.{◌≡◌, ◌<◌, ◌≤◌, ◌↔◌, ℕ, Bool, true, false, Some, nat_lt, nat_le, if◌then◌else◌, List, [], length};
ghost use Rattle.cop_frame.specs.declared.rates.Rate.{Rate};
ghost use Rattle.cop_rta.specs.declared.streams.Stream.{Stream};
ghost use Rattle.cop_cert.specs.declared.refusals.Refusal.{Refusal};
ghost use Rattle.cop_rta.specs.Ranges.{first_range, second_range};
ghost use Rattle.cop_rta.specs.Streams.{AreDistinct};
ghost use Rattle.cop_cert.specs.Assignments.{AreOutside, IsTested, IsAssignment, IsPassing, NoAssignmentPasses};
ghost use Rattle.cop_cert.specs.Causes.{kept, PassesBelow};
ghost use Rattle.cop_cert.specs.Sets.{IsStuckSet, IsGreatestStuckSet};
ghost use Rattle.cop_cert.specs.Writable.{AreWritable};
ghost use Rattle.cop_rta.specs.Test.{place_by_id};
ghost use Rattle.cop_net.specs.Network.{Net, IsNetwork};
ghost use Rattle.cop_plan.specs.Caps.{deadline_of, cap_of};
ghost use Rattle.cop_plan.specs.Margins.{AreLoweredBy, has_deadline, Leaves};
ghost use Rattle.cop_plan.specs.declared.choices.Kept.{Kept};
ghost use Rattle.cop_plan.specs.Orders.{HasPdos, FramesPass, IsPlanOrder};
ghost use Rattle.cop_plan.specs.Plans.{IsOutcome, IsPlan, IsChosenBy, AreAllRefused};
ghost use Rattle.cop_plan.specs.declared.choices.Choice.{Choice};
ghost use Rattle.cop_plan.specs.Fillings.{PassInTurn, AreSplit, IsFilled, ids_in_ranges};
ghost use Rattle.cop_plan.specs.Values.{PlanValue, HaveIds, ArePdosHigh, AreOnTime};
ghost use Rattle.cop_plan.specs.declared.assigning.Outcome.{Outcome};

/// No set of streams has two orders.
pub fn order_is_unique()
    ensures { (rate : Rate) (streams : List Stream) (pdos : ℕ) (ids others : ℕ → ℕ) → HasPdos streams pdos → IsPlanOrder rate streams pdos ids
        → IsPlanOrder rate streams pdos others → (p : ℕ) → p < pdos → ids p ≡ others p }
{}

/// Some streams and candidate rates have one outcome of each kind: by the order of plans, and by the greatest margin.
pub fn one_outcome()
    ensures { (rates : List Rate) (streams : List Stream) (pdos : ℕ) (choice : Choice) (a b : Outcome) → HasPdos streams pdos → IsOutcome rates streams pdos a → IsOutcome rates streams pdos b
        → IsChosenBy choice a → IsChosenBy choice b → a ≡ b }
{}

/// No two streams of a plan have one identifier.
pub fn planned_streams_are_distinct()
    ensures { (rates : List Rate) (streams : List Stream) (pdos : ℕ) (plan : PlanValue) → HasPdos streams pdos → IsPlan rates streams pdos plan → AreDistinct plan.streams }
{}

/// What it means that no assignment passes: under whatever identifiers that are permitted, streams that have them are not all on time. It is
/// said of PDOs whose identifiers before are 181h or above, so that SYNC, of which a synchronous stream's jitter has the response, stands
/// above them before and after.
pub fn no_assignment_is_on_time()
    ensures { (rate : Rate) (streams renamed : List Stream) (pdos : ℕ) (ids : ℕ → ℕ) → pdos ≤ length streams → ArePdosHigh streams pdos
        → NoAssignmentPasses rate streams pdos → IsAssignment pdos ids → HaveIds streams pdos ids renamed → AreOnTime rate renamed pdos → ⊥ }
{}

/// Where places of a range are filled, each by a PDO that passes there with those that have none yet above it, those left at the end,
/// none of which passes, are the greatest set of that kind, whatever the choices were.
pub fn fillings_leave_the_greatest()
    ensures { (bound : ℕ) (rate : Rate) (streams : List Stream) (pdos : ℕ) (start left : ℕ → Bool) (placed : List ℕ) → pdos ≤ length streams
        → AreSplit pdos start placed left → PassInTurn bound rate streams pdos left placed → IsStuckSet bound rate streams pdos left
        → IsGreatestStuckSet bound rate streams pdos start left }
{}

/// Some assignment passes over both ranges exactly where the first holds all PDOs, and each SDO frame with a deadline passes below those
/// that are left when the second was filled, or below all PDOs where the second has no room for all.
pub fn some_assignment_passes_exactly()
    ensures { (rate : Rate) (streams : List Stream) (pdos : ℕ) (first second third : List ℕ) (stuck top left : ℕ → Bool) → pdos ≤ length streams → pdos ≤ first_range.count
        → AreOutside first_range streams pdos → AreOutside second_range streams pdos
        → IsFilled first_range.least rate streams pdos (λ k. nat_lt k pdos) first stuck
        → (pdos ≤ second_range.count → IsFilled second_range.least rate streams pdos (λ k. nat_lt k pdos) second top)
        → IsFilled first_range.least rate streams pdos (kept pdos top) third left
        → ((ids : ℕ → ℕ) × IsPassing rate streams pdos ids)
        ↔ (((k : ℕ) → k < pdos → stuck k ≡ false) × ((f : ℕ) → IsTested streams pdos f → PassesBelow rate streams pdos (kept pdos top) f)) }
{}

/// What the fillings give is the order over both ranges: by the first alone where each SDO frame with a deadline passes below all PDOs, else
/// by the second and by the first again.
pub fn fillings_give_the_order()
    ensures alone { (rate : Rate) (streams : List Stream) (pdos : ℕ) (first : List ℕ) (stuck : ℕ → Bool) → pdos ≤ length streams → pdos ≤ first_range.count
        → AreOutside first_range streams pdos → AreOutside second_range streams pdos
        → IsFilled first_range.least rate streams pdos (λ k. nat_lt k pdos) first stuck → ((k : ℕ) → k < pdos → stuck k ≡ false)
        → FramesPass rate streams pdos (λ k. nat_lt k pdos) → IsPlanOrder rate streams pdos (ids_in_ranges [] first) }
    ensures both { (rate : Rate) (streams : List Stream) (pdos : ℕ) (first second third : List ℕ) (stuck top left : ℕ → Bool) → pdos ≤ length streams → pdos ≤ first_range.count
        → AreOutside first_range streams pdos → AreOutside second_range streams pdos
        → IsFilled first_range.least rate streams pdos (λ k. nat_lt k pdos) first stuck → ((k : ℕ) → k < pdos → stuck k ≡ false)
        → (pdos ≤ second_range.count → IsFilled second_range.least rate streams pdos (λ k. nat_lt k pdos) second top)
        → IsFilled first_range.least rate streams pdos (kept pdos top) third left
        → (FramesPass rate streams pdos (λ k. nat_lt k pdos) → ⊥) → FramesPass rate streams pdos (kept pdos top)
        → IsPlanOrder rate streams pdos (ids_in_ranges (if nat_le pdos second_range.count then second else []) third) }
{}

/// The refusals of at most 512 PDOs that an outcome carries are refusals that a file holds.
pub fn refusals_are_writable()
    ensures plan { (rates : List Rate) (streams : List Stream) (pdos : ℕ) (plan : PlanValue) → pdos ≤ length streams → pdos ≤ 512
        → IsPlan rates streams pdos plan → AreWritable plan.refusals }
    ensures none { (rates : List Rate) (streams : List Stream) (pdos : ℕ) (refusals : List Refusal) → pdos ≤ length streams → pdos ≤ 512
        → AreAllRefused rates streams pdos refusals → AreWritable refusals }
{}

/// A cap costs nobody anything: whatever deadlines are lowered by, no assignment passes where one is lowered by more than its stream's cap.
pub fn no_assignment_leaves_more_than_a_cap()
    ensures { (amount : ℕ → ℕ) (rate : Rate) (streams lowered : List Stream) (pdos : ℕ) (ids : ℕ → ℕ) (k d : ℕ)
        → AreLoweredBy amount streams lowered → IsPassing rate lowered pdos ids → deadline_of streams k ≡ Some d → amount k ≤ cap_of rate streams pdos k }
{}

/// Of a network's plan by the greatest margin, some PDO or SDO frame has exactly the margin of all left: its greatest response is so many
/// ticks before its deadline.
pub fn one_keeps_no_more_than_the_margin()
    ensures { (n : Net) (rates : List Rate) (plan : PlanValue) (kept : Kept) → IsNetwork n → IsPlan rates n.set (length n.rows) plan → plan.margin ≡ Some kept → has_deadline n.set ≡ true
        → (k : ℕ) × (k < length plan.streams) × Leaves (place_by_id plan.streams k plan.rate) kept.all }
{}
