//! What holds of refusals, whatever the streams are.

ghost use Rattle.std.specs.Prelude.{◌≡◌, ℕ, ◌<◌, ◌≤◌, true, Bool, List, length, Ok, All, map};
ghost use Rattle.cop_frame.specs.declared.rates.Rate.{Rate};
ghost use Rattle.cop_rta.specs.declared.streams.Stream.{Stream};
ghost use Rattle.cop_rta.specs.Ranges.{first_range};
ghost use Rattle.cop_rta.specs.Test.{Passes, StreamPlace};
ghost use Rattle.cop_cert.specs.declared.refusals.Evidence.{Evidence};
ghost use Rattle.cop_cert.specs.declared.refusals.Refusal.{Refusal};
ghost use Rattle.cop_cert.specs.Assignments.{AllPass, IsAssignment, NoAssignmentPasses, place_under};
ghost use Rattle.cop_cert.specs.Causes.{IsSyncLong, IsRefusal};
ghost use Rattle.cop_cert.specs.Chains.{IsMade};
ghost use Rattle.cop_cert.specs.Evidence.{IsEvidence};
ghost use Rattle.cop_cert.specs.Format.{shared_text_of, text_of};
ghost use Rattle.cop_cert.specs.Reading.{refusals_of};
ghost use Rattle.cop_cert.specs.Short.{filed, file_of, shortened};
ghost use Rattle.cop_cert.specs.Sets.{IsStuckSet, IsRefusalSet};
ghost use Rattle.cop_cert.specs.Writable.{IsWritableRefusal, AreWritable};

pub use cop_rta::more_above_asks_no_less;

/// Where some PDOs, one at least, each fail with the rest of them and the fixed frames below 181h above it, no assignment passes.
pub fn refusal_sets_rule_out()
    ensures { (rate : Rate) (streams : List Stream) (pdos : ℕ) (members : ℕ → Bool) → pdos ≤ length streams
        → IsRefusalSet first_range.least rate streams pdos members → NoAssignmentPasses rate streams pdos }
{}

/// Where some PDOs each fail with the rest of them and the fixed frames below a bound above it, each of them has an identifier below
/// that bound wherever distinct identifiers pass.
pub fn stuck_sets_stay_below()
    ensures { (bound : ℕ) (rate : Rate) (streams : List Stream) (pdos : ℕ) (members : ℕ → Bool) (ids : ℕ → ℕ) → pdos ≤ length streams
        → IsStuckSet bound rate streams pdos members → ((p r : ℕ) → p < pdos → r < pdos → ids p ≡ ids r → p ≡ r) → AllPass rate streams pdos ids
        → (p : ℕ) → p < pdos → members p ≡ true → ids p < bound }
{}

/// Where SYNC's busy time is past the horizon, no PDO passes under any assignment. So no assignment passes where one PDO is synchronous.
pub fn long_sync_rules_out()
    ensures { (rate : Rate) (streams : List Stream) (pdos : ℕ) → pdos ≤ length streams → IsSyncLong rate streams pdos → (ids : ℕ → ℕ) → IsAssignment pdos ids
        → (p : ℕ) → p < pdos → Passes (place_under rate streams pdos ids p) → ⊥ }
{}

/// Evidence that a stream fails and that it passes exclude one another.
pub fn evidence_excludes_passing()
    ensures { (p : StreamPlace) (evidence : Evidence) → IsEvidence p evidence → Passes p → ⊥ }
{}

/// Where a refusal holds, no assignment of identifiers passes at its rate: this is what a check that says so means.
pub fn refusals_rule_out()
    ensures { (streams : List Stream) (pdos : ℕ) (r : Refusal) → pdos ≤ length streams
        → IsRefusal streams pdos r → NoAssignmentPasses r.rate streams pdos }
{}

/// A refusal of at most 512 PDOs with whole chains, as [`make`](crate::make) and its like give it, is one that a file holds.
pub fn made_refusals_are_writable()
    ensures { (streams : List Stream) (pdos : ℕ) (r : Refusal) → pdos ≤ length streams → pdos ≤ 512 → IsRefusal streams pdos r
        → IsMade streams pdos r → IsWritableRefusal r }
{}

/// Refusals that a file holds are read from the text that is written of them.
pub fn written_refusals_are_read()
    ensures { (refusals : List Refusal) → AreWritable refusals → refusals_of (text_of refusals) ≡ Ok refusals }
{}

/// They are also read from the text of the third version.
pub fn shared_refusals_are_read()
    ensures { (refusals : List Refusal) → AreWritable refusals → refusals_of (shared_text_of refusals) ≡ Ok refusals }
{}

/// The short form of a refusal that holds holds.
pub fn short_refusals_hold()
    ensures { (streams : List Stream) (pdos : ℕ) (r : Refusal) → IsRefusal streams pdos r → IsRefusal streams pdos (shortened streams pdos r) }
{}

/// The file of refusals that it can hold, and that hold, is read as refusals of the same rates that hold.
pub fn files_hold()
    ensures read { (streams : List Stream) (pdos : ℕ) (refusals : List Refusal) → AreWritable refusals → refusals_of (file_of streams pdos refusals) ≡ Ok (filed streams pdos refusals) }
    ensures hold { (streams : List Stream) (pdos : ℕ) (refusals : List Refusal) → All (IsRefusal streams pdos) refusals → All (IsRefusal streams pdos) (filed streams pdos refusals) }
    ensures rates { (streams : List Stream) (pdos : ℕ) (refusals : List Refusal) → map (λ r. r.rate) (filed streams pdos refusals) ≡ map (λ r. r.rate) refusals }
{}
