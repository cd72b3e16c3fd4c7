//! What holds of each log of a legal run.

ghost use Rattle.std.specs.Prelude.{ℕ, ◌≤◌, List};
ghost use Rattle.cop_bus.specs.Run.{Instance};
ghost use Rattle.cop_lines.specs.declared.entries.Entry.{Entry};
ghost use Rattle.cop_log.specs.declared.clocks.Clock.{Clock};
ghost use Rattle.cop_log.specs.declared.findings.Finding.{Finding};
ghost use Rattle.cop_log.specs.Log.{Terms, AreBounded, IsRunWith, IsEvidence, HasLog, IsKept};

/// No false accusation: where a finding is evident from a log, no legal run in which all streams obey has that log.
pub fn evidence_convicts()
    ensures { (t : Terms) (until : ℕ) (run : List Instance) (log : List Entry) (finding : Finding)
        → AreBounded t → IsRunWith t until run log → IsEvidence t log finding → ⊥ }
{}

/// The laws of logs are not empty: the ends of a run's transfers, each in the microsecond in which it ends, are a log of the run for
/// every clock whose error is a microsecond or more, whichever transfers are left out.
pub fn kept_time_is_a_log()
    ensures { (tau : ℕ) (clock : Clock) (until : ℕ) (run : List Instance) (log : List Entry)
        → 1 ≤ clock.error → IsKept tau until run log → HasLog tau clock until run log }
{}
