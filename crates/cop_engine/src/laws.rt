//! What holds of every run of the program.

ghost use Rattle.std.specs.Prelude.{◌≡◌, ℕ, Bool, true, List};
ghost use Rattle.cop_frame.specs.declared.rates.Rate.{Rate};
ghost use Rattle.cop_net.specs.Devices.{File};
ghost use Rattle.cop_engine.specs.declared.plans.Files.{Files};
ghost use Rattle.cop_engine.specs.Tests.{IsReport};
ghost use Rattle.cop_engine.specs.Plans.{AreFilesOf};
ghost use Rattle.cop_engine.specs.Checks.{IsCheckOf, ExplainsCheck};
ghost use Rattle.cop_plan.specs.declared.assigning.Outcome.{Outcome};
ghost use Rattle.cop_plan.specs.declared.choices.Asked.{Asked};
ghost use Rattle.cop_engine.specs.Networks.{IsPlannedNetwork};
ghost use Rattle.cop_engine.specs.Judgements.{IsJudgement};
ghost use Rattle.cop_engine.specs.Runs.{IsNetworkRun};
ghost use Rattle.cop_engine.specs.Boots.{IsBootOf};
ghost use Rattle.cop_engine.specs.declared.faults.Fault.{Fault};
ghost use Rattle.cop_engine.specs.declared.faults.Fault.TheVariants as faults;

use cop_plan::{one_outcome, planned_streams_are_distinct};
use cop_sim::play_is_one;

/// The bytes of a table and a rate have one report.
pub fn one_report()
    ensures { (rate : Rate) (text a b : List ℕ) (c d : Bool) → IsReport rate text a c → IsReport rate text b d → (a ≡ b) × (c ≡ d) }
{}

/// The bytes of tables and EDS files, the rates that are wanted and the choice of identifiers have one plan: its files are a function of them.
pub fn one_plan()
    ensures { (asked : Asked) (nodes pdos : List ℕ) (eds : List File) (a b : Files) → AreFilesOf asked nodes pdos eds a
        → AreFilesOf asked nodes pdos eds b → (a.planned ≡ b.planned) × (a.plan.items ≡ b.plan.items) × (a.refusals.items ≡ b.refusals.items) × (a.dcf ≡ b.dcf) }
{
    one_outcome();
}

/// It is one plan that [`plan_bytes`](crate::plan_bytes) gives and by which [`judge_bytes`](crate::judge_bytes) judges a
/// trace, [`run_bytes`](crate::run_bytes) runs the network, and [`boot_bytes`](crate::boot_bytes) boots it.
pub fn plan_is_used()
    ensures network { (asked : Asked) (nodes pdos : List ℕ) (eds : List File) (files : Files) (outcome : Outcome)
        → (f : AreFilesOf asked nodes pdos eds files) → IsPlannedNetwork asked nodes pdos eds outcome → outcome ≡ f.outcome }
    ensures boot { (asked : Asked) (seed : ℕ) (nodes pdos : List ℕ) (eds : List File) (files : Files) (text : List ℕ)
        → (f : AreFilesOf asked nodes pdos eds files) → (b : IsBootOf asked seed nodes pdos eds text) → b.outcome ≡ f.outcome }
{
    one_outcome();
}

/// The bytes of tables, EDS files and a trace have one judgement.
pub fn one_judgement()
    ensures { (asked : Asked) (nodes pdos : List ℕ) (eds : List File) (trace text other : List ℕ) → IsJudgement asked nodes pdos eds trace text
        → IsJudgement asked nodes pdos eds trace other → text ≡ other }
{
    one_outcome();
}

/// The bytes of tables and EDS files, a seed and a moment have one run.
pub fn one_run()
    ensures { (asked : Asked) (nodes pdos : List ℕ) (eds : List File) (seed until : ℕ) (text trace other another : List ℕ)
        → IsNetworkRun asked nodes pdos eds seed until text trace → IsNetworkRun asked nodes pdos eds seed until other another → (text ≡ other) × (trace ≡ another) }
{
    one_outcome();
    planned_streams_are_distinct();
    play_is_one();
}

/// The bytes of tables, EDS files and a refusal file have one check.
pub fn one_check()
    ensures { (wanted : List Rate) (nodes pdos : List ℕ) (eds : List File) (text : List ℕ) (lines others : List ℕ) (all each : Bool)
        → IsCheckOf wanted nodes pdos eds text lines all → IsCheckOf wanted nodes pdos eds text others each → (lines ≡ others) × (all ≡ each) }
{}

/// Every refusal that a plan writes holds: [`check_bytes`](crate::check_bytes) of the refusal file that
/// [`plan_bytes`](crate::plan_bytes) gives, against the same tables and EDS files, says so of each, and nothing but want
/// of memory keeps it from that.
pub fn planned_refusals_hold()
    ensures holds { (asked : Asked) (nodes pdos : List ℕ) (eds : List File) (files : Files) (lines : List ℕ) (all : Bool)
        → AreFilesOf asked nodes pdos eds files → IsCheckOf asked.rates nodes pdos eds files.refusals.items lines all → all ≡ true }
    ensures read { (asked : Asked) (nodes pdos : List ℕ) (eds : List File) (files : Files) (fault : Fault) → AreFilesOf asked nodes pdos eds files
        → ExplainsCheck asked.rates nodes pdos eds files.refusals.items fault → fault ≡ faults.Memory }
{}
