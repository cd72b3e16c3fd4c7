//! What the plan of a network guarantees.

ghost use Rattle.std.specs.Prelude.{ℕ, List};
ghost use Rattle.cop_net.specs.Devices.{File};
ghost use Rattle.cop_plan.specs.declared.choices.Asked.{Asked};
ghost use Rattle.cop_engine.specs.declared.plans.Files.{Files};
ghost use Rattle.cop_engine.specs.Dcfs.{AreReadAgain};
ghost use Rattle.cop_engine.specs.Plans.{AreFilesOf};
ghost use Rattle.cop_engine.specs.Guarantee.{IsGuaranteed, ArePrinted};
ghost use Rattle.cop_engine.specs.Judgements.{IsJudgement, SaysOnTime};

/// The planner's guarantee. Of the files of [`plan_bytes`](crate::plan_bytes): the plan uses the slowest of the rates wanted
/// that all devices support and at which some assignment of permitted identifiers passes the response-time test; it passes
/// that test; each slower one of those that all devices support carries a refusal that holds, which rules out every
/// assignment there; and in every error-free run of the bus in which all streams obey their periods, jitters and lengths, each PDO and each SDO frame
/// that has a deadline ends its transfer within it. That of a PDO that is sent by SYNC counts from SYNC's event, and the
/// stream of such a PDO has as many times SYNC's period as the transmission type of its device says. Each transfer of a PDO takes at most the
/// response that the plan's text has for it, which is within the deadline.
pub fn planner_guarantee()
    ensures guaranteed { (asked : Asked) (nodes pdos : List ℕ) (eds : List File) (files : Files) → (f : AreFilesOf asked nodes pdos eds files) → IsGuaranteed f.network.net f.outcome }
    ensures printed { (asked : Asked) (nodes pdos : List ℕ) (eds : List File) (files : Files) → (f : AreFilesOf asked nodes pdos eds files)
        → ArePrinted f.network.net f.outcome f.written.verdicts }
{}

/// By it the judgement of a trace ([`judge_bytes`](crate::judge_bytes)) never says that an instance is late.
pub fn judged_on_time()
    ensures { (asked : Asked) (nodes pdos : List ℕ) (eds : List File) (trace text : List ℕ) → (j : IsJudgement asked nodes pdos eds trace text) → SaysOnTime j.outcome trace text }
{}

/// Each DCF file of [`plan_bytes`](crate::plan_bytes) that is not longer than an EDS text may be is read again as what is
/// planned: it is accepted, and the dictionary that it describes for its node is that of the device with the last value of
/// each of the node's settings.
pub fn dcf_round_trip()
    ensures { (asked : Asked) (nodes pdos : List ℕ) (eds : List File) (files : Files) → (f : AreFilesOf asked nodes pdos eds files)
        → AreReadAgain eds f.network.net f.outcome }
{}
