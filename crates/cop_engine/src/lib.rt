//! The engines of canplan: from the bytes of tables and files to the bytes of an answer.
#![tactic(auto)]

mod boots;
mod checks;
mod dcfs;
mod faults;
mod guarantee;
mod inputs;
mod judgements;
mod laws;
mod messages;
mod outlets;
mod plan_texts;
mod planned_networks;
mod plans;
mod reports;
mod runs;
mod seeded_runs;
mod tests_of_streams;
mod turns;

pub use boots::{boot_answer, boot_bytes, boot_of, boot_text, device_nodes, manager_of};
pub use checks::{all_hold, check_bytes, checked, checks_text};
pub use dcfs::DcfFile;
pub use faults::{Fault, status};
pub use guarantee::{dcf_round_trip, judged_on_time, planner_guarantee};
pub use inputs::read_all;
pub use judgements::{
    Judgement, judge_bytes, judge_outcome, judge_pieces, judged_bytes, none_passes,
};
pub use laws::{
    one_check, one_judgement, one_plan, one_report, one_run, plan_is_used, planned_refusals_hold,
};
pub use messages::{check_status, message, plan_status, rate_of, strict_check_status, test_status};
pub use outlets::{Outlet, deliver};
pub use planned_networks::{PlannedNetwork, planned, planned_with_files};
pub use plans::{Files, plan_bytes};
pub use runs::{outcome_of, run_bytes};
pub use seeded_runs::{RunFault, run_plan};
pub use tests_of_streams::{Tested, test_bytes, test_of};
