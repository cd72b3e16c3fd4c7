//! Refusals: evidence, which anyone can check, that no assignment of identifiers passes at a rate.
#![tactic(auto)]

mod checking;
mod drafts;
mod entries;
mod faults;
mod filing;
mod items;
mod laws;
mod lines;
mod making;
mod plain;
mod reading;
mod refusals;
mod sharing;
mod shortening;
mod steps;
mod trials;
mod writing;

pub use checking::check;
pub use faults::{Breach, CertFault, Rule};
pub use filing::write_file;
pub use items::Items;
pub use laws::{
    evidence_excludes_passing, files_hold, long_sync_rules_out, made_refusals_are_writable,
    more_above_asks_no_less, refusal_sets_rule_out, refusals_rule_out, shared_refusals_are_read,
    short_refusals_hold, stuck_sets_stay_below, written_refusals_are_read,
};
pub use making::{fail_together, make, make_for_sdo, make_for_sync};
pub use reading::read;
pub use refusals::{Cause, Evidence, Member, Refusal};
pub use sharing::write_shared;
pub use shortening::shortened;
pub use trials::{is_sync_long, is_tested};
pub use writing::write;
