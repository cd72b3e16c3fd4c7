//! Answers as documents in JSON, for programs that read them.
#![tactic(auto)]

mod answers;
mod faults;
mod logs;
mod objects;
mod plans;
mod rooms;
mod standings;
mod transfers;
mod values;
mod warnings;

pub use answers::{
    AtPort, FoundNode, boot_document, check_document, judge_document, scan_document, test_document,
    verify_document,
};
pub use faults::{Told, fault_document};
pub use logs::watch_document;
pub use objects::{Object, text_of};
pub use plans::{PlanNumbers, plan_document};
pub use rooms::{anew_document, no_room_document, room_document};
pub use standings::{Uncounted, standing_document};
pub use transfers::{Meaning, Transfer, TransferEnd, transfer_document};
pub use warnings::Warned;
