//! Who is on a bus: nodes are asked over an adapter that speaks slcan for the type of their devices and who made them, whether their machine
//! runs or not. Nothing is written to them.
#![tactic(auto)]

mod laws;
mod scanning;

pub use cop_survey::Reason;
pub use laws::scans_read_alone;
pub use scanning::{Found, Scanned, scan};
