//! What a log of a real bus shows that is watched line by line by a plan: the frames of each identifier and how they are spread, what is
//! worth a word, and each breach with its arithmetic.
#![tactic(auto)]

mod abort_codes;
mod breaches;
mod disturbed;
mod emergency_codes;
mod heartbeats;
mod loads;
mod logbook;
mod noticed;
mod seen;
mod spread;
mod strangers;
mod watching;

pub use abort_codes::abort_words;
pub use breaches::{Breach, Broken, Nearest};
pub use emergency_codes::{Emergency, emergency_words};
pub use heartbeats::LateHeartbeat;
pub use loads::{Loads, PARTS};
pub use logbook::{BookFault, Logbook};
pub use noticed::{Counts, Notice, Notices, command_words};
pub use seen::Seen;
pub use spread::{STEPS, Spread};
pub use strangers::Stranger;
pub use watching::{Nobody, Onlooker, WatchFault, watched};
