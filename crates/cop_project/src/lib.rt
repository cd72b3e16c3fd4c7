//! A network named by one file: what the file says, and the words of the command line that it stands for.
#![tactic(auto)]

mod expanding;
mod keys;
mod lines;
mod project;
mod reading;
mod words;

pub use expanding::with_project;
pub use project::{Choice, Project, ProjectFault, Refusal, Rule};
pub use reading::read_project;
pub use words::{is_said_twice, project_word};
