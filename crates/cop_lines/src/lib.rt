//! The lines of logs of a bus, in the forms in which programs write them.
#![tactic(auto)]

mod columns;
mod cutter;
mod entries;
mod faults;
mod forms;
mod laws;
mod lines;
mod numbers;
mod peak;
mod reader;
mod vector;
mod words;

pub use cutter::{CutFault, LineCutter};
pub use entries::{Content, Entry, Message};
pub use faults::LineFault;
pub use forms::{Form, Layout};
pub use laws::pieces_give_the_lines_of_the_whole;
pub use lines::line_in;
pub use numbers::Base;
pub use reader::LineReader;
pub use words::{back, front};
