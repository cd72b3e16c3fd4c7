//! The report of a plan: the page that shows its numbers; and the page that shows how a boot by it ended.
#![tactic(auto)]

mod bars;
mod bus;
mod cable;
mod devices;
mod errors;
mod frames;
mod log;
mod mappings;
mod matrix;
mod misses;
mod names;
mod nearest;
mod nodes;
mod page;
mod parts;
mod pdos;
mod picture;
mod premises;
mod rates;
mod script;
mod senders;
mod sheet;
mod style;
mod title;
mod units;
mod unsorted;
mod warnings;

pub use page::{Input, Report, page_of};
pub use sheet::{Sheet, sheet_of};
pub use title::VERSION;
pub use units::{Escaped, Identifier, Left, Millis, Percent};
