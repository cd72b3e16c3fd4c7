//! What a maker's EDS text means: its rates, what its lists name, and its objects as each node has them; or a question that it leaves open.
#![tactic(auto)]

mod checks;
mod combining;
mod compact;
mod contents;
mod first_keys;
mod gathering;
mod items;
mod laws;
mod lists;
mod objects;
mod pdos;
mod question;
mod ranks;
mod rates;
mod reading;
mod repeats;
mod standard;
mod stated;
mod subs;
mod values;
mod words;

pub use cop_tidy_device::{Bytes, Device, DeviceObject, Value};
pub use cop_tidy_lines::{Digits, Unlisted};
pub use laws::each_object_is_described;
pub use question::{About, Question, ReadingFault};
pub use reading::loosely;
pub use words::Words;
