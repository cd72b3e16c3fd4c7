//! Values of objects as people write them, and what is read as a number.
#![tactic(auto)]

mod values;

pub use cop_dict::DataType;
pub use values::{bytes_of, number_in};
