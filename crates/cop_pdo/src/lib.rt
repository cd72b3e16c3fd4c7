//! PDOs of a device: which objects they move, as which bits, and their COB-IDs.
#![tactic(auto)]

mod cob_id;
mod faults;
mod laws;
mod layout;
mod mapping;
mod moving;
mod reading;

pub use cob_id::{exists, off, on};
pub use cop_dict::{Direction, Mapped, MappingFault};
pub use faults::refusal_number;
pub use laws::{cob_ids_are_switched, objects_stay, unpacking_restores, what_is_sent_is_received};
pub use layout::same_layout;
pub use mapping::Mapping;
pub use moving::{Short, pack, unpack};
pub use reading::payload;
