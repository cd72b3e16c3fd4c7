//! The object dictionary of a device (CiA 301), as a map from index and sub to entries.
#![tactic(auto)]

mod abort;
mod blueprint;
mod building;
mod data_type;
mod description;
mod dictionary;
mod laws;
mod mapping;
mod numbers;
mod object;
mod pattern;
mod pdo;
mod search;
mod writing;

pub use abort::Abort;
pub use blueprint::{Blueprint, build};
pub use cop_eds::Access;
pub use data_type::DataType;
pub use description::Description;
pub use dictionary::Dictionary;
pub use laws::{
    accepted_by_the_entry, accepted_replaces, accepted_stays_sorted, agreeing_texts_build_the_same,
    alike_at_both_ends_is_alike, built_for_the_last_node_is_built_for_each, built_is_pointwise,
    built_is_sorted, bytes_are_their_number, entries_are_found, existing_pdos_stay,
    number_has_its_bytes, others_stay, patterns_stand_for_numbers, refused_early_is_refused,
    resets_are_pointwise, resets_give_what_was_built, value_is_replaced, values_fit_their_types,
};
pub use mapping::{Direction, Mapped, MappingFault};
pub use numbers::number;
pub use object::Object;
pub use pattern::pattern_of;
