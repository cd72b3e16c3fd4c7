//! What differs between two dictionaries: at which addresses the entries are not alike, and which TPDOs have another identifier.
#![tactic(auto)]

mod adding;
mod alike;
mod comparing;
mod difference;
mod identifiers;
mod laws;

pub use comparing::differences;
pub use difference::{Change, Difference};
pub use identifiers::{IdentifierChange, identifier_changes};
pub use laws::{
    differences_are_one_list, same_is_alike_everywhere, same_needs_no_boot,
    same_texts_describe_one_dictionary, unnamed_identifiers_stay,
};
