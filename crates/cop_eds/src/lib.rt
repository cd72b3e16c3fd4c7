//! EDS and DCF text: lines, sections and pairs, as slices of the source.
#![tactic(auto)]

mod amount;
mod bits;
mod description;
mod eds;
mod entry;
mod fault;
mod found;
mod hints;
mod index;
mod laws;
mod line;
mod lines;
mod lists;
mod marks;
mod names;
mod number;
mod objects;
mod rates;
mod sections;
mod subs;
mod text;
mod tickets;

pub use amount::{Amount, amount_of};
pub use description::{Access, Description, Object, ObjectType};
pub use eds::{Eds, parse};
pub use fault::{EdsFault, Refusal, Rule};
pub use laws::{
    first_broken_line, keys_are_distinct, lines_are_the_text, lines_follow_one_another,
    objects_are_sorted, sections_are_distinct,
};
pub use line::{Kind, Line, Place};
pub use names::code_of;
pub use number::{is_hexadecimal, number_in, number_of};
pub use text::{
    after_first, before_first, is_blank, is_comment, is_header, is_pair, key_of, name_of,
    same_name, trim, trim_start, value_of,
};
