//! Fields of a record.

ghost use Rattle.std.specs.Prelude.{◌≡◌, ◌≤◌, ◌<◌, [], ◌∷◌, ◌==◌, IfOk, IfSome, MatchOption, length};
ghost use Rattle.std.specs.List.{position};
ghost use Rattle.cop_rows.specs.Fields.{number_within, parts};

use crate::names::Name;
use crate::refusals::{Column, Rule};
use cop_table::number;
use std::alloc::Global;

/// The number of a column's field of 1 to 10 decimal digits, in a range.
pub(crate) fn number_within(
    column: Column,
    least: u64,
    most: u64,
    field: &[u8],
) -> Result<u64, Rule>
    ensures value { result ≡ number_within column least most field.now }
    ensures range { IfOk result (λ n. (least ≤ n) × (n ≤ most)) }
{
    match number(10, field) {
        Some(n) => {
            if n >= least && n <= most {
                Ok(n)
            } else {
                Err(Rule::Value(column))
            }
        }
        None => Err(Rule::Value(column)),
    }
}

/// Where a byte stands first.
fn place_of(text: &[u8], byte: u8) -> Option<usize>
    ensures place { result ≡ position (λ b. b == byte) text.now }
    ensures within { IfSome result (λ place. place < length text.now) }
{
    text.iter().position(|b| *b == byte)
}

#[tactic(auto, using(crate::proofs::PartLemmas::parts_whole, crate::proofs::PartLemmas::parts_cut))]
/// The part of a text before the first of a byte, and what stands after that byte, if it is there.
pub(crate) fn cut(text: &[u8], byte: u8) -> (&[u8], Option<&[u8]>)
    ensures { MatchOption result.1 (parts byte text.now ≡ result.0.now ∷ [])
        (λ rest. (parts byte text.now ≡ result.0.now ∷ parts byte rest.now) × (length rest.now < length text.now)) }
{
    match place_of(text, byte) {
        Some(place) => (&text[..place], Some(&text[place + 1..])),
        None => (text, None),
    }
}
