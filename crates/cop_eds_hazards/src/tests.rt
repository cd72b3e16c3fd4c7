//! The first line that passes a test.

ghost use Rattle.std.specs.Prelude.{◌≡◌, ◌+◌, ◌<◌, ◌≤◌, ◌/◌, ◌%◌, IfOk, length};
ghost use Rattle.cop_eds.specs.Lines.{IsInside};
ghost use Rattle.cop_eds_hazards.specs.Listed.{AreListed};
ghost use Rattle.cop_eds_hazards.specs.Hazards.{hex_digit, section_name, is_there, is_above, is_beyond, passes, first_line};

use crate::brackets::is_unseen;
use crate::records::{is_unidentified, is_unlisted};
use crate::stated::ok_number;
use crate::text::text_of;
use cop_eds::{Eds, Kind, Line, key_of, number_in, value_of};
use std::alloc::{AllocError, Global};
use std::collections::BTreeSet;

/// What a line is tested for.
#[derive(Clone, Copy)]
pub enum Test {
    /// A section of an object by which a device does something on the bus, which no list names.
    Unlisted,
    /// A record without an identifier.
    Unidentified,
    /// An entry of the list in this section behind its number of entries.
    Beyond(usize, u64),
    /// A section or a key that nothing reads.
    Unseen,
}

fn hex_digit(number: u64) -> u8
    requires { number < 16 }
    ensures { result ≡ hex_digit number }
{
    let digit = number as u8;
    if digit < 10 { 48 + digit } else { 55 + digit }
}

/// The name of an object's section.
fn section_name(index: u64) -> [u8; 4]
    requires { index ≤ 65535 }
    ensures { result ≡ section_name index }
{
    [
        hex_digit(index / 4096),
        hex_digit(index / 256 % 16),
        hex_digit(index / 16 % 16),
        hex_digit(index % 16),
    ]
}

/// Whether the section of an object with this index is there.
fn is_there(eds: &Eds<'_>, index: Option<u64>) -> bool
    ensures { result ≡ is_there eds.now index }
{
    match index {
        Some(index) => index <= 65535 && eds.place(&section_name(index)).is_some(),
        None => false,
    }
}

pub fn is_above(count: u64, number: Option<u64>) -> bool
    ensures { result ≡ is_above count number }
{
    match number {
        Some(number) => count < number,
        None => false,
    }
}

/// Whether a line is an entry of a list behind its number of entries, and names a section that is there.
#[tactic(auto, unfolding(crate::specs::Hazards::is_beyond))]
fn is_beyond(eds: &Eds<'_>, section: usize, count: u64, line: &Line) -> bool
    requires { IsInside (length eds.now) line.now }
    ensures { result ≡ is_beyond eds.now section count line.now }
{
    if !matches!(line.kind, Kind::Pair) || line.section as usize != section {
        return false;
    }
    let text = text_of(eds, line);
    is_above(count, number_in(10, key_of(text))) && is_there(eds, ok_number(value_of(text)))
}

/// Whether a line passes a test.
pub fn passes(
    alloc: Global,
    eds: &Eds<'_>,
    indexes: &BTreeSet<u64>,
    test: Test,
    line: &Line,
) -> Result<bool, AllocError>
    requires listed { AreListed eds.now indexes.now }
    requires inside { IsInside (length eds.now) line.now }
    ensures { IfOk result (λ b. b ≡ passes eds.now test line.now) }
{
    match test {
        Test::Unlisted => Ok(is_unlisted(eds, indexes, line)),
        Test::Unidentified => Ok(is_unidentified(eds, indexes, line)),
        Test::Beyond(section, count) => Ok(is_beyond(eds, section, count, line)),
        Test::Unseen => is_unseen(alloc, eds, indexes, line),
    }
}

/// The number of the first line that passes a test, from 1.
#[tactic(auto, using(crate::proofs::LineLemmas::goes_on, crate::proofs::LineLemmas::stops, crate::proofs::LineLemmas::ends))]
pub fn first_line(
    alloc: Global,
    eds: &Eds<'_>,
    indexes: &BTreeSet<u64>,
    test: Test,
) -> Result<Option<usize>, AllocError>
    requires { AreListed eds.now indexes.now }
    ensures { IfOk result (λ line. line ≡ first_line eds.now test) }
{
    let lines = eds.lines();
    for (place, line) in lines.iter().enumerate() {
        if passes(alloc, eds, indexes, test, line)? {
            return Ok(Some(place + 1));
        }
    }
    Ok(None)
}
