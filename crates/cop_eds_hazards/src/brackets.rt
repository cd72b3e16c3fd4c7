//! Lines by which a section is described that nothing reads.

ghost use Rattle.std.specs.Prelude.{◌≡◌, ◌==◌, ◌<◌, IfOk, length, slice_index};
ghost use Rattle.std.specs.Option.{option_map};
ghost use Rattle.cop_eds.specs.Lines.{IsInside};
ghost use Rattle.cop_eds_hazards.specs.Listed.{AreListed};
ghost use Rattle.cop_eds_hazards.specs.Hazards.{is_missing, is_strange, inside, is_bracketed, is_sought, is_hidden, is_misspelled, is_unseen};

use crate::listed::is_listed;
use crate::spelling::{read_spelled, spelled, strange_index};
use crate::text::{text_of, without_first};
use cop_eds::{Eds, Kind, Line, after_first, before_first, name_of, trim_start};
use std::alloc::{AllocError, Global};
use std::collections::BTreeSet;

/// Whether a name is of no section.
fn is_missing(eds: &Eds<'_>, name: &Option<Vec<u8>>) -> bool
    ensures { result ≡ is_missing eds.now (option_map (λ v. v.items) name.now) }
{
    match name {
        Some(name) => eds.place(name).is_none(),
        None => false,
    }
}

/// Whether a name begins with the digits of an object that a list names, and CiA 306 has no such name.
fn is_strange(eds: &Eds<'_>, indexes: &BTreeSet<u64>, name: &[u8]) -> bool
    requires { AreListed eds.now indexes.now }
    ensures { result ≡ is_strange eds.now name.now }
{
    match strange_index(name) {
        Some(index) => is_listed(eds, indexes, index),
        None => false,
    }
}

/// What stands behind an opening bracket.
fn inside(line: &[u8]) -> &[u8]
    ensures { result.now ≡ inside line.now }
{
    without_first(trim_start(line))
}

fn starts_with(line: &[u8], sign: u8) -> bool
    ensures { 0 < sign → result ≡ (slice_index line.now 0 == sign) }
{
    match line {
        [first, ..] => *first == sign,
        [] => false,
    }
}

/// Whether brackets with a name between them stand at the front, and no equals sign behind them.
fn is_bracketed(line: &[u8]) -> bool
    ensures { result ≡ is_bracketed line.now }
{
    if !starts_with(trim_start(line), b'[') {
        return false;
    }
    let inside = inside(line);
    if before_first(inside, b']').len() >= inside.len() {
        return false;
    }
    !starts_with(trim_start(after_first(inside, b']')), b'=')
}

/// Whether a name is one that the strict reading looks for, or is meant for one.
fn is_sought(
    alloc: Global,
    eds: &Eds<'_>,
    indexes: &BTreeSet<u64>,
    name: &[u8],
) -> Result<bool, AllocError>
    requires { AreListed eds.now indexes.now }
    ensures { IfOk result (λ b. b ≡ is_sought eds.now name.now) }
{
    let spelled = read_spelled(alloc, name)?;
    Ok(spelled.is_some() || is_strange(eds, indexes, name))
}

/// Whether a key begins with such a name in brackets.
fn is_hidden(
    alloc: Global,
    eds: &Eds<'_>,
    indexes: &BTreeSet<u64>,
    line: &[u8],
) -> Result<bool, AllocError>
    requires { AreListed eds.now indexes.now }
    ensures { IfOk result (λ b. b ≡ is_hidden eds.now line.now) }
{
    if !is_bracketed(line) {
        return Ok(false);
    }
    is_sought(alloc, eds, indexes, before_first(inside(line), b']'))
}

/// Whether a header's name is of no section that is read, and is meant for one.
fn is_misspelled(
    alloc: Global,
    eds: &Eds<'_>,
    indexes: &BTreeSet<u64>,
    name: &[u8],
) -> Result<bool, AllocError>
    requires { AreListed eds.now indexes.now }
    ensures { IfOk result (λ b. b ≡ is_misspelled eds.now name.now) }
{
    let spelled = spelled(alloc, name)?;
    Ok(is_missing(eds, &spelled) || is_strange(eds, indexes, name))
}

/// Whether a line describes a section, and nothing reads it.
#[tactic(auto, unfolding(crate::specs::Hazards::is_unseen))]
pub fn is_unseen(
    alloc: Global,
    eds: &Eds<'_>,
    indexes: &BTreeSet<u64>,
    line: &Line,
) -> Result<bool, AllocError>
    requires listed { AreListed eds.now indexes.now }
    requires inside { IsInside (length eds.now) line.now }
    ensures { IfOk result (λ b. b ≡ is_unseen eds.now line.now) }
{
    let text = text_of(eds, line);
    match line.kind {
        Kind::Header => is_misspelled(alloc, eds, indexes, name_of(text)),
        Kind::Pair => is_hidden(alloc, eds, indexes, text),
        Kind::Other => Ok(false),
    }
}
