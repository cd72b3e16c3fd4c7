//! Objects by which a device does something on the bus, and the records of PDOs.

ghost use Rattle.std.specs.Prelude.{◌≡◌, length};
ghost use Rattle.cop_eds.specs.Lines.{IsInside};
ghost use Rattle.cop_eds_hazards.specs.Listed.{AreListed};
ghost use Rattle.cop_eds_hazards.specs.Records.{is_record, is_guarded, begun, is_unlisted_code, is_unlisted, is_unsigned, has_identifier, is_unidentified_code, is_unidentified, index_at};

use crate::listed::is_listed;
use crate::stated::stated;
use crate::text::text_of;
use cop_eds::{Eds, Kind, Line, code_of, name_of};
use std::collections::BTreeSet;

/// Whether an index is of the communication record of a PDO.
fn is_record(index: u64) -> bool
    ensures { result ≡ is_record index }
{
    (0x1400 <= index && index <= 0x15FF) || (0x1800 <= index && index <= 0x19FF)
}

/// Whether an index is of an object by which a device does something on the bus: SYNC, EMCY, heartbeats, the SDO server, and the records
/// and mappings of PDOs (CiA 301).
fn is_guarded(index: u64) -> bool
    ensures { result ≡ is_guarded index }
{
    index == 0x1005
        || index == 0x1006
        || (0x1014 <= index && index <= 0x1017)
        || index == 0x1200
        || (0x1400 <= index && index <= 0x1BFF)
}

/// The number of the object's section that a line begins.
fn begun(eds: &Eds<'_>, line: &Line) -> Option<u64>
    requires { IsInside (length eds.now) line.now }
    ensures { result ≡ begun eds.now line.now }
{
    match line.kind {
        Kind::Header => code_of(name_of(text_of(eds, line))),
        Kind::Pair | Kind::Other => None,
    }
}

fn is_unlisted_code(eds: &Eds<'_>, indexes: &BTreeSet<u64>, code: u64) -> bool
    requires { AreListed eds.now indexes.now }
    ensures { result ≡ is_unlisted_code eds.now code }
{
    let index = code / 257;
    is_guarded(index) && !is_listed(eds, indexes, index)
}

/// Whether a line begins a section of an object by which a device does something on the bus, and no list names it.
#[tactic(auto, unfolding(crate::specs::Records::is_unlisted))]
pub fn is_unlisted(eds: &Eds<'_>, indexes: &BTreeSet<u64>, line: &Line) -> bool
    requires listed { AreListed eds.now indexes.now }
    requires inside { IsInside (length eds.now) line.now }
    ensures { result ≡ is_unlisted eds.now line.now }
{
    match begun(eds, line) {
        Some(code) => is_unlisted_code(eds, indexes, code),
        None => false,
    }
}

/// Whether the DataType of a section is UNSIGNED32.
fn is_unsigned(eds: &Eds<'_>, section: Option<usize>) -> bool
    ensures { result ≡ is_unsigned eds.now section }
{
    match section {
        Some(section) => match stated(eds, section, b"DataType") {
            Some(number) => 7 == number,
            None => false,
        },
        None => false,
    }
}

/// Whether the sub 1 of an index is an object of the type UNSIGNED32.
fn has_identifier(eds: &Eds<'_>, index: u16) -> bool
    ensures { result ≡ has_identifier eds.now index }
{
    is_unsigned(eds, eds.object(index, 1))
}

fn is_unidentified_code(eds: &Eds<'_>, indexes: &BTreeSet<u64>, code: u64) -> bool
    requires { AreListed eds.now indexes.now }
    ensures { result ≡ is_unidentified_code eds.now code }
{
    let index = code / 257;
    if code % 257 != 0 || !is_record(index) {
        return false;
    }
    is_listed(eds, indexes, index) && !has_identifier(eds, index as u16)
}

/// Whether a line begins the own section of a PDO's communication record that a list names and that has no identifier.
#[tactic(auto, unfolding(crate::specs::Records::is_unidentified))]
pub fn is_unidentified(eds: &Eds<'_>, indexes: &BTreeSet<u64>, line: &Line) -> bool
    requires listed { AreListed eds.now indexes.now }
    requires inside { IsInside (length eds.now) line.now }
    ensures { result ≡ is_unidentified eds.now line.now }
{
    match begun(eds, line) {
        Some(code) => is_unidentified_code(eds, indexes, code),
        None => false,
    }
}

/// The index of the object whose section, its own or one of a sub-index, begins at the line of this number, from 1.
#[tactic(auto, unfolding(crate::specs::Records::index_at))]
pub fn index_at(eds: &Eds<'_>, line: usize) -> Option<u64>
    ensures { result ≡ index_at eds.now line }
{
    if line == 0 {
        return None;
    }
    let lines = eds.lines();
    match lines.get(line - 1) {
        Some(line) => Some(begun(eds, line)? / 257),
        None => None,
    }
}
