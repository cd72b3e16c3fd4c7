//! The records of a refusal file, one by one.

ghost use Rattle.std.specs.Prelude.{◌≡◌, ◌==◌, ◌<◌};
ghost use Rattle.cop_cert.specs.Entries.{rate_of, number_in, rate_in, least_number, pdo_number_in, second_word_of, new_word_of, word_of, is_sdo, is_value_of, is_number_of, entry_in, writes, version_in};

use crate::faults::Rule;
use cop_frame::Rate;
use cop_table::{Record, number};

/// The versions of the format: the first knows refusals by places alone, and the third a busy list that is that of the member before.
#[derive(Clone, Copy)]
pub(crate) enum Version {
    First,
    Second,
    Third,
}

/// Which PDOs a member is one of: those that cannot have the lowest place among them, or those that have to be up, above the SDO
/// frames.
#[derive(Clone, Copy)]
pub(crate) enum Side {
    Place,
    Up,
}

/// What a record begins or adds to.
#[derive(Clone, Copy)]
pub(crate) enum Word {
    /// A stream whose busy time is above the horizon.
    Long(Side),
    /// A stream with a late instance.
    Late(Side),
    /// SYNC, whose busy time is above the horizon.
    Sync,
    /// An SDO frame.
    Sdo,
    /// The busy list of the member before.
    Same,
    /// A number of a list.
    Number(Listed),
}

/// The lists of evidence.
#[derive(Clone, Copy)]
pub(crate) enum Listed {
    Busy,
    Queue,
}

/// What a record says.
#[derive(Clone, Copy)]
pub(crate) struct Entry {
    pub(crate) rate: Rate,
    /// The PDO's number from 1 on, or 0 of a fixed frame.
    pub(crate) number: usize,
    pub(crate) word: Word,
    pub(crate) value: u64,
}

fn rate_of(kbits: u64) -> Option<Rate>
    ensures { result ≡ rate_of kbits }
{
    Rate::ALL
        .iter()
        .copied()
        .find(|rate| u64::from(rate.kbits()) == kbits)
}

fn number_in(field: &[u8]) -> Result<u64, Rule>
    ensures { result ≡ number_in field.now }
{
    number(20, field).ok_or(Rule::Number)
}

fn rate_in(field: &[u8]) -> Result<Rate, Rule>
    ensures { result ≡ rate_in field.now }
{
    rate_of(number_in(field)?).ok_or(Rule::Number)
}

/// The least number that a record of the version may be of.
pub(crate) fn least_number(version: Version) -> u64
    ensures { result ≡ least_number version }
{
    match version {
        Version::First => 1,
        Version::Second | Version::Third => 0,
    }
}

fn pdo_number_in(version: Version, field: &[u8]) -> Result<usize, Rule>
    ensures { result ≡ pdo_number_in version field.now }
{
    let number = number_in(field)?;
    if least_number(version) <= number && number <= 512 {
        Ok(number as usize)
    } else {
        Err(Rule::Number)
    }
}

fn second_word_of(field: &[u8]) -> Option<Word>
    ensures { result ≡ second_word_of field.now }
{
    if field == b"uplong".as_slice() {
        Some(Word::Long(Side::Up))
    } else if field == b"uplate".as_slice() {
        Some(Word::Late(Side::Up))
    } else if field == b"sync".as_slice() {
        Some(Word::Sync)
    } else if field == b"sdo".as_slice() {
        Some(Word::Sdo)
    } else {
        None
    }
}

fn new_word_of(version: Version, field: &[u8]) -> Option<Word>
    ensures { result ≡ new_word_of version field.now }
{
    match version {
        Version::First => None,
        Version::Second => second_word_of(field),
        Version::Third => {
            if field == b"same".as_slice() {
                Some(Word::Same)
            } else {
                second_word_of(field)
            }
        }
    }
}

fn word_of(version: Version, field: &[u8]) -> Option<Word>
    ensures { result ≡ word_of version field.now }
{
    match field {
        b"busy" => Some(Word::Number(Listed::Busy)),
        b"queue" => Some(Word::Number(Listed::Queue)),
        b"long" => Some(Word::Long(Side::Place)),
        b"late" => Some(Word::Late(Side::Place)),
        _ => new_word_of(version, field),
    }
}

fn is_sdo(id: u64) -> bool
    ensures { result ≡ is_sdo id }
{
    (id >= 0x581 && id <= 0x5FF) || (id >= 0x601 && id <= 0x67F)
}

/// Whether a word has the value: that of `long`, `uplong`, `sync` and `same` is 0, that of `sdo` an SDO frame's identifier.
fn is_value_of(word: Word, value: u64) -> bool
    ensures { result ≡ is_value_of word value }
{
    match word {
        Word::Long(_) | Word::Sync | Word::Same => value == 0,
        Word::Sdo => is_sdo(value),
        Word::Late(_) | Word::Number(_) => true,
    }
}

/// Whether a word may stand at a number: `uplong`, `uplate` and `same` are of PDOs, `sync` and `sdo` of fixed frames.
fn is_number_of(word: Word, number: usize) -> bool
    ensures { result ≡ is_number_of word number }
{
    match word {
        Word::Long(Side::Up) | Word::Late(Side::Up) | Word::Same => number >= 1,
        Word::Sync | Word::Sdo => number == 0,
        Word::Long(Side::Place) | Word::Late(Side::Place) | Word::Number(_) => true,
    }
}

#[tactic(auto, unfolding(crate::specs::Entries::entry_in))]
/// What a record says, or the least rule that it breaks by itself.
pub(crate) fn entry_in(version: Version, row: &Record) -> Result<Entry, Rule>
    ensures { result ≡ entry_in version row.now }
{
    if row.len() != 4 {
        return Err(Rule::Fields);
    }
    let rate = rate_in(row.field(0))?;
    let number = pdo_number_in(version, row.field(1))?;
    let value = number_in(row.field(3))?;
    let word = word_of(version, row.field(2)).ok_or(Rule::Misplaced)?;
    if !is_value_of(word, value) {
        return Err(Rule::Number);
    }
    if !is_number_of(word, number) {
        return Err(Rule::Misplaced);
    }
    Ok(Entry {
        rate,
        number,
        word,
        value,
    })
}

/// Whether a field writes a number.
fn writes(field: &[u8], wanted: u64) -> bool
    ensures { result ≡ writes field.now wanted }
{
    match number(20, field) {
        Some(number) => number == wanted,
        None => false,
    }
}

/// The version that a record names.
pub(crate) fn version_in(row: &Record) -> Option<Version>
    ensures { result ≡ version_in row.now }
{
    let names = writes(row.field(0), 0)
        && writes(row.field(1), 0)
        && row.field(2) == b"version".as_slice();
    if !names {
        return None;
    }
    if writes(row.field(3), 1) {
        Some(Version::First)
    } else if writes(row.field(3), 2) {
        Some(Version::Second)
    } else if writes(row.field(3), 3) {
        Some(Version::Third)
    } else {
        None
    }
}
