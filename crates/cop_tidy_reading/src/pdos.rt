//! PDOs that a device has by CompactPDO (CiA 306).

ghost use Rattle.std.specs.Prelude.{◌≡◌, ◌<◌, ◌≤◌, Some, IfOk, IfSome};
ghost use Rattle.cop_tidy_lines.specs.declared.keys.Key.TheVariants as keys;
ghost use Rattle.cop_tidy_reading.specs.Sections.{raw_of};
ghost use Rattle.cop_tidy_reading.specs.Lists.{is_named};
ghost use Rattle.cop_tidy_reading.specs.Pdos.{is_beyond, can_be, line_of, count_at, none, counted, compact_in, compact_pdo, implied_at, implies, implied, has_sub, highest_sub, identifier, place_in, communication, mapping};

use crate::combining::{both, unless};
use crate::contents::Contents;
use crate::question::{About, Question, asked};
use crate::standard::communication_type;
use crate::stated::Reader;
use cop_eds::{Access, Amount};
use cop_tidy_lines::{Digits, Key};
use std::alloc::{AllocError, Global};
use std::collections::BTreeSet;

/// How many PDOs of a direction there can be.
const MOST: u64 = 512;

/// The index of the first communication record of the PDOs that a device receives, and of those that it sends.
const RECEIVED: u64 = 0x1400;

const SENT: u64 = 0x1800;

/// How far behind its communication record the mapping record of a PDO lies.
const MAPPING: u64 = 0x200;

/// Which subs the records have that no list names, and how many PDOs there are; no subs where CompactPDO says nothing.
#[derive(Clone, Copy, Debug, PartialEq, Eq)]
pub struct CompactPdo {
    subs: u64,
    received: u64,
    sent: u64,
}

/// What a sub of such a record is.
#[derive(Clone, Copy, Debug, PartialEq, Eq)]
pub struct Implied {
    pub data_type: u64,
    pub access: Access,
    pub amount: Option<Amount>,
}

/// Nothing is said of PDOs that no list names.
pub fn none() -> CompactPdo
    ensures { result ≡ none }
{
    CompactPdo {
        subs: 0,
        received: 0,
        sent: 0,
    }
}

/// Whether a list names an index.
#[tactic(auto, using(crate::proofs::PdoLemmas::named))]
pub fn is_named(listed: &BTreeSet<u64>, index: u64) -> bool
    ensures { result ≡ is_named listed.now.keys index }
{
    listed.contains(&index)
}

/// Whether a listed record lies behind so many PDOs of a direction.
fn is_beyond(listed: &BTreeSet<u64>, first: u64, count: u64) -> bool
    requires first { first ≤ 0x1800 }
    requires count { count ≤ 512 }
    ensures { result ≡ is_beyond listed.now.keys first count }
{
    listed
        .iter()
        .any(|index| first + count <= *index && *index < first + MOST)
}

/// Whether there can be so many PDOs of a direction.
fn can_be(listed: &BTreeSet<u64>, first: u64, count: u64) -> bool
    requires { first ≤ 0x1800 }
    ensures { result ≡ can_be listed.now.keys first count }
{
    count <= MOST && !is_beyond(listed, first, count)
}

/// How many PDOs of a direction there are; a question where these cannot be, or a list names more.
fn count_of(
    alloc: Global,
    reader: Reader<'_, '_>,
    listed: &BTreeSet<u64>,
    key: Key,
    first: u64,
    line: usize,
) -> Result<Result<u64, Question>, AllocError>
    requires { first ≤ 0x1800 }
    ensures { IfOk result (λ read. read ≡ count_at reader.entry.digits reader.entry.contents.now listed.now.keys reader.entry.section.number key first line) }
{
    let count = match reader.number(alloc, key)? {
        Ok(count) => count.unwrap_or(0),
        Err(question) => return Ok(Err(question)),
    };
    if can_be(listed, first, count) {
        return Ok(Ok(count));
    }
    match reader.contents.entry(alloc, reader.section, key)? {
        Some((line, _)) => Ok(Err(asked(About::Compact, line))),
        None => Ok(Err(asked(About::Compact, line))),
    }
}

/// The line of CompactPDO, or of the section.
fn line_of(reader: Reader<'_, '_>) -> usize
    ensures { result ≡ line_of reader.entry.section.line (raw_of reader.entry.contents.now reader.entry.section.number keys.CompactPdo) }
{
    match reader.contents.raw(reader.section, Key::CompactPdo) {
        Some((line, _)) => line,
        None => reader.section.line,
    }
}

/// What CompactPDO says with these subs, or the earliest question that it leaves open.
fn counted(
    alloc: Global,
    reader: Reader<'_, '_>,
    listed: &BTreeSet<u64>,
    line: usize,
    subs: u64,
) -> Result<Result<CompactPdo, Question>, AllocError>
    ensures { IfOk result (λ read. read ≡ counted reader.entry.digits reader.entry.contents.now listed.now.keys reader.entry.section.number line subs) }
{
    let received = count_of(alloc, reader, listed, Key::ReceivedPdos, RECEIVED, line)?;
    let sent = count_of(alloc, reader, listed, Key::SentPdos, SENT, line)?;
    let possible = unless(subs % 2 == 1 && subs < 64, About::Compact, line);
    match both(possible, both(received, sent)) {
        Ok((_, (received, sent))) => Ok(Ok(CompactPdo {
            subs,
            received,
            sent,
        })),
        Err(question) => Ok(Err(question)),
    }
}

/// What CompactPDO says in a section, or the earliest question that it leaves open.
fn compact_in(
    alloc: Global,
    reader: Reader<'_, '_>,
    listed: &BTreeSet<u64>,
) -> Result<Result<CompactPdo, Question>, AllocError>
    ensures { IfOk result (λ read. read ≡ compact_in reader.entry.digits reader.entry.contents.now listed.now.keys (Some reader.entry.section)) }
{
    let subs = match reader.number(alloc, Key::CompactPdo)? {
        Ok(subs) => subs.unwrap_or(0),
        Err(question) => return Ok(Err(question)),
    };
    if subs == 0 {
        Ok(Ok(none()))
    } else {
        counted(alloc, reader, listed, line_of(reader), subs)
    }
}

/// What CompactPDO says of PDOs that no list names, or the earliest question that it leaves open.
#[tactic(auto, unfolding(crate::specs::Pdos::compact_pdo))]
pub fn compact_pdo(
    alloc: Global,
    contents: &Contents<'_>,
    digits: Option<Digits>,
    listed: &BTreeSet<u64>,
) -> Result<Result<CompactPdo, Question>, AllocError>
    ensures { IfOk result (λ read. read ≡ compact_pdo digits contents.now listed.now.keys) }
{
    match contents.device_info() {
        Some(section) => {
            let reader = Reader {
                contents,
                section,
                digits,
            };
            compact_in(alloc, reader, listed)
        }
        None => Ok(Ok(none())),
    }
}

/// The identifier that the PDO at a place of its direction has by the pre-defined connection set; beyond the fourth none, which 0 says.
fn identifier(base: u64, place: u64) -> Amount
    requires { base < 0x1000 }
    ensures { result ≡ identifier base place }
{
    if place < 4 {
        Amount::PlusNode(base + place * 0x100)
    } else {
        Amount::Hexadecimal(0)
    }
}

/// Whether a communication record has the sub: one of those whose bits are set.
fn has_sub(subs: u64, sub: u64) -> bool
    ensures { result ≡ has_sub subs sub }
{
    match sub {
        1 => subs % 2 == 1,
        2 => subs / 2 % 2 == 1,
        3 => subs / 4 % 2 == 1,
        4 => subs / 8 % 2 == 1,
        5 => subs / 16 % 2 == 1,
        6 => subs / 32 % 2 == 1,
        _ => false,
    }
}

fn highest_sub(subs: u64) -> u64
    ensures { result ≡ highest_sub subs }
{
    if has_sub(subs, 6) {
        6
    } else if has_sub(subs, 5) {
        5
    } else if has_sub(subs, 4) {
        4
    } else if has_sub(subs, 3) {
        3
    } else if has_sub(subs, 2) {
        2
    } else if has_sub(subs, 1) {
        1
    } else {
        0
    }
}

/// What a sub of a communication record is.
fn communication(subs: u64, place: (u64, u64), sub: u64) -> Option<Implied>
    requires { place.1 < 0x1000 }
    ensures { result ≡ communication subs place sub }
{
    if sub == 0 {
        return Some(Implied {
            data_type: 5,
            access: Access::ReadOnly,
            amount: Some(Amount::Decimal(highest_sub(subs))),
        });
    }
    if !has_sub(subs, sub) {
        return None;
    }
    let data_type = communication_type(sub)?;
    let amount = if sub == 1 {
        Some(identifier(place.1, place.0))
    } else {
        None
    };
    Some(Implied {
        data_type,
        access: Access::ReadWrite,
        amount,
    })
}

/// What a sub of a mapping record is: nothing is mapped.
fn mapping(sub: u64) -> Option<Implied>
    ensures { result ≡ mapping sub }
{
    if sub == 0 {
        Some(Implied {
            data_type: 5,
            access: Access::ReadWrite,
            amount: Some(Amount::Decimal(0)),
        })
    } else {
        None
    }
}

/// The place of the PDO with this communication record among so many of a direction, and the identifier that the first of them has.
fn place_in(first: u64, count: u64, base: u64, index: u64) -> Option<(u64, u64)>
    requires { base < 0x1000 }
    ensures value { result ≡ place_in first count base index }
    ensures bound { IfSome result (λ place. place.1 < 0x1000) }
{
    if first <= index && index - first < count {
        Some((index - first, base))
    } else {
        None
    }
}

impl CompactPdo {
    /// The place of the PDO with this communication record, and the identifier that the first of its direction has, where it is
    /// counted and no list names it.
    fn implied_at(&self, listed: &BTreeSet<u64>, index: u64) -> Option<(u64, u64)>
        ensures value { result ≡ implied_at self.now listed.now.keys index }
        ensures bound { IfSome result (λ place. place.1 < 0x1000) }
    {
        if self.subs == 0 || is_named(listed, index) {
            return None;
        }
        match place_in(RECEIVED, self.received, 0x200, index) {
            Some(place) => Some(place),
            None => place_in(SENT, self.sent, 0x180, index),
        }
    }

    /// Whether a device has the record by CompactPDO: a communication record that no list names, or its mapping record, where no list names that.
    pub fn implies(&self, listed: &BTreeSet<u64>, index: u64) -> bool
        ensures { result ≡ implies self.now listed.now.keys index }
    {
        self.implied_at(listed, index).is_some()
            || (!is_named(listed, index)
                && self
                    .implied_at(listed, index.saturating_sub(MAPPING))
                    .is_some())
    }

    /// What a sub of a record is that a device has by CompactPDO.
    #[tactic(auto, unfolding(crate::specs::Pdos::implied))]
    pub fn implied(&self, listed: &BTreeSet<u64>, index: u64, sub: u64) -> Option<Implied>
        ensures { result ≡ implied self.now listed.now.keys index sub }
    {
        if !self.implies(listed, index) {
            return None;
        }
        match self.implied_at(listed, index) {
            Some(place) => communication(self.subs, place, sub),
            None => mapping(sub),
        }
    }
}
