//! Refusal files in which no quote stands, read where they lie. Nearly all their lines are of lists, and differ from the line before
//! by their number alone.

ghost use Rattle.std.specs.Prelude.{◌≡◌, ◌+◌, ◌<◌, ◌≤◌, ◌^◌, ◌++◌, false, length, IfOk, IfSome, MatchResult, Err};
ghost use Rattle.csv.specs.Writing.{needs_quotes, default_writer};
ghost use Rattle.cop_table.specs.Reading.{Gives};
ghost use Rattle.cop_table.specs.Lines.{StartsLine};
ghost use Rattle.cop_cert.specs.declared.entries.Version.{Version};
ghost use Rattle.cop_cert.specs.declared.entries.Word.TheVariants.{Number};
ghost use Rattle.cop_cert.specs.Faults.{breach_of};
ghost use Rattle.cop_cert.specs.Reading.{refusals_in, refusals_of};
ghost use Rattle.cop_cert.specs.Plain.{rows_of_text, leads, list_word, HasNumber, HasLine, IsBefore};

use crate::drafts::{self, Draft};
use crate::entries::{Entry, Listed, Version, Word, entry_in, least_number};
use crate::faults::{Breach, CertFault};
use crate::refusals::Refusal;
use crate::steps::{at, take_entry};
use crate::writing::head_of;
use cop_table::{Record, has_quote};
use std::alloc::Global;

/// How many digits a number may have here: so many fit 64 bits.
const MOST_DIGITS: usize = 19;

#[tactic(auto, using(crate::proofs::PlainLemmas::no_digit, crate::proofs::PlainLemmas::one_digit, crate::proofs::PlainLemmas::digits_are_number))]
/// The number that a text begins with, up to a line feed, and what is left behind that.
fn number_field(text: &[u8]) -> Option<(u64, &[u8])>
    ensures { IfSome result (λ r. HasNumber text.now r.0 r.1.now) }
{
    let mut number = 0u64;
    let mut digits = 0;
    let mut rest = text;
    while let Some((first, tail)) = rest.split_first() {
        if *first == b'\n' {
            return if digits == 0 {
                None
            } else {
                Some((number, tail))
            };
        }
        if digits == MOST_DIGITS {
            return None;
        }
        let digit = char::from(*first).to_digit(10)?;
        number = number * 10 + u64::from(digit);
        digits += 1;
        rest = tail;
    }
    None
}

/// What is left of a text behind these bytes, where it begins with them.
fn behind_start<'a>(start: &[u8], text: &'a [u8]) -> Option<&'a [u8]>
    ensures { IfSome result (λ left. text.now ≡ start.now ++ left.now) }
{
    let left = text.strip_prefix(start)?;
    Some(left)
}

#[tactic(auto, using(crate::proofs::PlainLemmas::line_is))]
/// The number of a text's first line, where these bytes stand before it, and what is left behind the line.
fn number_line<'a>(head: &[u8], text: &'a [u8]) -> Option<(u64, &'a [u8])>
    ensures { IfSome result (λ r. HasLine head.now text.now r.0 r.1.now) }
{
    let behind = behind_start(head, text)?;
    let (number, left) = number_field(behind)?;
    Some((number, left))
}

/// Takes the lines that a text begins with and that differ from an entry's by their number alone: these bytes stand before it.
/// Tells the place of the last record that was taken, and what is left behind it.
fn take_under<'a>(
    alloc: Global,
    draft: &mut Option<Draft>,
    entry: Entry,
    head: &[u8],
    place: u64,
    text: &'a [u8],
) -> Result<(u64, &'a [u8]), CertFault>
    requires { place + length text.now < 2 ^ 64 }
    ensures leads { (version : Version) → IsBefore version head.now entry → MatchResult result
        (λ r. leads version place draft.old (rows_of_text text.now) ≡ leads version r.0 draft.new (rows_of_text r.1.now))
        (λ fault. IfSome (breach_of fault) (λ b. leads version place draft.old (rows_of_text text.now) ≡ Err b)) }
    ensures within { IfOk result (λ r. r.0 + length r.1.now ≤ place + length text.now) }
    ensures left { IfOk result (λ r. length r.1.now ≤ length text.now) }
{
    let mut place = place;
    let mut rest = text;
    while let Some((value, left)) = number_line(head, rest) {
        place += 1;
        take_entry(alloc, draft, place, Entry { value, ..entry })?;
        rest = left;
    }
    Ok((place, rest))
}

/// The word of a list.
fn list_word(list: Listed) -> &'static [u8]
    ensures word { result.now ≡ list_word list }
    ensures plain { needs_quotes default_writer result.now ≡ false }
    ensures short { length result.now ≤ 8 }
{
    match list {
        Listed::Busy => b"busy",
        Listed::Queue => b"queue",
    }
}

/// Takes the lines that a text begins with and that differ from an entry's, which is of a list, by their number alone.
fn take_alike<'a>(
    alloc: Global,
    version: Version,
    draft: &mut Option<Draft>,
    entry: Entry,
    list: Listed,
    place: u64,
    text: &'a [u8],
) -> Result<(u64, &'a [u8]), CertFault>
    requires word { entry.word ≡ Number list }
    requires fits { place + length text.now < 2 ^ 64 }
    ensures leads { MatchResult result
        (λ r. leads version place draft.old (rows_of_text text.now) ≡ leads version r.0 draft.new (rows_of_text r.1.now))
        (λ fault. IfSome (breach_of fault) (λ b. leads version place draft.old (rows_of_text text.now) ≡ Err b)) }
    ensures within { IfOk result (λ r. r.0 + length r.1.now ≤ place + length text.now) }
    ensures left { IfOk result (λ r. length r.1.now ≤ length text.now) }
{
    if (entry.number as u64) < least_number(version) || entry.number > 512 {
        return Ok((place, text));
    }
    let head = head_of(alloc, entry.rate, entry.number as u128, list_word(list))?;
    take_under(alloc, draft, entry, &head, place, text)
}

/// The text behind the end of the line before it, where that is a line feed.
fn behind_line(text: &[u8]) -> &[u8]
    ensures same { rows_of_text result.now ≡ rows_of_text text.now }
    ensures within { length result.now ≤ length text.now }
{
    match text {
        [b'\n', left @ ..] => left,
        _ => text,
    }
}

/// Takes the record that a text begins with, and those behind it that differ from it by their number alone.
fn take_line<'a>(
    alloc: Global,
    version: Version,
    draft: &mut Option<Draft>,
    row: &mut Record,
    place: u64,
    text: &'a [u8],
) -> Result<(u64, &'a [u8]), CertFault>
    requires starts { StartsLine text.now }
    requires some { 0 < length text.now }
    requires fits { place + length text.now < 2 ^ 64 }
    ensures leads { MatchResult result
        (λ r. leads version place draft.old (rows_of_text text.now) ≡ leads version r.0 draft.new (rows_of_text r.1.now))
        (λ fault. IfSome (breach_of fault) (λ b. leads version place draft.old (rows_of_text text.now) ≡ Err b)) }
    ensures within { IfOk result (λ r. r.0 + length r.1.now ≤ place + length text.now) }
    ensures left { IfOk result (λ r. length r.1.now < length text.now) }
{
    let len = row.cut(text)?;
    let place = place + 1;
    let left = behind_line(&text[len..]);
    let entry = match entry_in(version, row) {
        Ok(entry) => entry,
        Err(rule) => return Err(CertFault::Refused(Breach { rule, place })),
    };
    take_entry(alloc, draft, place, entry)?;
    match entry.word {
        Word::Number(list) => take_alike(alloc, version, draft, entry, list, place, left),
        _ => Ok((place, left)),
    }
}

/// The refusals of the records of a text, which come after that of the version.
pub(crate) fn refusals_in_text(
    alloc: Global,
    version: Version,
    text: &[u8],
) -> Result<Vec<Refusal>, CertFault>
    requires { length text.now + 1 < 2 ^ 64 }
    ensures { Gives (λ refusals. refusals.items) breach_of result (refusals_in version (rows_of_text text.now)) }
{
    let mut row = Record::new(alloc);
    let mut draft = None;
    let mut place = 1;
    let mut rest = text;
    while let Some((first, tail)) = rest.split_first() {
        if matches!(*first, b'\r' | b'\n') {
            rest = tail;
        } else {
            let (last, left) = take_line(alloc, version, &mut draft, &mut row, place, rest)?;
            place = last;
            rest = left;
        }
    }
    match drafts::finished(alloc, draft) {
        Ok(refusals) => Ok(refusals),
        Err(fault) => Err(at(place, fault)),
    }
}

#[tactic(auto, using(crate::proofs::StartLemmas::starts_first, crate::proofs::StartLemmas::starts_second, crate::proofs::StartLemmas::starts_third))]
/// The version of a text in which no quote stands and that begins as it is written, and what comes behind the version's record.
pub(crate) fn start_of(text: &[u8]) -> Option<(Version, &[u8])>
    ensures start { IfSome result (λ r. refusals_of text.now ≡ refusals_in r.0 (rows_of_text r.1.now)) }
    ensures short { IfSome result (λ r. length r.1.now + 1 < 2 ^ 64) }
{
    if has_quote(text) {
        return None;
    }
    if let Some(left) = behind_start(b"rate,pdo,what,value\n0,0,version,1\n", text) {
        return Some((Version::First, left));
    }
    if let Some(left) = behind_start(b"rate,pdo,what,value\n0,0,version,2\n", text) {
        return Some((Version::Second, left));
    }
    let left = behind_start(b"rate,pdo,what,value\n0,0,version,3\n", text)?;
    Some((Version::Third, left))
}
