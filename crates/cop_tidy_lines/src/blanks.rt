//! Blanks, quotes and comments round a value, as makers write them.

ghost use Rattle.std.specs.Prelude.{◌≡◌, IfOk, false, filter, not, reverse};
ghost use Rattle.std.specs.List.{list_all};
ghost use Rattle.std.specs.Cow.{cow_slice_items};
ghost use Rattle.cop_tidy_lines.specs.Blanks.{is_any_blank, loose_start, is_margin, margin_start, without_margins, begins_comment, before_comment, is_base, before_hash, is_torn, is_quote, bare};

use crate::bytes::first_of;
use cop_eds::{after_first, before_first, is_blank, trim};
use std::alloc::{AllocError, Global};
use std::borrow::CowSlice;

/// Whether a byte is a blank of CiA 306, or one that makers write besides; of a no-break space in UTF-8 each byte is one.
fn is_any_blank(byte: u8) -> bool
    ensures { result ≡ is_any_blank byte }
{
    (is_blank(byte) || byte == 0x0B) || (byte == 0x0C || (byte == 0xA0 || byte == 0xC2))
}

/// The bytes without the blanks of all kinds at their front.
pub fn loose_start(bytes: &[u8]) -> &[u8]
    ensures { result.now ≡ loose_start bytes.now }
{
    let mut rest = bytes;
    while let Some((first, tail)) = rest.split_first() {
        if !is_any_blank(*first) {
            break;
        }
        rest = tail;
    }
    rest
}

fn is_margin(byte: u8) -> bool
    ensures { result ≡ is_margin byte }
{
    is_any_blank(byte) || byte == b','
}

/// The bytes without blanks and commas at their front.
fn margin_start(bytes: &[u8]) -> &[u8]
    ensures { result.now ≡ margin_start bytes.now }
{
    let mut rest = bytes;
    while let Some((first, tail)) = rest.split_first() {
        if !is_margin(*first) {
            break;
        }
        rest = tail;
    }
    rest
}

/// The bytes without blanks and commas at their end.
fn margin_end(bytes: &[u8]) -> &[u8]
    ensures { result.now ≡ reverse (margin_start (reverse bytes.now)) }
{
    let mut rest = bytes;
    while let Some((last, front)) = rest.split_last() {
        if !is_margin(*last) {
            break;
        }
        rest = front;
    }
    rest
}

fn without_margins(bytes: &[u8]) -> &[u8]
    ensures { result.now ≡ without_margins bytes.now }
{
    margin_end(margin_start(bytes))
}

/// Whether a comment behind a value begins here.
fn begins_comment(after_blank: bool, bytes: &[u8]) -> bool
    ensures { result ≡ begins_comment after_blank bytes.now }
{
    match bytes {
        [b';', ..] => true,
        [b'#', ..] => after_blank,
        [b'/', b'/' | b'*', ..] => true,
        _ => false,
    }
}

/// What stands before a comment behind a value.
#[tactic(auto, using(crate::proofs::BlankLemmas::none_before, crate::proofs::BlankLemmas::one_before))]
fn before_comment(bytes: &[u8]) -> &[u8]
    ensures { result.now ≡ before_comment false bytes.now }
{
    let mut place = 0usize;
    let mut after_blank = false;
    while place < bytes.len() {
        if begins_comment(after_blank, &bytes[place..]) {
            break;
        }
        after_blank = is_any_blank(bytes[place]);
        place += 1;
    }
    &bytes[..place]
}

fn is_quote(byte: u8) -> bool
    ensures { result ≡ is_quote byte }
{
    byte == b'"' || byte == b'\''
}

/// The bytes without quotes.
fn without_quotes(alloc: Global, bytes: &[u8]) -> Result<Vec<u8>, AllocError>
    ensures { IfOk result (λ v. v.items ≡ filter (λ b. not (is_quote b)) bytes.now) }
{
    bytes
        .iter()
        .copied()
        .filter(|byte| !is_quote(*byte))
        .collect(alloc)
}

/// Whether a text is the base of a number as makers write it before `#`.
fn is_base(text: &[u8]) -> bool
    ensures { result ≡ is_base text.now }
{
    text == b"2".as_slice() || (text == b"8".as_slice() || text == b"16".as_slice())
}

/// Whether a base, a blank, `#` and a digit leave open whether a comment begins there.
fn is_torn(value: &[u8]) -> bool
    ensures { result ≡ is_torn value.now }
{
    let base = before_first(value, b'#');
    (trim(base).len() != base.len() && is_base(trim(base)))
        && char::from(first_of(after_first(value, b'#'))).is_digit(16)
}

/// Whether a text has no quotes.
fn is_unquoted(bytes: &[u8]) -> bool
    ensures { result ≡ list_all (λ b. not (is_quote b)) bytes.now }
{
    bytes.iter().all(|byte| !is_quote(*byte))
}

/// What stands before a comment, without quotes, and blanks and commas at its ends.
#[tactic(auto, using(crate::proofs::KeptLemmas::kept_all))]
fn plain(alloc: Global, bytes: &[u8]) -> Result<CowSlice<'_, u8>, AllocError>
    ensures { IfOk result (λ v. cow_slice_items v ≡ without_margins (filter (λ b. not (is_quote b)) bytes.now)) }
{
    if is_unquoted(bytes) {
        return Ok(CowSlice::Borrowed(without_margins(bytes)));
    }
    let plain = without_quotes(alloc, bytes)?;
    Ok(CowSlice::Owned(Vec::from_slice(alloc, without_margins(&plain))?))
}

/// A value without a comment behind it, quotes, and blanks and commas at its ends; it is copied only where it has quotes.
#[tactic(auto, unfolding(crate::specs::Blanks::bare))]
pub fn bare_text(alloc: Global, value: &[u8]) -> Result<CowSlice<'_, u8>, AllocError>
    ensures { IfOk result (λ v. cow_slice_items v ≡ bare value.now) }
{
    if is_torn(value) {
        Ok(CowSlice::Borrowed(value))
    } else {
        plain(alloc, before_comment(value))
    }
}

/// The same as a text of its own.
pub fn bare(alloc: Global, value: &[u8]) -> Result<Vec<u8>, AllocError>
    ensures { IfOk result (λ v. v.items ≡ bare value.now) }
{
    bare_text(alloc, value)?.into_owned(alloc)
}
