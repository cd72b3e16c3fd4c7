//! Numbers as makers write them.

ghost use Rattle.std.specs.Prelude.{◌≡◌, ◌==◌, ◌||◌, IfOk, filter, not};
ghost use Rattle.std.specs.List.{list_all};
ghost use Rattle.std.specs.Char.{is_digit};
ghost use Rattle.std.specs.Option.{option_map};
ghost use Rattle.cop_eds.specs.Number.{is_numeral};
ghost use Rattle.cop_eds.specs.Text.{is_blank};
ghost use Rattle.cop_tidy_lines.specs.Numerals.{is_signed, without_sign, is_negative, is_suffix, without_suffix, are_few_zeros, without_zeros, plain, hexadecimal_digits, readable, hexadecimal_number, marked_number, is_octal_too, agreed, chosen_number, decimal_number, magnitude, unsigned_number, number_meant, is_yes, is_no, flag_meant};

use crate::bytes::{first_of, from, last_of, without_last};
use crate::choices::Digits;
use cop_eds::{
    after_first, before_first, is_blank, is_hexadecimal, number_in, number_of, same_name, trim,
    trim_start,
};
use std::alloc::{AllocError, Global};

/// Why a text is no number.
#[derive(Clone, Copy, Debug, PartialEq, Eq)]
pub enum Unclear {
    NoNumber,
    /// Digits that are one number as CiA 306 writes octal ones, and another as people write them.
    OctalOrDecimal,
}

/// Whether a sign stands in front.
pub fn is_signed(text: &[u8]) -> bool
    ensures { result ≡ is_signed text.now }
{
    matches!(text, [b'-' | b'+', ..])
}

fn without_sign(text: &[u8]) -> &[u8]
    ensures { result.now ≡ without_sign text.now }
{
    if is_signed(text) {
        trim_start(from(text, 1))
    } else {
        text
    }
}

pub fn is_negative(text: &[u8]) -> bool
    ensures { result ≡ is_negative text.now }
{
    matches!(trim(text), [b'-', ..])
}

/// Whether a byte is a letter that programs write behind a number.
fn is_suffix(byte: u8) -> bool
    ensures { result ≡ is_suffix byte }
{
    (byte == b'u' || byte == b'U') || (byte == b'l' || byte == b'L')
}

fn without_suffix(text: &[u8]) -> &[u8]
    ensures { result.now ≡ without_suffix text.now }
{
    if is_suffix(last_of(text)) {
        without_last(text)
    } else {
        text
    }
}

/// Whether a text is one zero or two.
fn are_few_zeros(text: &[u8]) -> bool
    ensures { result ≡ are_few_zeros text.now }
{
    (text.len() == 1 || text.len() == 2) && text.iter().all(|byte| *byte == b'0')
}

/// Without a point and one or two zeros behind a number.
fn without_zeros(text: &[u8]) -> &[u8]
    ensures { result.now ≡ without_zeros text.now }
{
    if are_few_zeros(after_first(text, b'.')) {
        before_first(text, b'.')
    } else {
        text
    }
}

/// A number without its sign, letters of programs, and a point with zeros.
pub fn plain(text: &[u8]) -> &[u8]
    ensures { result.now ≡ plain text.now }
{
    let unsigned = without_sign(trim(text));
    let bare = without_suffix(without_suffix(without_suffix(unsigned)));
    trim(without_zeros(bare))
}

/// Digits without blanks and underlines among them.
fn dense(alloc: Global, text: &[u8]) -> Result<Vec<u8>, AllocError>
    ensures { IfOk result (λ v. v.items ≡ filter (λ b. not (is_blank b || (b == 95))) text.now) }
{
    text.iter()
        .copied()
        .filter(|byte| !(is_blank(*byte) || *byte == b'_'))
        .collect(alloc)
}

/// The digits of a number that is hexadecimal by a mark.
pub fn hexadecimal_digits(alloc: Global, text: &[u8]) -> Result<Option<Vec<u8>>, AllocError>
    ensures { IfOk result (λ found. option_map (λ v. v.items) found ≡ hexadecimal_digits text.now) }
{
    if is_hexadecimal(text) {
        return Ok(Some(dense(alloc, from(text, 2))?));
    }
    if first_of(text) == b'$' {
        return Ok(Some(Vec::from_slice(alloc, from(text, 1))?));
    }
    if before_first(text, b'#') == b"16".as_slice() {
        return Ok(Some(Vec::from_slice(alloc, after_first(text, b'#'))?));
    }
    if last_of(text) == b'h' || last_of(text) == b'H' {
        return Ok(Some(Vec::from_slice(alloc, without_last(text))?));
    }
    Ok(None)
}

pub fn readable(number: Option<u64>) -> Result<u64, Unclear>
    ensures { result ≡ readable number }
{
    match number {
        Some(number) => Ok(number),
        None => Err(Unclear::NoNumber),
    }
}

/// The number of a text that is hexadecimal by a mark.
fn hexadecimal_number(alloc: Global, text: &[u8]) -> Result<Result<u64, Unclear>, AllocError>
    ensures { IfOk result (λ number. number ≡ hexadecimal_number (hexadecimal_digits text.now)) }
{
    match hexadecimal_digits(alloc, text)? {
        Some(digits) => Ok(readable(number_in(16, &digits))),
        None => Ok(Err(Unclear::NoNumber)),
    }
}

/// The number of a text that is octal, binary or hexadecimal by a mark.
#[tactic(auto, unfolding(crate::specs::Numerals::marked_number))]
fn marked_number(alloc: Global, text: &[u8]) -> Result<Result<u64, Unclear>, AllocError>
    ensures { IfOk result (λ number. number ≡ marked_number text.now) }
{
    let base = before_first(text, b'#');
    if base == b"8".as_slice() {
        return Ok(readable(number_in(8, after_first(text, b'#'))));
    }
    if base == b"2".as_slice() {
        return Ok(readable(number_in(2, after_first(text, b'#'))));
    }
    hexadecimal_number(alloc, text)
}

/// Whether decimal digits read otherwise as octal, or could.
pub fn is_octal_too(digits: &[u8]) -> bool
    ensures { result ≡ is_octal_too digits.now }
{
    matches!(digits, [b'0', ..]) && number_in(8, digits).is_some()
}

/// The number on which both readings agree.
fn agreed(octal: Option<u64>, decimal: Option<u64>) -> Result<u64, Unclear>
    ensures { result ≡ agreed octal decimal }
{
    match (octal, decimal) {
        (Some(octal), Some(decimal)) if octal == decimal => Ok(decimal),
        _ => Err(Unclear::OctalOrDecimal),
    }
}

/// The number that digits are by a choice; without one, that on which both readings agree.
fn chosen_number(choice: Option<Digits>, digits: &[u8]) -> Result<u64, Unclear>
    ensures { result ≡ chosen_number choice digits.now }
{
    match choice {
        Some(Digits::Octal) => readable(number_in(8, digits)),
        Some(Digits::Decimal) => readable(number_in(10, digits)),
        None => agreed(number_in(8, digits), number_in(10, digits)),
    }
}

/// The number that decimal digits are, by the choice where they read otherwise as octal.
fn decimal_number(choice: Option<Digits>, digits: &[u8]) -> Result<u64, Unclear>
    ensures { result ≡ decimal_number choice digits.now }
{
    if is_octal_too(digits) {
        chosen_number(choice, digits)
    } else {
        readable(number_in(10, digits))
    }
}

fn are_digits(digits: &[u8]) -> bool
    ensures { result ≡ list_all (λ c. is_digit c 10) digits.now }
{
    digits.iter().all(|byte| char::from(*byte).is_digit(10))
}

/// Whether a text is decimal digits.
pub fn are_decimal(digits: &[u8]) -> bool
    ensures { result ≡ is_numeral 10 digits.now }
{
    !digits.is_empty() && are_digits(digits)
}

/// The number that a text is without its sign.
#[tactic(auto, unfolding(crate::specs::Numerals::magnitude))]
pub fn magnitude(
    alloc: Global,
    choice: Option<Digits>,
    text: &[u8],
) -> Result<Result<u64, Unclear>, AllocError>
    ensures { IfOk result (λ number. number ≡ magnitude choice text.now) }
{
    let plain = plain(text);
    if are_decimal(plain) {
        Ok(decimal_number(choice, plain))
    } else {
        marked_number(alloc, plain)
    }
}

/// A number that has no sign in CiA 306.
fn unsigned_number(
    alloc: Global,
    choice: Option<Digits>,
    text: &[u8],
) -> Result<Result<u64, Unclear>, AllocError>
    ensures { IfOk result (λ number. number ≡ unsigned_number choice text.now) }
{
    if is_negative(text) {
        Ok(Err(Unclear::NoNumber))
    } else {
        magnitude(alloc, choice, text)
    }
}

/// The number that a text is by CiA 306, else in another spelling.
#[tactic(auto, unfolding(crate::specs::Numerals::number_meant))]
pub fn number_meant(
    alloc: Global,
    choice: Option<Digits>,
    text: &[u8],
) -> Result<Result<u64, Unclear>, AllocError>
    ensures { IfOk result (λ number. number ≡ number_meant choice text.now) }
{
    match number_of(text) {
        Ok(number) => Ok(Ok(number)),
        Err(_) => unsigned_number(alloc, choice, text),
    }
}

/// Whether a text is a word for true.
pub fn is_yes(text: &[u8]) -> bool
    ensures { result ≡ is_yes text.now }
{
    same_name(text, b"true") || (same_name(text, b"yes") || same_name(text, b"on"))
}

/// Whether a text is a word for false.
pub fn is_no(text: &[u8]) -> bool
    ensures { result ≡ is_no text.now }
{
    same_name(text, b"false") || (same_name(text, b"no") || same_name(text, b"off"))
}

/// Whether a text says yes: by a word, or by a number that is not 0.
#[tactic(auto, unfolding(crate::specs::Numerals::flag_meant))]
pub fn flag_meant(
    alloc: Global,
    choice: Option<Digits>,
    text: &[u8],
) -> Result<Result<bool, Unclear>, AllocError>
    ensures { IfOk result (λ flag. flag ≡ flag_meant choice text.now) }
{
    if is_yes(text) {
        return Ok(Ok(true));
    }
    if is_no(text) {
        return Ok(Ok(false));
    }
    match number_meant(alloc, choice, text)? {
        Ok(number) => Ok(Ok(number != 0)),
        Err(unclear) => Ok(Err(unclear)),
    }
}
