//! Numbers in a line: stamps, identifiers, lengths and bytes.

ghost use Rattle.std.specs.Prelude.{◌≡◌, ◌*◌, ◌/◌, ◌^◌, ◌<◌, ◌≤◌, length, MatchResult, IfOk, Ok, Err};
ghost use Rattle.cop_lines.specs.Numbers.{moment, number_in, part_in, decimal_in, hexadecimal_from, hexadecimal_id, id_digits, short_id, long_id, small, hexadecimal_byte, byte_in, len_of, len_in, bytes_in, content_in, message_of, error_frame};

use crate::entries::{Content, Entry, Message};
use crate::faults::LineFault;
use crate::words::{after_word, back, front, word};
use cop_table::number;

/// In which digits a log writes identifiers and bytes.
#[derive(Clone, Copy, PartialEq, Eq, Debug)]
pub enum Base {
    Hexadecimal,
    Decimal,
}

/// A moment that fits 64 bits.
pub(crate) fn moment(at: u128) -> Result<u64, LineFault>
    ensures { result ≡ moment at }
{
    match u64::try_from(at) {
        Ok(at) => Ok(at),
        Err(_) => Err(LineFault::Stamp),
    }
}

pub(crate) fn number_in(most: usize, text: &[u8]) -> Result<u64, LineFault>
    ensures { result ≡ number_in most text.now }
{
    number(most, text).ok_or(LineFault::Stamp)
}

fn power(places: usize) -> u128
    requires { places ≤ 9 }
    ensures value { result ≡ 10 ^ places }
    ensures some { 0 < result }
    ensures few { result ≤ 10 ^ 9 }
{
    match places {
        0 => 1,
        1 => 10,
        2 => 100,
        3 => 1_000,
        4 => 10_000,
        5 => 100_000,
        6 => 1_000_000,
        7 => 10_000_000,
        8 => 100_000_000,
        9 => 1_000_000_000,
        _ => unreachable!(),
    }
}

// The number that a fraction's digits write, in units of its last place that counts.
fn scaled(number: u64, places: usize, digits: usize) -> u128
    requires places { places ≤ 9 }
    requires digits { digits ≤ 9 }
    ensures { result ≡ number * 10 ^ places / 10 ^ digits }
{
    u128::from(number) * power(places) / power(digits)
}

#[tactic(auto, unfolding(crate::specs::Numbers::part_in))]
fn part_in(places: usize, text: &[u8]) -> Result<u64, LineFault>
    requires { places ≤ 9 }
    ensures { result ≡ part_in places text.now }
{
    if text.is_empty() {
        return Ok(0);
    }
    if text.len() > 9 {
        return Err(LineFault::Stamp);
    }
    let number = number_in(9, text)?;
    moment(scaled(number, places, text.len()))
}

/// The number that digits write, with a point or with none, in units of its last place that counts.
#[tactic(auto, unfolding(crate::specs::Numbers::decimal_in))]
pub(crate) fn decimal_in(places: usize, text: &[u8]) -> Result<u64, LineFault>
    requires { places ≤ 9 }
    ensures { result ≡ decimal_in places text.now }
{
    let whole = number_in(14, front(b'.', text))?;
    let part = part_in(places, back(b'.', text))?;
    moment(u128::from(whole) * power(places) + u128::from(part))
}

/// The number that up to eight hexadecimal digits write.
pub(crate) fn hexadecimal(text: &[u8]) -> Option<u32>
    requires { length text.now ≤ 8 }
    ensures { result ≡ hexadecimal_from 0 text.now }
{
    let mut n: u32 = 0;
    for i in 0..text.len() {
        n = n * 16 + char::from(text[i]).to_digit(16)?;
    }
    Some(n)
}

/// The number that one to eight hexadecimal digits write.
pub(crate) fn hexadecimal_id(text: &[u8]) -> Result<u32, LineFault>
    ensures { result ≡ hexadecimal_id text.now }
{
    if text.is_empty() {
        return Err(LineFault::Identifier);
    }
    if text.len() > 8 {
        return Err(LineFault::Identifier);
    }
    hexadecimal(text).ok_or(LineFault::Identifier)
}

/// The number of an identifier.
#[tactic(auto, unfolding(crate::specs::Numbers::id_digits))]
pub(crate) fn id_digits(base: Base, text: &[u8]) -> Result<u64, LineFault>
    ensures { result ≡ id_digits base text.now }
{
    match base {
        Base::Hexadecimal => {
            let id = hexadecimal_id(text)?;
            Ok(u64::from(id))
        }
        Base::Decimal => number(9, text).ok_or(LineFault::Identifier),
    }
}

/// An identifier of 11 bits.
pub(crate) fn short_id(number: u64) -> Result<u32, LineFault>
    ensures { result ≡ short_id number }
{
    if number < 2048 {
        Ok(number as u32)
    } else {
        Err(LineFault::Identifier)
    }
}

/// An identifier of 29 bits, to which bit 31 is put.
pub(crate) fn long_id(number: u64) -> Result<u32, LineFault>
    ensures { result ≡ long_id number }
{
    if number < 1 << 29 {
        Ok(number as u32 + (1 << 31))
    } else {
        Err(LineFault::Identifier)
    }
}

fn small(number: u64) -> Result<u8, LineFault>
    ensures { result ≡ small number }
{
    if number < 256 {
        Ok(number as u8)
    } else {
        Err(LineFault::Data)
    }
}

fn hexadecimal_byte(text: &[u8]) -> Result<u8, LineFault>
    ensures { result ≡ hexadecimal_byte text.now }
{
    if text.len() != 2 {
        return Err(LineFault::Data);
    }
    let byte = hexadecimal(text).ok_or(LineFault::Data)?;
    small(u64::from(byte))
}

#[tactic(auto, unfolding(crate::specs::Numbers::byte_in))]
fn byte_in(base: Base, text: &[u8]) -> Result<u8, LineFault>
    ensures { result ≡ byte_in base text.now }
{
    match base {
        Base::Hexadecimal => hexadecimal_byte(text),
        Base::Decimal => {
            let byte = number(3, text).ok_or(LineFault::Data)?;
            small(byte)
        }
    }
}

/// The length that a digit says.
pub(crate) fn len_of(digit: u8) -> Result<u8, LineFault>
    ensures value { result ≡ len_of digit }
    ensures few { IfOk result (λ len. len ≤ 8) }
{
    if digit >= b'0' && digit <= b'8' {
        Ok(digit - b'0')
    } else {
        Err(LineFault::Data)
    }
}

/// The length that a word of one digit says.
#[tactic(auto, unfolding(crate::specs::Numbers::len_in))]
pub(crate) fn len_in(text: &[u8]) -> Result<u8, LineFault>
    ensures value { result ≡ len_in text.now }
    ensures few { IfOk result (λ len. len ≤ 8) }
{
    if text.len() != 1 {
        return Err(LineFault::Data);
    }
    len_of(text[0])
}

// Reads a byte from each of so many words.
fn bytes_in(base: Base, text: &[u8], body: &mut [u8]) -> Result<(), LineFault>
    ensures { MatchResult result (λ _. bytes_in base (length body.old) text.now ≡ Ok body.new) (λ fault. bytes_in base (length body.old) text.now ≡ Err fault) }
{
    let mut rest = text;
    for i in 0..body.len() {
        let byte = byte_in(base, word(rest))?;
        body[i] = byte;
        rest = after_word(rest);
    }
    Ok(())
}

/// The data bytes of a frame with so many, a word each.
#[tactic(auto, unfolding(crate::specs::Numbers::content_in))]
pub(crate) fn content_in(base: Base, len: u8, text: &[u8]) -> Result<Content, LineFault>
    requires { len ≤ 8 }
    ensures { result ≡ content_in base len text.now }
{
    let mut body = [0; 8];
    match bytes_in(base, text, &mut body[..usize::from(len)]) {
        Ok(()) => Ok(Content { body, len }),
        Err(fault) => Err(fault),
    }
}

/// What is seen of a frame with data, or of a remote frame, to whose identifier bit 30 is put.
pub(crate) fn message_of(at: u64, id: u32, content: Option<Content>) -> Message
    ensures { result ≡ message_of at id content }
{
    match content {
        Some(content) => {
            let body = content.body;
            Message {
                entry: Entry {
                    line: 0,
                    at,
                    id,
                    len: content.len,
                },
                body,
            }
        }
        None => Message {
            entry: Entry {
                line: 0,
                at,
                id: id | 1 << 30,
                len: 0,
            },
            body: [0; 8],
        },
    }
}

/// What is seen of an error frame.
pub(crate) fn error_frame(at: u64) -> Message
    ensures { result ≡ error_frame at }
{
    Message {
        entry: Entry {
            line: 0,
            at,
            id: 1 << 29,
            len: 0,
        },
        body: [0; 8],
    }
}
