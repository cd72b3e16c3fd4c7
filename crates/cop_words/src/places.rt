//! Where records and lines stand in a text.

ghost use Rattle.std.specs.Prelude.{◌≤◌, length};

use std::alloc::{AllocError, Global};

/// A record or a line of a text.
#[derive(Clone, Copy, Debug)]
pub struct Place<'a> {
    /// The number of its first line, from 1.
    pub line: u64,
    /// Its bytes, without the line end.
    pub text: &'a [u8],
}

/// What a quote means at the place that is reached in a record.
#[derive(Clone, Copy)]
enum Quote {
    /// It opens a field, or goes on with one.
    Opens,
    /// It closes the field.
    Closes,
    /// It is a character as others are.
    Stands,
}

/// What a quote means after a byte.
fn after(quote: Quote, byte: u8) -> Quote {
    match quote {
        Quote::Opens if byte == b'"' => Quote::Closes,
        Quote::Closes if byte == b'"' => Quote::Opens,
        Quote::Closes => Quote::Closes,
        _ if byte == b',' => Quote::Opens,
        _ => Quote::Stands,
    }
}

/// Where the record that begins a text ends: a record goes on over the line ends in its quotes.
fn record_end(text: &[u8]) -> usize
    ensures { result ≤ length text.now }
{
    let mut quote = Quote::Opens;
    for (at, byte) in text.iter().enumerate() {
        if !matches!(quote, Quote::Closes) && (*byte == b'\n' || *byte == b'\r') {
            return at;
        }
        quote = after(quote, *byte);
    }
    text.len()
}

/// How many lines end in a text.
fn line_ends(text: &[u8]) -> u64 {
    text.iter().filter(|byte| **byte == b'\n').count() as u64
}

/// The record of a number in a CSV text. The header is number 0, and empty lines are no records.
pub fn record_at(text: &[u8], number: u64) -> Option<Place<'_>> {
    let mut rest = text;
    let mut line: u64 = 1;
    let mut left = number;
    'records: while !rest.is_empty() {
        let end = record_end(rest);
        if end > 0 {
            if left == 0 {
                return Some(Place {
                    line,
                    text: &rest[..end],
                });
            }
            left -= 1;
        }
        let next = (end + 1).min(rest.len());
        line = line.saturating_add(line_ends(&rest[..next]));
        rest = &rest[next..];
    }
    None
}

fn is_line_end(byte: u8) -> bool {
    byte == b'\n' || byte == b'\r'
}

/// A CSV text without the record of a number. Line ends stay, so that all lines keep their numbers.
pub(crate) fn without_record(
    alloc: Global,
    text: &[u8],
    number: u64,
) -> Result<Vec<u8>, AllocError> {
    let mut rest = Vec::new(alloc);
    let mut quote = Quote::Opens;
    let mut ended: u64 = 0;
    let mut is_record = false;
    for byte in text {
        let is_end = !matches!(quote, Quote::Closes) && is_line_end(*byte);
        if !is_end {
            quote = after(quote, *byte);
            is_record = true;
        } else {
            quote = Quote::Opens;
            // An empty line is no record.
            ended = ended.saturating_add(u64::from(is_record));
            is_record = false;
        }
        if is_line_end(*byte) || ended != number {
            rest.push(*byte)?;
        }
    }
    Ok(rest)
}

/// A line without the CR that may end it.
fn without_cr(line: &[u8]) -> &[u8] {
    match line {
        [rest @ .., b'\r'] => rest,
        _ => line,
    }
}

/// The line of a number in a text, from 1.
pub fn line_at(text: &[u8], number: usize) -> Option<Place<'_>> {
    let mut line: usize = 0;
    for part in text.split(|byte| *byte == b'\n') {
        line = line.saturating_add(1);
        if line == number {
            return Some(Place {
                line: line as u64,
                text: without_cr(part),
            });
        }
    }
    None
}
