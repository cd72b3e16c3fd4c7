//! Ends of lines that CiA 306 does not have.

ghost use Rattle.std.specs.Prelude.{◌≡◌, ◌==◌, map, IfOk};
ghost use Rattle.std.specs.List.{list_any};
ghost use Rattle.cop_bytes.specs.Bytes.{short_ends, new_end, with_ends, old_ends, is_last_spare, long_ends, unless_none, ending};

use crate::change::TextChange;
use std::alloc::{AllocError, Global};

/// The text with one CR of each run of them before LF.
fn short_ends(alloc: Global, text: &[u8]) -> Result<Vec<u8>, AllocError>
    ensures { IfOk result (λ e. e.items ≡ short_ends text.now) }
{
    let mut kept = Vec::new(alloc);
    let mut next = 0;
    let mut ends = false;
    let mut at = text.len();
    while at > 0 {
        at -= 1;
        let byte = text[at];
        if !(byte == b'\r' && (next == b'\r' && ends)) {
            kept.push(byte)?;
        }
        ends = if byte == b'\r' { ends } else { byte == b'\n' };
        next = byte;
    }
    kept.reverse();
    Ok(kept)
}

fn new_end(byte: u8) -> u8
    ensures { result ≡ new_end byte }
{
    if byte == b'\r' { b'\n' } else { byte }
}

/// The text with LF in the place of each CR.
fn new_ends(alloc: Global, text: &[u8]) -> Result<Vec<u8>, AllocError>
    ensures { IfOk result (λ e. e.items ≡ map new_end text.now) }
{
    let mut ended = Vec::new(alloc);
    for byte in text {
        ended.push(new_end(*byte))?;
    }
    Ok(ended)
}

pub(crate) fn has_end(text: &[u8]) -> bool
    ensures { result ≡ list_any (λ b. b == 10) text.now }
{
    text.iter().any(|b| *b == b'\n')
}

/// The text with ends of lines that CiA 306 has.
pub fn with_ends(alloc: Global, text: &[u8]) -> Result<Vec<u8>, AllocError>
    ensures { IfOk result (λ e. e.items ≡ with_ends text.now) }
{
    if has_end(text) {
        short_ends(alloc, text)
    } else {
        new_ends(alloc, text)
    }
}

/// How many CR a text has.
fn old_ends(text: &[u8]) -> usize
    ensures value { result ≡ old_ends text.now }
{
    let mut count = 0;
    let mut rest = text;
    while let Some((first, tail)) = rest.split_first() {
        if *first == b'\r' {
            count += 1;
        }
        rest = tail;
    }
    count
}

/// Whether the last CR but one of a run before LF stands here.
fn is_last_spare(first: u8, rest: &[u8]) -> bool
    ensures { result ≡ is_last_spare first rest.now }
{
    first == b'\r' && rest.starts_with(b"\r\n")
}

/// How many runs of CR before LF are longer than one.
fn long_ends(text: &[u8]) -> usize
    ensures value { result ≡ long_ends text.now }
{
    let mut count = 0;
    let mut rest = text;
    while let Some((first, tail)) = rest.split_first() {
        if is_last_spare(*first, tail) {
            count += 1;
        }
        rest = tail;
    }
    count
}

fn unless_none(count: usize, change: TextChange) -> Option<TextChange>
    ensures { result ≡ unless_none count change }
{
    if count == 0 { None } else { Some(change) }
}

/// What is told of the ends of lines.
pub fn ending(text: &[u8]) -> Option<TextChange>
    ensures { result ≡ ending text.now }
{
    if has_end(text) {
        let count = long_ends(text);
        unless_none(count, TextChange::LongEnds(count))
    } else {
        let count = old_ends(text);
        unless_none(count, TextChange::OldEnds(count))
    }
}
