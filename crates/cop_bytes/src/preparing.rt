//! The bytes that are read as lines.

ghost use Rattle.std.specs.Prelude.{◌≡◌, ◌≤◌, ◌<◌, ◌^◌, ◌++◌, ◌==◌, true, length, None, Some, IfOk, IfErr, OnOk, vec_len};
ghost use Rattle.std.specs.List.{list_any};
ghost use Rattle.cop_bytes.specs.Bytes.{decoding, cutting, uncut, ended, line_end, ends_before_zero, line_of_zero, listed, letter_changes, needs_nothing, prepared, refused_line, text_changes};

use crate::change::TextChange;
use crate::ends::{ending, has_end, with_ends};
use crate::padding::uncut_len;
use crate::plain::needs_nothing;
use crate::utf16::{is_marked, letters_of};
use std::alloc::{AllocError, Global};

/// The bytes that are read as lines, and what was changed to come to them.
#[derive(Debug, Drop)]
pub struct Readable {
    pub text: Vec<u8>,
    pub changes: Vec<TextChange>,
}

/// The text without an end mark of DOS or padding behind it.
fn uncut(text: &[u8]) -> &[u8]
    ensures value { result.now ≡ uncut text.now }
    ensures bound { length result.now ≤ length text.now }
{
    &text[..uncut_len(text)]
}

fn has_zero(text: &[u8]) -> bool
    ensures { result ≡ list_any (λ b. b == 0) text.now }
{
    text.iter().any(|b| *b == 0)
}

/// What ends a line: LF, or CR where no LF stands.
fn line_end(text: &[u8]) -> u8
    ensures { result ≡ line_end text.now }
{
    if has_end(text) { b'\n' } else { b'\r' }
}

/// How many lines end before the first 00h.
fn ends_before_zero(text: &[u8], end: u8) -> usize
    ensures value { result ≡ ends_before_zero end text.now }
    ensures bound { result ≤ length text.now }
{
    let mut count = 0;
    for b in text {
        if *b == 0 {
            return count;
        }
        if *b == end {
            count += 1;
        }
    }
    count
}

/// The number of the line of the first 00h.
fn line_of_zero(text: &[u8]) -> usize
    requires { length text.now < 2 ^ 63 }
    ensures { result ≡ line_of_zero text.now }
{
    ends_before_zero(text, line_end(text)) + 1
}

/// The text with ends of lines that CiA 306 has, or the line of a 00h, which no text has.
fn ended(alloc: Global, text: &[u8]) -> Result<Result<Vec<u8>, usize>, AllocError>
    ensures ok { IfOk result (λ r. IfOk r (λ e. ended text.now ≡ Some e.items)) }
    ensures err { IfOk result (λ r. IfErr r (λ line. ended text.now ≡ None)) }
    ensures line { IfOk result (λ r. IfErr r (λ line. line ≡ line_of_zero (uncut text.now))) }
{
    let kept = uncut(text);
    if has_zero(kept) {
        return Ok(Err(line_of_zero(kept)));
    }
    Ok(Ok(with_ends(alloc, kept)?))
}

/// What is told of UTF-16.
fn decoding(text: &[u8]) -> Option<TextChange>
    ensures { result ≡ decoding text.now }
{
    if is_marked(text) {
        Some(TextChange::Decoded)
    } else {
        None
    }
}

/// What is told of bytes that are cut at the end.
fn cutting(text: &[u8]) -> Option<TextChange>
    ensures { result ≡ cutting text.now }
{
    let kept = uncut(text).len();
    if kept == text.len() {
        None
    } else {
        Some(TextChange::Cut(text.len() - kept))
    }
}

fn tell(changes: &mut Vec<TextChange>, change: Option<TextChange>) -> Result<(), AllocError>
    ensures { OnOk result (changes.new.items ≡ changes.old.items ++ listed change) }
{
    if let Some(change) = change {
        changes.push(change)?;
    }
    Ok(())
}

/// What is told of a text with these letters.
fn told(alloc: Global, text: &[u8], letters: &[u8]) -> Result<Vec<TextChange>, AllocError>
    ensures { IfOk result (λ t. t.items ≡ listed (decoding text.now) ++ letter_changes (Some letters.now)) }
{
    let mut changes = Vec::new(alloc);
    tell(&mut changes, decoding(text))?;
    tell(&mut changes, cutting(letters))?;
    tell(&mut changes, ending(uncut(letters)))?;
    Ok(changes)
}

/// What is read as lines, and what is told of it.
#[tactic(auto, unfolding(crate::specs::Bytes::prepared, crate::specs::Bytes::refused_line, crate::specs::Bytes::text_changes))]
fn made(alloc: Global, text: &[u8]) -> Result<Result<Readable, usize>, AllocError>
    ensures text { IfOk result (λ r. IfOk r (λ p. prepared text.now ≡ Some p.text.items)) }
    ensures changes { IfOk result (λ r. IfOk r (λ p. p.changes.items ≡ text_changes text.now)) }
    ensures no_text { IfOk result (λ r. IfErr r (λ line. prepared text.now ≡ None)) }
    ensures line { IfOk result (λ r. IfErr r (λ line. line ≡ refused_line text.now)) }
{
    let Some(letters) = letters_of(alloc, text)? else {
        return Ok(Err(0));
    };
    let changes = told(alloc, text, &letters)?;
    match ended(alloc, &letters)? {
        Ok(text) => Ok(Ok(Readable { text, changes })),
        Err(line) => Ok(Err(line)),
    }
}

/// The bytes of a text that needs nothing, as they are.
#[tactic(auto, using(crate::proofs::PlainLemmas::plain_prepared, crate::proofs::PlainLemmas::plain_untold))]
fn unchanged(alloc: Global, text: &[u8]) -> Result<Readable, AllocError>
    requires { needs_nothing text.now ≡ true }
    ensures text { IfOk result (λ p. prepared text.now ≡ Some p.text.items) }
    ensures changes { IfOk result (λ p. p.changes.items ≡ text_changes text.now) }
    ensures same { IfOk result (λ p. p.text.items ≡ text.now) }
{
    Ok(Readable {
        text: Vec::from_slice(alloc, text)?,
        changes: Vec::new(alloc),
    })
}

/// The bytes that are read as lines: UTF-16 becomes UTF-8, an end mark of DOS or padding is cut, and the ends of lines become those
/// of CiA 306. Where nothing is told they are as they were. Where the bytes are no text, the line at which this shows, from 1, and 0
/// where they are no UTF-16.
#[tactic(auto, using(crate::proofs::ToldLemmas::same_where_untold))]
pub fn prepared(alloc: Global, text: &[u8]) -> Result<Result<Readable, usize>, AllocError>
    ensures text { IfOk result (λ r. IfOk r (λ p. prepared text.now ≡ Some p.text.items)) }
    ensures changes { IfOk result (λ r. IfOk r (λ p. p.changes.items ≡ text_changes text.now)) }
    ensures same { IfOk result (λ r. IfOk r (λ p. vec_len p.changes ≡ 0 → p.text.items ≡ text.now)) }
    ensures no_text { IfOk result (λ r. IfErr r (λ line. prepared text.now ≡ None)) }
    ensures line { IfOk result (λ r. IfErr r (λ line. line ≡ refused_line text.now)) }
{
    if needs_nothing(text) {
        return Ok(Ok(unchanged(alloc, text)?));
    }
    match made(alloc, text)? {
        Ok(readable) => Ok(Ok(readable)),
        Err(line) => Ok(Err(line)),
    }
}
