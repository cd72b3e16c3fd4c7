//! What is said of a rule, and of the record or line that breaks it.

use crate::places::{Place, record_at};
use crate::separators::seen;
use cop_rules::{Explanation, NONE_LISTED, explained};
use std::alloc::{AllocError, Global};
use std::str;

/// The most characters of a record or a line that are shown.
const SHOWN: usize = 120;

/// A text that is read, and the name of its file.
#[derive(Clone, Copy, Debug)]
pub struct Source<'a> {
    pub name: &'a str,
    pub text: &'a [u8],
}

/// A byte of a text that is no UTF-8, as it may be shown.
fn shown_byte(byte: u8) -> u8 {
    if byte >= 0x20 && byte < 0x7F {
        byte
    } else {
        b'?'
    }
}

/// Whether a character may be shown: none that moves the cursor, turns the direction of the text, or is not seen.
fn is_shown(c: char) -> bool {
    !c.is_control()
        && !matches!(
            c,
            '\u{AD}'
                | '\u{61C}'
                | '\u{200B}'..='\u{200F}'
                | '\u{2028}'..='\u{202E}'
                | '\u{2060}'..='\u{206F}'
                | '\u{FEFF}'
        )
}

/// Adds the first characters of a text as they may be shown, others as question marks.
fn push_text(words: &mut Vec<u8>, text: &str) -> Result<(), AllocError> {
    let mut bytes = [0; 4];
    for c in text.chars().take(SHOWN) {
        let c = if is_shown(c) { c } else { '?' };
        words.extend_from_slice(c.encode_utf8(&mut bytes).as_bytes())?;
    }
    if text.chars().count() > SHOWN {
        words.extend_from_slice(b" ..")?;
    }
    Ok(())
}

/// The same of bytes that are no text: each that is no printable character of ASCII as a question mark.
fn push_bytes(words: &mut Vec<u8>, text: &[u8]) -> Result<(), AllocError> {
    for byte in text.iter().take(SHOWN) {
        words.push(shown_byte(*byte))?;
    }
    if text.len() > SHOWN {
        words.extend_from_slice(b" ..")?;
    }
    Ok(())
}

/// Adds the beginning of a record or a line as it may be shown.
pub(crate) fn push_shown(words: &mut Vec<u8>, text: &[u8]) -> Result<(), AllocError> {
    match str::from_utf8(text) {
        Ok(text) => push_text(words, text),
        Err(_) => push_bytes(words, text),
    }
}

/// Adds the name of a file and a line of it with its text.
pub(crate) fn push_place(
    words: &mut Vec<u8>,
    alloc: Global,
    name: &str,
    place: &Place<'_>,
) -> Result<(), AllocError> {
    let line = place.line;
    let begin = format!(in alloc; "{name}, line {line}: ")?;
    words.extend_from_slice(begin.as_bytes())?;
    push_shown(words, place.text)?;
    words.push(b'\n')?;
    Ok(())
}

/// Adds the name of a file in which a record is wanted past its last one.
fn push_end(words: &mut Vec<u8>, alloc: Global, name: &str) -> Result<(), AllocError> {
    let line = format!(in alloc; "{name}, past its last record\n")?;
    words.extend_from_slice(line.as_bytes())?;
    Ok(())
}

/// Adds the lines of an explanation: what is broken, what is usually behind it, and what is right.
pub(crate) fn push_explanation(
    words: &mut Vec<u8>,
    alloc: Global,
    found: &Explanation,
) -> Result<(), AllocError> {
    let (number, rule) = (found.number, found.rule);
    let (cause, right) = (found.cause, found.right);
    let lines = format!(in alloc; "rule {number}: {rule}\nusually: {cause}\nright: {right}\n")?;
    words.extend_from_slice(lines.as_bytes())?;
    Ok(())
}

/// Adds the lines on a rule.
pub(crate) fn push_rule(words: &mut Vec<u8>, alloc: Global, number: u8) -> Result<(), AllocError> {
    match explained(number) {
        Some(found) => push_explanation(words, alloc, found),
        None => Ok(()),
    }
}

/// What the rule of a number says, and of that of rates also what it says where they are listed. Nothing for a number that
/// no refusal has.
pub fn rule_words(alloc: Global, number: u8) -> Result<Vec<u8>, AllocError> {
    let mut words = Vec::new(alloc);
    push_rule(&mut words, alloc, number)?;
    if number == NONE_LISTED.number {
        push_explanation(&mut words, alloc, &NONE_LISTED)?;
    }
    Ok(words)
}

/// What is said of a record that is refused: where it stands, and the rule that it breaks.
pub fn record_words(
    alloc: Global,
    source: Source<'_>,
    number: u8,
    record: u64,
) -> Result<Vec<u8>, AllocError> {
    let mut words = Vec::new(alloc);
    let place = record_at(source.text, record);
    match &place {
        Some(place) => push_place(&mut words, alloc, source.name, place)?,
        None => push_end(&mut words, alloc, source.name)?,
    }
    if let Some(said) = seen(source.text, place.map(|place| place.text)) {
        words.extend_from_slice(said.as_bytes())?;
    }
    push_rule(&mut words, alloc, number)?;
    Ok(words)
}
