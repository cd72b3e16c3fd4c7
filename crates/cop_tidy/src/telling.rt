//! What was changed, in words.

use crate::tidying::Tidied;
use cop_bytes::TextChange;
use cop_change::{Cause, Change};
use cop_eds::{Eds, EdsFault, parse};
use cop_eds_hazards::{Hazard, all_hazards, index_at, miscounts};
use std::alloc::{AllocError, Global};
use std::collections::BTreeSet;

/// The most bytes of a line that are shown.
const MOST: usize = 160;

/// The rule of a cause and its reason, as a text.
fn reason(cause: Cause) -> &'static str {
    match cause {
        Cause::Blank => "L1: a blank that CiA 306 does not have",
        Cause::Ruled => "L2: a comment or a rule",
        Cause::Spelling => "L3: another spelling of a header",
        Cause::Before => "L4: text before the first section",
        Cause::Unread => "L5: no key, in a section that nothing reads",
        Cause::BareKey => "L6: a key without its equals sign",
        Cause::SectionTwice => "D1: a section twice, the first counts",
        Cause::KeyTwice => "D2: a key twice, the first counts",
        Cause::Word => "N: a comment, quotes or another spelling",
        Cause::Zeros => "K1: zeros before an entry's number",
        Cause::Hexadecimal => "K2: hexadecimal without 0x",
        Cause::Count => "K3: the number of entries",
        Cause::Numbered => "K3: entries are numbered without gaps",
        Cause::Missing => "K4: an entry without a section",
        Cause::Unlisted => "K5: a section that no list named",
        Cause::ObjectType => "T1: a record or array by its sub sections, or by CiA 301",
        Cause::DataType => "T2: the DataType of CiA 301, of the array, or of a sub-index 0",
        Cause::Access => "T3: the access of CiA 301, of the array, of a sub-index 0, or --access",
        Cause::Value => "V: the same number in another spelling, or no number",
        Cause::LeftOut => "V: left out, since it has no one reading",
        Cause::Rates => "R: the rates that --rates gives",
        Cause::Compact => "C1: its sub sections are written out",
        Cause::CompactOf(_) => "C1: CompactSubObj of line ",
        Cause::PdoOf(_) => "C2: CompactPDO; the device has PDO ",
    }
}

/// Adds the rule and the reason of a cause in brackets.
fn put_reason(alloc: Global, text: &mut Vec<u8>, cause: Cause) -> Result<(), AllocError> {
    text.extend_from_slice(b" (")?;
    text.extend_from_slice(reason(cause).as_bytes())?;
    match cause {
        Cause::CompactOf(line) => {
            text.extend_from_slice(format!(in alloc; "{line}")?.as_bytes())?;
        }
        Cause::PdoOf(number) => {
            text.extend_from_slice(format!(in alloc; "{number}")?.as_bytes())?;
        }
        _ => {}
    }
    text.extend_from_slice(b")\n")
}

/// Adds the text of a line, with `?` for what cannot be shown.
fn put_shown(text: &mut Vec<u8>, line: &[u8]) -> Result<(), AllocError> {
    if line.is_empty() {
        return text.extend_from_slice(b"nothing");
    }
    for byte in line.get(..MOST).unwrap_or(line) {
        text.push(if matches!(*byte, 0x20..=0x7E) {
            *byte
        } else {
            b'?'
        })?;
    }
    Ok(())
}

/// Adds the line of a change.
fn put_change(alloc: Global, text: &mut Vec<u8>, change: &Change) -> Result<(), AllocError> {
    let place = change.place;
    if change.is_added {
        text.extend_from_slice(format!(in alloc; "{place}+ ")?.as_bytes())?;
    } else {
        text.extend_from_slice(format!(in alloc; "{place}: ")?.as_bytes())?;
        put_shown(text, &change.old)?;
        text.extend_from_slice(b" -> ")?;
    }
    put_shown(text, &change.new)?;
    put_reason(alloc, text, change.cause)
}

/// The line of a change of the whole text.
fn text_change(alloc: Global, change: TextChange) -> Result<String, AllocError> {
    match change {
        TextChange::Decoded => {
            String::from_str(alloc, "text: UTF-16 -> UTF-8 (B1: two bytes a letter)\n")
        }
        TextChange::Cut(n) => format!(in alloc;
            "text: {n} bytes at the end -> nothing (B2: an end mark of DOS, or padding)\n"
        ),
        TextChange::OldEnds(n) => format!(in alloc;
            "text: {n} line ends CR -> LF (B3: old line ends)\n"
        ),
        TextChange::LongEnds(n) => format!(in alloc;
            "text: {n} line ends CR CR LF -> CR LF (B3: old line ends)\n"
        ),
    }
}

/// Adds the lines of warnings, each with its number and its line of the text. A PDO's record that no list names is told at its first
/// section alone.
fn put_warnings(
    alloc: Global,
    text: &mut Vec<u8>,
    eds: &Eds<'_>,
    warnings: &[Hazard],
) -> Result<(), AllocError> {
    let mut records = BTreeSet::new(alloc);
    for warning in warnings {
        let (number, line) = (warning.number, warning.line);
        if number == 80 && !records.insert(index_at(eds, line))? {
            continue;
        }
        text.extend_from_slice(format!(in alloc; "warning {number} {line}\n")?.as_bytes())?;
    }
    Ok(())
}

/// Adds what a text leaves implicit that is read: the hazards that were left, and numbers of PDOs that its lists do not name.
fn put_all_warnings(alloc: Global, text: &mut Vec<u8>, source: &[u8]) -> Result<(), AllocError> {
    match parse(alloc, source) {
        Ok(eds) => {
            put_warnings(alloc, text, &eds, &all_hazards(alloc, &eds)?)?;
            put_warnings(alloc, text, &eds, &miscounts(alloc, &eds)?)
        }
        Err(EdsFault::Refused(_)) => Ok(()),
        Err(EdsFault::Memory) => Err(AllocError),
    }
}

/// What was changed: a line for each change of the whole text, one for each change of a line, one for each warning on the text that
/// came of it, by its line, the number of lines that are left out, and that of changes.
pub fn told(alloc: Global, tidied: &Tidied) -> Result<Vec<u8>, AllocError> {
    let mut text = Vec::new(alloc);
    for change in tidied.text_changes.iter() {
        text.extend_from_slice(text_change(alloc, *change)?.as_bytes())?;
    }
    put_changes(alloc, &mut text, &tidied.changes)?;
    put_all_warnings(alloc, &mut text, &tidied.text)?;
    let left_out = tidied
        .changes
        .iter()
        .filter(|change| change.cause == Cause::LeftOut)
        .count();
    if left_out > 0 {
        text.extend_from_slice(format!(in alloc; "left out {left_out}\n")?.as_bytes())?;
    }
    let count = tidied
        .changes
        .len()
        .saturating_add(tidied.text_changes.len());
    text.extend_from_slice(format!(in alloc; "changes {count}\n")?.as_bytes())?;
    Ok(text)
}

/// Adds the lines of changes.
fn put_changes(alloc: Global, text: &mut Vec<u8>, changes: &[Change]) -> Result<(), AllocError> {
    for change in changes {
        put_change(alloc, text, change)?;
    }
    Ok(())
}
