//! Lines that are no lines of CiA 306.

use crate::names::{is_same_section, is_spelled, section_text};
use crate::row::Row;
use crate::text::{
    Form, after_first, before_first, from, is_blank, joined, name_of, trim_start, upto,
};
use cop_change::Cause;
use cop_tidy_lines::{Key, LineKind, SectionName, kind_meant, loose_start};
use std::alloc::{AllocError, Global};

/// Drops the blanks at the front of a line, where some are none of CiA 306.
fn drop_blanks(alloc: Global, row: &mut Row<'_>) -> Result<(), AllocError> {
    let rest = loose_start(row.body());
    let front = upto(row.body(), row.body().len().saturating_sub(rest.len()));
    if front.iter().any(|byte| !is_blank(*byte)) {
        let body = Vec::from_slice(alloc, rest)?;
        row.set(body, Cause::Blank);
    }
    Ok(())
}

/// The name of a header in the spelling of CiA 306, or as it stands.
fn spelled_name(alloc: Global, name: SectionName, text: &[u8]) -> Result<Vec<u8>, AllocError> {
    if is_spelled(name, text) {
        return Vec::from_slice(alloc, text);
    }
    match section_text(alloc, name)? {
        Some(spelled) if !is_same_section(text, &spelled) => Ok(spelled),
        _ => Vec::from_slice(alloc, text),
    }
}

/// The line of a header: its name, the blanks behind it and what follows, which becomes a comment.
fn header_line(
    alloc: Global,
    name: &[u8],
    signs: &[u8],
    tail: &[u8],
) -> Result<Vec<u8>, AllocError> {
    let mut line = joined(alloc, b"[", name)?;
    line.extend_from_slice(b"]")?;
    line.extend_from_slice(signs)?;
    if !tail.is_empty() && !tail.starts_with(b";") {
        if signs.is_empty() {
            line.extend_from_slice(b" ")?;
        }
        line.extend_from_slice(b"; ")?;
    }
    line.extend_from_slice(tail)?;
    Ok(line)
}

/// Writes a line that is meant as a header of this name.
fn mend_header(alloc: Global, row: &mut Row<'_>, name: SectionName) -> Result<(), AllocError> {
    let line = trim_start(row.body());
    let text = spelled_name(alloc, name, name_of(line))?;
    let behind = after_first(from(line, 1), b']');
    let tail = trim_start(behind);
    let signs = upto(behind, behind.len().saturating_sub(tail.len()));
    let body = header_line(alloc, &text, signs, tail)?;
    if body.as_slice() != row.body() {
        row.set(body, Cause::Spelling);
    }
    Ok(())
}

/// Whether a line is a comment of another kind, or a rule that is drawn.
fn is_drawn(line: &[u8]) -> bool {
    matches!(line, [b'#', ..] | [b'/', b'/', ..])
        || (3 <= line.len()
            && line
                .iter()
                .all(|byte| is_blank(*byte) || b"-=*_~+#/.".contains(byte)))
}

/// Why a line becomes a comment.
fn silent_cause(line: &[u8], section: Option<SectionName>) -> Cause {
    if is_drawn(trim_start(line)) {
        Cause::Ruled
    } else if section.is_none() {
        Cause::Before
    } else {
        Cause::Unread
    }
}

/// Makes a line a comment that says nothing.
fn mend_silent(
    alloc: Global,
    row: &mut Row<'_>,
    section: Option<SectionName>,
) -> Result<(), AllocError> {
    if row.form() == Form::Comment {
        return Ok(());
    }
    let cause = silent_cause(row.body(), section);
    row.comment(alloc, cause)
}

/// Gives a key its equals sign.
fn add_sign(alloc: Global, row: &mut Row<'_>) -> Result<(), AllocError> {
    let key = before_first(row.body(), b':');
    let mut body = joined(alloc, key, b"=")?;
    body.extend_from_slice(after_first(row.body(), b':'))?;
    row.set(body, Cause::BareKey);
    Ok(())
}

/// Gives a line that states this key its equals sign, where it has none.
fn mend_pair(alloc: Global, row: &mut Row<'_>, key: Key) -> Result<(), AllocError> {
    if row.form() == Form::Pair {
        row.meant = Some(key);
        Ok(())
    } else {
        add_sign(alloc, row)
    }
}

/// Mends a line, which stands in a section of this name, and answers for the section of the next line.
fn mend(
    alloc: Global,
    row: &mut Row<'_>,
    section: Option<SectionName>,
) -> Result<Option<SectionName>, AllocError> {
    drop_blanks(alloc, row)?;
    match kind_meant(alloc, section, loose_start(row.body()))? {
        LineKind::Header(name) => {
            mend_header(alloc, row, name)?;
            return Ok(Some(name));
        }
        LineKind::Silent => mend_silent(alloc, row, section)?,
        LineKind::Pair(key) => mend_pair(alloc, row, key)?,
        LineKind::Unknown => {}
    }
    Ok(section)
}

/// Mends each line that is none of CiA 306, or spells a header in another way.
pub fn mend_lines(alloc: Global, rows: &mut Vec<Row<'_>>) -> Result<(), AllocError> {
    let mut section = None;
    for row in rows.iter_mut() {
        section = mend(alloc, row, section)?;
    }
    Ok(())
}
