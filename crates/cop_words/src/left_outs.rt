//! What is said of values and limits that `tidy` left out of a text.

use crate::findings::{EdsLine, Finding};
use crate::hazards::{Text, line_of, shown};
use crate::names::Devices;
use cop_eds_hazards::LEFT_OUT;
use std::alloc::{AllocError, Global};
use std::str;

/// What is said of lines that are left out, the first of which is this one.
fn left_out_words(
    alloc: Global,
    text: Text<'_, '_, '_>,
    first: usize,
    count: usize,
) -> Result<String, AllocError> {
    let line = line_of(text.eds, first);
    let said = shown(alloc, line.strip_prefix(LEFT_OUT).unwrap_or(line))?;
    let devices = Devices(text);
    let more = count.saturating_sub(1);
    if more == 0 {
        return format!(in alloc;
            "{said} is left out of {devices}, since it has no one reading: a plan takes a value for 0 or its default, and a limit for none. Correct the line if the machine needs it"
        );
    }
    format!(in alloc;
        "{said} and {more} more lines are left out of {devices}, since they have no one reading: a plan takes values for 0 or their defaults, and limits for none. Correct the lines that the machine needs"
    )
}

/// Adds that `tidy` left lines out of a text, by the first of them.
pub(crate) fn push_left_out(
    findings: &mut Vec<Finding>,
    alloc: Global,
    text: Text<'_, '_, '_>,
) -> Result<(), AllocError> {
    let (mut first, mut count) = (0_usize, 0_usize);
    for place in 1..=text.eds.lines().len() {
        if line_of(text.eds, place).starts_with(LEFT_OUT) {
            first = if count == 0 { place } else { first };
            count = count.saturating_add(1);
        }
    }
    if count == 0 {
        return Ok(());
    }
    let file = str::from_utf8(text.row.eds.as_bytes()).unwrap_or("");
    findings.push(Finding {
        number: Some(119),
        node: Some(text.row.node),
        record: Some(text.row.place),
        at: Some(EdsLine {
            file: String::from_str(alloc, file)?,
            line: first,
        }),
        words: left_out_words(alloc, text, first, count)?,
    })?;
    Ok(())
}
