//! What is said of values that a text gives a device beside the ones that it begins with.

use crate::findings::{EdsLine, Finding};
use crate::hazards::{Text, line_of, shown};
use crate::names::Devices;
use cop_eds::{Amount, Eds};
use std::alloc::{AllocError, Global};
use std::str;

/// Whether two amounts are one number, in whichever base they are written.
fn is_same_amount(left: Amount, right: Amount) -> bool {
    match (left, right) {
        (
            Amount::Decimal(left) | Amount::Hexadecimal(left),
            Amount::Decimal(right) | Amount::Hexadecimal(right),
        ) => left == right,
        _ => left == right,
    }
}

/// Whether a section's value is the one that its device begins with.
fn is_default(eds: &Eds<'_>, section: usize) -> bool {
    let value = eds.amount(section, b"ParameterValue");
    match (value, eds.amount(section, b"DefaultValue")) {
        (Ok(Some((_, value))), Ok(Some((_, default)))) => is_same_amount(value, default),
        _ => eds.value(section, b"ParameterValue") == eds.value(section, b"DefaultValue"),
    }
}

/// The line of an object's ParameterValue, if that is not its DefaultValue.
fn changed_line(eds: &Eds<'_>, section: usize) -> Option<usize> {
    let (line, _) = eds.entry(section, b"ParameterValue")?;
    if is_default(eds, section) {
        None
    } else {
        Some(line)
    }
}

/// What is said of values, the first of which stands at a line.
fn changed_words(
    alloc: Global,
    text: Text<'_, '_, '_>,
    first: usize,
    count: usize,
) -> Result<String, AllocError> {
    let line = shown(alloc, line_of(text.eds, first))?;
    let devices = Devices(text);
    let more = count.saturating_sub(1);
    if more == 0 {
        return format!(in alloc;
            "{line} of {devices} is not the DefaultValue: the plan counts on it, and does not send it. Load this file into the device, or name its maker's EDS file"
        );
    }
    format!(in alloc;
        "{line} and {more} more values of {devices} are not the DefaultValues: the plan counts on them, and does not send them. Load this file into the device, or name its maker's EDS file"
    )
}

/// Adds that a text gives its devices other values than they begin with, by the first of these lines.
pub(crate) fn push_parameters(
    findings: &mut Vec<Finding>,
    alloc: Global,
    text: Text<'_, '_, '_>,
) -> Result<(), AllocError> {
    let (mut first, mut count) = (usize::MAX, 0_usize);
    for object in text.eds.objects() {
        if let Some(line) = changed_line(text.eds, object.place.section) {
            first = first.min(line);
            count = count.saturating_add(1);
        }
    }
    if count == 0 {
        return Ok(());
    }
    let file = str::from_utf8(text.row.eds.as_bytes()).unwrap_or("");
    findings.push(Finding {
        number: Some(111),
        node: Some(text.row.node),
        record: Some(text.row.place),
        at: Some(EdsLine {
            file: String::from_str(alloc, file)?,
            line: first,
        }),
        words: changed_words(alloc, text, first, count)?,
    })?;
    Ok(())
}
