//! The rates that are chosen for a device that states none.

use crate::names::key_text;
use crate::outline::{Outline, Text, set_key, value_in};
use crate::row::{Addition, Row};
use crate::text::pair;
use cop_change::Cause;
use cop_frame::Rate;
use cop_tidy_lines::{Key, SectionName};
use std::alloc::{AllocError, Global};

/// The key of a rate.
fn rate_key(alloc: Global, rate: Rate) -> Result<Vec<u8>, AllocError> {
    let text = key_text(alloc, Key::BaudRate(rate))?;
    Ok(text.unwrap_or(Vec::new(alloc)))
}

/// Whether a text states some rate, or that it is not supported.
fn are_stated(alloc: Global, rows: &[Row<'_>], outline: &Outline) -> Result<bool, AllocError> {
    let Some(section) = outline.named(SectionName::DeviceInfo) else {
        return Ok(false);
    };
    for rate in Rate::ALL {
        if value_in(rows, section, &rate_key(alloc, rate)?).is_some() {
            return Ok(true);
        }
    }
    Ok(false)
}

/// Adds a rate to DeviceInfo, or behind the last row where that is absent.
fn add_rate(
    alloc: Global,
    rows: &mut [Row<'_>],
    additions: &mut Vec<Addition>,
    outline: &Outline,
    rate: Rate,
) -> Result<(), AllocError> {
    let key = rate_key(alloc, rate)?;
    if let Some(section) = outline.named(SectionName::DeviceInfo) {
        return set_key(alloc, rows, additions, section, &key, b"1", Cause::Rates);
    }
    add_line(rows, additions, pair(alloc, &key, b"1")?)
}

/// Adds a line behind the last row.
fn add_line(
    rows: &[Row<'_>],
    additions: &mut Vec<Addition>,
    body: Vec<u8>,
) -> Result<(), AllocError> {
    additions.push(Addition {
        behind: rows.len().saturating_sub(1),
        body,
        cause: Cause::Rates,
    })?;
    Ok(())
}

/// Adds the rates that are chosen, where a text states none.
pub fn add_rates<'a>(
    alloc: Global,
    text: Text<'a>,
    rates: &[Rate],
) -> Result<Text<'a>, AllocError> {
    let Text { mut rows, outline } = text;
    if rates.is_empty() || are_stated(alloc, &rows, &outline)? {
        return Ok(Text { rows, outline });
    }
    let mut additions = Vec::new(alloc);
    if outline.named(SectionName::DeviceInfo).is_none() {
        add_line(
            &rows,
            &mut additions,
            Vec::from_slice(alloc, b"[DeviceInfo]")?,
        )?;
    }
    for rate in Rate::ALL {
        if rates.contains(&rate) {
            add_rate(alloc, &mut rows, &mut additions, &outline, rate)?;
        }
    }
    Text { rows, outline }.with(alloc, additions)
}
