//! Values and limits of the objects that a dictionary holds.

use crate::keys::{key_at, respell_keys};
use crate::numbers::{amount_text, bytes_text};
use crate::outline::{Section, key_row, value_in};
use crate::row::Row;
use crate::text::{joined, same_name};
use crate::types::{Main, address, stated};
use cop_change::Cause;
use cop_dict::DataType;
use cop_eds::Amount;
use cop_eds_hazards::LEFT_OUT;
use cop_tidy_lines::{
    Digits, Key, SectionName, amount_meant, bare_text, is_no, is_no_value, is_yes, limit_stated,
    typed_limit, typed_value,
};
use std::alloc::{AllocError, Global};
use std::collections::BTreeMap;

/// A type whose values are numbers, the greatest of them, and how digits are read.
#[derive(Clone, Copy, Debug, PartialEq, Eq)]
struct Numbers {
    data_type: DataType,
    greatest: u64,
    digits: Option<Digits>,
}

/// What a value or a limit says.
#[derive(Clone, Copy, Debug, PartialEq, Eq)]
enum Said {
    /// Nothing, or a word for it.
    Nothing,
    Number(Amount),
    /// It has no reading.
    Open,
}

/// The object type DOMAIN or VAR, of objects that hold a value.
fn holds_value(object_type: u64) -> bool {
    object_type == 2 || object_type == 7
}

/// Whether the dictionary holds the value of an object's section, or its compact form is written out.
fn is_held(rows: &[Row<'_>], main: &Main, section: Section, sub: Option<u64>) -> bool {
    let is_counted = matches!(main.object_type, 8 | 9);
    match sub {
        None => holds_value(main.object_type) || is_counted && main.compact != 0,
        Some(_) => is_counted && holds_value(stated(rows, section, b"ObjectType").unwrap_or(7)),
    }
}

/// The numbers that a section's data type has.
fn numbers_in(rows: &[Row<'_>], section: Section, digits: Option<Digits>) -> Option<Numbers> {
    let data_type = DataType::numbered(stated(rows, section, b"DataType")?);
    Some(Numbers {
        data_type,
        greatest: data_type.greatest()?,
        digits,
    })
}

/// What a text says, whether it fits its type or not; a BOOLEAN may be a word of truth.
fn said_in(alloc: Global, numbers: Numbers, text: &[u8]) -> Result<Said, AllocError> {
    let is_boolean = numbers.data_type == DataType::Boolean;
    if text.is_empty() || is_no_value(text) || same_name(text, b"0x") {
        return Ok(Said::Nothing);
    }
    if is_boolean && is_yes(text) {
        return Ok(Said::Number(Amount::Decimal(1)));
    }
    if is_boolean && is_no(text) {
        return Ok(Said::Number(Amount::Decimal(0)));
    }
    match amount_meant(alloc, numbers.digits, text)? {
        Ok(amount) => Ok(Said::Number(amount)),
        Err(_) => Ok(Said::Open),
    }
}

/// Makes a value or a limit a comment that keeps what the maker wrote.
fn leave_out(alloc: Global, row: &mut Row<'_>) -> Result<(), AllocError> {
    let body = joined(alloc, LEFT_OUT, row.old)?;
    row.set(body, Cause::LeftOut);
    Ok(())
}

/// The text of a value in its type.
fn value_text(
    alloc: Global,
    numbers: Numbers,
    text: &[u8],
    amount: Amount,
) -> Result<Option<Vec<u8>>, AllocError> {
    match typed_value(numbers.data_type, numbers.greatest, amount) {
        Some(typed) if typed == amount => Ok(Some(amount_text(alloc, text, amount)?)),
        Some(typed) => Ok(Some(bytes_text(alloc, numbers.data_type, typed)?)),
        None => Ok(None),
    }
}

/// What becomes of a value.
#[derive(Drop)]
enum Mended {
    /// It becomes empty.
    Nothing,
    /// It becomes this text of its number.
    Text(Vec<u8>),
    /// It is left out.
    Out,
}

/// What becomes of a value in its type.
fn becoming(alloc: Global, value: &[u8], numbers: Numbers) -> Result<Mended, AllocError> {
    let text = bare_text(alloc, value)?;
    let text = text.as_slice();
    let amount = match said_in(alloc, numbers, text)? {
        Said::Nothing => return Ok(Mended::Nothing),
        Said::Number(amount) => amount,
        Said::Open => return Ok(Mended::Out),
    };
    match value_text(alloc, numbers, text, amount)? {
        Some(spelled) => Ok(Mended::Text(spelled)),
        None => Ok(Mended::Out),
    }
}

/// Mends a value, and answers for whether it is a number.
fn mend_value(alloc: Global, row: &mut Row<'_>, numbers: Numbers) -> Result<bool, AllocError> {
    match becoming(alloc, row.value(), numbers)? {
        Mended::Nothing => row.set_value(alloc, b"", Cause::Value)?,
        Mended::Text(spelled) => {
            row.set_value(alloc, &spelled, Cause::Value)?;
            return Ok(true);
        }
        Mended::Out => leave_out(alloc, row)?,
    }
    Ok(false)
}

/// Mends the value of a key in a section, and answers for whether it is a number.
fn mend_key(
    alloc: Global,
    rows: &mut [Row<'_>],
    section: Section,
    numbers: Numbers,
    key: &[u8],
) -> Result<bool, AllocError> {
    let Some(at) = key_row(rows, section, key) else {
        return Ok(false);
    };
    match rows.get_mut(at) {
        Some(row) => mend_value(alloc, row, numbers),
        None => Ok(false),
    }
}

/// What a limit says.
fn limit_said(
    alloc: Global,
    rows: &[Row<'_>],
    section: Section,
    numbers: Numbers,
    key: &[u8],
) -> Result<Said, AllocError> {
    match value_in(rows, section, key) {
        Some(value) => {
            let text = bare_text(alloc, value)?;
            said_in(alloc, numbers, text.as_slice())
        }
        None => Ok(Said::Nothing),
    }
}

/// The limit that an amount is in its type beside the other one.
fn limit_beside(is_low: bool, numbers: Numbers, amount: Amount, other: Said) -> Option<Amount> {
    let Numbers {
        data_type,
        greatest,
        ..
    } = numbers;
    let other = match other {
        Said::Number(other) => limit_stated(data_type, greatest, other),
        Said::Nothing | Said::Open => None,
    };
    typed_limit(is_low, data_type, greatest, amount, other)
}

/// The text of a limit that is this amount beside the other one, where it has one.
fn limit_text(
    alloc: Global,
    value: &[u8],
    numbers: Numbers,
    is_low: bool,
    amount: Amount,
    other: Said,
) -> Result<Option<Vec<u8>>, AllocError> {
    match limit_beside(is_low, numbers, amount, other) {
        Some(typed) if typed == amount => {
            let text = bare_text(alloc, value)?;
            Ok(Some(amount_text(alloc, text.as_slice(), amount)?))
        }
        Some(typed) => Ok(Some(amount_text(alloc, b"", typed)?)),
        None => Ok(None),
    }
}

/// Mends a limit that says this, beside the other one.
fn mend_limit(
    alloc: Global,
    row: &mut Row<'_>,
    numbers: Numbers,
    is_low: bool,
    said: Said,
    other: Said,
) -> Result<(), AllocError> {
    let amount = match said {
        Said::Nothing => return row.set_value(alloc, b"", Cause::Value),
        Said::Number(amount) => amount,
        Said::Open => return leave_out(alloc, row),
    };
    match limit_text(alloc, row.value(), numbers, is_low, amount, other)? {
        Some(spelled) => row.set_value(alloc, &spelled, Cause::Value),
        None => leave_out(alloc, row),
    }
}

/// Mends the limits of a section.
fn mend_limits(
    alloc: Global,
    rows: &mut [Row<'_>],
    section: Section,
    numbers: Numbers,
) -> Result<(), AllocError> {
    let low = limit_said(alloc, rows, section, numbers, b"LowLimit")?;
    let high = limit_said(alloc, rows, section, numbers, b"HighLimit")?;
    if let Some(at) = key_row(rows, section, b"LowLimit")
        && let Some(row) = rows.get_mut(at)
    {
        mend_limit(alloc, row, numbers, true, low, high)?;
    }
    if let Some(at) = key_row(rows, section, b"HighLimit")
        && let Some(row) = rows.get_mut(at)
    {
        mend_limit(alloc, row, numbers, false, high, low)?;
    }
    Ok(())
}

/// Mends the value and the limits of a section that holds a value. The default counts where there is no other value.
fn mend_section(
    alloc: Global,
    rows: &mut [Row<'_>],
    section: Section,
    numbers: Numbers,
    is_compact: bool,
) -> Result<(), AllocError> {
    let has_value = !is_compact && mend_key(alloc, rows, section, numbers, b"ParameterValue")?;
    if !has_value {
        mend_key(alloc, rows, section, numbers, b"DefaultValue")?;
    }
    mend_limits(alloc, rows, section, numbers)
}

/// Mends the values of the subs of a compact form.
fn mend_entries(
    alloc: Global,
    rows: &mut [Row<'_>],
    section: Section,
    numbers: Numbers,
) -> Result<(), AllocError> {
    respell_keys(alloc, rows, section)?;
    for at in section.header..section.end {
        let Some(row) = rows.get_mut(at) else { break };
        if let Key::Entry(_) = key_at(alloc, row, section.name)? {
            mend_value(alloc, row, numbers)?;
        }
    }
    Ok(())
}

/// The compact form that a section has the values of.
fn compact_of(mains: &BTreeMap<u64, Main>, index: u64) -> Option<&Main> {
    let main = mains.get(&index)?;
    (main.compact != 0 && matches!(main.object_type, 8 | 9)).then_some(main)
}

/// Mends the values and limits of the section of an object or a sub.
fn mend_object(
    alloc: Global,
    rows: &mut [Row<'_>],
    mains: &BTreeMap<u64, Main>,
    section: Section,
    digits: Option<Digits>,
) -> Result<(), AllocError> {
    let Some((index, sub)) = address(section.name) else {
        return Ok(());
    };
    let Some(main) = mains.get(&index) else {
        return Ok(());
    };
    let is_compact = sub.is_none() && main.compact != 0;
    if is_held(rows, main, section, sub)
        && let Some(numbers) = numbers_in(rows, section, digits)
    {
        mend_section(alloc, rows, section, numbers, is_compact)?;
    }
    Ok(())
}

/// Mends the values and limits of the objects that a dictionary holds.
pub fn mend_values(
    alloc: Global,
    rows: &mut [Row<'_>],
    sections: &[Section],
    mains: &BTreeMap<u64, Main>,
    digits: Option<Digits>,
) -> Result<(), AllocError> {
    for section in sections {
        if let SectionName::Values(index) = section.name {
            if let Some(main) = compact_of(mains, index)
                && let Some(numbers) = numbers_in(rows, main.section, digits)
            {
                mend_entries(alloc, rows, *section, numbers)?;
            }
        } else {
            mend_object(alloc, rows, mains, *section, digits)?;
        }
    }
    Ok(())
}
