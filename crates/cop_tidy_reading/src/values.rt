//! Values and limits of objects.

ghost use Rattle.std.specs.Prelude.{◌≡◌, IfOk, map, true, false};
ghost use Rattle.cop_dict.specs.Types.{greatest_of, is_boolean, is_text};
ghost use Rattle.cop_tidy_reading.specs.Values.{is_absent, written_amount, fitting, number_value, stated_at, read_at, reads_in, decided, first_number, raw_at, texts_in, text_by, first_text, value_in, ok_amount, limit_amount, limit_beside, limit_in};
ghost use Rattle.cop_tidy_reading.specs.SeenValues.{source_seen};

use crate::combining::clear;
use crate::contents::Section;
use crate::question::Question;
use crate::stated::Reader;
use cop_dict::DataType;
use cop_eds::{Amount, same_name};
use cop_tidy_device::{Bytes, Value};
use cop_tidy_lines::{
    Digits, Key, Unclear, amount_meant, is_no, is_no_value, is_yes, limit_stated, typed_limit,
    typed_value,
};
use std::alloc::{AllocError, Global};

/// A key of a section in which a value may stand.
#[derive(Clone, Copy, Debug, PartialEq, Eq)]
pub struct Source {
    pub section: Section,
    pub key: Key,
}

/// A type whose values are numbers, and the greatest of them.
#[derive(Clone, Copy, Debug, PartialEq, Eq)]
struct Numbers {
    data_type: DataType,
    greatest: u64,
}

/// Whether a text stands for no value.
fn is_absent(text: &[u8]) -> bool
    ensures { result ≡ is_absent text.now }
{
    is_no_value(text) || same_name(text, b"0x")
}

fn is_boolean(data_type: DataType) -> bool
    ensures { result ≡ is_boolean data_type }
{
    matches!(data_type, DataType::Boolean)
}

fn is_text(data_type: DataType) -> bool
    ensures { result ≡ is_text data_type }
{
    matches!(data_type, DataType::VisibleString)
}

/// The amount that a text is in a type of numbers, whether it fits or not; a BOOLEAN may be a word of truth.
fn written_amount(
    alloc: Global,
    digits: Option<Digits>,
    data_type: DataType,
    text: &[u8],
) -> Result<Result<Amount, Unclear>, AllocError>
    ensures { IfOk result (λ amount. amount ≡ written_amount digits data_type text.now) }
{
    if is_boolean(data_type) && is_yes(text) {
        return Ok(Ok(Amount::Decimal(1)));
    }
    if is_boolean(data_type) && is_no(text) {
        return Ok(Ok(Amount::Decimal(0)));
    }
    amount_meant(alloc, digits, text)
}

fn fitting(amount: Option<Amount>) -> Result<Amount, Unclear>
    ensures { result ≡ fitting amount }
{
    match amount {
        Some(amount) => Ok(amount),
        None => Err(Unclear::NoNumber),
    }
}

/// The value that a text is in a type of numbers.
fn number_value(
    alloc: Global,
    digits: Option<Digits>,
    numbers: Numbers,
    text: &[u8],
) -> Result<Result<Amount, Unclear>, AllocError>
    ensures { IfOk result (λ amount. amount ≡ number_value digits numbers.data_type numbers.greatest text.now) }
{
    match written_amount(alloc, digits, numbers.data_type, text)? {
        Ok(amount) => Ok(fitting(typed_value(numbers.data_type, numbers.greatest, amount))),
        Err(unclear) => Ok(Err(unclear)),
    }
}

/// The number that a source states, where it states a value.
fn read_at(
    alloc: Global,
    reader: Reader<'_, '_>,
    numbers: Numbers,
    source: Source,
) -> Result<Option<Result<Amount, Question>>, AllocError>
    ensures { IfOk result (λ read. read ≡ read_at reader.entry.digits numbers.data_type numbers.greatest (stated_at reader.entry.contents.now (source_seen source))) }
{
    match reader.contents.entry(alloc, source.section, source.key)? {
        Some((line, text)) => {
            if is_absent(text.as_slice()) {
                return Ok(None);
            }
            let value = number_value(alloc, reader.digits, numbers, text.as_slice())?;
            Ok(Some(clear(line, value)))
        }
        None => Ok(None),
    }
}

/// What a source decides: its number, or a question; none where it states none or is left out.
fn decided(
    is_needed: bool,
    read: Option<Result<Amount, Question>>,
) -> Option<Result<Value, Question>>
    ensures { result ≡ decided is_needed read }
{
    match read {
        Some(Ok(amount)) => Some(Ok(Value::Number(amount))),
        Some(Err(question)) if is_needed => Some(Err(question)),
        _ => None,
    }
}

/// The number of the first source that has one. What is no number is asked for in an object that is needed, and left out in another.
#[tactic(auto, using(crate::proofs::ValueLemmas::next_read))]
fn number_in(
    alloc: Global,
    reader: Reader<'_, '_>,
    numbers: Numbers,
    is_needed: bool,
    sources: &[Source],
) -> Result<Result<Value, Question>, AllocError>
    ensures { IfOk result (λ read. read ≡ first_number is_needed (reads_in reader.entry.digits reader.entry.contents.now numbers.data_type numbers.greatest (map source_seen sources.now))) }
{
    for source in sources {
        if let Some(read) = decided(is_needed, read_at(alloc, reader, numbers, *source)?) {
            return Ok(read);
        }
    }
    Ok(Ok(Value::Nothing))
}

/// The text of the first source that has one.
#[tactic(auto, using(crate::proofs::ValueLemmas::next_text))]
fn text_in(alloc: Global, reader: Reader<'_, '_>, sources: &[Source]) -> Result<Value, AllocError>
    ensures { IfOk result (λ value. value ≡ first_text reader.entry.contents.now (map source_seen sources.now)) }
{
    for source in sources {
        if let Some((_, raw)) = reader.contents.raw(source.section, source.key)
            && !raw.is_empty()
        {
            return Ok(Value::Text(Bytes::new(Vec::from_slice(alloc, raw)?)));
        }
    }
    Ok(Value::Nothing)
}

/// The value of an object, which may stand in one of these sources.
#[tactic(auto, unfolding(crate::specs::Values::value_in))]
pub fn value_in(
    alloc: Global,
    reader: Reader<'_, '_>,
    data_type: DataType,
    is_needed: bool,
    sources: &[Source],
) -> Result<Result<Value, Question>, AllocError>
    ensures { IfOk result (λ read. read ≡ value_in reader.entry.digits reader.entry.contents.now data_type is_needed (map source_seen sources.now)) }
{
    match data_type.greatest() {
        Some(greatest) => {
            let numbers = Numbers {
                data_type,
                greatest,
            };
            number_in(alloc, reader, numbers, is_needed, sources)
        }
        None => {
            if is_text(data_type) {
                Ok(Ok(text_in(alloc, reader, sources)?))
            } else {
                Ok(Ok(Value::Nothing))
            }
        }
    }
}

fn ok_amount(amount: Result<Amount, Unclear>) -> Option<Amount>
    ensures { result ≡ ok_amount amount }
{
    match amount {
        Ok(amount) => Some(amount),
        Err(_) => None,
    }
}

/// The amount that a limit states, where it has one.
fn limit_amount(
    alloc: Global,
    reader: Reader<'_, '_>,
    data_type: DataType,
    key: Key,
) -> Result<Option<Amount>, AllocError>
    ensures { IfOk result (λ amount. amount ≡ limit_amount reader.entry.digits reader.entry.contents.now data_type reader.entry.section.number key) }
{
    match reader.contents.entry(alloc, reader.section, key)? {
        Some((_, text)) => {
            if is_absent(text.as_slice()) {
                return Ok(None);
            }
            let amount = written_amount(alloc, reader.digits, data_type, text.as_slice())?;
            Ok(ok_amount(amount))
        }
        None => Ok(None),
    }
}

/// A limit beside the other one.
fn limit_beside(
    is_low: bool,
    data_type: DataType,
    greatest: u64,
    limit: Option<Amount>,
    other: Option<Amount>,
) -> Option<Amount>
    ensures { result ≡ limit_beside is_low data_type greatest limit other }
{
    match (limit, other) {
        (Some(limit), Some(other)) => {
            let other = limit_stated(data_type, greatest, other);
            typed_limit(is_low, data_type, greatest, limit, other)
        }
        (Some(limit), None) => typed_limit(is_low, data_type, greatest, limit, None),
        (None, _) => None,
    }
}

/// The limits of an object, the low one first; one with no reading or two is left out.
#[tactic(auto, unfolding(crate::specs::Values::limit_in))]
pub fn limits_in(
    alloc: Global,
    reader: Reader<'_, '_>,
    data_type: DataType,
) -> Result<(Option<Amount>, Option<Amount>), AllocError>
    ensures low { IfOk result (λ limits. limits.0 ≡ limit_in reader.entry.digits reader.entry.contents.now data_type reader.entry.section.number true) }
    ensures high { IfOk result (λ limits. limits.1 ≡ limit_in reader.entry.digits reader.entry.contents.now data_type reader.entry.section.number false) }
{
    let Some(greatest) = data_type.greatest() else {
        return Ok((None, None));
    };
    let low = limit_amount(alloc, reader, data_type, Key::LowLimit)?;
    let high = limit_amount(alloc, reader, data_type, Key::HighLimit)?;
    Ok((
        limit_beside(true, data_type, greatest, low, high),
        limit_beside(false, data_type, greatest, high, low),
    ))
}
