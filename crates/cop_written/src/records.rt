//! Records as lines, as `csv` writes them.

ghost use Rattle.std.specs.Prelude.{◌≡◌, ◌++◌, OnOk, IfOk, map, decimal};
ghost use Rattle.cop_written.specs.Texts.{line};

use csv::{Error, WriterBuilder};
use std::alloc::{AllocError, Global};

/// The line of a record.
fn record_line(alloc: Global, fields: &[&[u8]]) -> Result<Vec<u8>, Error>
    ensures { IfOk result (λ text. text.items ≡ line (map (λ f. f.now) fields.now)) }
{
    let mut writer = WriterBuilder::new().from_writer(Vec::new(alloc));
    writer.write_fields(fields)?;
    match writer.into_inner() {
        Ok(text) => Ok(text),
        Err(error) => Err(error.into_error()),
    }
}

/// Adds the line of a record.
pub(crate) fn push_record(
    alloc: Global,
    text: &mut Vec<u8>,
    fields: &[&[u8]],
) -> Result<(), AllocError>
    ensures { OnOk result (text.new.items ≡ text.old.items ++ line (map (λ f. f.now) fields.now)) }
{
    match record_line(alloc, fields) {
        Ok(line) => text.extend_from_slice(&line),
        Err(_) => Err(AllocError),
    }
}

/// A number in decimal.
pub(crate) fn digits(alloc: Global, number: u32) -> Result<Vec<u8>, AllocError>
    ensures { IfOk result (λ digits. digits.items ≡ decimal number) }
{
    let mut buffer = itoa::Buffer::new();
    Vec::from_slice(alloc, buffer.format(number).as_bytes())
}
