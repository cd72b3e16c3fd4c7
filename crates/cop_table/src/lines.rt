//! Texts in which no quote stands: their lines, and where the fields of a line end.

ghost use Rattle.std.specs.Prelude.{◌≡◌, ◌<◌, ◌≤◌, ◌^◌, false, length, All, IfOk};
ghost use Rattle.csv.specs.Reading.{strip_bom};
ghost use Rattle.cop_table.specs.Plain.{is_comma, is_quote, is_line_end, pieces, cut_lines};
ghost use Rattle.cop_table.specs.Lines.{has_mark, first_line, StartsLine, ends_of, start_at};
ghost use Rattle.cop_table.specs.Records.{field};

use memchr::memchr;
use std::alloc::AllocError;

/// Whether a quote stands in a text.
pub fn has_quote(text: &[u8]) -> bool
    ensures { result ≡ false → All (λ c. is_quote c ≡ false) text.now }
{
    memchr(b'"', text).is_some()
}

/// Whether a byte order mark stands at the start of a text.
fn has_mark(text: &[u8]) -> bool
    ensures { result ≡ has_mark text.now }
{
    matches!(text, [0xEF, 0xBB, 0xBF, ..])
}

/// The text without a byte order mark at its start.
pub(crate) fn without_mark(text: &[u8]) -> &[u8]
    ensures { result.now ≡ strip_bom text.now }
{
    if has_mark(text) { &text[3..] } else { text }
}

/// The text from its next line on that is not blank.
pub(crate) fn next_line(text: &[u8]) -> &[u8]
    ensures same { cut_lines (pieces is_line_end result.now) ≡ cut_lines (pieces is_line_end text.now) }
    ensures starts { StartsLine result.now }
{
    let mut rest = text;
    while let Some((first, tail)) = rest.split_first() {
        if !matches!(*first, b'\r' | b'\n') {
            return rest;
        }
        rest = tail;
    }
    rest
}

/// How long the first line of a text is, and where its fields end.
pub(crate) fn cut_line(text: &[u8], ends: &mut Vec<usize>) -> Result<usize, AllocError>
    ensures len { IfOk result (λ len. len ≡ length (first_line text.now)) }
    ensures within { IfOk result (λ len. len ≤ length text.now) }
    ensures ends { IfOk result (λ len. ends.new.items ≡ ends_of is_comma 0 (first_line text.now)) }
{
    ends.clear();
    for (i, byte) in text.iter().enumerate() {
        // Most bytes of a table are digits and letters, which come after the comma.
        if *byte > b',' {
            continue;
        }
        match *byte {
            b',' => ends.push(i)?,
            b'\r' | b'\n' => {
                ends.push(i)?;
                return Ok(i);
            }
            _ => {}
        }
    }
    ends.push(text.len())?;
    Ok(text.len())
}

/// Where the field at a place begins, by where the fields end.
fn start_of(ends: &[usize], place: usize) -> usize
    requires place { place ≤ length ends.now }
    requires fits { start_at 0 ends.now place < 2 ^ 64 }
    ensures { result ≡ start_at 0 ends.now place }
{
    if place == 0 { 0 } else { ends[place - 1] + 1 }
}

/// The field at a place of a line, with no bytes where there is none.
pub(crate) fn field_at<'a>(line: &'a [u8], ends: &[usize], place: usize) -> &'a [u8]
    requires { ends.now ≡ ends_of is_comma 0 line.now }
    ensures { result.now ≡ field (pieces is_comma line.now) place }
{
    if place >= ends.len() {
        return &[];
    }
    &line[start_of(ends, place)..ends[place]]
}
