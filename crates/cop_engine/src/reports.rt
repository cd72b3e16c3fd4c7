//! The lines of a test.

ghost use Rattle.std.specs.Prelude.{◌≡◌, ◌<◌, ◌++◌, length, decimal, OnOk, IfOk};
ghost use Rattle.cop_dcf.specs.Dcf.{digit};
ghost use Rattle.cop_engine.specs.Reports.{hexadecimal, said, line, line_at, lines_below};

use cop_rta::{StreamSet, Verdict};
use std::alloc::{AllocError, Global};

/// The digit of a number below 16, in upper case.
fn digit(number: u16) -> u8
    requires { number < 16 }
    ensures { result ≡ digit number }
{
    if number < 10 {
        b'0' + number as u8
    } else {
        b'A' + (number as u8 - 10)
    }
}

/// An identifier as three hexadecimal digits.
pub(crate) fn push_id(text: &mut Vec<u8>, id: u16) -> Result<(), AllocError>
    requires { id < 2048 }
    ensures { OnOk result (text.new.items ≡ text.old.items ++ hexadecimal id) }
{
    text.extend_from_slice(&[digit(id / 256), digit(id / 16 % 16), digit(id % 16)])
}

/// A number in decimal.
pub(crate) fn push_number(text: &mut Vec<u8>, number: u64) -> Result<(), AllocError>
    ensures { OnOk result (text.new.items ≡ text.old.items ++ decimal number) }
{
    let mut buffer = itoa::Buffer::new();
    text.extend_from_slice(buffer.format(number).as_bytes())
}

/// What is said of a verdict.
fn push_verdict(text: &mut Vec<u8>, verdict: Verdict) -> Result<(), AllocError>
    ensures { OnOk result (text.new.items ≡ text.old.items ++ said verdict) }
{
    match verdict {
        Verdict::Pass { response } => {
            text.extend_from_slice(b"pass ")?;
            push_number(text, response)
        }
        Verdict::Late { q, response } => {
            text.extend_from_slice(b"late ")?;
            push_number(text, q)?;
            text.extend_from_slice(b" ")?;
            push_number(text, response)
        }
        Verdict::Long => text.extend_from_slice(b"long"),
    }
}

/// The line of a stream.
fn push_line(text: &mut Vec<u8>, id: u16, verdict: Verdict) -> Result<(), AllocError>
    requires { id < 2048 }
    ensures { OnOk result (text.new.items ≡ text.old.items ++ line id verdict) }
{
    push_id(text, id)?;
    text.extend_from_slice(b"h ")?;
    push_verdict(text, verdict)?;
    text.extend_from_slice(b"\n")
}

/// The line of the stream with an identifier, if there is one.
#[tactic(auto, using(crate::proofs::ReportsLemmas::line_found, crate::proofs::ReportsLemmas::line_missing))]
fn push_line_at(
    text: &mut Vec<u8>,
    set: &StreamSet,
    verdicts: &[Verdict],
    id: u16,
) -> Result<(), AllocError>
    requires lengths { length verdicts.now ≡ length set.now }
    requires id { id < 2048 }
    ensures { OnOk result (text.new.items ≡ text.old.items ++ line_at set.now verdicts.now id) }
{
    let Some(place) = set.place_of(id) else {
        return Ok(());
    };
    push_line(text, id, verdicts[place])
}

/// The line of each stream, by rising identifier.
#[tactic(auto, using(crate::proofs::ReportsLemmas::lines_more, crate::proofs::ReportsLemmas::lines_none))]
pub fn report(alloc: Global, set: &StreamSet, verdicts: &[Verdict]) -> Result<Vec<u8>, AllocError>
    requires { length verdicts.now ≡ length set.now }
    ensures { IfOk result (λ text. text.items ≡ lines_below (line_at set.now verdicts.now) 2048) }
{
    let mut text = Vec::new(alloc);
    for id in 0..2048 {
        push_line_at(&mut text, set, verdicts, id)?;
    }
    Ok(text)
}
