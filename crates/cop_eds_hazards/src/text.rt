//! Bytes of a line.

ghost use Rattle.std.specs.Prelude.{◌≡◌, take, drop, length};
ghost use Rattle.cop_eds.specs.Lines.{IsInside, text_of};

use cop_eds::{Eds, Line};

pub fn without_first(bytes: &[u8]) -> &[u8]
    ensures { result.now ≡ drop 1 bytes.now }
{
    match bytes {
        [] => &[],
        [_, rest @ ..] => rest,
    }
}

/// The bytes from a place on, which may lie behind the end.
pub fn from(bytes: &[u8], place: usize) -> &[u8]
    ensures { result.now ≡ drop place bytes.now }
{
    if place < bytes.len() {
        &bytes[place..]
    } else {
        &[]
    }
}

/// The bytes up to a place, which may lie behind the end.
pub fn upto(bytes: &[u8], place: usize) -> &[u8]
    ensures { result.now ≡ take place bytes.now }
{
    if place < bytes.len() {
        &bytes[..place]
    } else {
        bytes
    }
}

/// The bytes of a line, without its end.
pub fn text_of<'a>(eds: &Eds<'a>, line: &Line) -> &'a [u8]
    requires { IsInside (length eds.now) line.now }
    ensures { result.now ≡ text_of eds.now line.now }
{
    let source = eds.source();
    &source[line.from as usize..line.to as usize]
}
