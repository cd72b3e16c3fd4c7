//! The lines of a whole text.

ghost use Rattle.std.specs.Prelude.{◌≡◌, ◌^◌, ◌<◌, length, IfOk};
ghost use Rattle.std.specs.List.{All};
ghost use Rattle.cop_eds.specs.Lines.{IsInside, IsWithin, is_keyed, text_of, lines_of};

use crate::line::{Kind, Line, line_of, raw_at};
use crate::text::{key_of, mark_len, same_name};
use std::alloc::{AllocError, Global};

/// The lines of most texts are longer than this on average, so that their list does not grow while it is made.
const SHORT_LINE: usize = 12;

/// The bytes of a line, without its end.
pub fn text_of<'a>(source: &'a [u8], line: &Line) -> &'a [u8]
    requires { IsWithin (length source.now) line.now }
    ensures { result.now ≡ text_of source.now line.now }
{
    &source[line.from as usize..line.to as usize]
}

/// Whether a line is a pair of this key in this section.
pub fn is_keyed(source: &[u8], line: &Line, section: usize, key: &[u8]) -> bool
    requires { IsInside (length source.now) line.now }
    ensures { result ≡ is_keyed source.now section key.now line.now }
{
    matches!(line.kind, Kind::Pair)
        && line.section as usize == section
        && same_name(key_of(&source[line.from as usize..line.to as usize]), key)
}

/// The lines of a text.
pub fn lines_of(alloc: Global, source: &[u8]) -> Result<Vec<Line>, AllocError>
    requires { length source.now < 2 ^ 31 }
    ensures all { IfOk result (λ v. v.items ≡ lines_of source.now) }
    ensures within { IfOk result (λ v. All (IsWithin (length source.now)) v.items) }
{
    let mut lines = Vec::with_capacity(alloc, source.len() / SHORT_LINE)?;
    let mut at = mark_len(source);
    let mut section = 0;
    while at < source.len() {
        let line = line_of(raw_at(source, at), at, section);
        lines.push(line)?;
        at = line.next as usize;
        section = line.section;
    }
    Ok(lines)
}
