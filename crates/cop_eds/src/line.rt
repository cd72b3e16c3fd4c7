//! The lines of a text.

ghost use Rattle.std.specs.Prelude.{◌≡◌, ◌+◌, ◌^◌, ◌-◌, ◌<◌, ◌≤◌, ◌∷◌, length, drop};
ghost use Rattle.cop_eds.specs.Text.{cut};
ghost use Rattle.cop_eds.specs.Lines.{kind_of, header_count, line_of};

use crate::text::{end_len, is_comment, is_header, is_pair, key_of, line_len, name_of, same_name};

/// What a line is.
#[derive(Clone, Copy, Debug, PartialEq, Eq)]
pub enum Kind {
    /// Blanks, a comment, or none of the forms.
    Other,
    /// `[name]`.
    Header,
    /// `key=value`.
    Pair,
}

/// A line: its bytes are those of the source at `from..to`, and the next line begins at `next`. `section` is
/// how many sections have begun by its end. A text has at most 4 MiB, so that 32 bits have room for each.
#[derive(Clone, Copy, Debug, PartialEq, Eq)]
pub struct Line {
    pub from: u32,
    pub to: u32,
    pub next: u32,
    pub section: u32,
    pub kind: Kind,
}

/// Where a section begins: the number of its header's line, from 1, and its own number.
#[derive(Clone, Copy, Debug, PartialEq, Eq)]
pub struct Place {
    pub line: usize,
    pub section: usize,
}

fn kind_of(line: &[u8]) -> Kind
    ensures { result ≡ kind_of line.now }
{
    if is_comment(line) {
        Kind::Other
    } else if is_header(line) {
        Kind::Header
    } else if is_pair(line) {
        Kind::Pair
    } else {
        Kind::Other
    }
}

/// How many sections a line of this kind begins.
fn header_count(kind: Kind) -> u32
    ensures value { result ≡ header_count kind }
    ensures bound { result ≤ 1 }
{
    match kind {
        Kind::Header => 1,
        Kind::Other | Kind::Pair => 0,
    }
}

/// The line at a place of the source, with its end.
pub fn raw_at(source: &[u8], at: usize) -> &[u8]
    requires { at < length source.now }
    ensures positive { 0 < length result.now }
    ensures bound { at + length result.now ≤ length source.now }
    ensures first { cut (drop at source.now) ≡ result.now ∷ cut (drop (at + length result.now) source.now) }
{
    let rest = &source[at..];
    &rest[..line_len(rest)]
}

/// The line that these bytes are.
pub fn line_of(raw: &[u8], at: usize, before: u32) -> Line
    requires place { at + length raw.now < 2 ^ 31 }
    requires counted { before ≤ at }
    ensures value { result ≡ line_of at before raw.now }
    ensures counts { 0 < length raw.now → result.section ≤ at + length raw.now }
    ensures within { (result.from ≤ result.to) × (result.to ≤ result.next) × (result.next ≡ at + length raw.now) }
{
    let len = raw.len() - end_len(raw);
    let kind = kind_of(&raw[..len]);
    Line {
        from: at as u32,
        to: (at + len) as u32,
        next: (at + raw.len()) as u32,
        section: before + header_count(kind),
        kind,
    }
}
