//! Texts that are read as lines as they are.

ghost use Rattle.std.specs.Prelude.{◌≡◌};
ghost use Rattle.cop_bytes.specs.Bytes.{stands, are_standing, needs_nothing};

use crate::padding::is_end_mark;
use crate::utf16::is_marked;

/// Whether a byte is no end mark, and if it is CR, LF stands behind it.
fn stands(byte: u8, rest: &[u8]) -> bool
    ensures { result ≡ stands byte rest.now }
{
    !is_end_mark(byte) && (byte != b'\r' || rest.starts_with(b"\n"))
}

/// Whether each byte of a text stands as it is.
fn are_standing(text: &[u8]) -> bool
    ensures { result ≡ are_standing text.now }
{
    let mut rest = text;
    while let Some((first, tail)) = rest.split_first() {
        if !stands(*first, tail) {
            return false;
        }
        rest = tail;
    }
    true
}

/// Whether a text has no mark of UTF-16, no end mark, and no CR but before LF: one look at each byte decides that nothing changes in it.
pub fn needs_nothing(text: &[u8]) -> bool
    ensures { result ≡ needs_nothing text.now }
{
    !is_marked(text) && are_standing(text)
}
