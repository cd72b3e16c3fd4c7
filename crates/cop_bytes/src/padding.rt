//! End marks and padding behind a text.

ghost use Rattle.std.specs.Prelude.{◌≡◌, ◌≤◌, ◌&&◌, length, take};
ghost use Rattle.cop_bytes.specs.Bytes.{is_end_mark, is_padding, uncut};

pub(crate) fn is_end_mark(byte: u8) -> bool
    ensures { result ≡ is_end_mark byte }
{
    byte == 0 || byte == 0x1A
}

/// Whether an end mark, and what stands behind it, may have this byte.
fn is_padding(byte: u8) -> bool
    ensures { result ≡ is_padding byte }
{
    is_end_mark(byte) || (byte == b'\r' || (byte == b'\n' || (byte == b' ' || byte == b'\t')))
}

/// Whether this byte and what stands behind it is padding.
fn is_all_padding(byte: u8, is_padded: bool) -> bool
    ensures { result ≡ is_padding byte && is_padded }
{
    is_padding(byte) && is_padded
}

/// Whether a tail that is cut begins with this byte.
fn is_tail_start(byte: u8, is_padded: bool) -> bool
    ensures { result ≡ is_end_mark byte && is_padded }
{
    is_end_mark(byte) && is_padded
}

/// How many bytes stand before the longest tail that begins with an end mark and has nothing but padding.
pub fn uncut_len(text: &[u8]) -> usize
    ensures value { take result text.now ≡ uncut text.now }
    ensures bound { result ≤ length text.now }
{
    let mut kept = text.len();
    let mut is_padded = true;
    let mut at = text.len();
    while at > 0 {
        at -= 1;
        if is_tail_start(text[at], is_padded) {
            kept = at;
        }
        is_padded = is_all_padding(text[at], is_padded);
    }
    kept
}
