//! The lines of a project file.

ghost use Rattle.std.specs.Prelude.{◌≡◌, ◌≤◌, length};
ghost use Rattle.cop_project.specs.Lines.{line_ends, IsLineOf, is_lead, without_lead, is_key_code, has_key, key_line};

/// How many lines end in a text.
fn line_ends(text: &[u8]) -> usize
    ensures value { result ≡ line_ends text.now }
    ensures bound { result ≤ length text.now }
{
    let mut count = 0;
    let mut rest = text;
    while let Some((first, tail)) = rest.split_first() {
        if *first == b'\n' {
            count += 1;
        }
        rest = tail;
    }
    count
}

/// The line of a place in a text, from 1.
pub(crate) fn line_at(text: &[u8], place: usize) -> u64
    ensures { IsLineOf text.now result }
{
    let before = &text[..place.min(text.len())];
    line_ends(before) as u64 + 1
}

/// Whether a byte may stand before a key in its line.
fn is_lead(byte: u8) -> bool
    ensures { result ≡ is_lead byte }
{
    byte == b' ' || (byte == b'\t' || (byte == b'"' || (byte == b'\'' || byte == b'[')))
}

/// The text without what may stand before a key in its line.
fn without_lead(text: &[u8]) -> &[u8]
    ensures { result.now ≡ without_lead text.now }
{
    let mut rest = text;
    while let Some((first, tail)) = rest.split_first() {
        if !is_lead(*first) {
            return rest;
        }
        rest = tail;
    }
    rest
}

/// Whether a key goes on with a byte.
fn is_key_code(byte: u8) -> bool
    ensures { result ≡ is_key_code byte }
{
    byte.is_ascii_alphanumeric() || (byte == b'_' || byte == b'-')
}

/// Whether a key, and no longer one, stands at the front of a text.
fn has_key(text: &[u8], key: &[u8]) -> bool
    ensures { result ≡ has_key key.now text.now }
{
    let (front, rest) = text.split_at(key.len().min(text.len()));
    front == key && !(!rest.is_empty() && is_key_code(rest[0]))
}

/// The number, from 1, of the first line that begins with a key; 0 where none does.
pub(crate) fn key_line(text: &[u8], key: &[u8]) -> u64
    ensures { result ≡ key_line key.now text.now }
{
    let mut line = 1;
    let mut is_start = true;
    let mut rest = text;
    while let Some((first, tail)) = rest.split_first() {
        if is_start && has_key(without_lead(rest), key) {
            return line;
        }
        is_start = *first == b'\n';
        if is_start {
            line += 1;
        }
        rest = tail;
    }
    0
}
