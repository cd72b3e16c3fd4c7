//! Parts of a line: what stands before and behind a byte, and words between blanks.

ghost use Rattle.std.specs.Prelude.{◌≡◌, ◌≤◌, IsTrue, length};
ghost use Rattle.cop_lines.specs.Words.{place_in, front, back, is_blank, blanks_in, letters_in, trimmed, word, after_word, after, field, begins};

/// Where a byte of a text stands first, or its length.
pub(crate) fn place_in(byte: u8, text: &[u8]) -> usize
    ensures place { result ≡ place_in byte text.now }
    ensures within { result ≤ length text.now }
{
    for i in 0..text.len() {
        if text[i] == byte {
            return i;
        }
    }
    text.len()
}

/// What stands before a byte of a text, or all of it.
pub fn front(byte: u8, text: &[u8]) -> &[u8]
    ensures { result.now ≡ front byte text.now }
{
    &text[..place_in(byte, text)]
}

/// What stands behind a byte of a text, or nothing.
pub fn back(byte: u8, text: &[u8]) -> &[u8]
    ensures { result.now ≡ back byte text.now }
{
    let place = place_in(byte, text);
    if place < text.len() {
        &text[place + 1..]
    } else {
        &[]
    }
}

// A space, a tab, or the CR of a line that ends by CR and LF.
fn is_blank(byte: u8) -> bool
    ensures { result ≡ is_blank byte }
{
    byte == b' ' || byte == b'\t' || byte == b'\r'
}

fn blanks_in(text: &[u8]) -> usize
    ensures count { result ≡ blanks_in text.now }
    ensures within { result ≤ length text.now }
{
    for i in 0..text.len() {
        if !is_blank(text[i]) {
            return i;
        }
    }
    text.len()
}

fn letters_in(text: &[u8]) -> usize
    ensures count { result ≡ letters_in text.now }
    ensures within { result ≤ length text.now }
{
    for i in 0..text.len() {
        if is_blank(text[i]) {
            return i;
        }
    }
    text.len()
}

/// A text without the blanks in front of it.
#[tactic(auto, unfolding(crate::specs::Words::trimmed))]
pub(crate) fn trimmed(text: &[u8]) -> &[u8]
    ensures { result.now ≡ trimmed text.now }
{
    &text[blanks_in(text)..]
}

/// The first word of a text, which is empty where there is none.
#[tactic(auto, unfolding(crate::specs::Words::word))]
pub(crate) fn word(text: &[u8]) -> &[u8]
    ensures { result.now ≡ word text.now }
{
    let start = trimmed(text);
    &start[..letters_in(start)]
}

/// What stands behind the first word.
#[tactic(auto, unfolding(crate::specs::Words::after_word))]
pub(crate) fn after_word(text: &[u8]) -> &[u8]
    ensures { result.now ≡ after_word text.now }
{
    let start = trimmed(text);
    &start[letters_in(start)..]
}

/// What stands behind so many words.
#[tactic(auto, unfolding(crate::specs::Words::after), using(crate::proofs::Parts::after_less))]
pub(crate) fn after(count: usize, text: &[u8]) -> &[u8]
    ensures { result.now ≡ after count text.now }
{
    let mut left = count;
    let mut rest = text;
    while left > 0 {
        rest = after_word(rest);
        left -= 1;
    }
    rest
}

/// The word behind so many others.
#[tactic(auto, unfolding(crate::specs::Words::field))]
pub(crate) fn field(count: usize, text: &[u8]) -> &[u8]
    ensures { result.now ≡ field count text.now }
{
    word(after(count, text))
}

/// Whether a text begins with another one.
#[tactic(auto, unfolding(crate::specs::Words::begins))]
pub(crate) fn begins(start: &[u8], text: &[u8]) -> bool
    ensures value { result ≡ begins start.now text.now }
    ensures long { IsTrue result → length start.now ≤ length text.now }
{
    if text.len() < start.len() {
        return false;
    }
    &text[..start.len()] == start
}
