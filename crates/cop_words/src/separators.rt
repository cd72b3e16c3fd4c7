//! What is seen of a text that is no CSV with commas.

/// How many quotes a record has.
fn quotes(text: &[u8]) -> usize {
    text.iter().filter(|byte| **byte == b'"').count()
}

/// What is seen at the beginning of a file that is UTF-16.
fn encoding_seen(text: &[u8]) -> Option<&'static str> {
    if text.starts_with(b"\xFF\xFE") || text.starts_with(b"\xFE\xFF") {
        return Some("the file is UTF-16: save it as CSV in ASCII or UTF-8\n");
    }
    None
}

/// Whether a record has separators and blanks alone.
fn is_empty_row(record: &[u8]) -> bool {
    record
        .iter()
        .all(|byte| matches!(*byte, b',' | b';' | b'\t' | b' '))
}

/// What is seen of a record in place of commas between its fields, and of a quote that is not closed.
fn separator_seen(record: &[u8]) -> Option<&'static str> {
    if is_empty_row(record) {
        return Some("the row is empty, as Excel leaves some below a table: delete its line\n");
    }
    if quotes(record) % 2 == 1 {
        return Some(
            "a quote opens a field and does not close it: all that follows is this one record\n",
        );
    }
    if record.contains(&b';') {
        return Some("a semicolon stands there: fields are separated by commas\n");
    }
    if record.contains(&b'\t') {
        return Some("a tab stands there: fields are separated by commas\n");
    }
    None
}

/// What is seen of a file and of a record of it that is no CSV with commas.
pub(crate) fn seen(text: &[u8], record: Option<&[u8]>) -> Option<&'static str> {
    match (encoding_seen(text), record) {
        (Some(seen), _) => Some(seen),
        (None, Some(record)) => separator_seen(record),
        (None, None) => None,
    }
}
