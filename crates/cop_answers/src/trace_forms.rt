//! What is said of a file that is wanted as a trace, and is a log of a bus.

/// The rule that a record is one of a trace.
const NO_RECORD: u8 = 69;

/// The text from its first byte that is no blank.
fn begun(text: &[u8]) -> &[u8] {
    text.trim_ascii_start()
}

/// What is said of a text by how it begins, where it is wanted as a trace and breaks the rule of a number.
pub(crate) fn form_words(number: u8, text: &[u8]) -> &'static str {
    if number != NO_RECORD {
        return "";
    }
    let text = begun(text);
    if text.starts_with(b"(") || text.starts_with(b"can") || text.starts_with(b"vcan") {
        "this is a log of candump: canplan watch reads it, and report with --log\n"
    } else if text.starts_with(b"date ") || text.starts_with(b"base ") || text.starts_with(b"//") {
        "this is a log of Vector (.asc): canplan watch reads it, and report with --log\n"
    } else if text.starts_with(b";") {
        "this is a log of PEAK (.trc): canplan watch reads it, and report with --log\n"
    } else {
        ""
    }
}
