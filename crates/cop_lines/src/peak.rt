//! Lines of logs in PEAK's form .trc.

ghost use Rattle.std.specs.Prelude.{◌≡◌, ◌≤◌};
ghost use Rattle.cop_lines.specs.Peak.{column_of, or_column, layout_in, first_layout, layout_with, layout_of_version, header_in, is_data, is_error, is_status, kind_of, kind_by, kind_in, id_in, data_in, data_frame, remote_frame, frame_in, line_in};

use crate::entries::{Content, Message};
use crate::faults::LineFault;
use crate::forms::Layout;
use crate::numbers::{
    Base, content_in, decimal_in, error_frame, id_digits, len_in, long_id, message_of, short_id,
};
use crate::words::{after, after_word, begins, field, place_in, word};

/// What a line tells of.
#[derive(Clone, Copy, PartialEq, Eq, Debug)]
pub(crate) enum Kind {
    /// A data frame.
    Data,
    /// A remote frame.
    Remote,
    /// An error frame.
    Error,
    /// The adapter's state or counters, or an event of its user.
    Status,
}

// The number of the column of a letter.
#[tactic(auto, unfolding(crate::specs::Peak::column_of))]
fn column_of(letter: u8, text: &[u8]) -> Option<usize>
    ensures { result ≡ column_of letter text.now }
{
    let place = place_in(letter, text);
    if place < text.len() {
        Some(place / 2)
    } else {
        None
    }
}

fn or_column(first: Option<usize>, second: Option<usize>) -> Option<usize>
    ensures { result ≡ or_column first second }
{
    match first {
        Some(column) => Some(column),
        None => second,
    }
}

#[tactic(auto, unfolding(crate::specs::Peak::layout_in))]
fn layout_in(text: &[u8]) -> Result<Layout, LineFault>
    ensures { result ≡ layout_in text.now }
{
    let stamp = column_of(b'O', text).ok_or(LineFault::Form)?;
    let id = column_of(b'I', text).ok_or(LineFault::Form)?;
    let len = or_column(column_of(b'L', text), column_of(b'l', text)).ok_or(LineFault::Form)?;
    Ok(Layout {
        stamp,
        kind: column_of(b'T', text),
        bus: column_of(b'B', text),
        id,
        len,
    })
}

/// The layout of a log that says no version.
pub(crate) fn first_layout() -> Layout
    ensures { result ≡ first_layout }
{
    Layout {
        stamp: 1,
        kind: None,
        bus: None,
        id: 2,
        len: 3,
    }
}

// The layout of a log that has a column for the kind. Stamps stand behind the number.
fn layout_with(kind: usize, bus: Option<usize>, id: usize, len: usize) -> Layout
    ensures { result ≡ layout_with kind bus id len }
{
    Layout {
        stamp: 1,
        kind: Some(kind),
        bus,
        id,
        len,
    }
}

#[tactic(auto, unfolding(crate::specs::Peak::layout_of_version))]
fn layout_of_version(text: &[u8]) -> Result<Layout, LineFault>
    ensures { result ≡ layout_of_version text.now }
{
    if text == b"1.0".as_slice() {
        return Ok(first_layout());
    }
    if text == b"1.1".as_slice() {
        return Ok(layout_with(2, None, 3, 4));
    }
    if text == b"1.2".as_slice() {
        return Ok(layout_with(3, Some(2), 4, 5));
    }
    if text == b"1.3".as_slice() {
        return Ok(layout_with(3, Some(2), 4, 6));
    }
    if text == b"2.0".as_slice() {
        return Ok(layout_with(2, None, 3, 5));
    }
    if text == b"2.1".as_slice() {
        return Ok(layout_with(2, Some(3), 4, 7));
    }
    Err(LineFault::Form)
}

/// What a word that begins with `;` says of the columns.
#[tactic(auto, unfolding(crate::specs::Peak::header_in))]
pub(crate) fn header_in(layout: Layout, text: &[u8]) -> Result<Layout, LineFault>
    ensures { result ≡ header_in layout text.now }
{
    if begins(b";$FILEVERSION=", text) {
        return layout_of_version(&text[14..]);
    }
    if begins(b";$COLUMNS=", text) {
        return layout_in(&text[10..]);
    }
    Ok(layout)
}

fn is_data(text: &[u8]) -> bool
    ensures { result ≡ is_data text.now }
{
    text == b"DT".as_slice() || text == b"Rx".as_slice() || text == b"Tx".as_slice()
}

fn is_error(text: &[u8]) -> bool
    ensures { result ≡ is_error text.now }
{
    text == b"ER".as_slice() || text == b"Error".as_slice()
}

fn is_status(text: &[u8]) -> bool
    ensures { result ≡ is_status text.now }
{
    text == b"ST".as_slice()
        || text == b"EC".as_slice()
        || text == b"EV".as_slice()
        || text == b"Warng".as_slice()
}

// The kind that a word says; others are refused, as CAN FD frames.
#[tactic(auto, unfolding(crate::specs::Peak::kind_of))]
fn kind_of(text: &[u8]) -> Result<Kind, LineFault>
    ensures { result ≡ kind_of text.now }
{
    if is_data(text) {
        return Ok(Kind::Data);
    }
    if text == b"RR".as_slice() {
        return Ok(Kind::Remote);
    }
    if is_error(text) {
        return Ok(Kind::Error);
    }
    if is_status(text) {
        return Ok(Kind::Status);
    }
    Err(LineFault::Form)
}

fn kind_by(column: Option<usize>, id: &[u8], line: &[u8]) -> Result<Kind, LineFault>
    ensures { result ≡ kind_by column id.now line.now }
{
    match column {
        Some(column) => kind_of(field(column, line)),
        None => {
            if id == b"FFFFFFFF".as_slice() {
                Ok(Kind::Status)
            } else {
                Ok(Kind::Data)
            }
        }
    }
}

#[tactic(auto, unfolding(crate::specs::Peak::kind_in))]
fn kind_in(layout: Layout, line: &[u8]) -> Result<Kind, LineFault>
    ensures { result ≡ kind_in layout line.now }
{
    kind_by(layout.kind, field(layout.id, line), line)
}

#[tactic(auto, unfolding(crate::specs::Peak::id_in))]
fn id_in(text: &[u8]) -> Result<u32, LineFault>
    ensures { result ≡ id_in text.now }
{
    if text.len() <= 4 {
        let number = id_digits(Base::Hexadecimal, text)?;
        return short_id(number);
    }
    let number = id_digits(Base::Hexadecimal, text)?;
    long_id(number)
}

// The data bytes of a frame, and none of a remote frame.
#[tactic(auto, unfolding(crate::specs::Peak::data_in))]
fn data_in(len: u8, text: &[u8]) -> Result<Option<Content>, LineFault>
    requires { len ≤ 8 }
    ensures { result ≡ data_in len text.now }
{
    if word(text) == b"RTR".as_slice() {
        return Ok(None);
    }
    let content = content_in(Base::Hexadecimal, len, text)?;
    Ok(Some(content))
}

#[tactic(auto, unfolding(crate::specs::Peak::data_frame))]
fn data_frame(layout: Layout, at: u64, line: &[u8]) -> Result<Message, LineFault>
    ensures { result ≡ data_frame layout at line.now }
{
    let id = id_in(field(layout.id, line))?;
    let len = len_in(field(layout.len, line))?;
    let content = data_in(len, after_word(after(layout.len, line)))?;
    Ok(message_of(at, id, content))
}

#[tactic(auto, unfolding(crate::specs::Peak::remote_frame))]
fn remote_frame(layout: Layout, at: u64, line: &[u8]) -> Result<Message, LineFault>
    ensures { result ≡ remote_frame layout at line.now }
{
    let id = id_in(field(layout.id, line))?;
    Ok(message_of(at, id, None))
}

#[tactic(auto, unfolding(crate::specs::Peak::frame_in))]
fn frame_in(kind: Kind, layout: Layout, at: u64, line: &[u8]) -> Result<Option<Message>, LineFault>
    ensures { result ≡ frame_in kind layout at line.now }
{
    match kind {
        Kind::Data => {
            let message = data_frame(layout, at, line)?;
            Ok(Some(message))
        }
        Kind::Remote => {
            let message = remote_frame(layout, at, line)?;
            Ok(Some(message))
        }
        Kind::Error => Ok(Some(error_frame(at))),
        Kind::Status => Ok(None),
    }
}

/// The frame of a line that is no comment; nothing where it tells of something else. Stamps are milliseconds.
#[tactic(auto, unfolding(crate::specs::Peak::line_in))]
pub(crate) fn line_in(layout: Layout, line: &[u8]) -> Result<Option<Message>, LineFault>
    ensures { result ≡ line_in layout line.now }
{
    let at = decimal_in(3, field(layout.stamp, line))?;
    let kind = kind_in(layout, line)?;
    frame_in(kind, layout, at, line)
}
