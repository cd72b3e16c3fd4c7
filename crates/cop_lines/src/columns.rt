//! Lines as candump writes them in columns.

ghost use Rattle.std.specs.Prelude.{◌≡◌, ◌≤◌, IfOk};
ghost use Rattle.cop_lines.specs.Columns.{is_direction, from_id, bracketed, is_tail, bytes_with_tail, data_in, frame_in};

use crate::entries::{Content, Message};
use crate::faults::LineFault;
use crate::lines::id_in;
use crate::numbers::{Base, content_in, len_of, message_of};
use crate::words::{after, begins, field, word};

fn is_direction(text: &[u8]) -> bool
    ensures { result ≡ is_direction text.now }
{
    text == b"RX".as_slice() || text == b"TX".as_slice()
}

/// What stands of a line from the identifier on: with `-x` the direction and two flags stand before it.
#[tactic(auto, unfolding(crate::specs::Columns::from_id))]
pub(crate) fn from_id(line: &[u8]) -> &[u8]
    ensures { result.now ≡ from_id line.now }
{
    if is_direction(field(2, line)) {
        after(5, line)
    } else {
        after(2, line)
    }
}

// A length as "[8]"; a CAN FD frame has two digits.
#[tactic(auto, unfolding(crate::specs::Columns::bracketed))]
fn bracketed(text: &[u8]) -> Result<u8, LineFault>
    ensures value { result ≡ bracketed text.now }
    ensures few { IfOk result (λ len. len ≤ 8) }
{
    if text.len() == 3 && text[0] == b'[' && text[2] == b']' {
        len_of(text[1])
    } else {
        Err(LineFault::Form)
    }
}

// Nothing, the word of error frames, or the data as characters.
fn is_tail(text: &[u8]) -> bool
    ensures { result ≡ is_tail text.now }
{
    text.is_empty() || text == b"ERRORFRAME".as_slice() || begins(b"'", text)
}

fn bytes_with_tail(len: u8, text: &[u8]) -> Result<Option<Content>, LineFault>
    requires { len ≤ 8 }
    ensures { result ≡ bytes_with_tail len text.now }
{
    let content = content_in(Base::Hexadecimal, len, text)?;
    if is_tail(field(usize::from(len), text)) {
        Ok(Some(content))
    } else {
        Err(LineFault::Data)
    }
}

// The data bytes of a frame, and none of a remote frame.
#[tactic(auto, unfolding(crate::specs::Columns::data_in))]
fn data_in(len: u8, text: &[u8]) -> Result<Option<Content>, LineFault>
    requires { len ≤ 8 }
    ensures { result ≡ data_in len text.now }
{
    if word(text) == b"remote".as_slice() {
        Ok(None)
    } else {
        bytes_with_tail(len, text)
    }
}

/// The frame of a line, from its identifier on.
#[tactic(auto, unfolding(crate::specs::Columns::frame_in))]
pub(crate) fn frame_in(at: u64, text: &[u8]) -> Result<Message, LineFault>
    ensures { result ≡ frame_in at text.now }
{
    let id = id_in(word(text))?;
    let len = bracketed(field(1, text))?;
    let content = data_in(len, after(2, text))?;
    Ok(message_of(at, id, content))
}
