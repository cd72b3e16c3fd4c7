//! Lines as `candump -L` writes them.

ghost use Rattle.std.specs.Prelude.{◌≡◌, ◌≤◌, length};
ghost use Rattle.cop_lines.specs.Lines.{with_micros, is_framed, numbers_in, stamp_in, id_in, pairs_in, frame_in, is_end, logged, logged_in, line_in};

use crate::entries::{Content, Entry, Message};
use crate::faults::LineFault;
use crate::numbers::{hexadecimal, message_of, moment, number_in};
use crate::words::{back, front};

fn with_micros(seconds: u64, text: &[u8]) -> Result<u64, LineFault>
    ensures { result ≡ with_micros seconds text.now }
{
    let micros = number_in(6, text)?;
    moment(u128::from(seconds) * 1_000_000 + u128::from(micros))
}

// Round brackets round it, and a point before its last six digits.
fn is_framed(text: &[u8]) -> bool
    requires { 10 ≤ length text.now }
    ensures { result ≡ is_framed text.now }
{
    let n = text.len();
    text[0] == b'(' && text[n - 8] == b'.' && text[n - 1] == b')'
}

fn numbers_in(text: &[u8]) -> Result<u64, LineFault>
    requires { 10 ≤ length text.now }
    ensures { result ≡ numbers_in text.now }
{
    let n = text.len();
    let seconds = number_in(14, &text[1..n - 8])?;
    with_micros(seconds, &text[n - 7..][..6])
}

/// The microsecond of a stamp.
#[tactic(auto, unfolding(crate::specs::Lines::stamp_in))]
pub(crate) fn stamp_in(text: &[u8]) -> Result<u64, LineFault>
    ensures { result ≡ stamp_in text.now }
{
    if text.len() < 10 {
        return Err(LineFault::Stamp);
    }
    if !is_framed(text) {
        return Err(LineFault::Stamp);
    }
    numbers_in(text)
}

/// An identifier of three or eight digits.
#[tactic(auto, unfolding(crate::specs::Lines::id_in))]
pub(crate) fn id_in(text: &[u8]) -> Result<u32, LineFault>
    ensures { result ≡ id_in text.now }
{
    if text.len() == 3 {
        return hexadecimal(text).ok_or(LineFault::Identifier);
    }
    if text.len() == 8 {
        let n = hexadecimal(text).ok_or(LineFault::Identifier)?;
        if n < 1 << 29 {
            return Ok(n + (1 << 31));
        }
        return Ok(n);
    }
    Err(LineFault::Identifier)
}

// The data bytes of a frame, and none of a remote frame.
#[tactic(auto, unfolding(crate::specs::Lines::pairs_in))]
fn pairs_in(text: &[u8]) -> Result<Option<Content>, LineFault>
    ensures { result ≡ pairs_in text.now }
{
    if !text.is_empty() && text[0] == b'R' {
        return Ok(None);
    }
    if text.len() > 16 {
        return Err(LineFault::Data);
    }
    let len = text.len() / 2;
    let mut body = [0; 8];
    match hex::decode_to_slice(text, &mut body[..len]) {
        Ok(()) => Ok(Some(Content {
            body,
            len: len as u8,
        })),
        Err(_) => Err(LineFault::Data),
    }
}

// A frame, as "181#0011223344556677".
fn frame_in(at: u64, text: &[u8]) -> Result<Message, LineFault>
    ensures { result ≡ frame_in at text.now }
{
    let id = id_in(front(b'#', text))?;
    let content = pairs_in(back(b'#', text))?;
    Ok(message_of(at, id, content))
}

// Nothing, or the direction.
fn is_end(text: &[u8]) -> bool
    ensures { result ≡ is_end text.now }
{
    text.is_empty() || text == b"R".as_slice() || text == b"T".as_slice()
}

fn logged(at: u64, text: &[u8]) -> Result<Message, LineFault>
    ensures { result ≡ logged at text.now }
{
    if !is_end(back(b' ', text)) {
        return Err(LineFault::Form);
    }
    frame_in(at, front(b' ', text))
}

/// The frame of a line.
#[tactic(auto, unfolding(crate::specs::Lines::logged_in))]
pub(crate) fn logged_in(line: &[u8]) -> Result<Message, LineFault>
    ensures { result ≡ logged_in line.now }
{
    let at = stamp_in(front(b' ', line))?;
    logged(at, back(b' ', back(b' ', line)))
}

/// The entry of a line, or nothing where the line is of another channel.
#[tactic(auto, unfolding(crate::specs::Lines::line_in))]
pub fn line_in(channel: &[u8], line: &[u8]) -> Result<Option<Entry>, LineFault>
    ensures { result ≡ line_in channel.now line.now }
{
    let message = logged_in(line)?;
    if front(b' ', back(b' ', line)) == channel {
        Ok(Some(message.entry))
    } else {
        Ok(None)
    }
}
