//! What is written to an adapter.

ghost use Rattle.std.specs.Prelude.{◌≡◌, ◌<◌, slice_index};
ghost use Rattle.hex.specs.Hex.{upper_digits};
ghost use Rattle.cop_sdo.specs.Message.{message_of};
ghost use Rattle.cop_slcan.specs.Lines.{head_of, line_of, rate_digit};

use arrayvec::ArrayVec;
use cop_frame::{Frame, Rate};

/// A line with the CR that ends it.
pub type Line = ArrayVec<u8, 22>;

static DIGITS: [u8; 16] = *b"0123456789ABCDEF";

// A digit of the base 16.
fn digit_of(value: u8) -> u8
    requires { value < 16 }
    ensures { result ≡ slice_index upper_digits value }
{
    DIGITS[usize::from(value)]
}

// `t`, three digits of the identifier, and the length.
fn head_of(frame: &Frame) -> Line
    ensures { result.items ≡ head_of (message_of frame.now) }
{
    let mut line = ArrayVec::new();
    line.push(b't');
    line.push(digit_of((frame.id / 256) as u8));
    line.push(digit_of((frame.id / 16 % 16) as u8));
    line.push(digit_of((frame.id % 16) as u8));
    line.push(digit_of(frame.len));
    line
}

/// The line that has an adapter send a frame: `t`, three digits of the identifier, the length, two digits for each byte, and CR.
pub fn line_of(frame: &Frame) -> Line
    ensures { result.items ≡ line_of (message_of frame.now) }
{
    let mut line = head_of(frame);
    for byte in frame.data() {
        line.push(digit_of(*byte / 16));
        line.push(digit_of(*byte % 16));
    }
    line.push(b'\r');
    line
}

/// The digit of a rate in the command `S` that sets it.
pub fn rate_digit(rate: Rate) -> u8
    ensures { result ≡ rate_digit rate }
{
    match rate {
        Rate::Kbit10 => b'0',
        Rate::Kbit20 => b'1',
        Rate::Kbit50 => b'2',
        Rate::Kbit125 => b'4',
        Rate::Kbit250 => b'5',
        Rate::Kbit500 => b'6',
        Rate::Kbit800 => b'7',
        Rate::Kbit1000 => b'8',
    }
}
