//! The records of a trace as lines.

ghost use Rattle.std.specs.Prelude.{◌≡◌, ◌+◌, ◌≤◌, ◌<◌, ◌∷◌, ◌++◌, ◌^◌, decimal, drop, false, length, slice_index, take};
ghost use Rattle.csv.specs.Writing.{needs_quotes, default_writer, comma};
ghost use Rattle.hex.specs.Hex.{upper_digits, encode_upper};
ghost use Rattle.cop_bus.specs.Format.{bytes_of, header, short, queue_fields, fields_of, line};

use crate::steps::{Content, Step};
use itoa::write_digits;

const DIGITS: [u8; 16] = *b"0123456789ABCDEF";

/// Room for a record, which is made from its last byte to its first: a kind, four numbers of 20 digits, 16 digits of data, five
/// commas and a line feed at most.
pub(crate) type Block = [u8; 112];

// Puts a part before what begins at `end`, and tells where it begins.
fn put(block: &mut Block, end: usize, part: &[u8]) -> usize
    requires room { length part.now ≤ end }
    requires within { end ≤ 112 }
    ensures part { drop result block.new ≡ part.now ++ drop end block.old }
    ensures start { result + length part.now ≡ end }
{
    let start = end - part.len();
    block[start..end].copy_from_slice(part);
    start
}

// Puts a comma and a number before what begins at `end`, and tells where they begin.
fn put_number(block: &mut Block, end: usize, number: u64) -> usize
    requires room { 21 ≤ end }
    requires within { end ≤ 112 }
    ensures part { drop result block.new ≡ (comma ∷ decimal number) ++ drop end block.old }
    ensures start { (result ≤ end) × (end ≤ result + 21) }
    ensures fits { number < 2 ^ 64 }
{
    let digits = write_digits(number, block, end);
    put(block, digits, b",")
}

#[tactic(auto, using(crate::proofs::LineLemmas::header_is_line))]
/// The names of the fields.
pub(crate) fn header() -> &'static [u8]
    ensures line { result.now ≡ line header }
    ensures short { length result.now ≤ 112 }
{
    b"kind,moment,id,event,bits,data\n"
}

/// Makes the line of a record that queues nothing, of a kind that needs no quotes, and tells where it begins.
pub(crate) fn make_short(block: &mut Block, kind: &[u8], at: u64, id: u16) -> usize
    requires { length kind.now ≤ 5 }
    ensures line { needs_quotes default_writer kind.now ≡ false → drop result block.new ≡ line (short kind.now at id) }
    ensures within { result ≤ 112 }
{
    let empty = put(block, 112, b",,,\n");
    let id = put_number(block, empty, u64::from(id));
    let at = put_number(block, id, at);
    put(block, at, kind)
}

// A frame's data bytes.
fn bytes_of(frame: &Content) -> &[u8]
    ensures value { result.now ≡ bytes_of frame.now }
    ensures short { length result.now ≤ 8 }
{
    if frame.len < 8 {
        &frame.body[..usize::from(frame.len)]
    } else {
        &frame.body
    }
}

// A digit of the base 16.
fn digit_of(value: u8) -> u8
    requires { value < 16 }
    ensures { result ≡ slice_index upper_digits value }
{
    DIGITS[usize::from(value)]
}

// Eight bytes or fewer as pairs of hexadecimal digits, of which the first count.
fn digits_of(bytes: &[u8]) -> [u8; 16]
    requires { length bytes.now ≤ 8 }
    ensures { take (length bytes.now + length bytes.now) result ≡ encode_upper bytes.now }
{
    let mut digits = [b'0'; 16];
    for i in 0..bytes.len() {
        digits[i + i] = digit_of(bytes[i] / 16);
        digits[i + i + 1] = digit_of(bytes[i] % 16);
    }
    digits
}

/// Makes the line of a queue step's record, and tells where it begins.
pub(crate) fn make_queue(block: &mut Block, at: u64, id: u16, event: u64, frame: &Content) -> usize
    ensures line { drop result block.new ≡ line (queue_fields at id event frame.now) }
    ensures within { result ≤ 112 }
{
    let bytes = bytes_of(frame);
    let digits = digits_of(bytes);
    let end = put(block, 112, b"\n");
    let data = put(block, end, &digits[..bytes.len() + bytes.len()]);
    let comma = put(block, data, b",");
    let bits = put_number(block, comma, u64::from(frame.bits));
    let event = put_number(block, bits, event);
    let id = put_number(block, event, u64::from(id));
    let at = put_number(block, id, at);
    put(block, at, b"queue")
}

/// Makes the line of a step, and tells where it begins.
pub(crate) fn make_step(block: &mut Block, step: &Step) -> usize
    ensures line { drop result block.new ≡ line (fields_of step.now) }
    ensures within { result ≤ 112 }
{
    match step {
        Step::Queue {
            at,
            id,
            event,
            frame,
        } => make_queue(block, *at, *id, *event, frame),
        Step::Start { at, id } => make_short(block, b"start", *at, *id),
        Step::End { at, id } => make_short(block, b"end", *at, *id),
    }
}
