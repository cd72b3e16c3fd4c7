//! Lines of logs in Vector's form .asc.

ghost use Rattle.std.specs.Prelude.{◌≡◌, ◌<◌, ◌≤◌, length, IfOk};
ghost use Rattle.cop_lines.specs.Numbers.{len_in};
ghost use Rattle.cop_lines.specs.Vector.{base_in, is_header, is_long, id_in, is_direction, is_request, bytes_in, data_in, frame_in, without_direction, on_channel, is_bit, from_bits, or_form, flags_in, has_bit, marked_in, long_data_in, long_frame_in, long_event_in, is_long_form, bus_in, event_in};

use crate::entries::{Content, Message};
use crate::faults::LineFault;
use crate::forms::Form;
use crate::numbers::{
    Base, content_in, error_frame, hexadecimal_id, id_digits, len_in, long_id, message_of, short_id,
};
use crate::words::{after, begins, field, word};
use cop_table::number;

/// What a line says that begins with `base`: the digits of identifiers and bytes, and whether stamps are distances.
#[tactic(auto, unfolding(crate::specs::Vector::base_in))]
pub(crate) fn base_in(line: &[u8]) -> Result<Form, LineFault>
    ensures { result ≡ base_in line.now }
{
    let are_distances = field(3, line) == b"relative".as_slice();
    let base = field(1, line);
    if base == b"hex".as_slice() {
        return Ok(Form::Vector {
            base: Base::Hexadecimal,
            are_distances,
        });
    }
    if base == b"dec".as_slice() {
        return Ok(Form::Vector {
            base: Base::Decimal,
            are_distances,
        });
    }
    Err(LineFault::Form)
}

/// Whether a line that begins with a word is none of an event, and not that of the base.
pub(crate) fn is_header(text: &[u8]) -> bool
    ensures { result ≡ is_header text.now }
{
    text == b"date".as_slice()
        || text == b"internal".as_slice()
        || text == b"no".as_slice()
        || text == b"Begin".as_slice()
        || text == b"End".as_slice()
        || begins(b"//", text)
}

// An x stands behind identifiers of 29 bits.
fn is_long(text: &[u8]) -> bool
    requires { 0 < length text.now }
    ensures { result ≡ is_long text.now }
{
    text[text.len() - 1] == b'x'
}

#[tactic(auto, unfolding(crate::specs::Vector::id_in))]
fn id_in(base: Base, text: &[u8]) -> Result<u32, LineFault>
    ensures { result ≡ id_in base text.now }
{
    if text.is_empty() {
        return Err(LineFault::Identifier);
    }
    if is_long(text) {
        let number = id_digits(base, &text[..text.len() - 1])?;
        return long_id(number);
    }
    let number = id_digits(base, text)?;
    short_id(number)
}

fn is_direction(text: &[u8]) -> bool
    ensures { result ≡ is_direction text.now }
{
    text == b"Rx".as_slice() || text == b"Tx".as_slice()
}

// The request to send a frame, which is no transfer: that has a line of its own.
fn is_request(text: &[u8]) -> bool
    ensures { result ≡ is_request text.now }
{
    text == b"TxRq".as_slice()
}

#[tactic(auto, unfolding(crate::specs::Vector::bytes_in))]
fn bytes_in(base: Base, text: &[u8]) -> Result<Option<Content>, LineFault>
    ensures { result ≡ bytes_in base text.now }
{
    let len = len_in(word(text))?;
    let content = content_in(base, len, after(1, text))?;
    Ok(Some(content))
}

// The data bytes of a frame, and none of a remote frame.
#[tactic(auto, unfolding(crate::specs::Vector::data_in))]
fn data_in(base: Base, text: &[u8]) -> Result<Option<Content>, LineFault>
    ensures { result ≡ data_in base text.now }
{
    let kind = word(text);
    if kind == b"r".as_slice() {
        return Ok(None);
    }
    if kind == b"d".as_slice() {
        return bytes_in(base, after(1, text));
    }
    Err(LineFault::Form)
}

#[tactic(auto, unfolding(crate::specs::Vector::frame_in))]
fn frame_in(base: Base, at: u64, text: &[u8]) -> Result<Message, LineFault>
    ensures { result ≡ frame_in base at text.now }
{
    let id = id_in(base, word(text))?;
    let content = data_in(base, after(2, text))?;
    Ok(message_of(at, id, content))
}

// An event with no direction, whose first word is an identifier or is none.
fn without_direction(id: Result<u32, LineFault>) -> Result<Option<Message>, LineFault>
    ensures { result ≡ without_direction id }
{
    match id {
        Ok(_) => Err(LineFault::Form),
        Err(_) => Ok(None),
    }
}

#[tactic(auto, unfolding(crate::specs::Vector::on_channel))]
fn on_channel(base: Base, at: u64, text: &[u8]) -> Result<Option<Message>, LineFault>
    ensures { result ≡ on_channel base at text.now }
{
    if word(text) == b"ErrorFrame".as_slice() {
        return Ok(Some(error_frame(at)));
    }
    if is_request(field(1, text)) {
        return Ok(None);
    }
    if is_direction(field(1, text)) {
        let message = frame_in(base, at, text)?;
        return Ok(Some(message));
    }
    without_direction(id_in(base, word(text)))
}

// BRS or ESI.
fn is_bit(text: &[u8]) -> bool
    ensures { result ≡ is_bit text.now }
{
    text == b"0".as_slice() || text == b"1".as_slice()
}

// What stands from BRS on: a name may stand before it.
#[tactic(auto, unfolding(crate::specs::Vector::from_bits))]
fn from_bits(text: &[u8]) -> &[u8]
    ensures { result.now ≡ from_bits text.now }
{
    if is_bit(field(1, text)) {
        after(1, text)
    } else {
        after(2, text)
    }
}

// The length of a classical frame.
fn short_len(text: &[u8]) -> Result<u8, LineFault>
    ensures value { result ≡ or_form (len_in text.now) }
    ensures few { IfOk result (λ len. len ≤ 8) }
{
    match len_in(text) {
        Ok(len) => Ok(len),
        Err(_) => Err(LineFault::Form),
    }
}

// The flags behind so many bytes.
#[tactic(auto, unfolding(crate::specs::Vector::flags_in))]
fn flags_in(len: u8, text: &[u8]) -> Result<u32, LineFault>
    requires { len ≤ 8 }
    ensures { result ≡ flags_in len text.now }
{
    match hexadecimal_id(field(usize::from(len) + 6, text)) {
        Ok(flags) => Ok(flags),
        Err(_) => Err(LineFault::Form),
    }
}

fn has_bit(flags: u32, power: u32) -> bool
    requires { 0 < power }
    ensures { result ≡ has_bit flags power }
{
    flags / power % 2 == 1
}

// The data bytes of a frame with some flags, and none of a remote frame.
#[tactic(auto, unfolding(crate::specs::Vector::marked_in))]
fn marked_in(base: Base, len: u8, flags: u32, text: &[u8]) -> Result<Option<Content>, LineFault>
    requires { len ≤ 8 }
    ensures { result ≡ marked_in base len flags text.now }
{
    if has_bit(flags, 4096) {
        return Err(LineFault::Form);
    }
    if has_bit(flags, 16) {
        return Ok(None);
    }
    let content = content_in(base, len, after(4, text))?;
    Ok(Some(content))
}

#[tactic(auto, unfolding(crate::specs::Vector::long_data_in))]
fn long_data_in(base: Base, text: &[u8]) -> Result<Option<Content>, LineFault>
    ensures { result ≡ long_data_in base text.now }
{
    let len = short_len(field(3, text))?;
    let flags = flags_in(len, text)?;
    marked_in(base, len, flags, text)
}

#[tactic(auto, unfolding(crate::specs::Vector::long_frame_in))]
fn long_frame_in(base: Base, at: u64, text: &[u8]) -> Result<Message, LineFault>
    ensures { result ≡ long_frame_in base at text.now }
{
    let id = id_in(base, word(text))?;
    let content = long_data_in(base, from_bits(text))?;
    Ok(message_of(at, id, content))
}

// The frame of a line as hardware of CAN FD writes it, from what stands behind its channel.
#[tactic(auto, unfolding(crate::specs::Vector::long_event_in))]
fn long_event_in(base: Base, at: u64, text: &[u8]) -> Result<Option<Message>, LineFault>
    ensures { result ≡ long_event_in base at text.now }
{
    if is_request(word(text)) {
        return Ok(None);
    }
    if !is_direction(word(text)) {
        return Err(LineFault::Form);
    }
    if field(1, text) == b"ErrorFrame".as_slice() {
        return Ok(Some(error_frame(at)));
    }
    let message = long_frame_in(base, at, after(1, text))?;
    Ok(Some(message))
}

fn is_long_form(text: &[u8]) -> bool
    ensures { result ≡ is_long_form text.now }
{
    text == b"CANFD".as_slice()
}

/// The channel of a line that has a frame.
#[tactic(auto, unfolding(crate::specs::Vector::bus_in))]
pub(crate) fn bus_in(line: &[u8]) -> &[u8]
    ensures { result.now ≡ bus_in line.now }
{
    if is_long_form(field(1, line)) {
        field(2, line)
    } else {
        field(1, line)
    }
}

/// The frame of an event, from what stands behind its stamp; nothing where it is none.
#[tactic(auto, unfolding(crate::specs::Vector::event_in))]
pub(crate) fn event_in(base: Base, at: u64, text: &[u8]) -> Result<Option<Message>, LineFault>
    ensures { result ≡ event_in base at text.now }
{
    let channel = word(text);
    if is_long_form(channel) {
        return long_event_in(base, at, after(2, text));
    }
    if number(3, channel).is_some() {
        return on_channel(base, at, after(1, text));
    }
    Ok(None)
}
