//! A request is sent over a port, and the answer of its node is awaited.

ghost use Rattle.std.specs.Prelude.{◌≡◌, None, IfSome, IfNone, option_map, option_to_list};
ghost use Rattle.cop_sdo.specs.Message.{message_of};
ghost use Rattle.cop_sdo.specs.Reply.{is_answer};
ghost use Rattle.cop_slcan.specs.Meaning.{told_of};
ghost use Rattle.cop_slcan.specs.Reading.{said_from, left_from, taken};
ghost use Rattle.cop_transfer.specs.Exchanging.{answer_told, first_answer, WasExchanged, ExchangeFails};

use cop_frame::Frame;
use cop_frame::identifiers::SDO_RESPONSE;
use cop_live::{Port, send};
use cop_slcan::{Reader, Said};

// Whether a frame comes from the SDO server of a node.
fn is_answer(node: u8, frame: &Frame) -> bool
    ensures { result ≡ is_answer node (message_of frame.now) }
{
    frame.id == SDO_RESPONSE + u16::from(node) && frame.len == 8
}

// The answer of a node that a line tells.
fn answer_told(node: u8, said: &Said) -> Option<Frame>
    ensures { option_map message_of result ≡ answer_told node (told_of said.now) }
{
    match said {
        Said::Heard(frame) if is_answer(node, frame) => Some(*frame),
        Said::Heard(_) | Said::Done | Said::Refused | Said::Other => None,
    }
}

// The answer of a node that a byte tells, if it ends a line.
fn answer_at(node: u8, reader: &mut Reader, byte: u8) -> Option<Frame>
    ensures reader { reader.new ≡ (taken reader.old byte).0 }
    ensures found { option_map message_of result ≡ first_answer node (option_to_list (taken reader.old byte).1) }
{
    match reader.take(byte) {
        Some(said) => answer_told(node, &said),
        None => None,
    }
}

// The first answer of a node in bytes.
fn answer_from(node: u8, reader: &mut Reader, bytes: &[u8]) -> Option<Frame>
    ensures found { option_map message_of result ≡ first_answer node (said_from reader.old bytes.now) }
    ensures reader { result ≡ None → reader.new ≡ left_from reader.old bytes.now }
{
    match bytes {
        [] => None,
        [byte, rest @ ..] => match answer_at(node, reader, *byte) {
            Some(answer) => Some(answer),
            None => answer_from(node, reader, rest),
        },
    }
}

/// Sends a request, and awaits the answer of a node for so many ticks: `Some(None)` where none comes. `None` where the port or its clock fails.
pub(crate) fn exchange<P: Port>(
    node: u8,
    limit: u64,
    request: &Frame,
    port: &mut P,
) -> Option<Option<Frame>>
    ensures exchanged { IfSome result (λ answer. WasExchanged P.reads P.writes P.asks node limit (message_of request.now) port.old (option_map message_of answer) port.new) }
    ensures failed { IfNone result (ExchangeFails P.reads P.writes P.asks P.fails (message_of request.now) port.old port.new) }
{
    let Some(began) = port.now() else {
        return None;
    };
    if !send(port, request) {
        return None;
    }
    let mut reader = Reader::new();
    for _turn in 0..u64::MAX {
        let Some(now) = port.now() else {
            return None;
        };
        if now.saturating_sub(began) >= limit {
            return Some(None);
        }
        let mut buffer = [0; 256];
        let Some(count) = port.read(&mut buffer) else {
            return None;
        };
        if let Some(answer) = answer_from(node, &mut reader, &buffer[..count]) {
            return Some(Some(answer));
        }
    }
    None
}
