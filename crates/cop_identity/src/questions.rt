//! What the device of a node is asked, and what a frame answers.

ghost use Rattle.std.specs.Prelude.{◌≡◌, slice_index, option_map};
ghost use Rattle.cop_sdo.specs.Message.{message_of};
ghost use Rattle.cop_sdo.specs.Request.{address_in};
ghost use Rattle.cop_sdo.specs.Client.{same_address};
ghost use Rattle.cop_sdo.specs.Reply.{upload_of, reply_of};
ghost use Rattle.cop_identity.specs.Questions.{body_by, request_of, limit_of, number_of, value_of, judged, judged_off, answer_by, answer_in};

use byteorder::{ByteOrder, LittleEndian};
use cop_frame::Frame;
use cop_frame::identifiers::{SDO_REQUEST, SDO_RESPONSE};
use cop_sdo::Address;

/// What a device is asked to do with a value.
#[derive(Clone, Copy, Debug, PartialEq, Eq)]
pub enum Demand {
    /// To tell the value that an object has.
    Tell,
    /// To tell a COB-ID, which is to have bit 31: its PDO is off, and its other bits do not matter.
    TellOff,
    /// To take a value of four bytes for an object, which may take it longer.
    Take,
}

/// A question to the device of a node: an object of it, and the value that it is to have, or to take.
#[derive(Clone, Copy, Debug, PartialEq, Eq)]
pub struct Question {
    pub node: u8,
    pub demand: Demand,
    pub at: Address,
    pub wanted: u32,
}

/// What a device answers.
#[derive(Clone, Copy, Debug, PartialEq, Eq)]
pub enum Answer {
    /// The value that is wanted, or that it has taken it.
    Wanted,
    /// Another value.
    Other { found: u32 },
    /// It does not tell or take it, by this abort code.
    Aborted { code: u32 },
}

// The body of a request: of an upload, or of a download of four bytes.
fn body_by(demand: Demand, at: Address, wanted: u32) -> [u8; 8]
    ensures { result ≡ body_by demand at wanted }
{
    let (low, high) = ((at.index % 256) as u8, (at.index / 256) as u8);
    match demand {
        Demand::Tell | Demand::TellOff => [0x40, low, high, at.sub, 0, 0, 0, 0],
        Demand::Take => [
            0x23,
            low,
            high,
            at.sub,
            (wanted % 256) as u8,
            (wanted / 256 % 256) as u8,
            (wanted / 65_536 % 256) as u8,
            (wanted / 16_777_216 % 256) as u8,
        ],
    }
}

/// The request that asks a question: that of an upload, or of a download.
pub fn request_of(question: &Question) -> Frame
    ensures { message_of result ≡ request_of question.now }
{
    let Question {
        node,
        demand,
        at,
        wanted,
    } = *question;
    Frame {
        id: SDO_REQUEST + u16::from(node),
        body: body_by(demand, at, wanted),
        len: 8,
    }
}

/// The ticks for which an answer is awaited: 1 s, and 10 s where a value is to be taken, as devices that store it need seconds.
pub fn limit_of(demand: Demand) -> u64
    ensures { result ≡ limit_of demand }
{
    match demand {
        Demand::Tell | Demand::TellOff => 4_000_000,
        Demand::Take => 40_000_000,
    }
}

// A byte, and 0 where there is none.
fn byte_at(bytes: &[u8], i: usize) -> u8
    ensures { result ≡ slice_index bytes.now i }
{
    if i < bytes.len() { bytes[i] } else { 0 }
}

/// The number that at most four bytes are, the least significant first.
pub fn number_of(bytes: &[u8]) -> u32
    ensures { result ≡ number_of bytes.now }
{
    u32::from(byte_at(bytes, 0))
        + 256 * u32::from(byte_at(bytes, 1))
        + 65_536 * u32::from(byte_at(bytes, 2))
        + 16_777_216 * u32::from(byte_at(bytes, 3))
}

// The value that the answer to an upload has, unless it comes in segments.
fn value_in(body: &[u8; 8]) -> Option<u32>
    ensures { result ≡ value_of (upload_of (slice_index body.now 0) body.now) }
{
    let first = body[0];
    let four = &body[4..];
    if first / 2 % 2 != 1 {
        return None;
    }
    if first % 2 == 1 {
        let count = usize::from(4 - first / 4 % 4);
        Some(number_of(&four[..count]))
    } else {
        Some(number_of(four))
    }
}

// Whether a body is about an object.
fn is_about(at: Address, body: &[u8; 8]) -> bool
    ensures { result ≡ same_address at (address_in body.now) }
{
    at.index == LittleEndian::read_u16(&body[1..3]) && at.sub == body[3]
}

// What a COB-ID that was found answers, if it is to have bit 31.
fn judged_off(found: u32) -> Answer
    ensures { result ≡ judged_off found }
{
    if found < 1 << 31 {
        Answer::Other { found }
    } else {
        Answer::Wanted
    }
}

// What the COB-ID that a body has answers.
fn off_by(body: &[u8; 8]) -> Option<Answer>
    ensures { result ≡ option_map judged_off (value_of (upload_of (slice_index body.now 0) body.now)) }
{
    match value_in(body) {
        Some(found) => Some(judged_off(found)),
        None => None,
    }
}

impl Question {
    // What a value that was found answers.
    fn judged(&self, found: u32) -> Answer
        ensures { result ≡ judged self.now.wanted found }
    {
        if found == self.wanted {
            Answer::Wanted
        } else {
            Answer::Other { found }
        }
    }

    // What the value that a body has answers.
    fn told_by(&self, body: &[u8; 8]) -> Option<Answer>
        ensures { result ≡ option_map (judged self.now.wanted) (value_of (upload_of (slice_index body.now 0) body.now)) }
    {
        match value_in(body) {
            Some(found) => Some(self.judged(found)),
            None => None,
        }
    }

    // What a body about its object answers.
    fn answer_by(&self, body: &[u8; 8]) -> Option<Answer>
        ensures { result ≡ answer_by self.now.demand self.now.wanted (reply_of body.now) }
    {
        match (self.demand, body[0] / 32) {
            (Demand::Tell, 2) => self.told_by(body),
            (Demand::TellOff, 2) => off_by(body),
            (Demand::Take, 3) => Some(Answer::Wanted),
            (_, 4) => Some(Answer::Aborted {
                code: number_of(&body[4..]),
            }),
            _ => None,
        }
    }

    /// What a frame answers to it.
    pub(crate) fn answer_in(&self, frame: &Frame) -> Option<Answer>
        ensures { result ≡ answer_in self.now (message_of frame.now) }
    {
        if frame.id == SDO_RESPONSE + u16::from(self.node)
            && frame.len == 8
            && is_about(self.at, &frame.body)
        {
            self.answer_by(&frame.body)
        } else {
            None
        }
    }
}
