//! The line of a step, read where it lies.

ghost use Rattle.std.specs.Prelude.{◌≡◌, ◌++◌, codes, IfSome};
ghost use Rattle.cop_watch.specs.Lines.{kind_text, HasNumber, HasId, HasBits, HasLast, HasMoment, IsStepLine};

use cop_bus::{Step, content_in};

/// What a step is.
#[derive(Clone, Copy)]
enum Kind {
    Queue,
    Start,
    End,
}

/// How many digits a number may have here: so many fit 64 bits.
const MOST_DIGITS: usize = 19;

#[tactic(auto, using(crate::proofs::LineLemmas::no_digit, crate::proofs::LineLemmas::one_digit, crate::proofs::LineLemmas::digits_are_number))]
/// The number that a text begins with, up to a comma, and what is left behind that.
fn number_field(text: &[u8]) -> Option<(u64, &[u8])>
    ensures { IfSome result (λ r. HasNumber text.now r.0 r.1.now) }
{
    let mut number = 0u64;
    let mut digits = 0;
    let mut rest = text;
    while let Some((first, tail)) = rest.split_first() {
        if *first == b',' {
            return if digits == 0 {
                None
            } else {
                Some((number, tail))
            };
        }
        if digits == MOST_DIGITS {
            return None;
        }
        let digit = char::from(*first).to_digit(10)?;
        number = number * 10 + u64::from(digit);
        digits += 1;
        rest = tail;
    }
    None
}

/// The same of an identifier, which has 16 bits.
fn id_field(text: &[u8]) -> Option<(u16, &[u8])>
    ensures { IfSome result (λ r. HasId text.now r.0 r.1.now) }
{
    let (number, left) = number_field(text)?;
    match u16::try_from(number) {
        Ok(id) => Some((id, left)),
        Err(_) => None,
    }
}

/// The same of a length, which has 32 bits.
fn bits_field(text: &[u8]) -> Option<(u32, &[u8])>
    ensures { IfSome result (λ r. HasBits text.now r.0 r.1.now) }
{
    let (number, left) = number_field(text)?;
    match u32::try_from(number) {
        Ok(bits) => Some((bits, left)),
        Err(_) => None,
    }
}

#[tactic(auto, using(std::proofs::lemmas::List::Folds::list_all_more))]
/// The field that a text begins with, up to the end of its line, and what is left behind that.
fn last_field(text: &[u8]) -> Option<(&[u8], &[u8])>
    ensures { IfSome result (λ r. HasLast text.now r.0.now r.1.now) }
{
    for (place, byte) in text.iter().enumerate() {
        match *byte {
            b'\n' => return Some((&text[..place], &text[place + 1..])),
            b',' | b'\r' => return None,
            _ => {}
        }
    }
    None
}

/// A moment and an identifier with three empty fields behind them, and what is left behind their line.
fn moment_line(text: &[u8]) -> Option<(u64, u16, &[u8])>
    ensures { IfSome result (λ r. HasMoment text.now r.0 r.1 r.2.now) }
{
    let (at, rest) = number_field(text)?;
    let (id, rest) = id_field(rest)?;
    match rest {
        [b',', b',', b'\n', left @ ..] => Some((at, id, left)),
        _ => None,
    }
}

/// The queue step of a line behind its kind, and what is left behind the line.
fn queue_line(text: &[u8]) -> Option<(Step, &[u8])>
    ensures { IfSome result (λ r. IsStepLine (codes "queue," ++ text.now) r.0 r.1.now) }
{
    let (at, rest) = number_field(text)?;
    let (id, rest) = id_field(rest)?;
    let (event, rest) = number_field(rest)?;
    let (bits, rest) = bits_field(rest)?;
    let (data, left) = last_field(rest)?;
    match content_in(bits, data) {
        Ok(frame) => Some((
            Step::Queue {
                at,
                id,
                event,
                frame,
            },
            left,
        )),
        Err(_) => None,
    }
}

/// The kind of step whose line a text begins with, and what is left behind the comma that follows.
fn kind_field(text: &[u8]) -> Option<(Kind, &[u8])>
    ensures { IfSome result (λ r. kind_text r.0 ++ r.1.now ≡ text.now) }
{
    match text {
        [b'q', b'u', b'e', b'u', b'e', b',', left @ ..] => Some((Kind::Queue, left)),
        [b's', b't', b'a', b'r', b't', b',', left @ ..] => Some((Kind::Start, left)),
        [b'e', b'n', b'd', b',', left @ ..] => Some((Kind::End, left)),
        _ => None,
    }
}

#[tactic(auto, using(crate::proofs::LineLemmas::start_is_line, crate::proofs::LineLemmas::end_is_line))]
/// The step whose line a text begins with, and what is left behind the line. Of a line that is none, or that is written
/// otherwise than canplan writes it, nothing is said.
pub(crate) fn step_line(text: &[u8]) -> Option<(Step, &[u8])>
    ensures { IfSome result (λ r. IsStepLine text.now r.0 r.1.now) }
{
    let (kind, rest) = kind_field(text)?;
    match kind {
        Kind::Queue => queue_line(rest),
        Kind::Start => {
            let (at, id, left) = moment_line(rest)?;
            Some((Step::Start { at, id }, left))
        }
        Kind::End => {
            let (at, id, left) = moment_line(rest)?;
            Some((Step::End { at, id }, left))
        }
    }
}
