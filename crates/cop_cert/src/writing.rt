//! Writing refusals as a table.

ghost use Rattle.std.specs.Prelude.{◌≡◌, ◌∷◌, ◌<◌, ◌≤◌, [], ◌+◌, ◌^◌, OnOk, IfOk, false, length, map, get_or};
ghost use Rattle.std.specs.List.{flat_map};
ghost use Rattle.csv.specs.Writing.{needs_quotes, default_writer};
ghost use Rattle.cop_cert.specs.Format.{fields_of, evidence_rows, long_word, late_word, member_rows, frame_rows, is_by_places, refusal_rows, version, version_of, text_of};
ghost use Rattle.cop_cert.specs.Plain.{head_text};
ghost use Rattle.cop_cert.specs.Writer.{Adds, IsHead};

use crate::entries::Side;
use crate::lines::{LINES, NO_LINES, add_lines};
use crate::refusals::{Cause, Evidence, Member, Refusal};
use cop_frame::Rate;
use itoa::Buffer;
use std::alloc::{AllocError, Global};

#[tactic(auto, using(crate::proofs::LineLemmas::head_is_line))]
/// What stands before the number in a record, for a word that needs no quotes.
pub(crate) fn head_of(
    alloc: Global,
    rate: Rate,
    number: u128,
    what: &[u8],
) -> Result<Vec<u8>, AllocError>
    requires fits { number < 10 ^ 20 }
    requires plain { needs_quotes default_writer what.now ≡ false }
    requires word { length what.now ≤ 8 }
    ensures head { IfOk result (λ head. IsHead head.items (fields_of rate number what.now)) }
    ensures text { IfOk result (λ head. head.items ≡ head_text rate number what.now) }
    ensures short { IfOk result (λ head. length head.items ≤ 91) }
{
    let mut digits = Buffer::new();
    let mut head = Vec::from_slice(alloc, digits.format(rate.kbits()).as_bytes())?;
    head.push(b',')?;
    head.extend_from_slice(digits.format(number).as_bytes())?;
    head.push(b',')?;
    head.extend_from_slice(what)?;
    head.push(b',')?;
    Ok(head)
}

/// A record for each number of a list.
pub(crate) fn write_numbers(
    alloc: Global,
    text: &mut Vec<u8>,
    rate: Rate,
    number: u128,
    what: &[u8],
    numbers: &[u64],
) -> Result<(), AllocError>
    requires fits { number < 10 ^ 20 }
    requires plain { needs_quotes default_writer what.now ≡ false }
    requires word { length what.now ≤ 8 }
    ensures { OnOk result (Adds text.old.items text.new.items (map (fields_of rate number what.now) numbers.now)) }
{
    let head = head_of(alloc, rate, number, what)?;
    let mut block = NO_LINES;
    let mut rest = numbers;
    while !rest.is_empty() {
        let (next, left) = rest.split_at(rest.len().min(LINES));
        add_lines(text, &mut block, &head, next)?;
        rest = left;
    }
    Ok(())
}

pub(crate) fn write_record(
    alloc: Global,
    text: &mut Vec<u8>,
    rate: Rate,
    number: u128,
    what: &[u8],
    value: u64,
) -> Result<(), AllocError>
    requires fits { number < 10 ^ 20 }
    requires plain { needs_quotes default_writer what.now ≡ false }
    requires word { length what.now ≤ 8 }
    ensures { OnOk result (Adds text.old.items text.new.items (fields_of rate number what.now value ∷ [])) }
{
    write_numbers(alloc, text, rate, number, what, &[value])
}

/// The words of evidence, by which members it is of.
pub(crate) fn long_word(side: Side) -> &'static [u8]
    ensures word { result.now ≡ long_word side }
    ensures short { length result.now ≤ 8 }
    ensures plain { needs_quotes default_writer result.now ≡ false }
{
    match side {
        Side::Place => b"long",
        Side::Up => b"uplong",
    }
}

pub(crate) fn late_word(side: Side) -> &'static [u8]
    ensures word { result.now ≡ late_word side }
    ensures short { length result.now ≤ 8 }
    ensures plain { needs_quotes default_writer result.now ≡ false }
{
    match side {
        Side::Place => b"late",
        Side::Up => b"uplate",
    }
}

#[tactic(auto, using(crate::proofs::WriterLemmas::adds_more))]
pub(crate) fn write_evidence(
    alloc: Global,
    text: &mut Vec<u8>,
    rate: Rate,
    number: u128,
    side: Side,
    evidence: &Evidence,
) -> Result<(), AllocError>
    requires { number < 10 ^ 20 }
    ensures { OnOk result (Adds text.old.items text.new.items (evidence_rows rate number (long_word side) (late_word side) evidence.now)) }
{
    match evidence {
        Evidence::Long { busy } => {
            write_record(alloc, text, rate, number, long_word(side), 0)?;
            write_numbers(alloc, text, rate, number, b"busy", busy.as_slice())
        }
        Evidence::Late { q, busy, queue } => {
            write_record(alloc, text, rate, number, late_word(side), *q)?;
            write_numbers(alloc, text, rate, number, b"busy", busy.as_slice())?;
            write_numbers(alloc, text, rate, number, b"queue", queue.as_slice())
        }
    }
}

#[tactic(auto, using(crate::proofs::WriterLemmas::adds_each, crate::proofs::WriterLemmas::all_each, crate::proofs::WriterLemmas::adds_none))]
fn write_members(
    alloc: Global,
    text: &mut Vec<u8>,
    rate: Rate,
    side: Side,
    members: &[Member],
) -> Result<(), AllocError>
    ensures { OnOk result (Adds text.old.items text.new.items (flat_map (member_rows side rate) members.now)) }
{
    for member in members {
        let number = member.pdo as u128 + 1;
        write_evidence(alloc, text, rate, number, side, &member.evidence)?;
    }
    Ok(())
}

#[tactic(auto, using(crate::proofs::WriterLemmas::adds_more))]
pub(crate) fn write_frame(
    alloc: Global,
    text: &mut Vec<u8>,
    rate: Rate,
    id: u16,
    evidence: &Evidence,
) -> Result<(), AllocError>
    ensures { OnOk result (Adds text.old.items text.new.items (frame_rows rate id evidence.now)) }
{
    write_record(alloc, text, rate, 0, b"sdo", u64::from(id))?;
    write_evidence(alloc, text, rate, 0, Side::Place, evidence)
}

#[tactic(auto, using(crate::proofs::WriterLemmas::adds_more))]
pub(crate) fn write_refusal(
    alloc: Global,
    text: &mut Vec<u8>,
    refusal: &Refusal,
) -> Result<(), AllocError>
    ensures { OnOk result (Adds text.old.items text.new.items (refusal_rows refusal.now)) }
{
    let rate = refusal.rate;
    match &refusal.cause {
        Cause::Places { members } => write_members(
            alloc,
            text,
            rate,
            Side::Place,
            members.as_slice(),
        ),
        Cause::Sync { busy } => {
            write_record(alloc, text, rate, 0, b"sync", 0)?;
            write_numbers(alloc, text, rate, 0, b"busy", busy.as_slice())
        }
        Cause::Sdo { up, id, evidence } => {
            write_members(alloc, text, rate, Side::Up, up.as_slice())?;
            write_frame(alloc, text, rate, *id, evidence)
        }
    }
}

/// Whether a cause is one that the first version has words for.
fn is_by_places(cause: &Cause) -> bool
    ensures { result ≡ is_by_places cause.now }
{
    match cause {
        Cause::Places { .. } => true,
        Cause::Sync { .. } | Cause::Sdo { .. } => false,
    }
}

#[tactic(auto, using(std::proofs::lemmas::List::Folds::list_all_at, std::proofs::lemmas::List::Folds::list_all_more, std::proofs::lemmas::List::take_all))]
/// The number of the first version that has words for all causes.
pub(crate) fn version_number(refusals: &[Refusal]) -> &'static [u8]
    ensures { result.now ≡ get_or (version (version_of refusals.now)) 3 [] }
{
    for refusal in refusals {
        if !is_by_places(&refusal.cause) {
            return b"2";
        }
    }
    b"1"
}

#[tactic(auto, using(crate::proofs::WriterLemmas::adds_each, crate::proofs::WriterLemmas::all_each, crate::proofs::WriterLemmas::adds_none))]
fn write_refusals(alloc: Global, text: &mut Vec<u8>, refusals: &[Refusal]) -> Result<(), AllocError>
    ensures { OnOk result (Adds text.old.items text.new.items (flat_map refusal_rows refusals.now)) }
{
    for refusal in refusals {
        write_refusal(alloc, text, refusal)?;
    }
    Ok(())
}

/// The text of a refusal file. `Err` is want of memory.
pub fn write(alloc: Global, refusals: &[Refusal]) -> Result<Vec<u8>, AllocError>
    ensures { IfOk result (λ text. text.items ≡ text_of refusals.now) }
{
    let mut text = Vec::from_slice(alloc, b"rate,pdo,what,value\n0,0,version,")?;
    text.extend_from_slice(version_number(refusals))?;
    text.push(b'\n')?;
    write_refusals(alloc, &mut text, refusals)?;
    Ok(text)
}
