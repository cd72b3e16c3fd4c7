//! Writing refusals in the third version, in which a busy list stands once for members that follow one another and have it.

ghost use Rattle.std.specs.Prelude.{◌≡◌, ◌<◌, ◌^◌, [], OnOk, IfOk};
ghost use Rattle.std.specs.List.{flat_map};
ghost use Rattle.cop_cert.specs.Format.{long_word, late_word, same_rows, member_rows_after, members_rows_after, shared_refusal_rows, shared_text_of};
ghost use Rattle.cop_cert.specs.Writer.{Adds};

use crate::entries::Side;
use crate::refusals::{Cause, Evidence, Member, Refusal};
use crate::writing::{
    late_word, long_word, write_evidence, write_frame, write_numbers, write_record, write_refusal,
};
use cop_frame::Rate;
use std::alloc::{AllocError, Global};

#[tactic(auto, using(crate::proofs::WriterLemmas::adds_more))]
/// Evidence whose busy list is that of the member before.
fn write_same(
    alloc: Global,
    text: &mut Vec<u8>,
    rate: Rate,
    number: u128,
    side: Side,
    evidence: &Evidence,
) -> Result<(), AllocError>
    requires { number < 10 ^ 20 }
    ensures { OnOk result (Adds text.old.items text.new.items (same_rows rate number (long_word side) (late_word side) evidence.now)) }
{
    match evidence {
        Evidence::Long { .. } => {
            write_record(alloc, text, rate, number, long_word(side), 0)?;
            write_record(alloc, text, rate, number, b"same", 0)
        }
        Evidence::Late { q, queue, .. } => {
            write_record(alloc, text, rate, number, late_word(side), *q)?;
            write_record(alloc, text, rate, number, b"same", 0)?;
            write_numbers(alloc, text, rate, number, b"queue", queue.as_slice())
        }
    }
}

/// A member after one with a busy list.
fn write_member_after(
    alloc: Global,
    text: &mut Vec<u8>,
    rate: Rate,
    side: Side,
    before: &[u64],
    member: &Member,
) -> Result<(), AllocError>
    ensures { OnOk result (Adds text.old.items text.new.items (member_rows_after side rate before.now member.now)) }
{
    let number = member.pdo as u128 + 1;
    if member.evidence.busy() == before {
        return write_same(alloc, text, rate, number, side, &member.evidence);
    }
    write_evidence(alloc, text, rate, number, side, &member.evidence)
}

#[tactic(auto, using(crate::proofs::WriterLemmas::adds_front, crate::proofs::WriterLemmas::adds_whole))]
fn write_members_after(
    alloc: Global,
    text: &mut Vec<u8>,
    rate: Rate,
    side: Side,
    members: &[Member],
) -> Result<(), AllocError>
    ensures { OnOk result (Adds text.old.items text.new.items (members_rows_after side rate [] members.now)) }
{
    let mut before: &[u64] = &[];
    let mut rest = members;
    while let Some((member, more)) = rest.split_first() {
        write_member_after(alloc, text, rate, side, before, member)?;
        before = member.evidence.busy();
        rest = more;
    }
    Ok(())
}

#[tactic(auto, using(crate::proofs::WriterLemmas::adds_more))]
fn write_refusal_shared(
    alloc: Global,
    text: &mut Vec<u8>,
    refusal: &Refusal,
) -> Result<(), AllocError>
    ensures { OnOk result (Adds text.old.items text.new.items (shared_refusal_rows refusal.now)) }
{
    let rate = refusal.rate;
    match &refusal.cause {
        Cause::Places { members } => {
            write_members_after(alloc, text, rate, Side::Place, members.as_slice())
        }
        Cause::Sync { .. } => write_refusal(alloc, text, refusal),
        Cause::Sdo { up, id, evidence } => {
            write_members_after(alloc, text, rate, Side::Up, up.as_slice())?;
            write_frame(alloc, text, rate, *id, evidence)
        }
    }
}

#[tactic(auto, using(crate::proofs::WriterLemmas::adds_each, crate::proofs::WriterLemmas::all_each, crate::proofs::WriterLemmas::adds_none))]
fn write_refusals_shared(
    alloc: Global,
    text: &mut Vec<u8>,
    refusals: &[Refusal],
) -> Result<(), AllocError>
    ensures { OnOk result (Adds text.old.items text.new.items (flat_map shared_refusal_rows refusals.now)) }
{
    for refusal in refusals {
        write_refusal_shared(alloc, text, refusal)?;
    }
    Ok(())
}

/// The text of a refusal file of the third version, in which a busy list stands once for members that follow one another and have
/// it. `Err` is want of memory.
pub fn write_shared(alloc: Global, refusals: &[Refusal]) -> Result<Vec<u8>, AllocError>
    ensures { IfOk result (λ text. text.items ≡ shared_text_of refusals.now) }
{
    let mut text = Vec::from_slice(alloc, b"rate,pdo,what,value\n0,0,version,3\n")?;
    write_refusals_shared(alloc, &mut text, refusals)?;
    Ok(text)
}
