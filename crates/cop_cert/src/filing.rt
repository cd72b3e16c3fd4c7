//! Refusal files as they are kept: with whole lists while the text is at most 64 MiB, and else in the short form of the third version.

ghost use Rattle.std.specs.Prelude.{◌≡◌, ◌≤◌, ◌<◌, IfOk, MatchOption, All, length, map};
ghost use Rattle.std.specs.List.{flat_map};
ghost use Rattle.cop_cert.specs.Causes.{IsRefusal};
ghost use Rattle.cop_cert.specs.Format.{member_rows, refusal_rows, text_of};
ghost use Rattle.cop_cert.specs.Short.{most_bytes, shortened, file_of, IsTextWithin};
ghost use Rattle.cop_cert.specs.Writer.{WritesWithin};

use crate::entries::Side;
use crate::refusals::{Cause, Member, Refusal};
use crate::sharing::write_shared;
use crate::shortening::shortened;
use crate::writing::{version_number, write_evidence, write_frame, write_refusal};
use cop_frame::Rate;
use cop_rta::StreamSet;
use std::alloc::{AllocError, Global};

/// The most bytes of a text with whole lists: so many a check reads.
const MOST_BYTES: usize = 67_108_864;

#[tactic(auto, using(crate::proofs::WithinLemmas::each_more, crate::proofs::WithinLemmas::each_full, crate::proofs::WithinLemmas::each_all, crate::proofs::WriterLemmas::adds_none))]
/// Members, one after another, while the text is within the limit. Tells whether all are written.
fn write_members_within(
    alloc: Global,
    text: &mut Vec<u8>,
    rate: Rate,
    side: Side,
    members: &[Member],
) -> Result<bool, AllocError>
    ensures { IfOk result (WritesWithin text.old.items text.new.items (flat_map (member_rows side rate) members.now)) }
{
    for member in members {
        let number = member.pdo as u128 + 1;
        write_evidence(alloc, text, rate, number, side, &member.evidence)?;
        if text.len() > MOST_BYTES {
            return Ok(false);
        }
    }
    Ok(true)
}

#[tactic(auto, using(crate::proofs::WithinLemmas::both, crate::proofs::WithinLemmas::first_full))]
/// A refusal, while the text is within the limit. Tells whether all of it is written.
fn write_refusal_within(
    alloc: Global,
    text: &mut Vec<u8>,
    refusal: &Refusal,
) -> Result<bool, AllocError>
    ensures { IfOk result (WritesWithin text.old.items text.new.items (refusal_rows refusal.now)) }
{
    let rate = refusal.rate;
    match &refusal.cause {
        Cause::Places { members } => {
            write_members_within(alloc, text, rate, Side::Place, members.as_slice())
        }
        Cause::Sync { .. } => {
            write_refusal(alloc, text, refusal)?;
            Ok(true)
        }
        Cause::Sdo { up, id, evidence } => {
            if !write_members_within(alloc, text, rate, Side::Up, up.as_slice())? {
                return Ok(false);
            }
            write_frame(alloc, text, rate, *id, evidence)?;
            Ok(true)
        }
    }
}

#[tactic(auto, using(crate::proofs::WithinLemmas::each_more, crate::proofs::WithinLemmas::each_stopped, crate::proofs::WithinLemmas::each_all, crate::proofs::WriterLemmas::adds_none))]
/// Refusals, while the text is within the limit. Tells whether all are written.
fn write_refusals_within(
    alloc: Global,
    text: &mut Vec<u8>,
    refusals: &[Refusal],
) -> Result<bool, AllocError>
    ensures { IfOk result (WritesWithin text.old.items text.new.items (flat_map refusal_rows refusals.now)) }
{
    for refusal in refusals {
        if !write_refusal_within(alloc, text, refusal)? {
            return Ok(false);
        }
    }
    Ok(true)
}

/// The text of a refusal file of the first or second version, if it has at most 64 MiB. Of a longer one little more than that is
/// written.
fn write_within(alloc: Global, refusals: &[Refusal]) -> Result<Option<Vec<u8>>, AllocError>
    ensures { IfOk result (λ found. MatchOption found (most_bytes < length (text_of refusals.now)) (λ text. IsTextWithin refusals.now text.items)) }
{
    let mut text = Vec::from_slice(alloc, b"rate,pdo,what,value\n0,0,version,")?;
    text.extend_from_slice(version_number(refusals))?;
    text.push(b'\n')?;
    if !write_refusals_within(alloc, &mut text, refusals)? {
        return Ok(None);
    }
    if text.len() > MOST_BYTES {
        return Ok(None);
    }
    Ok(Some(text))
}

/// The short forms of refusals that hold.
fn all_shortened(
    alloc: Global,
    set: &StreamSet,
    pdos: usize,
    refusals: &[Refusal],
) -> Result<Vec<Refusal>, AllocError>
    requires count { pdos ≤ length set.now }
    requires hold { All (IsRefusal set.now pdos) refusals.now }
    ensures { IfOk result (λ short. short.items ≡ map (shortened set.now pdos) refusals.now) }
{
    let mut short = Vec::new(alloc);
    for refusal in refusals {
        short.push(shortened(alloc, set, pdos, refusal)?)?;
    }
    Ok(short)
}

/// The text of the file of refusals that hold: of the first or second version, with whole lists, while that has at most 64 MiB, and else of
/// the third version, with their short forms. `Err` is want of memory.
///
/// What is read of it are refusals of the same rates that hold too: [`files_hold`](crate::files_hold).
pub fn write_file(
    alloc: Global,
    set: &StreamSet,
    pdos: usize,
    refusals: &[Refusal],
) -> Result<Vec<u8>, AllocError>
    requires count { pdos ≤ length set.now }
    requires hold { All (IsRefusal set.now pdos) refusals.now }
    ensures { IfOk result (λ text. text.items ≡ file_of set.now pdos refusals.now) }
{
    if let Some(text) = write_within(alloc, refusals)? {
        return Ok(text);
    }
    let short = all_shortened(alloc, set, pdos, refusals)?;
    write_shared(alloc, &short)
}
