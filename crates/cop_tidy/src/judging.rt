//! What stands against a text.

ghost use Rattle.std.specs.Prelude.{◌≡◌, None, Some, Ok, Err, IfOk, IfErr, IfSome, IfNone};
ghost use Rattle.std.specs.Option.{option_map};
ghost use Rattle.cop_dict.specs.Build.{built};
ghost use Rattle.cop_eds_hazards.specs.Hazards.{hazard_of};
ghost use Rattle.cop_tidy.specs.Accepted.{IsAccepted};
ghost use Rattle.cop_tidy.specs.Meant.{IsOf};
ghost use Rattle.cop_tidy.specs.Standing.{is_leaving, left_at, left_of, misread, standing, standing_built, unidentified, IsFound};
ghost use Rattle.cop_tidy.specs.Taken.{IsTaken};

use crate::identifying::are_identified;
use crate::meaning::is_of;
use crate::taking::{Taken, taken_of};
use cop_dict::Dictionary;
use cop_eds::{Eds, EdsFault, Refusal, parse};
use cop_eds_hazards::first_hazard;
use cop_tidy_device::Device;
use cop_tidy_reading::{Unlisted, Words};
use std::alloc::{AllocError, Global};

/// What stands against a text: the number of a refusal of the strict reading, below 80, or of a hazard, and the line; 84 at line 0 where
/// the strict reading takes the text for another device than it describes.
#[derive(Clone, Copy, Debug, PartialEq, Eq)]
pub struct Left {
    pub number: u8,
    pub line: usize,
}

/// What is found against a text, and what the strict reading takes of it where it is accepted.
#[derive(Drop)]
pub struct Judged {
    pub found: Option<Left>,
    pub taken: Option<Taken>,
}

/// What a refusal of the strict reading leaves.
fn left_of(refusal: Refusal) -> Left
    ensures { result ≡ left_of refusal }
{
    Left {
        number: refusal.rule.number(),
        line: refusal.line,
    }
}

/// Whether the choice is made to leave sections of PDOs as they are that no list names.
fn is_leaving(words: &Words) -> bool
    ensures { result ≡ is_leaving words.now }
{
    matches!(words.unlisted, Some(Unlisted::Leave))
}

/// The hazard of an accepted text.
fn hazard_of(alloc: Global, eds: &Eds<'_>, words: &Words) -> Result<Option<Left>, AllocError>
    ensures { IfOk result (λ found. found ≡ option_map left_at (hazard_of (is_leaving words.now) eds.now)) }
{
    match first_hazard(alloc, eds, is_leaving(words))? {
        Some(hazard) => Ok(Some(Left {
            number: hazard.number,
            line: hazard.line,
        })),
        None => Ok(None),
    }
}

/// The hazard that a PDO's record in a dictionary has no identifier.
fn unidentified(dict: &Dictionary) -> Option<Left>
    ensures { result ≡ unidentified dict.now }
{
    if are_identified(dict) {
        None
    } else {
        Some(Left {
            number: 81,
            line: 0,
        })
    }
}

/// What stands against an accepted text.
fn standing_taken(
    alloc: Global,
    eds: &Eds<'_>,
    taken: &Taken,
    words: &Words,
) -> Result<Option<Left>, AllocError>
    ensures { IfOk result (λ found. found ≡ standing_built (is_leaving words.now) eds.now (Ok taken.now.first) (Ok taken.now.last)) }
{
    let hazard = hazard_of(alloc, eds, words)?;
    Ok(hazard.or(unidentified(&taken.first).or(unidentified(&taken.last))))
}

/// Hazard 84, at no line: the strict reading takes a text for another device than it describes.
const MISREAD: Left = Left {
    number: 84,
    line: 0,
};

/// Hazard 84, at no line.
pub fn misread() -> Left
    ensures { result ≡ misread }
{
    MISREAD
}

/// What is found against an accepted text: what stands against it by itself, or that it is not of a device.
#[tactic(auto, using(crate::proofs::StandingLemmas::found_standing, crate::proofs::StandingLemmas::found_nothing, crate::proofs::StandingLemmas::found_misread))]
fn found_taken(
    alloc: Global,
    eds: &Eds<'_>,
    taken: &Taken,
    words: &Words,
    device: &Device,
) -> Result<Option<Left>, AllocError>
    requires { IsTaken eds.now taken.now }
    ensures { IfOk result (λ found. IsFound (standing_built (is_leaving words.now) eds.now (Ok taken.now.first) (Ok taken.now.last)) (IsOf eds.now device.now) found) }
{
    if let Some(left) = standing_taken(alloc, eds, taken, words)? {
        return Ok(Some(left));
    }
    if is_of(alloc, eds, taken, device)? {
        Ok(None)
    } else {
        Ok(Some(MISREAD))
    }
}

/// What is found against a text that is read.
#[tactic(auto, using(crate::proofs::StandingLemmas::found_refusal, crate::proofs::StandingLemmas::found_by, crate::proofs::StandingLemmas::not_built))]
fn judged_read(
    alloc: Global,
    eds: &Eds<'_>,
    words: &Words,
    device: &Device,
) -> Result<Judged, AllocError>
    ensures found { IfOk result (λ j. IsFound (standing_built (is_leaving words.now) eds.now (built eds.now 1) (built eds.now 127)) (IsOf eds.now device.now) j.found) }
    ensures taken { IfOk result (λ j. IfSome j.taken (IsTaken eds.now)) }
    ensures refused { IfOk result (λ j. IfNone j.taken (IsAccepted eds.now → ⊥)) }
{
    match taken_of(alloc, eds)? {
        Ok(taken) => Ok(Judged {
            found: found_taken(alloc, eds, &taken, words, device)?,
            taken: Some(taken),
        }),
        Err(refusal) => Ok(Judged {
            found: Some(left_of(refusal)),
            taken: None,
        }),
    }
}

/// What is found against a text, by the strict reading of it: the first refusal or a hazard, else that it is not of a device. It is read once.
#[tactic(auto, using(crate::proofs::StandingLemmas::found_in, crate::proofs::StandingLemmas::found_refused, crate::proofs::StandingLemmas::taken_in, crate::proofs::StandingLemmas::accepted_in, crate::proofs::StandingLemmas::not_taken_in, crate::proofs::StandingLemmas::not_read))]
pub fn judge(
    alloc: Global,
    text: &[u8],
    words: &Words,
    device: &Device,
) -> Result<Judged, AllocError>
    ensures found { IfOk result (λ j. IsFound (standing words.now text.now) (IsOf text.now device.now) j.found) }
    ensures taken { IfOk result (λ j. IfSome j.taken (IsTaken text.now)) }
    ensures accepted { IfOk result (λ j. IfSome j.taken (λ _. IsAccepted text.now)) }
    ensures refused { IfOk result (λ j. IfNone j.taken (IsAccepted text.now → ⊥)) }
{
    match parse(alloc, text) {
        Ok(eds) => {
            let judged = judged_read(alloc, &eds, words, device)?;
            Ok(judged)
        }
        Err(EdsFault::Refused(refusal)) => Ok(Judged {
            found: Some(left_of(refusal)),
            taken: None,
        }),
        Err(EdsFault::Memory) => Err(AllocError),
    }
}

/// What is taken of a text against which nothing stands, that is of a device, and of its own; else what is found.
#[tactic(auto, using(crate::proofs::StandingLemmas::found_by))]
fn settled_read(
    alloc: Global,
    eds: &Eds<'_>,
    words: &Words,
    device: &Device,
    own: &Device,
) -> Result<Result<Taken, Left>, AllocError>
    ensures taken { IfOk result (λ r. IfOk r (IsTaken eds.now)) }
    ensures settled { IfOk result (λ r. IfOk r (λ _. IsFound (standing_built (is_leaving words.now) eds.now (built eds.now 1) (built eds.now 127)) (IsOf eds.now device.now) None)) }
    ensures own { IfOk result (λ r. IfOk r (λ _. IsOf eds.now own.now)) }
{
    let taken = match taken_of(alloc, eds)? {
        Ok(taken) => taken,
        Err(refusal) => return Ok(Err(left_of(refusal))),
    };
    if let Some(left) = found_taken(alloc, eds, &taken, words, device)? {
        return Ok(Err(left));
    }
    if is_of(alloc, eds, &taken, own)? {
        Ok(Ok(taken))
    } else {
        Ok(Err(MISREAD))
    }
}

/// What is taken of a text against which nothing stands, that is of a device, and of the one that it is read as itself; else what is found. It
/// is read once.
#[tactic(auto, using(crate::proofs::StandingLemmas::found_in, crate::proofs::StandingLemmas::taken_in, crate::proofs::StandingLemmas::own_in))]
pub fn settled(
    alloc: Global,
    text: &[u8],
    words: &Words,
    device: &Device,
    own: &Device,
) -> Result<Result<Taken, Left>, AllocError>
    ensures taken { IfOk result (λ r. IfOk r (IsTaken text.now)) }
    ensures settled { IfOk result (λ r. IfOk r (λ _. IsFound (standing words.now text.now) (IsOf text.now device.now) None)) }
    ensures own { IfOk result (λ r. IfOk r (λ _. IsOf text.now own.now)) }
{
    match parse(alloc, text) {
        Ok(eds) => {
            let settled = settled_read(alloc, &eds, words, device, own)?;
            Ok(settled)
        }
        Err(EdsFault::Refused(refusal)) => Ok(Err(left_of(refusal))),
        Err(EdsFault::Memory) => Err(AllocError),
    }
}

/// The number of what stands against a text that was made; 0 where it is of another device.
pub fn number_left(left: Left) -> u8 {
    if left == MISREAD { 0 } else { left.number }
}
