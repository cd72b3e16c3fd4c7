//! A maker's text as one that the strict reading takes for the device that it describes.

ghost use Rattle.std.specs.Prelude.{◌≡◌, ◌≤◌, ℕ, true, None, Some, Ok, All, IfOk, IfErr, IfSome, IfNone, IsOk, IsSome, OnOk, vec_len};
ghost use Rattle.cop_tidy_reading.specs.Reading.{loosely};
ghost use Rattle.cop_bytes.specs.Bytes.{prepared, text_changes};
ghost use Rattle.cop_change.specs.Applied.{applied};
ghost use Rattle.cop_change.specs.Told.{are_told};
ghost use Rattle.cop_dict.specs.Build.{built};
ghost use Rattle.cop_tidy.specs.Accepted.{IsAccepted};
ghost use Rattle.cop_tidy.specs.Fault.{IsRest, IsWhy};
ghost use Rattle.cop_tidy.specs.Identified.{AreIdentified};
ghost use Rattle.cop_tidy.specs.Meant.{IsMeant, IsOf};
ghost use Rattle.cop_tidy.specs.Spared.{IsSparing};
ghost use Rattle.cop_tidy.specs.Kept.{KeepsRates, Stays};
ghost use Rattle.cop_tidy.specs.Standing.{IsTold, IsToldBy, Stands, misread, standing};
ghost use Rattle.cop_tidy.specs.Taken.{IsTaken};

use crate::fault::{TidyFault, left};
use crate::judging::{Judged, Left, judge, misread, number_left, settled};
use crate::keeping::are_all_kept;
use crate::sparing::are_sparing;
use crate::taking::Taken;
use cop_bytes::{Readable, TextChange, prepared};
use cop_change::{Change, applied, are_told};
use cop_tidy_device::Device;
use cop_tidy_reading::{ReadingFault, Words, loosely};
use cop_tidy_rules::changes_for;
use std::alloc::{AllocError, Global};

/// A text that the strict reading takes, and what was changed to come to it.
#[derive(Debug, Drop)]
pub struct Tidied {
    pub text: Vec<u8>,
    /// What was changed in the bytes before they were read as lines.
    pub text_changes: Vec<TextChange>,
    /// The bytes that were read as lines.
    pub base: Vec<u8>,
    /// The lines that have another text, or were added, by rising line.
    pub changes: Vec<Change>,
    /// What stood against the text as it was given; nothing where it came back as it was.
    pub found: Option<Left>,
}

/// The line of a text at which a line of it with these changes stands: an added one at the line before it. 0 stays 0.
fn line_before(changes: &[Change], line: usize) -> usize {
    let mut added = 0usize;
    for change in changes.iter().filter(|change| change.is_added) {
        let last = change.place.saturating_add(added);
        if line <= last {
            break;
        }
        if line == last.saturating_add(1) {
            return change.place;
        }
        added = added.saturating_add(1);
    }
    line.saturating_sub(added)
}

/// The bytes that are read as lines, and what was changed to come to them.
fn readable(alloc: Global, source: &[u8]) -> Result<Readable, TidyFault>
    ensures text { IfOk result (λ r. prepared source.now ≡ Some r.text.items) }
    ensures changes { IfOk result (λ r. r.changes.items ≡ text_changes source.now) }
    ensures same { IfOk result (λ r. vec_len r.changes ≡ 0 → r.text.items ≡ source.now) }
    ensures rest { IfErr result IsRest }
{
    match prepared(alloc, source)? {
        Ok(readable) => Ok(readable),
        Err(line) => Err(left(0, line)),
    }
}

/// The changes of a text, each of which tells what stood there, and spares it where nothing reads it.
fn told_changes(alloc: Global, base: &[u8], words: &Words) -> Result<Vec<Change>, TidyFault>
    ensures told { IfOk result (λ changes. are_told base.now changes.items ≡ true) }
    ensures sparing { IfOk result (λ changes. All IsSparing changes.items) }
    ensures rest { IfErr result IsRest }
{
    let changes = changes_for(alloc, base, words)?;
    let is_sparing = are_sparing(alloc, &changes)?;
    if is_sparing && are_told(base, &changes) {
        Ok(changes)
    } else {
        Err(left(0, 0))
    }
}

/// The device that a result is read as, where it leaves nothing open: else it would not come back as it is.
fn own_device(alloc: Global, new: &[u8], words: &Words) -> Result<Device, TidyFault>
    ensures own { IfOk result (λ own. loosely new.now words.now ≡ Ok own) }
    ensures rest { IfErr result IsRest }
{
    match loosely(alloc, new, words) {
        Ok(own) => Ok(own),
        Err(ReadingFault::Asked(_)) => Err(left(0, 0)),
        Err(ReadingFault::Memory) => Err(TidyFault::Memory),
    }
}

/// What is taken of a result. It is refused where something stands against it, and where it is not of a device, or is read as another one by
/// itself. It has come by these changes.
#[tactic(auto, using(crate::proofs::StandingLemmas::stands_by))]
fn settle(
    alloc: Global,
    new: &[u8],
    words: &Words,
    device: &Device,
    changes: &[Change],
) -> Result<Taken, TidyFault>
    ensures taken { IfOk result (IsTaken new.now) }
    ensures settled { OnOk result (standing words.now new.now ≡ None) }
    ensures alone { OnOk result (Stands words.now new.now None) }
    ensures same { OnOk result (IsOf new.now device.now) }
    ensures rest { IfErr result IsRest }
{
    let own = own_device(alloc, new, words)?;
    match settled(alloc, new, words, device, &own)? {
        Ok(taken) => Ok(taken),
        Err(found) => {
            let line = line_before(changes, found.line);
            Err(left(number_left(found), line))
        }
    }
}

/// What is told of a text of which this was found and taken: that it is misread, where it does not stay as it is in what is taken of the result.
fn told_of(found: Left, before: &Option<Taken>, after: &Taken) -> Left
    ensures { IsToldBy found before.now after.now result }
{
    match before {
        Some(before) => {
            if are_all_kept(before, after) {
                found
            } else {
                misread()
            }
        }
        None => found,
    }
}

/// The text with its changes, for the device that it describes.
fn mended(
    alloc: Global,
    source: &[u8],
    words: &Words,
    device: &Device,
    found: Left,
    before: &Option<Taken>,
) -> Result<Tidied, TidyFault>
    requires found { Stands words.now source.now (Some found) }
    requires taken { IfSome before.now (IsTaken source.now) }
    requires accepted { IfSome before.now (λ _. IsAccepted source.now) }
    requires refused { IfNone before.now (IsAccepted source.now → ⊥) }
    ensures settled { IfOk result (λ t. standing words.now t.text.items ≡ None) }
    ensures alone { IfOk result (λ t. Stands words.now t.text.items None) }
    ensures same_device { IfOk result (λ t. IsOf t.text.items device.now) }
    ensures some { IfOk result (λ t. IsSome t.found) }
    ensures found { IfOk result (λ t. IsTold words.now source.now t.text.items t.found) }
    ensures base { IfOk result (λ t. prepared source.now ≡ Some t.base.items) }
    ensures bytes { IfOk result (λ t. t.text_changes.items ≡ text_changes source.now) }
    ensures same { IfOk result (λ t. vec_len t.text_changes ≡ 0 → t.base.items ≡ source.now) }
    ensures told { IfOk result (λ t. t.text.items ≡ applied t.base.items t.changes.items) }
    ensures each_told { IfOk result (λ t. are_told t.base.items t.changes.items ≡ true) }
    ensures sparing { IfOk result (λ t. All IsSparing t.changes.items) }
    ensures rest { IfErr result IsRest }
{
    let Readable {
        text: base,
        changes: text_changes,
    } = readable(alloc, source)?;
    let changes = told_changes(alloc, &base, words)?;
    let text = applied(alloc, &base, &changes)?;
    let after = settle(alloc, &text, words, device, &changes)?;
    let told = told_of(found, before, &after);
    Ok(Tidied {
        text,
        text_changes,
        base,
        changes,
        found: Some(told),
    })
}

/// The text as it stands.
#[tactic(auto, using(cop_change::proofs::ApplyLemmas::applied_nothing, cop_change::proofs::ApplyLemmas::nothing_told))]
fn unchanged(alloc: Global, text: &[u8]) -> Result<Tidied, AllocError>
    ensures found { IfOk result (λ t. t.found ≡ None) }
    ensures changes { IfOk result (λ t. vec_len t.changes ≡ 0) }
    ensures text_changes { IfOk result (λ t. vec_len t.text_changes ≡ 0) }
    ensures same { IfOk result (λ t. t.text.items ≡ text.now) }
    ensures told { IfOk result (λ t. t.text.items ≡ applied t.base.items t.changes.items) }
    ensures each_told { IfOk result (λ t. are_told t.base.items t.changes.items ≡ true) }
    ensures sparing { IfOk result (λ t. All IsSparing t.changes.items) }
    ensures base { IfOk result (λ t. t.base.items ≡ text.now) }
{
    Ok(Tidied {
        text: Vec::from_slice(alloc, text)?,
        text_changes: Vec::new(alloc),
        base: Vec::from_slice(alloc, text)?,
        changes: Vec::new(alloc),
        found: None,
    })
}

/// A maker's text as one that the strict reading takes for the device that the maker described. A text against which nothing stands, and that means
/// what it is read as, comes back byte for byte; else it is refused where it leaves something open, and its lines that nothing reads stand as they
/// were.
#[tactic(auto, using(crate::proofs::StandingLemmas::accepted_of, crate::proofs::StandingLemmas::stands_as, crate::proofs::StandingLemmas::told_hazard, crate::proofs::EachNode::built_of, crate::proofs::EachNode::identified_of, crate::proofs::KeptLemmas::told_same, crate::proofs::KeptLemmas::stays_told, crate::proofs::KeptLemmas::rates_told))]
pub fn tidy(alloc: Global, text: &[u8], words: &Words) -> Result<Tidied, TidyFault>
    // The strict reading takes the result for the device that the text describes: its dictionary of each node, its rates and its lists.
    ensures meant { IfOk result (λ t. IsMeant words.now text.now t.text.items) }

    // What stood against the text, and that nothing stands against the result.
    ensures found { IfOk result (λ t. IsTold words.now text.now t.text.items t.found) }
    ensures hazard { IfOk result (λ t. IfSome t.found (λ left. IsAccepted text.now → 80 ≤ left.number)) }
    ensures settled { IfOk result (λ t. standing words.now t.text.items ≡ None) }
    ensures alone { IfOk result (λ t. Stands words.now t.text.items None) }
    ensures accepted { IfOk result (λ t. IsAccepted t.text.items) }
    ensures built { IfOk result (λ t. (node : ℕ) → node ≤ 127 → IsOk (built t.text.items node)) }

    // The objects of an accepted text stay as they are, as each node has them, and its rates, unless it is told that the text is misread.
    ensures stays { IfOk result (λ t. (node : ℕ) → IsAccepted text.now → (t.found ≡ Some misread → ⊥) → Stays node text.now t.text.items) }
    ensures rates { IfOk result (λ t. IsAccepted text.now → (t.found ≡ Some misread → ⊥) → KeepsRates text.now t.text.items) }

    // A text against which something stands is refused where it leaves a question open, or where no result was reached.
    ensures refused { IfErr result (IsWhy words.now text.now) }

    // The result is the text with exactly the changes that are told, each of which tells what stood there, and spares it where nothing reads it.
    ensures told { IfOk result (λ t. t.text.items ≡ applied t.base.items t.changes.items) }
    ensures each_told { IfOk result (λ t. are_told t.base.items t.changes.items ≡ true) }
    ensures spared { IfOk result (λ t. All IsSparing t.changes.items) }

    // The lines are those of the text, in UTF-8, without an end mark of DOS and padding, with ends that CiA 306 has; exactly this is told.
    ensures bytes { IfOk result (λ t. IsSome t.found → prepared text.now ≡ Some t.base.items) }
    ensures told_bytes { IfOk result (λ t. IsSome t.found → t.text_changes.items ≡ text_changes text.now) }
    ensures base { IfOk result (λ t. vec_len t.text_changes ≡ 0 → t.base.items ≡ text.now) }

    // Each PDO of the result that has a record in its dictionary can be switched off.
    ensures identified { IfOk result (λ t. (node : ℕ) → AreIdentified node t.text.items) }

    // A text against which nothing stands comes back as it is.
    ensures same { IfOk result (λ t. t.found ≡ None → t.text.items ≡ text.now) }
    ensures no_changes { IfOk result (λ t. t.found ≡ None → vec_len t.changes ≡ 0) }
    ensures no_text_changes { IfOk result (λ t. t.found ≡ None → vec_len t.text_changes ≡ 0) }
{
    let device = loosely(alloc, text, words)?;
    let Judged { found, taken } = judge(alloc, text, words, &device)?;
    match found {
        Some(found) => mended(alloc, text, words, &device, found, &taken),
        None => Ok(unchanged(alloc, text)?),
    }
}
