//! That lines which nothing reads stand as they were.

ghost use Rattle.std.specs.Prelude.{◌≡◌, ◌∷◌, true, All, IfOk};
ghost use Rattle.cop_tidy.specs.Spared.{is_sub_number, IsUnread, IsSpared, IsSparing};

use cop_change::Change;
use cop_eds::{is_pair, key_of, same_name};
use cop_tidy_lines::{Key, LineKind, ListName, SectionName, kind_meant, loose_start};
use std::alloc::{AllocError, Global};

/// Whether a line is a key that nothing reads in a section of this name.
#[tactic(auto, using(crate::proofs::SpareLemmas::unread_in))]
fn is_unread_in(alloc: Global, section: SectionName, line: &[u8]) -> Result<bool, AllocError>
    ensures { IfOk result (λ b. IsUnread line.now → b ≡ true) }
{
    match kind_meant(alloc, Some(section), line)? {
        LineKind::Pair(Key::Unread) => Ok(true),
        _ => Ok(false),
    }
}

/// Whether a line is the number of subs.
fn is_sub_number(line: &[u8]) -> bool
    ensures { result ≡ is_sub_number line.now }
{
    same_name(key_of(line), b"SubNumber")
}

/// One section of each kind in which keys are read.
const SECTIONS: [SectionName; 4] = [
    SectionName::Object(0),
    SectionName::Values(0),
    SectionName::List(ListName::Mandatory),
    SectionName::DeviceInfo,
];

/// Whether nothing reads the key of a line: neither in the section of an object, nor in one of the values of a compact form, in a list or
/// in DeviceInfo.
fn is_unread_in_all(alloc: Global, line: &[u8]) -> Result<bool, AllocError>
    ensures { IfOk result (λ b. IsUnread line.now → b ≡ true) }
{
    for section in SECTIONS.iter() {
        if !is_unread_in(alloc, *section, line)? {
            return Ok(false);
        }
    }
    Ok(true)
}

/// Whether a line is a key with an equals sign that nothing reads.
fn is_unread(alloc: Global, line: &[u8]) -> Result<bool, AllocError>
    ensures { IfOk result (λ b. IsUnread line.now → b ≡ true) }
{
    if is_pair(line) && !is_sub_number(line) {
        is_unread_in_all(alloc, line)
    } else {
        Ok(false)
    }
}

fn are_same(left: &[u8], right: &[u8]) -> bool
    ensures { result ≡ true → left.now ≡ right.now }
{
    left == right
}

/// Whether a line is another one behind a `;`.
fn is_commented(old: &[u8], new: &[u8]) -> bool
    ensures { result ≡ true → new.now ≡ 59 ∷ old.now }
{
    match new.split_first() {
        Some((first, rest)) => *first == b';' && are_same(rest, old),
        None => false,
    }
}

/// Whether a line stands as it was: behind a `;`, or without the blanks at its front.
fn is_spared(old: &[u8], new: &[u8]) -> bool
    ensures { result ≡ true → IsSpared old.now new.now }
{
    is_commented(old, new) || are_same(new, loose_start(old))
}

/// Whether a change spares its line, where nothing reads it.
fn is_sparing(alloc: Global, change: &Change) -> Result<bool, AllocError>
    ensures { IfOk result (λ b. b ≡ true → IsSparing change.now) }
{
    if change.is_added || is_spared(&change.old, &change.new) {
        return Ok(true);
    }
    let is_read = !is_unread(alloc, loose_start(&change.old))?;
    Ok(is_read)
}

/// Whether each change does.
pub fn are_sparing(alloc: Global, changes: &[Change]) -> Result<bool, AllocError>
    ensures { IfOk result (λ b. b ≡ true → All IsSparing changes.now) }
{
    for change in changes {
        if !is_sparing(alloc, change)? {
            return Ok(false);
        }
    }
    Ok(true)
}
