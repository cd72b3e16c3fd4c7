//! Whether a list of changes tells of each line what stood there.

ghost use Rattle.std.specs.Prelude.{◌≡◌};
ghost use Rattle.std.specs.List.{list_all};
ghost use Rattle.cop_eds.specs.Text.{cut};
ghost use Rattle.cop_change.specs.Told.{is_addition, is_told, is_line_told, are_told_from, are_told};

use crate::applying::{body_of, here, line_len, mark_len};
use crate::change::Change;

/// Whether a change adds a line, where nothing stood before.
fn is_addition(change: &Change) -> bool
    ensures { result ≡ is_addition change.now }
{
    change.is_added && change.old.is_empty()
}

fn are_additions(changes: &[Change]) -> bool
    ensures { result ≡ list_all is_addition changes.now }
{
    changes.iter().all(|change| is_addition(change))
}

/// Whether a change adds a line, or tells the text of this one.
fn is_told(raw: &[u8], change: &Change) -> bool
    ensures { result ≡ is_told raw.now change.now }
{
    if change.is_added {
        change.old.is_empty()
    } else {
        change.old.as_slice() == body_of(raw)
    }
}

/// Whether the changes of a line tell what stood there: the first may change it, and the others add lines behind it.
fn is_line_told(raw: &[u8], changes: &[Change]) -> bool
    ensures { result ≡ is_line_told raw.now changes.now }
{
    match changes {
        [] => true,
        [change, rest @ ..] => is_told(raw, change) && are_additions(rest),
    }
}

fn are_lines_told(lines: &[u8], changes: &[Change]) -> bool
    ensures { result ≡ are_told_from 1 (cut lines.now) changes.now }
{
    let mut rest = lines;
    let mut left = changes;
    let mut place = 1usize;
    while !rest.is_empty() {
        let len = line_len(rest);
        let (now, later) = left.split_at(here(left, place));
        if !is_line_told(&rest[..len], now) {
            return false;
        }
        rest = &rest[len..];
        left = later;
        place += 1;
    }
    left.is_empty()
}

/// Whether changes of a text stand by rising lines, and each tells what stood there: of one line its text, without its end, before the lines
/// that are added behind it.
pub fn are_told(text: &[u8], changes: &[Change]) -> bool
    ensures { result ≡ are_told text.now changes.now }
{
    are_lines_told(&text[mark_len(text)..], changes)
}
