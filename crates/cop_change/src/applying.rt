//! A text with changes applied to its lines.

ghost use Rattle.std.specs.Prelude.{◌≡◌, ◌==◌, ◌+◌, ◌-◌, ◌<◌, ◌≤◌, ◌∷◌, ◌++◌, take, drop, length, not, position, IfOk, OnOk};
ghost use Rattle.std.specs.List.{flat_map, position_or_len};
ghost use Rattle.cop_eds.specs.Text.{cut, end_len, mark_len};
ghost use Rattle.cop_change.specs.Applied.{here, changed, additions, added, ended, body_of, ending_of, newline_of, line_with, lines_with, applied};

use crate::change::Change;
use std::alloc::{AllocError, Global};

fn end_place(text: &[u8]) -> Option<usize>
    ensures { result ≡ position (λ b. b == 10) text.now }
{
    text.iter().position(|b| *b == b'\n')
}

/// The place of the first LF, or the length.
#[tactic(auto, using(cop_eds::proofs::TextLemmas::position_or))]
fn place_of(text: &[u8]) -> usize
    ensures value { result ≡ position_or_len (λ b. b == 10) text.now }
    ensures bound { result ≤ length text.now }
{
    end_place(text).unwrap_or(text.len())
}

/// How many bytes the first line takes, its end among them.
#[tactic(auto, using(cop_eds::proofs::TextLemmas::cut_ended, cop_eds::proofs::TextLemmas::cut_open))]
pub(crate) fn line_len(text: &[u8]) -> usize
    requires { 0 < length text.now }
    ensures positive { 0 < result }
    ensures bound { result ≤ length text.now }
    ensures first { cut text.now ≡ take result text.now ∷ cut (drop result text.now) }
{
    let place = place_of(text);
    if place < text.len() { place + 1 } else { place }
}

/// How many bytes the end of a line takes.
fn end_len(line: &[u8]) -> usize
    ensures value { result ≡ end_len line.now }
    ensures bound { result ≤ length line.now }
{
    match line {
        [.., b'\r', b'\n'] => 2,
        [.., b'\n'] => 1,
        _ => 0,
    }
}

/// How many bytes a mark at the front of a text takes.
pub(crate) fn mark_len(text: &[u8]) -> usize
    ensures value { result ≡ mark_len text.now }
    ensures bound { result ≤ length text.now }
{
    if text.starts_with(&[0xEF, 0xBB, 0xBF]) {
        3
    } else {
        0
    }
}

pub(crate) fn body_of(raw: &[u8]) -> &[u8]
    ensures { result.now ≡ body_of raw.now }
{
    &raw[..raw.len() - end_len(raw)]
}

fn ending_of(raw: &[u8]) -> &[u8]
    ensures { result.now ≡ ending_of raw.now }
{
    &raw[raw.len() - end_len(raw)..]
}

/// The end of the first line of these; LF where it has none.
fn newline_of(lines: &[u8]) -> &[u8]
    ensures { result.now ≡ newline_of (cut lines.now) }
{
    if lines.is_empty() {
        return b"\n";
    }
    let raw = &lines[..line_len(lines)];
    if end_len(raw) == 0 {
        return b"\n";
    }
    ending_of(raw)
}

fn other_place(changes: &[Change], place: usize) -> Option<usize>
    ensures { result ≡ position (λ change. not (change.place == place)) changes.now }
{
    changes.iter().position(|change| change.place != place)
}

/// How many changes at the front are of the line of this number.
#[tactic(auto, using(crate::proofs::ApplyLemmas::position_or))]
pub(crate) fn here(changes: &[Change], place: usize) -> usize
    ensures value { result ≡ here place changes.now }
    ensures bound { result ≤ length changes.now }
{
    other_place(changes, place).unwrap_or(changes.len())
}

/// What a line is by its changes.
fn changed<'a>(line: &'a [u8], changes: &'a [Change]) -> &'a [u8]
    ensures { result.now ≡ changed line.now changes.now }
{
    match changes {
        [] => line,
        [change, ..] => { if change.is_added { line } else { &change.new } }
    }
}

/// The changes of a line that add others behind it.
fn additions(changes: &[Change]) -> &[Change]
    ensures { result.now ≡ additions changes.now }
{
    match changes {
        [] => changes,
        [change, rest @ ..] => { if change.is_added { changes } else { rest } }
    }
}

/// The end of a line.
fn ended<'a>(newline: &'a [u8], body: &[u8], ending: &'a [u8], is_followed: bool) -> &'a [u8]
    ensures { result.now ≡ ended newline.now body.now ending.now is_followed }
{
    if !is_followed || !ending.is_empty() {
        ending
    } else if body.last() == Some(&b'\r') {
        b"\r\n"
    } else {
        newline
    }
}

/// Adds the lines that changes add.
fn put_added(text: &mut Vec<u8>, newline: &[u8], changes: &[Change]) -> Result<(), AllocError>
    ensures { OnOk result (text.new.items ≡ text.old.items ++ flat_map (added newline.now) changes.now) }
{
    for change in changes {
        text.extend_from_slice(&change.new)?;
        text.extend_from_slice(newline)?;
    }
    Ok(())
}

/// Adds a line with its changes.
fn put_line(
    text: &mut Vec<u8>,
    newline: &[u8],
    raw: &[u8],
    changes: &[Change],
) -> Result<(), AllocError>
    ensures { OnOk result (text.new.items ≡ text.old.items ++ line_with newline.now raw.now changes.now) }
{
    let body = changed(body_of(raw), changes);
    let behind = additions(changes);
    let ending = ended(newline, body, ending_of(raw), !behind.is_empty());
    text.extend_from_slice(body)?;
    text.extend_from_slice(ending)?;
    put_added(text, newline, behind)
}

/// Adds lines with their changes.
fn put_lines(
    text: &mut Vec<u8>,
    newline: &[u8],
    lines: &[u8],
    changes: &[Change],
) -> Result<(), AllocError>
    ensures { OnOk result (text.new.items ≡ text.old.items ++ lines_with newline.now 1 (cut lines.now) changes.now) }
{
    let mut rest = lines;
    let mut left = changes;
    let mut place = 1usize;
    while !rest.is_empty() {
        let len = line_len(rest);
        let (now, later) = left.split_at(here(left, place));
        put_line(text, newline, &rest[..len], now)?;
        rest = &rest[len..];
        left = later;
        place += 1;
    }
    Ok(())
}

/// The text with exactly these changes, which stand by rising lines, of one line its new text before the lines that are
/// added behind it. `Err` is want of memory.
pub fn applied(alloc: Global, text: &[u8], changes: &[Change]) -> Result<Vec<u8>, AllocError>
    ensures { IfOk result (λ v. v.items ≡ applied text.now changes.now) }
{
    let mark = mark_len(text);
    let mut new = Vec::from_slice(alloc, &text[..mark])?;
    let lines = &text[mark..];
    put_lines(&mut new, newline_of(lines), lines, changes)?;
    Ok(new)
}
