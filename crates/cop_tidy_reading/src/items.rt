//! The headers and keys of a text.

ghost use Rattle.std.specs.Prelude.{◌≡◌, ◌∷◌, ◌<◌, ◌≤◌, ◌+◌, ◌^◌, ◌==◌, length, take, drop, map, Ok, IfOk, IfErr, OnOk};
ghost use Rattle.std.specs.List.{position_or_len};
ghost use Rattle.std.specs.List.Sorted.{IsNonDecreasingBy};
ghost use Rattle.cop_tidy_reading.specs.Index.{section_of};
ghost use Rattle.cop_eds.specs.Text.{mark_len, cut, end_len};
ghost use Rattle.cop_tidy_lines.specs.Kinds.{kind_meant};
ghost use Rattle.cop_tidy_reading.specs.Items.{body_of, after, said, items_of};
ghost use Rattle.cop_tidy_reading.specs.Seen.{said_of, item_seen, joined, Asks, Gives};

use crate::question::{About, Question, ReadingFault, asked};
use cop_eds::before_first;
use cop_tidy_lines::{LineKind, SectionName, kind_meant, loose_start};
use std::alloc::Global;

/// A line that begins a section or states the value of a key.
#[derive(Clone, Copy, Debug)]
pub struct Item<'a> {
    /// The number of the line, from 1.
    pub line: usize,
    /// The number of the section, from 1.
    pub section: usize,
    pub kind: LineKind,
    /// The line without blanks at its front and without its end.
    pub body: &'a [u8],
}

/// How many bytes a mark at the front of a text takes.
fn mark_len(text: &[u8]) -> usize
    ensures value { result ≡ mark_len text.now }
    ensures bound { result ≤ length text.now }
{
    if text.starts_with(&[0xEF, 0xBB, 0xBF]) {
        3
    } else {
        0
    }
}

/// The place of the first line feed, or the length.
#[tactic(auto, using(crate::proofs::CutLemmas::length_before))]
fn feed_place(text: &[u8]) -> usize
    ensures value { result ≡ position_or_len (λ b. b == 10) text.now }
    ensures bound { result ≤ length text.now }
{
    before_first(text, b'\n').len()
}

/// How many bytes the first line takes, its end among them.
#[tactic(auto, using(crate::proofs::CutLemmas::cut_ended, crate::proofs::CutLemmas::cut_open))]
fn line_len(text: &[u8]) -> usize
    requires { 0 < length text.now }
    ensures positive { 0 < result }
    ensures bound { result ≤ length text.now }
    ensures first { cut text.now ≡ take result text.now ∷ cut (drop result text.now) }
{
    let place = feed_place(text);
    if place < text.len() { place + 1 } else { place }
}

/// How many bytes the end of a line takes: LF, or CR LF.
fn end_len(line: &[u8]) -> usize
    ensures value { result ≡ end_len line.now }
    ensures bound { result ≤ length line.now }
{
    match line {
        [.., b'\r', b'\n'] => 2,
        [.., b'\n'] => 1,
        _ => 0,
    }
}

/// A line without its end and without blanks at its front.
fn body_of(raw: &[u8]) -> &[u8]
    ensures { result.now ≡ body_of raw.now }
{
    loose_start(&raw[..raw.len() - end_len(raw)])
}

/// Where a line stands: how many lines and sections came before, and what the section is of.
#[derive(Clone, Copy)]
pub struct Before {
    pub lines: usize,
    pub sections: usize,
    pub name: Option<SectionName>,
}

/// Where the next line stands.
fn after(before: Before, kind: LineKind) -> Before
    requires lines { before.lines < 2 ^ 63 }
    requires sections { before.sections < 2 ^ 63 }
    ensures value { result ≡ after before kind }
    ensures one_line { result.lines ≡ before.lines + 1 }
    ensures few_sections { result.sections ≤ before.sections + 1 }
{
    match kind {
        LineKind::Header(name) => Before {
            lines: before.lines + 1,
            sections: before.sections + 1,
            name: Some(name),
        },
        _ => Before {
            lines: before.lines + 1,
            sections: before.sections,
            name: before.name,
        },
    }
}

/// What a line says.
fn said<'a>(before: Before, body: &'a [u8], kind: LineKind) -> Result<Option<Item<'a>>, Question>
    requires lines { before.lines < 2 ^ 63 }
    requires sections { before.sections < 2 ^ 63 }
    ensures { item_seen result ≡ said before body.now kind }
{
    let line = before.lines + 1;
    match kind {
        LineKind::Silent => Ok(None),
        LineKind::Unknown => Err(asked(About::NoLine, line)),
        LineKind::Header(_) => Ok(Some(Item {
            line,
            section: before.sections + 1,
            kind,
            body,
        })),
        LineKind::Pair(_) => Ok(Some(Item {
            line,
            section: before.sections,
            kind,
            body,
        })),
    }
}

/// Adds what a line says.
fn push_said<'a>(
    items: &mut Vec<Item<'a>>,
    said: Result<Option<Item<'a>>, Question>,
) -> Result<(), ReadingFault>
    ensures value { OnOk result (joined (map said_of items.old.items) (item_seen said.entry) ≡ Ok (map said_of items.new.items)) }
    ensures question { IfErr result (λ fault. Asks fault (item_seen said.entry)) }
{
    match said {
        Ok(Some(item)) => {
            items.push(item)?;
            Ok(())
        }
        Ok(None) => Ok(()),
        Err(question) => Err(ReadingFault::Asked(question)),
    }
}

/// Adds what a line says, and answers for where the next line stands.
fn read_line<'a>(
    alloc: Global,
    items: &mut Vec<Item<'a>>,
    before: Before,
    body: &'a [u8],
) -> Result<Before, ReadingFault>
    requires lines { before.lines < 2 ^ 63 }
    requires sections { before.sections < 2 ^ 63 }
    ensures value { OnOk result (joined (map said_of items.old.items) (said before body.now (kind_meant before.name body.now)) ≡ Ok (map said_of items.new.items)) }
    ensures next { IfOk result (λ next. next ≡ after before (kind_meant before.name body.now)) }
    ensures one_line { IfOk result (λ next. next.lines ≡ before.lines + 1) }
    ensures few_sections { IfOk result (λ next. next.sections ≤ before.sections + 1) }
    ensures question { IfErr result (λ fault. Asks fault (said before body.now (kind_meant before.name body.now))) }
{
    let kind = kind_meant(alloc, before.name, body)?;
    push_said(items, said(before, body, kind))?;
    Ok(after(before, kind))
}

/// The bytes from a place on.
fn behind(bytes: &[u8], place: usize) -> &[u8]
    requires { place ≤ length bytes.now }
    ensures { result.now ≡ drop place bytes.now }
{
    &bytes[place..]
}

/// The headers and keys of a text in their order.
#[tactic(auto, using(crate::proofs::ItemsLemmas::goes_on, crate::proofs::ItemsLemmas::stops, crate::proofs::ItemsLemmas::begins, crate::proofs::ItemsLemmas::ends))]
fn read_items<'a>(alloc: Global, text: &'a [u8]) -> Result<Vec<Item<'a>>, ReadingFault>
    ensures { Gives (λ v. map said_of v.items) result (items_of text.now) }
{
    let mut items = Vec::new(alloc);
    let mut rest = behind(text, mark_len(text));
    let mut before = Before {
        lines: 0,
        sections: 0,
        name: None,
    };
    while !rest.is_empty() {
        let count = line_len(rest);
        before = read_line(alloc, &mut items, before, body_of(&rest[..count]))?;
        rest = behind(rest, count);
    }
    Ok(items)
}

/// The headers and keys of a text in their order. The first line that may be several things, or is none, is asked for.
#[tactic(auto, using(crate::proofs::ItemsLemmas::rises))]
pub fn items_of<'a>(alloc: Global, text: &'a [u8]) -> Result<Vec<Item<'a>>, ReadingFault>
    ensures value { Gives (λ v. map said_of v.items) result (items_of text.now) }
    ensures rises { IfOk result (λ v. IsNonDecreasingBy section_of v.items) }
{
    read_items(alloc, text)
}
