//! What one line of a maker's text is, by the section in which it stands.

ghost use Rattle.std.specs.Prelude.{◌≡◌, ◌==◌, ◌||◌, IfOk};
ghost use Rattle.std.specs.List.{list_any, list_all};
ghost use Rattle.cop_tidy_lines.specs.Names.{section_name};
ghost use Rattle.cop_tidy_lines.specs.Kinds.{bracket_name, bracket_tail, is_bracketed, is_read_name, is_bare_tail, is_meant_as_header, begins_with_mark, is_open_tail, header_named, header_kind, is_rule_sign, is_drawn, colon_key, bare_key_kind, bad_kind, other_kind, pair_kind, kind_meant, stated_key, stated_value};

use crate::bytes::{first_of, from};
use crate::keys::{Key, is_object_word, key_meant};
use crate::names::{SectionName, is_read, section_name};
use crate::words::undivided;
use cop_eds::{
    after_first, before_first, is_blank, is_comment, is_pair, key_of, trim, trim_start, value_of,
};
use std::alloc::{AllocError, Global};

/// What a line is.
#[derive(Clone, Copy, Debug, PartialEq, Eq)]
pub enum LineKind {
    /// It says nothing.
    Silent,
    /// It begins a section.
    Header(SectionName),
    /// It states the value of a key.
    Pair(Key),
    /// It may be several things, or is none.
    Unknown,
}

/// What stands between brackets at the front.
fn bracket_name(line: &[u8]) -> &[u8]
    ensures { result.now ≡ bracket_name line.now }
{
    before_first(from(line, 1), b']')
}

/// What stands behind the brackets, without blanks at its front.
fn bracket_tail(line: &[u8]) -> &[u8]
    ensures { result.now ≡ bracket_tail line.now }
{
    trim_start(after_first(from(line, 1), b']'))
}

/// Whether a name between brackets stands at the front.
fn is_bracketed(line: &[u8]) -> bool
    ensures { result ≡ is_bracketed line.now }
{
    let name = bracket_name(line);
    first_of(line) == b'[' && (0 < name.len() && name.len() < from(line, 1).len())
}

/// Whether something reads a section of this name, or its sub has two meanings.
fn is_read_name(name: Option<SectionName>) -> bool
    ensures { result ≡ is_read_name name }
{
    match name {
        Some(name) => is_read(name),
        None => true,
    }
}

fn is_bare_tail(tail: &[u8]) -> bool
    ensures { result ≡ is_bare_tail tail.now }
{
    tail.is_empty() || first_of(tail) == b';'
}

/// Whether a line with brackets at its front is a header.
fn is_meant_as_header(alloc: Global, line: &[u8]) -> Result<bool, AllocError>
    ensures { IfOk result (λ b. b ≡ is_meant_as_header line.now) }
{
    let tail = bracket_tail(line);
    if !is_pair(line) || is_bare_tail(tail) {
        return Ok(true);
    }
    let name = section_name(alloc, bracket_name(line))?;
    Ok(is_read_name(name) && first_of(tail) != b'=')
}

/// Whether a comment of another kind begins here.
fn begins_with_mark(rest: &[u8]) -> bool
    ensures { result ≡ begins_with_mark rest.now }
{
    matches!(rest, [b'#', ..] | [b'/', b'/', ..])
}

fn has_sign(tail: &[u8]) -> bool
    ensures { result ≡ list_any (λ b. (b == 91) || ((b == 93) || (b == 61))) tail.now }
{
    tail.iter()
        .any(|byte| *byte == b'[' || (*byte == b']' || *byte == b'='))
}

/// Whether what stands behind a header may be another header or a key.
fn is_open_tail(tail: &[u8]) -> bool
    ensures { result ≡ is_open_tail tail.now }
{
    !(is_bare_tail(tail) || begins_with_mark(tail)) && has_sign(tail)
}

fn header_named(name: Option<SectionName>) -> LineKind
    ensures { result ≡ header_named name }
{
    match name {
        Some(name) => LineKind::Header(name),
        None => LineKind::Unknown,
    }
}

/// The header that a line is meant as.
fn header_kind(alloc: Global, line: &[u8]) -> Result<LineKind, AllocError>
    ensures { IfOk result (λ kind. kind ≡ header_kind line.now) }
{
    if is_open_tail(bracket_tail(line)) {
        Ok(LineKind::Unknown)
    } else {
        Ok(header_named(section_name(alloc, bracket_name(line))?))
    }
}

fn is_rule_sign(byte: u8) -> bool
    ensures { result ≡ is_rule_sign byte }
{
    ((byte == b'-' || byte == b'=') || (byte == b'*' || byte == b'_'))
        || ((byte == b'~' || byte == b'+')
            || (byte == b'#' || (byte == b'/' || (byte == b'.' || is_blank(byte)))))
}

fn are_rule_signs(line: &[u8]) -> bool
    ensures { result ≡ list_all is_rule_sign line.now }
{
    line.iter().all(|byte| is_rule_sign(*byte))
}

/// Whether a line is a comment of another kind, or a rule that is drawn.
fn is_drawn(line: &[u8]) -> bool
    ensures { result ≡ is_drawn line.now }
{
    begins_with_mark(line) || (3 <= line.len() && are_rule_signs(line))
}

/// The key before a colon, or the whole line.
fn colon_key(line: &[u8]) -> &[u8]
    ensures { result.now ≡ colon_key line.now }
{
    trim(before_first(line, b':'))
}

/// An object's key without its equals sign.
fn bare_key_kind(alloc: Global, name: SectionName, line: &[u8]) -> Result<LineKind, AllocError>
    ensures { IfOk result (λ kind. kind ≡ bare_key_kind name line.now) }
{
    let key = colon_key(line);
    let word = undivided(alloc, key)?;
    if is_object_word(word.as_slice()) {
        Ok(LineKind::Pair(key_meant(alloc, name, key)?))
    } else {
        Ok(LineKind::Unknown)
    }
}

/// A line that is neither comment, header nor key.
fn bad_kind(
    alloc: Global,
    section: Option<SectionName>,
    line: &[u8],
) -> Result<LineKind, AllocError>
    ensures { IfOk result (λ kind. kind ≡ bad_kind section line.now) }
{
    match section {
        Some(name) if is_read(name) => bare_key_kind(alloc, name, line),
        _ => Ok(LineKind::Silent),
    }
}

/// A line that is no comment, header or key of CiA 306.
fn other_kind(
    alloc: Global,
    section: Option<SectionName>,
    line: &[u8],
) -> Result<LineKind, AllocError>
    ensures { IfOk result (λ kind. kind ≡ other_kind section line.now) }
{
    if is_drawn(line) {
        Ok(LineKind::Silent)
    } else if first_of(line) == b'[' {
        Ok(LineKind::Unknown)
    } else {
        bad_kind(alloc, section, line)
    }
}

/// A line with a key and an equals sign.
fn pair_kind(
    alloc: Global,
    section: Option<SectionName>,
    line: &[u8],
) -> Result<LineKind, AllocError>
    ensures { IfOk result (λ kind. kind ≡ pair_kind section line.now) }
{
    match section {
        Some(name) => Ok(LineKind::Pair(key_meant(alloc, name, key_of(line))?)),
        None => other_kind(alloc, None, line),
    }
}

/// What a line is that begins with no blank, in a section of this name, or before the first one.
#[tactic(auto, unfolding(crate::specs::Kinds::kind_meant))]
pub fn kind_meant(
    alloc: Global,
    section: Option<SectionName>,
    line: &[u8],
) -> Result<LineKind, AllocError>
    ensures { IfOk result (λ kind. kind ≡ kind_meant section line.now) }
{
    if is_comment(line) {
        return Ok(LineKind::Silent);
    }
    if is_bracketed(line) && is_meant_as_header(alloc, line)? {
        return header_kind(alloc, line);
    }
    if is_pair(line) {
        pair_kind(alloc, section, line)
    } else {
        other_kind(alloc, section, line)
    }
}

/// The key that such a line states, as it stands there.
#[tactic(auto, unfolding(crate::specs::Kinds::stated_key))]
pub fn stated_key(line: &[u8]) -> &[u8]
    ensures { result.now ≡ stated_key line.now }
{
    if is_pair(line) {
        key_of(line)
    } else {
        colon_key(line)
    }
}

/// The value that such a line states, as it stands there.
#[tactic(auto, unfolding(crate::specs::Kinds::stated_value))]
pub fn stated_value(line: &[u8]) -> &[u8]
    ensures { result.now ≡ stated_value line.now }
{
    if is_pair(line) {
        value_of(line)
    } else {
        trim(after_first(line, b':'))
    }
}
