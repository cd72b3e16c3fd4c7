//! Tickets: the lines that are found by a name, by numbers that stand for the names. Where no two lines have one number,
//! a line is found with no look at other lines' names.

ghost use Rattle.std.specs.Prelude.{◌≡◌, ◌↔◌, ◌<◌, ◌≤◌, ◌-◌, ◌+◌, ◌/◌, ◌&&◌, ℕ, List, length, true, false, IfOk, OnOk, MatchOption, Some, None, is_some, slice_get, Contains};
ghost use Rattle.std.specs.List.{All, AllWithin};
ghost use Rattle.std.specs.List.Sorted.{IsPermutation};
ghost use Rattle.std.specs.Option.{option_map};
ghost use Rattle.std.specs.Str.{str_to_ascii_lowercase};
ghost use Rattle.cop_eds.specs.declared.line.Line.{Line};
ghost use Rattle.cop_eds.specs.declared.tickets.Ticket.{Ticket};
ghost use Rattle.cop_eds.specs.Lines.{IsWithin, first_from, is_kind};
ghost use Rattle.cop_eds.specs.Index.{line_key, sort_key, is_found_by, IsNext};
ghost use Rattle.cop_eds.specs.Marks.{AreMarked};
ghost use Rattle.cop_eds.specs.Tickets.{stirred, low_bits, mixed_each, mixed_by, mixed, word_of, is_ahead, IsTicket, AreTickets, AreRising, AreOrdered, Surround};

use crate::entry::Entry;
use crate::index::{has_key, header_entry, is_kind, line_entry, pair_entry};
use crate::line::{Kind, Line};
use crate::lines::text_of;
use crate::marks::{is_marked, mark_of};
use crate::text::{key_of, name_of};
use std::alloc::{AllocError, Global};

/// The least number of a name that is none of an object's section.
pub const OTHERS: u64 = 1 << 63;

/// A line that is found by a name: the number that stands for the name, and the line's number.
#[derive(Clone, Copy)]
pub struct Ticket {
    pub word: u64,
    pub line: usize,
}

/// A number of 64 bits after more is mixed into it.
fn stirred(sum: u64, more: u64) -> u64
    ensures { result ≡ stirred sum more }
{
    sum.wrapping_add(more).wrapping_mul(0x9E37_79B9_7F4A_7C15)
}

/// The low five bits of each byte, which a letter has in both cases.
fn low_bits(bytes: &[u8; 8]) -> u64
    ensures { result ≡ low_bits (str_to_ascii_lowercase bytes.now) }
{
    u64::from_le_bytes(*bytes) & 0x1F1F_1F1F_1F1F_1F1F
}

#[tactic(auto, unfolding(crate::specs::Tickets::mixed_each))]
/// A number that bytes, without ASCII case, are mixed into one at a time.
fn mixed_each(start: u64, bytes: &[u8]) -> u64
    ensures { result ≡ mixed_each start (str_to_ascii_lowercase bytes.now) }
{
    let mut sum = start;
    let mut rest = bytes;
    while let Some((first, tail)) = rest.split_first() {
        let low = u64::from(*first % 32);
        sum = stirred(sum, low);
        rest = tail;
    }
    sum
}

/// A number that the bytes of a name, without ASCII case, are mixed into eight at a time, but for the rest.
fn in_eights(name: &[u8]) -> u64
    ensures { result ≡ mixed_by (length name.now / 8) 0 (str_to_ascii_lowercase name.now) }
{
    let mut sum = 0u64;
    let mut rest = name;
    while let Some((bytes, tail)) = rest.split_first_chunk::<8>() {
        sum = stirred(sum, low_bits(bytes));
        rest = tail;
    }
    sum
}

/// A number that the bytes of a name, without ASCII case, are mixed into: eight at a time, and then the last eight.
fn mixed(name: &[u8]) -> u64
    ensures { result ≡ mixed (str_to_ascii_lowercase name.now) }
{
    match name.split_last_chunk::<8>() {
        Some((_, last)) => stirred(in_eights(name), low_bits(last)),
        None => mixed_each(0, name),
    }
}

#[tactic(auto, unfolding(crate::specs::Tickets::word_of))]
/// The number that stands for what an entry is found by. The places of so many bits have ranges of their own.
pub fn word_of(bits: u32, entry: &Entry<'_>) -> u64
    requires { (0 < bits) × (bits < 64) }
    ensures { result ≡ word_of bits (sort_key entry.now) }
{
    if entry.group == 0 {
        return entry.code;
    }
    let place = entry.code.wrapping_add(u64::from(entry.group));
    let word = (place << (64 - bits)).wrapping_add(mixed(entry.name) >> bits);
    OTHERS + word / 2
}

/// How many bits the places of so many sections have.
pub fn bits_of(sections: usize) -> u32
    ensures { (0 < result) × (result < 64) }
{
    let places = (sections as u64).saturating_add(3);
    (places.ilog2() + 1).min(63)
}

/// A number that the tickets of all headers have in common, and those of the keys of each section.
fn part_of(bits: u32, word: u64) -> u64
    requires { bits < 64 }
{
    if word < OTHERS {
        1
    } else {
        (word - OTHERS) >> (63 - bits)
    }
}

/// Puts the tickets between two places in order, by their numbers.
fn sort_between(tickets: &mut [Ticket], from: usize, to: usize)
    requires { (from ≤ to) × (to ≤ length tickets.old) }
    ensures { IsPermutation tickets.old tickets.new }
{
    tickets[from..to].sort_unstable_by_key(|ticket| ticket.word);
}

/// Puts the neighbours of each part in order, by their numbers.
fn sort_parts(tickets: &mut [Ticket], bits: u32)
    requires { bits < 64 }
    ensures { IsPermutation tickets.old tickets.new }
{
    let mut from = 0;
    for at in 1..tickets.len() {
        if part_of(bits, tickets[at].word) != part_of(bits, tickets[from].word) {
            sort_between(tickets, from, at);
            from = at;
        }
    }
    sort_between(tickets, from, tickets.len());
}

/// Puts the tickets in order: by their numbers, and those with one number by their lines. Those of a text's headers come first, and then those of
/// its keys, so that each part is sorted by itself.
fn sort_tickets(tickets: &mut Vec<Ticket>, bits: u32)
    requires { bits < 64 }
    ensures { IsPermutation tickets.old.items tickets.new.items }
{
    sort_parts(tickets, bits);
    // Most texts have no two lines with one number, and numbers alone are compared faster.
    if !are_rising(tickets) {
        tickets.sort_unstable_by_key(|ticket| (ticket.word, ticket.line));
    }
}

/// The number that stands for what a line is found by, where it is a header or a pair.
fn word_at(source: &[u8], line: &Line, bits: u32) -> Option<u64>
    requires within { IsWithin (length source.now) line.now }
    requires fits { (0 < bits) × (bits < 64) }
    ensures { MatchOption result (line_key source.now line.now ≡ None) (λ word. option_map (word_of bits) (line_key source.now line.now) ≡ Some word) }
{
    let text = text_of(source, line);
    match line.kind {
        Kind::Other => None,
        Kind::Header => Some(word_of(bits, &header_entry(name_of(text)))),
        Kind::Pair => Some(word_of(bits, &pair_entry(line.section as usize, key_of(text)))),
    }
}

/// Adds the tickets of the lines of a kind that are found by a name, in their order.
fn push_tickets(
    tickets: &mut Vec<Ticket>,
    source: &[u8],
    lines: &[Line],
    bits: u32,
    kind: Kind,
) -> Result<(), AllocError>
    requires within { All (IsWithin (length source.now)) lines.now }
    requires fits { (0 < bits) × (bits < 64) }
    requires sound { All (IsTicket source.now lines.now bits) tickets.old.items }
    ensures sound { OnOk result (All (IsTicket source.now lines.now bits) tickets.new.items) }
    ensures complete { OnOk result ((place : ℕ) (line : Line) → place < length lines.now → slice_get lines.now place ≡ Some line
        → (is_kind line.kind kind && is_some (line_key source.now line)) ≡ true
        → (ticket : Ticket) × Contains tickets.new.items ticket × (ticket.line ≡ place + 1)) }
    ensures kept { OnOk result ((ticket : Ticket) → Contains tickets.old.items ticket → Contains tickets.new.items ticket) }
{
    for (place, line) in lines.iter().enumerate() {
        if !is_kind(line.kind, kind) {
            continue;
        }
        let Some(word) = word_at(source, line, bits) else {
            continue;
        };
        tickets.push(Ticket {
            word,
            line: place + 1,
        })?;
    }
    Ok(())
}

/// The tickets of all lines that are found by a name, in order.
pub fn tickets_of(
    alloc: Global,
    source: &[u8],
    lines: &[Line],
    bits: u32,
) -> Result<Vec<Ticket>, AllocError>
    requires within { All (IsWithin (length source.now)) lines.now }
    requires fits { (0 < bits) × (bits < 64) }
    ensures { IfOk result (λ tickets. AreTickets source.now lines.now bits tickets.items) }
{
    let mut tickets = Vec::with_capacity(alloc, lines.len())?;
    push_tickets(&mut tickets, source, lines, bits, Kind::Header)?;
    push_tickets(&mut tickets, source, lines, bits, Kind::Pair)?;
    sort_tickets(&mut tickets, bits);
    Ok(tickets)
}

/// Whether each number is below the next.
pub fn are_rising(tickets: &[Ticket]) -> bool
    ensures { result ≡ true ↔ AreRising tickets.now }
{
    for i in 1..tickets.len() {
        if tickets[i - 1].word >= tickets[i].word {
            return false;
        }
    }
    true
}

/// How many tickets may share a number, for the look-up by numbers to be fast.
const RUN: usize = 8;

fn is_ahead(ticket: Ticket, next: Ticket) -> bool
    ensures { result ≡ is_ahead ticket next }
{
    ticket.word < next.word || (ticket.word == next.word && ticket.line < next.line)
}

/// Whether the tickets are in order. It may be false too where too many of them share a number.
fn are_ordered(tickets: &[Ticket]) -> bool
    ensures { result ≡ true → AreOrdered tickets.now }
{
    for i in 1..tickets.len() {
        if !is_ahead(tickets[i - 1], tickets[i]) {
            return false;
        }
        if i >= RUN && tickets[i - RUN].word == tickets[i].word {
            return false;
        }
    }
    true
}

/// Whether the tickets are in order, as they are where their numbers rise. It may be false too where too many of them
/// share a number.
#[tactic(auto, using(crate::proofs::TicketLemmas::rising_ordered))]
pub fn are_searchable(tickets: &[Ticket], is_rising: bool) -> bool
    requires { is_rising ≡ true → AreRising tickets.now }
    ensures { result ≡ true → AreOrdered tickets.now }
{
    if is_rising {
        return true;
    }
    are_ordered(tickets)
}

/// Whether all tickets before a place have numbers below this one.
fn are_below(tickets: &[Ticket], place: usize, word: u64) -> bool
    requires { AreOrdered tickets.now }
    ensures { result ≡ true → AllWithin (λ ticket. ticket.word < word) tickets.now 0 place }
{
    if place == 0 {
        return true;
    }
    place <= tickets.len() && tickets[place - 1].word < word
}

/// Whether no ticket from a place on has a number below this one.
fn are_above(tickets: &[Ticket], place: usize, word: u64) -> bool
    requires { AreOrdered tickets.now }
    ensures { result ≡ true → AllWithin (λ ticket. word ≤ ticket.word) tickets.now place (length tickets.now) }
{
    if place >= tickets.len() {
        return true;
    }
    tickets[place].word >= word
}

/// How many tickets stand before a number, which lies between two places.
fn count_between(tickets: &[Ticket], from: usize, to: usize, word: u64) -> usize
    requires order { (from ≤ to) × (to ≤ length tickets.now) }
    requires around { Surround word tickets.now from to }
    requires ordered { AreOrdered tickets.now }
    ensures { Surround word tickets.now result result }
{
    let mut low = from;
    let mut high = to;
    while low < high {
        let middle = low + (high - low) / 2;
        if tickets[middle].word < word {
            low = middle + 1;
        } else {
            high = middle;
        }
    }
    low
}

/// How many tickets stand before a number. It is looked for between the two places first.
fn count_below(tickets: &[Ticket], near: (usize, usize), word: u64) -> usize
    requires ordered { AreOrdered tickets.now }
    ensures { Surround word tickets.now result result }
{
    let (low, high) = near;
    if low > high || high > tickets.len() {
        return count_between(tickets, 0, tickets.len(), word);
    }
    if are_below(tickets, low, word) && are_above(tickets, high, word) {
        count_between(tickets, low, high, word)
    } else {
        count_between(tickets, 0, tickets.len(), word)
    }
}

/// Whether the first ticket from a number on stands at a place, by those beside it.
pub fn stands_at(tickets: &[Ticket], place: usize, word: u64) -> bool {
    if let Some(before) = place.checked_sub(1) {
        if !matches!(tickets.get(before), Some(ticket) if ticket.word < word) {
            return false;
        }
    }
    matches!(tickets.get(place), Some(ticket) if ticket.word >= word)
}

/// The line with this number, where the key finds it.
fn own_line(source: &[u8], lines: &[Line], number: usize, key: &Entry<'_>) -> Option<(usize, Line)>
    requires within { All (IsWithin (length source.now)) lines.now }
    ensures { MatchOption result ((line : Line) → 1 ≤ number → slice_get lines.now (number - 1) ≡ Some line → is_found_by source.now (sort_key key.now) line ≡ false)
        (λ found. (found.0 ≡ number) × (1 ≤ number) × (slice_get lines.now (number - 1) ≡ Some found.1) × (is_found_by source.now (sort_key key.now) found.1 ≡ true)) }
{
    if number == 0 || number > lines.len() {
        return None;
    }
    let line = lines[number - 1];
    let entry = line_entry(source, &line)?;
    if has_key(&entry, key) {
        Some((number, line))
    } else {
        None
    }
}

/// The line that a key finds, and its number. It is looked for between the two places first.
pub fn find_ticket(
    source: &[u8],
    lines: &[Line],
    bits: u32,
    tickets: &[Ticket],
    marks: &[u64],
    near: (usize, usize),
    key: &Entry<'_>,
) -> Option<(usize, Line)>
    requires within { All (IsWithin (length source.now)) lines.now }
    requires fits { (0 < bits) × (bits < 64) }
    requires tickets { AreTickets source.now lines.now bits tickets.now }
    requires ordered { AreOrdered tickets.now }
    requires marked { AreMarked bits marks.now tickets.now }
    ensures { result ≡ first_from 1 (is_found_by source.now (sort_key key.now)) lines.now }
{
    let word = word_of(bits, key);
    if !is_marked(marks, mark_of(bits, word)) {
        return None;
    }
    let mut place = count_below(tickets, near, word);
    while place < tickets.len() && tickets[place].word == word {
        if let Some(found) = own_line(source, lines, tickets[place].line, key) {
            return Some(found);
        }
        place += 1;
    }
    None
}

/// The number of the first object's section from a number on, and its header. It is looked for between the two places
/// first.
pub fn next_ticket(
    lines: &[Line],
    tickets: &[Ticket],
    near: (usize, usize),
    code: u64,
) -> Option<(u64, (usize, Line))>
    requires ordered { AreOrdered tickets.now }
    ensures { (text : List ℕ) (bits : ℕ) → AreTickets text lines.now bits tickets.now → IsNext text lines.now code result }
{
    let place = count_below(tickets, near, code);
    if place >= tickets.len() {
        return None;
    }
    let ticket = tickets[place];
    if ticket.line == 0 || ticket.line > lines.len() {
        return None;
    }
    if ticket.word < OTHERS {
        Some((ticket.word, (ticket.line, lines[ticket.line - 1])))
    } else {
        None
    }
}
