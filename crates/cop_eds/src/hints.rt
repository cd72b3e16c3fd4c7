//! Where searches among the tickets begin. A wrong place costs time alone: what is found does not rest on it.

use crate::entry::Entry;
use crate::line::{Kind, Line};
use crate::tickets::{OTHERS, Ticket};
use std::alloc::{AllocError, Global};

/// How many objects' sections a range of numbers has, where they lie evenly.
const RANGE: usize = 8;

/// The places of the tickets. Those of objects' sections come first, by their numbers, of which each `span` has a
/// range of its own; then those of the other headers; then those of each section's keys, in the order of the sections.
/// `first` is the section of the object with the least number.
#[derive(Drop)]
pub struct Hints {
    first: usize,
    span: u64,
    codes: Vec<usize>,
    keys: Vec<usize>,
}

/// How many sections the lines begin.
pub fn section_count(lines: &[Line]) -> usize {
    match lines.last() {
        Some(line) => line.section as usize,
        None => 0,
    }
}

/// Where the tickets of each section's keys begin, the keys before the first section among them, and where the last
/// end.
fn keys_of(alloc: Global, lines: &[Line]) -> Result<Vec<usize>, AllocError> {
    let mut keys = Vec::new(alloc);
    let mut count = section_count(lines);
    keys.push(count)?;
    for line in lines {
        match line.kind {
            Kind::Header => keys.push(count)?,
            Kind::Pair => count = count.saturating_add(1),
            Kind::Other => {}
        }
    }
    keys.push(count)?;
    Ok(keys)
}

/// Where the tickets of each range of objects' sections begin, and where the last end.
fn codes_of(alloc: Global, tickets: &[Ticket], span: u64) -> Result<Vec<usize>, AllocError> {
    let mut codes = Vec::new(alloc);
    for range in 0..tickets.len() / RANGE + 2 {
        let least = span.saturating_mul(range as u64);
        codes.push(tickets.partition_point(|ticket| ticket.word < least))?;
    }
    Ok(codes)
}

/// How many numbers a range has, so that all ranges reach the greatest.
fn span_of(tickets: &[Ticket]) -> u64 {
    match tickets.last() {
        Some(ticket) => (ticket.word / (tickets.len() / RANGE + 1) as u64).saturating_add(1),
        None => 1,
    }
}

/// The section of the object with the least number.
fn first_of(lines: &[Line], tickets: &[Ticket]) -> usize {
    match tickets.first() {
        Some(ticket) => match lines.get(ticket.line.saturating_sub(1)) {
            Some(line) => line.section as usize,
            None => 0,
        },
        None => 0,
    }
}

/// Two neighbours of a list.
fn neighbours(places: &[usize], first: usize) -> (usize, usize) {
    match (places.get(first), places.get(first.saturating_add(1))) {
        (Some(low), Some(high)) => (*low, *high),
        _ => (0, 0),
    }
}

impl Hints {
    /// The places of the tickets of these lines.
    pub fn of(alloc: Global, lines: &[Line], tickets: &[Ticket]) -> Result<Hints, AllocError> {
        let objects = &tickets[..tickets.partition_point(|ticket| ticket.word < OTHERS)];
        let span = span_of(objects);
        Ok(Hints {
            first: first_of(lines, objects),
            span,
            codes: codes_of(alloc, objects, span)?,
            keys: keys_of(alloc, lines)?,
        })
    }

    /// The place of the ticket behind that of an object's section, where such sections stand in the order of their numbers;
    /// the first place where none was met before.
    pub fn behind(&self, section: usize) -> usize {
        match section.checked_sub(self.first) {
            Some(more) => more.saturating_add(1),
            None => 0,
        }
    }

    /// The places that a key's ticket stands between.
    pub fn places(&self, key: &Entry<'_>) -> (usize, usize) {
        match key.group {
            0 => neighbours(&self.codes, (key.code / self.span.max(1)) as usize),
            1 => (0, self.keys.first().copied().unwrap_or(0)),
            _ => neighbours(&self.keys, key.code as usize),
        }
    }
}
