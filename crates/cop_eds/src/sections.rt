//! A text as sections of pairs.

ghost use Rattle.std.specs.Prelude.{◌≡◌, ◌^◌, ◌<◌, ◌≤◌, ◌+◌, [], length, take, true, IfOk, IfSome, MatchOption, ℕ, slice_get, Some, None};
ghost use Rattle.std.specs.List.{All, list_any};
ghost use Rattle.std.specs.Option.{option_map, option_and_then};
ghost use Rattle.cop_eds.specs.declared.line.Line.{Line};
ghost use Rattle.cop_eds.specs.Plain.{is_plain};
ghost use Rattle.cop_eds.specs.Text.{value_of};
ghost use Rattle.cop_eds.specs.Lines.{IsWithin, text_of, lines_of, first_from, is_named, is_keyed, broken, first_refusal};
ghost use Rattle.cop_eds.specs.Sections.{place_at, place_of, coded_place, keyed_line, key_line, some_value, entry_of};
ghost use Rattle.cop_eds.specs.Index.{sort_key, is_found_by, IsNext};

use crate::entry::Entry;
use crate::fault::{Refusal, Rule};
use crate::hints::{Hints, section_count};
use crate::index::{
    are_apart, coded_entry, find_in, header_entry, index_of, next_code, pair_entry,
};
use crate::line::{Kind, Line, Place};
use crate::lines::{lines_of, text_of};
use crate::marks::marks_of;
use crate::text::{is_comment, key_of, name_of, value_after, value_of};
use crate::tickets::{
    Ticket, are_rising, are_searchable, bits_of, find_ticket, next_ticket, stands_at, tickets_of,
};
use std::alloc::{AllocError, Global};
use std::marker::Model;

/// The lines of a text and their index: the tickets, or where too many of them share a number the entries. Contracts see
/// the text.
#[derive(Drop)]
pub struct Sections<'a> {
    source: &'a [u8],
    lines: Vec<Line>,
    bits: u32,
    tickets: Vec<Ticket>,
    marks: Vec<u64>,
    hints: Hints,
    is_rising: bool,
    is_named: bool,
    entries: Vec<Entry<'a>>,
}

impl<'a> Model for Sections<'a> {
    ghost use Rattle.std.specs.Prelude.{ℕ, List};
    ghost use Rattle.cop_eds.specs.Tickets.{IsIndexed};

    ghost Value = { List ℕ };

    ghost view = { λ s. s.source.now };

    ghost invariant = { λ s. IsIndexed s.source.now s.lines.items s.bits s.tickets.items s.marks.items s.is_rising s.is_named s.entries.items };
}

fn place_at(found: (usize, Line)) -> Place
    ensures { result ≡ place_at found }
{
    Place {
        line: found.0,
        section: found.1.section as usize,
    }
}

/// The rule that a line breaks whatever stands before it.
fn broken_alone(source: &[u8], line: &Line) -> Option<Rule>
    requires { IsWithin (length source.now) line.now }
    ensures { result ≡ broken source.now [] line.now }
{
    match line.kind {
        Kind::Other if is_comment(text_of(source, line)) => None,
        Kind::Other => Some(Rule::Line),
        Kind::Pair if line.section == 0 => Some(Rule::Line),
        Kind::Header | Kind::Pair => None,
    }
}

/// The refusal of the first line that breaks a rule, where none repeats a name.
fn first_alone(source: &[u8], lines: &[Line]) -> Option<Refusal>
    requires within { All (IsWithin (length source.now)) lines.now }
    requires alone { (place : ℕ) (line : Line) → slice_get lines.now place ≡ Some line → broken source.now (take place lines.now) line ≡ broken source.now [] line }
    ensures { result ≡ first_refusal source.now [] lines.now }
{
    for (place, line) in lines.iter().enumerate() {
        if let Some(rule) = broken_alone(source, line) {
            return Some(Refusal {
                rule,
                line: place + 1,
            });
        }
    }
    None
}

impl<'a> Sections<'a> {
    pub fn read(alloc: Global, source: &'a [u8]) -> Result<Sections<'a>, AllocError>
        requires { length source.now < 2 ^ 31 }
        ensures { IfOk result (λ s. s ≡ source.now) }
    {
        let lines = lines_of(alloc, source)?;
        let bits = bits_of(section_count(&lines));
        let tickets = tickets_of(alloc, source, &lines, bits)?;
        let marks = marks_of(alloc, &tickets, bits)?;
        let hints = Hints::of(alloc, &lines, &tickets)?;
        let is_rising = are_rising(&tickets);
        let is_named = !are_searchable(&tickets, is_rising);
        let entries = if is_named {
            index_of(alloc, source, &lines)?
        } else {
            Vec::new(alloc)
        };
        Ok(Sections {
            source,
            lines,
            bits,
            tickets,
            marks,
            hints,
            is_rising,
            is_named,
            entries,
        })
    }

    pub fn source(&self) -> &'a [u8]
        ensures { result.now ≡ self.now }
    {
        self.source
    }

    pub fn lines(&self) -> &[Line]
        ensures { result.now ≡ lines_of self.now }
    {
        &self.lines
    }

    /// The first line that a key finds, and its number.
    #[tactic(auto, using(crate::proofs::KeyLemmas::first_within))]
    fn find(&self, key: &Entry<'_>) -> Option<(usize, Line)>
        ensures value { result ≡ first_from 1 (is_found_by self.now (sort_key key.now)) (lines_of self.now) }
        ensures within { IfSome result (λ found. IsWithin (length self.now) found.1) }
    {
        if self.is_named {
            find_in(&self.lines, &self.entries, key)
        } else {
            let near = self.hints.places(key);
            find_ticket(
                self.source,
                &self.lines,
                self.bits,
                &self.tickets,
                &self.marks,
                near,
                key,
            )
        }
    }

    /// The header of this name, and its number.
    #[tactic(auto, using(crate::proofs::KeyLemmas::first_named))]
    fn header(&self, name: &[u8]) -> Option<(usize, Line)>
        ensures { result ≡ first_from 1 (is_named self.now name.now) (lines_of self.now) }
    {
        self.find(&header_entry(name))
    }

    /// The line of a key in a section, and its number.
    #[tactic(auto, using(crate::proofs::KeyLemmas::first_keyed))]
    fn keyed(&self, section: usize, key: &[u8]) -> Option<(usize, Line)>
        ensures value { result ≡ keyed_line self.now section key.now }
        ensures within { IfSome result (λ found. IsWithin (length self.now) found.1) }
    {
        self.find(&pair_entry(section, key))
    }

    /// Whether one of the first so many lines is a header of this name.
    #[tactic(auto, using(crate::proofs::IndexLemmas::earlier_found, crate::proofs::IndexLemmas::none_found))]
    fn has_header(&self, count: usize, name: &[u8]) -> bool
        ensures { result ≡ list_any (is_named self.now name.now) (take count (lines_of self.now)) }
    {
        match self.header(name) {
            Some((number, _)) => number <= count,
            None => false,
        }
    }

    /// Whether one of the first so many lines has the key in the section.
    #[tactic(auto, using(crate::proofs::IndexLemmas::earlier_found, crate::proofs::IndexLemmas::none_found))]
    fn has_key(&self, count: usize, section: usize, key: &[u8]) -> bool
        ensures { result ≡ list_any (is_keyed self.now section key.now) (take count (lines_of self.now)) }
    {
        match self.keyed(section, key) {
            Some((number, _)) => number <= count,
            None => false,
        }
    }

    /// The rule that a line breaks after the first so many.
    fn broken(&self, count: usize, line: &Line) -> Option<Rule>
        requires { IsWithin (length self.now) line.now }
        ensures { result ≡ broken self.now (take count (lines_of self.now)) line.now }
    {
        let text = text_of(self.source(), line);
        match line.kind {
            Kind::Other if is_comment(text) => None,
            Kind::Other => Some(Rule::Line),
            Kind::Header if self.has_header(count, name_of(text)) => Some(Rule::SectionRepeated),
            Kind::Header => None,
            Kind::Pair if line.section == 0 => Some(Rule::Line),
            Kind::Pair if self.has_key(count, line.section as usize, key_of(text)) => Some(
                Rule::KeyRepeated,
            ),
            Kind::Pair => None,
        }
    }

    /// The refusal of the first line that breaks a rule, each looked up among the earlier ones.
    #[tactic(auto, using(crate::proofs::RefusalLemmas::goes_on, crate::proofs::RefusalLemmas::stops, crate::proofs::RefusalLemmas::ends))]
    fn first_refusal(&self) -> Option<Refusal>
        ensures { result ≡ first_refusal self.now [] (lines_of self.now) }
    {
        for (place, line) in self.lines.iter().enumerate() {
            if let Some(rule) = self.broken(place, line) {
                return Some(Refusal {
                    rule,
                    line: place + 1,
                });
            }
        }
        None
    }

    /// The refusal of the first line that breaks a rule.
    pub fn refusal(&self) -> Option<Refusal>
        ensures { result ≡ first_refusal self.now [] (lines_of self.now) }
    {
        if self.is_rising {
            first_alone(self.source, &self.lines)
        } else if self.is_named && are_apart(&self.entries) {
            first_alone(self.source, &self.lines)
        } else {
            self.first_refusal()
        }
    }

    /// Where the section of this name begins.
    pub fn named(&self, name: &[u8]) -> Option<Place>
        ensures { result ≡ place_of self.now name.now }
    {
        self.header(name).map(place_at)
    }

    /// Where the object's section with this number begins. It is looked for behind that of the object that was met last first.
    pub fn coded(&self, met: usize, code: u64) -> Option<Place>
        ensures { result ≡ coded_place self.now code }
    {
        let (next, header) = self.next_header(met, code)?;
        if next == code {
            Some(place_at(header))
        } else {
            None
        }
    }

    /// The places that the ticket of an object's section stands between: right behind the section that was met last, in most
    /// texts.
    fn near(&self, met: usize, code: u64) -> (usize, usize) {
        let place = self.hints.behind(met);
        if stands_at(&self.tickets, place, code) {
            (place, place)
        } else {
            self.hints.places(&coded_entry(code))
        }
    }

    /// The number of the first object's section from a number on, and its header.
    fn next_header(&self, met: usize, code: u64) -> Option<(u64, (usize, Line))>
        ensures { IsNext self.now (lines_of self.now) code result }
    {
        if self.is_named {
            next_code(&self.lines, &self.entries, code)
        } else {
            next_ticket(&self.lines, &self.tickets, self.near(met, code), code)
        }
    }

    /// The number of the first object's section from a number on, and where it begins. It is looked for behind that of the
    /// object that was met last first.
    pub fn next_code(&self, met: usize, code: u64) -> Option<(u64, Place)>
        ensures { MatchOption result ((c : ℕ) → code ≤ c → coded_place self.now c ≡ None)
            (λ next. (code ≤ next.0) × (coded_place self.now next.0 ≡ Some next.1) × ((c : ℕ) → code ≤ c → c < next.0 → coded_place self.now c ≡ None)) }
    {
        let (next, header) = self.next_header(met, code)?;
        Some((next, place_at(header)))
    }

    /// The number of a key's line.
    pub fn key_line(&self, section: usize, key: &[u8]) -> Option<usize>
        ensures { result ≡ key_line self.now section key.now }
    {
        self.keyed(section, key).map(|(number, _)| number)
    }

    /// The number and the value of the line at this place, where that is the line of the key in the section, spelled alike.
    fn value_at(&self, near: usize, section: usize, key: &[u8]) -> Option<(usize, &'a [u8])>
        requires { is_plain key.now ≡ true }
        ensures { IfSome result (λ found. (line : Line) × (keyed_line self.now section key.now ≡ Some (found.0, line)) × (value_of (text_of self.now line) ≡ found.1.now)) }
    {
        let lines = self.lines();
        if !self.is_rising || near >= lines.len() {
            return None;
        }
        let line = lines[near];
        if line.section as usize != section {
            return None;
        }
        match line.kind {
            Kind::Pair => {
                let value = value_after(text_of(self.source, &line), key)?;
                Some((near + 1, value))
            }
            Kind::Header | Kind::Other => None,
        }
    }

    /// The line and the value of a pair, where the value is not empty.
    fn valued(&self, found: Option<(usize, Line)>) -> Option<(usize, &'a [u8])>
        requires { IfSome found (λ found. IsWithin (length self.now) found.1) }
        ensures { option_map (λ p. (p.0, p.1.now)) result ≡ option_and_then (some_value self.now) found }
    {
        let (number, line) = found?;
        let value = value_of(text_of(self.source, &line));
        if value.is_empty() {
            return None;
        }
        Some((number, value))
    }

    /// The line and the value of a key in a section.
    pub fn entry(&self, section: usize, key: &[u8]) -> Option<(usize, &'a [u8])>
        ensures { option_map (λ p. (p.0, p.1.now)) result ≡ entry_of self.now section key.now }
    {
        self.valued(self.keyed(section, key))
    }

    /// The same; the line at this place is looked at first.
    pub fn entry_near(&self, near: usize, section: usize, key: &[u8]) -> Option<(usize, &'a [u8])>
        requires { is_plain key.now ≡ true }
        ensures { option_map (λ p. (p.0, p.1.now)) result ≡ entry_of self.now section key.now }
    {
        match self.value_at(near, section, key) {
            Some(found) if found.1.is_empty() => None,
            Some(found) => Some(found),
            None => self.entry(section, key),
        }
    }

    /// The same, in the section that begins at this place; the lines so many after its first one are looked at first.
    pub fn entry_at(&self, place: Place, after: [usize; 2], key: &[u8]) -> Option<(usize, &'a [u8])>
        requires { is_plain key.now ≡ true }
        ensures { option_map (λ p. (p.0, p.1.now)) result ≡ entry_of self.now place.section key.now }
    {
        let [first, second] = after;
        match self.value_at(place.line.saturating_add(first), place.section, key) {
            Some(found) if found.1.is_empty() => None,
            Some(found) => Some(found),
            None => self.entry_near(place.line.saturating_add(second), place.section, key),
        }
    }
}
