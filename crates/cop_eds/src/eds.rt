//! A text that is accepted, and its readers.

ghost use Rattle.std.specs.Prelude.{◌≡◌, ◌↔◌, Ok, true, length, take, option_copied};
ghost use Rattle.std.specs.List.{All, Contains};
ghost use Rattle.std.specs.Option.{option_map};
ghost use Rattle.cop_frame.specs.declared.rates.Rate.{Rate};
ghost use Rattle.cop_eds.specs.Plain.{is_plain};
ghost use Rattle.cop_eds.specs.Lines.{Gives, IsInside, is_keyed, lines_of};
ghost use Rattle.cop_eds.specs.Reading.{reading};
ghost use Rattle.cop_eds.specs.Text.{mark_len};
ghost use Rattle.cop_eds.specs.Steps.{amount_at};
ghost use Rattle.cop_eds.specs.Rates.{support_of};
ghost use Rattle.cop_eds.specs.Objects.{objects_of, object_section};
ghost use Rattle.cop_eds.specs.Sections.{place_of, section_of, key_line, entry_of, value_in};

use crate::amount::{Amount, amount_of};
use crate::description::Object;
use crate::fault::{EdsFault, Refusal, Rule};
use crate::line::{Line, Place};
use crate::lines::is_keyed;
use crate::lists::objects;
use crate::objects::object_in;
use crate::rates::rates;
use crate::sections::Sections;
use crate::text::mark_len;
use cop_frame::RateSet;
use std::alloc::Global;
use std::marker::Model;

/// The greatest size of a text, in bytes.
const LIMIT: usize = 4 * 1024 * 1024;

/// A text that keeps the rules. Contracts see it as the text.
#[derive(Drop)]
pub struct Eds<'a> {
    sections: Sections<'a>,
    rates: RateSet,
    objects: Vec<Object>,
}

impl<'a> Model for Eds<'a> {
    ghost use Rattle.std.specs.Prelude.{ℕ, List};
    ghost use Rattle.cop_eds.specs.Eds.{IsRead};

    ghost Value = { List ℕ };

    ghost view = { λ e. e.sections };

    ghost invariant = { λ e. IsRead e.sections e.rates e.objects.items };
}

/// Reads a text. A refusal is of the first rule that the text breaks, in the order of `reading`: its size; the
/// first line with a fault; the rates' keys; the three lists, and with each entry the object's sections.
#[tactic(auto, unfolding(crate::specs::Reading::reading))]
pub fn parse<'a>(alloc: Global, source: &'a [u8]) -> Result<Eds<'a>, EdsFault>
    ensures { Gives (λ eds. eds) result (reading source.now) }
{
    if source.len() > LIMIT {
        return Err(EdsFault::Refused(Refusal {
            rule: Rule::TooLarge,
            line: 0,
        }));
    }
    let sections = Sections::read(alloc, source)?;
    if let Some(refusal) = sections.refusal() {
        return Err(EdsFault::Refused(refusal));
    }
    let rates = rates(&sections)?;
    let objects = objects(alloc, &sections)?;
    Ok(Eds {
        sections,
        rates,
        objects,
    })
}

impl<'a> Eds<'a> {
    /// The text, which is accepted.
    pub fn source(&self) -> &'a [u8]
        ensures value { result.now ≡ self.now }
        ensures accepted { reading self.now ≡ Ok self.now }
    {
        self.sections.source()
    }

    /// The mark at the front of the text, before the first line; no bytes where it has none.
    pub fn mark(&self) -> &'a [u8]
        ensures { result.now ≡ take (mark_len self.now) self.now }
    {
        let source = self.source();
        &source[..mark_len(source)]
    }

    /// The lines, whose numbers count from 1. Each stands in the text with its end, which follows it.
    pub fn lines(&self) -> &[Line]
        ensures lines { result.now ≡ lines_of self.now }
        ensures inside { All (IsInside (length self.now)) result.now }
    {
        self.sections.lines()
    }

    /// Whether a line is a pair of this key in this section.
    pub fn is_keyed(&self, line: &Line, section: usize, key: &[u8]) -> bool
        requires { IsInside (length self.now) line.now }
        ensures { result ≡ is_keyed self.now section key.now line.now }
    {
        is_keyed(self.source(), line, section, key)
    }

    /// The rates that DeviceInfo supports.
    pub fn rates(&self) -> RateSet
        ensures { (rate : Rate) → Contains result rate ↔ (support_of self.now rate ≡ Ok true) }
    {
        // A set has no copy: what is in it and in itself is that set.
        self.rates.both(&self.rates)
    }

    /// Where the section of this name begins.
    pub fn place(&self, name: &[u8]) -> Option<Place>
        ensures { result ≡ place_of self.now name.now }
    {
        self.sections.named(name)
    }

    /// The number of the section of this name, from 1.
    pub fn section(&self, name: &[u8]) -> Option<usize>
        ensures { result ≡ section_of self.now name.now }
    {
        self.sections.named(name).map(|place| place.section)
    }

    /// The objects that hold a value, by rising index and sub: of the indexes that the lists name, each VAR and DOMAIN
    /// at sub 0, and those of the sub sections of each ARRAY and RECORD.
    pub fn objects(&self) -> &[Object]
        ensures { result.now ≡ objects_of self.now }
    {
        &self.objects
    }

    /// The section of the object at this index and sub.
    pub fn object(&self, index: u16, sub: u8) -> Option<usize>
        ensures { result ≡ object_section self.now index sub }
    {
        object_in(&self.objects, index, sub)
    }

    /// The number of the line of a key in a section, from 1.
    pub fn key_line(&self, section: usize, key: &[u8]) -> Option<usize>
        ensures { result ≡ key_line self.now section key.now }
    {
        self.sections.key_line(section, key)
    }

    /// The line and the value of a key in a section, where the value is not empty.
    pub fn entry(&self, section: usize, key: &[u8]) -> Option<(usize, &'a [u8])>
        ensures { option_map (λ p. (p.0, p.1.now)) result ≡ entry_of self.now section key.now }
    {
        self.sections.entry(section, key)
    }

    /// The same, in the section that begins at this place; the lines so many after its first one are looked at first.
    pub fn entry_at(&self, place: Place, after: [usize; 2], key: &[u8]) -> Option<(usize, &'a [u8])>
        requires { is_plain key.now ≡ true }
        ensures { option_map (λ p. (p.0, p.1.now)) result ≡ entry_of self.now place.section key.now }
    {
        self.sections.entry_at(place, after, key)
    }

    /// The value of a key in a section, where it is not empty: a slice of the source.
    pub fn value(&self, section: usize, key: &[u8]) -> Option<&'a [u8]>
        ensures { option_copied result ≡ value_in self.now section key.now }
    {
        let (_, value) = self.sections.entry(section, key)?;
        Some(value)
    }

    /// The line of a key in a section, and the amount that its value is; the rule that the value breaks, 13 or 14,
    /// at that line; `None` where there is no value.
    pub fn amount(&self, section: usize, key: &[u8]) -> Result<Option<(usize, Amount)>, Refusal>
        ensures { result ≡ amount_at (entry_of self.now section key.now) }
    {
        let Some((line, value)) = self.sections.entry(section, key) else {
            return Ok(None);
        };
        match amount_of(value) {
            Ok(amount) => Ok(Some((line, amount))),
            Err(rule) => Err(Refusal { rule, line }),
        }
    }
}
