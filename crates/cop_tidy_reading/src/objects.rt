//! What the objects of a device are: their kinds, types, accesses and values.

ghost use Rattle.std.specs.Prelude.{◌≡◌, ◌==◌, ◌&&◌, ◌||◌, not, is_some, if◌then◌else◌, None, Some, IfOk, map, unwrap_or};
ghost use Rattle.std.specs.Option.{option_and_then};
ghost use Rattle.cop_eds.specs.declared.description.Access.TheVariants.{ReadOnly};
ghost use Rattle.cop_dict.specs.Pdo.{is_mapping};
ghost use Rattle.cop_tidy_reading.specs.Sections.{entry_of, has_subs_from};
ghost use Rattle.cop_tidy_reading.specs.Pdos.{implies};
ghost use Rattle.cop_tidy_reading.specs.SeenValues.{source_seen, seen};
ghost use Rattle.cop_tidy_reading.specs.Stated.{mappable_at};
ghost use Rattle.cop_tidy_reading.specs.Questions.{both};
ghost use Rattle.cop_tidy_reading.specs.Objects.{is_array, is_var, is_domain, stated_or, lacks_value, is_record_by_subs, stated_kind, kind_by, kind_in, compact_by, count_in, or_0, can_be, main_by, main_in, main_at, wanted, is_count, is_of_array, default_type, default_access, type_of, access_of, typed_value_in, described_by, object_in, own_object, value_at, sub_kind, check_keys};
ghost use Rattle.cop_tidy_reading.specs.Standard.{forced_type, is_pdo};

use crate::combining::{both, first_asked, or_asked};
use crate::contents::{Contents, Section};
use crate::pdos::CompactPdo;
use crate::question::{About, Question, asked};
use crate::standard;
use crate::stated::Reader;
use crate::values::{Source, limits_in, value_in};
use crate::words::Words;
use cop_dict::DataType;
use cop_eds::{Access, ObjectType};
use cop_tidy_device::{DeviceObject, Value};
use cop_tidy_lines::Key;
use std::alloc::{AllocError, Global};
use std::collections::BTreeSet;

/// A text, what its lists name, and what CompactPDO says.
#[derive(Clone, Copy)]
pub struct Whole<'c, 'a> {
    pub contents: &'c Contents<'a>,
    pub words: &'c Words,
    pub listed: &'c BTreeSet<u64>,
    pub pdos: CompactPdo,
}

/// The own section of an object, or none where CompactPDO alone tells of it, and what its keys say of all its subs.
#[derive(Clone, Copy, Debug)]
pub struct Main {
    pub index: u64,
    pub section: Option<Section>,
    pub object_type: ObjectType,
    /// How many subs the compact form has; 0 where there is none.
    pub compact: u64,
    /// The data type and the access that it states, or that CiA 301 says of the subs.
    pub data_type: Option<u64>,
    pub access: Option<Access>,
}

/// A section that holds a value, as its object has it.
#[derive(Clone, Copy, Debug)]
pub struct Place {
    pub main: Main,
    /// None for the own section of the object.
    pub sub: Option<u64>,
    pub section: Section,
    pub object_type: ObjectType,
}

/// What is wanted of a key, or of what stands for it where it is absent; else a question at the section's header.
fn wanted<T: Copy>(
    stated: Result<Option<T>, Question>,
    default: Option<T>,
    about: About,
    line: usize,
) -> Result<T, Question>
    ensures { result ≡ wanted default about line stated }
{
    match stated {
        Ok(Some(value)) => Ok(value),
        Ok(None) => or_asked(about, line, default),
        Err(question) => Err(question),
    }
}

/// What is stated, else what stands for it.
fn stated_or<T: Copy>(default: Option<T>, stated: Result<Option<T>, Question>) -> Option<T>
    ensures { result ≡ stated_or default stated }
{
    match stated {
        Ok(Some(value)) => Some(value),
        _ => default,
    }
}

fn is_array(kind: ObjectType) -> bool
    ensures { result ≡ is_array kind }
{
    matches!(kind, ObjectType::Array)
}

fn is_var(kind: ObjectType) -> bool
    ensures { result ≡ is_var kind }
{
    matches!(kind, ObjectType::Var)
}

fn is_domain(kind: ObjectType) -> bool
    ensures { result ≡ is_domain kind }
{
    matches!(kind, ObjectType::Domain)
}

impl Place {
    /// The sub, in the words of CiA 301: the own section of an object speaks of its subs.
    fn number(&self) -> u64
        ensures { result ≡ unwrap_or self.now.sub 1 }
    {
        self.sub.unwrap_or(1)
    }

    /// Whether this is the number of entries of an array or a record.
    fn is_count(&self) -> bool
        ensures { result ≡ is_count self.now.sub }
    {
        match self.sub {
            Some(sub) => sub == 0,
            None => false,
        }
    }

    /// Whether the subs of the object are like its own section.
    fn is_of_array(&self) -> bool
        ensures { result ≡ is_of_array self.now }
    {
        self.sub.is_some() && is_array(self.main.object_type)
    }

    /// The data type of a section that states none, where CiA 301 says nothing of it.
    fn type_beside(&self) -> Option<u64>
        ensures { result ≡ if is_count self.now.sub then Some 5 else if is_of_array self.now then self.now.main.data_type else None }
    {
        if self.is_count() {
            Some(5)
        } else if self.is_of_array() {
            self.main.data_type
        } else {
            None
        }
    }

    /// The data type of a section that states none.
    fn default_type(&self) -> Option<u64>
        ensures { result ≡ default_type self.now }
    {
        if is_domain(self.object_type) {
            return Some(15);
        }
        match standard::data_type(self.main.index, self.number()) {
            Some(number) => Some(number),
            None => self.type_beside(),
        }
    }

    /// The access of the array that the section is of.
    fn access_of_array(&self) -> Option<Access>
        ensures { result ≡ if is_of_array self.now then self.now.main.access else None }
    {
        if self.is_of_array() {
            self.main.access
        } else {
            None
        }
    }

    /// The access of a section of which nothing else says it.
    fn access_beside(&self, chosen: Option<Access>) -> Option<Access>
        ensures { result ≡ if is_count self.now.sub && not ((self.now.main.index == 0x1003) || is_mapping self.now.main.index) then Some ReadOnly else chosen }
    {
        let can_change = self.main.index == 0x1003 || standard::is_mapping(self.main.index);
        if self.is_count() && !can_change {
            Some(Access::ReadOnly)
        } else {
            chosen
        }
    }

    /// The access of a section that states none.
    fn default_access(&self, chosen: Option<Access>) -> Option<Access>
        ensures { result ≡ default_access chosen self.now }
    {
        if let Some(access) = standard::access(self.main.index, self.number()) {
            return Some(access);
        }
        match self.access_of_array() {
            Some(access) => Some(access),
            None => self.access_beside(chosen),
        }
    }

    /// The type that the object must have so that its PDO can be planned.
    fn forced_type(&self) -> Option<u64>
        ensures { result ≡ option_and_then (forced_type self.now.main.index) self.now.sub }
    {
        match self.sub {
            Some(sub) => standard::forced_type(self.main.index, sub),
            None => None,
        }
    }
}

/// A VAR where nothing is stated, or an array where there is a compact form.
fn stated_kind(compact: u64, stated: Result<Option<ObjectType>, Question>) -> ObjectType
    ensures { result ≡ stated_kind compact stated }
{
    match stated {
        Ok(Some(kind)) => kind,
        Ok(None) if compact != 0 => ObjectType::Array,
        _ => ObjectType::Var,
    }
}

/// How many subs the compact form has that is stated; what is no number is asked for.
fn compact_by(stated: Result<Option<u64>, Question>) -> Result<u64, Question>
    ensures { result ≡ compact_by stated }
{
    match stated {
        Ok(count) => Ok(count.unwrap_or(0)),
        Err(question) => Err(asked(About::Compact, question.line)),
    }
}

fn or_0(count: Result<u64, Question>) -> u64
    ensures { result ≡ or_0 count }
{
    match count {
        Ok(count) => count,
        Err(_) => 0,
    }
}

/// Whether an object of this kind may have a compact form of so many subs.
pub fn can_be(kind: ObjectType, compact: u64) -> bool
    ensures { result ≡ can_be kind compact }
{
    compact == 0 || (kind.holds_subs() && compact <= 254)
}

/// How many subs the compact form has, where it can be.
fn possible(kind: ObjectType, compact: u64) -> u64
    ensures { result ≡ if can_be kind compact then compact else 0 }
{
    if can_be(kind, compact) { compact } else { 0 }
}

impl<'c, 'a> Whole<'c, 'a> {
    pub fn reader(&self, section: Section) -> Reader<'c, 'a>
        ensures contents { result.contents.now ≡ (seen self.now).items }
        ensures section { result.section ≡ section }
        ensures digits { result.digits ≡ (seen self.now).words.digits }
    {
        Reader {
            contents: self.contents,
            section,
            digits: self.words.digits,
        }
    }

    /// The data type of a section that holds a value.
    fn type_of(&self, alloc: Global, place: &Place) -> Result<Result<u64, Question>, AllocError>
        ensures { IfOk result (λ read. read ≡ type_of (seen self.now) place.now) }
    {
        if let Some(number) = place.forced_type() {
            return Ok(Ok(number));
        }
        let stated = self.reader(place.section).data_type(alloc)?;
        let default = place.default_type();
        Ok(wanted(stated, default, About::Types, place.section.line))
    }

    /// The access of a section that holds a value.
    fn access_of(
        &self,
        alloc: Global,
        place: &Place,
    ) -> Result<Result<Access, Question>, AllocError>
        ensures { IfOk result (λ read. read ≡ access_of (seen self.now) place.now) }
    {
        let stated = self.reader(place.section).access(alloc)?;
        let default = place.default_access(self.words.access);
        Ok(wanted(stated, default, About::Accesses, place.section.line))
    }

    /// The data type of a section that holds a value, and the value, which may stand in one of these sources.
    fn typed_value(
        &self,
        alloc: Global,
        place: &Place,
        sources: &[Source],
    ) -> Result<Result<(u64, Value), Question>, AllocError>
        ensures { IfOk result (λ read. read ≡ typed_value_in (seen self.now) place.now (map source_seen sources.now)) }
    {
        let number = match self.type_of(alloc, place)? {
            Ok(number) => number,
            Err(question) => return Ok(Err(question)),
        };
        let data_type = DataType::numbered(number);
        let is_needed = standard::is_needed(place.main.index);
        let reader = self.reader(place.section);
        match value_in(alloc, reader, data_type, is_needed, sources)? {
            Ok(value) => Ok(Ok((number, value))),
            Err(question) => Ok(Err(question)),
        }
    }

    /// The object of a section that holds this value of this type, at this sub.
    fn described_by(
        &self,
        alloc: Global,
        place: &Place,
        sub: u64,
        typed: (u64, Value),
        said: (Access, bool),
    ) -> Result<DeviceObject, AllocError>
        ensures { IfOk result (λ object. object ≡ described_by (seen self.now) place.now sub typed said) }
    {
        let (number, value) = typed;
        let data_type = DataType::numbered(number);
        let (low, high) = limits_in(alloc, self.reader(place.section), data_type)?;
        Ok(DeviceObject {
            index: place.main.index,
            sub,
            data_type,
            access: said.0,
            is_mappable: said.1,
            low,
            high,
            value,
        })
    }

    /// The access and the flag of a section that holds a value.
    fn said_of(
        &self,
        alloc: Global,
        place: &Place,
    ) -> Result<Result<(Access, bool), Question>, AllocError>
        ensures { IfOk result (λ read. read ≡ both (access_of (seen self.now) place.now) (mappable_at (seen self.now).words.digits (seen self.now).items place.now.section.number)) }
    {
        let access = self.access_of(alloc, place)?;
        let is_mappable = self.reader(place.section).is_mappable(alloc)?;
        Ok(both(access, is_mappable))
    }

    /// The object of a section that holds a value, at this sub, where its value may stand in these sources.
    #[tactic(auto, unfolding(crate::specs::Objects::object_in, crate::specs::Questions::both))]
    pub fn object_in(
        &self,
        alloc: Global,
        place: &Place,
        sub: u64,
        sources: &[Source],
    ) -> Result<Result<Option<DeviceObject>, Question>, AllocError>
        ensures { IfOk result (λ read. read ≡ object_in (seen self.now) place.now sub (map source_seen sources.now)) }
    {
        let said = self.said_of(alloc, place)?;
        match self.typed_value(alloc, place, sources)? {
            Ok(typed) => match said {
                Ok(said) => {
                    let object = self.described_by(alloc, place, sub, typed, said)?;
                    Ok(Ok(Some(object)))
                }
                Err(question) => Ok(Err(question)),
            },
            Err(question) => Ok(Err(first_asked(question, said))),
        }
    }

    /// The object of a section with a value of its own.
    fn own_object(
        &self,
        alloc: Global,
        place: &Place,
    ) -> Result<Result<Option<DeviceObject>, Question>, AllocError>
        ensures { IfOk result (λ read. read ≡ own_object (seen self.now) place.now) }
    {
        let section = place.section;
        let sources = [
            Source {
                section,
                key: Key::ParameterValue,
            },
            Source {
                section,
                key: Key::DefaultValue,
            },
        ];
        self.object_in(alloc, place, place.sub.unwrap_or(0), &sources)
    }

    /// The object of a section, where that holds a value.
    pub fn value_at(
        &self,
        alloc: Global,
        place: &Place,
    ) -> Result<Result<Option<DeviceObject>, Question>, AllocError>
        ensures { IfOk result (λ read. read ≡ value_at (seen self.now) place.now) }
    {
        if place.object_type.holds_value() {
            self.own_object(alloc, place)
        } else {
            Ok(Ok(None))
        }
    }

    /// What the keys of a section state that has no reading.
    pub fn check_keys(
        &self,
        alloc: Global,
        section: Section,
    ) -> Result<Result<(), Question>, AllocError>
        ensures { IfOk result (λ read. read ≡ check_keys (seen self.now) section.number) }
    {
        let reader = self.reader(section);
        let types = both(reader.object_type(alloc)?, reader.data_type(alloc)?);
        let words = both(reader.access(alloc)?, reader.is_mappable(alloc)?);
        match both(types, words) {
            Ok(_) => Ok(Ok(())),
            Err(question) => Ok(Err(question)),
        }
    }

    /// Whether a section states a key.
    fn has_entry(&self, alloc: Global, section: Section, key: Key) -> Result<bool, AllocError>
        ensures { IfOk result (λ has. has ≡ is_some (entry_of (seen self.now).items section.number key)) }
    {
        Ok(self.contents.entry(alloc, section, key)?.is_some())
    }

    /// Whether a section lacks the data type or the access of a value.
    fn lacks_value(&self, alloc: Global, section: Section) -> Result<bool, AllocError>
        ensures { IfOk result (λ lacks. lacks ≡ lacks_value (seen self.now) section.number) }
    {
        let has_type = self.has_entry(alloc, section, Key::DataType)?;
        let has_access = self.has_entry(alloc, section, Key::AccessType)?;
        Ok(!(has_type && has_access))
    }

    /// Whether an object is a record of a PDO that has subs.
    fn is_pdo_record(&self, index: u64) -> bool
        ensures { result ≡ is_pdo index && (implies (seen self.now).pdos (seen self.now).listed index || has_subs_from (seen self.now).items index 0) }
    {
        standard::is_pdo(index)
            && (self.pdos.implies(self.listed, index) || self.contents.has_subs_from(index, 0))
    }

    /// Whether an object with its own section is a record by its subs, whatever it states.
    fn is_record_by_subs(
        &self,
        alloc: Global,
        index: u64,
        section: Section,
        kind: ObjectType,
    ) -> Result<bool, AllocError>
        ensures { IfOk result (λ is. is ≡ is_record_by_subs (seen self.now) index section.number kind) }
    {
        if self.is_pdo_record(index) {
            return Ok(!kind.holds_subs());
        }
        let lacks_value = self.lacks_value(alloc, section)?;
        Ok(is_var(kind) && (self.contents.has_subs_from(index, 1) && lacks_value))
    }

    /// The kind of the object with an own section that states this one.
    fn kind_by(
        &self,
        alloc: Global,
        index: u64,
        section: Section,
        kind: ObjectType,
    ) -> Result<ObjectType, AllocError>
        ensures { IfOk result (λ found. found ≡ kind_by (seen self.now) index section.number kind) }
    {
        if self.is_record_by_subs(alloc, index, section, kind)? {
            Ok(ObjectType::Record)
        } else {
            Ok(kind)
        }
    }

    /// How many subs the compact form of an object has; what is no number is asked for.
    pub fn count_in(
        &self,
        alloc: Global,
        section: Section,
    ) -> Result<Result<u64, Question>, AllocError>
        ensures { IfOk result (λ read. read ≡ count_in (seen self.now) section.number) }
    {
        let stated = self.reader(section).number(alloc, Key::CompactSubObj)?;
        Ok(compact_by(stated))
    }

    /// The kind of the object with an own section.
    fn kind_in(&self, alloc: Global, index: u64, section: Section) -> Result<ObjectType, AllocError>
        ensures { IfOk result (λ kind. kind ≡ kind_in (seen self.now) index section.number) }
    {
        let compact = or_0(self.count_in(alloc, section)?);
        let stated = self.reader(section).object_type(alloc)?;
        self.kind_by(alloc, index, section, stated_kind(compact, stated))
    }

    /// The object at an index by its own section.
    fn main_in(&self, alloc: Global, index: u64, section: Section) -> Result<Main, AllocError>
        ensures { IfOk result (λ main. main ≡ main_in (seen self.now) index (Some section)) }
    {
        let object_type = self.kind_in(alloc, index, section)?;
        let count = or_0(self.count_in(alloc, section)?);
        let data_type = self.reader(section).data_type(alloc)?;
        let access = self.reader(section).access(alloc)?;
        Ok(Main {
            index,
            section: Some(section),
            object_type,
            compact: possible(object_type, count),
            data_type: stated_or(standard::data_type(index, 1), data_type),
            access: stated_or(standard::access(index, 1), access),
        })
    }

    /// The object at an index that the lists or CompactPDO name.
    #[tactic(auto, unfolding(crate::specs::Objects::main_at))]
    pub fn main_at(&self, alloc: Global, index: u64) -> Result<Main, AllocError>
        ensures { IfOk result (λ main. main ≡ main_at (seen self.now) index) }
    {
        match self.contents.own(index) {
            Some(section) => self.main_in(alloc, index, section),
            None => Ok(Main {
                index,
                section: None,
                object_type: ObjectType::Record,
                compact: 0,
                data_type: None,
                access: None,
            }),
        }
    }

    /// The kind of the object in the section of a sub: those of PDOs hold one value each.
    pub fn sub_kind(
        &self,
        alloc: Global,
        index: u64,
        section: Section,
    ) -> Result<ObjectType, AllocError>
        ensures { IfOk result (λ kind. kind ≡ sub_kind (seen self.now) index section) }
    {
        if standard::is_pdo(index) {
            return Ok(ObjectType::Var);
        }
        let stated = self.reader(section).object_type(alloc)?;
        Ok(stated_or(None, stated).unwrap_or(ObjectType::Var))
    }
}
