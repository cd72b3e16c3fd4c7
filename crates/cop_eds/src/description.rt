//! What the keys of an object's section say.

ghost use Rattle.std.specs.Prelude.{◌≡◌, true};
ghost use Rattle.std.specs.Option.{option_map};
ghost use Rattle.cop_eds.specs.Access.{access_of};
ghost use Rattle.cop_eds.specs.Sections.{entry_of};
ghost use Rattle.cop_eds.specs.Steps.{number_at, number_or};
ghost use Rattle.cop_eds.specs.Description.{object_type_of, holds_value, holds_subs, default_type, read_type, no_compact_form, read_data_type, read_access, described};

use crate::fault::{Refusal, Rule};
use crate::line::Place;
use crate::number::number_of;
use crate::sections::Sections;
use crate::text::same_name;

/// What an object is (CiA 301).
#[derive(Clone, Copy, Debug, PartialEq, Eq)]
pub enum ObjectType {
    Null,
    Domain,
    TypeDefinition,
    StructDefinition,
    Var,
    Array,
    Record,
}

/// How an object may be read and written (CiA 306).
#[derive(Clone, Copy, Debug, PartialEq, Eq)]
pub enum Access {
    /// `ro`
    ReadOnly,
    /// `wo`
    WriteOnly,
    /// `rw`
    ReadWrite,
    /// `rwr`: read and written, mapped into a PDO that is sent
    ReadWriteInput,
    /// `rww`: read and written, mapped into a PDO that is received
    ReadWriteOutput,
    /// `const`
    Constant,
}

/// What the keys of an object's section say.
#[derive(Clone, Copy, Debug, PartialEq, Eq)]
pub struct Description {
    pub object_type: ObjectType,
    pub data_type: u64,
    pub access: Option<Access>,
    pub is_mappable: bool,
}

/// An object that holds a value, where its section begins, and what its keys say.
#[derive(Clone, Copy, Debug, PartialEq, Eq)]
pub struct Object {
    pub index: u64,
    pub sub: u64,
    pub place: Place,
    pub data_type: u64,
    pub access: Access,
    pub is_mappable: bool,
}

fn object_type_of(number: u64) -> Option<ObjectType>
    ensures { result ≡ object_type_of number }
{
    match number {
        0 => Some(ObjectType::Null),
        2 => Some(ObjectType::Domain),
        5 => Some(ObjectType::TypeDefinition),
        6 => Some(ObjectType::StructDefinition),
        7 => Some(ObjectType::Var),
        8 => Some(ObjectType::Array),
        9 => Some(ObjectType::Record),
        _ => None,
    }
}

impl ObjectType {
    /// Whether such an object holds one value.
    pub fn holds_value(self) -> bool
        ensures { result ≡ holds_value self }
    {
        matches!(self, ObjectType::Domain | ObjectType::Var)
    }

    /// Whether such an object holds sub objects.
    pub fn holds_subs(self) -> bool
        ensures { result ≡ holds_subs self }
    {
        matches!(self, ObjectType::Array | ObjectType::Record)
    }
}

fn access_of(word: &[u8]) -> Option<Access>
    ensures { result ≡ access_of word.now }
{
    if same_name(word, b"ro") {
        Some(Access::ReadOnly)
    } else if same_name(word, b"wo") {
        Some(Access::WriteOnly)
    } else if same_name(word, b"rw") {
        Some(Access::ReadWrite)
    } else if same_name(word, b"rwr") {
        Some(Access::ReadWriteInput)
    } else if same_name(word, b"rww") {
        Some(Access::ReadWriteOutput)
    } else if same_name(word, b"const") {
        Some(Access::Constant)
    } else {
        None
    }
}

/// The number of a value, which stands at this line.
pub fn number_at(line: usize, value: &[u8]) -> Result<u64, Refusal>
    ensures { result ≡ number_at (line, value.now) }
{
    match number_of(value) {
        Ok(number) => Ok(number),
        Err(rule) => Err(Refusal { rule, line }),
    }
}

/// The number of an entry, or the default where there is none.
pub fn number_or(default: u64, entry: Option<(usize, &[u8])>) -> Result<u64, Refusal>
    ensures { result ≡ number_or default (option_map (λ e. (e.0, e.1.now)) entry.entry) }
{
    match entry {
        Some((line, value)) => number_at(line, value),
        None => Ok(default),
    }
}

#[tactic(auto, unfolding(crate::specs::Description::read_type))]
fn read_type(entry: Option<(usize, &[u8])>) -> Result<ObjectType, Refusal>
    ensures { result ≡ read_type (option_map (λ e. (e.0, e.1.now)) entry.entry) }
{
    let Some((line, value)) = entry else {
        return Ok(ObjectType::Var);
    };
    object_type_of(number_at(line, value)?).ok_or(Refusal {
        rule: Rule::UnknownType,
        line,
    })
}

#[tactic(auto, unfolding(crate::specs::Description::no_compact_form))]
fn no_compact_form(entry: Option<(usize, &[u8])>) -> Result<(), Refusal>
    ensures { result ≡ no_compact_form (option_map (λ e. (e.0, e.1.now)) entry.entry) }
{
    let Some((line, value)) = entry else {
        return Ok(());
    };
    if number_at(line, value)? == 0 {
        Ok(())
    } else {
        Err(Refusal {
            rule: Rule::CompactForm,
            line,
        })
    }
}

fn default_type(line: usize, object_type: ObjectType) -> Result<u64, Refusal>
    ensures { result ≡ default_type line object_type }
{
    match object_type {
        ObjectType::Domain => Ok(15),
        ObjectType::Var => Err(Refusal {
            rule: Rule::UnknownType,
            line,
        }),
        _ => Ok(0),
    }
}

fn read_data_type(
    line: usize,
    object_type: ObjectType,
    entry: Option<(usize, &[u8])>,
) -> Result<u64, Refusal>
    ensures { result ≡ read_data_type line object_type (option_map (λ e. (e.0, e.1.now)) entry.entry) }
{
    match entry {
        Some((line, value)) => number_at(line, value),
        None => default_type(line, object_type),
    }
}

fn read_access(
    line: usize,
    object_type: ObjectType,
    entry: Option<(usize, &[u8])>,
) -> Result<Option<Access>, Refusal>
    ensures { result ≡ read_access line object_type (option_map (λ e. (e.0, e.1.now)) entry.entry) }
{
    let (line, access) = match entry {
        Some((line, word)) => (line, access_of(word)),
        None => (line, None),
    };
    if access.is_none() && object_type.holds_value() {
        return Err(Refusal {
            rule: Rule::UnknownType,
            line,
        });
    }
    Ok(access)
}

/// What the section that begins at this place says of its object. Most sections have their keys in the order
/// ParameterName, ObjectType, DataType, AccessType, LowLimit, HighLimit, DefaultValue, PDOMapping, with or without limits,
/// or with these before AccessType.
#[tactic(auto, unfolding(crate::specs::Description::described))]
pub fn described(text: &Sections<'_>, place: Place) -> Result<Description, Refusal>
    ensures { result ≡ described text.now place }
{
    let section = place.section;
    let object_type = read_type(text.entry_at(place, [1, 2], b"ObjectType"))?;
    no_compact_form(text.entry(section, b"CompactSubObj"))?;
    let data_type = text.entry_at(place, [2, 3], b"DataType");
    let data_type = read_data_type(place.line, object_type, data_type)?;
    let access = read_access(
        place.line,
        object_type,
        text.entry_at(place, [3, 5], b"AccessType"),
    )?;
    number_or(0, text.entry(section, b"SubNumber"))?;
    let mapping = number_or(0, text.entry_at(place, [5, 7], b"PDOMapping"))?;
    Ok(Description {
        object_type,
        data_type,
        access,
        is_mappable: mapping != 0,
    })
}
