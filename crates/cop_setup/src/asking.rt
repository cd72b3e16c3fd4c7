//! What a row of a table of settings asks of a device.

ghost use Rattle.std.specs.Prelude.{◌≡◌, ◌≤◌, IfSome};
ghost use Rattle.cop_dict.specs.Dict.{HasWidth, written};
ghost use Rattle.cop_setup.specs.Settings.{bytes_of};
ghost use Rattle.cop_setup.specs.Asking.{number_width, pattern_in, with_width, is_so, by_write, asked_of, Asks};

use crate::setting::{Setting, Width};
use cop_dict::{Abort, Access, DataType, Dictionary, Object, pattern_of};
use cop_eds::Amount;

/// Why a device has not the value that is asked of it.
#[derive(Clone, Copy, PartialEq, Eq, Debug)]
pub enum AskFault {
    /// There is no such object.
    NoObject,
    /// The object's type has no numbers of 1, 2 or 4 bytes.
    NoNumbers,
    /// The object's type has not this number.
    NoSuchNumber,
    /// The device aborts the write, or would abort what reads it back.
    Aborted(Abort),
}

/// How wide the numbers of a type are.
fn number_width(data_type: DataType) -> Option<Width>
    ensures { result ≡ number_width data_type }
{
    match data_type {
        DataType::Boolean | DataType::Integer8 | DataType::Unsigned8 => Some(Width::One),
        DataType::Integer16 | DataType::Unsigned16 => Some(Width::Two),
        DataType::Integer32 | DataType::Unsigned32 => Some(Width::Four),
        DataType::Integer64
        | DataType::Unsigned64
        | DataType::Real32
        | DataType::Real64
        | DataType::VisibleString
        | DataType::OctetString
        | DataType::Domain
        | DataType::Opaque => None,
    }
}

/// The pattern of an amount, where the type has it.
fn pattern_in(node: u8, amount: Amount, data_type: DataType) -> Option<u64>
    ensures { result ≡ pattern_in node amount data_type }
{
    pattern_of(data_type, data_type.greatest()?, node, amount)
}

/// The setting that an amount asks of an object, where its type has numbers of 1, 2 or 4 bytes.
fn setting_of(
    node: u8,
    index: u16,
    sub: u8,
    amount: Amount,
    data_type: DataType,
) -> Result<Setting, AskFault>
    ensures { result ≡ with_width index sub (pattern_in node amount data_type) (number_width data_type) }
{
    let Some(width) = number_width(data_type) else {
        return Err(AskFault::NoNumbers);
    };
    match pattern_in(node, amount, data_type) {
        Some(pattern) => Ok(Setting {
            index,
            sub,
            value: pattern as u32,
            width,
        }),
        None => Err(AskFault::NoSuchNumber),
    }
}

/// Whether nobody can write an entry, and it has the value of a setting.
fn is_so(entry: &Object, setting: &Setting) -> bool
    ensures { result ≡ is_so entry.now setting.now }
{
    let bytes = setting.value.to_le_bytes();
    matches!(
        entry.description().access,
        Access::ReadOnly | Access::Constant
    ) && entry.value() == &bytes[..usize::from(setting.width.bytes())]
}

/// Writes a setting to an object of its width, as SDO does.
fn write(dict: &mut Dictionary, setting: Setting) -> Result<Option<Setting>, AskFault>
    requires { HasWidth dict.old setting.index setting.sub }
    ensures { Asks result dict.old dict.new (by_write setting (written dict.old setting.index setting.sub (bytes_of setting))) }
{
    let bytes = setting.value.to_le_bytes();
    let bytes = &bytes[..usize::from(setting.width.bytes())];
    match dict.write(setting.index, setting.sub, bytes) {
        Ok(()) => Ok(Some(setting)),
        Err(abort) => Err(AskFault::Aborted(abort)),
    }
}

/// Writes the value that is asked of an object to a dictionary, as SDO does, and gives its setting: none for a value that nobody can
/// write and that is there already. What nobody can read back is not set. It takes no memory.
pub fn ask(
    dict: &mut Dictionary,
    node: u8,
    index: u16,
    sub: u8,
    amount: Amount,
) -> Result<Option<Setting>, AskFault>
    ensures { Asks result dict.old dict.new (asked_of dict.old node index sub amount) }
{
    let Some(entry) = dict.entry(index, sub) else {
        return Err(AskFault::NoObject);
    };
    let setting = setting_of(node, index, sub, amount, entry.description().data_type)?;
    if is_so(entry, &setting) {
        return Ok(None);
    }
    if matches!(entry.description().access, Access::WriteOnly) {
        return Err(AskFault::Aborted(Abort::WriteOnly));
    }
    write(dict, setting)
}
