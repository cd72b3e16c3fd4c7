//! Whether a device takes settings.

ghost use Rattle.std.specs.Prelude.{◌≡◌};
ghost use Rattle.cop_setup.specs.Settings.{has_numbers};
ghost use Rattle.cop_setup.specs.Trying.{is_unlike, Tries, TriesAll};

use crate::setting::{Setting, Width};
use cop_dict::{Abort, DataType, Dictionary};

/// Why a device does not take a setting.
#[derive(Clone, Copy, PartialEq, Eq, Debug)]
pub enum Trouble {
    /// The object is there, and its values are no numbers of the setting's width.
    Unlike,
    /// The device aborts the write.
    Aborted(Abort),
}

/// The first of some settings that a device does not take.
#[derive(Clone, Copy, PartialEq, Eq, Debug)]
pub struct Untaken {
    /// How many settings stand before it.
    pub place: usize,
    pub trouble: Trouble,
}

/// Whether values of a type are numbers of a width.
fn has_numbers(data_type: DataType, width: Width) -> bool
    ensures { result ≡ has_numbers data_type width }
{
    match data_type {
        DataType::Boolean | DataType::Integer8 | DataType::Unsigned8 => {
            matches!(width, Width::One)
        }
        DataType::Integer16 | DataType::Unsigned16 => matches!(width, Width::Two),
        DataType::Integer32 | DataType::Unsigned32 => matches!(width, Width::Four),
        DataType::Integer64
        | DataType::Unsigned64
        | DataType::Real32
        | DataType::Real64
        | DataType::VisibleString
        | DataType::OctetString
        | DataType::Domain
        | DataType::Opaque => false,
    }
}

/// Whether the object of a setting is there, and has no numbers of its width.
fn is_unlike(dict: &Dictionary, setting: &Setting) -> bool
    ensures { result ≡ is_unlike dict.now setting.now }
{
    match dict.entry(setting.index, setting.sub) {
        Some(entry) => !has_numbers(entry.description().data_type, setting.width),
        None => false,
    }
}

/// Writes a setting to a dictionary, as SDO does.
fn try_one(dict: &mut Dictionary, setting: &Setting) -> Result<(), Trouble>
    ensures { Tries result dict.old dict.new setting.now }
{
    if is_unlike(dict, setting) {
        return Err(Trouble::Unlike);
    }
    let all = setting.value.to_le_bytes();
    let bytes = &all[..usize::from(setting.width.bytes())];
    match dict.write(setting.index, setting.sub, bytes) {
        Ok(()) => Ok(()),
        Err(abort) => Err(Trouble::Aborted(abort)),
    }
}

/// Writes settings to a dictionary in their order, as SDO does, up to the first that is not taken. It takes no memory.
pub fn try_all(dict: &mut Dictionary, settings: &[Setting]) -> Result<(), Untaken>
    ensures { TriesAll result dict.old dict.new settings.now }
{
    for (place, setting) in settings.iter().enumerate() {
        match try_one(dict, setting) {
            Ok(()) => {}
            Err(trouble) => return Err(Untaken { place, trouble }),
        }
    }
    Ok(())
}
