//! Settings as the bytes of a concise DCF.

ghost use Rattle.std.specs.Prelude.{◌≡◌, ◌++◌, IfOk, OnOk};
ghost use Rattle.cop_cdcf.specs.Concise.{number_bytes, entry_of, concise_of};

use cop_setup::Setting;
use std::alloc::{AllocError, Global};

/// How many bytes a setting takes at most.
const BYTES_OF_SETTING: usize = 11;

/// Adds a number in so many bytes, the least significant first.
fn put_number(bytes: &mut Vec<u8>, number: u64, count: u8) -> Result<(), AllocError>
    ensures { OnOk result (bytes.new.items ≡ bytes.old.items ++ number_bytes count number) }
{
    if count == 0 {
        return Ok(());
    }
    bytes.push((number % 256) as u8)?;
    put_number(bytes, number / 256, count - 1)?;
    Ok(())
}

/// Adds a setting: its index, its sub, how many bytes its value has, and these.
fn put_setting(bytes: &mut Vec<u8>, setting: &Setting) -> Result<(), AllocError>
    ensures { OnOk result (bytes.new.items ≡ bytes.old.items ++ entry_of setting.now) }
{
    put_number(bytes, u64::from(setting.index), 2)?;
    put_number(bytes, u64::from(setting.sub), 1)?;
    put_number(bytes, u64::from(setting.width.bytes()), 4)?;
    put_number(bytes, u64::from(setting.value), setting.width.bytes())?;
    Ok(())
}

/// The concise form of settings: how many there are, and then each in their order (CiA 302-3, object 1F22h). All numbers
/// have their least significant byte first. `Err` is want of memory.
pub fn concise(alloc: Global, settings: &[Setting]) -> Result<Vec<u8>, AllocError>
    ensures { IfOk result (λ bytes. bytes.items ≡ concise_of settings.now) }
{
    let room = settings.len().saturating_mul(BYTES_OF_SETTING);
    let mut bytes = Vec::with_capacity(alloc, room.saturating_add(4))?;
    put_number(&mut bytes, settings.len() as u64, 4)?;
    for setting in settings {
        put_setting(&mut bytes, setting)?;
    }
    Ok(bytes)
}
