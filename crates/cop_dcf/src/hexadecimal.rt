//! Values in hexadecimal digits.

ghost use Rattle.std.specs.Prelude.{◌≡◌, ◌<◌, ◌++◌, reverse, IfOk, OnOk};
ghost use Rattle.std.specs.List.{flat_map};
ghost use Rattle.std.specs.Int.{bytes_low_first};
ghost use Rattle.cop_dcf.specs.Dcf.{digit, digits_of, hexadecimal};
ghost use Rattle.cop_setup.specs.Settings.{bytes_of};

use cop_setup::Setting;
use std::alloc::{AllocError, Global};

/// A hexadecimal digit in upper case.
fn digit(n: u8) -> u8
    requires { n < 16 }
    ensures { result ≡ digit n }
{
    if n < 10 { b'0' + n } else { b'A' - 10 + n }
}

/// Adds the digits of so many bytes of a number, the most significant first.
fn put_digits(text: &mut Vec<u8>, number: u32, bytes: u8) -> Result<(), AllocError>
    ensures { OnOk result (text.new.items ≡ text.old.items ++ flat_map digits_of (reverse (bytes_low_first 0 bytes number))) }
{
    if bytes == 0 {
        return Ok(());
    }
    put_digits(text, number / 256, bytes - 1)?;
    let byte = (number % 256) as u8;
    text.push(digit(byte / 16))?;
    text.push(digit(byte % 16))?;
    Ok(())
}

/// A setting's value as a hexadecimal number, two digits for each byte.
pub fn hexadecimal(alloc: Global, setting: Setting) -> Result<Vec<u8>, AllocError>
    ensures { IfOk result (λ v. v.items ≡ hexadecimal (bytes_of setting)) }
{
    let mut text = Vec::from_slice(alloc, b"0x")?;
    put_digits(&mut text, setting.value, setting.width.bytes())?;
    Ok(text)
}
