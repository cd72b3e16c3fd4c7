//! The bytes of an input.

ghost use Rattle.std.specs.Prelude.{IfOk};
ghost use Rattle.cop_engine.specs.Inputs.{IsInput};

use std::alloc::Global;
use std::io::{self, Read};

/// The greatest size of an input: 64 MiB.
const GREATEST: u64 = 64 * 1024 * 1024;

/// All bytes of a reader of at most 64 MiB, of which so many are expected. One that has more than 64 MiB is too large.
pub fn read_all<R: Read + Drop>(alloc: Global, reader: R, expected: u64) -> io::Result<Vec<u8>>
    ensures { IfOk result (λ bytes. IsInput (R.remaining reader) bytes.items) }
{
    // One byte more has room, so that the end is met without growing.
    let mut bytes = Vec::with_capacity(alloc, expected.min(GREATEST) as usize + 1)?;
    reader.take(GREATEST + 1).read_to_end(&mut bytes)?;
    if bytes.len() as u64 > GREATEST {
        return Err(io::Error::from(io::ErrorKind::FileTooLarge));
    }
    Ok(bytes)
}
