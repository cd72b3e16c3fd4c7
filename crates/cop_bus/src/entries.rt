//! The records of a trace file, one by one.

ghost use Rattle.std.specs.Prelude.{◌≡◌};
ghost use Rattle.cop_bus.specs.Entries.{number_in, id_number, id_in, bits_in, are_empty, content_in, queued, unqueued, entry_in};

use crate::steps::{Content, Step};
use cop_table::{Record, id, is_hexadecimal, number};

/// What a record says.
#[derive(Clone, Copy)]
pub enum Entry {
    /// A step is taken.
    Taken(Step),
    /// The trace ends at the moment.
    Until(u64),
}

/// Why a record says nothing.
#[derive(Clone, Copy)]
pub enum EntryFault {
    /// It has another number of fields, or a field is another one than may stand there.
    Malformed,
}

fn number_in(field: &[u8]) -> Result<u64, EntryFault>
    ensures { result ≡ number_in field.now }
{
    number(20, field).ok_or(EntryFault::Malformed)
}

// Decimal digits, or 0x and hexadecimal digits.
fn id_number(field: &[u8]) -> Result<u64, EntryFault>
    ensures { result ≡ id_number field.now }
{
    if is_hexadecimal(field) {
        id(field).ok_or(EntryFault::Malformed)
    } else {
        number_in(field)
    }
}

// An identifier, which has 16 bits.
fn id_in(field: &[u8]) -> Result<u16, EntryFault>
    ensures { result ≡ id_in field.now }
{
    match u16::try_from(id_number(field)?) {
        Ok(id) => Ok(id),
        Err(_) => Err(EntryFault::Malformed),
    }
}

// A length, which has 32 bits.
fn bits_in(field: &[u8]) -> Result<u32, EntryFault>
    ensures { result ≡ bits_in field.now }
{
    match u32::try_from(number_in(field)?) {
        Ok(bits) => Ok(bits),
        Err(_) => Err(EntryFault::Malformed),
    }
}

/// What a frame of so many bits holds by the field of its data: at most 8 bytes, as pairs of hexadecimal digits.
pub fn content_in(bits: u32, field: &[u8]) -> Result<Content, EntryFault>
    ensures { result ≡ content_in bits field.now }
{
    if field.len() > 16 {
        return Err(EntryFault::Malformed);
    }
    let len = field.len() / 2;
    let mut body = [0; 8];
    match hex::decode_to_slice(field, &mut body[..len]) {
        Ok(()) => Ok(Content {
            bits,
            body,
            len: len as u8,
        }),
        Err(_) => Err(EntryFault::Malformed),
    }
}

// Whether the fields of a queue step's instance are empty.
fn are_empty(row: &Record) -> bool
    ensures { result ≡ are_empty row.now }
{
    row.field(3).is_empty() && row.field(4).is_empty() && row.field(5).is_empty()
}

fn queued(at: u64, id: u16, row: &Record) -> Result<Entry, EntryFault>
    ensures { result ≡ queued at id row.now }
{
    let event = number_in(row.field(3))?;
    let bits = bits_in(row.field(4))?;
    let frame = content_in(bits, row.field(5))?;
    Ok(Entry::Taken(Step::Queue {
        at,
        id,
        event,
        frame,
    }))
}

fn unqueued(kind: &[u8], at: u64, id: u16) -> Result<Entry, EntryFault>
    ensures { result ≡ unqueued kind.now at id }
{
    if kind == b"start".as_slice() {
        Ok(Entry::Taken(Step::Start { at, id }))
    } else if kind == b"end".as_slice() {
        Ok(Entry::Taken(Step::End { at, id }))
    } else if kind == b"until".as_slice() && id == 0 {
        Ok(Entry::Until(at))
    } else {
        Err(EntryFault::Malformed)
    }
}

#[tactic(auto, unfolding(crate::specs::Entries::entry_in))]
/// What a record says.
pub fn entry_in(row: &Record) -> Result<Entry, EntryFault>
    ensures { result ≡ entry_in row.now }
{
    if row.len() != 6 {
        return Err(EntryFault::Malformed);
    }
    let at = number_in(row.field(1))?;
    let id = id_in(row.field(2))?;
    if row.field(0) == b"queue".as_slice() {
        return queued(at, id, row);
    }
    if !are_empty(row) {
        return Err(EntryFault::Malformed);
    }
    unqueued(row.field(0), at, id)
}
