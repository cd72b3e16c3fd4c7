//! The signals of a PDO: where each mapped object lies in its bytes.

ghost use Rattle.std.specs.Prelude.{◌≡◌, ◌≤◌, ◌+◌, ◌++◌, IfOk, OnOk};
ghost use Rattle.cop_dict.specs.Mapping.{total_bits};
ghost use Rattle.cop_signals.specs.Signals.{kind_of, kind_at, signal_at, signals_from, signals_of};

use cop_dict::{DataType, Dictionary, Direction, Mapped};
use cop_pdo::Mapping;
use std::alloc::{AllocError, Global};

/// What number the bits of a signal are.
#[derive(Clone, Copy, PartialEq, Eq, Debug)]
pub enum Kind {
    /// A number from 0 on; of one bit for a BOOLEAN.
    Unsigned,
    /// A number in two's complement.
    Signed,
    /// A number as IEEE 754 has it, of 32 or 64 bits.
    Real,
}

/// A mapped object in the bytes of its PDO. The bits count from the lowest of the first byte on, and the lowest bit of the
/// object comes first.
#[derive(Clone, Copy, PartialEq, Eq, Debug)]
pub struct Signal {
    pub index: u16,
    pub sub: u8,
    /// The first bit.
    pub start: u8,
    pub bits: u8,
    pub kind: Kind,
}

/// What number the values of a data type are.
fn kind_of(data_type: DataType) -> Kind
    ensures { result ≡ kind_of data_type }
{
    match data_type {
        DataType::Integer8 | DataType::Integer16 | DataType::Integer32 | DataType::Integer64 =>
            Kind::Signed,
        DataType::Real32 | DataType::Real64 => Kind::Real,
        _ => Kind::Unsigned,
    }
}

/// What number the value of a mapped object is.
fn kind_at(dict: &Dictionary, mapped: Mapped) -> Kind
    ensures { result ≡ kind_at dict.now mapped }
{
    match dict.entry(mapped.index, mapped.sub) {
        Some(object) => kind_of(object.description().data_type),
        None => Kind::Unsigned,
    }
}

/// Adds the signal of a mapped object that begins at a bit; bits that go nowhere are none.
fn add_signal(
    signals: &mut Vec<Signal>,
    dict: &Dictionary,
    direction: Direction,
    mapped: Mapped,
    start: u8,
) -> Result<(), AllocError>
    ensures { OnOk result (signals.new.items ≡ signals.old.items ++ signal_at dict.now direction start mapped) }
{
    if !mapped.is_dummy(direction) {
        signals.push(Signal {
            index: mapped.index,
            sub: mapped.sub,
            start,
            bits: mapped.bits,
            kind: kind_at(dict, mapped),
        })?;
    }
    Ok(())
}

/// Adds the signals of entries that begin at a bit.
fn add_signals(
    signals: &mut Vec<Signal>,
    dict: &Dictionary,
    direction: Direction,
    entries: &[Mapped],
    start: u8,
) -> Result<(), AllocError>
    requires { start + total_bits entries.now ≤ 64 }
    ensures { OnOk result (signals.new.items ≡ signals.old.items ++ signals_from dict.now direction start entries.now) }
{
    match entries {
        [] => Ok(()),
        [first, rest @ ..] => {
            add_signal(signals, dict, direction, *first, start)?;
            add_signals(signals, dict, direction, rest, start + first.bits)?;
            Ok(())
        }
    }
}

/// The signals of a PDO of a device: one for each mapped object, in the order of the entries. `Err` is want of memory.
pub fn signals(
    alloc: Global,
    dict: &Dictionary,
    mapping: &Mapping,
) -> Result<Vec<Signal>, AllocError>
    ensures { IfOk result (λ signals. signals.items ≡ signals_of dict.now mapping.now) }
{
    let mut signals = Vec::new(alloc);
    add_signals(
        &mut signals,
        dict,
        mapping.direction(),
        mapping.entries(),
        0,
    )?;
    Ok(signals)
}
