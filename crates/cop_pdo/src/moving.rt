//! Payloads of PDOs, to and from the objects that are mapped.

ghost use Rattle.std.specs.Prelude.{◌≡◌, ◌<◌, ◌≤◌, ◌+◌, ◌*◌, ◌^◌, ◌%◌, length, take, true, ◌/◌, ◌↔◌, Bool, List, IsErr, OnErr, OnOk, All};
ghost use Rattle.cop_dict.specs.Mapping.{total_bits};
ghost use Rattle.cop_dict.specs.declared.mapping.Mapped.{Mapped};
ghost use Rattle.cop_pdo.specs.Payload.{HasObjects, is_there};
ghost use Rattle.cop_pdo.specs.Bits.{mapped_number, bits_of_number, number_of_bits, bits_of_entries, payload_bits, bytes_of_bits, bits_of_bytes, bytes_for, received, unpacked};

use crate::mapping::Mapping;
use cop_dict::{Dictionary, Direction, Mapped, number};
use thiserror::Error;

/// The lowest bits of a number.
fn lowest(number: u64, bits: u8) -> u64
    ensures { result ≡ number % 2 ^ bits }
{
    if bits < 64 {
        number % (1 << bits)
    } else {
        number
    }
}

/// A number behind so many bits.
fn raised(number: u64, bits: u8) -> u64
    requires { number * 2 ^ bits < 2 ^ 64 }
    ensures { result ≡ number * 2 ^ bits }
{
    if number == 0 {
        return 0;
    }
    number * (1 << bits)
}

/// The value of a mapped object as a number, with its lowest bits alone; 0 for bits that go nowhere.
#[tactic(auto, using(crate::proofs::BitLemmas::number_lowest))]
fn mapped_value(dict: &Dictionary, direction: Direction, mapped: Mapped) -> u64
    requires { is_there dict.now direction mapped ≡ true }
    ensures { result ≡ number_of_bits (bits_of_number mapped.bits (mapped_number dict.now direction mapped)) }
{
    if mapped.is_dummy(direction) {
        return 0;
    }
    match dict.entry(mapped.index, mapped.sub) {
        Some(object) => lowest(number(object.value()), mapped.bits),
        None => 0,
    }
}

/// The payload of entries as a number, the first bit being the lowest.
#[tactic(auto, using(crate::proofs::MovingLemmas::rest_there, crate::proofs::MovingLemmas::first_there, crate::proofs::MovingLemmas::rest_bits, crate::proofs::MovingLemmas::rest_payload, crate::proofs::MovingLemmas::none_left))]
fn word(dict: &Dictionary, direction: Direction, entries: &[Mapped]) -> u64
    requires there { All (λ mapped. is_there dict.now direction mapped ≡ true) entries.now }
    requires bits { total_bits entries.now ≤ 64 }
    ensures value { result ≡ number_of_bits (bits_of_entries dict.now direction entries.now) }
    ensures bound { result < 2 ^ total_bits entries.now }
{
    match entries {
        [] => 0,
        [first, rest @ ..] => {
            let rest = word(dict, direction, rest);
            mapped_value(dict, direction, *first) + raised(rest, first.bits)
        }
    }
}

/// The payload of a PDO: the bits of the mapped objects in the order of the entries, the least significant first, in eight
/// bytes whose other bits are 0, and how many bytes the PDO has (CiA 301, "PDO mapping parameter record").
pub fn pack(dict: &Dictionary, mapping: &Mapping) -> ([u8; 8], u8)
    requires { HasObjects dict.now mapping.now }
    ensures body { result.0 ≡ bytes_of_bits 8 (payload_bits dict.now mapping.now) }
    ensures len { result.1 ≡ bytes_for (total_bits mapping.now.entries) }
{
    let word = word(dict, mapping.direction(), mapping.entries());
    (word.to_le_bytes(), mapping.bytes())
}

/// Why a payload is not taken: it has fewer bytes than the PDO.
#[derive(Clone, Copy, Debug, PartialEq, Eq, Drop, Error)]
#[error("the payload has fewer bytes than the PDO")]
pub struct Short;

/// A number without its lowest bits.
fn lowered(number: u64, bits: u8) -> u64
    ensures { result ≡ number / 2 ^ bits }
{
    if bits < 64 { number / (1 << bits) } else { 0 }
}

/// Stores a number as the value of a mapped object; bits that go nowhere are dropped.
fn store(dict: &mut Dictionary, direction: Direction, mapped: Mapped, value: u64)
    requires { is_there dict.old direction mapped ≡ true }
    ensures value { (bits : List Bool) → number_of_bits bits ≡ value → dict.new ≡ received dict.old direction mapped bits }
    ensures there { (other : Mapped) → is_there dict.new direction other ≡ is_there dict.old direction other }
{
    if mapped.is_dummy(direction) {
        return;
    }
    let width = usize::from(mapped.bits).div_ceil(8);
    dict.store(mapped.index, mapped.sub, &value.to_le_bytes()[..width]);
}

/// Stores a number's bits as the values of mapped objects, the lowest bit first.
#[tactic(auto, using(crate::proofs::MovingLemmas::rest_there, crate::proofs::MovingLemmas::first_there))]
fn store_all(dict: &mut Dictionary, direction: Direction, entries: &[Mapped], word: u64)
    requires { All (λ mapped. is_there dict.old direction mapped ≡ true) entries.now }
    ensures value { (bits : List Bool) → number_of_bits bits ≡ word → dict.new ≡ unpacked dict.old direction entries.now bits }
    ensures there { (other : Mapped) → is_there dict.new direction other ≡ is_there dict.old direction other }
{
    match entries {
        [] => (),
        [first, rest @ ..] => {
            store(dict, direction, *first, lowest(word, first.bits));
            store_all(dict, direction, rest, lowered(word, first.bits));
        }
    }
}

/// Gives the mapped objects the values of a payload, all of them or none: where it has fewer bytes than the PDO, nothing
/// changes. Limits are not looked at (CiA 301, "PDO mapping parameter record"). It takes no memory.
pub fn unpack(dict: &mut Dictionary, mapping: &Mapping, body: &[u8]) -> Result<(), Short>
    requires { HasObjects dict.old mapping.now }
    ensures short { IsErr result ↔ (length body.now < bytes_for (total_bits mapping.now.entries)) }
    ensures ok { OnOk result (dict.new ≡ unpacked dict.old mapping.now.direction mapping.now.entries (bits_of_bytes (take (bytes_for (total_bits mapping.now.entries)) body.now))) }
    ensures err { OnErr result (dict.new ≡ dict.old) }
    ensures objects { HasObjects dict.new mapping.now }
{
    let count = usize::from(mapping.bytes());
    if body.len() < count {
        return Err(Short);
    }
    store_all(
        dict,
        mapping.direction(),
        mapping.entries(),
        number(&body[..count]),
    );
    Ok(())
}
