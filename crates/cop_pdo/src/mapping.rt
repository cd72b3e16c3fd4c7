//! The mapped objects of a PDO.

ghost use Rattle.std.specs.Prelude.{◌≡◌, ◌≤◌, ◌+◌, ◌*◌, ◌/◌, length};
ghost use Rattle.cop_dict.specs.Mapping.{total_bits};
ghost use Rattle.cop_pdo.specs.Payload.{IsPayload};

use arrayvec::ArrayVec;
use cop_dict::{Direction, Mapped};
use std::marker::Model;

/// The objects that a PDO moves, in the order of its mapping's entries. Contracts see them with the PDO's direction.
#[derive(Drop)]
pub struct Mapping {
    pub(crate) direction: Direction,
    pub(crate) entries: ArrayVec<Mapped, 64>,
}

impl Model for Mapping {
    ghost use Rattle.cop_pdo.specs.Payload.{Layout, IsPayload};

    ghost Value = { Layout };

    ghost view = { λ m. record { direction = m.direction; entries = m.entries.items } };

    ghost invariant = { λ m. IsPayload (record { direction = m.direction; entries = m.entries.items }) };
}

/// The bits of one entry.
fn bits(mapped: Mapped) -> usize
    ensures value { result ≡ mapped.bits }
    ensures most { result ≤ 255 }
{
    usize::from(mapped.bits)
}

/// The bits of entries together.
pub(crate) fn total(entries: &[Mapped]) -> usize
    requires { length entries.now ≤ 64 }
    ensures value { result ≡ total_bits entries.now }
    ensures most { result ≤ 255 * length entries.now }
{
    match entries {
        [] => 0,
        [first, rest @ ..] => bits(*first) + total(rest),
    }
}

impl Mapping {
    /// Which way the PDO goes, seen from its device.
    pub fn direction(&self) -> Direction
        ensures { result ≡ self.now.direction }
    {
        self.direction
    }

    /// The mapped objects, in the order of their bits.
    pub fn entries(&self) -> &[Mapped]
        ensures entries { result.now ≡ self.now.entries }
        ensures payload { IsPayload self.now }
    {
        &self.entries
    }

    /// How many bits the PDO has.
    pub fn bits(&self) -> usize
        ensures bits { result ≡ total_bits self.now.entries }
        ensures most { result ≤ 64 }
    {
        total(&self.entries)
    }

    /// How many bytes the PDO has: its bits divided by 8, rounded up.
    pub fn bytes(&self) -> u8
        ensures bytes { result ≡ (total_bits self.now.entries + 7) / 8 }
        ensures most { result ≤ 8 }
    {
        self.bits().div_ceil(8) as u8
    }
}
