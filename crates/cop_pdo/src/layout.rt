//! Whether one PDO can receive what another sends.

ghost use Rattle.std.specs.Prelude.{◌≡◌, ◌≤◌, ◌+◌};
ghost use Rattle.cop_dict.specs.Mapping.{total_bits};
ghost use Rattle.cop_pdo.specs.Payload.{has_span, spans_match, is_same_layout};

use crate::mapping::Mapping;
use cop_dict::{Direction, Mapped};

/// Whether an entry with so many bits begins at a bit, where the entries begin at bit `at`.
fn has_span(entries: &[Mapped], at: usize, first: usize, bits: u8) -> bool
    requires { at + total_bits entries.now ≤ 64 }
    ensures { result ≡ has_span entries.now at first bits }
{
    match entries {
        [] => false,
        [mapped, rest @ ..] => {
            (at == first && mapped.bits == bits)
                || has_span(rest, at + usize::from(mapped.bits), first, bits)
        }
    }
}

/// Whether each received entry from bit `at` on that is no dummy has a sent entry with the same first bit and width.
fn spans_match(sent: &[Mapped], direction: Direction, received: &[Mapped], at: usize) -> bool
    requires sent { total_bits sent.now ≤ 64 }
    requires received { at + total_bits received.now ≤ 64 }
    ensures { result ≡ spans_match sent.now direction received.now at }
{
    match received {
        [] => true,
        [mapped, rest @ ..] => {
            (mapped.is_dummy(direction) || has_span(sent, 0, at, mapped.bits))
                && spans_match(sent, direction, rest, at + usize::from(mapped.bits))
        }
    }
}

/// Whether an RPDO has the layout of the TPDO that it is to receive: as many bits, and each of its entries that is no
/// dummy has an entry of the TPDO with the same first bit and width.
pub fn same_layout(tpdo: &Mapping, rpdo: &Mapping) -> bool
    ensures { result ≡ is_same_layout tpdo.now rpdo.now }
{
    tpdo.bits() == rpdo.bits() && spans_match(tpdo.entries(), rpdo.direction(), rpdo.entries(), 0)
}
