//! Whether a PDO takes what begins at a bit.

ghost use Rattle.std.specs.Prelude.{◌≡◌, ◌≤◌, ◌+◌};
ghost use Rattle.cop_dict.specs.Mapping.{total_bits};
ghost use Rattle.cop_signals.specs.Takers.{takes_from};

use cop_dict::{Direction, Mapped};

/// Whether an entry takes what begins at a bit and has so many bits into an object, where the entries begin at bit `start`.
pub(crate) fn takes_from(
    direction: Direction,
    entries: &[Mapped],
    start: usize,
    first: usize,
    bits: u8,
) -> bool
    requires { start + total_bits entries.now ≤ 64 }
    ensures { result ≡ takes_from direction entries.now start first bits }
{
    match entries {
        [] => false,
        [mapped, rest @ ..] => {
            (!mapped.is_dummy(direction) && start == first && mapped.bits == bits)
                || takes_from(
                    direction,
                    rest,
                    start + usize::from(mapped.bits),
                    first,
                    bits,
                )
        }
    }
}
