//! Numbers in bytes.

ghost use Rattle.std.specs.Prelude.{◌≡◌, ◌≤◌, ◌<◌, ◌^◌, length, IfSome, IfNone};
ghost use Rattle.cop_dict.specs.Number.{number, is_zero};

/// The number that bytes are, the least significant first.
pub fn number(bytes: &[u8]) -> u64
    requires { length bytes.now ≤ 8 }
    ensures value { result ≡ number bytes.now }
    ensures bound { result < 256 ^ length bytes.now }
{
    match bytes {
        [] => 0,
        [first, rest @ ..] => u64::from(*first) + 256 * number(rest),
    }
}

/// The number that bytes are, where it is at most 255.
pub fn small_number(bytes: &[u8]) -> Option<u8>
    ensures value { IfSome result (λ n. number bytes.now ≡ n) }
    ensures large { IfNone result (256 ≤ number bytes.now) }
{
    match bytes {
        [] => Some(0),
        [first, rest @ ..] if is_zero(rest) => Some(*first),
        _ => None,
    }
}

/// Whether all bytes are 0.
pub fn is_zero(bytes: &[u8]) -> bool
    ensures { result ≡ is_zero bytes.now }
{
    bytes.iter().all(|byte| *byte == 0)
}
