//! Parts of bytes.

ghost use Rattle.std.specs.Prelude.{◌≡◌, take, drop, length, slice_index, ◌-◌};

/// The bytes from a place on, which may lie behind the end.
pub fn from(bytes: &[u8], place: usize) -> &[u8]
    ensures { result.now ≡ drop place bytes.now }
{
    if place < bytes.len() {
        &bytes[place..]
    } else {
        &[]
    }
}

/// The bytes up to a place, which may lie behind the end.
pub fn upto(bytes: &[u8], place: usize) -> &[u8]
    ensures { result.now ≡ take place bytes.now }
{
    if place < bytes.len() {
        &bytes[..place]
    } else {
        bytes
    }
}

/// The first byte; 0 where there is none.
pub fn first_of(bytes: &[u8]) -> u8
    ensures { result ≡ slice_index bytes.now 0 }
{
    match bytes {
        [first, ..] => *first,
        [] => 0,
    }
}

/// The last byte; 0 where there is none.
pub fn last_of(bytes: &[u8]) -> u8
    ensures { result ≡ slice_index bytes.now (length bytes.now - 1) }
{
    match bytes {
        [.., last] => *last,
        [] => 0,
    }
}

/// The bytes without the last one.
pub fn without_last(bytes: &[u8]) -> &[u8]
    ensures { result.now ≡ take (length bytes.now - 1) bytes.now }
{
    match bytes {
        [rest @ .., _] => rest,
        [] => bytes,
    }
}
