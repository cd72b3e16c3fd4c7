//! The numbers that a dictionary has at an index and a sub.

ghost use Rattle.std.specs.Prelude.{◌≡◌, ◌≤◌, ◌<◌, ◌^◌, IfSome};
ghost use Rattle.cop_warn.specs.Warnings.{natural_at, word_at};

use cop_dict::Dictionary;

/// The number of an integer of at most 32 bits that is not negative.
pub fn natural_at(dict: &Dictionary, index: u16, sub: u8) -> Option<u64>
    ensures value { result ≡ natural_at dict.now index sub }
    ensures most { IfSome result (λ n. n ≤ 4294967295) }
{
    let Some(entry) = dict.entry(index, sub) else {
        return None;
    };
    let Some(number) = entry.integer() else {
        return None;
    };
    if number >= 0 && number <= 4294967295 {
        Some(number as u64)
    } else {
        None
    }
}

/// The number of an UNSIGNED32.
pub fn word_at(dict: &Dictionary, index: u16, sub: u8) -> Option<u64>
    ensures value { result ≡ word_at dict.now index sub }
    ensures most { IfSome result (λ n. n < 2 ^ 32) }
{
    let Some(entry) = dict.entry(index, sub) else {
        return None;
    };
    entry.unsigned32()
}
