//! Values and limits in a data type.

ghost use Rattle.std.specs.Prelude.{◌≡◌, ◌≤◌, ◌+◌, ◌%◌, ◌^◌, ◌==◌, ◌||◌, IfSome};
ghost use Rattle.std.specs.Option.{option_map, option_and_then};
ghost use Rattle.cop_dict.specs.Types.{half_of, greatest_of, is_boolean};
ghost use Rattle.cop_dict.specs.Number.{value_of};
ghost use Rattle.cop_tidy_lines.specs.Typed.{fits, are_ones, is_widened_to, is_widened, narrowed, low_bytes, typed_value, number_stated, of_pattern, limit_stated, is_below, least_of, greatest_number, only_if, end_for, unsigned_bytes, limit_bytes, is_past, possible, is_same, only, as_amount, limit_outside, typed_limit};

use cop_dict::{DataType, pattern_of};
use cop_eds::Amount;

/// A number with its sign.
#[derive(Clone, Copy, Debug, PartialEq, Eq)]
pub struct Signed {
    pub is_negative: bool,
    pub size: u64,
}

fn is_boolean(data_type: DataType) -> bool
    ensures { result ≡ is_boolean data_type }
{
    matches!(data_type, DataType::Boolean)
}

/// Whether each node has a pattern of the amount.
fn fits(data_type: DataType, greatest: u64, amount: Amount) -> bool
    ensures { result ≡ fits data_type greatest amount }
{
    pattern_of(data_type, greatest, 127, amount).is_some()
}

/// The number that a pattern stands for.
pub fn number_of_pattern(data_type: DataType, pattern: u64) -> i128
    ensures { result ≡ value_of data_type pattern }
{
    match data_type.half() {
        Some(half) if pattern >= half => i128::from(pattern) - 2 * i128::from(half),
        _ => i128::from(pattern),
    }
}

fn has_ones(n: u64) -> bool
    ensures { result ≡ (n + 1 == 2 ^ 8) || ((n + 1 == 2 ^ 16) || (n + 1 == 2 ^ 32)) }
{
    n == 0xFF || (n == 0xFFFF || n == 0xFFFF_FFFF)
}

/// Whether all bits are set in 8, 16 or 32 bits.
fn are_ones(amount: Amount) -> bool
    ensures { result ≡ are_ones amount }
{
    match amount {
        Amount::Decimal(n) | Amount::Hexadecimal(n) => has_ones(n),
        Amount::Negative(n) => n == 1,
        Amount::PlusNode(_) => false,
    }
}

fn is_widened_to(half: u128, wide: u128, n: u64) -> bool
    ensures { result ≡ is_widened_to half wide n }
{
    let n = u128::from(n);
    n < wide && wide - n <= half
}

/// Whether a number is the pattern of a negative one in a wider type.
fn is_widened(half: u128, n: u64) -> bool
    ensures { result ≡ is_widened half n }
{
    is_widened_to(half, 0x1_0000, n)
        || (is_widened_to(half, 0x1_0000_0000, n)
            || is_widened_to(half, 0x1_0000_0000_0000_0000, n))
}

/// The rest of a number by one that is not 0.
fn rest_by(n: u64, size: u128) -> u64
    requires { 1 ≤ size }
    ensures { result ≡ n % size }
{
    (u128::from(n) % size) as u64
}

/// The pattern that digits may be in a signed type.
fn narrowed(half: u64, amount: Amount) -> Option<u64>
    requires { 1 ≤ half }
    ensures { result ≡ narrowed half amount }
{
    let half = u128::from(half);
    match amount {
        Amount::Decimal(n) if u128::from(n) < 2 * half => Some(n),
        Amount::Hexadecimal(n) if is_widened(half, n) => Some(rest_by(n, 2 * half)),
        _ => None,
    }
}

/// The pattern that the bytes of a value are which lies outside of its type.
fn low_bytes(data_type: DataType, amount: Amount) -> Option<u64>
    ensures { result ≡ low_bytes data_type amount }
{
    if is_boolean(data_type) {
        return if are_ones(amount) { Some(1) } else { None };
    }
    match data_type.half() {
        Some(half) => narrowed(half, amount),
        None => None,
    }
}

/// The value that an amount is in a type with this greatest number.
#[tactic(auto, unfolding(crate::specs::Typed::typed_value))]
pub fn typed_value(data_type: DataType, greatest: u64, amount: Amount) -> Option<Amount>
    ensures { result ≡ typed_value data_type greatest amount }
{
    if fits(data_type, greatest, amount) {
        return Some(amount);
    }
    match low_bytes(data_type, amount) {
        Some(pattern) => Some(Amount::Hexadecimal(pattern)),
        None => None,
    }
}

/// The number that an amount states where it stands for no pattern.
fn number_stated(amount: Amount) -> Option<Signed>
    ensures { result ≡ number_stated amount }
{
    match amount {
        Amount::Decimal(size) | Amount::Hexadecimal(size) => Some(Signed {
            is_negative: false,
            size,
        }),
        Amount::Negative(size) => Some(Signed {
            is_negative: true,
            size,
        }),
        Amount::PlusNode(_) => None,
    }
}

/// The number of a pattern.
fn of_pattern(half: Option<u64>, n: u64) -> Signed
    requires { IfSome half (λ half. half ≤ 2 ^ 63) }
    ensures { result ≡ of_pattern half n }
{
    match half {
        Some(half) if half <= n => Signed {
            is_negative: true,
            size: half.saturating_sub(n - half),
        },
        _ => Signed {
            is_negative: false,
            size: n,
        },
    }
}

/// The limit that an amount is in its type, unless it is a sum with the node's number.
pub fn limit_stated(data_type: DataType, greatest: u64, amount: Amount) -> Option<Signed>
    ensures { result ≡ limit_stated data_type greatest amount }
{
    if matches!(amount, Amount::PlusNode(_)) {
        return None;
    }
    match pattern_of(data_type, greatest, 127, amount) {
        Some(pattern) => Some(of_pattern(data_type.half(), pattern)),
        None => None,
    }
}

fn is_below(a: Signed, b: Signed) -> bool
    ensures { result ≡ is_below a b }
{
    match (a.is_negative, b.is_negative) {
        (true, true) => b.size < a.size,
        (true, false) => 0 < a.size || 0 < b.size,
        (false, true) => false,
        (false, false) => a.size < b.size,
    }
}

/// The least number of a type.
fn least_of(half: Option<u64>) -> Signed
    ensures { result ≡ least_of half }
{
    match half {
        Some(size) => Signed {
            is_negative: true,
            size,
        },
        None => Signed {
            is_negative: false,
            size: 0,
        },
    }
}

fn only_if(test: bool, number: Signed) -> Option<Signed>
    ensures { result ≡ only_if test number }
{
    if test { Some(number) } else { None }
}

/// The end of a type, where a low or a high limit lies outward of it.
fn end_for(is_low: bool, half: Option<u64>, greatest: u64, number: Signed) -> Option<Signed>
    ensures { result ≡ end_for is_low half greatest number }
{
    if is_low {
        let least = least_of(half);
        only_if(is_below(number, least), least)
    } else {
        let end = Signed {
            is_negative: false,
            size: greatest,
        };
        only_if(is_below(end, number), end)
    }
}

/// The pattern that the bytes of a limit are in an unsigned type.
fn unsigned_bytes(greatest: u64, amount: Amount) -> Option<u64>
    ensures { result ≡ unsigned_bytes greatest amount }
{
    let size = u128::from(greatest) + 1;
    match amount {
        Amount::Negative(n) if 0 < n && 2 * u128::from(n) <= size => Some(greatest - (n - 1)),
        Amount::Hexadecimal(n) if is_widened(size / 2, n) => Some(rest_by(n, size)),
        _ => None,
    }
}

/// The pattern that the bytes of a limit are which lies outside of its type.
fn limit_bytes(data_type: DataType, greatest: u64, amount: Amount) -> Option<u64>
    ensures { result ≡ limit_bytes data_type greatest amount }
{
    if is_boolean(data_type) || data_type.half().is_some() {
        low_bytes(data_type, amount)
    } else {
        unsigned_bytes(greatest, amount)
    }
}

/// Whether nothing lies between a limit and the other one.
fn is_past(is_low: bool, number: Signed, other: Signed) -> bool
    ensures { result ≡ is_past is_low number other }
{
    if is_low {
        is_below(other, number)
    } else {
        is_below(number, other)
    }
}

/// A reading of a limit that leaves numbers between it and the other one.
fn possible(is_low: bool, reading: Option<Signed>, other: Option<Signed>) -> Option<Signed>
    ensures { result ≡ possible is_low reading other }
{
    match (reading, other) {
        (Some(number), Some(other)) if is_past(is_low, number, other) => None,
        _ => reading,
    }
}

fn is_same(a: Signed, b: Signed) -> bool
    ensures { result ≡ is_same a b }
{
    !(is_below(a, b) || is_below(b, a))
}

/// The one reading of two, or of none.
fn only(a: Option<Signed>, b: Option<Signed>) -> Option<Signed>
    ensures { result ≡ only a b }
{
    match (a, b) {
        (Some(a), Some(b)) => only_if(is_same(a, b), a),
        (Some(a), None) => Some(a),
        (None, b) => b,
    }
}

fn as_amount(number: Signed) -> Amount
    ensures { result ≡ as_amount number }
{
    if number.is_negative {
        Amount::Negative(number.size)
    } else {
        Amount::Decimal(number.size)
    }
}

/// The end of the type for a limit that lies outward of it.
fn end_reading(is_low: bool, data_type: DataType, greatest: u64, amount: Amount) -> Option<Signed>
    ensures { result ≡ option_and_then (end_for is_low (half_of data_type) greatest) (number_stated amount) }
{
    match number_stated(amount) {
        Some(number) => end_for(is_low, data_type.half(), greatest, number),
        None => None,
    }
}

/// The number of a limit's bytes.
fn byte_reading(data_type: DataType, greatest: u64, amount: Amount) -> Option<Signed>
    ensures { result ≡ option_map (of_pattern (half_of data_type)) (limit_bytes data_type greatest amount) }
{
    match limit_bytes(data_type, greatest, amount) {
        Some(pattern) => Some(of_pattern(data_type.half(), pattern)),
        None => None,
    }
}

/// The number that a limit is which lies outside of its type, where one reading alone is possible.
fn limit_outside(
    is_low: bool,
    data_type: DataType,
    greatest: u64,
    amount: Amount,
    other: Option<Signed>,
) -> Option<Signed>
    ensures { result ≡ limit_outside is_low data_type greatest amount other }
{
    let end = end_reading(is_low, data_type, greatest, amount);
    let bytes = byte_reading(data_type, greatest, amount);
    only(possible(is_low, end, other), possible(is_low, bytes, other))
}

/// The limit that an amount is in a type with this greatest number, beside the other limit.
#[tactic(auto, unfolding(crate::specs::Typed::typed_limit))]
pub fn typed_limit(
    is_low: bool,
    data_type: DataType,
    greatest: u64,
    amount: Amount,
    other: Option<Signed>,
) -> Option<Amount>
    ensures { result ≡ typed_limit is_low data_type greatest amount other }
{
    if fits(data_type, greatest, amount) {
        return Some(amount);
    }
    match limit_outside(is_low, data_type, greatest, amount, other) {
        Some(number) => Some(as_amount(number)),
        None => None,
    }
}
