//! The patterns of values and limits as texts write them.

ghost use Rattle.std.specs.Prelude.{◌≡◌, ◌≤◌, ◌^◌, IfSome};
ghost use Rattle.cop_eds.specs.Amount.{amount_of};
ghost use Rattle.cop_dict.specs.Patterns.{at_most, negative, greatest_pattern, pattern_of, pattern_by, pattern_at};

use crate::data_type::DataType;
use cop_eds::{Amount, Refusal, Rule, amount_of};

fn at_most(greatest: u64, n: u64) -> Option<u64>
    ensures { result ≡ at_most greatest n }
{
    (n <= greatest).then_some(n)
}

/// The pattern of a number so far below 0.
fn negative(half: Option<u64>, n: u64) -> Option<u64>
    requires { IfSome half (λ half. (1 ≤ half) × (half ≤ 2 ^ 63)) }
    ensures { result ≡ negative half n }
{
    match half {
        None => at_most(0, n),
        Some(_) if n == 0 => Some(0),
        Some(half) if n <= half => Some(half + (half - n)),
        Some(_) => None,
    }
}

fn greatest_pattern(half: Option<u64>, greatest: u64) -> u64
    requires { IfSome half (λ half. (1 ≤ half) × (half ≤ 2 ^ 63)) }
    ensures { result ≡ greatest_pattern half greatest }
{
    match half {
        Some(half) => half - 1 + half,
        None => greatest,
    }
}

/// The pattern of an amount, where the type, with this greatest number, has it: in a signed type the two's complement of a number below 0.
pub fn pattern_of(data_type: DataType, greatest: u64, node: u8, amount: Amount) -> Option<u64>
    ensures { result ≡ pattern_of data_type greatest node amount }
{
    match amount {
        Amount::Decimal(n) => at_most(greatest, n),
        Amount::Negative(n) => negative(data_type.half(), n),
        Amount::Hexadecimal(n) => at_most(greatest_pattern(data_type.half(), greatest), n),
        Amount::PlusNode(n) => at_most(greatest, n.checked_add(u64::from(node))?),
    }
}

fn pattern_by(data_type: DataType, greatest: u64, node: u8, text: &[u8]) -> Result<u64, Rule>
    ensures { result ≡ pattern_by data_type greatest node (amount_of text.now) }
{
    pattern_of(data_type, greatest, node, amount_of(text)?).ok_or(Rule::Number)
}

/// The pattern of the value at a line, or the rule that it breaks there.
pub fn pattern_at(
    data_type: DataType,
    greatest: u64,
    node: u8,
    line: usize,
    text: &[u8],
) -> Result<u64, Refusal>
    ensures { result ≡ pattern_at data_type greatest node (line, text.now) }
{
    pattern_by(data_type, greatest, node, text).map_err(|rule| Refusal { rule, line })
}
