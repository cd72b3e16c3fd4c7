//! Values and limits as texts write them: numbers with a sign, and sums with the node's number.

ghost use Rattle.std.specs.Prelude.{◌≡◌};
ghost use Rattle.cop_eds.specs.Number.{number_of};
ghost use Rattle.cop_eds.specs.Amount.{signed_of, is_node, amount_of};

use crate::fault::Rule;
use crate::number::{decimal_of, is_hexadecimal, number_of};
use crate::text::{after_first, before_first, same_name, trim};

/// A value or a limit as it is written.
#[derive(Clone, Copy, Debug, PartialEq, Eq)]
pub enum Amount {
    /// Decimal digits.
    Decimal(u64),
    /// A minus and decimal digits.
    Negative(u64),
    /// Hexadecimal digits, which may be the pattern of a negative value.
    Hexadecimal(u64),
    /// The sum of the node's number and this one.
    PlusNode(u64),
}

fn signed_of(text: &[u8]) -> Result<Amount, Rule>
    ensures { result ≡ signed_of text.now }
{
    if let [b'-', digits @ ..] = text {
        return Ok(Amount::Negative(decimal_of(digits)?));
    }
    let number = number_of(text)?;
    if is_hexadecimal(text) {
        Ok(Amount::Hexadecimal(number))
    } else {
        Ok(Amount::Decimal(number))
    }
}

fn is_node(text: &[u8]) -> bool
    ensures { result ≡ is_node text.now }
{
    same_name(text, b"$NODEID")
}

/// What a value or a limit is, or the rule that it breaks.
pub fn amount_of(text: &[u8]) -> Result<Amount, Rule>
    ensures { result ≡ amount_of text.now }
{
    if is_node(text) {
        return Ok(Amount::PlusNode(0));
    }
    if !text.contains(&b'+') {
        return signed_of(text);
    }
    let left = trim(before_first(text, b'+'));
    let right = trim(after_first(text, b'+'));
    if is_node(left) {
        Ok(Amount::PlusNode(number_of(right)?))
    } else if is_node(right) {
        Ok(Amount::PlusNode(number_of(left)?))
    } else {
        Err(Rule::Number)
    }
}
