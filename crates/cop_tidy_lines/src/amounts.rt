//! Values and limits as makers write them: numbers with a sign, and sums with the node's number.

ghost use Rattle.std.specs.Prelude.{◌≡◌, IfOk, length, map, false, Ok};
ghost use Rattle.cop_tidy_lines.specs.Amounts.{with_sign, signed_number, is_node_word, is_bracket, unbracketed, is_between, terms, term_number, with_node, with_number, with_term, sum_from, adds_by_bar, sum_meant, amount_meant, is_no_value};

use crate::choices::Digits;
use crate::numerals::{Unclear, are_decimal, is_negative, is_signed, magnitude, plain};
use cop_eds::{Amount, amount_of, same_name, trim};
use std::alloc::{AllocError, Global};

/// A number by its digits: those that a mark says to be of another base than ten are a pattern.
fn with_sign(is_negative: bool, is_decimal: bool, number: u64) -> Amount
    ensures { result ≡ with_sign is_negative is_decimal number }
{
    if is_negative {
        Amount::Negative(number)
    } else if is_decimal {
        Amount::Decimal(number)
    } else {
        Amount::Hexadecimal(number)
    }
}

/// A number, with or without a sign.
fn signed_number(
    alloc: Global,
    choice: Option<Digits>,
    text: &[u8],
) -> Result<Result<Amount, Unclear>, AllocError>
    ensures { IfOk result (λ amount. amount ≡ signed_number choice text.now) }
{
    match magnitude(alloc, choice, text)? {
        Ok(number) => Ok(Ok(with_sign(is_negative(text), are_decimal(plain(text)), number))),
        Err(unclear) => Ok(Err(unclear)),
    }
}

/// Whether a text is a word for the node's number.
fn is_node_word(text: &[u8]) -> bool
    ensures { result ≡ is_node_word text.now }
{
    ((same_name(text, b"$NODEID") || same_name(text, b"$NODE_ID"))
        || (same_name(text, b"$NODE-ID") || same_name(text, b"NODEID")))
        || ((same_name(text, b"NODE_ID") || same_name(text, b"NODE-ID"))
            || (same_name(text, b"NODE") || same_name(text, b"%NODEID%")))
}

fn is_bracket(byte: u8) -> bool
    ensures { result ≡ is_bracket byte }
{
    (byte == b'(' || byte == b')') || (byte == b'{' || byte == b'}')
}

/// A text without brackets.
#[tactic(auto, unfolding(crate::specs::Amounts::unbracketed))]
fn unbracketed(alloc: Global, text: &[u8]) -> Result<Vec<u8>, AllocError>
    ensures { IfOk result (λ v. v.items ≡ unbracketed text.now) }
{
    text.iter()
        .copied()
        .filter(|byte| !is_bracket(*byte))
        .collect(alloc)
}

/// Whether a byte stands between the terms of a sum.
fn is_between(byte: u8) -> bool
    ensures { result ≡ is_between byte }
{
    byte == b'+' || byte == b'|'
}

/// The terms of a sum.
fn terms(alloc: Global, sum: &[u8]) -> Result<Vec<&[u8]>, AllocError>
    ensures { IfOk result (λ v. map (λ term. term.now) v.items ≡ terms sum.now) }
{
    sum.split(|byte| is_between(*byte)).collect(alloc)
}

/// A term that is a number.
fn term_number(
    alloc: Global,
    choice: Option<Digits>,
    term: &[u8],
) -> Result<Result<u64, Unclear>, AllocError>
    ensures { IfOk result (λ number. number ≡ term_number choice term.now) }
{
    if is_signed(term) {
        Ok(Err(Unclear::NoNumber))
    } else {
        magnitude(alloc, choice, term)
    }
}

/// What is known of a sum behind some of its terms: whether the node's number stood there, and the numbers together.
#[derive(Clone, Copy, Debug, PartialEq, Eq)]
pub struct Sum {
    pub has_node: bool,
    pub total: u64,
}

fn with_node(sum: Sum) -> Result<Sum, Unclear>
    ensures { result ≡ with_node sum }
{
    if sum.has_node {
        return Err(Unclear::NoNumber);
    }
    Ok(Sum {
        has_node: true,
        total: sum.total,
    })
}

fn with_number(sum: Sum, number: Result<u64, Unclear>) -> Result<Sum, Unclear>
    ensures { result ≡ with_number sum number }
{
    match number {
        Ok(number) => match sum.total.checked_add(number) {
            Some(total) => Ok(Sum {
                has_node: sum.has_node,
                total,
            }),
            None => Err(Unclear::NoNumber),
        },
        Err(unclear) => Err(unclear),
    }
}

/// The sum with a term more.
fn with_term(
    alloc: Global,
    choice: Option<Digits>,
    sum: Sum,
    term: &[u8],
) -> Result<Result<Sum, Unclear>, AllocError>
    ensures { IfOk result (λ next. next ≡ with_term choice sum term.now) }
{
    let term = trim(term);
    if is_node_word(term) {
        Ok(with_node(sum))
    } else {
        Ok(with_number(sum, term_number(alloc, choice, term)?))
    }
}

/// The sum of all terms, which have the node's number once.
fn sum_of(
    alloc: Global,
    choice: Option<Digits>,
    terms: &[&[u8]],
) -> Result<Result<u64, Unclear>, AllocError>
    ensures { IfOk result (λ total. total ≡ sum_from choice (Ok (record { has_node = false; total = 0 })) (map (λ term. term.now) terms.now)) }
{
    let mut sum = Sum {
        has_node: false,
        total: 0,
    };
    for term in terms {
        match with_term(alloc, choice, sum, term)? {
            Ok(next) => sum = next,
            Err(unclear) => return Ok(Err(unclear)),
        }
    }
    if sum.has_node {
        Ok(Ok(sum.total))
    } else {
        Ok(Err(Unclear::NoNumber))
    }
}

/// Whether a bar between so many terms adds, where the sum is the node's number and this one.
fn adds_by_bar(number: u64, sum: &[u8], count: usize) -> bool
    requires { count ≡ length (terms sum.now) }
    ensures { result ≡ adds_by_bar number sum.now }
{
    !sum.contains(&b'|') || (count == 2 && number % 128 == 0)
}

/// The sum that a text without brackets is.
fn sum_meant(
    alloc: Global,
    choice: Option<Digits>,
    sum: &[u8],
) -> Result<Result<Amount, Unclear>, AllocError>
    ensures { IfOk result (λ amount. amount ≡ sum_meant choice sum.now) }
{
    let terms = terms(alloc, sum)?;
    match sum_of(alloc, choice, &terms)? {
        Ok(number) => {
            if adds_by_bar(number, sum, terms.len()) {
                Ok(Ok(Amount::PlusNode(number)))
            } else {
                Ok(Err(Unclear::NoNumber))
            }
        }
        Err(unclear) => Ok(Err(unclear)),
    }
}

/// The amount that a text is by CiA 306, else a number or a sum in another spelling.
#[tactic(auto, unfolding(crate::specs::Amounts::amount_meant))]
pub fn amount_meant(
    alloc: Global,
    choice: Option<Digits>,
    text: &[u8],
) -> Result<Result<Amount, Unclear>, AllocError>
    ensures { IfOk result (λ amount. amount ≡ amount_meant choice text.now) }
{
    if let Ok(amount) = amount_of(text) {
        return Ok(Ok(amount));
    }
    match signed_number(alloc, choice, text)? {
        Err(Unclear::NoNumber) => sum_meant(alloc, choice, &unbracketed(alloc, text)?),
        meant => Ok(meant),
    }
}

/// Whether a text stands for no value.
pub fn is_no_value(text: &[u8]) -> bool
    ensures { result ≡ is_no_value text.now }
{
    ((same_name(text, b"n/a") || same_name(text, b"na"))
        || (same_name(text, b"none") || same_name(text, b"null")))
        || (same_name(text, b"-") || (same_name(text, b"--") || same_name(text, b"---")))
}
