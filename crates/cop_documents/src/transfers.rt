//! The answer of a transfer: a value of one node that was read or written.

use crate::faults::{number_if, text_if};
use crate::objects::{Object, text_of};
use cop_logbook::abort_words;
use serde_json::Value;
use std::alloc::{AllocError, Global};

/// What the bytes of a value mean, as far as their type is known.
#[derive(Clone, Copy)]
pub enum Meaning<'a> {
    /// The number that they are in a type with numbers.
    Number(i128),
    /// The text that they are.
    Text(&'a str),
    /// The bytes alone.
    Bytes,
}

/// How a transfer ended.
#[derive(Clone, Copy)]
pub enum TransferEnd<'a> {
    /// The value was read or written: its bytes in hexadecimal digits, and what they mean.
    Done {
        digits: &'a str,
        meaning: Meaning<'a>,
    },
    /// The node aborted it by a code.
    Refused {
        code: u32,
    },
    /// It was given up by a code: the node's answer was none to the request.
    GivenUp {
        code: u32,
    },
    /// The node did not answer.
    Silent,
}

/// The transfer of a value of an object of a node, by `read` or `write`.
#[derive(Clone, Copy)]
pub struct Transfer<'a> {
    pub command: &'a str,
    pub node: u8,
    pub index: u16,
    pub sub: u8,
    pub end: TransferEnd<'a>,
}

/// A number of at most 64 bits, with a sign or without one; null if it is none.
fn number_of(number: i128) -> Value {
    if let Ok(number) = u64::try_from(number) {
        return Value::from(number);
    }
    match i64::try_from(number) {
        Ok(number) => Value::from(number),
        Err(_) => Value::Null,
    }
}

/// What bytes mean: null where they are bytes alone.
fn value_of(alloc: Global, meaning: Meaning<'_>) -> Result<Value, AllocError> {
    match meaning {
        Meaning::Number(number) => Ok(number_of(number)),
        Meaning::Text(text) => text_of(alloc, text),
        Meaning::Bytes => Ok(Value::Null),
    }
}

/// With the word of a transfer that ended without its value.
fn with_no_value(told: Object, word: &str) -> Object {
    told.text("end", word)
        .plain("bytes", Value::Null)
        .plain("value", Value::Null)
}

/// With how a transfer ended, and the value that was read or written.
fn with_end(alloc: Global, told: Object, end: TransferEnd<'_>) -> Object {
    match end {
        TransferEnd::Done { digits, meaning } => told
            .text("end", "done")
            .text("bytes", digits)
            .with("value", value_of(alloc, meaning)),
        TransferEnd::Refused { .. } => with_no_value(told, "refused"),
        TransferEnd::GivenUp { .. } => with_no_value(told, "given up"),
        TransferEnd::Silent => with_no_value(told, "silent"),
    }
}

/// The code by which a transfer was aborted.
fn code_of(end: TransferEnd<'_>) -> Option<u32> {
    match end {
        TransferEnd::Refused { code } | TransferEnd::GivenUp { code } => Some(code),
        TransferEnd::Done { .. } | TransferEnd::Silent => None,
    }
}

/// The answer of a transfer.
pub fn transfer_document(alloc: Global, transfer: Transfer<'_>) -> Result<String, AllocError> {
    let told = Object::new(alloc)
        .text("command", transfer.command)
        .plain("node", transfer.node)
        .plain("index", transfer.index)
        .plain("sub", transfer.sub);
    let code = code_of(transfer.end);
    let words = code.map(|code| abort_words(code));
    let document = with_end(alloc, told, transfer.end)
        .plain("code", number_if(code.map(u64::from)))
        .with("words", text_if(alloc, words))
        .end()?;
    document.to_string(alloc)
}
