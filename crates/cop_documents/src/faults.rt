//! Faults.

use crate::objects::{Object, text_of};
use serde_json::Value;
use std::alloc::{AllocError, Global};

/// What is told of a fault: its number and its record where an input is refused, the table and the column where these are
/// known, its line, and what is said of it in words.
#[derive(Clone, Copy)]
pub struct Told<'a> {
    pub number: Option<u8>,
    pub table: Option<&'a str>,
    pub record: Option<u64>,
    pub column: Option<&'a str>,
    /// The file in which the rule is broken, and the line there.
    pub file: Option<&'a str>,
    pub file_line: Option<u64>,
    pub line: &'a str,
    pub words: &'a str,
}

pub(crate) fn number_if(number: Option<u64>) -> Value {
    match number {
        Some(number) => Value::from(number),
        None => Value::Null,
    }
}

pub(crate) fn text_if(alloc: Global, text: Option<&str>) -> Result<Value, AllocError> {
    match text {
        Some(text) => text_of(alloc, text),
        None => Ok(Value::Null),
    }
}

/// A fault.
pub fn fault_document(alloc: Global, told: Told<'_>) -> Result<String, AllocError> {
    let mut words = Vec::new(alloc);
    for line in told.words.lines() {
        words.push(text_of(alloc, line)?)?;
    }
    let number = told.number.map(|number| u64::from(number));
    let fault = Object::new(alloc)
        .plain("number", number_if(number))
        .with("table", text_if(alloc, told.table))
        .plain("record", number_if(told.record))
        .with("column", text_if(alloc, told.column))
        .with("file", text_if(alloc, told.file))
        .plain("file_line", number_if(told.file_line))
        .text("line", told.line)
        .plain("words", Value::Array(words))
        .end();
    let document = Object::new(alloc).with("error", fault).end()?;
    document.to_string(alloc)
}
