//! What is worth a look before one relies on a plan.

use crate::faults::{number_if, text_if};
use crate::objects::Object;
use serde_json::Value;
use std::alloc::{AllocError, Global};

/// Something under which a plan may be no plan of the machine: its number, 80 to 89, where it has one, the node, the record of the row
/// that it is of, the name and the line of the EDS file where it stands in one, and a sentence.
#[derive(Clone, Copy)]
pub struct Warned<'a> {
    pub number: Option<u8>,
    pub node: Option<u8>,
    pub record: Option<u64>,
    pub file: Option<&'a str>,
    pub line: Option<u64>,
    pub words: &'a str,
}

/// A small number that is perhaps not there.
fn byte_if(number: Option<u8>) -> Value {
    match number {
        Some(number) => number_if(Some(u64::from(number))),
        None => Value::Null,
    }
}

fn warning_of(alloc: Global, warned: Warned<'_>) -> Result<Value, AllocError> {
    Object::new(alloc)
        .plain("number", byte_if(warned.number))
        .plain("node", byte_if(warned.node))
        .plain("record", number_if(warned.record))
        .with("file", text_if(alloc, warned.file))
        .plain("line", number_if(warned.line))
        .text("words", warned.words)
        .end()
}

/// The list of warnings.
pub(crate) fn warnings_of(alloc: Global, warnings: &[Warned<'_>]) -> Result<Value, AllocError> {
    let mut values = Vec::new(alloc);
    for warned in warnings {
        values.push(warning_of(alloc, *warned)?)?;
    }
    Ok(Value::Array(values))
}
