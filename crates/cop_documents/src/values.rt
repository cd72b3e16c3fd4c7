//! Numbers and times in a document.

use crate::objects::Object;
use serde_json::Value;
use std::alloc::{AllocError, Global};
use std::num::nearest_u64_to_f64;

/// A time: its ticks of 250 ns, and its microseconds, with a fraction only where there is one.
pub(crate) fn time(alloc: Global, ticks: u64) -> Result<Value, AllocError> {
    let micros = if ticks % 4 == 0 {
        Value::from(ticks / 4)
    } else {
        Value::from(nearest_u64_to_f64(ticks) / 4.0)
    };
    Object::new(alloc)
        .plain("ticks", ticks)
        .plain("us", micros)
        .end()
}

/// A time of so many microseconds. Its ticks stop at the greatest number of 64 bits.
pub(crate) fn micros(alloc: Global, micros: u64) -> Result<Value, AllocError> {
    Object::new(alloc)
        .plain("ticks", micros.saturating_mul(4))
        .plain("us", micros)
        .end()
}

/// A time that is perhaps not there.
pub(crate) fn time_if(alloc: Global, ticks: Option<u64>) -> Result<Value, AllocError> {
    match ticks {
        Some(ticks) => time(alloc, ticks),
        None => Ok(Value::Null),
    }
}
