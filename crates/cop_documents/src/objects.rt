//! Objects and lists of a document. While they are made want of memory is kept, and told at the end.

use serde_json::{Map, Value};
use std::alloc::{AllocError, Global};

/// An object that is made member by member.
#[derive(Drop)]
pub struct Object {
    alloc: Global,
    members: Result<Map<String, Value>, AllocError>,
}

/// Some members with one more.
fn with_member(
    alloc: Global,
    members: Result<Map<String, Value>, AllocError>,
    name: &str,
    value: Result<Value, AllocError>,
) -> Result<Map<String, Value>, AllocError> {
    let mut members = members?;
    let value = value?;
    let _ = members.insert(String::from_str(alloc, name)?, value)?;
    Ok(members)
}

impl Object {
    /// No member yet.
    pub fn new(alloc: Global) -> Object {
        Object {
            alloc,
            members: Ok(Map::new(alloc)),
        }
    }

    /// With one more member.
    pub fn with(self, name: &str, value: Result<Value, AllocError>) -> Object {
        Object {
            alloc: self.alloc,
            members: with_member(self.alloc, self.members, name, value),
        }
    }

    /// With a number, true or false, or null.
    pub fn plain(self, name: &str, value: impl Into<Value>) -> Object {
        self.with(name, Ok(value.into()))
    }

    /// With a text.
    pub fn text(self, name: &str, text: &str) -> Object {
        let alloc = self.alloc;
        self.with(name, text_of(alloc, text))
    }

    /// The object.
    pub fn end(self) -> Result<Value, AllocError> {
        Ok(Value::Object(self.members?))
    }
}

/// A text as a value.
pub fn text_of(alloc: Global, text: &str) -> Result<Value, AllocError> {
    Ok(Value::String(String::from_str(alloc, text)?))
}
