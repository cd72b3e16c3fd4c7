//! What EDS texts describe.

use cop_dict::{Dictionary, build};
use cop_eds::{EdsFault, parse};
use std::alloc::Global;

/// What a text describes for a node.
pub(crate) fn described(alloc: Global, text: &[u8], node: u8) -> Result<Dictionary, EdsFault> {
    let eds = parse(alloc, text)?;
    build(alloc, &eds, node)
}
