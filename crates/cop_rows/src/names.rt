//! Names of devices and of files.

ghost use Rattle.std.specs.Prelude.{◌≡◌, Some, nat_eq, refl, IsTrue};
ghost use Rattle.std.specs.List.{list_all};
ghost use Rattle.std.specs.Ordering.{nat_cmp};
ghost use Rattle.std.specs.Cmp.{partial_equiv_from_equiv};
ghost use Rattle.std.specs.Cmp.Lexicographic.{pointwise, slice_cmp, nat_list_eq_equiv, nat_list_cmp_total, texts_ties, texts_po};
ghost use Rattle.cop_table.specs.Reading.{Gives};
ghost use Rattle.cop_rows.specs.Names.{is_name, is_name_code};
ghost use Rattle.cop_rows.specs.Fields.{name_of};
ghost use Rattle.cop_rows.specs.Refusals.{broken};

use crate::refusals::{Column, RecordFault, Rule};
use std::alloc::{AllocError, Global};
use std::cmp::Ordering;
use std::marker::Model;

/// A name of a device or of a file: 1 to 40 letters, digits, blanks, `_`, `-` and `.`. Contracts see its bytes.
#[derive(Drop)]
pub struct Name {
    bytes: Vec<u8>,
}

impl Model for Name {
    ghost use Rattle.std.specs.Prelude.{List, ℕ, IsTrue};
    ghost use Rattle.cop_rows.specs.Names.{is_name};

    ghost Value = { List ℕ };

    ghost view = { λ n. n.bytes.items };

    ghost invariant = { λ n. IsTrue (is_name n.bytes.items) };
}

/// Whether a byte may stand in a name.
fn is_name_code(byte: u8) -> bool
    ensures { result ≡ is_name_code byte }
{
    byte.is_ascii_alphanumeric() || byte == b' ' || byte == b'_' || byte == b'-' || byte == b'.'
}

fn has_name_codes(text: &[u8]) -> bool
    ensures { result ≡ list_all is_name_code text.now }
{
    text.iter().all(|byte| is_name_code(*byte))
}

/// Whether a text is a name: 1 to 40 letters, digits, blanks, `_`, `-` and `.`.
pub fn is_name(text: &[u8]) -> bool
    ensures { result ≡ is_name text.now }
{
    !text.is_empty() && text.len() <= 40 && has_name_codes(text)
}

impl Name {
    /// The name that a column's text is.
    pub(crate) fn read(alloc: Global, column: Column, text: &[u8]) -> Result<Name, RecordFault>
        ensures { Gives (λ name. name) broken result (name_of column text.now) }
    {
        if !is_name(text) {
            return Err(RecordFault::Broken(Rule::Value(column)));
        }
        Ok(Name {
            bytes: Vec::from_slice(alloc, text)?,
        })
    }

    /// The bytes of the name.
    pub fn as_bytes(&self) -> &[u8]
        ensures value { result.now ≡ self.now }
        ensures valid { IsTrue (is_name self.now) }
    {
        &self.bytes
    }
}

impl Clone for Name {
    ghost is_clone = { λ name copy. copy ≡ name };

    fn clone(&self) -> Result<Name, AllocError> {
        Ok(Name {
            bytes: self.bytes.clone()?,
        })
    }
}

impl PartialEq for Name {
    ghost eq = { pointwise nat_eq };

    ghost laws = { partial_equiv_from_equiv nat_list_eq_equiv };

    fn eq(&self, other: &Name) -> bool {
        self.as_bytes() == other.as_bytes()
    }
}

impl Eq for Name {
    ghost laws = { nat_list_eq_equiv };
}

impl PartialOrd for Name {
    ghost partial_cmp = { λ x y. Some (slice_cmp nat_cmp x y) };

    ghost laws = { texts_po };

    fn partial_cmp(&self, other: &Name) -> Option<Ordering> {
        Some(self.cmp(other))
    }
}

impl Ord for Name {
    ghost cmp = { slice_cmp nat_cmp };

    ghost total = { nat_list_cmp_total };

    ghost matches_partial_cmp = { λ x y. refl };

    ghost matches_eq = { texts_ties };

    fn cmp(&self, other: &Name) -> Ordering {
        self.as_bytes().cmp(other.as_bytes())
    }
}
