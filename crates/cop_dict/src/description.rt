//! What is known of an entry whatever its value, and the rules that follow from it.

ghost use Rattle.std.specs.Prelude.{◌≡◌, length, IfNone};
ghost use Rattle.std.specs.Option.{ForSome};
ghost use Rattle.cop_dict.specs.Types.{width_of};
ghost use Rattle.cop_dict.specs.Number.{number};
ghost use Rattle.cop_dict.specs.Rules.{first_broken, read_rules, value_rules, access_rules, number_rules};

use crate::abort::Abort;
use crate::data_type::{DataType, is_readable, is_writable};
use crate::numbers::number;
use cop_eds::Access;

/// The description of an entry (CiA 301, "Entry description").
#[derive(Clone, Copy, Debug, PartialEq, Eq)]
pub struct Description {
    pub data_type: DataType,
    pub access: Access,
    /// Whether PDOs may move the value.
    pub is_mappable: bool,
    /// The least number that may be written.
    pub low: Option<i128>,
    /// The greatest number that may be written.
    pub high: Option<i128>,
}

impl Description {
    /// The first rule that a read breaks.
    pub(crate) fn refused_read(&self) -> Option<Abort>
        ensures { result ≡ first_broken (read_rules self.now) }
    {
        if self.data_type.is_opaque() {
            Some(Abort::OpaqueType)
        } else if !is_readable(self.access) {
            Some(Abort::WriteOnly)
        } else {
            None
        }
    }

    /// The first rule that a write of this size breaks, whatever its bytes are.
    pub(crate) fn refused_size(&self, size: Option<usize>) -> Option<Abort>
        ensures { result ≡ first_broken (access_rules self.now size) }
    {
        if self.data_type.is_opaque() {
            return Some(Abort::OpaqueType);
        }
        if !is_writable(self.access) {
            return Some(Abort::ReadOnly);
        }
        match (self.data_type.width(), size) {
            (Some(width), Some(size)) if size > width => Some(Abort::TooLong),
            (Some(width), Some(size)) if size < width => Some(Abort::TooShort),
            _ => None,
        }
    }

    /// The first rule that a write of these bytes breaks, whatever else is in the dictionary.
    pub(crate) fn refused_write(&self, bytes: &[u8]) -> Option<Abort>
        ensures value { result ≡ first_broken (value_rules self.now bytes.now) }
        ensures fits { IfNone result (ForSome (width_of self.now.data_type) (λ width. length bytes.now ≡ width)) }
    {
        if self.data_type.is_opaque() {
            return Some(Abort::OpaqueType);
        }
        if !is_writable(self.access) {
            return Some(Abort::ReadOnly);
        }
        match self.data_type.width() {
            Some(width) if bytes.len() > width => Some(Abort::TooLong),
            Some(width) if bytes.len() < width => Some(Abort::TooShort),
            Some(_) => self.refused_number(number(bytes)),
            None => None,
        }
    }

    /// The first rule that a pattern breaks.
    fn refused_number(&self, pattern: u64) -> Option<Abort>
        ensures { result ≡ first_broken (number_rules self.now pattern) }
    {
        if self.data_type.is_boolean() && pattern > 1 {
            return Some(Abort::InvalidValue);
        }
        let value = self.data_type.value_of(pattern);
        if self.high.is_some_and(|high| value > high) {
            return Some(Abort::AboveLimit);
        }
        if self.low.is_some_and(|low| value < low) {
            return Some(Abort::BelowLimit);
        }
        None
    }
}
