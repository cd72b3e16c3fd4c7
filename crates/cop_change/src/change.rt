//! What was changed in a text, and by which rule.

/// The rule by which a line is changed or added.
#[derive(Clone, Copy, Debug, PartialEq, Eq)]
pub enum Cause {
    /// A blank that CiA 306 does not have.
    Blank,
    /// A comment or a rule.
    Ruled,
    /// Another spelling of a header or a key.
    Spelling,
    /// Text before the first section.
    Before,
    /// No key, in a section that nothing reads.
    Unread,
    /// A key without its equals sign.
    BareKey,
    /// A section twice.
    SectionTwice,
    /// A key twice.
    KeyTwice,
    /// Another spelling of a number or a word.
    Word,
    /// Zeros before an entry's number.
    Zeros,
    /// Hexadecimal without 0x.
    Hexadecimal,
    /// The number of entries.
    Count,
    /// Entries are numbered without gaps.
    Numbered,
    /// An entry without a section.
    Missing,
    /// A section that no list named.
    Unlisted,
    /// The object type.
    ObjectType,
    /// The data type.
    DataType,
    /// The access.
    Access,
    /// Another spelling of a value or a limit.
    Value,
    /// A value or a limit that is left out.
    LeftOut,
    /// The rates of a device that states none.
    Rates,
    /// The compact form whose sub sections are written out.
    Compact,
    /// A line of a compact form that stands at this line.
    CompactOf(usize),
    /// A line of the PDO of this number, which the device has by CompactPDO.
    PdoOf(u64),
}

/// A line that has another text now, or that was added.
#[derive(Debug, Drop)]
pub struct Change {
    /// The number of the line, from 1; of an added line that of the line before it.
    pub place: usize,
    pub is_added: bool,
    /// The text before, without its end; none where the line is added.
    pub old: Vec<u8>,
    /// The text now.
    pub new: Vec<u8>,
    pub cause: Cause,
}
