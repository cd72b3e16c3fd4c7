//! What the keys of a section state.

ghost use Rattle.std.specs.Prelude.{◌≡◌, IfOk};
ghost use Rattle.cop_tidy_lines.specs.declared.keys.Key.TheVariants as keys;
ghost use Rattle.cop_tidy_reading.specs.Stated.{typed, number_at, flag_at, object_type_at, data_type_at, access_at, mappable_at, or_no};

use crate::combining::{clear, or_asked, some_read};
use crate::contents::{Contents, Section};
use crate::question::{About, Question, asked};
use cop_eds::{Access, ObjectType};
use cop_tidy_lines::{
    Digits, Key, Unclear, access_meant, data_type_meant, flag_meant, number_meant,
    object_type_meant,
};
use std::alloc::{AllocError, Global};

/// What a reading of a key gave: nothing where it is absent, or a question.
pub type Stated<T> = Result<Result<Option<T>, Question>, AllocError>;

/// A section of a text, read with a choice of digits.
#[derive(Clone, Copy)]
pub struct Reader<'c, 'a> {
    pub contents: &'c Contents<'a>,
    pub section: Section,
    pub digits: Option<Digits>,
}

/// What is no number may be an unknown type.
fn typed(line: usize, read: Result<u64, Unclear>) -> Result<u64, Question>
    ensures { result ≡ typed line read }
{
    match read {
        Ok(number) => Ok(number),
        Err(Unclear::NoNumber) => Err(asked(About::Types, line)),
        Err(Unclear::OctalOrDecimal) => Err(asked(About::Radix, line)),
    }
}

/// A flag that is no where nothing is stated.
fn or_no(flag: Result<Option<bool>, Question>) -> Result<bool, Question>
    ensures { result ≡ or_no flag }
{
    match flag {
        Ok(Some(flag)) => Ok(flag),
        Ok(None) => Ok(false),
        Err(question) => Err(question),
    }
}

impl<'c, 'a> Reader<'c, 'a> {
    /// The number that a key states.
    pub fn number(&self, alloc: Global, key: Key) -> Stated<u64>
        ensures { IfOk result (λ read. read ≡ number_at self.now.digits self.now.contents.now self.now.section.number key) }
    {
        match self.contents.entry(alloc, self.section, key)? {
            Some((line, text)) => {
                let meant = number_meant(alloc, self.digits, text.as_slice())?;
                Ok(some_read(clear(line, meant)))
            }
            None => Ok(Ok(None)),
        }
    }

    /// Whether a key says yes.
    pub fn flag(&self, alloc: Global, key: Key) -> Stated<bool>
        ensures { IfOk result (λ read. read ≡ flag_at self.now.digits self.now.contents.now self.now.section.number key) }
    {
        match self.contents.entry(alloc, self.section, key)? {
            Some((line, text)) => {
                let meant = flag_meant(alloc, self.digits, text.as_slice())?;
                Ok(some_read(clear(line, meant)))
            }
            None => Ok(Ok(None)),
        }
    }

    /// The kind of object.
    pub fn object_type(&self, alloc: Global) -> Stated<ObjectType>
        ensures { IfOk result (λ read. read ≡ object_type_at self.now.digits self.now.contents.now self.now.section.number) }
    {
        match self.contents.entry(alloc, self.section, Key::ObjectType)? {
            Some((line, text)) => {
                let meant = object_type_meant(alloc, self.digits, text.as_slice())?;
                Ok(some_read(or_asked(About::Types, line, meant)))
            }
            None => Ok(Ok(None)),
        }
    }

    /// The number of the data type.
    pub fn data_type(&self, alloc: Global) -> Stated<u64>
        ensures { IfOk result (λ read. read ≡ data_type_at self.now.digits self.now.contents.now self.now.section.number) }
    {
        match self.contents.entry(alloc, self.section, Key::DataType)? {
            Some((line, text)) => {
                let meant = data_type_meant(alloc, self.digits, text.as_slice())?;
                Ok(some_read(typed(line, meant)))
            }
            None => Ok(Ok(None)),
        }
    }

    pub fn access(&self, alloc: Global) -> Stated<Access>
        ensures { IfOk result (λ read. read ≡ access_at self.now.contents.now self.now.section.number) }
    {
        match self.contents.entry(alloc, self.section, Key::AccessType)? {
            Some((line, text)) => {
                let meant = access_meant(alloc, text.as_slice())?;
                Ok(some_read(or_asked(About::Accesses, line, meant)))
            }
            None => Ok(Ok(None)),
        }
    }

    /// Whether PDOs may move the value.
    pub fn is_mappable(&self, alloc: Global) -> Result<Result<bool, Question>, AllocError>
        ensures { IfOk result (λ read. read ≡ mappable_at self.now.digits self.now.contents.now self.now.section.number) }
    {
        Ok(or_no(self.flag(alloc, Key::PdoMapping)?))
    }
}
