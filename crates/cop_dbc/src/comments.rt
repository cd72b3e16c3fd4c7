//! Comments of a CAN database.

use std::fmt;

/// A text as a comment has it: quotes and backslashes, which would end it, and what ISO 8859-1 has not are others.
#[derive(Clone, Copy)]
pub(crate) struct Comment<'a>(pub &'a str);

/// What stands in a comment for a character.
fn shown(character: char) -> char {
    match character {
        '"' => '\'',
        '\\' => '/',
        ' '..='~' | '\u{A0}'..='\u{FF}' => character,
        _ => '?',
    }
}

impl fmt::Display for Comment<'_> {
    fn fmt<W: fmt::Write>(&self, f: &mut fmt::Formatter<W>) -> fmt::Result {
        for character in self.0.chars() {
            f.write_char(shown(character))?;
        }
        Ok(())
    }
}
