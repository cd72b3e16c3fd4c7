//! The lines of a text that is rewritten.

use crate::text::{Form, form_of, from, pair, same_name, sign_of, trim, upto};
use cop_change::{Cause, Change};
use cop_tidy_lines::Key;
use std::alloc::{AllocError, Global};

/// A line: its bytes as they were, and as they are now where they were changed.
#[derive(Drop)]
pub struct Row<'a> {
    pub old: &'a [u8],
    pub new: Option<Vec<u8>>,
    /// The number of the line, from 1; of an added line that of the line before it.
    pub place: usize,
    pub is_added: bool,
    pub cause: Cause,
    /// What the strict reading sees in the bytes as they are now.
    form: Form,
    /// Where their first equals sign stands; their length where they have none.
    sign: usize,
    /// What its key means in its section, where that is known.
    pub meant: Option<Key>,
}

impl<'a> Row<'a> {
    /// The line of a text at this place.
    fn read(line: &'a [u8], place: usize) -> Row<'a> {
        Row {
            old: line,
            new: None,
            place,
            is_added: false,
            cause: Cause::Value,
            form: form_of(line),
            sign: sign_of(line),
            meant: None,
        }
    }

    /// A line that is added behind the one at this place.
    fn added(addition: Addition, place: usize) -> Row<'a> {
        Row {
            old: b"",
            form: form_of(&addition.body),
            sign: sign_of(&addition.body),
            new: Some(addition.body),
            place,
            is_added: true,
            cause: addition.cause,
            meant: None,
        }
    }

    /// The bytes as they are now.
    pub fn body(&self) -> &[u8] {
        match &self.new {
            Some(body) => body,
            None => self.old,
        }
    }

    pub fn form(&self) -> Form {
        self.form
    }

    /// Where the first equals sign stands; the length where there is none.
    pub fn sign(&self) -> usize {
        self.sign
    }

    /// What stands before the first equals sign, without blanks round it.
    pub fn key(&self) -> &[u8] {
        trim(upto(self.body(), self.sign))
    }

    /// Whether the line is a pair of this key.
    pub fn has_key(&self, key: &[u8]) -> bool {
        self.form == Form::Pair && same_name(self.key(), key)
    }

    /// What stands behind the first equals sign, without blanks round it.
    pub fn value(&self) -> &[u8] {
        trim(from(self.body(), self.sign.saturating_add(1)))
    }

    /// Gives the line other bytes.
    pub fn set(&mut self, body: Vec<u8>, cause: Cause) {
        self.form = form_of(&body);
        self.sign = sign_of(&body);
        self.meant = None;
        self.new = Some(body);
        self.cause = cause;
    }

    /// Makes the line a comment.
    pub fn comment(&mut self, alloc: Global, cause: Cause) -> Result<(), AllocError> {
        let mut body = Vec::from_slice(alloc, b";")?;
        body.extend_from_slice(self.body())?;
        self.set(body, cause);
        Ok(())
    }

    /// Gives the key of the line another value.
    pub fn set_value(
        &mut self,
        alloc: Global,
        value: &[u8],
        cause: Cause,
    ) -> Result<(), AllocError> {
        if value != self.value() {
            let body = pair(alloc, self.key(), value)?;
            let meant = self.meant;
            self.set(body, cause);
            self.meant = meant;
        }
        Ok(())
    }

    /// The change by which the line came to its bytes, where they are other ones.
    pub fn into_change(self, alloc: Global) -> Result<Option<Change>, AllocError> {
        let Row {
            old,
            new,
            place,
            is_added,
            cause,
            ..
        } = self;
        let Some(new) = new else {
            return Ok(None);
        };
        if !is_added && new.as_slice() == old {
            return Ok(None);
        }
        Ok(Some(Change {
            place,
            is_added,
            old: Vec::from_slice(alloc, old)?,
            new,
            cause,
        }))
    }
}

/// A line that is to be added behind the row at a place.
#[derive(Drop)]
pub struct Addition {
    pub behind: usize,
    pub body: Vec<u8>,
    pub cause: Cause,
}

/// How many bytes a mark at the front of a text takes.
pub fn mark_len(text: &[u8]) -> usize {
    if text.starts_with(&[0xEF, 0xBB, 0xBF]) {
        3
    } else {
        0
    }
}

/// The first line without its end, and what follows it.
pub fn first_line(text: &[u8]) -> (&[u8], &[u8]) {
    let Some(end) = text.iter().position(|b| *b == b'\n') else {
        return (text, from(text, text.len()));
    };
    let rest = from(text, end.saturating_add(1));
    match upto(text, end) {
        [line @ .., b'\r'] => (line, rest),
        line => (line, rest),
    }
}

/// The lines of a text.
pub fn rows_of<'a>(alloc: Global, text: &'a [u8]) -> Result<Vec<Row<'a>>, AllocError> {
    let mut rows = Vec::new(alloc);
    let mut rest = from(text, mark_len(text));
    for at in 0..text.len() {
        if rest.is_empty() {
            break;
        }
        let (line, next) = first_line(rest);
        rows.push(Row::read(line, at.saturating_add(1)))?;
        rest = next;
    }
    Ok(rows)
}

/// Adds the lines behind the row at this place.
fn add_behind<'a>(
    rows: &mut Vec<Row<'a>>,
    additions: &mut Vec<Addition>,
    at: usize,
    place: usize,
) -> Result<(), AllocError> {
    for _ in 0..additions.len() {
        let is_here = additions.last().is_some_and(|next| next.behind <= at);
        if !is_here {
            break;
        }
        if let Some(next) = additions.pop() {
            rows.push(Row::added(next, place))?;
        }
    }
    Ok(())
}

/// The rows with lines added behind some of them, those behind one row in their order.
pub fn with_additions<'a>(
    alloc: Global,
    rows: Vec<Row<'a>>,
    mut additions: Vec<Addition>,
) -> Result<Vec<Row<'a>>, AllocError> {
    if additions.is_empty() {
        return Ok(rows);
    }
    additions.sort_by_key(|addition| addition.behind)?;
    additions.reverse();
    let mut all = Vec::with_capacity(alloc, rows.len().saturating_add(additions.len()))?;
    let mut at = 0usize;
    for row in rows {
        let place = row.place;
        all.push(row)?;
        add_behind(&mut all, &mut additions, at, place)?;
        at = at.saturating_add(1);
    }
    Ok(all)
}
