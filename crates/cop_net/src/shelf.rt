//! EDS files that are read while they are needed.

ghost use Rattle.std.specs.Prelude.{◌≡◌, ◌++◌, ◌∷◌, [], List, Ok, Some, IfOk, OnOk};
ghost use Rattle.std.specs.Option.{option_map};
ghost use Rattle.cop_eds.specs.Reading.{reading};
ghost use Rattle.cop_net.specs.Devices.{File, handed_in, text_of};
ghost use Rattle.cop_net.specs.Texts.{KnowsTexts};

use crate::eds_files::read_text;
use cop_dict::Blueprint;
use cop_eds::Refusal;
use cop_rows::DeviceRow;
use std::alloc::{AllocError, Global};
use std::collections::BTreeMap;
use std::marker::Model;

/// The texts, by the names.
type Texts<'a> = BTreeMap<&'a [u8], &'a [u8]>;

/// EDS files, which have names and texts, each read when the first row that names it takes it, and let go after the last: of
/// two files with one name the first counts.
#[derive(Drop)]
pub struct Shelf<'a> {
    files: &'a [(String, Vec<u8>)],
    texts: Texts<'a>,
    // The last record that names each file: by it what was read is let go, and nothing else rests on it.
    last: BTreeMap<&'a [u8], u64>,
    kept: BTreeMap<&'a [u8], Blueprint<'a>>,
}

impl<'a> Model for Shelf<'a> {
    ghost use Rattle.std.specs.Prelude.{List};
    ghost use Rattle.cop_net.specs.Devices.{File, handed_in};
    ghost use Rattle.cop_net.specs.Texts.{KnowsTexts, AreReadings};

    ghost Value = { List File };

    ghost view = { λ s. handed_in s.files.now };

    ghost invariant = { λ s. KnowsTexts (handed_in s.files.now) s.texts × AreReadings (handed_in s.files.now) s.kept };
}

/// Adds a text, unless there is one of its name.
fn add_text<'a>(texts: &mut Texts<'a>, name: &'a [u8], text: &'a [u8]) -> Result<(), AllocError>
    ensures { OnOk result ((files : List File) → KnowsTexts files texts.old → KnowsTexts (files ++ record { name = name.now; text = text.now } ∷ []) texts.new) }
{
    if !texts.contains_key(name) {
        texts.insert(name, text)?;
    }
    Ok(())
}

/// The texts of the files, by the names.
fn texts_of<'a>(alloc: Global, files: &'a [(String, Vec<u8>)]) -> Result<Texts<'a>, AllocError>
    ensures { IfOk result (λ m. KnowsTexts (handed_in files.now) m) }
{
    let mut texts = BTreeMap::new(alloc);
    for file in files {
        add_text(&mut texts, file.0.as_bytes(), file.1.as_slice())?;
    }
    Ok(texts)
}

/// The last record that names each file.
fn last_records<'a>(
    alloc: Global,
    rows: &'a [DeviceRow],
) -> Result<BTreeMap<&'a [u8], u64>, AllocError> {
    let mut last = BTreeMap::new(alloc);
    for row in rows {
        last.insert(row.eds.as_bytes(), row.place)?;
    }
    Ok(last)
}

impl<'a> Shelf<'a> {
    /// The files, for rows that take them in turn.
    pub fn new(
        alloc: Global,
        files: &'a [(String, Vec<u8>)],
        rows: &'a [DeviceRow],
    ) -> Result<Shelf<'a>, AllocError>
        ensures { IfOk result (λ s. s ≡ handed_in files.now) }
    {
        Ok(Shelf {
            files,
            texts: texts_of(alloc, files)?,
            last: last_records(alloc, rows)?,
            kept: BTreeMap::new(alloc),
        })
    }

    /// What the text of a name says, or why it is refused, where there is one.
    fn read(
        &self,
        alloc: Global,
        name: &[u8],
    ) -> Result<Option<Result<Blueprint<'a>, Refusal>>, AllocError>
        ensures { IfOk result (λ r. r ≡ option_map reading (text_of self.now name.now)) }
    {
        let Some(text) = self.texts.get(name) else {
            return Ok(None);
        };
        Ok(Some(read_text(alloc, text)?))
    }

    /// What the file that a row names says, or why its text is refused, where there is one.
    pub fn take(
        &mut self,
        alloc: Global,
        row: &DeviceRow,
    ) -> Result<Option<Result<Blueprint<'a>, Refusal>>, AllocError>
        ensures read { IfOk result (λ r. r ≡ option_map reading (text_of self.old row.now.eds)) }
        ensures files { self.new ≡ self.old }
    {
        match self.kept.remove(row.eds.as_bytes()) {
            Some(blueprint) => Ok(Some(Ok(blueprint))),
            None => self.read(alloc, row.eds.as_bytes()),
        }
    }

    /// Keeps what a row took for a later one that names the same file.
    pub fn put_back(
        &mut self,
        row: &'a DeviceRow,
        blueprint: Blueprint<'a>,
    ) -> Result<(), AllocError>
        requires { option_map reading (text_of self.now row.now.eds) ≡ Some (Ok blueprint) }
        ensures { self.new ≡ self.old }
    {
        let name = row.eds.as_bytes();
        if let Some(last) = self.last.get(name)
            && row.place < *last
        {
            self.kept.insert(name, blueprint)?;
        }
        Ok(())
    }
}
