//! The EDS files of a network, by their names.

ghost use Rattle.std.specs.Prelude.{◌≡◌, ◌++◌, ◌∷◌, [], List, IfOk, OnOk};
ghost use Rattle.std.specs.Option.{option_copied, option_map};
ghost use Rattle.cop_eds.specs.Reading.{reading};
ghost use Rattle.cop_net.specs.Devices.{File, handed_in, text_of};
ghost use Rattle.cop_net.specs.Texts.{KnowsReadings};

use cop_dict::Blueprint;
use cop_eds::{EdsFault, Refusal, parse};
use std::alloc::{AllocError, Global};
use std::collections::BTreeMap;
use std::marker::Model;

/// What was read of each text, by the names.
type Readings<'a> = BTreeMap<&'a [u8], Result<Blueprint<'a>, Refusal>>;

/// EDS files, which have names and texts, each read once: of two files with one name the first counts.
#[derive(Drop)]
pub struct EdsFiles<'a> {
    files: &'a [(String, Vec<u8>)],
    readings: Readings<'a>,
}

impl<'a> Model for EdsFiles<'a> {
    ghost use Rattle.std.specs.Prelude.{List};
    ghost use Rattle.cop_net.specs.Devices.{File, handed_in};
    ghost use Rattle.cop_net.specs.Texts.{KnowsReadings};

    ghost Value = { List File };

    ghost view = { λ e. handed_in e.files.now };

    ghost invariant = { λ e. KnowsReadings (handed_in e.files.now) e.readings };
}

/// Reads a text: what it says, or why it is refused.
pub fn read_text<'a>(
    alloc: Global,
    text: &'a [u8],
) -> Result<Result<Blueprint<'a>, Refusal>, AllocError>
    ensures { IfOk result (λ r. r ≡ reading text.now) }
{
    match parse(alloc, text) {
        Ok(eds) => Ok(Ok(Blueprint::new(alloc, eds)?)),
        Err(EdsFault::Refused(refusal)) => Ok(Err(refusal)),
        Err(EdsFault::Memory) => Err(AllocError),
    }
}

/// Reads a text, unless one of its name was read.
fn add_text<'a>(
    alloc: Global,
    readings: &mut Readings<'a>,
    name: &'a [u8],
    text: &'a [u8],
) -> Result<(), AllocError>
    ensures { OnOk result ((files : List File) → KnowsReadings files readings.old → KnowsReadings (files ++ record { name = name.now; text = text.now } ∷ []) readings.new) }
{
    if !readings.contains_key(name) {
        readings.insert(name, read_text(alloc, text)?)?;
    }
    Ok(())
}

/// What the texts of the files say, by the names.
fn readings_of<'a>(
    alloc: Global,
    files: &'a [(String, Vec<u8>)],
) -> Result<Readings<'a>, AllocError>
    ensures { IfOk result (λ m. KnowsReadings (handed_in files.now) m) }
{
    let mut readings = BTreeMap::new(alloc);
    for file in files {
        add_text(alloc, &mut readings, file.0.as_bytes(), file.1.as_slice())?;
    }
    Ok(readings)
}

impl<'a> EdsFiles<'a> {
    /// Reads files: those that are refused too, which is told where a device has such a file.
    pub fn new(alloc: Global, files: &'a [(String, Vec<u8>)]) -> Result<EdsFiles<'a>, AllocError>
        ensures { IfOk result (λ e. e ≡ handed_in files.now) }
    {
        let readings = readings_of(alloc, files)?;
        Ok(EdsFiles { files, readings })
    }

    /// What the file of a name says, or why its text is refused, where there is one.
    pub fn read(&self, name: &[u8]) -> Option<&Result<Blueprint<'a>, Refusal>>
        ensures { option_copied result ≡ option_map reading (text_of self.now name.now) }
    {
        self.readings.get(name)
    }
}
