//! Tables to start from, made of the EDS files of a folder.

use crate::notes::{Notes, tell_rows};
use crate::usable::{Usable, made_usable};
use cop_dict::Dictionary;
use cop_engine::Fault;
use cop_files::{Failure, Use, eds_names, file_failure, print, read_file, tell, write_file};
use cop_orders::{InitOrder, ScanOrder};
use cop_start::{Start, Tables, first_tables};
use cop_written::{node_text, pdo_text};
use std::alloc::{AllocError, Global};
use std::{fs, io};

/// The project file of the tables.
const PROJECT: &[u8] = b"nodes = \"nodes.csv\"\npdos = \"pdos.csv\"\n";

/// The files that are always written.
const WRITTEN: [&str; 3] = ["nodes.csv", "pdos.csv", "network.toml"];

/// An EDS file that the table of nodes names.
#[derive(Drop)]
struct Taken {
    name: String,
    text: Vec<u8>,
}

/// What is found in a folder.
#[derive(Drop)]
pub(crate) struct Found {
    start: Start,
    taken: Vec<Taken>,
    pub notes: Notes,
}

impl Found {
    /// Nothing yet.
    pub(crate) fn new(alloc: Global) -> Found {
        Found {
            start: Start::new(alloc),
            taken: Vec::new(alloc),
            notes: Notes::new(alloc),
        }
    }

    /// Whether a file of this name was taken.
    pub(crate) fn has(&self, name: &str) -> bool {
        self.taken.iter().any(|file| file.name.as_str() == name)
    }

    /// Takes a file for a node, with what it describes for this one.
    pub(crate) fn take(
        &mut self,
        node: u8,
        name: &str,
        text: &[u8],
        dictionary: Dictionary,
    ) -> Result<(), AllocError> {
        let alloc = self.notes.alloc();
        let file = Vec::from_slice(alloc, name.as_bytes())?;
        if self.start.add(node, file, dictionary)? && !self.has(name) {
            let name = String::from_str(alloc, name)?;
            let text = Vec::from_slice(alloc, text)?;
            self.taken.push(Taken { name, text })?;
        }
        Ok(())
    }

    /// Takes a file for the next node, or notes why it is left out.
    fn look_at(&mut self, name: &str, text: Vec<u8>, is_copied: bool) -> Result<(), AllocError> {
        let Some(node) = self.start.next_node() else {
            return self.notes.left(name, "a network has 127 nodes at most");
        };
        let Some(found) = made_usable(&mut self.notes, name, text, node, is_copied)? else {
            return Ok(());
        };
        let Usable {
            text,
            dictionary,
            refused,
        } = found;
        if let Some(refused) = refused {
            self.notes.mended(name, refused)?;
        }
        self.take(node, name, &text, dictionary)
    }
}

/// The path of a folder without links.
fn real_path(rt: &HostRuntime, path: &str) -> Result<String, Failure> {
    match fs::canonicalize(rt, path) {
        Ok(found) => Ok(found.into_string()),
        Err(error) => Err(file_failure(rt, path, Use::Read, &error)),
    }
}

/// Whether the EDS files are copied: the tables are written to another folder.
pub(crate) fn is_copied(rt: &HostRuntime, order: InitOrder<'_>) -> Result<bool, Failure> {
    let folder = real_path(rt, order.folder)?;
    let out = real_path(rt, order.out)?;
    Ok(folder.as_str() != out.as_str())
}

/// What is found in the files of a folder. They are copied into another one, if the tables are written there.
fn look(rt: &HostRuntime, folder: &str, is_copied: bool) -> Result<Found, Failure> {
    let alloc = rt.alloc();
    let mut found = Found::new(alloc);
    for name in eds_names(rt, folder)? {
        let path = format!(in alloc; "{folder}/{name}")?;
        let text = read_file(rt, &path)?;
        found.look_at(&name, text, is_copied)?;
    }
    Ok(found)
}

/// Refuses to write a file of a folder that is there already.
fn check_free(rt: &HostRuntime, folder: &str, name: &str) -> Result<(), Failure> {
    let alloc = rt.alloc();
    let path = format!(in alloc; "{folder}/{name}")?;
    if fs::symlink_metadata(rt, path.as_str()).is_err() {
        return Ok(());
    }
    let reason = String::from_str(alloc, "it is there already, and nothing is replaced\n")?;
    Err(Failure {
        fault: Fault::File(path),
        reason: Some(reason),
    })
}

/// Refuses to replace any of the files that are always written.
pub(crate) fn check_free_tables(rt: &HostRuntime, out: &str) -> Result<(), Failure> {
    for name in WRITTEN {
        check_free(rt, out, name)?;
    }
    Ok(())
}

/// Refuses to replace any file.
fn check_all_free(
    rt: &HostRuntime,
    out: &str,
    taken: &[Taken],
    is_copied: bool,
) -> Result<(), Failure> {
    check_free_tables(rt, out)?;
    if is_copied {
        for file in taken {
            check_free(rt, out, &file.name)?;
        }
    }
    Ok(())
}

fn write_in(rt: &HostRuntime, folder: &str, name: &str, bytes: &[u8]) -> Result<(), Failure> {
    let path = format!(in rt.alloc(); "{folder}/{name}")?;
    write_file(rt, &path, bytes)
}

/// Writes the tables, and beside them the EDS files that they name.
fn write_all(
    rt: &HostRuntime,
    out: &str,
    tables: &Tables,
    copied: &[Taken],
) -> Result<(), Failure> {
    let alloc = rt.alloc();
    let nodes = node_text(alloc, &tables.devices, &tables.frames)?;
    let pdos = pdo_text(alloc, &tables.rows)?;
    for file in copied {
        write_in(rt, out, &file.name, &file.text)?;
    }
    write_in(rt, out, "nodes.csv", &nodes)?;
    write_in(rt, out, "pdos.csv", &pdos)?;
    write_in(rt, out, "network.toml", PROJECT)
}

/// Gives the answer: on standard error if standard output is the port of the bus.
fn answer(rt: &HostRuntime, order: InitOrder<'_>, text: Vec<u8>) -> Result<(), Failure> {
    if let Some(ScanOrder { port: "-", .. }) = order.scan {
        tell(rt, Ok(text));
        Ok(())
    } else {
        print(rt, &text)
    }
}

/// Tells what is found, and writes its tables. The status is 3 if there is no device.
pub(crate) fn finish(
    rt: &HostRuntime,
    order: InitOrder<'_>,
    found: Found,
    is_copied: bool,
) -> Result<u8, Failure> {
    let Found {
        start,
        taken,
        mut notes,
    } = found;
    check_all_free(rt, order.out, &taken, is_copied)?;
    let tables = first_tables(rt.alloc(), &start)?;
    tell_rows(&mut notes, &start, &tables)?;
    answer(rt, order, notes.into_bytes())?;
    if taken.is_empty() {
        return Ok(3);
    }
    let copied = if is_copied { taken.as_slice() } else { &[] };
    write_all(rt, order.out, &tables, copied)?;
    Ok(0)
}

/// Makes tables to start from of the EDS files of a folder: each guess is told, and then they are written. Nothing that is there is
/// replaced. The status is 3 if no file is one that plan reads.
#[inline(never)]
pub fn start_tables(rt: &HostRuntime, order: InitOrder<'_>) -> Result<u8, Failure> {
    let is_copied = is_copied(rt, order)?;
    let found = look(rt, order.folder, is_copied)?;
    finish(rt, order, found, is_copied)
}
