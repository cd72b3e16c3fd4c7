//! What is read for an order.

use crate::failures::{Failure, Use, file_failure};
use cop_answers::{Tables, Texts, beside};
use cop_engine::read_all;
use cop_net::{NodeTable, read_nodes, read_settings};
use cop_orders::NetworkFiles;
use cop_plan::Asked;
use std::collections::BTreeSet;
use std::fs::File;
use std::{io, str};

/// The greatest size of a file that is read as a whole: 64 MiB.
const GREATEST: u64 = 64 * 1024 * 1024;

/// A file that is to be read.
pub fn open_file(rt: &HostRuntime, name: &str) -> Result<File, Failure> {
    match File::open(rt, name) {
        Ok(file) => Ok(file),
        Err(error) => Err(file_failure(rt, name, Use::Read, &error)),
    }
}

/// Whether a file can be read again from its beginning, as no pipe can.
pub fn is_regular(file: &File) -> bool {
    matches!(file.metadata(), Ok(found) if found.is_file())
}

/// How many bytes a file has by its metadata, 0 where these tell nothing of them.
fn length_of(file: &File) -> u64 {
    match file.metadata() {
        Ok(found) => found.len(),
        Err(_) => 0,
    }
}

/// The bytes of an open file of at most 64 MiB. Nothing is read of one that says that it has more.
pub fn read_opened(rt: &HostRuntime, name: &str, file: File) -> Result<Vec<u8>, Failure> {
    let expected = length_of(&file);
    if expected > GREATEST {
        let error = io::Error::from(io::ErrorKind::FileTooLarge);
        return Err(file_failure(rt, name, Use::Read, &error));
    }
    match read_all(rt.alloc(), file, expected) {
        Ok(bytes) => Ok(bytes),
        Err(error) => Err(file_failure(rt, name, Use::Read, &error)),
    }
}

/// The bytes of a file of at most 64 MiB.
pub fn read_file(rt: &HostRuntime, name: &str) -> Result<Vec<u8>, Failure> {
    let file = open_file(rt, name)?;
    read_opened(rt, name, file)
}

/// The bytes of a file, or of standard input for `-`.
pub fn read_input(rt: &HostRuntime, name: &str) -> Result<Vec<u8>, Failure> {
    if name != "-" {
        return read_file(rt, name);
    }
    match read_all(rt.alloc(), rt.stdin(), 0) {
        Ok(bytes) => Ok(bytes),
        Err(error) => Err(file_failure(rt, name, Use::Read, &error)),
    }
}

/// The EDS files that devices name, which lie in the folder of their table. Each is read once.
fn read_each(
    rt: &HostRuntime,
    named: &str,
    nodes: &NodeTable,
) -> Result<Vec<(String, Vec<u8>)>, Failure> {
    let mut known = BTreeSet::new(rt.alloc());
    let mut files = Vec::new(rt.alloc());
    for device in nodes.devices() {
        let Ok(name) = str::from_utf8(device.eds.as_bytes()) else {
            continue;
        };
        if known.insert(name)? {
            let bytes = read_file(rt, &beside(rt.alloc(), named, name)?)?;
            files.push((String::from_str(rt.alloc(), name)?, bytes))?;
        }
    }
    Ok(files)
}

/// Reads the bytes of the tables of a network.
pub fn read_tables(
    rt: &HostRuntime,
    texts: &mut Texts,
    files: NetworkFiles<'_>,
) -> Result<(), Failure> {
    texts.nodes = read_file(rt, files.nodes)?;
    texts.pdos = read_file(rt, files.pdos)?;
    if let Some(setup) = files.setup {
        texts.settings = read_file(rt, setup)?;
    }
    texts.asked = Asked {
        rates: files.rates.set(),
        choice: files.choice,
    };
    Ok(())
}

/// Reads the EDS files of the devices of a network, once the bytes of its tables are read, and gives these tables.
pub fn read_eds_files(
    rt: &HostRuntime,
    texts: &mut Texts,
    files: NetworkFiles<'_>,
) -> Result<Tables, Failure> {
    let mut nodes = read_nodes(rt.alloc(), &texts.nodes)?;
    if files.setup.is_some() {
        nodes = read_settings(rt.alloc(), nodes, &texts.settings)?;
    }
    texts.eds_files = read_each(rt, files.nodes, &nodes)?;
    Ok(texts.tables(rt.alloc(), nodes)?)
}

/// Reads the tables and the EDS files of a network, and gives its tables.
pub fn read_network(
    rt: &HostRuntime,
    texts: &mut Texts,
    files: NetworkFiles<'_>,
) -> Result<Tables, Failure> {
    read_tables(rt, texts, files)?;
    read_eds_files(rt, texts, files)
}
