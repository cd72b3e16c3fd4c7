//! The files that the program writes.

use crate::failures::{Failure, Use, file_failure};
use cop_engine::Outlet;
use std::alloc::AllocError;
use std::fs;
use std::io::{self, ErrorKind, Write};

/// Writes bytes to standard output.
pub fn print(rt: &HostRuntime, bytes: &[u8]) -> Result<(), Failure> {
    match rt.stdout().write_all(bytes) {
        Ok(()) => Ok(()),
        Err(error) => Err(file_failure(rt, "-", Use::Write, &error)),
    }
}

/// Writes a document to standard output, and the end of its line.
pub fn print_document(rt: &HostRuntime, document: &str) -> Result<(), Failure> {
    print(rt, format!(in rt.alloc(); "{document}\n")?.as_bytes())
}

/// Says what is to be said of an answer, where there was memory for it.
pub fn tell(rt: &HostRuntime, notes: Result<Vec<u8>, AllocError>) {
    if let Ok(words) = notes {
        let _ = rt.stderr().write_all(&words);
    }
}

/// Writes a file under another name, and then gives it its own.
fn write_whole(rt: &HostRuntime, path: &str, bytes: &[u8]) -> io::Result<()> {
    let part = format!(in rt.alloc(); "{path}.part")?;
    let written = write_and_rename(rt, &part, path, bytes);
    if written.is_err() {
        let _ = fs::remove_file(rt, part.as_str());
    }
    written
}

fn write_and_rename(rt: &HostRuntime, part: &str, path: &str, bytes: &[u8]) -> io::Result<()> {
    fs::write(rt, part, bytes)?;
    fs::rename(rt, part, path)
}

/// The regular file to which a link leads, or that there is none.
fn linked(rt: &HostRuntime, path: &str) -> io::Result<Option<String>> {
    match fs::metadata(rt, path) {
        Ok(found) if found.is_file() => Ok(Some(fs::canonicalize(rt, path)?.into_string())),
        Ok(_) => Ok(None),
        Err(error) if error.kind() == ErrorKind::NotFound => Ok(None),
        Err(error) => Err(error),
    }
}

/// The regular file that a path names or will name, through a link too; none where a device, a pipe, a folder or a link that
/// leads to no file has the name.
fn regular(rt: &HostRuntime, path: &str) -> io::Result<Option<String>> {
    match fs::symlink_metadata(rt, path) {
        Ok(found) if found.is_symlink() => linked(rt, path),
        Ok(found) if !found.is_file() => Ok(None),
        Ok(_) => Ok(Some(String::from_str(rt.alloc(), path)?)),
        Err(error) if error.kind() == ErrorKind::NotFound => {
            Ok(Some(String::from_str(rt.alloc(), path)?))
        }
        Err(error) => Err(error),
    }
}

fn write_to(rt: &HostRuntime, path: &str, bytes: &[u8]) -> io::Result<()> {
    match regular(rt, path)? {
        Some(file) => write_whole(rt, &file, bytes),
        None => fs::write(rt, path, bytes),
    }
}

/// Writes a regular file, whole or not at all. What a device or a pipe takes is written into it.
pub fn write_file(rt: &HostRuntime, path: &str, bytes: &[u8]) -> Result<(), Failure> {
    match write_to(rt, path, bytes) {
        Ok(()) => Ok(()),
        Err(error) => Err(file_failure(rt, path, Use::Write, &error)),
    }
}

/// A folder that files are put into, each whole or not at all, and the failure of the first that was not.
#[derive(Drop)]
pub struct Folder<'a> {
    pub rt: &'a HostRuntime,
    pub path: &'a str,
    pub failure: Option<Failure>,
}

impl Folder<'_> {
    fn write(&self, name: &str, bytes: &[u8]) -> Result<(), Failure> {
        let folder = self.path;
        let path = format!(in self.rt.alloc(); "{folder}/{name}")?;
        write_file(self.rt, &path, bytes)
    }
}

impl Outlet for Folder<'_> {
    ghost use Rattle.std.specs.Prelude.{is_some};

    ghost puts = { λ _ _ _. Unit {0} };

    ghost has_failed = { λ f. is_some f.failure };

    fn put(&mut self, name: &str, bytes: &[u8]) -> bool {
        match self.write(name, bytes) {
            Ok(()) => true,
            Err(failure) => {
                self.failure = Some(failure);
                false
            }
        }
    }

    fn failed(&self) -> bool {
        self.failure.is_some()
    }
}
