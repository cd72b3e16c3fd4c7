//! The files of an earlier plan in a folder.

use crate::failures::{Failure, Use, file_failure};
use std::fs;
use std::io::{self, ErrorKind};

/// The files that a plan has for nodes in a folder.
#[derive(Clone, Copy)]
pub struct NodeFiles<'a> {
    /// How their names end, behind node-005 and so on.
    pub ending: &'a str,
    pub names: &'a [String],
}

impl NodeFiles<'_> {
    /// Whether a name is that of such a file of some node.
    fn could_have(&self, name: &str) -> bool {
        let Some(rest) = name.strip_prefix("node-") else {
            return false;
        };
        let Some(node) = rest.strip_suffix(self.ending) else {
            return false;
        };
        let is_number = node.len() == 3 && node.bytes().all(|digit| digit.is_ascii_digit());
        is_number && node >= "001" && node <= "127"
    }

    /// Whether a name is that of such a file, and the plan has it not.
    fn has_earlier(&self, name: &str) -> bool {
        self.could_have(name) && !self.names.iter().any(|known| known.as_str() == name)
    }
}

/// Removes a regular file or a link, where one has the name.
fn remove(rt: &HostRuntime, path: &str) -> io::Result<()> {
    match fs::symlink_metadata(rt, path) {
        Ok(found) if found.is_file() || found.is_symlink() => fs::remove_file(rt, path),
        Ok(_) => Ok(()),
        Err(error) if error.kind() == ErrorKind::NotFound => Ok(()),
        Err(error) => Err(error),
    }
}

/// Removes the file of a name from a folder, where it is one of an earlier plan.
fn remove_if_earlier(
    rt: &HostRuntime,
    folder: &str,
    name: &str,
    files: NodeFiles<'_>,
) -> Result<(), Failure> {
    if !files.has_earlier(name) {
        return Ok(());
    }
    let path = format!(in rt.alloc(); "{folder}/{name}")?;
    match remove(rt, &path) {
        Ok(()) => Ok(()),
        Err(error) => Err(file_failure(rt, &path, Use::Remove, &error)),
    }
}

/// Removes from a folder the files for nodes that a plan has none for, which are of an earlier plan.
pub fn remove_earlier(rt: &HostRuntime, folder: &str, files: NodeFiles<'_>) -> Result<(), Failure> {
    let entries = match fs::read_dir(rt, folder) {
        Ok(entries) => entries,
        Err(error) => return Err(file_failure(rt, folder, Use::Read, &error)),
    };
    for entry in entries {
        match entry {
            Ok(entry) => remove_if_earlier(rt, folder, entry.file_name(), files)?,
            // No plan gave such a name.
            Err(error) if error.kind() == ErrorKind::InvalidFilename => {}
            Err(error) => return Err(file_failure(rt, folder, Use::Read, &error)),
        }
    }
    Ok(())
}
