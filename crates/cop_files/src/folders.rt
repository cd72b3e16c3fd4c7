//! EDS files in a folder.

use crate::failures::{Failure, Use, file_failure};
use std::{fs, io};

fn is_eds_name(name: &str) -> bool {
    match name.as_bytes() {
        [_, .., b'.', e, d, s] => [*e, *d, *s].eq_ignore_ascii_case(b"eds"),
        _ => false,
    }
}

fn names_in(rt: &HostRuntime, folder: &str) -> io::Result<Vec<String>> {
    let mut names = Vec::new(rt.alloc());
    for entry in fs::read_dir(rt, folder)? {
        let entry = entry?;
        if is_eds_name(entry.file_name()) {
            names.push(String::from_str(rt.alloc(), entry.file_name())?)?;
        }
    }
    names.sort()?;
    Ok(names)
}

/// The names of the EDS files of a folder, in their order.
pub fn eds_names(rt: &HostRuntime, folder: &str) -> Result<Vec<String>, Failure> {
    match names_in(rt, folder) {
        Ok(names) => Ok(names),
        Err(error) => Err(file_failure(rt, folder, Use::Read, &error)),
    }
}
