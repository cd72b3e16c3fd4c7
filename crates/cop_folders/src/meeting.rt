//! Tables to start from, made for the nodes on a bus of the EDS files of a folder.

use crate::devices::described;
use crate::notes::Notes;
use crate::starting::{Found, check_free_tables, finish, is_copied};
use crate::usable::made_usable;
use cop_eds::{EdsFault, Refusal};
use cop_files::{Failure, eds_names, read_file};
use cop_fitting::{Identity, Node, places, stated};
use cop_orders::InitOrder;
use std::alloc::AllocError;

/// An EDS file that may be a node's.
#[derive(Drop)]
struct Candidate {
    name: String,
    text: Vec<u8>,
    /// What plan refused in it, if tidy mended it.
    refused: Option<Refusal>,
}

/// The EDS files of a folder, and what each of them states of its device.
#[derive(Drop)]
struct Candidates {
    files: Vec<Candidate>,
    stated: Vec<Identity>,
}

impl Candidates {
    /// Adds a file, or notes why it is left out.
    fn add(
        &mut self,
        notes: &mut Notes,
        name: String,
        text: Vec<u8>,
        is_copied: bool,
    ) -> Result<(), AllocError> {
        let Some(found) = made_usable(notes, &name, text, 1, is_copied)? else {
            return Ok(());
        };
        self.stated.push(stated(&found.dictionary))?;
        self.files.push(Candidate {
            name,
            text: found.text,
            refused: found.refused,
        })?;
        Ok(())
    }

    /// The names of the files at some places.
    fn names(&self, notes: &Notes, places: &[usize]) -> Result<String, AllocError> {
        let mut names = String::new(notes.alloc());
        for place in places {
            if let Some(file) = self.files.get(*place) {
                if !names.is_empty() {
                    names.push_str(", ")?;
                }
                names.push_str(&file.name)?;
            }
        }
        Ok(names)
    }
}

/// Takes a file for a node, or notes that plan refuses what it describes for this one.
fn take(found: &mut Found, node: u8, file: &Candidate) -> Result<(), AllocError> {
    match described(found.notes.alloc(), &file.text, node) {
        Ok(dictionary) => {
            if let Some(refused) = file.refused
                && !found.has(&file.name)
            {
                found.notes.mended(&file.name, refused)?;
            }
            found.take(node, &file.name, &file.text, dictionary)
        }
        Err(EdsFault::Refused(refusal)) => found.notes.refused_for(node, &file.name, refusal),
        Err(EdsFault::Memory) => Err(AllocError),
    }
}

/// Takes the file that fits a node, if there is exactly one, or notes why the node is left out.
fn meet(found: &mut Found, all: &Candidates, one: Node) -> Result<(), AllocError> {
    let fitting = places(found.notes.alloc(), &all.stated, one.told)?;
    match fitting.as_slice() {
        [] => found.notes.unfitted(one),
        [place] => match all.files.get(*place) {
            Some(file) => take(found, one.node, file),
            None => Ok(()),
        },
        several => {
            let names = all.names(&found.notes, several)?;
            found.notes.several(one.node, &names)
        }
    }
}

/// The EDS files of a folder, and what each of them states of its device.
fn read_candidates(
    rt: &HostRuntime,
    notes: &mut Notes,
    folder: &str,
    is_copied: bool,
) -> Result<Candidates, Failure> {
    let alloc = rt.alloc();
    let mut all = Candidates {
        files: Vec::new(alloc),
        stated: Vec::new(alloc),
    };
    for name in eds_names(rt, folder)? {
        let path = format!(in alloc; "{folder}/{name}")?;
        let text = read_file(rt, &path)?;
        all.add(notes, name, text, is_copied)?;
    }
    Ok(all)
}

/// Refuses to make tables where one of their files is there already, or a folder is not.
#[inline(never)]
pub fn check_free_out(rt: &HostRuntime, order: InitOrder<'_>) -> Result<(), Failure> {
    is_copied(rt, order)?;
    check_free_tables(rt, order.out)
}

/// Makes tables to start from for the nodes on a bus, by rising node: each gets the one file of a folder that fits its device. What is
/// left out is told, and each guess, and then they are written. Nothing that is there is replaced. The status is 3 if no node is taken.
#[inline(never)]
pub fn start_at_bus(rt: &HostRuntime, order: InitOrder<'_>, nodes: &[Node]) -> Result<u8, Failure> {
    let is_copied = is_copied(rt, order)?;
    let mut found = Found::new(rt.alloc());
    let all = read_candidates(rt, &mut found.notes, order.folder, is_copied)?;
    for one in nodes {
        meet(&mut found, &all, *one)?;
    }
    finish(rt, order, found, is_copied)
}
