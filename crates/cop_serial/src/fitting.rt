//! EDS files that fit the devices on a bus.

use cop_dict::{Dictionary, build};
use cop_eds::{EdsFault, parse};
use cop_files::{Failure, eds_names, read_file};
use cop_fitting::{Identity, places, stated};
use cop_scan::Found;
use std::alloc::{AllocError, Global};

/// EDS files, and what each of them states of its device.
#[derive(Drop)]
pub(crate) struct Descriptions {
    names: Vec<String>,
    stated: Vec<Identity>,
}

fn described(alloc: Global, text: &[u8]) -> Result<Dictionary, EdsFault> {
    let eds = parse(alloc, text)?;
    build(alloc, &eds, 1)
}

/// What the EDS files of a folder say of their devices. A file that plan refuses says nothing.
pub(crate) fn read_descriptions(rt: &HostRuntime, folder: &str) -> Result<Descriptions, Failure> {
    let alloc = rt.alloc();
    let mut all = Descriptions {
        names: Vec::new(alloc),
        stated: Vec::new(alloc),
    };
    for name in eds_names(rt, folder)? {
        let path = format!(in alloc; "{folder}/{name}")?;
        let text = read_file(rt, &path)?;
        match described(alloc, &text) {
            Ok(dictionary) => {
                all.names.push(name)?;
                all.stated.push(stated(&dictionary))?;
            }
            Err(EdsFault::Refused(_)) => {}
            Err(EdsFault::Memory) => return Err(Failure::from(AllocError)),
        }
    }
    Ok(all)
}

/// What a device told of what it is.
pub(crate) fn identity_of(found: &Found) -> Identity {
    Identity {
        device_type: found.device_type,
        vendor: found.vendor,
        product: found.product,
        revision: found.revision,
    }
}

/// The names of the files that fit a device: those of its revision, and if there is none, those of any.
fn fitting(alloc: Global, all: &Descriptions, found: &Found) -> Result<Vec<String>, AllocError> {
    let mut names = Vec::new(alloc);
    for place in places(alloc, &all.stated, identity_of(found))? {
        if let Some(name) = all.names.get(place) {
            names.push(String::from_str(alloc, name)?)?;
        }
    }
    Ok(names)
}

/// The names of the files that fit a device, if there is a folder of them.
pub(crate) fn fitting_if(
    alloc: Global,
    all: Option<&Descriptions>,
    found: &Found,
) -> Result<Option<Vec<String>>, AllocError> {
    match all {
        Some(all) => Ok(Some(fitting(alloc, all, found)?)),
        None => Ok(None),
    }
}
