//! What is said of devices that have no rate in common, or none of those that are listed.

use crate::devices::{accepted, text_named};
use crate::networks::Network;
use crate::words::push_shown;
use cop_frame::{Rate, RateSet};
use cop_net::NodeTable;
use std::alloc::{AllocError, Global};

/// Whether the rates that a plan may have are not all.
pub(crate) fn is_list(wanted: &RateSet) -> bool {
    Rate::ALL.iter().any(|rate| !wanted.contains(*rate))
}

/// Adds some rates.
fn push_rates(words: &mut Vec<u8>, alloc: Global, rates: &RateSet) -> Result<(), AllocError> {
    if rates.slowest().is_none() {
        words.extend_from_slice(b" none")?;
        return Ok(());
    }
    for rate in Rate::ALL.iter() {
        if rates.contains(*rate) {
            let kbits = rate.kbits();
            let said = format!(in alloc; " {kbits}")?;
            words.extend_from_slice(said.as_bytes())?;
        }
    }
    words.extend_from_slice(b" kbit/s")?;
    Ok(())
}

/// Adds the name of an EDS file with some rates.
fn push_supported(
    words: &mut Vec<u8>,
    alloc: Global,
    name: &[u8],
    rates: &RateSet,
) -> Result<(), AllocError> {
    push_shown(words, name)?;
    words.extend_from_slice(b" supports")?;
    push_rates(words, alloc, rates)?;
    words.push(b'\n')?;
    Ok(())
}

/// Adds an EDS file with its rates.
fn push_file(
    words: &mut Vec<u8>,
    alloc: Global,
    files: Network<'_>,
    name: &[u8],
) -> Result<(), AllocError> {
    let Some(text) = text_named(files.eds_files, name) else {
        return Ok(());
    };
    match accepted(alloc, text)? {
        Some(eds) => push_supported(words, alloc, name, &eds.rates()),
        None => Ok(()),
    }
}

/// Adds the rates that are listed, where not all may be taken.
fn push_listed(words: &mut Vec<u8>, alloc: Global, wanted: &RateSet) -> Result<(), AllocError> {
    if !is_list(wanted) {
        return Ok(());
    }
    words.extend_from_slice(b"--rates lists")?;
    push_rates(words, alloc, wanted)?;
    words.push(b'\n')?;
    Ok(())
}

/// Adds each EDS file of the devices with its rates, once, and the rates that are listed.
pub(crate) fn push_all_rates(
    words: &mut Vec<u8>,
    alloc: Global,
    files: Network<'_>,
    nodes: &NodeTable,
) -> Result<(), AllocError> {
    let devices = nodes.devices();
    for (at, device) in devices.iter().enumerate() {
        let name = device.eds.as_bytes();
        let is_first = !devices[..at]
            .iter()
            .any(|other| other.eds.as_bytes() == name);
        if is_first {
            push_file(words, alloc, files, name)?;
        }
    }
    push_listed(words, alloc, files.wanted)
}
