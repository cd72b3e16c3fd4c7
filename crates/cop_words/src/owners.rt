//! What is said of a DCF file that was written for another node.

use crate::findings::{EdsLine, Finding};
use crate::hazards::{Text, line_of, shown};
use crate::names::Devices;
use cop_eds::{Amount, Eds};
use std::alloc::{AllocError, Global};
use std::str;

/// The section in which a DCF file says what its device is in a network, as CiA 306 spells it.
const COMMISSIONED: &[u8] = b"DeviceComissioning";

/// The node for which a text was written, with the line that says so.
fn owner_of(eds: &Eds<'_>) -> Option<(usize, u64)> {
    let section = eds.section(COMMISSIONED)?;
    match eds.amount(section, b"NodeID") {
        Ok(Some((line, Amount::Decimal(node) | Amount::Hexadecimal(node)))) => Some((line, node)),
        _ => None,
    }
}

/// What is said of a text that was written for another node.
fn owner_words(
    alloc: Global,
    text: Text<'_, '_, '_>,
    line: usize,
    owner: u64,
) -> Result<String, AllocError> {
    let said = shown(alloc, line_of(text.eds, line))?;
    let devices = Devices(text);
    let node = text.row.node;
    let others = text.others;
    if others == 0 {
        return format!(in alloc;
            "{said}: this is the DCF of node {owner}, and {devices} is node {node}: name the maker's EDS file, or the DCF of this node"
        );
    }
    format!(in alloc;
        "{said}: this is the DCF of node {owner}, and {devices} are several nodes: name the maker's EDS file, or the DCF of each node"
    )
}

/// Adds that a text was written for another node than those that name it.
pub(crate) fn push_owner(
    findings: &mut Vec<Finding>,
    alloc: Global,
    text: Text<'_, '_, '_>,
) -> Result<(), AllocError> {
    let Some((line, owner)) = owner_of(text.eds) else {
        return Ok(());
    };
    let is_node = owner >= 1 && owner <= 127;
    if !is_node || text.others == 0 && owner == u64::from(text.row.node) {
        return Ok(());
    }
    let file = str::from_utf8(text.row.eds.as_bytes()).unwrap_or("");
    findings.push(Finding {
        number: Some(117),
        node: Some(text.row.node),
        record: Some(text.row.place),
        at: Some(EdsLine {
            file: String::from_str(alloc, file)?,
            line,
        }),
        words: owner_words(alloc, text, line, owner)?,
    })?;
    Ok(())
}
