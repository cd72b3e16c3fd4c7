//! Whether a network passes as it stands, in lines and in words.

use cop_dict::{Dictionary, Object};
use cop_documents::Uncounted;
use cop_net::{Network, PdoRow};
use cop_pdo::exists;
use cop_rta::{Stream, Verdict, response_of};
use cop_standing::{Answer, Standing, StandingFault, slowest};
use std::alloc::{AllocError, Global};
use std::fmt;

/// Ticks of 250 ns, which are shown as microseconds.
#[derive(Clone, Copy)]
struct Micros(u64);

impl fmt::Display for Micros {
    fn fmt<W: fmt::Write>(&self, f: &mut fmt::Formatter<W>) -> fmt::Result {
        let whole = self.0 / 4;
        match self.0 % 4 {
            0 => write!(f, "{whole}"),
            1 => write!(f, "{whole}.25"),
            2 => write!(f, "{whole}.5"),
            _ => write!(f, "{whole}.75"),
        }
    }
}

/// The PDO of a row, as words name it.
#[derive(Clone, Copy)]
struct Named<'a>(&'a PdoRow);

impl<'a> fmt::Display for Named<'a> {
    fn fmt<W: fmt::Write>(&self, f: &mut fmt::Formatter<W>) -> fmt::Result {
        let (tpdo, node) = (self.0.tpdo, self.0.node);
        write!(f, "TPDO {tpdo} of node {node}")
    }
}

/// Adds the lines of the PDOs at a rate at which all pass, in the order of their rows.
fn push_pdos(
    text: &mut String,
    rows: &[PdoRow],
    streams: &[Stream],
    answer: &Answer,
) -> Result<(), AllocError> {
    for (place, row) in rows.iter().enumerate() {
        if let (Some(stream), Some(verdict)) = (streams.get(place), answer.verdicts.get(place)) {
            let (node, tpdo, id, response) = (row.node, row.tpdo, stream.id, response_of(*verdict));
            write!(text, "pdo {node}.{tpdo} id {id:X}h response {response}\n")?;
        }
    }
    Ok(())
}

/// Adds the name of a stream that fails, a PDO or an SDO frame, and its response.
fn push_failing(
    text: &mut String,
    row: Option<&PdoRow>,
    stream: &Stream,
    verdict: Verdict,
) -> Result<(), AllocError> {
    match row {
        Some(row) => write!(text, " pdo {}.{}", row.node, row.tpdo)?,
        None => write!(text, " sdo {:X}", stream.id)?,
    }
    match verdict {
        Verdict::Late { response, .. } => write!(text, " response {response}\n"),
        _ => text.push_str(" long\n"),
    }
}

/// Adds the line of a rate at which some fail: how many, and the first.
fn push_refused(
    text: &mut String,
    rows: &[PdoRow],
    streams: &[Stream],
    answer: &Answer,
) -> Result<(), AllocError> {
    let Some(first) = answer.failing.first() else {
        return Ok(());
    };
    let (kbits, count) = (answer.rate.kbits(), answer.failing.len());
    write!(text, "refused {kbits} failing {count}")?;
    match (streams.get(*first), answer.verdicts.get(*first)) {
        (Some(stream), Some(verdict)) => push_failing(text, rows.get(*first), stream, *verdict),
        _ => text.push_str("\n"),
    }
}

/// The answer of the slowest rate at which all pass.
fn slowest_answer(standing: &Standing) -> Option<&Answer> {
    standing.answers.get(slowest(&standing.answers)?)
}

/// What the test says of a network as it stands: the slowest rate at which all pass, with the PDOs, a line for each rate at which some fail, and one for
/// each PDO that is not counted.
pub fn standing_text(
    alloc: Global,
    network: &Network<'_>,
    standing: &Standing,
    uncounted: &[Uncounted],
) -> Result<String, AllocError> {
    let (rows, streams) = (network.rows(), standing.streams.streams());
    let mut text = String::new(alloc);
    match slowest_answer(standing) {
        Some(answer) => {
            write!(text, "rate {}\n", answer.rate.kbits())?;
            push_pdos(&mut text, rows, streams, answer)?;
        }
        None => text.push_str("no rate passes\n")?,
    }
    for answer in &standing.answers {
        push_refused(&mut text, rows, streams, answer)?;
    }
    for pdo in uncounted {
        let (node, tpdo, id) = (pdo.node, pdo.tpdo, pdo.id);
        write!(text, "uncounted {node}.{tpdo} id {id:X}h\n")?;
    }
    Ok(text)
}

/// Adds what a stream that fails needs, and until when it has time.
fn push_need(
    words: &mut String,
    row: Option<&PdoRow>,
    stream: &Stream,
    verdict: Verdict,
) -> Result<(), AllocError> {
    let (id, deadline) = (stream.id, Micros(stream.deadline.unwrap_or(0)));
    match row {
        Some(row) => write!(words, "{} with {id:X}h", Named(row))?,
        None => write!(words, "the SDO frame {id:X}h")?,
    }
    match verdict {
        Verdict::Late { response, .. } => {
            write!(words, " needs {} us", Micros(response))?;
        }
        _ => words.push_str(" has no busy time that ends within 10 s")?,
    }
    write!(words, ", its deadline is {deadline} us\n")
}

/// Adds all that fail at a rate.
fn push_needs(
    words: &mut String,
    rows: &[PdoRow],
    streams: &[Stream],
    answer: &Answer,
) -> Result<(), AllocError> {
    for place in &answer.failing {
        if let (Some(stream), Some(verdict)) = (streams.get(*place), answer.verdicts.get(*place)) {
            write!(words, "at {} kbit/s ", answer.rate.kbits())?;
            push_need(words, rows.get(*place), stream, *verdict)?;
        }
    }
    Ok(())
}

/// Whether a device has a TPDO that is switched off.
fn is_off(dict: Option<&Dictionary>, tpdo: u16) -> bool {
    let Some(dict) = dict else {
        return false;
    };
    match dict.entry(tpdo.saturating_add(0x17FF), 1) {
        Some(entry) => match entry.unsigned32() {
            Some(cob_id) => !exists(cob_id as u32),
            None => false,
        },
        None => false,
    }
}

/// In words what fails at which rates, which PDOs are switched off in their devices, and which are not counted.
pub fn standing_words(
    alloc: Global,
    network: &Network<'_>,
    standing: &Standing,
    uncounted: &[Uncounted],
) -> Result<String, AllocError> {
    let (rows, streams) = (network.rows(), standing.streams.streams());
    let mut words = String::new(alloc);
    for answer in &standing.answers {
        push_needs(&mut words, rows, streams, answer)?;
    }
    for row in rows {
        if is_off(network.dictionary(row.node), row.tpdo) {
            write!(
                words,
                "{} is switched off in its device: it counts as if it were on\n",
                Named(row)
            )?;
        }
    }
    for pdo in uncounted {
        let (node, tpdo, id) = (pdo.node, pdo.tpdo, pdo.id);
        write!(
            words,
            "TPDO {tpdo} of node {node} is on in its device with {id:X}h, and no row has it: it is not counted\n"
        )?;
    }
    Ok(words)
}

/// Whether a row has the PDO of an object of a node.
fn has_row(rows: &[PdoRow], node: u8, tpdo: u16) -> bool {
    rows.iter().any(|row| row.node == node && row.tpdo == tpdo)
}

/// The TPDO whose COB-ID an object is, with its identifier, if it is on.
fn sent_by(node: u8, object: &Object) -> Option<Uncounted> {
    let index = object.index();
    if index < 0x1800 || index > 0x19FF || object.sub() != 1 {
        return None;
    }
    let cob_id = object.unsigned32()? as u32;
    if !exists(cob_id) {
        return None;
    }
    Some(Uncounted {
        node,
        tpdo: index - 0x17FF,
        id: cob_id % (1 << 29),
    })
}

/// Adds the PDOs that the device of a node sends and that no row has.
fn push_uncounted(
    found: &mut Vec<Uncounted>,
    rows: &[PdoRow],
    node: u8,
    dict: &Dictionary,
) -> Result<(), AllocError> {
    for object in dict.entries() {
        if let Some(pdo) = sent_by(node, object)
            && !has_row(rows, pdo.node, pdo.tpdo)
        {
            found.push(pdo)?;
        }
    }
    Ok(())
}

/// The PDOs that devices send by their EDS files and that no row has, so that no test counts them: by the devices' rows, and by number.
pub fn uncounted_pdos(alloc: Global, network: &Network<'_>) -> Result<Vec<Uncounted>, AllocError> {
    let mut found = Vec::new(alloc);
    for device in network.devices() {
        if let Some(dict) = network.dictionary(device.node) {
            push_uncounted(&mut found, network.rows(), device.node, dict)?;
        }
    }
    Ok(found)
}

/// Why a network cannot be tested as it stands: what its devices have for the PDO of a row.
pub fn standing_reason(
    alloc: Global,
    network: &Network<'_>,
    fault: StandingFault,
) -> Result<String, AllocError> {
    let rows = network.rows();
    let mut words = String::new(alloc);
    match fault {
        StandingFault::Outside { row, id } => {
            if let Some(row) = rows.get(row) {
                write!(
                    words,
                    "{} has {id:X}h in its device, which no PDO may have\n",
                    Named(row)
                )?;
            }
        }
        StandingFault::Taken { row, earlier } => {
            if let (Some(row), Some(other)) = (rows.get(row), rows.get(earlier)) {
                write!(
                    words,
                    "{} and {} have the same identifier\n",
                    Named(row),
                    Named(other)
                )?;
            }
        }
        StandingFault::Memory => {}
    }
    Ok(words)
}
