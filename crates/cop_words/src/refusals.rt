//! What is said of the rates that a plan refuses, and of those that a refusal file leaves out.

use crate::names::{Micros, PdoName, tpdo_of};
use cop_cert::Refusal;
use cop_figures::{Failing, FailingFrame, Reason, RefusedRate};
use cop_frame::Rate;
use cop_net::{Network, PdoRow};
use cop_rta::Verdict;
use std::alloc::{AllocError, Global};
use std::fmt;

/// What a frame needs, and until when it has time.
#[derive(Clone, Copy)]
struct Needs {
    verdict: Verdict,
    deadline: Option<u64>,
}

impl fmt::Display for Needs {
    fn fmt<W: fmt::Write>(&self, f: &mut fmt::Formatter<W>) -> fmt::Result {
        let deadline = Micros(self.deadline.unwrap_or(0));
        match self.verdict {
            Verdict::Late { response, .. } => {
                let response = Micros(response);
                write!(f, "needs {response} us, its deadline is {deadline} us")
            }
            _ => write!(
                f,
                "has no busy time that ends within 10 s, its deadline is {deadline} us"
            ),
        }
    }
}

/// By how much a member misses its deadline, in ticks.
fn miss_of(member: &Failing) -> u64 {
    match member.verdict {
        Verdict::Late { response, .. } => response.saturating_sub(member.deadline.unwrap_or(0)),
        _ => u64::MAX,
    }
}

/// The member that is told of: the first of those that miss their deadlines by least.
fn told(members: &[Failing]) -> Option<&Failing> {
    let mut nearest = members.first()?;
    for member in members {
        if miss_of(member) < miss_of(nearest) {
            nearest = member;
        }
    }
    Some(nearest)
}

/// What is said of PDOs of which none can have the lowest priority among them, by one of them.
fn member_words(
    alloc: Global,
    row: &PdoRow,
    member: &Failing,
    count: usize,
) -> Result<String, AllocError> {
    let name = PdoName(tpdo_of(row));
    let needs = Needs {
        verdict: member.verdict,
        deadline: member.deadline,
    };
    if count == 1 {
        return format!(in alloc; "{name} {needs}, with all other PDOs below it");
    }
    format!(in alloc;
        "none of {count} PDOs can be the lowest of them: below the others {name} {needs}"
    )
}

/// What is said of PDOs of which none can have the lowest priority among them.
fn places_words(
    alloc: Global,
    network: &Network<'_>,
    members: &[Failing],
) -> Result<String, AllocError> {
    let Some(member) = told(members) else {
        return Ok(String::new(alloc));
    };
    match network.rows().get(member.pdo) {
        Some(row) => member_words(alloc, row, member, members.len()),
        None => Ok(String::new(alloc)),
    }
}

/// Where an SDO frame stands that so many PDOs cannot go below.
#[derive(Clone, Copy)]
struct Below(usize);

impl fmt::Display for Below {
    fn fmt<W: fmt::Write>(&self, f: &mut fmt::Formatter<W>) -> fmt::Result {
        match self.0 {
            0 => f.write_str("with all PDOs below it"),
            1 => f.write_str("below 1 PDO that cannot go below it"),
            above => write!(f, "below {above} PDOs that cannot go below it"),
        }
    }
}

/// What is said of an SDO frame.
fn frame_words(alloc: Global, frame: &FailingFrame, above: usize) -> Result<String, AllocError> {
    let (id, place) = (frame.id, Below(above));
    let needs = Needs {
        verdict: frame.verdict,
        deadline: frame.deadline,
    };
    format!(in alloc; "the SDO frame {id:03X}h {needs}, {place}")
}

fn reason_words(
    alloc: Global,
    network: &Network<'_>,
    reason: &Reason,
) -> Result<String, AllocError> {
    match reason {
        Reason::Places { members } => places_words(alloc, network, members.as_slice()),
        Reason::Sync => String::from_str(alloc, "the busy time of SYNC does not end within 10 s"),
        Reason::Sdo { frame, above, .. } => frame_words(alloc, frame, *above),
    }
}

/// Why each rate is refused that a plan refuses, a line each.
pub fn refused_words(
    alloc: Global,
    network: &Network<'_>,
    refused: &[RefusedRate],
) -> Result<Vec<u8>, AllocError> {
    let mut words = Vec::new(alloc);
    for refused in refused {
        let kbits = refused.rate.kbits();
        let said = reason_words(alloc, network, &refused.reason)?;
        let line = format!(in alloc; "at {kbits} kbit/s {said}\n")?;
        words.extend_from_slice(line.as_bytes())?;
    }
    Ok(words)
}

/// Whether a refusal is of this rate.
fn is_refused(refusals: &[Refusal], rate: Rate) -> bool {
    refusals.iter().any(|refusal| refusal.rate == rate)
}

/// Which rates all devices support and no refusal of a file of this name is of, a line each.
pub fn uncovered_words(
    alloc: Global,
    name: &str,
    network: &Network<'_>,
    refusals: &[Refusal],
) -> Result<Vec<u8>, AllocError> {
    let rates = network.rates();
    let mut words = Vec::new(alloc);
    for rate in Rate::ALL {
        if rates.contains(rate) && !is_refused(refusals, rate) {
            let kbits = rate.kbits();
            let line = format!(in alloc;
                "all devices support {kbits} kbit/s, and no refusal in {name} is of it\n"
            )?;
            words.extend_from_slice(line.as_bytes())?;
        }
    }
    Ok(words)
}
