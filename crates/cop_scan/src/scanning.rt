//! Nodes are asked over a port for the type of their devices and who made them.

ghost use Rattle.std.specs.Prelude.{◌≡◌, ◌++◌, IfOk, OnOk, OnErr};
ghost use Rattle.cop_survey.specs.Surveying.{SurveyFails};
ghost use Rattle.cop_scan.specs.Scanning.{question, questions_to, questions_of, is_heard, has_answered, found_at, found_in, IsScan, if_failed, ScanStops};

use cop_frame::Rate;
use cop_identity::{Address, Demand, Exchange, Outcome, Question, told_at};
use cop_live::Port;
use cop_survey::{Reason, Surveyed, survey};
use std::alloc::{AllocError, Global};

/// A node that answered, and what its device told (CiA 301, "Device type", "Identity object"): none of what it did not.
#[derive(Clone, Copy, Debug, PartialEq, Eq)]
pub struct Found {
    pub node: u8,
    /// The type of the device, 1000h.
    pub device_type: Option<u32>,
    /// The vendor, 1018h sub 1.
    pub vendor: Option<u32>,
    /// The product, 1018h sub 2.
    pub product: Option<u32>,
    /// The revision, 1018h sub 3.
    pub revision: Option<u32>,
}

/// What came of a scan.
#[derive(Drop)]
pub enum Scanned {
    /// The nodes were asked: these answered, in the order in which they were.
    Seen { found: Vec<Found> },
    /// Nothing was sent.
    Left { reason: Reason },
    /// The port or its clock failed.
    Failed,
}

const DEVICE_TYPE: Address = Address {
    index: 0x1000,
    sub: 0,
};

const VENDOR: Address = Address {
    index: 0x1018,
    sub: 1,
};

const PRODUCT: Address = Address {
    index: 0x1018,
    sub: 2,
};

const REVISION: Address = Address {
    index: 0x1018,
    sub: 3,
};

// The question what an object has.
fn question(node: u8, at: Address) -> Question
    ensures { result ≡ question node at }
{
    Question {
        node,
        demand: Demand::Tell,
        at,
        wanted: 0,
    }
}

// Adds the questions to a node.
fn add_questions(questions: &mut Vec<Question>, node: u8) -> Result<(), AllocError>
    ensures { OnOk result (questions.new.items ≡ questions.old.items ++ questions_to node) }
{
    questions.push(question(node, DEVICE_TYPE))?;
    questions.push(question(node, VENDOR))?;
    questions.push(question(node, PRODUCT))?;
    questions.push(question(node, REVISION))?;
    Ok(())
}

// The questions to nodes, node after node.
fn questions_of(alloc: Global, nodes: &[u8]) -> Result<Vec<Question>, AllocError>
    ensures { IfOk result (λ questions. questions.items ≡ questions_of nodes.now) }
{
    let mut questions = Vec::new(alloc);
    for node in nodes {
        add_questions(&mut questions, *node)?;
    }
    Ok(questions)
}

// Whether an answer came.
fn is_heard(outcome: Outcome) -> bool
    ensures { result ≡ is_heard outcome }
{
    matches!(outcome, Outcome::Answered { .. })
}

// Whether a node answered some question.
fn has_answered(node: u8, all: &[Exchange]) -> bool
    ensures { result ≡ has_answered node all.now }
{
    all.iter().any(|asked| asked.question.node == node && is_heard(asked.outcome))
}

// What the device of a node told, if it answered.
fn found_at(all: &[Exchange], node: u8) -> Option<Found>
    ensures { result ≡ found_at all.now node }
{
    if !has_answered(node, all) {
        return None;
    }
    Some(Found {
        node,
        device_type: told_at(all, node, DEVICE_TYPE),
        vendor: told_at(all, node, VENDOR),
        product: told_at(all, node, PRODUCT),
        revision: told_at(all, node, REVISION),
    })
}

// Adds what the devices of nodes told, of those that answered.
fn add_found(found: &mut Vec<Found>, nodes: &[u8], all: &[Exchange]) -> Result<(), AllocError>
    ensures { OnOk result (found.new.items ≡ found.old.items ++ found_in nodes.now all.now) }
{
    match nodes {
        [] => Ok(()),
        [node, rest @ ..] => {
            if let Some(one) = found_at(all, *node) {
                found.push(one)?;
            }
            add_found(found, rest, all)
        }
    }
}

// What the devices of nodes told, of those that answered.
fn found_in(alloc: Global, nodes: &[u8], all: &[Exchange]) -> Result<Vec<Found>, AllocError>
    ensures { IfOk result (λ found. found.items ≡ found_in nodes.now all.now) }
{
    let mut found = Vec::new(alloc);
    add_found(&mut found, nodes, all)?;
    Ok(found)
}

/// Reaches the bus at a rate, asks nodes for the type of their devices and who made them, each question once so many ticks of 250 ns have
/// passed since the one before, and closes the adapter. A node that does not answer its first question in 1 s is asked no more. Of frames
/// requests of uploads alone are sent. `Err` is want of memory.
pub fn scan<P: Port>(
    alloc: Global,
    rate: Rate,
    pause: u64,
    nodes: &[u8],
    port: &mut P,
) -> Result<Scanned, AllocError>
    ensures scanned { IfOk result (λ scanned. IsScan P.reads P.writes P.asks rate pause nodes.now port.old port.new scanned) }
    ensures failed { IfOk result (λ scanned. if_failed scanned (SurveyFails P.reads P.writes P.asks P.fails rate pause (questions_of nodes.now) port.old port.new)) }
    ensures short { OnErr result (ScanStops P.reads P.writes P.asks rate pause nodes.now port.old port.new) }
{
    let questions = questions_of(alloc, nodes)?;
    match survey(alloc, rate, pause, &questions, port)? {
        Surveyed::Asked { exchanges } => Ok(Scanned::Seen {
            found: found_in(alloc, nodes, &exchanges)?,
        }),
        Surveyed::Left { reason } => Ok(Scanned::Left { reason }),
        Surveyed::Failed => Ok(Scanned::Failed),
    }
}
