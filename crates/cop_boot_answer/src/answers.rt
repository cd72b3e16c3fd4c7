//! The answer of a boot, and its text.

ghost use Rattle.std.specs.Prelude.{◌≡◌, ◌++◌, IfOk, OnOk};
ghost use Rattle.std.specs.List.{flat_map};
ghost use Rattle.std.specs.String.{string_bytes};
ghost use Rattle.cop_boot_answer.specs.Answers.{nothing_told, line_of, started_said, text_of};

use crate::states::{Detail, State};
use cop_sdo::Address;
use std::alloc::{AllocError, Global};
use std::marker::Model;

/// A node, and what is said of it.
#[derive(Clone, Copy, PartialEq, Eq, Debug)]
pub struct NodeLine {
    pub node: u8,
    pub state: State,
}

/// The answer of a boot. Contracts see its lists.
#[derive(Drop)]
pub struct BootAnswer {
    /// The nodes, in the order of their numbers.
    pub nodes: Vec<NodeLine>,
    /// Whether the nodes were started, if that is said.
    pub started: Option<bool>,
    /// The nodes whose heartbeats were awaited after the start.
    pub heartbeats: Vec<NodeLine>,
}

impl Model for BootAnswer {
    ghost use Rattle.cop_boot_answer.specs.Answers.{Told};

    ghost Value = { Told };

    ghost view = { λ answer. record { nodes = answer.nodes.items; started = answer.started; heartbeats = answer.heartbeats.items } };
}

impl NodeLine {
    /// The line as it is printed, with its end. `Err` is want of memory.
    pub fn text(self, alloc: Global) -> Result<String, AllocError>
        ensures { IfOk result (λ text. string_bytes text ≡ line_of self) }
    {
        let NodeLine { node, state } = self;
        let word = state.word();
        match state.detail() {
            Some(
                Detail {
                    at: Address { index, sub },
                    value,
                },
            ) => format!(in alloc; "node {node} {word} {index:04X} {sub:02X} {value:08X}\n"),
            None => format!(in alloc; "node {node} {word}\n"),
        }
    }
}

/// Adds the lines of nodes.
fn push_lines(text: &mut Vec<u8>, alloc: Global, lines: &[NodeLine]) -> Result<(), AllocError>
    ensures { OnOk result (text.new.items ≡ text.old.items ++ flat_map line_of lines.now) }
{
    match lines {
        [] => Ok(()),
        [line, rest @ ..] => {
            text.extend_from_slice(line.text(alloc)?.as_bytes())?;
            push_lines(text, alloc, rest)
        }
    }
}

/// The line that says whether the nodes were started.
fn started_said(started: Option<bool>) -> &'static [u8]
    ensures { result.now ≡ started_said started }
{
    match started {
        Some(true) => b"started\n",
        Some(false) => b"not started\n",
        None => b"",
    }
}

impl BootAnswer {
    /// Nothing is told.
    pub fn nothing(alloc: Global) -> BootAnswer
        ensures { result ≡ nothing_told }
    {
        BootAnswer {
            nodes: Vec::new(alloc),
            started: None,
            heartbeats: Vec::new(alloc),
        }
    }

    /// Its text: a line for each node, whether they were started, and a line for each heartbeat. `Err` is want of memory.
    pub fn text(&self, alloc: Global) -> Result<Vec<u8>, AllocError>
        ensures { IfOk result (λ text. text.items ≡ text_of self.now) }
    {
        let mut text = Vec::new(alloc);
        push_lines(&mut text, alloc, &self.nodes)?;
        text.extend_from_slice(started_said(self.started))?;
        push_lines(&mut text, alloc, &self.heartbeats)?;
        Ok(text)
    }
}
