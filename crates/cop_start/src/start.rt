//! The devices from which tables start.

ghost use Rattle.std.specs.Prelude.{◌≡◌, ◌≤◌, ◌+◌, ◌++◌, [], ◌∷◌, OnOk, OnErr, IfSome, length, IfOk, All, IsTrue};
ghost use Rattle.cop_start.specs.Start.{added, is_taken, last_from, next_node, AreSources};

use cop_dict::Dictionary;
use cop_rows::is_name;
use std::alloc::{AllocError, Global};
use std::marker::Model;

/// A device: its node, the name of its EDS file, which a table of nodes takes, and what the file describes for this node.
#[derive(Drop)]
pub struct Source {
    pub(crate) node: u8,
    pub(crate) file: Vec<u8>,
    pub(crate) dictionary: Dictionary,
}

impl Model for Source {
    ghost use Rattle.std.specs.Prelude.{IsTrue};
    ghost use Rattle.cop_rows.specs.Names.{is_name};
    ghost use Rattle.cop_start.specs.Start.{Device};

    ghost Value = { Device };

    ghost view = { λ s. record { node = s.node; file = s.file.items; dict = s.dictionary } };

    ghost invariant = { λ s. IsTrue (is_name s.file.items) };
}

impl Source {
    /// The node.
    pub fn node(&self) -> u8
        ensures { result ≡ self.now.node }
    {
        self.node
    }

    /// The name of the EDS file.
    pub fn file(&self) -> &[u8]
        ensures { result.now ≡ self.now.file }
    {
        &self.file
    }

    /// What the file describes.
    pub fn dictionary(&self) -> &Dictionary
        ensures { result.now ≡ self.now.dict }
    {
        &self.dictionary
    }
}

/// The node of the last of some devices, or another number where there is none.
fn last_node(sources: &[Source], behind: u8) -> u8
    ensures { result ≡ last_from behind sources.now }
{
    match sources {
        [] => behind,
        [first, rest @ ..] => last_node(rest, first.node),
    }
}

/// The devices of a network that is to start, by rising node from 1 to 127.
#[derive(Drop)]
pub struct Start {
    sources: Vec<Source>,
}

impl Model for Start {
    ghost use Rattle.std.specs.Prelude.{List};
    ghost use Rattle.cop_start.specs.Start.{Device, AreSources};

    ghost Value = { List Device };

    ghost view = { λ s. s.sources.items };

    ghost invariant = { λ s. AreSources s.sources.items };
}

impl Start {
    /// No devices.
    pub fn new(alloc: Global) -> Start
        ensures { result ≡ [] }
    {
        Start {
            sources: Vec::new(alloc),
        }
    }

    /// The devices, by rising node.
    pub fn sources(&self) -> &[Source]
        ensures sources { result.now ≡ self.now }
        ensures valid { AreSources self.now }
    {
        &self.sources
    }

    /// The node above those of all devices, if there is one left: 1, 2 and so on where each device gets the next one.
    pub fn next_node(&self) -> Option<u8>
        ensures { result ≡ next_node self.now }
    {
        let last = last_node(&self.sources, 0);
        if last >= 127 {
            return None;
        }
        Some(last + 1)
    }

    #[tactic(auto, using(crate::proofs::StartLemmas::sources_more))]
    /// Adds a device with a node, whose dictionary is that of this node; nothing where the node is not above those of all others and
    /// at most 127, or where a table does not take the name of its file. Tells whether it did.
    pub fn add(
        &mut self,
        node: u8,
        file: Vec<u8>,
        dictionary: Dictionary,
    ) -> Result<bool, AllocError>
        ensures ok { OnOk result (self.new ≡ added self.old node file.items dictionary) }
        ensures told { IfOk result (λ is_added. is_added ≡ is_taken self.old node file.items) }
        ensures err { OnErr result (self.new ≡ self.old) }
    {
        if last_node(&self.sources, 0) >= node || node > 127 || !is_name(&file) {
            return Ok(false);
        }
        self.sources.push(Source {
            node,
            file,
            dictionary,
        })?;
        Ok(true)
    }
}
