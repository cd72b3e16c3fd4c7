//! A set of nodes.

ghost use Rattle.std.specs.Prelude.{◌≡◌};
ghost use Rattle.cop_live.specs.Nodes.{nobody, with_node, has_node, is_empty};

use std::marker::Model;

/// A set of nodes, by their numbers. Contracts see of each number whether it is in the set.
#[derive(Drop)]
pub struct NodeSet {
    flags: [bool; 256],
}

impl Model for NodeSet {
    ghost use Rattle.std.specs.Prelude.{List, Bool};

    ghost Value = { List Bool };

    ghost view = { λ nodes. nodes.flags };
}

impl NodeSet {
    /// The set without nodes.
    #[tactic(auto, unfolding(crate::specs::Nodes::nobody))]
    pub fn new() -> NodeSet
        ensures { result ≡ nobody }
    {
        NodeSet {
            flags: [false; 256],
        }
    }

    /// Adds a node.
    pub fn add(&mut self, node: u8)
        ensures { self.new ≡ with_node self.old node }
    {
        self.flags[usize::from(node)] = true;
    }

    /// Whether a node is in the set.
    pub fn has(&self, node: u8) -> bool
        ensures { result ≡ has_node self.now node }
    {
        self.flags[usize::from(node)]
    }

    /// Whether no node is in the set.
    pub fn is_empty(&self) -> bool
        ensures { result ≡ is_empty self.now }
    {
        self.flags.iter().all(|flag| !*flag)
    }
}
