//! The communication records that the PDOs of a network use.

ghost use Rattle.std.specs.Prelude.{ℕ, ◌≡◌, ◌<◌, ◌≤◌, ◌++◌, ◌+◌, ◌*◌, ◌-◌, false, length, get_or, [], ◌∷◌, Ok, IfOk};
ghost use Rattle.cop_table.specs.Reading.{Gives};
ghost use Rattle.cop_net.specs.Faults.{refusal};
ghost use Rattle.cop_net.specs.Uses.{is_used};

use crate::faults::PlanFault;
use std::alloc::{AllocError, Global};
use std::marker::Model;

/// The communication record of a PDO in use, at an index of a node.
#[derive(Clone, Copy)]
pub struct Used {
    pub node: u8,
    pub index: u16,
}

/// The index of the first communication record.
const FIRST: u16 = 0x1400;

/// How many indexes there are from the first communication record to the last.
const INDEXES: usize = 0x600;

/// The place of the flag of a record.
fn place_of(node: u8, index: u16) -> usize
    requires { 0x1400 ≤ index }
    ensures { result ≡ 1536 * node + (index - 0x1400) }
{
    INDEXES * usize::from(node) + usize::from(index - FIRST)
}

/// Makes flags for the records of a node and of those below it.
fn make_room(flags: &mut Vec<bool>, node: u8) -> Result<(), AllocError>
    ensures same { (i : ℕ) → get_or flags.new.items i false ≡ get_or flags.old.items i false }
    ensures room { IfOk result (λ _. 1536 * node + 1536 ≤ length flags.new.items) }
{
    let length = INDEXES * usize::from(node) + INDEXES;
    if flags.len() < length {
        flags.resize(length, false)?;
    }
    Ok(())
}

/// The communication records in use, in the order in which they were added.
#[derive(Drop)]
pub struct Uses {
    records: Vec<Used>,
    // Whether the record of each node and index is one of them, up to the greatest node of them.
    flags: Vec<bool>,
}

impl Model for Uses {
    ghost use Rattle.std.specs.Prelude.{List};
    ghost use Rattle.cop_net.specs.declared.uses.Used.{Used};
    ghost use Rattle.cop_net.specs.Uses.{KnowsUses};

    ghost Value = { List Used };

    ghost view = { λ u. u.records.items };

    ghost invariant = { λ u. KnowsUses u.flags.items u.records.items };
}

impl Uses {
    /// No record.
    pub fn new(alloc: Global) -> Uses
        ensures { result ≡ [] }
    {
        Uses {
            records: Vec::new(alloc),
            flags: Vec::new(alloc),
        }
    }

    /// Whether a record is in use.
    pub fn contains(&self, node: u8, index: u16) -> bool
        requires node { node < 128 }
        requires low { 0x1400 ≤ index }
        requires high { index < 0x1A00 }
        ensures { result ≡ is_used self.now node index }
    {
        let place = place_of(node, index);
        self.flags.get(place).copied().unwrap_or(false)
    }

    /// Adds a record.
    pub fn push(&mut self, used: Used) -> Result<(), PlanFault>
        requires node { used.node < 128 }
        requires low { 0x1400 ≤ used.index }
        requires high { used.index < 0x1A00 }
        ensures { Gives (λ _. self.new) refusal result (Ok (self.old ++ used ∷ [])) }
    {
        make_room(&mut self.flags, used.node)?;
        self.records.push(used)?;
        self.flags[place_of(used.node, used.index)] = true;
        Ok(())
    }
}
