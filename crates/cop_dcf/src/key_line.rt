//! Keys that a DCF sets in its sections.

ghost use Rattle.std.specs.Prelude.{◌≡◌, ◌++◌, ◌∷◌, [], IfOk, OnOk};
ghost use Rattle.cop_eds.specs.Edits.{pair_of};

use std::alloc::{AllocError, Global};
use std::marker::Model;

/// The line of a key of a section and of the value that the key is to have. Contracts see these.
#[derive(Drop)]
pub struct KeyLine {
    section: usize,
    key: &'static [u8],
    line: Vec<u8>,
}

impl Model for KeyLine {
    ghost use Rattle.std.specs.Prelude.{◌≡◌, ◌+◌, ◌++◌, ◌∷◌, length, drop};
    ghost use Rattle.cop_eds.specs.Edits.{Change};

    ghost Value = { Change };

    ghost view = { λ k. record { section = k.section; key = k.key.now; value = drop (length k.key.now + 1) k.line.items } };

    ghost invariant = { λ k. k.line.items ≡ k.key.now ++ 61 ∷ drop (length k.key.now + 1) k.line.items };
}

impl KeyLine {
    pub fn new(
        alloc: Global,
        section: usize,
        key: &'static [u8],
        value: &[u8],
    ) -> Result<KeyLine, AllocError>
        ensures { IfOk result (λ k. k ≡ record { section = section; key = key.now; value = value.now }) }
    {
        let mut line = Vec::from_slice(alloc, key)?;
        line.push(b'=')?;
        line.extend_from_slice(value)?;
        Ok(KeyLine { section, key, line })
    }

    pub fn section(&self) -> usize
        ensures { result ≡ self.now.section }
    {
        self.section
    }

    pub fn key(&self) -> &'static [u8]
        ensures { result.now ≡ self.now.key }
    {
        self.key
    }

    /// The line, without an end.
    pub fn line(&self) -> &[u8]
        ensures { result.now ≡ pair_of self.now }
    {
        &self.line
    }
}

/// The keys that are set in one section, in the order in which new ones are written. Contracts see the list.
#[derive(Drop)]
pub struct SectionKeys {
    keys: Vec<KeyLine>,
}

impl Model for SectionKeys {
    ghost use Rattle.std.specs.Prelude.{List};
    ghost use Rattle.cop_eds.specs.Edits.{Change};

    ghost Value = { List Change };

    ghost view = { λ s. s.keys.items };
}

impl SectionKeys {
    /// No key.
    pub fn new(alloc: Global) -> SectionKeys
        ensures { result ≡ [] }
    {
        SectionKeys {
            keys: Vec::new(alloc),
        }
    }

    /// Adds a key behind the others.
    pub fn push(&mut self, key: KeyLine) -> Result<(), AllocError>
        ensures { OnOk result (self.new ≡ self.old ++ key ∷ []) }
    {
        self.keys.push(key)?;
        Ok(())
    }

    pub fn as_slice(&self) -> &[KeyLine]
        ensures { result.now ≡ self.now }
    {
        &self.keys
    }
}
