//! A dictionary.

ghost use Rattle.std.specs.Prelude.{◌≡◌, [], ◌∷◌, ◌++◌, true, All, IfOk, OnOk, OnErr, IfErr};
ghost use Rattle.std.specs.Option.{option_copied};
ghost use Rattle.cop_dict.specs.declared.abort.Abort.TheVariants.{NoMemory};
ghost use Rattle.cop_dict.specs.Find.{Entry, is_before, entry_at, IsSorted};
ghost use Rattle.cop_dict.specs.Mapping.{mapped_at, layout_bits};
ghost use Rattle.cop_dict.specs.Dict.{HasWidth, Grows, FitsAt, Follows, Reads, Writes, read_of, written, admitted, with_value, initial, initial_communication};

use crate::abort::Abort;
use crate::mapping::{Mapped, MappingFault, layout_bits, mapped_at};
use crate::object::Object;
use crate::search::object_at;
use crate::writing::{admits_in, read_in, reset_communication_in, reset_in, store_in, write_in};
use std::alloc::{AllocError, Global};
use std::marker::Model;

/// The object dictionary of a device: a map from index and sub to entries. Contracts see the
/// entries as a list that rises by index and sub.
#[derive(Drop)]
pub struct Dictionary {
    objects: Vec<Object>,
}

impl Model for Dictionary {
    ghost use Rattle.std.specs.Prelude.{List};
    ghost use Rattle.cop_dict.specs.Find.{Entry, IsSorted};

    ghost Value = { List Entry };

    ghost view = { λ d. d.objects.items };

    ghost invariant = { λ d. IsSorted d.objects.items };
}

impl Dictionary {
    /// A dictionary with no entries.
    pub fn new(alloc: Global) -> Dictionary
        ensures { result ≡ [] }
    {
        Dictionary {
            objects: Vec::new(alloc),
        }
    }

    /// A dictionary with no entries, and room for so many. Otherwise want of memory.
    pub fn with_room(alloc: Global, entries: usize) -> Result<Dictionary, AllocError>
        ensures { IfOk result (λ dict. dict ≡ []) }
    {
        Ok(Dictionary {
            objects: Vec::with_capacity(alloc, entries)?,
        })
    }

    /// The dictionary of entries that rise by index and sub.
    pub(crate) fn from_entries(objects: Vec<Object>) -> Dictionary
        requires { IsSorted objects.items }
        ensures { result ≡ objects.items }
    {
        Dictionary { objects }
    }

    /// Adds an entry behind all others.
    pub fn push(&mut self, object: Object) -> Result<(), AllocError>
        requires { All (λ entry. is_before object.index object.sub entry ≡ true) self.old }
        ensures ok { OnOk result (self.new ≡ self.old ++ object ∷ []) }
        ensures err { OnErr result (self.new ≡ self.old) }
    {
        self.objects.push(object)?;
        Ok(())
    }

    /// All entries, by rising index and sub.
    pub fn entries(&self) -> &[Object]
        ensures value { result.now ≡ self.now }
        ensures sorted { IsSorted self.now }
    {
        &self.objects
    }

    /// What stands at an index and a sub, whatever its access.
    pub fn entry(&self, index: u16, sub: u8) -> Option<&Object>
        ensures { option_copied result ≡ entry_at self.now index sub }
    {
        object_at(&self.objects, index, sub)
    }

    /// The value at an index and a sub, as SDO reads it. It takes no memory.
    pub fn read(&self, index: u16, sub: u8) -> Result<&[u8], Abort>
        ensures { Reads (λ bytes. bytes.now) result (read_of self.now index sub) }
    {
        read_in(&self.objects, index, sub)
    }

    /// The width of what may be written at an index and a sub, by what is known before the bytes
    /// come: the object, its access, and the size in bytes where one is stated.
    pub fn admits(&self, index: u16, sub: u8, size: Option<usize>) -> Result<Option<usize>, Abort>
        ensures { result ≡ admitted self.now index sub size }
    {
        admits_in(&self.objects, index, sub, size)
    }

    /// Replaces the value at an index and a sub, as SDO writes it. Memory is taken only for more
    /// bytes than the initial value has, so never where all values have one width, and only where no
    /// rule refuses the write.
    pub fn write(&mut self, index: u16, sub: u8, bytes: &[u8]) -> Result<(), Abort>
        ensures exact { Writes result self.old self.new (written self.old index sub bytes.now) }

        // Where the width is fixed, it never fails for want of memory.
        ensures in_place { HasWidth self.old index sub → Follows result self.new (written self.old index sub bytes.now) }

        // Nor where the bytes are no more than the initial value has.
        ensures memory { IfErr result (λ abort. abort ≡ NoMemory → Grows self.old index sub bytes.now) }
    {
        write_in(&mut self.objects, index, sub, bytes)
    }

    /// Replaces the value of an entry of fixed width, whatever its access and limits. It takes no
    /// memory.
    pub fn store(&mut self, index: u16, sub: u8, bytes: &[u8])
        requires { FitsAt self.old index sub bytes.now }
        ensures { self.new ≡ with_value index sub bytes.now self.old }
    {
        store_in(&mut self.objects, index, sub, bytes);
    }

    /// Gives each entry its initial value (NMT reset node). It takes no memory.
    pub fn reset_all(&mut self)
        ensures { self.new ≡ initial self.old }
    {
        reset_in(&mut self.objects);
    }

    /// Gives each entry from 1000h to 1FFFh its initial value (NMT reset communication). It takes
    /// no memory.
    pub fn reset_communication(&mut self)
        ensures { self.new ≡ initial_communication self.old }
    {
        reset_communication_in(&mut self.objects);
    }

    /// What the entry of a mapping record at a sub says, or why it can't be used.
    pub fn mapped(&self, record_index: u16, sub: u8) -> Result<Mapped, MappingFault>
        ensures { result ≡ mapped_at self.now record_index sub }
    {
        mapped_at(&self.objects, record_index, sub)
    }

    /// The bits that the first so many entries of a mapping record have together, or why they are
    /// no mapping that can be used.
    pub fn layout_bits(&self, record_index: u16, count: u8) -> Result<usize, MappingFault>
        ensures { result ≡ layout_bits self.now record_index count }
    {
        layout_bits(&self.objects, record_index, count)
    }
}
