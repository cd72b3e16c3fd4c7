//! Sets of identifiers.

ghost use Rattle.std.specs.Prelude.{◌≡◌, ◌≢◌, ℕ, ◌+◌, ◌*◌, ◌/◌, ◌<◌, ◌≤◌, true, false, IfOk, length, get_or};
ghost use Rattle.cop_bus.specs.IdSets.{holds, IsLowestBit, IsLowestHeld};

use std::alloc::{AllocError, Global};
use std::marker::Model;

/// A set of identifiers, a bit for each, and of the words of these bits those in which one is set: so the lowest is found
/// without a walk over them.
#[derive(Drop)]
pub(crate) struct IdSet {
    words: Vec<u64>,
    used: Vec<u64>,
}

impl Model for IdSet {
    ghost use Rattle.std.specs.Prelude.{List, ℕ};
    ghost use Rattle.cop_bus.specs.IdSets.{AreUsed};

    ghost Value = { List ℕ };

    ghost view = { λ s. s.words.items };

    ghost invariant = { λ s. AreUsed s.words.items s.used.items };
}

// The lowest bit that is set.
fn lowest_bit(word: u64) -> Option<usize>
    ensures { IsLowestBit word result }
{
    if word == 0 {
        None
    } else {
        Some(word.trailing_zeros() as usize)
    }
}

// The lowest number whose bit is set.
fn lowest_in(words: &[u64]) -> Option<usize>
    requires { length words.now ≤ 65536 }
    ensures { IsLowestHeld words.now result }
{
    for i in 0..words.len() {
        if let Some(bit) = lowest_bit(words[i]) {
            return Some(64 * i + bit);
        }
    }
    None
}

// Sets the bit of a number.
fn set_bit(words: &mut Vec<u64>, number: usize)
    requires { number / 64 < length words.old.items }
    ensures count { length words.new.items ≡ length words.old.items }
    ensures here { holds words.new.items number ≡ true }
    ensures others { (i : ℕ) → i ≢ number → holds words.new.items i ≡ holds words.old.items i }
    ensures apart { (w : ℕ) → w ≢ number / 64 → get_or words.new.items w 0 ≡ get_or words.old.items w 0 }
{
    words[number / 64] |= 1 << (number % 64);
}

// Clears the bit of a number.
fn clear_bit(words: &mut Vec<u64>, number: usize)
    requires { number / 64 < length words.old.items }
    ensures count { length words.new.items ≡ length words.old.items }
    ensures here { holds words.new.items number ≡ false }
    ensures others { (i : ℕ) → i ≢ number → holds words.new.items i ≡ holds words.old.items i }
    ensures apart { (w : ℕ) → w ≢ number / 64 → get_or words.new.items w 0 ≡ get_or words.old.items w 0 }
    ensures fewer { (w : ℕ) → get_or words.new.items w 0 ≤ get_or words.old.items w 0 }
{
    words[number / 64] &= !(1 << (number % 64));
}

impl IdSet {
    /// The empty set, with room for so many identifiers from 0 on.
    pub(crate) fn with_room(alloc: Global, ids: usize) -> Result<IdSet, AllocError>
        requires { ids ≤ 65536 }
        ensures none { IfOk result (λ s. (i : ℕ) → holds s i ≡ false) }
        ensures room { IfOk result (λ s. ids / 64 < length s) }
    {
        let count = ids / 64 + 1;
        Ok(IdSet {
            words: vec![in alloc; 0u64; count]?,
            used: vec![in alloc; 0u64; count / 64 + 1]?,
        })
    }

    /// Puts an identifier into the set.
    pub(crate) fn insert(&mut self, id: u16)
        requires { id / 64 < length self.old }
        ensures count { length self.new ≡ length self.old }
        ensures here { holds self.new id ≡ true }
        ensures others { (i : ℕ) → i ≢ id → holds self.new i ≡ holds self.old i }
    {
        let id = usize::from(id);
        set_bit(&mut self.words, id);
        set_bit(&mut self.used, id / 64);
    }

    /// Takes an identifier out of the set.
    pub(crate) fn remove(&mut self, id: u16)
        requires { id / 64 < length self.old }
        ensures count { length self.new ≡ length self.old }
        ensures here { holds self.new id ≡ false }
        ensures others { (i : ℕ) → i ≢ id → holds self.new i ≡ holds self.old i }
    {
        let id = usize::from(id);
        clear_bit(&mut self.words, id);
        if self.words[id / 64] == 0 {
            clear_bit(&mut self.used, id / 64);
        }
    }

    /// The lowest identifier in the set.
    pub(crate) fn lowest(&self) -> Option<usize>
        ensures { IsLowestHeld self.now result }
    {
        let word = lowest_in(&self.used)?;
        let bit = lowest_bit(*self.words.get(word)?)?;
        Some(64 * word + bit)
    }
}
