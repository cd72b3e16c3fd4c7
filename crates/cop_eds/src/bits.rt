//! Sets of numbers, of which each has a bit.

ghost use Rattle.std.specs.Prelude.{◌≡◌, ◌==◌, ◌||◌, ◌/◌, ◌^◌, ◌<◌, ℕ, false, length, get_or, OnOk};
ghost use Rattle.cop_eds.specs.Bits.{has};

use std::alloc::{AllocError, Global};

/// A set of numbers. It takes a bit for each number up to its greatest.
#[derive(Drop)]
pub struct Bits {
    words: Vec<u64>,
}

/// Appends words of no numbers, so that there is one at this place.
fn widen(words: &mut Vec<u64>, place: usize) -> Result<(), AllocError>
    requires { place < 2 ^ 63 }
    ensures reached { OnOk result (place < length words.new.items) }
    ensures same { OnOk result ((k : ℕ) → get_or words.new.items k 0 ≡ get_or words.old.items k 0) }
{
    while words.len() <= place {
        words.push(0)?;
    }
    Ok(())
}

impl Bits {
    /// No numbers.
    pub fn new(alloc: Global) -> Bits
        ensures { (number : ℕ) → has result.words.items number ≡ false }
    {
        Bits {
            words: Vec::new(alloc),
        }
    }

    /// Whether a number is in the set.
    pub fn contains(&self, number: u64) -> bool
        ensures { result ≡ has self.now.words.items number }
    {
        match self.words.get((number / 64) as usize) {
            Some(word) => (*word >> (number % 64)) % 2 == 1,
            None => false,
        }
    }

    /// Puts a number into the set.
    pub fn insert(&mut self, number: u64) -> Result<(), AllocError>
        ensures { OnOk result ((other : ℕ) → has self.new.words.items other ≡ (other == number || has self.old.words.items other)) }
    {
        let place = (number / 64) as usize;
        widen(&mut self.words, place)?;
        self.words[place] |= 1 << (number % 64);
        Ok(())
    }
}
