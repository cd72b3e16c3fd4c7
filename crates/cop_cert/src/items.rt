//! Lists that contracts see as lists.

ghost use Rattle.std.specs.Prelude.{◌≡◌, [], ◌∷◌, ◌++◌, OnOk, OnErr, IfOk, List};

use std::alloc::{AllocError, Global};
use std::marker::Model;

/// Values in order, kept in a `Vec`. Contracts see a list.
#[derive(Drop)]
pub struct Items<T> {
    values: Vec<T>,
}

impl<T> Model for Items<T> {
    ghost use Rattle.std.specs.Prelude.{List};

    ghost Value = { List T };

    ghost view = { λ list. list.values.items };
}

impl<T> Items<T> {
    /// No values.
    pub fn new(alloc: Global) -> Items<T>
        ensures { result ≡ [] }
    {
        Items {
            values: Vec::new(alloc),
        }
    }

    /// The values, in order.
    pub fn as_slice(&self) -> &[T]
        ensures { result.now ≡ self.now }
    {
        &self.values
    }

    /// Gives the `Vec` back. No memory is taken.
    pub fn into_vec(self) -> Vec<T>
        ensures { result.items ≡ self }
    {
        self.values
    }
}

impl<T: Drop> Items<T> {
    /// Puts a value at the end.
    pub fn push(&mut self, value: T) -> Result<(), AllocError>
        ensures ok { OnOk result (self.new ≡ self.old ++ value ∷ []) }
        ensures err { OnErr result (self.new ≡ self.old) }
    {
        self.values.push(value)?;
        Ok(())
    }
}

impl Items<u64> {
    /// A copy of some numbers.
    pub(crate) fn copied(alloc: Global, numbers: &[u64]) -> Result<Items<u64>, AllocError>
        ensures { IfOk result (λ items. items ≡ numbers.now) }
    {
        let mut values = Vec::new(alloc);
        values.extend_from_slice(numbers)?;
        Ok(Items { values })
    }
}

impl<T> From<Vec<T>> for Items<T> {
    ghost from_gives = { λ values list. list ≡ values.items };

    fn from(values: Vec<T>) -> Items<T> {
        Items { values }
    }
}
