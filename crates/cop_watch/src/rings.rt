//! The instances that wait: of each stream their lengths, and the identifiers of which some wait.

ghost use Rattle.std.specs.Prelude.{◌≡◌, ◌∷◌, ◌++◌, ◌<◌, [], true, false, IfSome, IfNone, length};
ghost use Rattle.std.specs.Prelude.{ℕ};
ghost use Rattle.std.specs.BTreeSet.{contains};
ghost use Rattle.std.specs.Ordering.{nat_cmp};
ghost use Rattle.cop_watch.specs.Rings.{Waits, Leaves, Stays, ArePassed};
ghost use Rattle.cop_watch.specs.Breaking.{IsLower};

use std::alloc::Global;
use std::collections::{BTreeSet, VecDeque};
use std::marker::Model;

/// How many instances of a stream may wait.
const MOST: usize = 1024;

/// The lengths of a stream's instances that wait, in bits, first come first.
#[derive(Drop)]
pub(crate) struct Ring {
    lengths: VecDeque<u32>,
}

impl Model for Ring {
    ghost use Rattle.std.specs.Prelude.{List, ℕ};

    ghost Value = { List ℕ };

    ghost view = { λ r. r.lengths.items };
}

impl Ring {
    /// A ring in which none waits.
    pub(crate) fn new(alloc: Global) -> Ring
        ensures { result ≡ [] }
    {
        Ring {
            lengths: VecDeque::new(alloc),
        }
    }

    pub(crate) fn is_empty(&self) -> bool
        ensures none { result ≡ true → self.now ≡ [] }
        ensures some { result ≡ false → 0 < length self.now }
    {
        self.lengths.is_empty()
    }

    // Lets an instance wait behind the others, if there is room.
    fn push(&mut self, bits: u32) -> bool
        ensures { result ≡ true → self.new ≡ self.old ++ bits ∷ [] }
    {
        self.lengths.len() < MOST && self.lengths.push_back(bits).is_ok()
    }

    // Takes the first out.
    fn take(&mut self) -> Option<u32>
        ensures some { IfSome result (λ bits. self.old ≡ bits ∷ self.new) }
        ensures none { IfNone result (self.old ≡ []) }
    {
        self.lengths.pop_front()
    }
}

/// Lets an instance of a stream wait, if there is room and memory.
pub(crate) fn wait(rings: &mut Vec<Ring>, waiting: &mut BTreeSet<u16>, id: u16, bits: u32) -> bool
    requires { id < length rings.old.items }
    ensures { result ≡ true → Waits rings.old.items rings.new.items waiting.old waiting.new id bits }
{
    rings[usize::from(id)].push(bits) && waiting.insert(id).is_ok()
}

/// Takes the first instance of a stream that waits.
pub(crate) fn take_first(rings: &mut Vec<Ring>, waiting: &mut BTreeSet<u16>, id: u16) -> Option<u32>
    requires { id < length rings.old.items }
    ensures some { IfSome result (Leaves rings.old.items rings.new.items waiting.old waiting.new id) }
    ensures none { IfNone result (Stays rings.old.items rings.new.items waiting.old waiting.new id) }
{
    let place = usize::from(id);
    if rings[place].is_empty() {
        return None;
    }
    let first = rings[place].take();
    if rings[place].is_empty() {
        waiting.remove(&id);
    }
    first
}

/// Whether no instance waits.
pub(crate) fn none_waits(waiting: &BTreeSet<u16>) -> bool
    ensures { result ≡ true → (k : ℕ) → contains nat_cmp waiting.now k ≡ false }
{
    waiting.first().is_none()
}

/// Whether some instance waits, and none of a stream with a lower identifier.
pub(crate) fn none_lower(waiting: &BTreeSet<u16>, id: u16) -> bool
    ensures { result ≡ true → ArePassed waiting.now id }
{
    match waiting.first() {
        Some(first) => id <= *first,
        None => false,
    }
}

/// Whether an instance of a stream with a lower identifier waits.
pub(crate) fn lower_waits(waiting: &BTreeSet<u16>, id: u16) -> bool
    ensures { result ≡ true → IsLower waiting.now id }
{
    match waiting.first() {
        Some(first) => *first < id,
        None => false,
    }
}
