//! Marks of the names that stand in each section, by six bits of their numbers. What is not marked stands nowhere, so that
//! a look-up of it ends at once.

ghost use Rattle.std.specs.Prelude.{◌≡◌, ◌<◌, ℕ, true, IfOk};
ghost use Rattle.cop_eds.specs.Marks.{mark_of, is_marked, AreMarked};

use crate::tickets::{OTHERS, Ticket};
use std::alloc::{AllocError, Global};

/// The mark of a number, where the places of sections have so many bits.
pub fn mark_of(bits: u32, word: u64) -> u64
    requires { bits < 64 }
    ensures { result ≡ mark_of bits word }
{
    word.saturating_sub(OTHERS) >> 57u32.saturating_sub(bits)
}

/// Whether a mark is set. Those past the end are.
pub fn is_marked(marks: &[u64], mark: u64) -> bool
    ensures { result ≡ is_marked marks.now mark }
{
    let word = marks.get((mark / 64) as usize).copied().unwrap_or(u64::MAX);
    (word >> (mark % 64)) % 2 == 1
}

/// Sets a mark. The others stay.
fn mark(marks: &mut [u64], mark: u64)
    ensures set { is_marked marks.new mark ≡ true }
    ensures kept { (other : ℕ) → is_marked marks.old other ≡ true → is_marked marks.new other ≡ true }
{
    let place = (mark / 64) as usize;
    if place < marks.len() {
        marks[place] |= 1 << (mark % 64);
    }
}

/// How many words have the marks of tickets in order.
fn count_of(tickets: &[Ticket], bits: u32) -> usize
    requires { bits < 64 }
{
    match tickets.last() {
        Some(ticket) => (mark_of(bits, ticket.word) / 64) as usize + 1,
        None => 0,
    }
}

/// The marks of tickets.
pub fn marks_of(alloc: Global, tickets: &[Ticket], bits: u32) -> Result<Vec<u64>, AllocError>
    requires { bits < 64 }
    ensures { IfOk result (λ marks. AreMarked bits marks.items tickets.now) }
{
    let mut marks = vec![in alloc; 0u64; count_of(tickets, bits)]?;
    for ticket in tickets {
        mark(&mut marks, mark_of(bits, ticket.word));
    }
    Ok(marks)
}
