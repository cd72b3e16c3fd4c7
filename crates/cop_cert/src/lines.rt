//! Lines that differ by their numbers alone. They are made in a block, from the last to the first, so that each number ends where the
//! line feed behind it stands, and are added to the text all at once.

ghost use Rattle.std.specs.Prelude.{◌≡◌, ◌+◌, ◌<◌, ◌≤◌, ◌^◌, ◌++◌, ◌∷◌, [], ℕ, OnOk, decimal, drop, length, map};
ghost use Rattle.csv.specs.Machine.{line_feed};
ghost use Rattle.cop_cert.specs.Format.{Fields, lines};
ghost use Rattle.cop_cert.specs.Writer.{Adds, IsHead};

use itoa::write_digits;
use std::alloc::AllocError;

/// How many lines a block has room for.
pub(crate) const LINES: usize = 16;

/// Room for so many lines: each has at most 91 bytes before its number, 20 digits and a line feed.
pub(crate) type Block = [u8; 1792];

/// A block with no line in it.
pub(crate) const NO_LINES: Block = [0; 1792];

/// Puts the line of a number before what begins at `end`, and tells where it begins.
fn put_line(block: &mut Block, end: usize, head: &[u8], value: u64) -> usize
    requires room { length head.now + 21 ≤ end }
    requires within { end ≤ 1792 }
    ensures line { drop result block.new ≡ ((head.now ++ decimal value) ++ line_feed ∷ []) ++ drop end block.old }
    ensures start { result ≤ end }
    ensures short { end ≤ result + (length head.now + 21) }
    ensures fits { value < 2 ^ 64 }
{
    block[end - 1] = b'\n';
    let number = write_digits(value, block, end - 1);
    let start = number - head.len();
    block[start..number].copy_from_slice(head);
    start
}

#[tactic(auto, using(crate::proofs::BlockLemmas::line_before))]
/// Puts the lines of numbers at the end of the block, and tells where they begin.
fn put_lines(block: &mut Block, head: &[u8], numbers: &[u64]) -> usize
    requires few { length numbers.now ≤ 16 }
    requires short { length head.now ≤ 91 }
    ensures lines { (row : ℕ → Fields) → IsHead head.now row → drop result block.new ≡ lines (map row numbers.now) }
    ensures within { result ≤ 1792 }
{
    let mut start = block.len();
    let mut rest = numbers;
    while let Some((last, front)) = rest.split_last() {
        start = put_line(block, start, head, *last);
        rest = front;
    }
    start
}

/// Adds the lines of numbers, which a block has room for, to a text.
pub(crate) fn add_lines(
    text: &mut Vec<u8>,
    block: &mut Block,
    head: &[u8],
    numbers: &[u64],
) -> Result<(), AllocError>
    requires few { length numbers.now ≤ 16 }
    requires short { length head.now ≤ 91 }
    ensures { OnOk result ((row : ℕ → Fields) → IsHead head.now row → Adds text.old.items text.new.items (map row numbers.now)) }
{
    let start = put_lines(block, head, numbers);
    text.extend_from_slice(&block[start..])
}
