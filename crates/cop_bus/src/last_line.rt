//! The record that came last, as a line.

ghost use Rattle.std.specs.Prelude.{◌≡◌, ◌≤◌, [], codes, length};
ghost use Rattle.cop_bus.specs.Format.{fields_of, line, short};

use crate::lines::{Block, make_short, make_step};
use crate::steps::Step;

/// A record as a line, or none. It stands at the end of its block.
#[derive(Drop)]
pub(crate) struct LastLine {
    block: Block,
    start: usize,
    ghost within: { start ≤ 112 },
}

impl LastLine {
    ghost use Rattle.cop_bus.specs.LastLine.{text_of};

    /// No record.
    pub(crate) fn none() -> LastLine
        ensures { text_of result ≡ [] }
    {
        LastLine {
            block: [0; 112],
            start: 112,
        }
    }

    /// Its bytes.
    pub(crate) fn text(&self) -> &[u8]
        ensures value { result.now ≡ text_of self.now }
        ensures short { length result.now ≤ 112 }
    {
        &self.block[self.start..]
    }

    /// Takes the record away.
    pub(crate) fn clear(&mut self)
        ensures { text_of self.new ≡ [] }
    {
        self.start = 112;
    }

    /// Makes the record of a step.
    pub(crate) fn set_step(&mut self, step: &Step)
        ensures { text_of self.new ≡ line (fields_of step.now) }
    {
        self.start = make_step(&mut self.block, step);
    }

    /// Makes the record that tells the end.
    pub(crate) fn set_end(&mut self, until: u64)
        ensures { text_of self.new ≡ line (short (codes "until") until 0) }
    {
        self.start = make_short(&mut self.block, b"until", until, 0);
    }
}
