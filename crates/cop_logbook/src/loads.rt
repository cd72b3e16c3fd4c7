//! The load of the bus over the time of a log.

use std::alloc::{AllocError, Global};

/// How many parts of the time are told apart at most.
pub const PARTS: usize = 240;

/// The load over time: how many bits the frames have at least that end in each part of the time. The parts are equally long, and as
/// the log goes on two become one, so that memory does not grow with it.
#[derive(Drop)]
pub struct Loads {
    // The first stamp, once there is one, and how long a part is, in microseconds.
    begin: Option<u64>,
    width: u64,
    bits: Vec<u64>,
}

impl Loads {
    /// Nothing yet; the first parts are a millisecond long.
    pub(crate) fn new(alloc: Global) -> Result<Loads, AllocError> {
        Ok(Loads {
            begin: None,
            width: 1000,
            bits: vec![in alloc; 0; PARTS]?,
        })
    }

    /// How long a part is, in microseconds.
    pub fn width(&self) -> u64 {
        self.width
    }

    /// The bits of each part, the earliest first.
    pub fn bits(&self) -> &[u64] {
        &self.bits
    }

    /// The part that a time after the first stamp is in.
    fn part_of(&self, since: u64) -> usize {
        let part = since.checked_div(self.width).unwrap_or(0);
        usize::try_from(part).unwrap_or(usize::MAX)
    }

    /// The bits of a part.
    fn bits_of(&self, part: usize) -> u64 {
        self.bits.get(part).copied().unwrap_or(0)
    }

    /// Makes one part of two.
    fn widen(&mut self) {
        for part in 0..PARTS {
            let (first, second) = (part.saturating_mul(2), part.saturating_mul(2) | 1);
            let both = self.bits_of(first).saturating_add(self.bits_of(second));
            if let Some(bits) = self.bits.get_mut(part) {
                *bits = both;
            }
        }
        self.width = self.width.saturating_mul(2);
    }

    /// Counts a frame of so many bits that ends at a stamp.
    pub(crate) fn note(&mut self, at: u64, bits: u64) {
        let begin = *self.begin.get_or_insert(at);
        let since = at.saturating_sub(begin);
        // A time that has 64 bits is within the parts once they were made longer as often.
        for _ in 0..64 {
            if self.part_of(since) < PARTS {
                break;
            }
            self.widen();
        }
        let part = self.part_of(since);
        if let Some(sum) = self.bits.get_mut(part) {
            *sum = sum.saturating_add(bits);
        }
    }
}
