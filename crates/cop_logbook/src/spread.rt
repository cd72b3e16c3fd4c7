//! How the distances of a stream's frames are spread.

/// How many distances are told apart: a tenth of a period each, and the last of two periods and more.
pub const STEPS: usize = 21;

/// The distances of a stream's frames, counted by tenths of the period of the tables.
#[derive(Clone, Copy)]
pub struct Spread {
    counts: [u64; STEPS],
}

impl Spread {
    /// No distance yet.
    pub const NOTHING: Spread = Spread { counts: [0; STEPS] };

    /// The counts: of the distances below a tenth of the period, of those below two tenths, and so on.
    pub fn counts(&self) -> &[u64] {
        &self.counts
    }

    /// One distance more, with the period, both in microseconds.
    pub(crate) fn note(&mut self, distance: u64, period: u64) {
        let tenths = distance.saturating_mul(10).checked_div(period).unwrap_or(0);
        let step = usize::try_from(tenths).unwrap_or(STEPS).min(STEPS - 1);
        if let Some(count) = self.counts.get_mut(step) {
            *count = count.saturating_add(1);
        }
    }
}
