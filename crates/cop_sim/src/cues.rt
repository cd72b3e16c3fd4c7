//! When the behaviour of a stream is asked.

/// What a stream's next answer waits for: nothing, a SYNC that has ended, by its event and the end of its transfer, or one that has not.
#[derive(Clone, Copy)]
pub(crate) enum Cue {
    Own,
    Sync { event: u64, ended: u64 },
    Awaited,
}
