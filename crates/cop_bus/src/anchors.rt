//! What the instances of a stream hang on: their own events, or ended SYNCs.

ghost use Rattle.std.specs.Prelude.{◌≡◌};
ghost use Rattle.cop_bus.specs.Judge.{are_apart, is_in_time};

/// What an instance hangs on. A synchronous stream's hangs on the SYNC that has its event: the mark is that SYNC's number,
/// from 0. Any other hangs on its own event, which is mark and moment in one.
#[derive(Clone, Copy, PartialEq, Eq, Debug)]
pub struct Anchor {
    pub mark: u64,
    /// The moment from which its time to be queued counts, in ticks: of a SYNC the end of its transfer.
    pub from: u64,
}

/// Whether an instance hangs on a mark so far behind that of the one before it. What hangs on nothing passes: it is not
/// in time.
pub(crate) fn are_apart(gap: u64, before: Option<Anchor>, anchor: Option<Anchor>) -> bool
    ensures { result ≡ are_apart gap before anchor }
{
    match before {
        Some(before) => match anchor {
            Some(anchor) => u128::from(before.mark) + u128::from(gap) <= u128::from(anchor.mark),
            None => true,
        },
        None => true,
    }
}

/// Whether an instance is queued from the moment of its anchor to the jitter, or latency, after it.
pub(crate) fn is_in_time(jitter: u64, anchor: Option<Anchor>, at: u64) -> bool
    ensures { result ≡ is_in_time jitter anchor at }
{
    match anchor {
        Some(anchor) => {
            anchor.from <= at && u128::from(at) <= u128::from(anchor.from) + u128::from(jitter)
        }
        None => false,
    }
}
