//! Keys that are the same.

ghost use Rattle.std.specs.Prelude.{◌≡◌};
ghost use Rattle.cop_tidy_reading.specs.Sections.{rank, same_rank, same_key, states};

use cop_tidy_lines::{Key, LineKind};

/// A number that two keys of one section have in common where they are the same; none where nothing reads them.
pub fn rank(key: Key) -> Option<(u64, u64)>
    ensures { result ≡ rank key }
{
    match key {
        Key::ObjectType => Some((0, 0)),
        Key::DataType => Some((1, 0)),
        Key::AccessType => Some((2, 0)),
        Key::DefaultValue => Some((3, 0)),
        Key::ParameterValue => Some((4, 0)),
        Key::PdoMapping => Some((5, 0)),
        Key::LowLimit => Some((6, 0)),
        Key::HighLimit => Some((7, 0)),
        Key::CompactSubObj => Some((8, 0)),
        Key::SupportedObjects => Some((9, 0)),
        Key::Entry(number) => Some((10, number)),
        Key::NrOfEntries => Some((11, 0)),
        Key::BaudRate(rate) => Some((12, u64::from(rate.kbits()))),
        Key::CompactPdo => Some((13, 0)),
        Key::ReceivedPdos => Some((14, 0)),
        Key::SentPdos => Some((15, 0)),
        Key::Unread => None,
    }
}

fn same_rank(a: Option<(u64, u64)>, b: Option<(u64, u64)>) -> bool
    ensures { result ≡ same_rank a b }
{
    match (a, b) {
        (Some(a), Some(b)) => a.0 == b.0 && a.1 == b.1,
        _ => false,
    }
}

/// Whether two keys are the same.
fn same_key(a: Key, b: Key) -> bool
    ensures { result ≡ same_key a b }
{
    same_rank(rank(a), rank(b))
}

/// Whether a line states a key.
pub fn states(key: Key, kind: LineKind) -> bool
    ensures { result ≡ states key kind }
{
    match kind {
        LineKind::Pair(other) => same_key(key, other),
        _ => false,
    }
}
