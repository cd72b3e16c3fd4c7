//! What one entry shows.

ghost use Rattle.std.specs.Prelude.{◌≡◌};

use crate::findings::Finding;

/// What an entry shows: by its stamp, by its identifier and length, by the entries of its stream before it, and by all entries before it.
#[derive(Clone, Copy, PartialEq, Eq, Debug)]
pub struct Told {
    pub fallen: Option<Finding>,
    pub named: Option<Finding>,
    pub soon: Option<Finding>,
    pub crowded: Option<Finding>,
}

impl Told {
    ghost use Rattle.cop_log.specs.Watching.{tells_nothing};

    /// Whether it shows nothing.
    pub fn is_nothing(&self) -> bool
        ensures { result ≡ tells_nothing self.now }
    {
        self.fallen.is_none()
            && self.named.is_none()
            && self.soon.is_none()
            && self.crowded.is_none()
    }
}
