//! Which streams are above.

ghost use Rattle.std.specs.Prelude.{◌≡◌, ◌<◌, length, false, true};
ghost use Rattle.cop_rta.specs.Test.{is_flagged};
ghost use Rattle.cop_rta.specs.Paces.{flags_above};

use std::marker::Model;

/// Which streams are above, by flags of these or of the others. Contracts see the flags of those that are above.
#[derive(Drop)]
pub(crate) struct Above<'a> {
    flags: &'a [bool],
    // Whether the flags are of those that are not above.
    turned: bool,
}

impl<'a> Model for Above<'a> {
    ghost use Rattle.std.specs.Prelude.{List, Bool};
    ghost use Rattle.cop_rta.specs.Paces.{flags_above};

    ghost Value = { List Bool };

    ghost view = { λ a. flags_above a.turned a.flags.now };
}

impl<'a> Above<'a> {
    /// The flagged streams are above.
    pub(crate) fn flagged(flags: &'a [bool]) -> Above<'a>
        ensures { result ≡ flags.now }
    {
        Above {
            flags,
            turned: false,
        }
    }

    /// The streams that are not flagged are above.
    pub(crate) fn unflagged(flags: &'a [bool]) -> Above<'a>
        ensures { result ≡ flags_above true flags.now }
    {
        Above {
            flags,
            turned: true,
        }
    }

    /// The same once more.
    pub(crate) fn again(&self) -> Above<'a>
        ensures { result ≡ self.now }
    {
        Above {
            flags: self.flags,
            turned: self.turned,
        }
    }

    /// Whether a stream is above.
    pub(crate) fn has(&self, k: usize) -> bool
        requires { k < length self.now }
        ensures { result ≡ is_flagged self.now k }
    {
        let _ = &self.turned;
        self.flags[k] != self.turned
    }
}
