//! The identifiers that PDOs may get.

ghost use Rattle.std.specs.Prelude.{◌↔◌, IsTrue};
ghost use Rattle.cop_rta.specs.Ranges.{IsIn};

/// Identifiers one after the other.
#[derive(Clone, Copy, PartialEq, Eq, Debug)]
pub struct IdRange {
    pub least: u16,
    pub count: u16,
}

impl IdRange {
    /// 181h to 57Fh: above all SDO frames.
    pub const FIRST: IdRange = IdRange {
        least: 0x181,
        count: 1023,
    };

    /// 680h to 6DFh: below all SDO frames. It is used where it has room for all PDOs of a network.
    pub const SECOND: IdRange = IdRange {
        least: 0x680,
        count: 96,
    };

    /// Whether an identifier is one of the range.
    pub fn contains(self, id: u16) -> bool
        ensures { IsTrue result ↔ IsIn self id }
    {
        self.least <= id && id - self.least < self.count
    }
}
