//! What the table of nodes says for PDOs.

ghost use Rattle.std.specs.Prelude.{◌≡◌, IfSome};
ghost use Rattle.cop_net.specs.Signals.{signals_of};
ghost use Rattle.cop_net.specs.Pdos.{IsSync};

use crate::frames::Frames;
use cop_rows::FrameRow;
use cop_rta::IdRange;

/// What the table of nodes says for PDOs.
#[derive(Clone, Copy)]
pub struct Signals {
    /// The row of SYNC, where it is sent.
    pub sync: Option<FrameRow>,
    /// Whether a plan may give identifiers of the second range.
    pub is_second_open: bool,
}

impl Signals {
    /// What frames say for so many PDOs: SYNC's row, and the second range is open where an SDO frame has a deadline and
    /// there is room for all PDOs.
    pub fn new(frames: &Frames<'_>, pdos: usize) -> Signals
        ensures signals { result ≡ signals_of frames.now pdos }
        ensures sync { IfSome result.sync IsSync }
    {
        Signals {
            sync: frames.sync(),
            is_second_open: pdos <= usize::from(IdRange::SECOND.count) && frames.has_sdo_deadline(),
        }
    }
}
