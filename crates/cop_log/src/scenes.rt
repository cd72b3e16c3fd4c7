//! What is known of an entry of a log before it is taken.

use crate::anchors::{Anchor, Pile, Top};
use cop_frame::Rate;
use cop_lines::Entry;
use cop_rta::Stream;

/// An entry; the stream of its identifier, if there is one, and the bound of its response in ticks, if it has one; and the entries from
/// which is counted: those of the stream, all, and that from which the clock may fall.
#[derive(Clone, Copy)]
pub struct Scene {
    pub entry: Entry,
    pub rate: Rate,
    pub stream: Option<Stream>,
    pub bound: Option<u64>,
    pub anchor: Option<Anchor>,
    pub pile: Option<Pile>,
    pub top: Option<Top>,
}
