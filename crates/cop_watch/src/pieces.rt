//! A trace that is watched while it is read.

ghost use Rattle.std.specs.Prelude.{◌≡◌, ◌<◌, true, length, IfSome};
ghost use Rattle.std.specs.Io.KnownBytes.{IsAtEnd};
ghost use Rattle.cop_frame.specs.Rate.{ticks_of};
ghost use Rattle.cop_table.specs.Pieces.{HoldsOfAll};
ghost use Rattle.cop_watch.specs.Pieces.{Feeds};
ghost use Rattle.cop_watch.specs.Reading.{Shows};

use crate::found::Seen;
use crate::reading::TraceWatch;
use cop_frame::Rate;
use cop_rta::StreamSet;
use std::alloc::Global;
use std::io::Read;

/// How many bytes are read at once: 256 KiB.
const PIECE: usize = 256 * 1024;

/// Feeds a watch with all that a reader has left. Each piece takes the place of the one before.
fn feed_all<R: Read>(watch: &mut TraceWatch<'_>, reader: &mut R, piece: &mut [u8]) -> bool
    requires { 0 < length piece.old }
    ensures fed { result ≡ true → Feeds (R.remaining reader.old) (R.remaining reader.new) watch.old watch.new }
    ensures all { result ≡ true → IsAtEnd (R.remaining reader.new) }
{
    'pieces: for _ in 0..u64::MAX {
        match reader.read(piece) {
            Ok(0) => return true,
            Ok(len) => {
                if !watch.feed(&piece[..len]) {
                    return false;
                }
            }
            Err(_) => return false,
        }
    }
    false
}

/// What is seen of the trace that a reader has left. It is read in pieces that are not kept, so memory does not grow with it. Where the
/// answer is none, nothing is known of it: it is not taken, as [`TraceWatch`] says, or cannot be read, or memory is wanting.
pub fn seen_in_pieces<R: Read + Drop>(
    alloc: Global,
    streams: &StreamSet,
    rate: Rate,
    mut reader: R,
) -> Option<Seen>
    ensures { IfSome result (λ seen. HoldsOfAll (R.remaining reader) (λ trace. Shows (ticks_of rate) streams.now trace seen)) }
{
    let Ok(mut watch) = TraceWatch::new(alloc, streams, rate) else {
        return None;
    };
    let Ok(mut piece) = vec![in alloc; 0; PIECE] else {
        return None;
    };
    if feed_all(&mut watch, &mut reader, &mut piece) {
        watch.finish()
    } else {
        None
    }
}
