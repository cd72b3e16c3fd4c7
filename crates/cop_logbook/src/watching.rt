//! A log that is watched to its end, in pieces that are not kept.

ghost use Rattle.std.specs.Prelude.{◌≡◌, ◌<◌, ◌^◌, length, IfOk, IfErr, OnOk};
ghost use Rattle.std.specs.Option.{option_copied};
ghost use Rattle.std.specs.Io.KnownBytes.{IsAtEnd};
ghost use Rattle.cop_table.specs.Pieces.{HoldsOfAll};
ghost use Rattle.cop_logbook.specs.Books.{IsWatched};
ghost use Rattle.cop_logbook.specs.declared.logbook.BookFault.TheVariants.{Memory};
ghost use Rattle.cop_logbook.specs.declared.watching.WatchFault.TheVariants.{Book};
ghost use Rattle.cop_logbook.specs.Pieces.{TakesAlong, FailsAlong, IsWhyNot};

use crate::logbook::{BookFault, Logbook};
use cop_log::Clock;
use cop_plan::Plan;
use std::alloc::{AllocError, AllocFailed, Global};
use std::io;
use std::io::Read;

/// How many bytes are read at once: 256 KiB.
const PIECE: usize = 256 * 1024;

/// Why a log is not watched to its end.
#[derive(Drop)]
pub enum WatchFault {
    /// A line is refused, or memory is wanting.
    Book(BookFault),
    /// It cannot be read.
    Read(io::Error),
}

impl From<BookFault> for WatchFault {
    ghost from_gives = { λ fault watch. watch ≡ Book fault };

    fn from(fault: BookFault) -> WatchFault {
        WatchFault::Book(fault)
    }
}

impl From<AllocError> for WatchFault {
    ghost from_gives = { λ _ watch. watch ≡ Book Memory };

    fn from(_error: AllocError) -> WatchFault {
        WatchFault::Book(BookFault::Memory)
    }
}

impl<T: Drop> From<AllocFailed<T>> for WatchFault {
    ghost from_gives = { λ _ watch. watch ≡ Book Memory };

    fn from(_error: AllocFailed<T>) -> WatchFault {
        WatchFault::Book(BookFault::Memory)
    }
}

/// What looks on while a log is watched.
pub trait Onlooker {
    /// Is shown the logbook once a piece of the log was taken.
    fn look(&mut self, book: &Logbook<'_>);
}

/// Nobody looks on.
#[derive(Clone, Copy)]
pub struct Nobody;

impl Onlooker for Nobody {
    fn look(&mut self, _book: &Logbook<'_>) {}
}

/// Takes all pieces that a reader has left. Each takes the place of the one before, and is looked at once it was taken.
fn take_pieces<R: Read, L: Onlooker>(
    book: &mut Logbook<'_>,
    reader: &mut R,
    piece: &mut [u8],
    onlooker: &mut L,
) -> Result<(), WatchFault>
    requires { 0 < length piece.old }
    ensures taken { OnOk result (TakesAlong (R.remaining reader.old) (R.remaining reader.new) book.old book.new) }
    ensures all { OnOk result (IsAtEnd (R.remaining reader.new)) }
    ensures wrong { IfErr result (FailsAlong (R.remaining reader.old) book.old) }
{
    'pieces: for _ in 0..u64::MAX {
        match reader.read(piece) {
            Ok(0) => return Ok(()),
            Ok(len) => {
                book.take_piece(&piece[..len])?;
                onlooker.look(book);
            }
            Err(error) => return Err(WatchFault::Read(error)),
        }
    }
    Err(WatchFault::Book(BookFault::Memory))
}

/// A log that a reader has left, watched to its end by a plan: each breach is evident from it, and where a legal run in which all streams
/// obey has it, within the error of its clock, there is none. Where the plan counts disturbed transfers, each error frame is one of these: then
/// error frames are no breach as long as they are as rare as the plan says. The frames of the channel count, those of the first frame's where none is
/// given; `are_distances` says that the stamps of a log in columns are distances. A last line that lacks its end is left out, and memory
/// does not grow with the log. It is refused where a line is, or where no frame is of the channel. An onlooker is shown how far it came.
pub fn watched<'a, R: Read + Drop, L: Onlooker>(
    alloc: Global,
    plan: &'a Plan,
    clock: Clock,
    channel: Option<&str>,
    are_distances: bool,
    mut reader: R,
    onlooker: &mut L,
) -> Result<Logbook<'a>, WatchFault>
    ensures watched { IfOk result (λ book. HoldsOfAll (R.remaining reader) (λ text. length text < 2 ^ 64
        → IsWatched plan.now clock (record { channel = option_copied channel.entry; are_distances = are_distances }) text book)) }
    ensures refused { IfErr result (IsWhyNot (record { channel = option_copied channel.entry; are_distances = are_distances }) (R.remaining reader)) }
{
    let mut book = Logbook::new(alloc, plan, clock, channel, are_distances)?;
    let mut piece = vec![in alloc; 0; PIECE]?;
    take_pieces(&mut book, &mut reader, &mut piece, onlooker)?;
    book.end()?;
    Ok(book)
}
