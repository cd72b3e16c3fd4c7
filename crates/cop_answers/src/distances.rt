//! What a log shows of each stream of the plan, as a table for a spreadsheet.

use cop_logbook::{Logbook, Seen};
use cop_rta::Stream;
use std::alloc::{AllocError, Global};

/// Adds the least, the mean and the greatest distance of two frames in microseconds; empty fields where there are not two.
fn write_distances(text: &mut String, seen: &Seen) -> Result<(), AllocError> {
    if seen.frames < 2 {
        return text.push_str(",,");
    }
    let (least, mean, greatest) = (seen.least, seen.mean(), seen.greatest);
    write!(text, "{least},{mean},{greatest}")
}

/// Adds the row of a stream.
fn write_row(text: &mut String, book: &Logbook<'_>, stream: &Stream) -> Result<(), AllocError> {
    let seen = book.seen(stream.id).copied().unwrap_or(Seen::NOTHING);
    let (id, frames, period) = (stream.id, seen.frames, stream.period / 4);
    let load = seen.billionths(book.plan().rate(), book.all().span());
    write!(text, "{id:03X}h,{frames},{period},")?;
    write_distances(text, &seen)?;
    write!(text, ",{load}\n")
}

/// The table of what a log shows, once all its lines were taken: a row for each stream of the plan, also for those that were never
/// seen. Times are in microseconds, and loads in billionths of the bus. No field needs quotes.
pub fn distances_table(alloc: Global, book: &Logbook<'_>) -> Result<String, AllocError> {
    let mut text = String::from_str(alloc, "id,frames,period,least,mean,greatest,load\n")?;
    for stream in book.plan().streams().streams() {
        write_row(&mut text, book, stream)?;
    }
    Ok(text)
}
