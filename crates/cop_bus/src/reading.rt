//! Reading a trace from a table.

ghost use Rattle.std.specs.Prelude.{◌≡◌, ◌≤◌, ℕ, ◌+◌, ◌<◌, ◌^◌, ◌++◌, ◌∷◌, [], length, IfOk, OnOk, List};
ghost use Rattle.cop_table.specs.Reading.{Gives};
ghost use Rattle.cop_table.specs.Records.{are_same};
ghost use Rattle.cop_bus.specs.Format.{header};
ghost use Rattle.cop_bus.specs.declared.steps.Step.{Step};
ghost use Rattle.cop_bus.specs.Format.{text_of};
ghost use Rattle.cop_bus.specs.Reading.{AreWritable, refused_at, rows_in, ended, trace_from, trace_of, told};

use crate::entries::{Entry, entry_in};
use crate::faults::BusFault;
use crate::runs::Trace;
use crate::steps::Step;
use cop_table::{Record, Records, TableError, under_header};
use std::alloc::{AllocError, Global};

/// The fields of the header.
const HEADER: [&[u8]; 6] = [b"kind", b"moment", b"id", b"event", b"bits", b"data"];

/// The number by which the fault of a record is known.
const UNREADABLE: u8 = 69;

/// About how many bytes a record of a trace has: room for as many steps is taken at once.
const BYTES_OF_RECORD: usize = 24;

fn refused(place: usize) -> BusFault
    ensures { refused_at result ≡ Some (place, 69) }
{
    BusFault::Refused {
        place,
        number: UNREADABLE,
    }
}

/// Whether a record is the header of a trace.
pub fn is_header(row: &Record) -> bool
    ensures { result ≡ are_same row.now header }
{
    row.is(&HEADER)
}

/// The records under the header.
fn rows_in<'a>(alloc: Global, bytes: &'a [u8], row: &mut Record) -> Result<Records<'a>, BusFault>
    ensures rows { Gives (λ r. r) refused_at result (rows_in bytes.now) }
    ensures count { IfOk result (λ r. length r ≤ length bytes.now) }
{
    match under_header(alloc, bytes, &HEADER, row) {
        Ok(rows) => Ok(rows),
        Err(TableError::Header) => Err(refused(0)),
        Err(TableError::Memory) => Err(BusFault::Memory),
    }
}

fn push(steps: &mut Vec<Step>, step: Step) -> Result<(), AllocError>
    ensures { OnOk result (steps.new.items ≡ steps.old.items ++ step ∷ []) }
{
    steps.push(step)?;
    Ok(())
}

/// The trace whose end is told by the record at a place, which has to be the last one.
fn ended(
    rows: &mut Records<'_>,
    row: &mut Record,
    place: usize,
    until: u64,
    steps: Vec<Step>,
) -> Result<Trace, BusFault>
    requires { place + length rows.old < 2 ^ 64 }
    ensures { Gives told refused_at result (ended place until steps.items rows.old) }
{
    if rows.read(row)? {
        return Err(refused(place + 1));
    }
    Ok(Trace { until, steps })
}

/// The trace of the records under the header, which are about so many.
#[tactic(auto, using(crate::proofs::TraceLemmas::goes_on, crate::proofs::TraceLemmas::stops, crate::proofs::TraceLemmas::fails, crate::proofs::TraceLemmas::nothing_left))]
fn trace_under(
    alloc: Global,
    rows: &mut Records<'_>,
    row: &mut Record,
    count: usize,
) -> Result<Trace, BusFault>
    requires { length rows.old + 1 < 2 ^ 64 }
    ensures { Gives told refused_at result (trace_from 0 [] rows.old) }
{
    let mut steps = Vec::with_capacity(alloc, count)?;
    let mut place = 0;
    'rows: while rows.read(row)? {
        place += 1;
        match entry_in(row) {
            Ok(Entry::Taken(step)) => push(&mut steps, step)?,
            Ok(Entry::Until(until)) => return ended(rows, row, place, until, steps),
            Err(_) => return Err(refused(place)),
        }
    }
    Err(refused(place + 1))
}

#[tactic(auto, unfolding(crate::specs::Reading::trace_of))]
fn trace_of(alloc: Global, bytes: &[u8]) -> Result<Trace, BusFault>
    ensures { Gives told refused_at result (trace_of bytes.now) }
{
    let mut row = Record::new(alloc);
    let mut rows = rows_in(alloc, bytes, &mut row)?;
    trace_under(alloc, &mut rows, &mut row, bytes.len() / BYTES_OF_RECORD)
}

/// The trace of a text. A header that is another one or missing is refused with number 69 at place 0, a record that
/// may not stand where it does at its place from 1 on, and a text without the record of the end past its last record.
pub fn read_trace(alloc: Global, bytes: &[u8]) -> Result<Trace, BusFault>
    ensures read { Gives told refused_at result (trace_of bytes.now) }

    // What `write_trace` wrote is read again.
    ensures written { (until : ℕ) (steps : List Step) → AreWritable until steps → bytes.now ≡ text_of until steps
        → Gives told refused_at result (Ok (record { until = until; steps = steps })) }
{
    trace_of(alloc, bytes)
}
