//! Writing a trace as a table.

ghost use Rattle.std.specs.Prelude.{◌≡◌, ◌∷◌, [], OnOk, IfOk, codes, map};
ghost use Rattle.cop_bus.specs.Format.{Fields, header, short, fields_of, line, text_of};
ghost use Rattle.cop_bus.specs.Writer.{Adds};

use crate::lines::{Block, header, make_short, make_step};
use crate::runs::Trace;
use crate::steps::Step;
use std::alloc::{AllocError, Global};
use std::io::Write;

/// A record is not written: the writer failed. The text of a record takes no memory.
#[derive(Clone, Copy)]
pub(crate) struct NotWritten {}

impl From<NotWritten> for AllocError {
    fn from(_error: NotWritten) -> AllocError {
        AllocError
    }
}

// Writes a line.
fn write_line<W: Write>(writer: &mut W, text: &[u8]) -> Result<(), NotWritten>
    ensures { OnOk result ((row : Fields) → text.now ≡ line row → Adds W.contents writer.old writer.new (row ∷ [])) }
{
    if let Ok(()) = writer.write_all(text) {
        return Ok(());
    }
    Err(NotWritten {})
}

// The names of the fields.
fn write_header<W: Write>(writer: &mut W) -> Result<(), NotWritten>
    ensures { OnOk result (Adds W.contents writer.old writer.new (header ∷ [])) }
{
    write_line(writer, header())
}

// The last record, which tells the end.
fn write_end<W: Write>(writer: &mut W, until: u64) -> Result<(), NotWritten>
    ensures { OnOk result (Adds W.contents writer.old writer.new (short (codes "until") until 0 ∷ [])) }
{
    let mut record = [0; 112];
    let start = make_short(&mut record, b"until", until, 0);
    write_line(writer, &record[start..])
}

// The record of a step, which is made in a place that is kept from one to the next.
fn write_step<W: Write>(writer: &mut W, record: &mut Block, step: &Step) -> Result<(), NotWritten>
    ensures { OnOk result (Adds W.contents writer.old writer.new (fields_of step.now ∷ [])) }
{
    let start = make_step(record, step);
    write_line(writer, &record[start..])
}

#[tactic(auto, using(crate::proofs::WriterLemmas::adds_mapped, crate::proofs::WriterLemmas::all_mapped, crate::proofs::WriterLemmas::adds_none))]
fn write_steps<W: Write>(writer: &mut W, steps: &[Step]) -> Result<(), NotWritten>
    ensures { OnOk result (Adds W.contents writer.old writer.new (map fields_of steps.now)) }
{
    let mut record = [0; 112];
    for step in steps {
        write_step(writer, &mut record, step)?;
    }
    Ok(())
}

#[tactic(auto, using(crate::proofs::WriterLemmas::adds_more), unfolding(crate::specs::Format::text_of))]
/// The text of a trace: a record for each step, and at last its end. `Err` is want of memory.
pub fn write_trace(alloc: Global, trace: &Trace) -> Result<Vec<u8>, AllocError>
    ensures { IfOk result (λ text. text.items ≡ text_of trace.now.until trace.now.steps.items) }
{
    let mut text = Vec::new(alloc);
    write_header(&mut text)?;
    write_steps(&mut text, &trace.steps)?;
    write_end(&mut text, trace.until)?;
    Ok(text)
}
