//! The sink that writes a trace.

ghost use Rattle.std.specs.Prelude.{ℕ, List};
ghost use Rattle.std.specs.Io.KnownBytes.{Appends};
ghost use Rattle.cop_bus.specs.declared.steps.Step.{Step};
ghost use Rattle.cop_bus.specs.declared.piecewise.TraceWriter.{TraceWriter};
ghost use Rattle.cop_bus.specs.Format.{text_of};
ghost use Rattle.cop_bus.specs.Piecewise.{has_failed, Begins, Writes, Finishes};
ghost use Rattle.cop_sim.specs.Sinks.{Took};

use crate::sinks::Sink;
use cop_bus::{Step, TraceWriter};
use std::io::Write;

/// A sink that writes the record of each step as it comes.
pub type TraceSink<W> = TraceWriter<W>;

impl<W: Write + Drop> Sink for TraceWriter<W> {
    ghost takes = { λ s x t. Writes W.contents s x t };

    ghost has_failed = { λ s. has_failed s };

    fn take(&mut self, step: &Step) -> bool {
        self.write(step)
    }

    fn failed(&self) -> bool {
        TraceWriter::failed(self)
    }
}

/// A trace that is written step by step is the text of the trace ([`write_trace`](cop_bus::write_trace)): from the writer
/// as it was at first, by takes of the steps, to the writer that is given back.
pub fn traces_are_written<W: Write + Drop>()
    ensures { (w w' : W) (s t : TraceWriter W) (steps : List Step) (until : ℕ) → Begins W.contents w s → Took (λ a x b. Writes W.contents a x b) s steps t → Finishes W.contents t until w'
        → Appends (W.contents w) (W.contents w') (text_of until steps) }
{}
