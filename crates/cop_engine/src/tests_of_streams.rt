//! The test of the streams of a table.

ghost use Rattle.std.specs.Prelude.{◌≡◌, ◌↔◌, ◌≤◌, All, IsTrue, length, IfOk, MatchResult};
ghost use Rattle.cop_rta.specs.Verdict.{IsPass};
ghost use Rattle.cop_engine.specs.Reports.{lines_below, line_at};
ghost use Rattle.cop_engine.specs.Tests.{AreVerdicts, verdict_at, AreTested, IsReport, Explains};

use crate::faults::Fault;
use crate::reports::report;
use cop_frame::Rate;
use cop_rta::{StreamSet, TableFault, Verdict, read_streams, verdicts_by_id};
use std::alloc::{AllocError, Global};
use std::marker::Model;

/// The verdicts of the first streams, each with the lower identifiers above it.
pub(crate) fn judge_first(
    alloc: Global,
    set: &StreamSet,
    rate: Rate,
    count: usize,
) -> Result<Vec<Verdict>, AllocError>
    requires { count ≤ length set.now }
    ensures { IfOk result (λ verdicts. AreVerdicts rate set.now verdicts.items count) }
{
    let mut verdicts = verdicts_by_id(alloc, set, rate)?;
    verdicts.truncate(count);
    Ok(verdicts)
}

/// Whether all streams pass.
fn all_pass(verdicts: &[Verdict]) -> bool
    ensures { IsTrue result ↔ All IsPass verdicts.now }
{
    verdicts
        .iter()
        .all(|verdict| matches!(verdict, Verdict::Pass { .. }))
}

/// What the test says of each stream of a table.
#[derive(Drop)]
pub struct Tested {
    set: StreamSet,
    verdicts: Vec<Verdict>,
}

impl Model for Tested {
    ghost use Rattle.std.specs.Prelude.{◌≡◌, length};
    ghost use Rattle.cop_engine.specs.Tests.{TestedStreams};

    ghost Value = { TestedStreams };

    ghost view = { λ t. record { streams = t.set; verdicts = t.verdicts.items } };

    ghost invariant = { λ t. length t.verdicts.items ≡ length t.set };
}

impl Tested {
    /// What it says of the stream of an identifier, if there is one.
    pub fn verdict(&self, id: u16) -> Option<Verdict>
        ensures { result ≡ verdict_at self.now.streams self.now.verdicts id }
    {
        match self.set.place_of(id) {
            Some(place) => Some(self.verdicts[place]),
            None => None,
        }
    }

    /// Whether all streams pass.
    pub fn all_pass(&self) -> bool
        ensures { IsTrue result ↔ All IsPass self.now.verdicts }
    {
        all_pass(&self.verdicts)
    }

    /// A line for each stream, by rising identifier.
    pub fn text(&self, alloc: Global) -> Result<Vec<u8>, AllocError>
        ensures { IfOk result (λ text. text.items ≡ lines_below (line_at self.now.streams self.now.verdicts) 2048) }
    {
        report(alloc, &self.set, &self.verdicts)
    }
}

/// The test of the streams of a table at a rate.
pub fn test_of(alloc: Global, bytes: &[u8], rate: Rate) -> Result<Tested, Fault>
    ensures { MatchResult result (AreTested rate bytes.now) (Explains bytes.now) }
{
    let set = match read_streams(alloc, bytes) {
        Ok(set) => set,
        Err(TableFault::Refused(refusal)) => {
            return Err(Fault::Refused {
                number: refusal.rule.number(),
                place: refusal.place,
            });
        }
        Err(TableFault::Memory) => return Err(Fault::Memory),
    };
    let verdicts = judge_first(alloc, &set, rate, set.len())?;
    Ok(Tested { set, verdicts })
}

/// The test of the streams of a table at a rate: a line for each stream, by rising identifier, and whether all pass.
pub fn test_bytes(alloc: Global, bytes: &[u8], rate: Rate) -> Result<(Vec<u8>, bool), Fault>
    ensures { MatchResult result (λ found. IsReport rate bytes.now found.0.items found.1) (λ fault. Explains bytes.now fault) }
{
    let tested = test_of(alloc, bytes, rate)?;
    Ok((tested.text(alloc)?, tested.all_pass()))
}
