//! Traces that are judged while they are read in pieces.

ghost use Rattle.std.specs.Prelude.{◌≤◌};

use crate::engine::{ONE_PDO, UNIT, VALVE, by, eds_files};
use cop_engine::{Fault, judge_outcome, judge_pieces, outcome_of, run_bytes};
use cop_plan::{Choice, Outcome};
use std::alloc::Global;
use std::io::{self, Read};
use std::test::Fail;

/// Gives a text in pieces of 1 to 7 bytes, and at its end fails, if it is to.
#[derive(Drop)]
struct Pieces<'a> {
    left: &'a [u8],
    len: usize,
    fails: bool,
}

impl Read for Pieces<'_> {
    fn read(&mut self, buf: &mut [u8]) -> io::Result<usize> {
        if self.left.is_empty() && self.fails {
            return Err(io::Error::from(io::ErrorKind::Other));
        }
        self.len = self.len % 7 + 1;
        let len = self.len.min(self.left.len()).min(buf.len());
        buf[..len].copy_from_slice(&self.left[..len]);
        self.left = &self.left[len..];
        Ok(len)
    }
}

fn in_pieces(text: &[u8], fails: bool) -> Pieces<'_> {
    Pieces {
        left: text,
        len: 0,
        fails,
    }
}

/// What is planned for the valve.
fn outcome(alloc: Global) -> Result<Outcome, Fault> {
    let files = eds_files(alloc, UNIT)?;
    outcome_of(alloc, VALVE, ONE_PDO, &files, &by(Choice::Order))
}

/// A run of the valve's plan up to a moment in microseconds: what is said of it, and its trace.
fn ran(alloc: Global, until: u64) -> Result<(Vec<u8>, Vec<u8>), Fault>
    requires { until ≤ 1000000000 }
{
    let files = eds_files(alloc, UNIT)?;
    let asked = by(Choice::Order);
    run_bytes(alloc, 42, until, VALVE, ONE_PDO, &files, &asked)
}

/// What is judged of a trace in pieces.
fn judged(alloc: Global, trace: &[u8], fails: bool) -> Result<Option<Vec<u8>>, Fault> {
    let outcome = outcome(alloc)?;
    match judge_pieces(alloc, &outcome, in_pieces(trace, fails)) {
        Some(judgement) => Ok(Some(judgement?.text(alloc)?)),
        None => Ok(None),
    }
}

#[test]
fn a_trace_in_pieces_is_judged_as_it_is_told(rt: HostRuntime) -> Result<(), Fail> {
    let (text, trace) = ran(rt.alloc(), 2_000_000)?;
    let judged = judged(rt.alloc(), &trace, false)?;
    assert!(rt; judged.is_some_and(|judged| judged == text));
    let whole = judge_outcome(rt.alloc(), &outcome(rt.alloc())?, &trace)?;
    assert!(rt; whole.text(rt.alloc())? == text);
    Ok(())
}

#[test]
fn a_trace_that_is_not_read_to_its_end_is_not_judged(rt: HostRuntime) -> Result<(), Fail> {
    let (_, trace) = ran(rt.alloc(), 20_000)?;
    assert!(rt; judged(rt.alloc(), &trace, true)?.is_none());
    Ok(())
}
