//! What a log says of the streams of a plan.

ghost use Rattle.std.specs.Prelude.{◌≡◌, ◌++◌, IfOk, OnOk};
ghost use Rattle.cop_log.specs.Log.{IsAnswer};
ghost use Rattle.cop_log.specs.Watchers.{findings_of, listed};

use crate::clocks::Clock;
use crate::findings::Finding;
use crate::laws::evidence_convicts;
use crate::told::Told;
use crate::watcher::Watcher;
use cop_frame::Rate;
use cop_lines::Entry;
use cop_rta::StreamSet;
use std::alloc::{AllocError, Global};

fn note(finding: Option<Finding>, found: &mut Vec<Finding>) -> Result<(), AllocError>
    ensures { OnOk result (found.new.items ≡ found.old.items ++ listed finding) }
{
    match finding {
        Some(finding) => found.push(finding)?,
        None => {}
    }
    Ok(())
}

fn note_all(told: &Told, found: &mut Vec<Finding>) -> Result<(), AllocError>
    ensures { OnOk result (found.new.items ≡ found.old.items ++ findings_of told.now) }
{
    note(told.fallen, found)?;
    note(told.named, found)?;
    note(told.soon, found)?;
    note(told.crowded, found)
}

/// Everything in a log that speaks against its being of a legal run in which all streams obey. Each finding is evident from the
/// entries that it names; where there is none, nothing of the kind is; and where a legal run with obeying streams has the log,
/// there is none.
pub fn watch(
    alloc: Global,
    streams: &StreamSet,
    bounds: Vec<Option<u64>>,
    rate: Rate,
    clock: Clock,
    log: &[Entry],
) -> Result<Vec<Finding>, AllocError>
    ensures { IfOk result (λ found. IsAnswer (record { rate = rate; streams = streams.now; bounds = bounds.items; clock = clock }) log.now found.items) }
{
    evidence_convicts();
    let mut found = Vec::new(alloc);
    let mut watcher = Watcher::new(alloc, streams, bounds, rate, clock)?;
    for place in 0..log.len() {
        let told = watcher.take(&log[place]);
        note_all(&told, &mut found)?;
    }
    Ok(found)
}
