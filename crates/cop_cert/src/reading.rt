//! Reading refusals from a table.

ghost use Rattle.std.specs.Prelude.{◌≡◌, ◌≤◌, ◌+◌, ◌<◌, ◌^◌, length, IfOk, OnOk, List, Ok};
ghost use Rattle.cop_cert.specs.declared.refusals.Refusal.{Refusal};
ghost use Rattle.cop_cert.specs.Format.{shared_text_of, text_of};
ghost use Rattle.cop_cert.specs.Writable.{AreWritable};
ghost use Rattle.cop_table.specs.Reading.{Gives};
ghost use Rattle.cop_cert.specs.Faults.{breach_of};
ghost use Rattle.cop_cert.specs.Reading.{taken, rows_in, after_version, refusals_in, refusals_of};

use crate::drafts;
use crate::entries::{Version, version_in};
use crate::faults::{Breach, CertFault, Rule};
use crate::plain::{refusals_in_text, start_of};
use crate::refusals::Refusal;
use crate::steps::{at, take};
use cop_table::{Record, Records, TableError, under_header};
use std::alloc::Global;

/// The fields of the header.
const HEADER: [&[u8]; 4] = [b"rate", b"pdo", b"what", b"value"];

/// The records under the header.
fn rows_in<'a>(alloc: Global, bytes: &'a [u8], row: &mut Record) -> Result<Records<'a>, CertFault>
    ensures rows { Gives (λ r. r) breach_of result (rows_in bytes.now) }
    ensures count { IfOk result (λ r. length r ≤ length bytes.now) }
{
    match under_header(alloc, bytes, &HEADER, row) {
        Ok(rows) => Ok(rows),
        Err(TableError::Header) => Err(CertFault::Refused(Breach {
            rule: Rule::Version,
            place: 0,
        })),
        Err(TableError::Memory) => Err(CertFault::Memory),
    }
}

/// Reads the record of the version.
fn read_version(rows: &mut Records<'_>, row: &mut Record) -> Result<Version, CertFault>
    ensures rows { Gives (λ version. (version, rows.new)) breach_of result (after_version rows.old) }
    ensures count { OnOk result (length rows.old ≡ length rows.new + 1) }
{
    let (fields, version) = (Rule::Fields, Rule::Version);
    let place = 1;
    if !rows.read(row)? {
        return Err(CertFault::Refused(Breach {
            rule: version,
            place,
        }));
    }
    if row.len() != 4 {
        return Err(CertFault::Refused(Breach {
            rule: fields,
            place,
        }));
    }
    match version_in(row) {
        Some(version) => Ok(version),
        None => Err(CertFault::Refused(Breach {
            rule: version,
            place,
        })),
    }
}

/// The refusals of the records after that of the version.
#[tactic(auto, using(cop_table::proofs::RowsLemmas::goes_on, cop_table::proofs::RowsLemmas::stops, cop_table::proofs::RowsLemmas::ends))]
fn refusals_in(
    alloc: Global,
    version: Version,
    rows: &mut Records<'_>,
    row: &mut Record,
) -> Result<Vec<Refusal>, CertFault>
    requires { length rows.old + 1 < 2 ^ 64 }
    ensures { Gives (λ refusals. refusals.items) breach_of result (refusals_in version rows.old) }
{
    let mut draft = None;
    let mut place = 1;
    'rows: while rows.read(row)? {
        place += 1;
        take(alloc, version, &mut draft, place, row)?;
    }
    match drafts::finished(alloc, draft) {
        Ok(refusals) => Ok(refusals),
        Err(fault) => Err(at(place, fault)),
    }
}

#[tactic(auto, unfolding(crate::specs::Reading::refusals_of))]
/// The refusals of a text, however it is written.
fn refusals_of_records(alloc: Global, bytes: &[u8]) -> Result<Vec<Refusal>, CertFault>
    ensures { Gives (λ refusals. refusals.items) breach_of result (refusals_of bytes.now) }
{
    let mut row = Record::new(alloc);
    let mut rows = rows_in(alloc, bytes, &mut row)?;
    let version = read_version(&mut rows, &mut row)?;
    refusals_in(alloc, version, &mut rows, &mut row)
}

fn refusals_of(alloc: Global, bytes: &[u8]) -> Result<Vec<Refusal>, CertFault>
    ensures { Gives (λ refusals. refusals.items) breach_of result (refusals_of bytes.now) }
{
    match start_of(bytes) {
        Some((version, text)) => refusals_in_text(alloc, version, text),
        None => refusals_of_records(alloc, bytes),
    }
}

/// The refusals of a text. Of its records the first that breaks a rule counts, and of its rules the least.
pub fn read(alloc: Global, bytes: &[u8]) -> Result<Vec<Refusal>, CertFault>
    ensures read { Gives (λ refusals. refusals.items) breach_of result (refusals_of bytes.now) }
    ensures readable { IfOk result (λ refusals. AreWritable refusals.items) }

    // What `write` wrote is read again.
    ensures written { (refusals : List Refusal) → AreWritable refusals → bytes.now ≡ text_of refusals
        → Gives (λ refusals. refusals.items) breach_of result (Ok refusals) }

    // So is what `write_shared` wrote.
    ensures shared { (refusals : List Refusal) → AreWritable refusals → bytes.now ≡ shared_text_of refusals
        → Gives (λ refusals. refusals.items) breach_of result (Ok refusals) }
{
    refusals_of(alloc, bytes)
}
