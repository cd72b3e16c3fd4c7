//! The text of a plan.

ghost use Rattle.std.specs.Prelude.{◌≡◌, ◌<◌, ◌++◌, length, option_map, OnOk, IfOk, codes, All};
ghost use Rattle.std.specs.List.{flat_map};
ghost use Rattle.cop_plan.specs.Values.{others_beyond};
ghost use Rattle.cop_engine.specs.Reports.{lines_below};
ghost use Rattle.cop_engine.specs.PlanTexts.{rate_line, pdo_name, response_end, pdo_line, pdo_line_at, margin_line, others_line, cause_text, refused_line, HasIdentifier};

use crate::reports::{push_id, push_number};
use cop_cert::{Cause, Refusal};
use cop_frame::Rate;
use cop_net::PdoRow;
use cop_plan::Plan;
use cop_rta::{Verdict, response_of};
use std::alloc::{AllocError, Global};

/// The line of the rate.
fn push_rate(text: &mut Vec<u8>, rate: Rate) -> Result<(), AllocError>
    ensures { OnOk result (text.new.items ≡ text.old.items ++ rate_line rate) }
{
    text.extend_from_slice(b"rate ")?;
    push_number(text, u64::from(rate.kbits()))?;
    text.extend_from_slice(b"\n")
}

/// A PDO's node and number.
fn push_name(text: &mut Vec<u8>, row: &PdoRow) -> Result<(), AllocError>
    ensures { OnOk result (text.new.items ≡ text.old.items ++ pdo_name row.now) }
{
    text.extend_from_slice(b"pdo ")?;
    push_number(text, u64::from(row.node))?;
    text.extend_from_slice(b".")?;
    push_number(text, u64::from(row.tpdo))
}

/// The end of a PDO's line.
fn push_response(text: &mut Vec<u8>, response: u64) -> Result<(), AllocError>
    ensures { OnOk result (text.new.items ≡ text.old.items ++ response_end response) }
{
    text.extend_from_slice(b"h response ")?;
    push_number(text, response)?;
    text.extend_from_slice(b"\n")
}

/// The line of a PDO.
fn push_pdo(text: &mut Vec<u8>, row: &PdoRow, id: u16, response: u64) -> Result<(), AllocError>
    requires { id < 2048 }
    ensures { OnOk result (text.new.items ≡ text.old.items ++ pdo_line row.now id response) }
{
    push_name(text, row)?;
    text.extend_from_slice(b" id ")?;
    push_id(text, id)?;
    push_response(text, response)
}

#[tactic(auto, using(crate::proofs::ReportsLemmas::lines_more, crate::proofs::ReportsLemmas::lines_none, crate::proofs::PlanTextLemmas::pdo_found))]
/// The line of each PDO, in the order of the table.
fn push_pdos(
    text: &mut Vec<u8>,
    rows: &[PdoRow],
    ids: &[u16],
    verdicts: &[Verdict],
) -> Result<(), AllocError>
    requires ids { length ids.now ≡ length rows.now }
    requires verdicts { length verdicts.now ≡ length rows.now }
    requires range { All (λ id. id < 2048) ids.now }
    ensures { OnOk result (text.new.items ≡ text.old.items ++ lines_below (pdo_line_at rows.now ids.now verdicts.now) (length rows.now)) }
{
    for (k, row) in rows.iter().enumerate() {
        push_pdo(text, row, ids[k], response_of(verdicts[k]))?;
    }
    Ok(())
}

/// Why a rate is refused.
fn push_cause(text: &mut Vec<u8>, cause: &Cause) -> Result<(), AllocError>
    requires { HasIdentifier cause.now }
    ensures { OnOk result (text.new.items ≡ text.old.items ++ cause_text cause.now) }
{
    match cause {
        Cause::Places { members } => {
            text.extend_from_slice(b"members ")?;
            push_number(text, members.as_slice().len() as u64)
        }
        Cause::Sync { .. } => text.extend_from_slice(b"sync"),
        Cause::Sdo { id, .. } => {
            text.extend_from_slice(b"sdo ")?;
            push_id(text, *id)
        }
    }
}

/// The line of a refused rate.
fn push_refused(text: &mut Vec<u8>, refusal: &Refusal) -> Result<(), AllocError>
    requires { HasIdentifier refusal.now.cause }
    ensures { OnOk result (text.new.items ≡ text.old.items ++ refused_line refusal.now) }
{
    text.extend_from_slice(b"refused ")?;
    push_number(text, u64::from(refusal.rate.kbits()))?;
    text.extend_from_slice(b" ")?;
    push_cause(text, &refusal.cause)?;
    text.extend_from_slice(b"\n")
}

/// The line of the margin, where the plan was chosen by it.
fn push_margin(text: &mut Vec<u8>, margin: Option<u64>) -> Result<(), AllocError>
    ensures { OnOk result (text.new.items ≡ text.old.items ++ margin_line margin) }
{
    if let Some(ticks) = margin {
        text.extend_from_slice(b"margin ")?;
        push_number(text, ticks)?;
        text.extend_from_slice(b"\n")?;
    }
    Ok(())
}

/// The line of the margin that is kept by those deadlines that can have it, if it is greater than that of all.
fn push_others(text: &mut Vec<u8>, others: Option<u64>) -> Result<(), AllocError>
    ensures { OnOk result (text.new.items ≡ text.old.items ++ others_line others) }
{
    if let Some(ticks) = others {
        text.extend_from_slice(b"others ")?;
        push_number(text, ticks)?;
        text.extend_from_slice(b"\n")?;
    }
    Ok(())
}

#[tactic(auto, using(crate::proofs::PlanTextLemmas::refused_more))]
/// The line of each refused rate.
fn push_all_refused(text: &mut Vec<u8>, refusals: &[Refusal]) -> Result<(), AllocError>
    requires { All (λ r. HasIdentifier r.cause) refusals.now }
    ensures { OnOk result (text.new.items ≡ text.old.items ++ flat_map refused_line refusals.now) }
{
    for refusal in refusals {
        push_refused(text, refusal)?;
    }
    Ok(())
}

/// The text of a plan: its rate, a line for each PDO in the order of the table, its margins, where it was chosen by them, and a line for each
/// refused rate.
pub fn planned_text(
    alloc: Global,
    rows: &[PdoRow],
    verdicts: &[Verdict],
    plan: &Plan,
) -> Result<Vec<u8>, AllocError>
    requires ids { length plan.now.ids ≡ length rows.now }
    requires verdicts { length verdicts.now ≡ length rows.now }
    requires range { All (λ id. id < 2048) plan.now.ids }
    requires causes { All (λ r. HasIdentifier r.cause) plan.now.refusals }
    ensures { IfOk result (λ text. text.items ≡ rate_line plan.now.rate ++ lines_below (pdo_line_at rows.now plan.now.ids verdicts.now) (length rows.now) ++ margin_line (option_map (λ kept. kept.all) plan.now.margin) ++ others_line (others_beyond plan.now.margin) ++ flat_map refused_line plan.now.refusals) }
{
    let mut text = Vec::new(alloc);
    push_rate(&mut text, plan.rate())?;
    push_pdos(&mut text, rows, plan.ids(), verdicts)?;
    push_margin(&mut text, plan.margin())?;
    push_others(&mut text, plan.others())?;
    push_all_refused(&mut text, plan.refusals())?;
    Ok(text)
}

/// The text where no rate passes: that, and a line for each refused rate.
pub fn refused_text(alloc: Global, refusals: &[Refusal]) -> Result<Vec<u8>, AllocError>
    requires { All (λ r. HasIdentifier r.cause) refusals.now }
    ensures { IfOk result (λ text. text.items ≡ codes "no rate passes\n" ++ flat_map refused_line refusals.now) }
{
    let mut text = Vec::new(alloc);
    text.extend_from_slice(b"no rate passes\n")?;
    push_all_refused(&mut text, refusals)?;
    Ok(text)
}
