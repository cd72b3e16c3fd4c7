//! Files that are cut off at each byte: each is read or refused, and nothing else comes.

use crate::engine::ranges::{LATE_RESPONSE, RESPONSE_REFUSED, TWO_PDOS};
use crate::engine::{
    ONE_PDO, UNIT, VALVE, VALVE_REFUSED, VALVE_TRACE, by, eds_files, plan_of, refused,
};
use cop_engine::{check_bytes, judge_bytes};
use cop_net::all_rates;
use cop_plan::Choice;
use std::test::Fail;

#[test]
fn each_cut_table_of_nodes(rt: HostRuntime) -> Result<(), Fail> {
    let eds = eds_files(rt.alloc(), UNIT)?;
    for length in 0..VALVE.len() {
        let planned = plan_of(rt.alloc(), &VALVE[..length], ONE_PDO, &eds);
        let _ = refused(planned)?;
    }
    Ok(())
}

#[test]
fn each_cut_table_of_pdos(rt: HostRuntime) -> Result<(), Fail> {
    let eds = eds_files(rt.alloc(), UNIT)?;
    for length in 0..ONE_PDO.len() {
        let planned = plan_of(rt.alloc(), VALVE, &ONE_PDO[..length], &eds);
        let _ = refused(planned)?;
    }
    Ok(())
}

#[test]
fn each_cut_eds_text(rt: HostRuntime) -> Result<(), Fail> {
    for length in 0..UNIT.len() {
        let eds = eds_files(rt.alloc(), &UNIT[..length])?;
        let planned = plan_of(rt.alloc(), VALVE, ONE_PDO, &eds);
        let _ = refused(planned)?;
    }
    Ok(())
}

/// Tables, and the refusal file of their plan: one of each version.
const REFUSAL_FILES: &[(&[u8], &[u8], &[u8])] = &[
    (VALVE, ONE_PDO, VALVE_REFUSED),
    (LATE_RESPONSE, TWO_PDOS, RESPONSE_REFUSED),
];

#[test]
fn each_cut_refusal_file(rt: HostRuntime) -> Result<(), Fail> {
    let eds = eds_files(rt.alloc(), UNIT)?;
    for case in REFUSAL_FILES {
        let (nodes, pdos, file) = *case;
        for length in 0..file.len() {
            let cut = &file[..length];
            let _ = refused(check_bytes(rt.alloc(), &all_rates(), nodes, pdos, &eds, cut))?;
        }
    }
    Ok(())
}

#[test]
fn each_cut_trace(rt: HostRuntime) -> Result<(), Fail> {
    let eds = eds_files(rt.alloc(), UNIT)?;
    for length in 0..VALVE_TRACE.len() {
        let cut = &VALVE_TRACE[..length];
        let _ = refused(judge_bytes(rt.alloc(), VALVE, ONE_PDO, &eds, &by(Choice::Order), cut))?;
    }
    Ok(())
}
