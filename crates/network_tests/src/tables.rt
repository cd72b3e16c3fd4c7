//! Tables that are refused.

use crate::networks::{Refused, is_told, told};
use cop_net::{Table, read_nodes, read_pdos};
use std::alloc::{AllocError, Global};
use std::fmt::Write;
use std::test::Fail;

/// Rows of nodes, and the refusal.
const NODES_REFUSED: &[(&str, Refused)] = &[
    ("", (42, Table::Nodes, 0)),
    ("device,5,First\n", (40, Table::Nodes, 1)),
    ("device,5,First,unit.eds,1,0\n", (41, Table::Nodes, 1)),
    ("emcy,5,,,100000,0\n", (42, Table::Nodes, 1)),
];

#[test]
fn refused_tables_of_nodes(rt: HostRuntime) -> Result<(), Fail> {
    for case in NODES_REFUSED {
        let (rows, refused) = *case;
        let text = format!(in rt.alloc(); "row,node,name,eds,period,jitter\n{rows}")?;
        let found = told(read_nodes(rt.alloc(), text.as_bytes()))?;
        assert!(rt; is_told(found, Some(refused)));
    }
    Ok(())
}

/// Texts of the table of PDOs, and the refusal.
const PDOS_REFUSED: &[(&[u8], Refused)] = &[
    (
        b"node,tpdo,period,jitter,deadline,consumers\n5,1,10000,0,670,\n5,1,10000,0,670,\n",
        (44, Table::Pdos, 2),
    ),
    (
        b"node,tpdo,period,jitter,deadline,consumers\n5,1,10000,0,,\n",
        (41, Table::Pdos, 1),
    ),
    (b"node\n", (40, Table::Pdos, 0)),
];

#[test]
fn refused_tables_of_pdos(rt: HostRuntime) -> Result<(), Fail> {
    for case in PDOS_REFUSED {
        let (text, refused) = *case;
        assert!(rt; is_told(told(read_pdos(rt.alloc(), text))?, Some(refused)));
    }
    Ok(())
}

/// A table of 512 PDOs.
fn many_pdos(alloc: Global) -> Result<String, AllocError> {
    let mut text = String::from_str(alloc, "node,tpdo,period,jitter,deadline,consumers\n")?;
    for tpdo in 1..=512 {
        write!(text, "5,{tpdo},10000,0,670,\n")?;
    }
    Ok(text)
}

#[test]
fn one_pdo_too_many(rt: HostRuntime) -> Result<(), Fail> {
    let mut text = many_pdos(rt.alloc())?;
    assert!(rt; told(read_pdos(rt.alloc(), text.as_bytes()))?.is_none());
    text.push_str("6,1,10000,0,670,\n")?;
    let refused = told(read_pdos(rt.alloc(), text.as_bytes()))?;
    assert!(rt; is_told(refused, Some((49, Table::Pdos, 513))));
    Ok(())
}
