//! Tables of settings: what they ask of the devices, and how they are refused.

use cop_rows::{NodeTable, RowFault, SettingRow, read_nodes, read_settings};
use std::alloc::{AllocError, Global};
use std::test::Fail;

const NODES: &[u8] =
    b"row,node,name,eds,period,jitter\ndevice,5,Axis,axis.eds,0,0\ndevice,7,Pump,pump.eds,0,0\nheartbeat,7,,,100000,0\n";

/// The table of nodes with what a text asks.
fn with_settings(alloc: Global, text: &[u8]) -> Result<NodeTable, RowFault> {
    let nodes = read_nodes(alloc, NODES)?;
    read_settings(alloc, nodes, text)
}

fn push_row(text: &mut String, node: u8, row: &SettingRow) -> Result<(), AllocError> {
    let SettingRow {
        place,
        index,
        sub,
        amount,
    } = *row;
    write!(text, "{place}: {node} {index:X}.{sub:X} {amount:?};")?;
    Ok(())
}

/// What is asked of the devices, as a line.
fn asked(alloc: Global, table: &NodeTable) -> Result<String, AllocError> {
    let mut text = String::new(alloc);
    for device in table.devices() {
        for row in device.settings.as_slice() {
            push_row(&mut text, device.node, row)?;
        }
    }
    Ok(text)
}

/// What a text asks, or the number of the rule that it breaks, and its record.
fn answer(alloc: Global, text: &[u8]) -> Result<String, Fail> {
    match with_settings(alloc, text) {
        Ok(table) => Ok(asked(alloc, &table)?),
        Err(RowFault::Refused(refusal)) => {
            let (number, place) = (refusal.rule.number(), refusal.place);
            Ok(format!(in alloc; "{number} at {place}")?)
        }
        Err(fault) => Err(fault.into()),
    }
}

/// Rows under the header, and what they ask, or how they are refused.
const ROWS: &[(&str, &str)] = &[
    ("", ""),
    ("set,5,6065,2000\n", "1: 5 6065.0 Decimal(2000);"),
    // An index has four digits, a sub one or two, in both cases.
    (
        "set,7,2100.1,-3\nset,5,60fF.0A,0xFFFB\n",
        "2: 5 60FF.A Hexadecimal(65531);1: 7 2100.1 Negative(3);",
    ),
    (
        "set,5,1029.1,$NODEID+0x80\nset,5,2000,0x0\n",
        "1: 5 1029.1 PlusNode(128);2: 5 2000.0 Hexadecimal(0);",
    ),
    (
        "set,5,2100.0,1\nset,7,2100,1\n",
        "1: 5 2100.0 Decimal(1);2: 7 2100.0 Decimal(1);",
    ),
    ("set,5,6065\n", "40 at 1"),
    ("set,5,6065,2000,\n", "40 at 1"),
    ("put,5,6065,2000\n", "41 at 1"),
    ("Set,5,6065,2000\n", "41 at 1"),
    ("set,0,6065,2000\n", "41 at 1"),
    ("set,128,6065,2000\n", "41 at 1"),
    ("set,5,6065h,2000\n", "41 at 1"),
    ("set,5,0x6065,2000\n", "41 at 1"),
    ("set,5,665,2000\n", "41 at 1"),
    ("set,5,06065,2000\n", "41 at 1"),
    ("set,5,6065.,2000\n", "41 at 1"),
    ("set,5,6065.001,2000\n", "41 at 1"),
    ("set,5,6065.1.1,2000\n", "41 at 1"),
    ("set,5,6065,\n", "41 at 1"),
    ("set,5,6065,two\n", "41 at 1"),
    ("set,5,6065,1\nset,5,6065.00,2\n", "42 at 2"),
    ("set,6,6065,2000\n", "42 at 1"),
    ("set,5,1000,0\n", "57 at 1"),
    ("set,5,1017,100\n", "57 at 1"),
    ("set,5,1800.3,100\n", "57 at 1"),
    ("set,5,1FFF,0\n", "57 at 1"),
    ("set,5,0FFF,0\n", "57 at 1"),
    // The first record counts, and of its rules the least.
    ("set,5,1000,0\nset,6,6065,1\n", "57 at 1"),
    ("set,6,1000,0\n", "42 at 1"),
];

#[test]
fn settings_are_read(rt: HostRuntime) -> Result<(), Fail> {
    let alloc = rt.alloc();
    for case in ROWS {
        let (rows, wanted) = *case;
        let text = format!(in alloc; "row,node,object,value\n{rows}")?;
        let found = answer(alloc, text.as_bytes())?;
        assert!(rt; found.as_str() == wanted, "{rows}: {found}");
    }
    Ok(())
}

/// Texts without the header.
const WITHOUT_HEADER: &[&[u8]] = &[b"", b"set,5,6065,2000\n", b"row,node,value,object\n"];

#[test]
fn settings_without_a_header(rt: HostRuntime) -> Result<(), Fail> {
    for text in WITHOUT_HEADER {
        let found = answer(rt.alloc(), text)?;
        assert!(rt; found.as_str() == "40 at 0");
    }
    Ok(())
}
