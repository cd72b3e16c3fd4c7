//! Networks with a table of settings: which are refused, and what the devices get.

use crate::networks::{Refused, is_told, nodes_of, pdos_of, told};
use cop_dcf::{Setting, Width, settings};
use cop_net::{NodeTable, PlanFault, Table, all_rates, network, read_settings};
use cop_plan::{Choice, Outcome, plan};
use std::alloc::{AllocError, Global};
use std::test::Fail;

/// A device with a TPDO that exists, and parameters: one with limits, one that is mapped, and one that nobody can write.
const AXIS: &[u8] = b"[DeviceInfo]
BaudRate_500=1
[OptionalObjects]
SupportedObjects=3
1=0x1800
2=0x1A00
3=0x6060
[ManufacturerObjects]
SupportedObjects=3
1=0x2000
2=0x2001
3=0x2002
[1800]
ObjectType=9
[1800sub1]
DataType=0x0007
AccessType=rw
DefaultValue=$NODEID+0x40000180
[1800sub2]
DataType=0x0005
AccessType=rw
DefaultValue=255
[1A00]
ObjectType=9
[1A00sub0]
DataType=0x0005
AccessType=ro
DefaultValue=1
[1A00sub1]
DataType=0x0007
AccessType=ro
DefaultValue=0x20000010
[2000]
DataType=0x0003
AccessType=rw
PDOMapping=1
[2001]
DataType=0x0007
AccessType=rw
LowLimit=100
HighLimit=1000
[2002]
DataType=0x0006
AccessType=ro
DefaultValue=7
[6060]
DataType=0x0002
AccessType=rw
";

const NODES: &str = "device,7,Second,axis.eds,0,0\ndevice,5,First,axis.eds,0,0\n";

/// The table of nodes with what the rows of a table of settings ask.
fn with_settings(alloc: Global, rows: &str) -> Result<NodeTable, Fail> {
    let nodes = nodes_of(alloc, NODES)?;
    let text = format!(in alloc; "row,node,object,value\n{rows}")?;
    Ok(read_settings(alloc, nodes, text.as_bytes())?)
}

fn files_of(alloc: Global) -> Result<[(String, Vec<u8>); 1], AllocError> {
    Ok([(
        String::from_str(alloc, "axis.eds")?,
        Vec::from_slice(alloc, AXIS)?,
    )])
}

/// How a network with these rows of settings is refused.
fn refused_of(alloc: Global, rows: &str) -> Result<Option<Refused>, Fail> {
    let nodes = with_settings(alloc, rows)?;
    let pdos = pdos_of(alloc, "5,1,10000,0,5000,\n")?;
    let files = files_of(alloc)?;
    told(network(alloc, &all_rates(), &nodes, &pdos, &files))
}

/// Rows of settings, and how the network is refused with them.
const REFUSED: &[(&str, Option<Refused>)] = &[
    ("", None),
    (
        "set,5,2001,100\nset,7,2001,1000\nset,5,6060,-3\nset,5,2000,1\n",
        None,
    ),
    ("set,5,2002,7\n", None),
    (
        "set,5,2001,100\nset,5,2002,8\n",
        Some((54, Table::Settings, 2)),
    ),
    ("set,5,2001,99\n", Some((54, Table::Settings, 1))),
    ("set,5,2001,$NODEID+0x60\n", None),
    ("set,5,2001,$NODEID+0x5E\n", Some((54, Table::Settings, 1))),
    ("set,5,6060,128\n", Some((55, Table::Settings, 1))),
    ("set,5,2001.1,128\n", Some((55, Table::Settings, 1))),
    ("set,5,2003,1\n", Some((55, Table::Settings, 1))),
    // The device whose record is the first is told first.
    (
        "set,5,2003,1\nset,7,2001,99\n",
        Some((54, Table::Settings, 2)),
    ),
];

#[test]
fn settings_that_are_refused(rt: HostRuntime) -> Result<(), Fail> {
    for case in REFUSED {
        let (rows, wanted) = *case;
        let found = refused_of(rt.alloc(), rows)?;
        assert!(rt; is_told(found, wanted), "{rows}");
    }
    Ok(())
}

/// How a table of settings itself is refused.
fn refused_table(alloc: Global, text: &[u8]) -> Result<Option<Refused>, Fail> {
    let nodes = nodes_of(alloc, NODES)?;
    let table: Result<NodeTable, PlanFault> = read_settings(alloc, nodes, text);
    told(table)
}

/// Texts, and how they are refused as tables of settings.
const TABLES: &[(&[u8], Refused)] = &[
    (b"row,node\n", (40, Table::Settings, 0)),
    (
        b"row,node,object,value\nset,6,2001,1\n",
        (42, Table::Settings, 1),
    ),
    (
        b"row,node,object,value\nset,5,1017,1\n",
        (57, Table::Settings, 1),
    ),
];

#[test]
fn tables_of_settings_that_are_refused(rt: HostRuntime) -> Result<(), Fail> {
    for case in TABLES {
        let (text, wanted) = *case;
        assert!(rt; is_told(refused_table(rt.alloc(), text)?, Some(wanted)));
    }
    Ok(())
}

/// What the plan of the network sets in a node, with these rows of settings.
fn settings_of(alloc: Global, rows: &str, node: u8) -> Result<Vec<Setting>, Fail> {
    let nodes = with_settings(alloc, rows)?;
    let pdos = pdos_of(alloc, "5,1,10000,0,5000,\n")?;
    let files = files_of(alloc)?;
    let network = network(alloc, &all_rates(), &nodes, &pdos, &files)?;
    match plan(alloc, &network, Choice::Order)? {
        Outcome::Planned(plan) => Ok(settings(alloc, &plan, &network, node)?),
        Outcome::Refused(_) => Err(Fail::from("no rate passes")),
    }
}

fn setting(index: u16, sub: u8, value: u32, width: Width) -> Setting {
    Setting {
        index,
        sub,
        value,
        width,
    }
}

/// What is asked stands between the COB-IDs that are switched off and those that are switched on, in the order of the table; what
/// nobody can write and is so is not sent.
#[test]
fn what_the_devices_get(rt: HostRuntime) -> Result<(), Fail> {
    let rows =
        "set,7,2001,1000\nset,5,6060,-3\nset,5,2002,7\nset,5,2000,0xFFFE\nset,5,2001,$NODEID+0x80\n";
    let first = [
        setting(0x1800, 1, 0xC000_0185, Width::Four),
        setting(0x6060, 0, 0xFD, Width::One),
        setting(0x2000, 0, 0xFFFE, Width::Two),
        setting(0x2001, 0, 0x85, Width::Four),
        setting(0x1800, 1, 0x4000_0181, Width::Four),
    ];
    let found = settings_of(rt.alloc(), rows, 5)?;
    assert!(rt; found.as_slice() == first.as_slice());
    let found = settings_of(rt.alloc(), rows, 7)?;
    assert!(rt; found.len() == 2);
    assert!(rt; found.last() == Some(&setting(0x2001, 0, 1_000, Width::Four)));
    Ok(())
}
