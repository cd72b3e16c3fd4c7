//! Boots of planned networks by drawn turns.

use crate::engine::{by, eds_files};
use cop_engine::{Fault, boot_bytes};
use cop_plan::Choice;
use std::alloc::Global;
use std::test::Fail;

/// The sample device.
const UNIT: &[u8] =
    b"[DeviceInfo]\nBaudRate_250=1\nBaudRate_500=1\nBaudRate_1000=1\n[OptionalObjects]\nSupportedObjects=4\n1=0x1017\n2=0x1800\n3=0x1A00\n4=0x2000\n[1017]\nDataType=0x0006\nAccessType=rw\nDefaultValue=0\n[1800]\nObjectType=0x9\nSubNumber=3\n[1800sub0]\nDataType=0x0005\nAccessType=ro\nDefaultValue=2\n[1800sub1]\nDataType=0x0007\nAccessType=rw\nDefaultValue=$NODEID+0x40000180\n[1800sub2]\nDataType=0x0005\nAccessType=rw\nDefaultValue=255\n[1A00]\nObjectType=0x9\nSubNumber=3\n[1A00sub0]\nDataType=0x0005\nAccessType=ro\nDefaultValue=2\n[1A00sub1]\nDataType=0x0007\nAccessType=ro\nDefaultValue=0x20000120\n[1A00sub2]\nDataType=0x0007\nAccessType=ro\nDefaultValue=0x20000220\n[2000]\nObjectType=0x8\nSubNumber=3\n[2000sub0]\nDataType=0x0005\nAccessType=ro\nDefaultValue=2\n[2000sub1]\nDataType=0x0007\nAccessType=ro\nPDOMapping=1\n[2000sub2]\nDataType=0x0007\nAccessType=ro\nPDOMapping=1\n";

/// The text of a boot with the sample device.
fn booted(alloc: Global, seed: u64, nodes: &str, pdos: &str) -> Result<Vec<u8>, Fault> {
    let eds = eds_files(alloc, UNIT)?;
    boot_bytes(
        alloc,
        seed,
        nodes.as_bytes(),
        pdos.as_bytes(),
        &eds,
        &by(Choice::Order),
    )
}

/// The same, of the rows of the tables.
fn booted_of_rows(alloc: Global, seed: u64, nodes: &str, pdos: &str) -> Result<Vec<u8>, Fault> {
    let nodes = format!(in alloc; "{NODES}{nodes}")?;
    let pdos = format!(in alloc; "{PDOS}{pdos}")?;
    booted(alloc, seed, nodes.as_str(), pdos.as_str())
}

const SEEDS: &[u64] = &[0, 1, u64::MAX];

const NODES: &str = "row,node,name,eds,period,jitter\n";

const PDOS: &str = "node,tpdo,period,jitter,deadline,consumers\n";

/// The rows of the nodes and of the PDOs, and what is said of their boot, whatever the seed.
const NETWORKS: &[(&str, &str, &[u8])] = &[
    // A PDO that nobody uses is switched off.
    (
        "device,127,Valve,unit.eds,0,0\n",
        "",
        b"node 127 ready\nstarted\n",
    ),
    (
        "device,5,Valve,unit.eds,0,0\nemcy,5,,,100000,0\nheartbeat,5,,,100000,0\n",
        "5,1,10000,0,670,\n",
        b"node 5 ready\nstarted\n",
    ),
    (
        "device,6,Valve,unit.eds,0,0\ndevice,5,Valve,unit.eds,0,0\n",
        "5,1,10000,0,10000,\n6,1,10000,0,10000,\n",
        b"node 5 ready\nnode 6 ready\nstarted\n",
    ),
    (
        "device,5,Valve,unit.eds,0,0\n",
        "5,1,10000,0,100,\n",
        b"no rate passes\n",
    ),
];

#[test]
fn boots(rt: HostRuntime) -> Result<(), Fail> {
    for case in NETWORKS {
        let (nodes, pdos, wanted) = *case;
        for seed in SEEDS {
            let text = booted_of_rows(rt.alloc(), *seed, nodes, pdos)?;
            assert!(rt; text.as_slice() == wanted, "seed {seed}");
        }
    }
    Ok(())
}
