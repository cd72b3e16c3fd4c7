//! Boots of a planned network whose device is asked who it is.

use crate::boots::{PLAIN, Tables, ended};
use crate::scripts::{Script, Turn};
use cop_commission::{Approach, Commissioned};
use std::alloc::{AllocError, Global};
use std::test::Fail;

/// A device of a type, a vendor and a product.
const UNIT: &[u8] =
    b"[DeviceInfo]\nBaudRate_250=1\nBaudRate_500=1\nBaudRate_1000=1\n[OptionalObjects]\nSupportedObjects=6\n1=0x1000\n2=0x1017\n3=0x1018\n4=0x1800\n5=0x1A00\n6=0x2000\n[1000]\nDataType=0x0007\nAccessType=ro\nDefaultValue=0x000F0191\n[1017]\nDataType=0x0006\nAccessType=rw\nDefaultValue=0\n[1018]\nObjectType=0x9\nSubNumber=4\n[1018sub0]\nDataType=0x0005\nAccessType=ro\nDefaultValue=3\n[1018sub1]\nDataType=0x0007\nAccessType=ro\nDefaultValue=0x2FD\n[1018sub2]\nDataType=0x0007\nAccessType=ro\nDefaultValue=0x191\n[1018sub3]\nDataType=0x0007\nAccessType=ro\nDefaultValue=0\n[1800]\nObjectType=0x9\nSubNumber=3\n[1800sub0]\nDataType=0x0005\nAccessType=ro\nDefaultValue=2\n[1800sub1]\nDataType=0x0007\nAccessType=rw\nDefaultValue=$NODEID+0x40000180\n[1800sub2]\nDataType=0x0005\nAccessType=rw\nDefaultValue=255\n[1A00]\nObjectType=0x9\nSubNumber=3\n[1A00sub0]\nDataType=0x0005\nAccessType=ro\nDefaultValue=2\n[1A00sub1]\nDataType=0x0007\nAccessType=ro\nDefaultValue=0x20000120\n[1A00sub2]\nDataType=0x0007\nAccessType=ro\nDefaultValue=0x20000220\n[2000]\nObjectType=0x8\nSubNumber=3\n[2000sub0]\nDataType=0x0005\nAccessType=ro\nDefaultValue=2\n[2000sub1]\nDataType=0x0007\nAccessType=ro\nPDOMapping=1\n[2000sub2]\nDataType=0x0007\nAccessType=ro\nPDOMapping=1\n";

const NODES: &[u8] =
    b"row,node,name,eds,period,jitter\ndevice,5,Valve,unit.eds,0,0\nemcy,5,,,100000,0\nheartbeat,5,,,100000,0\n";

const PDOS: &[u8] = b"node,tpdo,period,jitter,deadline,consumers\n5,1,10000,0,670,\n";

/// Its answers, the second in parts, its boot, and what it has.
const AS_PLANNED: &[Turn] = &[
    (0, b"\r\r\x07\r\r"),
    (10, b"z\rt58584300100091010F00\r"),
    (400, b"t5858431810"),
    (800, b"01FD020000\r"),
    (1_200, b"t58584318100291010000\r"),
    (1_400, b"t705100\r"),
    (1_500, b"t58584300180185010040\r"),
    (1_600, b"t705100\r"),
    (2_000, b"t58586000180100000000\r"),
    (2_400, b"t58586000180100000000\r"),
    (2_800, b"t58586017100000000000\r"),
    (3_200, b"t58584300180181010040\r"),
    (3_600, b"t58584B17100064000000\r"),
    (4_000, b""),
    (4_400, b""),
];

/// Another product.
const OTHER: &[Turn] = &[
    (0, b""),
    (10, b"t58584300100091010F00\r"),
    (400, b"t585843181001FD020000\r"),
    (800, b"t58584318100290010000\r"),
    (1_200, b""),
    (1_600, b""),
];

/// No answer in 1 s, and no boot-up in 5 s, and in 5 s more.
const SILENT: &[Turn] = &[
    (0, b""),
    (10, b""),
    (4_000_010, b""),
    (24_000_010, b""),
    (44_000_010, b""),
    (44_000_400, b""),
    (44_000_800, b""),
];

/// It does not tell its type, and has no identity.
const ABORTED: &[Turn] = &[
    (0, b""),
    (10, b"t58588000100000000206\r"),
    (400, b"t58588018100100000206\r"),
    (800, b"t58588018100200000206\r"),
    (1_200, b""),
    (20_001_200, b""),
    (40_001_200, b""),
    (40_001_600, b""),
    (40_002_000, b""),
];

/// What is not asked.
const BOOTED: &[Turn] = &[
    (0, b""),
    (1_400, b"t705100\r"),
    (1_500, b"t58584300180185010040\r"),
    (1_600, b"t705100\r"),
    (2_000, b"t58586000180100000000\r"),
    (2_400, b"t58586000180100000000\r"),
    (2_800, b"t58586017100000000000\r"),
    (3_200, b"t58584300180181010040\r"),
    (3_600, b"t58584B17100064000000\r"),
    (4_000, b""),
    (4_400, b""),
];

const ASKED_AND_BOOTED: &[u8] =
    b"\r\rC\rS6\rO\rt60584000100000000000\rt60584018100100000000\rt60584018100200000000\rt00028200\rt60584000180100000000\rt00028200\rt605823001801850100C0\rt60582300180181010040\rt60582B17100064000000\rt60584000180200000000\rt605840001A0000000000\rt605840001A0100000000\rt605840001A0200000000\rt60584000180100000000\rt60584017100000000000\rt00020100\rC\r";

const ASKED: &[u8] =
    b"\r\rC\rS6\rO\rt60584000100000000000\rt60584018100100000000\rt60584018100200000000\rC\r";

const ASKED_ONCE: &[u8] = b"\r\rC\rS6\rO\rt60584000100000000000\rt00028200\rt00028200\rC\r";

const ASKED_AND_RESET: &[u8] =
    b"\r\rC\rS6\rO\rt60584000100000000000\rt60584018100100000000\rt60584018100200000000\rt00028200\rt00028200\rC\r";

const NOT_ASKED: &[u8] =
    b"\r\rC\rS6\rO\rt00028200\rt60584000180100000000\rt00028200\rt605823001801850100C0\rt60582300180181010040\rt60582B17100064000000\rt60584000180200000000\rt605840001A0000000000\rt605840001A0100000000\rt605840001A0200000000\rt60584000180100000000\rt60584017100000000000\rt00020100\rC\r";

/// Whether the device is asked, what comes, what is said, and what is written.
const CASES: &[(bool, &[Turn], &[u8], &[u8])] = &[
    (
        true,
        AS_PLANNED,
        b"node 5 ready\nstarted\n",
        ASKED_AND_BOOTED,
    ),
    (
        true,
        OTHER,
        b"node 5 other 1018 02 00000190\nnot started\n",
        ASKED,
    ),
    (true, SILENT, b"node 5 silent\nnot started\n", ASKED_ONCE),
    (
        true,
        ABORTED,
        b"node 5 silent\nnot started\n",
        ASKED_AND_RESET,
    ),
    (false, BOOTED, b"node 5 ready\nstarted\n", NOT_ASKED),
];

/// The text of a boot.
fn text_of(alloc: Global, ended: Commissioned) -> Result<Vec<u8>, AllocError> {
    match ended {
        Commissioned::Ended { answer, .. } => answer.text(alloc),
        Commissioned::Others {
            answer,
            exchanges: _exchanges,
        } => answer.text(alloc),
        Commissioned::Unrestored { answer } => answer.text(alloc),
        Commissioned::Running { .. } => Vec::from_slice(alloc, b"running"),
        Commissioned::Garbled { .. } => Vec::from_slice(alloc, b"garbled"),
        Commissioned::Erroneous { .. } => Vec::from_slice(alloc, b"errors"),
        Commissioned::Unopened { .. } => Vec::from_slice(alloc, b"unopened"),
        Commissioned::Absent => Vec::from_slice(alloc, b"absent"),
        Commissioned::NonePasses => Vec::from_slice(alloc, b"none passes"),
        Commissioned::Failed { answer } => answer.text(alloc),
    }
}

/// What is said of a boot of a bus that is taken over.
fn said(alloc: Global, identify: bool, port: &mut Script) -> Result<Vec<u8>, Fail> {
    let tables = Tables {
        nodes: NODES,
        pdos: PDOS,
        eds: UNIT,
    };
    let approach = Approach {
        take_over: true,
        identify,
        ..PLAIN
    };
    Ok(text_of(alloc, ended(alloc, tables, approach, port)?)?)
}

#[test]
fn asks_who_they_are(rt: HostRuntime) -> Result<(), Fail> {
    for (identify, turns, wanted, written) in CASES {
        let mut port = Script::new(rt.alloc(), *turns);
        let text = said(rt.alloc(), *identify, &mut port)?;
        assert!(rt; text.as_slice() == *wanted);
        assert!(rt; port.written.as_slice() == *written);
    }
    Ok(())
}
