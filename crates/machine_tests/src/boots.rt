//! Boots of a planned network over a port.

use crate::scripts::{Script, Turn};
use cop_commission::{Approach, Command, Commissioned, Reach, Runner, Watch, commission};
use cop_frame::Rate;
use cop_net::all_rates;
use cop_plan::{Asked, Choice};
use std::alloc::{AllocError, Global};
use std::test::Fail;

/// The sample device.
pub const UNIT: &[u8] =
    b"[DeviceInfo]\nBaudRate_250=1\nBaudRate_500=1\nBaudRate_1000=1\n[OptionalObjects]\nSupportedObjects=4\n1=0x1017\n2=0x1800\n3=0x1A00\n4=0x2000\n[1017]\nDataType=0x0006\nAccessType=rw\nDefaultValue=0\n[1800]\nObjectType=0x9\nSubNumber=3\n[1800sub0]\nDataType=0x0005\nAccessType=ro\nDefaultValue=2\n[1800sub1]\nDataType=0x0007\nAccessType=rw\nDefaultValue=$NODEID+0x40000180\n[1800sub2]\nDataType=0x0005\nAccessType=rw\nDefaultValue=255\n[1A00]\nObjectType=0x9\nSubNumber=3\n[1A00sub0]\nDataType=0x0005\nAccessType=ro\nDefaultValue=2\n[1A00sub1]\nDataType=0x0007\nAccessType=ro\nDefaultValue=0x20000120\n[1A00sub2]\nDataType=0x0007\nAccessType=ro\nDefaultValue=0x20000220\n[2000]\nObjectType=0x8\nSubNumber=3\n[2000sub0]\nDataType=0x0005\nAccessType=ro\nDefaultValue=2\n[2000sub1]\nDataType=0x0007\nAccessType=ro\nPDOMapping=1\n[2000sub2]\nDataType=0x0007\nAccessType=ro\nPDOMapping=1\n";

pub const NODES: &[u8] =
    b"row,node,name,eds,period,jitter\ndevice,5,Valve,unit.eds,0,0\nemcy,5,,,100000,0\nheartbeat,5,,,100000,0\n";

pub const PDOS: &[u8] = b"node,tpdo,period,jitter,deadline,consumers\n5,1,10000,0,670,\n";

/// A PDO that no rate has in time.
const TOO_FAST: &[u8] = b"node,tpdo,period,jitter,deadline,consumers\n5,1,10000,0,100,\n";

/// The adapter's answers, 2 s of other traffic; the node's boot-up and its confirmations, in lines that come in parts, among garbage;
/// what it has, and the reads at the end.
const TAKES_ALL: &[Turn] = &[
    (0, b"\r\r\x07\r\r"),
    (10, b"t7051"),
    (20, b"7F\r"),
    (8_000_010, b"t705100\r"),
    (8_000_100, b"t58584300180185010040\r"),
    (8_000_200, b"z\rt70510"),
    (8_000_400, b"0\rgarbage\rt1801FF\r"),
    (8_000_800, b"t5858600018010000000012AB\r"),
    (8_001_200, b"\x07t58586000180100000000\r"),
    (8_001_600, b"t58586017100000000000\r"),
    (8_002_000, b"t585843001801"),
    (8_002_400, b"81010040\r"),
    (8_002_800, b"t58584B17100064000000\r"),
    (8_003_200, b""),
    (8_003_600, b""),
];

/// Nothing is switched on, and the adapter is closed.
const RUNS: &[Turn] = &[(0, b""), (10, b"t1810\r"), (400, b""), (800, b"")];

/// Two lines, none of which is a frame.
const GARBLED: &[Turn] = &[
    (0, b""),
    (10, b"#1\r#2\r"),
    (8_000_010, b""),
    (8_000_400, b""),
];

/// The adapter is closed.
const UNHEARD: &[Turn] = &[(0, b""), (10, b""), (8_000_010, b""), (8_000_400, b"")];

/// No boot-up comes in 5 s, and in 5 s more.
const SILENT: &[Turn] = &[
    (0, b""),
    (10, b""),
    (8_000_010, b""),
    (28_000_010, b""),
    (48_000_010, b""),
    (48_000_400, b""),
    (48_000_800, b""),
];

const FAILS: &[Turn] = &[(0, b""), (10, b"t70517F\r"), (8_000_010, b"t705100\r")];

const FAILS_LATER: &[Turn] = &[
    (0, b""),
    (10, b"t70517F\r"),
    (8_000_010, b"t705100\r"),
    (8_000_100, b"t58584300180185010040\r"),
    (8_000_200, b"t705100\r"),
];

/// It has another COB-ID than its EDS file says: it has stored it.
const HAS_ANOTHER: &[Turn] = &[
    (0, b""),
    (10, b"t70517F\r"),
    (8_000_010, b"t7057F\rt705"),
    (8_000_050, b"100\r"),
    (8_000_100, b"t58584300180191020040\rt58584300180193010040\r"),
    (8_000_200, b"t705100\r"),
    (8_000_400, b"t58586000180100000000\r"),
    (8_000_800, b"t58586000180100000000\r"),
    (8_001_200, b"t58586017100000000000\r"),
    (8_001_600, b"t58584300180181010040\r"),
    (8_002_000, b"t58584B17100064000000\r"),
    (8_002_400, b""),
    (8_002_800, b""),
];

/// It does not tell which it has.
const TELLS_NOT: &[Turn] = &[
    (0, b""),
    (10, b"t70517F\r"),
    (8_000_010, b"t705100\r"),
    (8_000_100, b"t58588000180122000008\r"),
    (8_000_200, b"t705100\r"),
    (8_000_400, b"t58588000180122000008\r"),
    (8_000_800, b""),
    (8_001_200, b""),
];

/// The adapter is opened at 500 kbit/s to listen only, and then to send; the reset, and the question which COB-ID the node has; the reset, the node's settings, the questions
/// whether it has them, and the start; and it is closed.
const ALL_WRITTEN: &[u8] =
    b"\r\rC\rS6\rL\r\r\rC\rS6\rO\rt00028200\rt60584000180100000000\rt00028200\rt605823001801850100C0\rt60582300180181010040\rt60582B17100064000000\rt60584000180200000000\rt605840001A0000000000\rt605840001A0100000000\rt605840001A0200000000\rt60584000180100000000\rt60584017100000000000\rt00020100\rC\r";

const OPENED_AND_CLOSED: &[u8] = b"\r\rC\rS6\rL\rC\r";

const RESETS_ALONE: &[u8] = b"\r\rC\rS6\rL\rF\r\r\rC\rS6\rO\rt00028200\rt00028200\rC\r";

const RESET: &[u8] = b"\r\rC\rS6\rL\r\r\rC\rS6\rO\rt00028200\r";

const BEGUN: &[u8] =
    b"\r\rC\rS6\rL\r\r\rC\rS6\rO\rt00028200\rt60584000180100000000\rt00028200\rt605823001801850100C0\r";

/// The COB-ID that it told is switched off: bit 31 is set, and the others are as they were.
const SWITCHED_OFF_AS_TOLD: &[u8] =
    b"\r\rC\rS6\rL\r\r\rC\rS6\rO\rt00028200\rt60584000180100000000\rt00028200\rt605823001801910200C0\rt60582300180181010040\rt60582B17100064000000\rt60584000180200000000\rt605840001A0000000000\rt605840001A0100000000\rt605840001A0200000000\rt60584000180100000000\rt60584017100000000000\rt00020100\rC\r";

const GIVEN_UP: &[u8] =
    b"\r\rC\rS6\rL\r\r\rC\rS6\rO\rt00028200\rt60584000180100000000\rt00028200\rt605823001801850100C0\rC\r";

/// What comes, what is said and whether the nodes were started, and what is written.
const BOOTS: &[(&[Turn], &[u8], bool, &[u8])] = &[
    (TAKES_ALL, b"node 5 ready\nstarted\n", true, ALL_WRITTEN),
    (RUNS, b"running", false, OPENED_AND_CLOSED),
    (GARBLED, b"2 lines", false, OPENED_AND_CLOSED),
    (SILENT, b"node 5 silent\nnot started\n", false, RESETS_ALONE),
    (FAILS, b"", false, RESET),
    (FAILS_LATER, b"node 5 unfinished\n", false, BEGUN),
    (
        HAS_ANOTHER,
        b"node 5 ready\nstarted\n",
        true,
        SWITCHED_OFF_AS_TOLD,
    ),
    (
        TELLS_NOT,
        b"node 5 aborted 1800 01 08000022\nnot started\n",
        false,
        GIVEN_UP,
    ),
];

/// It is listened first, and all nodes are booted and started.
pub const PLAIN: Approach = Approach {
    take_over: false,
    identify: false,
    reach: Reach {
        only: None,
        start: true,
    },
    boot_limit: 20_000_000,
    restore: false,
    store: false,
    watch: Watch::Never,
};

/// What came of a boot, as a text, and whether the nodes were started at 500 kbit/s.
pub fn told(alloc: Global, ended: Commissioned) -> Result<(Vec<u8>, bool), AllocError> {
    match ended {
        Commissioned::Ended {
            answer,
            ready,
            started,
            rate,
            ..
        } => Ok((
            answer.text(alloc)?,
            started && ready && rate == Rate::Kbit500,
        )),
        Commissioned::Running {
            runner: Runner { node: 5, id: 0x181 },
        } => Ok((Vec::from_slice(alloc, b"running")?, false)),
        Commissioned::Running { .. } => Ok((Vec::from_slice(alloc, b"another runs")?, false)),
        Commissioned::Garbled { lines: 2 } => Ok((Vec::from_slice(alloc, b"2 lines")?, false)),
        Commissioned::Garbled { .. } => Ok((Vec::from_slice(alloc, b"other lines")?, false)),
        Commissioned::Erroneous {
            flags: 0xA4,
            rate: Rate::Kbit500,
        } => Ok((Vec::from_slice(alloc, b"errors")?, false)),
        Commissioned::Erroneous { .. } => Ok((Vec::from_slice(alloc, b"other errors")?, false)),
        Commissioned::Unopened {
            command: Command::Rate,
            rate: Rate::Kbit500,
        } => Ok((Vec::from_slice(alloc, b"refuses S")?, false)),
        Commissioned::Unopened { .. } => Ok((Vec::from_slice(alloc, b"refuses O")?, false)),
        Commissioned::Others {
            answer: _answer,
            exchanges: _exchanges,
        } => Ok((Vec::from_slice(alloc, b"others")?, false)),
        Commissioned::Unrestored { answer } => Ok((answer.text(alloc)?, false)),
        Commissioned::Absent => Ok((Vec::from_slice(alloc, b"absent")?, false)),
        Commissioned::NonePasses => Ok((Vec::from_slice(alloc, b"none passes")?, false)),
        Commissioned::Failed { answer } => Ok((answer.text(alloc)?, false)),
    }
}

/// The tables of a network, and the EDS file of its devices.
#[derive(Clone, Copy)]
pub struct Tables<'a> {
    pub nodes: &'a [u8],
    pub pdos: &'a [u8],
    pub eds: &'a [u8],
}

/// What comes of a boot of a network.
pub fn ended(
    alloc: Global,
    tables: Tables<'_>,
    approach: Approach,
    port: &mut Script,
) -> Result<Commissioned, Fail> {
    let file = (
        String::from_str(alloc, "unit.eds")?,
        Vec::from_slice(alloc, tables.eds)?,
    );
    let asked = Asked {
        rates: all_rates(),
        choice: Choice::Order,
    };
    let (nodes, pdos) = (tables.nodes, tables.pdos);
    Ok(commission(alloc, nodes, pdos, &[file], &asked, approach, port)?)
}

/// What is said of a boot of a network with some PDOs, and whether the nodes were started.
pub fn booted(alloc: Global, pdos: &[u8], port: &mut Script) -> Result<(Vec<u8>, bool), Fail> {
    let tables = Tables {
        nodes: NODES,
        pdos,
        eds: UNIT,
    };
    Ok(told(alloc, ended(alloc, tables, PLAIN, port)?)?)
}

#[test]
fn boots_over_a_port(rt: HostRuntime) -> Result<(), Fail> {
    for (turns, wanted, starts, written) in BOOTS {
        let mut port = Script::new(rt.alloc(), *turns);
        let (text, started) = booted(rt.alloc(), PDOS, &mut port)?;
        assert!(rt; text.as_slice() == *wanted);
        assert!(rt; started == *starts);
        assert!(rt; port.written.as_slice() == *written);
    }
    Ok(())
}

/// The node boots up 6 s after each reset.
const BOOTS_LATE: &[Turn] = &[
    (0, b""),
    (10, b"t70517F\r"),
    (8_000_010, b""),
    (32_000_010, b"t705100\r"),
    (32_000_100, b"t58584300180185010040\r"),
    (32_000_200, b""),
    (56_000_200, b"t705100\r"),
    (56_000_400, b"t58586000180100000000\r"),
    (56_000_800, b"t58586000180100000000\r"),
    (56_001_200, b"t58586017100000000000\r"),
    (56_001_600, b"t58584300180181010040\r"),
    (56_002_000, b"t58584B17100064000000\r"),
    (56_002_400, b""),
    (56_002_800, b""),
];

/// A boot-up is awaited for 8 s.
const PATIENT: Approach = Approach {
    boot_limit: 32_000_000,
    ..PLAIN
};

#[test]
fn awaits_a_late_boot_up(rt: HostRuntime) -> Result<(), Fail> {
    let tables = Tables {
        nodes: NODES,
        pdos: PDOS,
        eds: UNIT,
    };
    let mut port = Script::new(rt.alloc(), BOOTS_LATE);
    let (text, started) = told(rt.alloc(), ended(rt.alloc(), tables, PATIENT, &mut port)?)?;
    assert!(rt; text.as_slice() == b"node 5 ready\nstarted\n".as_slice());
    assert!(rt; started);
    assert!(rt; port.written.as_slice() == ALL_WRITTEN);
    Ok(())
}

/// What comes once the adapter is open to send, where it was closed and did not say so.
const HEARD_LATE: &[Turn] = &[
    (0, b""),
    (8_000_000, b""),
    (8_000_010, b"t1810\r"),
    (8_000_400, b""),
    (8_000_800, b""),
];

/// What the adapter refuses, and what it does not answer; what comes, what is said, and what is written.
const REFUSALS: &[(&[u8], &[u8], &[Turn], &[u8], &[u8])] = &[
    (b"S", b"", RUNS, b"refuses S", b"\r\rC\rS6\rC\r"),
    (b"L", b"", RUNS, b"running", b"\r\rC\rS6\rL\rO\rC\r"),
    (
        b"L",
        b"",
        SILENT,
        b"node 5 silent\nnot started\n",
        b"\r\rC\rS6\rL\rO\rF\rt00028200\rt00028200\rC\r",
    ),
    (b"LO", b"", RUNS, b"refuses O", b"\r\rC\rS6\rL\rO\rC\r"),
    (
        b"O",
        b"",
        UNHEARD,
        b"refuses O",
        b"\r\rC\rS6\rL\rF\r\r\rC\rS6\rO\rC\r",
    ),
    (b"", b"SLO", RUNS, b"running", b"\r\rC\rS6\rL\rC\r"),
    (
        b"",
        b"SLO",
        HEARD_LATE,
        b"running",
        b"\r\rC\rS6\rL\rF\r\r\rC\rS6\rO\rC\r",
    ),
];

#[test]
fn goes_no_further_than_the_adapter(rt: HostRuntime) -> Result<(), Fail> {
    for (refused, silent, turns, wanted, written) in REFUSALS {
        let mut port = Script::refusing(rt.alloc(), *turns, *refused, *silent);
        let (text, _) = booted(rt.alloc(), PDOS, &mut port)?;
        assert!(rt; text.as_slice() == *wanted);
        assert!(rt; port.written.as_slice() == *written);
    }
    Ok(())
}

/// The flags that the adapter tells where nothing is heard, and what is said.
const FLAGS: &[(&[u8], &[u8], &[u8])] = &[
    (b"FA4\r", b"errors", b"\r\rC\rS6\rL\rF\rC\r"),
    (b"\nF80\r", b"other errors", b"\r\rC\rS6\rL\rF\rC\r"),
    (b"F5B\r", b"node 5 silent\nnot started\n", RESETS_ALONE),
];

#[test]
fn sends_nothing_where_errors_are_heard(rt: HostRuntime) -> Result<(), Fail> {
    for (flags, wanted, written) in FLAGS {
        let mut port = Script::new(rt.alloc(), SILENT);
        port.flags = *flags;
        let (text, _) = booted(rt.alloc(), PDOS, &mut port)?;
        assert!(rt; text.as_slice() == *wanted);
        assert!(rt; port.written.as_slice() == *written);
    }
    Ok(())
}

#[test]
fn does_nothing_without_a_plan(rt: HostRuntime) -> Result<(), Fail> {
    let mut port = Script::new(rt.alloc(), TAKES_ALL);
    let (text, _) = booted(rt.alloc(), TOO_FAST, &mut port)?;
    assert!(rt; text.as_slice() == b"none passes".as_slice());
    assert!(rt; port.written.is_empty(), "nothing is written");
    Ok(())
}
