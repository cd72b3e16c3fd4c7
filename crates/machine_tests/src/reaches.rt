//! Boots of one node alone, without a start, with a start that is watched, and with settings that are stored.

use crate::boots::{PLAIN, Tables, ended, told};
use crate::scripts::{Script, Turn};
use cop_commission::{Approach, Reach, Watch};
use std::test::Fail;

/// A device that can store its settings, and go back to those that it left the factory with.
const UNIT: &[u8] =
    b"[DeviceInfo]\nBaudRate_250=1\nBaudRate_500=1\nBaudRate_1000=1\n[OptionalObjects]\nSupportedObjects=6\n1=0x1010\n2=0x1017\n3=0x1800\n4=0x1A00\n5=0x2000\n6=0x1011\n[1010]\nObjectType=0x8\nSubNumber=2\n[1010sub0]\nDataType=0x0005\nAccessType=ro\nDefaultValue=1\n[1010sub1]\nDataType=0x0007\nAccessType=rw\n[1011]\nObjectType=0x8\nSubNumber=2\n[1011sub0]\nDataType=0x0005\nAccessType=ro\nDefaultValue=1\n[1011sub1]\nDataType=0x0007\nAccessType=rw\n[1017]\nDataType=0x0006\nAccessType=rw\nDefaultValue=0\n[1800]\nObjectType=0x9\nSubNumber=3\n[1800sub0]\nDataType=0x0005\nAccessType=ro\nDefaultValue=2\n[1800sub1]\nDataType=0x0007\nAccessType=rw\nDefaultValue=$NODEID+0x40000180\n[1800sub2]\nDataType=0x0005\nAccessType=rw\nDefaultValue=255\n[1A00]\nObjectType=0x9\nSubNumber=3\n[1A00sub0]\nDataType=0x0005\nAccessType=ro\nDefaultValue=2\n[1A00sub1]\nDataType=0x0007\nAccessType=ro\nDefaultValue=0x20000120\n[1A00sub2]\nDataType=0x0007\nAccessType=ro\nDefaultValue=0x20000220\n[2000]\nObjectType=0x8\nSubNumber=3\n[2000sub0]\nDataType=0x0005\nAccessType=ro\nDefaultValue=2\n[2000sub1]\nDataType=0x0007\nAccessType=ro\nPDOMapping=1\n[2000sub2]\nDataType=0x0007\nAccessType=ro\nPDOMapping=1\n";

const NODES: &[u8] =
    b"row,node,name,eds,period,jitter\ndevice,5,Valve,unit.eds,0,0\nemcy,5,,,100000,0\nheartbeat,5,,,100000,0\ndevice,6,Other,unit.eds,0,0\n";

const PDOS: &[u8] = b"node,tpdo,period,jitter,deadline,consumers\n5,1,10000,0,670,\n";

/// Node 5 alone.
const ALONE: Approach = Approach {
    reach: Reach {
        only: Some(5),
        start: true,
    },
    ..PLAIN
};

const UNSTARTED: Approach = Approach {
    reach: Reach {
        only: Some(5),
        start: false,
    },
    ..PLAIN
};

const STORED: Approach = Approach {
    store: true,
    ..ALONE
};

const RESTORED: Approach = Approach {
    restore: true,
    ..ALONE
};

/// The heartbeats are awaited for a quarter of a second.
const WATCHED: Approach = Approach {
    watch: Watch::For(1_000_000),
    ..ALONE
};

/// They are awaited for less than one and a half of their time.
const WATCHED_BRIEFLY: Approach = Approach {
    watch: Watch::For(400_000),
    ..ALONE
};

/// They are awaited until one and a half of their time has passed, which is 150 ms.
const WATCHED_ONCE: Approach = Approach {
    watch: Watch::OnceEach,
    ..ALONE
};

const OF_NOBODY: Approach = Approach {
    reach: Reach {
        only: Some(7),
        start: true,
    },
    ..PLAIN
};

/// Node 6 runs; node 5 takes its settings and has them.
const TAKES_ALL: &[Turn] = &[
    (0, b""),
    (10, b"t706105\r"),
    (8_000_010, b"t705100\r"),
    (8_000_100, b"t58584300180185010040\r"),
    (8_000_200, b"t705100\rt706105\r"),
    (8_000_400, b"t58586000180100000000\r"),
    (8_000_800, b"t58586000180100000000\r"),
    (8_001_200, b"t58586017100000000000\r"),
    (8_001_600, b"t58584300180181010040\r"),
    (8_002_000, b"t58584B17100064000000\r"),
    (8_002_400, b""),
    (8_002_800, b""),
];

/// It stores them, 8 s later.
const STORES: &[Turn] = &[
    (0, b""),
    (10, b"t70517F\r"),
    (8_000_010, b"t705100\r"),
    (8_000_100, b"t58584300180185010040\r"),
    (8_000_200, b"t705100\r"),
    (8_000_400, b"t58586000180100000000\r"),
    (8_000_800, b"t58586000180100000000\r"),
    (8_001_200, b"t58586017100000000000\r"),
    (8_001_600, b"t58584300180181010040\r"),
    (8_002_000, b"t58584B17100064000000\r"),
    (8_002_400, b""),
    (40_002_400, b"t58586010100100000000\r"),
    (40_002_800, b""),
    (40_003_200, b""),
];

/// It does not.
const STORES_NOT: &[Turn] = &[
    (0, b""),
    (10, b"t70517F\r"),
    (8_000_010, b"t705100\r"),
    (8_000_100, b"t58584300180185010040\r"),
    (8_000_200, b"t705100\r"),
    (8_000_400, b"t58586000180100000000\r"),
    (8_000_800, b"t58586000180100000000\r"),
    (8_001_200, b"t58586017100000000000\r"),
    (8_001_600, b"t58584300180181010040\r"),
    (8_002_000, b"t58584B17100064000000\r"),
    (8_002_400, b"t58588010100120000008\r"),
    (8_002_800, b""),
    (8_003_200, b""),
];

/// It goes back to the values that it left the factory with, and is reset.
const RESTORES: &[Turn] = &[
    (0, b""),
    (10, b"t70517F\r"),
    (8_000_005, b"t58586011100100000000\r"),
    (8_000_010, b"t705100\r"),
    (8_000_100, b"t58584300180185010040\r"),
    (8_000_200, b"t705100\r"),
    (8_000_400, b"t58586000180100000000\r"),
    (8_000_800, b"t58586000180100000000\r"),
    (8_001_200, b"t58586017100000000000\r"),
    (8_001_600, b"t58584300180181010040\r"),
    (8_002_000, b"t58584B17100064000000\r"),
    (8_002_400, b""),
    (8_002_800, b""),
];

/// It does not.
const RESTORES_NOT: &[Turn] = &[
    (0, b""),
    (10, b"t70517F\r"),
    (8_000_005, b"t58588011100120000008\r"),
    (8_000_010, b""),
    (8_000_020, b""),
];

/// It does not answer in 10 s.
const RESTORES_SILENTLY: &[Turn] = &[
    (0, b""),
    (10, b"t70517F\r"),
    (8_000_005, b""),
    (48_000_005, b""),
    (48_000_010, b""),
];

/// Its heartbeats come in time once it was started.
const BEATS: &[Turn] = &[
    (0, b""),
    (10, b"t70517F\r"),
    (8_000_010, b"t705100\r"),
    (8_000_100, b"t58584300180185010040\r"),
    (8_000_200, b"t705100\r"),
    (8_000_400, b"t58586000180100000000\r"),
    (8_000_800, b"t58586000180100000000\r"),
    (8_001_200, b"t58586017100000000000\r"),
    (8_001_600, b"t58584300180181010040\r"),
    (8_002_000, b"t58584B17100064000000\r"),
    (9_000_000, b"t705"),
    (9_000_100, b"105\r"),
    (9_400_000, b"t705105\r"),
    (9_900_000, b""),
    (10_000_000, b""),
    (10_000_400, b""),
];

/// They say pre-operational for too long.
const BEATS_LATE: &[Turn] = &[
    (0, b""),
    (10, b"t70517F\r"),
    (8_000_010, b"t705100\r"),
    (8_000_100, b"t58584300180185010040\r"),
    (8_000_200, b"t705100\r"),
    (8_000_400, b"t58586000180100000000\r"),
    (8_000_800, b"t58586000180100000000\r"),
    (8_001_200, b"t58586017100000000000\r"),
    (8_001_600, b"t58584300180181010040\r"),
    (8_002_000, b"t58584B17100064000000\r"),
    (9_000_000, b"t70517F\r"),
    (9_600_000, b"t705105\r"),
    (10_000_000, b""),
    (10_000_400, b""),
];

/// A heartbeat comes in one and a half of its time.
const BEATS_ONCE: &[Turn] = &[
    (0, b""),
    (10, b"t70517F\r"),
    (8_000_010, b"t705100\r"),
    (8_000_100, b"t58584300180185010040\r"),
    (8_000_200, b"t705100\r"),
    (8_000_400, b"t58586000180100000000\r"),
    (8_000_800, b"t58586000180100000000\r"),
    (8_001_200, b"t58586017100000000000\r"),
    (8_001_600, b"t58584300180181010040\r"),
    (8_002_000, b"t58584B17100064000000\r"),
    (9_000_000, b"t705105\r"),
    (9_400_000, b""),
    (9_600_000, b""),
    (9_600_400, b""),
];

/// None does.
const BEATS_NEVER: &[Turn] = &[
    (0, b""),
    (10, b"t70517F\r"),
    (8_000_010, b"t705100\r"),
    (8_000_100, b"t58584300180185010040\r"),
    (8_000_200, b"t705100\r"),
    (8_000_400, b"t58586000180100000000\r"),
    (8_000_800, b"t58586000180100000000\r"),
    (8_001_200, b"t58586017100000000000\r"),
    (8_001_600, b"t58584300180181010040\r"),
    (8_002_000, b"t58584B17100064000000\r"),
    (9_000_000, b"t70517F\rt706105\r"),
    (9_400_000, b""),
    (9_600_000, b""),
    (9_600_400, b""),
];

/// Both nodes boot up while the first setting is read back, and confirm their settings again.
const BOTH_BOOT_UP: &[Turn] = &[
    (0, b""),
    (10, b"t70517F\r"),
    (8_000_010, b"t705100\rt706100\r"),
    (8_000_050, b"t58584300180185010040\r"),
    (8_000_100, b"t58684300180186010040\r"),
    (8_000_200, b"t705100\rt706100\r"),
    (8_000_400, b"t58586000180100000000\rt58686000180100000000\r"),
    (8_000_800, b"t58586000180100000000\r"),
    (8_001_200, b"t58586017100000000000\r"),
    (8_001_600, b"t705100\rt706100\r"),
    (8_002_000, b"t58586000180100000000\rt58686000180100000000\r"),
    (8_002_400, b"t58586000180100000000\r"),
    (8_002_800, b"t58586017100000000000\rt58584300180181010040\r"),
    (8_003_200, b"t58584B17100064000000\r"),
    (8_003_600, b"t586843001801860100C0\r"),
    (8_004_000, b""),
    (8_004_400, b""),
];

/// The settings and the questions of node 5.
const ALONE_WRITTEN: &[u8] =
    b"\r\rC\rS6\rL\r\r\rC\rS6\rO\rt00028205\rt60584000180100000000\rt00028205\rt605823001801850100C0\rt60582300180181010040\rt60582B17100064000000\rt60584000180200000000\rt605840001A0000000000\rt605840001A0100000000\rt605840001A0200000000\rt60584000180100000000\rt60584017100000000000\rt00020105\rC\r";

const UNSTARTED_WRITTEN: &[u8] =
    b"\r\rC\rS6\rL\r\r\rC\rS6\rO\rt00028205\rt60584000180100000000\rt00028205\rt605823001801850100C0\rt60582300180181010040\rt60582B17100064000000\rt60584000180200000000\rt605840001A0000000000\rt605840001A0100000000\rt605840001A0200000000\rt60584000180100000000\rt60584017100000000000\rC\r";

const STORED_WRITTEN: &[u8] =
    b"\r\rC\rS6\rL\r\r\rC\rS6\rO\rt00028205\rt60584000180100000000\rt00028205\rt605823001801850100C0\rt60582300180181010040\rt60582B17100064000000\rt60584000180200000000\rt605840001A0000000000\rt605840001A0100000000\rt605840001A0200000000\rt60584000180100000000\rt60584017100000000000\rt60582310100173617665\rt00020105\rC\r";

/// None says that it is operational, and none is overdue yet.
const BEATS_NOT: &[Turn] = &[
    (0, b""),
    (10, b"t70517F\r"),
    (8_000_010, b"t705100\r"),
    (8_000_100, b"t58584300180185010040\r"),
    (8_000_200, b"t705100\r"),
    (8_000_400, b"t58586000180100000000\r"),
    (8_000_800, b"t58586000180100000000\r"),
    (8_001_200, b"t58586017100000000000\r"),
    (8_001_600, b"t58584300180181010040\r"),
    (8_002_000, b"t58584B17100064000000\r"),
    (9_000_000, b"t70517F\rt706105\r"),
    (9_400_000, b""),
    (9_400_400, b""),
];

const UNSTORED_WRITTEN: &[u8] =
    b"\r\rC\rS6\rL\r\r\rC\rS6\rO\rt00028205\rt60584000180100000000\rt00028205\rt605823001801850100C0\rt60582300180181010040\rt60582B17100064000000\rt60584000180200000000\rt605840001A0000000000\rt605840001A0100000000\rt605840001A0200000000\rt60584000180100000000\rt60584017100000000000\rt60582310100173617665\rC\r";

const RESTORED_WRITTEN: &[u8] =
    b"\r\rC\rS6\rL\r\r\rC\rS6\rO\rt6058231110016C6F6164\rt00028105\rt00028205\rt60584000180100000000\rt00028205\rt605823001801850100C0\rt60582300180181010040\rt60582B17100064000000\rt60584000180200000000\rt605840001A0000000000\rt605840001A0100000000\rt605840001A0200000000\rt60584000180100000000\rt60584017100000000000\rt00020105\rC\r";

const UNRESTORED_WRITTEN: &[u8] = b"\r\rC\rS6\rL\r\r\rC\rS6\rO\rt6058231110016C6F6164\rC\r";

/// How the devices are approached, what comes, what is said, and what is written.
const REACHES: &[(Approach, &[Turn], &[u8], &[u8])] = &[
    (ALONE, TAKES_ALL, b"node 5 ready\nstarted\n", ALONE_WRITTEN),
    (
        UNSTARTED,
        TAKES_ALL,
        b"node 5 ready\nnot started\n",
        UNSTARTED_WRITTEN,
    ),
    (STORED, STORES, b"node 5 ready\nstarted\n", STORED_WRITTEN),
    (
        STORED,
        STORES_NOT,
        b"node 5 aborted 1010 01 08000020\nnot started\n",
        UNSTORED_WRITTEN,
    ),
    (
        RESTORED,
        RESTORES,
        b"node 5 ready\nstarted\n",
        RESTORED_WRITTEN,
    ),
    (
        RESTORED,
        RESTORES_NOT,
        b"node 5 aborted 1011 01 08000020\nnot started\n",
        UNRESTORED_WRITTEN,
    ),
    (
        RESTORED,
        RESTORES_SILENTLY,
        b"node 5 silent\nnot started\n",
        UNRESTORED_WRITTEN,
    ),
    (
        WATCHED,
        BEATS,
        b"node 5 ready\nstarted\nnode 5 operational\n",
        ALONE_WRITTEN,
    ),
    (
        WATCHED,
        BEATS_LATE,
        b"node 5 ready\nstarted\nnode 5 late\n",
        ALONE_WRITTEN,
    ),
    (
        WATCHED_BRIEFLY,
        BEATS_NOT,
        b"node 5 ready\nstarted\nnode 5 unheard\n",
        ALONE_WRITTEN,
    ),
    (
        WATCHED_ONCE,
        BEATS_ONCE,
        b"node 5 ready\nstarted\nnode 5 operational\n",
        ALONE_WRITTEN,
    ),
    (
        WATCHED_ONCE,
        BEATS_NEVER,
        b"node 5 ready\nstarted\nnode 5 late\n",
        ALONE_WRITTEN,
    ),
    (OF_NOBODY, TAKES_ALL, b"absent", b""),
];

/// What is said of a boot of the two nodes.
fn said(rt: &HostRuntime, approach: Approach, port: &mut Script) -> Result<Vec<u8>, Fail> {
    let alloc = rt.alloc();
    let tables = Tables {
        nodes: NODES,
        pdos: PDOS,
        eds: UNIT,
    };
    let (text, _) = told(alloc, ended(alloc, tables, approach, port)?)?;
    Ok(text)
}

#[test]
fn reaches_as_far_as_it_is_to(rt: HostRuntime) -> Result<(), Fail> {
    for (approach, turns, wanted, written) in REACHES {
        let mut port = Script::new(rt.alloc(), *turns);
        let text = said(&rt, *approach, &mut port)?;
        assert!(rt; text.as_slice() == *wanted);
        assert!(rt; port.written.as_slice() == *written);
    }
    Ok(())
}

#[test]
fn notes_each_node_that_boots_up_again(rt: HostRuntime) -> Result<(), Fail> {
    let mut port = Script::new(rt.alloc(), BOTH_BOOT_UP);
    let text = said(&rt, PLAIN, &mut port)?;
    let wanted = b"node 5 restarting\nnode 6 restarting\nnot started\n".as_slice();
    assert!(rt; text.as_slice() == wanted);
    Ok(())
}
