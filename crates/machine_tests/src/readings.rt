//! Boots of a planned network whose device is asked whether it has its settings.

use crate::boots::{PDOS, booted};
use crate::scripts::{Script, Turn};
use std::test::Fail;

/// It confirms all, and has what it was built with.
const STORES_NOTHING: &[Turn] = &[
    (0, b""),
    (10, b"t70517F\r"),
    (8_000_010, b"t705100\r"),
    (8_000_100, b"t58584300180185010040\r"),
    (8_000_200, b"t705100\r"),
    (8_000_400, b"t58586000180100000000\r"),
    (8_000_800, b"t58586000180100000000\r"),
    (8_001_200, b"t58586017100000000000\r"),
    (8_001_600, b"t58584300180185010040\r"),
    (8_002_000, b""),
    (8_002_400, b""),
];

/// All that seems to confirm its settings was on the way already; what it has comes to the question alone.
const OLD_ANSWERS: &[Turn] = &[
    (0, b""),
    (10, b"t70517F\r"),
    (8_000_010, b"t705100\r"),
    (8_000_100, b"t58584300180185010040\r"),
    (
        8_000_200,
        b"t58584300180181010040\rt705100\rt58586000180100000000\rt58586000180100000000\rt58586017100000000000\r",
    ),
    (8_000_400, b"t585843001801"),
    (8_000_800, b"91010000\rt58584B17100064000000\r"),
    (8_001_200, b""),
    (8_001_600, b""),
];

/// It boots up while its settings are read back, and does not confirm them again.
const BOOTS_UP: &[Turn] = &[
    (0, b""),
    (10, b"t70517F\r"),
    (8_000_010, b"t705100\r"),
    (8_000_100, b"t58584300180185010040\r"),
    (8_000_200, b"t705100\r"),
    (8_000_400, b"t58586000180100000000\r"),
    (8_000_800, b"t58586000180100000000\r"),
    (8_001_200, b"t58586017100000000000\r"),
    (8_001_600, b"t58584300180181010040\rt7051"),
    (8_002_000, b"00\r"),
    (12_001_999, b""),
    (12_002_000, b""),
    (12_002_400, b""),
    (12_002_800, b""),
];

/// It boots up then, confirms its settings again, and tells that it has them.
const RECOVERS: &[Turn] = &[
    (0, b""),
    (10, b"t70517F\r"),
    (8_000_010, b"t705100\r"),
    (8_000_100, b"t58584300180185010040\r"),
    (8_000_200, b"t705100\r"),
    (8_000_400, b"t58586000180100000000\r"),
    (8_000_800, b"t58586000180100000000\r"),
    (8_001_200, b"t58586017100000000000\r"),
    (8_001_600, b"t705100\r"),
    (8_002_000, b"t58586000180100000000\r"),
    (8_002_400, b"t58586000180100000000\r"),
    (8_002_800, b"t58586017100000000000\r"),
    (8_003_200, b"t58584300180181010040\r"),
    (8_003_600, b"t58584B17100064000000\r"),
    (8_004_000, b""),
    (8_004_400, b""),
];

/// It has the first, and does not tell the second.
const ABORTS: &[Turn] = &[
    (0, b""),
    (10, b"t70517F\r"),
    (8_000_010, b"t705100\r"),
    (8_000_100, b"t58584300180185010040\r"),
    (8_000_200, b"t705100\r"),
    (8_000_400, b"t58586000180100000000\r"),
    (8_000_800, b"t58586000180100000000\r"),
    (8_001_200, b"t58586017100000000000\r"),
    (8_001_600, b"t58584300180181010040\r"),
    (8_002_000, b"t58588017100001000106\r"),
    (8_002_400, b""),
    (8_002_800, b""),
];

/// No answer comes in 1 s.
const SILENT: &[Turn] = &[
    (0, b""),
    (10, b"t70517F\r"),
    (8_000_010, b"t705100\r"),
    (8_000_100, b"t58584300180185010040\r"),
    (8_000_200, b"t705100\r"),
    (8_000_400, b"t58586000180100000000\r"),
    (8_000_800, b"t58586000180100000000\r"),
    (8_001_200, b"t58586017100000000000\r"),
    (8_001_600, b""),
    (12_001_599, b""),
    (12_001_600, b""),
    (12_002_000, b""),
    (12_002_400, b""),
];

/// The reset and the question which COB-ID it has, the reset and the settings, and one question.
const ASKED_ONCE: &[u8] =
    b"\r\rC\rS6\rL\r\r\rC\rS6\rO\rt00028200\rt60584000180100000000\rt00028200\rt605823001801850100C0\rt60582300180181010040\rt60582B17100064000000\rt60584000180200000000\rt605840001A0000000000\rt605840001A0100000000\rt605840001A0200000000\rt60584000180100000000\rC\r";

/// And another.
const ASKED_TWICE: &[u8] =
    b"\r\rC\rS6\rL\r\r\rC\rS6\rO\rt00028200\rt60584000180100000000\rt00028200\rt605823001801850100C0\rt60582300180181010040\rt60582B17100064000000\rt60584000180200000000\rt605840001A0000000000\rt605840001A0100000000\rt605840001A0200000000\rt60584000180100000000\rt60584017100000000000\rC\r";

/// The first setting again, which is given up as no answer to it comes.
const SET_AGAIN: &[u8] =
    b"\r\rC\rS6\rL\r\r\rC\rS6\rO\rt00028200\rt60584000180100000000\rt00028200\rt605823001801850100C0\rt60582300180181010040\rt60582B17100064000000\rt60584000180200000000\rt605840001A0000000000\rt605840001A0100000000\rt605840001A0200000000\rt60584000180100000000\rt60584017100000000000\rt605823001801850100C0\rt60588000180100000405\rC\r";

/// All settings again, and the other question.
const ALL_SET_AGAIN: &[u8] =
    b"\r\rC\rS6\rL\r\r\rC\rS6\rO\rt00028200\rt60584000180100000000\rt00028200\rt605823001801850100C0\rt60582300180181010040\rt60582B17100064000000\rt60584000180200000000\rt605840001A0000000000\rt605840001A0100000000\rt605840001A0200000000\rt60584000180100000000\rt605823001801850100C0\rt60582300180181010040\rt60582B17100064000000\rt60584017100000000000\rC\r";

/// What comes, what is said, and what is written: nowhere the start.
const READINGS: &[(&[Turn], &[u8], &[u8])] = &[
    (
        STORES_NOTHING,
        b"node 5 differs 1800 01 40000185\nnot started\n",
        ASKED_ONCE,
    ),
    (
        OLD_ANSWERS,
        b"node 5 differs 1800 01 00000191\nnot started\n",
        ASKED_ONCE,
    ),
    (BOOTS_UP, b"node 5 restarting\nnot started\n", SET_AGAIN),
    (RECOVERS, b"node 5 restarting\nnot started\n", ALL_SET_AGAIN),
    (
        ABORTS,
        b"node 5 aborted 1017 00 06010001\nnot started\n",
        ASKED_TWICE,
    ),
    (SILENT, b"node 5 silent\nnot started\n", ASKED_ONCE),
];

#[test]
fn reads_back(rt: HostRuntime) -> Result<(), Fail> {
    for (turns, wanted, written) in READINGS {
        let mut port = Script::new(rt.alloc(), *turns);
        let (text, started) = booted(rt.alloc(), PDOS, &mut port)?;
        assert!(rt; text.as_slice() == *wanted);
        assert!(rt; !started, "the nodes are not started");
        assert!(rt; port.written.as_slice() == *written);
    }
    Ok(())
}
