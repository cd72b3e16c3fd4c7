//! Listening before a boot.

use crate::scripts::{Script, Turn};
use cop_live::{Found, Runner, Sender, listen};
use std::alloc::Global;
use std::test::Fail;

/// TPDO 1 of node 5.
const SENDERS: &[Sender] = &[Sender { id: 0x181, node: 5 }];

/// A boot-up, a heartbeat that says pre-operational, an EMCY, an SDO frame, answers of the adapter, lines that are no frames, and 2 s.
const QUIET: &[Turn] = &[
    (7, b"\r\x07t705100\r"),
    (9, b"#\rt70517F\rt0858001000000000000"),
    (400, b"00\rt5858000000000000000\rz\rT000001810\r"),
    (8_000_007, b""),
];

/// Nothing but answers of the adapter.
const NOTHING: &[Turn] = &[(7, b"\r\x07z\r"), (8_000_007, b"")];

/// Lines of which none is a frame, in parts, among answers of the adapter.
const GARBAGE: &[Turn] = &[
    (7, b"\r#garb"),
    (9, b"age\rt1811F\r\x07T000001810\r"),
    (8_000_007, b"t1810\r"),
];

/// A heartbeat that says operational, in parts, behind other lines.
const BEATS: &[Turn] = &[(0, b"z\rt705"), (100, b"105\rt705105\r"), (8_000_000, b"")];

/// A PDO of the plan, whose line has a moment.
const PDO: &[Turn] = &[(0, b"t1811FFA0B1\r"), (8_000_000, b"")];

/// SYNC, and PDOs that are nobody's, in lines that end with CR LF or have moments.
const SYNC: &[Turn] = &[
    (0, b"t70517F\r\nt08"),
    (9, b"00\r\nt1811FF\r\n"),
    (8_000_000, b""),
];

const LAST_PDO: &[Turn] = &[(0, b"t05800\rt6DF100A0B1C2D3\r"), (8_000_000, b"")];

/// Identifiers beside those of PDOs and SYNC.
const OTHER_IDS: &[Turn] = &[
    (
        0,
        b"t0000\rt07F0\rt0810\rt1000\rt1800\rt5800\rt67F0\rt6E00\rt7FF0\r",
    ),
    (8_000_000, b""),
];

/// The heartbeat of a node that runs, and the PDO of another, in parts.
const OTHERS: &[Turn] = &[(0, b"t706105\rz\rt181"), (100, b"1FF\r"), (8_000_000, b"")];

/// What is heard of a script where one node alone is meant.
fn heard_for(alloc: Global, turns: &'static [Turn], only: u8) -> Found {
    let mut port = Script::new(alloc, turns);
    listen(SENDERS, Some(only), &mut port)
}

/// The node that is meant, and what is found.
const ALONE: &[(u8, Found)] = &[
    (7, Found::Nobody),
    (
        6,
        Found::Running {
            runner: Runner { node: 6, id: 0x706 },
        },
    ),
    (
        5,
        Found::Running {
            runner: Runner { node: 5, id: 0x181 },
        },
    ),
];

#[test]
fn listens_to_one_alone(rt: HostRuntime) -> Result<(), Fail> {
    for case in ALONE {
        let (only, wanted) = *case;
        assert!(rt; heard_for(rt.alloc(), OTHERS, only) == wanted);
    }
    Ok(())
}

/// Less than 2 s, and then a failure.
const FAILS: &[Turn] = &[(0, b""), (7_999_999, b"")];

/// What comes, and what is found.
const CASES: &[(&[Turn], Found)] = &[
    (QUIET, Found::Nobody),
    (NOTHING, Found::Silence),
    (GARBAGE, Found::Garbled { lines: 3 }),
    (
        BEATS,
        Found::Running {
            runner: Runner { node: 5, id: 0x705 },
        },
    ),
    (
        PDO,
        Found::Running {
            runner: Runner { node: 5, id: 0x181 },
        },
    ),
    (
        SYNC,
        Found::Running {
            runner: Runner { node: 0, id: 0x080 },
        },
    ),
    (
        LAST_PDO,
        Found::Running {
            runner: Runner { node: 0, id: 0x6DF },
        },
    ),
    (OTHER_IDS, Found::Nobody),
    (FAILS, Found::Failed),
    (&[], Found::Failed),
];

#[test]
fn listens(rt: HostRuntime) -> Result<(), Fail> {
    for (turns, wanted) in CASES {
        let mut port = Script::new(rt.alloc(), *turns);
        let found = listen(SENDERS, None, &mut port);
        assert!(rt; found == *wanted);
        assert!(rt; port.written.is_empty(), "nothing is written");
    }
    Ok(())
}
