//! The device of a planned network is asked over a port whether it is as planned.

use crate::boots::{NODES, PDOS, UNIT};
use crate::scripts::{Script, Turn};
use cop_net::all_rates;
use cop_plan::{Asked, Choice};
use cop_verify::{Reason, Verified, Way, verify};
use std::alloc::{AllocError, Global};
use std::test::Fail;

/// It runs, and has what is planned.
const RUNS: &[Turn] = &[
    (0, b"t705105\r"),
    (10, b"t58584300180181010040\r"),
    (20, b"t58584B17100064000000\r"),
    (30, b""),
    (40, b""),
];

/// It rests, and has another COB-ID.
const DIFFERS: &[Turn] = &[
    (0, b"t70517F\r"),
    (8_000_010, b"t1810\rt58584300180185010040\r"),
    (8_000_020, b"t58584B17100064000000\r"),
    (8_000_030, b""),
    (8_000_040, b""),
];

/// It does not tell a value in 1 s, and is asked no more.
const SILENT: &[Turn] = &[
    (0, b"t705105\r"),
    (10, b""),
    (4_000_010, b"t58584300180181010040\r"),
    (4_000_400, b""),
];

/// A line that is no frame.
const GARBLED: &[Turn] = &[(0, b"#1\r"), (8_000_010, b""), (8_000_400, b"")];

/// The adapter is opened to listen only, and then to send; the questions; and it is closed.
const ASKED: &[u8] =
    b"\r\rC\rS6\rL\r\r\rC\rS6\rO\rt60584000180200000000\rt605840001A0000000000\rt605840001A0100000000\rt605840001A0200000000\rt60584000180100000000\rt60584017100000000000\rC\r";

const ASKED_IN_PART: &[u8] =
    b"\r\rC\rS6\rL\r\r\rC\rS6\rO\rt60584000180200000000\rt605840001A0000000000\rt605840001A0100000000\rt605840001A0200000000\rt60584000180100000000\rC\r";

const UNASKED: &[u8] = b"\r\rC\rS6\rL\rC\r";

/// What comes, what is said, whether all is as planned, and what is written.
const CASES: &[(&[Turn], &[u8], bool, &[u8])] = &[
    (RUNS, b"node 5 as planned\n", true, ASKED),
    (DIFFERS, b"node 5 differs 1800 01 40000185\n", false, ASKED),
    (SILENT, b"node 5 silent\n", false, ASKED_IN_PART),
    (GARBLED, b"1 lines", false, UNASKED),
];

/// What is said, and whether all is as planned.
fn said(alloc: Global, verified: Verified) -> Result<(Vec<u8>, bool), AllocError> {
    match verified {
        Verified::Asked {
            answer,
            planned,
            exchanges: _exchanges,
            ..
        } => Ok((answer.text(alloc)?, planned)),
        Verified::Left {
            reason: Reason::Garbled { lines },
            ..
        } => Ok((format!(in alloc; "{lines} lines")?.into_bytes(), false)),
        Verified::Left { .. } => Ok((Vec::from_slice(alloc, b"left")?, false)),
        Verified::Absent => Ok((Vec::from_slice(alloc, b"absent")?, false)),
        Verified::NonePasses => Ok((Vec::from_slice(alloc, b"none passes")?, false)),
        Verified::Failed => Ok((Vec::from_slice(alloc, b"failed")?, false)),
    }
}

/// What comes of the questions to the sample device.
fn verified(alloc: Global, port: &mut Script) -> Result<Verified, Fail> {
    let file = (
        String::from_str(alloc, "unit.eds")?,
        Vec::from_slice(alloc, UNIT)?,
    );
    let asked = Asked {
        rates: all_rates(),
        choice: Choice::Order,
    };
    let way = Way {
        only: None,
        pause: 0,
    };
    Ok(verify(alloc, NODES, PDOS, &[file], &asked, way, port)?)
}

#[test]
fn asks_whether_it_is_as_planned(rt: HostRuntime) -> Result<(), Fail> {
    for (turns, wanted, as_planned, written) in CASES {
        let mut port = Script::new(rt.alloc(), *turns);
        let (text, planned) = said(rt.alloc(), verified(rt.alloc(), &mut port)?)?;
        assert!(rt; text.as_slice() == *wanted);
        assert!(rt; planned == *as_planned);
        assert!(rt; port.written.as_slice() == *written);
    }
    Ok(())
}
