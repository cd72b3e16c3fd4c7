//! NMT commands over a port.

use crate::scripts::{Script, Turn};
use cop_command::{Command, Commanded, give};
use cop_frame::Rate;
use std::test::Fail;

/// Node 5 runs.
const RUNS: &[Turn] = &[(0, b"t705105\r"), (10, b""), (20, b""), (30, b"")];

/// A command, the node that gets it alone, and the frame.
const CASES: &[(Command, Option<u8>, &[u8])] = &[
    (Command::Start, None, b"t00020100\r"),
    (Command::Stop, Some(5), b"t00020205\r"),
    (Command::EnterPreOperational, Some(127), b"t0002807F\r"),
    (Command::ResetNode, Some(1), b"t00028101\r"),
    (Command::ResetCommunication, None, b"t00028200\r"),
];

const OPENED: &[u8] = b"\r\rC\rS6\rL\r\r\rC\rS6\rO\r";

#[test]
fn one_command_is_sent(rt: HostRuntime) -> Result<(), Fail> {
    for case in CASES {
        let (command, only, frame) = *case;
        let mut port = Script::new(rt.alloc(), RUNS);
        let commanded = give(Rate::Kbit500, command, only, &mut port);
        assert!(rt; commanded == Commanded::Given);
        let behind = port.written.strip_prefix(OPENED);
        let end = behind.and_then(|rest| rest.strip_prefix(frame));
        assert!(rt; end == Some(b"C\r".as_slice()));
    }
    Ok(())
}
