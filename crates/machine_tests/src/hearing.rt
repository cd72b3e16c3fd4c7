//! A bus is listened to over a port, and no frame is sent.

use crate::scripts::{Script, Turn};
use cop_frame::Rate;
use cop_listen::{Listened, Listener, listen};
use cop_live::{Command, Reply};
use cop_slcan::Said;
use std::alloc::Global;
use std::test::Fail;

/// Two frames, of which one comes in parts, among other lines.
const TWO: &[Turn] = &[
    (0, b"t1811FF\rz\rt18"),
    (1000, b"11FE\r#\r"),
    (9000, b"t1811FD\r"),
    (9100, b""),
    (9200, b""),
];

/// The adapter is opened to listen only, and closed.
const HEARD: &[u8] = b"\r\rC\rS6\rL\rC\r";

/// Notes each frame with its moment and its first byte, until there are so many.
#[derive(Drop)]
struct Notes {
    heard: Vec<(u64, u8)>,
    most: usize,
}

impl Notes {
    fn new(alloc: Global, most: usize) -> Notes {
        Notes {
            heard: Vec::new(alloc),
            most,
        }
    }
}

impl Listener for Notes {
    ghost hears = { λ _ _ _ _. Unit {0} };

    ghost ends = { λ _ _. Unit {0} };

    fn hear(&mut self, now: u64, said: &Said) {
        if let Said::Heard(frame) = said {
            let _ = self.heard.push((now, frame.body[0]));
        }
    }

    fn has_enough(&self) -> bool {
        self.heard.len() >= self.most
    }
}

#[test]
fn hears_until_the_time_is_over(rt: HostRuntime) -> Result<(), Fail> {
    let mut port = Script::new(rt.alloc(), TWO);
    let mut notes = Notes::new(rt.alloc(), 9);
    let listened = listen(Rate::Kbit500, Some(9000), &mut port, &mut notes);
    let reply = Reply::Taken;
    assert!(rt; listened == Listened::Ended { reply });
    assert!(rt; notes.heard.as_slice() == [(1000, 0xFF), (9000, 0xFE)].as_slice());
    assert!(rt; port.written.as_slice() == HEARD);
    Ok(())
}

#[test]
fn hears_until_it_is_enough(rt: HostRuntime) -> Result<(), Fail> {
    let mut port = Script::new(rt.alloc(), TWO);
    let mut notes = Notes::new(rt.alloc(), 1);
    let listened = listen(Rate::Kbit500, None, &mut port, &mut notes);
    let reply = Reply::Taken;
    assert!(rt; listened == Listened::Ended { reply });
    assert!(rt; notes.heard.as_slice() == [(1000, 0xFF)].as_slice());
    assert!(rt; port.written.as_slice() == HEARD);
    Ok(())
}

#[test]
fn hears_until_the_port_ends(rt: HostRuntime) -> Result<(), Fail> {
    let mut port = Script::new(rt.alloc(), TWO);
    let mut notes = Notes::new(rt.alloc(), 9);
    let listened = listen(Rate::Kbit500, None, &mut port, &mut notes);
    assert!(rt; listened == Listened::Failed);
    assert!(rt; notes.heard.len() == 3);
    assert!(rt; port.written.as_slice() == b"\r\rC\rS6\rL\r".as_slice());
    Ok(())
}

#[test]
fn hears_nothing_where_the_rate_is_refused(rt: HostRuntime) -> Result<(), Fail> {
    let mut port = Script::refusing(rt.alloc(), TWO, b"S", b"");
    let mut notes = Notes::new(rt.alloc(), 9);
    let listened = listen(Rate::Kbit500, None, &mut port, &mut notes);
    let command = Command::Rate;
    assert!(rt; listened == Listened::Unopened { command });
    assert!(rt; notes.heard.is_empty());
    assert!(rt; port.written.as_slice() == b"\r\rC\rS6\r".as_slice());
    Ok(())
}
