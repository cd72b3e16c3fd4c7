//! A reset, and the boot-ups that are awaited after it.

ghost use Rattle.std.specs.Prelude.{◌≡◌, IfSome, IfNone, option_to_list};
ghost use Rattle.cop_slcan.specs.Reading.{taken, said_from, left_from};
ghost use Rattle.cop_live.specs.Session.{noted};
ghost use Rattle.cop_live.specs.Awaiting.{have_booted, Awoke, AwaitFails};

use crate::nodes::NodeSet;
use crate::port::Port;
use crate::session::{note, reset_of, send};
use cop_slcan::Reader;

// Whether each of some nodes has booted up.
fn have_booted(booted: &NodeSet, nodes: &[u8]) -> bool
    ensures { result ≡ have_booted booted.now nodes.now }
{
    nodes.iter().all(|node| booted.has(*node))
}

// Notes the node whose boot-up a byte tells, if it ends a line.
fn note_byte(booted: &mut NodeSet, reader: &mut Reader, byte: u8)
    ensures reader { reader.new ≡ (taken reader.old byte).0 }
    ensures booted { booted.new ≡ noted booted.old (option_to_list (taken reader.old byte).1) }
{
    match reader.take(byte) {
        Some(said) => note(booted, &said),
        None => {}
    }
}

// Notes the nodes whose boot-ups bytes tell.
fn note_bytes(booted: &mut NodeSet, reader: &mut Reader, bytes: &[u8])
    ensures reader { reader.new ≡ left_from reader.old bytes.now }
    ensures booted { booted.new ≡ noted booted.old (said_from reader.old bytes.now) }
{
    match bytes {
        [] => {}
        [byte, rest @ ..] => {
            note_byte(booted, reader, *byte);
            note_bytes(booted, reader, rest);
        }
    }
}

/// Resets the communication of one node alone, or of all, and reads until each of some nodes has booted up, or for so many ticks: gives the
/// nodes that did. What else comes is dropped. `None` where the port or its clock fails.
pub fn reset_and_await<P: Port>(
    nodes: &[u8],
    limit: u64,
    only: Option<u8>,
    port: &mut P,
) -> Option<NodeSet>
    ensures awoke { IfSome result (λ booted. Awoke P.reads P.writes P.asks only nodes.now limit port.old booted port.new) }
    ensures failed { IfNone result (AwaitFails P.reads P.writes P.asks P.fails only port.old port.new) }
{
    let Some(began) = port.now() else {
        return None;
    };
    if !send(port, &reset_of(only)) {
        return None;
    }
    let mut reader = Reader::new();
    let mut booted = NodeSet::new();
    for _turn in 0..u64::MAX {
        if have_booted(&booted, nodes) {
            return Some(booted);
        }
        let Some(now) = port.now() else {
            return None;
        };
        if now.saturating_sub(began) >= limit {
            return Some(booted);
        }
        let mut buffer = [0; 256];
        let Some(count) = port.read(&mut buffer) else {
            return None;
        };
        note_bytes(&mut booted, &mut reader, &buffer[..count]);
    }
    None
}
