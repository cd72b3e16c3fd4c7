//! Logs that come in pieces.

ghost use Rattle.std.specs.Prelude.{◌<◌};

use cop_lines::{Entry, LineFault};
use cop_log::{LogFault, LogReader, read_log};
use std::test::Fail;

const TEXT: &[u8] =
    b"date Thu Nov 26 10:14:44 2026\r\nbase hex  timestamps relative\r\n\r\n 1.5 1 181 Rx d 2 00 FF\r\n\
    \x20 0.5 Start of measurement\r\n 0.25 2 182 Rx d 0\r\n 0.000001 1 183 Rx r\n 0.5 1 184 Rx d 2 00";

/// Adds what a reader gives of a piece.
fn push_entries(log: &mut Vec<Entry>, reader: &mut LogReader, piece: &[u8]) -> Result<(), Fail> {
    let mut rest = piece;
    for _ in 0..TEXT.len() {
        let Some(found) = reader.next(rest)? else {
            break;
        };
        log.push(found.message.entry)?;
        rest = found.rest;
    }
    Ok(())
}

// What a reader gives of a text in pieces of a length.
fn read_by(rt: &HostRuntime, len: usize) -> Result<Vec<Entry>, Fail>
    requires { 0 < len }
{
    let mut log = Vec::new(rt.alloc());
    let mut reader = LogReader::new(rt.alloc(), None, false);
    for piece in TEXT.chunks(len) {
        push_entries(&mut log, &mut reader, piece)?;
    }
    if reader.unended() != Some(8) {
        return Err(Fail::from("the last line has an end"));
    }
    Ok(log)
}

#[test]
fn pieces_of_any_length_give_one_log(rt: HostRuntime) -> Result<(), Fail> {
    let whole = read_log(rt.alloc(), None, false, TEXT)?;
    let last = Entry {
        line: 7,
        at: 2250001,
        id: 0x40000183,
        len: 0,
    };
    assert!(rt; whole.len() == 2 && whole.get(1) == Some(&last));
    for len in 1..40 {
        assert!(rt; read_by(&rt, len)? == whole);
    }
    Ok(())
}

/// Whether a reader gives nothing of a text.
fn gives_nothing(reader: &mut LogReader, text: &[u8]) -> Result<bool, LogFault> {
    Ok(reader.next(text)?.is_none())
}

#[test]
fn a_line_that_is_too_long_is_refused(rt: HostRuntime) -> Result<(), Fail> {
    let mut reader = LogReader::new(rt.alloc(), None, false);
    assert!(rt; gives_nothing(&mut reader, b"date\nbase hex timestamps absolute\n")?);
    let comment = [b'/'; 4096];
    assert!(rt; gives_nothing(&mut reader, &comment)?);
    let fault = reader.next(b"/").err();
    let is_too_long = matches!(
        fault,
        Some(LogFault::Line {
            number: 3,
            fault: LineFault::Long
        })
    );
    assert!(rt; is_too_long);
    assert!(rt; LineFault::Long.number() == 95);
    Ok(())
}
