//! The status flags of an adapter.

ghost use Rattle.std.specs.Prelude.{◌≡◌, IfSome, IfNone};
ghost use Rattle.hex.specs.Hex.{hex_digit_value};
ghost use Rattle.cop_live.specs.Flags.{line_after, flags_told, flagged, flags_in, FlagsRead, FlagsAsked, FlagsUnread, FlagsFail, is_erroneous, error_in};

use crate::port::Port;

/// So many reads are awaited for the flags.
const AWAITED: u8 = 4;

/// How far a line has come that tells flags: `F` and two digits.
#[derive(Clone, Copy, Debug, PartialEq, Eq)]
enum FlagLine {
    Begun,
    Letter,
    First(u8),
    Second(u16),
    Other,
}

// The value of a digit of the base 16, in either case.
fn digit(byte: u8) -> Option<u8>
    ensures { result ≡ hex_digit_value byte }
{
    match byte {
        b'A'..=b'F' => Some(byte - 55),
        b'a'..=b'f' => Some(byte - 87),
        b'0'..=b'9' => Some(byte - 48),
        _ => None,
    }
}

// A line and one byte more that does not end it.
fn line_after(line: FlagLine, byte: u8) -> FlagLine
    ensures { result ≡ line_after line byte }
{
    match line {
        FlagLine::Begun if byte == b'F' => FlagLine::Letter,
        FlagLine::Letter => match digit(byte) {
            Some(value) => FlagLine::First(value),
            None => FlagLine::Other,
        },
        FlagLine::First(first) => match digit(byte) {
            Some(value) => FlagLine::Second(u16::from(first) * 16 + u16::from(value)),
            None => FlagLine::Other,
        },
        FlagLine::Begun | FlagLine::Second(_) | FlagLine::Other => FlagLine::Other,
    }
}

// The flags that a line tells which is whole.
fn flags_told(line: FlagLine) -> Option<u16>
    ensures { result ≡ flags_told line }
{
    match line {
        FlagLine::Second(flags) => Some(flags),
        FlagLine::Begun | FlagLine::Letter | FlagLine::First(_) | FlagLine::Other => None,
    }
}

// A line and one byte more, and the flags that it tells if that ends it.
fn flagged(line: FlagLine, byte: u8) -> (FlagLine, Option<u16>)
    ensures { result ≡ flagged line byte }
{
    match byte {
        b'\r' => (FlagLine::Begun, flags_told(line)),
        0x07 => (FlagLine::Begun, None),
        b'\n' => (line, None),
        _ => (line_after(line, byte), None),
    }
}

// The first flags that bytes tell, and the line that is begun then.
fn flags_in(line: FlagLine, bytes: &[u8]) -> (FlagLine, Option<u16>)
    ensures { result ≡ flags_in line bytes.now }
{
    match bytes {
        [] => (line, None),
        [byte, rest @ ..] => match flagged(line, *byte) {
            (line, Some(flags)) => (line, Some(flags)),
            (line, None) => flags_in(line, rest),
        },
    }
}

// Reads until flags are told, at most so many times.
fn read_flags<P: Port>(port: &mut P, line: FlagLine, reads: u8) -> Option<Option<u16>>
    ensures told { IfSome result (λ flags. FlagsRead P.reads reads line port.old flags port.new) }
    ensures failed { IfNone result (FlagsUnread P.reads P.fails reads line port.old port.new) }
{
    if reads == 0 {
        return Some(None);
    }
    let mut buffer = [0; 256];
    let Some(count) = port.read(&mut buffer) else {
        return None;
    };
    match flags_in(line, &buffer[..count]) {
        (_, Some(flags)) => Some(Some(flags)),
        (line, None) => read_flags(port, line, reads - 1),
    }
}

/// Asks an adapter for its flags. It may not tell them.
pub fn ask_flags<P: Port>(port: &mut P) -> Option<Option<u16>>
    ensures told { IfSome result (λ flags. FlagsAsked P.reads P.writes port.old flags port.new) }
    ensures failed { IfNone result (FlagsFail P.reads P.writes P.fails port.old port.new) }
{
    if port.write(b"F\r") {
        read_flags(port, FlagLine::Begun, AWAITED)
    } else {
        None
    }
}

// Whether a flag tells of errors on the bus: a warning, the passive state, or a bus error.
fn is_erroneous(flags: u16) -> bool
    ensures { result ≡ is_erroneous flags }
{
    flags / 4 % 2 == 1 || flags / 32 % 2 == 1 || flags / 128 % 2 == 1
}

/// The flags, where one of them tells of errors on the bus.
pub fn error_in(flags: Option<u16>) -> Option<u16>
    ensures { result ≡ error_in flags }
{
    match flags {
        Some(flags) if is_erroneous(flags) => Some(flags),
        Some(_) | None => None,
    }
}
