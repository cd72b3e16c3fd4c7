//! How values are shown on a page.

use cop_dcf::{Setting, Width};
use std::fmt;

/// A text in which no character is markup.
#[derive(Clone, Copy, Debug)]
pub struct Escaped<'a>(pub &'a str);

/// Writes a character, so that it is no markup.
fn write_escaped<W: fmt::Write>(f: &mut fmt::Formatter<W>, character: char) -> fmt::Result {
    match character {
        '&' => f.write_str("&amp;"),
        '<' => f.write_str("&lt;"),
        '>' => f.write_str("&gt;"),
        '"' => f.write_str("&quot;"),
        '\'' => f.write_str("&#39;"),
        other => f.write_char(other),
    }
}

impl fmt::Display for Escaped<'_> {
    fn fmt<W: fmt::Write>(&self, f: &mut fmt::Formatter<W>) -> fmt::Result {
        for character in self.0.chars() {
            write_escaped(f, character)?;
        }
        Ok(())
    }
}

/// Ticks of 250 ns as milliseconds with three digits, rounded up to a microsecond: no time is shown shorter than it is.
#[derive(Clone, Copy, Debug)]
pub struct Millis(pub u64);

impl fmt::Display for Millis {
    fn fmt<W: fmt::Write>(&self, f: &mut fmt::Formatter<W>) -> fmt::Result {
        let micros = self.0.div_ceil(4);
        let (whole, rest) = (micros / 1000, micros % 1000);
        write!(f, "{whole}.{rest:03}")
    }
}

/// Ticks of 250 ns as seconds with one digit, rounded up.
#[derive(Clone, Copy, Debug)]
pub(crate) struct Seconds(pub u64);

impl fmt::Display for Seconds {
    fn fmt<W: fmt::Write>(&self, f: &mut fmt::Formatter<W>) -> fmt::Result {
        let tenths = self.0.div_ceil(400_000);
        let (whole, rest) = (tenths / 10, tenths % 10);
        write!(f, "{whole}.{rest}")
    }
}

/// What is left of a deadline, of ticks of 250 ns, as milliseconds with three digits, rounded down.
#[derive(Clone, Copy, Debug)]
pub struct Left(pub u64);

impl fmt::Display for Left {
    fn fmt<W: fmt::Write>(&self, f: &mut fmt::Formatter<W>) -> fmt::Result {
        let whole_micros = self.0.saturating_sub(self.0 % 4);
        write!(f, "{}", Millis(whole_micros))
    }
}

/// Ticks of 250 ns as milliseconds, rounded up to a microsecond, with no more digits than they need.
#[derive(Clone, Copy, Debug)]
pub(crate) struct Short(pub u64);

impl fmt::Display for Short {
    fn fmt<W: fmt::Write>(&self, f: &mut fmt::Formatter<W>) -> fmt::Result {
        let micros = self.0.div_ceil(4);
        let (whole, rest) = (micros / 1000, micros % 1000);
        if rest == 0 {
            write!(f, "{whole}")
        } else if rest % 100 == 0 {
            write!(f, "{whole}.{}", rest / 100)
        } else if rest % 10 == 0 {
            write!(f, "{whole}.{:02}", rest / 10)
        } else {
            write!(f, "{whole}.{rest:03}")
        }
    }
}

/// How many characters of a name a picture has room for.
const ROOM: usize = 18;

/// A name in which no character is markup, cut to what a picture has room for.
#[derive(Clone, Copy, Debug)]
pub(crate) struct Cut<'a>(pub &'a str);

impl fmt::Display for Cut<'_> {
    fn fmt<W: fmt::Write>(&self, f: &mut fmt::Formatter<W>) -> fmt::Result {
        for (place, character) in self.0.chars().enumerate() {
            if place == ROOM {
                return f.write_char('…');
            }
            write_escaped(f, character)?;
        }
        Ok(())
    }
}

/// Billionths as percent, to a tenth.
#[derive(Clone, Copy, Debug)]
pub struct Percent(pub u64);

impl fmt::Display for Percent {
    fn fmt<W: fmt::Write>(&self, f: &mut fmt::Formatter<W>) -> fmt::Result {
        let tenths = self.0.div_ceil(1000000);
        let whole = tenths / 10;
        let rest = tenths % 10;
        write!(f, "{whole}.{rest} %")
    }
}

/// A part of a whole as percent, to a tenth, rounded down.
#[derive(Clone, Copy, Debug)]
pub struct Share {
    pub part: u64,
    pub whole: u64,
}

impl fmt::Display for Share {
    fn fmt<W: fmt::Write>(&self, f: &mut fmt::Formatter<W>) -> fmt::Result {
        let tenths = match self.part.saturating_mul(1000).checked_div(self.whole) {
            Some(tenths) => tenths,
            None => 0,
        };
        let whole = tenths / 10;
        let rest = tenths % 10;
        write!(f, "{whole}.{rest} %")
    }
}

/// An identifier in hexadecimal, as 181h.
#[derive(Clone, Copy, Debug)]
pub struct Identifier(pub u16);

impl fmt::Display for Identifier {
    fn fmt<W: fmt::Write>(&self, f: &mut fmt::Formatter<W>) -> fmt::Result {
        let id = self.0;
        write!(f, "{id:03X}h")
    }
}

/// A number of things, as 1 PDO or 2 PDOs.
#[derive(Clone, Copy)]
pub(crate) struct Count<'a> {
    pub number: usize,
    pub thing: &'a str,
}

impl fmt::Display for Count<'_> {
    fn fmt<W: fmt::Write>(&self, f: &mut fmt::Formatter<W>) -> fmt::Result {
        let (number, thing) = (self.number, self.thing);
        let plural = if number == 1 { "" } else { "s" };
        write!(f, "{number} {thing}{plural}")
    }
}

/// The value of a setting, with as many hexadecimal digits as it is wide.
#[derive(Clone, Copy, Debug)]
pub(crate) struct Value(pub Setting);

impl fmt::Display for Value {
    fn fmt<W: fmt::Write>(&self, f: &mut fmt::Formatter<W>) -> fmt::Result {
        let value = self.0.value;
        match self.0.width {
            Width::One => write!(f, "{value:02X}h"),
            Width::Two => write!(f, "{value:04X}h"),
            Width::Four => write!(f, "{value:08X}h"),
        }
    }
}
