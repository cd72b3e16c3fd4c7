//! Bars of a page, as inline SVG. A bar is 1,000 wide.

use std::fmt;

/// The width of a bar.
pub(crate) const WIDTH: u64 = 1000;

/// The part of a bar that a number takes where all of it is another number.
pub(crate) fn part(number: u64, all: u64) -> u64 {
    let share = match number.saturating_mul(WIDTH).checked_div(all) {
        Some(share) => share,
        None => 0,
    };
    share.min(WIDTH)
}

/// How much of a deadline is left, as the page colours it.
#[derive(Clone, Copy, PartialEq, Eq)]
pub(crate) enum Margin {
    /// The response is past the deadline.
    Missed,
    /// The response takes all of the deadline.
    Nothing,
    /// Less than a tenth is left.
    Little,
    /// Less than half is left.
    Fair,
    /// Half or more is left.
    Ample,
}

impl Margin {
    /// What a response leaves of its deadline. Both have one unit.
    pub fn of(response: u64, deadline: u64) -> Margin {
        let left = deadline.saturating_sub(response);
        if deadline < response {
            Margin::Missed
        } else if left == 0 {
            Margin::Nothing
        } else if left.saturating_mul(10) < deadline {
            Margin::Little
        } else if left.saturating_mul(2) < deadline {
            Margin::Fair
        } else {
            Margin::Ample
        }
    }

    /// The class that colours it.
    pub fn class(self) -> &'static str {
        match self {
            Margin::Missed => "missed",
            Margin::Nothing => "nothing",
            Margin::Little => "little",
            Margin::Fair => "fair",
            Margin::Ample => "ample",
        }
    }
}

/// A response against its deadline.
#[derive(Clone, Copy)]
pub(crate) struct ResponseBar {
    pub response: u64,
    pub deadline: u64,
}

impl ResponseBar {
    /// How much of the deadline is left.
    pub fn margin(self) -> Margin {
        Margin::of(self.response, self.deadline)
    }
}

impl fmt::Display for ResponseBar {
    fn fmt<W: fmt::Write>(&self, f: &mut fmt::Formatter<W>) -> fmt::Result {
        let width = part(self.response, self.deadline);
        let class = self.margin().class();
        write!(
            f,
            "<svg class=\"bar\" viewBox=\"0 0 1000 10\" preserveAspectRatio=\"none\" aria-hidden=\"true\">\
<rect class=\"track\" width=\"1000\" height=\"10\"/><rect class=\"{class}\" width=\"{width}\" height=\"10\"/></svg>"
        )
    }
}

/// The load of the bus: what PDOs take, what fixed frames take, and where the bus is full, on a bar of some greatest load.
#[derive(Clone, Copy)]
pub(crate) struct LoadBar {
    pub pdos: u64,
    pub fixed: u64,
    pub greatest: u64,
}

impl fmt::Display for LoadBar {
    fn fmt<W: fmt::Write>(&self, f: &mut fmt::Formatter<W>) -> fmt::Result {
        let pdos = part(self.pdos, self.greatest);
        let both = part(self.pdos.saturating_add(self.fixed), self.greatest);
        let fixed = both.saturating_sub(pdos);
        let full = part(1000000000, self.greatest);
        write!(
            f,
            "<svg class=\"bar\" viewBox=\"0 0 1000 10\" preserveAspectRatio=\"none\" aria-hidden=\"true\">\
<rect class=\"track\" width=\"1000\" height=\"10\"/><rect class=\"pdo\" width=\"{pdos}\" height=\"10\"/>\
<rect class=\"fixed\" x=\"{pdos}\" width=\"{fixed}\" height=\"10\"/>"
        )?;
        write!(
            f,
            "<line class=\"full\" x1=\"{full}\" x2=\"{full}\" y1=\"0\" y2=\"10\"/></svg>"
        )
    }
}

/// A response that is past its deadline: the bar is as long as the response, and its part past the deadline is red.
#[derive(Clone, Copy)]
pub(crate) struct MissBar {
    pub response: u64,
    pub deadline: u64,
}

impl fmt::Display for MissBar {
    fn fmt<W: fmt::Write>(&self, f: &mut fmt::Formatter<W>) -> fmt::Result {
        let allowed = part(self.deadline, self.response);
        write!(
            f,
            "<svg class=\"bar\" viewBox=\"0 0 1000 10\" preserveAspectRatio=\"none\" aria-hidden=\"true\">\
<rect class=\"missed\" width=\"1000\" height=\"10\"/><rect class=\"fixed\" width=\"{allowed}\" height=\"10\"/></svg>"
        )
    }
}
