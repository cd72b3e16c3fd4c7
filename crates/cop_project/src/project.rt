//! What a project file says, and why one is refused.

use cop_frame::Rate;
use thiserror::Error;

/// Which identifiers a plan takes at the slowest rate that passes.
#[derive(Clone, Copy, PartialEq, Eq, Debug)]
pub enum Choice {
    /// Those in the order of the rows.
    Order,
    /// Those with the greatest least margin.
    Margin,
}

/// What a project file says.
#[derive(Debug, Drop)]
pub struct Project {
    /// The table of nodes, as the file names it.
    pub nodes: String,
    /// The table of PDOs, as the file names it.
    pub pdos: String,
    /// The table of settings, as the file names it, if it does.
    pub setup: Option<String>,
    /// The rates that the plan may have, in the order of the file; empty where it lists none, and all are meant.
    pub rates: Vec<Rate>,
    pub choice: Choice,
}

/// What a key of a project file breaks.
#[derive(Clone, Copy, PartialEq, Eq, Debug)]
pub enum Rule {
    /// It is not known or has a value of another type, or it has to be there and is not.
    Key,
    /// Its value is none that it takes.
    Value,
}

/// Why a text is no project.
#[derive(Debug, Drop, Error)]
pub enum ProjectFault {
    /// It is no TOML, which shows at a line, from 1.
    #[error("line {line} is no TOML")]
    NoToml { line: u64 },
    /// A key breaks a rule: at a line, from 1, or at 0 where no line begins with it.
    #[error("a key breaks a rule at line {line}")]
    Broken { rule: Rule, line: u64 },
    /// There is no room.
    #[error("out of memory")]
    Memory,
}

/// What is said of a text that is refused, as in `canplan: refused NUMBER PLACE`.
#[derive(Clone, Copy, PartialEq, Eq, Debug)]
pub struct Refusal {
    pub number: u8,
    pub line: u64,
}

impl Rule {
    ghost use Rattle.std.specs.Prelude.{◌≡◌};
    ghost use Rattle.cop_project.specs.Numbers.{number_of};

    /// Its number.
    pub fn number(self) -> u8
        ensures { result ≡ number_of self }
    {
        match self {
            Rule::Key => 151,
            Rule::Value => 152,
        }
    }
}

impl ProjectFault {
    ghost use Rattle.std.specs.Prelude.{◌≡◌};
    ghost use Rattle.cop_project.specs.Numbers.{refusal_of};

    /// The number and the line of a text that is refused; nothing where there was no room.
    pub fn refusal(&self) -> Option<Refusal>
        ensures { result ≡ refusal_of self.now }
    {
        match self {
            ProjectFault::NoToml { line } => Some(Refusal {
                number: 150,
                line: *line,
            }),
            ProjectFault::Broken { rule, line } => Some(Refusal {
                number: rule.number(),
                line: *line,
            }),
            ProjectFault::Memory => None,
        }
    }
}
