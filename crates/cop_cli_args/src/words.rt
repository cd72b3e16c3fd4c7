//! The words of the command line, and those that several subcommands have.

/// The greatest number of a node.
pub(crate) const MOST_NODE: u64 = 127;

/// Words of which one or some may stand.
#[derive(Clone, Copy)]
pub(crate) enum Choices {
    /// The bit rates in kbit/s.
    Rates,
    /// What a plan is exported as.
    Formats,
    /// The NMT commands.
    Commands,
    /// The accesses that objects of an EDS file may have.
    Accesses,
    /// What may become of the PDOs that no list of an EDS file names.
    Unlisted,
    /// The types of values.
    Types,
}

static RATES: [&str; 8] = ["10", "20", "50", "125", "250", "500", "800", "1000"];

static FORMATS: [&str; 2] = ["dbc", "cdcf"];

static COMMANDS: [&str; 5] = ["start", "stop", "preop", "reset", "reset-communication"];

static ACCESSES: [&str; 6] = ["ro", "wo", "rw", "rwr", "rww", "const"];

static UNLISTED: [&str; 2] = ["add", "leave"];

static TYPES: [&str; 14] = [
    "BOOLEAN",
    "INTEGER8",
    "INTEGER16",
    "INTEGER32",
    "INTEGER64",
    "UNSIGNED8",
    "UNSIGNED16",
    "UNSIGNED32",
    "UNSIGNED64",
    "REAL32",
    "REAL64",
    "VISIBLE_STRING",
    "OCTET_STRING",
    "DOMAIN",
];

impl Choices {
    pub fn words(self) -> &'static [&'static str] {
        match self {
            Choices::Rates => RATES.as_slice(),
            Choices::Formats => FORMATS.as_slice(),
            Choices::Commands => COMMANDS.as_slice(),
            Choices::Accesses => ACCESSES.as_slice(),
            Choices::Unlisted => UNLISTED.as_slice(),
            Choices::Types => TYPES.as_slice(),
        }
    }
}

/// What a word of the command line is.
#[derive(Clone, Copy)]
pub(crate) enum Kind {
    /// A word at its place, such as the name of a file.
    Place,
    /// A word at its place that may begin with a minus.
    PlaceOfValue,
    /// One of some words at its place.
    PlaceOf(Choices),
    /// A number at its place, from 1 up to this one.
    PlaceOfNumber(u64),
    /// A name that stands or does not.
    Flag,
    /// A text behind a name, and what it is called in a help.
    Text(&'static str),
    /// One of some words behind a name.
    OneOf(Choices),
    /// Some words behind a name, with commas between them.
    ListOf(Choices),
    /// A number behind a name, up to this one.
    Number(u64),
    /// A number behind a name, from 1 up to this one.
    Positive(u64),
    /// How far a clock is wrong at most, behind a name, and the unit.
    Clock(&'static str),
}

/// Whether a word has to be there.
#[derive(Clone, Copy)]
pub(crate) enum Need {
    Required,
    Optional,
    /// It has to be there where this word is not.
    Unless(&'static str),
    /// It cannot be there where this word is.
    Against(&'static str),
    /// It cannot be there without this word.
    With(&'static str),
}

/// A word of the command line.
#[derive(Clone, Copy)]
pub(crate) struct Word {
    pub name: &'static str,
    pub kind: Kind,
    pub need: Need,
    pub help: &'static str,
}

pub(crate) const NODES: Word = Word {
    name: "NODES",
    kind: Kind::Place,
    need: Need::Required,
    help: "The table of nodes: row,node,name,eds,period,jitter; the EDS files lie in its folder",
};

pub(crate) const PDOS: Word = Word {
    name: "PDOS",
    kind: Kind::Place,
    need: Need::Required,
    help: "The table of PDOs: node,tpdo,period,jitter,deadline,consumers",
};

/// Where an adapter is reached.
pub(crate) const PORT: Word = Word {
    name: "port",
    kind: Kind::Text("PORT"),
    need: Need::Required,
    help: "The serial device of a CAN adapter that speaks slcan; - is standard input and output",
};

/// The rate of a bus whose network is not named.
pub(crate) const BUS_RATE: Word = Word {
    name: "rate",
    kind: Kind::OneOf(Choices::Rates),
    need: Need::Required,
    help: "The bus's rate in kbit/s",
};

/// The table of settings.
pub(crate) const SETUP: Word = Word {
    name: "setup",
    kind: Kind::Text("FILE"),
    need: Need::Optional,
    help: "The table of settings, which the devices get besides: row,node,object,value",
};

/// The rates that the plan may have.
pub(crate) const LISTED_RATES: Word = Word {
    name: "rates",
    kind: Kind::ListOf(Choices::Rates),
    need: Need::Optional,
    help: "The rates in kbit/s that the plan may have, as 250,500; all where it is left out",
};

/// Whether the identifiers are those that leave the most room.
pub(crate) const MARGIN: Word = Word {
    name: "margin",
    kind: Kind::Flag,
    need: Need::Optional,
    help: "Takes, at the same rate, the identifiers with the greatest least margin of all deadlines",
};

/// Whether faults are told in words.
pub(crate) const EXPLAIN: Word = Word {
    name: "explain",
    kind: Kind::Flag,
    need: Need::Optional,
    help: "Says of a fault in words where it stands, what is wanted and what is usually behind it",
};

/// Whether the answer is a document.
pub(crate) const JSON: Word = Word {
    name: "json",
    kind: Kind::Flag,
    need: Need::Optional,
    help: "Answers by one document in JSON on standard output, also of a fault",
};

/// What stands at the head of a page.
pub(crate) const TITLE: Word = Word {
    name: "title",
    kind: Kind::Text("TITLE"),
    need: Need::Optional,
    help: "The name of the machine at the page's head",
};

pub(crate) const DATE: Word = Word {
    name: "date",
    kind: Kind::Text("DATE"),
    need: Need::Optional,
    help: "The date at the page's head",
};

/// By how much the stamps of a log may be wrong.
pub(crate) const ERROR: Word = Word {
    name: "error",
    kind: Kind::Clock("US"),
    need: Need::Optional,
    help: "By how much distances of two stamps of the log are wrong at most; 1000 where it is left out",
};

/// By how much the clock of a log may run fast or slow.
pub(crate) const DRIFT: Word = Word {
    name: "drift",
    kind: Kind::Clock("PPM"),
    need: Need::Optional,
    help: "By how many parts in a million its clock is wrong at most; 200 where it is left out",
};

/// The channel of a log.
pub(crate) const CHANNEL: Word = Word {
    name: "channel",
    kind: Kind::Text("NAME"),
    need: Need::Optional,
    help: "The channel whose frames are taken; that of the first frame where it is left out",
};

/// Whether the stamps of a log are distances.
pub(crate) const DELTA: Word = Word {
    name: "delta",
    kind: Kind::Flag,
    need: Need::Optional,
    help: "Each stamp of a log in columns is the distance from the line before, as candump -td writes it",
};
