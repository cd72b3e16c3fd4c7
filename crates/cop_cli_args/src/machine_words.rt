//! The words of the subcommands that are carried out at an adapter.

use crate::words::{
    BUS_RATE, Choices, DATE, EXPLAIN, JSON, Kind, LISTED_RATES, MARGIN, MOST_NODE, NODES, Need,
    PDOS, PORT, SETUP, TITLE, Word,
};

/// The greatest time at a port, a day in seconds.
const MOST_SECONDS: u64 = 86400;

/// The greatest time for a boot-up, ten minutes in seconds.
const MOST_BOOT_SECONDS: u64 = 600;

/// The greatest pause before a question, ten seconds in milliseconds.
const MOST_PAUSE: u64 = 10000;

/// How long the port is tried.
const LIMIT: Word = Word {
    name: "limit",
    kind: Kind::Number(MOST_SECONDS),
    need: Need::Optional,
    help: "The seconds after which the port is given up",
};

/// How long a bus, or a log that grows, is watched.
pub(crate) const FOR: Word = Word {
    name: "for",
    kind: Kind::Positive(MOST_SECONDS),
    need: Need::Optional,
    help: "The seconds after which no more is read, by this computer's clock; the log or the port is read to its end where it is left out",
};

/// The nodes that are asked, and how gently.
const UP_TO: Word = Word {
    name: "up-to",
    kind: Kind::Positive(MOST_NODE),
    need: Need::Optional,
    help: "The greatest node that is asked; 127 if it is left out",
};

const GENTLY: Word = Word {
    name: "gently",
    kind: Kind::Number(MOST_PAUSE),
    need: Need::Optional,
    help: "The milliseconds in which nothing is sent before each question; 0 if it is left out",
};

/// A node whose object is read or written.
const NODE: Word = Word {
    name: "NODE",
    kind: Kind::PlaceOfNumber(MOST_NODE),
    need: Need::Required,
    help: "The node",
};

/// An object.
const INDEX: Word = Word {
    name: "INDEX",
    kind: Kind::Place,
    need: Need::Required,
    help: "The object's index in hexadecimal digits, as 1017",
};

const SUB: Word = Word {
    name: "SUB",
    kind: Kind::Place,
    need: Need::Required,
    help: "Its sub-index in hexadecimal digits, as 0 or 0A",
};

/// The type of a value.
const TYPE: Word = Word {
    name: "type",
    kind: Kind::OneOf(Choices::Types),
    need: Need::Optional,
    help: "The type of the value",
};

const EDS: Word = Word {
    name: "eds",
    kind: Kind::Text("FILE"),
    need: Need::Against("type"),
    help: "The device's EDS file, which names the type of the value",
};

pub(crate) static BOOT: [Word; 21] = [
    NODES,
    PDOS,
    SETUP,
    LISTED_RATES,
    MARGIN,
    EXPLAIN,
    JSON,
    Word {
        name: "seed",
        kind: Kind::Number(u64::MAX),
        need: Need::Unless("port"),
        help: "The number that draws the turns of the simulated bus",
    },
    Word {
        name: "port",
        kind: Kind::Text("PORT"),
        need: Need::Against("seed"),
        help: "The serial device of a CAN adapter that speaks slcan: the devices there are booted; - is standard input and output",
    },
    Word {
        name: "take-over",
        kind: Kind::Flag,
        need: Need::Against("seed"),
        help: "Resets the nodes also where one is heard to run; without it such a machine is left alone",
    },
    Word {
        name: "no-identity",
        kind: Kind::Flag,
        need: Need::Against("seed"),
        help: "Does not ask the devices for their type, vendor and product; without it nothing is written to them where one is another than its EDS file says",
    },
    Word {
        name: "only",
        kind: Kind::Number(MOST_NODE),
        need: Need::Against("seed"),
        help: "The node that is reset, set and started alone; the others may run",
    },
    Word {
        name: "no-start",
        kind: Kind::Flag,
        need: Need::Against("seed"),
        help: "Leaves the nodes in pre-operational, for another manager to start them",
    },
    Word {
        name: "boot-limit",
        kind: Kind::Positive(MOST_BOOT_SECONDS),
        need: Need::Against("seed"),
        help: "The seconds after a reset in which a node has to boot up, before it is silent; 5 where it is left out",
    },
    Word {
        name: "restore",
        kind: Kind::Flag,
        need: Need::Against("seed"),
        help: "Has each device go back to the values that it left the factory with first (1011h sub 1), where its EDS file has that",
    },
    Word {
        name: "store",
        kind: Kind::Flag,
        need: Need::Against("seed"),
        help: "Has each device store its settings (1010h sub 1), where its EDS file has that",
    },
    Word {
        name: "watch",
        kind: Kind::Number(MOST_SECONDS),
        need: Need::Against("seed"),
        help: "The seconds after the start for which heartbeats are awaited, 0 for none; one and a half of the longest heartbeat time where it is left out",
    },
    Word {
        name: "limit",
        kind: Kind::Number(MOST_SECONDS),
        need: Need::Against("seed"),
        help: "The seconds after which the port is given up",
    },
    Word {
        name: "report",
        kind: Kind::Text("OUT"),
        need: Need::Against("seed"),
        help: "Writes a page that shows how the boot ended, and what each node was set to",
    },
    Word {
        need: Need::With("report"),
        ..TITLE
    },
    Word {
        need: Need::With("report"),
        ..DATE
    },
];

pub(crate) static VERIFY: [Word; 11] = [
    NODES,
    PDOS,
    SETUP,
    LISTED_RATES,
    MARGIN,
    EXPLAIN,
    JSON,
    PORT,
    Word {
        name: "only",
        kind: Kind::Number(MOST_NODE),
        need: Need::Optional,
        help: "The node that is asked alone",
    },
    Word {
        name: "gently",
        kind: Kind::Number(MOST_PAUSE),
        need: Need::Optional,
        help: "The milliseconds in which nothing is sent before each question; 0 where it is left out",
    },
    LIMIT,
];

pub(crate) static NMT: [Word; 7] = [
    Word {
        name: "COMMAND",
        kind: Kind::PlaceOf(Choices::Commands),
        need: Need::Required,
        help: "What the nodes are to do",
    },
    Word {
        name: "NODE",
        kind: Kind::PlaceOfNumber(MOST_NODE),
        need: Need::Unless("all"),
        help: "The node that gets the command",
    },
    Word {
        name: "all",
        kind: Kind::Flag,
        need: Need::Against("NODE"),
        help: "Every node gets it",
    },
    PORT,
    BUS_RATE,
    LIMIT,
    EXPLAIN,
];

pub(crate) static SCAN: [Word; 8] = [
    PORT,
    BUS_RATE,
    UP_TO,
    GENTLY,
    Word {
        name: "eds",
        kind: Kind::Text("FOLDER"),
        need: Need::Optional,
        help: "A folder with EDS files: those that fit a device are named",
    },
    LIMIT,
    EXPLAIN,
    JSON,
];

pub(crate) static INIT: [Word; 8] = [
    Word {
        name: "port",
        kind: Kind::Text("PORT"),
        need: Need::With("rate"),
        help: "The serial device of a CAN adapter that speaks slcan: the devices are the nodes that answer there; - is standard input and output",
    },
    Word {
        need: Need::With("port"),
        ..BUS_RATE
    },
    Word {
        need: Need::With("port"),
        ..UP_TO
    },
    Word {
        need: Need::With("port"),
        ..GENTLY
    },
    Word {
        need: Need::With("port"),
        ..LIMIT
    },
    Word {
        name: "FOLDER",
        kind: Kind::Place,
        need: Need::Required,
        help: "A folder with the EDS files of the devices",
    },
    Word {
        name: "OUT",
        kind: Kind::Place,
        need: Need::Required,
        help: "A folder, which has to be there, for nodes.csv, pdos.csv and network.toml; nothing that is there is replaced",
    },
    EXPLAIN,
];

pub(crate) static READ: [Word; 10] = [
    PORT, BUS_RATE, TYPE, EDS, LIMIT, NODE, INDEX, SUB, EXPLAIN, JSON,
];

pub(crate) static WRITE: [Word; 11] = [
    PORT,
    BUS_RATE,
    Word {
        need: Need::Unless("eds"),
        ..TYPE
    },
    EDS,
    LIMIT,
    NODE,
    INDEX,
    SUB,
    Word {
        name: "VALUE",
        kind: Kind::PlaceOfValue,
        need: Need::Required,
        help: "The value: a number as an EDS file writes it, a text, or the bytes of an OCTET_STRING or DOMAIN in hexadecimal digits",
    },
    EXPLAIN,
    JSON,
];
