//! The subcommands, and their words.

use crate::machine_words::{BOOT, FOR, INIT, NMT, READ, SCAN, VERIFY, WRITE};
use crate::words::{
    CHANNEL, Choices, DATE, DELTA, DRIFT, ERROR, EXPLAIN, JSON, Kind, LISTED_RATES, MARGIN,
    MOST_NODE, NODES, Need, PDOS, PORT, SETUP, TITLE, Word,
};
use cop_orders::MOST_UNTIL;

/// The greatest number of a rule.
const MOST_RULE: u64 = 255;

static TEST: [Word; 5] = [
    Word {
        name: "rate",
        kind: Kind::OneOf(Choices::Rates),
        need: Need::Required,
        help: "The bit rate in kbit/s",
    },
    Word {
        name: "FILE",
        kind: Kind::Place,
        need: Need::Required,
        help: "The table of streams: id,bytes,period,jitter,deadline; - is standard input",
    },
    Word {
        name: "strict",
        kind: Kind::Flag,
        need: Need::Optional,
        help: "Ends with status 3 where a stream does not pass",
    },
    JSON,
    EXPLAIN,
];

static PLAN: [Word; 10] = [
    NODES,
    PDOS,
    SETUP,
    LISTED_RATES,
    Word {
        need: Need::Against("as-is"),
        ..MARGIN
    },
    Word {
        name: "as-is",
        kind: Kind::Flag,
        need: Need::Against("OUT"),
        help: "Tests the identifiers that the devices have by their EDS files: none is chosen, and nothing is written",
    },
    EXPLAIN,
    JSON,
    Word {
        name: "strict",
        kind: Kind::Flag,
        need: Need::Against("as-is"),
        help: "Ends with status 3 where something is worth a look before one relies on the plan, as --explain tells it",
    },
    Word {
        name: "OUT",
        kind: Kind::Place,
        need: Need::Unless("as-is"),
        help: "A folder, which has to be there, for plan.txt, refusals.csv and node-005.dcf and so on",
    },
];

static ROOM: [Word; 8] = [
    NODES,
    PDOS,
    SETUP,
    LISTED_RATES,
    MARGIN,
    EXPLAIN,
    JSON,
    Word {
        name: "anew",
        kind: Kind::Text("NODE.TPDO"),
        need: Need::Optional,
        help: "Says of this PDO alone how far its numbers can go where the identifiers of all PDOs are chosen anew",
    },
];

static CHECK: [Word; 9] = [
    NODES,
    PDOS,
    SETUP,
    LISTED_RATES,
    MARGIN,
    EXPLAIN,
    JSON,
    Word {
        name: "strict",
        kind: Kind::Flag,
        need: Need::Optional,
        help: "Ends with status 4 where a rate that the plan refuses has no refusal in the file",
    },
    Word {
        name: "REFUSALS",
        kind: Kind::Place,
        need: Need::Required,
        help: "A refusal file of plan",
    },
];

static RUN: [Word; 9] = [
    NODES,
    PDOS,
    SETUP,
    LISTED_RATES,
    MARGIN,
    EXPLAIN,
    Word {
        name: "TRACE",
        kind: Kind::Place,
        need: Need::Required,
        help: "The file that the trace is written to",
    },
    Word {
        name: "seed",
        kind: Kind::Number(u64::MAX),
        need: Need::Required,
        help: "The number that draws events, delays, lengths and late joiners",
    },
    Word {
        name: "until",
        kind: Kind::Number(MOST_UNTIL),
        need: Need::Required,
        help: "The end of the run in microseconds, at most 1000000000",
    },
];

static JUDGE: [Word; 8] = [
    NODES,
    PDOS,
    SETUP,
    LISTED_RATES,
    MARGIN,
    EXPLAIN,
    JSON,
    Word {
        name: "TRACE",
        kind: Kind::Place,
        need: Need::Required,
        help: "The trace: kind,moment,id,event,bits,data; moments in ticks of 250 ns",
    },
];

static REPORT: [Word; 15] = [
    NODES,
    PDOS,
    SETUP,
    LISTED_RATES,
    MARGIN,
    EXPLAIN,
    Word {
        name: "OUT",
        kind: Kind::Place,
        need: Need::Required,
        help: "The file that the page is written to, in HTML",
    },
    Word {
        name: "trace",
        kind: Kind::Text("TRACE"),
        need: Need::Optional,
        help: "A trace of the bus, as judge takes it: the page shows the bus over time, too",
    },
    Word {
        name: "log",
        kind: Kind::Text("LOG"),
        need: Need::Optional,
        help: "A log of the machine's bus, as watch takes it: the page shows what it shows, too",
    },
    TITLE,
    DATE,
    ERROR,
    DRIFT,
    CHANNEL,
    DELTA,
];

static EXPORT: [Word; 9] = [
    Word {
        name: "FORMAT",
        kind: Kind::PlaceOf(Choices::Formats),
        need: Need::Required,
        help: "A CAN database for all that reads a bus, or the concise DCF of each node for a manager of the network",
    },
    Word {
        name: "NODES",
        kind: Kind::Place,
        need: Need::Required,
        help: "The table of nodes, as plan takes it",
    },
    Word {
        name: "PDOS",
        kind: Kind::Place,
        need: Need::Required,
        help: "The table of PDOs, as plan takes it",
    },
    Word {
        name: "OUT",
        kind: Kind::Place,
        need: Need::Required,
        help: "The file of the database, or the folder, which has to be there, for node-005.cdcf and so on and master.csv",
    },
    Word {
        name: "manager",
        kind: Kind::Number(MOST_NODE),
        need: Need::Optional,
        help: "The node that is the manager, which is no slave in master.csv; without it the first one that makes SYNC by its EDS file",
    },
    MARGIN,
    SETUP,
    LISTED_RATES,
    EXPLAIN,
];

static TIDY: [Word; 9] = [
    Word {
        name: "IN",
        kind: Kind::Place,
        need: Need::Required,
        help: "The EDS file, or a folder with EDS files",
    },
    Word {
        name: "OUT",
        kind: Kind::Place,
        need: Need::Unless("check"),
        help: "The file, or the folder, that is written to",
    },
    Word {
        name: "check",
        kind: Kind::Flag,
        need: Need::Against("OUT"),
        help: "Tells the changes alone: status 3 where there are some",
    },
    EXPLAIN,
    Word {
        name: "octal",
        kind: Kind::Flag,
        need: Need::Against("decimal"),
        help: "Digits with a 0 before them are octal, as CiA 306 says",
    },
    Word {
        name: "decimal",
        kind: Kind::Flag,
        need: Need::Optional,
        help: "They are decimal, as people write them",
    },
    Word {
        name: "access",
        kind: Kind::OneOf(Choices::Accesses),
        need: Need::Optional,
        help: "The access of objects that state none",
    },
    Word {
        name: "unlisted",
        kind: Kind::OneOf(Choices::Unlisted),
        need: Need::Optional,
        help: "Whether sections that no list names are listed, or left as they are",
    },
    Word {
        name: "rates",
        kind: Kind::ListOf(Choices::Rates),
        need: Need::Optional,
        help: "The rates in kbit/s of a device that states none, as 125,250",
    },
];

static DIFF: [Word; 4] = [
    Word {
        name: "OLD",
        kind: Kind::Place,
        need: Need::Required,
        help: "A folder that plan has written",
    },
    Word {
        name: "NEW",
        kind: Kind::Place,
        need: Need::Required,
        help: "Another one",
    },
    EXPLAIN,
    JSON,
];

static WATCH: [Word; 15] = [
    NODES,
    PDOS,
    SETUP,
    LISTED_RATES,
    MARGIN,
    EXPLAIN,
    JSON,
    Word {
        name: "LOG",
        kind: Kind::Place,
        need: Need::Unless("port"),
        help: "The log, as candump, a tool of Vector (.asc) or of PEAK (.trc) writes it; - is standard input",
    },
    Word {
        need: Need::Against("LOG"),
        help: "The serial device of a CAN adapter that speaks slcan: its bus is watched as frames come, and none is sent; - is standard input and output",
        ..PORT
    },
    FOR,
    Word {
        help: "By how much distances of two stamps of the log are wrong at most; 1000 where it is left out, and 2000 at a port",
        ..ERROR
    },
    DRIFT,
    Word {
        need: Need::Against("port"),
        ..CHANNEL
    },
    Word {
        need: Need::Against("port"),
        ..DELTA
    },
    Word {
        name: "csv",
        kind: Kind::Text("FILE"),
        need: Need::Optional,
        help: "Writes a table of what was seen of each stream: id,frames,period,least,mean,greatest,load",
    },
];

static EXPLAIN_RULE: [Word; 2] = [
    Word {
        name: "NUMBER",
        kind: Kind::PlaceOfNumber(MOST_RULE),
        need: Need::Unless("all"),
        help: "The number of a rule, as in canplan: refused NUMBER PLACE",
    },
    Word {
        name: "all",
        kind: Kind::Flag,
        need: Need::Against("NUMBER"),
        help: "All rules and warnings, as a page",
    },
];

/// The subcommands.
#[derive(Clone, Copy, PartialEq, Eq)]
pub(crate) enum Subcommand {
    Test,
    Plan,
    Room,
    Check,
    Boot,
    Verify,
    Nmt,
    Scan,
    Read,
    Write,
    Run,
    Judge,
    Report,
    Export,
    Tidy,
    Init,
    Diff,
    Watch,
    Explain,
}

impl Subcommand {
    /// All of them, as a help lists them.
    pub const ALL: [Subcommand; 19] = [
        Subcommand::Test,
        Subcommand::Plan,
        Subcommand::Room,
        Subcommand::Check,
        Subcommand::Boot,
        Subcommand::Verify,
        Subcommand::Nmt,
        Subcommand::Scan,
        Subcommand::Read,
        Subcommand::Write,
        Subcommand::Run,
        Subcommand::Judge,
        Subcommand::Report,
        Subcommand::Export,
        Subcommand::Tidy,
        Subcommand::Init,
        Subcommand::Diff,
        Subcommand::Watch,
        Subcommand::Explain,
    ];

    /// The one of a name.
    pub fn named(name: &str) -> Option<Subcommand> {
        for subcommand in Subcommand::ALL {
            if subcommand.name() == name {
                return Some(subcommand);
            }
        }
        None
    }

    pub fn name(self) -> &'static str {
        match self {
            Subcommand::Test => "test",
            Subcommand::Plan => "plan",
            Subcommand::Room => "room",
            Subcommand::Check => "check",
            Subcommand::Boot => "boot",
            Subcommand::Verify => "verify",
            Subcommand::Nmt => "nmt",
            Subcommand::Scan => "scan",
            Subcommand::Read => "read",
            Subcommand::Write => "write",
            Subcommand::Run => "run",
            Subcommand::Judge => "judge",
            Subcommand::Report => "report",
            Subcommand::Export => "export",
            Subcommand::Tidy => "tidy",
            Subcommand::Init => "init",
            Subcommand::Diff => "diff",
            Subcommand::Watch => "watch",
            Subcommand::Explain => "explain",
        }
    }

    /// What it does.
    pub fn about(self) -> &'static str {
        match self {
            Subcommand::Test => "Runs the response-time test on a table of streams",
            Subcommand::Plan => {
                "Gives the slowest rate and the identifiers that pass, and a DCF file for each device"
            }
            Subcommand::Room => {
                "Says how far each number of the tables can go with the identifiers of the plan"
            }
            Subcommand::Check => {
                "Checks of each refusal that no choice of identifiers passes at its rate"
            }
            Subcommand::Boot => {
                "Boots the planned devices: those at an adapter, or over a simulated bus, each frame delivered in its turn"
            }
            Subcommand::Verify => {
                "Asks the devices at an adapter whether they are as planned, also where they run, and writes nothing to them"
            }
            Subcommand::Nmt => {
                "Sends an NMT command to a node at an adapter, or to all: no node confirms one"
            }
            Subcommand::Scan => {
                "Asks each node at an adapter what its device is, and writes nothing to any"
            }
            Subcommand::Read => "Reads the value of an object of a node at an adapter",
            Subcommand::Write => "Writes a value to an object of a node at an adapter",
            Subcommand::Run => "Runs the plan on a simulated bus, and writes the trace",
            Subcommand::Judge => "Judges a trace of the bus by the plan of a network",
            Subcommand::Report => {
                "Writes a page that shows the plan: why no slower rate, the load, the PDOs and the settings"
            }
            Subcommand::Export => "Gives the plan of a network to other tools",
            Subcommand::Tidy => {
                "Makes of an EDS file as makers ship it one that plan reads, and tells each change"
            }
            Subcommand::Init => {
                "Makes tables to start from of the EDS files of a folder, for each file or for each node on a bus, and tells each guess"
            }
            Subcommand::Diff => {
                "Says which devices of a machine have to be set again for another plan, and to which values"
            }
            Subcommand::Watch => {
                "Reads a log of a real bus, or listens to one, and says whether it keeps to the tables"
            }
            Subcommand::Explain => {
                "Says what the rule of a refusal is, what is usually behind it, and what is right"
            }
        }
    }

    /// How it is called.
    pub fn example(self) -> &'static str {
        match self {
            Subcommand::Test => "Example: canplan test --rate 125 streams.csv",
            Subcommand::Plan => "Example: canplan plan nodes.csv pdos.csv out",
            Subcommand::Room => {
                "Examples: canplan room nodes.csv pdos.csv
          canplan room --anew 42.1 nodes.csv pdos.csv"
            }
            Subcommand::Check => "Example: canplan check nodes.csv pdos.csv out/refusals.csv",
            Subcommand::Boot => {
                "Examples: canplan boot --seed 1 nodes.csv pdos.csv
          canplan boot --port /dev/ttyACM0 nodes.csv pdos.csv"
            }
            Subcommand::Verify => {
                "Example: canplan verify --port /dev/ttyACM0 nodes.csv pdos.csv"
            }
            Subcommand::Nmt => {
                "Examples: canplan nmt --port /dev/ttyACM0 --rate 500 stop 5
          canplan nmt --port /dev/ttyACM0 --rate 500 start --all"
            }
            Subcommand::Scan => "Example: canplan scan --port /dev/ttyACM0 --rate 500",
            Subcommand::Read => "Example: canplan read --port /dev/ttyACM0 --rate 500 5 1008 0",
            Subcommand::Write => {
                "Example: canplan write --port /dev/ttyACM0 --rate 500 --eds unit.eds 5 1017 0 1000"
            }
            Subcommand::Run => {
                "Example: canplan run --seed 1 --until 1000000 nodes.csv pdos.csv trace.csv"
            }
            Subcommand::Judge => "Example: canplan judge nodes.csv pdos.csv trace.csv",
            Subcommand::Report => "Example: canplan report nodes.csv pdos.csv report.html",
            Subcommand::Export => "Example: canplan export dbc nodes.csv pdos.csv plan.dbc",
            Subcommand::Tidy => "Example: canplan tidy unit.eds unit-tidy.eds",
            Subcommand::Init => {
                "Examples: canplan init eds tables
          canplan init --port /dev/ttyACM0 --rate 500 eds tables"
            }
            Subcommand::Diff => "Example: canplan diff old new",
            Subcommand::Watch => {
                "Examples: candump -L can0 | canplan watch nodes.csv pdos.csv -
          canplan watch --port /dev/ttyACM0 --for 60 nodes.csv pdos.csv"
            }
            Subcommand::Explain => "Example: canplan explain 41",
        }
    }

    /// Its words, as a help lists them.
    pub fn words(self) -> &'static [Word] {
        match self {
            Subcommand::Test => TEST.as_slice(),
            Subcommand::Plan => PLAN.as_slice(),
            Subcommand::Room => ROOM.as_slice(),
            Subcommand::Check => CHECK.as_slice(),
            Subcommand::Boot => BOOT.as_slice(),
            Subcommand::Verify => VERIFY.as_slice(),
            Subcommand::Nmt => NMT.as_slice(),
            Subcommand::Scan => SCAN.as_slice(),
            Subcommand::Read => READ.as_slice(),
            Subcommand::Write => WRITE.as_slice(),
            Subcommand::Run => RUN.as_slice(),
            Subcommand::Judge => JUDGE.as_slice(),
            Subcommand::Report => REPORT.as_slice(),
            Subcommand::Export => EXPORT.as_slice(),
            Subcommand::Tidy => TIDY.as_slice(),
            Subcommand::Init => INIT.as_slice(),
            Subcommand::Diff => DIFF.as_slice(),
            Subcommand::Watch => WATCH.as_slice(),
            Subcommand::Explain => EXPLAIN_RULE.as_slice(),
        }
    }
}
