//! What the command line asks for.

use cop_command::Command;
use cop_dict::DataType;
use cop_eds::Access;
use cop_engine::rate_of;
use cop_frame::{Rate, RateSet};
use cop_plan::Choice;
use cop_tidy_lines::{Digits, Unlisted};

/// The greatest end of a run, in microseconds.
pub const MOST_UNTIL: u64 = 1000000000;

/// The rates that a plan may have, each at its place among all rates.
#[derive(Clone, Copy)]
pub struct Rates([Option<Rate>; 8]);

impl Rates {
    /// Those of a list of words, and all where there is no list.
    pub fn listed(words: Option<&[&str]>) -> Rates {
        let mut rates = Rate::ALL.map(Some);
        if let Some(words) = words {
            for rate in &mut rates {
                if !words.iter().any(|word| rate_of(word.as_bytes()) == *rate) {
                    *rate = None;
                }
            }
        }
        Rates(rates)
    }

    /// Whether some are left out.
    pub fn are_listed(self) -> bool {
        self.0.iter().any(|rate| rate.is_none())
    }

    /// The set of them.
    pub fn set(self) -> RateSet {
        let mut set = RateSet::new();
        for rate in self.0.iter().flatten() {
            set.insert(*rate);
        }
        set
    }
}

/// The names of the tables of a network, and what is asked of its plan. The EDS files lie beside the table of nodes.
#[derive(Clone, Copy)]
pub struct NetworkFiles<'a> {
    pub nodes: &'a str,
    pub pdos: &'a str,
    /// The table of settings, if there is one.
    pub setup: Option<&'a str>,
    pub rates: Rates,
    pub choice: Choice,
}

/// A network that is to be planned.
#[derive(Clone, Copy)]
pub struct PlanOrder<'a> {
    pub network: NetworkFiles<'a>,
    /// The folder that the files of the plan are written to.
    pub out: &'a str,
    /// Whether something that is worth a look before one relies on the plan is a failure.
    pub strict: bool,
}

/// A network of whose plan it is asked how far numbers can go.
#[derive(Clone, Copy)]
pub struct RoomOrder<'a> {
    pub network: NetworkFiles<'a>,
    /// The PDO, as `42.1`, whose numbers alone are asked for, with identifiers chosen anew. Otherwise all numbers are, with those of the plan.
    pub anew: Option<&'a str>,
}

/// The devices at the adapter of a port, which are to be booted by the plan of their network.
#[derive(Clone, Copy)]
pub struct MachineOrder<'a> {
    pub network: NetworkFiles<'a>,
    pub port: &'a str,
    /// Whether a machine that runs is taken over.
    pub take_over: bool,
    /// Whether the devices are asked who they are before anything is written to them.
    pub identify: bool,
    /// The node that is booted alone. Otherwise all are.
    pub only: Option<u8>,
    /// Whether the nodes are started.
    pub start: bool,
    /// For how many seconds the boot-up of a node is awaited after a reset.
    pub boot_limit: u64,
    /// Whether the devices go back to the values that they left the factory with first.
    pub restore: bool,
    /// Whether the devices store their settings.
    pub store: bool,
    /// For how many seconds the heartbeats of nodes that were started are awaited, 0 for not at all. Otherwise until each has had its time.
    pub watch: Option<u64>,
    /// After how many seconds the port is given up, if it ever is.
    pub limit: Option<u64>,
    /// The file that the page of the boot is written to, if one is wanted.
    pub report: Option<&'a str>,
    /// What stands at its head: the machine's name, and the date.
    pub title: Option<&'a str>,
    pub date: Option<&'a str>,
}

/// The devices at the adapter of a port, which are asked whether they are as their network is planned.
#[derive(Clone, Copy)]
pub struct VerifyOrder<'a> {
    pub network: NetworkFiles<'a>,
    pub port: &'a str,
    /// The node that is asked alone. Otherwise all are.
    pub only: Option<u8>,
    /// For how many milliseconds nothing is sent before each question.
    pub gently: u64,
    /// After how many seconds the port is given up, if it ever is.
    pub limit: Option<u64>,
}

/// An NMT command to nodes at the adapter of a port.
#[derive(Clone, Copy)]
pub struct NmtOrder<'a> {
    pub port: &'a str,
    /// The bus's rate.
    pub rate: Rate,
    pub command: Command,
    /// The node that it is sent to alone. Otherwise all get it.
    pub only: Option<u8>,
    /// After how many seconds the port is given up, if it ever is.
    pub limit: Option<u64>,
}

/// The question who is on the bus behind the adapter of a port.
#[derive(Clone, Copy)]
pub struct ScanOrder<'a> {
    pub port: &'a str,
    /// The bus's rate.
    pub rate: Rate,
    /// The greatest node that is asked. All from 1 on are.
    pub up_to: u8,
    /// For how many milliseconds nothing is sent before each question.
    pub gently: u64,
    /// The folder of EDS files of which those that fit are named, if there is one.
    pub eds: Option<&'a str>,
    /// After how many seconds the port is given up, if it ever is.
    pub limit: Option<u64>,
}

/// A value of an object of one node at the adapter of a port, which is to be read, or written.
#[derive(Clone, Copy)]
pub struct TransferOrder<'a> {
    pub port: &'a str,
    /// The bus's rate.
    pub rate: Rate,
    pub node: u8,
    /// The object, in hexadecimal digits.
    pub index: &'a str,
    pub sub: &'a str,
    /// The value to write; none if it is to be read.
    pub value: Option<&'a str>,
    /// The type of the value, if it is named.
    pub data_type: Option<DataType>,
    /// An EDS file that names the type.
    pub eds: Option<&'a str>,
    /// After how many seconds the port is given up, if it ever is.
    pub limit: Option<u64>,
}

/// The choices that are made where the text of an EDS file leaves two meanings open.
#[derive(Clone, Copy)]
pub struct TidyChoices {
    pub digits: Option<Digits>,
    /// The access of objects that state none.
    pub access: Option<Access>,
    pub unlisted: Option<Unlisted>,
    /// The rates of a device that states none.
    pub rates: Option<Rates>,
}

/// An EDS file that is to be made one that plan reads.
#[derive(Clone, Copy)]
pub struct TidyOrder<'a> {
    pub input: &'a str,
    /// The file that the text is written to; none where the changes are told alone.
    pub out: Option<&'a str>,
    pub choices: TidyChoices,
}

/// EDS files from which the tables of a network are to start.
#[derive(Clone, Copy)]
pub struct InitOrder<'a> {
    /// The question who is on the bus, if the devices are those that answer it. Otherwise each file is one device's.
    pub scan: Option<ScanOrder<'a>>,
    /// The folder of the files.
    pub folder: &'a str,
    /// The folder that the tables are written to.
    pub out: &'a str,
}

/// Two plans, of which it is asked what changes in the devices.
#[derive(Clone, Copy)]
pub struct DiffOrder<'a> {
    /// The folders that the plans were written to.
    pub old: &'a str,
    pub new: &'a str,
}

/// What a plan is exported as.
#[derive(Clone, Copy)]
pub enum Format {
    /// A CAN database.
    Dbc,
    /// Concise DCFs, for a manager of the network: this node, or the one that makes SYNC.
    Cdcf { manager: Option<u8> },
}

/// A log of a real bus that is to be watched.
#[derive(Clone, Copy)]
pub struct WatchOrder<'a> {
    pub network: NetworkFiles<'a>,
    /// The log, `-` for standard input.
    pub log: &'a str,
    /// The channel whose frames are taken; that of the first frame where none is wanted.
    pub channel: Option<&'a str>,
    /// Whether the stamps of a log in columns are distances from the line before.
    pub are_distances: bool,
    /// By how many microseconds, and by how many parts in a million, distances of two stamps are wrong at most.
    pub error: u32,
    pub drift: u32,
    /// For how many seconds of this computer's clock it is read. Otherwise to its end.
    pub limit: Option<u64>,
}

/// A bus behind the adapter of a port that is to be watched.
#[derive(Clone, Copy)]
pub struct ListenOrder<'a> {
    pub network: NetworkFiles<'a>,
    pub port: &'a str,
    /// For how many seconds it is listened. Otherwise until the port ends.
    pub limit: Option<u64>,
    /// By how many microseconds, and by how many parts in a million, distances of two moments at which frames are read are wrong at most.
    pub error: u32,
    pub drift: u32,
    /// The file that a table of what was seen of each stream is written to, if one is wanted.
    pub csv: Option<&'a str>,
}

/// What a page shows of the bus beside the plan.
#[derive(Clone, Copy)]
pub struct Shown<'a> {
    /// The name of a trace.
    pub trace: Option<&'a str>,
    /// A log of the machine's bus.
    pub log: Option<WatchOrder<'a>>,
    /// What stands at its head: the machine's name, and the date.
    pub title: Option<&'a str>,
    pub date: Option<&'a str>,
}

/// What the words ask for.
#[derive(Clone, Copy)]
pub enum Order<'a> {
    /// The test of the streams of a table, `-` for standard input.
    Test {
        rate: Rate,
        file: &'a str,
        /// Whether a stream that does not pass is a failure.
        strict: bool,
    },
    /// The plan of a network, into a folder.
    Plan(PlanOrder<'a>),
    /// The question whether a network passes as it stands, with the identifiers that its devices have.
    AsIs(NetworkFiles<'a>),
    /// How far each number of a network's plan can go.
    Room(RoomOrder<'a>),
    /// The check of a refusal file against a network.
    Check {
        network: NetworkFiles<'a>,
        refusals: &'a str,
        /// Whether a slower candidate that the file does not refuse is a failure.
        strict: bool,
    },
    /// The boot of a network by its plan, by the turns that a seed draws.
    Boot {
        seed: u64,
        network: NetworkFiles<'a>,
    },
    /// The boot of the devices at a port by the plan of their network.
    Machine(MachineOrder<'a>),
    /// The question whether the devices at a port are as their network is planned.
    Verify(VerifyOrder<'a>),
    /// An NMT command to nodes at a port.
    Nmt(NmtOrder<'a>),
    /// The question who is on the bus behind a port.
    Scan(ScanOrder<'a>),
    /// A value of an object of one node at a port, to be read or written.
    Transfer(TransferOrder<'a>),
    /// The judgement of a trace by the plan of a network.
    Judge {
        network: NetworkFiles<'a>,
        trace: &'a str,
    },
    /// The seeded run of a network up to so many microseconds, its trace into a file.
    Run {
        seed: u64,
        until: u64,
        network: NetworkFiles<'a>,
        trace: &'a str,
    },
    /// The page that shows the plan of a network, into a file.
    Report {
        network: NetworkFiles<'a>,
        shown: Shown<'a>,
        out: &'a str,
    },
    /// The plan of a network for other tools, into a file or a folder.
    Export {
        format: Format,
        network: NetworkFiles<'a>,
        out: &'a str,
    },
    /// An EDS file as makers ship it, made one that plan reads.
    Tidy(TidyOrder<'a>),
    /// Tables to start from, made of the EDS files of a folder.
    Init(InitOrder<'a>),
    /// What changes in the devices between two plans.
    Diff(DiffOrder<'a>),
    /// A log of a real bus, watched by the plan of a network.
    Watch {
        log: WatchOrder<'a>,
        /// The file that a table of what was seen of each stream is written to, if one is wanted.
        csv: Option<&'a str>,
    },
    /// A bus behind the adapter of a port, watched by the plan of a network.
    Listen(ListenOrder<'a>),
    /// What the rule of a number says, or what all say.
    Explain {
        number: Option<u8>,
    },
}

/// An order, and whether its fault is to be told in words, and its answer as a document in JSON.
#[derive(Clone, Copy)]
pub struct Request<'a> {
    pub order: Order<'a>,
    pub explain: bool,
    pub json: bool,
}
