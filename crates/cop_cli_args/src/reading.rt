//! What the words of the command line ask for.

use crate::commands::command;
use crate::mistakes::mistake;
use crate::subcommands::Subcommand;
use clap::{ArgMatches, Error};
use cop_command::Command;
use cop_dict::DataType;
use cop_eds::Access;
use cop_engine::rate_of;
use cop_frame::Rate;
use cop_orders::{
    DiffOrder, Format, InitOrder, ListenOrder, MachineOrder, NetworkFiles, NmtOrder, Order,
    PlanOrder, Rates, Request, RoomOrder, ScanOrder, Shown, TidyChoices, TidyOrder, TransferOrder,
    VerifyOrder, WatchOrder,
};
use cop_plan::Choice;
use cop_tidy_lines::{Digits, Unlisted};
use std::alloc::Global;

/// A boot-up is awaited for so many seconds where nothing else is said.
const BOOT_SECONDS: u64 = 5;

/// The stamps of a log are wrong by so many microseconds at most where nothing else is said.
const LOG_ERROR: u64 = 1000;

/// And so are the moments at which frames are read at a port, since an adapter and its line keep frames back.
const PORT_ERROR: u64 = 2000;

/// A clock is wrong by so many parts in a million at most where nothing else is said.
const DRIFT: u64 = 200;

fn network_of<'a>(matches: &ArgMatches<'a>) -> NetworkFiles<'a> {
    NetworkFiles {
        nodes: matches.get_str("NODES").unwrap_or("-"),
        pdos: matches.get_str("PDOS").unwrap_or("-"),
        setup: matches.get_str("setup"),
        rates: Rates::listed(matches.get_strs("rates")),
        choice: if matches.get_flag("margin") {
            Choice::Margin
        } else {
            Choice::Order
        },
    }
}

/// The rate that is named, and 125 kbit/s if none is.
fn rate_in(matches: &ArgMatches<'_>) -> Rate {
    match matches.get_str("rate") {
        Some(word) => rate_of(word.as_bytes()).unwrap_or(Rate::Kbit125),
        None => Rate::Kbit125,
    }
}

fn test_order<'a>(matches: &ArgMatches<'a>) -> Order<'a> {
    Order::Test {
        rate: rate_in(matches),
        strict: matches.get_flag("strict"),
        file: matches.get_str("FILE").unwrap_or("-"),
    }
}

fn plan_order<'a>(matches: &ArgMatches<'a>) -> Order<'a> {
    let network = network_of(matches);
    if matches.get_flag("as-is") {
        return Order::AsIs(network);
    }
    Order::Plan(PlanOrder {
        network,
        out: matches.get_str("OUT").unwrap_or("-"),
        strict: matches.get_flag("strict"),
    })
}

fn check_order<'a>(matches: &ArgMatches<'a>) -> Order<'a> {
    Order::Check {
        network: network_of(matches),
        refusals: matches.get_str("REFUSALS").unwrap_or("-"),
        strict: matches.get_flag("strict"),
    }
}

fn room_order<'a>(matches: &ArgMatches<'a>) -> Order<'a> {
    Order::Room(RoomOrder {
        network: network_of(matches),
        anew: matches.get_str("anew"),
    })
}

/// The node that a word names; 0, which is no node's number, if the word is none.
fn node_of(matches: &ArgMatches<'_>, name: &str) -> Option<u8> {
    let number: u64 = matches.get_one(name)?;
    Some(u8::try_from(number).unwrap_or(0))
}

fn boot_order<'a>(matches: &ArgMatches<'a>) -> Order<'a> {
    let network = network_of(matches);
    match matches.get_str("port") {
        Some(port) => Order::Machine(MachineOrder {
            network,
            port,
            take_over: matches.get_flag("take-over"),
            identify: !matches.get_flag("no-identity"),
            only: node_of(matches, "only"),
            start: !matches.get_flag("no-start"),
            boot_limit: matches.get_one("boot-limit").unwrap_or(BOOT_SECONDS),
            restore: matches.get_flag("restore"),
            store: matches.get_flag("store"),
            watch: matches.get_one("watch"),
            limit: matches.get_one("limit"),
            report: matches.get_str("report"),
            title: matches.get_str("title"),
            date: matches.get_str("date"),
        }),
        None => Order::Boot {
            seed: matches.get_one("seed").unwrap_or(0),
            network,
        },
    }
}

fn verify_order<'a>(matches: &ArgMatches<'a>) -> Order<'a> {
    Order::Verify(VerifyOrder {
        network: network_of(matches),
        port: matches.get_str("port").unwrap_or("-"),
        only: node_of(matches, "only"),
        gently: matches.get_one("gently").unwrap_or(0),
        limit: matches.get_one("limit"),
    })
}

fn command_of(word: Option<&str>) -> Command {
    match word {
        Some("start") => Command::Start,
        Some("preop") => Command::EnterPreOperational,
        Some("reset") => Command::ResetNode,
        Some("reset-communication") => Command::ResetCommunication,
        _ => Command::Stop,
    }
}

fn nmt_order<'a>(matches: &ArgMatches<'a>) -> Order<'a> {
    Order::Nmt(NmtOrder {
        port: matches.get_str("port").unwrap_or("-"),
        rate: rate_in(matches),
        command: command_of(matches.get_str("COMMAND")),
        only: node_of(matches, "NODE"),
        limit: matches.get_one("limit"),
    })
}

/// The question who is on the bus behind a port.
fn scan_at<'a>(matches: &ArgMatches<'a>, port: &'a str) -> ScanOrder<'a> {
    ScanOrder {
        port,
        rate: rate_in(matches),
        up_to: node_of(matches, "up-to").unwrap_or(127),
        gently: matches.get_one("gently").unwrap_or(0),
        eds: None,
        limit: matches.get_one("limit"),
    }
}

fn scan_order<'a>(matches: &ArgMatches<'a>) -> Order<'a> {
    Order::Scan(ScanOrder {
        eds: matches.get_str("eds"),
        ..scan_at(matches, matches.get_str("port").unwrap_or("-"))
    })
}

/// The type of a name (CiA 301, "Data type entry usage").
fn type_of(word: Option<&str>) -> Option<DataType> {
    match word {
        Some("BOOLEAN") => Some(DataType::Boolean),
        Some("INTEGER8") => Some(DataType::Integer8),
        Some("INTEGER16") => Some(DataType::Integer16),
        Some("INTEGER32") => Some(DataType::Integer32),
        Some("INTEGER64") => Some(DataType::Integer64),
        Some("UNSIGNED8") => Some(DataType::Unsigned8),
        Some("UNSIGNED16") => Some(DataType::Unsigned16),
        Some("UNSIGNED32") => Some(DataType::Unsigned32),
        Some("UNSIGNED64") => Some(DataType::Unsigned64),
        Some("REAL32") => Some(DataType::Real32),
        Some("REAL64") => Some(DataType::Real64),
        Some("VISIBLE_STRING") => Some(DataType::VisibleString),
        Some("OCTET_STRING") => Some(DataType::OctetString),
        Some("DOMAIN") => Some(DataType::Domain),
        _ => None,
    }
}

fn transfer_of<'a>(matches: &ArgMatches<'a>) -> TransferOrder<'a> {
    TransferOrder {
        port: matches.get_str("port").unwrap_or("-"),
        rate: rate_in(matches),
        node: node_of(matches, "NODE").unwrap_or(0),
        index: matches.get_str("INDEX").unwrap_or(""),
        sub: matches.get_str("SUB").unwrap_or(""),
        value: None,
        data_type: type_of(matches.get_str("type")),
        eds: matches.get_str("eds"),
        limit: matches.get_one("limit"),
    }
}

fn read_order<'a>(matches: &ArgMatches<'a>) -> Order<'a> {
    Order::Transfer(transfer_of(matches))
}

fn write_order<'a>(matches: &ArgMatches<'a>) -> Order<'a> {
    Order::Transfer(TransferOrder {
        value: Some(matches.get_str("VALUE").unwrap_or("")),
        ..transfer_of(matches)
    })
}

fn judge_order<'a>(matches: &ArgMatches<'a>) -> Order<'a> {
    Order::Judge {
        network: network_of(matches),
        trace: matches.get_str("TRACE").unwrap_or("-"),
    }
}

fn run_order<'a>(matches: &ArgMatches<'a>) -> Order<'a> {
    Order::Run {
        seed: matches.get_one("seed").unwrap_or(0),
        until: matches.get_one("until").unwrap_or(0),
        network: network_of(matches),
        trace: matches.get_str("TRACE").unwrap_or("-"),
    }
}

/// What a page is to show of the bus.
fn shown_of<'a>(matches: &ArgMatches<'a>) -> Shown<'a> {
    Shown {
        trace: matches.get_str("trace"),
        log: match matches.get_str("log") {
            Some(log) => Some(watch_of(matches, log)),
            None => None,
        },
        title: matches.get_str("title"),
        date: matches.get_str("date"),
    }
}

fn report_order<'a>(matches: &ArgMatches<'a>) -> Order<'a> {
    Order::Report {
        network: network_of(matches),
        shown: shown_of(matches),
        out: matches.get_str("OUT").unwrap_or("-"),
    }
}

fn export_order<'a>(matches: &ArgMatches<'a>) -> Order<'a> {
    let format = match matches.get_str("FORMAT") {
        Some("cdcf") => Format::Cdcf {
            manager: node_of(matches, "manager"),
        },
        _ => Format::Dbc,
    };
    Order::Export {
        format,
        network: network_of(matches),
        out: matches.get_str("OUT").unwrap_or("-"),
    }
}

fn digits_of(matches: &ArgMatches<'_>) -> Option<Digits> {
    if matches.get_flag("octal") {
        Some(Digits::Octal)
    } else if matches.get_flag("decimal") {
        Some(Digits::Decimal)
    } else {
        None
    }
}

fn unlisted_of(word: Option<&str>) -> Option<Unlisted> {
    match word {
        Some("add") => Some(Unlisted::Add),
        Some("leave") => Some(Unlisted::Leave),
        _ => None,
    }
}

fn access_of(word: Option<&str>) -> Option<Access> {
    match word {
        Some("ro") => Some(Access::ReadOnly),
        Some("wo") => Some(Access::WriteOnly),
        Some("rw") => Some(Access::ReadWrite),
        Some("rwr") => Some(Access::ReadWriteInput),
        Some("rww") => Some(Access::ReadWriteOutput),
        Some("const") => Some(Access::Constant),
        _ => None,
    }
}

fn tidy_order<'a>(matches: &ArgMatches<'a>) -> Order<'a> {
    let choices = TidyChoices {
        digits: digits_of(matches),
        access: access_of(matches.get_str("access")),
        unlisted: unlisted_of(matches.get_str("unlisted")),
        rates: matches
            .get_strs("rates")
            .map(|words| Rates::listed(Some(words))),
    };
    Order::Tidy(TidyOrder {
        input: matches.get_str("IN").unwrap_or("-"),
        out: matches.get_str("OUT"),
        choices,
    })
}

/// The scan of the bus whose nodes get tables, if a port is named.
fn scan_for<'a>(matches: &ArgMatches<'a>) -> Option<ScanOrder<'a>> {
    match matches.get_str("port") {
        Some(port) => Some(scan_at(matches, port)),
        None => None,
    }
}

fn init_order<'a>(matches: &ArgMatches<'a>) -> Order<'a> {
    Order::Init(InitOrder {
        scan: scan_for(matches),
        folder: matches.get_str("FOLDER").unwrap_or("-"),
        out: matches.get_str("OUT").unwrap_or("-"),
    })
}

fn diff_order<'a>(matches: &ArgMatches<'a>) -> Order<'a> {
    Order::Diff(DiffOrder {
        old: matches.get_str("OLD").unwrap_or("-"),
        new: matches.get_str("NEW").unwrap_or("-"),
    })
}

/// How far a clock is wrong, as a word says, or as it is taken where the word is left out.
fn clock_of(matches: &ArgMatches<'_>, name: &str, otherwise: u64) -> u32 {
    let wrong = matches.get_one(name).unwrap_or(otherwise);
    u32::try_from(wrong).unwrap_or(u32::MAX)
}

/// A log that is watched, by its name.
fn watch_of<'a>(matches: &ArgMatches<'a>, log: &'a str) -> WatchOrder<'a> {
    WatchOrder {
        network: network_of(matches),
        log,
        channel: matches.get_str("channel"),
        are_distances: matches.get_flag("delta"),
        error: clock_of(matches, "error", LOG_ERROR),
        drift: clock_of(matches, "drift", DRIFT),
        limit: None,
    }
}

fn watch_order<'a>(matches: &ArgMatches<'a>) -> Order<'a> {
    match matches.get_str("port") {
        Some(port) => Order::Listen(ListenOrder {
            network: network_of(matches),
            port,
            limit: matches.get_one("for"),
            error: clock_of(matches, "error", PORT_ERROR),
            drift: clock_of(matches, "drift", DRIFT),
            csv: matches.get_str("csv"),
        }),
        None => Order::Watch {
            log: WatchOrder {
                limit: matches.get_one("for"),
                ..watch_of(matches, matches.get_str("LOG").unwrap_or("-"))
            },
            csv: matches.get_str("csv"),
        },
    }
}

fn explain_order<'a>(matches: &ArgMatches<'a>) -> Order<'a> {
    if matches.get_flag("all") {
        return Order::Explain { number: None };
    }
    let number = matches.get_one("NUMBER").unwrap_or(0);
    Order::Explain {
        number: Some(u8::try_from(number).unwrap_or(0)),
    }
}

fn order_of<'a>(subcommand: Subcommand, matches: &ArgMatches<'a>) -> Order<'a> {
    match subcommand {
        Subcommand::Test => test_order(matches),
        Subcommand::Plan => plan_order(matches),
        Subcommand::Room => room_order(matches),
        Subcommand::Check => check_order(matches),
        Subcommand::Boot => boot_order(matches),
        Subcommand::Verify => verify_order(matches),
        Subcommand::Nmt => nmt_order(matches),
        Subcommand::Scan => scan_order(matches),
        Subcommand::Read => read_order(matches),
        Subcommand::Write => write_order(matches),
        Subcommand::Run => run_order(matches),
        Subcommand::Judge => judge_order(matches),
        Subcommand::Report => report_order(matches),
        Subcommand::Export => export_order(matches),
        Subcommand::Tidy => tidy_order(matches),
        Subcommand::Init => init_order(matches),
        Subcommand::Diff => diff_order(matches),
        Subcommand::Watch => watch_order(matches),
        Subcommand::Explain => explain_order(matches),
    }
}

/// Whether the answer of a subcommand can be a document.
fn has_document(subcommand: Subcommand) -> bool {
    matches!(
        subcommand,
        Subcommand::Plan
            | Subcommand::Room
            | Subcommand::Check
            | Subcommand::Test
            | Subcommand::Judge
            | Subcommand::Boot
            | Subcommand::Verify
            | Subcommand::Scan
            | Subcommand::Read
            | Subcommand::Write
            | Subcommand::Diff
            | Subcommand::Watch
    )
}

/// What is asked for without a word.
fn unasked<'a>() -> Request<'a> {
    Request {
        order: Order::Test {
            rate: Rate::Kbit125,
            file: "-",
            strict: false,
        },
        explain: false,
        json: false,
    }
}

/// What the words of a subcommand ask for.
fn request_of<'a>(subcommand: Subcommand, matches: &ArgMatches<'a>) -> Request<'a> {
    Request {
        order: order_of(subcommand, matches),
        explain: subcommand != Subcommand::Explain && matches.get_flag("explain"),
        json: has_document(subcommand) && matches.get_flag("json"),
    }
}

/// What the words ask for, the program's name being the first. With no other word it is `test --rate 125 -`.
pub fn read_request<'a>(alloc: Global, words: &'a [String]) -> Result<Request<'a>, Error> {
    let command = command(alloc, words)?;
    let matches = match command.try_get_matches_from(words) {
        Ok(matches) => matches,
        Err(error) => return Err(mistake(alloc, words, error)),
    };
    let Some((name, matches)) = matches.subcommand() else {
        return Ok(unasked());
    };
    match Subcommand::named(name) {
        Some(subcommand) => Ok(request_of(subcommand, matches)),
        None => Ok(unasked()),
    }
}
