//! What the words of the command line ask for.

use cop_cli_args::read_request;
use cop_frame::Rate;
use cop_orders::{Format, ListenOrder, NetworkFiles, Order, Rates, TransferOrder, WatchOrder};
use cop_plan::Choice;
use std::alloc::{AllocError, Global};
use std::test::Fail;

/// The words of a line, behind the program's name.
fn words_of(alloc: Global, line: &str) -> Result<Vec<String>, AllocError> {
    let mut words = Vec::new(alloc);
    words.push(String::from_str(alloc, "canplan")?)?;
    for word in line.split_whitespace() {
        words.push(String::from_str(alloc, word)?)?;
    }
    Ok(words)
}

/// Adds rates, slowest first, each behind a word.
fn write_rates(text: &mut String, word: &str, rates: Rates) -> Result<(), AllocError> {
    let set = rates.set();
    for rate in Rate::ALL {
        if set.contains(rate) {
            let kbits = rate.kbits();
            write!(text, " {word} {kbits}")?;
        }
    }
    Ok(())
}

/// Adds the tables of a network, the rates that its plan may have if they are listed, and whether its margin is wanted. A table of settings stands
/// behind the others.
fn write_network(text: &mut String, network: NetworkFiles<'_>) -> Result<(), AllocError> {
    let (nodes, pdos) = (network.nodes, network.pdos);
    write!(text, " {nodes} {pdos}")?;
    if let Some(setup) = network.setup {
        write!(text, " set {setup}")?;
    }
    if network.rates.are_listed() {
        write_rates(text, "at", network.rates)?;
    }
    match network.choice {
        Choice::Margin => text.push_str(" margin"),
        Choice::Order => Ok(()),
    }
}

/// Adds a log, and what is taken of its clock.
fn write_log(text: &mut String, order: WatchOrder<'_>) -> Result<(), AllocError> {
    let (log, error, drift) = (order.log, order.error, order.drift);
    let channel = order.channel.unwrap_or("first");
    write!(text, " log {log} {error} {drift} {channel}")
}

/// Adds a log that is watched, and the file of its table if one is named.
fn write_watch(
    text: &mut String,
    order: WatchOrder<'_>,
    csv: Option<&str>,
) -> Result<(), AllocError> {
    text.push_str("watch")?;
    write_log(text, order)?;
    if let Some(csv) = csv {
        write!(text, " csv {csv}")?;
    }
    write_network(text, order.network)
}

/// Adds a bus that is watched at a port.
fn write_listen(text: &mut String, order: ListenOrder<'_>) -> Result<(), AllocError> {
    let (port, error, drift) = (order.port, order.error, order.drift);
    write!(text, "listen {port} {error} {drift}")?;
    if let Some(limit) = order.limit {
        write!(text, " for {limit}")?;
    }
    if let Some(csv) = order.csv {
        write!(text, " csv {csv}")?;
    }
    write_network(text, order.network)
}

/// Adds an order on a network.
fn write_planned(text: &mut String, order: Order<'_>) -> Result<(), AllocError> {
    match order {
        Order::Plan(order) => {
            let (out, strict) = (order.out, order.strict);
            write!(text, "plan {out} {strict}")?;
            write_network(text, order.network)
        }
        Order::AsIs(network) => {
            text.push_str("as-is")?;
            write_network(text, network)
        }
        Order::Check {
            network,
            refusals,
            strict,
        } => {
            write!(text, "check {refusals} {strict}")?;
            write_network(text, network)
        }
        Order::Judge { network, trace } => {
            write!(text, "judge {trace}")?;
            write_network(text, network)
        }
        Order::Run {
            seed,
            until,
            network,
            trace,
        } => {
            write!(text, "run {seed} {until} {trace}")?;
            write_network(text, network)
        }
        _ => Ok(()),
    }
}

/// Adds an order on what is made of a plan.
fn write_made(text: &mut String, order: Order<'_>) -> Result<(), AllocError> {
    match order {
        Order::Report {
            network,
            shown,
            out,
        } => {
            let trace = shown.trace.unwrap_or("no");
            write!(text, "report {out} {trace}")?;
            if let Some(log) = shown.log {
                write_log(text, log)?;
            }
            write_network(text, network)
        }
        Order::Export {
            format,
            network,
            out,
        } => {
            let name = match format {
                Format::Dbc => "dbc",
                Format::Cdcf { manager: None } => "cdcf",
                Format::Cdcf { manager: Some(_) } => "cdcf of a manager",
            };
            write!(text, "export {name} {out}")?;
            write_network(text, network)
        }
        Order::Room(order) => {
            text.push_str("room")?;
            if let Some(pdo) = order.anew {
                write!(text, " anew {pdo}")?;
            }
            write_network(text, order.network)
        }
        Order::Watch { log, csv } => write_watch(text, log, csv),
        _ => write_planned(text, order),
    }
}

/// Adds an order on a value.
fn write_transfer(text: &mut String, order: TransferOrder<'_>) -> Result<(), AllocError> {
    let (port, kbits, node) = (order.port, order.rate.kbits(), order.node);
    let (index, sub) = (order.index, order.sub);
    write!(text, "value {port} {kbits} {node} {index} {sub}")?;
    if let Some(data_type) = order.data_type {
        write!(text, " {data_type:?}")?;
    }
    if let Some(eds) = order.eds {
        write!(text, " eds {eds}")?;
    }
    match order.value {
        Some(value) => write!(text, " is {value}"),
        None => Ok(()),
    }
}

/// Adds an order on devices at a port.
fn write_at_port(text: &mut String, order: Order<'_>) -> Result<(), AllocError> {
    match order {
        Order::Machine(order) => {
            let (port, take_over, boot_limit) = (order.port, order.take_over, order.boot_limit);
            write!(text, "machine {port} {take_over} {boot_limit}")?;
            if let Some(report) = order.report {
                let (title, date) = (order.title.unwrap_or("-"), order.date.unwrap_or("-"));
                write!(text, " page {report} {title} {date}")?;
            }
            write_network(text, order.network)
        }
        Order::Verify(order) => {
            let (port, only, gently) = (order.port, order.only.unwrap_or(0), order.gently);
            write!(text, "verify {port} {only} {gently}")?;
            write_network(text, order.network)
        }
        Order::Nmt(order) => {
            let (port, command, only) = (order.port, order.command, order.only.unwrap_or(0));
            let kbits = order.rate.kbits();
            write!(text, "nmt {port} {kbits} {command:?} {only}")
        }
        Order::Scan(order) => {
            let (port, up_to, gently) = (order.port, order.up_to, order.gently);
            let kbits = order.rate.kbits();
            write!(text, "scan {port} {kbits} {up_to} {gently}")?;
            match order.eds {
                Some(folder) => write!(text, " eds {folder}"),
                None => Ok(()),
            }
        }
        Order::Transfer(order) => write_transfer(text, order),
        Order::Listen(order) => write_listen(text, order),
        Order::Init(order) => {
            let (folder, out) = (order.folder, order.out);
            write!(text, "init {folder} {out}")?;
            match order.scan {
                Some(scan) => {
                    let (port, kbits, up_to) = (scan.port, scan.rate.kbits(), scan.up_to);
                    let gently = scan.gently;
                    write!(text, " scan {port} {kbits} {up_to} {gently}")
                }
                None => Ok(()),
            }
        }
        Order::Diff(order) => {
            let (old, new) = (order.old, order.new);
            write!(text, "diff {old} {new}")
        }
        _ => write_made(text, order),
    }
}

/// Adds an order.
fn write_order(text: &mut String, order: Order<'_>) -> Result<(), AllocError> {
    match order {
        Order::Test { rate, file, strict } => {
            let kbits = rate.kbits();
            write!(text, "test {kbits} {file} {strict}")
        }
        Order::Boot { seed, network } => {
            write!(text, "boot {seed}")?;
            write_network(text, network)
        }
        Order::Tidy(order) => {
            let (input, out) = (order.input, order.out.unwrap_or("no"));
            write!(text, "tidy {input} {out}")?;
            match order.choices.rates {
                Some(rates) => write_rates(text, "of", rates),
                None => Ok(()),
            }
        }
        Order::Explain {
            number: Some(number),
        } => write!(text, "explain {number}"),
        Order::Explain { number: None } => text.push_str("explain all"),
        _ => write_at_port(text, order),
    }
}

/// What a line asks for, in words; nothing where it is not understood.
fn asked(alloc: Global, line: &str) -> Result<String, Fail> {
    let words = words_of(alloc, line)?;
    let mut text = String::new(alloc);
    if let Ok(request) = read_request(alloc, &words) {
        write_order(&mut text, request.order)?;
        if request.explain {
            text.push_str(" explain")?;
        }
        if request.json {
            text.push_str(" json")?;
        }
    }
    Ok(text)
}

/// Lines, and what they ask for.
const ASKED: &[(&str, &str)] = &[
    ("", "test 125 - false"),
    ("test --rate 500 s.csv", "test 500 s.csv false"),
    ("test --strict --rate 10 --json -", "test 10 - true json"),
    ("plan n p out", "plan out false n p"),
    ("plan --strict n p out", "plan out true n p"),
    ("plan --as-is n p", "as-is n p"),
    (
        "plan --json --setup=s --rates 250 n p --as-is",
        "as-is n p set s at 250 json",
    ),
    ("plan --setup s.csv n p out", "plan out false n p set s.csv"),
    (
        "boot --port - --margin --setup=s n p",
        "machine - false 5 n p set s margin",
    ),
    ("export dbc n p --setup s out", "export dbc out n p set s"),
    (
        "plan --explain --rates 250,500 --margin n p out",
        "plan out false n p at 250 at 500 margin explain",
    ),
    (
        "check --strict --json n p r.csv",
        "check r.csv true n p json",
    ),
    (
        "boot --seed 18446744073709551615 n p",
        "boot 18446744073709551615 n p",
    ),
    ("boot --port - --take-over n p", "machine - true 5 n p"),
    (
        "boot --port - --boot-limit 600 n p",
        "machine - false 600 n p",
    ),
    (
        "boot --port x --report out.html n p",
        "machine x false 5 page out.html - - n p",
    ),
    (
        "boot --port x --report out.html --title Gantry --date today n p",
        "machine x false 5 page out.html Gantry today n p",
    ),
    ("verify --port - n p", "verify - 0 0 n p"),
    (
        "verify --port x --only 9 --gently 20 --json --margin n p",
        "verify x 9 20 n p margin json",
    ),
    ("nmt --port x --rate 500 stop 5", "nmt x 500 Stop 5"),
    ("nmt start --all --port - --rate 10", "nmt - 10 Start 0"),
    (
        "nmt --port x --rate 125 preop 127 --explain",
        "nmt x 125 EnterPreOperational 127 explain",
    ),
    ("nmt --port x --rate 125 reset 1", "nmt x 125 ResetNode 1"),
    (
        "nmt --port x --rate 1000 reset-communication --all",
        "nmt x 1000 ResetCommunication 0",
    ),
    ("scan --port x --rate 500", "scan x 500 127 0"),
    ("scan --port x --rate 500 --eds f", "scan x 500 127 0 eds f"),
    ("read --port x --rate 500 5 1008 0", "value x 500 5 1008 0"),
    (
        "read --port - --rate 20 --type INTEGER16 127 6064h 0A",
        "value - 20 127 6064h 0A Integer16",
    ),
    (
        "write --port x --rate 500 --eds u.eds 5 1017 0 1000",
        "value x 500 5 1017 0 eds u.eds is 1000",
    ),
    (
        "write --port x --rate 500 --type INTEGER8 5 3000 1 -3",
        "value x 500 5 3000 1 Integer8 is -3",
    ),
    (
        "write --port x --rate 500 --type VISIBLE_STRING 5 3000 1 pump",
        "value x 500 5 3000 1 VisibleString is pump",
    ),
    (
        "read --json --port x --rate 500 5 1008 0",
        "value x 500 5 1008 0 json",
    ),
    (
        "write --port x --rate 500 --type UNSIGNED8 5 3000 1 7 --json",
        "value x 500 5 3000 1 Unsigned8 is 7 json",
    ),
    (
        "scan --rate 50 --port - --up-to 9 --gently 20 --json",
        "scan - 50 9 20 json",
    ),
    (
        "run --seed 1 --until 1000000000 n p t",
        "run 1 1000000000 t n p",
    ),
    ("judge --json n p t", "judge t n p json"),
    ("init --explain f out", "init f out explain"),
    (
        "init --port x --rate 500 f out",
        "init f out scan x 500 127 0",
    ),
    (
        "init --rate 50 --up-to 9 --gently 20 --port - f out",
        "init f out scan - 50 9 20",
    ),
    ("diff a b", "diff a b"),
    ("diff --json a b", "diff a b json"),
    ("room --json n p", "room n p json"),
    ("room --rates 125,500 n p", "room n p at 125 at 500"),
    ("room --anew 42.1 n p", "room anew 42.1 n p"),
    ("report n p out", "report out no n p"),
    (
        "report --trace t --log l --error 7 n p out",
        "report out t log l 7 200 first n p",
    ),
    ("export cdcf n p out", "export cdcf out n p"),
    (
        "export cdcf --manager 1 n p out",
        "export cdcf of a manager out n p",
    ),
    ("export dbc n p out", "export dbc out n p"),
    ("tidy --rates 125,500 in out", "tidy in out of 125 of 500"),
    ("tidy --check in", "tidy in no"),
    (
        "watch --json --drift 9 --channel can1 n p -",
        "watch log - 1000 9 can1 n p json",
    ),
    (
        "watch --csv d.csv n p l",
        "watch log l 1000 200 first csv d.csv n p",
    ),
    ("watch --port x n p", "listen x 2000 200 n p"),
    (
        "watch --for 60 --error 9 --csv d.csv --port - n p --json",
        "listen - 9 200 for 60 csv d.csv n p json",
    ),
    ("explain 41", "explain 41"),
];

#[test]
fn words_ask_for_orders(rt: HostRuntime) -> Result<(), Fail> {
    for case in ASKED {
        let (line, wanted) = *case;
        assert!(rt; asked(rt.alloc(), line)?.as_str() == wanted, "{line}");
    }
    Ok(())
}

/// Lines that are not understood.
const REFUSED: &[&str] = &[
    "plans n p out",
    "plan n p",
    "room n",
    "room --strict n p",
    "room n p --anew",
    "plan n p out more",
    "plan --as-is n p out",
    "plan --as-is --margin n p",
    "plan --as-is --strict n p",
    "room --as-is n p",
    "plan --rates 300 n p out",
    "test s.csv",
    "test --rate 7 s.csv",
    "boot n p",
    "boot --seed 1 --port x n p",
    "boot --seed 1 --boot-limit 8 n p",
    "boot --seed 1 --report out n p",
    "boot --port x --title Gantry n p",
    "boot --port x --date today n p",
    "boot --port x --boot-limit 0 n p",
    "boot --port x --boot-limit 601 n p",
    "boot --seed 18446744073709551616 n p",
    "verify n p",
    "verify --port x --seed 1 n p",
    "verify --port x --take-over n p",
    "verify --port x --gently 10001 n p",
    "nmt --port x --rate 500 stop",
    "nmt --port x --rate 500 stop 0",
    "nmt --port x --rate 500 stop 128",
    "nmt --port x --rate 500 stop all",
    "nmt --port x --rate 500 stop 5 --all",
    "nmt --port x --rate 500 5",
    "nmt --port x --rate 500 halt 5",
    "nmt --port x stop 5",
    "nmt --rate 500 stop 5",
    "scan --port x",
    "scan --rate 500",
    "scan --port x --rate 500 --up-to 0",
    "scan --port x --rate 500 --up-to 128",
    "scan --port x --rate 500 n p",
    "read --port x --rate 500 5 1008",
    "read --port x --rate 500 0 1008 0",
    "read --port x --rate 500 128 1008 0",
    "read --port x 5 1008 0",
    "read --rate 500 5 1008 0",
    "read --port x --rate 500 --type UNSIGNED24 5 1008 0",
    "read --port x --rate 500 --type UNSIGNED8 --eds u.eds 5 1008 0",
    "write --port x --rate 500 5 1017 0 1000",
    "write --port x --rate 500 --type UNSIGNED16 5 1017 0",
    "init f",
    "init --json f out",
    "init --port x f out",
    "init --rate 500 f out",
    "init --up-to 9 f out",
    "init --port x --rate 500 --up-to 0 f out",
    "init --port x --rate 500 out",
    "diff a",
    "diff a b c",
    "plan --setup n p out",
    "test --setup s --rate 125 s.csv",
    "run --seed 1 --until 1000000001 n p t",
    "report n p",
    "export xml n p out",
    "tidy in",
    "tidy --octal --decimal in out",
    "watch --error 1000001 n p l",
    "watch --csv n p l",
    "watch n p",
    "watch --port x n p l",
    "watch --port x --for 0 n p",
    "watch --port x --for 86401 n p",
    "watch --port x --channel can1 n p",
    "watch --port x --delta n p",
    "report --log l --csv d.csv n p out",
    "explain 0",
    "explain 256",
];

#[test]
fn other_words_are_refused(rt: HostRuntime) -> Result<(), Fail> {
    for line in REFUSED {
        assert!(rt; asked(rt.alloc(), line)?.is_empty(), "{line}");
    }
    Ok(())
}
