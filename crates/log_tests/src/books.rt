//! Logs that are watched by a plan to their end.

use cop_log::Clock;
use cop_logbook::{BookFault, Logbook, Nobody, Onlooker, WatchFault, watched};
use cop_net::{Network, NodeTable, PdoTable, all_rates, network, read_nodes, read_pdos};
use cop_plan::{Choice, Outcome, Plan, plan};
use std::alloc::{AllocError, Global};
use std::io::{self, Read};
use std::test::Fail;

const NODES: &[u8] = b"row,node,name,eds,period,jitter\ndevice,5,Valve,unit.eds,0,0\n";

/// One error in 100 ms, and two at once. NMT counts as 001h where errors are counted.
const RARE_NODES: &[u8] =
    b"row,node,name,eds,period,jitter\nerrors,0,,,100000,100000\nnmt,0,,,1000000,0\ndevice,5,Valve,unit.eds,0,0\n";

const PDOS: &[u8] = b"node,tpdo,period,jitter,deadline,consumers\n5,1,10000,0,5000,\n";

/// A device that sends one PDO of 32 bits.
const UNIT: &[u8] = b"[DeviceInfo]
BaudRate_250=1
[OptionalObjects]
SupportedObjects=2
1=0x1800
2=0x1A00
[ManufacturerObjects]
SupportedObjects=1
1=0x2000
[1800]
ObjectType=9
[1800sub1]
DataType=7
AccessType=rw
DefaultValue=$NODEID+0x40000180
[1800sub2]
DataType=5
AccessType=rw
DefaultValue=255
[1A00]
ObjectType=9
[1A00sub0]
DataType=5
AccessType=rw
DefaultValue=1
[1A00sub1]
DataType=7
AccessType=rw
DefaultValue=0x20000020
[2000]
DataType=7
AccessType=rw
PDOMapping=1
";

fn eds_files(alloc: Global) -> Result<Vec<(String, Vec<u8>)>, AllocError> {
    let mut files = Vec::new(alloc);
    let name = String::from_str(alloc, "unit.eds")?;
    files.push((name, Vec::from_slice(alloc, UNIT)?))?;
    Ok(files)
}

/// The tables of the network.
fn tables(alloc: Global, nodes: &[u8]) -> Result<(NodeTable, PdoTable), Fail> {
    let nodes = read_nodes(alloc, nodes)?;
    Ok((nodes, read_pdos(alloc, PDOS)?))
}

/// The plan of a network.
fn plan_of(alloc: Global, network: &Network<'_>) -> Result<Plan, Fail> {
    match plan(alloc, network, Choice::Order)? {
        Outcome::Planned(plan) => Ok(plan),
        Outcome::Refused(_) => Err(Fail::from("no rate passes")),
    }
}

/// The PDO has the identifier 181h, and an event every 10 ms.
fn planned(alloc: Global) -> Result<Plan, Fail> {
    planned_by(alloc, NODES)
}

/// The same by another table of nodes.
fn planned_by(alloc: Global, nodes: &[u8]) -> Result<Plan, Fail> {
    let (nodes, pdos) = tables(alloc, nodes)?;
    let files = eds_files(alloc)?;
    let network = network(alloc, &all_rates(), &nodes, &pdos, &files)?;
    plan_of(alloc, &network)
}

/// Gives a text in pieces of 1 to 7 bytes, and at its end fails, if it is to.
#[derive(Drop)]
struct Pieces<'a> {
    left: &'a [u8],
    len: usize,
    fails: bool,
}

impl Read for Pieces<'_> {
    fn read(&mut self, buf: &mut [u8]) -> io::Result<usize> {
        if self.left.is_empty() && self.fails {
            return Err(io::Error::from(io::ErrorKind::Other));
        }
        self.len = self.len % 7 + 1;
        let len = self.len.min(self.left.len()).min(buf.len());
        buf[..len].copy_from_slice(&self.left[..len]);
        self.left = &self.left[len..];
        Ok(len)
    }
}

fn in_pieces(log: &str, fails: bool) -> Pieces<'_> {
    Pieces {
        left: log.as_bytes(),
        len: 0,
        fails,
    }
}

/// How many breaches a log shows, or what is wrong with it.
fn breaches(
    alloc: Global,
    plan: &Plan,
    channel: Option<&str>,
    log: Pieces<'_>,
) -> Result<u64, WatchFault> {
    let clock = Clock { error: 1, drift: 0 };
    let book = watched(alloc, plan, clock, channel, false, log, &mut Nobody)?;
    Ok(book.breaches())
}

const LOGS: &[(&str, u64)] = &[
    (
        "(0.000000) can0 181#00112233\n(0.010000) can0 181#00112233\n",
        0,
    ),
    // The last line lacks its end, and may be cut.
    (
        "(0.000000) can0 181#00112233\n(0.001000) can0 181#001122",
        0,
    ),
    // The clock falls: what comes behind is no breach by itself.
    (
        "(1.000000) can0 181#00112233\n(0.500000) can0 181#00112233\n(0.510000) can0 181#00112233\n",
        1,
    ),
    (
        "(0.000000) can0 181#00112233\n(0.010000) can0 123#\n(0.011000) can0 181#0011223344\n",
        2,
    ),
    // Frames of another channel do not count.
    (
        "(0.000000) can0 181#00112233\n(0.001000) can1 181#00112233\n",
        0,
    ),
];

#[test]
fn a_log_is_watched_to_its_end(rt: HostRuntime) -> Result<(), Fail> {
    let plan = planned(rt.alloc())?;
    for case in LOGS {
        let (log, wanted) = *case;
        let found = breaches(rt.alloc(), &plan, None, in_pieces(log, false));
        assert!(rt; matches!(found, Ok(found) if found == wanted));
    }
    Ok(())
}

/// The number of a refusal of a log, and its line.
fn refused(found: Result<u64, WatchFault>) -> Option<(u8, u64)> {
    match found {
        Err(WatchFault::Book(BookFault::Refused { number, line })) => Some((number, line)),
        _ => None,
    }
}

#[test]
fn a_log_that_is_refused_has_its_line(rt: HostRuntime) -> Result<(), Fail> {
    let plan = planned(rt.alloc())?;
    let log = in_pieces("(0.000000) can0 181#00112233\n(0.01 can0 181#\n", false);
    let found = refused(breaches(rt.alloc(), &plan, None, log));
    assert!(rt; matches!(found, Some((_, 2))));
    let log = in_pieces("(0.000000) can0 181#00112233\n", false);
    let found = refused(breaches(rt.alloc(), &plan, Some("can1"), log));
    assert!(rt; matches!(found, Some((94, 0))));
    Ok(())
}

#[test]
fn a_log_that_is_not_read_to_its_end_is_not_watched(rt: HostRuntime) -> Result<(), Fail> {
    let plan = planned(rt.alloc())?;
    let log = in_pieces("(0.000000) can0 181#00112233\n", true);
    let found = breaches(rt.alloc(), &plan, None, log);
    assert!(rt; matches!(found, Err(WatchFault::Read(_))));
    Ok(())
}

/// Logs, and what is said at the end of them.
const SAID: &[(&str, &str)] = &[
    ("(0.000000) can0 181#00112233\n", "keeps to the tables\n"),
    (
        "(0.000000) can0 181#00112233\n(0.0100",
        "line 2: the last line has no end, and was left out\nkeeps to the tables\n",
    ),
    (
        "(1.000000) can0 181#00112233\n(0.500000) can0 181#00112233\n",
        "line 2: the log's clock falls by 500000 us from line 1 on, with 1 us for the clock; breaks: the clock of the log does not fall\nbreaches 1\n",
    ),
];

/// A log with more errors than the row says, and what is said at its end.
const MORE: (&str, &str) = (
    "(0.000000) can0 20000080#\n(0.000400) can0 20000080#\n(0.010000) can0 20000080#\n",
    "errors frames 3 distance 400 5000 9600 table 100000\n181h never seen\n000h never seen\nline 3: an error frame comes 10000 us after that of line 1; the least is 98956 us (2 x 100000 us - 101044 us response), with 1 us and 0 ppm for the clock; breaks: disturbed transfers are as rare as the row errors says\nbreaches 1\n",
);

#[test]
fn more_errors_than_the_row_says_are_told(rt: HostRuntime) -> Result<(), Fail> {
    let plan = planned_by(rt.alloc(), RARE_NODES)?;
    let clock = Clock { error: 1, drift: 0 };
    let (log, wanted) = MORE;
    let pieces = in_pieces(log, false);
    let Ok(book) = watched(rt.alloc(), &plan, clock, None, false, pieces, &mut Nobody) else {
        return Err(Fail::from("it is refused"));
    };
    assert!(rt; book.finish()?.ends_with(wanted));
    Ok(())
}

#[test]
fn what_is_said_ends_in_the_breaches(rt: HostRuntime) -> Result<(), Fail> {
    let plan = planned(rt.alloc())?;
    let clock = Clock { error: 1, drift: 0 };
    for case in SAID {
        let (log, wanted) = *case;
        let pieces = in_pieces(log, false);
        let Ok(book) = watched(rt.alloc(), &plan, clock, None, false, pieces, &mut Nobody) else {
            return Err(Fail::from("it is refused"));
        };
        assert!(rt; book.finish()?.ends_with(wanted));
    }
    Ok(())
}

/// Logs with error frames, and how many breaches they show where one is allowed in 100 ms, and two at once.
const DISTURBED: &[(&str, u64)] = &[
    // Two at once, and then one in each period.
    (
        "(0.000000) can0 20000080#0000000000000000\n(0.000400) can0 20000080#0000000000000000\n(0.100000) can0 20000080#\n(0.200000) can0 2000008C#0000000000000000\n",
        0,
    ),
    // Three at once.
    (
        "(0.000000) can0 20000080#0000000000000000\n(0.000400) can0 20000080#0000000000000000\n(0.000800) can0 20000080#0000000000000000\n",
        1,
    ),
    // Three in 95 ms, of which the response is 1.3 ms without the jitter.
    (
        "(0.000000) can0 20000080#\n(0.000400) can0 20000080#\n(0.095000) can0 20000080#\n",
        1,
    ),
    // NMT and the PDO are frames as on the bus, and 001h is of no sender.
    (
        "(0.000000) can0 000#0100\n(0.001000) can0 181#00112233\n(0.002000) can0 20000080#\n(0.003000) can0 001#0100\n",
        1,
    ),
    // A remote frame and one of 29 bits are no error frames.
    ("(0.000000) can0 181#R\n(0.001000) can0 00000181#00\n", 2),
];

#[test]
fn error_frames_are_counted_against_the_row(rt: HostRuntime) -> Result<(), Fail> {
    let plan = planned_by(rt.alloc(), RARE_NODES)?;
    for case in DISTURBED {
        let (log, wanted) = *case;
        let found = breaches(rt.alloc(), &plan, None, in_pieces(log, false));
        assert!(rt; matches!(found, Ok(found) if found == wanted));
    }
    Ok(())
}

#[test]
fn each_error_frame_is_a_breach_without_the_row(rt: HostRuntime) -> Result<(), Fail> {
    let plan = planned(rt.alloc())?;
    let log = in_pieces(
        "(0.000000) can0 20000080#\n(1.000000) can0 20000080#\n",
        false,
    );
    let found = breaches(rt.alloc(), &plan, None, log);
    assert!(rt; matches!(found, Ok(2)));
    Ok(())
}

/// How many breaches were told, and how many frames were taken, when it was looked for the last time before there was one.
#[derive(Clone, Copy)]
struct Looks {
    told: usize,
    frames: u64,
}

impl Onlooker for Looks {
    fn look(&mut self, book: &Logbook<'_>) {
        if self.told == 0 {
            self.frames = book.all().frames;
        }
        self.told = book.told().len();
    }
}

/// What was seen of a log by an onlooker, as it was watched in pieces.
fn looks_at(alloc: Global, plan: &Plan, log: &str) -> Result<Looks, WatchFault> {
    let clock = Clock { error: 1, drift: 0 };
    let mut looks = Looks { told: 0, frames: 0 };
    watched(
        alloc,
        plan,
        clock,
        None,
        false,
        in_pieces(log, false),
        &mut looks,
    )?;
    Ok(looks)
}

#[test]
fn breaches_are_told_as_they_come(rt: HostRuntime) -> Result<(), Fail> {
    let plan = planned(rt.alloc())?;
    let log =
        "(0.000000) can0 181#00112233\n(0.001000) can0 181#00112233\n(1.000000) can0 181#00112233\n";
    let Ok(looks) = looks_at(rt.alloc(), &plan, log) else {
        return Err(Fail::from("it is refused"));
    };
    assert!(rt; looks.told == 1);
    assert!(rt; looks.frames == 2);
    Ok(())
}
