//! A network, and its report.

ghost use Rattle.std.specs.Prelude.{length};
ghost use Rattle.cop_figures.specs.Figures.{AreFigures};
ghost use Rattle.cop_plan.specs.Plans.{IsOutcome};

use cop_figures::{
    Breakdown, Figures, Timeline, Unsorted, breakdowns_of, figures_of, timeline_of, unsorted_of,
};
use cop_net::{Network, NodeTable, PdoTable, all_rates, network, read_nodes, read_pdos};
use cop_plan::{Choice, Outcome, Plan, plan};
use cop_report::{Input, Report, page_of};
use std::alloc::{AllocError, Global};
use std::process::Abort;
use std::test::Fail;

/// A device that sends one PDO of 64 bits, has another that no row uses, and can take one.
const UNIT: &str = "[DeviceInfo]
BaudRate_250=1
BaudRate_500=1
[OptionalObjects]
SupportedObjects=6
1=0x1017
2=0x1400
3=0x1600
4=0x1800
5=0x1801
6=0x1A00
[ManufacturerObjects]
SupportedObjects=2
1=0x2000
2=0x2001
[1017]
DataType=0x0006
AccessType=rw
[1400]
ObjectType=9
[1400sub1]
DataType=7
AccessType=rw
DefaultValue=$NODEID+0x80000200
[1600]
ObjectType=9
[1600sub0]
DataType=5
AccessType=rw
DefaultValue=2
[1600sub1]
DataType=7
AccessType=rw
DefaultValue=0x20000020
[1600sub2]
DataType=7
AccessType=rw
DefaultValue=0x20010020
[1800]
ObjectType=9
[1800sub1]
DataType=7
AccessType=rw
DefaultValue=$NODEID+0x40000180
[1800sub2]
DataType=5
AccessType=rw
DefaultValue=255
[1801]
ObjectType=9
[1801sub1]
DataType=7
AccessType=rw
DefaultValue=$NODEID+0x40000280
[1A00]
ObjectType=9
[1A00sub0]
DataType=5
AccessType=rw
DefaultValue=2
[1A00sub1]
DataType=7
AccessType=rw
DefaultValue=0x20000020
[1A00sub2]
DataType=7
AccessType=rw
DefaultValue=0x20010020
[2000]
ParameterName=Set <value>
DataType=7
AccessType=rw
PDOMapping=1
[2001]
DataType=7
AccessType=rw
PDOMapping=1
";

const NODES: &str = "row,node,name,eds,period,jitter
device,5,Valve,unit.eds,0,0
emcy,5,,,100000,0
heartbeat,5,,,100000,0
";

/// A deadline of 670 us needs 500 kbit/s.
pub const PDOS: &str = "node,tpdo,period,jitter,deadline,consumers\n5,1,10000,0,670,\n";

/// No rate of the device is fast enough for a deadline of 400 us.
pub const STRICT: &str = "node,tpdo,period,jitter,deadline,consumers\n5,1,10000,0,400,\n";

/// The tables of a network, and the transmission type of what its devices send.
#[derive(Clone, Copy)]
pub struct Tables<'a> {
    pub transmission: &'a str,
    pub nodes: &'a str,
    pub pdos: &'a str,
}

/// The EDS files of a network.
fn eds_files(alloc: Global, transmission: &str) -> Result<Vec<(String, Vec<u8>)>, Fail> {
    let (before, after) = UNIT.split_once("DefaultValue=255").ok_or("no such part")?;
    let text = format!(in alloc; "{before}DefaultValue={transmission}{after}")?;
    let mut files = Vec::new(alloc);
    files.push((
        String::from_str(alloc, "unit.eds")?,
        Vec::from_slice(alloc, text.as_bytes())?,
    ))?;
    Ok(files)
}

/// The tables of a network as they are read.
fn read_tables(alloc: Global, tables: Tables<'_>) -> Result<(NodeTable, PdoTable), Fail> {
    let nodes = read_nodes(alloc, tables.nodes.as_bytes())?;
    Ok((nodes, read_pdos(alloc, tables.pdos.as_bytes())?))
}

/// The bus over time under a plan.
pub fn timeline_under(alloc: Global, plan: &Plan, trace: &str) -> Result<Timeline, Fail> {
    Ok(timeline_of(alloc, plan, trace.as_bytes())?)
}

/// The bus over time, where there are a plan and a trace.
fn timeline(
    alloc: Global,
    outcome: &Outcome,
    trace: Option<&str>,
) -> Result<Option<Timeline>, Fail> {
    match (outcome, trace) {
        (Outcome::Planned(plan), Some(trace)) => Ok(Some(timeline_under(alloc, plan, trace)?)),
        _ => Ok(None),
    }
}

/// The file that the page names.
const INPUTS: &[Input<'static>] = &[Input {
    name: "a<b>&\"c\".csv",
    size: 117,
    digest: [171; 32],
}];

/// The parts of the response of each PDO, where there is a plan.
fn breakdowns(
    alloc: Global,
    network: &Network<'_>,
    outcome: &Outcome,
    figures: &Figures,
) -> Result<Vec<Breakdown>, AllocError>
    requires { AreFigures network.now outcome.now figures.now }
{
    match outcome {
        Outcome::Planned(plan) => breakdowns_of(alloc, plan, &figures.pdos),
        Outcome::Refused(_) => Ok(Vec::new(alloc)),
    }
}

/// The PDOs if controllers do not sort, where there is a plan.
fn unsorted(
    alloc: Global,
    network: &Network<'_>,
    outcome: &Outcome,
) -> Result<Vec<Unsorted>, AllocError> {
    match outcome {
        Outcome::Planned(plan) => unsorted_of(alloc, network, plan),
        Outcome::Refused(_) => Ok(Vec::new(alloc)),
    }
}

/// The page of a report.
fn page<'a>(
    alloc: Global,
    network: &'a Network<'_>,
    outcome: &'a Outcome,
    figures: &'a Figures,
    breakdowns: &'a [Breakdown],
    unsorted: &'a [Unsorted],
    timeline: Option<&'a Timeline>,
    eds_files: &'a [(String, Vec<u8>)],
) -> Result<String, AllocError>
    requires { IsOutcome network.now.equipment.rates network.now.set (length network.now.rows) outcome.now }
{
    page_of(
        alloc,
        Report {
            title: None,
            date: Some("2 May & 3"),
            network,
            outcome,
            figures,
            breakdowns,
            unsorted,
            misses: &[],
            timeline,
            log: None,
            are_rates_listed: false,
            warnings: "",
            inputs: INPUTS,
            eds_files,
        },
    )
}

/// The page of a network, of what came of it and of its numbers.
fn page_with(
    alloc: Global,
    network: &Network<'_>,
    outcome: &Outcome,
    figures: &Figures,
    trace: Option<&str>,
    eds_files: &[(String, Vec<u8>)],
) -> Result<String, Fail>
    requires planned { IsOutcome network.now.equipment.rates network.now.set (length network.now.rows) outcome.now }
    requires counted { AreFigures network.now outcome.now figures.now }
{
    let breakdowns = breakdowns(alloc, network, outcome, figures)?;
    let unsorted = unsorted(alloc, network, outcome)?;
    let timeline = timeline(alloc, outcome, trace)?;
    Ok(page(
        alloc,
        network,
        outcome,
        figures,
        &breakdowns,
        &unsorted,
        timeline.as_ref(),
        eds_files,
    )?)
}

/// The numbers of what came of a network, and its page.
fn told(
    alloc: Global,
    network: &Network<'_>,
    outcome: &Outcome,
    trace: Option<&str>,
    eds_files: &[(String, Vec<u8>)],
) -> Result<(Figures, String), Fail>
    requires { IsOutcome network.now.equipment.rates network.now.set (length network.now.rows) outcome.now }
{
    let figures = figures_of(alloc, network, outcome)?;
    let page = page_with(alloc, network, outcome, &figures, trace, eds_files)?;
    Ok((figures, page))
}

/// The numbers of a network and its page, with the bus over time where there is a trace.
pub fn report_of(
    alloc: Global,
    tables: Tables<'_>,
    trace: Option<&str>,
) -> Result<(Figures, String), Fail> {
    let (nodes, pdos) = read_tables(alloc, tables)?;
    let files = eds_files(alloc, tables.transmission)?;
    let network = network(alloc, &all_rates(), &nodes, &pdos, &files)?;
    let outcome = plan(alloc, &network, Choice::Order)?;
    told(alloc, &network, &outcome, trace, &files)
}

/// The network of one valve.
fn valve(pdos: &str) -> Tables<'_> {
    Tables {
        transmission: "255",
        nodes: NODES,
        pdos,
    }
}

/// The same of the network of one valve.
pub fn report(alloc: Global, pdos: &str, trace: Option<&str>) -> Result<(Figures, String), Fail> {
    report_of(alloc, valve(pdos), trace)
}

/// The numbers of the network of one valve.
pub fn valve_figures(alloc: Global, pdos: &str) -> Result<Figures, Fail> {
    let (figures, _page) = report(alloc, pdos, None)?;
    Ok(figures)
}

/// The page of the network of one valve.
pub fn valve_page(alloc: Global, pdos: &str, trace: Option<&str>) -> Result<String, Fail> {
    let (_figures, page) = report(alloc, pdos, trace)?;
    Ok(page)
}

/// Each of these texts stands in a page.
pub fn assert_says(rt: &impl Abort, page: &str, said: &[&str]) {
    for part in said {
        assert!(rt; page.contains(*part), "{part}");
    }
}

/// The plan of that network.
pub fn planned(alloc: Global) -> Result<Plan, Fail> {
    let (nodes, pdos) = read_tables(alloc, valve(PDOS))?;
    let files = eds_files(alloc, "255")?;
    let network = network(alloc, &all_rates(), &nodes, &pdos, &files)?;
    match plan(alloc, &network, Choice::Order)? {
        Outcome::Planned(plan) => Ok(plan),
        Outcome::Refused(_) => Err(Fail::from("no rate passes")),
    }
}
