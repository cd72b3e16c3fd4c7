//! The greatest tables that are taken, a network of 512 PDOs of which one rate is refused with all, and one of 127 nodes
//! with as many and an EDS file for each, which is booted and run.

ghost use Rattle.std.specs.Prelude.{◌≤◌, ◌<◌};

use crate::engine::{by, plan_of};
use cop_engine::{Fault, Files, boot_bytes, check_bytes, judge_bytes, run_bytes, test_bytes};
use cop_frame::Rate;
use cop_net::all_rates;
use cop_plan::Choice;
use std::alloc::{AllocError, Global};
use std::fmt::Write;
use std::str;
use std::test::Fail;

/// A number, and what stands after it.
fn push_number(text: &mut String, number: u16, after: &str) -> Result<(), AllocError> {
    write!(text, "{number}{after}")
}

/// A record's index, and what stands before and after it.
fn push_index(text: &mut String, before: &str, index: u16, after: &str) -> Result<(), AllocError> {
    write!(text, "{before}{index:04X}{after}")
}

/// A table of streams under the identifiers 0, 1, .., each sent once a minute.
fn streams(alloc: Global, count: u16) -> Result<String, AllocError> {
    let mut text = String::from_str(alloc, "id,bytes,period,jitter,deadline\n")?;
    for id in 0..count {
        push_number(&mut text, id, ",0,60000000,0,\n")?;
    }
    Ok(text)
}

#[test]
fn eleven_hundred_streams_and_one_more(rt: HostRuntime) -> Result<(), Fail> {
    let most = streams(rt.alloc(), 1100)?;
    let (report, _) = test_bytes(rt.alloc(), most.as_bytes(), Rate::Kbit1000)?;
    let lines = report.iter().filter(|byte| **byte == b'\n').count();
    assert!(rt; lines == 1100);
    let more = streams(rt.alloc(), 1101)?;
    let is_refused = matches!(
        test_bytes(rt.alloc(), more.as_bytes(), Rate::Kbit1000),
        Err(Fault::Refused {
            number: 6,
            place: 1101
        })
    );
    assert!(rt; is_refused);
    Ok(())
}

/// How many PDOs there are.
const PDOS: u16 = 512;

/// The communication and the mapping record of a PDO that sends the 64 bits of 2000h.
fn push_pdo(text: &mut String, pdo: u16) -> Result<(), AllocError>
    requires { pdo < 512 }
{
    let (record, mapping) = (0x1800 + pdo, 0x1A00 + pdo);
    push_index(text, "[", record, "]\nObjectType=9\n")?;
    push_index(
        text,
        "[",
        record,
        "sub1]\nDataType=7\nAccessType=rw\nDefaultValue=0x80000000\n",
    )?;
    push_index(
        text,
        "[",
        record,
        "sub2]\nDataType=5\nAccessType=rw\nDefaultValue=255\n",
    )?;
    push_index(text, "[", mapping, "]\nObjectType=9\n")?;
    push_index(
        text,
        "[",
        mapping,
        "sub0]\nDataType=5\nAccessType=ro\nDefaultValue=1\n",
    )?;
    push_index(
        text,
        "[",
        mapping,
        "sub1]\nDataType=7\nAccessType=ro\nDefaultValue=0x20000040\n",
    )
}

/// Where the lists name the two records of a PDO.
fn push_listed(text: &mut String, pdo: u16) -> Result<(), AllocError>
    requires { pdo < 512 }
{
    push_number(text, 2 * pdo + 2, "=")?;
    push_index(text, "0x", 0x1800 + pdo, "\n")?;
    push_number(text, 2 * pdo + 3, "=")?;
    push_index(text, "0x", 0x1A00 + pdo, "\n")
}

/// The description of a device with so many PDOs, at 500 and 1000 kbit/s.
fn device(alloc: Global, each: u16) -> Result<String, AllocError>
    requires { each ≤ 512 }
{
    let mut text = String::from_str(
        alloc,
        "[DeviceInfo]\nBaudRate_500=1\nBaudRate_1000=1\n[OptionalObjects]\n",
    )?;
    text.push_str("SupportedObjects=")?;
    push_number(&mut text, 2 * each + 1, "\n1=0x2000\n")?;
    for pdo in 0..each {
        push_listed(&mut text, pdo)?;
    }
    text.push_str("[2000]\nDataType=0x1B\nAccessType=ro\nPDOMapping=1\n")?;
    for pdo in 0..each {
        push_pdo(&mut text, pdo)?;
    }
    Ok(text)
}

/// The nodes from 1 to some number, all with that device, each by an EDS file of its own.
fn nodes(alloc: Global, count: u16) -> Result<String, AllocError> {
    let mut text = String::from_str(alloc, "row,node,name,eds,period,jitter\n")?;
    for node in 1..=count {
        write!(text, "device,{node},Device,many-{node}.eds,0,0\n")?;
    }
    Ok(text)
}

/// The EDS file of a node.
fn eds_file(alloc: Global, node: u16, text: &[u8]) -> Result<(String, Vec<u8>), AllocError> {
    let name = format!(in alloc; "many-{node}.eds")?;
    Ok((name, Vec::from_slice(alloc, text)?))
}

/// The EDS files of the nodes from 1 to some number.
fn eds_files(alloc: Global, count: u16, text: &[u8]) -> Result<Vec<(String, Vec<u8>)>, AllocError> {
    let mut files = Vec::new(alloc);
    for node in 1..=count {
        files.push(eds_file(alloc, node, text)?)?;
    }
    Ok(files)
}

/// Their PDOs, the first of each node and then the second, until there are 512: each has a period of a second, and a
/// deadline that 512 of them just meet at 1000 kbit/s.
fn pdos(alloc: Global, each: u16, count: u16) -> Result<String, AllocError> {
    let mut text = String::from_str(alloc, "node,tpdo,period,jitter,deadline,consumers\n")?;
    let mut left = PDOS;
    for tpdo in 1..=each {
        for node in 1..=count {
            if left > 0 {
                left -= 1;
                write!(text, "{node},{tpdo},1000000,0,69120,\n")?;
            }
        }
    }
    Ok(text)
}

/// The tables of a network, and the EDS files of its devices.
#[derive(Drop)]
struct Sources {
    nodes: String,
    pdos: String,
    eds: Vec<(String, Vec<u8>)>,
}

/// The network of so many nodes, whose devices have so many PDOs each.
fn network(alloc: Global, each: u16, count: u16) -> Result<Sources, AllocError>
    requires { each ≤ 512 }
{
    let text = device(alloc, each)?;
    Ok(Sources {
        nodes: nodes(alloc, count)?,
        pdos: pdos(alloc, each, count)?,
        eds: eds_files(alloc, count, text.as_bytes())?,
    })
}

/// The files of its plan.
fn planned(alloc: Global, network: &Sources) -> Result<Files, Fault> {
    plan_of(
        alloc,
        network.nodes.as_bytes(),
        network.pdos.as_bytes(),
        &network.eds,
    )
}

/// What a check says of refusals.
fn checked(alloc: Global, network: &Sources, refusals: &[u8]) -> Result<(Vec<u8>, bool), Fault> {
    check_bytes(
        alloc,
        &all_rates(),
        network.nodes.as_bytes(),
        network.pdos.as_bytes(),
        &network.eds,
        refusals,
    )
}

#[test]
fn a_rate_is_refused_with_512_pdos(rt: HostRuntime) -> Result<(), Fail> {
    let network = network(rt.alloc(), 64, 8)?;
    let files = planned(rt.alloc(), &network)?;
    let (first, last) = (
        b"rate 1000\npdo 1.1 id 181h response 1080\n",
        b"pdo 8.64 id 380h response 276480\nrefused 500 members 512\n",
    );
    assert!(rt; files.plan.starts_with(first) && files.plan.ends_with(last));
    let (lines, hold) = checked(rt.alloc(), &network, &files.refusals)?;
    assert!(rt; lines.as_slice() == b"500 holds\n".as_slice() && hold);
    Ok(())
}

/// What is said of a boot of the nodes from 1 to some number that are ready.
fn all_ready(alloc: Global, count: u16) -> Result<String, AllocError> {
    let mut text = String::new(alloc);
    for node in 1..=count {
        write!(text, "node {node} ready\n")?;
    }
    text.push_str("started\n")?;
    Ok(text)
}

/// What is said of the network's boot.
fn booted(alloc: Global, network: &Sources) -> Result<Vec<u8>, Fault> {
    boot_bytes(
        alloc,
        1,
        network.nodes.as_bytes(),
        network.pdos.as_bytes(),
        &network.eds,
        &by(Choice::Order),
    )
}

/// The text and the trace of the network's run for 250 seconds.
fn run(alloc: Global, network: &Sources) -> Result<(Vec<u8>, Vec<u8>), Fault> {
    run_bytes(
        alloc,
        42,
        250_000_000,
        network.nodes.as_bytes(),
        network.pdos.as_bytes(),
        &network.eds,
        &by(Choice::Order),
    )
}

/// What is said of a trace of the network.
fn judged(alloc: Global, network: &Sources, trace: &[u8]) -> Result<Vec<u8>, Fault> {
    judge_bytes(
        alloc,
        network.nodes.as_bytes(),
        network.pdos.as_bytes(),
        &network.eds,
        &by(Choice::Order),
        trace,
    )
}

/// How many transfers a run has of which it is said that all are on time.
fn transfers_in(text: &[u8]) -> Option<u64> {
    let text = str::from_utf8(text).ok()?;
    let number = text
        .strip_prefix("transfers ")?
        .strip_suffix("\non time\n")?;
    number.parse().ok()
}

// Each PDO has its first instance in the first second, and each other 1.125 seconds at most after the one before: 222 at
// least.
#[test]
fn a_network_of_127_nodes_is_booted_and_run(rt: HostRuntime) -> Result<(), Fail> {
    let network = network(rt.alloc(), 5, 127)?;
    let text = booted(rt.alloc(), &network)?;
    assert!(rt; text.as_slice() == all_ready(rt.alloc(), 127)?.as_bytes());
    let (text, trace) = run(rt.alloc(), &network)?;
    let transfers = transfers_in(&text).ok_or("not on time")?;
    assert!(rt; transfers >= 512 * 222);
    assert!(rt; judged(rt.alloc(), &network, &trace)? == text);
    Ok(())
}
