//! What is said of mistakes in a table of settings.

use crate::words::{PDOS, UNIT, files, text_of};
use cop_net::{PlanFault, all_rates, network, read_nodes, read_pdos, read_settings};
use cop_words::{Network, Source, network_words};
use std::alloc::Global;
use std::test::Fail;

const NODES: &str = "row,node,name,eds,period,jitter\ndevice,5,Valve,unit.eds,0,0\n";

/// Objects of the valve: a value with limits that has a name, one that nobody can write, and a text.
const VALUES: &str = "[2001]
ParameterName=Gain
DataType=0x0005
AccessType=rw
LowLimit=10
HighLimit=20
[2002]
DataType=0x0005
AccessType=ro
DefaultValue=1
[2003]
DataType=0x0009
AccessType=rw
";

/// Reads a network with a table of settings, and nothing more.
fn read(alloc: Global, files: Network<'_>) -> Result<(), PlanFault> {
    let nodes = read_nodes(alloc, files.nodes.text)?;
    let nodes = read_settings(alloc, nodes, files.settings.text)?;
    let pdos = read_pdos(alloc, files.pdos.text)?;
    network(alloc, files.wanted, &nodes, &pdos, files.eds_files)?;
    Ok(())
}

/// The valve's EDS text with the objects of the settings.
fn eds_text(alloc: Global) -> Result<String, Fail> {
    let lists = "SupportedObjects=1\n1=0x2000\n";
    let more = "SupportedObjects=4\n1=0x2000\n2=0x2001\n3=0x2002\n4=0x2003\n";
    match UNIT.split_once(lists) {
        Some((before, behind)) => Ok(format!(in alloc; "{before}{more}{behind}{VALUES}")?),
        None => Err(Fail::from("the device has another list")),
    }
}

/// The words on the valve's network with a text as its table of settings.
fn words(alloc: Global, settings: &str) -> Result<String, Fail> {
    let text = eds_text(alloc)?;
    let files = files(alloc, &[("unit.eds", text.as_str())])?;
    let network = Network {
        nodes: Source {
            name: "nodes.csv",
            text: NODES.as_bytes(),
        },
        pdos: Source {
            name: "pdos.csv",
            text: PDOS.as_bytes(),
        },
        settings: Source {
            name: "setup.csv",
            text: settings.as_bytes(),
        },
        eds_files: &files,
        wanted: &all_rates(),
    };
    match read(alloc, network) {
        Ok(()) => Ok(String::new(alloc)),
        Err(PlanFault::Refused(refusal)) => {
            text_of(alloc, &network_words(alloc, network, &refusal)?)
        }
        Err(PlanFault::Memory) => Err(Fail::from("no memory")),
    }
}

/// Rows of settings, what the words begin with, and what they have in them.
const MISTAKES: &[(&str, &str, &str)] = &[
    (
        "put,5,2001,10\n",
        "setup.csv, line 2: put,5,2001,10\n",
        "wanted in column row: set\n",
    ),
    (
        "set,5,201,10\n",
        "setup.csv, line 2: ",
        "wanted in column object: four hexadecimal digits",
    ),
    (
        "set,5,2001,ten\n",
        "setup.csv, line 2: ",
        "wanted in column value: a number",
    ),
    (
        "set,5,2001\n",
        "setup.csv, line 2: set,5,2001\n",
        "wanted are four fields: row,node,object,value\n",
    ),
    (
        "set,6,2001,10\n",
        "setup.csv, line 2: ",
        "its device row is missing\n",
    ),
    (
        "set,5,1017,100\n",
        "setup.csv, line 2: set,5,1017,100\n",
        "a plan sets this object, or relies on it\nrule 57: ",
    ),
    (
        "set,5,2001,10\nset,5,2001,11\n",
        "setup.csv, line 3: ",
        " node and object\n",
    ),
    (
        "set,5,2001,9\n",
        "setup.csv, line 2: set,5,2001,9\n",
        "object 2001h sub 0 is Gain: the value is below the low limit\nrule 54: ",
    ),
    (
        "set,5,2001,10\n\nset,5,2001.1,9\n",
        "setup.csv, line 4: ",
        "object 2001h sub 1: the device has no such object\nrule 55: ",
    ),
    (
        "set,5,2002,2\n",
        "setup.csv, line 2: ",
        "object 2002h sub 0: the object is read only\nrule 54: ",
    ),
    (
        "set,5,2003,2\n",
        "setup.csv, line 2: ",
        "object 2003h sub 0: its values are no numbers of 1, 2 or 4 bytes\nrule 55: ",
    ),
    (
        "set,5,2001,256\n",
        "setup.csv, line 2: ",
        "object 2001h sub 0 is Gain: its type has not this number\nrule 55: ",
    ),
];

#[test]
fn mistakes_in_the_table_of_settings(rt: HostRuntime) -> Result<(), Fail> {
    let alloc = rt.alloc();
    for case in MISTAKES {
        let (rows, begin, part) = *case;
        let text = format!(in alloc; "row,node,object,value\n{rows}")?;
        let said = words(alloc, text.as_str())?;
        assert!(rt; said.starts_with(begin), "{said}");
        assert!(rt; said.contains(part), "{said}");
    }
    Ok(())
}

#[test]
fn settings_without_a_mistake(rt: HostRuntime) -> Result<(), Fail> {
    let said = words(rt.alloc(), "row,node,object,value\nset,5,2001,10\n")?;
    assert!(rt; said.is_empty(), "{said}");
    let said = words(rt.alloc(), "row,node,value,object\n")?;
    let wanted = "setup.csv, line 1: row,node,value,object\n";
    assert!(rt; said.starts_with(wanted), "{said}");
    assert!(rt;
        said.contains("wanted as the first record: row,node,object,value\n"),
        "{said}"
    );
    Ok(())
}
