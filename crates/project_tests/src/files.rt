//! What a project file says, and where one is refused.

use cop_project::{Choice, Project, ProjectFault, Refusal, read_project};
use std::alloc::{AllocError, Global};
use std::test::Fail;

/// What a project says, as a line.
fn told(alloc: Global, project: &Project) -> Result<String, AllocError> {
    let (nodes, pdos) = (project.nodes.as_str(), project.pdos.as_str());
    let mut text = format!(in alloc; "{nodes} {pdos}")?;
    if let Some(setup) = &project.setup {
        write!(text, " setup {setup}")?;
    }
    for rate in project.rates.iter() {
        let kbits = rate.kbits();
        write!(text, " {kbits}")?;
    }
    match project.choice {
        Choice::Order => {}
        Choice::Margin => text.push_str(" margin")?,
    }
    Ok(text)
}

/// Why a text is refused, as a line, where it is not for want of memory.
fn refused(alloc: Global, fault: &ProjectFault) -> Result<String, AllocError> {
    match fault.refusal() {
        Some(Refusal { number, line }) => format!(in alloc; "refused {number} {line}"),
        None => Err(AllocError),
    }
}

/// What a text says, or why it is refused.
fn answer(alloc: Global, text: &[u8]) -> Result<String, AllocError> {
    match read_project(alloc, text) {
        Ok(project) => told(alloc, &project),
        Err(fault) => refused(alloc, &fault),
    }
}

/// Texts, and what they say.
const SAID: &[(&[u8], &str)] = &[
    (b"nodes = \"n.csv\"\npdos = \"p.csv\"\n", "n.csv p.csv"),
    (b"pdos='p' # the rows\nnodes='n'\nchoice = \"order\"", "n p"),
    (
        b"nodes = \"n\"\npdos = \"p\"\nrates = [250, 500]\nchoice = \"margin\"\n",
        "n p 250 500 margin",
    ),
    (
        b"nodes = \"n\"\npdos = \"p\"\nrates = [\n  1000,\n  10,\n]\n",
        "n p 1000 10",
    ),
    (
        b"nodes = \"n\"\npdos = \"p\"\nsetup = \"s.csv\"\nrates = [10]\n",
        "n p setup s.csv 10",
    ),
    (b"\"nodes\" = \"/a b/n\"\npdos = \"../p\"\n", "/a b/n ../p"),
];

/// Texts that are refused, with the number of the rule and the line.
const REFUSED: &[(&[u8], &str)] = &[
    (b"nodes = n.csv\n", "refused 150 1"),
    (
        b"nodes = \"n\"\npdos = \"p\"\npdos = \"q\"\n",
        "refused 150 3",
    ),
    (b"nodes = \"n\"\npdos = \"\xff\"\n", "refused 150 2"),
    (b"", "refused 151 0"),
    (b"nodes = \"n\"\n", "refused 151 0"),
    (b"pdos = \"p\"\n", "refused 151 0"),
    (
        b"nodes = \"n\"\npdos = \"p\"\nrate = [250]\n",
        "refused 151 3",
    ),
    (b"nodes = \"n\"\npdos = \"p\"\n[frames]\n", "refused 151 3"),
    (b"nodes = [\"n\"]\npdos = \"p\"\n", "refused 151 1"),
    (
        b"nodes = \"n\"\npdos = \"p\"\nrates = 250\n",
        "refused 151 3",
    ),
    (
        b"nodes = \"n\"\npdos = \"p\"\nrates = [\"250\"]\n",
        "refused 151 3",
    ),
    (
        b"nodes = \"n\"\npdos = \"p\"\nchoice = true\n",
        "refused 151 3",
    ),
    (b"nodes = \"n\"\npdos = \"p\"\nsetup = 5\n", "refused 151 3"),
    (
        b"nodes = \"n\"\npdos = \"p\"\nsetup = \"\"\n",
        "refused 152 3",
    ),
    (
        b"rates = 5\nnodes = \"n\"\npdos = \"p\"\nsetup = \"-s\"\n",
        "refused 152 4",
    ),
    (b"nodes = \"\"\npdos = \"p\"\n", "refused 152 1"),
    (b"nodes = \"n\"\npdos = \"a\\nb\"\n", "refused 152 2"),
    (b"nodes = \"n\"\n\npdos = \"--margin\"\n", "refused 152 3"),
    (
        b"nodes = \"n\"\npdos = \"p\"\nrates = []\n",
        "refused 152 3",
    ),
    (
        b"nodes = \"n\"\npdos = \"p\"\nrates = [250, 251]\n",
        "refused 152 3",
    ),
    (
        b"nodes = \"n\"\npdos = \"p\"\nrates = [-250]\n",
        "refused 152 3",
    ),
    (
        b"nodes = \"n\"\npdos = \"p\"\nchoice = \"row\"\n",
        "refused 152 3",
    ),
];

#[test]
fn texts_are_read(rt: HostRuntime) -> Result<(), Fail> {
    for (text, said) in SAID {
        assert_eq!(rt; answer(rt.alloc(), text)?.as_str(), *said);
    }
    Ok(())
}

#[test]
fn texts_are_refused(rt: HostRuntime) -> Result<(), Fail> {
    for (text, said) in REFUSED {
        assert_eq!(rt; answer(rt.alloc(), text)?.as_str(), *said);
    }
    Ok(())
}
