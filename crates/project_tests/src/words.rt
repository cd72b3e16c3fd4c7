//! The words of calls with a project file.

use cop_frame::Rate;
use cop_project::{Choice, Project, is_said_twice, project_word, with_project};
use std::alloc::{AllocError, Global};
use std::test::Fail;

/// The words of a line, behind the program's name.
fn words_of(alloc: Global, line: &str) -> Result<Vec<String>, AllocError> {
    let mut words = Vec::new(alloc);
    words.push(String::from_str(alloc, "canplan")?)?;
    for word in line.split_whitespace() {
        words.push(String::from_str(alloc, word)?)?;
    }
    Ok(words)
}

/// The words behind the program's name, as a line.
fn line_of(alloc: Global, words: &[String]) -> Result<String, AllocError> {
    let mut line = String::new(alloc);
    for word in words.iter().skip(1) {
        if !line.is_empty() {
            line.push_str(" ")?;
        }
        line.push_str(word.as_str())?;
    }
    Ok(line)
}

/// A project of a table of settings, two rates and the greatest margin.
fn project(alloc: Global) -> Result<Project, AllocError> {
    let mut rates = Vec::new(alloc);
    rates.push(Rate::Kbit250)?;
    rates.push(Rate::Kbit500)?;
    Ok(Project {
        nodes: String::from_str(alloc, "n.csv")?,
        pdos: String::from_str(alloc, "/p.csv")?,
        setup: Some(String::from_str(alloc, "s.csv")?),
        rates,
        choice: Choice::Margin,
    })
}

/// What a line becomes; nothing where no word of it names a project file.
fn expanded(alloc: Global, line: &str, project: &Project) -> Result<String, AllocError> {
    let words = words_of(alloc, line)?;
    match project_word(&words) {
        Some(place) => line_of(alloc, &with_project(alloc, &words, place, project)?),
        None => Ok(String::new(alloc)),
    }
}

/// Lines, and what they become.
const EXPANDED: &[(&str, &str)] = &[
    (
        "plan c.toml out",
        "plan n.csv /p.csv --setup s.csv --rates 250,500 --margin out",
    ),
    (
        "boot --port /dev/a --json a/b/c.toml",
        "boot --port /dev/a --json a/b/n.csv /p.csv --setup a/b/s.csv --rates 250,500 --margin",
    ),
    (
        "export cdcf /c.toml out --manager 3",
        "export cdcf /n.csv /p.csv --setup /s.csv --rates 250,500 --margin out --manager 3",
    ),
    (
        "room --json /c.toml",
        "room --json /n.csv /p.csv --setup /s.csv --rates 250,500 --margin",
    ),
    (
        "watch --channel=can0.toml c.toml d.toml",
        "watch --channel=can0.toml n.csv /p.csv --setup s.csv --rates 250,500 --margin d.toml",
    ),
    (
        "report --log x.toml --strict c.toml out",
        "report --log x.toml --strict n.csv /p.csv --setup s.csv --rates 250,500 --margin out",
    ),
    ("plan n.csv p.csv out", ""),
    ("plan", ""),
    ("", ""),
    ("c.toml", ""),
    ("tidy c.toml", ""),
    ("test --rate 125 c.toml", ""),
    ("plan -c.toml out", ""),
    ("plan -- c.toml out", ""),
    ("judge --trace c.toml", ""),
    ("export c.toml dbc", ""),
    ("plan c.toml.csv out", ""),
];

/// Lines that say what a project file says, too, and whether they do.
const SAID_TWICE: &[(&str, bool)] = &[
    ("plan c.toml out", false),
    ("plan --margin c.toml out", true),
    ("plan c.toml --rates 250 out", true),
    ("plan c.toml out --rates=250", true),
    ("plan c.toml out --rate", false),
    ("plan c.toml out --setup s.csv", true),
    ("plan --setup=s.csv c.toml out", true),
    ("plan c.toml --setups out", false),
];

#[test]
fn words_are_expanded(rt: HostRuntime) -> Result<(), Fail> {
    let project = project(rt.alloc())?;
    for (line, said) in EXPANDED {
        assert_eq!(rt; expanded(rt.alloc(), line, &project)?.as_str(), *said);
    }
    Ok(())
}

#[test]
fn nothing_is_added_where_nothing_is_said(rt: HostRuntime) -> Result<(), Fail> {
    let alloc = rt.alloc();
    let project = Project {
        nodes: String::from_str(alloc, "n")?,
        pdos: String::from_str(alloc, "p")?,
        setup: None,
        rates: Vec::new(alloc),
        choice: Choice::Order,
    };
    assert_eq!(rt;
        expanded(alloc, "check d/c.toml r.csv", &project)?.as_str(),
        "check d/n d/p r.csv"
    );
    Ok(())
}

#[test]
fn what_is_said_twice_is_found(rt: HostRuntime) -> Result<(), Fail> {
    for (line, is_twice) in SAID_TWICE {
        let words = words_of(rt.alloc(), line)?;
        assert!(rt; is_said_twice(&words) == *is_twice);
    }
    Ok(())
}
