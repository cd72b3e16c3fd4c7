//! The head of a page: its title, the rate and the cable that it allows, the date, the program and the files that were read.

use crate::cable::longest_cable;
use crate::page::{Input, Report};
use crate::units::{Count, Escaped};
use cop_frame::Rate;
use std::alloc::AllocError;
use std::fmt;

/// The version of the program, as pages name it. The command line has the same (`commands.rt` of `cop_cli_args`).
pub const VERSION: &str = "0.1.0";

/// A SHA-256 in hexadecimal.
#[derive(Clone, Copy)]
struct Digits<'a>(&'a [u8; 32]);

impl fmt::Display for Digits<'_> {
    fn fmt<W: fmt::Write>(&self, f: &mut fmt::Formatter<W>) -> fmt::Result {
        for byte in self.0.iter() {
            write!(f, "{byte:02x}")?;
        }
        Ok(())
    }
}

/// The name of the folder of a file, or the file's own name if the call names no folder.
fn folder_of(name: &str) -> &str {
    let Some((folder, _file)) = name.rsplit_once('/') else {
        return name;
    };
    match folder.rsplit_once('/') {
        Some((_above, last)) => last,
        None => folder,
    }
}

/// The title: that of the call, or else the folder of the first table.
fn title_of<'a>(report: Report<'a, '_>) -> &'a str {
    match (report.title, report.inputs.first()) {
        (Some(title), _) => title,
        (None, Some(table)) => folder_of(table.name),
        (None, None) => "CANopen plan",
    }
}

/// Adds what the browser shows as the name of the page.
pub(crate) fn push_name(page: &mut String, report: Report<'_, '_>) -> Result<(), AllocError> {
    let title = Escaped(title_of(report));
    write!(page, "<title>{title}: CANopen plan</title>\n")
}

/// Adds the title, and the rate in large.
pub(crate) fn push_title(page: &mut String, report: Report<'_, '_>) -> Result<(), AllocError> {
    let title = Escaped(title_of(report));
    write!(page, "<p class=\"soft\">CANopen plan</p>\n<h1>{title}: ")?;
    match report.figures.rate {
        Some(rate) => {
            let kbits = rate.kbits();
            write!(
                page,
                "<span class=\"good\">{kbits}&nbsp;kbit/s</span></h1>\n"
            )
        }
        None => page.push_str("<span class=\"bad\">no rate passes</span></h1>\n"),
    }
}

/// Adds the rate, and the cable that it allows.
fn push_rate(page: &mut String, rate: Rate) -> Result<(), AllocError> {
    let (kbits, meters) = (rate.kbits(), longest_cable(rate));
    write!(
        page,
        "<div><dt>Rate</dt><dd>{kbits} kbit/s</dd></div>\n\
<div><dt>Cable</dt><dd>{meters} m at most <small>(CiA 303-1)</small></dd></div>\n"
    )
}

/// Adds the files that were read, with their sizes and checksums.
fn push_files(page: &mut String, inputs: &[Input<'_>]) -> Result<(), AllocError> {
    let files = Count {
        number: inputs.len(),
        thing: "file",
    };
    write!(
        page,
        "<details id=\"files\"><summary>Made of {files}, with sizes and SHA-256</summary>\n<div class=\"scroll\"><table>\n\
<thead><tr><th>File</th><th class=\"n\">Bytes</th><th>SHA-256</th></tr></thead>\n<tbody>\n"
    )?;
    for input in inputs {
        let (name, size, digits) = (Escaped(input.name), input.size, Digits(&input.digest));
        write!(
            page,
            "<tr><td>{name}</td><td class=\"n\">{size}</td><td><code>{digits}</code></td></tr>\n"
        )?;
    }
    page.push_str("</tbody></table></div></details>\n")
}

/// Adds the date, if the call says one.
pub(crate) fn push_date(page: &mut String, date: Option<&str>) -> Result<(), AllocError> {
    match date {
        Some(date) => {
            let date = Escaped(date);
            write!(page, "<div><dt>Date</dt><dd>{date}</dd></div>\n")
        }
        None => Ok(()),
    }
}

/// Adds the program.
pub(crate) fn push_program(page: &mut String) -> Result<(), AllocError> {
    write!(
        page,
        "<div><dt>Program</dt><dd>canplan {VERSION}</dd></div>\n"
    )
}

/// Adds the title block.
pub(crate) fn push_block(page: &mut String, report: Report<'_, '_>) -> Result<(), AllocError> {
    page.push_str("<dl class=\"block\">\n")?;
    if let Some(rate) = report.figures.rate {
        push_rate(page, rate)?;
    }
    push_date(page, report.date)?;
    push_program(page)?;
    page.push_str("</dl>\n")?;
    push_files(page, report.inputs)
}
