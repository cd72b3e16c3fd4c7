//! All EDS files of a folder, made such that plan reads them.

use crate::tidying::{Answer, answer_for, check_name, words_of};
use crate::words::is_same;
use cop_files::{Failure, Form, eds_names, print, read_file, write_file};
use cop_orders::TidyOrder;
use cop_tidy::{Refusal, Tidied, Words, told};
use cop_words::{Source, maker_words};
use std::io::Write;

/// An EDS file of the folder, made one that plan reads.
#[derive(Drop)]
struct Mended {
    name: String,
    tidied: Tidied,
}

/// Says of a file of the folder that it is refused, in words too where they are wanted.
fn tell_refused(
    rt: &HostRuntime,
    name: &str,
    text: &[u8],
    refusal: Refusal,
    form: Form,
) -> Result<(), Failure> {
    let alloc = rt.alloc();
    let (number, line) = (refusal.question.number(), refusal.line);
    let fault = format!(in alloc; "canplan: refused {number} {line} {name}\n")?;
    let _ = rt.stderr().write_all(fault.as_bytes());
    if form == Form::Told {
        let words = maker_words(alloc, Source { name, text }, number, line)?;
        let _ = rt.stderr().write_all(&words);
    }
    Ok(())
}

/// What becomes of a file of the folder; nothing of one that is refused, which is said.
fn mend_file(
    rt: &HostRuntime,
    folder: &str,
    words: &Words,
    name: &str,
    form: Form,
) -> Result<Option<Tidied>, Failure> {
    let path = format!(in rt.alloc(); "{folder}/{name}")?;
    let text = read_file(rt, &path)?;
    match answer_for(rt.alloc(), &text, words)? {
        Answer::Tidied(tidied) => Ok(Some(tidied)),
        Answer::Refused(refusal) => {
            tell_refused(rt, name, &text, refusal, form)?;
            Ok(None)
        }
    }
}

/// What becomes of the files of a folder, and whether some file is refused.
fn mend_files(
    rt: &HostRuntime,
    order: TidyOrder<'_>,
    names: Vec<String>,
    form: Form,
) -> Result<(Vec<Mended>, bool), Failure> {
    let mut files = Vec::new(rt.alloc());
    let mut is_refused = false;
    let words = words_of(rt.alloc(), order.choices)?;
    for name in names {
        match mend_file(rt, order.input, &words, &name, form)? {
            Some(tidied) => files.push(Mended { name, tidied })?,
            None => is_refused = true,
        }
    }
    Ok((files, is_refused))
}

/// Tells the changes of a file, each with its name before it.
fn tell_changes(rt: &HostRuntime, file: &Mended) -> Result<(), Failure> {
    let words = told(rt.alloc(), &file.tidied)?;
    let mut lines = Vec::new(rt.alloc());
    for line in words.split(|byte| *byte == b'\n') {
        if line.is_empty() {
            continue;
        }
        lines.extend_from_slice(file.name.as_bytes())?;
        lines.extend_from_slice(b": ")?;
        lines.extend_from_slice(line)?;
        lines.push(b'\n')?;
    }
    print(rt, &lines)
}

fn write_files(rt: &HostRuntime, folder: &str, files: &[Mended]) -> Result<(), Failure> {
    for file in files {
        let name = &file.name;
        let path = format!(in rt.alloc(); "{folder}/{name}")?;
        write_file(rt, &path, &file.tidied.text)?;
    }
    Ok(())
}

/// Tells the changes of all files, and writes the files where that is wanted and none is refused: the status.
fn finish(
    rt: &HostRuntime,
    order: TidyOrder<'_>,
    files: &[Mended],
    is_refused: bool,
) -> Result<u8, Failure> {
    for file in files {
        tell_changes(rt, file)?;
    }
    match order.out {
        Some(out) if !is_refused => {
            write_files(rt, out, files)?;
            Ok(0)
        }
        _ => {
            let is_same = files.iter().all(|file| is_same(&file.tidied));
            Ok(if is_same && !is_refused { 0 } else { 3 })
        }
    }
}

/// Makes of each EDS file of a folder one that plan reads, under its own name in another folder. Each change is told with the
/// file's name. Where a file is refused, or has a name that the table of nodes does not take, nothing is written.
pub(crate) fn tidy_folder(
    rt: &HostRuntime,
    order: TidyOrder<'_>,
    form: Form,
) -> Result<u8, Failure> {
    let names = eds_names(rt, order.input)?;
    if order.out.is_some() {
        for name in names.as_slice() {
            check_name(rt.alloc(), name)?;
        }
    }
    let (files, is_refused) = mend_files(rt, order, names, form)?;
    finish(rt, order, &files, is_refused)
}
