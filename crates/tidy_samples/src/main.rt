//! Tries `tidy` on samples of EDS files as makers write them: each has to become the text, with the changes told, that lie
//! beside it, or to be refused.
#![tactic(auto)]

use cop_frame::Rate;
use cop_tidy::{Access, Digits, TidyFault, Unlisted, Words, tidy, told};
use std::{fs, io};

/// The choices that a word stands for.
fn words_of(rt: &HostRuntime, word: &str) -> io::Result<Words> {
    let mut words = Words::none(rt.alloc());
    match word {
        "--octal" => words.digits = Some(Digits::Octal),
        "--decimal" => words.digits = Some(Digits::Decimal),
        "--access rw" => words.access = Some(Access::ReadWrite),
        "--unlisted add" => words.unlisted = Some(Unlisted::Add),
        "--unlisted leave" => words.unlisted = Some(Unlisted::Leave),
        "--rates 125,250" => words
            .rates
            .extend_from_slice(&[Rate::Kbit125, Rate::Kbit250])?,
        _ => {}
    }
    Ok(words)
}

/// Compares a text and the changes that were told with those of the sample.
fn compare(rt: &HostRuntime, name: &str, text: &[u8], told: &[u8]) -> io::Result<()> {
    let wanted = fs::read(rt, format!(in rt.alloc(); "{name}/out.eds")?.as_str())?;
    let told_wanted = fs::read(rt, format!(in rt.alloc(); "{name}/told.txt")?.as_str())?;
    if text != wanted.as_slice() {
        return println!(rt; "{name}: other bytes");
    }
    if told != told_wanted.as_slice() {
        return println!(rt; "{name}: other changes told");
    }
    println!(rt; "{name}: as it is to be")
}

/// Tries a sample.
fn try_sample(rt: &HostRuntime, name: &str, word: &str) -> io::Result<()> {
    let text = fs::read(rt, format!(in rt.alloc(); "{name}/in.eds")?.as_str())?;
    match tidy(rt.alloc(), &text, &words_of(rt, word)?) {
        Ok(tidied) => {
            let told = told(rt.alloc(), &tidied)?;
            compare(rt, name, &tidied.text, &told)
        }
        Err(TidyFault::Refused(refusal)) => {
            let number = refusal.question.number();
            let line = refusal.line;
            println!(rt; "{name}: refused {number} {line}")
        }
        Err(TidyFault::Memory) => println!(rt; "{name}: out of memory"),
    }
}

fn main(rt: HostRuntime) -> io::Result<()> {
    let list = fs::read_to_string(&rt, "list")?;
    for line in list.as_str().lines() {
        match line.split_once(' ') {
            Some((name, word)) => try_sample(&rt, name, word)?,
            None => try_sample(&rt, line, "")?,
        }
    }
    Ok(())
}
