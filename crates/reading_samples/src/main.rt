//! Tries the tolerant reading on short texts as makers write them, each for one rule. `rows` has them, each with an index whose objects
//! are printed, and the choices that are made.
#![tactic(auto)]

use cop_eds::Amount;
use cop_frame::Rate;
use cop_tidy_reading::{
    Device, DeviceObject, Digits, ReadingFault, Unlisted, Value, Words, loosely,
};
use std::alloc::AllocError;
use std::{fs, io};

/// The choices that words stand for.
fn words_of(rt: &HostRuntime, word: &str) -> io::Result<Words> {
    let mut words = Words::none(rt.alloc());
    match word {
        "--octal" => words.digits = Some(Digits::Octal),
        "--decimal" => words.digits = Some(Digits::Decimal),
        "--unlisted add" => words.unlisted = Some(Unlisted::Add),
        "--unlisted leave" => words.unlisted = Some(Unlisted::Leave),
        "--rates 125,250" => words
            .rates
            .extend_from_slice(&[Rate::Kbit125, Rate::Kbit250])?,
        _ => {}
    }
    Ok(words)
}

/// The words for an amount.
fn amount_words(rt: &HostRuntime, amount: Amount) -> Result<String, AllocError> {
    match amount {
        Amount::Decimal(n) => format!(in rt.alloc(); "{n}"),
        Amount::Negative(n) => format!(in rt.alloc(); "-{n}"),
        Amount::Hexadecimal(n) => format!(in rt.alloc(); "0x{n:X}"),
        Amount::PlusNode(n) => format!(in rt.alloc(); "node+0x{n:X}"),
    }
}

/// The words for a limit.
fn limit_words(rt: &HostRuntime, limit: Option<Amount>) -> Result<String, AllocError> {
    match limit {
        Some(amount) => amount_words(rt, amount),
        None => format!(in rt.alloc(); "-"),
    }
}

/// The words for a value.
fn value_words(rt: &HostRuntime, value: &Value) -> Result<String, AllocError> {
    match value {
        Value::Nothing => format!(in rt.alloc(); "nothing"),
        Value::Number(amount) => amount_words(rt, *amount),
        Value::Text(text) => {
            let size = text.as_slice().len();
            format!(in rt.alloc(); "a text of {size} bytes")
        }
    }
}

/// Prints an object in one line.
fn show(rt: &HostRuntime, object: &DeviceObject) -> io::Result<()> {
    let (index, sub) = (object.index, object.sub);
    let data_type = object.data_type;
    let access = object.access;
    let flag = if object.is_mappable { " mappable" } else { "" };
    let low = limit_words(rt, object.low)?;
    let high = limit_words(rt, object.high)?;
    let value = value_words(rt, &object.value)?;
    println!(rt; "  {index:04X}sub{sub:X} {data_type:?} {access:?}{flag} {low}..{high} = {value}")
}

/// Prints the objects of a device at an index.
fn show_at(rt: &HostRuntime, name: &str, device: &Device, index: u64) -> io::Result<()> {
    println!(rt; "{name}:")?;
    for object in device.objects.iter() {
        if object.index == index {
            show(rt, object)?;
        }
    }
    Ok(())
}

/// Prints why a text is not read.
fn tell(rt: &HostRuntime, name: &str, fault: &ReadingFault) -> io::Result<()> {
    match fault {
        ReadingFault::Asked(question) => {
            let number = question.about.number();
            let line = question.line;
            println!(rt; "{name}: asked {number} {line}")
        }
        ReadingFault::Memory => println!(rt; "{name}: out of memory"),
    }
}

/// Tries a short text, and prints its objects at an index.
fn try_row(rt: &HostRuntime, name: &str, index: &str, word: &str) -> io::Result<()> {
    let text = fs::read(rt, format!(in rt.alloc(); "rules/{name}.eds")?.as_str())?;
    let words = words_of(rt, word)?;
    let index = u64::from_str_radix(index, 16).unwrap_or(0);
    match loosely(rt.alloc(), &text, &words) {
        Ok(device) => show_at(rt, name, &device, index),
        Err(fault) => tell(rt, name, &fault),
    }
}

fn main(rt: HostRuntime) -> io::Result<()> {
    let rows = fs::read_to_string(&rt, "rows")?;
    for line in rows.as_str().lines() {
        let (name, rest) = line.split_once(' ').unwrap_or((line, ""));
        let (index, word) = rest.split_once(' ').unwrap_or((rest, ""));
        try_row(&rt, name, index, word)?;
    }
    Ok(())
}
