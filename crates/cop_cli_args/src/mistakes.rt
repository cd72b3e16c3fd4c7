//! What is said of words that are not understood, where the parser's own words do not help.

use crate::commands::{command_of, named};
use crate::subcommands::Subcommand;
use crate::words::Choices;
use clap::Error;
use clap::error::ErrorKind;
use std::alloc::{AllocError, Global};

/// A boot is of a machine or of a trial, and the parser names only one of them.
const NO_BOOT: &str =
    "one of these is required:\n  --port <PORT>  boots the machine at a CAN adapter\n  --seed <SEED>  tries the boot on a simulated bus";

/// How a boot is called.
const BOOT_USAGE: &str = "canplan boot <--port <PORT>|--seed <SEED>> [OPTIONS] <NODES> <PDOS>";

/// Whether a word is an option of this name, with or without its value.
fn is_option(word: &str, name: &str) -> bool {
    match word.strip_prefix(name) {
        Some(rest) => rest.is_empty() || rest.starts_with('='),
        None => false,
    }
}

/// Whether some word is an option of this name.
fn has_option(given: &[String], name: &str) -> bool {
    given.iter().any(|word| is_option(word.as_str(), name))
}

/// The value of an option at a place of the words.
fn value_at<'a>(given: &'a [String], at: usize, name: &str) -> Option<&'a str> {
    let rest = given.get(at)?.as_str().strip_prefix(name)?;
    if rest.is_empty() {
        return given.get(at.saturating_add(1)).map(|next| next.as_str());
    }
    rest.strip_prefix('=')
}

/// A word that is wanted as a rate, and is none.
fn no_rate(list: &str) -> Option<&str> {
    let rates = Choices::Rates.words();
    list.split(',').find(|word| !word.is_empty() && !rates.iter().any(|rate| rate == word))
}

/// The first word behind --rates or --rate that is no rate.
fn wrong_rate(given: &[String]) -> Option<&str> {
    for at in 0..given.len() {
        let list = match value_at(given, at, "--rates") {
            Some(list) => list,
            None => value_at(given, at, "--rate").unwrap_or(""),
        };
        if let Some(word) = no_rate(list) {
            return Some(word);
        }
    }
    None
}

/// What is said of a word that is no rate. The parser would name a rate that is spelled alike, which may be far from it.
fn rate_message(alloc: Global, word: &str) -> Result<String, AllocError> {
    let mut message = format!(in alloc;
        "invalid value '{word}' for a rate, which is in kbit/s\n  [possible values: "
    )?;
    for (at, rate) in Choices::Rates.words().iter().enumerate() {
        if at > 0 {
            message.push_str(", ")?;
        }
        message.push_str(rate)?;
    }
    message.push_str("]")?;
    Ok(message)
}

/// The mistake in the words of a subcommand as a message, where the parser's own does not help.
fn message_of(
    alloc: Global,
    subcommand: Subcommand,
    given: &[String],
    kind: ErrorKind,
) -> Result<Option<String>, AllocError> {
    let is_boot = subcommand == Subcommand::Boot;
    match kind {
        ErrorKind::InvalidValue => match wrong_rate(given) {
            Some(word) => Ok(Some(rate_message(alloc, word)?)),
            None => Ok(None),
        },
        ErrorKind::MissingRequiredArgument
            if is_boot && !has_option(given, "--port") && !has_option(given, "--seed") => {
            Ok(Some(String::from_str(alloc, NO_BOOT)?))
        }
        _ => Ok(None),
    }
}

/// The error of a mistake that is said better here, with the usage of its subcommand.
fn better(alloc: Global, given: &[String], kind: ErrorKind) -> Result<Option<Error>, AllocError> {
    let Some(subcommand) = named(given) else {
        return Ok(None);
    };
    let Some(message) = message_of(alloc, subcommand, given, kind)? else {
        return Ok(None);
    };
    let name = format!(in alloc; "canplan {}", subcommand.name())?;
    let mut command = command_of(alloc, subcommand)?.bin_name(&name)?;
    if subcommand == Subcommand::Boot {
        command = command.override_usage(BOOT_USAGE);
    }
    Ok(Some(command.error(kind, &message)?))
}

/// The parser's error on some words, or one that says more of the mistake.
pub(crate) fn mistake(alloc: Global, given: &[String], error: Error) -> Error {
    match better(alloc, given, error.kind()) {
        Ok(Some(better)) => better,
        Ok(None) => error,
        Err(no_memory) => Error::from(no_memory),
    }
}
