//! The command line as its words are understood and helped with.

use crate::subcommands::Subcommand;
use crate::words::{Kind, Need, Word};
use clap::builder::ValueParser;
use clap::{Arg, ArgAction, Command};
use std::alloc::{AllocError, Global};

/// The greatest error of a log's clock, in microseconds and in parts in a million.
const MOST_CLOCK: u64 = 1000000;

const ABOUT: &str = "Plans, boots, runs and judges CANopen networks on classical CAN";

const AFTER: &str = "With no words: canplan test --rate 125 -

Statuses:
  0  done
  2  the words are not understood
  3  an input is refused (canplan: refused NUMBER PLACE), a refusal fails, a run is given up, nodes are not started or not as planned, or a log breaks the tables
  4  no rate passes
  5  a file cannot be read or written, or is above 64 MiB
  6  out of memory

Times in tables are microseconds, in answers ticks of 250 ns.";

/// An argument with what may stand for it.
fn of_kind<'a>(arg: Arg<'a>, kind: Kind) -> Arg<'a> {
    match kind {
        Kind::Place => arg.action(ArgAction::Set),
        Kind::PlaceOfValue => arg.allow_hyphen_values(true).action(ArgAction::Set),
        Kind::PlaceOf(choices) | Kind::OneOf(choices) => {
            arg.value_parser(choices.words()).action(ArgAction::Set)
        }
        Kind::PlaceOfNumber(most) | Kind::Positive(most) => arg
            .value_parser(ValueParser::unsigned(1, most))
            .action(ArgAction::Set),
        Kind::Flag => arg.action(ArgAction::SetTrue),
        Kind::Text(called) => arg.value_name(called).action(ArgAction::Set),
        Kind::ListOf(choices) => arg
            .value_name("LIST")
            .value_delimiter(',')
            .value_parser(choices.words())
            .action(ArgAction::Set),
        Kind::Number(most) => arg
            .value_parser(ValueParser::unsigned(0, most))
            .action(ArgAction::Set),
        Kind::Clock(unit) => arg
            .value_name(unit)
            .value_parser(ValueParser::unsigned(0, MOST_CLOCK))
            .action(ArgAction::Set),
    }
}

/// The argument of a word, at its place or behind its name.
fn placed<'a>(alloc: Global, word: &Word) -> Arg<'a> {
    let arg = of_kind(Arg::new(alloc, word.name).help(word.help), word.kind);
    match word.kind {
        Kind::Place | Kind::PlaceOfValue | Kind::PlaceOf(_) | Kind::PlaceOfNumber(_) => arg,
        _ => arg.long(word.name),
    }
}

/// The argument of a word, and whether it has to be there.
fn arg_of<'a>(alloc: Global, word: &Word) -> Result<Arg<'a>, AllocError> {
    let arg = placed(alloc, word);
    match word.need {
        Need::Required => Ok(arg.required(true)),
        Need::Optional => Ok(arg),
        Need::Unless(name) => arg.required_unless_present(name),
        Need::Against(name) => arg.conflicts_with(name),
        Need::With(name) => arg.requires_arg(name),
    }
}

/// A subcommand with its words.
pub(crate) fn command_of<'a>(
    alloc: Global,
    subcommand: Subcommand,
) -> Result<Command<'a>, AllocError> {
    let (name, about): (&'a str, &'a str) = (subcommand.name(), subcommand.about());
    let mut command: Command<'a> = Command::new(alloc, name)
        .about(about)
        .after_help(subcommand.example());
    for word in subcommand.words() {
        command = command.arg(arg_of(alloc, word)?)?;
    }
    Ok(command)
}

/// The subcommand that the first word behind the program's name is.
pub(crate) fn named(given: &[String]) -> Option<Subcommand> {
    match given {
        [_, word, ..] => Subcommand::named(word.as_str()),
        _ => None,
    }
}

/// The command line: with the subcommand alone that the words name, and with all where they name none.
pub(crate) fn command<'a>(alloc: Global, given: &[String]) -> Result<Command<'a>, AllocError> {
    let mut command = Command::new(alloc, "canplan")
        .version("0.1.0")
        .about(ABOUT)
        .after_help(AFTER);
    let named = named(given);
    for subcommand in Subcommand::ALL {
        if named.is_none() || named == Some(subcommand) {
            command = command.subcommand(command_of(alloc, subcommand)?)?;
        }
    }
    Ok(command)
}
