//! The rules by their numbers, and which there are.

use crate::booting::machine_rule_words;
use crate::log_rules::log_rule_words;
use crate::project_rules::project_rule_words;
use crate::standing_rules::{NO_IDENTIFIER, STANDING_RULE};
use crate::warning_rules::warning_rule_words;
use cop_words::{question_words, rule_words};
use std::alloc::{AllocError, Global};
use std::str;

/// What the rule of a number says that stands in no table of rules of its own: of an EDS file that is made one that is read, of a log, of
/// a machine, of a network as it stands, of a project file, or of a warning. Nothing for a number that has none.
fn other_words(number: u8) -> &'static str {
    match number {
        70..=84 => question_words(number),
        90..=96 => log_rule_words(number),
        100..=105 => machine_rule_words(number),
        NO_IDENTIFIER => STANDING_RULE,
        150..=152 => project_rule_words(number),
        _ => warning_rule_words(number),
    }
}

/// What the rule of a number says, what is usually behind it, and what is right. Nothing for a number that no rule has.
pub fn words_of_rule(alloc: Global, number: u8) -> Result<Vec<u8>, AllocError> {
    let words = rule_words(alloc, number)?;
    if words.is_empty() {
        Vec::from_slice(alloc, other_words(number).as_bytes())
    } else {
        Ok(words)
    }
}

/// The greatest number that a rule may have.
const GREATEST: u8 = 255;

/// Numbers of rules from one to another, between which there is no gap.
#[derive(Clone, Copy)]
struct Range {
    first: u8,
    last: u8,
}

/// Adds a number to ranges, which all are below it.
fn add_number(ranges: &mut Vec<Range>, number: u8) -> Result<(), AllocError> {
    if let Some(range) = ranges.last_mut() {
        if range.last.saturating_add(1) == number {
            range.last = number;
            return Ok(());
        }
    }
    ranges.push(Range {
        first: number,
        last: number,
    })?;
    Ok(())
}

/// The numbers that have a rule.
fn explained(alloc: Global) -> Result<Vec<Range>, AllocError> {
    let mut ranges = Vec::new(alloc);
    for number in 1..=GREATEST {
        if !words_of_rule(alloc, number)?.is_empty() {
            add_number(&mut ranges, number)?;
        }
    }
    Ok(ranges)
}

/// The numbers that have a rule, as a line: `1 to 6, 10 and 20 to 23`.
pub fn explained_line(alloc: Global) -> Result<String, AllocError> {
    let mut line = String::new(alloc);
    let ranges = explained(alloc)?;
    for (k, range) in ranges.iter().enumerate() {
        if k > 0 {
            line.push_str(if k + 1 == ranges.len() { " and " } else { ", " })?;
        }
        let (first, last) = (range.first, range.last);
        write!(line, "{first}")?;
        if last > first {
            write!(line, " to {last}")?;
        }
    }
    Ok(line)
}

/// What stands above the rules on their page.
const PAGE: &str =
    "# Rules and warnings\n\nThis page is what `canplan explain --all` prints. A number is that of a refusal, `canplan: refused NUMBER PLACE`, or of a warning.\n";

/// Adds a rule to their page: its number, and a point for each line of what it says.
fn push_rule(page: &mut String, number: u8, words: &[u8]) -> Result<(), AllocError> {
    write!(page, "\n## {number}\n\n")?;
    for line in str::from_utf8(words).unwrap_or("").lines() {
        write!(page, "- {line}\n")?;
    }
    Ok(())
}

/// All rules and warnings by their numbers, as a page.
pub fn page_of_rules(alloc: Global) -> Result<String, AllocError> {
    let mut page = String::from_str(alloc, PAGE)?;
    for number in 1..=GREATEST {
        let words = words_of_rule(alloc, number)?;
        if !words.is_empty() {
            push_rule(&mut page, number, &words)?;
        }
    }
    Ok(page)
}
