//! The keys of a project file.

ghost use Rattle.std.specs.Prelude.{◌≡◌, [], Some, Ok, Err, IfOk, IfErr, MatchResult, option_copied, option_map, option_and_then, string_bytes, codes};
ghost use Rattle.std.specs.List.{list_any};
ghost use Rattle.cop_project.specs.Project.{is_key, unknown_key, is_control, is_name, name_in, name_at, name_of, rate_of, rate_in, rates_from, rates_in, rates_of, choice_in, choice_of, project_in, said_by, says};
ghost use Rattle.toml.specs.Data.{as_str, get_member};
ghost use Rattle.toml.specs.View.{view, items_view, table_view};

use crate::project::{Choice, Project, Rule};
use cop_frame::Rate;
use std::alloc::{AllocError, Global};
use toml::{Table, Value};

fn is_key(key: &str) -> bool
    ensures { result ≡ is_key key.now }
{
    key == "nodes" || (key == "pdos" || (key == "setup" || (key == "rates" || key == "choice")))
}

/// The first key that is none of a project file.
fn unknown_key(table: &Table) -> Option<&str>
    ensures { option_copied result ≡ unknown_key (table_view table.now) }
{
    'members: for (key, _value) in table.iter() {
        if !is_key(key.as_str()) {
            return Some(key.as_str());
        }
    }
    None
}

/// Whether the name of a file has not this byte here.
fn is_control(byte: u8) -> bool
    ensures { result ≡ is_control byte }
{
    byte < 32 || byte == 127
}

fn has_control(word: &[u8]) -> bool
    ensures { result ≡ list_any is_control word.now }
{
    word.iter().any(|byte| is_control(*byte))
}

/// Whether a word stands for a file.
fn is_name(word: &[u8]) -> bool
    ensures { result ≡ is_name word.now }
{
    !word.is_empty() && (word[0] != b'-' && !has_control(word))
}

fn name_in(word: &str) -> Result<&str, Rule>
    ensures { MatchResult result (λ s. name_in word.now ≡ Ok s.now) (λ rule. name_in word.now ≡ Err rule) }
{
    if is_name(word.as_bytes()) {
        Ok(word)
    } else {
        Err(Rule::Value)
    }
}

/// The value at a key.
fn value_at<'a>(table: &'a Table, key: &str) -> Option<&'a Value>
    ensures { option_map (λ v. view v.now) result ≡ get_member key.now (table_view table.now) }
{
    table.get(key)
}

/// The text at a key.
fn text_at<'a>(table: &'a Table, key: &str) -> Option<&'a str>
    ensures { option_map (λ s. s.now) result ≡ option_and_then as_str (get_member key.now (table_view table.now)) }
{
    match value_at(table, key) {
        Some(value) => value.as_str(),
        None => None,
    }
}

/// The name at a key, which has to be there.
fn name_at<'a>(table: &'a Table, key: &str) -> Result<&'a str, Rule>
    ensures { MatchResult result (λ s. name_at key.now (table_view table.now) ≡ Ok s.now) (λ rule. name_at key.now (table_view table.now) ≡ Err rule) }
{
    match text_at(table, key) {
        Some(word) => name_in(word),
        None => Err(Rule::Key),
    }
}

/// The name at a key that may be there.
fn name_of<'a>(table: &'a Table, key: &str) -> Result<Option<&'a str>, Rule>
    ensures { MatchResult result (λ o. name_of (get_member key.now (table_view table.now)) ≡ Ok (option_copied o)) (λ rule. name_of (get_member key.now (table_view table.now)) ≡ Err rule) }
{
    let Some(value) = value_at(table, key) else {
        return Ok(None);
    };
    match value.as_str() {
        Some(word) => Ok(Some(name_in(word)?)),
        None => Err(Rule::Key),
    }
}

/// The rate of so many kbit/s, where CiA 301 has it.
fn rate_of(kbits: i64) -> Option<Rate>
    ensures { result ≡ rate_of kbits }
{
    match u32::try_from(kbits) {
        Ok(kbits) => Rate::from_kbits(kbits),
        Err(_) => None,
    }
}

fn rate_in(value: &Value) -> Result<Rate, Rule>
    ensures { result ≡ rate_in (view value.now) }
{
    match value.as_integer() {
        Some(kbits) => rate_of(kbits).ok_or(Rule::Value),
        None => Err(Rule::Key),
    }
}

/// The rates of a list.
fn listed(alloc: Global, values: &[Value]) -> Result<Result<Vec<Rate>, Rule>, AllocError>
    ensures { IfOk result (λ r. MatchResult r (λ v. rates_from [] (items_view values.now) ≡ Ok v.items) (λ rule. rates_from [] (items_view values.now) ≡ Err rule)) }
{
    let mut rates = Vec::new(alloc);
    'values: for value in values {
        match rate_in(value) {
            Ok(rate) => rates.push(rate)?,
            Err(rule) => return Ok(Err(rule)),
        }
    }
    Ok(Ok(rates))
}

/// The rates of a list that is not empty.
#[tactic(auto, using(crate::proofs::Lists::rates_in_some))]
fn rates_in(alloc: Global, values: &[Value]) -> Result<Result<Vec<Rate>, Rule>, AllocError>
    ensures { IfOk result (λ r. MatchResult r (λ v. rates_in (items_view values.now) ≡ Ok v.items) (λ rule. rates_in (items_view values.now) ≡ Err rule)) }
{
    if values.is_empty() {
        return Ok(Err(Rule::Value));
    }
    listed(alloc, values)
}

/// The rates that a plan may have; none are listed where the key is not there.
fn rates_of(alloc: Global, table: &Table) -> Result<Result<Vec<Rate>, Rule>, AllocError>
    ensures { IfOk result (λ r. MatchResult r (λ v. rates_of (get_member (codes "rates") (table_view table.now)) ≡ Ok v.items) (λ rule. rates_of (get_member (codes "rates") (table_view table.now)) ≡ Err rule)) }
{
    let Some(value) = value_at(table, "rates") else {
        return Ok(Ok(Vec::new(alloc)));
    };
    match value.as_array() {
        Some(values) => rates_in(alloc, values),
        None => Ok(Err(Rule::Key)),
    }
}

fn choice_in(word: &str) -> Result<Choice, Rule>
    ensures { result ≡ choice_in word.now }
{
    if word == "order" {
        Ok(Choice::Order)
    } else if word == "margin" {
        Ok(Choice::Margin)
    } else {
        Err(Rule::Value)
    }
}

fn choice_of(table: &Table) -> Result<Choice, Rule>
    ensures { result ≡ choice_of (get_member (codes "choice") (table_view table.now)) }
{
    let Some(value) = value_at(table, "choice") else {
        return Ok(Choice::Order);
    };
    match value.as_str() {
        Some(word) => choice_in(word),
        None => Err(Rule::Key),
    }
}

/// A text of one's own, if there is one.
fn copied(alloc: Global, text: Option<&str>) -> Result<Option<String>, AllocError>
    ensures { IfOk result (λ o. option_map string_bytes o ≡ option_copied text.entry) }
{
    match text {
        Some(text) => Ok(Some(String::from_str(alloc, text)?)),
        None => Ok(None),
    }
}

/// A rule, and the key that breaks it.
#[derive(Clone, Copy, Debug)]
pub(crate) struct Broken<'a> {
    pub rule: Rule,
    pub key: &'a str,
}

/// What the keys say.
#[tactic(auto, unfolding(crate::specs::Project::said_by))]
fn said_by<'a>(alloc: Global, table: &'a Table) -> Result<Result<Project, Broken<'a>>, AllocError>
    ensures { IfOk result (λ r. MatchResult r (λ p. said_by (table_view table.now) ≡ Ok (says p)) (λ b. said_by (table_view table.now) ≡ Err (b.rule, b.key.now))) }
{
    let nodes = match name_at(table, "nodes") {
        Ok(name) => name,
        Err(rule) => return Ok(Err(Broken { rule, key: "nodes" })),
    };
    let pdos = match name_at(table, "pdos") {
        Ok(name) => name,
        Err(rule) => return Ok(Err(Broken { rule, key: "pdos" })),
    };
    let setup = match name_of(table, "setup") {
        Ok(name) => name,
        Err(rule) => return Ok(Err(Broken { rule, key: "setup" })),
    };
    let rates = match rates_of(alloc, table)? {
        Ok(rates) => rates,
        Err(rule) => return Ok(Err(Broken { rule, key: "rates" })),
    };
    let choice = match choice_of(table) {
        Ok(choice) => choice,
        Err(rule) => return Ok(Err(Broken {
            rule,
            key: "choice",
        })),
    };
    Ok(Ok(Project {
        nodes: String::from_str(alloc, nodes)?,
        pdos: String::from_str(alloc, pdos)?,
        setup: copied(alloc, setup)?,
        rates,
        choice,
    }))
}

/// What a table says.
pub(crate) fn project_in<'a>(
    alloc: Global,
    table: &'a Table,
) -> Result<Result<Project, Broken<'a>>, AllocError>
    ensures { IfOk result (λ r. MatchResult r (λ p. project_in (table_view table.now) ≡ Ok (says p)) (λ b. project_in (table_view table.now) ≡ Err (b.rule, b.key.now))) }
{
    match unknown_key(table) {
        Some(key) => Ok(Err(Broken {
            rule: Rule::Key,
            key,
        })),
        None => said_by(alloc, table),
    }
}
