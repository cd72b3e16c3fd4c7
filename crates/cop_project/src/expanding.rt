//! The words that a project file stands for.

ghost use Rattle.std.specs.Prelude.{◌≡◌, ◌<◌, ◌≤◌, ◌-◌, ◌++◌, ◌∷◌, [], length, take, slice_index, IfOk, OnOk, option_copied, string_bytes};
ghost use Rattle.cop_project.specs.Project.{says};
ghost use Rattle.cop_project.specs.Words.{texts, folder_of, beside, with_rate, rates_text, setup_words, choice_words, rates_words, project_words, with_project};

use crate::project::{Choice, Project};
use crate::words::word_at;
use cop_frame::Rate;
use std::alloc::{AllocError, Global};

/// How long the folder of a file is, with the slash behind it.
fn folder_len(named: &[u8]) -> usize
    ensures bound { result ≤ length named.now }
    ensures value { take result named.now ≡ folder_of named.now }
    ensures slash { 0 < result → slice_index named.now (result - 1) ≡ 47 }
{
    let mut len = 0;
    for (i, byte) in named.iter().enumerate() {
        if *byte == b'/' {
            len = i + 1;
        }
    }
    len
}

/// The folder of a file, with the slash behind it.
fn folder_of(named: &str) -> &str
    ensures { result.now ≡ folder_of named.now }
{
    let len = folder_len(named.as_bytes());
    if len == 0 {
        return "";
    }
    &named[..len]
}

/// The name of a file in the folder of another, and as it is where it is absolute.
fn beside(alloc: Global, named: &str, name: &str) -> Result<String, AllocError>
    ensures { IfOk result (λ s. string_bytes s ≡ beside named.now name.now) }
{
    let bytes = name.as_bytes();
    if !bytes.is_empty() && bytes[0] == b'/' {
        return String::from_str(alloc, name);
    }
    let mut path = String::from_str(alloc, folder_of(named))?;
    path.push_str(name)?;
    Ok(path)
}

/// Adds a rate, behind a comma where others stand before it.
fn push_rate(text: &mut String, rate: Rate) -> Result<(), AllocError>
    ensures { OnOk result (string_bytes text.new ≡ with_rate (string_bytes text.old) rate) }
{
    if !text.is_empty() {
        text.push_str(",")?;
    }
    let kbits = rate.kbits();
    write!(text, "{kbits}")
}

/// The rates in kbit/s, with commas between them.
fn rates_text(alloc: Global, rates: &[Rate]) -> Result<String, AllocError>
    ensures { IfOk result (λ s. string_bytes s ≡ rates_text [] rates.now) }
{
    let mut text = String::new(alloc);
    'rates: for rate in rates {
        push_rate(&mut text, *rate)?;
    }
    Ok(text)
}

/// Adds a word.
fn push_word(alloc: Global, words: &mut Vec<String>, word: &str) -> Result<(), AllocError>
    ensures { OnOk result (texts words.new.items ≡ texts words.old.items ++ word.now ∷ []) }
{
    words.push(String::from_str(alloc, word)?)?;
    Ok(())
}

/// Adds words.
fn push_words(alloc: Global, words: &mut Vec<String>, more: &[String]) -> Result<(), AllocError>
    ensures { OnOk result (texts words.new.items ≡ texts words.old.items ++ texts more.now) }
{
    'more: for word in more {
        push_word(alloc, words, word.as_str())?;
    }
    Ok(())
}

/// Adds the table of settings, if one is named.
fn push_setup(
    alloc: Global,
    words: &mut Vec<String>,
    named: &str,
    setup: Option<&str>,
) -> Result<(), AllocError>
    ensures { OnOk result (texts words.new.items ≡ texts words.old.items ++ setup_words named.now (option_copied setup.entry)) }
{
    let Some(setup) = setup else {
        return Ok(());
    };
    push_word(alloc, words, "--setup")?;
    let setup = beside(alloc, named, setup)?;
    push_word(alloc, words, setup.as_str())
}

/// Adds the rates if some are listed.
fn push_rates(alloc: Global, words: &mut Vec<String>, rates: &[Rate]) -> Result<(), AllocError>
    ensures { OnOk result (texts words.new.items ≡ texts words.old.items ++ rates_words rates.now) }
{
    if rates.is_empty() {
        return Ok(());
    }
    push_word(alloc, words, "--rates")?;
    let text = rates_text(alloc, rates)?;
    push_word(alloc, words, text.as_str())
}

/// Adds the choice if it is another than the order of the rows.
fn push_choice(alloc: Global, words: &mut Vec<String>, choice: Choice) -> Result<(), AllocError>
    ensures { OnOk result (texts words.new.items ≡ texts words.old.items ++ choice_words choice) }
{
    match choice {
        Choice::Order => Ok(()),
        Choice::Margin => push_word(alloc, words, "--margin"),
    }
}

/// Adds the two tables of a project, whose file has a name, and its options.
fn push_project(
    alloc: Global,
    words: &mut Vec<String>,
    named: &str,
    project: &Project,
) -> Result<(), AllocError>
    ensures { OnOk result (texts words.new.items ≡ texts words.old.items ++ project_words named.now (says project.now)) }
{
    let nodes = beside(alloc, named, project.nodes.as_str())?;
    push_word(alloc, words, nodes.as_str())?;
    let pdos = beside(alloc, named, project.pdos.as_str())?;
    push_word(alloc, words, pdos.as_str())?;
    push_setup(alloc, words, named, project.setup.as_deref())?;
    push_rates(alloc, words, project.rates.as_slice())?;
    push_choice(alloc, words, project.choice)
}

/// The words with those that the project file at a place stands for: its two tables, which lie in its folder, and its options. The others
/// stay in their order.
pub fn with_project(
    alloc: Global,
    words: &[String],
    place: usize,
    project: &Project,
) -> Result<Vec<String>, AllocError>
    requires { place < length words.now }
    ensures { IfOk result (λ w. texts w.items ≡ with_project (texts words.now) place (says project.now)) }
{
    let mut all = Vec::new(alloc);
    push_words(alloc, &mut all, &words[..place])?;
    push_project(alloc, &mut all, word_at(words, place), project)?;
    push_words(alloc, &mut all, &words[place + 1..])?;
    Ok(all)
}
