//! The rates that a device supports.

ghost use Rattle.std.specs.Prelude.{◌≡◌, IfOk, Ok, map};
ghost use Rattle.std.specs.Option.{option_to_list};
ghost use Rattle.std.specs.List.{list_any};
ghost use Rattle.cop_tidy_reading.specs.Questions.{all_of};
ghost use Rattle.cop_tidy_reading.specs.Gathering.{joined_by, vec_seen};
ghost use Rattle.cop_tidy_reading.specs.SeenValues.{seen};
ghost use Rattle.cop_tidy_reading.specs.Reading.{rate_by, rate_in, states_rate, rates_of};

use crate::combining::Earliest;
use crate::contents::Section;
use crate::gathering::{gather, gathered};
use crate::objects::Whole;
use crate::question::Question;
use cop_frame::Rate;
use cop_tidy_lines::Key;
use std::alloc::{AllocError, Global};

/// A rate that is said to be supported.
fn rate_by(rate: Rate, flag: Option<bool>) -> Option<Rate>
    ensures { result ≡ rate_by rate flag }
{
    match flag {
        Some(true) => Some(rate),
        _ => None,
    }
}

/// A rate, where the section says that it is supported.
#[tactic(auto, unfolding(crate::specs::Reading::rate_in))]
fn rate_in(
    alloc: Global,
    whole: &Whole<'_, '_>,
    section: Section,
    rate: Rate,
) -> Result<Result<Option<Rate>, Question>, AllocError>
    ensures { IfOk result (λ read. read ≡ rate_in (seen whole.now) section rate) }
{
    match whole.reader(section).flag(alloc, Key::BaudRate(rate))? {
        Ok(flag) => Ok(Ok(rate_by(rate, flag))),
        Err(question) => Ok(Err(question)),
    }
}

/// Whether the section says something of a rate.
fn states_rate(
    alloc: Global,
    whole: &Whole<'_, '_>,
    section: Section,
    rate: Rate,
) -> Result<bool, AllocError>
    ensures { IfOk result (λ states. states ≡ states_rate (seen whole.now) section rate) }
{
    match whole.reader(section).flag(alloc, Key::BaudRate(rate))? {
        Ok(flag) => Ok(flag.is_some()),
        Err(_) => Ok(true),
    }
}

/// Whether the section says something of one of some rates.
fn states_any(
    alloc: Global,
    whole: &Whole<'_, '_>,
    section: Section,
    rates: &[Rate],
) -> Result<bool, AllocError>
    ensures { IfOk result (λ states. states ≡ list_any (states_rate (seen whole.now) section) rates.now) }
{
    for rate in rates {
        if states_rate(alloc, whole, section, *rate)? {
            return Ok(true);
        }
    }
    Ok(false)
}

/// Those of some rates that the section says to be supported.
#[tactic(auto, using(crate::proofs::GatheringLemmas::next_gathered, crate::proofs::GatheringLemmas::begins), unfolding(crate::specs::Questions::all_of))]
fn stated_among(
    alloc: Global,
    whole: &Whole<'_, '_>,
    section: Section,
    rates: &[Rate],
) -> Result<Result<Vec<Rate>, Question>, AllocError>
    ensures { IfOk result (λ read. vec_seen read ≡ joined_by option_to_list (all_of (map (rate_in (seen whole.now) section) rates.now))) }
{
    let mut found = Vec::new(alloc);
    let mut earliest = Earliest::new();
    for rate in rates {
        let read = rate_in(alloc, whole, section, *rate)?;
        gather(&mut found, &mut earliest, read)?;
    }
    Ok(gathered(found, earliest))
}

/// The rates that are chosen for a device that states none.
fn chosen_rates(
    alloc: Global,
    whole: &Whole<'_, '_>,
) -> Result<Result<Vec<Rate>, Question>, AllocError>
    ensures { IfOk result (λ read. vec_seen read ≡ Ok (seen whole.now).words.rates.items) }
{
    Ok(Ok(Vec::from_slice(alloc, &whole.words.rates)?))
}

/// The rates that a device supports: those of DeviceInfo, or those that are chosen where it states none.
#[tactic(auto, unfolding(crate::specs::Reading::rates_of))]
pub fn rates_of(
    alloc: Global,
    whole: &Whole<'_, '_>,
) -> Result<Result<Vec<Rate>, Question>, AllocError>
    ensures { IfOk result (λ read. vec_seen read ≡ rates_of (seen whole.now)) }
{
    let Some(section) = whole.contents.device_info() else {
        return chosen_rates(alloc, whole);
    };
    if states_any(alloc, whole, section, &Rate::ALL)? {
        stated_among(alloc, whole, section, &Rate::ALL)
    } else {
        chosen_rates(alloc, whole)
    }
}
