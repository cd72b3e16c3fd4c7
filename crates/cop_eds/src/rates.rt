//! The bit rates that a device supports.

ghost use Rattle.std.specs.Prelude.{◌≡◌, ◌↔◌, ◌⊎◌, true, IfOk, IfErr, Ok, Err};
ghost use Rattle.std.specs.List.{Contains};
ghost use Rattle.cop_frame.specs.declared.rates.Rate.{Rate};
ghost use Rattle.cop_eds.specs.Rates.{rate_key, rate_in, checked_rates};
ghost use Rattle.cop_eds.specs.Eds.{AreSupported};

use crate::description::number_or;
use crate::fault::Refusal;
use crate::line::Place;
use crate::sections::Sections;
use cop_frame::{Rate, RateSet};

/// The key of a rate.
fn rate_key(rate: Rate) -> &'static [u8]
    ensures { result.now ≡ rate_key rate }
{
    match rate {
        Rate::Kbit10 => b"BaudRate_10",
        Rate::Kbit20 => b"BaudRate_20",
        Rate::Kbit50 => b"BaudRate_50",
        Rate::Kbit125 => b"BaudRate_125",
        Rate::Kbit250 => b"BaudRate_250",
        Rate::Kbit500 => b"BaudRate_500",
        Rate::Kbit800 => b"BaudRate_800",
        Rate::Kbit1000 => b"BaudRate_1000",
    }
}

#[tactic(auto, unfolding(crate::specs::Rates::rate_in))]
fn rate_in(text: &Sections<'_>, info: Option<Place>, rate: Rate) -> Result<bool, Refusal>
    ensures { result ≡ rate_in text.now info rate }
{
    let Some(place) = info else {
        return Ok(false);
    };
    let number = number_or(0, text.entry(place.section, rate_key(rate)))?;
    Ok(number != 0)
}

// Puts the rate into the set where it is supported.
fn insert_if(rates: &mut RateSet, rate: Rate, is_supported: bool)
    ensures { (r : Rate) → Contains rates.new r ↔ (Contains rates.old r ⊎ ((r ≡ rate) × (is_supported ≡ true))) }
{
    if is_supported {
        rates.insert(rate);
    }
}

/// The rates that a device supports.
pub fn rates(text: &Sections<'_>) -> Result<RateSet, Refusal>
    ensures ok { IfOk result (λ rates. (checked_rates text.now ≡ Ok tt) × AreSupported text.now rates) }
    ensures err { IfErr result (λ refusal. checked_rates text.now ≡ Err refusal) }
{
    let info = text.named(b"DeviceInfo");
    let mut rates = RateSet::new();
    for rate in Rate::ALL {
        let is_supported = rate_in(text, info, rate)?;
        insert_if(&mut rates, rate, is_supported);
    }
    Ok(rates)
}
