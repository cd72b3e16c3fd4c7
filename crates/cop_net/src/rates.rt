//! The rates that a plan may have, and those that devices support.

ghost use Rattle.std.specs.Prelude.{◌≡◌, ◌↔◌};
ghost use Rattle.std.specs.List.{Contains, filter};
ghost use Rattle.cop_frame.specs.declared.rates.Rate.{Rate};
ghost use Rattle.cop_frame.specs.RateSet.{all_rates};
ghost use Rattle.cop_net.specs.Rates.{in_order};
ghost use Rattle.cop_net.specs.Devices.{supports};

use cop_eds::Eds;
use cop_frame::{Rate, RateSet};

/// The set of all rates.
pub fn all_rates() -> RateSet
    ensures { in_order result ≡ all_rates }
{
    let mut rates = RateSet::new();
    for rate in Rate::ALL {
        rates.insert(rate);
    }
    rates
}

/// The same set.
pub fn same(rates: &RateSet) -> RateSet
    ensures members { (rate : Rate) → Contains result rate ↔ Contains rates.now rate }
    ensures order { in_order result ≡ in_order rates.now }
{
    // A set has no copy: what is in it and in itself is that set.
    rates.both(rates)
}

/// The rates that a text supports too.
pub fn supported(rates: &RateSet, eds: &Eds<'_>) -> RateSet
    ensures { in_order result ≡ filter (supports eds.now) (in_order rates.now) }
{
    rates.both(&eds.rates())
}
