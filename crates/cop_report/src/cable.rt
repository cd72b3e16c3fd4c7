//! How long the cable of a bus may be.

use cop_frame::Rate;

/// The longest cable at a rate, in meters, by the table of CiA 303-1.
pub(crate) fn longest_cable(rate: Rate) -> u32 {
    match rate {
        Rate::Kbit10 => 5000,
        Rate::Kbit20 => 2500,
        Rate::Kbit50 => 1000,
        Rate::Kbit125 => 500,
        Rate::Kbit250 => 250,
        Rate::Kbit500 => 100,
        Rate::Kbit800 => 50,
        Rate::Kbit1000 => 25,
    }
}
