//! PDOs that a device has by CompactPDO.

ghost use Rattle.std.specs.Prelude.{◌≡◌, ◌+◌, ◌≤◌, not, nat_lt, if◌then◌else◌};
ghost use Rattle.cop_eds_hazards.specs.Listed.{is_listed, AreListed};
ghost use Rattle.cop_eds_hazards.specs.Compact.{are_counted, are_all_listed, are_subs, are_described, is_implicit, implicit_in, implicit_line};

use crate::listed::is_listed;
use crate::stated::stated_or_0;
use cop_eds::{Eds, Place};
use std::collections::BTreeSet;

/// Whether the record of a number is listed as a count of records says.
fn is_counted(eds: &Eds<'_>, indexes: &BTreeSet<u64>, first: u64, number: u64, count: u64) -> bool
    requires listed { AreListed eds.now indexes.now }
    requires first { first ≤ 65535 }
    requires number { number ≤ 512 }
    ensures { result ≡ (if nat_lt number count then is_listed eds.now (first + number) else not (is_listed eds.now (first + number))) }
{
    let is_there = is_listed(eds, indexes, first + number);
    if number < count { is_there } else { !is_there }
}

/// Whether of the first so many records from one on exactly those below a count are listed.
#[tactic(auto, unfolding(crate::specs::Compact::are_counted))]
fn are_counted(eds: &Eds<'_>, indexes: &BTreeSet<u64>, first: u64, count: u64, size: u64) -> bool
    requires listed { AreListed eds.now indexes.now }
    requires first { first ≤ 65535 }
    requires size { size ≤ 512 }
    ensures { result ≡ are_counted eds.now first count size }
{
    let mut are_so = true;
    for number in 0..size {
        are_so = are_so && is_counted(eds, indexes, first, number, count);
    }
    are_so
}

/// Whether exactly the PDOs up to a count that can be are listed.
fn are_all_listed(eds: &Eds<'_>, indexes: &BTreeSet<u64>, first: u64, count: Option<u64>) -> bool
    requires listed { AreListed eds.now indexes.now }
    requires first { first ≤ 65535 }
    ensures { result ≡ are_all_listed eds.now first count }
{
    match count {
        Some(count) => count <= 512 && are_counted(eds, indexes, first, count, 512),
        None => false,
    }
}

/// Whether there are at most six sub-indexes, the COB-ID among them.
fn are_subs(subs: u64) -> bool
    ensures { result ≡ are_subs subs }
{
    subs % 2 == 1 && subs < 64
}

/// Whether exactly the PDOs that DeviceInfo counts are listed.
fn are_described(eds: &Eds<'_>, indexes: &BTreeSet<u64>, section: usize) -> bool
    requires { AreListed eds.now indexes.now }
    ensures { result ≡ are_described eds.now section }
{
    let received = stated_or_0(eds, section, b"NrOfRXPDO");
    let sent = stated_or_0(eds, section, b"NrOfTXPDO");
    are_all_listed(eds, indexes, 0x1400, received) && are_all_listed(eds, indexes, 0x1800, sent)
}

/// Whether what CompactPDO states leaves PDOs out that no section describes, or cannot be.
fn is_implicit(eds: &Eds<'_>, indexes: &BTreeSet<u64>, section: usize, subs: Option<u64>) -> bool
    requires { AreListed eds.now indexes.now }
    ensures { result ≡ is_implicit eds.now section subs }
{
    match subs {
        Some(subs) => subs != 0 && !(are_subs(subs) && are_described(eds, indexes, section)),
        None => true,
    }
}

fn implicit_in(eds: &Eds<'_>, indexes: &BTreeSet<u64>, place: Option<Place>) -> Option<usize>
    requires { AreListed eds.now indexes.now }
    ensures { result ≡ implicit_in eds.now place }
{
    let section = place?.section;
    if is_implicit(
        eds,
        indexes,
        section,
        stated_or_0(eds, section, b"CompactPDO"),
    ) {
        eds.key_line(section, b"CompactPDO")
    } else {
        None
    }
}

/// The line of CompactPDO, where it leaves PDOs out.
#[tactic(auto, unfolding(crate::specs::Compact::implicit_line))]
pub fn implicit_line(eds: &Eds<'_>, indexes: &BTreeSet<u64>) -> Option<usize>
    requires { AreListed eds.now indexes.now }
    ensures { result ≡ implicit_line eds.now }
{
    implicit_in(eds, indexes, eds.place(b"DeviceInfo"))
}
