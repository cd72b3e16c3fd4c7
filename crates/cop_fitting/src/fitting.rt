//! The files that fit a device.

ghost use Rattle.std.specs.Prelude.{◌≡◌, ◌≤◌, ◌+◌, ◌++◌, [], IfOk, OnOk, length};
ghost use Rattle.cop_fitting.specs.Fitting.{agrees, fits, fits_exactly, is_exact_among, is_chosen, places_from, places_of};

use crate::identity::Identity;
use std::alloc::{AllocError, Global};

/// Whether a device told the number that a file states; one that states none fits each.
fn agrees(stated: Option<u32>, told: Option<u32>) -> bool
    ensures { result ≡ agrees stated told }
{
    match (stated, told) {
        (None, _) => true,
        (Some(_), None) => false,
        (Some(number), Some(other)) => number == other,
    }
}

/// Whether a file fits a device: it states the vendor, and the device told that, the product and the device type, if these are stated.
fn fits(stated: Identity, told: Identity) -> bool
    ensures { result ≡ fits stated told }
{
    stated.vendor.is_some()
        && agrees(stated.vendor, told.vendor)
        && agrees(stated.product, told.product)
        && agrees(stated.device_type, told.device_type)
}

/// Whether it fits a device of this revision, too.
fn fits_exactly(stated: Identity, told: Identity) -> bool
    ensures { result ≡ fits_exactly stated told }
{
    fits(stated, told) && stated.revision.is_some() && agrees(stated.revision, told.revision)
}

/// Whether some file fits a device of this revision, too.
fn is_exact_among(all: &[Identity], told: Identity) -> bool
    ensures { result ≡ is_exact_among all.now told }
{
    match all {
        [] => false,
        [first, rest @ ..] => fits_exactly(*first, told) || is_exact_among(rest, told),
    }
}

/// Whether a file is one of those that fit a device: of its revision, and if there is none, of any.
pub fn is_chosen(all: &[Identity], stated: Identity, told: Identity) -> bool
    ensures { result ≡ is_chosen all.now stated told }
{
    if is_exact_among(all, told) {
        fits_exactly(stated, told)
    } else {
        fits(stated, told)
    }
}

/// Adds the places of those from a place on.
fn add_places(
    places: &mut Vec<usize>,
    all: &[Identity],
    place: usize,
    rest: &[Identity],
    told: Identity,
) -> Result<(), AllocError>
    requires { place + length rest.now ≤ length all.now }
    ensures { OnOk result (places.new.items ≡ places.old.items ++ places_from place all.now rest.now told) }
{
    let Some((first, rest)) = rest.split_first() else {
        return Ok(());
    };
    if is_chosen(all, *first, told) {
        places.push(place)?;
    }
    add_places(places, all, place + 1, rest, told)
}

/// The places of all files that fit a device, by what each states.
pub fn places(alloc: Global, all: &[Identity], told: Identity) -> Result<Vec<usize>, AllocError>
    ensures { IfOk result (λ places. places.items ≡ places_of all.now told) }
{
    let mut places = Vec::new(alloc);
    add_places(&mut places, all, 0, all, told)?;
    Ok(places)
}
