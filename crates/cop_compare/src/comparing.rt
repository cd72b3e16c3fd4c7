//! The differences of two dictionaries, by one walk over both.

ghost use Rattle.std.specs.Prelude.{◌≡◌, ◌≤◌, length, drop, IfOk};
ghost use Rattle.cop_compare.specs.Differences.{AreDifferences};
ghost use Rattle.cop_compare.specs.Steps.{over_old, over_new, IsOverFirst, IsStep, over_both};

use crate::adding::add;
use crate::alike::change_of;
use crate::difference::{Change, Difference};
use cop_dict::{Dictionary, Object};
use std::alloc::{AllocError, Global};

/// The difference at the first address that either of two lists of entries has, if they are not alike there, and how many entries each
/// has at it: none or one.
#[derive(Clone, Copy)]
struct Step {
    difference: Option<Difference>,
    old_count: usize,
    new_count: usize,
}

/// The step over an entry that the old list alone has.
fn over_old(old: &Object) -> Step
    ensures { result ≡ over_old old.now }
{
    Step {
        difference: Some(Difference {
            index: old.index(),
            sub: old.sub(),
            change: Change::Gone,
        }),
        old_count: 1,
        new_count: 0,
    }
}

/// The step over an entry that the new list alone has.
fn over_new(new: &Object) -> Step
    ensures { result ≡ over_new new.now }
{
    Step {
        difference: Some(Difference {
            index: new.index(),
            sub: new.sub(),
            change: Change::New,
        }),
        old_count: 0,
        new_count: 1,
    }
}

/// The step over two entries of one address.
fn over_both(old: &Object, change: Option<Change>) -> Step
    ensures { result ≡ over_both old.now change }
{
    let difference = change.map(|change| Difference {
        index: old.index(),
        sub: old.sub(),
        change,
    });
    Step {
        difference,
        old_count: 1,
        new_count: 1,
    }
}

/// The step over the first of two entries, or over both, if they have one address.
fn over_first(old: &Object, new: &Object) -> Step
    ensures { IsOverFirst old.now new.now result }
{
    if old.is_before(new.index(), new.sub()) {
        over_old(old)
    } else if new.is_before(old.index(), old.sub()) {
        over_new(new)
    } else {
        over_both(old, change_of(old, new))
    }
}

/// The step over the first address that either of two lists has; `None` if both are at their ends.
fn next_step(old: &[Object], new: &[Object]) -> Option<Step>
    ensures { IsStep old.now new.now result }
{
    match (old, new) {
        ([], []) => None,
        ([old, ..], []) => Some(over_old(old)),
        ([], [new, ..]) => Some(over_new(new)),
        ([old, ..], [new, ..]) => Some(over_first(old, new)),
    }
}

/// The entries behind so many of them.
fn behind(objects: &[Object], count: usize) -> &[Object]
    requires { count ≤ length objects.now }
    ensures { result.now ≡ drop count objects.now }
{
    &objects[count..]
}

/// Each address at which two dictionaries are not alike, by rising index and sub, and how they differ there: in the value, in the
/// description alone, or since one of them has no entry. The initial value does not count. `Err` is want of memory.
pub fn differences(
    alloc: Global,
    old: &Dictionary,
    new: &Dictionary,
) -> Result<Vec<Difference>, AllocError>
    ensures { IfOk result (λ all. AreDifferences old.now new.now all.items) }
{
    let mut all = Vec::new(alloc);
    let mut old_rest = old.entries();
    let mut new_rest = new.entries();
    while let Some(step) = next_step(old_rest, new_rest) {
        add(&mut all, step.difference)?;
        old_rest = behind(old_rest, step.old_count);
        new_rest = behind(new_rest, step.new_count);
    }
    Ok(all)
}
