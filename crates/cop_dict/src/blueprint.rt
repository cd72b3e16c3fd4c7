//! The dictionary of a device, as its EDS text describes it.

ghost use Rattle.std.specs.Prelude.{◌≡◌, IfOk};
ghost use Rattle.std.specs.Option.{option_map};
ghost use Rattle.cop_eds.specs.Lines.{Gives};
ghost use Rattle.cop_dict.specs.Build.{value_entry, built};
ghost use Rattle.cop_dict.specs.Keys.{said, keys_of, AreKeys};

use crate::building::entries;
use crate::dictionary::Dictionary;
use cop_eds::{Eds, EdsFault, Object, Place};
use std::alloc::{AllocError, Global};
use std::marker::Model;

/// What an object's section says of its value and of its limits: the lines, and the texts.
#[derive(Clone, Copy)]
pub(crate) struct Keys<'a> {
    pub value: Option<(usize, &'a [u8])>,
    pub low: Option<(usize, &'a [u8])>,
    pub high: Option<(usize, &'a [u8])>,
}

/// An EDS text, and what it says of the values of its objects, which is looked up once for all nodes. Contracts see the
/// text.
#[derive(Drop)]
pub struct Blueprint<'a> {
    eds: Eds<'a>,
    keys: Vec<Keys<'a>>,
}

impl<'a> Model for Blueprint<'a> {
    ghost use Rattle.std.specs.Prelude.{ℕ, List};
    ghost use Rattle.cop_dict.specs.Keys.{AreKeys};

    ghost Value = { List ℕ };

    ghost view = { λ b. b.eds };

    ghost invariant = { λ b. AreKeys b.eds b.keys.items };
}

/// The line and the text of an object's value.
fn value_entry<'a>(eds: &Eds<'a>, place: Place) -> Option<(usize, &'a [u8])>
    ensures { option_map (λ e. (e.0, e.1.now)) result ≡ value_entry eds.now place.section }
{
    match eds.entry(place.section, b"ParameterValue") {
        Some(entry) => Some(entry),
        None => eds.entry_at(place, [4, 6], b"DefaultValue"),
    }
}

/// What the section of an object says.
fn keys_of<'a>(eds: &Eds<'a>, object: &Object) -> Keys<'a>
    ensures { said result ≡ keys_of eds.now object.now }
{
    let place = object.place;
    Keys {
        value: value_entry(eds, place),
        low: eds.entry_at(place, [4, 3], b"LowLimit"),
        high: eds.entry_at(place, [5, 4], b"HighLimit"),
    }
}

/// What the sections of all objects say.
fn all_keys<'a>(alloc: Global, eds: &Eds<'a>) -> Result<Vec<Keys<'a>>, AllocError>
    ensures { IfOk result (λ keys. AreKeys eds.now keys.items) }
{
    let mut keys = Vec::with_capacity(alloc, eds.objects().len())?;
    for object in eds.objects() {
        keys.push(keys_of(eds, object))?;
    }
    Ok(keys)
}

impl<'a> Blueprint<'a> {
    /// The blueprint of an accepted text.
    pub fn new(alloc: Global, eds: Eds<'a>) -> Result<Blueprint<'a>, AllocError>
        ensures { IfOk result (λ b. b ≡ eds.entry) }
    {
        let keys = all_keys(alloc, &eds)?;
        Ok(Blueprint { eds, keys })
    }

    /// The text.
    pub fn eds(&self) -> &Eds<'a>
        ensures { result.now ≡ self.now }
    {
        &self.eds
    }

    /// The dictionary of a device that is the node of this number, as [`build`] gives it.
    pub fn dictionary(&self, alloc: Global, node: u8) -> Result<Dictionary, EdsFault>
        ensures { Gives (λ dict. dict) result (built self.now node) }
    {
        Ok(Dictionary::from_entries(entries(alloc, &self.eds, &self.keys, node)?))
    }
}

/// The dictionary of a device that is the node of this number, with its initial values. A refusal
/// is the first by rising index and sub, and of one object its value's before its low limit's and
/// its high limit's; it stands at the key's line.
pub fn build(alloc: Global, eds: &Eds<'_>, node: u8) -> Result<Dictionary, EdsFault>
    ensures { Gives (λ dict. dict) result (built eds.now node) }
{
    let keys = all_keys(alloc, eds)?;
    Ok(Dictionary::from_entries(entries(alloc, eds, &keys, node)?))
}
