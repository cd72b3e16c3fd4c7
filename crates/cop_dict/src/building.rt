//! The entries of a dictionary, as an EDS text describes them.

ghost use Rattle.std.specs.Prelude.{◌≡◌, ◌≤◌, IfOk, List, ℕ, length};
ghost use Rattle.std.specs.Option.{option_map, ForSome};
ghost use Rattle.cop_eds.specs.Lines.{Gives};
ghost use Rattle.cop_dict.specs.Types.{width_of, greatest_of};
ghost use Rattle.cop_dict.specs.Find.{IsSorted};
ghost use Rattle.cop_dict.specs.Build.{zeros, initial_number, initial_of, limit_of, entry_of_type, entry_built, built};
ghost use Rattle.cop_dict.specs.Keys.{said, keys_of, AreKeys};

use crate::blueprint::Keys;
use crate::data_type::DataType;
use crate::description::Description;
use crate::object::{Bytes, Object};
use crate::pattern::pattern_at;
use cop_eds::{Eds, EdsFault, Refusal};
use std::alloc::{AllocError, Global};

/// The value of an object without one.
fn zeros(alloc: Global, data_type: DataType) -> Result<Bytes, AllocError>
    ensures { IfOk result (λ v. v.items ≡ zeros data_type) }
{
    Bytes::from_slice(alloc, &[0; 8][..data_type.width().unwrap_or(0)])
}

/// The initial value of a type that is no text.
fn initial_number(
    alloc: Global,
    data_type: DataType,
    node: u8,
    line: usize,
    text: &[u8],
) -> Result<Bytes, EdsFault>
    ensures value { Gives (λ v. v.items) result (initial_number data_type (greatest_of data_type) node (line, text.now)) }
    ensures sized { IfOk result (λ v. ForSome (width_of data_type) (λ width. length v.items ≡ width)) }
{
    let Some(greatest) = data_type.greatest() else {
        return Ok(zeros(alloc, data_type)?);
    };
    let pattern = pattern_at(data_type, greatest, node, line, text)?;
    let bytes = pattern.to_le_bytes();
    let width = data_type.width().unwrap_or(0);
    Ok(Bytes::from_slice(alloc, &bytes[..width])?)
}

/// The initial value.
fn initial_of(
    alloc: Global,
    data_type: DataType,
    node: u8,
    entry: Option<(usize, &[u8])>,
) -> Result<Bytes, EdsFault>
    ensures value { Gives (λ v. v.items) result (initial_of data_type node (option_map (λ e. (e.0, e.1.now)) entry.entry)) }
    ensures sized { IfOk result (λ v. ForSome (width_of data_type) (λ width. length v.items ≡ width)) }
{
    match entry {
        None => Ok(zeros(alloc, data_type)?),
        Some((_, text)) if data_type.is_text() => Ok(Bytes::from_slice(alloc, text)?),
        Some((line, text)) => initial_number(alloc, data_type, node, line, text),
    }
}

/// A limit, in a type that has numbers.
fn limit_of(
    data_type: DataType,
    node: u8,
    entry: Option<(usize, &[u8])>,
) -> Result<Option<i128>, Refusal>
    ensures { result ≡ limit_of data_type node (option_map (λ e. (e.0, e.1.now)) entry.entry) }
{
    let Some((line, text)) = entry else {
        return Ok(None);
    };
    let Some(greatest) = data_type.greatest() else {
        return Ok(None);
    };
    let pattern = pattern_at(data_type, greatest, node, line, text)?;
    Ok(Some(data_type.value_of(pattern)))
}

#[tactic(auto, unfolding(crate::specs::Build::entry_of_type))]
/// The entry of an object whose values have a type.
fn entry_of_type(
    alloc: Global,
    node: u8,
    object: &cop_eds::Object,
    keys: &Keys<'_>,
    data_type: DataType,
) -> Result<Object, EdsFault>
    requires index { object.now.index ≤ 65535 }
    requires sub { object.now.sub ≤ 255 }
    ensures { (text : List ℕ) → said keys.now ≡ keys_of text object.now → Gives (λ o. o) result (entry_of_type text node object.now data_type) }
{
    let initial = initial_of(alloc, data_type, node, keys.value)?;
    let low = limit_of(data_type, node, keys.low)?;
    let high = limit_of(data_type, node, keys.high)?;
    let description = Description {
        data_type,
        access: object.access,
        is_mappable: object.is_mappable,
        low,
        high,
    };
    let index = object.index as u16;
    let sub = object.sub as u8;
    Ok(Object::with_initial(alloc, index, sub, description, initial)?)
}

/// The entry of an object.
fn entry_built(
    alloc: Global,
    node: u8,
    object: &cop_eds::Object,
    keys: &Keys<'_>,
) -> Result<Object, EdsFault>
    requires index { object.now.index ≤ 65535 }
    requires sub { object.now.sub ≤ 255 }
    ensures { (text : List ℕ) → said keys.now ≡ keys_of text object.now → Gives (λ o. o) result (entry_built text node object.now) }
{
    let data_type = DataType::numbered(object.data_type);
    entry_of_type(alloc, node, object, keys, data_type)
}

/// The entries of all objects, by rising index and sub.
pub(crate) fn entries(
    alloc: Global,
    eds: &Eds<'_>,
    keys: &[Keys<'_>],
    node: u8,
) -> Result<Vec<Object>, EdsFault>
    requires { AreKeys eds.now keys.now }
    ensures value { Gives (λ v. v.items) result (built eds.now node) }
    ensures sorted { IfOk result (λ v. IsSorted v.items) }
{
    let mut entries = Vec::with_capacity(alloc, eds.objects().len())?;
    for (i, object) in eds.objects().iter().enumerate() {
        entries.push(entry_built(alloc, node, object, &keys[i])?)?;
    }
    Ok(entries)
}
