//! An entry of a dictionary in memory.

ghost use Rattle.std.specs.Prelude.{◌≡◌, ◌<◌, ◌^◌, length, IfSome, OnOk, OnErr, IsOk, IsSome, IfErr, IfOk};
ghost use Rattle.std.specs.Option.{ForSome};
ghost use Rattle.cop_dict.specs.declared.abort.Abort.TheVariants.{NoMemory};
ghost use Rattle.cop_dict.specs.Types.{width_of};
ghost use Rattle.cop_dict.specs.Find.{integer_of, unsigned32_of, is_at, is_before};
ghost use Rattle.cop_dict.specs.Dict.{valued, as_built, reset_communication, IsSized};

use crate::abort::Abort;
use crate::data_type::DataType;
use crate::description::Description;
use crate::numbers::number;
use smallvec::SmallVec;
use std::alloc::{AllocError, Global};
use std::marker::Model;

/// The bytes of a value. Those of a number lie in the object itself.
pub(crate) type Bytes = SmallVec<u8, 8>;

/// What stands at an index and a sub. Its value has room for the initial value, so that a reset
/// takes no memory.
#[derive(Drop)]
pub struct Object {
    index: u16,
    sub: u8,
    description: Description,
    initial: Bytes,
    value: Bytes,
}

impl Model for Object {
    ghost use Rattle.std.specs.Prelude.{◌≡◌, ◌≤◌};
    ghost use Rattle.smallvec.specs.SmallVec.{small_vec_len};
    ghost use Rattle.std.specs.Option.{ForSome};
    ghost use Rattle.cop_dict.specs.Types.{width_of};
    ghost use Rattle.cop_dict.specs.Find.{Entry};

    ghost Value = { Entry };

    ghost view = { λ o. record {
      index = o.index;
      sub = o.sub;
      description = o.description;
      initial = o.initial.items;
      value = o.value.items;
    } };

    ghost invariant = { λ o. (small_vec_len o.initial ≤ o.value.capacity)
        × ForSome (width_of o.description.data_type) (λ width. (small_vec_len o.initial ≡ width) × (small_vec_len o.value ≡ width)) };
}

impl Object {
    /// An object with its initial value, whose length is that of its type.
    pub fn new(
        alloc: Global,
        index: u16,
        sub: u8,
        description: Description,
        initial: &[u8],
    ) -> Result<Object, AllocError>
        requires { ForSome (width_of description.data_type) (λ width. length initial.now ≡ width) }
        ensures { IfOk result (λ o. o ≡ record {
          index = index;
          sub = sub;
          description = description;
          initial = initial.now;
          value = initial.now;
        }) }
    {
        Object::with_initial(
            alloc,
            index,
            sub,
            description,
            Bytes::from_slice(alloc, initial)?,
        )
    }

    /// The same, without a copy of the initial value.
    pub(crate) fn with_initial(
        alloc: Global,
        index: u16,
        sub: u8,
        description: Description,
        initial: Bytes,
    ) -> Result<Object, AllocError>
        requires { ForSome (width_of description.data_type) (λ width. length initial.items ≡ width) }
        ensures { IfOk result (λ o. o ≡ record {
          index = index;
          sub = sub;
          description = description;
          initial = initial.items;
          value = initial.items;
        }) }
    {
        let value = Bytes::from_slice(alloc, &initial)?;
        Ok(Object {
            index,
            sub,
            description,
            initial,
            value,
        })
    }

    pub fn index(&self) -> u16
        ensures { result ≡ self.now.index }
    {
        self.index
    }

    pub fn sub(&self) -> u8
        ensures { result ≡ self.now.sub }
    {
        self.sub
    }

    pub fn description(&self) -> Description
        ensures { result ≡ self.now.description }
    {
        self.description
    }

    /// The value; no bytes for an opaque type.
    pub fn value(&self) -> &[u8]
        ensures value { result.now ≡ self.now.value }
        ensures sized { IsSized self.now }
    {
        self.value.as_slice()
    }

    /// The value that a reset gives.
    pub fn initial(&self) -> &[u8]
        ensures value { result.now ≡ self.now.initial }
        ensures sized { IsSized self.now }
    {
        self.initial.as_slice()
    }

    /// The number that the value stands for, in a type that has numbers.
    pub fn integer(&self) -> Option<i128>
        ensures { result ≡ integer_of self.now }
    {
        let data_type = self.description.data_type;
        match data_type.greatest() {
            Some(_) => Some(data_type.value_of(number(self.value.as_slice()))),
            None => None,
        }
    }

    /// The number that an UNSIGNED32 holds.
    pub fn unsigned32(&self) -> Option<u64>
        ensures value { result ≡ unsigned32_of self.now }
        ensures bound { IfSome result (λ n. n < 2 ^ 32) }
    {
        match self.description.data_type {
            DataType::Unsigned32 => Some(number(self.value.as_slice())),
            _ => None,
        }
    }

    pub fn is_at(&self, index: u16, sub: u8) -> bool
        ensures { result ≡ is_at index sub self.now }
    {
        self.index == index && self.sub == sub
    }

    /// Whether it stands before an index and a sub.
    pub fn is_before(&self, index: u16, sub: u8) -> bool
        ensures { result ≡ is_before index sub self.now }
    {
        self.index < index || (self.index == index && self.sub < sub)
    }

    /// Goes back to the initial value.
    pub(crate) fn reset(&mut self)
        ensures { self.new ≡ as_built self.old }
    {
        self.value.clear();
        self.value.extend_from_slice(&self.initial).unwrap();
    }

    /// Goes back to the initial value where the index is in the communication profile area.
    pub(crate) fn reset_communication(&mut self)
        ensures { self.new ≡ reset_communication self.old }
    {
        if matches!(self.index, 0x1000..=0x1FFF) {
            self.reset();
        }
    }

    /// Replaces the value by bytes that are as many. It takes no memory.
    pub(crate) fn replace(&mut self, bytes: &[u8])
        requires { width_of self.old.description.data_type ≡ Some (length bytes.now) }
        ensures { self.new ≡ valued bytes.now self.old }
    {
        self.value.clear();
        self.value.extend_from_slice(bytes).unwrap();
    }

    /// Replaces the value. Memory is taken only for more bytes than the initial value has.
    pub(crate) fn set(&mut self, bytes: &[u8]) -> Result<(), Abort>
        requires { ForSome (width_of self.old.description.data_type) (λ width. length bytes.now ≡ width) }
        ensures ok { OnOk result (self.new ≡ valued bytes.now self.old) }
        ensures err { OnErr result (self.new ≡ self.old) }
        ensures memory { IfErr result (λ abort. (abort ≡ NoMemory) × (length self.old.initial < length bytes.now)) }
        ensures in_place { IsSome (width_of self.old.description.data_type) → IsOk result }
    {
        if bytes.len() <= self.initial.len() {
            self.value.clear();
            self.value.extend_from_slice(bytes).unwrap();
            return Ok(());
        }
        match Bytes::from_slice(*self.value.allocator(), bytes) {
            Ok(value) => {
                self.value = value;
                Ok(())
            }
            Err(_) => Err(Abort::NoMemory),
        }
    }
}
