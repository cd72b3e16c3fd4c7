//! Settings of a device.

ghost use Rattle.std.specs.Prelude.{◌≡◌, ◌++◌, ◌∷◌, [], OnOk, OnErr};
ghost use Rattle.cop_setup.specs.Width.{size_of};

use std::alloc::{AllocError, Global};
use std::marker::Model;

/// How many bytes a value has.
#[derive(Clone, Copy, PartialEq, Eq, Debug)]
pub enum Width {
    One,
    Two,
    Four,
}

impl Width {
    /// The number of bytes: 1, 2 or 4.
    pub fn bytes(self) -> u8
        ensures { result ≡ size_of self }
    {
        match self {
            Width::One => 1,
            Width::Two => 2,
            Width::Four => 4,
        }
    }
}

/// A value for the object at an index and a sub: the number whose bytes it is, the least significant first. A number below 0 stands as
/// its two's complement.
#[derive(Clone, Copy, PartialEq, Eq, Debug)]
pub struct Setting {
    pub index: u16,
    pub sub: u8,
    pub value: u32,
    /// How many bytes the object's values have.
    pub width: Width,
}

/// Settings of a device, in their order. Contracts see the list.
#[derive(Drop)]
pub struct SettingList {
    items: Vec<Setting>,
}

impl Model for SettingList {
    ghost use Rattle.std.specs.Prelude.{List};
    ghost use Rattle.cop_setup.specs.declared.setting.Setting.{Setting};

    ghost Value = { List Setting };

    ghost view = { λ s. s.items.items };
}

impl SettingList {
    /// No setting.
    pub fn new(alloc: Global) -> SettingList
        ensures { result ≡ [] }
    {
        SettingList {
            items: Vec::new(alloc),
        }
    }

    /// Puts a setting behind the others. Otherwise want of memory, and none is added.
    pub fn push(&mut self, setting: Setting) -> Result<(), AllocError>
        ensures ok { OnOk result (self.new ≡ self.old ++ setting ∷ []) }
        ensures err { OnErr result (self.new ≡ self.old) }
    {
        self.items.push(setting)?;
        Ok(())
    }

    /// The settings in their order.
    pub fn as_slice(&self) -> &[Setting]
        ensures { result.now ≡ self.now }
    {
        &self.items
    }
}
