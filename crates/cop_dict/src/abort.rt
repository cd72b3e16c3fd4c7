//! Why a read or a write is refused.

ghost use Rattle.std.specs.Prelude.{◌≡◌, ◌<◌, ◌^◌};
ghost use Rattle.cop_dict.specs.Codes.{code_of};

use thiserror::Error;

/// Why an SDO transfer is aborted (CiA 301, "SDO abort codes"). The dictionary gives all but
/// `Toggle`, `TimeOut`, `Command` and `NoSize`, which belong to transfers.
#[derive(Clone, Copy, Debug, PartialEq, Eq, Error)]
pub enum Abort {
    #[error("out of memory")]
    NoMemory,
    #[error("the toggle bit did not alternate")]
    Toggle,
    #[error("no answer in time")]
    TimeOut,
    #[error("the command is not known here")]
    Command,
    #[error("the size is needed")]
    NoSize,
    #[error("the data type is not supported")]
    OpaqueType,
    #[error("the object is write only")]
    WriteOnly,
    #[error("the object is read only")]
    ReadOnly,
    #[error("no object at the index")]
    NoObject,
    #[error("no such sub")]
    NoSub,
    #[error("too long for the data type")]
    TooLong,
    #[error("too short for the data type")]
    TooShort,
    #[error("above the high limit")]
    AboveLimit,
    #[error("below the low limit")]
    BelowLimit,
    #[error("not a value of the object")]
    InvalidValue,
    #[error("the object can't be mapped")]
    NotMappable,
    #[error("more than a PDO holds")]
    MappingTooLong,
    #[error("not in this state of the device")]
    DeviceState,
}

impl Abort {
    /// The code that the abort frame carries.
    pub fn code(self) -> u32
        ensures value { result ≡ code_of self }
        ensures width { result < 2 ^ 32 }
    {
        match self {
            Abort::NoMemory => 0x0504_0005,
            Abort::Toggle => 0x0503_0000,
            Abort::TimeOut => 0x0504_0000,
            Abort::Command => 0x0504_0001,
            Abort::NoSize => 0x0607_0010,
            Abort::OpaqueType => 0x0601_0000,
            Abort::WriteOnly => 0x0601_0001,
            Abort::ReadOnly => 0x0601_0002,
            Abort::NoObject => 0x0602_0000,
            Abort::NoSub => 0x0609_0011,
            Abort::TooLong => 0x0607_0012,
            Abort::TooShort => 0x0607_0013,
            Abort::AboveLimit => 0x0609_0031,
            Abort::BelowLimit => 0x0609_0032,
            Abort::InvalidValue => 0x0609_0030,
            Abort::NotMappable => 0x0604_0041,
            Abort::MappingTooLong => 0x0604_0042,
            Abort::DeviceState => 0x0800_0022,
        }
    }
}
