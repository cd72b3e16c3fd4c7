//! The codes by which an SDO transfer is aborted, in words.

/// What a code says (CiA 301, "SDO abort codes").
pub fn abort_words(code: u32) -> &'static str {
    match code {
        0x0503_0000 => "the toggle bit did not alternate",
        0x0504_0000 => "no answer in time",
        0x0504_0001 => "the command is not known, or the answer was to another setting",
        0x0504_0005 => "the device is out of memory",
        0x0601_0000 => "the object cannot be accessed so",
        0x0601_0001 => "the object is write only",
        0x0601_0002 => "the object is read only",
        0x0602_0000 =>
            "the device has no such object: look whether the EDS file is that of this device",
        0x0604_0041 => "the object cannot be mapped into a PDO",
        0x0604_0042 => "the mapped objects are longer than a PDO",
        0x0604_0043 => "the parameters do not agree",
        0x0604_0047 => "the device cannot do that inside",
        0x0606_0000 => "a fault of the device's hardware",
        0x0607_0010 => "the length is not that of the data type",
        0x0607_0012 => "the value is too long for the data type",
        0x0607_0013 => "the value is too short for the data type",
        0x0609_0011 =>
            "the object has no such sub: look whether the EDS file is that of this device",
        0x0609_0030 =>
            "the object does not take the value now; a PDO is changed only while it is off",
        0x0609_0031 => "the value is above the high limit",
        0x0609_0032 => "the value is below the low limit",
        0x0609_0036 => "the greatest value is below the least",
        0x060A_0023 => "the device has no room or no connection for it",
        0x0800_0000 => "an error that the device does not explain",
        0x0800_0020 => "the device cannot store the value",
        0x0800_0021 => "the device cannot store the value: it is under local control",
        0x0800_0022 => "the device does not take the value in this state",
        0x0800_0023 => "the device's object dictionary cannot be made or is lost",
        0x0800_0024 => "there is no value",
        _ => "a code of the device's maker",
    }
}
