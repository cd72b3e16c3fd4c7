//! The warnings by their numbers.

/// What the warning of a number from 85 on says, what is usually behind it, and what is right. Nothing for a number that none has.
pub fn warning_rule_words(number: u8) -> &'static str {
    match number {
        85 => {
            "warning 85: NrOfRXPDO or NrOfTXPDO of an EDS file is above the number of PDOs that its lists name\nusually: a wrong number; else the device has PDOs that a plan does not switch off\nright: the number of PDOs that the device has, each in a list\n"
        }
        86 => {
            "warning 86: a TPDO's event timer (1800h sub 5 and on) is less than its row's period: it is sent more often than planned\nusually: the maker's value, which the table does not have\nright: 0 or the period in the device, or the timer as the row's period\n"
        }
        87 => {
            "warning 87: a TPDO's inhibit time (1800h sub 3 and on) is more than its row's period: it may wait longer than planned\nusually: the maker's value, in units of 100 us\nright: at most the period\n"
        }
        88 => {
            "warning 88: a device sends EMCY frames (1014h exists) that no row emcy has, or under another identifier than 80h + node\nusually: a row that was left out\nright: emcy,5,,,100000,0 and 80h + node in 1014h\n"
        }
        89 => {
            "warning 89: 1005h of a device has another identifier than 80h, or bit 30, so that the device makes SYNC itself\nusually: the maker's value\nright: 80h in 1005h, and bit 30 in one device of the network at most\n"
        }
        111 => {
            "warning 111: ParameterValue of an EDS file is not DefaultValue: the plan counts on it, and does not send it\nusually: a DCF file in place of the maker's EDS file\nright: the maker's EDS file, or devices into which this file was loaded\n"
        }
        116 => {
            "warning 116: a PDO has less time left than one error on the bus takes, at most 166 bits: with an error it may be late\nusually: a table of nodes that does not say how rare disturbed transfers are\nright: errors,0,,,1000000,0 in that table, which counts one error each second; else --margin, or a longer deadline\n"
        }
        117 => {
            "warning 117: the file of a device is the DCF of another node, by NodeID of its section DeviceComissioning\nusually: a file that was copied from another node\nright: the maker's EDS file, or the DCF of this node\n"
        }
        118 => {
            "warning 118: LowLimit of an object of the device is above its HighLimit, so that it takes no value: 1005h to 1007h, 1010h, 1011h, 1014h to 1018h, 1200h, and those of PDOs\nusually: limits that were exchanged, or of another type\nright: limits that the device has, or none\n"
        }
        119 => {
            "warning 119: canplan tidy left a value or a limit out of an EDS file, since it has no one reading; the line stands there as a comment\nusually: a unit or a word behind the number, or a limit of a wider type\nright: the number alone, where the machine needs it\n"
        }
        _ => "",
    }
}
