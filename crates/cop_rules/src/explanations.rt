//! The rules by their numbers.

ghost use Rattle.std.specs.Prelude.{◌≡◌, IfSome};

/// What is to be said of a rule.
#[derive(Clone, Copy, Debug)]
pub struct Explanation {
    /// The number by which a refusal names the rule.
    pub number: u8,
    /// The rule that is broken.
    pub rule: &'static str,
    /// What is usually behind it.
    pub cause: &'static str,
    /// A record, a line or a word that is right.
    pub right: &'static str,
}

const STREAMS_HEADER: &str = "id,bytes,period,jitter,deadline";

const TRACE_HEADER: &str = "kind,moment,id,event,bits,data";

/// Of tables of streams, EDS texts, mappings and files of refusals.
static OF_TEXTS: [Explanation; 26] = [
    Explanation {
        number: 1,
        rule: "the table of streams begins with another header, or with none",
        cause: "a column is missing, or the file is another table",
        right: STREAMS_HEADER,
    },
    Explanation {
        number: 2,
        rule: "a record of the table of streams has another number of fields than five",
        cause: "a comma too many, or the empty deadline's comma left out",
        right: "0x181,8,10000,0,",
    },
    Explanation {
        number: 3,
        rule: "a field of the table of streams is no number: each has 1 to 10 decimal digits, or of an id 0x and hexadecimal digits; a deadline may be empty",
        cause: "a unit, a sign, a blank or a point in a number",
        right: "0x181,8,10000,0,670",
    },
    Explanation {
        number: 4,
        rule: "a number of the table of streams is out of its range: id up to 0x7FF, bytes 0 to 8, period 100 to 60000000 us, jitter 0 to 60000000 us, deadline 1 to 60000000 us or empty",
        cause: "an identifier that is not permitted, more than 8 bytes, or times that are not microseconds",
        right: "0x181,8,10000,0,670",
    },
    Explanation {
        number: 5,
        rule: "two streams have one identifier",
        cause: "a record that stands twice, or one identifier written once in decimal and once in hexadecimal",
        right: "each identifier once",
    },
    Explanation {
        number: 6,
        rule: "the table has more than 1,100 streams",
        cause: "tables of several buses in one file",
        right: "one table for each bus",
    },
    Explanation {
        number: 10,
        rule: "a line of the EDS text is no comment, no [section] and no key=value of a section",
        cause: "a text that was cut off, or a file that is no EDS",
        right: "[1800sub1]",
    },
    Explanation {
        number: 11,
        rule: "two sections of the EDS text have one name",
        cause: "[1800sub1] beside [1800sub01] or [1800SUB1]",
        right: "each section once",
    },
    Explanation {
        number: 12,
        rule: "two keys of one section of the EDS text are equal",
        cause: "a line copied and not removed, or one key in other case",
        right: "each key once in its section",
    },
    Explanation {
        number: 13,
        rule: "a number of the EDS text cannot be read, or does not fit its type",
        cause: "a default beyond the object's type or limits, a blank in a number, or more than 64 bits",
        right: "DefaultValue=0x40000180 and DataType=0x0007",
    },
    Explanation {
        number: 14,
        rule: "a decimal number of the EDS text begins with 0 and would read otherwise as octal",
        cause: "leading zeros to fill a column",
        right: "DefaultValue=10 in place of 010",
    },
    Explanation {
        number: 15,
        rule: "a list of the EDS text has no SupportedObjects, lacks an entry that this counts, or names an object that has no section",
        cause: "an object that was removed and is still listed, or a number of objects that is not that of the entries 1=, 2= and on",
        right: "1=0x1800 and a section [1800]",
    },
    Explanation {
        number: 16,
        rule: "the ObjectType, the DataType or the AccessType of an object is not known",
        cause: "a type of a later profile, or a value in another notation",
        right: "ObjectType=0x7, DataType=0x0007 and AccessType=rw",
    },
    Explanation {
        number: 17,
        rule: "the object has the compact form (CompactSubObj), which is not read",
        cause: "an EDS editor that writes arrays in short",
        right: "a section [2000sub1] for each sub-index",
    },
    Explanation {
        number: 18,
        rule: "the EDS text is larger than 4 MiB",
        cause: "another file under this name",
        right: "at most 4194304 bytes",
    },
    Explanation {
        number: 20,
        rule: "the COB-ID of the PDO, its mapping record, the count of that or one of its entries is absent",
        cause: "1800h or 1400h and on is not described, or 1A00h or 1600h and on not as far as its count says",
        right: "[1A00sub1] with DataType=0x0007",
    },
    Explanation {
        number: 21,
        rule: "a mapping has more than 64 entries or more than 64 bits",
        cause: "an object that is longer than the mapping says",
        right: "DefaultValue=0x20000120 for 32 bits of 2000h sub 1",
    },
    Explanation {
        number: 22,
        rule: "a mapped object is not there",
        cause: "a mapping that is kept while its object was removed",
        right: "a section for each object that is mapped",
    },
    Explanation {
        number: 23,
        rule: "a mapped object may not be mapped, not in this direction, or not with this length",
        cause: "PDOMapping=0, a read-only object in an RPDO, or a wrong length in the mapping",
        right: "PDOMapping=1",
    },
    Explanation {
        number: 30,
        rule: "a record of the refusals has another number of fields than four, or is no CSV",
        cause: "a file that was edited by hand",
        right: "250,1,busy,5360",
    },
    Explanation {
        number: 31,
        rule: "the refusals begin with another header or version",
        cause: "another file, or an empty one",
        right: "rate,pdo,what,value and then 0,0,version,1, or 0,0,version,2 where SYNC or an SDO frame is the cause of a refusal",
    },
    Explanation {
        number: 32,
        rule: "a number of the refusals cannot be read; the rate or the PDO is none; long, uplong or sync has another value than 0; or that of sdo is no SDO frame's identifier",
        cause: "a rate in bit/s in place of kbit/s, or PDO 0 in version 1, which has PDOs alone",
        right: "250,1,late,0 of a PDO; in version 2 also 250,0,sync,0 of SYNC, and 250,0,sdo,1413 of the SDO frame 585h",
    },
    Explanation {
        number: 33,
        rule: "a rate is below the one before it, or has a second cause",
        cause: "records that were sorted or joined",
        right: "rates rise, and each has one cause: some PDOs, or in version 2 also SYNC or an SDO frame",
    },
    Explanation {
        number: 34,
        rule: "a PDO's number is not above the one before it at that rate",
        cause: "records that were sorted or joined",
        right: "PDO numbers rise at each rate",
    },
    Explanation {
        number: 35,
        rule: "a word is out of place, or a list is missing",
        cause: "a file that was cut off, or a word of version 2 (sync, sdo, uplong or uplate) in version 1",
        right: "late, then busy numbers, then queue numbers",
    },
    Explanation {
        number: 36,
        rule: "a list has more than 200,000 numbers",
        cause: "evidence that was not written by canplan",
        right: "at most 200,000 numbers",
    },
];

/// Of networks and traces.
static OF_NETWORKS: [Explanation; 27] = [
    Explanation {
        number: 40,
        rule: "the table begins with another header, or a record has another number of fields than its header",
        cause: "the two tables in the wrong order on the command line, or a missing comma",
        right: "row,node,name,eds,period,jitter of nodes, with ,deadline behind it for SDO frames; node,tpdo,period,jitter,deadline,consumers of PDOs; row,node,object,value of settings",
    },
    Explanation {
        number: 41,
        rule: "a field is not what its column wants",
        cause: "a unit or a point in a number, a time in milliseconds, a name with other characters, or a deadline of a frame that is no SDO frame or is never sent",
        right: "device,5,Valve,unit.eds,0,0 of nodes, and sdo_request,5,,,100000,0,5000 where they have the column deadline; 5,1,10000,0,670,11.1 12.3 of PDOs",
    },
    Explanation {
        number: 42,
        rule: "a row stands twice, its node has no device row, or there is no device row at all",
        cause: "a node number mistyped in one of its rows",
        right: "device,5,Valve,unit.eds,0,0 and then emcy,5,,,100000,0",
    },
    Explanation {
        number: 43,
        rule: "the EDS text of the device is refused, for its form or for its objects",
        cause: "an EDS file that breaks CiA 306 on the line that is named",
        right: "a text that an EDS checker accepts",
    },
    Explanation {
        number: 44,
        rule: "a PDO stands twice",
        cause: "a second row in place of a second consumer",
        right: "5,1,10000,0,670,11.1 12.3 with both consumers",
    },
    Explanation {
        number: 45,
        rule: "the TPDO has no payload: its node has no device row, or its mapping is refused",
        cause: "another TPDO number than the device has, or a mapping that is made at start-up alone",
        right: "a TPDO whose 1A00h and on the EDS file describes",
    },
    Explanation {
        number: 46,
        rule: "the COB-ID of the PDO cannot be switched off and then given each identifier from 181h to 57Fh, and from 680h to 6DFh where an SDO frame has a deadline and there are at most 96 PDOs",
        cause: "sub 1 of 1800h or 1400h and on is ro or const, so that the device fixes this identifier; or it is absent, of another type than UNSIGNED32, or has limits",
        right: "a PDO whose sub 1 the device lets be written ([1800sub1] says AccessType=rw and DataType=0x0007); do not edit the maker's file, since the device stays as it is",
    },
    Explanation {
        number: 47,
        rule: "the TPDO has no transmission type, or one that is refused: 0 and 241 to 253 are, 1 to 240, 254 and 255 are not",
        cause: "type 0, which waits for an event and then for SYNC, 252 or 253 for remote frames, or 241 to 251, which are reserved; or a DataType that is no integer type, such as BOOLEAN",
        right: "DefaultValue=255 in [1800sub2] for events, or 1 for each SYNC, where the device's manual says that it sends the PDO so; else leave the PDO out",
    },
    Explanation {
        number: 48,
        rule: "the RPDO has no payload, is used already, or has another layout than the TPDO",
        cause: "a consumer that counts its RPDOs from another number, or maps other lengths",
        right: "an RPDO with the same lengths in the same order",
    },
    Explanation {
        number: 49,
        rule: "the table has more than 512 PDOs",
        cause: "tables of several buses in one file",
        right: "one table for each bus",
    },
    Explanation {
        number: 50,
        rule: "a PDO of the device that no row uses exists and cannot be switched off",
        cause: "its COB-ID is ro or const, so that the device sends or hears this identifier in any case; or it has limits that exclude bit 31",
        right: "another device or another file of its maker; do not edit the maker's file, since the device stays as it is",
    },
    Explanation {
        number: 51,
        rule: "the device's heartbeat cannot have the time of its row",
        cause: "1017h is absent, read-only, or has limits",
        right: "[1017] with DataType=0x0006 and AccessType=rw",
    },
    Explanation {
        number: 52,
        rule: "no bit rate is supported by all devices",
        cause: "BaudRate_ keys of [DeviceInfo] that are 0 or missing in one EDS file",
        right: "BaudRate_250=1",
    },
    Explanation {
        number: 53,
        rule: "the rows of the TPDO and of SYNC do not go with the TPDO's transmission type: by events (254 or 255) it has a period of its own; by SYNC (1 to 240) it has period 0, a row of SYNC has a period, so many of its periods are at most 60000000 microseconds, and SYNC's jitter and the PDO's together at most 40000000",
        cause: "a PDO that is sent by SYNC with a period of its own or without a row of SYNC, or one that is sent by events with period 0",
        right: "sync,0,,,10000,0 of nodes and 5,1,0,100,1620, of PDOs for type 1; 5,1,10000,0,670, for type 255",
    },
    Explanation {
        number: 54,
        rule: "the device does not take a value that the table of settings asks of it",
        cause: "an object that nobody can write, or a value beyond the limits that the EDS file gives it",
        right: "a value between LowLimit and HighLimit, of an object whose AccessType lets it be written",
    },
    Explanation {
        number: 55,
        rule: "a row of the table of settings asks a value of an object that the device does not have, or that its type does not have",
        cause: "an index or a sub mistyped, a text or a REAL in place of a number, or a number beyond the type",
        right: "set,5,6065,2000 or set,5,6060,-3: BOOLEAN, and integers of 1, 2 and 4 bytes, can be set",
    },
    Explanation {
        number: 57,
        rule: "a row of the table of settings names an object of 1000h to 1FFFh other than 1029h",
        cause: "an identifier, a mapping, a heartbeat or SYNC, which a plan sets or relies on",
        right: "set,5,2100,7; periods and heartbeats stand in the tables of nodes and PDOs",
    },
    Explanation {
        number: 60,
        rule: "the moment of a step falls or is after the end, or steps of one moment stand in another order",
        cause: "records of several recorders joined; at one moment ends come first, then queues, then starts",
        right: "moments in ticks of 250 ns that do not fall",
    },
    Explanation {
        number: 61,
        rule: "the identifier is none of the plan's",
        cause: "a frame that the tables do not know, or a device that was not set as planned",
        right: "identifiers of the plan and of the rows of frames",
    },
    Explanation {
        number: 62,
        rule: "an event comes less than its period after the one before it; or, of a PDO that each n-th SYNC sends, its SYNC is less than n SYNCs after that of the one before it",
        cause: "an inhibit time that is not set, a period in the table that is too long, or another transmission type in the device than in its EDS file",
        right: "events a period apart; of a PDO that each n-th SYNC sends, its SYNCs n numbers apart",
    },
    Explanation {
        number: 63,
        rule: "a frame is queued before its event, or later than its jitter allows; or, of a PDO that is sent by SYNC, before the end of its SYNC's transfer, or later than its latency allows",
        cause: "a device that is slower than the table says, or a PDO that is sent by SYNC with an event that is no SYNC's",
        right: "queued from the event to the jitter after it; of a PDO that is sent by SYNC, from the end of its SYNC's transfer to the latency after it",
    },
    Explanation {
        number: 64,
        rule: "the frame's bits or data bytes are none of its stream",
        cause: "another mapping in the device than in its EDS file",
        right: "47 + 8 s to 55 + 10 s bits for s data bytes",
    },
    Explanation {
        number: 65,
        rule: "a start while a transfer runs, or an end that is not the running transfer's at its moment",
        cause: "error frames and retransmissions, or another bit rate",
        right: "each end as many bit times after its start as the frame has bits",
    },
    Explanation {
        number: 66,
        rule: "a start with nothing waiting, or of a stream that has nothing to send",
        cause: "a queue step that was not recorded",
        right: "queue before start",
    },
    Explanation {
        number: 67,
        rule: "a frame starts while one with a lower identifier waits",
        cause: "a controller that sends in another order than by identifier",
        right: "the lowest waiting identifier starts",
    },
    Explanation {
        number: 68,
        rule: "the bus is idle at a tick although a frame waits",
        cause: "a queue moment that was recorded too early, or a node that was off the bus",
        right: "a start as soon as the bus is idle",
    },
    Explanation {
        number: 69,
        rule: "a record is none of a trace",
        cause: "a trace that was cut off: the last record is until",
        right: TRACE_HEADER,
    },
];

/// What is to be said of the rule of rates where those that a plan may have are listed.
pub static NONE_LISTED: Explanation = Explanation {
    number: 52,
    rule: "no bit rate that --rates lists is supported by all devices",
    cause: "a list without the rate of one device, or BaudRate_ keys of [DeviceInfo] that are 0 or missing in one EDS file",
    right: "--rates 250,500 where all devices support one of them",
};

/// The explanation with a number, of some.
fn find(explanations: &'static [Explanation], number: u8) -> Option<&'static Explanation>
    ensures { IfSome result (λ e. e.now.number ≡ number) }
{
    match explanations {
        [] => None,
        [first, rest @ ..] => {
            if first.number == number {
                Some(first)
            } else {
                find(rest, number)
            }
        }
    }
}

/// The explanation of a rule by its number: of each that a refusal can have, 1 to 6, 10 to 18, 20 to 23, 30 to 36, 40 to
/// 55, 57 and 60 to 69.
pub fn explained(number: u8) -> Option<&'static Explanation>
    ensures { IfSome result (λ e. e.now.number ≡ number) }
{
    match find(&OF_TEXTS, number) {
        Some(explanation) => Some(explanation),
        None => find(&OF_NETWORKS, number),
    }
}
