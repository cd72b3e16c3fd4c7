//! Logs in each of their forms.

use cop_lines::{Entry, LineFault, LineReader, Message};
use std::test::Fail;

/// A log, whether its stamps are distances, and what is read of it: channel, microsecond, identifier and data of each frame.
type Row = (&'static [u8], bool, &'static [Seen]);

type Seen = (&'static [u8], u64, u32, &'static [u8]);

const DATA: &[u8] = &[0, 0x11, 0x22, 0x33, 0x44, 0x55, 0x66, 0x77];

// The mark of UTF-8 stands in front, and blank lines between.
const LOG: &[u8] =
    b"\xEF\xBB\xBF(1436509052.249713) can0 181#0011223344556677\r\n\r\n(1436509052.250000) can1 00000181#R T\n";

const COLUMNS: &[u8] =
    b" (1436509052.249713)  can0  181   [8]  00 11 22 33 44 55 66 77   '.\"3D Ufw'\r\n\
     (1436509052.250000)  vcan0  RX - -  18FEF100   [1]  A5\n\
     (1436509052.250001)  can0  TX B E  7FF   [0]  remote request\n\
     (1436509052.250002)  can0  20000004   [2]  00 04                     ERRORFRAME\n\tcontroller-problem{rx-error-warning}\n";

const DISTANCES: &[u8] =
    b" (000.000000)  can0  181   [0] \n (000.000100)  can0  182   [0] \n (001.000020)  can0  183   [0] \n";

const VECTOR: &[u8] =
    b"date Thu Nov 26 10:14:44.123 PM 2026\nbase hex  timestamps absolute\nno internal events logged\n\
    // version 9.0.0\nBegin Triggerblock Thu Nov 26 10:14:44.123 PM 2026\n   0.000000 Start of measurement\n\
    \x20  0.016132 1  181             Rx   d 8 00 11 22 33 44 55 66 77  Length = 224000 BitCount = 115 ID = 385\n\
    \x20  0.0170 2  18FEF100x       TxRq d 1 A5\n   0.0171 2  18FEF100x       Tx   d 1 A5\n   0.018000 1  Statistic: D 3 R 0 XD 0 XR 0 E 0 O 0 B 0.15%\n\
    \x20  0.018123456 1  7FF             Rx   r\n   0.019000 1  ErrorFrame\n   0.020000 Li 1 34 Rx 8 00\nEnd TriggerBlock\n";

// As hardware of CAN FD writes classical frames: flags have no bit 12.
const VECTOR_FD: &[u8] = b"date Thu Nov 26 10:14:44 2026\nbase hex  timestamps absolute\n\
     0.000100 CANFD 1 Rx 181 0 0 8 8 00 11 22 33 44 55 66 77 130000 130 0 0 0 0 0 0\n\
     0.000200 CANFD 2 Tx 18FEF100x Engine 0 0 1 1 A5 130000 130 200000 0 0 0 0 0\n\
     0.000300 CANFD 1 Rx 7FF 0 0 2 0 130000 130 10 0 0 0 0 0\n\
     0.000400 CANFD 1 Rx ErrorFrame\n     0.000500 CANFD 1 TxRq 181 0 0 1 1 00 0 0 0 0 0 0 0 0\n";

const RELATIVE: &[u8] =
    b"date Thu Nov 26 10:14:44 2026\r\nbase dec  timestamps relative\r\n 1.5 1 385 Rx d 2 0 255\r\n\
    \x20 0.5 Start of measurement\r\n 0.000001 1 536870911x Rx d 0\r\n";

const PEAK_1_0: &[u8] = b";####\n;   Message Number\n     1)      1841      0001  2  00 A5\n\
    \x20    2)      1842  FFFFFFFF  4  00 00 00 08  BUSHEAVY\n     3)      1900  18FEF100  0\n     4)  1901  0002  8  RTR\n";

const PEAK_1_1: &[u8] = b";$FILEVERSION=1.1\r\n;$STARTTIME=37704.5364870833\r\n\
    \x20    1)      1059.9  Rx         0300  7  00 00 00 00 04 00 00\r\n     2)      1298.945  Tx     00000400  2  00 01\r\n\
    \x20    3)      1334.416  Warng  FFFFFFFF  4  00 00 00 08  BUSHEAVY\r\n     4)      1352.743  Rx         0100  3  RTR\r\n";

const PEAK_1_2: &[u8] = b";$FILEVERSION=1.2\n     1)      1059.9  2  Rx         0300  2  00 A5\n";

const PEAK_1_3: &[u8] =
    b";$FILEVERSION=1.3\n      1)      1059.900 1  Rx        0300 -  2    00 A5\n";

const PEAK_2_0: &[u8] =
    b";$FILEVERSION=2.0\n;$COLUMNS=N,O,T,I,d,l,D\n      1      1059.900 DT     0300 Rx 2    00 A5\n\
    \x20     2      1060.000 RR     0301 Rx 4\n      3      1061.000 ER          Rx 5    04 00 02 00 00\n\
    \x20     4      1062.000 ST          Rx 4    00 00 00 08\n";

const PEAK_2_1: &[u8] =
    b";$FILEVERSION=2.1\n;$STARTTIME=43008.920986006946\n;$COLUMNS=N,O,T,B,I,d,R,L,D\n;\n\
    \x20     1      1059.900 DT  2     0300 Rx -  2    00 A5\n      2      1060.123 DT 1 18FEF100 Tx -  0    \n\
    \x20     3      1061.000 EC 1        - Rx -  2    00 01\n";

const ROWS: &[Row] = &[
    (
        LOG,
        false,
        &[
            (b"can0", 1436509052249713, 0x181, DATA),
            (b"can1", 1436509052250000, 0xC0000181, b""),
        ],
    ),
    (
        COLUMNS,
        false,
        &[
            (b"can0", 1436509052249713, 0x181, DATA),
            (b"vcan0", 1436509052250000, 0x98FEF100, b"\xA5"),
            (b"can0", 1436509052250001, 0x400007FF, b""),
            (b"can0", 1436509052250002, 0x20000004, b"\x00\x04"),
        ],
    ),
    (
        DISTANCES,
        true,
        &[
            (b"can0", 0, 0x181, b""),
            (b"can0", 100, 0x182, b""),
            (b"can0", 1000120, 0x183, b""),
        ],
    ),
    (
        VECTOR,
        false,
        &[
            (b"1", 16132, 0x181, DATA),
            (b"2", 17100, 0x98FEF100, b"\xA5"),
            (b"1", 18123, 0x400007FF, b""),
            (b"1", 19000, 0x20000000, b""),
        ],
    ),
    (
        VECTOR_FD,
        false,
        &[
            (b"1", 100, 0x181, DATA),
            (b"2", 200, 0x98FEF100, b"\xA5"),
            (b"1", 300, 0x400007FF, b""),
            (b"1", 400, 0x20000000, b""),
        ],
    ),
    (
        RELATIVE,
        false,
        &[
            (b"1", 1500000, 385, b"\x00\xFF"),
            (b"1", 2000001, 0x9FFFFFFF, b""),
        ],
    ),
    (
        PEAK_1_0,
        false,
        &[
            (b"1", 1841000, 1, b"\x00\xA5"),
            (b"1", 1900000, 0x98FEF100, b""),
            (b"1", 1901000, 0x40000002, b""),
        ],
    ),
    (
        PEAK_1_1,
        false,
        &[
            (b"1", 1059900, 0x300, b"\x00\x00\x00\x00\x04\x00\x00"),
            (b"1", 1298945, 0x80000400, b"\x00\x01"),
            (b"1", 1352743, 0x40000100, b""),
        ],
    ),
    (PEAK_1_2, false, &[(b"2", 1059900, 0x300, b"\x00\xA5")]),
    (PEAK_1_3, false, &[(b"1", 1059900, 0x300, b"\x00\xA5")]),
    (
        PEAK_2_0,
        false,
        &[
            (b"1", 1059900, 0x300, b"\x00\xA5"),
            (b"1", 1060000, 0x40000301, b""),
            (b"1", 1061000, 0x20000000, b""),
        ],
    ),
    (
        PEAK_2_1,
        false,
        &[
            (b"2", 1059900, 0x300, b"\x00\xA5"),
            (b"1", 1060123, 0x98FEF100, b""),
        ],
    ),
];

fn is_seen(message: &Message, channel: &[u8], seen: &Seen) -> bool {
    let (wanted, at, id, bytes) = *seen;
    let Message { entry, body } = *message;
    let Entry {
        line: _,
        at: stamp,
        id: own,
        len,
    } = entry;
    let len = usize::from(len).min(8);
    channel == wanted && stamp == at && own == id && &body[..len] == bytes
}

#[test]
fn each_form_is_read(rt: HostRuntime) -> Result<(), Fail> {
    for row in ROWS {
        let (text, are_distances, all) = *row;
        let mut reader = LineReader::new(are_distances);
        let mut rest = all;
        for line in text.split(|byte| *byte == b'\n') {
            if let Some(message) = reader.read(line)? {
                let channel = reader.channel_in(line);
                let is_next = matches!(rest, [seen, ..] if is_seen(&message, channel, seen));
                assert!(rt; is_next);
                rest = &rest[1..];
            }
        }
        assert!(rt; rest.is_empty());
    }
    Ok(())
}

// Logs of which the last line alone is refused.
const REFUSED: &[(&[u8], LineFault)] = &[
    (b"Timestamp,ID,Data", LineFault::Form),
    (b"(1.000000) can0 181#00\n1.5", LineFault::Stamp),
    (b"(1.000000)  can0  181  [08]  00", LineFault::Form),
    (b"(1.000000)  can0  181  [2]  00", LineFault::Data),
    (b"(1.000000)  can0  181  [1]  00 11", LineFault::Data),
    (b"(1.000000)  can0  1811  [1]  00", LineFault::Identifier),
    (
        b"(1.000000)  can0  181  [0]\n1.000000  can0  181  [0]",
        LineFault::Stamp,
    ),
    (b"date\nbase oct  timestamps absolute", LineFault::Form),
    (
        b"date\n0.1 1 181 Rx d 1 00\n0.1x 1 181 Rx d 1 00",
        LineFault::Stamp,
    ),
    (b"date\n0.1 1 800 Rx d 1 00", LineFault::Identifier),
    (b"date\n0.1 1 Engine Rx d 1 00", LineFault::Identifier),
    (b"date\n0.1 1 181 R d 1 00", LineFault::Form),
    (b"date\n0.1 1 181 Rx d 2 00", LineFault::Data),
    (b"date\n0.1 CANFD 1 Rx 181 0 0 d 1 1 00", LineFault::Form),
    (
        b"date\n0.1 CANFD 1 Rx 181 0 0 1 1 00 0 0 1000",
        LineFault::Form,
    ),
    (b"date\n0.1 CANFD 1 Rx 181 0 0 9 12 00", LineFault::Form),
    (b";$FILEVERSION=3.0", LineFault::Form),
    (b";$COLUMNS=N,O,T,B,d,D", LineFault::Form),
    (b";\n1) 1841 0001 1", LineFault::Data),
    (b";\n1) 1841 0800 0", LineFault::Identifier),
    (
        b";$FILEVERSION=2.1\n1 1.0 FD 1 0300 Rx - 1 00",
        LineFault::Form,
    ),
    (
        b";$FILEVERSION=2.1\n1 -1.0 DT 1 0300 Rx - 1 00",
        LineFault::Stamp,
    ),
];

#[test]
fn a_line_that_is_none_of_its_form_is_refused(rt: HostRuntime) -> Result<(), Fail> {
    for row in REFUSED {
        let (text, fault) = *row;
        let mut reader = LineReader::new(false);
        let mut last = None;
        for line in text.split(|byte| *byte == b'\n') {
            assert!(rt; last.is_none());
            last = reader.read(line).err();
        }
        assert!(rt; last == Some(fault));
    }
    Ok(())
}

#[test]
fn distances_begin_at_0_and_are_below_an_hour(rt: HostRuntime) -> Result<(), Fail> {
    let mut reader = LineReader::new(true);
    let late = reader.read(b" (000.000001)  can0  181   [0] ");
    assert!(rt; late.err() == Some(LineFault::Distance));
    assert!(rt; reader.read(b" (000.000000)  can0  181   [0] ").is_ok());
    let long = reader.read(b" (3600.000000)  can0  181   [0] ");
    assert!(rt; long.err() == Some(LineFault::Distance));
    assert!(rt; LineFault::Distance.number() == 96);
    Ok(())
}
