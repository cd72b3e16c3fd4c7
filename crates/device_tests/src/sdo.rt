mod replies;
mod requests;

use cop_dict::{Access, DataType, Description, Dictionary, Object};
use cop_frame::Frame;
use cop_sdo::{Client, ClientFault, Progress, Server, serve};
use std::alloc::{AllocError, Global};

// An entry of a dictionary: its address, type, access, and initial value.
pub type Row<'a> = (u16, u8, DataType, Access, &'a [u8]);

pub fn dictionary(alloc: Global, rows: &[Row<'_>]) -> Result<Dictionary, AllocError> {
    let mut dict = Dictionary::new(alloc);
    for row in rows {
        push(alloc, &mut dict, row)?;
    }
    Ok(dict)
}

// An entry behind those of a dictionary, where it is of its type's width and they are before it.
fn push(alloc: Global, dict: &mut Dictionary, row: &Row<'_>) -> Result<(), AllocError> {
    let (index, sub, data_type, access, initial) = *row;
    let description = Description {
        data_type,
        access,
        is_mappable: false,
        low: None,
        high: None,
    };
    let fits = data_type.width().is_none_or(|width| width == initial.len());
    if fits && dict.entries().iter().all(|e| e.is_before(index, sub)) {
        dict.push(Object::new(alloc, index, sub, description, initial)?)?;
    }
    Ok(())
}

pub const DEVICE: &[Row<'static>] = &[
    (0x1017, 0, DataType::Unsigned16, Access::ReadWrite, &[0, 0]),
    (
        0x1800,
        1,
        DataType::Unsigned32,
        Access::ReadWrite,
        &[0x85, 0x01, 0x00, 0x40],
    ),
    (0x1800, 2, DataType::Unsigned8, Access::ReadWrite, &[255]),
    (0x2000, 0, DataType::VisibleString, Access::ReadWrite, b""),
    (
        0x2001,
        0,
        DataType::VisibleString,
        Access::ReadOnly,
        b"ten bytes!",
    ),
    (
        0x2002,
        0,
        DataType::OctetString,
        Access::ReadOnly,
        &[1, 2, 3],
    ),
    (0x2003, 0, DataType::Unsigned16, Access::WriteOnly, &[0, 0]),
    (0x2004, 0, DataType::Unsigned64, Access::ReadWrite, &[0; 8]),
];

pub fn asks(body: [u8; 8]) -> Frame {
    Frame::new(0x605, &body)
}

pub fn says(body: [u8; 8]) -> Frame {
    Frame::new(0x585, &body)
}

// Whether bytes are two parts, one behind the other.
pub fn is_joined(all: &[u8], front: &[u8], back: &[u8]) -> bool {
    all.len() == front.len() + back.len() && all.starts_with(front) && all.ends_with(back)
}

// A request, and what the server answers.
type Exchange = ([u8; 8], Option<[u8; 8]>);

// The first place where an idle server of node 5 answers requests in turn otherwise.
fn first_other(alloc: Global, dict: &mut Dictionary, rows: &[Exchange]) -> Option<usize> {
    let mut server = Server::new(alloc, 5);
    for place in 0..rows.len() {
        let (request, answer) = rows[place];
        if server.step(dict, &asks(request)) != answer.map(says) {
            return Some(place);
        }
    }
    None
}

// Whether this value is stored at sub 0 of an index.
fn holds(dict: &Dictionary, index: u16, value: &[u8]) -> bool {
    dict.read(index, 0) == Ok(value)
}

const UPLOADS: &[Exchange] = &[
    // 4, 1, 2 and 3 bytes at once
    (
        [0x40, 0, 0x18, 1, 0, 0, 0, 0],
        Some([0x43, 0, 0x18, 1, 0x85, 1, 0, 0x40]),
    ),
    (
        [0x40, 0, 0x18, 2, 0, 0, 0, 0],
        Some([0x4F, 0, 0x18, 2, 0xFF, 0, 0, 0]),
    ),
    (
        [0x40, 0x17, 0x10, 0, 0, 0, 0, 0],
        Some([0x4B, 0x17, 0x10, 0, 0, 0, 0, 0]),
    ),
    (
        [0x40, 2, 0x20, 0, 0, 0, 0, 0],
        Some([0x47, 2, 0x20, 0, 1, 2, 3, 0]),
    ),
    // an unknown command, and what can't be read
    (
        [0xA0, 0, 0x18, 1, 0, 0, 0, 0],
        Some([0x80, 0, 0x18, 1, 1, 0, 4, 5]),
    ),
    (
        [0x40, 3, 0x20, 0, 0, 0, 0, 0],
        Some([0x80, 3, 0x20, 0, 1, 0, 1, 6]),
    ),
    (
        [0x40, 9, 0x20, 0, 0, 0, 0, 0],
        Some([0x80, 9, 0x20, 0, 0, 0, 2, 6]),
    ),
    (
        [0x40, 0, 0x18, 9, 0, 0, 0, 0],
        Some([0x80, 0, 0x18, 9, 0x11, 0, 9, 6]),
    ),
    // 10 bytes in segments, and none
    (
        [0x40, 1, 0x20, 0, 0, 0, 0, 0],
        Some([0x41, 1, 0x20, 0, 10, 0, 0, 0]),
    ),
    (
        [0x60, 0, 0, 0, 0, 0, 0, 0],
        Some([0, b't', b'e', b'n', b' ', b'b', b'y', b't']),
    ),
    (
        [0x70, 0, 0, 0, 0, 0, 0, 0],
        Some([0x19, b'e', b's', b'!', 0, 0, 0, 0]),
    ),
    (
        [0x60, 0, 0, 0, 0, 0, 0, 0],
        Some([0x80, 0, 0, 0, 1, 0, 4, 5]),
    ),
    (
        [0x40, 0, 0x20, 0, 0, 0, 0, 0],
        Some([0x41, 0, 0x20, 0, 0, 0, 0, 0]),
    ),
    (
        [0x60, 0, 0, 0, 0, 0, 0, 0],
        Some([0x0F, 0, 0, 0, 0, 0, 0, 0]),
    ),
    // a wrong toggle, the client's abort, and an unknown command in the middle
    (
        [0x40, 1, 0x20, 0, 0, 0, 0, 0],
        Some([0x41, 1, 0x20, 0, 10, 0, 0, 0]),
    ),
    (
        [0x70, 0, 0, 0, 0, 0, 0, 0],
        Some([0x80, 1, 0x20, 0, 0, 0, 3, 5]),
    ),
    (
        [0x40, 1, 0x20, 0, 0, 0, 0, 0],
        Some([0x41, 1, 0x20, 0, 10, 0, 0, 0]),
    ),
    ([0x80, 1, 0x20, 0, 0, 0, 4, 5], None),
    (
        [0x60, 0, 0, 0, 0, 0, 0, 0],
        Some([0x80, 0, 0, 0, 1, 0, 4, 5]),
    ),
    (
        [0x40, 1, 0x20, 0, 0, 0, 0, 0],
        Some([0x41, 1, 0x20, 0, 10, 0, 0, 0]),
    ),
    (
        [0xC0, 0, 0x18, 1, 0, 0, 0, 0],
        Some([0x80, 1, 0x20, 0, 1, 0, 4, 5]),
    ),
];

const DOWNLOADS: &[Exchange] = &[
    // with its bytes, and with the object's width
    (
        [0x23, 0, 0x18, 1, 0x85, 1, 0, 0xC0],
        Some([0x60, 0, 0x18, 1, 0, 0, 0, 0]),
    ),
    (
        [0x22, 0x17, 0x10, 0, 0x64, 0, 9, 9],
        Some([0x60, 0x17, 0x10, 0, 0, 0, 0, 0]),
    ),
    (
        [0x22, 4, 0x20, 0, 1, 2, 3, 4],
        Some([0x80, 4, 0x20, 0, 0x10, 0, 7, 6]),
    ),
    (
        [0x22, 0, 0x20, 0, 1, 2, 3, 4],
        Some([0x80, 0, 0x20, 0, 0x10, 0, 7, 6]),
    ),
    (
        [0x2F, 0x17, 0x10, 0, 1, 0, 0, 0],
        Some([0x80, 0x17, 0x10, 0, 0x13, 0, 7, 6]),
    ),
    (
        [0x23, 0x17, 0x10, 0, 1, 0, 0, 0],
        Some([0x80, 0x17, 0x10, 0, 0x12, 0, 7, 6]),
    ),
    (
        [0x2F, 1, 0x20, 0, 1, 0, 0, 0],
        Some([0x80, 1, 0x20, 0, 2, 0, 1, 6]),
    ),
    // a stated size that is wrong, or above 65,535
    (
        [0x21, 4, 0x20, 0, 7, 0, 0, 0],
        Some([0x80, 4, 0x20, 0, 0x13, 0, 7, 6]),
    ),
    (
        [0x21, 0, 0x20, 0, 0, 0, 1, 0],
        Some([0x80, 0, 0x20, 0, 0x12, 0, 7, 6]),
    ),
    // more bytes than stated, and fewer
    (
        [0x21, 0, 0x20, 0, 3, 0, 0, 0],
        Some([0x60, 0, 0x20, 0, 0, 0, 0, 0]),
    ),
    (
        [0x07, 1, 2, 3, 4, 0, 0, 0],
        Some([0x80, 0, 0x20, 0, 0x12, 0, 7, 6]),
    ),
    (
        [0x21, 0, 0x20, 0, 3, 0, 0, 0],
        Some([0x60, 0, 0x20, 0, 0, 0, 0, 0]),
    ),
    (
        [0x0B, 1, 2, 0, 0, 0, 0, 0],
        Some([0x80, 0, 0x20, 0, 0x13, 0, 7, 6]),
    ),
    // a segment without a transfer
    (
        [0x0B, 1, 2, 0, 0, 0, 0, 0],
        Some([0x80, 0, 0, 0, 1, 0, 4, 5]),
    ),
    // a wrong toggle
    (
        [0x21, 0, 0x20, 0, 10, 0, 0, 0],
        Some([0x60, 0, 0x20, 0, 0, 0, 0, 0]),
    ),
    ([0, 1, 2, 3, 4, 5, 6, 7], Some([0x20, 0, 0, 0, 0, 0, 0, 0])),
    (
        [0x09, 8, 9, 10, 0, 0, 0, 0],
        Some([0x80, 0, 0x20, 0, 0, 0, 3, 5]),
    ),
];

#[test]
fn uploads(rt: HostRuntime) -> Result<(), AllocError> {
    let mut dict = dictionary(rt.alloc(), DEVICE)?;
    let other = first_other(rt.alloc(), &mut dict, UPLOADS);
    assert!(rt; other.is_none(), "{other:?}");
    Ok(())
}

#[test]
fn downloads(rt: HostRuntime) -> Result<(), AllocError> {
    let mut dict = dictionary(rt.alloc(), DEVICE)?;
    let other = first_other(rt.alloc(), &mut dict, DOWNLOADS);
    assert!(rt; other.is_none(), "{other:?}");
    assert!(rt; holds(&dict, 0x2000, b"") && holds(&dict, 0x1017, &[0x64, 0]));
    Ok(())
}

#[test]
fn ten_bytes_in_segments(rt: HostRuntime) -> Result<(), AllocError> {
    let mut dict = dictionary(rt.alloc(), DEVICE)?;
    let mut server = Server::new(rt.alloc(), 5);
    let frames = [
        asks([0x21, 0, 0x20, 0, 10, 0, 0, 0]),
        asks([0, 1, 2, 3, 4, 5, 6, 7]),
        Frame::new(0x606, &[0x80, 0, 0x20, 0, 0, 0, 0, 0]),
        asks([0x19, 8, 9, 10, 0, 0, 0, 0]),
    ];
    let given = serve(rt.alloc(), &mut server, &mut dict, &frames)?;
    let wanted = [
        says([0x60, 0, 0x20, 0, 0, 0, 0, 0]),
        says([0x20, 0, 0, 0, 0, 0, 0, 0]),
        says([0x30, 0, 0, 0, 0, 0, 0, 0]),
    ];
    assert!(rt; given.as_slice() == wanted.as_slice());
    assert!(rt; holds(&dict, 0x2000, &[1, 2, 3, 4, 5, 6, 7, 8, 9, 10]));
    Ok(())
}

// Runs a client and a server against one another until the client is done.
fn play(client: &mut Client, server: &mut Server, dict: &mut Dictionary, first: Frame) -> Progress {
    let mut frame = first;
    for _ in 0..10_000u16 {
        let Some(answer) = server.step(dict, &frame) else {
            return Progress::Ignored;
        };
        match client.step(&answer) {
            Progress::Send(next) => frame = next,
            other => return other,
        }
    }
    Progress::Ignored
}

// How a download to sub 0 of an index ends; one for which the client gets no memory is aborted.
fn give(
    client: &mut Client,
    server: &mut Server,
    dict: &mut Dictionary,
    index: u16,
    value: &[u8],
) -> Progress {
    match client.download(index, 0, value) {
        Ok(first) => play(client, server, dict, first),
        Err(ClientFault::Memory) => Progress::Aborted(0x0504_0005),
        Err(_) => Progress::Ignored,
    }
}

// How an upload of sub 0 of an index ends.
fn take(client: &mut Client, server: &mut Server, dict: &mut Dictionary, index: u16) -> Progress {
    match client.upload(index, 0) {
        Ok(first) => play(client, server, dict, first),
        Err(_) => Progress::Ignored,
    }
}

// Whether a value goes to the server and comes back.
fn goes_and_comes(
    client: &mut Client,
    server: &mut Server,
    dict: &mut Dictionary,
    value: &[u8],
) -> bool {
    let is_given = give(client, server, dict, 0x2000, value) == Progress::Done;
    let is_stored = holds(dict, 0x2000, value);
    let is_asked = take(client, server, dict, 0x2000) == Progress::Done;
    is_given && is_stored && is_asked && client.taken() == value
}

// So many bytes, all the same.
fn same_bytes(alloc: Global, count: usize) -> Result<Vec<u8>, AllocError> {
    let mut bytes = Vec::new(alloc);
    bytes.resize(count, 0x5A)?;
    Ok(bytes)
}

#[test]
fn values_go_and_come(rt: HostRuntime) -> Result<(), AllocError> {
    let value = same_bytes(rt.alloc(), 65_535)?;
    let mut dict = dictionary(rt.alloc(), DEVICE)?;
    let mut server = Server::new(rt.alloc(), 5);
    let mut client = Client::new(rt.alloc(), 5);
    for len in 0..21usize {
        assert!(rt; len <= value.len());
        assert!(rt;
            goes_and_comes(&mut client, &mut server, &mut dict, &value[..len]),
            "{len}"
        );
    }
    assert!(rt; goes_and_comes(&mut client, &mut server, &mut dict, &value));
    Ok(())
}

#[test]
fn a_value_that_is_too_long_is_refused(rt: HostRuntime) -> Result<(), AllocError> {
    let value = same_bytes(rt.alloc(), 65_536)?;
    let mut client = Client::new(rt.alloc(), 5);
    assert!(rt; client.download(0x2000, 0, &value) == Err(ClientFault::TooLong));
    assert!(rt; client.expire().is_none());
    Ok(())
}

#[test]
fn a_call_while_a_transfer_runs_is_refused(rt: HostRuntime) {
    let mut client = Client::new(rt.alloc(), 5);
    assert!(rt; client.download(0x2000, 0, b"").is_ok());
    assert!(rt; client.upload(0x2000, 0) == Err(ClientFault::Busy));
}

#[test]
fn a_value_that_is_only_read(rt: HostRuntime) -> Result<(), AllocError> {
    let mut dict = dictionary(rt.alloc(), DEVICE)?;
    let mut server = Server::new(rt.alloc(), 5);
    let mut client = Client::new(rt.alloc(), 5);
    let end = give(&mut client, &mut server, &mut dict, 0x2001, b"");
    assert!(rt; end == Progress::Aborted(0x0601_0002));
    Ok(())
}

#[test]
fn a_first_frame_and_its_expiry(rt: HostRuntime) {
    let mut client = Client::new(rt.alloc(), 5);
    let first = client.download(0x1800, 1, &[0x85, 1, 0, 0xC0]);
    assert!(rt; first == Ok(asks([0x23, 0, 0x18, 1, 0x85, 1, 0, 0xC0])));
    assert!(rt; client.expire() == Some(asks([0x80, 0, 0x18, 1, 0, 0, 4, 5])));
}

// The call of an idle client: a download of no bytes, which goes in segments, or of some, or an upload.
#[derive(Clone, Copy)]
enum Call {
    Download(&'static [u8]),
    Upload,
}

// What a client makes of an answer: it sends a frame, is done, or ends by an abort of its own.
#[derive(Clone, Copy)]
enum Makes {
    Sends([u8; 8]),
    IsDone,
    Ends(u32),
}

// A call to 2000h sub 0, answers in turn with what the client makes of each, and the bytes that it has taken then.
type Hearing = (Call, &'static [([u8; 8], Makes)], &'static [u8]);

const HEARINGS: &[Hearing] = &[
    // another address
    (
        Call::Download(&[255]),
        &[([0x60, 0, 0x20, 2, 0, 0, 0, 0], Makes::Ends(0x0504_0001))],
        b"",
    ),
    // no bytes go as one segment; a wrong toggle
    (
        Call::Download(b""),
        &[
            (
                [0x60, 0, 0x20, 0, 0, 0, 0, 0],
                Makes::Sends([0x0F, 0, 0, 0, 0, 0, 0, 0]),
            ),
            ([0x30, 0, 0, 0, 0, 0, 0, 0], Makes::Ends(0x0503_0000)),
        ],
        b"",
    ),
    // four bytes with no number of them
    (
        Call::Upload,
        &[([0x42, 0, 0x20, 0, 1, 2, 3, 4], Makes::IsDone)],
        &[1, 2, 3, 4],
    ),
    // a size that isn't stated
    (
        Call::Upload,
        &[
            (
                [0x40, 0, 0x20, 0, 9, 9, 9, 9],
                Makes::Sends([0x60, 0, 0, 0, 0, 0, 0, 0]),
            ),
            ([0x0D, 7, 0, 0, 0, 0, 0, 0], Makes::IsDone),
        ],
        &[7],
    ),
    // more bytes than stated, and fewer
    (
        Call::Upload,
        &[
            (
                [0x41, 0, 0x20, 0, 3, 0, 0, 0],
                Makes::Sends([0x60, 0, 0, 0, 0, 0, 0, 0]),
            ),
            ([0, 1, 2, 3, 4, 5, 6, 7], Makes::Ends(0x0504_0001)),
        ],
        b"",
    ),
    (
        Call::Upload,
        &[
            (
                [0x41, 0, 0x20, 0, 8, 0, 0, 0],
                Makes::Sends([0x60, 0, 0, 0, 0, 0, 0, 0]),
            ),
            ([1, 1, 2, 3, 4, 5, 6, 7], Makes::Ends(0x0504_0001)),
        ],
        b"",
    ),
];

fn progress_of(makes: Makes) -> Progress {
    match makes {
        Makes::Sends(body) => Progress::Send(asks(body)),
        Makes::IsDone => Progress::Done,
        Makes::Ends(code) => {
            let [a, b, c, d] = code.to_le_bytes();
            Progress::Ended(asks([0x80, 0, 0x20, 0, a, b, c, d]), code)
        }
    }
}

// Whether a client makes of the answers what it should, and has the bytes then.
fn hears(client: &mut Client, hearing: &Hearing) -> Result<bool, ClientFault> {
    let (call, answers, taken) = *hearing;
    let _ = match call {
        Call::Download(bytes) => client.download(0x2000, 0, bytes)?,
        Call::Upload => client.upload(0x2000, 0)?,
    };
    for (answer, makes) in answers {
        if client.step(&says(*answer)) != progress_of(*makes) {
            return Ok(false);
        }
    }
    Ok(client.taken() == taken)
}

#[test]
fn what_a_client_hears(rt: HostRuntime) -> Result<(), ClientFault> {
    for (number, hearing) in HEARINGS.iter().enumerate() {
        let mut client = Client::new(rt.alloc(), 5);
        assert!(rt; hears(&mut client, hearing)?, "hearing {number}");
    }
    Ok(())
}

// Whether a transfer ended since memory was refused, to the server or to the client.
fn is_refused(end: Progress) -> bool {
    match end {
        Progress::Aborted(code) | Progress::Ended(_, code) => code == 0x0504_0005,
        _ => false,
    }
}

/// Values of ten bytes, one after another.
const TEN_BYTES: &[&[u8]] = &[b"ten bytes!", b"other ten."];

// These two are run with each allocation failing in turn, too: then one transfer is aborted with
// all values as they were, and the next one comes to its end.
#[test]
fn memory_refused_to_a_download(rt: HostRuntime) {
    let Ok(mut dict) = dictionary(rt.alloc(), &DEVICE[..4]) else {
        return;
    };
    let mut server = Server::new(rt.alloc(), 5);
    let mut client = Client::new(rt.alloc(), 5);
    let mut stored: &[u8] = b"";
    for value in TEN_BYTES {
        let end = give(&mut client, &mut server, &mut dict, 0x2000, value);
        assert!(rt; end == Progress::Done || is_refused(end));
        if end == Progress::Done {
            stored = value;
        }
        assert!(rt; holds(&dict, 0x2000, stored));
    }
    assert!(rt; !stored.is_empty());
}

#[test]
fn memory_refused_to_no_short_download(rt: HostRuntime) {
    let Ok(mut dict) = dictionary(rt.alloc(), &DEVICE[..4]) else {
        return;
    };
    let mut server = Server::new(rt.alloc(), 5);
    let mut client = Client::new(rt.alloc(), 5);
    // one to four bytes of an object of one width take no memory
    let end = give(&mut client, &mut server, &mut dict, 0x1017, &[1, 2]);
    assert!(rt; end == Progress::Done && holds(&dict, 0x1017, &[1, 2]));
}

#[test]
fn memory_refused_to_an_upload(rt: HostRuntime) {
    let Ok(mut dict) = dictionary(rt.alloc(), &DEVICE[4..6]) else {
        return;
    };
    let mut server = Server::new(rt.alloc(), 5);
    let mut client = Client::new(rt.alloc(), 5);
    let mut is_one_done = false;
    for _ in 0..2u8 {
        let end = take(&mut client, &mut server, &mut dict, 0x2001);
        let is_done = end == Progress::Done;
        assert!(rt; is_done || is_refused(end));
        let taken: &[u8] = if is_done { b"ten bytes!" } else { b"" };
        assert!(rt; client.taken() == taken);
        is_one_done = is_one_done || is_done;
    }
    assert!(rt; is_one_done);
}
