//! What a server does with a request.

ghost use Rattle.std.specs.Prelude.{◌≡◌, ◌⊎◌, true, ◌+◌, ◌≤◌, ◌<◌, ◌^◌, List, length, vec_len, IfOk, IsErr};
ghost use Rattle.cop_sdo.specs.Server.{is_too_long, is_too_short, named, running_at};
ghost use Rattle.cop_sdo.specs.Seen.{seen};
ghost use Rattle.cop_sdo.specs.Service.{narrow};
ghost use Rattle.cop_sdo.specs.Place.{place_of};

use crate::address::Address;
use crate::answers::{
    abort_body, download_answer, segment_answer, size_answer, upload_segment, value_answer,
};
use crate::request::{Request, request_of};
use crate::transfer::Transfer;
use cop_dict::{Abort, Dictionary};
use std::alloc::Global;

/// A download has at most so many bytes.
const MAX_BYTES: usize = 65_535;

/// What a server is in the middle of, and the bytes that came, or that are to go.
#[derive(Drop)]
pub struct Session {
    pub transfer: Transfer,
    pub bytes: Vec<u8>,
    ghost in_place: { place_of transfer ≤ vec_len bytes },
}

impl Session {
    ghost use Rattle.cop_dict.specs.Find.{Entry};
    ghost use Rattle.cop_dict.specs.Dict.{HasWidth};
    ghost use Rattle.cop_sdo.specs.Request.{GiveUnsized, Ask, request_of};
    ghost use Rattle.cop_sdo.specs.Answers.{download_answer, segment_answer};
    ghost use Rattle.cop_sdo.specs.Seen.{IsShort};
    ghost use Rattle.cop_sdo.specs.Server.{idle, moved, stored, begun, segment_came, segment_asked, refuses, TakesNoMemory, MayMove};
    ghost use Rattle.cop_sdo.specs.Session.{state_of, Does, DoesExactly};

    pub fn new(alloc: Global) -> Session
        ensures { state_of result ≡ idle }
    {
        Session {
            transfer: Transfer::Idle,
            bytes: Vec::new(alloc),
        }
    }

    /// Drops what is under way.
    pub fn end(&mut self)
        ensures { state_of self.new ≡ idle }
    {
        self.transfer = Transfer::Idle;
        self.bytes.clear();
    }

    /// A download with its bytes.
    fn give(
        &mut self,
        dict: &mut Dictionary,
        at: Address,
        bytes: &[u8],
    ) -> Result<Option<[u8; 8]>, Abort>
        ensures exact { Does result self.new dict.old dict.new (stored dict.old at bytes.now (download_answer at)) }
        ensures in_place { HasWidth dict.old at.index at.sub ⊎ IsErr (stored dict.old at bytes.now (download_answer at))
            → DoesExactly result self.new dict.old dict.new (stored dict.old at bytes.now (download_answer at)) }
    {
        dict.write(at.index, at.sub, bytes)?;
        self.end();
        Ok(Some(download_answer(at)))
    }

    /// A download with four bytes, of which as many count as the object is wide.
    fn give_unsized(
        &mut self,
        dict: &mut Dictionary,
        at: Address,
        four: &[u8],
    ) -> Result<Option<[u8; 8]>, Abort>
        requires { length four.now ≡ 4 }
        ensures exact { Does result self.new dict.old dict.new (moved (state_of self.old) dict.old (GiveUnsized at four.now)) }
        ensures in_place { TakesNoMemory (state_of self.old) dict.old (GiveUnsized at four.now)
            → DoesExactly result self.new dict.old dict.new (moved (state_of self.old) dict.old (GiveUnsized at four.now)) }
    {
        let width = dict.admits(at.index, at.sub, None)?;
        let count = narrow(width)?;
        self.give(dict, at, &four[..count])
    }

    /// A download whose bytes come in segments.
    fn begin(
        &mut self,
        dict: &Dictionary,
        at: Address,
        size: Option<usize>,
    ) -> Result<Option<[u8; 8]>, Abort>
        ensures { DoesExactly result self.new dict.now dict.now (begun dict.now at size) }
    {
        dict.admits(at.index, at.sub, size)?;
        if size.is_some_and(|stated| stated > MAX_BYTES) {
            return Err(Abort::TooLong);
        }
        self.end();
        self.transfer = Transfer::Download {
            at,
            size,
            toggle: false,
        };
        Ok(Some(download_answer(at)))
    }

    /// A segment of a download.
    fn segment_came(
        &mut self,
        dict: &mut Dictionary,
        toggle: bool,
        bytes: &[u8],
        is_last: bool,
    ) -> Result<Option<[u8; 8]>, Abort>
        requires { length bytes.now ≤ 7 }
        ensures exact { Does result self.new dict.old dict.new (segment_came (state_of self.old) dict.old self.old.transfer toggle bytes.now is_last) }
        ensures in_place { refuses self.old.transfer (vec_len self.old.bytes) toggle (length bytes.now) is_last ≡ true
            → DoesExactly result self.new dict.old dict.new (segment_came (state_of self.old) dict.old self.old.transfer toggle bytes.now is_last) }
    {
        let Transfer::Download {
            at,
            size,
            toggle: due,
        } = self.transfer
        else {
            return Err(Abort::Command);
        };
        if toggle != due {
            return Err(Abort::Toggle);
        }
        if is_too_long(size, self.bytes.len(), bytes.len()) {
            return Err(Abort::TooLong);
        }
        if is_last && is_too_short(size, self.bytes.len() + bytes.len()) {
            return Err(Abort::TooShort);
        }
        if self.bytes.extend_from_slice(bytes).is_err() {
            return Err(Abort::NoMemory);
        }
        if !is_last {
            self.transfer = Transfer::Download {
                at,
                size,
                toggle: !toggle,
            };
            return Ok(Some(segment_answer(toggle)));
        }
        dict.write(at.index, at.sub, &self.bytes)?;
        self.end();
        Ok(Some(segment_answer(toggle)))
    }

    /// An upload: a value of 1 to 4 bytes at once, another in segments.
    fn ask(&mut self, dict: &Dictionary, at: Address) -> Result<Option<[u8; 8]>, Abort>
        ensures exact { Does result self.new dict.now dict.now (moved (state_of self.old) dict.now (Ask at)) }
        ensures in_place { TakesNoMemory (state_of self.old) dict.now (Ask at) → DoesExactly result self.new dict.now dict.now (moved (state_of self.old) dict.now (Ask at)) }
    {
        let value = dict.read(at.index, at.sub)?;
        self.end();
        if !value.is_empty() && value.len() <= 4 {
            return Ok(Some(value_answer(at, value)));
        }
        if self.bytes.extend_from_slice(value).is_err() {
            return Err(Abort::NoMemory);
        }
        self.transfer = Transfer::Upload {
            at,
            sent: 0,
            toggle: false,
        };
        Ok(Some(size_answer(at, value.len())))
    }

    /// The next segment of an upload.
    fn segment_asked(&mut self, toggle: bool) -> Result<Option<[u8; 8]>, Abort>
        ensures { (dict : List Entry) → DoesExactly result self.new dict dict (segment_asked (state_of self.old) dict self.old.transfer toggle) }
    {
        let Transfer::Upload {
            at,
            sent,
            toggle: next,
        } = self.transfer
        else {
            return Err(Abort::Command);
        };
        if toggle != next {
            return Err(Abort::Toggle);
        }
        let rest = &self.bytes[sent..];
        if rest.len() <= 7 {
            let answer = upload_segment(toggle, rest, true);
            self.end();
            return Ok(Some(answer));
        }
        let answer = upload_segment(toggle, &rest[..7], false);
        self.transfer = Transfer::Upload {
            at,
            sent: sent + 7,
            toggle: !toggle,
        };
        Ok(Some(answer))
    }

    /// What the server does with a request, or why it aborts.
    pub fn act(
        &mut self,
        dict: &mut Dictionary,
        request: Request<'_>,
    ) -> Result<Option<[u8; 8]>, Abort>
        requires { IsShort request }
        ensures exact { Does result self.new dict.old dict.new (moved (state_of self.old) dict.old (seen request.entry)) }
        ensures in_place { TakesNoMemory (state_of self.old) dict.old (seen request.entry)
            → DoesExactly result self.new dict.old dict.new (moved (state_of self.old) dict.old (seen request.entry)) }
    {
        match request {
            Request::Give { at, bytes } => self.give(dict, at, bytes),
            Request::GiveUnsized { at, four } => self.give_unsized(dict, at, four),
            Request::Begin { at, size } => self.begin(dict, at, size),
            Request::Segment {
                toggle,
                bytes,
                is_last,
            } => self.segment_came(dict, toggle, bytes, is_last),
            Request::Ask { at } => self.ask(dict, at),
            Request::AskSegment { toggle } => self.segment_asked(toggle),
            Request::Cancel => {
                self.end();
                Ok(None)
            }
            Request::Unknown { .. } => Err(Abort::Command),
        }
    }

    /// What the server does with eight bytes, and its answer.
    pub fn answer(&mut self, dict: &mut Dictionary, body: &[u8; 8]) -> Option<[u8; 8]>
        ensures { MayMove (state_of self.old) dict.old (request_of body.now) (record { state = state_of self.new; dict = dict.new; answer = result }) }
    {
        let request = request_of(body);
        let at = named(self.transfer, &request);
        match self.act(dict, request) {
            Ok(answer) => answer,
            Err(abort) => {
                self.end();
                Some(abort_body(at, abort.code()))
            }
        }
    }
}

/// The address that an abort carries.
fn named(transfer: Transfer, request: &Request<'_>) -> Address
    ensures { result ≡ named transfer (seen request.now) }
{
    let nowhere = Address { index: 0, sub: 0 };
    match *request {
        Request::Give { at, .. }
        | Request::GiveUnsized { at, .. }
        | Request::Begin { at, .. }
        | Request::Ask { at } => at,
        Request::Unknown { at } => running_at(transfer, at),
        Request::Segment { .. } | Request::AskSegment { .. } | Request::Cancel => running_at(
            transfer, nowhere,
        ),
    }
}

fn running_at(transfer: Transfer, other: Address) -> Address
    ensures { result ≡ running_at transfer other }
{
    match transfer {
        Transfer::Idle => other,
        Transfer::Download { at, .. } | Transfer::Upload { at, .. } => at,
    }
}

/// As many bytes as an object is wide, if these are at most four.
fn narrow(width: Option<usize>) -> Result<usize, Abort>
    ensures value { result ≡ narrow width }
    ensures bound { IfOk result (λ count. count ≤ 4) }
{
    match width {
        Some(width) if width <= 4 => Ok(width),
        _ => Err(Abort::NoSize),
    }
}

fn is_too_long(size: Option<usize>, so_far: usize, more: usize) -> bool
    requires { so_far + more < 2 ^ 64 }
    ensures { result ≡ is_too_long size (so_far + more) }
{
    let count = so_far + more;
    count > MAX_BYTES || size.is_some_and(|stated| stated < count)
}

fn is_too_short(size: Option<usize>, count: usize) -> bool
    ensures { result ≡ is_too_short size count }
{
    size.is_some_and(|stated| count < stated)
}
