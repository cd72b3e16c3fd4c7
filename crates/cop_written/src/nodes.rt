//! The text of a table of nodes.

ghost use Rattle.std.specs.Prelude.{◌≡◌, ◌++◌, OnOk, IfOk};
ghost use Rattle.cop_written.specs.Texts.{line, device_fields, device_lines, word_of, frame_fields, frame_lines, node_text};

use crate::records::{digits, push_record};
use cop_rows::FrameKind;
use std::alloc::{AllocError, Global};
use std::marker::Model;

/// A name. Contracts see its bytes.
#[derive(Drop)]
pub struct Text {
    bytes: Vec<u8>,
}

impl Model for Text {
    ghost use Rattle.std.specs.Prelude.{List, ℕ};

    ghost Value = { List ℕ };

    ghost view = { λ t. t.bytes.items };
}

impl Text {
    /// The name that these bytes are.
    pub fn new(bytes: Vec<u8>) -> Text
        ensures { result ≡ bytes.items }
    {
        Text { bytes }
    }

    /// The bytes of the name.
    pub fn as_bytes(&self) -> &[u8]
        ensures { result.now ≡ self.now }
    {
        &self.bytes
    }
}

/// A row of a device: its node, its name, and the name of its EDS file.
#[derive(Drop)]
pub struct Device {
    pub node: u8,
    pub name: Text,
    pub eds: Text,
}

/// A row of a frame with jitter 0: its period is in microseconds. The node of NMT, of SYNC and of disturbed transfers is 0.
#[derive(Clone, Copy, PartialEq, Eq, Debug)]
pub struct Frame {
    pub kind: FrameKind,
    pub node: u8,
    pub period: u32,
}

/// Adds the row of a device.
fn push_device(alloc: Global, text: &mut Vec<u8>, device: &Device) -> Result<(), AllocError>
    ensures { OnOk result (text.new.items ≡ text.old.items ++ line (device_fields device.now)) }
{
    let node = digits(alloc, u32::from(device.node))?;
    let (name, eds) = (&device.name, &device.eds);
    push_record(
        alloc,
        text,
        &[
            b"device",
            &node,
            name.as_bytes(),
            eds.as_bytes(),
            b"0",
            b"0",
        ],
    )
}

/// The word of a row.
fn word_of(kind: FrameKind) -> &'static [u8]
    ensures { result.now ≡ word_of kind }
{
    match kind {
        FrameKind::Nmt => b"nmt",
        FrameKind::Sync => b"sync",
        FrameKind::Emcy => b"emcy",
        FrameKind::SdoResponse => b"sdo_response",
        FrameKind::SdoRequest => b"sdo_request",
        FrameKind::Heartbeat => b"heartbeat",
        FrameKind::Errors => b"errors",
    }
}

/// Adds the row of a frame.
fn push_frame(alloc: Global, text: &mut Vec<u8>, frame: Frame) -> Result<(), AllocError>
    ensures { OnOk result (text.new.items ≡ text.old.items ++ line (frame_fields frame)) }
{
    let node = digits(alloc, u32::from(frame.node))?;
    let period = digits(alloc, frame.period)?;
    push_record(
        alloc,
        text,
        &[word_of(frame.kind), &node, b"", b"", &period, b"0"],
    )
}

/// The text of a table of nodes: the devices, and then the frames.
pub fn node_text(alloc: Global, devices: &[Device], frames: &[Frame]) -> Result<Vec<u8>, AllocError>
    ensures { IfOk result (λ text. text.items ≡ node_text devices.now frames.now) }
{
    let mut text = Vec::from_slice(alloc, b"row,node,name,eds,period,jitter\n")?;
    for device in devices {
        push_device(alloc, &mut text, device)?;
    }
    for frame in frames {
        push_frame(alloc, &mut text, *frame)?;
    }
    Ok(text)
}
