//! The frames of fixed identifiers that tables start with.

ghost use Rattle.std.specs.Prelude.{◌≡◌, ◌≤◌, ◌<◌, ◌^◌, ◌++◌, ◌∷◌, [], OnOk, IfOk, IfSome};
ghost use Rattle.cop_warn.specs.Warnings.{word_at};
ghost use Rattle.cop_start.specs.Frames.{heartbeat_of, sync_period_of, is_by_sync, emcy_frames, heartbeat_frames, device_frames, frames_behind, first_frames, may_beat};

use crate::senders::Sender;
use crate::start::{Source, Start};
use cop_dict::{Access, DataType, Dictionary};
use cop_rows::FrameKind;
use cop_warn::{natural_at, word_at};
use cop_written::Frame;
use std::alloc::{AllocError, Global};

/// Whether the time of a heartbeat can be written.
fn may_beat(dict: &Dictionary) -> bool
    ensures { result ≡ may_beat dict.now }
{
    let Some(entry) = dict.entry(0x1017, 0) else {
        return false;
    };
    let description = entry.description();
    matches!(description.data_type, DataType::Unsigned16)
        && !matches!(description.access, Access::ReadOnly | Access::Constant)
}

/// The time of a device's heartbeat in milliseconds: its own, or a second where it can be written.
fn heartbeat(dict: &Dictionary) -> Option<u32>
    ensures value { result ≡ heartbeat_of dict.now }
    ensures range { IfSome result (λ millis. (1 ≤ millis) × (millis ≤ 60000)) }
{
    match natural_at(dict, 0x1017, 0) {
        Some(millis) if millis >= 1 && millis <= 60_000 => Some(millis as u32),
        _ if may_beat(dict) => Some(1000),
        _ => None,
    }
}

/// The period of SYNC in microseconds: the first that a device has, or 10 ms.
pub(crate) fn sync_period(sources: &[Source]) -> u32
    ensures value { result ≡ sync_period_of sources.now }
    ensures range { (100 ≤ result) × (result ≤ 60000000) }
{
    match sources {
        [] => 10_000,
        [first, rest @ ..] => match natural_at(first.dictionary(), 0x1006, 0) {
            Some(period) if period >= 100 && period <= 60_000_000 => period as u32,
            _ => sync_period(rest),
        },
    }
}

/// Whether some TPDO is sent by SYNC.
fn is_by_sync(senders: &[Sender]) -> bool
    ensures { result ≡ is_by_sync senders.now }
{
    senders.iter().any(|sender| sender.every != 0)
}

/// Adds a row of a device.
fn add_frame(
    frames: &mut Vec<Frame>,
    kind: FrameKind,
    node: u8,
    period: u32,
) -> Result<(), AllocError>
    ensures { OnOk result (frames.new.items ≡ frames.old.items ++ record { kind = kind; node = node; period = period } ∷ []) }
{
    frames.push(Frame { kind, node, period })?;
    Ok(())
}

/// Adds the row of a device's EMCY frames, if it sends some.
fn add_emcy(frames: &mut Vec<Frame>, node: u8, dict: &Dictionary) -> Result<(), AllocError>
    ensures { OnOk result (frames.new.items ≡ frames.old.items ++ emcy_frames node (word_at dict.now 0x1014 0)) }
{
    if let Some(cob_id) = word_at(dict, 0x1014, 0) {
        if cob_id < 0x8000_0000 {
            add_frame(frames, FrameKind::Emcy, node, 100_000)?;
        }
    }
    Ok(())
}

/// Adds the row of a device's heartbeat, if it has a time, in milliseconds.
fn add_heartbeat(frames: &mut Vec<Frame>, node: u8, millis: Option<u32>) -> Result<(), AllocError>
    requires { IfSome millis (λ millis. millis ≤ 60000) }
    ensures { OnOk result (frames.new.items ≡ frames.old.items ++ heartbeat_frames node millis) }
{
    if let Some(millis) = millis {
        add_frame(frames, FrameKind::Heartbeat, node, millis * 1000)?;
    }
    Ok(())
}

/// Adds the rows of a device.
fn add_device(frames: &mut Vec<Frame>, node: u8, dict: &Dictionary) -> Result<(), AllocError>
    ensures { OnOk result (frames.new.items ≡ frames.old.items ++ device_frames node dict.now) }
{
    add_emcy(frames, node, dict)?;
    add_frame(frames, FrameKind::SdoResponse, node, 100_000)?;
    add_frame(frames, FrameKind::SdoRequest, node, 100_000)?;
    add_heartbeat(frames, node, heartbeat(dict))
}

/// Adds the rows of devices.
fn add_devices(frames: &mut Vec<Frame>, sources: &[Source]) -> Result<(), AllocError>
    ensures { OnOk result (frames.new.items ≡ frames.old.items ++ frames_behind sources.now) }
{
    match sources {
        [] => Ok(()),
        [first, rest @ ..] => {
            add_device(frames, first.node(), first.dictionary())?;
            add_devices(frames, rest)
        }
    }
}

/// The rows of NMT, of SYNC if some TPDO is sent by it, and of the devices' EMCY, SDO and heartbeat frames.
pub(crate) fn frames(
    alloc: Global,
    start: &Start,
    senders: &[Sender],
) -> Result<Vec<Frame>, AllocError>
    ensures { IfOk result (λ frames. frames.items ≡ first_frames start.now senders.now ++ frames_behind start.now) }
{
    let mut frames = Vec::new(alloc);
    frames.push(Frame {
        kind: FrameKind::Nmt,
        node: 0,
        period: 1_000_000,
    })?;
    if is_by_sync(senders) {
        frames.push(Frame {
            kind: FrameKind::Sync,
            node: 0,
            period: sync_period(start.sources()),
        })?;
    }
    add_devices(&mut frames, start.sources())?;
    Ok(frames)
}
