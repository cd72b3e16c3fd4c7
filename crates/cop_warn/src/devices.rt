//! Warnings on devices.

ghost use Rattle.std.specs.Prelude.{◌≡◌, ◌+◌, ◌++◌, OnOk};
ghost use Rattle.cop_warn.specs.Warnings.{is_row, has_row, no_row, emcy_warning, request_warning, response_warning, heartbeat_warning, other_identifier, sync_warning, time_warning, sync_period, period_warning, of_clocks, of_frames, of_identifiers, of_device};

use crate::limits::limits_warning;
use crate::numbers::{natural_at, word_at};
use crate::rows::push_some;
use crate::warning::Warning;
use cop_dict::Dictionary;
use cop_frame::identifiers;
use cop_net::{FrameKind, FrameRow};
use std::alloc::AllocError;

/// Whether a row is of a kind of frames of a node.
fn is_row(row: &FrameRow, node: u8, kind: FrameKind) -> bool
    ensures { result ≡ is_row node kind row.now }
{
    row.node == node && row.kind == kind
}

/// Whether some row is of a kind of frames of a node.
fn has_row(frames: &[FrameRow], node: u8, kind: FrameKind) -> bool
    ensures { result ≡ has_row frames.now node kind }
{
    frames.iter().any(|row| is_row(row, node, kind))
}

/// That a kind of frames of a node has no row.
fn no_row(frames: &[FrameRow], node: u8, kind: FrameKind) -> Option<Warning>
    ensures { result ≡ no_row frames.now node kind }
{
    if has_row(frames, node, kind) {
        None
    } else {
        Some(Warning::NoRow { node, kind })
    }
}

/// That a device sends EMCY frames, and has no row for them.
fn emcy_warning(frames: &[FrameRow], node: u8, dict: &Dictionary) -> Option<Warning>
    ensures { result ≡ emcy_warning frames.now node dict.now }
{
    match word_at(dict, 0x1014, 0) {
        Some(cob_id) if cob_id < 0x8000_0000 => no_row(frames, node, FrameKind::Emcy),
        _ => None,
    }
}

/// That a device describes its SDO server, and no row has what is sent to it.
fn request_warning(frames: &[FrameRow], node: u8, dict: &Dictionary) -> Option<Warning>
    ensures { result ≡ request_warning frames.now node dict.now }
{
    match word_at(dict, 0x1200, 1) {
        Some(_) => no_row(frames, node, FrameKind::SdoRequest),
        None => None,
    }
}

/// That a device describes its SDO server, and no row has what it sends.
fn response_warning(frames: &[FrameRow], node: u8, dict: &Dictionary) -> Option<Warning>
    ensures { result ≡ response_warning frames.now node dict.now }
{
    match word_at(dict, 0x1200, 2) {
        Some(_) => no_row(frames, node, FrameKind::SdoResponse),
        None => None,
    }
}

/// That a device begins with a heartbeat, and has no row for it.
fn heartbeat_warning(frames: &[FrameRow], node: u8, dict: &Dictionary) -> Option<Warning>
    ensures { result ≡ heartbeat_warning frames.now node dict.now }
{
    match natural_at(dict, 0x1017, 0) {
        Some(millis) if millis != 0 => no_row(frames, node, FrameKind::Heartbeat),
        _ => None,
    }
}

/// That the COB-ID at an index and a sub exists and has another identifier than this one.
fn other_identifier(
    node: u8,
    index: u16,
    sub: u8,
    identifier: u64,
    dict: &Dictionary,
) -> Option<Warning>
    ensures { result ≡ other_identifier node index sub identifier dict.now }
{
    let Some(cob_id) = word_at(dict, index, sub) else {
        return None;
    };
    if cob_id < 0x8000_0000 && cob_id % 0x4000_0000 != identifier {
        Some(Warning::OtherIdentifier {
            node,
            index,
            sub,
            cob_id,
        })
    } else {
        None
    }
}

/// That a device makes SYNC, or expects it under another identifier.
fn sync_warning(node: u8, dict: &Dictionary) -> Option<Warning>
    ensures { result ≡ sync_warning node dict.now }
{
    let Some(cob_id) = word_at(dict, 0x1005, 0) else {
        return None;
    };
    if cob_id / 0x4000_0000 % 2 == 1 {
        return Some(Warning::MakesSync { node });
    }
    if cob_id % 0x4000_0000 != u64::from(identifiers::SYNC) {
        return Some(Warning::OtherIdentifier {
            node,
            index: 0x1005,
            sub: 0,
            cob_id,
        });
    }
    None
}

/// That a device sends TIME.
fn time_warning(node: u8, dict: &Dictionary) -> Option<Warning>
    ensures { result ≡ time_warning node dict.now }
{
    match word_at(dict, 0x1012, 0) {
        Some(cob_id) if cob_id / 0x4000_0000 % 2 == 1 => Some(Warning::MakesTime { node }),
        _ => None,
    }
}

/// The period of SYNC's row, in microseconds; 0 if SYNC has none.
fn sync_period(frames: &[FrameRow]) -> u64
    ensures { result ≡ sync_period frames.now }
{
    for row in frames {
        if is_row(row, 0, FrameKind::Sync) {
            return u64::from(row.period);
        }
    }
    0
}

/// That a device has another period of SYNC than its row.
fn period_warning(frames: &[FrameRow], node: u8, dict: &Dictionary) -> Option<Warning>
    ensures { result ≡ period_warning frames.now node dict.now }
{
    let Some(micros) = word_at(dict, 0x1006, 0) else {
        return None;
    };
    let period = sync_period(frames);
    if micros != 0 && period != 0 && micros != period {
        Some(Warning::SyncPeriod { node, micros })
    } else {
        None
    }
}

/// Adds what a device does with the times of the network.
fn push_clocks(
    found: &mut Vec<Warning>,
    frames: &[FrameRow],
    node: u8,
    dict: &Dictionary,
) -> Result<(), AllocError>
    ensures { OnOk result (found.new.items ≡ found.old.items ++ of_clocks frames.now node dict.now) }
{
    push_some(found, time_warning(node, dict))?;
    push_some(found, period_warning(frames, node, dict))
}

/// Adds which frames of a device have no row.
fn push_frames(
    found: &mut Vec<Warning>,
    frames: &[FrameRow],
    node: u8,
    dict: &Dictionary,
) -> Result<(), AllocError>
    ensures { OnOk result (found.new.items ≡ found.old.items ++ of_frames frames.now node dict.now) }
{
    push_some(found, emcy_warning(frames, node, dict))?;
    push_some(found, request_warning(frames, node, dict))?;
    push_some(found, response_warning(frames, node, dict))?;
    push_some(found, heartbeat_warning(frames, node, dict))
}

/// Adds which frames of a device have another identifier.
fn push_identifiers(found: &mut Vec<Warning>, node: u8, dict: &Dictionary) -> Result<(), AllocError>
    ensures { OnOk result (found.new.items ≡ found.old.items ++ of_identifiers node dict.now) }
{
    let emcy = u64::from(identifiers::EMCY + u16::from(node));
    let request = u64::from(identifiers::SDO_REQUEST + u16::from(node));
    let response = u64::from(identifiers::SDO_RESPONSE + u16::from(node));
    push_some(found, sync_warning(node, dict))?;
    push_some(found, other_identifier(node, 0x1014, 0, emcy, dict))?;
    push_some(found, other_identifier(node, 0x1200, 1, request, dict))?;
    push_some(found, other_identifier(node, 0x1200, 2, response, dict))
}

/// Adds what is found of a device.
pub(crate) fn push_device(
    found: &mut Vec<Warning>,
    frames: &[FrameRow],
    node: u8,
    dict: &Dictionary,
) -> Result<(), AllocError>
    ensures { OnOk result (found.new.items ≡ found.old.items ++ of_device frames.now node dict.now) }
{
    push_frames(found, frames, node, dict)?;
    push_identifiers(found, node, dict)?;
    push_clocks(found, frames, node, dict)?;
    push_some(found, limits_warning(node, dict))
}
