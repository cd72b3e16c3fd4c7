//! Logs that are watched.

use crate::lines::named;
use cop_frame::Rate;
use cop_log::{Clock, Finding, bounds_of, watch_log};
use cop_rta::read_streams;
use std::test::Fail;

// At 250 kbit/s a frame of 8 bytes takes 444 us to 540 us, and one of 4 bytes 316 us to 380 us.
const TABLE: &[u8] =
    b"id,bytes,period,jitter,deadline\n0x181,8,10000,0,2500\n0x182,4,10000,0,5000\n";

const CLOCK: Clock = Clock {
    error: 100,
    drift: 100,
};

// What is found in a log.
fn found(rt: &HostRuntime, text: &[u8]) -> Result<Vec<Finding>, Fail> {
    let streams = read_streams(rt.alloc(), TABLE)?;
    let rate = Rate::Kbit250;
    let wanted = named(rt, b"can0")?;
    Ok(watch_log(rt.alloc(), &streams, rate, CLOCK, wanted, false, text)?)
}

const GOOD: &[u8] = b"(1.000600) can0 181#0011223344556677\n\
    (1.001000) can0 182#00112233\n\
    (1.010540) can0 181#0011223344556677\n\
    (1.011000) can0 182#00112233\n\
    (1.020100) can0 181#0011223344556677\n";

#[test]
fn a_good_log_shows_nothing(rt: HostRuntime) -> Result<(), Fail> {
    assert!(rt; found(&rt, GOOD)?.is_empty());
    Ok(())
}

// The one finding of a log.
fn only(rt: &HostRuntime, text: &[u8]) -> Result<Option<Finding>, Fail> {
    match found(rt, text)?.as_slice() {
        [finding] => Ok(Some(*finding)),
        _ => Ok(None),
    }
}

#[test]
fn each_breach_is_found(rt: HostRuntime) -> Result<(), Fail> {
    let unknown = b"(1.000600) can0 181#0011223344556677\n(1.005000) can0 7FF#00\n";
    assert!(rt; only(&rt, unknown)? == Some(Finding::Unknown { at: 1 }));
    let length = b"(1.000600) can0 181#00112233445566\n";
    assert!(rt; only(&rt, length)? == Some(Finding::Length { at: 0 }));
    // 9,520 us, less the error and the drift, are the least distance of two.
    let soon = b"(1.000600) can0 181#0011223344556677\n(1.010000) can0 181#0011223344556677\n";
    let expected = Finding::Soon {
        from: 0,
        to: 1,
        count: 1,
    };
    assert!(rt; only(&rt, soon)? == Some(expected));
    let crowded = b"(1.000600) can0 181#0011223344556677\n(1.000800) can0 182#00112233\n";
    assert!(rt; only(&rt, crowded)? == Some(Finding::Crowded { from: 0, to: 1 }));
    let fallen = b"(1.000600) can0 181#0011223344556677\n(1.000000) can0 182#00112233\n";
    assert!(rt; only(&rt, fallen)? == Some(Finding::Fallen { from: 0, to: 1 }));
    Ok(())
}

#[test]
fn bounds_are_responses(rt: HostRuntime) -> Result<(), Fail> {
    let streams = read_streams(rt.alloc(), TABLE)?;
    let bounds = bounds_of(rt.alloc(), &streams, Rate::Kbit250)?;
    // 380 us of the other and its own 540 us; and both.
    assert!(rt; bounds.as_slice() == [Some(3680), Some(3680)].as_slice());
    Ok(())
}
