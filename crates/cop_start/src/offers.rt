//! What the TPDOs of a device are good for before any plan.

ghost use Rattle.std.specs.Prelude.{◌≡◌, ◌≤◌};
ghost use Rattle.cop_start.specs.Offers.{offer_of, pace_of, period_of};

use cop_dict::{Dictionary, Direction};
use cop_net::every_at;
use cop_pdo::{exists, payload};
use cop_warn::natural_at;

/// What a TPDO of a device is good for, as its EDS file describes it.
#[derive(Clone, Copy, PartialEq, Eq, Debug)]
pub enum Offer {
    /// The device has no such TPDO: there is no COB-ID, or none that is an UNSIGNED32.
    Absent,
    /// It does not exist: bit 31 of its COB-ID is set.
    Off,
    /// Its mapping record is none that can be used.
    Unmapped,
    /// Its transmission type is none of 1 to 240, 254 and 255.
    Untimed,
    /// It may have a row: bits 0 to 29 of its COB-ID, and after how many SYNCs it is sent, 0 where it is sent by events.
    Sends { id: u32, every: u8 },
}

/// From where the period of a row comes.
#[derive(Clone, Copy, PartialEq, Eq, Debug)]
pub enum Pace {
    /// It is sent by SYNC, and its row has period 0.
    Sync,
    /// The inhibit time.
    Inhibit,
    /// The event timer.
    Timer,
    /// Nothing says it: 100 ms.
    Guess,
}

/// What a TPDO, from 1 to 512, is good for (CiA 301, "PDO communication parameter record").
pub fn offered(dict: &Dictionary, tpdo: u16) -> Offer
    requires { (1 ≤ tpdo) × (tpdo ≤ 512) }
    ensures { result ≡ offer_of dict.now tpdo }
{
    let index = 0x17FF + tpdo;
    let Some(entry) = dict.entry(index, 1) else {
        return Offer::Absent;
    };
    let Some(cob_id) = entry.unsigned32() else {
        return Offer::Absent;
    };
    let cob_id = cob_id as u32;
    if !exists(cob_id) {
        return Offer::Off;
    }
    if payload(dict, Direction::Transmit, tpdo).is_err() {
        return Offer::Unmapped;
    }
    match every_at(dict, index) {
        Some(every) => Offer::Sends {
            id: cob_id % (1 << 30),
            every,
        },
        None => Offer::Untimed,
    }
}

/// From where the period of a TPDO's row comes, which is sent after so many SYNCs, and the period, in microseconds: an inhibit time is
/// in units of 100 us, an event timer in milliseconds.
pub fn paced(dict: &Dictionary, tpdo: u16, every: u8) -> (Pace, u32)
    requires { (1 ≤ tpdo) × (tpdo ≤ 512) }
    ensures pace { result.0 ≡ pace_of dict.now tpdo every }
    ensures period { result.1 ≡ period_of dict.now tpdo every }
{
    if every != 0 {
        return (Pace::Sync, 0);
    }
    let index = 0x17FF + tpdo;
    let inhibit = natural_at(dict, index, 3).unwrap_or(0);
    if inhibit != 0 {
        return (Pace::Inhibit, (inhibit * 100).min(60_000_000) as u32);
    }
    let timer = natural_at(dict, index, 5).unwrap_or(0);
    if timer != 0 {
        return (Pace::Timer, (timer * 1000).min(60_000_000) as u32);
    }
    (Pace::Guess, 100_000)
}
