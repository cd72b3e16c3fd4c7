//! The turns of a boot, as a seed draws them.

ghost use Rattle.std.specs.Prelude.{◌≡◌, ◌≤◌, ◌<◌, ◌^◌, ℕ, false, List, length, OnOk};
ghost use Rattle.cop_dict.specs.Find.{Entry};
ghost use Rattle.cop_net.specs.Network.{Net};
ghost use Rattle.cop_boot.specs.Booted.{CanBoot, ReadyInTime};
ghost use Rattle.cop_boot.specs.Bus.{Runs, Made};
ghost use Rattle.cop_boot.specs.NetworkBoot.{IsPlanOf, HavePlannedPdos};
ghost use Rattle.cop_engine.specs.Turns.{kinds, turn_of, passed_by, turns_drawn};

use cop_boot::{Boot, Device, Manager, Turn};
use rand_core::utils::NextWord;
use rand_pcg::Lcg64Xsh32;
use std::alloc::{AllocError, Global};

/// So many turns of each kind are drawn on average.
const TURNS_OF_A_KIND: u32 = 4000;

/// A moment is handed in so many ticks after the one before, 100 us.
const STEP: u64 = 400;

/// The turn of a kind: 0 is a moment, then come the turns to the nodes by rising number, and then those from them.
fn turn_of(nodes: &[u8], now: u64, kind: u32) -> Turn
    requires { kind < kinds nodes.now }
    ensures { result ≡ turn_of nodes.now now kind }
{
    let kind = kind as usize;
    if kind == 0 {
        Turn::Moment(now)
    } else if kind <= nodes.len() {
        Turn::ToNode(nodes[kind - 1])
    } else {
        Turn::FromNode(nodes[kind - 1 - nodes.len()])
    }
}

/// The moment after a turn of a kind.
fn passed_by(now: u64, kind: u32) -> u64
    requires { now < 2 ^ 63 }
    ensures { result ≡ passed_by now kind }
{
    if kind == 0 { now + STEP } else { now }
}

/// Boots devices by the turns that a seed draws for some nodes, 4,000 of each kind on average: each is drawn when it is taken.
/// After an `Err` nothing has changed.
pub fn boot_by_drawn(
    alloc: Global,
    seed: u64,
    nodes: &[u8],
    manager: &mut Manager,
    devices: &mut [Device],
) -> Result<(), AllocError>
    requires nodes { length nodes.now ≤ 127 }
    requires begun { manager.old.begun ≡ false }
    ensures runs { OnOk result (Runs manager.old devices.old (turns_drawn seed nodes.now) manager.new devices.new) }
    ensures configures { OnOk result ((built : ℕ → List Entry) → CanBoot manager.old devices.old built → Made manager.old built manager.new devices.new) }
    ensures in_time { OnOk result ((built : ℕ → List Entry) → CanBoot manager.old devices.old built → ReadyInTime manager.old devices.old (turns_drawn seed nodes.now) manager.new) }
    ensures exist { OnOk result ((net : Net) (ids : List ℕ) (built : ℕ → List Entry) → CanBoot manager.old devices.old built
        → IsPlanOf net ids manager.old built → HavePlannedPdos net ids manager.new devices.new) }
{
    let kinds = 2 * nodes.len() as u32 + 1;
    let turns = TURNS_OF_A_KIND * kinds;
    let mut boot = Boot::begin(alloc, manager, turns as usize)?;
    let mut generator = Lcg64Xsh32::new(seed, 0);
    let mut now = 0;
    for _turn in 0..turns {
        let kind = generator.next_word() % kinds;
        now = passed_by(now, kind);
        boot.take(manager, devices, turn_of(nodes, now, kind));
    }
    Ok(())
}
