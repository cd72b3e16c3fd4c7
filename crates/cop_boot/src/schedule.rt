//! Boots by turns.

ghost use Rattle.std.specs.Prelude.{◌≡◌, ◌+◌, ◌<◌, ◌≤◌, ◌^◌, ◌++◌, ◌∷◌, [], false, ℕ, List, map, is_some, vec_len, vec_capacity, IfOk, OnOk, OnErr};
ghost use Rattle.cop_dict.specs.Find.{Entry};
ghost use Rattle.cop_boot.specs.Manager.{Managing, node_of, open_nodes};
ghost use Rattle.cop_boot.specs.Device.{Attached};
ghost use Rattle.cop_boot.specs.declared.turn.Turn.{Turn};
ghost use Rattle.cop_boot.specs.Booted.{CanBoot, ReadyInTime};
ghost use Rattle.cop_net.specs.Network.{Net};
ghost use Rattle.cop_boot.specs.NetworkBoot.{IsPlanOf, HavePlannedPdos};
ghost use Rattle.cop_boot.specs.Schedule.{Takes};
ghost use Rattle.cop_boot.specs.Node.{Node};
ghost use Rattle.cop_boot.specs.Bus.{IsBus, KeepsOthers, KnowsNodes, Runs, Made, world_at};
ghost use Rattle.cop_boot.specs.UnderWay.{IsUnderWay, HasRoomFor};

use crate::bus::{Bus, deliver, hear};
use crate::device::Device;
use crate::driving::pass;
use crate::manager::Manager;
use crate::turn::Turn;
use std::alloc::{AllocError, Global};
use std::marker::Model;

// Which numbers are nodes of a manager, by number: each turn asks for one.
#[derive(Drop)]
struct Numbers {
    known: [bool; 256],
}

impl Model for Numbers {
    ghost use Rattle.std.specs.Prelude.{List, Bool};

    ghost Value = { List Bool };

    ghost view = { λ numbers. numbers.known };
}

impl Numbers {
    fn of(manager: &Manager) -> Numbers
        ensures { KnowsNodes manager.now.nodes result }
    {
        let mut known = [false; 256];
        for number in 0..256 {
            known[number] = manager.has(number as u8);
        }
        Numbers { known }
    }

    fn has(&self, node: u8) -> bool
        ensures { (nodes : List Node) → KnowsNodes nodes self.now → result ≡ is_some (node_of nodes node) }
    {
        self.known[usize::from(node)]
    }
}

// One turn: a front frame is delivered, or a moment is reached.
fn take_turn(
    bus: &mut Bus,
    manager: &mut Manager,
    numbers: &Numbers,
    devices: &mut [Device],
    turn: Turn,
)
    requires numbers { KnowsNodes manager.old.nodes numbers.now }
    requires bus { IsBus bus.old }
    requires sent { vec_len bus.old.sent + 1 + open_nodes manager.old.nodes ≤ vec_capacity bus.old.sent }
    requires answers { vec_len bus.old.answers + 1 ≤ vec_capacity bus.old.answers }
    ensures bus { IsBus bus.new }
    ensures takes { Takes (world_at manager.old bus.old devices.old) turn (world_at manager.new bus.new devices.new) }
    ensures sent { (vec_len bus.new.sent + open_nodes manager.new.nodes ≤ vec_len bus.old.sent + 1 + open_nodes manager.old.nodes) × (vec_capacity bus.old.sent ≤ vec_capacity bus.new.sent) }
    ensures answers { (vec_len bus.new.answers ≤ vec_len bus.old.answers + 1) × (vec_capacity bus.old.answers ≤ vec_capacity bus.new.answers) }
    ensures names { map (λ n. n.number) manager.new.nodes ≡ map (λ n. n.number) manager.old.nodes }
    ensures others { KeepsOthers manager.old devices.old devices.new }
{
    match turn {
        Turn::ToNode(node) => {
            if numbers.has(node) {
                deliver(bus, devices, node);
            }
        }
        Turn::FromNode(node) => {
            if numbers.has(node) {
                hear(bus, manager, node);
            }
        }
        Turn::Moment(now) => pass(manager, now, &mut bus.sent),
    }
}

/// A boot by turns under way: the frames that were sent, and which numbers are nodes.
#[derive(Drop)]
pub struct Boot {
    bus: Bus,
    numbers: Numbers,
}

impl Boot {
    /// Begins a boot of so many turns at most: the manager begins at 0. All room is made here: after an `Err` nothing has
    /// changed. Of turns that are made one by one no list is kept.
    pub fn begin(alloc: Global, manager: &mut Manager, turns: usize) -> Result<Boot, AllocError>
        requires begun { manager.old.begun ≡ false }
        requires few { turns < 2 ^ 63 }
        ensures under_way { IfOk result (λ boot. (devices : List Attached) → IsUnderWay manager.old devices [] manager.new devices boot) }
        ensures room { IfOk result (λ boot. HasRoomFor turns manager.new boot) }
        ensures err { OnErr result (manager.new ≡ manager.old) }
    {
        let mut bus = Bus::new(alloc, 1 + turns + manager.count(), turns)?;
        bus.sent.push(manager.begin(0)).unwrap();
        let numbers = Numbers::of(manager);
        Ok(Boot { bus, numbers })
    }

    /// Takes one turn more, for which there is room: the front frame of one channel is delivered, to a node or from it, or a
    /// moment is reached.
    pub fn take(&mut self, manager: &mut Manager, devices: &mut [Device], turn: Turn)
        requires under_way { (m : Managing) × (before : List Attached) × (turns : List Turn) × IsUnderWay m before turns manager.old devices.old self.old }
        requires room { HasRoomFor 1 manager.old self.old }
        ensures under_way { (m : Managing) (before : List Attached) (turns : List Turn) → IsUnderWay m before turns manager.old devices.old self.old
            → IsUnderWay m before (turns ++ turn ∷ []) manager.new devices.new self.new }
        ensures room { (turns : ℕ) → HasRoomFor (turns + 1) manager.old self.old → HasRoomFor turns manager.new self.new }
    {
        take_turn(&mut self.bus, manager, &self.numbers, devices, turn);
    }
}

/// Boots the devices by turns: the manager begins at 0, and each turn delivers the front frame of one channel, to a
/// node or from it, or hands in a moment. All room is made before the first turn: after an `Err` nothing has changed.
pub fn run_schedule(
    alloc: Global,
    manager: &mut Manager,
    devices: &mut [Device],
    turns: &[Turn],
) -> Result<(), AllocError>
    requires { manager.old.begun ≡ false }
    ensures runs { OnOk result (Runs manager.old devices.old turns.now manager.new devices.new) }

    // Where each node's settings are accepted in turn by the dictionary that was built for it: a node that is ready has the planned
    // dictionary, no node is aborted or restarting, and the nodes are started exactly where all are ready.
    ensures configures { OnOk result ((built : ℕ → List Entry) → CanBoot manager.old devices.old built → Made manager.old built manager.new devices.new) }

    // A node with a device is ready where its turns, to it and then from it, have come in turn once more than it has settings,
    // whatever stands between, as long as every moment is below 4,000,000.
    ensures in_time { OnOk result ((built : ℕ → List Entry) → CanBoot manager.old devices.old built → ReadyInTime manager.old devices.old turns.now manager.new) }

    // By a plan of an accepted network: in the device of each node that is ready exactly the PDOs of the plan exist, a sender's with
    // its identifier and a receiver's with that of its sender.
    ensures exist { OnOk result ((net : Net) (ids : List ℕ) (built : ℕ → List Entry) → CanBoot manager.old devices.old built
        → IsPlanOf net ids manager.old built → HavePlannedPdos net ids manager.new devices.new) }

    ensures err { OnErr result ((manager.new ≡ manager.old) × (devices.new ≡ devices.old)) }
{
    let mut boot = Boot::begin(alloc, manager, turns.len())?;
    for turn in turns {
        boot.take(manager, devices, *turn);
    }
    Ok(())
}
