//! What holds of the rows that tables start with.

ghost use Rattle.std.specs.Prelude.{◌≡◌, ◌≤◌, ◌+◌, ℕ, List, length, slice_get, nat_lt, if◌then◌else◌, Ok, Some, None};
ghost use Rattle.cop_dict.specs.Find.{Entry};
ghost use Rattle.cop_rows.specs.Names.{is_name};
ghost use Rattle.cop_rows.specs.NodeReading.{nodes_of};
ghost use Rattle.cop_rows.specs.PdoReading.{pdos_of, is_named};
ghost use Rattle.cop_written.specs.Texts.{node_text, pdo_text};
ghost use Rattle.cop_written.specs.Sound.{node_lists, pdo_rows};
ghost use Rattle.cop_start.specs.Start.{Device, AreSources, IsNumberedFrom, is_taken, added, next_node};
ghost use Rattle.cop_start.specs.Devices.{devices_of};
ghost use Rattle.cop_start.specs.Frames.{frames_of};
ghost use Rattle.cop_start.specs.Offers.{offer_of};
ghost use Rattle.cop_start.specs.Senders.{senders_of};
ghost use Rattle.cop_start.specs.Rows.{rows_of, may_have_row};

/// The texts of the tables of some devices are read as these rows.
pub fn tables_are_read()
    ensures nodes { (devices : List Device) → AreSources devices → 1 ≤ length devices
        → nodes_of (node_text (devices_of devices) (frames_of devices)) ≡ Ok (node_lists (devices_of devices) (frames_of devices)) }
    ensures pdos { (devices : List Device) → AreSources devices → pdos_of (pdo_text (rows_of devices)) ≡ Ok (pdo_rows (rows_of devices)) }
{}

/// Where no more than 512 TPDOs of some devices may have rows, each of them has one, under the node that its device was given, and no
/// other TPDO has.
pub fn each_sender_has_a_row()
    ensures { (devices : List Device) (place tpdo : ℕ) (d : Device) → AreSources devices → length (senders_of devices) ≤ 512
        → slice_get devices place ≡ Some d → 1 ≤ tpdo → tpdo ≤ 512
        → is_named (pdo_rows (rows_of devices)) d.node tpdo ≡ may_have_row (offer_of d.dict tpdo) }
{}

/// Devices of which each was added with the next node are nodes 1, 2 and so on in their order: a next node is left below 127 devices,
/// and a device is then added if a table takes the name of its file.
pub fn nodes_count_up()
    ensures next { (devices : List Device) → IsNumberedFrom 1 devices
        → next_node devices ≡ (if nat_lt (length devices) 127 then Some (length devices + 1) else None) }
    ensures taken { (devices : List Device) (node : ℕ) (file : List ℕ) → next_node devices ≡ Some node → is_taken devices node file ≡ is_name file }
    ensures added { (devices : List Device) (node : ℕ) (file : List ℕ) (dict : List Entry) → IsNumberedFrom 1 devices
        → next_node devices ≡ Some node → IsNumberedFrom 1 (added devices node file dict) }
    ensures nodes { (devices : List Device) (place : ℕ) (d : Device) → IsNumberedFrom 1 devices → slice_get devices place ≡ Some d
        → d.node ≡ 1 + place }
{}
