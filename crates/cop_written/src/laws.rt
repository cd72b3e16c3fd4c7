//! What is read of the texts.

ghost use Rattle.std.specs.Prelude.{◌≡◌, ◌≤◌, List, length, Ok};
ghost use Rattle.cop_rows.specs.NodeReading.{nodes_of};
ghost use Rattle.cop_rows.specs.PdoReading.{pdos_of};
ghost use Rattle.cop_written.specs.declared.nodes.Device.{Device};
ghost use Rattle.cop_written.specs.declared.nodes.Frame.{Frame};
ghost use Rattle.cop_written.specs.declared.pdos.Row.{Row};
ghost use Rattle.cop_written.specs.Texts.{node_text, pdo_text};
ghost use Rattle.cop_written.specs.Sound.{AreDevices, AreFrames, node_lists, AreRows, pdo_rows};

/// The text of a table of nodes is read as the rows that it was made of: devices by rising node, one at least, and the frames of these.
pub fn node_texts_are_read()
    ensures { (devices : List Device) (frames : List Frame) → 1 ≤ length devices → AreDevices 0 devices → AreFrames devices 0 frames
        → nodes_of (node_text devices frames) ≡ Ok (node_lists devices frames) }
{}

/// So is the text of a table of PDOs: at most 512, by rising node and TPDO.
pub fn pdo_texts_are_read()
    ensures { (rows : List Row) → length rows ≤ 512 → AreRows 0 rows → pdos_of (pdo_text rows) ≡ Ok (pdo_rows rows) }
{}
