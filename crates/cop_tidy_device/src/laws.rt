//! That two nodes decide.

ghost use Rattle.std.specs.Prelude.{◌≡◌, ◌≤◌, ℕ, List, Ok};
ghost use Rattle.cop_dict.specs.Build.{built};
ghost use Rattle.cop_tidy_device.specs.Device.{Meaning, dictionary_for};

/// A text of which the dictionaries of a device are built for the first node, 1, and for the last one, 127, builds the dictionary of the
/// device for each node: a value or a limit is one for all nodes, or a number and the node's. Nodes are 1 to 127 (CiA 301); for 0 it does
/// not hold, since the sum of the greatest number of a type and 0 is in the type, and that of no node is.
#[tactic(auto, using(crate::proofs::NodeLemmas::built_between))]
pub fn two_nodes_decide()
    ensures { (text : List ℕ) (device : Meaning) (node : ℕ) → 1 ≤ node → node ≤ 127
        → built text 1 ≡ Ok (dictionary_for 1 device) → built text 127 ≡ Ok (dictionary_for 127 device) → built text node ≡ Ok (dictionary_for node device) }
{}
