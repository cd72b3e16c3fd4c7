//! Laws of what a plan sets in a node.

ghost use Rattle.std.specs.Prelude.{◌≡◌, ◌<◌, ◌≤◌, ◌^◌, ◌*◌, ◌==◌, find, ℕ, List, length, All, Option, Some, Ok, IfSome, IsTrue};
ghost use Rattle.cop_frame.specs.declared.rates.Rate.{Rate};
ghost use Rattle.cop_eds.specs.Reading.{reading};
ghost use Rattle.cop_eds.specs.Rows.{rows_of};
ghost use Rattle.cop_dict.specs.Find.{Entry};
ghost use Rattle.cop_dict.specs.Build.{built};
ghost use Rattle.cop_rows.specs.declared.node_table.DeviceRow.{DeviceRow};
ghost use Rattle.cop_rows.specs.Names.{is_name};
ghost use Rattle.cop_rows.specs.Nodes.{IsNodeTable};
ghost use Rattle.cop_net.specs.Devices.{File};
ghost use Rattle.cop_net.specs.Network.{Net, IsNetwork, accepted, network_of};
ghost use Rattle.cop_dcf.specs.Settings.{settings_of, node_settings, dictionary_of};
ghost use Rattle.cop_setup.specs.Settings.{IsFit, HasObject, IsNumber};
ghost use Rattle.cop_setup.specs.declared.setting.Setting.{Setting};
ghost use Rattle.cop_dcf.specs.Dcf.{with_sections, changes_of, dcf_of};
ghost use Rattle.cop_dcf.specs.Free.{free_rows};
ghost use Rattle.cop_dcf.specs.Planned.{IsReadAgain, SaysNode, IsNodeReadAgain};

/// The value of each setting fits its bytes.
pub fn settings_fit()
    ensures dictionary { (dict : List Entry) (asked : List Setting) (ids : ℕ → Option ℕ) (time : ℕ) → All IsFit asked → ((index : ℕ) → IfSome (ids index) (λ id. id < 2 ^ 11)) → time < 2 ^ 16
        → All IsFit (settings_of dict asked ids time) }
    ensures network { (net : Net) (ids : List ℕ) (node : ℕ) → IsNetwork net → All (λ id. id < 2 ^ 11) ids → All IsFit (node_settings net ids node) }
{}

/// Each setting is of an object that the dictionary of its node has.
pub fn settings_have_objects()
    ensures dictionary { (dict : List Entry) (asked : List Setting) (ids : ℕ → Option ℕ) (time : ℕ) → All (HasObject dict) asked → All (HasObject dict) (settings_of dict asked ids time) }
    ensures network { (net : Net) (ids : List ℕ) (node : ℕ) (dict : List Entry) → IsNetwork net → dictionary_of net node ≡ Some dict → All (HasObject dict) (node_settings net ids node) }
{}

/// A DCF is read again. That of an accepted text, where it is not longer than texts may be, is accepted, and the dictionary
/// that it describes for its node is the planned one: that of the EDS text with the last value of each setting. The
/// initial values of a dictionary that a DCF describes are the planned values.
pub fn round_trip()
    ensures { (text : List ℕ) (settings : List Setting) (node : ℕ) (name : List ℕ) (rate : Rate) (eds_name : List ℕ) (dict : List Entry)
        → reading text ≡ Ok text → built text node ≡ Ok dict → All (IsNumber dict) settings → IsTrue (is_name name) → IsTrue (is_name eds_name)
        → node < 2 ^ 8 → length (dcf_of text settings node name rate eds_name) ≤ 4 * 1024 * 1024
        → IsReadAgain (dcf_of text settings node name rate eds_name) node dict settings }
{}

/// A DCF of an accepted text says which node it is of, at which rate, and of which file it was made, whatever the text said there.
pub fn dcf_says_its_node()
    ensures { (text : List ℕ) (settings : List Setting) (node : ℕ) (name : List ℕ) (rate : Rate) (eds_name : List ℕ) → reading text ≡ Ok text
        → IsTrue (is_name name) → IsTrue (is_name eds_name) → node < 2 ^ 8 → SaysNode (dcf_of text settings node name rate eds_name) node rate eds_name }
{}

/// Each line of an accepted text whose key a DCF does not set stands in it as it was, in its order, but for its end: the lines are those of the
/// text with the sections DeviceComissioning and FileInfo, which are put at the end where they are absent.
pub fn dcf_keeps_other_lines()
    ensures { (text : List ℕ) (settings : List Setting) (node : ℕ) (name : List ℕ) (rate : Rate) (eds_name : List ℕ) → reading text ≡ Ok text → IsTrue (is_name name) → IsTrue (is_name eds_name) → node < 2 ^ 8
        → free_rows (changes_of text settings node name rate eds_name) (rows_of (dcf_of text settings node name rate eds_name)) ≡ free_rows (changes_of text settings node name rate eds_name) (with_sections (rows_of text)) }
{}

/// The same of a node of a network that some tables and EDS files make: its dictionary is planned where the PDOs have these
/// identifiers.
pub fn node_round_trip()
    ensures { (net : Net) (wanted : List Rate) (files : List File) (ids : List ℕ) (rate : Rate) (node : ℕ) (row : DeviceRow)
        → network_of wanted net.nodes net.rows files ≡ Ok (accepted net) → IsNodeTable net.nodes
        → find (λ row. row.node == node) net.nodes.devices ≡ Some row → All (λ id. id < 2 ^ 11) ids → IsTrue (is_name row.name)
        → IsTrue (is_name row.eds) → IsNodeReadAgain net files ids rate node row }
{}
