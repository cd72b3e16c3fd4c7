//! Laws of the definitions that contracts cite: when settings are accepted in turn, and what they give.

ghost use Rattle.std.specs.Prelude.{◌≡◌, ◌≤◌, ◌++◌, ◌&&◌, ◌==◌, ℕ, List, [], filter, All, Contains, true, false, Option, Some, None, option_map};
ghost use Rattle.std.specs.Option.{option_and_then};
ghost use Rattle.std.specs.List.{AllByRecursion, filter_map};
ghost use Rattle.cop_dict.specs.declared.mapping.Direction.{Direction};
ghost use Rattle.cop_dict.specs.Find.{Entry, entry_at, unsigned32_of};
ghost use Rattle.cop_dict.specs.Pdo.{is_cob_id, is_communication};
ghost use Rattle.cop_dict.specs.Dict.{valued, refused_alone};
ghost use Rattle.cop_pdo.specs.CobIds.{off, on};
ghost use Rattle.cop_pdo.specs.Payload.{payload_of};
ghost use Rattle.cop_net.specs.Asking.{AreTaken};
ghost use Rattle.cop_net.specs.Heartbeats.{heartbeat_of};
ghost use Rattle.cop_net.specs.Network.{Net, IsNetwork};
ghost use Rattle.cop_net.specs.Settings.{word, takes};
ghost use Rattle.cop_setup.specs.declared.setting.Setting.{Setting};
ghost use Rattle.cop_frame.specs.declared.rates.Rate.{Rate};
ghost use Rattle.cop_rows.specs.declared.node_table.DeviceRow.{DeviceRow};
ghost use Rattle.cop_net.specs.Devices.{File};
ghost use Rattle.cop_dcf.specs.Planned.{IsNodeReadAgain};
ghost use Rattle.cop_setup.specs.Settings.{bytes_of, planned};
ghost use Rattle.cop_boot.specs.declared.«end».End.TheVariants.{Ready};
ghost use Rattle.cop_boot.specs.Manager.{Managing, Meeting, driven, node_of, end_at, start_all, all_ready, is_command, commands_of};
ghost use Rattle.cop_boot.specs.Ends.{IsConfigured, events, first_end};
ghost use Rattle.cop_boot.specs.Node.{Node};
ghost use Rattle.cop_boot.specs.Sent.{MaySend, WereConfigured};
ghost use Rattle.cop_boot.specs.Device.{Attached};
ghost use Rattle.cop_boot.specs.Bus.{Made};
ghost use Rattle.cop_boot.specs.NetworkBoot.{IsPlanOf, HasWhatItsDcfSays};
ghost use Rattle.cop_setup.specs.InTurn.{AcceptsInTurn, IsElsewhere};
ghost use Rattle.cop_setup.specs.Offs.{every_off};
ghost use Rattle.cop_dcf.specs.Identifiers.{id_at};
ghost use Rattle.cop_dcf.specs.Settings.{on_set, set_of, settings_of, asked_of, node_settings, dictionary_of};
ghost use Rattle.cop_net.specs.Signals.{IsPdoId};
ghost use Rattle.cop_boot.specs.PlanSettings.{Admits};
ghost use Rattle.cop_boot.specs.PlannedPdos.{IsAsPlanned, HasPlannedPdos};

/// A COB-ID that can be switched off and then on in one dictionary can be so in each in which its entry is the same.
pub fn switched_off_then_on()
    ensures { (dict : List Entry) (index cob_id id : ℕ) (e : Entry) → entry_at dict index 1 ≡ Some e → is_cob_id e ≡ true → takes dict index cob_id id ≡ true
        → (refused_alone e (word (off cob_id)) ≡ None) × (refused_alone (valued (word (off cob_id)) e) (word (on cob_id id)) ≡ None) }
{}

/// What a plan sets in a dictionary that admits it is accepted in turn: all PDOs that it switches off, then what is asked of the
/// device, if the device takes it, then the PDOs that are switched on with their identifiers, at last the heartbeat's time.
pub fn plan_is_accepted()
    ensures { (dict : List Entry) (asked : List Setting) (ids : ℕ → Option ℕ) (time : ℕ) → Admits dict ids time → AreTaken dict asked → AcceptsInTurn dict (settings_of dict asked ids time) }
{}

/// The same around a setup of a device that is configured whole: each PDO that can be is switched off, then comes the setup, which the
/// device takes in turn from there on and which names no COB-ID, and at last those that are used are switched on with their identifiers.
pub fn setups_are_taken()
    ensures { (dict : List Entry) (ids : ℕ → Option ℕ) (time : ℕ) (setup : List Setting) → Admits dict ids time → AcceptsInTurn (planned dict (every_off dict)) setup
        → ((index : ℕ) → is_communication index ≡ true → IsElsewhere index 1 setup) → AcceptsInTurn dict ((every_off dict ++ setup) ++ filter_map (set_of on_set ids) dict) }
{}

/// The device of each node of an accepted network admits what a plan sets in it, so its settings, written in their order to
/// its dictionary, are all accepted, whatever identifiers from 181h to 57Fh and from 680h to 6DFh the plan gives.
pub fn networks_take_their_settings()
    ensures admitted { (net : Net) (ids : List ℕ) (node : ℕ) (dict : List Entry) → IsNetwork net → All IsPdoId ids → dictionary_of net node ≡ Some dict
        → Admits dict (id_at net.rows ids node) (heartbeat_of net.nodes.frames node) }
    ensures accepted { (net : Net) (ids : List ℕ) (node : ℕ) (dict : List Entry) → IsNetwork net → All IsPdoId ids → dictionary_of net node ≡ Some dict
        → AcceptsInTurn dict (node_settings net ids node) }
{}

/// In a device that has the settings of a plan of its network exactly the PDOs that the plan uses exist, a sender's with its
/// identifier and a receiver's with that of its sender: of each COB-ID that the device has, and of each communication record.
pub fn planned_pdos_exist()
    ensures entries { (net : Net) (ids : List ℕ) (node : ℕ) (dict : List Entry) (e : Entry) → IsNetwork net → All IsPdoId ids → dictionary_of net node ≡ Some dict → Contains dict e → is_cob_id e ≡ true
        → IsAsPlanned (id_at net.rows ids node e.index) (option_and_then unsigned32_of (entry_at (planned dict (node_settings net ids node)) e.index 1)) }
    ensures records { (net : Net) (ids : List ℕ) (node : ℕ) (dict : List Entry) → IsNetwork net → All IsPdoId ids → dictionary_of net node ≡ Some dict
        → HasPlannedPdos (id_at net.rows ids node) (planned dict (node_settings net ids node)) }
{}

/// A device that has the settings of a plan of its network moves by each of its 512 RPDOs and 512 TPDOs exactly what its EDS file says: the
/// same objects, in the same order, with the same bits. So the frames of a booted machine are those that the plan counted.
pub fn planned_payloads()
    ensures { (net : Net) (ids : List ℕ) (node : ℕ) (dict : List Entry) (direction : Direction) (number : ℕ) → IsNetwork net → dictionary_of net node ≡ Some dict → 1 ≤ number → number ≤ 512
        → payload_of (planned dict (node_settings net ids node)) direction number ≡ payload_of dict direction number }
{}

/// A device that has the settings of a plan of its network has the value of each setting that the table of settings asks of it.
pub fn asked_values_are_there()
    ensures { (net : Net) (ids : List ℕ) (node : ℕ) (dict : List Entry) → IsNetwork net → dictionary_of net node ≡ Some dict
        → AllByRecursion (λ s. option_map (λ e. e.value) (entry_at (planned dict (node_settings net ids node)) s.index s.sub) ≡ Some (bytes_of s)) (asked_of net node) }
{}

/// And it is as its EDS file says at each other object, but for the COB-IDs of PDOs (sub 1 of 1400h to 15FFh and of 1800h to 19FFh) and the
/// heartbeat's time (1017h).
pub fn nothing_else_is_set()
    ensures { (net : Net) (ids : List ℕ) (node : ℕ) (dict : List Entry) (index sub : ℕ) → dictionary_of net node ≡ Some dict
        → is_communication index && (sub == 1) ≡ false → (0x1017 == index) && (0 == sub) ≡ false → IsElsewhere index sub (asked_of net node)
        → entry_at (planned dict (node_settings net ids node)) index sub ≡ entry_at dict index sub }
{}

/// What a boot makes of the devices of a network is what the network's DCF files say: where a node is ready, the dictionary that
/// its DCF describes has the objects and the values of its device, as initial values too.
pub fn ready_devices_have_what_their_dcf_says()
    ensures { (m later : Managing) (after : List Attached) (built : ℕ → List Entry) (net : Net) (files : List File) (ids : List ℕ) (rate : Rate) (node : ℕ) (row : DeviceRow)
        → Made m built later after → IsPlanOf net ids m built → IsNodeReadAgain net files ids rate node row → end_at later.nodes node ≡ Some Ready
        → HasWhatItsDcfSays net files ids rate node row after }
{}

/// Who is ready, and when the start is sent, whatever came: a node that is ready has, since its last boot-up, confirmed each of its
/// settings in turn; and the start was sent only where each node had done so by something that came before. The other way round, a node
/// that has done so is ready, where nothing that came ended its boot otherwise (`first_end`); and where all nodes are ready, the start was sent,
/// once, behind the reset.
pub fn ready_nodes_are_configured()
    ensures ready { (m : Managing) (came : List Meeting) (number : ℕ) (node : Node) → node_of m.nodes number ≡ Some node → end_at (driven m came).manager.nodes number ≡ Some Ready
        → IsConfigured node.settings (events node.number 0 came) }
    ensures start { (m : Managing) (came : List Meeting) → AllByRecursion (λ frame. frame ≡ start_all → WereConfigured m.nodes came) (driven m came).frames }
    ensures becomes_ready { (m : Managing) (came : List Meeting) (number : ℕ) (node : Node) → node_of m.nodes number ≡ Some node → IsConfigured node.settings (events node.number 0 came)
        → first_end node.number node.limit node.settings [] (events node.number 0 came) ≡ None → end_at (driven m came).manager.nodes number ≡ Some Ready }
    ensures start_follows { (m : Managing) (came : List Meeting) → all_ready (driven m came).manager.nodes ≡ true → filter is_command (driven m came).frames ≡ commands_of true }
{}

/// Whatever came, a manager sends the reset and the start of all nodes, and to each of its own nodes what is about its
/// settings: nothing else.
pub fn nothing_else_is_sent()
    ensures { (m : Managing) (came : List Meeting) → AllByRecursion (MaySend m.nodes) (driven m came).frames }
{}
