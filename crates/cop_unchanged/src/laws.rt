//! What holds of each node, whatever the two plans are.

ghost use Rattle.std.specs.Prelude.{◌≡◌, ℕ, List, Some};
ghost use Rattle.cop_frame.specs.declared.rates.Rate.{Rate};
ghost use Rattle.cop_rows.specs.declared.node_table.DeviceRow.{DeviceRow};
ghost use Rattle.cop_net.specs.Devices.{File, text_of};
ghost use Rattle.cop_net.specs.Network.{Net};
ghost use Rattle.cop_boot.specs.Device.{Attached};
ghost use Rattle.cop_boot.specs.NetworkBoot.{HasWhatItsDcfSays};
ghost use Rattle.cop_unchanged.specs.Unchanged.{dcf_by, AreSame};

/// A device that has what its DCF says under one plan has what its DCF says under another, if the two texts describe the same device for its
/// node. So it needs no boot for the other plan, unless the rate is another.
pub fn same_nodes_need_no_boot()
    ensures { (old new : Net) (old_files new_files : List File) (old_ids new_ids : List ℕ) (old_rate new_rate : Rate) (node : ℕ) (old_row new_row : DeviceRow)
        (after : List Attached) (text : List ℕ) → (has : HasWhatItsDcfSays old old_files old_ids old_rate node old_row after) → text_of new_files new_row.eds ≡ Some text
        → AreSame (dcf_by old old_ids old_rate node old_row has.text) (dcf_by new new_ids new_rate node new_row text) node
        → HasWhatItsDcfSays new new_files new_ids new_rate node new_row after }
{}
