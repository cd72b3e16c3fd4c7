//! What holds of all transfers.

ghost use Rattle.std.specs.Prelude.{◌≡◌, ℕ, List, Ok, Some};
ghost use Rattle.cop_sdo.specs.declared.address.Address.{Address};
ghost use Rattle.cop_sdo.specs.Message.{Message};
ghost use Rattle.cop_sdo.specs.Outcome as progress;
ghost use Rattle.cop_sdo.specs.Client.{Calling, ask_body};
ghost use Rattle.cop_sdo.specs.Calls.{Started, downloading, uploading, expiring};
ghost use Rattle.cop_transfer.specs.Carrying.{Hears};
ghost use Rattle.cop_transfer.specs.Transferring.{fresh};
ghost use Rattle.cop_transfer.specs.Laws.{IsTo};

/// Whatever the client of a node sends goes to the SDO server of this node: its first request, each other one, and the abort by which it gives up.
/// The first request of a read is that of an upload.
pub fn clients_ask_their_node()
    ensures read { (node : ℕ) (at : Address) (started : Started) → uploading (fresh node) at ≡ Ok started
        → IsTo node started.frame × (started.client.node ≡ node) × (started.frame.body ≡ ask_body at) }
    ensures write { (node : ℕ) (at : Address) (bytes : List ℕ) (started : Started) → downloading (fresh node) at bytes ≡ Ok started → IsTo node started.frame × (started.client.node ≡ node) }
    ensures next { (client later : Calling) (answer request : Message) → Hears client answer (progress.Send request) later → IsTo client.node request × (later.node ≡ client.node) }
    ensures abort { (client later : Calling) (answer abort : Message) (code : ℕ) → Hears client answer (progress.Ended abort code) later → IsTo client.node abort }
    ensures expire { (client later : Calling) (abort : Message) → (Some abort, later) ≡ expiring client → IsTo client.node abort }
{}
