//! Laws of the definitions that contracts cite.

ghost use Rattle.std.specs.Prelude.{◌≡◌, ℕ, List, All, true, false, Some, Ok, Err, ◌++◌, slice_index};
ghost use Rattle.cop_dict.specs.Codes.{code_of};
ghost use Rattle.cop_dict.specs.Dict.{HasWidth, Replaces, written};
ghost use Rattle.cop_dict.specs.declared.abort.Abort.{Abort as Refusal};
ghost use Rattle.cop_sdo.specs.Answers.{abort_body, download_answer, reply};
ghost use Rattle.cop_sdo.specs.Boot.{Exchanges};
ghost use Rattle.cop_sdo.specs.Calls.{MayCall, given, is_short};
ghost use Rattle.cop_sdo.specs.Client.{Calling, Called, is_idle, request, resting};
ghost use Rattle.cop_sdo.specs.Reply.{Confirm, Abort, is_answer, reply_of};
ghost use Rattle.cop_sdo.specs.Serve.{Served};
ghost use Rattle.cop_sdo.specs.declared.address.Address.{Address};
ghost use Rattle.cop_sdo.specs.Outcome.{Aborted, Done, Ended, Ignored};
ghost use Rattle.cop_dict.specs.Find.{Entry};
ghost use Rattle.cop_sdo.specs.Request.{Give, Request, is_heard, request_of, requests};
ghost use Rattle.cop_sdo.specs.Service.{Download, IsDownload, after, completed, downloads};
ghost use Rattle.cop_sdo.specs.Server.{idle};
ghost use Rattle.cop_sdo.specs.Serve.{MayServe, Serving, Serves, ran_out};
ghost use Rattle.cop_sdo.specs.Message.{Message};

/// From an idle server on, unless memory is refused, the dictionary after a list of frames is the
/// one before with the writes of the completed downloads that it accepts, in order, and nothing
/// else.
pub fn downloads_are_written()
    ensures { (server : Serving) (frames answers : List Message) (dict new : List Entry) (server' : Serving) → server.state ≡ idle
        → Serves server dict frames answers server' new → All (λ answer. ran_out answer ≡ false) answers
        → new ≡ after dict (downloads (requests server.node frames)) }
{}

/// What is answered by an abort leaves the server idle and every value as before.
pub fn aborts_change_nothing()
    ensures { (server : Serving) (dict : List Entry) (frame : Message) (next : Served) (answer : Message) → MayServe server dict frame next
        → next.answer ≡ Some answer → slice_index answer.body 0 ≡ 0x80
        → (next.server ≡ record { node = server.node; state = idle }) × (next.dict ≡ dict) }
{}

/// From an idle client and an idle server of one node, a download of 1 to 4 bytes that ends Done
/// has replaced that value and no other; and it ends Done where the dictionary accepts the write,
/// all values of the object being of one width.
pub fn done_means_replaced()
    ensures replaced { (client : Calling) (server : Serving) (dict : List Entry) (at : Address) (bytes : List ℕ) (served : Served) (after : Called)
        → is_idle client.asking.task ≡ true → server ≡ record { node = client.node; state = idle } → is_short bytes ≡ true
        → Exchanges client server dict at bytes served after → after.progress ≡ Done
        → (served.server ≡ server) × (after.client ≡ record { node = client.node; asking = resting }) × Replaces dict served.dict at.index at.sub bytes }
    ensures accepted { (client : Calling) (server : Serving) (dict new : List Entry) (at : Address) (bytes : List ℕ) (served : Served) (after : Called)
        → is_idle client.asking.task ≡ true → server ≡ record { node = client.node; state = idle } → is_short bytes ≡ true
        → HasWidth dict at.index at.sub → written dict at.index at.sub bytes ≡ Ok new
        → Exchanges client server dict at bytes served after → (after.progress ≡ Done) × (served.dict ≡ new) }
{}

/// `completed` gives exactly the download with which requests begin.
pub fn completed_is_at_the_front()
    ensures only { (requests : List Request) (download : Download) → completed requests ≡ Some download
        → (front rest : List Request) × (requests ≡ front ++ rest) × IsDownload front download }
    ensures each { (front rest : List Request) (download : Download) → IsDownload front download → completed (front ++ rest) ≡ Some download }
{}

/// While a client awaits the answer to a download of 1 to 4 bytes it ignores every frame but an answer of its node. A
/// confirmation of the address ends the download as done, an abort ends it with the code that it tells, and every other
/// answer ends it by the client's own abort 05040001h. The client is idle then. None of this can want memory.
pub fn short_downloads_hear_their_answer()
    ensures ignored { (node : ℕ) (at : Address) (bytes : List ℕ) (frame : Message) (next : Called)
        → MayCall (given node at bytes).client frame next → is_answer node frame ≡ false
        → next ≡ record { client = (given node at bytes).client; progress = Ignored } }
    ensures confirmed { (node : ℕ) (at : Address) (bytes : List ℕ) (frame : Message) (next : Called)
        → MayCall (given node at bytes).client frame next → is_answer node frame ≡ true → reply_of frame.body ≡ Confirm at
        → next ≡ record { client = record { node = node; asking = resting }; progress = Done } }
    ensures aborted { (node code : ℕ) (at : Address) (bytes : List ℕ) (frame : Message) (next : Called)
        → MayCall (given node at bytes).client frame next → is_answer node frame ≡ true → reply_of frame.body ≡ Abort code
        → next ≡ record { client = record { node = node; asking = resting }; progress = Aborted code } }
    ensures unexpected { (node : ℕ) (at : Address) (bytes : List ℕ) (frame : Message) (next : Called)
        → MayCall (given node at bytes).client frame next → is_answer node frame ≡ true
        → (reply_of frame.body ≡ Confirm at → ⊥) → ((code : ℕ) → reply_of frame.body ≡ Abort code → ⊥)
        → next ≡ record { client = record { node = node; asking = resting }; progress = Ended (request node (abort_body at 0x05040001)) 0x05040001 } }
{}

/// An idle server that hears a download of 1 to 4 bytes to an object whose values are of one width writes them and
/// confirms, or answers by the abort with which the dictionary refuses, every value then being as before. It is idle
/// either way, and cannot want memory.
pub fn short_downloads_are_served()
    ensures written { (node : ℕ) (dict new : List Entry) (frame : Message) (at : Address) (bytes : List ℕ) (next : Served)
        → MayServe (record { node = node; state = idle }) dict frame next → is_heard node frame ≡ true → request_of frame.body ≡ Give at bytes
        → HasWidth dict at.index at.sub → written dict at.index at.sub bytes ≡ Ok new
        → next ≡ record { server = record { node = node; state = idle }; dict = new; answer = Some (reply node (download_answer at)) } }
    ensures refused { (node : ℕ) (dict : List Entry) (frame : Message) (at : Address) (bytes : List ℕ) (abort : Refusal) (next : Served)
        → MayServe (record { node = node; state = idle }) dict frame next → is_heard node frame ≡ true → request_of frame.body ≡ Give at bytes
        → HasWidth dict at.index at.sub → written dict at.index at.sub bytes ≡ Err abort
        → next ≡ record { server = record { node = node; state = idle }; dict = dict; answer = Some (reply node (abort_body at (code_of abort))) } }
{}
