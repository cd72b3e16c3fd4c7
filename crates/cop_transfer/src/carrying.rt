//! A transfer over a port: request by request, each awaiting its answer.

ghost use Rattle.std.specs.Prelude.{◌≡◌, true, false, IfSome, IfNone};
ghost use Rattle.cop_sdo.specs.Message.{message_of};
ghost use Rattle.cop_sdo.specs.Client.{is_idle};
ghost use Rattle.cop_sdo.specs.Reply.{is_answer};
ghost use Rattle.cop_transfer.specs.Carrying.{Takes, TakeFails, Expires, ExpireFails, IsCarried, CarryFails};

use crate::exchanging::exchange;
use cop_frame::Frame;
use cop_live::{Port, send};
use cop_sdo::{Client, Progress};

/// How a transfer ended.
#[derive(Clone, Copy, Debug, PartialEq, Eq)]
pub enum End {
    /// The value was read, or written.
    Done,
    /// The node refused it by an abort code.
    Refused { code: u32 },
    /// The client gave it up by an abort code: the answer was none to its request, or there was no memory for the value.
    GivenUp { code: u32 },
    /// The node did not answer in time.
    Silent,
}

/// What an answer leads to.
#[derive(Clone, Copy, Debug, PartialEq, Eq)]
pub(crate) enum Heard {
    /// The client sends another request.
    Asks { request: Frame },
    /// The transfer has ended.
    Ends { end: End },
}

// Has the client hear an answer of its node.
fn take_answer<P: Port>(client: &mut Client, answer: &Frame, port: &mut P) -> Option<Heard>
    requires asking { is_idle client.old.asking.task ≡ false }
    requires answer { is_answer client.old.node (message_of answer.now) ≡ true }
    ensures takes { IfSome result (λ heard. Takes P.reads P.writes P.asks client.old (message_of answer.now) port.old heard client.new port.new) }
    ensures failed { IfNone result (TakeFails P.reads P.writes P.asks P.fails client.old (message_of answer.now) port.old port.new) }
{
    match client.step(answer) {
        Progress::Send(request) => Some(Heard::Asks { request }),
        Progress::Done => Some(Heard::Ends { end: End::Done }),
        Progress::Aborted(code) => Some(Heard::Ends {
            end: End::Refused { code },
        }),
        Progress::Ended(abort, code) => {
            if send(port, &abort) {
                Some(Heard::Ends {
                    end: End::GivenUp { code },
                })
            } else {
                None
            }
        }
        // A client that asks ignores no answer.
        Progress::Ignored => None,
    }
}

// Has the client give up, and tells its node so.
fn run_out<P: Port>(client: &mut Client, port: &mut P) -> bool
    requires asking { is_idle client.old.asking.task ≡ false }
    ensures expires { result ≡ true → Expires P.reads P.writes P.asks client.old port.old client.new port.new }
    ensures failed { result ≡ false → ExpireFails P.reads P.writes P.asks P.fails client.old port.old port.new }
{
    match client.expire() {
        Some(abort) => send(port, &abort),
        // A client that asks can give up.
        None => false,
    }
}

/// Carries a transfer of the client of a node from its first request to its end: each answer is awaited for so many ticks. `None` where the port or its
/// clock fails.
pub(crate) fn carry<P: Port>(
    client: &mut Client,
    node: u8,
    limit: u64,
    first: &Frame,
    port: &mut P,
) -> Option<End>
    requires node { client.old.node ≡ node }
    requires asking { is_idle client.old.asking.task ≡ false }
    ensures carried { IfSome result (λ end. IsCarried P.reads P.writes P.asks limit (record { client = client.old; request = message_of first.now }) port.old end client.new port.new) }
    ensures failed { IfNone result (CarryFails P.reads P.writes P.asks P.fails limit (record { client = client.old; request = message_of first.now }) port.old port.new) }
{
    let mut request = *first;
    for _step in 0..u64::MAX {
        let Some(exchanged) = exchange(node, limit, &request, port) else {
            return None;
        };
        let Some(answer) = exchanged else {
            return if run_out(client, port) {
                Some(End::Silent)
            } else {
                None
            };
        };
        match take_answer(client, &answer, port) {
            Some(Heard::Asks { request: next }) => request = next,
            Some(Heard::Ends { end }) => return Some(end),
            None => return None,
        }
    }
    None
}
