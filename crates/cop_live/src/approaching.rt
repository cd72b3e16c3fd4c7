//! How a bus is approached: the adapter is opened, and it is listened first unless the bus is taken over.

ghost use Rattle.cop_live.specs.Opening.{OpenFails};
ghost use Rattle.cop_live.specs.Listening.{if_failed};
ghost use Rattle.cop_live.specs.Approach.{TakenOver, HeardAgain, GoesOnBy, Sounds, Heard, Looked, Approached};
ghost use Rattle.cop_live.specs.Approach.{HearAgainFails, GoOnFails, SoundFails, HearFails, LookFails, ApproachFails};

use crate::flags::{ask_flags, error_in};
use crate::listening::{Found, Sender, listen};
use crate::opening::{Opening, Reply, open, open_to_listen};
use crate::port::Port;
use cop_frame::Rate;

// Opens the adapter to send.
fn take_over<P: Port>(port: &mut P, rate: Rate) -> Found
    ensures taken { TakenOver P.reads P.writes rate port.old result port.new }
    ensures failed { if_failed result (OpenFails P.reads P.writes P.fails rate port.old port.new) }
{
    match open(port, rate) {
        Opening::Active => Found::Nobody,
        Opening::Refused { command } => Found::Refused { command },
        Opening::Passive | Opening::Untold | Opening::Failed => Found::Failed,
    }
}

// Opens the adapter to send, and listens by it.
fn listen_again<P: Port>(rate: Rate, senders: &[Sender], only: Option<u8>, port: &mut P) -> Found
    ensures heard { HeardAgain P.reads P.writes P.asks rate senders.now only port.old result port.new }
    ensures failed { if_failed result (HearAgainFails P.reads P.writes P.asks P.fails rate port.old port.new) }
{
    match open(port, rate) {
        Opening::Active => listen(senders, only, port),
        Opening::Refused { command } => Found::Refused { command },
        Opening::Passive | Opening::Untold | Opening::Failed => Found::Failed,
    }
}

// Goes on where nobody was heard to run, by what the adapter answered to listen only.
fn go_on<P: Port>(
    answer: Reply,
    rate: Rate,
    senders: &[Sender],
    only: Option<u8>,
    port: &mut P,
) -> Found
    ensures goes_on { GoesOnBy P.reads P.writes P.asks rate senders.now only answer port.old result port.new }
    ensures failed { if_failed result (GoOnFails P.reads P.writes P.asks P.fails rate answer port.old port.new) }
{
    match answer {
        Reply::Taken => take_over(port, rate),
        Reply::Silent => listen_again(rate, senders, only, port),
        Reply::Refused => Found::Nobody,
    }
}

// Asks the adapter for its flags where nothing was heard, and goes on unless they tell of errors.
fn sound<P: Port>(
    answer: Reply,
    rate: Rate,
    senders: &[Sender],
    only: Option<u8>,
    port: &mut P,
) -> Found
    ensures sounds { Sounds P.reads P.writes P.asks rate senders.now only answer port.old result port.new }
    ensures failed { if_failed result (SoundFails P.reads P.writes P.asks P.fails rate answer port.old port.new) }
{
    let Some(flags) = ask_flags(port) else {
        return Found::Failed;
    };
    match error_in(flags) {
        Some(flags) => Found::Erroneous { flags },
        None => go_on(answer, rate, senders, only, port),
    }
}

// Listens, and leaves the adapter open to send where nobody is heard to run.
fn hear<P: Port>(
    answer: Reply,
    rate: Rate,
    senders: &[Sender],
    only: Option<u8>,
    port: &mut P,
) -> Found
    ensures heard { Heard P.reads P.writes P.asks rate senders.now only answer port.old result port.new }
    ensures failed { if_failed result (HearFails P.reads P.writes P.asks P.fails rate senders.now only answer port.old port.new) }
{
    match listen(senders, only, port) {
        Found::Nobody => go_on(answer, rate, senders, only, port),
        Found::Silence => sound(answer, rate, senders, only, port),
        Found::Running { runner } => Found::Running { runner },
        Found::Garbled { lines } => Found::Garbled { lines },
        Found::Erroneous { .. } | Found::Refused { .. } | Found::Failed => Found::Failed,
    }
}

// Listens, by an adapter that listens only if it can, and leaves it open to send where nobody is heard to run.
fn look<P: Port>(rate: Rate, senders: &[Sender], only: Option<u8>, port: &mut P) -> Found
    ensures looked { Looked P.reads P.writes P.asks rate senders.now only port.old result port.new }
    ensures failed { if_failed result (LookFails P.reads P.writes P.asks P.fails rate senders.now only port.old port.new) }
{
    match open_to_listen(port, rate) {
        Opening::Passive => hear(Reply::Taken, rate, senders, only, port),
        Opening::Untold => hear(Reply::Silent, rate, senders, only, port),
        Opening::Active => hear(Reply::Refused, rate, senders, only, port),
        Opening::Refused { command } => Found::Refused { command },
        Opening::Failed => Found::Failed,
    }
}

/// Opens the adapter at a rate to send. Unless the bus is taken over, it is opened to listen only before, and listened for 2 s: where
/// somebody is heard to run who is meant, or lines come of which none is a frame, it is not opened to send. Nor is it where no line comes,
/// and its flags tell of errors on the bus. An adapter that refuses to listen only is opened to send in its place; one that does not answer
/// whether it does, and so may be closed, is listened by once more for 2 s when it is open to send. What is found is `Nobody` or `Silence`
/// where the adapter is open to send.
pub fn approach<P: Port>(
    rate: Rate,
    senders: &[Sender],
    only: Option<u8>,
    is_taken_over: bool,
    port: &mut P,
) -> Found
    ensures approached { Approached P.reads P.writes P.asks rate senders.now only is_taken_over port.old result port.new }
    ensures failed { if_failed result (ApproachFails P.reads P.writes P.asks P.fails rate senders.now only is_taken_over port.old port.new) }
{
    if is_taken_over {
        take_over(port, rate)
    } else {
        look(rate, senders, only, port)
    }
}
