//! An NMT command is sent to nodes at a port.

ghost use Rattle.std.specs.Prelude.{◌≡◌, IfOk, IfErr, Some};
ghost use Rattle.cop_serial.specs.Boots.{FailsBy};
ghost use Rattle.cop_serial.specs.Commanding.{status_of, refused_as};

use crate::serial::{Serial, limit_of, open_serial};
use crate::telling::{answer, line_failure, reason_refusal, say, tell_adapter, tell_heard};
use cop_command::{Command, Commanded, give};
use cop_files::{Failure, Form, Use, file_failure};
use cop_orders::NmtOrder;
use std::alloc::{AllocError, Global};

/// The word of a command.
fn word_of(command: Command) -> &'static str {
    match command {
        Command::Start => "start",
        Command::Stop => "stop",
        Command::EnterPreOperational => "preop",
        Command::ResetNode => "reset",
        Command::ResetCommunication => "reset-communication",
    }
}

/// What is said of a command that was sent.
fn sent_line(alloc: Global, order: NmtOrder<'_>) -> Result<String, AllocError> {
    let word = word_of(order.command);
    match order.only {
        Some(node) => format!(in alloc; "sent {word} to node {node}\n"),
        None => format!(in alloc; "sent {word} to all nodes\n"),
    }
}

/// Tells what came of a command, and gives its status.
fn tell_commanded(
    rt: &HostRuntime,
    order: NmtOrder<'_>,
    commanded: Commanded,
    port: &Serial<'_>,
) -> Result<u8, Failure>
    ensures ends { IfOk result (λ status. status_of commanded ≡ Some status) }
    ensures fails { IfErr result (λ failure. FailsBy (refused_as commanded) failure.fault) }
{
    match commanded {
        Commanded::Given => {
            let line = sent_line(rt.alloc(), order)?;
            answer(rt, order.port, line.as_bytes())?;
            Ok(0)
        }
        Commanded::Left { reason } => Err(reason_refusal(rt, reason, order.rate)),
        Commanded::Failed => Err(line_failure(rt, order.port, port)),
    }
}

/// Sends an NMT command to one node at a port, or to all. No node confirms one.
#[inline(never)]
pub fn command_nodes(rt: &HostRuntime, order: NmtOrder<'_>, form: Form) -> Result<u8, Failure> {
    let mut port = match open_serial(rt, order.port, limit_of(order.limit)) {
        Ok(port) => port,
        Err(error) => return Err(file_failure(rt, order.port, Use::Read, &error)),
    };
    if form == Form::Told {
        say(
            rt,
            b"canplan: listening for 2 s at most, then the command is sent\n",
        );
    }
    let commanded = give(order.rate, order.command, order.only, &mut port);
    port.close_if_over();
    tell_adapter(rt, &port);
    tell_heard(rt, &port);
    tell_commanded(rt, order, commanded, &port)
}
