//! What is said of a line to an adapter, of what comes there, and of a line that is not used.

ghost use Rattle.std.specs.Prelude.{◌≡◌};
ghost use Rattle.cop_engine.specs.declared.faults.Fault.TheVariants.{Refused};
ghost use Rattle.cop_serial.specs.Reasons.{refused_for};

use crate::heard::NmtCommand;
use crate::serial::Serial;
use cop_answers::{ERRONEOUS, GARBLED, UNOPENED};
use cop_commission::Command;
use cop_engine::Fault;
use cop_files::{Failure, Form, Use, file_failure, print};
use cop_frame::Rate;
use cop_logbook::Emergency;
use cop_slcan::rate_digit;
use cop_survey::Reason;
use std::alloc::{AllocError, Global};
use std::io::Write;
use std::str;

/// Says something on standard error.
pub(crate) fn say(rt: &HostRuntime, words: &[u8]) {
    let _ = rt.stderr().write_all(words);
}

/// Gives an answer: on standard error where standard output is the port.
pub fn answer(rt: &HostRuntime, port: &str, text: &[u8]) -> Result<(), Failure> {
    if port == "-" {
        say(rt, text);
        Ok(())
    } else {
        print(rt, text)
    }
}

/// A failure with lines behind its reason.
fn with_lines(rt: &HostRuntime, failure: Failure, text: &[u8]) -> Failure {
    let reason = match &failure.reason {
        Some(reason) => reason.as_str(),
        None => "",
    };
    let lines = str::from_utf8(text).unwrap_or("");
    match format!(in rt.alloc(); "{reason}{lines}") {
        Ok(all) => Failure {
            fault: failure.fault,
            reason: Some(all),
        },
        Err(error) => Failure::from(error),
    }
}

/// Tells lines before a failure or, as that is one document, in it; and gives the failure.
pub(crate) fn failure_behind(
    rt: &HostRuntime,
    port: &str,
    form: Form,
    lines: &[u8],
    failure: Failure,
) -> Result<Failure, Failure> {
    if form == Form::Document {
        return Ok(with_lines(rt, failure, lines));
    }
    if !lines.is_empty() {
        answer(rt, port, lines)?;
    }
    Ok(failure)
}

/// Tells of what the adapter refused since it was opened, and of what it takes otherwise than others.
pub(crate) fn tell_adapter(rt: &HostRuntime, port: &Serial<'_>) {
    if port.cannot_listen {
        say(
            rt,
            b"canplan: the adapter cannot listen only (it refuses L), and was opened by O to listen\n",
        );
    }
    if port.is_at_seven {
        say(
            rt,
            b"canplan: S7 is 800 kbit/s; some adapters take it as 750 kbit/s (CANable's firmware, python-can)\n",
        );
    }
    let refused = port.refused;
    if refused == 0 {
        return;
    }
    let line = format!(in rt.alloc(); "canplan: the adapter refused {refused} of the commands\n");
    if let Ok(line) = line {
        say(rt, line.as_bytes());
    }
}

/// What is said of an error that a node told.
fn emergency_line(alloc: Global, emergency: Emergency) -> Result<String, AllocError> {
    let Emergency {
        node,
        code,
        register,
    } = emergency;
    let kind = emergency.kind();
    format!(in alloc;
        "canplan: node {node} told an error by EMCY: code {code:04X}h ({kind}), error register {register:02X}h\n"
    )
}

/// The errors that devices told meanwhile, by node.
pub(crate) fn emergencies_of(
    alloc: Global,
    port: &Serial<'_>,
) -> Result<Vec<Emergency>, AllocError> {
    let mut all = Vec::new(alloc);
    for node in 1..128_u8 {
        if let Some(told) = port.heard.emergency(node) {
            all.push(told)?;
        }
    }
    Ok(all)
}

/// What is said of another manager, by a command of its own.
fn foreign_line(alloc: Global, command: NmtCommand) -> Result<String, AllocError> {
    let (number, node) = (command.number, command.node);
    format!(in alloc;
        "canplan: another manager is on the bus: the NMT command {number:02X}h {node:02X}h was heard, which was not sent here\n"
    )
}

/// Tells of errors that devices told meanwhile, and of another manager.
pub(crate) fn tell_heard(rt: &HostRuntime, port: &Serial<'_>) {
    for node in 1..128_u8 {
        if let Some(emergency) = port.heard.emergency(node)
            && let Ok(line) = emergency_line(rt.alloc(), emergency)
        {
            say(rt, line.as_bytes());
        }
    }
    if let Some(command) = port.heard.foreign
        && let Ok(line) = foreign_line(rt.alloc(), command)
    {
        say(rt, line.as_bytes());
    }
}

/// A refusal of what was found at the port, with a line of its own if there is memory for it.
pub(crate) fn refusal(number: u8, place: u64, reason: Option<String>) -> Failure
    ensures { result.fault ≡ Refused number place }
{
    Failure {
        fault: Fault::Refused { number, place },
        reason,
    }
}

/// The refusal where the adapter's flags tell of errors at a rate, and no frame is heard.
pub(crate) fn errors_refusal(rt: &HostRuntime, flags: u16, rate: Rate) -> Failure
    ensures { result.fault ≡ Refused 102 0 }
{
    let kbits = rate.kbits();
    let line = format!(in rt.alloc(); "its flags are {flags:02X}h, at {kbits} kbit/s\n");
    refusal(ERRONEOUS, 0, line.ok())
}

/// The refusal where an adapter is not opened at a rate.
pub(crate) fn unopened_refusal(rt: &HostRuntime, command: Command, rate: Rate) -> Failure
    ensures { result.fault ≡ Refused 104 0 }
{
    let kbits = rate.kbits();
    let digit = char::from(rate_digit(rate));
    let line = match command {
        Command::Rate => format!(in rt.alloc(); "it refuses S{digit}, {kbits} kbit/s\n"),
        Command::Open => format!(in rt.alloc(); "it refuses O, at {kbits} kbit/s\n"),
    };
    refusal(UNOPENED, 0, line.ok())
}

/// The refusal where nothing is sent at a rate.
pub(crate) fn reason_refusal(rt: &HostRuntime, reason: Reason, rate: Rate) -> Failure
    ensures { result.fault ≡ refused_for reason }
{
    match reason {
        Reason::Garbled { lines } => refusal(GARBLED, lines, None),
        Reason::Erroneous { flags } => errors_refusal(rt, flags, rate),
        Reason::Unopened { command } => unopened_refusal(rt, command, rate),
    }
}

/// The failure of a line that was opened.
pub(crate) fn line_failure(rt: &HostRuntime, name: &str, port: &Serial<'_>) -> Failure {
    if let Some(error) = &port.error {
        return file_failure(rt, name, Use::Read, error);
    }
    let reason = if port.over {
        "the limit of time has passed\n"
    } else {
        "the line or the clock has ended\n"
    };
    match String::from_str(rt.alloc(), name) {
        Ok(name) => Failure {
            fault: Fault::File(name),
            reason: String::from_str(rt.alloc(), reason).ok(),
        },
        Err(error) => Failure::from(error),
    }
}
