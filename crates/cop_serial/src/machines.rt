//! The boot of the devices at a port.

ghost use Rattle.std.specs.Prelude.{◌≡◌, IfOk, IfErr, Some};
ghost use Rattle.cop_engine.specs.declared.faults.Fault.TheVariants.{Refused};
ghost use Rattle.cop_serial.specs.Boots.{watch_of, approach_of, status_of, refused_as, FailsBy};

use crate::serial::{SECOND, Serial, limit_of, open_serial};
use crate::telling::{
    answer, emergencies_of, errors_refusal, failure_behind, line_failure, refusal, say,
    tell_adapter, tell_heard, unopened_refusal,
};
use cop_answers::{ABSENT, GARBLED, Inputs, RUNNING, boot_notes, identity_notes};
use cop_boot_answer::BootAnswer;
use cop_commission::{Approach, Commissioned, Reach, Runner, Watch, commission_planned};
use cop_documents::{AtPort, boot_document};
use cop_engine::{PlannedNetwork, boot_text};
use cop_files::{Failure, Form, Use, file_failure, read_network, write_file};
use cop_orders::MachineOrder;
use cop_plan::Outcome;
use cop_report::{Sheet, sheet_of};
use std::alloc::{AllocError, Global};

/// The document of a boot, with its end of line.
fn document_of(
    alloc: Global,
    told: Option<&BootAnswer>,
    port: &Serial<'_>,
) -> Result<String, AllocError> {
    let emergencies = emergencies_of(alloc, port)?;
    let at_port = AtPort {
        emergencies: &emergencies,
        took: port.ticks(),
    };
    let mut document = boot_document(alloc, told, Some(at_port))?;
    document.push_str("\n")?;
    Ok(document)
}

/// Gives the answer of a boot in a form, and that no rate passes where there is none.
fn answer_in(
    rt: &HostRuntime,
    name: &str,
    form: Form,
    told: Option<&BootAnswer>,
    port: &Serial<'_>,
) -> Result<(), Failure> {
    if form == Form::Document {
        answer(rt, name, document_of(rt.alloc(), told, port)?.as_bytes())
    } else {
        answer(rt, name, &boot_text(rt.alloc(), told)?)
    }
}

/// The refusal where somebody runs, by a frame of an identifier.
fn running_refusal(rt: &HostRuntime, runner: Runner) -> Failure
    ensures { result.fault ≡ Refused 100 runner.node }
{
    let id = runner.id;
    let line = format!(in rt.alloc(); "a frame {id:03X}h was heard\n");
    refusal(RUNNING, u64::from(runner.node), line.ok())
}

/// Tells how far the boot of each node was on a line that failed, and gives the failure.
fn boot_failure(
    rt: &HostRuntime,
    name: &str,
    form: Form,
    told: &BootAnswer,
    port: &Serial<'_>,
) -> Result<Failure, Failure> {
    let text = told.text(rt.alloc())?;
    failure_behind(rt, name, form, &text, line_failure(rt, name, port))
}

/// What is said where a device did not go back to the values that it left the factory with.
const UNRESTORED: &[u8] =
    b"canplan: a device did not take 'load' at 1011h sub 1, so nothing else was sent to any; without --restore the boot begins with the values that the devices have\n";

/// Tells what came of a boot, and gives its status: 3 if some node is not ready, or was not heard to be operational.
fn tell_ended(
    rt: &HostRuntime,
    order: MachineOrder<'_>,
    form: Form,
    ended: &Commissioned,
    port: &Serial<'_>,
) -> Result<u8, Failure>
    ensures ends { IfOk result (λ status. status_of ended.now ≡ Some status) }
    ensures fails { IfErr result (λ failure. FailsBy (refused_as order.entry.only ended.now) failure.fault) }
{
    let name = order.port;
    match ended {
        Commissioned::Ended {
            answer,
            ready,
            operational,
            rate,
            ..
        } => {
            answer_in(rt, name, form, Some(answer), port)?;
            say(rt, &boot_notes(rt.alloc(), answer, *rate)?);
            Ok(if *ready && *operational { 0 } else { 3 })
        }
        Commissioned::Others { answer, exchanges } => {
            answer_in(rt, name, form, Some(answer), port)?;
            say(rt, &identity_notes(rt.alloc(), exchanges)?);
            Ok(3)
        }
        Commissioned::Unrestored { answer } => {
            answer_in(rt, name, form, Some(answer), port)?;
            say(rt, UNRESTORED);
            Ok(3)
        }
        Commissioned::Running { runner } => Err(running_refusal(rt, *runner)),
        Commissioned::Garbled { lines } => Err(refusal(GARBLED, *lines, None)),
        Commissioned::Erroneous { flags, rate } => Err(errors_refusal(rt, *flags, *rate)),
        Commissioned::Unopened { command, rate } => Err(unopened_refusal(rt, *command, *rate)),
        Commissioned::Absent => Err(refusal(ABSENT, u64::from(order.only.unwrap_or(0)), None)),
        Commissioned::NonePasses => {
            answer_in(rt, name, form, None, port)?;
            Ok(4)
        }
        Commissioned::Failed { answer } => Err(boot_failure(rt, name, form, answer, port)?),
    }
}

/// What is told of the nodes at the end of a boot, if it came so far.
fn answer_of(ended: &Commissioned) -> Option<&BootAnswer> {
    match ended {
        Commissioned::Ended { answer, .. }
        | Commissioned::Others { answer, .. }
        | Commissioned::Unrestored { answer }
        | Commissioned::Failed { answer } => Some(answer),
        _ => None,
    }
}

/// Writes the page of a boot, if one is wanted, and if there is something to tell of the nodes.
fn write_sheet(
    rt: &HostRuntime,
    order: MachineOrder<'_>,
    planned: &PlannedNetwork<'_>,
    ended: &Commissioned,
    port: &Serial<'_>,
) -> Result<(), Failure> {
    let Some(out) = order.report else {
        return Ok(());
    };
    let Some(answer) = answer_of(ended) else {
        return Ok(());
    };
    let (network, outcome) = planned.parts();
    let Outcome::Planned(plan) = outcome else {
        return Ok(());
    };
    let emergencies = emergencies_of(rt.alloc(), port)?;
    let sheet = Sheet {
        network,
        plan,
        answer,
        emergencies: &emergencies,
        identify: order.identify,
        took: port.ticks(),
        title: order.title,
        date: order.date,
    };
    let page = sheet_of(rt.alloc(), sheet)?;
    write_file(rt, out, page.as_bytes())
}

/// What is said before a boot to a person who waits for it.
fn said_before(order: MachineOrder<'_>) -> &'static str {
    match (order.take_over, order.identify) {
        (true, _) => "",
        (false, true) =>
            "canplan: listening for 2 s, then the devices are asked who they are and the nodes are reset\n",
        (false, false) => "canplan: listening for 2 s, then the nodes are reset\n",
    }
}

/// For how long heartbeats are awaited.
fn watch_of(seconds: Option<u64>) -> Watch
    ensures { result ≡ watch_of seconds }
{
    match seconds {
        None => Watch::OnceEach,
        Some(0) => Watch::Never,
        Some(seconds) => Watch::For(seconds.saturating_mul(SECOND)),
    }
}

/// How the devices are approached.
fn approach_of(order: MachineOrder<'_>) -> Approach
    ensures { result ≡ approach_of order.entry }
{
    Approach {
        take_over: order.take_over,
        identify: order.identify,
        reach: Reach {
            only: order.only,
            start: order.start,
        },
        boot_limit: order.boot_limit.saturating_mul(SECOND),
        restore: order.restore,
        store: order.store,
        watch: watch_of(order.watch),
    }
}

/// The boot of the devices at a port by the plan of their network.
#[inline(never)]
pub fn boot_machine(
    rt: &HostRuntime,
    order: MachineOrder<'_>,
    form: Form,
    inputs: &mut Inputs,
) -> Result<u8, Failure> {
    let tables = read_network(rt, &mut inputs.network, order.network)?;
    let planned = inputs.network.planned(rt.alloc(), &tables)?;
    let mut port = match open_serial(rt, order.port, limit_of(order.limit)) {
        Ok(port) => port,
        Err(error) => return Err(file_failure(rt, order.port, Use::Read, &error)),
    };
    if form == Form::Told {
        say(rt, said_before(order).as_bytes());
    }
    let ended = commission_planned(rt.alloc(), &planned, approach_of(order), &mut port)?;
    port.close_if_over();
    tell_adapter(rt, &port);
    tell_heard(rt, &port);
    let written = write_sheet(rt, order, &planned, &ended, &port);
    let status = tell_ended(rt, order, form, &ended, &port)?;
    written?;
    Ok(status)
}
