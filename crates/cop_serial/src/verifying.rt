//! The devices at a port are asked whether they are as planned.

ghost use Rattle.std.specs.Prelude.{◌≡◌, IfOk, IfErr, Some};
ghost use Rattle.cop_serial.specs.Boots.{FailsBy};
ghost use Rattle.cop_serial.specs.Verifying.{way_of, status_of, refused_as};

use crate::serial::{MILLISECOND, Serial, limit_of, open_serial};
use crate::telling::{
    answer, line_failure, reason_refusal, refusal, say, tell_adapter, tell_heard,
};
use cop_answers::{ABSENT, Inputs, verify_notes};
use cop_boot_answer::BootAnswer;
use cop_documents::verify_document;
use cop_engine::boot_text;
use cop_files::{Failure, Form, Use, file_failure, read_network};
use cop_orders::VerifyOrder;
use cop_verify::{Verified, Way, verify_planned};

/// Gives the answer in a form, and that no rate passes where there is none.
fn answer_in(
    rt: &HostRuntime,
    port: &str,
    form: Form,
    told: Option<&BootAnswer>,
    as_planned: bool,
) -> Result<(), Failure> {
    if form == Form::Document {
        let document = verify_document(rt.alloc(), told, as_planned)?;
        answer(rt, port, format!(in rt.alloc(); "{document}\n")?.as_bytes())
    } else {
        answer(rt, port, &boot_text(rt.alloc(), told)?)
    }
}

/// Tells what came of it, and gives its status: 3 if some node is not as planned.
fn tell_verified(
    rt: &HostRuntime,
    order: VerifyOrder<'_>,
    form: Form,
    verified: &Verified,
    port: &Serial<'_>,
) -> Result<u8, Failure>
    ensures ends { IfOk result (λ status. status_of verified.now ≡ Some status) }
    ensures fails { IfErr result (λ failure. FailsBy (refused_as order.entry.only verified.now) failure.fault) }
{
    let name = order.port;
    match verified {
        Verified::Asked {
            answer,
            exchanges,
            planned,
            rate,
        } => {
            answer_in(rt, name, form, Some(answer), *planned)?;
            say(rt, &verify_notes(rt.alloc(), answer, exchanges, *rate)?);
            Ok(if *planned { 0 } else { 3 })
        }
        Verified::Left { reason, rate } => Err(reason_refusal(rt, *reason, *rate)),
        Verified::Absent => Err(refusal(ABSENT, u64::from(order.only.unwrap_or(0)), None)),
        Verified::NonePasses => {
            answer_in(rt, name, form, None, false)?;
            Ok(4)
        }
        Verified::Failed => Err(line_failure(rt, name, port)),
    }
}

/// How the devices are asked.
fn way_of(order: VerifyOrder<'_>) -> Way
    ensures { result ≡ way_of order.entry }
{
    Way {
        only: order.only,
        pause: order.gently.saturating_mul(MILLISECOND),
    }
}

/// Asks the devices at a port whether they are as the plan of their network has them. Nothing is written to them.
#[inline(never)]
pub fn verify_machine(
    rt: &HostRuntime,
    order: VerifyOrder<'_>,
    form: Form,
    inputs: &mut Inputs,
) -> Result<u8, Failure> {
    let tables = read_network(rt, &mut inputs.network, order.network)?;
    let planned = inputs.network.planned(rt.alloc(), &tables)?;
    let mut port = match open_serial(rt, order.port, limit_of(order.limit)) {
        Ok(port) => port,
        Err(error) => return Err(file_failure(rt, order.port, Use::Read, &error)),
    };
    if form == Form::Told {
        say(
            rt,
            b"canplan: listening for 2 s at most, then the devices are asked; nothing is written to them\n",
        );
    }
    let verified = verify_planned(rt.alloc(), &planned, way_of(order), &mut port)?;
    port.close_if_over();
    tell_adapter(rt, &port);
    tell_heard(rt, &port);
    tell_verified(rt, order, form, &verified, &port)
}
