//! The boot of devices as their EDS files describe them.

use cop_answers::Inputs;
use cop_documents::boot_document;
use cop_engine::{boot_of, boot_text, plan_status};
use cop_files::{Failure, Form, print, print_document, read_network};
use cop_orders::NetworkFiles;

/// The boot of a network by its plan, by the turns that a seed draws.
#[inline(never)]
pub fn boot(
    rt: &HostRuntime,
    seed: u64,
    network: NetworkFiles<'_>,
    form: Form,
    inputs: &mut Inputs,
) -> Result<u8, Failure> {
    let tables = read_network(rt, &mut inputs.network, network)?;
    let planned = inputs.network.planned(rt.alloc(), &tables)?;
    let answer = boot_of(rt.alloc(), seed, &planned)?;
    if form == Form::Document {
        print_document(rt, &boot_document(rt.alloc(), answer.as_ref(), None)?)?;
    } else {
        print(rt, &boot_text(rt.alloc(), answer.as_ref())?)?;
    }
    Ok(plan_status(planned.is_planned()))
}
