//! Whether a network passes as it stands.

use cop_answers::{
    Inputs, NO_IDENTIFIER, standing_reason, standing_text, standing_words, uncounted_pdos,
};
use cop_documents::standing_document;
use cop_engine::{Fault, plan_status};
use cop_files::{Failure, Form, print, print_document, read_network, tell};
use cop_net::Network;
use cop_orders::NetworkFiles;
use cop_standing::{Standing, StandingFault, slowest, tested_as_is};
use std::alloc::Global;

/// The failure of a network that cannot be tested as it stands: by the record of its first PDO that cannot keep its identifier.
fn failure_of(alloc: Global, network: &Network<'_>, fault: StandingFault) -> Failure {
    let row = match fault {
        StandingFault::Outside { row, .. } | StandingFault::Taken { row, .. } => row,
        StandingFault::Memory => return Failure::from(Fault::Memory),
    };
    Failure {
        fault: Fault::Refused {
            number: NO_IDENTIFIER,
            place: (row as u64).saturating_add(1),
        },
        reason: standing_reason(alloc, network, fault).ok(),
    }
}

/// Tells in a form what the test says of a network as it stands.
fn give(
    rt: &HostRuntime,
    form: Form,
    network: &Network<'_>,
    standing: &Standing,
) -> Result<(), Failure> {
    let alloc = rt.alloc();
    let uncounted = uncounted_pdos(alloc, network)?;
    if form == Form::Document {
        let document = standing_document(alloc, network, standing, &uncounted)?;
        return print_document(rt, &document);
    }
    let text = standing_text(alloc, network, standing, &uncounted)?;
    print(rt, text.as_bytes())?;
    if form == Form::Told {
        if let Ok(words) = standing_words(alloc, network, standing, &uncounted) {
            tell(rt, Ok(words.into_bytes()));
        }
    }
    Ok(())
}

/// Whether a network passes as it stands, and at which of its rates: it is told in a form, and nothing is written.
#[inline(never)]
pub fn test_as_is(
    rt: &HostRuntime,
    files: NetworkFiles<'_>,
    form: Form,
    inputs: &mut Inputs,
) -> Result<u8, Failure> {
    let tables = read_network(rt, &mut inputs.network, files)?;
    let network = inputs.network.network(rt.alloc(), &tables)?;
    let standing = match tested_as_is(rt.alloc(), &network) {
        Ok(standing) => standing,
        Err(fault) => return Err(failure_of(rt.alloc(), &network, fault)),
    };
    give(rt, form, &network, &standing)?;
    Ok(plan_status(slowest(&standing.answers).is_some()))
}
