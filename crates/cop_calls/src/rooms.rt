//! How far each number of a network's plan goes.

use cop_answers::{Inputs, UNLISTED, anew_of, anew_text, misses_of, misses_text, room_text};
use cop_cert::Refusal;
use cop_documents::{anew_document, no_room_document, room_document};
use cop_engine::{Fault, PlannedNetwork, none_passes, plan_status};
use cop_files::{Failure, Form, print, print_document, read_network};
use cop_net::Network;
use cop_orders::RoomOrder;
use cop_plan::{Outcome, Plan};
use cop_room::room_of;

/// What is said of a word that names no PDO.
const NO_NAME: &str = "--anew wants a PDO as NODE.TPDO, as 42.1\n";

/// A PDO by its node and its TPDO.
#[derive(Clone, Copy)]
struct PdoName {
    node: u8,
    tpdo: u16,
}

/// The PDO that a word names, as `42.1`.
fn named(word: &str) -> Option<PdoName> {
    let (node, tpdo) = word.split_once('.')?;
    Some(PdoName {
        node: node.parse().ok()?,
        tpdo: tpdo.parse().ok()?,
    })
}

/// The PDO whose numbers are asked for alone, if one is.
fn wanted_of(rt: &HostRuntime, order: RoomOrder<'_>) -> Result<Option<PdoName>, Failure> {
    let Some(word) = order.anew else {
        return Ok(None);
    };
    match named(word) {
        Some(name) => Ok(Some(name)),
        None => Err(Failure {
            fault: Fault::Usage,
            reason: String::from_str(rt.alloc(), NO_NAME).ok(),
        }),
    }
}

/// The place of a PDO among the rows of a network.
fn place_of(network: &Network<'_>, name: PdoName) -> Result<usize, Failure> {
    for (place, row) in network.rows().iter().enumerate() {
        if row.node == name.node && row.tpdo == name.tpdo {
            return Ok(place);
        }
    }
    Err(Failure::from(Fault::Refused {
        number: UNLISTED,
        place: u64::from(name.node),
    }))
}

/// Prints how far the numbers of a PDO go with identifiers chosen anew at the rate of a plan, in a form.
fn give_anew(
    rt: &HostRuntime,
    form: Form,
    network: &Network<'_>,
    plan: &Plan,
    pdo: usize,
) -> Result<(), Failure> {
    let (alloc, rate) = (rt.alloc(), plan.rate());
    let Some(room) = anew_of(alloc, network, rate, pdo)? else {
        return Ok(());
    };
    if form == Form::Document {
        print_document(rt, &anew_document(alloc, network, rate, pdo, &room)?)
    } else {
        print(rt, anew_text(alloc, network, rate, pdo, &room)?.as_bytes())
    }
}

/// Prints how far the numbers of a plan go, in a form.
fn give_room(
    rt: &HostRuntime,
    form: Form,
    network: &Network<'_>,
    plan: &Plan,
) -> Result<(), Failure> {
    let alloc = rt.alloc();
    let room = room_of(alloc, plan)?;
    if form == Form::Document {
        print_document(rt, &room_document(alloc, network, plan, &room)?)
    } else {
        print(rt, room_text(alloc, network, plan, &room)?.as_bytes())
    }
}

/// Prints that no rate passes and what each misses a plan by, in a form.
fn give_misses(
    rt: &HostRuntime,
    form: Form,
    network: &Network<'_>,
    refusals: &[Refusal],
) -> Result<(), Failure> {
    let alloc = rt.alloc();
    let misses = misses_of(alloc, network, refusals)?;
    if form == Form::Document {
        print_document(rt, &no_room_document(alloc, network, &misses)?)
    } else {
        print(rt, &none_passes(alloc)?)?;
        print(rt, misses_text(alloc, network, &misses)?.as_bytes())
    }
}

/// Prints how far the numbers of a planned network go, or those of one PDO, and gives the status.
fn give(
    rt: &HostRuntime,
    form: Form,
    planned: &PlannedNetwork<'_>,
    wanted: Option<PdoName>,
) -> Result<u8, Failure> {
    let (network, outcome) = planned.parts();
    let pdo = match wanted {
        Some(name) => Some(place_of(network, name)?),
        None => None,
    };
    match (outcome, pdo) {
        (Outcome::Planned(plan), None) => give_room(rt, form, network, plan)?,
        (Outcome::Planned(plan), Some(pdo)) => give_anew(rt, form, network, plan, pdo)?,
        (Outcome::Refused(refusals), _) => give_misses(rt, form, network, refusals.as_slice())?,
    }
    Ok(plan_status(planned.is_planned()))
}

/// How far each number of a network's plan goes, all else as it is, or the numbers of one PDO with identifiers chosen anew: it is printed in a
/// form.
#[inline(never)]
pub fn room(
    rt: &HostRuntime,
    order: RoomOrder<'_>,
    form: Form,
    inputs: &mut Inputs,
) -> Result<u8, Failure> {
    let wanted = wanted_of(rt, order)?;
    let tables = read_network(rt, &mut inputs.network, order.network)?;
    let planned = inputs.network.planned(rt.alloc(), &tables)?;
    give(rt, form, &planned, wanted)
}
