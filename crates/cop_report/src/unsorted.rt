//! What a page says of nodes whose controllers do not send their waiting frames by identifier.

use crate::devices::sent_by;
use crate::rates::push_verdict;
use crate::units::{Count, Identifier};
use cop_figures::{Figures, PdoTimes, Unsorted};
use cop_net::Network;
use cop_rta::Verdict;
use std::alloc::AllocError;

/// Whether a PDO fails if its node's controller does not sort.
fn is_failing(one: &Unsorted) -> bool {
    !matches!(one.verdict, Verdict::Pass { .. })
}

/// Adds how many PDOs of all fail so.
fn push_summary(page: &mut String, failing: usize, all: usize) -> Result<(), AllocError> {
    page.push_str(
        "<details id=\"unsorted\"><summary>If a controller does not send its waiting frames by identifier, ",
    )?;
    if failing == 0 {
        page.push_str("its PDOs pass this test, too")?;
    } else {
        let pdos = Count {
            number: all,
            thing: "PDO",
        };
        write!(page, "{failing} of {pdos} may miss their deadlines")?;
    }
    page.push_str("</summary>\n")
}

/// Adds the line of a PDO that fails so.
fn push_failing(
    page: &mut String,
    network: &Network<'_>,
    times: &PdoTimes,
    one: &Unsorted,
) -> Result<(), AllocError> {
    let Some(row) = network.rows().get(times.pdo) else {
        return Ok(());
    };
    let (id, pdo) = (Identifier(times.stream.id), sent_by(network, row));
    write!(page, "<li><a href=\"#pdo-{id}\">{pdo}</a> ")?;
    push_verdict(page, one.verdict, times.stream.deadline)?;
    page.push_str("</li>\n")
}

/// Adds which PDOs fail if their node's controller does not sort. Both stand in the order of identifiers.
pub(crate) fn push_unsorted(
    page: &mut String,
    network: &Network<'_>,
    figures: &Figures,
    unsorted: &[Unsorted],
) -> Result<(), AllocError> {
    let failing = unsorted.iter().filter(|one| is_failing(one)).count();
    push_summary(page, failing, unsorted.len())?;
    page.push_str(
        "<p>Many controllers have one buffer, or a queue in the order of arrival. Here one node at a time has such a controller, and all others sort: \
each PDO of that node is tested behind every frame up to the greatest identifier that the node sends. This is an estimate, and no bound is proved of it: \
the frames of such a node come late and close together, and the others meet them so.</p>\n<ul>\n",
    )?;
    for (times, one) in figures.pdos.iter().zip(unsorted) {
        if is_failing(one) {
            push_failing(page, network, times, one)?;
        }
    }
    page.push_str("</ul></details>\n")
}
