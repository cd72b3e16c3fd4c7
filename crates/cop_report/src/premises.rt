//! The section of a page on what the guarantee rests on: the machine.

use crate::errors::Rarity;
use cop_net::Network;
use std::alloc::AllocError;

/// What has to be true on the machine.
const FIRST: &str = "<section id=\"premises\">
<h2>What has to be true on the machine</h2>
<p>It is proved that each PDO, and each SDO frame with a deadline, ends each of its transfers within its deadline where</p>
<ul>
<li>each used TPDO and RPDO has its identifier as planned, and every other PDO of these devices is switched off (bit 31 of its
COB-ID is set); heartbeats have their times. This is what the DCF files say and what the boot manager sends;</li>
<li>all nodes run at the plan's rate, and nothing else sends on the bus;</li>
<li>events are as far apart as the periods say and frames are queued within their jitters, the fixed frames' included, those of
synchronous PDOs within their jitters after the transfer of their SYNC, and each frame has as many bytes as its mapping, a fixed one as
many as its kind;</li>
";

/// The rest of it.
const LAST: &str =
    "<li>controllers send their waiting frames in the order of identifiers, and a waiting frame starts as soon as the bus is
idle.</li>
</ul>
</section>
";

/// Adds how rare disturbed transfers have to be.
fn push_rarity(page: &mut String, network: &Network<'_>) -> Result<(), AllocError> {
    let Some(errors) = network.set().errors() else {
        return page.push_str(
            "<li>no frame is disturbed: no row errors of the table of nodes counts errors;</li>\n",
        );
    };
    let rarity = Rarity(errors);
    write!(
        page,
        "<li>disturbed transfers are as rare as the table of nodes says: {rarity}. No node is error passive or bus off, and a controller sends \
a disturbed frame again by itself, as soon as the bus is free;</li>\n"
    )
}

/// Adds what has to be true on the machine.
pub(crate) fn push_premises(page: &mut String, network: &Network<'_>) -> Result<(), AllocError> {
    page.push_str(FIRST)?;
    push_rarity(page, network)?;
    page.push_str(LAST)
}
