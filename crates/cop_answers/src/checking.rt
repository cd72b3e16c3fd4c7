//! The check of a refusal file against a network.

use cop_cert::Refusal;
use cop_covering::covers_slower;
use cop_engine::{all_hold, check_status, strict_check_status};
use cop_net::Network;
use std::alloc::{AllocError, Global};

/// The status after a check of refusals against a network. Where that is asked a slower candidate that none refuses is a failure.
pub fn status_after_check(
    alloc: Global,
    network: &Network<'_>,
    refusals: &[Refusal],
    answers: &[bool],
    strict: bool,
) -> Result<u8, AllocError> {
    let holds = all_hold(answers);
    if strict {
        Ok(strict_check_status(holds, covers_slower(alloc, network, refusals)?))
    } else {
        Ok(check_status(holds))
    }
}
