//! What the simulator has at hand between two steps.

use crate::offers::Offers;
use crate::syncs::Syncs;
use cop_bus::Queues;

/// Of each stream, by place, the next offer, the instances that wait, and how many were queued; the transfer that runs by
/// the moment of its end, the place of a joiner that was sent and is not queued yet, the moment, and the SYNCs.
#[derive(Drop)]
pub(crate) struct Stage {
    pub offers: Offers,
    pub waiting: Queues,
    pub queued: Vec<u64>,
    pub running: Option<(u64, u16)>,
    pub joined: Option<usize>,
    pub now: u64,
    pub syncs: Syncs,
}
