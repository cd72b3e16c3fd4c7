use crate::words::{NODES, PDOS, UNIT, files, text_of};
use cop_cert::Items;
use cop_figures::{FailingFrame, Reason, RefusedRate};
use cop_frame::Rate;
use cop_net::{all_rates, network, read_nodes, read_pdos};
use cop_rta::Verdict;
use cop_words::refused_words;
use std::alloc::Global;
use std::test::Fail;

/// The words on 250 kbit/s that a network of one device refuses for a reason.
fn words_on(alloc: Global, reason: Reason) -> Result<String, Fail> {
    let mut refused = Vec::new(alloc);
    refused.push(RefusedRate {
        rate: Rate::Kbit250,
        reason,
    })?;
    let files = files(alloc, &[("unit.eds", UNIT)])?;
    let nodes = read_nodes(alloc, NODES.as_bytes())?;
    let pdos = read_pdos(alloc, PDOS.as_bytes())?;
    let network = network(alloc, &all_rates(), &nodes, &pdos, &files)?;
    let said = refused_words(alloc, &network, &refused)?;
    text_of(alloc, &said)
}

/// An SDO frame with a deadline of 1000 us that fails below so many PDOs.
fn failing_frame(alloc: Global, verdict: Verdict, above: usize) -> Reason {
    Reason::Sdo {
        frame: FailingFrame {
            id: 0x585,
            deadline: Some(4000),
            verdict,
        },
        above,
        up: Items::new(alloc),
    }
}

const LATE: Verdict = Verdict::Late {
    q: 0,
    response: 4321,
};

/// What is said of an SDO frame, how many PDOs are above it, and the words.
const FRAMES: &[(Verdict, usize, &str)] = &[
    (
        LATE,
        0,
        "at 250 kbit/s the SDO frame 585h needs 1080.25 us, its deadline is 1000 us, with all PDOs below it\n",
    ),
    (
        LATE,
        1,
        "at 250 kbit/s the SDO frame 585h needs 1080.25 us, its deadline is 1000 us, below 1 PDO that cannot go below it\n",
    ),
    (
        Verdict::Long,
        2,
        "at 250 kbit/s the SDO frame 585h has no busy time that ends within 10 s, its deadline is 1000 us, below 2 PDOs that cannot go below it\n",
    ),
];

#[test]
fn an_sdo_frame_is_told_with_the_pdos_above_it(rt: HostRuntime) -> Result<(), Fail> {
    for case in FRAMES {
        let (verdict, above, wanted) = *case;
        let reason = failing_frame(rt.alloc(), verdict, above);
        let said = words_on(rt.alloc(), reason)?;
        assert!(rt; said.as_str() == wanted, "{said}");
    }
    Ok(())
}

#[test]
fn a_busy_time_of_sync_without_end_is_told(rt: HostRuntime) -> Result<(), Fail> {
    let said = words_on(rt.alloc(), Reason::Sync)?;
    let wanted = "at 250 kbit/s the busy time of SYNC does not end within 10 s\n";
    assert!(rt; said.as_str() == wanted, "{said}");
    Ok(())
}
