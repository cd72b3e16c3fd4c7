//! The picture of a network.

use crate::reports::networks::{Tables, assert_says, report_of};
use std::alloc::Global;
use std::test::Fail;

/// The PDO of node 5, which node 6 takes: 135 bits of 4 us at 250 kbit/s, with no other frame.
const PDOS: &str = "node,tpdo,period,jitter,deadline,consumers\n5,1,10000,0,10000,6.1\n";

/// A table of so many devices, from node 5 on.
fn nodes_of(alloc: Global, devices: u8) -> Result<String, Fail> {
    let mut nodes = String::from_str(alloc, "row,node,name,eds,period,jitter\n")?;
    for node in 5..devices.saturating_add(5) {
        write!(nodes, "device,{node},Unit {node},unit.eds,0,0\n")?;
    }
    Ok(nodes)
}

/// How many devices there are, and what the page says.
const SAID: &[(u8, &[&str])] = &[
    (
        2,
        &[
            "<g><title>181h, TPDO 1 of Unit 5 (node 5)</title><path class=\"ample\" d=\"M170 42C214 42 214 42 258 42\"/>\
<path class=\"ample\" d=\"M872 42C929 42 929 42 986 42\"/>",
            "<tspan class=\"id\">181h</tspan> T1 · 8 B · 10 ms",
            "0.54 of 10 ms, 94.6 % left",
            "text-anchor=\"end\">5 Unit 5</text>",
            "text-anchor=\"start\">6 Unit 6</text>",
        ],
    ),
    (
        40,
        &[
            "<rect class=\"ample\" x=\"181\" y=\"61\" width=\"22\" height=\"14\">\
<title>Unit 5 (node 5) to Unit 6 (node 6): 1 PDO, 94.6 % left at the tightest</title></rect>",
        ],
    ),
];

#[test]
fn the_picture_has_links_or_a_matrix(rt: HostRuntime) -> Result<(), Fail> {
    for case in SAID {
        let (devices, said) = *case;
        let nodes = nodes_of(rt.alloc(), devices)?;
        let tables = Tables {
            transmission: "255",
            nodes: &nodes,
            pdos: PDOS,
        };
        let (_figures, page) = report_of(rt.alloc(), tables, None)?;
        assert_says(&rt, &page, said);
        assert!(rt; page.contains("class=\"net matrix\"") == (devices == 40));
    }
    Ok(())
}
