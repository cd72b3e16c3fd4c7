//! Tests of what a report tells of disturbed transfers.

use crate::reports::networks::{Tables, assert_says, report_of};
use std::test::Fail;

/// The valve's PDO, NMT, and an error each second. At 250 kbit/s the error takes 664 us, NMT 300 us and the PDO 540 us.
const RARE: Tables<'static> = Tables {
    transmission: "255",
    nodes: "row,node,name,eds,period,jitter\ndevice,5,Valve,unit.eds,0,0\nnmt,0,,,100000,0\nerrors,0,,,1000000,0\n",
    pdos: "node,tpdo,period,jitter,deadline,consumers\n5,1,10000,0,10000,\n",
};

/// The same with three errors at once.
const THREE: Tables<'static> = Tables {
    nodes: "row,node,name,eds,period,jitter\ndevice,5,Valve,unit.eds,0,0\nnmt,0,,,100000,0\nerrors,0,,,10500,21000\n",
    ..RARE
};

/// The same where none is counted.
const NEVER: Tables<'static> = Tables {
    nodes: "row,node,name,eds,period,jitter\ndevice,5,Valve,unit.eds,0,0\nnmt,0,,,100000,0\nerrors,0,,,0,0\n",
    ..RARE
};

/// What the pages say, and what they do not.
const SAID: &[(Tables<'static>, &[&str], &str)] = &[
    (
        RARE,
        &[
            "Response of <b>1.504</b>",
            "<li>one from below <b>0.000</b></li><li>disturbed transfers ×1 <b>0.664</b></li><li>000h ×1 <b>0.300</b></li><li>its transfer <b>0.540</b></li>",
            "<th scope=\"row\">000h</th><td>NMT</td><td class=\"n\">2</td>",
            "<p>Disturbed transfers, up to 166 bits each, count as one more stream above all: at most one each 1000 ms.</p>",
            "<li>disturbed transfers are as rare as the table of nodes says: at most one each 1000 ms. No node is error passive or bus off,",
            "fixed frames and disturbed transfers</p>",
        ],
        ">001h",
    ),
    (
        THREE,
        &[
            "Response of <b>2.832</b>",
            "<li>disturbed transfers ×3 <b>1.992</b></li>",
            "above all: of any n + 1 in a row the last begins at least n times 10.5 ms, less 21 ms, after the first.</p>",
        ],
        ">001h",
    ),
    (
        NEVER,
        &[
            "Response of <b>0.840</b>",
            "<th scope=\"row\">000h</th><td>NMT</td><td class=\"n\">2</td>",
            "<li>no frame is disturbed: no row errors of the table of nodes counts errors;</li>",
        ],
        "isturbed transfers",
    ),
];

#[test]
fn the_page_tells_of_disturbed_transfers(rt: HostRuntime) -> Result<(), Fail> {
    for case in SAID {
        let (tables, said, unsaid) = *case;
        let (_figures, page) = report_of(rt.alloc(), tables, None)?;
        assert_says(&rt, &page, said);
        assert!(rt; !page.contains(unsaid), "{unsaid}");
    }
    Ok(())
}
