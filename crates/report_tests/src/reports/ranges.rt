//! Tests of what a report tells of synchronous PDOs and of SDO frames with deadlines.

use crate::reports::networks::{Tables, assert_says, report_of};
use cop_figures::FrameTimes;
use cop_rta::Verdict;
use std::test::Fail;

/// A PDO of 64 bits that is sent at each SYNC within 100 us. At 250 kbit/s SYNC waits for the PDO, 2,160 ticks, and takes 880.
const SYNCHRONOUS: Tables<'static> = Tables {
    transmission: "1",
    nodes: "row,node,name,eds,period,jitter\ndevice,5,Valve,unit.eds,0,0\nsync,0,,,10000,0\n",
    pdos: "node,tpdo,period,jitter,deadline,consumers\n5,1,0,100,1620,\n",
};

/// The same with SYNC each 100 us.
const TOO_OFTEN: Tables<'static> = Tables {
    nodes: "row,node,name,eds,period,jitter\ndevice,5,Valve,unit.eds,0,0\nsync,0,,,100,0\n",
    ..SYNCHRONOUS
};

/// Two PDOs that can wait, and an SDO response that passes behind one of them.
const BELOW: Tables<'static> = Tables {
    transmission: "255",
    nodes: "row,node,name,eds,period,jitter,deadline\ndevice,5,Valve,unit.eds,0,0,\ndevice,6,Pump,unit.eds,0,0,\nsdo_response,5,,,100000,0,1080\n",
    pdos: "node,tpdo,period,jitter,deadline,consumers\n5,1,10000,0,10000,\n6,1,10000,0,10000,\n",
};

/// The same where it passes nowhere.
const TOO_LATE: Tables<'static> = Tables {
    nodes: "row,node,name,eds,period,jitter,deadline\ndevice,5,Valve,unit.eds,0,0,\ndevice,6,Pump,unit.eds,0,0,\nsdo_response,5,,,100000,0,1079\n",
    ..BELOW
};

/// The same where it passes at no rate: at 500 kbit/s one frame from below and it itself take 540 us.
const HOPELESS: Tables<'static> = Tables {
    nodes: "row,node,name,eds,period,jitter,deadline\ndevice,5,Valve,unit.eds,0,0,\ndevice,6,Pump,unit.eds,0,0,\nsdo_response,5,,,100000,0,200\n",
    ..BELOW
};

/// The same where the first PDO cannot wait, and with another SDO response. Each frame takes 2,160 ticks at 250 kbit/s: of the first
/// SDO response the PDO, one frame from below and it itself go before its end, and with all PDOs above it four frames.
const ONE_ABOVE: Tables<'static> = Tables {
    nodes: "row,node,name,eds,period,jitter,deadline\ndevice,5,Valve,unit.eds,0,0,\ndevice,6,Pump,unit.eds,0,0,\nsdo_response,5,,,100000,0,1620\nsdo_response,6,,,100000,0,10000\n",
    pdos: "node,tpdo,period,jitter,deadline,consumers\n5,1,10000,0,1080,\n6,1,10000,0,10000,\n",
    ..BELOW
};

/// Three frames of 135 bits take nearly all of the bus at 250 kbit/s: the last one's greatest response is that of its second instance
/// (after the example of Davis et al. 2007).
const NEARLY_FULL: Tables<'static> = Tables {
    transmission: "255",
    nodes: "row,node,name,eds,period,jitter\ndevice,5,Valve,unit.eds,0,0\ndevice,6,Pump,unit.eds,0,0\ndevice,7,Lamp,unit.eds,0,0\n",
    pdos: "node,tpdo,period,jitter,deadline,consumers\n5,1,1350,0,1350,\n6,1,1890,0,1890,\n7,1,1890,0,1890,\n",
};

/// The same three, which take more than all of the bus at 250 kbit/s.
const OVERLOADED: Tables<'static> = Tables {
    pdos: "node,tpdo,period,jitter,deadline,consumers\n5,1,1000,0,1000,\n6,1,1000,0,1000,\n7,1,1000,0,1000,\n",
    ..NEARLY_FULL
};

/// The valve's PDO passes: in the worst case it waits for one frame from below and its EMCY, and all three take 270 us at 500 kbit/s. If its
/// controller sends in any order, it waits for the EMCY, the pump's PDO and its heartbeat of 130 us. Of the pump's PDO nothing changes.
const UNSORTED: Tables<'static> = Tables {
    transmission: "255",
    nodes: "row,node,name,eds,period,jitter\ndevice,5,Valve,unit.eds,0,0\ndevice,6,Pump,unit.eds,0,0\nemcy,5,,,100000,0\nheartbeat,5,,,100000,0\n",
    pdos: "node,tpdo,period,jitter,deadline,consumers\n5,1,10000,0,900,\n6,1,10000,0,10000,\n",
};

/// What the pages say.
const SAID: &[(Tables<'static>, &[&str])] = &[
    (
        UNSORTED,
        &[
            "<summary>If a controller does not send its waiting frames by identifier, 1 of 2 PDOs may miss their deadlines</summary>",
            "<li><a href=\"#pdo-181h\">TPDO 1 of Valve (node 5)</a> needs 0.940 ms, its deadline is 0.900 ms</li>",
        ],
    ),
    (
        SYNCHRONOUS,
        &[
            "10.000 <small>each SYNC</small>",
            "Response of <b>1.620</b>",
            "1.620 <small>SYNC 0.760</small>",
            "is sent each 10.000 ms; its transfer ends 0.760 ms after its event at the latest",
        ],
    ),
    (
        TOO_OFTEN,
        &["At 250 kbit/s SYNC itself has no busy time that ends within 10 s"],
    ),
    (
        NEARLY_FULL,
        &[
            "Response of <b>1.890</b>:</p><ul class=\"parts\"><li>jitter <b>0.000</b></li><li>one from below <b>0.000</b></li>",
            "×3 <b>1.620</b></li>",
            "<li>itself ×1 <b>0.540</b></li><li>periods ×1 <b>−1.890</b></li><li>its transfer <b>0.540</b></li>",
        ],
    ),
    (
        OVERLOADED,
        &[
            "<h3>250 kbit/s fails <small>at a load of 162.0 %</small></h3>",
            "<p>At 250 kbit/s none of 3 PDOs, with the others above it, has a busy time that ends within 10 s, which counts as failed.</p>",
            "and all other PDOs below it, has no busy time that ends within 10 s:</p>\n<ul>\n<li>TPDO 1 of Valve (node 5) </li>",
        ],
    ),
    (
        BELOW,
        &[
            "<p>2 PDOs can wait and stand below all SDO frames, from 680h on. With all PDOs above it 585h, SDO response of Valve \
(node 5), needs 1.620 ms, its deadline is 1.080 ms.</p>",
            "680h <small>below SDO</small>",
            "<th scope=\"row\">585h</th><td>SDO response of Valve (node 5)</td><td class=\"n\">8</td><td class=\"n\">100.000</td>\
<td class=\"n\">0.000</td><td class=\"n\">1.080</td><td class=\"n\">1.080</td>",
            "<td class=\"n nothing\">0.000</td><td class=\"n nothing\">0.0 %</td></tr>",
        ],
    ),
    (
        ONE_ABOVE,
        &[
            "<p>1 PDO can wait and stand below all SDO frames, from 680h on.",
            "The PDOs above the SDO frames are those of which none could have the lowest priority among them below.</p>",
        ],
    ),
    (
        TOO_LATE,
        &[
            "At 250 kbit/s the frame 585h, SDO response of Valve (node 5), misses its deadline",
            "it needs 1.080 ms, its deadline is 1.079 ms.</p>\n<p>That is so even with all PDOs below it.",
        ],
    ),
    (
        HOPELESS,
        &[
            "<b class=\"missed\">0.340 ms late</b>the nearest miss at 500 kbit/s: SDO response of Valve (node 5)</div>",
            "<h2>The nearest miss</h2>\n<p>At 500 kbit/s the frame 585h, SDO response of Valve (node 5), misses its deadline",
        ],
    ),
];

#[test]
fn the_page_tells_of_sync_and_of_sdo_frames(rt: HostRuntime) -> Result<(), Fail> {
    for case in SAID {
        let (tables, said) = *case;
        let (_figures, page) = report_of(rt.alloc(), tables, None)?;
        assert_says(&rt, &page, said);
    }
    Ok(())
}

#[test]
fn what_is_sync_of_a_response(rt: HostRuntime) -> Result<(), Fail> {
    let (figures, _page) = report_of(rt.alloc(), SYNCHRONOUS, None)?;
    let sync = figures.sync.ok_or("no SYNC")?;
    assert!(rt; sync.stream.id == 0x80 && sync.response == 3040);
    Ok(())
}

/// The SDO frames of a network with both kinds of PDOs: identifier, response, and what the test says below all PDOs.
const FRAMES: &[(u16, u64, Verdict)] = &[
    (
        0x585,
        6480,
        Verdict::Late {
            q: 0,
            response: 8640,
        },
    ),
    (0x586, 8640, Verdict::Pass { response: 8640 }),
];

/// Whether the times of a frame are those that are wanted.
fn is_frame(frame: &FrameTimes, wanted: Option<&(u16, u64, Verdict)>) -> bool {
    match wanted {
        Some((id, response, below_all)) => {
            frame.stream.id == *id && frame.response == *response && frame.below_all == *below_all
        }
        None => false,
    }
}

#[test]
fn what_the_sdo_frames_need(rt: HostRuntime) -> Result<(), Fail> {
    let (figures, _page) = report_of(rt.alloc(), ONE_ABOVE, None)?;
    assert!(rt; figures.sync.is_none());
    assert!(rt; figures.frames.len() == FRAMES.len());
    let mut wanted = FRAMES.iter();
    for frame in figures.frames.iter() {
        assert!(rt; is_frame(frame, wanted.next()));
    }
    Ok(())
}
