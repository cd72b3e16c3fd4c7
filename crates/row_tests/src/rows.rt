use cop_rows::{
    Consumer, DeviceRow, FrameKind, FrameRow, NodeTable, PdoRow, PdoTable, RowFault, Rule,
    read_nodes, read_pdos,
};
use std::alloc::{AllocError, Global};
use std::fmt::Write;
use std::test::Fail;

/// The number of a refusal and its record.
type Refused = (u8, u64);

/// The refusal that is told, where it is not for want of memory.
fn told(fault: RowFault) -> Result<Option<Refused>, RowFault> {
    match fault {
        RowFault::Refused(refusal) => Ok(Some((refusal.rule.number(), refusal.place))),
        RowFault::Memory => Err(RowFault::Memory),
    }
}

/// How a text is refused as a table of PDOs.
fn refused_pdos(alloc: Global, text: &[u8]) -> Result<Option<Refused>, RowFault> {
    match read_pdos(alloc, text) {
        Ok(_) => Ok(None),
        Err(fault) => told(fault),
    }
}

/// How a text is refused as a table of nodes.
fn refused_nodes(alloc: Global, text: &[u8]) -> Result<Option<Refused>, RowFault> {
    match read_nodes(alloc, text) {
        Ok(_) => Ok(None),
        Err(fault) => told(fault),
    }
}

const PDOS: &str = "node,tpdo,period,jitter,deadline,consumers\n";

const NODES: &str = "row,node,name,eds,period,jitter\n";

/// A table under its header.
fn table(alloc: Global, header: &str, rows: &str) -> Result<String, AllocError> {
    let mut text = String::from_str(alloc, header)?;
    text.push_str(rows)?;
    Ok(text)
}

/// How rows are refused as a table of PDOs.
fn refused_as_pdos(alloc: Global, rows: &str) -> Result<Option<Refused>, RowFault> {
    let text = table(alloc, PDOS, rows)?;
    refused_pdos(alloc, text.as_bytes())
}

/// How rows under a header are refused as a table of nodes.
fn refused_as_nodes(alloc: Global, header: &str, rows: &str) -> Result<Option<Refused>, RowFault> {
    let text = table(alloc, header, rows)?;
    refused_nodes(alloc, text.as_bytes())
}

/// The table of PDOs with these rows.
fn pdos_of(alloc: Global, rows: &str) -> Result<PdoTable, RowFault> {
    let text = table(alloc, PDOS, rows)?;
    read_pdos(alloc, text.as_bytes())
}

/// The table of nodes with these rows under a header.
fn nodes_under(alloc: Global, header: &str, rows: &str) -> Result<NodeTable, RowFault> {
    let text = table(alloc, header, rows)?;
    read_nodes(alloc, text.as_bytes())
}

/// The table of nodes with these rows.
fn nodes_of(alloc: Global, rows: &str) -> Result<NodeTable, RowFault> {
    nodes_under(alloc, NODES, rows)
}

/// A row of PDOs: node, TPDO, period, jitter, deadline and consumers.
type Row = (u8, u16, u32, u32, u32, &'static [Consumer]);

fn is_row(found: &PdoRow, wanted: &Row) -> bool {
    let (node, tpdo, period, jitter, deadline, consumers) = *wanted;
    (found.node, found.tpdo) == (node, tpdo)
        && (found.period, found.jitter, found.deadline) == (period, jitter, deadline)
        && found.consumers.as_slice() == consumers
}

#[test]
fn pdos_are_read(rt: HostRuntime) -> Result<(), Fail> {
    let table = pdos_of(rt.alloc(), "5,1,10000,0,670,\n")?;
    match table.rows() {
        [row] => assert!(rt; is_row(row, &(5, 1, 10_000, 0, 670, &[]))),
        _ => assert!(rt; false),
    }
    Ok(())
}

#[test]
fn a_pdo_without_a_period(rt: HostRuntime) -> Result<(), Fail> {
    let table = pdos_of(rt.alloc(), "5,1,0,100,1620,\n")?;
    match table.rows() {
        [row] => assert!(rt; is_row(row, &(5, 1, 0, 100, 1_620, &[]))),
        _ => assert!(rt; false),
    }
    Ok(())
}

const AT_THE_ENDS: &[u8] =
    b"\xEF\xBB\xBFnode,tpdo,\"period\",jitter,deadline,consumers\r\n127,512,60000000,60000000,60000000,1.1 127.512 1.1\r\n001,1,100,0,1,\"2.3\"";

/// The consumers of the first row at the ends of the ranges.
const CONSUMERS: &[Consumer] = &[
    Consumer { node: 1, rpdo: 1 },
    Consumer {
        node: 127,
        rpdo: 512,
    },
    Consumer { node: 1, rpdo: 1 },
];

const GREATEST: Row = (127, 512, 60_000_000, 60_000_000, 60_000_000, CONSUMERS);

const LEAST: Row = (1, 1, 100, 0, 1, &[Consumer { node: 2, rpdo: 3 }]);

#[test]
fn pdos_at_the_ends_of_their_ranges(rt: HostRuntime) -> Result<(), Fail> {
    let table = read_pdos(rt.alloc(), AT_THE_ENDS)?;
    match table.rows() {
        [first, second] => assert!(rt; is_row(first, &GREATEST) && is_row(second, &LEAST)),
        _ => assert!(rt; false),
    }
    Ok(())
}

/// Rows of PDOs, the number of their refusal and its record.
const BROKEN_PDOS: &[(&str, u8, u64)] = &[
    ("5,1,10000,0,670\n", 40, 1),
    ("5,1,10000,0,670,,\n", 40, 1),
    ("0,1,10000,0,670,\n", 41, 1),
    ("128,1,10000,0,670,\n", 41, 1),
    ("5,0,10000,0,670,\n", 41, 1),
    ("5,513,10000,0,670,\n", 41, 1),
    ("5,1,99,0,670,\n", 41, 1),
    ("5,1,1,0,670,\n", 41, 1),
    ("5,1,,0,670,\n", 41, 1),
    ("5,1,60000001,0,670,\n", 41, 1),
    ("5,1,10000,60000001,670,\n", 41, 1),
    ("5,1,10000,0,,\n", 41, 1),
    ("5,1,10000,0,0,\n", 41, 1),
    ("5,1,10000,0,60000001,\n", 41, 1),
    ("5,0x1,10000,0,670,\n", 41, 1),
    ("5,00000000001,10000,0,670,\n", 41, 1),
    ("5,1,10000,0,670,6\n", 41, 1),
    ("5,1,10000,0,670,6.\n", 41, 1),
    ("5,1,10000,0,670,6.1.1\n", 41, 1),
    ("5,1,10000,0,670,6.0\n", 41, 1),
    ("5,1,10000,0,670,6.513\n", 41, 1),
    ("5,1,10000,0,670,128.1\n", 41, 1),
    ("5,1,10000,0,670,6.1 \n", 41, 1),
    ("5,1,10000,0,670,6.1  6.2\n", 41, 1),
    ("5,1,10000,0,670,6.1\t6.2\n", 41, 1),
    ("5,1,10000,0,670,\n5,1,10000,0,670,\n", 44, 2),
    // Of several, the first record, and in it the least number.
    ("5,x,10000,0\n5,1,1,0,670,\n", 40, 1),
    ("5,1,10000,0,670,\n5,1,1,0,670,\n5\n", 41, 2),
];

#[test]
fn pdos_that_break_a_rule(rt: HostRuntime) -> Result<(), Fail> {
    for case in BROKEN_PDOS {
        let (rows, number, place) = *case;
        let refused = refused_as_pdos(rt.alloc(), rows)?;
        assert!(rt; refused == Some((number, place)), "{rows}");
    }
    Ok(())
}

/// Texts with the header of neither table.
const OTHER_HEADERS: &[&str] = &[
    "",
    "node,tpdo,period,jitter,deadline\n5\n",
    "node,tpdo,period,jitter,deadline,consumer\n5,1,10000,0,670,\n",
    "row,node,name,eds,period,jitter,\n5\n",
    "5,1,10000,0,670,\n",
];

#[test]
fn headers_are_compared_first(rt: HostRuntime) -> Result<(), Fail> {
    for text in OTHER_HEADERS {
        let pdos = refused_pdos(rt.alloc(), text.as_bytes())?;
        let nodes = refused_nodes(rt.alloc(), text.as_bytes())?;
        assert!(rt; pdos == Some((40, 0)) && nodes == Some((40, 0)), "{text}");
    }
    Ok(())
}

/// A table with as many PDOs as may be, and these rows behind them.
fn full_table(alloc: Global, rows: &str) -> Result<String, Fail> {
    let mut text = String::from_str(alloc, PDOS)?;
    for tpdo in 1..513 {
        write!(text, "5,{tpdo},10000,0,670,\n")?;
    }
    text.push_str(rows)?;
    Ok(text)
}

#[test]
fn as_many_as_512_pdos(rt: HostRuntime) -> Result<(), Fail> {
    let text = full_table(rt.alloc(), "")?;
    let table = read_pdos(rt.alloc(), text.as_bytes())?;
    assert!(rt; table.rows().len() == 512);
    Ok(())
}

/// How rows behind 512 PDOs are refused.
fn refused_behind(alloc: Global, rows: &str) -> Result<Option<Refused>, Fail> {
    let text = full_table(alloc, rows)?;
    Ok(refused_pdos(alloc, text.as_bytes())?)
}

/// A row behind 512 others, and the number of its refusal.
const ONE_TOO_MANY: &[(&str, u8)] = &[("6,1,10000,0,670,\n", 49), ("5,512,10000,0,670,\n", 44)];

#[test]
fn more_than_512_pdos(rt: HostRuntime) -> Result<(), Fail> {
    for case in ONE_TOO_MANY {
        let (row, number) = *case;
        let refused = refused_behind(rt.alloc(), row)?;
        assert!(rt; refused == Some((number, 513)), "{row}");
    }
    Ok(())
}

const VALVE: &str = "device,5,Valve,unit.eds,0,0\nemcy,5,,,100000,0\nheartbeat,5,,,100000,0\n";

/// Whether a row has this place, node and name.
fn is_device(found: &DeviceRow, place: u64, node: u8, name: &[u8]) -> bool {
    found.place == place && found.node == node && found.name.as_bytes() == name
}

#[test]
fn devices_of_the_valve(rt: HostRuntime) -> Result<(), Fail> {
    let table = nodes_of(rt.alloc(), VALVE)?;
    match table.devices() {
        [device] => {
            assert!(rt; is_device(device, 1, 5, b"Valve"));
            assert!(rt; device.eds.as_bytes() == b"unit.eds".as_slice());
            assert!(rt; device.name < device.eds);
        }
        _ => assert!(rt; false),
    }
    Ok(())
}

/// A frame that a node sends: the record, its kind, node, period and jitter.
fn frame(place: u64, kind: FrameKind, node: u8, period: u32, jitter: u32) -> FrameRow {
    FrameRow {
        place,
        kind,
        node,
        period,
        jitter,
        deadline: None,
    }
}

#[test]
fn frames_of_the_valve(rt: HostRuntime) -> Result<(), Fail> {
    let table = nodes_of(rt.alloc(), VALVE)?;
    let wanted = [
        frame(2, FrameKind::Emcy, 5, 100_000, 0),
        frame(3, FrameKind::Heartbeat, 5, 100_000, 0),
    ];
    assert!(rt; table.frames() == wanted.as_slice());
    Ok(())
}

const ROWS_IN_ANY_ORDER: &str =
    "heartbeat,127,,,60000000,60000000\nsync,0,,,100,0\nsdo_request,1,,,0,7\nsdo_response,1,,,60000000,0\ndevice,127,A b_c-d.e,0,0,0\nnmt,0,,,0,0\nemcy,1,,,101,1\ndevice,1,0123456789012345678901234567890123456789,b,00,0\n";

#[test]
fn frames_in_any_order(rt: HostRuntime) -> Result<(), Fail> {
    let table = nodes_of(rt.alloc(), ROWS_IN_ANY_ORDER)?;
    let wanted = [
        frame(1, FrameKind::Heartbeat, 127, 60_000_000, 60_000_000),
        frame(2, FrameKind::Sync, 0, 100, 0),
        frame(3, FrameKind::SdoRequest, 1, 0, 7),
        frame(4, FrameKind::SdoResponse, 1, 60_000_000, 0),
        frame(6, FrameKind::Nmt, 0, 0, 0),
        frame(7, FrameKind::Emcy, 1, 101, 1),
    ];
    assert!(rt; table.frames() == wanted.as_slice());
    Ok(())
}

/// Rows of disturbed transfers, their period and their jitter.
const RARE: &[(&str, u32, u32)] = &[
    ("errors,0,,,100,0\n", 100, 0),
    ("errors,0,,,250500,100\n", 250_500, 100),
    ("errors,000,,,60000000,60000000\n", 60_000_000, 60_000_000),
    ("errors,0,,,0,7\n", 0, 7),
];

#[test]
fn how_rare_disturbed_transfers_are(rt: HostRuntime) -> Result<(), Fail> {
    for case in RARE {
        let (row, period, jitter) = *case;
        let rows = format!(in rt.alloc(); "{row}device,5,Valve,unit.eds,0,0\n")?;
        let table = nodes_of(rt.alloc(), &rows)?;
        let wanted = [frame(1, FrameKind::Errors, 0, period, jitter)];
        assert!(rt; table.frames() == wanted.as_slice(), "{row}");
    }
    Ok(())
}

#[test]
fn devices_in_any_order(rt: HostRuntime) -> Result<(), Fail> {
    let table = nodes_of(rt.alloc(), ROWS_IN_ANY_ORDER)?;
    match table.devices() {
        [first, second] => {
            assert!(rt; is_device(first, 5, 127, b"A b_c-d.e"));
            assert!(rt; second.place == 8 && second.node == 1);
        }
        _ => assert!(rt; false),
    }
    Ok(())
}

/// Rows of nodes, the number of their refusal and its record.
const BROKEN_NODES: &[(&str, u8, u64)] = &[
    ("device,5,Valve,unit.eds,0\n", 40, 1),
    ("device,5,Valve,unit.eds,100,0\n", 41, 1),
    ("device,5,Valve,unit.eds,0,1\n", 41, 1),
    ("device,5,Valve,unit.eds,,0\n", 41, 1),
    ("device,5,,unit.eds,0,0\n", 41, 1),
    ("device,5,Valve,,0,0\n", 41, 1),
    ("device,5,V\u{e9},unit.eds,0,0\n", 41, 1),
    ("device,5,Valve,a/unit.eds,0,0\n", 41, 1),
    (
        "device,5,01234567890123456789012345678901234567890,a,0,0\n",
        41,
        1,
    ),
    ("device,0,Valve,unit.eds,0,0\n", 41, 1),
    ("device,128,Valve,unit.eds,0,0\n", 41, 1),
    ("Device,5,Valve,unit.eds,0,0\n", 41, 1),
    (",5,,,0,0\n", 41, 1),
    ("heartbeat,5,Valve,,100000,0\n", 41, 1),
    ("heartbeat,5,,unit.eds,100000,0\n", 41, 1),
    ("heartbeat,5,,,100500,0\n", 41, 1),
    ("emcy,5,,,99,0\n", 41, 1),
    ("emcy,5,,,60000001,0\n", 41, 1),
    ("emcy,5,,,100000,60000001\n", 41, 1),
    ("emcy,0,,,100000,0\n", 41, 1),
    ("nmt,5,,,100000,0\n", 41, 1),
    ("sync,1,,,100000,0\n", 41, 1),
    ("nmt,0,,,100,0\nnmt,0,,,200,0\n", 42, 2),
    ("errors,5,,,100000,0\n", 41, 1),
    ("errors,0,Noise,,100000,0\n", 41, 1),
    ("errors,0,,unit.eds,100000,0\n", 41, 1),
    ("errors,0,,,50,0\n", 41, 1),
    ("errors,0,,,60000001,0\n", 41, 1),
    ("errors,0,,,100000,60000001\n", 41, 1),
    ("errors,0,,,100,0\nerrors,0,,,200,0\n", 42, 2),
    ("errors,0,,,0,0\nsync,0,,,0,0\nerrors,0,,,0,0\n", 42, 3),
    ("device,5,A,a,0,0\nemcy,5,,,0,0\ndevice,5,B,b,0,0\n", 42, 3),
    ("device,5,A,a,0,0\nemcy,5,,,0,0\nemcy,5,,,0,0\n", 42, 3),
    (
        "device,5,A,a,0,0\nnmt,0,,,0,0\nemcy,6,,,0,0\nemcy,7,,,0,0\n",
        42,
        3,
    ),
    ("", 42, 0),
    ("nmt,0,,,0,0\nsync,0,,,0,0\n", 42, 0),
    ("errors,0,,,100000,0\n", 42, 0),
    ("emcy,5,,,0,0\n", 42, 1),
    // Rows that want their device are looked for after all others.
    ("emcy,5,,,0,0\nnmt,0,,,0,0\nnmt,0,,,0,0\n", 42, 3),
    ("emcy,5,,,0,0\nnmt,0,,,1,0\nnmt,0\n", 41, 2),
    ("emcy,5,,,0,0\nemcy,5,,,1,0\nnmt,0\n", 41, 2),
];

#[test]
fn nodes_that_break_a_rule(rt: HostRuntime) -> Result<(), Fail> {
    for case in BROKEN_NODES {
        let (rows, number, place) = *case;
        let refused = refused_as_nodes(rt.alloc(), NODES, rows)?;
        assert!(rt; refused == Some((number, place)), "{rows}");
    }
    Ok(())
}

const WITH_DEADLINES: &str = "row,node,name,eds,period,jitter,deadline\n";

const DEADLINES: &str =
    "device,5,Valve,unit.eds,0,0,\nsdo_request,5,,,100000,0,1\nsdo_response,5,,,100000,0,60000000\nheartbeat,5,,,100000,0,\n";

/// Whether frames are a request and a response with their deadlines, and a heartbeat without one.
fn have_deadlines(frames: &[FrameRow]) -> bool {
    match frames {
        [request, response, heartbeat] => {
            (request.kind == FrameKind::SdoRequest && request.deadline == Some(1))
                && (response.deadline == Some(60_000_000) && response.place == 3)
                && heartbeat.deadline.is_none()
        }
        _ => false,
    }
}

#[test]
fn sdo_frames_with_deadlines(rt: HostRuntime) -> Result<(), Fail> {
    let nodes = nodes_under(rt.alloc(), WITH_DEADLINES, DEADLINES)?;
    assert!(rt; have_deadlines(nodes.frames()));
    Ok(())
}

/// Rows under the header with deadlines, the number of their refusal and its record.
const BROKEN_DEADLINES: &[(&str, u8, u64)] = &[
    ("device,5,Valve,unit.eds,0,0,1\n", 41, 1),
    ("emcy,5,,,100000,0,1080\n", 41, 1),
    ("heartbeat,5,,,100000,0,1080\n", 41, 1),
    ("sync,0,,,100000,0,1080\n", 41, 1),
    ("errors,0,,,100000,0,1080\n", 41, 1),
    ("sdo_request,5,,,0,0,1080\n", 41, 1),
    ("sdo_request,5,,,100000,0,0\n", 41, 1),
    ("sdo_response,5,,,100000,0,60000001\n", 41, 1),
    ("sdo_response,5,,,100000,0,1 ms\n", 41, 1),
    ("device,5,Valve,unit.eds,0,0\n", 40, 1),
    ("device,5,Valve,unit.eds,0,0,,\n", 40, 1),
    ("", 42, 0),
];

#[test]
fn deadlines_that_break_a_rule(rt: HostRuntime) -> Result<(), Fail> {
    for case in BROKEN_DEADLINES {
        let (rows, number, place) = *case;
        let refused = refused_as_nodes(rt.alloc(), WITH_DEADLINES, rows)?;
        assert!(rt; refused == Some((number, place)), "{rows}");
    }
    let wide = refused_as_nodes(rt.alloc(), NODES, "device,5,Valve,unit.eds,0,0,\n")?;
    assert!(rt; wide == Some((40, 1)));
    Ok(())
}

#[test]
fn bytes_that_are_no_text(rt: HostRuntime) -> Result<(), Fail> {
    let nodes = b"row,node,name,eds,period,jitter\ndevice,5,V\xFF,unit.eds,0,0\n";
    let pdos = b"node,tpdo,period,jitter,deadline,consumers\n5,1,10000,0,670,\xFF\n";
    assert!(rt; refused_nodes(rt.alloc(), nodes)? == Some((41, 1)));
    assert!(rt; refused_pdos(rt.alloc(), pdos)? == Some((41, 1)));
    assert!(rt; Rule::Full.number() == 49);
    Ok(())
}

/// Whether a copy has the node 5, the deadline 670 and the consumers of its row.
fn is_pdo_copied(row: &PdoRow) -> Result<bool, AllocError> {
    let copy = row.clone()?;
    let has_numbers = copy.node == 5 && copy.deadline == 670;
    Ok(has_numbers && copy.consumers.as_slice() == row.consumers.as_slice())
}

#[test]
fn copies_of_pdos_are_equal(rt: HostRuntime) -> Result<(), Fail> {
    let table = pdos_of(rt.alloc(), "5,1,10000,0,670,6.1 7.2\n")?;
    for row in table.rows() {
        assert!(rt; is_pdo_copied(row)?);
    }
    Ok(())
}

/// Whether a fault is printed so.
fn is_printed(alloc: Global, fault: &RowFault, wanted: &str) -> Result<bool, AllocError> {
    Ok(format!(in alloc; "{fault}")?.as_str() == wanted)
}

#[test]
fn faults_are_printed(rt: HostRuntime) -> Result<(), Fail> {
    match pdos_of(rt.alloc(), "5,1,1000,0,1000,\n5\n") {
        Ok(_) => assert!(rt; false),
        Err(RowFault::Memory) => return Err(Fail::from(RowFault::Memory)),
        Err(fault) => assert!(rt; is_printed(rt.alloc(), &fault, "refused at record 2")?),
    }
    assert!(rt; is_printed(rt.alloc(), &RowFault::Memory, "out of memory")?);
    Ok(())
}
