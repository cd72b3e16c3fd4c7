//! What is usually wrong with a field of each column, and what is right.

use cop_net::Table;
use cop_rows::Column;
use cop_rules::explained;
use std::alloc::{AllocError, Global};

/// What is usually behind a field that its column does not take, and what is right.
#[derive(Clone, Copy)]
struct Advice {
    cause: &'static str,
    right: &'static str,
}

/// Of times in any table.
const TIME: Advice = Advice {
    cause: "a time in milliseconds, or a unit, a point, a sign or a blank in the number",
    right: "10000 for 10 ms, 500 for 0.5 ms",
};

fn advice_of_nodes(column: Column) -> Advice {
    match column {
        Column::Row => Advice {
            cause: "a word mistyped, a comment, or a row that has its fields in another order",
            right: "device,5,Valve,unit.eds,0,0 and then emcy,5,,,100000,0",
        },
        Column::Node => Advice {
            cause: "a hexadecimal number, a name in place of the number, or 0 in a row of one device",
            right: "32 for node 20h; 0 in the rows nmt, sync and errors alone",
        },
        Column::Name => Advice {
            cause: "a letter that ASCII does not have, a sign such as / or (, more than 40 characters, or a name in a row of a frame",
            right: "Kuehlung, with ue for a u with two points; no name in a row of a frame",
        },
        Column::Eds => Advice {
            cause: "the maker's long name of the file, a sign such as ( or a letter that ASCII does not have, a folder before the name, or a file in a row of a frame",
            right: "rename the file to 1 to 40 letters, digits, blanks or _ - ., such as drive.eds, and name it so; it lies beside this table",
        },
        Column::Deadline => Advice {
            cause: "a deadline of a frame that is no SDO frame, or of one that is never sent (period 0), or a time in milliseconds",
            right: "sdo_request,5,,,100000,0,5000, and emcy,5,,,100000,0, with nothing behind the last comma",
        },
        Column::Period => Advice {
            cause: "a time in milliseconds, a unit or a point in the number, a heartbeat of no whole milliseconds, or a period of a device",
            right: "heartbeat,5,,,100000,0 for 100 ms; 0 in a row of a device",
        },
        _ => Advice {
            cause: "a unit, a point or a sign in the number, or a jitter of a device",
            right: "500 for 0.5 ms; 0 in a row of a device",
        },
    }
}

fn advice_of_pdos(column: Column) -> Advice {
    match column {
        Column::Node => Advice {
            cause: "a hexadecimal number, or a name in place of the node's number",
            right: "5,1,10000,0,670, for TPDO 1 of node 5",
        },
        Column::Tpdo => Advice {
            cause: "an index or an identifier in place of the TPDO's number",
            right: "1 for the TPDO at 1800h, 2 for the one at 1801h",
        },
        Column::Consumers => Advice {
            cause: "another sign than a point between node and RPDO, or a comma, a semicolon or two blanks between consumers",
            right: "11.1 12.3 for RPDO 1 of node 11 and RPDO 3 of node 12",
        },
        _ => TIME,
    }
}

fn advice_of_settings(column: Column) -> Advice {
    match column {
        Column::Row => Advice {
            cause: "a word mistyped, or a comment",
            right: "set,5,6065,2000",
        },
        Column::Node => Advice {
            cause: "a hexadecimal number, or a name in place of the node's number",
            right: "set,5,6065,2000 for node 5",
        },
        Column::Object => Advice {
            cause: "0x before the index or h behind it, or another sign than a point before the sub",
            right: "6065 for 6065h sub 0, 2100.1 for 2100h sub 1",
        },
        _ => Advice {
            cause: "a unit, a point or a blank in the number, or a text",
            right: "2000, -3 or 0xFFFB",
        },
    }
}

fn usual_advice(table: Table, column: Column) -> Advice {
    match table {
        Table::Nodes => advice_of_nodes(column),
        Table::Pdos => advice_of_pdos(column),
        Table::Settings => advice_of_settings(column),
    }
}

/// Adds the lines on a field that its column does not take.
pub(crate) fn push_field(
    words: &mut Vec<u8>,
    alloc: Global,
    table: Table,
    column: Column,
) -> Result<(), AllocError> {
    let Some(found) = explained(41) else {
        return Ok(());
    };
    let (rule, advice) = (found.rule, usual_advice(table, column));
    let (cause, right) = (advice.cause, advice.right);
    let lines = format!(in alloc; "rule 41: {rule}\nusually: {cause}\nright: {right}\n")?;
    words.extend_from_slice(lines.as_bytes())
}
