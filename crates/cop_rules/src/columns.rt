//! What the columns of the tables want.

ghost use Rattle.std.specs.Prelude.{◌≡◌};
ghost use Rattle.cop_rules.specs.Headers.{header_of, header_with_deadline};

use cop_net::Table;
use cop_rows::Column;

/// The header of a table, by which it is read; that of nodes is the one without deadlines.
pub fn header(table: Table) -> &'static str
    ensures { result.now ≡ header_of table }
{
    match table {
        Table::Nodes => "row,node,name,eds,period,jitter",
        Table::Pdos => "node,tpdo,period,jitter,deadline,consumers",
        Table::Settings => "row,node,object,value",
    }
}

/// The other header of the table of nodes, which has a column for the deadlines of SDO frames.
pub fn header_with_deadline() -> &'static str
    ensures { result.now ≡ header_with_deadline }
{
    "row,node,name,eds,period,jitter,deadline"
}

/// The name of a column in its header.
pub fn name_of(column: Column) -> &'static str {
    match column {
        Column::Row => "row",
        Column::Node => "node",
        Column::Name => "name",
        Column::Eds => "eds",
        Column::Tpdo => "tpdo",
        Column::Period => "period",
        Column::Jitter => "jitter",
        Column::Deadline => "deadline",
        Column::Consumers => "consumers",
        Column::Object => "object",
        Column::Value => "value",
    }
}

fn wanted_of_nodes(column: Column) -> &'static str {
    match column {
        Column::Row => "device, nmt, sync, emcy, sdo_request, sdo_response, heartbeat or errors",
        Column::Node => "1 to 127, and 0 of nmt, sync and errors",
        Column::Name => {
            "1 to 40 letters, digits, blanks or _ - . of a device, and nothing of a frame"
        }
        Column::Eds => {
            "the name of a file beside this table, 1 to 40 letters, digits, blanks or _ - ., of a device, and nothing of a frame"
        }
        Column::Period => {
            "100 to 60000000 microseconds or 0 for never, whole milliseconds of a heartbeat, and 0 of a device"
        }
        Column::Deadline => {
            "1 to 60000000 microseconds of an sdo_request or sdo_response that has a period, and nothing of others"
        }
        _ => "0 to 60000000 microseconds, and 0 of a device",
    }
}

fn wanted_of_pdos(column: Column) -> &'static str {
    match column {
        Column::Node => "1 to 127",
        Column::Tpdo => "1 to 512",
        Column::Period => "100 to 60000000 microseconds, or 0 of a PDO that is sent by SYNC",
        Column::Jitter => {
            "0 to 60000000 microseconds, which is the latency after SYNC of a PDO that is sent by it"
        }
        Column::Deadline => "1 to 60000000 microseconds",
        _ => "node.rpdo such as 11.1 12.3 with one blank between them, or nothing",
    }
}

fn wanted_of_settings(column: Column) -> &'static str {
    match column {
        Column::Row => "set",
        Column::Node => "1 to 127",
        Column::Object => {
            "four hexadecimal digits of an index, and behind a dot one or two of a sub, such as 6065 or 2100.1"
        }
        _ => "a number as EDS files have it: 2000, -3, 0xFFFB or $NODEID+0x80",
    }
}

/// What a column of a table wants. Numbers have 1 to 10 decimal digits.
pub fn wanted(table: Table, column: Column) -> &'static str {
    match table {
        Table::Nodes => wanted_of_nodes(column),
        Table::Pdos => wanted_of_pdos(column),
        Table::Settings => wanted_of_settings(column),
    }
}
