use crate::words::{NODES, UNIT, files, text_of};
use cop_net::{Refusal, Rule, Table, all_rates};
use cop_rows::Column;
use cop_words::{Network, Source, further_words};
use std::alloc::Global;
use std::test::Fail;

/// The words on the faults behind the first one, which is at a record, of a table of PDOs.
fn words(alloc: Global, place: u64, pdos: &str) -> Result<String, Fail> {
    let files = files(alloc, &[("unit.eds", UNIT)])?;
    let network = Network {
        nodes: Source {
            name: "nodes.csv",
            text: NODES.as_bytes(),
        },
        pdos: Source {
            name: "pdos.csv",
            text: pdos.as_bytes(),
        },
        settings: Source {
            name: "",
            text: b"",
        },
        eds_files: &files,
        wanted: &all_rates(),
    };
    let first = Refusal {
        table: Table::Pdos,
        rule: Rule::Record(cop_rows::Rule::Value(Column::Period)),
        place,
    };
    text_of(alloc, &further_words(alloc, network, &first)?)
}

const PERIOD: &str =
    "wanted in column period: 100 to 60000000 microseconds, or 0 of a PDO that is sent by SYNC\n";

/// Rows of PDOs, the record of the first fault, and what is said of the others before the words on a period.
const TABLES: &[(&str, u64, &str)] = &[
    ("5,1,x,0,670,\n", 1, ""),
    ("5,1,10000,0,670,\n5,2,x,0,670,\n", 2, ""),
    (
        "5,1,x,0,670,\n\n5,2,y,0,670,\n",
        1,
        "also refused 41 2\npdos.csv, line 4: 5,2,y,0,670,\n",
    ),
    (
        "5,1,\"x\n\",0,670,\n5,1,10000,0,670,\n5,2,y,0,670,\n",
        1,
        "also refused 41 3\npdos.csv, line 5: 5,2,y,0,670,\n",
    ),
];

#[test]
fn the_faults_behind_the_first_one_are_told(rt: HostRuntime) -> Result<(), Fail> {
    let alloc = rt.alloc();
    for case in TABLES {
        let (rows, place, begin) = *case;
        let text = format!(in alloc; "node,tpdo,period,jitter,deadline,consumers\n{rows}")?;
        let said = words(alloc, place, &text)?;
        let wanted = if begin.is_empty() {
            String::new(alloc)
        } else {
            format!(in alloc; "{begin}{PERIOD}")?
        };
        assert!(rt; said.as_str() == wanted.as_str(), "{rows}: {said}");
    }
    Ok(())
}
