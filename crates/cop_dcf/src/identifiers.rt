//! The identifiers of the PDOs that use a node's communication records.

ghost use Rattle.std.specs.Prelude.{◌≡◌, ◌≤◌, ◌<◌, ◌==◌, length, All};
ghost use Rattle.cop_rows.specs.Pdos.{IsConsumer, IsPdoRow};
ghost use Rattle.cop_dcf.specs.Identifiers.{takes, uses, id_in, IsNoted, KnowsIds};

use cop_net::{Consumer, PdoRow};

/// The index of the first communication record.
const FIRST: usize = 0x1400;

/// How many indexes there are from the first communication record to the last.
const INDEXES: usize = 0x600;

/// The identifiers by the indexes of their records, from the first on.
pub type Places = [Option<u16>; INDEXES];

/// Notes an identifier at the index of a communication record that has none.
fn note(places: &mut Places, index: u16, id: u16)
    requires low { 0x1400 ≤ index }
    requires high { index < 0x1A00 }
    ensures { IsNoted places.new places.old (λ i. index == i) id }
{
    let place = usize::from(index) - FIRST;
    if places[place].is_none() {
        places[place] = Some(id);
    }
}

#[tactic(auto, using(crate::proofs::IdentifierLemmas::none_noted))]
/// Notes the identifier of a PDO at the records by which a node takes it.
fn note_consumers(places: &mut Places, consumers: &[Consumer], node: u8, id: u16)
    requires { All IsConsumer consumers.now }
    ensures { IsNoted places.new places.old (takes consumers.now node) id }
{
    for consumer in consumers {
        if consumer.node == node {
            note(places, 0x13FF + consumer.rpdo, id);
        }
    }
}

/// Notes the identifier of a PDO at the records of a node that it uses.
fn note_row(places: &mut Places, row: &PdoRow, node: u8, id: u16)
    requires { IsPdoRow row.now }
    ensures { IsNoted places.new places.old (uses row.now node) id }
{
    if row.node == node {
        note(places, 0x17FF + row.tpdo, id);
    }
    note_consumers(places, row.consumers.as_slice(), node, id);
}

/// The identifiers of the PDOs that use the communication records of a node, where the rows' PDOs have these identifiers.
pub fn identifiers(rows: &[PdoRow], ids: &[u16], node: u8) -> Places
    requires count { length rows.now ≤ length ids.now }
    requires rows { All IsPdoRow rows.now }
    ensures { KnowsIds result rows.now ids.now node }
{
    let mut places = [None; INDEXES];
    for (pdo, row) in rows.iter().enumerate() {
        note_row(&mut places, row, node, ids[pdo]);
    }
    places
}

/// The identifier at the index of a communication record.
pub fn id_in(places: &Places, index: u16) -> Option<u16>
    ensures { result ≡ id_in places.now index }
{
    let place = usize::from(index).saturating_sub(FIRST);
    if place < INDEXES { places[place] } else { None }
}
