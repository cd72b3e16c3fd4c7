use cop_table::{Record, Records, TableError, id, number, under_header, under_one_of};
use std::alloc::{AllocError, Global};

const HEADER: &[&[u8]] = &[b"id", b"bytes"];

/// The identifier in the first field of a record, and how many fields there are.
type Found = (Option<u64>, usize);

/// Whether these are the records that are still to come.
fn are_left(rows: &mut Records, row: &mut Record, wanted: &[Found]) -> Result<bool, AllocError> {
    for record in wanted {
        if !rows.read(row)? || id(row.field(0)) != record.0 || row.len() != record.1 {
            return Ok(false);
        }
    }
    Ok(!rows.read(row)?)
}

/// Whether these are the records under the header. `None` where the first record is another one.
fn are_records(alloc: Global, text: &[u8], wanted: &[Found]) -> Result<Option<bool>, AllocError> {
    let mut row = Record::new(alloc);
    match under_header(alloc, text, HEADER, &mut row) {
        Ok(mut rows) => Ok(Some(are_left(&mut rows, &mut row, wanted)?)),
        Err(TableError::Header) => Ok(None),
        Err(TableError::Memory) => Err(AllocError),
    }
}

/// Fields, and the identifiers that they write.
const IDS: &[(&[u8], Option<u64>)] = &[
    (b"0x7fF", Some(0x7FF)),
    (b"0x", None),
    (b"0xFFFFFFFFFFFFFFFFFF", Some(u64::MAX)),
    (b"385", Some(385)),
];

#[test]
fn numbers_are_read(rt: HostRuntime) {
    assert!(rt; number(10, b"0000000012") == Some(12));
    assert!(rt; number(10, b"00000000012").is_none());
    for case in IDS {
        let (text, wanted) = *case;
        assert!(rt; id(text) == wanted);
    }
}

/// Texts under the header, and their records.
const RECORDS: &[(&[u8], &[Found])] = &[
    // a byte order mark is left out, and a quoted field is what stands between its quotes
    (
        b"\xEF\xBB\xBFid,bytes\r\n\r\n\"0x181\",8\n1,2,3\nx",
        &[(Some(0x181), 2), (Some(1), 3), (None, 1)],
    ),
    (b"id,bytes\n", &[]),
    (b"id,bytes\n1,2\n3", &[(Some(1), 2), (Some(3), 1)]),
    // empty lines are no records
    (b"id,bytes\n\n\n1\n\n", &[(Some(1), 1)]),
    // a comma at the end begins one more field
    (b"id,bytes\n,\n1,,\n", &[(None, 2), (Some(1), 3)]),
    // LF, CR LF and CR alone each end a record
    (
        b"id,bytes\n1,2\r\n3\r4,5,6",
        &[(Some(1), 2), (Some(3), 1), (Some(4), 3)],
    ),
    // between quotes a comma and a line end are bytes of the field
    (b"id,bytes\n\"1,2\",\"3\n4\"\n5", &[(None, 2), (Some(5), 1)]),
];

#[test]
fn records_are_lines_cut_at_commas(rt: HostRuntime) -> Result<(), AllocError> {
    for case in RECORDS {
        let (text, wanted) = *case;
        assert!(rt; are_records(rt.alloc(), text, wanted)? == Some(true));
    }
    Ok(())
}

const HEADERS: [&[&[u8]]; 2] = [HEADER, &[b"id", b"bytes", b"period"]];

/// The number of a header, and how many fields the next record has.
fn read_under(
    header: usize,
    rows: &mut Records,
    row: &mut Record,
) -> Result<Option<(usize, usize)>, AllocError> {
    rows.read(row)?;
    Ok(Some((header, row.len())))
}

/// Which of two headers a text begins with, and how many fields the record under it has.
fn header_of(alloc: Global, text: &[u8]) -> Result<Option<(usize, usize)>, AllocError> {
    let mut row = Record::new(alloc);
    match under_one_of(alloc, text, &HEADERS, &mut row) {
        Ok((header, mut records)) => read_under(header, &mut records, &mut row),
        Err(TableError::Header) => Ok(None),
        Err(TableError::Memory) => Err(AllocError),
    }
}

#[test]
fn one_of_two_headers(rt: HostRuntime) -> Result<(), AllocError> {
    assert!(rt; header_of(rt.alloc(), b"id,bytes\n1,2\n")? == Some((0, 2)));
    assert!(rt; header_of(rt.alloc(), b"id,bytes,period\n1,2,3\n")? == Some((1, 3)));
    assert!(rt; header_of(rt.alloc(), b"id\n1\n")?.is_none());
    assert!(rt; header_of(rt.alloc(), b"")?.is_none());
    Ok(())
}

#[test]
fn another_header_is_refused(rt: HostRuntime) -> Result<(), AllocError> {
    assert!(rt; are_records(rt.alloc(), b"", &[])?.is_none());
    assert!(rt; are_records(rt.alloc(), b"idb,ytes\n", &[])?.is_none());
    Ok(())
}
