//! Words of rules and of records.

use cop_rules::explained;
use cop_words::{Source, line_at, record_at, record_words};
use std::test::Fail;

/// The rules' numbers, from the first to the last of each range.
const EXPLAINED: &[(u8, u8)] = &[
    (1, 6),
    (10, 18),
    (20, 23),
    (30, 36),
    (40, 55),
    (57, 57),
    (60, 69),
];

#[test]
fn each_rule_is_explained(rt: HostRuntime) {
    for range in EXPLAINED {
        let (first, last) = *range;
        for number in first..=last {
            assert!(rt; explained(number).is_some());
        }
    }
    assert!(rt; explained(56).is_none());
}

#[test]
fn records_are_found(rt: HostRuntime) -> Result<(), Fail> {
    let text = b"a,b\r\n\r\n\"1\n2\",3\n4,5".as_slice();
    let cases: &[(u64, u64, &[u8])] = &[(0, 1, b"a,b"), (1, 3, b"\"1\n2\",3"), (2, 5, b"4,5")];
    for case in cases {
        let (number, line, record) = *case;
        let Some(place) = record_at(text, number) else {
            return Err(Fail::from("no such record"));
        };
        assert!(rt; place.line == line);
        assert!(rt; place.text == record);
    }
    assert!(rt; record_at(text, 3).is_none());
    Ok(())
}

#[test]
fn lines_are_found(rt: HostRuntime) -> Result<(), Fail> {
    let text = b"a,b\r\n3".as_slice();
    assert!(rt; line_at(text, 0).is_none());
    assert!(rt; line_at(text, 1).is_some_and(|place| place.text == b"a,b".as_slice()));
    Ok(())
}

/// Records, and how they are shown.
const SHOWN: &[(&[u8], &[u8])] = &[
    (b"0x181,\x1B[2J", b"0x181,?[2J"),
    (b"0x181,\xC3\xA9", b"0x181,\xC3\xA9"),
    (b"0x181,\xE2\x80\xAE1", b"0x181,?1"),
    (b"0x181,\xE9", b"0x181,?"),
];

#[test]
fn a_record_is_shown_without_control_characters(rt: HostRuntime) -> Result<(), Fail> {
    for case in SHOWN {
        let (record, shown) = *case;
        let mut text = Vec::from_slice(rt.alloc(), b"id\n")?;
        text.extend_from_slice(record)?;
        let source = Source {
            name: "streams.csv",
            text: &text,
        };
        let said = record_words(rt.alloc(), source, 2, 1)?;
        let begin = b"streams.csv, line 2: ".as_slice();
        let rest = said
            .strip_prefix(begin)
            .and_then(|rest| rest.strip_prefix(shown));
        assert!(rt; rest.is_some_and(|rest| rest.starts_with(b"\nrule 2: a record")));
    }
    Ok(())
}

#[test]
fn a_record_that_is_missing_is_told_by_its_file(rt: HostRuntime) -> Result<(), Fail> {
    let source = Source {
        name: "trace.csv",
        text: b"kind,moment,id,event,bits,data\nqueue,0,1,0,65,05\n",
    };
    let said = record_words(rt.alloc(), source, 69, 2)?;
    assert!(rt; said.starts_with(b"trace.csv, past its last record\nrule 69: a record"));
    Ok(())
}
