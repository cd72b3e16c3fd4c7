use cop_eds::{Access, Amount, Eds, EdsFault, Object, Rule, amount_of, number_of, parse};
use cop_frame::{Rate, RateSet};
use std::alloc::{AllocError, Global};

const UNIT: &[u8] = b"\
[FileInfo]\n\
FileName=unit.eds\n\
[DeviceInfo]\n\
BaudRate_250=1\n\
BaudRate_500=1\n\
BaudRate_1000=1\n\
[MandatoryObjects]\n\
SupportedObjects=1\n\
1=0x1000\n\
[OptionalObjects]\n\
SupportedObjects=3\n\
1=0x1017\n\
2=0x1800\n\
3=0x1A00\n\
[ManufacturerObjects]\n\
SupportedObjects=1\n\
1=0x2000\n\
[1000]\n\
DataType=0x0007\n\
AccessType=ro\n\
[1017]\n\
DataType=0x0006\n\
AccessType=rw\n\
DefaultValue=0\n\
[1800]\n\
ObjectType=0x9\n\
SubNumber=3\n\
[1800sub0]\n\
DataType=0x0005\n\
AccessType=ro\n\
DefaultValue=2\n\
[1800sub1]\n\
DataType=0x0007\n\
AccessType=rw\n\
DefaultValue=$NODEID+0x40000180\n\
[1800sub2]\n\
DataType=0x0005\n\
AccessType=rw\n\
DefaultValue=255\n\
[1A00]\n\
ObjectType=0x9\n\
SubNumber=3\n\
[1A00sub0]\n\
DataType=0x0005\n\
AccessType=ro\n\
DefaultValue=2\n\
[1A00sub1]\n\
DataType=0x0007\n\
AccessType=ro\n\
DefaultValue=0x20000120\n\
[1A00sub2]\n\
DataType=0x0007\n\
AccessType=ro\n\
DefaultValue=0x20000220\n\
[2000]\n\
ObjectType=0x8\n\
SubNumber=3\n\
[2000sub0]\n\
DataType=0x0005\n\
AccessType=ro\n\
DefaultValue=2\n\
[2000sub1]\n\
DataType=0x0007\n\
AccessType=ro\n\
PDOMapping=1\n\
[2000sub2]\n\
DataType=0x0007\n\
AccessType=ro\n\
PDOMapping=1\n";

// What a text is refused for, and the line; `(0, 0)` where it is read.
fn refused(alloc: Global, text: &[u8]) -> Result<(u8, usize), EdsFault> {
    match parse(alloc, text) {
        Err(EdsFault::Refused(refusal)) => Ok((refusal.rule.number(), refusal.line)),
        Err(fault) => Err(fault),
        Ok(_) => Ok((0, 0)),
    }
}

/// The section of a name, where one is named.
fn section_of(eds: &Eds<'_>, name: Option<&[u8]>) -> Option<usize> {
    eds.section(name?)
}

#[test]
fn the_sample_is_read(rt: HostRuntime) -> Result<(), EdsFault> {
    let eds = parse(rt.alloc(), UNIT)?;
    assert!(rt; eds.source() == UNIT);
    assert!(rt; eds.lines().len() == 69 && eds.objects().len() == 11);
    Ok(())
}

/// Rates, and whether the sample supports them.
const RATES: &[(Rate, bool)] = &[
    (Rate::Kbit125, false),
    (Rate::Kbit250, true),
    (Rate::Kbit800, false),
    (Rate::Kbit1000, true),
];

/// The rates that the sample supports.
fn sample_rates(alloc: Global) -> Result<RateSet, EdsFault> {
    Ok(parse(alloc, UNIT)?.rates())
}

#[test]
fn rates_of_the_sample(rt: HostRuntime) -> Result<(), EdsFault> {
    let rates = sample_rates(rt.alloc())?;
    for case in RATES {
        let (rate, wanted) = *case;
        assert!(rt; rates.contains(rate) == wanted, "{} kbit/s", rate.kbits());
    }
    Ok(())
}

/// An object by its index and sub, and the name of its section.
type Named = (u16, u8, Option<&'static [u8]>);

/// The place of the first object that has another section.
fn other_object(eds: &Eds<'_>, objects: &[Named]) -> Option<usize> {
    for place in 0..objects.len() {
        let (index, sub, name) = objects[place];
        if eds.object(index, sub) != section_of(eds, name) {
            return Some(place);
        }
    }
    None
}

/// Objects of the sample.
const OBJECTS: &[Named] = &[
    (0x1800, 1, Some(b"1800SUB01")),
    (0x1017, 0, Some(b"1017")),
    (0x1017, 1, None),
    (0x2000, 2, Some(b"2000sub2")),
    (0xFFFF, 0xFF, None),
];

#[test]
fn objects_of_the_sample(rt: HostRuntime) -> Result<(), EdsFault> {
    let eds = parse(rt.alloc(), UNIT)?;
    let other = other_object(&eds, OBJECTS);
    assert!(rt; other.is_none(), "{other:?}");
    Ok(())
}

/// Whether the section of 1800h sub 1 has a default value, and no parameter value.
fn has_default_value(eds: &Eds<'_>, value: &[u8]) -> bool {
    let Some(section) = eds.section(b"1800sub1") else {
        return false;
    };
    eds.value(section, b"defaultvalue") == Some(value)
        && eds.value(section, b"ParameterValue").is_none()
}

#[test]
fn values_of_the_sample(rt: HostRuntime) -> Result<(), EdsFault> {
    let eds = parse(rt.alloc(), UNIT)?;
    assert!(rt; has_default_value(&eds, b"$NODEID+0x40000180"));
    Ok(())
}

#[test]
fn every_prefix_returns(rt: HostRuntime) -> Result<(), EdsFault> {
    let alloc = rt.alloc();
    for end in 0..UNIT.len() {
        let _ = refused(alloc, &UNIT[..end])?;
    }
    assert!(rt; refused(alloc, b"")? == (0, 0));
    assert!(rt; refused(alloc, b"[FileInfo")? == (10, 1));
    assert!(rt; refused(alloc, b"[FileInfo]\nFileName=a\n[Devi")? == (10, 3));
    Ok(())
}

/// A text, the number of the rule that it breaks first, and the line from 1; 0 and 0 where it is read.
const ROWS: &[(&[u8], u8, usize)] = &[
    (b"a=1\n", 10, 1),
    (b" [a]\n", 10, 1),
    (b"[a]\nb\n[A]\n", 10, 2),
    (b"[a]\n=1\n", 10, 2),
    (b"[a]\n\n[A] ; x", 11, 3),
    (b"[1800sub1]\n[1800SUB01]\n", 11, 2),
    (b"[a]\n b=\nB = 2\n[A]", 12, 3),
    (
        b"[a]\n[b]\nc=1\nc=2\nc=3\nc=4\nc=5\nc=6\nc=7\nc=8\nc=9\n",
        12,
        4,
    ),
    (b"[DeviceInfo]\nBaudRate_20=010\nBaudRate_10=x\n", 13, 3),
    (b"[DeviceInfo]\nBaudRate_20=010\nBaudRate_10=08\n", 14, 2),
    (b"[DeviceInfo]\nBaudRate_20=0x10000000000000000\n", 13, 2),
    (b"[OptionalObjects]\n", 15, 1),
    (b"[OptionalObjects]\nSupportedObjects=1\n1=0x1000\n", 15, 3),
    (
        b"[OptionalObjects]\nSupportedObjects=2\n1=0x1000\n[1000]\nDataType=7\nAccessType=ro\n",
        15,
        1,
    ),
    (
        b"[OptionalObjects]\nSupportedObjects=1\n1=0x11000\n[1000]\n",
        15,
        3,
    ),
    (
        b"[OptionalObjects]\nSupportedObjects=1\n1=0x1000\n[1000]\nAccessType=ro\n",
        16,
        4,
    ),
    (
        b"[OptionalObjects]\nSupportedObjects=1\n1=0x1000\n[1000]\nDataType=7\n",
        16,
        4,
    ),
    (
        b"[OptionalObjects]\nSupportedObjects=1\n1=0x1000\n[1000]\nDataType=7\nAccessType=r\n",
        16,
        6,
    ),
    (
        b"[OptionalObjects]\nSupportedObjects=1\n1=0x1000\n[1000]\nObjectType=3\n",
        16,
        5,
    ),
    (
        b"[OptionalObjects]\nSupportedObjects=1\n1=0x1000\n[1000]\nObjectType=8\nCompactSubObj=3\n",
        17,
        6,
    ),
    (
        b"[OptionalObjects]\nSupportedObjects=1\n1=0x1000\n[1000]\nObjectType=8\nSubNumber=010\n",
        14,
        6,
    ),
    (
        b"[OptionalObjects]\nSupportedObjects=1\n1=0x1000\n[1000]\nObjectType=8\nSubNumber=08\n",
        0,
        0,
    ),
    (
        b"[OptionalObjects]\nSupportedObjects=1\n1=0x1000\n[1000]\nObjectType=9\n[1000subA]\nDataType=7\n",
        16,
        6,
    ),
    (
        b"[OptionalObjects]\nSupportedObjects=1\n1=0x1000\n[1000]\nDataType=7\nAccessType=RW\n[1000sub1]\nPDOMapping=x\nDataType=5\nAccessType=wo\n",
        13,
        8,
    ),
    (
        b"[OptionalObjects]\nSupportedObjects=1\n1=0x1000\n[1000]\nObjectType=2\nAccessType=const\n",
        0,
        0,
    ),
    (b"[1000]\nObjectType=x\n", 0, 0),
    (
        b"[ManufacturerObjects]\nSupportedObjects=x\n[MandatoryObjects]\n",
        15,
        3,
    ),
];

#[test]
fn the_first_broken_rule_is_named(rt: HostRuntime) -> Result<(), EdsFault> {
    for case in ROWS {
        let (text, number, line) = *case;
        assert!(rt; refused(rt.alloc(), text)? == (number, line), "{text:?}");
    }
    Ok(())
}

/// A text with CR LF, comments, blanks and names in other case.
const MESSY: &[u8] =
    b"\xEF\xBB\xBF; device\r\n[deviceinfo] ; rates\r\n\tBAUDRATE_125 = 1\t\r\n\r\n[optionalobjects]\r\nsupportedobjects=1\r\n1=0x2abC\r\n[2ABC]\r\nobjecttype=0x8\r\n[2abcsub01]\r\nParameterName= a;b \r\ndatatype=5\r\nAccessType=Rww\r\nDefaultValue=0x180 + $nodeid\r\nLowLimit=\r\n[2abcSub0a]\r\nDataType=7\r\nAccessType=const";

/// Whether the rates are those of the messy text.
fn are_messy_rates(rates: &RateSet) -> bool {
    rates.contains(Rate::Kbit125) && !rates.contains(Rate::Kbit250)
}

/// Whether the first object is that of the messy text.
fn is_messy_object(objects: &[Object]) -> bool {
    match objects {
        [object, ..] => {
            (object.index == 0x2ABC && object.sub == 1)
                && (object.data_type == 5 && object.access == Access::ReadWriteOutput)
        }
        [] => false,
    }
}

#[test]
fn a_messy_text_is_read(rt: HostRuntime) -> Result<(), EdsFault> {
    let eds = parse(rt.alloc(), MESSY)?;
    assert!(rt; are_messy_rates(&eds.rates()) && is_messy_object(eds.objects()));
    Ok(())
}

/// Objects of the messy text.
const MESSY_OBJECTS: &[Named] = &[
    (0x2ABC, 0, None),
    (0x2ABC, 1, Some(b"2ABCSUB1")),
    (0x2ABC, 10, Some(b"2abcsubA")),
];

#[test]
fn objects_of_a_messy_text(rt: HostRuntime) -> Result<(), EdsFault> {
    let eds = parse(rt.alloc(), MESSY)?;
    let other = other_object(&eds, MESSY_OBJECTS);
    assert!(rt; other.is_none(), "{other:?}");
    Ok(())
}

/// Whether the object of the messy text has its name, and a lower limit that is empty.
fn has_messy_keys(eds: &Eds<'_>) -> bool {
    let Some(section) = eds.object(0x2ABC, 1) else {
        return false;
    };
    eds.value(section, b"parametername") == Some(b"a;b".as_slice())
        && eds.key_line(section, b"LowLimit") == Some(15)
        && eds.entry(section, b"LowLimit").is_none()
}

#[test]
fn keys_of_a_messy_text(rt: HostRuntime) -> Result<(), EdsFault> {
    let eds = parse(rt.alloc(), MESSY)?;
    assert!(rt; has_messy_keys(&eds));
    Ok(())
}

/// Whether the default value of the object of the messy text is this amount on line 14.
fn has_messy_amount(eds: &Eds<'_>, amount: Amount) -> bool {
    let Some(section) = eds.object(0x2ABC, 1) else {
        return false;
    };
    eds.amount(section, b"DefaultValue") == Ok(Some((14, amount)))
}

#[test]
fn amounts_of_a_messy_text(rt: HostRuntime) -> Result<(), EdsFault> {
    let eds = parse(rt.alloc(), MESSY)?;
    assert!(rt; has_messy_amount(&eds, Amount::PlusNode(0x180)));
    Ok(())
}

#[test]
fn numbers_are_read(rt: HostRuntime) {
    assert!(rt; number_of(b"08") == Ok(8));
    assert!(rt; number_of(b"010") == Err(Rule::AmbiguousNumber));
    assert!(rt; number_of(b"007") == Ok(7));
}

/// Texts, and the amounts that they are or the rules that they break.
const AMOUNTS: &[(&[u8], Result<Amount, Rule>)] = &[
    (b"12", Ok(Amount::Decimal(12))),
    (b"-12", Ok(Amount::Negative(12))),
    (b"0XfF", Ok(Amount::Hexadecimal(255))),
    (b"$nodeid", Ok(Amount::PlusNode(0))),
    (b"$NODEID + 3", Ok(Amount::PlusNode(3))),
    (b"0x180+$NODEID", Ok(Amount::PlusNode(0x180))),
    (b"-010", Err(Rule::AmbiguousNumber)),
    (b"$NODEID+010", Err(Rule::AmbiguousNumber)),
    (b"$NODEID+-5", Err(Rule::Number)),
    (b"-0x5", Err(Rule::Number)),
];

#[test]
fn amounts_are_read(rt: HostRuntime) {
    for case in AMOUNTS {
        let (text, amount) = *case;
        assert!(rt; amount_of(text) == amount, "{text:?}");
    }
}

/// The sample, and twenty thousand lines of comment after it.
fn long_text(alloc: Global) -> Result<Vec<u8>, AllocError> {
    let mut text = Vec::from_slice(alloc, UNIT)?;
    for _ in 0..20_000 {
        text.extend_from_slice(b";\n")?;
    }
    Ok(text)
}

#[test]
fn twenty_thousand_lines_are_read(rt: HostRuntime) -> Result<(), EdsFault> {
    let text = long_text(rt.alloc())?;
    let eds = parse(rt.alloc(), &text)?;
    assert!(rt; eds.lines().len() == 20_069 && eds.objects().len() == 11);
    Ok(())
}
