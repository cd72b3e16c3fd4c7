//! What is said of rules 70 to 84: what the text of an EDS file as makers ship it leaves open, and what one that is read hides.

use crate::places::line_at;
use crate::words::{Source, push_place};
use cop_eds::{number_in, value_of};
use std::alloc::{AllocError, Global};

/// What is said of a number: what is left open, what is usually behind it, and what answers it. Nothing for a number that neither a
/// refusal nor a hazard has.
pub fn question_words(number: u8) -> &'static str {
    match number {
        70 => {
            "rule 70: the bytes of an EDS file are no text\nusually: the file was cut, or is of another kind\nright: UTF-8, UTF-16 or one byte a letter, without a byte 0\n"
        }
        71 => {
            "rule 71: a line of an EDS file is neither a header, nor a key with its value, nor a comment\nusually: a line that was cut or wrapped\nright: ParameterName=Device type\n"
        }
        72 => {
            "rule 72: a section or a key of an EDS file stands twice, with different content\nusually: one of them was copied and changed\nright: one of the two\n"
        }
        73 => {
            "rule 73: a list of an EDS file names what is not there, or in two ways; or no list names a section by which a device does something on the bus; or no rate is stated\nusually: a section that was renamed or left out, hexadecimal numbers without 0x\nright: 1=0x1800 and a section [1800]; --unlisted add lists sections that no list names, --unlisted leave lets them be; --rates 125,250 for a device that states none\n"
        }
        74 => {
            "rule 74: an object of an EDS file has no type, or an unknown one\nusually: a key DataType or ObjectType that was left out\nright: DataType=0x0007\n"
        }
        75 => {
            "rule 75: an object of an EDS file has no access, or an unknown one\nusually: a key AccessType that was left out\nright: AccessType=rw; --access rw gives it to the objects that have none\n"
        }
        76 => {
            "rule 76: a number of an EDS file that a plan needs is none, or does not fit its type\nusually: a unit behind the number, a negative number in an unsigned type\nright: a number within its type\n"
        }
        77 => {
            "rule 77: a compact form of an EDS file, or the record of a PDO, cannot be completed\nusually: a CompactPDO that leaves out the COB-ID, a count that is too large\nright: CompactPDO with bit 0, a record with a sub-index 1\n"
        }
        78 => {
            "rule 78: digits with a 0 before them are octal by CiA 306, and decimal as people write them\nusually: a decimal number that was filled up with zeros\nright: --octal or --decimal\n"
        }
        79 => {
            "rule 79: what was made of an EDS file would still be refused, or still hides what the device does\nusually: what no rule of tidy mends\nright: the file corrected by hand\n"
        }
        80..=84 => hazard_words(number),
        _ => "",
    }
}

/// The same of what a text that is read may hide.
fn hazard_words(number: u8) -> &'static str {
    match number {
        80 => {
            "rule 80: an EDS file has a section of a PDO, of SYNC, EMCY, heartbeats or the SDO server that no list names, so a plan neither sees nor sets it\nusually: a list that was not brought up to date\nright: --unlisted add, or --unlisted leave where the device has no such object\n"
        }
        81 => {
            "rule 81: the record of a PDO has no COB-ID at sub-index 1, or one of another type than UNSIGNED32\nusually: a sub section that was left out\nright: DataType=0x0007 at sub-index 1\n"
        }
        82 => {
            "rule 82: CompactPDO says of PDOs that no section describes, so a plan does not switch them off\nusually: a device with many PDOs alike\nright: canplan tidy writes their sections\n"
        }
        83 => {
            "rule 83: an entry of a list behind its number of entries names a section\nusually: a number of entries that was not raised\nright: SupportedObjects as many as there are entries\n"
        }
        _ => {
            "rule 84: a section that describes an object has a name that nothing reads\nusually: 0x, a blank or an underline in the name; or a word of the maker behind the digits of a listed object\nright: [1800sub1]\n"
        }
    }
}

/// The first digits of a value.
fn digits_of(value: &[u8]) -> &[u8] {
    let mut runs = value.split(|byte| !byte.is_ascii_digit());
    runs.find(|run| !run.is_empty()).unwrap_or(b"")
}

/// Adds what the digits of a line are by CiA 306, and what they are as people write them.
fn push_meanings(words: &mut Vec<u8>, alloc: Global, line: &[u8]) -> Result<(), AllocError> {
    let digits = digits_of(value_of(line));
    if let Some(octal) = number_in(8, digits)
        && let Some(decimal) = number_in(10, digits)
    {
        let said = format!(in alloc;
            "it is {octal} by CiA 306 (octal) and {decimal} as people write it: say --octal or --decimal\n"
        )?;
        words.extend_from_slice(said.as_bytes())?;
    }
    Ok(())
}

/// What is said of a maker's text that is refused: the line of the file with its text, where it is a line's, and what is left open.
pub fn maker_words(
    alloc: Global,
    source: Source<'_>,
    number: u8,
    line: usize,
) -> Result<Vec<u8>, AllocError> {
    let mut words = Vec::new(alloc);
    if let Some(place) = line_at(source.text, line) {
        push_place(&mut words, alloc, source.name, &place)?;
        if number == 78 {
            push_meanings(&mut words, alloc, place.text)?;
        }
    }
    words.extend_from_slice(question_words(number).as_bytes())?;
    Ok(words)
}
