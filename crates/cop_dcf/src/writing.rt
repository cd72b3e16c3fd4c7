//! The DCF text of a node.

ghost use Rattle.std.specs.Prelude.{◌≡◌, ◌<◌, true, ℕ, List, ◌++◌, ◌||◌, ◌==◌, not, [], length, take, get_or, if◌then◌else◌, IfOk, OnOk};
ghost use Rattle.std.specs.List.{list_any};
ghost use Rattle.std.specs.Option.{option_copied};
ghost use Rattle.cop_eds.specs.Lines.{IsInside, lines_of};
ghost use Rattle.cop_eds.specs.Rows.{row_of, rows_of};
ghost use Rattle.cop_eds.specs.Text.{mark_len};
ghost use Rattle.cop_eds.specs.Edits.{change_of, changed, newline_of};
ghost use Rattle.cop_dcf.specs.Dcf.{dcf_of};
ghost use Rattle.cop_dcf.specs.Runs.{IsRun, run_of, IsBehind, Extends};
ghost use Rattle.cop_dcf.specs.Pieces.{pair_follows, ends_entries, is_wanting, new_lines, whole_line, has_section, is_extended, adds_keys, piece_of, pieces_of, section_of};

use crate::key_line::{KeyLine, SectionKeys};
use crate::section_keys::{named_sections, section_keys};
use cop_eds::{Eds, Kind, Line};
use cop_frame::Rate;
use cop_setup::Setting;
use std::alloc::{AllocError, Global};

/// About how many bytes a key takes that is set.
const BYTES_OF_KEY: usize = 32;

/// About how many bytes the sections take that each DCF has.
const BYTES_OF_SECTIONS: usize = 1024;

/// Room for about as many bytes as a DCF has.
fn room_for(eds: &Eds<'_>, settings: &[Setting]) -> usize {
    let keys = settings.len().saturating_mul(BYTES_OF_KEY);
    eds.source()
        .len()
        .saturating_add(keys)
        .saturating_add(BYTES_OF_SECTIONS)
}

/// The mark of the text, with room for the lines of a DCF.
fn begun(alloc: Global, eds: &Eds<'_>, settings: &[Setting]) -> Result<Vec<u8>, AllocError>
    ensures { IfOk result (λ text. text.items ≡ take (mark_len eds.now) eds.now) }
{
    let mut text = Vec::with_capacity(alloc, room_for(eds, settings))?;
    text.extend_from_slice(eds.mark())?;
    Ok(text)
}

/// The end of a text's first line; LF where it has none.
fn newline<'a>(eds: &Eds<'a>) -> &'a [u8]
    ensures { result.now ≡ newline_of (rows_of eds.now) }
{
    let Some(first) = eds.lines().first() else {
        return b"\n";
    };
    if first.to == first.next {
        return b"\n";
    }
    &eds.source()[first.to as usize..first.next as usize]
}

/// Whether a pair comes before the next header.
fn pair_follows(lines: &[Line]) -> bool
    ensures { result ≡ pair_follows lines.now }
{
    for line in lines {
        match line.kind {
            Kind::Other => {}
            Kind::Header => return false,
            Kind::Pair => return true,
        }
    }
    false
}

/// Whether a line is the last of its section that is its header or a key.
fn ends_entries(line: &Line, later: &[Line]) -> bool
    ensures { result ≡ ends_entries line.now later.now }
{
    !matches!(line.kind, Kind::Other) && !pair_follows(later)
}

/// The key that is set, where a line is its pair.
fn set_key<'b>(eds: &Eds<'_>, line: &Line, keys: &'b [KeyLine]) -> Option<&'b KeyLine>
    requires { IsInside (length eds.now) line.now }
    ensures { option_copied result ≡ change_of keys.now (row_of eds.now line.now) }
{
    match keys {
        [] => None,
        [key, rest @ ..] => {
            if eds.is_keyed(line, key.section(), key.key()) {
                Some(key)
            } else {
                set_key(eds, line, rest)
            }
        }
    }
}

/// The bytes of a line: those of the key that is set, where the line is its pair.
fn body_of<'b>(eds: &Eds<'b>, line: &Line, keys: &'b [KeyLine]) -> &'b [u8]
    requires { IsInside (length eds.now) line.now }
    ensures { result.now ≡ (changed keys.now (row_of eds.now line.now)).body }
{
    match set_key(eds, line, keys) {
        Some(key) => key.line(),
        None => &eds.source()[line.from as usize..line.to as usize],
    }
}

/// Whether the section of a key has it not yet.
fn is_wanting(eds: &Eds<'_>, key: &KeyLine) -> bool
    ensures { result ≡ is_wanting eds.now key.now }
{
    eds.key_line(key.section(), key.key()).is_none()
}

/// Adds the lines of the keys that are not there yet.
fn put_new(
    text: &mut Vec<u8>,
    eds: &Eds<'_>,
    keys: &[KeyLine],
    newline: &[u8],
) -> Result<(), AllocError>
    ensures { OnOk result (text.new.items ≡ text.old.items ++ new_lines eds.now newline.now keys.now) }
{
    for key in keys {
        if is_wanting(eds, key) {
            text.extend_from_slice(key.line())?;
            text.extend_from_slice(newline)?;
        }
    }
    Ok(())
}

/// Adds a line with its end. One that others follow has an end, and CR as its last byte stays its own.
fn put_whole(
    text: &mut Vec<u8>,
    newline: &[u8],
    body: &[u8],
    ending: &[u8],
    is_followed: bool,
) -> Result<(), AllocError>
    ensures { OnOk result (text.new.items ≡ text.old.items ++ whole_line newline.now body.now ending.now is_followed) }
{
    text.extend_from_slice(body)?;
    if !is_followed || !ending.is_empty() {
        text.extend_from_slice(ending)?;
    } else if body.last() == Some(&b'\r') {
        text.extend_from_slice(b"\r\n")?;
    } else {
        text.extend_from_slice(newline)?;
    }
    Ok(())
}

/// Whether FileInfo or DeviceComissioning is absent.
fn is_extended(eds: &Eds<'_>) -> bool
    ensures { result ≡ is_extended eds.now }
{
    !(eds.section(b"FileInfo").is_some() && eds.section(b"DeviceComissioning").is_some())
}

/// Whether some key is not there yet.
fn some_wanting(eds: &Eds<'_>, keys: &[KeyLine]) -> bool
    ensures { result ≡ list_any (is_wanting eds.now) keys.now }
{
    keys.iter().any(|key| is_wanting(eds, key))
}

/// Whether new keys come behind a line.
fn adds_keys(eds: &Eds<'_>, keys: &[KeyLine], line: &Line, later: &[Line]) -> bool
    ensures { result ≡ adds_keys eds.now keys.now line.now later.now }
{
    ends_entries(line, later) && some_wanting(eds, keys)
}

/// Whether anything comes behind a line.
fn is_followed(eds: &Eds<'_>, adds: bool, later: &[Line]) -> bool
    ensures { result ≡ ((adds || not (length later.now == 0)) || is_extended eds.now) }
{
    (adds || !later.is_empty()) || is_extended(eds)
}

/// Adds what a line becomes, and the new keys behind it.
fn put_line(
    text: &mut Vec<u8>,
    eds: &Eds<'_>,
    keys: &[KeyLine],
    line: &Line,
    later: &[Line],
) -> Result<(), AllocError>
    requires { IsInside (length eds.now) line.now }
    ensures { OnOk result (text.new.items ≡ text.old.items ++ piece_of eds.now (newline_of (rows_of eds.now)) keys.now line.now later.now) }
{
    let newline = newline(eds);
    let adds = adds_keys(eds, keys, line, later);
    let body = body_of(eds, line, keys);
    let ending = &eds.source()[line.to as usize..line.next as usize];
    let is_followed = is_followed(eds, adds, later);
    put_whole(text, newline, body, ending, is_followed)?;
    if adds {
        put_new(text, eds, keys, newline)?;
    }
    Ok(())
}

/// The keys that are set in a section.
fn keys_in(table: &[SectionKeys], section: usize) -> &[KeyLine]
    ensures { result.now ≡ get_or table.now section [] }
{
    match table.get(section) {
        Some(keys) => keys.as_slice(),
        None => &[],
    }
}

/// Whether a line stands in the DCF as it is: no key of its section is set, and it has an end.
fn is_kept(keys: &[KeyLine], line: &Line) -> bool
    ensures none { result ≡ true → (length keys.now == 0) ≡ true }
    ensures ended { result ≡ true → line.now.to < line.now.next }
{
    keys.is_empty() && line.to < line.next
}

/// Lines that stand as they are, one behind the other: the bytes from one place to another.
#[derive(Clone, Copy)]
struct Run {
    from: usize,
    to: usize,
}

/// No line.
const NO_RUN: Run = Run { from: 0, to: 0 };

/// A run with the line behind it.
fn with_line(run: Run, line: &Line) -> Run
    ensures { (text : List ℕ) → IsRun text run → IsInside (length text) line.now → IsBehind run line.now → Extends text run line.now result }
{
    let from = if run.from == run.to {
        line.from as usize
    } else {
        run.from
    };
    Run {
        from,
        to: line.next as usize,
    }
}

/// Adds the lines of a run.
fn put_run(text: &mut Vec<u8>, eds: &Eds<'_>, run: Run) -> Result<(), AllocError>
    requires { IsRun eds.now run }
    ensures { OnOk result (text.new.items ≡ text.old.items ++ run_of eds.now run) }
{
    text.extend_from_slice(&eds.source()[run.from..run.to])
}

/// Adds what a line becomes behind a run, or takes it into the run, which is added later.
fn put_behind(
    text: &mut Vec<u8>,
    eds: &Eds<'_>,
    keys: &[KeyLine],
    line: &Line,
    later: &[Line],
    run: Run,
) -> Result<Run, AllocError>
    requires run { IsRun eds.now run }
    requires behind { IsBehind run line.now }
    requires inside { IsInside (length eds.now) line.now }
    ensures run { IfOk result (IsRun eds.now) }
    ensures to { IfOk result (λ left. left.from < left.to → left.to ≡ line.now.next) }
    ensures put { IfOk result (λ left. text.new.items ++ run_of eds.now left
        ≡ (text.old.items ++ run_of eds.now run) ++ piece_of eds.now (newline_of (rows_of eds.now)) keys.now line.now later.now) }
{
    if is_kept(keys, line) {
        return Ok(with_line(run, line));
    }
    put_run(text, eds, run)?;
    put_line(text, eds, keys, line, later)?;
    Ok(NO_RUN)
}

/// Adds what the lines become. Those that stand as they are, one behind the other, are added in one piece.
fn put_lines(text: &mut Vec<u8>, eds: &Eds<'_>, table: &[SectionKeys]) -> Result<(), AllocError>
    ensures { OnOk result (text.new.items ≡ text.old.items ++ pieces_of eds.now (newline_of (rows_of eds.now)) table.now (lines_of eds.now)) }
{
    let lines = eds.lines();
    let mut run = NO_RUN;
    for (at, line) in lines.iter().enumerate() {
        let keys = keys_in(table, line.section as usize);
        run = put_behind(text, eds, keys, line, &lines[at + 1..], run)?;
    }
    put_run(text, eds, run)
}

/// Adds a section of this name with the keys that are set in it.
fn put_section(
    text: &mut Vec<u8>,
    eds: &Eds<'_>,
    keys: &[KeyLine],
    name: &[u8],
) -> Result<(), AllocError>
    ensures { OnOk result (text.new.items ≡ text.old.items ++ section_of eds.now (newline_of (rows_of eds.now)) keys.now name.now) }
{
    let newline = newline(eds);
    text.push(b'[')?;
    text.extend_from_slice(name)?;
    text.push(b']')?;
    text.extend_from_slice(newline)?;
    put_new(text, eds, keys, newline)
}

/// Adds a section of this name, where it is absent.
fn put_absent(
    text: &mut Vec<u8>,
    eds: &Eds<'_>,
    keys: &[KeyLine],
    name: &[u8],
) -> Result<(), AllocError>
    ensures { OnOk result (text.new.items ≡ text.old.items ++ (if has_section eds.now name.now then [] else section_of eds.now (newline_of (rows_of eds.now)) keys.now name.now)) }
{
    match eds.section(name) {
        Some(_) => Ok(()),
        None => put_section(text, eds, keys, name),
    }
}

/// The DCF of a node: the EDS text, with the last value of each object that has a setting, the name of its file, and the
/// node with its name and rate. `Err` is want of memory.
pub fn write(
    alloc: Global,
    eds: &Eds<'_>,
    settings: &[Setting],
    node: u8,
    name: &[u8],
    rate: Rate,
    eds_name: &[u8],
) -> Result<Vec<u8>, AllocError>
    ensures { IfOk result (λ v. v.items ≡ dcf_of eds.now settings.now node name.now rate eds_name.now) }
{
    let table = section_keys(alloc, eds, settings, node, name, rate, eds_name)?;
    let mut text = begun(alloc, eds, settings)?;
    put_lines(&mut text, eds, &table)?;
    let (file, device) = named_sections(eds);
    put_absent(&mut text, eds, keys_in(&table, file), b"FileInfo")?;
    put_absent(
        &mut text,
        eds,
        keys_in(&table, device),
        b"DeviceComissioning",
    )?;
    Ok(text)
}
