//! A log that is read line by line.

ghost use Rattle.std.specs.Prelude.{◌≡◌, ◌+◌};
ghost use Rattle.cop_lines.specs.Reader.{begun, knowing, with_moment, nothing, is_of_vector, is_in_columns, form_of_candump, form_of, without_mark, moment_of, moment_behind, without_cr, has_words, is_first, first_step, log_step, column_step, event_step, vector_step, peak_step, step_by, step, message_in, reader_behind, bus_in, channel_by};

use crate::entries::Message;
use crate::faults::LineFault;
use crate::forms::{Form, Layout};
use crate::lines::{logged_in, stamp_in};
use crate::numbers::{Base, decimal_in, moment};
use crate::words::{after, back, begins, field, front, place_in, word};
use crate::{columns, peak, vector};

/// Reads the lines of a log in any of its forms, of which the first line that is not blank tells which it is.
#[derive(Clone, Copy, PartialEq, Eq, Debug)]
pub struct LineReader {
    form: Form,
    // Whether the stamps of a log in columns are distances from the line before.
    are_distances: bool,
    // The microsecond of the line before, where stamps are distances.
    at: u64,
}

/// What a line makes of a reader, and its frame if it has one.
#[derive(Clone, Copy)]
pub(crate) struct Reading {
    pub(crate) reader: LineReader,
    pub(crate) message: Option<Message>,
}

fn is_of_vector(text: &[u8]) -> bool
    ensures { result ≡ is_of_vector text.now }
{
    text == b"date".as_slice() || text == b"base".as_slice() || begins(b"//", text)
}

fn is_in_columns(line: &[u8]) -> bool
    ensures { result ≡ is_in_columns line.now }
{
    let frame = field(2, line);
    place_in(b'#', frame) == frame.len()
}

fn form_of_candump(line: &[u8]) -> Form
    ensures { result ≡ form_of_candump line.now }
{
    if is_in_columns(line) {
        Form::Columns
    } else {
        Form::Log
    }
}

// The form that a line tells.
#[tactic(auto, unfolding(crate::specs::Reader::form_of))]
fn form_of(line: &[u8]) -> Result<Form, LineFault>
    ensures { result ≡ form_of line.now }
{
    let first = word(line);
    if first.is_empty() {
        return Ok(Form::Unknown);
    }
    if begins(b";", first) {
        return Ok(Form::Peak {
            layout: peak::first_layout(),
        });
    }
    if is_of_vector(first) {
        return Ok(Form::Vector {
            base: Base::Hexadecimal,
            are_distances: false,
        });
    }
    if begins(b"(", first) {
        return Ok(form_of_candump(line));
    }
    Err(LineFault::Form)
}

// A text without the mark of UTF-8, which may stand in front of it.
#[tactic(auto, unfolding(crate::specs::Reader::without_mark))]
fn without_mark(text: &[u8]) -> &[u8]
    ensures { result.now ≡ without_mark text.now }
{
    if begins(&[0xEF, 0xBB, 0xBF], text) {
        &text[3..]
    } else {
        text
    }
}

fn with_moment(reader: LineReader, at: u64) -> LineReader
    ensures { result ≡ with_moment reader at }
{
    LineReader {
        form: reader.form,
        are_distances: reader.are_distances,
        at,
    }
}

fn knowing(reader: LineReader, form: Form) -> LineReader
    ensures { result ≡ knowing reader form }
{
    LineReader {
        form,
        are_distances: reader.are_distances,
        at: reader.at,
    }
}

fn nothing(reader: LineReader) -> Reading
    ensures { result ≡ nothing reader }
{
    Reading {
        reader,
        message: None,
    }
}

// The moment of a line by its stamp.
#[tactic(auto, unfolding(crate::specs::Reader::moment_of))]
fn moment_of(are_distances: bool, before: u64, stamp: u64) -> Result<u64, LineFault>
    ensures { result ≡ moment_of are_distances before stamp }
{
    if are_distances {
        moment(u128::from(before) + u128::from(stamp))
    } else {
        Ok(stamp)
    }
}

// The moment of a line by its stamp, which may be a distance, that is below an hour.
#[tactic(auto, unfolding(crate::specs::Reader::moment_behind))]
fn moment_behind(are_distances: bool, before: u64, stamp: u64) -> Result<u64, LineFault>
    ensures { result ≡ moment_behind are_distances before stamp }
{
    if !are_distances {
        return Ok(stamp);
    }
    if stamp >= 3_600_000_000 {
        return Err(LineFault::Distance);
    }
    moment(u128::from(before) + u128::from(stamp))
}

// A CR at the end belongs to the end of the line.
fn without_cr(line: &[u8]) -> &[u8]
    ensures { result.now ≡ without_cr line.now }
{
    if !line.is_empty() && line[line.len() - 1] == b'\r' {
        &line[..line.len() - 1]
    } else {
        line
    }
}

#[tactic(auto, unfolding(crate::specs::Reader::log_step))]
fn log_step(reader: LineReader, line: &[u8]) -> Result<Reading, LineFault>
    ensures { result ≡ log_step reader line.now }
{
    if word(line).is_empty() {
        return Ok(nothing(reader));
    }
    let message = logged_in(without_cr(line))?;
    Ok(Reading {
        reader,
        message: Some(message),
    })
}

// With -e the words of an error frame stand behind it, each behind a tab in a line of its own.
fn has_words(line: &[u8]) -> bool
    ensures { result ≡ has_words line.now }
{
    begins(b"\t", line)
}

#[tactic(auto, unfolding(crate::specs::Reader::column_step))]
fn column_step(reader: LineReader, line: &[u8]) -> Result<Reading, LineFault>
    ensures { result ≡ column_step reader line.now }
{
    let first = word(line);
    if first.is_empty() || has_words(line) {
        return Ok(nothing(reader));
    }
    let stamp = stamp_in(first)?;
    let at = moment_behind(reader.are_distances, reader.at, stamp)?;
    let message = columns::frame_in(at, columns::from_id(line))?;
    Ok(Reading {
        reader: with_moment(reader, at),
        message: Some(message),
    })
}

#[tactic(auto, unfolding(crate::specs::Reader::event_step))]
fn event_step(
    base: Base,
    are_distances: bool,
    reader: LineReader,
    line: &[u8],
) -> Result<Reading, LineFault>
    ensures { result ≡ event_step base are_distances reader line.now }
{
    let stamp = decimal_in(6, word(line))?;
    let at = moment_of(are_distances, reader.at, stamp)?;
    let message = vector::event_in(base, at, after(1, line))?;
    Ok(Reading {
        reader: with_moment(reader, at),
        message,
    })
}

#[tactic(auto, unfolding(crate::specs::Reader::vector_step))]
fn vector_step(
    base: Base,
    are_distances: bool,
    reader: LineReader,
    line: &[u8],
) -> Result<Reading, LineFault>
    ensures { result ≡ vector_step base are_distances reader line.now }
{
    let first = word(line);
    if first.is_empty() || vector::is_header(first) {
        return Ok(nothing(reader));
    }
    if first == b"base".as_slice() {
        let form = vector::base_in(line)?;
        return Ok(nothing(knowing(reader, form)));
    }
    event_step(base, are_distances, reader, line)
}

#[tactic(auto, unfolding(crate::specs::Reader::peak_step))]
fn peak_step(layout: Layout, reader: LineReader, line: &[u8]) -> Result<Reading, LineFault>
    ensures { result ≡ peak_step layout reader line.now }
{
    let first = word(line);
    if first.is_empty() {
        return Ok(nothing(reader));
    }
    if begins(b";", first) {
        let layout = peak::header_in(layout, first)?;
        return Ok(nothing(knowing(reader, Form::Peak { layout })));
    }
    let message = peak::line_in(layout, line)?;
    Ok(Reading { reader, message })
}

#[tactic(auto, unfolding(crate::specs::Reader::step_by))]
fn step_by(form: Form, reader: LineReader, line: &[u8]) -> Result<Reading, LineFault>
    ensures { result ≡ step_by form reader line.now }
{
    match form {
        Form::Unknown => Ok(nothing(reader)),
        Form::Log => log_step(reader, line),
        Form::Columns => column_step(reader, line),
        Form::Vector {
            base,
            are_distances,
        } => vector_step(base, are_distances, reader, line),
        Form::Peak { layout } => peak_step(layout, reader, line),
    }
}

// The first distance is 0, since no line stands before it.
fn is_first(form: Form, reader: LineReader) -> bool
    ensures { result ≡ is_first form reader }
{
    match form {
        Form::Columns => !reader.are_distances || reader.at == 0,
        Form::Unknown | Form::Log | Form::Vector { .. } | Form::Peak { .. } => true,
    }
}

// What the line that tells the form makes of a reader.
#[tactic(auto, unfolding(crate::specs::Reader::first_step))]
fn first_step(reader: LineReader, line: &[u8]) -> Result<Reading, LineFault>
    ensures { result ≡ first_step reader line.now }
{
    let form = form_of(line)?;
    let reading = step_by(form, knowing(reader, form), line)?;
    if is_first(form, reading.reader) {
        Ok(reading)
    } else {
        Err(LineFault::Distance)
    }
}

// What a line makes of a reader.
#[tactic(auto, unfolding(crate::specs::Reader::step))]
fn step(reader: LineReader, line: &[u8]) -> Result<Reading, LineFault>
    ensures { result ≡ step reader line.now }
{
    match reader.form {
        Form::Unknown => first_step(reader, without_mark(line)),
        Form::Log | Form::Columns | Form::Vector { .. } | Form::Peak { .. } => {
            step_by(reader.form, reader, line)
        }
    }
}

fn bus_in(column: Option<usize>, line: &[u8]) -> &[u8]
    ensures { result.now ≡ bus_in column line.now }
{
    match column {
        Some(column) => field(column, line),
        None => b"1".as_slice(),
    }
}

#[tactic(auto, unfolding(crate::specs::Reader::channel_by))]
fn channel_by(form: Form, line: &[u8]) -> &[u8]
    ensures { result.now ≡ channel_by form line.now }
{
    match form {
        Form::Unknown => &[],
        Form::Log => front(b' ', back(b' ', line)),
        Form::Columns => field(1, line),
        Form::Vector { .. } => vector::bus_in(line),
        Form::Peak { layout } => bus_in(layout.bus, line),
    }
}

impl LineReader {
    /// A reader of a log of which no line was read. `are_distances` says that, where the log is one in columns, each stamp is the distance
    /// from the line before, as `candump -td` writes it; no other form is told so.
    pub fn new(are_distances: bool) -> LineReader
        ensures { result ≡ begun are_distances }
    {
        LineReader {
            form: Form::Unknown,
            are_distances,
            at: 0,
        }
    }

    /// Reads the next line: its frame with the microsecond of its stamp, or nothing where it has none, as a header, a comment or another
    /// event. A line that is refused changes nothing.
    pub fn read(&mut self, line: &[u8]) -> Result<Option<Message>, LineFault>
        ensures read { result ≡ message_in self.old line.now }
        ensures behind { self.new ≡ reader_behind self.old line.now }
    {
        let next = step(*self, line)?;
        *self = next.reader;
        Ok(next.message)
    }

    /// The channel of a line whose frame was read last.
    pub fn channel_in<'a>(&self, line: &'a [u8]) -> &'a [u8]
        ensures { result.now ≡ channel_by self.now.form line.now }
    {
        channel_by(self.form, line)
    }
}
