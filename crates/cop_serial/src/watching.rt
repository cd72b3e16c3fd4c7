//! A bus is watched at a port by the plan of its network, and nothing is sent.

ghost use Rattle.std.specs.Prelude.{◌≡◌, IfErr};
ghost use Rattle.cop_serial.specs.Boots.{FailsBy};
ghost use Rattle.cop_serial.specs.Watching.{refused_as};

use crate::serial::{SECOND, Serial, open_serial};
use crate::telling::{answer, line_failure, refusal, say, tell_adapter, unopened_refusal};
use cop_answers::{GARBLED, Inputs, distances_table};
use cop_documents::watch_document;
use cop_engine::none_passes;
use cop_files::{Failure, Form, Use, file_failure, read_network, write_file};
use cop_frame::Frame;
use cop_listen::{Listened, Listener, listen};
use cop_log::Clock;
use cop_logbook::{BookFault, Logbook};
use cop_orders::ListenOrder;
use cop_plan::{Outcome, Plan};
use cop_slcan::Said;
use std::alloc::{AllocError, Global};

/// The number of the rule that a log has a frame.
const NO_FRAME: u8 = 94;

/// A microsecond has so many ticks.
const MICROSECOND: u64 = 4;

/// A second has so many microseconds.
const MICROSECONDS: u64 = 1_000_000;

/// The line of candump for a frame that was read at a moment, in ticks.
fn line_of(alloc: Global, now: u64, frame: &Frame) -> Result<String, AllocError> {
    let at = now / MICROSECOND;
    let (seconds, micros, id) = (at / MICROSECONDS, at % MICROSECONDS, frame.id);
    let mut line = format!(in alloc; "({seconds}.{micros:06}) can0 {id:03X}#")?;
    for byte in frame.data() {
        write!(line, "{byte:02X}")?;
    }
    line.push_str("\n")?;
    Ok(line)
}

/// A bus that is watched frame by frame: what is known of it, how many of its breaches were said, how many lines were no frames, and why it is
/// not watched on.
#[derive(Drop)]
struct Watched<'a> {
    rt: &'a HostRuntime,
    book: Logbook<'a>,
    said: usize,
    others: u64,
    fault: Option<BookFault>,
}

/// Says the breaches of a bus behind those that were said, as a log of it would have them.
fn say_new(rt: &HostRuntime, book: &Logbook<'_>, said: usize) -> Result<(), AllocError> {
    let Some(new) = book.told().get(said..) else {
        return Ok(());
    };
    if !new.is_empty() {
        say(rt, book.lines_of(new)?.as_bytes());
    }
    Ok(())
}

impl Watched<'_> {
    /// Takes a frame that was read at a moment.
    fn take(&mut self, now: u64, frame: &Frame) -> Result<(), BookFault> {
        let line = line_of(self.rt.alloc(), now, frame)?;
        self.book.take_piece(line.as_bytes())?;
        let (rt, said) = (self.rt, self.said);
        say_new(rt, &self.book, said)?;
        self.said = self.book.told().len();
        Ok(())
    }
}

impl Listener for Watched<'_> {
    ghost hears = { λ _ _ _ _. Unit {0} };

    ghost ends = { λ _ _. Unit {0} };

    fn hear(&mut self, now: u64, said: &Said) {
        match said {
            Said::Heard(frame) if self.fault.is_none() => {
                self.fault = self.take(now, frame).err();
            }
            Said::Other => self.others = self.others.saturating_add(1),
            Said::Heard(_) | Said::Done | Said::Refused => {}
        }
    }

    fn has_enough(&self) -> bool {
        self.fault.is_some()
    }
}

/// Gives what was seen of a bus in a form, or that no rate passes where there is none.
fn answer_in(
    rt: &HostRuntime,
    port: &str,
    form: Form,
    book: Option<&Logbook<'_>>,
) -> Result<(), Failure> {
    if form == Form::Document {
        let document = watch_document(rt.alloc(), book)?;
        return answer(rt, port, format!(in rt.alloc(); "{document}\n")?.as_bytes());
    }
    match book {
        Some(book) => answer(rt, port, book.finish()?.as_bytes()),
        None => answer(rt, port, &none_passes(rt.alloc())?),
    }
}

/// The refusal where no frame was heard: of lines that are none, or of none at all.
fn unheard_refusal(rt: &HostRuntime, watched: &Watched<'_>) -> Failure {
    if watched.others > 0 {
        return refusal(GARBLED, watched.others, None);
    }
    let line = format!(in rt.alloc();
        "no frame was heard: look at the bit rate of the devices, which may be another, at wires and termination, and at the port\n"
    );
    refusal(NO_FRAME, 0, line.ok())
}

/// Gives what was seen of a bus, writes its table if one is wanted, and gives the status: 3 if it breaks the tables.
fn tell_book(
    rt: &HostRuntime,
    order: ListenOrder<'_>,
    form: Form,
    watched: &Watched<'_>,
) -> Result<u8, Failure> {
    let book = &watched.book;
    if book.all().frames == 0 {
        return Err(unheard_refusal(rt, watched));
    }
    if let Some(out) = order.csv {
        write_file(rt, out, distances_table(rt.alloc(), book)?.as_bytes())?;
    }
    answer_in(rt, order.port, form, Some(book))?;
    Ok(if book.breaches() == 0 { 0 } else { 3 })
}

/// Tells of a line that ended. It is no failure if it was to be listened until then, and frames were heard; otherwise what was seen is given before
/// the failure, unless the answer is one document.
fn tell_ended(
    rt: &HostRuntime,
    order: ListenOrder<'_>,
    form: Form,
    watched: &Watched<'_>,
    port: &Serial<'_>,
) -> Result<u8, Failure> {
    let has_heard = watched.book.all().frames > 0;
    if order.limit.is_none() && has_heard {
        say(rt, b"canplan: the line to the adapter has ended\n");
        return tell_book(rt, order, form, watched);
    }
    if form != Form::Document && has_heard {
        answer_in(rt, order.port, form, Some(&watched.book))?;
    }
    Err(line_failure(rt, order.port, port))
}

/// Tells what came of it, and gives its status.
fn tell_watched(
    rt: &HostRuntime,
    order: ListenOrder<'_>,
    form: Form,
    listened: Listened,
    watched: &Watched<'_>,
    port: &Serial<'_>,
) -> Result<u8, Failure>
    ensures fails { IfErr result (λ failure. FailsBy (refused_as listened) failure.fault) }
{
    match listened {
        Listened::Ended { .. } => match watched.fault {
            Some(fault) => Err(Failure::from(fault)),
            None => tell_book(rt, order, form, watched),
        },
        Listened::Unopened { command } => {
            Err(unopened_refusal(rt, command, watched.book.plan().rate()))
        }
        Listened::Failed => tell_ended(rt, order, form, watched, port),
    }
}

/// A bus of which nothing was heard yet, watched by a plan as an order says.
fn unheard<'a>(
    rt: &'a HostRuntime,
    order: ListenOrder<'_>,
    plan: &'a Plan,
) -> Result<Watched<'a>, AllocError> {
    let clock = Clock {
        error: order.error,
        drift: order.drift,
    };
    Ok(Watched {
        rt,
        book: Logbook::new(rt.alloc(), plan, clock, None, false)?,
        said: 0,
        others: 0,
        fault: None,
    })
}

/// Listens at a port to a bus of which nothing was heard yet, and tells what came of it.
fn listen_to(
    rt: &HostRuntime,
    order: ListenOrder<'_>,
    form: Form,
    watched: &mut Watched<'_>,
) -> Result<u8, Failure> {
    let mut port = match open_serial(rt, order.port, u64::MAX) {
        Ok(port) => port,
        Err(error) => return Err(file_failure(rt, order.port, Use::Read, &error)),
    };
    if form == Form::Told {
        say(rt, b"canplan: listening only; nothing is sent\n");
    }
    let limit = order.limit.map(|seconds| seconds.saturating_mul(SECOND));
    let rate = watched.book.plan().rate();
    let listened = listen(rate, limit, &mut port, watched);
    tell_adapter(rt, &port);
    tell_watched(rt, order, form, listened, watched, &port)
}

/// Watches the bus at a port by a plan.
fn watch_by(
    rt: &HostRuntime,
    order: ListenOrder<'_>,
    form: Form,
    plan: &Plan,
) -> Result<u8, Failure> {
    let mut watched = unheard(rt, order, plan)?;
    listen_to(rt, order, form, &mut watched)
}

/// Watches the bus at a port by the plan of a network, says each breach as it comes, and at the end what was seen. No frame is sent. Where no
/// rate passes, that is said, and the port is not opened. Memory does not grow with the time.
#[inline(never)]
pub fn watch_port(
    rt: &HostRuntime,
    order: ListenOrder<'_>,
    form: Form,
    inputs: &mut Inputs,
) -> Result<u8, Failure> {
    let tables = read_network(rt, &mut inputs.network, order.network)?;
    let planned = inputs.network.planned(rt.alloc(), &tables)?;
    let (_network, outcome) = planned.parts();
    match outcome {
        Outcome::Planned(plan) => watch_by(rt, order, form, plan),
        Outcome::Refused(_) => {
            answer_in(rt, order.port, form, None)?;
            Ok(4)
        }
    }
}
