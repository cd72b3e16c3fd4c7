//! A log of a real bus, watched by the plan of its network.

use cop_answers::{Inputs, distances_table};
use cop_documents::watch_document;
use cop_engine::none_passes;
use cop_files::{
    Failure, Form, Use, file_failure, open_file, print, print_document, read_network, tell,
    write_file,
};
use cop_log::Clock;
use cop_logbook::{Logbook, Nobody, Onlooker, WatchFault};
use cop_orders::WatchOrder;
use cop_plan::{Outcome, Plan};
use std::io::{self, Read};
use std::time::{Duration, Instant};

/// Tells breaches on standard error as they come.
#[derive(Clone, Copy)]
struct Teller<'r> {
    rt: &'r HostRuntime,
    told: usize,
}

impl Onlooker for Teller<'_> {
    fn look(&mut self, book: &Logbook<'_>) {
        let Some(new) = book.told().get(self.told..) else {
            return;
        };
        if !new.is_empty() {
            self.told = book.told().len();
            tell(self.rt, book.lines_of(new).map(String::into_bytes));
        }
    }
}

/// The log that a reader has, watched by a plan as an order says.
fn watched_in<'p, R: Read + Drop, L: Onlooker>(
    rt: &HostRuntime,
    order: WatchOrder<'_>,
    plan: &'p Plan,
    reader: R,
    onlooker: &mut L,
) -> Result<Logbook<'p>, Failure> {
    let clock = Clock {
        error: order.error,
        drift: order.drift,
    };
    let (alloc, channel) = (rt.alloc(), order.channel);
    match cop_logbook::watched(
        alloc,
        plan,
        clock,
        channel,
        order.are_distances,
        reader,
        onlooker,
    ) {
        Ok(book) => Ok(book),
        Err(WatchFault::Book(fault)) => Err(Failure::from(fault)),
        Err(WatchFault::Read(error)) => Err(file_failure(rt, order.log, Use::Read, &error)),
    }
}

/// A reader that ends once a time has passed.
#[derive(Drop)]
struct Until<'r, R: Drop> {
    rt: &'r HostRuntime,
    reader: R,
    began: Instant,
    limit: Duration,
}

impl<R: Read + Drop> Read for Until<'_, R> {
    fn read(&mut self, buf: &mut [u8]) -> io::Result<usize> {
        if self.began.elapsed(self.rt)? >= self.limit {
            return Ok(0);
        }
        self.reader.read(buf)
    }
}

/// The log that a reader has, watched by a plan for as long as an order says.
fn watched_for<'p, R: Read + Drop, L: Onlooker>(
    rt: &HostRuntime,
    order: WatchOrder<'_>,
    plan: &'p Plan,
    reader: R,
    onlooker: &mut L,
) -> Result<Logbook<'p>, Failure> {
    let Some(seconds) = order.limit else {
        return watched_in(rt, order, plan, reader, onlooker);
    };
    match Instant::now(rt) {
        Ok(began) => {
            let limit = Duration::from_secs(seconds);
            let reader = Until {
                rt,
                reader,
                began,
                limit,
            };
            watched_in(rt, order, plan, reader, onlooker)
        }
        Err(error) => Err(file_failure(rt, order.log, Use::Read, &error)),
    }
}

/// The log of an order, watched by a plan. One in which no frame is of the channel is refused. Of standard input, which may come as the
/// bus goes, each breach is told at once.
pub(crate) fn watched<'p>(
    rt: &HostRuntime,
    order: WatchOrder<'_>,
    plan: &'p Plan,
) -> Result<Logbook<'p>, Failure> {
    if order.log == "-" {
        watched_for(rt, order, plan, rt.stdin(), &mut Teller { rt, told: 0 })
    } else {
        watched_for(rt, order, plan, open_file(rt, order.log)?, &mut Nobody)
    }
}

/// Writes a table of what a log shows of each stream into a file, if one is wanted.
fn write_table(rt: &HostRuntime, csv: Option<&str>, book: &Logbook<'_>) -> Result<(), Failure> {
    let Some(out) = csv else {
        return Ok(());
    };
    let table = distances_table(rt.alloc(), book)?;
    write_file(rt, out, table.as_bytes())
}

/// Says what a log shows in a form, and gives the status.
fn tell_book(rt: &HostRuntime, form: Form, book: &Logbook<'_>) -> Result<u8, Failure> {
    if form == Form::Document {
        print_document(rt, &watch_document(rt.alloc(), Some(book))?)?;
    } else {
        print(rt, book.finish()?.as_bytes())?;
    }
    Ok(if book.breaches() == 0 { 0 } else { 3 })
}

/// Watches the log of an order by a plan, writes its table if one is wanted, says what it shows, and gives the status.
fn watch_by(
    rt: &HostRuntime,
    order: WatchOrder<'_>,
    csv: Option<&str>,
    form: Form,
    plan: &Plan,
) -> Result<u8, Failure> {
    let book = watched(rt, order, plan)?;
    write_table(rt, csv, &book)?;
    tell_book(rt, form, &book)
}

/// Says in a form that no rate passes, and gives the status.
fn tell_no_plan(rt: &HostRuntime, form: Form) -> Result<u8, Failure> {
    if form == Form::Document {
        print_document(rt, &watch_document(rt.alloc(), None)?)?;
    } else {
        print(rt, &none_passes(rt.alloc())?)?;
    }
    Ok(4)
}

/// Watches a log by the plan of a network, writes a table of its streams if a file for it is named, and then says what it shows. Where no
/// rate passes, that is said, and nothing is written. Memory does not grow with the log.
#[inline(never)]
pub fn watch_bus(
    rt: &HostRuntime,
    order: WatchOrder<'_>,
    csv: Option<&str>,
    form: Form,
    inputs: &mut Inputs,
) -> Result<u8, Failure> {
    let tables = read_network(rt, &mut inputs.network, order.network)?;
    let planned = inputs.network.planned(rt.alloc(), &tables)?;
    let (_network, outcome) = planned.parts();
    match outcome {
        Outcome::Planned(plan) => watch_by(rt, order, csv, form, plan),
        Outcome::Refused(_) => tell_no_plan(rt, form),
    }
}
