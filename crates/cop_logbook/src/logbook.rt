//! A log that is watched, line by line, and what is said of it at its end.

ghost use Rattle.std.specs.Prelude.{◌≡◌, ◌<◌, ◌↔◌, [], IfOk, IsOk, OnOk, IfErr, MatchResult};
ghost use Rattle.std.specs.Option.{option_copied};
ghost use Rattle.cop_log.specs.Reading.{name_of, unended};
ghost use Rattle.cop_logbook.specs.declared.logbook.BookFault.TheVariants.{Refused, Memory};
ghost use Rattle.std.specs.String.{string_bytes};
ghost use Rattle.cop_logbook.specs.Words.{verdict, AreLines};
ghost use Rattle.cop_logbook.specs.Books.{IsSaid, book_fault, Begins, Takes, Refuses, IsWith, Counts, Tells, Notes, Ends};

use crate::breaches::{Breach, Breaches, Broken, lines_of};
use crate::disturbed::{is_error, tested_entry};
use crate::heartbeats::{LateHeartbeat, late_heartbeat};
use crate::loads::Loads;
use crate::noticed::Notices;
use crate::seen::{Seen, least_bits_of};
use crate::spread::Spread;
use crate::strangers::Stranger;
use cop_lines::{Entry, Message};
use cop_log::{Clock, LogFault, LogReader, Scene, Told, Watcher, bounds_of};
use cop_plan::Plan;
use cop_rta::Stream;
use std::alloc::{AllocError, Global};
use std::collections::BTreeMap;

/// The number of the rule that a log has a line of the channel.
const NO_LINE: u8 = 94;

/// The load of a bus that is full, in hundredths of a percent.
const WHOLE: u64 = 10_000;

/// How many identifiers that no stream can have are counted each by itself.
const MOST_OTHERS: usize = 1000;

/// How many identifiers streams can have.
const IDS: u16 = 2048;

/// Why a log is not watched on.
#[derive(Clone, Copy, Debug, PartialEq, Eq)]
pub enum BookFault {
    /// The number of the rule that is broken, and the line, from 1; 0 where no line is of the channel.
    Refused { number: u8, line: u64 },
    /// There is not enough memory.
    Memory,
}

impl From<AllocError> for BookFault {
    ghost from_gives = { λ _ fault. fault ≡ Memory };

    fn from(_error: AllocError) -> BookFault {
        BookFault::Memory
    }
}

impl From<LogFault> for BookFault {
    ghost from_gives = { λ wrong fault. fault ≡ book_fault wrong };

    fn from(fault: LogFault) -> BookFault {
        match fault {
            LogFault::Line { number, fault } => BookFault::Refused {
                number: fault.number(),
                line: number,
            },
            LogFault::Memory => BookFault::Memory,
        }
    }
}

/// The bytes of a channel's name.
fn bytes_of(alloc: Global, channel: Option<&str>) -> Result<Option<Vec<u8>>, AllocError>
    ensures { IfOk result (λ bytes. name_of bytes ≡ option_copied channel.entry) }
{
    match channel {
        Some(name) => {
            let mut bytes = Vec::new(alloc);
            bytes.extend_from_slice(name.as_bytes())?;
            Ok(Some(bytes))
        }
        None => Ok(None),
    }
}

/// How what is said of a log ends, which has so many breaches.
fn verdict_of(alloc: Global, count: u64) -> Result<String, AllocError>
    ensures { IfOk result (λ text. string_bytes text ≡ verdict count) }
{
    if count == 0 {
        format!(in alloc; "keeps to the tables\n")
    } else {
        format!(in alloc; "breaches {count}\n")
    }
}

/// The plan on the bus alone, if its streams count disturbed transfers.
fn bus_of(alloc: Global, plan: &Plan) -> Result<Option<Plan>, AllocError> {
    if plan.streams().errors().is_none() {
        return Ok(None);
    }
    Ok(Some(plan.on_bus(alloc)?))
}

/// A log that is watched.
#[derive(Drop)]
pub struct Logbook<'a> {
    alloc: Global,
    plan: &'a Plan,
    // The plan on the bus alone, where it is another.
    bus: Option<Plan>,
    clock: Clock,
    watcher: Watcher<'a>,
    log: LogReader,
    all: Seen,
    // By identifier, and of each stream how its frames are spread.
    seen: Vec<Seen>,
    spreads: Vec<Spread>,
    loads: Loads,
    others: BTreeMap<u32, Seen>,
    // The error frames, where the plan counts disturbed transfers.
    disturbed: Seen,
    breaches: Breaches,
    notices: Notices,
}

impl<'a> Logbook<'a> {
    /// A log of no line yet. Where the plan counts disturbed transfers, each error frame is one of these. `are_distances` says that the stamps of a log in columns are distances, as `candump -td` writes them.
    pub fn new(
        alloc: Global,
        plan: &'a Plan,
        clock: Clock,
        channel: Option<&str>,
        are_distances: bool,
    ) -> Result<Logbook<'a>, AllocError>
        ensures { IfOk result (λ book. Begins plan.now clock (record { channel = option_copied channel.entry; are_distances = are_distances }) book) }
    {
        let (streams, rate) = (plan.streams(), plan.rate());
        let _distinct = streams.streams();
        let bounds = bounds_of(alloc, streams, rate)?;
        let count = bounds.len();
        let watcher = Watcher::new(alloc, streams, bounds, rate, clock)?;
        let wanted = bytes_of(alloc, channel)?;
        Ok(Logbook {
            alloc,
            plan,
            bus: bus_of(alloc, plan)?,
            clock,
            watcher,
            log: LogReader::new(alloc, wanted, are_distances),
            all: Seen::NOTHING,
            seen: vec![in alloc; Seen::NOTHING; usize::from(IDS)]?,
            spreads: vec![in alloc; Spread::NOTHING; count]?,
            loads: Loads::new(alloc)?,
            others: BTreeMap::new(alloc),
            disturbed: Seen::NOTHING,
            breaches: Breaches::new(alloc)?,
            notices: Notices::new(alloc),
        })
    }

    /// How many breaches there are.
    pub fn breaches(&self) -> u64
        ensures { result ≡ self.now.breaches.count }
    {
        self.breaches.count()
    }

    /// The breaches that are told: of each identifier the first 20, and as many of all that no stream can have.
    pub fn told(&self) -> &[Breach]
        ensures { result.now ≡ self.now.breaches.told.items }
    {
        self.breaches.told()
    }

    /// The words of the breaches that are told, a line each.
    pub fn words(&self) -> Result<String, AllocError>
        ensures { IfOk result (λ text. AreLines self.now.breaches.told.items (string_bytes text)) }
    {
        self.lines_of(self.told())
    }

    /// The words of breaches, a line each.
    pub fn lines_of(&self, breaches: &[Breach]) -> Result<String, AllocError>
        ensures { IfOk result (λ text. AreLines breaches.now (string_bytes text)) }
    {
        lines_of(self.alloc, self.clock, breaches)
    }

    /// What was noticed that breaks nothing.
    pub fn notices(&self) -> &Notices {
        &self.notices
    }

    /// What is taken of the log's clock.
    pub fn clock(&self) -> Clock {
        self.clock
    }

    /// What was seen of all identifiers.
    pub fn all(&self) -> &Seen {
        &self.all
    }

    /// What was seen of an identifier that a stream can have.
    pub fn seen(&self, id: u16) -> Option<&Seen> {
        self.seen.get(usize::from(id))
    }

    /// How the frames of the stream at a place of the plan are spread.
    pub fn spread_of(&self, place: usize) -> Option<&Spread> {
        self.spreads.get(place)
    }

    /// The bus over the time of the log.
    pub fn loads(&self) -> &Loads {
        &self.loads
    }

    /// The plan that the log is watched by, as the bus has it.
    pub fn plan(&self) -> &Plan {
        match &self.bus {
            Some(bus) => bus,
            None => self.plan,
        }
    }

    /// How rare disturbed transfers are to be, if the plan counts them.
    pub fn errors(&self) -> Option<Stream> {
        self.watcher.errors()
    }

    /// What was seen of the error frames, where the plan counts disturbed transfers.
    pub fn disturbed(&self) -> &Seen {
        &self.disturbed
    }

    /// The place of the stream of an identifier.
    fn place_of(&self, id: u32) -> Option<usize> {
        match u16::try_from(id) {
            Ok(id) => self.plan().streams().place_of(id),
            Err(_) => None,
        }
    }

    /// Takes the next piece of the log, of any length. Where a line is refused, nothing more is to be taken.
    pub fn take_piece(&mut self, piece: &[u8]) -> Result<(), BookFault>
        ensures { MatchResult result (λ _. Takes self.old piece.now self.new []) (Refuses self.old piece.now) }
    {
        let mut rest = piece;
        'frames: while let Some(found) = self.log.next(rest)? {
            self.take_message(&found.message)?;
            rest = found.rest;
        }
        Ok(())
    }

    /// Once all pieces were taken: the number of the last line, where it has no end. It may be cut, and was left out.
    pub fn unended(&self) -> Option<u64>
        ensures { result ≡ unended self.now.log }
    {
        self.log.unended()
    }

    fn take_message(&mut self, message: &Message) -> Result<(), AllocError>
        ensures { OnOk result (Notes message.now.entry self.old self.new) }
    {
        let entry = &message.entry;
        let place = self.place_of(entry.id);
        self.count(entry, place)?;
        let tested = tested_entry(self.watcher.errors(), entry);
        let scene = self.watcher.scene(&tested);
        let told = self.watcher.take(&tested);
        self.tell(entry, &scene, &told)?;
        self.notice(message)?;
        Ok(())
    }

    /// Notices what is worth a word and breaks nothing.
    fn notice(&mut self, message: &Message) -> Result<(), AllocError>
        ensures { IsWith self.old self.new self.old.log }
    {
        let len = usize::from(message.entry.len).min(8);
        match u16::try_from(message.entry.id) {
            Ok(id) => self.notices.note(self.log.line(), id, &message.body[..len]),
            Err(_) => Ok(()),
        }
    }

    /// Counts an entry, whose identifier's stream is at this place.
    fn count(&mut self, entry: &Entry, place: Option<usize>) -> Result<(), AllocError>
        ensures { OnOk result (Counts self.old self.new) }
    {
        let line = self.log.line();
        let _ = self.all.note(line, entry.at, entry.len);
        self.loads.note(entry.at, least_bits_of(entry.len));
        let Some(seen) = self.seen.get_mut(entry.id as usize) else {
            return self.count_other(entry);
        };
        let distance = seen.note(line, entry.at, entry.len);
        if let (Some(place), Some(distance)) = (place, distance) {
            self.spread(place, distance);
        }
        Ok(())
    }

    /// Counts the distance of two frames of a stream.
    fn spread(&mut self, place: usize, distance: u64)
        ensures { IsWith self.old self.new self.old.log }
    {
        let Some(stream) = self.plan().streams().streams().get(place) else {
            return;
        };
        let period = stream.period / 4;
        if let Some(spread) = self.spreads.get_mut(place) {
            spread.note(distance, period);
        }
    }

    /// Counts an entry whose identifier no stream can have.
    fn count_other(&mut self, entry: &Entry) -> Result<(), AllocError>
        ensures { OnOk result (IsWith self.old self.new self.old.log) }
    {
        if is_error(entry.id) && self.watcher.errors().is_some() {
            let _ = self.disturbed.note(self.log.line(), entry.at, entry.len);
            return Ok(());
        }
        let mut seen = match self.others.get(&entry.id) {
            Some(seen) => *seen,
            None => Seen::NOTHING,
        };
        if seen.frames > 0 || self.others.len() < MOST_OTHERS {
            let _ = seen.note(self.log.line(), entry.at, entry.len);
            let _ = self.others.insert(entry.id, seen)?;
        }
        Ok(())
    }

    /// Tells what the entry shows.
    fn tell(&mut self, entry: &Entry, scene: &Scene, told: &Told) -> Result<(), AllocError>
        ensures { OnOk result (Tells entry.now scene.now told.now self.old self.new) }
    {
        self.breaches.note(entry, scene, told.fallen)?;
        self.breaches.note(entry, scene, told.named)?;
        self.breaches.note(entry, scene, told.soon)?;
        self.breaches.note(entry, scene, told.crowded)?;
        Ok(())
    }

    /// Adds the lines of the streams.
    fn write_streams(&self, text: &mut String, span: u64) -> Result<(), AllocError> {
        let rate = self.plan().rate();
        for stream in self.plan().streams().streams() {
            if let Some(seen) = self.seen.get(usize::from(stream.id)) {
                seen.write(text, stream, rate, span)?;
            }
        }
        Ok(())
    }

    /// Adds the line of the error frames, where the plan counts disturbed transfers.
    fn write_disturbed(&self, text: &mut String) -> Result<(), AllocError> {
        match self.watcher.errors() {
            Some(errors) => self.disturbed.write_errors(text, &errors),
            None => Ok(()),
        }
    }

    /// The heartbeats that stayed away, by the places of their streams.
    pub fn late_heartbeats(&self) -> Result<Vec<LateHeartbeat>, AllocError> {
        let mut late = Vec::new(self.alloc);
        for stream in self.plan().streams().streams() {
            let Some(seen) = self.seen(stream.id) else {
                continue;
            };
            if let Some(heartbeat) = late_heartbeat(stream, seen) {
                late.push(heartbeat)?;
            }
        }
        Ok(late)
    }

    /// The identifiers that no stream of the plan has, by rising number: all that a stream can have, and of the others those that are
    /// counted.
    pub fn strangers(&self) -> Result<Vec<Stranger>, AllocError> {
        let mut strangers = Vec::new(self.alloc);
        for id in 0..IDS {
            let seen = self.seen(id).copied().unwrap_or(Seen::NOTHING);
            if seen.frames > 0 && !self.plan().streams().has_id(id) {
                let id = u32::from(id);
                strangers.push(Stranger { id, seen })?;
            }
        }
        for (id, seen) in self.others.iter() {
            strangers.push(Stranger {
                id: *id,
                seen: *seen,
            })?;
        }
        Ok(strangers)
    }

    /// Refuses a log in which no line is of the channel, once all pieces were taken.
    pub fn end(&self) -> Result<(), BookFault>
        ensures frames { IsOk result ↔ (0 < self.now.all.frames) }
        ensures none { IfErr result (λ fault. fault ≡ Refused 94 0) }
        ensures whole { Ends self.now }
    {
        if self.all.frames == 0 {
            return Err(BookFault::Refused {
                number: NO_LINE,
                line: 0,
            });
        }
        Ok(())
    }

    /// Whether the stamps look as if they were distances: more transfers than the bus carries in their time, and a clock that falls.
    pub fn may_be_distances(&self) -> bool {
        let load = self.all.load(self.plan().rate(), self.all.span());
        let falls = self
            .told()
            .iter()
            .any(|breach| matches!(breach.broken, Broken::Fallen { .. }));
        falls && load > WHOLE
    }

    /// Adds the streams of which no frame came.
    fn write_unseen(&self, text: &mut String) -> Result<(), AllocError> {
        for stream in self.plan().streams().streams() {
            if matches!(self.seen(stream.id), Some(seen) if seen.frames == 0) {
                let id = stream.id;
                write!(text, "{id:03X}h never seen\n")?;
            }
        }
        Ok(())
    }

    /// Adds what is to be known of the log itself: a last line that was left out, and stamps that may be distances.
    fn write_form(&self, text: &mut String) -> Result<(), AllocError> {
        if let Some(line) = self.unended() {
            write!(
                text,
                "line {line}: the last line has no end, and was left out\n"
            )?;
        }
        if self.may_be_distances() {
            text.push_str(
                "the load is above 100 % and stamps fall: are these distances? --delta\n",
            )?;
        }
        Ok(())
    }

    /// Adds what is worth a look: streams that never came, identifiers of no stream, heartbeats that stayed away, and what was noticed.
    fn write_asides(&self, text: &mut String) -> Result<(), AllocError> {
        self.write_unseen(text)?;
        for stranger in &self.strangers()? {
            stranger.write(text)?;
        }
        for heartbeat in &self.late_heartbeats()? {
            heartbeat.write(text)?;
        }
        self.notices.write(text)?;
        self.write_form(text)
    }

    /// Adds what is seen of the log beside its breaches.
    fn write_seen(&self, text: &mut String) -> Result<(), AllocError> {
        let (frames, kbits) = (self.all.frames, self.plan().rate().kbits());
        let span = self.all.span();
        let load = self.all.load(self.plan().rate(), span);
        let (whole, part) = (load / 100, load % 100);
        write!(
            text,
            "rate {kbits} frames {frames} time {span} us load {whole}.{part:02}%\n"
        )?;
        self.write_streams(text, span)?;
        self.write_disturbed(text)?;
        self.write_asides(text)
    }

    /// What is said of the log, once all pieces were taken: what was seen, the words of the breaches, and how many there are.
    pub fn finish(&self) -> Result<String, AllocError>
        ensures { IfOk result (λ text. IsSaid self.now (string_bytes text)) }
    {
        let mut seen = String::new(self.alloc);
        self.write_seen(&mut seen)?;
        let words = self.words()?;
        let verdict = verdict_of(self.alloc, self.breaches.count())?;
        format!(in self.alloc; "{seen}{words}{verdict}")
    }
}
