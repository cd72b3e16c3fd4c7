//! Listening at a port from the opening of the adapter to its closing.

ghost use Rattle.std.specs.Prelude.{◌≡◌, true, false, option_to_list, IfSome, IfNone};
ghost use Rattle.cop_slcan.specs.Meaning.{told_of};
ghost use Rattle.cop_slcan.specs.Reading.{said_from, left_from, taken};
ghost use Rattle.cop_live.specs.declared.opening.Reply.TheVariants as replies;
ghost use Rattle.cop_heartbeats.specs.Attending.{AttendFails};
ghost use Rattle.cop_listen.specs.Listening.{is_over, HearsAll, Hears, HearsAndCloses, HearingFails, IsListened, ListeningFails, if_failed};

use cop_frame::Rate;
use cop_live::{Command, Opening, Port, Reply, close, open_to_listen};
use cop_slcan::{Reader, Said};

/// Who is told what is heard. Contracts see how what it is told leads it from one state to another.
pub trait Listener {
    ghost use Rattle.std.specs.Prelude.{ℕ, Bool};
    ghost use Rattle.cop_slcan.specs.Meaning.{Told, told_of};

    /// To hear a line at a moment leads from one state to another.
    ghost hears: { Self → ℕ → Told → Self → Type 0 };

    /// A state is asked whether it is enough.
    ghost ends: { Self → Bool → Type 0 };

    /// Hears what a line says, which was read before this moment, in ticks of 250 ns of the port's clock.
    fn hear(&mut self, now: u64, said: &Said)
        ensures { hears self.old now (told_of said.now) self.new };

    /// Whether it has heard enough.
    fn has_enough(&self) -> bool
        ensures { ends self.now result };
}

/// What came of listening.
#[derive(Clone, Copy, Debug, PartialEq, Eq)]
pub enum Listened {
    /// It was listened to the end, and the adapter was closed. This was its answer to listen only: where it refused, it was opened by `O`.
    Ended { reply: Reply },
    /// The adapter refuses a command by which it is opened, and it was not listened.
    Unopened { command: Command },
    /// The port or its clock failed.
    Failed,
}

// A listener hears what a byte says, if it ends a line.
fn hear_byte<L: Listener>(listener: &mut L, reader: &mut Reader, now: u64, byte: u8)
    ensures reader { reader.new ≡ (taken reader.old byte).0 }
    ensures heard { HearsAll L.hears now listener.old (option_to_list (taken reader.old byte).1) listener.new }
{
    match reader.take(byte) {
        Some(said) => listener.hear(now, &said),
        None => {}
    }
}

// A listener hears what bytes say.
fn hear_bytes<L: Listener>(listener: &mut L, reader: &mut Reader, now: u64, bytes: &[u8])
    ensures reader { reader.new ≡ left_from reader.old bytes.now }
    ensures heard { HearsAll L.hears now listener.old (said_from reader.old bytes.now) listener.new }
{
    match bytes {
        [] => {}
        [byte, rest @ ..] => {
            hear_byte(listener, reader, now, *byte);
            hear_bytes(listener, reader, now, rest)
        }
    }
}

// Whether it was listened for so many ticks, if a number is given.
fn is_over(limit: Option<u64>, began: u64, now: u64) -> bool
    ensures { result ≡ is_over limit began now }
{
    match limit {
        Some(ticks) => now.saturating_sub(began) >= ticks,
        None => false,
    }
}

// Listens over an open adapter, until so many ticks have passed or the listener has heard enough. `false` if the port or its clock fails.
fn attend<P: Port, L: Listener>(limit: Option<u64>, port: &mut P, listener: &mut L) -> bool
    ensures heard { result ≡ true → Hears P.reads P.writes P.asks L.hears L.ends limit port.old listener.old port.new listener.new }
    ensures failed { result ≡ false → AttendFails P.reads P.writes P.asks P.fails port.old port.new }
{
    let Some(began) = port.now() else {
        return false;
    };
    let mut reader = Reader::new();
    for _turn in 0..u64::MAX {
        let mut buffer = [0; 256];
        let Some(count) = port.read(&mut buffer) else {
            return false;
        };
        let Some(now) = port.now() else {
            return false;
        };
        hear_bytes(listener, &mut reader, now, &buffer[..count]);
        if is_over(limit, began, now) {
            return true;
        }
        if listener.has_enough() {
            return true;
        }
    }
    false
}

// Listens over an open adapter that gave this answer to listen only, and closes it.
fn attend_and_close<P: Port, L: Listener>(
    reply: Reply,
    limit: Option<u64>,
    port: &mut P,
    listener: &mut L,
) -> Listened
    ensures closed { HearsAndCloses P.reads P.writes P.asks L.hears L.ends reply limit port.old listener.old result port.new listener.new }
    ensures failed { if_failed result (HearingFails P.reads P.writes P.asks P.fails L.hears L.ends limit port.old listener.old port.new listener.new) }
{
    if !attend(limit, port, listener) {
        return Listened::Failed;
    }
    if close(port) {
        Listened::Ended { reply }
    } else {
        Listened::Failed
    }
}

/// Listens to a bus: closes the adapter, sets its rate, opens it to listen only, by `L`, and has a listener hear each line that comes, until so
/// many ticks have passed, if a number is given, or the listener has heard enough; and closes the adapter. No frame is sent. An adapter that
/// refuses `L` is opened by `O`, which acknowledges what it hears. `Failed` if the port or its clock fails.
pub fn listen<P: Port, L: Listener>(
    rate: Rate,
    limit: Option<u64>,
    port: &mut P,
    listener: &mut L,
) -> Listened
    ensures listened { IsListened P.reads P.writes P.asks L.hears L.ends rate limit port.old listener.old result port.new listener.new }
    ensures failed { if_failed result (ListeningFails P.reads P.writes P.asks P.fails L.hears L.ends rate limit port.old listener.old port.new listener.new) }
{
    match open_to_listen(port, rate) {
        Opening::Passive => attend_and_close(Reply::Taken, limit, port, listener),
        Opening::Untold => attend_and_close(Reply::Silent, limit, port, listener),
        Opening::Active => attend_and_close(Reply::Refused, limit, port, listener),
        Opening::Refused { command } => Listened::Unopened { command },
        Opening::Failed => Listened::Failed,
    }
}
