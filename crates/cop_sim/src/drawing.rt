//! Behaviours that draw their instances from a seed.

ghost use Rattle.std.specs.Prelude.{◌≡◌, ℕ, List, ◌+◌, ◌*◌, ◌<◌, ◌^◌};
ghost use Rattle.cop_rta.specs.declared.streams.Stream.{Stream};
ghost use Rattle.cop_frame.specs.declared.rates.Rate.{Rate};
ghost use Rattle.cop_frame.specs.Rate.{ticks_of};
ghost use Rattle.cop_rta.specs.Streams.{AreDistinct};
ghost use Rattle.cop_sim.specs.Play.{Actor, streams_of, Disobeys};
ghost use Rattle.cop_sim.specs.Drawing.{words_of, word, rest, event_after, raised, first_byte, body_of, bits_by, frame_by, drawn, after_drawn, fitting, seeded_offer, seeded_joins, seeded_actor, offer_of, joins_of, fresh};

use crate::behaviours::{Behaviour, Offer};
use crate::seats::queued_at;
use cop_bus::Content;
use cop_frame::{least_bits, worst_bits};
use cop_rta::Stream;
use rand_core::utils::NextWord;
use rand_pcg::Lcg64Xsh32;

/// The heartbeats' identifiers.
const HEARTBEATS: (u16, u16) = (0x701, 0x77F);

/// A behaviour that draws its instances from a seed: the same ones for the same seed and stream.
#[derive(Drop)]
pub struct Seeded {
    seed: u64,
    stream: Stream,
    words: Lcg64Xsh32,
    before: Option<Offer>,
    is_over: bool,
}

// The generator of a seed for a stream.
fn words_of(seed: u64, stream: &Stream) -> Lcg64Xsh32
    ensures { result ≡ words_of seed stream.now }
{
    Lcg64Xsh32::new(seed, u64::from(stream.id))
}

fn event_after(stream: &Stream, before: Option<Offer>, word: u32) -> u128
    ensures value { result ≡ event_after stream.now before word }
    ensures most { result < 2 ^ 66 }
{
    let word = u64::from(word);
    match before {
        Some(before) => {
            u128::from(before.event)
                + u128::from(stream.period)
                + u128::from(word % (stream.period / 8 + 1))
        }
        None => u128::from(word % stream.period),
    }
}

fn raised(before: Option<Offer>, event: u128, delay: u128) -> u128
    ensures { result ≡ raised before event delay }
{
    match before {
        Some(before) => delay.max(queued_at(&before).saturating_sub(event)),
        None => delay,
    }
}

fn first_byte(id: u16) -> u8
    ensures { result ≡ first_byte id }
{
    let (least, most) = HEARTBEATS;
    if least <= id && id <= most {
        5
    } else if id == 0 {
        1
    } else {
        0
    }
}

fn body_of(stream: &Stream) -> [u8; 8]
    ensures { result ≡ body_of stream.now }
{
    let first = if stream.bytes == 0 {
        0
    } else {
        first_byte(stream.id)
    };
    [first, 0, 0, 0, 0, 0, 0, 0]
}

fn bits_by(stream: &Stream, word: u32) -> u32
    ensures { result ≡ bits_by stream.now word }
{
    let least = least_bits(stream.bytes);
    least + word % (worst_bits(stream.bytes) - least + 1)
}

fn frame_by(stream: &Stream, word: u32) -> Content
    ensures { result ≡ frame_by stream.now word }
{
    Content {
        bits: bits_by(stream, word),
        body: body_of(stream),
        len: stream.bytes,
    }
}

// The offer at these moments, if they fit.
fn offered(event: u128, delay: u128, frame: Content) -> Option<Offer>
    requires event { event < 2 ^ 66 }
    requires delay { delay < 2 ^ 66 }
    ensures { result ≡ fitting (record { event = event; delay = delay; frame = frame }) }
{
    if event + delay <= u128::from(u64::MAX) {
        Some(Offer {
            event: event as u64,
            delay: delay as u64,
            frame,
        })
    } else {
        None
    }
}

// The instance after another, by the next words.
fn draw(stream: &Stream, before: Option<Offer>, words: &mut Lcg64Xsh32) -> Option<Offer>
    ensures drawn { result ≡ fitting (drawn stream.now before words.old) }
    ensures rest { words.new ≡ after_drawn stream.now words.old }
{
    if stream.every == 0 {
        let event = event_after(stream, before, words.next_word());
        let delay = u64::from(words.next_word()) % (stream.jitter + 1);
        let frame = frame_by(stream, words.next_word());
        offered(event, raised(before, event, u128::from(delay)), frame)
    } else {
        let delay = u64::from(words.next_word()) % (stream.jitter + 1);
        let frame = frame_by(stream, words.next_word());
        offered(0, u128::from(delay), frame)
    }
}

impl Seeded {
    /// The behaviour of a stream by a seed.
    pub fn new(seed: u64, stream: &Stream) -> Seeded
        ensures offers { (n : ℕ) → offer_of result n ≡ seeded_offer seed stream.now n }
        ensures joins { (z : ℕ) → joins_of result z ≡ seeded_joins seed stream.now z }
        ensures fresh { result ≡ fresh seed stream.now }
    {
        Seeded {
            seed,
            stream: *stream,
            words: words_of(seed, stream),
            before: None,
            is_over: false,
        }
    }
}

impl Behaviour for Seeded {
    ghost offer = { offer_of };

    ghost agrees = { λ s z u. joins_of s z };

    fn next(&mut self) -> Option<Offer> {
        if self.is_over {
            return None;
        }
        let offer = draw(&self.stream, self.before, &mut self.words);
        self.is_over = offer.is_none();
        self.before = offer;
        offer
    }

    fn joins(&self, start: u64, _queued: u64) -> bool {
        words_of(self.seed ^ start, &self.stream).next_word() % 2 == 1
    }
}

/// A seeded behaviour obeys: a simulation of such ones is never given up for an answer of theirs.
pub fn seeded_obeys()
    ensures { (rate : Rate) (actors : List Actor) (seed : ℕ) (k : Stream) (until n : ℕ) → AreDistinct (streams_of actors)
        → Disobeys (ticks_of rate) actors until (seeded_actor seed k) n → ⊥ }
{}
