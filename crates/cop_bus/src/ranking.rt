//! The first of many places, found without a walk over them.

ghost use Rattle.std.specs.Prelude.{◌≡◌, ℕ, ◌+◌, ◌≤◌, ◌<◌, ◌^◌, None, IfOk, length, replicate, slice_index, slice_set};
ghost use Rattle.std.specs.Option.{ForSome};
ghost use Rattle.cop_bus.specs.Ranks.{leader, AreNodes, AreLedBut, AreSiblings, IsKeyOf, IsLed, IsFirstOf};

use std::alloc::{AllocError, Global};
use std::marker::Model;

/// When a place has its turn: at a moment, and at one moment the lower identifier first.
#[derive(Clone, Copy)]
pub struct Rank {
    pub at: u32,
    pub id: u16,
    pub place: usize,
}

// A place in the tournament, with the key of its rank.
#[derive(Clone, Copy)]
struct Entrant {
    place: usize,
    key: u64,
}

/// The ranks of places, of which some have none, with a key for each, and a tournament over the keys: node k names the
/// place with the lower key of those that the nodes 2k and 2k + 1 name, from 1 on, and behind those stand the places
/// themselves. A key is one word, so that an entrant that wins or loses costs no jump.
#[derive(Drop)]
pub struct Ranking {
    ranks: Vec<Option<Rank>>,
    keys: Vec<u64>,
    leaders: Vec<usize>,
}

impl Model for Ranking {
    ghost use Rattle.std.specs.Prelude.{List, Option};
    ghost use Rattle.cop_bus.specs.declared.ranking.Rank.{Rank};
    ghost use Rattle.cop_bus.specs.Ranks.{IsRanking};

    ghost Value = { List (Option Rank) };

    ghost view = { λ r. r.ranks.items };

    ghost invariant = { λ r. IsRanking r.ranks.items r.keys.items r.leaders.items };
}

// The key by which a rank is compared: that of an earlier one is lower, and none comes last.
fn key_of(rank: Option<Rank>) -> u64
    ensures { IsKeyOf rank result }
{
    match rank {
        Some(rank) => u64::from(rank.at) * 65_536 + u64::from(rank.id),
        None => 281_474_976_710_656,
    }
}

// Of two entrants the one with the lower key.
fn leader(entrant: Entrant, other: Entrant) -> Entrant
    ensures { result ≡ leader entrant other }
{
    if other.key < entrant.key {
        other
    } else {
        entrant
    }
}

// The other node under the same one.
fn sibling(node: usize) -> usize
    requires { (1 < node) × (node + 1 < 2 ^ 64) }
    ensures { AreSiblings node result }
{
    if node % 2 == 0 { node + 1 } else { node - 1 }
}

// Lets the nodes above a place whose key has changed name the leading ones again.
fn settle(leaders: &mut Vec<usize>, keys: &[u64], changed: usize)
    requires nodes { AreNodes (length keys.now) 1 leaders.old.items }
    requires within { changed < length keys.now }
    requires led { AreLedBut keys.now leaders.old.items (length keys.now + changed) }
    ensures nodes { AreNodes (length keys.now) 1 leaders.new.items }
    ensures led { (k : ℕ) → 1 ≤ k → k < length keys.now → IsLed keys.now leaders.new.items k }
{
    let mut node = keys.len() + changed;
    let mut first = Entrant {
        place: changed,
        key: keys[changed],
    };
    while node > 1 {
        let place = leaders[sibling(node)];
        let other = Entrant {
            place,
            key: keys[place],
        };
        first = leader(first, other);
        node /= 2;
        leaders[node] = first.place;
    }
}

// The nodes of so many places, behind as many more.
fn places_last(alloc: Global, places: usize) -> Result<Vec<usize>, AllocError>
    ensures many { IfOk result (λ nodes. length nodes.items ≡ places + places) }
    ensures leaves { IfOk result (λ nodes. (i : ℕ) → i < places → slice_index nodes.items (places + i) ≡ i) }
{
    let mut nodes = vec![in alloc; 0; places]?;
    for place in 0..places {
        nodes.push(place)?;
    }
    Ok(nodes)
}

// The nodes over so many places, of which none has a rank: each names the first place below it.
fn nodes_over(alloc: Global, places: usize) -> Result<Vec<usize>, AllocError>
    ensures { IfOk result (λ nodes. AreNodes places 1 nodes.items) }
{
    let mut nodes = places_last(alloc, places)?;
    let mut node = places;
    while node > 1 {
        node -= 1;
        nodes[node] = nodes[node + node];
    }
    Ok(nodes)
}

impl Ranking {
    /// So many places without a rank.
    pub fn new(alloc: Global, places: usize) -> Result<Ranking, AllocError>
        ensures { IfOk result (λ r. r ≡ replicate places None) }
    {
        Ok(Ranking {
            ranks: vec![in alloc; None; places]?,
            keys: vec![in alloc; key_of(None); places]?,
            leaders: nodes_over(alloc, places)?,
        })
    }

    /// The first rank.
    pub fn first(&self) -> Option<Rank>
        ensures { IsFirstOf self.now result }
    {
        let first = self.leaders.get(1)?;
        self.ranks[*first]
    }

    /// Gives a place another rank, or takes its rank away.
    pub fn set(&mut self, place: usize, rank: Option<Rank>)
        requires within { place < length self.old }
        requires own { ForSome rank (λ r. r.place ≡ place) }
        ensures { self.new ≡ slice_set self.old place rank }
    {
        self.ranks[place] = rank;
        self.keys[place] = key_of(rank);
        settle(&mut self.leaders, &self.keys, place);
    }
}
