//! Places with a length at each, in room that was taken once.
ghost use Rattle.std.specs.Prelude.{
  ◌≡◌,
  ◌<◌,
  ◌≤◌,
  ◌+◌,
  ◌-◌,
  ◌^◌,
  ℕ,
  [],
  ◌∷◌,
  ◌++◌,
  ◌↔◌,
  IsTrue,
  max,
  IfOk,
  OnOk,
  MatchBool,
  length,
  take,
  drop,
  slice_get,
  Some,
  map,
};
ghost use Rattle.vr_space.specs.Room.{AscendLengths, weight, with_length};
ghost use Rattle.vr_space.specs.Whence.{places_kept};
ghost use Rattle.vr_split.specs.Cut.{IsMiddle};
ghost use Rattle.vr_split.specs.Weights.{IsPosition, StandsAt, HasNoRoom};
ghost use Rattle.vr_split.specs.Entries.{lengths_seen, HaveBytes};

use std::alloc::Global;
use std::marker::Model;
use vr_types::{OutOfMemory, PlaceBuffer, empty_place};

/// A place, and the length of the longest record there; or room for one.
#[derive(Drop)]
struct Entry {
    place: PlaceBuffer,
    longest: u32,
}

/// Places with the length of the longest record at each, ascending, in room that was taken once.
#[derive(Drop)]
pub struct Weights {
    entries: Vec<Entry>,
    used: usize,
    bytes: u16,
}

impl Model for Weights {
    ghost use Rattle.std.specs.Prelude.{length, take};
    ghost use Rattle.vr_split.specs.Weights.{LengthsRoom};
    ghost use Rattle.vr_split.specs.Entries.{lengths_seen, AreReady};

    ghost Value = { LengthsRoom };

    ghost view = { λ weights. record {
      lengths = lengths_seen (take weights.used weights.entries.items);
      count = length weights.entries.items;
      bytes = weights.bytes;
    } };

    ghost invariant = { λ weights. AreReady weights.entries.items weights.used weights.bytes };
}

/// No places, with room for `count` of `bytes` bytes each. It fails only if memory runs out.
pub fn empty_weights(alloc: Global, count: u32, bytes: u16) -> Result<Weights, OutOfMemory>
    requires { count < 2 ^ 31 }
    ensures { IfOk result (λ weights. weights
        ≡ record { lengths = []; count = count; bytes = bytes }) }
{
    let mut entries = Vec::new(alloc);
    add_empty(alloc, &mut entries, count, bytes)?;
    Ok(Weights {
        entries,
        used: 0,
        bytes,
    })
}

/// Adds that many entries with room for a place.
fn add_empty(
    alloc: Global,
    entries: &mut Vec<Entry>,
    count: u32,
    bytes: u16,
) -> Result<(), OutOfMemory>
    requires none { entries.old.items ≡ [] }
    ensures count { OnOk result (length entries.new.items ≡ count) }
    ensures room { OnOk result (HaveBytes bytes entries.new.items) }
{
    for _ in 0..count {
        add_one(alloc, entries, bytes)?;
    }
    Ok(())
}

/// Adds an entry with room for a place.
fn add_one(alloc: Global, entries: &mut Vec<Entry>, bytes: u16) -> Result<(), OutOfMemory>
    ensures count { OnOk result (length entries.new.items ≡ length entries.old.items + 1) }
    ensures room { OnOk result (HaveBytes bytes entries.old.items
        → HaveBytes bytes entries.new.items) }
{
    let place = empty_place(alloc, bytes as u32)?;
    entries.push(Entry { place, longest: 0 })?;
    Ok(())
}

/// How many of ascending places are below this one. It begins with the greatest, since places
/// mostly come in their order.
fn position_in(entries: &[Entry], place: &[u8]) -> usize
    ensures { AscendLengths (lengths_seen entries.now)
        → IsPosition (lengths_seen entries.now) place.now result }
{
    for i in (0..entries.len()).rev() {
        if entries[i].place.as_slice().cmp(place).is_lt() {
            return i + 1;
        }
    }
    0
}

/// Whether the place stands at the position.
fn stands_at(entries: &[Entry], at: usize, place: &[u8]) -> bool
    ensures { IsTrue result ↔ StandsAt (lengths_seen entries.now) at place.now }
{
    at < entries.len() && entries[at].place.as_slice() == place
}

/// Makes the longest record of an entry one of this length, where it is shorter.
fn lengthen(entry: &mut Entry, longest: u32)
    ensures { entry.new ≡ record {
      place = entry.old.place;
      longest = max longest entry.old.longest;
    } }
{
    if entry.longest < longest {
        entry.longest = longest;
    }
}

/// Makes an entry one of this place.
fn write(entry: &mut Entry, place: &[u8], longest: u32)
    requires { length place.now ≤ entry.old.place.room }
    ensures { entry.new ≡ record {
      place = record { place = place.now; room = entry.old.place.room };
      longest = longest;
    } }
{
    entry.place.set(place);
    entry.longest = longest;
}

/// Makes the entry after those that are used one of this place, and moves it to a position.
fn insert_at(entries: &mut [Entry], used: usize, at: usize, place: &[u8], longest: u32)
    requires at { at ≤ used }
    requires free { used < length entries.old }
    requires room { (bytes : ℕ) × HaveBytes bytes entries.old × (length place.now ≤ bytes) }
    ensures inserted { lengths_seen (take (used + 1) entries.new)
        ≡ take at (lengths_seen (take used entries.old))
        ++ (place.now, longest) ∷ drop at (lengths_seen (take used entries.old)) }
    ensures room { (bytes : ℕ) → HaveBytes bytes entries.old → HaveBytes bytes entries.new }
{
    write(&mut entries[used], place, longest);
    entries[at..used + 1].rotate_right(1);
}

/// What a record weighs: its length, and three bytes.
fn weighs(entry: &Entry) -> u64
    ensures weight { result ≡ entry.now.longest + 3 }
    ensures few { result < 2 ^ 32 + 3 }
{
    entry.longest as u64 + 3
}

/// The weight of entries.
fn weight_of(entries: &[Entry]) -> u64
    requires { length entries.now < 2 ^ 31 }
    ensures { result ≡ weight (lengths_seen entries.now) }
{
    let mut sum = 0;
    for i in 0..entries.len() {
        sum += weighs(&entries[i]);
    }
    sum
}

/// The least number of first entries that have half of the weight, and never all.
fn middle_of(entries: &[Entry]) -> usize
    requires two { 2 ≤ length entries.now }
    requires few { length entries.now < 2 ^ 31 }
    ensures { IsMiddle (lengths_seen entries.now) result }
{
    let whole = weight_of(entries);
    let mut sum = 0;
    for i in 0..entries.len() - 1 {
        sum += weighs(&entries[i]);
        if whole - sum <= sum {
            return i + 1;
        }
    }
    entries.len() - 1
}

impl Weights {
    /// Takes all places out. The room stays.
    pub fn clear(&mut self)
        ensures { self.new ≡ record {
          lengths = [];
          count = self.old.count;
          bytes = self.old.bytes;
        } }
    {
        self.used = 0;
    }

    /// Adds a place, or lengthens the one that is there. False where there is no room, and nothing
    /// changes then. It takes no memory.
    pub fn add(&mut self, place: &[u8], longest: u32) -> bool
        ensures { MatchBool result
            (self.new ≡ record {
              lengths = with_length self.old.lengths place.now longest;
              count = self.old.count;
              bytes = self.old.bytes;
            })
            ((self.new ≡ self.old) × HasNoRoom self.old place.now) }
    {
        let at = position_in(&self.entries[..self.used], place);
        if stands_at(&self.entries[..self.used], at, place) {
            lengthen(&mut self.entries[at], longest);
            return true;
        }
        if self.used == self.entries.len() || (self.bytes as usize) < place.len() {
            return false;
        }
        insert_at(&mut self.entries, self.used, at, place, longest);
        self.used += 1;
        true
    }

    /// How many places there are.
    pub fn len(&self) -> usize
        ensures { result ≡ length self.now.lengths }
    {
        self.used
    }

    /// The place of a number.
    pub fn place(&self, i: usize) -> &[u8]
        requires { i < length self.now.lengths }
        ensures { slice_get (places_kept self.now.lengths) i ≡ Some result.now }
    {
        self.entries[i].place.as_slice()
    }

    /// How many of the places are below this one.
    pub fn position(&self, place: &[u8]) -> usize
        ensures { IsPosition self.now.lengths place.now result }
    {
        position_in(&self.entries[..self.used], place)
    }

    /// The bytes that the records need: three for each beside its own.
    pub fn weight(&self) -> u64
        ensures { result ≡ weight self.now.lengths }
    {
        weight_of(&self.entries[..self.used])
    }

    /// The least number of first places that have half of the weight, and never all.
    pub(crate) fn middle(&self) -> usize
        requires { 2 ≤ length self.now.lengths }
        ensures { IsMiddle self.now.lengths result }
    {
        middle_of(&self.entries[..self.used])
    }
}
