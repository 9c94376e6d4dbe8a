//! The table of places: searches, and changes of one place.
ghost use Rattle.std.specs.Prelude.{◌≡◌, ◌∷◌, ◌++◌, [], List, MatchOption, length, min};
ghost use Rattle.lru.specs.LruCache.{lru_cache};
ghost use Rattle.vr_resident.specs.Places.{Entry, AreNone, IsLast, buffers_at, buffers_of};
ghost use Rattle.vr_resident.specs.Table.{IsEntry, HasBuffer};
ghost use Rattle.vr_resident.specs.Lasts.{AreLasts};
ghost use Rattle.vr_resident.specs.declared.place.Place.{Place};
ghost use Rattle.vr_resident.specs.declared.place.Place.TheVariants.{Bare};

use crate::place::{Buffer, Place, Sought};
use lru::LruCache;
use std::mem;

/// The table of places, with the most recently used first.
pub type Table = LruCache<u32, Place>;

/// The number of the last such place.
pub(crate) fn last_fit(table: &Table, sought: Sought) -> Option<u32>
    ensures { MatchOption result (AreNone sought table.now.entries)
        (IsLast sought table.now.entries) }
{
    let mut last = None;
    for (number, place) in table {
        if place.fits(sought) {
            last = Some(*number);
        }
    }
    last
}

/// The last place with a block that is looked for, with an empty frame, without a frame, and with
/// any block.
#[derive(Clone, Copy)]
pub struct Lasts {
    pub(crate) found: Option<u32>,
    pub(crate) empty: Option<u32>,
    pub(crate) bare: Option<u32>,
    pub(crate) held: Option<u32>,
}

/// The last places, found in one walk. `n` is the block that is looked for.
pub(crate) fn find_lasts(table: &Table, n: u32) -> Lasts
    ensures { AreLasts n table.now.entries result }
{
    let mut found = None;
    let mut empty = None;
    let mut bare = None;
    let mut held = None;
    for (number, place) in table {
        match place {
            Place::Empty(_) => empty = Some(*number),
            Place::Bare => bare = Some(*number),
            Place::Taken(block, _, _) => {
                held = Some(*number);
                if *block == n {
                    found = held;
                }
            }
        }
    }
    Lasts {
        found,
        empty,
        bare,
        held,
    }
}

/// Makes the place the most recently used.
pub(crate) fn use_place(table: &mut Table, number: u32)
    requires { IsEntry table.old.entries number }
    ensures { (before after : List Entry) (place : Place)
        → table.old.entries ≡ before ++ (number, place) ∷ after
        → table.new ≡ lru_cache ((number, place) ∷ before ++ after) table.old.cap }
{
    let _ = table.len();
    table.promote(&number);
}

/// Changes what the place holds, and gives what it held. The order stays.
pub(crate) fn change(table: &mut Table, number: u32, to: Place) -> Place
    requires { IsEntry table.old.entries number }
    ensures { (before after : List Entry) (place : Place)
        → table.old.entries ≡ before ++ (number, place) ∷ after
        → (result ≡ place)
        × (table.new ≡ lru_cache (before ++ (number, to) ∷ after) table.old.cap) }
{
    let _ = table.len();
    mem::replace(table.peek_mut(&number).unwrap(), to)
}

/// Changes what the place holds, and makes it the most recently used.
pub(crate) fn put_first(table: &mut Table, number: u32, to: Place)
    requires { IsEntry table.old.entries number }
    ensures { (before after : List Entry) (place : Place)
        → table.old.entries ≡ before ++ (number, place) ∷ after
        → table.new ≡ lru_cache ((number, to) ∷ before ++ after) table.old.cap }
{
    drop(change(table, number, to));
    use_place(table, number);
}

/// Takes the buffer out of the place, which is bare then.
pub(crate) fn lift(table: &mut Table, number: u32) -> Buffer
    requires { HasBuffer table.old.entries number }
    ensures { (before after : List Entry) (place : Place)
        → table.old.entries ≡ before ++ (number, place) ∷ after
        → (buffers_at place ≡ result ∷ [])
        × (table.new ≡ lru_cache (before ++ (number, Bare) ∷ after) table.old.cap) }
{
    match change(table, number, Place::Bare) {
        Place::Empty(buffer) => buffer,
        Place::Taken(_, _, buffer) => buffer,
        Place::Bare => unreachable!(),
    }
}

/// How many places have a buffer, up to 2^32 - 1.
fn count_buffers(table: &Table) -> u32
    ensures { result ≡ min (length (buffers_of table.now.entries)) 4294967295 }
{
    let mut count: u32 = 0;
    for (_, place) in table {
        count = count.saturating_add(place.buffers());
    }
    count
}

/// How many places have a buffer.
pub(crate) fn buffer_count(table: &Table) -> u32
    requires { table.now.cap ≡ 64 }
    ensures { result ≡ length (buffers_of table.now.entries) }
{
    let _ = table.len();
    count_buffers(table)
}
