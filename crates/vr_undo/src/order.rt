//! The order of records by part and place, and searches by halves in it.
ghost use Rattle.std.specs.Prelude.{◌≡◌, ◌<◌, ◌≤◌, ◌==◌, ◌∷◌, ◌++◌, [], ℕ, true, false, cond, not};
ghost use Rattle.std.specs.Prelude.{filter, is_some, length, vec_capacity, vec_len, OnOk};
ghost use Rattle.std.specs.Option.{option_copied};
ghost use Rattle.std.specs.List.{Contains};
ghost use Rattle.std.specs.List.Sorted.{IsPartitionPoint};
ghost use Rattle.vr_types.specs.Content.{place_cmp};
ghost use Rattle.vr_undo.specs.Order.{AreNumbers, HasRoom, IsInOrder, IsLive, IsOrder};
ghost use Rattle.vr_undo.specs.Order.{comes_before};
ghost use Rattle.vr_undo.specs.Order.{key_at, key_by, key_in, listed, shelf_of};

use crate::before::Before;
use crate::record::KeptRecord;
use std::cmp::Ordering;
use vr_types::{Bytes, OutOfMemory, PartNo, Place};

/// The shelf of a place where no record stood.
pub(crate) const FREE: u8 = 0;

/// The shelf of a place where one did.
pub(crate) const STOOD: u8 = 1;

/// The end of a part, past both.
pub(crate) const END: u8 = 2;

/// What a record is in order by: its part, then its shelf, then its place. A search for records
/// that stood passes over no others, since these have a shelf of their own.
#[derive(Clone, Copy)]
pub(crate) struct Key<'a> {
    pub(crate) part: PartNo,
    pub(crate) shelf: u8,
    pub(crate) place: &'a [u8],
}

/// Where a search begins or ends: before the records of a key, or past them.
#[derive(Clone, Copy)]
pub(crate) struct Bound<'a> {
    pub(crate) key: Key<'a>,
    pub(crate) past: bool,
}

/// The records between two bounds: their numbers, in order.
pub(crate) fn between<'a>(
    records: &[KeptRecord],
    order: &'a [usize],
    low: Bound<'_>,
    high: Bound<'_>,
) -> &'a [usize]
    requires { IsOrder records.now order.now }
    ensures numbers { AreNumbers records.now result.now }
    ensures all { (number : ℕ) → Contains order.now number
        → comes_before low.entry (key_at records.now number) ≡ false
        → comes_before high.entry (key_at records.now number) ≡ true → Contains result.now number }
    ensures sorted { IsInOrder records.now result.now }
{
    let first = first_from(records, order, low);
    let end = first_from(records, order, high);
    &order[first..end.max(first)]
}

/// The records of a place and shelf: their numbers.
pub(crate) fn at_place<'a>(
    records: &[KeptRecord],
    order: &'a [usize],
    part: PartNo,
    shelf: u8,
    place: &Place,
) -> &'a [usize]
    requires { IsOrder records.now order.now }
    ensures numbers { AreNumbers records.now result.now }
    ensures all { (number : ℕ) → Contains order.now number
        → key_at records.now number ≡ part.0 ∷ shelf ∷ place.now → Contains result.now number }
{
    let key = Key {
        part,
        shelf,
        place: place.as_slice(),
    };
    between(
        records,
        order,
        Bound { key, past: false },
        Bound { key, past: true },
    )
}

/// The first that doesn't come before a bound.
pub(crate) fn first_from(records: &[KeptRecord], order: &[usize], bound: Bound<'_>) -> usize
    requires { IsInOrder records.now order.now }
    ensures within { result ≤ length order.now }
    ensures first { IsPartitionPoint
        (λ number. comes_before bound.entry (key_at records.now number) ≡ true)
        (λ number. comes_before bound.entry (key_at records.now number) ≡ false) order.now result }
{
    order.partition_point(|number| comes_before(key_at(records, *number), bound))
}

/// Whether a key comes before a bound.
fn comes_before(key: Key<'_>, bound: Bound<'_>) -> bool
    ensures { result ≡ comes_before bound.entry (listed key.entry) }
{
    let order = key_cmp(key, bound.key);
    if bound.past {
        order.is_le()
    } else {
        order.is_lt()
    }
}

/// The order of two keys.
fn key_cmp(one: Key<'_>, other: Key<'_>) -> Ordering
    ensures { result ≡ place_cmp (listed one.entry) (listed other.entry) }
{
    let places = one.place.cmp(other.place);
    one.part
        .0
        .cmp(&other.part.0)
        .then(one.shelf.cmp(&other.shelf).then(places))
}

/// The key of the record of a number.
fn key_at(records: &[KeptRecord], number: usize) -> Key<'_>
    ensures { listed result ≡ key_at records.now number }
{
    match records.get(number) {
        Some(one) => key_in(one),
        None => key_by(None),
    }
}

/// The key of a record, by what the log has or what is kept.
pub(crate) fn key_in(one: &KeptRecord) -> Key<'_>
    ensures { listed result ≡ key_in one.now }
{
    match &one.logged {
        Some(before) => key_by(Some(before)),
        None => key_by(one.kept.as_ref()),
    }
}

/// The key of a before-image.
fn key_by(before: Option<&Before>) -> Key<'_>
    ensures { listed result ≡ key_by (option_copied before.entry) }
{
    match before {
        Some(before) => Key {
            part: before.part,
            shelf: shelf_of(&before.old),
            place: before.place.as_slice(),
        },
        None => Key {
            part: PartNo(0),
            shelf: FREE,
            place: &[],
        },
    }
}

/// The shelf of a place, by what stood there.
fn shelf_of(old: &Option<Bytes>) -> u8
    ensures { result ≡ shelf_of old.now }
{
    match old {
        Some(_) => STOOD,
        None => FREE,
    }
}

/// Makes room for the number of one more record than there are.
pub(crate) fn make_room(list: &mut Vec<usize>, records: &[KeptRecord]) -> Result<(), OutOfMemory>
    ensures items { list.new.items ≡ list.old.items }
    ensures room { OnOk result (HasRoom records.now list.new.items (vec_capacity list.new)) }
    ensures capacity { vec_capacity list.old ≤ vec_capacity list.new }
{
    let more = (records.len() + 1).saturating_sub(list.len()).max(1);
    list.reserve(more)?;
    Ok(())
}

/// Puts the number of a new record into the order. There is room for it.
pub(crate) fn list_new(records: &[KeptRecord], made: &KeptRecord, order: &mut Vec<usize>)
    requires order { IsOrder records.now order.old.items }
    requires room { vec_len order.old < vec_capacity order.old }
    ensures order { IsOrder (records.now ++ made.now ∷ []) order.new.items }
    ensures capacity { vec_capacity order.new ≡ vec_capacity order.old }
{
    let end = Bound {
        key: key_in(made),
        past: true,
    };
    let at = first_from(records, order, end);
    if order.insert(at, records.len()).is_err() {
        unreachable!("there is room")
    }
}

/// Puts the number of a new record at the end of the live ones, where a unit may put it back. There
/// is room for it.
pub(crate) fn list_kept(records: &[KeptRecord], made: &KeptRecord, live: &mut Vec<usize>)
    requires live { IsLive records.now live.old.items }
    requires room { vec_len live.old < vec_capacity live.old }
    ensures live { IsLive (records.now ++ made.now ∷ []) live.new.items }
    ensures capacity { vec_capacity live.new ≡ vec_capacity live.old }
{
    if made.kept.is_some() {
        live.push_reserved(records.len());
    }
}

/// Takes a record out of the order, where it loses its last before-image.
pub(crate) fn unlist(one: &KeptRecord, number: usize, order: &mut Vec<usize>)
    ensures rest { order.new.items
        ≡ cond (is_some one.now.logged) order.old.items
        (filter (λ other. not (other == number)) order.old.items) }
    ensures capacity { vec_capacity order.new ≡ vec_capacity order.old }
{
    if one.logged.is_some() {
        return;
    }
    order.retain(|other| *other != number);
}

/// Lists the records anew, in the room that there is.
pub(crate) fn relist(records: &[KeptRecord], order: &mut Vec<usize>, live: &mut Vec<usize>)
    requires order { length records.now ≤ vec_capacity order.old }
    requires live { length records.now ≤ vec_capacity live.old }
    ensures ordered { IsOrder records.now order.new.items }
    ensures living { IsLive records.now live.new.items }
    ensures order { vec_capacity order.new ≡ vec_capacity order.old }
    ensures live { vec_capacity live.new ≡ vec_capacity live.old }
{
    list_all(records, order);
    order.sort_unstable_by(|one, other| key_cmp(key_at(records, *one), key_at(records, *other)));
    list_live(records, live);
}

/// Lists the numbers of all records, as they come.
fn list_all(records: &[KeptRecord], order: &mut Vec<usize>)
    requires { length records.now ≤ vec_capacity order.old }
    ensures numbers { AreNumbers records.now order.new.items }
    ensures all { (number : ℕ) → number < length records.now → Contains order.new.items number }
    ensures capacity { vec_capacity order.new ≡ vec_capacity order.old }
{
    order.clear();
    for number in 0..records.len() {
        order.push_reserved(number);
    }
}

/// Lists the numbers of those that units may put back, as they come.
fn list_live(records: &[KeptRecord], live: &mut Vec<usize>)
    requires { length records.now ≤ vec_capacity live.old }
    ensures living { IsLive records.now live.new.items }
    ensures capacity { vec_capacity live.new ≡ vec_capacity live.old }
{
    live.clear();
    for number in 0..records.len() {
        if records[number].kept.is_some() {
            live.push_reserved(number);
        }
    }
}
