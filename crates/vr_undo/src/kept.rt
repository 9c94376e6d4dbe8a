//! What a part keeps room for.
ghost use Rattle.std.specs.Prelude.{◌≡◌, ◌∷◌, ℕ, List, cond, not, true};
ghost use Rattle.std.specs.List.{Contains, list_any};
ghost use Rattle.std.specs.Option.{option_copied};
ghost use Rattle.std.specs.Ordering.{is_le, is_lt};
ghost use Rattle.vr_types.specs.Content.{place_cmp};
ghost use Rattle.vr_space.specs.Room.{length_at};
ghost use Rattle.vr_space.specs.Whence.{allows, first_allowed, places_kept};
ghost use Rattle.vr_undo.specs.PutBack.{lengths_kept};
ghost use Rattle.vr_undo.specs.Records.{images_in};
ghost use Rattle.vr_undo.specs.Lengths.{AreShort, IsShortBefore, IsShortOld, longer};
ghost use Rattle.vr_undo.specs.Lengths.{is_there, length_there, length_when, place_allowed};
ghost use Rattle.vr_undo.specs.Order.{AreAlike, AreNumbers, IsInOrder, IsOrder, comes_before};
ghost use Rattle.vr_undo.specs.Order.{key_at};
ghost use Rattle.vr_undo.specs.Searched.{IsLeastBy, is_as_long, is_longer_at, place_by};

use crate::before::Before;
use crate::order::{Bound, END, Key, STOOD, at_place, between};
use crate::others::place_other;
use crate::record::KeptRecord;
use crate::undo::Undo;
use vr_space::{Kept, Whence};
use vr_types::{Bytes, PartNo, Place, Unit};

impl Kept for Undo {
    ghost use Rattle.vr_undo.specs.PutBack.{lengths_kept};
    ghost use Rattle.vr_undo.specs.Records.{images_in};
    ghost use Rattle.vr_undo.specs.Ascending.{kept-ascend};

    ghost kept = { λ undo part. lengths_kept (images_in undo) part.0 };

    ghost ascend = { λ undo part. kept-ascend (images_in undo) part.0 };

    fn longest(&self, part: PartNo, place: &Place) -> Option<u32> {
        longest_in(self.records(), self.order(), part, place)
    }

    fn next_kept(&self, part: PartNo, from: Whence<'_>) -> Option<&Place> {
        next_in(self.records(), self.order(), part, from)
    }
}

/// The length of the longest record of a place of a part.
fn longest_in(records: &[KeptRecord], order: &[usize], part: PartNo, place: &Place) -> Option<u32>
    requires short { AreShort records.now }
    requires order { IsOrder records.now order.now }
    ensures { result ≡ length_at (lengths_kept (images_in records.now) part.0) place.now }
{
    longest_of(
        records,
        at_place(records, order, part, STOOD, place),
        part,
        place,
    )
}

/// The length of the longest record of the place, of those of these numbers.
fn longest_of(records: &[KeptRecord], numbers: &[usize], part: PartNo, place: &Place) -> Option<u32>
    requires short { AreShort records.now }
    requires numbers { AreNumbers records.now numbers.now }
    ensures { (least : ℕ) → is_as_long least result
        ≡ list_any (is_longer_at part.0 place.now least records.now) numbers.now }
{
    let mut longest = None;
    for number in numbers {
        longest = longer(longest, length_there(&records[*number].logged, part, place));
    }
    longest
}

/// The length of the record of a before-image, where it is of the place and there was a record.
fn length_there(image: &Option<Before>, part: PartNo, place: &Place) -> Option<u32>
    requires { IsShortBefore image.now }
    ensures { result ≡ length_there part.0 place.now image.now }
{
    let before = image.as_ref()?;
    if is_there(before, part, place) {
        length_of(&before.old)
    } else {
        None
    }
}

/// Whether a before-image is of the place.
fn is_there(before: &Before, part: PartNo, place: &Place) -> bool
    ensures { result ≡ is_there part.0 place.now before.now }
{
    before.part.0 == part.0 && place.as_slice().cmp(before.place.as_slice()).is_eq()
}

/// The length of a record, if there is one.
fn length_of(old: &Option<Bytes>) -> Option<u32>
    requires { IsShortOld old.now }
    ensures { result ≡ length_when true old.now }
{
    match old {
        Some(bytes) => Some(bytes.len() as u32),
        None => None,
    }
}

/// The longer of two lengths.
fn longer(one: Option<u32>, other: Option<u32>) -> Option<u32>
    ensures { result ≡ longer one other }
{
    match (one, other) {
        (Some(one), Some(other)) => Some(one.max(other)),
        (Some(one), None) => Some(one),
        (None, other) => other,
    }
}

/// The least place of a record of a part that a search may find.
fn next_in<'a>(
    records: &'a [KeptRecord],
    order: &[usize],
    part: PartNo,
    from: Whence<'_>,
) -> Option<&'a Place>
    requires alike { AreAlike records.now }
    requires order { IsOrder records.now order.now }
    ensures { option_copied result ≡ first_allowed from.entry
        (places_kept (lengths_kept (images_in records.now) part.0)) }
{
    first_place(records, order, Whose::Log, part, from)
}

/// Whose before-images a search iterates over: those that the log has, or those of other units.
#[derive(Clone, Copy)]
pub(crate) enum Whose {
    Log,
    Others(Unit),
}

/// The least place of these before-images of a part that a search may find.
pub(crate) fn first_place<'a>(
    records: &'a [KeptRecord],
    order: &[usize],
    whose: Whose,
    part: PartNo,
    from: Whence<'_>,
) -> Option<&'a Place>
    requires alike { AreAlike records.now }
    requires order { IsOrder records.now order.now }
    ensures { IsLeastBy (place_by whose part.0 from.entry) records.now (option_copied result) }
{
    let numbers = in_part(records, order, part, from);
    for number in numbers {
        if let Some(place) = place_by(&records[*number], whose, part, from) {
            return Some(place);
        }
    }
    None
}

/// The records of a part that stood at places that a search may find: their numbers, in order.
fn in_part<'a>(
    records: &[KeptRecord],
    order: &'a [usize],
    part: PartNo,
    from: Whence<'_>,
) -> &'a [usize]
    requires { IsOrder records.now order.now }
    ensures numbers { AreNumbers records.now result.now }
    ensures all { (number : ℕ) (place : List ℕ) → Contains order.now number
        → key_at records.now number ≡ part.0 ∷ 1 ∷ place → allows from.entry place ≡ true
        → Contains result.now number }
    ensures sorted { IsInOrder records.now result.now }
{
    let end = Key {
        part,
        shelf: END,
        place: &[],
    };
    let past = Bound {
        key: end,
        past: false,
    };
    between(records, order, low_bound(part, from), past)
}

/// Where the records that a search may find begin.
fn low_bound(part: PartNo, from: Whence<'_>) -> Bound<'_>
    ensures { (place : List ℕ)
        → comes_before result (part.0 ∷ 1 ∷ place) ≡ not (allows from.entry place) }
{
    match from {
        Whence::Start => stood_from(part, &[], false),
        Whence::At(least) => stood_from(part, least.as_slice(), false),
        Whence::After(last) => stood_from(part, last.as_slice(), true),
        Whence::Above(low) => stood_from(part, low, true),
    }
}

/// Where the records that stood begin, of the places from a low one or past it.
fn stood_from(part: PartNo, low: &[u8], past: bool) -> Bound<'_>
    ensures { (place : List ℕ) → comes_before result (part.0 ∷ 1 ∷ place)
        ≡ not (cond past (is_lt (place_cmp low.now place)) (is_le (place_cmp low.now place))) }
{
    let key = Key {
        part,
        shelf: STOOD,
        place: low,
    };
    Bound { key, past }
}

/// The place of a before-image of the record, where a search may find it.
fn place_by<'a>(
    one: &'a KeptRecord,
    whose: Whose,
    part: PartNo,
    from: Whence<'_>,
) -> Option<&'a Place>
    ensures { option_copied result ≡ place_by whose part.0 from.entry one.now }
{
    match whose {
        Whose::Log => place_allowed(&one.logged, part, from),
        Whose::Others(unit) => place_other(one, unit, part, from),
    }
}

/// The place of a before-image, where it is of the part, there was a record, and a search may find
/// it.
pub(crate) fn place_allowed<'a>(
    image: &'a Option<Before>,
    part: PartNo,
    from: Whence<'_>,
) -> Option<&'a Place>
    ensures { option_copied result ≡ place_allowed part.0 from.entry image.now }
{
    let before = image.as_ref()?;
    if before.part.0 == part.0 && is_allowed(from, &before.place) && before.old.is_some() {
        Some(&before.place)
    } else {
        None
    }
}

/// Whether a search may find a place.
fn is_allowed(from: Whence<'_>, place: &Place) -> bool
    ensures { result ≡ allows from.entry place.now }
{
    match from {
        Whence::Start => true,
        Whence::At(least) => least.as_slice().cmp(place.as_slice()).is_le(),
        Whence::After(last) => last.as_slice().cmp(place.as_slice()).is_lt(),
        Whence::Above(low) => low.cmp(place.as_slice()).is_lt(),
    }
}
