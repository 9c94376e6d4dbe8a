//! Kept records, and searches among them.
ghost use Rattle.std.specs.Prelude.{◌≡◌, IfOk, MatchOption, option_map, false};
ghost use Rattle.std.specs.List.{list_any};
ghost use Rattle.std.specs.Option.{option_copied};
ghost use Rattle.vr_types.specs.Locks.{same_unit};
ghost use Rattle.vr_undo.specs.Records.{befores_of, image_of, is_record_at, has_at, last_in};
ghost use Rattle.vr_undo.specs.Records.{before_of, keeps_for, kept_image, logged_image, new_record};
ghost use Rattle.vr_undo.specs.Records.{some_at};
ghost use Rattle.vr_undo.specs.Found.{IsLastAt};
ghost use Rattle.vr_undo.specs.Lengths.{IsShort};
ghost use Rattle.vr_undo.specs.Order.{AreAlike, AreNumbers, IsAlike, IsLive, IsOrder};
ghost use Rattle.vr_undo.specs.Searched.{IsLastLive, has_image_at, image_by, images_by};

use crate::before::{Before, unless_there};
use crate::order::{FREE, STOOD, at_place};
use std::alloc::Global;
use vr_types::{OutOfMemory, PartNo, Place, Unit};

/// What is kept of a unit of recovery for one place. The log has `logged`. The unit may put `kept`
/// back: it is none for the place of an alternate index, and once it was put back. `logged` is none
/// where the log had one of the place already, of a change that was put back.
#[derive(Drop)]
pub(crate) struct KeptRecord {
    pub(crate) unit: Unit,
    pub(crate) logged: Option<Before>,
    pub(crate) kept: Option<Before>,
}

/// A record of what isn't there yet.
pub(crate) fn new_record(
    alloc: Global,
    unit: Unit,
    part: PartNo,
    place: &Place,
    old: Option<&[u8]>,
    logged: bool,
    kept: bool,
) -> Result<KeptRecord, OutOfMemory>
    ensures value { IfOk result (λ made. made ≡ new_record unit
        (before_of part place.now (option_copied old.entry)) logged kept) }
    ensures short { IfOk result IsShort }
    ensures alike { IfOk result IsAlike }
{
    let logged = unless_there(alloc, logged, part, place, old)?;
    let kept = unless_there(alloc, kept, part, place, old)?;
    Ok(KeptRecord { unit, logged, kept })
}

/// Whether two names are of one unit of recovery.
pub(crate) fn is_unit(unit: Unit, other: Unit) -> bool
    ensures { result ≡ same_unit unit other }
{
    unit.deck == other.deck && unit.number == other.number
}

/// Whether what is kept of a unit is a before-image of the place for the unit that is asked for.
fn is_at(of: Unit, image: &Option<Before>, unit: Unit, part: PartNo, place: &Place) -> bool
    ensures { result ≡ some_at unit part.0 place.now (option_map (image_of of) image.now) }
{
    match image {
        None => false,
        Some(before) => { is_unit(unit, of) && (before.part.0 == part.0 && *place == before.place) }
    }
}

/// Which before-image of a record.
#[derive(Clone, Copy)]
pub(crate) enum Which {
    Logged,
    Kept,
}

/// The before-image of a record.
fn image(one: &KeptRecord, which: Which) -> &Option<Before>
    ensures { result.now ≡ image_by which one.now }
{
    match which {
        Which::Logged => &one.logged,
        Which::Kept => &one.kept,
    }
}

/// Whether a record has such a before-image of the place for the unit.
pub(crate) fn has_image(
    records: &[KeptRecord],
    order: &[usize],
    which: Which,
    unit: Unit,
    part: PartNo,
    place: &Place,
) -> bool
    requires alike { AreAlike records.now }
    requires order { IsOrder records.now order.now }
    ensures { result ≡ has_at unit part.0 place.now (images_by which records.now) }
{
    let free = at_place(records, order, part, FREE, place);
    let stood = at_place(records, order, part, STOOD, place);
    let of_free = any_at(records, free, which, unit, part, place);
    let of_stood = any_at(records, stood, which, unit, part, place);
    of_free || of_stood
}

/// Whether one of these records has such a before-image of the place for the unit.
fn any_at(
    records: &[KeptRecord],
    numbers: &[usize],
    which: Which,
    unit: Unit,
    part: PartNo,
    place: &Place,
) -> bool
    requires { AreNumbers records.now numbers.now }
    ensures { result ≡ list_any (has_image_at which unit part.0 place.now records.now) numbers.now }
{
    for number in numbers {
        let one = &records[*number];
        if is_at(one.unit, image(one, which), unit, part, place) {
            return true;
        }
    }
    false
}

/// Whether the unit may put this one back.
fn keeps_for(unit: Unit, one: &KeptRecord) -> bool
    ensures { result ≡ keeps_for unit one.now }
{
    one.kept.is_some() && is_unit(unit, one.unit)
}

/// The place in the list of live ones of the last that the unit may put back.
pub(crate) fn last_kept(records: &[KeptRecord], live: &[usize], unit: Unit) -> Option<usize>
    requires { IsLive records.now live.now }
    ensures { MatchOption result (list_any (keeps_for unit) records.now ≡ false)
        (IsLastLive unit records.now live.now) }
{
    let mut at = live.len();
    while at > 0 {
        at -= 1;
        if keeps_for(unit, &records[live[at]]) {
            return Some(at);
        }
    }
    None
}

/// The last before-image that the unit may put back.
pub(crate) fn last_before<'a>(
    records: &'a [KeptRecord],
    live: &[usize],
    unit: Unit,
) -> Option<&'a Before>
    requires { IsLive records.now live.now }
    ensures { option_map (image_of unit) (option_copied result)
        ≡ last_in unit (befores_of records.now) }
{
    match last_kept(records, live, unit) {
        Some(at) => records[live[at]].kept.as_ref(),
        None => None,
    }
}

/// Whether a record has a before-image of the place for the unit.
fn is_record_at(one: &KeptRecord, unit: Unit, part: PartNo, place: &Place) -> bool
    ensures { result ≡ is_record_at unit part.0 place.now one.now }
{
    is_at(one.unit, &one.logged, unit, part, place) || is_at(one.unit, &one.kept, unit, part, place)
}

/// The last one with a before-image of the place for the unit.
pub(crate) fn last_at(
    records: &[KeptRecord],
    unit: Unit,
    part: PartNo,
    place: &Place,
) -> Option<usize>
    ensures { MatchOption result
        (list_any (is_record_at unit part.0 place.now) records.now ≡ false)
        (IsLastAt (is_record_at unit part.0 place.now) records.now) }
{
    let mut at = records.len();
    while at > 0 {
        at -= 1;
        if is_record_at(&records[at], unit, part, place) {
            return Some(at);
        }
    }
    None
}
