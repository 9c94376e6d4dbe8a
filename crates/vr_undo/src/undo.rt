//! The before-images of all units of recovery of a volume.
ghost use Rattle.std.specs.Prelude.{◌≡◌, ◌++◌, ◌∷◌, ◌&&◌, [], ◌+◌, List, IfOk, OnErr, OnOk, filter, not};
ghost use Rattle.std.specs.Prelude.{option_map, true, ◌<◌, vec_capacity, vec_len, length, slice_index_or};
ghost use Rattle.std.specs.List.{remove};
ghost use Rattle.std.specs.Option.{option_copied};
ghost use Rattle.vr_history.specs.Effects.{is_other, without_last};
ghost use Rattle.vr_undo.specs.declared.record.KeptRecord.{KeptRecord};
ghost use Rattle.vr_undo.specs.Records.{before_of, befores_of, has_at, image_of, images_in};
ghost use Rattle.vr_undo.specs.Records.{is_logged_in, is_record_at, last_in, logged_of};
ghost use Rattle.vr_undo.specs.Records.{pair_record, with_image, with_last_out, with_logged};
ghost use Rattle.vr_undo.specs.Records.{with_record, without_last_by, without_unit};
ghost use Rattle.vr_undo.specs.Lengths.{AreShort, IsShort};
ghost use Rattle.vr_undo.specs.Order.{AreAlike, HasRoom, IsAlike, IsKept, IsLive, IsOrder};
ghost use Rattle.vr_undo.specs.Searched.{images_by, out_of, record_at};

use crate::before::Before;
use crate::order::{list_kept, list_new, make_room, relist, unlist};
use crate::record::{
    KeptRecord, Which, has_image, is_unit, last_at, last_before, last_kept, new_record,
};
use std::alloc::Global;
use std::marker::Model;
use vr_types::{OutOfMemory, PartNo, Place, Unit};

/// The before-images of the units of recovery that haven't ended, in the order in which they were
/// kept, and the places of alternate indexes that these units changed.
#[derive(Drop)]
pub struct Undo {
    alloc: Global,
    records: Vec<KeptRecord>,
    /// The numbers of the records that have a before-image, by part and place.
    order: Vec<usize>,
    /// The numbers of those that units may put back, as they were kept.
    live: Vec<usize>,
}

impl Model for Undo {
    ghost use Rattle.std.specs.Prelude.{List};
    ghost use Rattle.vr_undo.specs.declared.record.KeptRecord.{KeptRecord};
    ghost use Rattle.std.specs.Prelude.{vec_capacity};
    ghost use Rattle.vr_undo.specs.Order.{IsKept};

    ghost Value = { List KeptRecord };

    ghost view = { λ undo. undo.records.items };

    ghost invariant = { λ undo. IsKept undo.records.items undo.order.items undo.live.items
        (vec_capacity undo.order) (vec_capacity undo.live) };
}

impl Undo {
    /// Nothing is kept, which takes no memory.
    pub fn new(alloc: Global) -> Undo
        ensures { result ≡ [] }
    {
        Undo {
            alloc,
            records: Vec::new(alloc),
            order: Vec::new(alloc),
            live: Vec::new(alloc),
        }
    }

    /// Keeps the record that stood at a place of a cluster, or that none did, as the unit's
    /// before-image of the place, where it keeps none: the first that the unit makes of the place,
    /// or the first since one was put back. It answers whether anything is new. The log's one is
    /// the first of all, so nothing is new there where the log has one. It fails only if memory
    /// runs out, and a record of 4 GiB or more counts as one for which there is none.
    pub fn keep(
        &mut self,
        unit: Unit,
        part: PartNo,
        place: &Place,
        old: Option<&[u8]>,
    ) -> Result<bool, OutOfMemory>
        ensures kept { OnOk result (self.new ≡ with_record unit
            (before_of part place.now (option_copied old.entry))
            (has_at unit part.0 place.now (images_in self.old))
            (has_at unit part.0 place.now (befores_of self.old)) self.old) }
        ensures first { IfOk result (λ first. first ≡ not
            (has_at unit part.0 place.now (images_in self.old)
            && has_at unit part.0 place.now (befores_of self.old))) }
        ensures befores { OnOk result (befores_of self.new ≡ with_image unit
            (image_of unit (before_of part place.now (option_copied old.entry)))
            (befores_of self.old)) }
        ensures images { OnOk result (images_in self.new ≡ with_image unit
            (image_of unit (before_of part place.now (option_copied old.entry)))
            (images_in self.old)) }
        ensures logged { OnOk result
            (logged_of self.new ≡ with_logged unit part.0 place.now (logged_of self.old)) }
        ensures err { OnErr result (self.new ≡ self.old) }
    {
        let logged = self.has(Which::Logged, unit, part, place);
        let kept = self.has(Which::Kept, unit, part, place);
        self.add(unit, part, place, old, logged, kept)
    }

    /// Keeps the place of an alternate index whose pair goes or comes, where the log has none of
    /// the unit; `there` says whether the pair stood. It answers whether that is new, and fails
    /// only if memory runs out.
    pub fn keep_pair(
        &mut self,
        unit: Unit,
        part: PartNo,
        place: &Place,
        there: bool,
    ) -> Result<bool, OutOfMemory>
        ensures kept { OnOk result (self.new ≡ with_record unit
            (before_of part place.now (pair_record there place.now))
            (has_at unit part.0 place.now (images_in self.old)) true self.old) }
        ensures first { IfOk result (λ first. first
            ≡ not (has_at unit part.0 place.now (images_in self.old))) }
        ensures befores { OnOk result (befores_of self.new ≡ befores_of self.old) }
        ensures images { OnOk result (images_in self.new ≡ with_image unit
            (image_of unit (before_of part place.now (pair_record there place.now)))
            (images_in self.old)) }
        ensures logged { OnOk result
            (logged_of self.new ≡ with_logged unit part.0 place.now (logged_of self.old)) }
        ensures err { OnErr result (self.new ≡ self.old) }
    {
        let logged = self.has(Which::Logged, unit, part, place);
        let pair = pair_record(there, place);
        self.add(unit, part, place, pair, logged, true)
    }

    /// Takes back what `keep` or `keep_pair` last answered true for at this place, where the request
    /// is refused after all. It takes no memory.
    pub fn unkeep(&mut self, unit: Unit, part: PartNo, place: &Place)
        ensures without { self.new
            ≡ without_last_by (is_record_at unit part.0 place.now) self.old }
        ensures back { (records : List KeptRecord) (last : KeptRecord)
            → self.old ≡ records ++ last ∷ []
            → is_record_at unit part.0 place.now last ≡ true → self.new ≡ records }
    {
        if let Some(at) = last_at(&self.records, unit, part, place) {
            drop_at(&mut self.records, &mut self.order, &mut self.live, at);
        }
    }

    /// The last before-image that the unit may put back, None exactly where there is none.
    pub fn last(&self, unit: Unit) -> Option<&Before>
        ensures { option_map (image_of unit) (option_copied result)
            ≡ last_in unit (befores_of self.now) }
    {
        last_before(self.records(), self.live(), unit)
    }

    /// Takes out the last before-image that the unit may put back, once it was put back; None
    /// exactly where there is none. The log has it still. It takes no memory.
    pub fn take_one(&mut self, unit: Unit) -> Option<Before>
        ensures value { option_map (image_of unit) result ≡ last_in unit (befores_of self.old) }
        ensures out { self.new ≡ with_last_out unit self.old }
        ensures befores { befores_of self.new ≡ without_last unit (befores_of self.old) }
        ensures images { images_in self.new ≡ images_in self.old }
    {
        match last_kept(&self.records, &self.live, unit) {
            Some(at) => take_kept(&mut self.records, &mut self.order, &mut self.live, at),
            None => None,
        }
    }

    /// Forgets all that is kept of a unit, which ends. It takes no memory.
    pub fn forget(&mut self, unit: Unit)
        ensures without { self.new ≡ without_unit unit self.old }
        ensures befores { befores_of self.new
            ≡ filter (λ kept. is_other unit kept.unit) (befores_of self.old) }
        ensures images { images_in self.new
            ≡ filter (λ image. is_other unit image.unit) (images_in self.old) }
        ensures logged { logged_of self.new
            ≡ filter (λ log. is_other unit log.unit) (logged_of self.old) }
    {
        self.records.retain(|one| !is_unit(unit, one.unit));
        relist(&self.records, &mut self.order, &mut self.live);
    }

    /// Whether the log has a before-image of the place for the unit.
    pub fn is_logged(&self, unit: Unit, part: PartNo, place: &Place) -> bool
        ensures { result ≡ is_logged_in unit part.0 place.now (logged_of self.now) }
    {
        self.has(Which::Logged, unit, part, place)
    }

    /// All that is kept, in the order in which it was.
    pub(crate) fn records(&self) -> &[KeptRecord]
        ensures kept { result.now ≡ self.now }
        ensures short { AreShort self.now }
        ensures alike { AreAlike self.now }
    {
        self.records.as_slice()
    }

    /// The numbers of the records that have a before-image, by part and place.
    pub(crate) fn order(&self) -> &[usize]
        ensures { IsOrder self.now result.now }
    {
        self.order.as_slice()
    }

    /// The numbers of the records that units may put back, as they were kept.
    fn live(&self) -> &[usize]
        ensures { IsLive self.now result.now }
    {
        self.live.as_slice()
    }

    /// Whether a record has such a before-image of the place for the unit.
    fn has(&self, which: Which, unit: Unit, part: PartNo, place: &Place) -> bool
        ensures { result ≡ has_at unit part.0 place.now (images_by which self.now) }
    {
        has_image(self.records(), self.order(), which, unit, part, place)
    }

    /// Adds a record of what isn't there yet, and answers whether there is any.
    fn add(
        &mut self,
        unit: Unit,
        part: PartNo,
        place: &Place,
        old: Option<&[u8]>,
        logged: bool,
        kept: bool,
    ) -> Result<bool, OutOfMemory>
        ensures kept { OnOk result (self.new ≡ with_record unit
            (before_of part place.now (option_copied old.entry)) logged kept self.old) }
        ensures first { IfOk result (λ first. first ≡ not (logged && kept)) }
        ensures err { OnErr result (self.new ≡ self.old) }
    {
        if logged && kept {
            return Ok(false);
        }
        make_room(&mut self.order, &self.records)?;
        make_room(&mut self.live, &self.records)?;
        self.records.reserve(1)?;
        let made = new_record(self.alloc, unit, part, place, old, logged, kept)?;
        put(&mut self.records, &mut self.order, &mut self.live, made);
        Ok(true)
    }
}

/// Puts a record at the end. There is room for it.
fn put(
    records: &mut Vec<KeptRecord>,
    order: &mut Vec<usize>,
    live: &mut Vec<usize>,
    made: KeptRecord,
)
    requires kept { IsKept records.old.items order.old.items live.old.items
        (vec_capacity order.old) (vec_capacity live.old) }
    requires room { vec_len records.old < vec_capacity records.old }
    requires order { HasRoom records.old.items order.old.items (vec_capacity order.old) }
    requires live { HasRoom records.old.items live.old.items (vec_capacity live.old) }
    requires short { IsShort made }
    requires alike { IsAlike made }
    ensures records { records.new.items ≡ records.old.items ++ made ∷ [] }
    ensures kept { IsKept records.new.items order.new.items live.new.items
        (vec_capacity order.new) (vec_capacity live.new) }
{
    list_new(records, &made, order);
    list_kept(records, &made, live);
    records.push_reserved(made);
}

/// Drops a record. The later ones move down.
fn drop_at(records: &mut Vec<KeptRecord>, order: &mut Vec<usize>, live: &mut Vec<usize>, at: usize)
    requires kept { IsKept records.old.items order.old.items live.old.items
        (vec_capacity order.old) (vec_capacity live.old) }
    requires at { at < length records.old.items }
    ensures records { records.new.items ≡ remove records.old.items at }
    ensures kept { IsKept records.new.items order.new.items live.new.items
        (vec_capacity order.new) (vec_capacity live.new) }
{
    if at + 1 == records.len() {
        drop_end(records, order, live, at);
    } else {
        drop_inside(records, order, live, at);
    }
}

/// Drops the last record, so that the numbers of the others stay.
fn drop_end(records: &mut Vec<KeptRecord>, order: &mut Vec<usize>, live: &mut Vec<usize>, at: usize)
    requires kept { IsKept records.old.items order.old.items live.old.items
        (vec_capacity order.old) (vec_capacity live.old) }
    requires at { at + 1 ≡ length records.old.items }
    ensures records { records.new.items ≡ remove records.old.items at }
    ensures kept { IsKept records.new.items order.new.items live.new.items
        (vec_capacity order.new) (vec_capacity live.new) }
{
    records.remove(at);
    order.retain(|number| *number != at);
    live.retain(|number| *number != at);
}

/// Drops a record, and lists the others anew.
fn drop_inside(
    records: &mut Vec<KeptRecord>,
    order: &mut Vec<usize>,
    live: &mut Vec<usize>,
    at: usize,
)
    requires kept { IsKept records.old.items order.old.items live.old.items
        (vec_capacity order.old) (vec_capacity live.old) }
    requires at { at < length records.old.items }
    ensures records { records.new.items ≡ remove records.old.items at }
    ensures kept { IsKept records.new.items order.new.items live.new.items
        (vec_capacity order.new) (vec_capacity live.new) }
{
    records.remove(at);
    relist(records, order, live);
}

/// Takes out the before-image that a unit may put back, of the record at a place of the list of
/// these.
fn take_kept(
    records: &mut Vec<KeptRecord>,
    order: &mut Vec<usize>,
    live: &mut Vec<usize>,
    at: usize,
) -> Option<Before>
    requires kept { IsKept records.old.items order.old.items live.old.items
        (vec_capacity order.old) (vec_capacity live.old) }
    requires at { at < length live.old.items }
    ensures value { result
        ≡ (record_at records.old.items (slice_index_or live.old.items at 0)).kept }
    ensures records { records.new.items
        ≡ out_of records.old.items (slice_index_or live.old.items at 0) }
    ensures kept { IsKept records.new.items order.new.items live.new.items
        (vec_capacity order.new) (vec_capacity live.new) }
{
    let number = live.remove(at);
    unlist(&records[number], number, order);
    records[number].kept.take()
}

/// The record that a pair is: the pair itself.
fn pair_record(there: bool, place: &Place) -> Option<&[u8]>
    ensures { option_copied result ≡ pair_record there place.now }
{
    if there { Some(place.as_slice()) } else { None }
}
