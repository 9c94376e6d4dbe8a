//! What a change of a base record does to the pairs over it.
ghost use Rattle.std.specs.Prelude.{◌≡◌, ◌++◌, IfOk, OnOk, bytes_eq};
ghost use Rattle.std.specs.Option.{option_copied, option_eq};
ghost use Rattle.vr_altkey.specs.Changes.{
  pair_changes,
  changes_in,
  change_of as one_change,
  field_in,
};

use crate::definition::{AltDef, AltList, PairChange, PairChanges};
use crate::pairing::{field, pair};
use std::alloc::Global;
use vr_types::{OutOfMemory, Place};

/// The pairs that go and come where the record at a place of the base changes from `old` to `new`:
/// for each alternate index in the order of the list, the pair removed and then the pair added, and
/// neither where both records have one field.
pub fn changes(
    alloc: Global,
    alternates: &AltList,
    place: &Place,
    old: Option<&[u8]>,
    new: Option<&[u8]>,
) -> Result<PairChanges, OutOfMemory>
    ensures { IfOk result (λ changes. changes ≡ pair_changes alternates.now place.now
        (option_copied old.entry) (option_copied new.entry)) }
{
    let mut changes = PairChanges::new(alloc);
    for def in alternates.as_slice() {
        add_changes(alloc, def, place, old, new, &mut changes)?;
    }
    Ok(changes)
}

/// Adds the changes of one alternate index.
#[tactic(auto, unfolding(crate::specs::Changes::changes_in))]
fn add_changes(
    alloc: Global,
    def: &AltDef,
    place: &Place,
    old: Option<&[u8]>,
    new: Option<&[u8]>,
    changes: &mut PairChanges,
) -> Result<(), OutOfMemory>
    ensures { OnOk result (changes.new ≡ changes.old ++ changes_in place.now
        (option_copied old.entry) (option_copied new.entry) def.now) }
{
    if same_field(def, old, new) {
        return Ok(());
    }
    add_change(alloc, def, place, old, false, changes)?;
    add_change(alloc, def, place, new, true, changes)
}

/// Whether both records have one field, or neither has any.
fn same_field(def: &AltDef, old: Option<&[u8]>, new: Option<&[u8]>) -> bool
    ensures { result ≡ option_eq bytes_eq
        (field_in def.now.length def.now.offset (option_copied old.entry))
        (field_in def.now.length def.now.offset (option_copied new.entry)) }
{
    match (field_of_record(def, old), field_of_record(def, new)) {
        (None, None) => true,
        (Some(one), Some(other)) => one == other,
        _ => false,
    }
}

/// The field of a record that there may be.
fn field_of_record<'a>(def: &AltDef, bytes: Option<&'a [u8]>) -> Option<&'a [u8]>
    ensures { option_copied result ≡ field_in def.now.length def.now.offset
        (option_copied bytes.entry) }
{
    match bytes {
        None => None,
        Some(bytes) => field(def, bytes),
    }
}

/// Adds the pair of a record, if it has one, as added or as removed.
fn add_change(
    alloc: Global,
    def: &AltDef,
    place: &Place,
    bytes: Option<&[u8]>,
    added: bool,
    changes: &mut PairChanges,
) -> Result<(), OutOfMemory>
    ensures { OnOk result (changes.new ≡ changes.old ++ one_change place.now
        (option_copied bytes.entry) added def.now) }
{
    let Some(bytes) = bytes else {
        return Ok(());
    };
    let Some(pair) = pair(alloc, def, place, bytes)? else {
        return Ok(());
    };
    changes.push(PairChange {
        part: def.part,
        place: pair,
        added,
    })?;
    Ok(())
}
