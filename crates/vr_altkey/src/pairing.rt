//! The pair that an alternate index has of a base record.
ghost use Rattle.std.specs.Prelude.{◌≡◌, IfOk};
ghost use Rattle.std.specs.Option.{option_copied};
ghost use Rattle.vr_altkey.specs.Pairs.{field_of, pair_place_of};

use crate::definition::AltDef;
use std::alloc::Global;
use vr_types::{OutOfMemory, Place};

/// The place of the pair that the alternate index has of a base record: the alternate field and
/// then the base place. None comes exactly where the record is too short for the field.
pub fn pair(
    alloc: Global,
    def: &AltDef,
    place: &Place,
    bytes: &[u8],
) -> Result<Option<Place>, OutOfMemory>
    ensures { IfOk result
        (λ pair. pair ≡ pair_place_of def.now.length def.now.offset place.now bytes.now) }
{
    let Some(field) = field(def, bytes) else {
        return Ok(None);
    };
    let mut pair = Vec::with_capacity(alloc, field.len() + place.as_slice().len())?;
    pair.extend_from_slice(field)?;
    pair.extend_from_slice(place.as_slice())?;
    Ok(Some(Place::from_vec(pair)))
}

/// The alternate field of a record, if the record is long enough for it.
pub(crate) fn field<'a>(def: &AltDef, bytes: &'a [u8]) -> Option<&'a [u8]>
    ensures { option_copied result ≡ field_of def.now.length def.now.offset bytes.now }
{
    let from = def.offset as usize;
    let to = from + def.length as usize;
    if to <= bytes.len() {
        Some(&bytes[from..to])
    } else {
        None
    }
}
