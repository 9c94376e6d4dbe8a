//! What the rules of a head ask of its record.
ghost use Rattle.std.specs.Prelude.{◌≡◌, ◌<◌, ◌↔◌, IsTrue, All, None, IfSome, length, replicate};
ghost use Rattle.vr_seqset.specs.Entry.{Entry};
ghost use Rattle.vr_attach.specs.Damage.{IsOfPart, NamesAreas};

use vr_seqset::{SeqEntries, SeqView};
use vr_space::Layout;

/// Whether an area, where there is one, is below this number of areas.
fn is_there(area: Option<u32>, areas: u32) -> bool
    ensures { IsTrue result ↔ IfSome area (λ area. area < areas) }
{
    match area {
        Some(area) => area < areas,
        None => true,
    }
}

/// Whether each area that a record names is below this number of areas.
pub(crate) fn names_areas(view: &SeqView<'_>, areas: u32) -> bool
    ensures { IsTrue result ↔ NamesAreas areas view.now }
{
    is_there(view.next(), areas) && is_there(view.index_area(), areas)
}

/// Whether each entry has one interval.
pub(crate) fn are_single(entries: SeqEntries<'_>) -> bool
    ensures { IsTrue result
        ↔ All (λ (entry : Entry). length entry.intervals ≡ 1) entries.entry }
{
    for entry in entries {
        if entry.intervals() != 1 {
            return false;
        }
    }
    true
}

/// Whether a record has the flag of the first or hasn't, as is said, and names no index.
pub(crate) fn is_placed(view: &SeqView<'_>, first: bool) -> bool
    ensures { IsTrue result ↔ ((view.now.first ≡ first) × (view.now.top ≡ 0)
        × (view.now.index_area ≡ None)) }
{
    view.first() == first && view.top() == 0 && view.index_area().is_none()
}

/// Whether a record is of the part, and has places of its length.
pub(crate) fn is_of_part(layout: &Layout, view: &SeqView<'_>) -> bool
    ensures { IsTrue result ↔ IsOfPart layout.now view.now }
{
    view.part() == layout.part.0 && view.low().len() == usize::from(layout.key)
}

/// Whether a place is the greatest of this many bytes.
pub(crate) fn is_greatest(place: &[u8], bytes: u16) -> bool
    ensures { IsTrue result ↔ (place.now ≡ replicate bytes 255) }
{
    place.len() == usize::from(bytes) && place.iter().all(|byte| *byte == 255)
}
