//! Writing a record over the one at its place.
ghost use Rattle.std.specs.Prelude.{◌≡◌, ◌<◌, ◌^◌, false, length, vec_len, IsTrue, IfSome};
ghost use Rattle.std.specs.List.{flat_map};
ghost use Rattle.vr_ci_match.specs.declared.form.Form.TheVariants.{Plain};
ghost use Rattle.vr_ci_match.specs.declared.form.Shape.TheVariants as shapes;
ghost use Rattle.vr_ci.specs.Interval as ci;
ghost use Rattle.vr_space.specs.Keyed.{HoldsRange, items_of};
ghost use Rattle.vr_space.specs.Part.{given};
ghost use Rattle.vr_keyed.specs.InPlace.{StandsHere};
ghost use Rattle.vr_keyed.specs.Setting.{items_set};
ghost use Rattle.vr_keyed.specs.Slots.{met_in};

use crate::slot::Slot;
use vr_ci::{CiView, write_over};
use vr_space::Layout;

/// Where the record at a place begins in its interval, if one of this length stands there.
fn place_of(layout: &Layout, view: &CiView<'_>, place: &[u8], size: usize) -> Option<usize>
    requires short { length (flat_map ci.bytes_of view.now.items) < 2 ^ 63 }
    ensures { IfSome result (λ at.
        StandsHere layout.now place.now size at view.now.items) }
{
    let mut records = view.iter();
    let mut at: usize = 0;
    for _ in 0..view.count() {
        let (record, _) = records.next()?;
        if layout.is_at(record, place) {
            return if record.len() == size { Some(at) } else { None };
        }
        at += record.len();
    }
    None
}

/// Writes the interval of a slot, which was read, with the record that is given over the one at its
/// place, where that one is as long and the interval isn't busy. It answers false where it wrote
/// nothing.
pub(crate) fn write_in_place(
    layout: &Layout,
    view: &CiView<'_>,
    slot: &Slot,
    place: &[u8],
    bytes: Option<&[u8]>,
    out: &mut [u8],
) -> bool
    requires size { length out.old ≡ vec_len slot.now.bytes }
    requires read { ci.IsInterval Plain slot.now.bytes.items view.now }
    ensures written { IsTrue result
        → HoldsRange layout.now (met_in slot.now).range slot.now.bytes.items
        → ci.IsInterval Plain out.new (record {
          shape = shapes.Records;
          items = items_set layout.now (met_in slot.now).range place.now (given bytes.entry)
              (items_of slot.now.bytes.items);
          busy = false;
        }) }
    ensures size { length out.new ≡ length out.old }
{
    let Some(bytes) = bytes else {
        return false;
    };
    if view.busy() {
        return false;
    }
    let Some(at) = place_of(layout, view, place, bytes.len()) else {
        return false;
    };
    out.copy_from_slice(slot.bytes.as_slice());
    write_over(out, at, bytes);
    true
}
