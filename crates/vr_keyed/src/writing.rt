//! Writing an interval with a record set or taken away.
ghost use Rattle.std.specs.Prelude.{◌≡◌, ◌+◌, ◌-◌, ◌<◌, ◌≤◌, ◌++◌, ℕ, List, [], All, IsTrue};
ghost use Rattle.std.specs.Prelude.{IfSome};
ghost use Rattle.std.specs.Prelude.{false, length, vec_len};
ghost use Rattle.std.specs.Borrow.{Bor};
ghost use Rattle.std.specs.Option.{option_map};
ghost use Rattle.std.specs.List.{AllByRecursion};
ghost use Rattle.vr_ci_match.specs.declared.form.Form.TheVariants.{Plain};
ghost use Rattle.vr_ci_match.specs.declared.form.Shape.TheVariants as shapes;
ghost use Rattle.vr_ci.specs.Interval as ci;
ghost use Rattle.vr_ci.specs.Writer.{Holds, form_of, size_of, buffer_of};
ghost use Rattle.vr_space.specs.Keyed.{HoldsRange, IsKept, items_of};
ghost use Rattle.vr_space.specs.Part.{given};
ghost use Rattle.vr_keyed.specs.Setting.{items_given, items_set};
ghost use Rattle.vr_keyed.specs.Slots.{low_kept, met_in};

use crate::in_place::write_in_place;
use crate::slot::Slot;
use crate::stretch::{Stretch, add_stretch};
use vr_ci::{CiView, CiWriter, Form};
use vr_space::Layout;

/// Adds the record that is given, if one is. It answers false where it has no room.
fn add_given(bytes: Option<&[u8]>, writer: &mut CiWriter<'_>) -> bool
    requires plain { form_of writer.old ≡ Plain }
    ensures added { (items : List ci.Item) → Holds writer.old items
        → IfSome (given bytes.entry) (λ record_given. 0 < length record_given)
        → ci.room items + ci.room (items_given (given bytes.entry)) ≤ size_of writer.old - 4
        → IsTrue result × Holds writer.new (items ++ items_given (given bytes.entry)) }
    ensures form { form_of writer.new ≡ form_of writer.old }
    ensures size { size_of writer.new ≡ size_of writer.old }
    ensures buffer { buffer_of writer.new ≡ buffer_of writer.old }
{
    let Some(bytes) = bytes else {
        return true;
    };
    if bytes.is_empty() {
        return false;
    }
    writer.add(bytes, true).is_ok()
}

/// Adds the records of an interval's range, with what is given in place of the one at a place.
fn add_set(
    layout: &Layout,
    view: &CiView<'_>,
    slot: &Slot,
    place: &[u8],
    bytes: Option<&[u8]>,
    writer: &mut CiWriter<'_>,
) -> bool
    requires plain { form_of writer.old ≡ Plain }
    requires items { AllByRecursion ci.IsItem view.now.items }
    ensures added { Holds writer.old [] → All (IsKept layout.now) view.now.items
        → IfSome (given bytes.entry) (λ record_given. 0 < length record_given)
        → ci.room (items_set layout.now (met_in slot.now).range place.now (given bytes.entry)
        view.now.items) ≤ size_of writer.old - 4
        → IsTrue result × Holds writer.new
        (items_set layout.now (met_in slot.now).range place.now (given bytes.entry)
        view.now.items) }
    ensures form { form_of writer.new ≡ form_of writer.old }
    ensures size { size_of writer.new ≡ size_of writer.old }
    ensures buffer { buffer_of writer.new ≡ buffer_of writer.old }
{
    let below = Stretch {
        low: slot.low_place(),
        high: place,
        most: false,
    };
    let above = Stretch {
        low: Some(place),
        high: slot.high.as_slice(),
        most: true,
    };
    if !add_stretch(layout, view, &below, writer) {
        return false;
    }
    if !add_given(bytes, writer) {
        return false;
    }
    add_stretch(layout, view, &above, writer)
}

/// Writes the interval of a slot with what is given in place of the record at a place: its records
/// in its range alone, and not busy. A record as long as the one that stands there is written over
/// it, and nothing is moved. It answers false where it is no interval or they have no room.
pub(crate) fn write_set(
    layout: &Layout,
    slot: &Slot,
    place: &[u8],
    bytes: Option<&[u8]>,
    out: &mut [u8],
) -> bool
    requires size { length out.old ≡ vec_len slot.now.bytes }
    ensures written { HoldsRange layout.now (met_in slot.now).range slot.now.bytes.items
        → IfSome (given bytes.entry) (λ record_given. 0 < length record_given)
        → ci.room (items_set layout.now (met_in slot.now).range place.now (given bytes.entry)
        (items_of slot.now.bytes.items)) ≤ length out.old - 4
        → IsTrue result × ci.IsInterval Plain out.new (record {
          shape = shapes.Records;
          items = items_set layout.now (met_in slot.now).range place.now (given bytes.entry)
              (items_of slot.now.bytes.items);
          busy = false;
        }) }
{
    let Ok(view) = CiView::read(Form::Plain, slot.bytes.as_slice()) else {
        return false;
    };
    if write_in_place(layout, &view, slot, place, bytes, out) {
        return true;
    }
    let mut writer = CiWriter::begin(Form::Plain, out);
    if !add_set(layout, &view, slot, place, bytes, &mut writer) {
        return false;
    }
    writer.end(false);
    true
}
