//! Writing an interval of slots.
ghost use Rattle.std.specs.Prelude.{◌≡◌, ◌≤◌, ◌<◌, ◌+◌, ◌-◌, ◌*◌, ◌++◌, ◌∷◌, ◌↔◌, [], List, IsTrue};
ghost use Rattle.std.specs.Prelude.{IfSome, length, replicate, slice_set};
ghost use Rattle.vr_ci_match.specs.declared.form.Form.TheVariants as forms;
ghost use Rattle.vr_ci.specs.Interval as ci;
ghost use Rattle.vr_ci.specs.Writer.{Holds, buffer_of, form_of, size_of, written};
ghost use Rattle.vr_space.specs.Part.{given};
ghost use Rattle.vr_space.specs.Slots.{IsSlots, slots_of};
ghost use Rattle.vr_slots.specs.Slot.{AreSlotItems, AreSlotsEmpty, HasSlotRoom, IsSlotSet};
ghost use Rattle.vr_slots.specs.Slot.{empty_slot, slot_given, slot_made};

use crate::reading::interval_of;
use vr_ci::{CiView, CiWriter, Form};
use vr_space::ChainLayout;

/// Adds the next slot.
fn add_slot(layout: &ChainLayout, item: &[u8], live: bool, writer: &mut CiWriter<'_>)
    requires form { form_of writer.old ≡ forms.Slots layout.now.most }
    requires length { length item.now ≡ layout.now.most }
    requires room { HasSlotRoom layout.now writer.old }
    ensures added { (items : List ci.Item) → Holds writer.old items
        → Holds writer.new (items ++ written item.now live ∷ []) }
    ensures form { form_of writer.new ≡ form_of writer.old }
    ensures size { size_of writer.new ≡ size_of writer.old }
    ensures buffer { buffer_of writer.new ≡ buffer_of writer.old }
{
    if writer.add(item, live).is_err() {
        unreachable!("there is room for it")
    }
}

/// Adds the next slot of an interval, or what is given in its place.
fn add_made(
    layout: &ChainLayout,
    item: &[u8],
    live: bool,
    made: bool,
    bytes: Option<&[u8]>,
    writer: &mut CiWriter<'_>,
)
    requires form { form_of writer.old ≡ forms.Slots layout.now.most }
    requires length { length item.now ≡ layout.now.most }
    requires given { IfSome (given bytes) (λ slot. length slot ≡ layout.now.most) }
    requires room { HasSlotRoom layout.now writer.old }
    ensures added { (items : List ci.Item) (one : ci.Item) → Holds writer.old items
        → one.bytes ≡ item.now → one.live ≡ live → ci.IsItem one
        → Holds writer.new (items ++ slot_made layout.now made (given bytes.entry) one ∷ []) }
    ensures form { form_of writer.new ≡ form_of writer.old }
    ensures size { size_of writer.new ≡ size_of writer.old }
    ensures buffer { buffer_of writer.new ≡ buffer_of writer.old }
{
    if !made {
        return add_slot(layout, item, live, writer);
    }
    match bytes {
        Some(bytes) => add_slot(layout, bytes, true, writer),
        None => add_slot(layout, item, false, writer),
    }
}

/// Adds the slots of an interval, with what is given in place of one of them.
fn add_slots(
    layout: &ChainLayout,
    view: &CiView<'_>,
    slot: u32,
    bytes: Option<&[u8]>,
    writer: &mut CiWriter<'_>,
)
    requires form { form_of writer.old ≡ forms.Slots layout.now.most }
    requires size { size_of writer.old ≡ layout.now.geometry.size }
    requires empty { Holds writer.old [] }
    requires items { AreSlotItems layout.now view.now.items }
    requires given { IfSome (given bytes) (λ slot. length slot ≡ layout.now.most) }
    ensures added { Holds writer.new
        (slice_set view.now.items slot (slot_given layout.now (given bytes.entry))) }
    ensures form { form_of writer.new ≡ form_of writer.old }
    ensures size { size_of writer.new ≡ size_of writer.old }
    ensures buffer { buffer_of writer.new ≡ buffer_of writer.old }
{
    let mut slots = view.iter();
    for at in 0..layout.slots() {
        let Some((item, live)) = slots.next() else {
            unreachable!("it has as many slots")
        };
        add_made(layout, item, live, at == slot, bytes, writer);
    }
}

/// Whether what is given has the length of a slot, or is nothing.
fn is_whole(layout: &ChainLayout, bytes: Option<&[u8]>) -> bool
    ensures { IsTrue result ↔ IfSome (given bytes.entry) (λ slot. length slot ≡ layout.now.most) }
{
    match bytes {
        Some(bytes) => bytes.len() == layout.most as usize,
        None => true,
    }
}

/// Writes an interval with what is given in one of its slots: a record, or none. It answers false
/// where the block is no interval of slots, or the record hasn't their length.
pub fn write_set(
    layout: &ChainLayout,
    block: &[u8],
    slot: u32,
    bytes: Option<&[u8]>,
    out: &mut [u8],
) -> bool
    requires size { length out.old ≡ layout.now.geometry.size }
    ensures size { length out.new ≡ length out.old }
    ensures written { IsSlots layout.now block.now
        → IfSome (given bytes.entry) (λ slot. length slot ≡ layout.now.most)
        → IsTrue result × IsSlotSet layout.now slot (given bytes.entry) block.now out.new }
{
    let Some(view) = interval_of(layout, block) else {
        return false;
    };
    if !is_whole(layout, bytes) {
        return false;
    }
    let form = Form::Slots {
        length: layout.most,
    };
    let mut writer = CiWriter::begin(form, out);
    add_slots(layout, &view, slot, bytes, &mut writer);
    writer.end(false);
    true
}

/// Adds as many empty slots as an interval has.
fn add_empty(layout: &ChainLayout, slot: &[u8], writer: &mut CiWriter<'_>)
    requires form { form_of writer.old ≡ forms.Slots layout.now.most }
    requires size { size_of writer.old ≡ layout.now.geometry.size }
    requires empty { Holds writer.old [] }
    requires some { 0 < layout.now.most }
    requires length { length slot.now ≡ layout.now.most }
    ensures added { Holds writer.new
        (replicate (slots_of layout.now) (empty_slot layout.now)) }
    ensures form { form_of writer.new ≡ form_of writer.old }
    ensures size { size_of writer.new ≡ size_of writer.old }
    ensures buffer { buffer_of writer.new ≡ buffer_of writer.old }
{
    for i in 0..layout.slots() {
        add_slot(layout, slot, false, writer);
    }
}

/// Writes an interval of empty slots. `sample` is any block: an empty slot has its length alone.
pub fn write_empty(layout: &ChainLayout, sample: &[u8], out: &mut [u8])
    requires size { length out.old ≡ layout.now.geometry.size }
    requires sample { length sample.now ≡ layout.now.geometry.size }
    ensures size { length out.new ≡ length out.old }
    ensures empty { AreSlotsEmpty layout.now out.new }
{
    let form = Form::Slots {
        length: layout.most,
    };
    let mut writer = CiWriter::begin(form, out);
    add_empty(layout, &sample[..layout.most as usize], &mut writer);
    writer.end(false);
}
