//! Meeting the interval of a place of an area: its range and what its block has.
ghost use Rattle.std.specs.Prelude.{◌≡◌, IsTrue, false, All, length, IsOk, OnOk};
ghost use Rattle.vr_types.specs.Image.{Image, block_at};
ghost use Rattle.vr_types.specs.Blocks.{Keeps};
ghost use Rattle.vr_types.specs.Faults.{HasCause};
ghost use Rattle.vr_space.specs.AreaCalls.{IsAreaOn};
ghost use Rattle.vr_space.specs.Keyed.{InArea, IsHead, Keyed};
ghost use Rattle.vr_keyed.specs.Look.{HasEntry};
ghost use Rattle.vr_keyed.specs.Slots.{AreSlotsOf, HasMetPlace, IsFirst, IsInside, IsLed, IsMetAt};
ghost use Rattle.vr_keyed.specs.Slots.{IsNewlyMet, IsSlotOf, KeepsAll, LeavesMet, MeetsAt, met_in};
ghost use Rattle.vr_keyed.specs.Slots.{mets, most_kept};

use crate::slot::Slot;
use crate::slots::Slots;
use vr_space::{Layout, entry_for};
use vr_types::{Blocks, DeviceFault};

/// Makes the range and the block of a slot those of a place, by way of the head that is read.
fn find<B: Blocks>(
    slot: &mut Slot,
    layout: &Layout,
    blocks: &mut B,
    place: &[u8],
) -> Result<(), DeviceFault>
    requires on { IsAreaOn layout.now (B.seen blocks.old) }
    requires place { length place.now ≡ layout.now.key }
    requires slot { IsSlotOf layout.now slot.old }
    requires head { IsTrue B.tells
        → IsHead layout.now (block_at (B.seen blocks.old).cur layout.now.head) }
    requires entry { IsTrue B.tells → HasEntry layout.now (B.seen blocks.old).cur place.now }
    ensures slot { IsSlotOf layout.now slot.new }
    ensures inside { OnOk result (InArea layout.now slot.new.number) }
    ensures place { OnOk result (slot.new.place.place ≡ place.now) }
    ensures led { IsTrue B.tells → OnOk result
        (IsLed layout.now (block_at (B.seen blocks.old).cur layout.now.head) slot.new) }
    ensures keeps { Keeps B.tells (B.seen blocks.old) (B.seen blocks.new) }
    ensures cause { HasCause (B.faults blocks.old) (B.faults blocks.new) result }
{
    let top = blocks.get(layout.head)?;
    slot.place.set(place);
    slot.number = layout.head;
    if let Some(found) = entry_for(layout, top, place) {
        slot.set_entry(layout, &found);
    }
    Ok(())
}

/// Fills a slot with the interval of a place, by reading the head and the interval.
fn fill<B: Blocks>(
    slot: &mut Slot,
    layout: &Layout,
    blocks: &mut B,
    place: &[u8],
) -> Result<(), DeviceFault>
    requires on { IsAreaOn layout.now (B.seen blocks.old) }
    requires place { length place.now ≡ layout.now.key }
    requires slot { IsSlotOf layout.now slot.old }
    requires head { IsTrue B.tells
        → IsHead layout.now (block_at (B.seen blocks.old).cur layout.now.head) }
    requires entry { IsTrue B.tells → HasEntry layout.now (B.seen blocks.old).cur place.now }
    ensures slot { IsSlotOf layout.now slot.new }
    ensures newly { OnOk result
        (IsNewlyMet layout.now B.tells (B.seen blocks.old).cur place.now (met_in slot.new)) }
    ensures keeps { Keeps B.tells (B.seen blocks.old) (B.seen blocks.new) }
    ensures cause { HasCause (B.faults blocks.old) (B.faults blocks.new) result }
{
    find(slot, layout, blocks, place)?;
    slot.bytes.copy_from_slice(blocks.get(slot.number)?);
    Ok(())
}

/// Makes the interval of a place the one that was met last, if it is one of those that are kept.
fn recall(slots: &mut Slots, place: &[u8]) -> bool
    ensures found { IsTrue result → IsFirst place.now slots.new }
    ensures kept { KeepsAll (mets slots.old) (mets slots.new) }
    ensures among { KeepsAll (mets slots.new) (mets slots.old) }
    ensures filled { slots.new.filled ≡ slots.old.filled }
    ensures most { most_kept slots.new ≡ most_kept slots.old }
    ensures none { result ≡ false
        → (slots.new ≡ slots.old) × (HasMetPlace (mets slots.old) place.now → ⊥) }
    ensures room { (part : Keyed) → AreSlotsOf part slots.old → AreSlotsOf part slots.new }
{
    if slots.is_first(place) {
        return true;
    }
    let Some(i) = slots.find(place) else {
        return false;
    };
    slots.bring(i);
    true
}

/// Fills a slot that has nothing yet, or else the last one, and makes its interval the one that was
/// met last.
fn read_in<B: Blocks>(
    slots: &mut Slots,
    layout: &Layout,
    blocks: &mut B,
    place: &[u8],
) -> Result<(), DeviceFault>
    requires on { IsAreaOn layout.now (B.seen blocks.old) }
    requires place { length place.now ≡ layout.now.key }
    requires room { AreSlotsOf layout.now slots.old }
    requires head { IsTrue B.tells
        → IsHead layout.now (block_at (B.seen blocks.old).cur layout.now.head) }
    requires entry { IsTrue B.tells → HasEntry layout.now (B.seen blocks.old).cur place.now }
    requires none { HasMetPlace (mets slots.old) place.now → ⊥ }
    ensures room { AreSlotsOf layout.now slots.new }
    ensures meets { OnOk result (MeetsAt layout.now B.tells (B.seen blocks.old).cur place.now
        slots.old slots.new) }
    ensures leaves { LeavesMet layout.now B.tells (B.seen blocks.old).cur place.now
        (mets slots.old) (mets slots.new) }
    ensures keeps { Keeps B.tells (B.seen blocks.old) (B.seen blocks.new) }
    ensures cause { HasCause (B.faults blocks.old) (B.faults blocks.new) result }
{
    slots.filled = slots.filled.min(slots.more.len());
    let i = slots.filled.max(1) - 1;
    fill(&mut slots.more[i], layout, blocks, place)?;
    slots.bring(i);
    slots.filled += 1;
    Ok(())
}

/// Makes the interval of a place the one that was met last. Where it is one of those that are kept,
/// nothing is read; else the head and the interval are.
pub(crate) fn meet<B: Blocks>(
    slots: &mut Slots,
    layout: &Layout,
    blocks: &mut B,
    place: &[u8],
) -> Result<(), DeviceFault>
    requires on { IsAreaOn layout.now (B.seen blocks.old) }
    requires place { length place.now ≡ layout.now.key }
    requires room { AreSlotsOf layout.now slots.old }
    requires head { IsTrue B.tells
        → IsHead layout.now (block_at (B.seen blocks.old).cur layout.now.head) }
    requires entry { IsTrue B.tells → HasEntry layout.now (B.seen blocks.old).cur place.now }
    requires inside { All (IsInside layout.now place.now) (mets slots.old) }
    requires met { IsTrue B.tells
        → All (IsMetAt layout.now (B.seen blocks.old).cur place.now) (mets slots.old) }
    ensures room { AreSlotsOf layout.now slots.new }
    ensures meets { OnOk result (MeetsAt layout.now B.tells (B.seen blocks.old).cur place.now
        slots.old slots.new) }
    ensures leaves { LeavesMet layout.now B.tells (B.seen blocks.old).cur place.now
        (mets slots.old) (mets slots.new) }
    ensures known { HasMetPlace (mets slots.old) place.now → IsOk result }
    ensures keeps { Keeps B.tells (B.seen blocks.old) (B.seen blocks.new) }
    ensures cause { HasCause (B.faults blocks.old) (B.faults blocks.new) result }
{
    if recall(slots, place) {
        return Ok(());
    }
    read_in(slots, layout, blocks, place)
}
