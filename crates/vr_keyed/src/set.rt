//! Setting a record, or taking it away.
ghost use Rattle.std.specs.Prelude.{◌≡◌, List, Option, IsTrue, All, length, map, vec_len};
ghost use Rattle.std.specs.Prelude.{IfErr, IfOk, OnErr, OnOk};
ghost use Rattle.vr_types.specs.Image.{block_at};
ghost use Rattle.vr_types.specs.Blocks.{Keeps};
ghost use Rattle.vr_types.specs.Faults.{HasCause, HasWriteCause};
ghost use Rattle.vr_types.specs.declared.fault.DeviceFault.TheVariants.{Read, Write};
ghost use Rattle.vr_space.specs.AreaCalls.{IsAreaOn};
ghost use Rattle.vr_space.specs.Room.{Lengths};
ghost use Rattle.vr_space.specs.Keyed.{InArea, Keyed, IsHead};
ghost use Rattle.vr_space.specs.Met.{IsMet, Met};
ghost use Rattle.vr_space.specs.Split.{SplitNow};
ghost use Rattle.vr_space.specs.Part.{given};
ghost use Rattle.vr_keyed.specs.Look.{HasEntry};
ghost use Rattle.vr_keyed.specs.Slots.{AreSlotsOf, HasBytes, HasMetPlace, IsFirst, IsInside};
ghost use Rattle.vr_keyed.specs.Slots.{IsMetAt, IsSlotOf, KeepsPlaces, LeavesMet, met_in, mets};
ghost use Rattle.vr_keyed.specs.Ready.{IsReady, IsSetNow, MaySet, again, put_of, refreshed};

use crate::meet::meet;
use crate::slot::Slot;
use crate::slots::Slots;
use crate::writing::write_set;
use vr_space::Layout;
use vr_types::{Blocks, DeviceFault};

/// Makes what a slot keeps of a block what the block has now.
fn refresh_slot(slot: &mut Slot, number: u32, bytes: &[u8])
    requires { length bytes.now ≡ vec_len slot.old.bytes }
    ensures met { met_in slot.new ≡ refreshed number bytes.now (met_in slot.old) }
    ensures place { slot.new.place ≡ slot.old.place }
    ensures size { vec_len slot.new.bytes ≡ vec_len slot.old.bytes }
    ensures slot { (part : Keyed) → IsSlotOf part slot.old → IsSlotOf part slot.new }
{
    if slot.number == number {
        slot.bytes.copy_from_slice(bytes);
    }
}

/// The same of each of these slots.
fn refresh_each(slots: &mut [Slot], number: u32, bytes: &[u8])
    requires { All (HasBytes (length bytes.now)) slots.old }
    ensures met { map met_in slots.new ≡ map (refreshed number bytes.now) (map met_in slots.old) }
    ensures slots { (part : Keyed) → All (IsSlotOf part) slots.old → All (IsSlotOf part) slots.new }
{
    for slot in slots.iter_mut() {
        refresh_slot(slot, number, bytes);
    }
}

/// The same of all slots.
fn refresh(slots: &mut Slots, number: u32, bytes: &[u8])
    requires first { length bytes.now ≡ vec_len slots.old.first.bytes }
    requires more { All (HasBytes (length bytes.now)) slots.old.more.items }
    ensures met { mets slots.new ≡ map (refreshed number bytes.now) (mets slots.old) }
    ensures room { (part : Keyed) → AreSlotsOf part slots.old → AreSlotsOf part slots.new }
{
    refresh_slot(&mut slots.first, number, bytes);
    refresh_each(slots.more.as_mut_slice(), number, bytes);
}

/// Sets what is given at the place that was met last: by one put, and without a read. It answers
/// the block that it put.
fn put_set<B: Blocks>(
    slots: &mut Slots,
    layout: &Layout,
    blocks: &mut B,
    out: &mut [u8],
    place: &[u8],
    bytes: Option<&[u8]>,
) -> Result<Option<u32>, DeviceFault>
    requires on { IsAreaOn layout.now (B.seen blocks.old) }
    requires room { AreSlotsOf layout.now slots.old }
    requires out { length out.old ≡ layout.now.size }
    requires first { IsFirst place.now slots.old }
    requires inside { InArea layout.now slots.old.first.number }
    requires met { IsTrue B.tells
        → IsMet layout.now (B.seen blocks.old).cur (met_in slots.old.first) }
    ensures room { AreSlotsOf layout.now slots.new }
    ensures refreshed { IfOk result (λ put.
        mets slots.new ≡ map (again put out.new) (mets slots.old)) }
    ensures failed { OnErr result (mets slots.new ≡ mets slots.old) }
    ensures may { IsTrue B.tells → (kept : Lengths) (split : Option SplitNow)
        → IsReady layout.now kept split place.now (given bytes.entry) (B.seen blocks.old)
        → MaySet layout.now kept place.now (given bytes.entry)
        (B.seen blocks.old) (B.seen blocks.new) }
    ensures done { IsTrue B.tells → IfOk result (λ put.
        (kept : Lengths) (split : Option SplitNow)
        → IsReady layout.now kept split place.now (given bytes.entry) (B.seen blocks.old)
        → IsSetNow layout.now split (put_of put) place.now (given bytes.entry)
        (B.seen blocks.old) (B.seen blocks.new)) }
    ensures met { IsTrue B.tells → IfOk result (λ put. (kept : Lengths) (split : Option SplitNow)
        → IsReady layout.now kept split place.now (given bytes.entry) (B.seen blocks.old)
        → (met : Met) → IsMet layout.now (B.seen blocks.old).cur met
        → IsMet layout.now (B.seen blocks.new).cur (again put out.new met)) }
    ensures put { IfOk result (λ put. All (InArea layout.now) (put_of put)) }
    ensures count { (B.seen blocks.new).count ≡ (B.seen blocks.old).count }
    ensures size { (B.seen blocks.new).size ≡ (B.seen blocks.old).size }
    ensures cause { HasWriteCause (B.faults blocks.old) (B.faults blocks.new) result }
{
    if !write_set(layout, &slots.first, place, bytes, out) {
        return Ok(None);
    }
    let number = slots.first.number;
    blocks.put(number, out)?;
    refresh(slots, number, out);
    Ok(Some(number))
}

/// Makes what is given the record at the place, or takes the record there away: by one put, after
/// at most two reads, and none where the place was met. It answers the block that it put.
pub(crate) fn set<B: Blocks>(
    slots: &mut Slots,
    layout: &Layout,
    blocks: &mut B,
    out: &mut [u8],
    place: &[u8],
    bytes: Option<&[u8]>,
) -> Result<Option<u32>, DeviceFault>
    requires on { IsAreaOn layout.now (B.seen blocks.old) }
    requires place { length place.now ≡ layout.now.key }
    requires room { AreSlotsOf layout.now slots.old }
    requires out { length out.old ≡ layout.now.size }
    requires head { IsTrue B.tells
        → IsHead layout.now (block_at (B.seen blocks.old).cur layout.now.head) }
    requires entry { IsTrue B.tells → HasEntry layout.now (B.seen blocks.old).cur place.now }
    requires inside { All (IsInside layout.now place.now) (mets slots.old) }
    requires met { IsTrue B.tells
        → All (IsMetAt layout.now (B.seen blocks.old).cur place.now) (mets slots.old) }
    ensures room { AreSlotsOf layout.now slots.new }
    ensures may { IsTrue B.tells → (kept : Lengths) (split : Option SplitNow)
        → IsReady layout.now kept split place.now (given bytes.entry) (B.seen blocks.old)
        → MaySet layout.now kept place.now (given bytes.entry)
        (B.seen blocks.old) (B.seen blocks.new) }
    ensures done { IsTrue B.tells → IfOk result (λ put.
        (kept : Lengths) (split : Option SplitNow)
        → IsReady layout.now kept split place.now (given bytes.entry) (B.seen blocks.old)
        → IsSetNow layout.now split (put_of put) place.now (given bytes.entry)
        (B.seen blocks.old) (B.seen blocks.new)) }
    ensures met { IsTrue B.tells → IfOk result (λ put. (kept : Lengths) (split : Option SplitNow)
        → IsReady layout.now kept split place.now (given bytes.entry) (B.seen blocks.old)
        → (met : Met) → IsMet layout.now (B.seen blocks.old).cur met
        → IsMet layout.now (B.seen blocks.new).cur (again put out.new met)) }
    ensures places { HasMetPlace (mets slots.old) place.now
        → OnOk result (KeepsPlaces (mets slots.old) (mets slots.new)) }
    ensures reads { HasMetPlace (mets slots.old) place.now → IfErr result (λ fault. fault ≡ Write) }
    ensures unread { IfErr result (λ fault. fault ≡ Read
        → Keeps B.tells (B.seen blocks.old) (B.seen blocks.new)) }
    ensures refreshed { IfOk result (λ put. (mid : List Met)
        × LeavesMet layout.now B.tells (B.seen blocks.old).cur place.now (mets slots.old) mid
        × (mets slots.new ≡ map (again put out.new) mid)) }
    ensures failed { OnErr result (LeavesMet layout.now B.tells (B.seen blocks.old).cur place.now
        (mets slots.old) (mets slots.new)) }
    ensures put { IfOk result (λ put. All (InArea layout.now) (put_of put)) }
    ensures count { (B.seen blocks.new).count ≡ (B.seen blocks.old).count }
    ensures size { (B.seen blocks.new).size ≡ (B.seen blocks.old).size }
    ensures cause { HasCause (B.faults blocks.old) (B.faults blocks.new) result }
{
    meet(slots, layout, blocks, place)?;
    put_set(slots, layout, blocks, out, place, bytes)
}
