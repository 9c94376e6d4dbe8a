//! The stages of a split that put, whole: each reads the head of the area that is split first.
ghost use Rattle.std.specs.Prelude.{◌≡◌, ◌≢◌, ◌<◌, ◌≤◌, ℕ, List, IfErr, IfOk, IsTrue, OnOk};
ghost use Rattle.std.specs.Prelude.{length, vec_capacity};
ghost use Rattle.vr_types.specs.Blocks.{Keeps};
ghost use Rattle.vr_types.specs.Faults.{HasCause};
ghost use Rattle.vr_types.specs.Geometry.{area_count};
ghost use Rattle.vr_types.specs.declared.fault.DeviceFault.TheVariants.{Read};
ghost use Rattle.vr_types.specs.declared.unit.StageKind.TheVariants as kinds;
ghost use Rattle.vr_space.specs.Areas.{IsChainOn, head_in};
ghost use Rattle.vr_space.specs.Part.{IsQuiet, KeyedShape};
ghost use Rattle.vr_space.specs.Moves.{IsMoving};
ghost use Rattle.vr_casplit.specs.Splits.{IsMove, IsMovingHead, IsWorkDone};
ghost use Rattle.vr_casplit.specs.Splits.{LeavesWork, after_by, move_by, move_of};

use crate::copy::copy_entry;
use crate::head::is_head;
use crate::link::link_area;
use crate::switch::switch_head;
use vr_space::{KeyedLayout, read_block};
use vr_types::{Blocks, DeviceFault, PlaceBuffer, StageKind};

/// A split under way: the area that is split, how many entries its head has, and how many of them
/// stay; the area that gets the others, and how many of these were copied.
#[derive(Clone, Copy)]
pub(crate) struct Moving {
    pub area: u32,
    pub entries: usize,
    pub stay: usize,
    pub into: u32,
    pub copied: usize,
}

/// How many entries are copied once a stage is done that puts, and the stage that is next then.
pub(crate) fn passed(moving: &Moving, stage: StageKind) -> (usize, Option<StageKind>)
    requires few { moving.now.entries < 65536 }
    requires fewer { moving.now.stay < moving.now.entries }
    requires most { moving.now.copied < moving.now.entries }
    requires puts { stage ≢ kinds.CaClaim }
    ensures { move_by result.1 moving.now.area moving.now.entries moving.now.stay moving.now.into
        result.0 ≡ after_by stage (move_of moving.now stage) 0 }
{
    match stage {
        StageKind::CaCopy => {
            let copied = moving.copied + 1;
            if copied == moving.entries - moving.stay {
                (copied, Some(StageKind::CaLink))
            } else {
                (copied, Some(StageKind::CaCopy))
            }
        }
        StageKind::CaLink => (moving.copied, Some(StageKind::CaSwitch)),
        _ => (moving.copied, None),
    }
}

/// Reads the head of the area that is split: whether it is one, with as many entries as it had. It
/// is, where the device reports its contents.
fn read_head<B: Blocks>(
    blocks: &mut B,
    layout: &KeyedLayout,
    moving: &Moving,
    top: &mut [u8],
) -> Result<bool, DeviceFault>
    requires on { IsChainOn layout.now (B.seen blocks.old) }
    requires area { moving.now.area < area_count layout.now.geometry }
    requires top { length top.old ≡ layout.now.geometry.size }
    ensures head { IfOk result (λ is. IsTrue is
        → IsMovingHead layout.now moving.now.area moving.now.entries top.new) }
    ensures is { IsTrue B.tells → IsMovingHead layout.now moving.now.area moving.now.entries
        (head_in layout.now (B.seen blocks.old).cur moving.now.area)
        → IfOk result (λ is. IsTrue is) }
    ensures read { IsTrue B.tells → OnOk result
        (top.new ≡ head_in layout.now (B.seen blocks.old).cur moving.now.area) }
    ensures keeps { Keeps B.tells (B.seen blocks.old) (B.seen blocks.new) }
    ensures cause { HasCause (B.faults blocks.old) (B.faults blocks.new) result }
{
    let here = layout.area(moving.area);
    read_block(blocks, here.head, top)?;
    Ok(is_head(&here, top, moving.entries))
}

/// Copies the next interval that moves.
fn copy<B: Blocks>(
    blocks: &mut B,
    layout: &KeyedLayout,
    moving: &Moving,
    top: &mut [u8],
    out: &mut [u8],
) -> Result<(), DeviceFault>
    requires on { IsChainOn layout.now (B.seen blocks.old) }
    requires valid { IsMove layout.now (move_of moving.now kinds.CaCopy) }
    requires top { length top.old ≡ layout.now.geometry.size }
    requires out { length out.old ≡ layout.now.geometry.size }
    requires rests { IsTrue B.tells → IsQuiet (KeyedShape layout.now) (B.seen blocks.old) }
    requires way { IsTrue B.tells
        → IsMoving layout.now (move_of moving.now kinds.CaCopy) (B.seen blocks.old) }
    ensures leaves { IsTrue B.tells → LeavesWork layout.now (move_of moving.now kinds.CaCopy)
        (B.seen blocks.old) (B.seen blocks.new) }
    ensures done { IsTrue B.tells → (cut : List ℕ) → OnOk result
        (IsWorkDone layout.now (move_of moving.now kinds.CaCopy)
        (after_by kinds.CaCopy (move_of moving.now kinds.CaCopy) 0) cut
        (B.seen blocks.old) (B.seen blocks.new)) }
    ensures unread { IfErr result (λ fault. fault ≡ Read
        → Keeps B.tells (B.seen blocks.old) (B.seen blocks.new)) }
    ensures count { (B.seen blocks.new).count ≡ (B.seen blocks.old).count }
    ensures size { (B.seen blocks.new).size ≡ (B.seen blocks.old).size }
    ensures cause { HasCause (B.faults blocks.old) (B.faults blocks.new) result }
{
    if !read_head(blocks, layout, moving, top)? {
        return Ok(());
    }
    let number = moving.stay + moving.copied;
    let to = moving.copied as u16;
    copy_entry(
        blocks,
        layout,
        moving.area,
        moving.into,
        top,
        number,
        to,
        out,
    )
}

/// Writes the head over the copies, and forces all of them.
fn link<B: Blocks>(
    blocks: &mut B,
    layout: &KeyedLayout,
    moving: &Moving,
    top: &mut [u8],
    out: &mut [u8],
    listed: &mut Vec<u32>,
) -> Result<(), DeviceFault>
    requires on { IsChainOn layout.now (B.seen blocks.old) }
    requires valid { IsMove layout.now (move_of moving.now kinds.CaLink) }
    requires top { length top.old ≡ layout.now.geometry.size }
    requires out { length out.old ≡ layout.now.geometry.size }
    requires listed { layout.now.geometry.area < vec_capacity listed.old }
    requires rests { IsTrue B.tells → IsQuiet (KeyedShape layout.now) (B.seen blocks.old) }
    requires way { IsTrue B.tells
        → IsMoving layout.now (move_of moving.now kinds.CaLink) (B.seen blocks.old) }
    ensures leaves { IsTrue B.tells → LeavesWork layout.now (move_of moving.now kinds.CaLink)
        (B.seen blocks.old) (B.seen blocks.new) }
    ensures done { IsTrue B.tells → (cut : List ℕ) → OnOk result
        (IsWorkDone layout.now (move_of moving.now kinds.CaLink)
        (after_by kinds.CaLink (move_of moving.now kinds.CaLink) 0) cut
        (B.seen blocks.old) (B.seen blocks.new)) }
    ensures listed { layout.now.geometry.area < vec_capacity listed.new }
    ensures unread { IfErr result (λ fault. fault ≡ Read
        → Keeps B.tells (B.seen blocks.old) (B.seen blocks.new)) }
    ensures count { (B.seen blocks.new).count ≡ (B.seen blocks.old).count }
    ensures size { (B.seen blocks.new).size ≡ (B.seen blocks.old).size }
    ensures cause { HasCause (B.faults blocks.old) (B.faults blocks.new) result }
{
    if !read_head(blocks, layout, moving, top)? {
        return Ok(());
    }
    link_area(
        blocks,
        layout,
        moving.area,
        moving.into,
        top,
        moving.stay,
        out,
        listed,
    )
}

/// Shortens the old head. `cut` gets the place at which its ranges end then.
fn switch<B: Blocks>(
    blocks: &mut B,
    layout: &KeyedLayout,
    moving: &Moving,
    top: &mut [u8],
    out: &mut [u8],
    cut: &mut PlaceBuffer,
) -> Result<(), DeviceFault>
    requires on { IsChainOn layout.now (B.seen blocks.old) }
    requires valid { IsMove layout.now (move_of moving.now kinds.CaSwitch) }
    requires top { length top.old ≡ layout.now.geometry.size }
    requires out { length out.old ≡ layout.now.geometry.size }
    requires cut { cut.old.room ≡ layout.now.key }
    requires long { length cut.old.place ≤ layout.now.key }
    requires rests { IsTrue B.tells → IsQuiet (KeyedShape layout.now) (B.seen blocks.old) }
    requires way { IsTrue B.tells
        → IsMoving layout.now (move_of moving.now kinds.CaSwitch) (B.seen blocks.old) }
    ensures leaves { IsTrue B.tells → LeavesWork layout.now (move_of moving.now kinds.CaSwitch)
        (B.seen blocks.old) (B.seen blocks.new) }
    ensures done { IsTrue B.tells → OnOk result
        (IsWorkDone layout.now (move_of moving.now kinds.CaSwitch)
        (after_by kinds.CaSwitch (move_of moving.now kinds.CaSwitch) 0) cut.new.place
        (B.seen blocks.old) (B.seen blocks.new)) }
    ensures room { cut.new.room ≡ cut.old.room }
    ensures long { length cut.new.place ≤ layout.now.key }
    ensures unread { IfErr result (λ fault. fault ≡ Read
        → Keeps B.tells (B.seen blocks.old) (B.seen blocks.new)) }
    ensures count { (B.seen blocks.new).count ≡ (B.seen blocks.old).count }
    ensures size { (B.seen blocks.new).size ≡ (B.seen blocks.old).size }
    ensures cause { HasCause (B.faults blocks.old) (B.faults blocks.new) result }
{
    if !read_head(blocks, layout, moving, top)? {
        return Ok(());
    }
    switch_head(
        blocks,
        layout,
        moving.area,
        moving.into,
        top,
        moving.stay,
        out,
        cut,
    )
}

/// Does a stage that puts. `top` and `out` get a block each, `listed` has room for a number of each
/// block of an area, and `cut` gets the place at which the ranges of the old head end, once it is
/// shortened.
pub(crate) fn do_stage<B: Blocks>(
    blocks: &mut B,
    layout: &KeyedLayout,
    moving: &Moving,
    stage: StageKind,
    top: &mut [u8],
    out: &mut [u8],
    listed: &mut Vec<u32>,
    cut: &mut PlaceBuffer,
) -> Result<(), DeviceFault>
    requires on { IsChainOn layout.now (B.seen blocks.old) }
    requires puts { stage ≢ kinds.CaClaim }
    requires valid { IsMove layout.now (move_of moving.now stage) }
    requires top { length top.old ≡ layout.now.geometry.size }
    requires out { length out.old ≡ layout.now.geometry.size }
    requires listed { layout.now.geometry.area < vec_capacity listed.old }
    requires cut { cut.old.room ≡ layout.now.key }
    requires long { length cut.old.place ≤ layout.now.key }
    requires rests { IsTrue B.tells → IsQuiet (KeyedShape layout.now) (B.seen blocks.old) }
    requires way { IsTrue B.tells
        → IsMoving layout.now (move_of moving.now stage) (B.seen blocks.old) }
    ensures leaves { IsTrue B.tells → LeavesWork layout.now (move_of moving.now stage)
        (B.seen blocks.old) (B.seen blocks.new) }
    ensures done { IsTrue B.tells → OnOk result (IsWorkDone layout.now (move_of moving.now stage)
        (after_by stage (move_of moving.now stage) 0) cut.new.place
        (B.seen blocks.old) (B.seen blocks.new)) }
    ensures listed { layout.now.geometry.area < vec_capacity listed.new }
    ensures room { cut.new.room ≡ cut.old.room }
    ensures long { length cut.new.place ≤ layout.now.key }
    ensures unread { IfErr result (λ fault. fault ≡ Read
        → Keeps B.tells (B.seen blocks.old) (B.seen blocks.new)) }
    ensures count { (B.seen blocks.new).count ≡ (B.seen blocks.old).count }
    ensures size { (B.seen blocks.new).size ≡ (B.seen blocks.old).size }
    ensures cause { HasCause (B.faults blocks.old) (B.faults blocks.new) result }
{
    match stage {
        StageKind::CaCopy => copy(blocks, layout, moving, top, out),
        StageKind::CaLink => link(blocks, layout, moving, top, out, listed),
        _ => switch(blocks, layout, moving, top, out, cut),
    }
}
