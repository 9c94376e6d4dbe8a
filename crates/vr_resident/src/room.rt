//! Room for one more block.
ghost use Rattle.std.specs.Prelude.{◌≡◌, ℕ, IfSome, OnSome, IfNone, IfOk, OnOk, OnErr};
ghost use Rattle.vr_types.specs.Blocks.{Keeps};
ghost use Rattle.vr_types.specs.Faults.{CountsWrite};
ghost use Rattle.vr_resident.specs.Held.{over};
ghost use Rattle.vr_resident.specs.Table.{IsFit, IsLastOf};
ghost use Rattle.vr_resident.specs.Lasts.{AreLasts};
ghost use Rattle.vr_resident.specs.Cache.{
  IsKept,
  IsSeated,
  KeepsSeat,
  TakesFrame,
  GetsNone,
  MakesRoom,
  held_by,
};
ghost use Rattle.vr_resident.specs.declared.place.Sought.TheVariants.{Bare, Empty};

use crate::frames::Frames;
use crate::moving::evict;
use crate::place::{Buffer, Place};
use crate::table::{Lasts, change};
use vr_device::BlockDevice;
use vr_types::Failed;

/// Takes a further frame of the pool for the last bare place, if there is one and a frame is home.
/// It is empty.
pub(crate) fn take_frame(frames: &mut Frames, bare: Option<u32>) -> Option<u32>
    requires seated { IsSeated frames.old }
    requires last { IsLastOf Bare frames.old.table.entries bare }
    ensures place { IfSome result (λ number. IsFit Empty frames.new.table.entries number) }
    ensures got { OnSome result (TakesFrame frames.old frames.new) }
    ensures none { IfNone result (GetsNone frames.old frames.new) }
    ensures seated { IsSeated frames.new }
    ensures seat { KeepsSeat frames.old frames.new }
{
    let number = bare?;
    let frame = frames.pool.take(&mut frames.seat)?;
    let place = Place::Empty(Buffer::Shared(frame));
    drop(change(&mut frames.table, number, place));
    Some(number)
}

/// Finds the place of an empty frame: one that it has, else a further one of the pool, else that of
/// the block that was used least recently, which leaves. `last` has the last places of the table.
pub(crate) fn room<D: BlockDevice>(
    device: &mut D,
    frames: &mut Frames,
    last: Lasts,
) -> Result<u32, Failed>
    requires kept { IsKept D.tells (D.seen device.old) frames.old }
    requires last { (n : ℕ) × AreLasts n frames.old.table.entries last }
    ensures place { IfOk result (λ number. IsFit Empty frames.new.table.entries number) }
    ensures ok { OnOk result (MakesRoom frames.old frames.new) }
    ensures err { OnErr result (frames.new.table ≡ frames.old.table) }
    ensures kept { IsKept D.tells (D.seen device.new) frames.new }
    ensures seat { KeepsSeat frames.old frames.new }
    ensures after { Keeps D.tells (over (D.seen device.old) (held_by frames.old))
        (over (D.seen device.new) (held_by frames.new)) }
    ensures fault { CountsWrite (D.faults device.old) (D.faults device.new) result }
{
    if let Some(number) = last.empty {
        return Ok(number);
    }
    if let Some(number) = take_frame(frames, last.bare) {
        return Ok(number);
    }
    let number = last.held.unwrap();
    match evict(device, frames, number) {
        Ok(()) => Ok(number),
        Err(Failed) => Err(Failed),
    }
}
