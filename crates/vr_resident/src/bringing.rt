//! How a block comes into a frame.
ghost use Rattle.std.specs.Prelude.{◌≡◌, ◌<◌, length, slice_set, IsTrue, IsErrOf, OnOk, OnErr};
ghost use Rattle.vr_types.specs.Blocks.{Keeps, Puts};
ghost use Rattle.vr_types.specs.Faults.{CountsRead, HasCause, HasWriteCause};
ghost use Rattle.vr_types.specs.declared.fault.DeviceFault.TheVariants.{Read, Write};
ghost use Rattle.vr_resident.specs.Held.{over, IsOther};
ghost use Rattle.vr_resident.specs.Table.{IsFit};
ghost use Rattle.vr_resident.specs.Lasts.{AreLasts};
ghost use Rattle.vr_resident.specs.Cache.{
  IsKept,
  KeepsSeat,
  ReadsIn,
  FillsIn,
  CanFill,
  GetsBlock,
  PutsBlock,
  StaysEmpty,
  IsSameCache,
  IsFirst,
  held_by,
};
ghost use Rattle.vr_resident.specs.declared.place.Sought.TheVariants.{Empty};

use crate::frames::Frames;
use crate::place::Place;
use crate::room::room;
use crate::table::{Lasts, change, find_lasts, lift, put_first, use_place};
use vr_device::BlockDevice;
use vr_types::{DeviceFault, Failed};

/// Reads a block that isn't held into an empty frame. Where that fails the frame stays empty.
fn read_in<D: BlockDevice>(
    device: &mut D,
    frames: &mut Frames,
    number: u32,
    n: u32,
) -> Result<(), Failed>
    requires kept { IsKept D.tells (D.seen device.old) frames.old }
    requires block { n < (D.seen device.old).count }
    requires not_held { IsOther n (held_by frames.old) }
    requires empty { IsFit Empty frames.old.table.entries number }
    ensures ok { OnOk result (ReadsIn n frames.old frames.new) }
    ensures err { OnErr result (IsSameCache frames.old frames.new) }
    ensures kept { IsKept D.tells (D.seen device.new) frames.new }
    ensures seat { KeepsSeat frames.old frames.new }
    ensures after { Keeps D.tells (over (D.seen device.old) (held_by frames.old))
        (over (D.seen device.new) (held_by frames.new)) }
    ensures fault { CountsRead (D.faults device.old) (D.faults device.new) result }
{
    let mut buffer = lift(&mut frames.table, number);
    match buffer.read(device, n, frames.size) {
        Ok(()) => {
            put_first(&mut frames.table, number, Place::Taken(n, false, buffer));
            Ok(())
        }
        Err(Failed) => {
            drop(change(&mut frames.table, number, Place::Empty(buffer)));
            Err(Failed)
        }
    }
}

/// Makes room for a block that isn't held, and reads it.
fn miss<D: BlockDevice>(
    device: &mut D,
    frames: &mut Frames,
    n: u32,
    last: Lasts,
) -> Result<(), DeviceFault>
    requires kept { IsKept D.tells (D.seen device.old) frames.old }
    requires last { AreLasts n frames.old.table.entries last }
    requires block { n < (D.seen device.old).count }
    requires not_held { IsOther n (held_by frames.old) }
    ensures ok { OnOk result (GetsBlock n frames.old frames.new) }
    ensures first { OnOk result (IsFirst n frames.new) }
    ensures unread { IsErrOf result Read → StaysEmpty frames.old frames.new }
    ensures unwritten { IsErrOf result Write → frames.new.table ≡ frames.old.table }
    ensures kept { IsKept D.tells (D.seen device.new) frames.new }
    ensures seat { KeepsSeat frames.old frames.new }
    ensures after { Keeps D.tells (over (D.seen device.old) (held_by frames.old))
        (over (D.seen device.new) (held_by frames.new)) }
    ensures cause { HasCause (D.faults device.old) (D.faults device.new) result }
{
    match room(device, frames, last) {
        Err(Failed) => Err(DeviceFault::Write),
        Ok(number) => match read_in(device, frames, number, n) {
            Ok(()) => Ok(()),
            Err(Failed) => Err(DeviceFault::Read),
        },
    }
}

/// Brings a block to the front, and reads it where it isn't held.
pub(crate) fn bring<D: BlockDevice>(
    device: &mut D,
    frames: &mut Frames,
    n: u32,
) -> Result<(), DeviceFault>
    requires kept { IsKept D.tells (D.seen device.old) frames.old }
    requires block { n < (D.seen device.old).count }
    ensures ok { OnOk result (GetsBlock n frames.old frames.new) }
    ensures first { OnOk result (IsFirst n frames.new) }
    ensures unread { IsErrOf result Read → StaysEmpty frames.old frames.new }
    ensures unwritten { IsErrOf result Write → frames.new.table ≡ frames.old.table }
    ensures kept { IsKept D.tells (D.seen device.new) frames.new }
    ensures seat { KeepsSeat frames.old frames.new }
    ensures after { Keeps D.tells (over (D.seen device.old) (held_by frames.old))
        (over (D.seen device.new) (held_by frames.new)) }
    ensures cause { HasCause (D.faults device.old) (D.faults device.new) result }
{
    let last = find_lasts(&frames.table, n);
    match last.found {
        Some(number) => {
            use_place(&mut frames.table, number);
            Ok(())
        }
        None => miss(device, frames, n, last),
    }
}

/// Puts a block into the frame that holds it, or into one for which room is made.
pub(crate) fn store<D: BlockDevice>(
    device: &mut D,
    frames: &mut Frames,
    n: u32,
    bytes: &[u8],
) -> Result<(), DeviceFault>
    requires kept { IsKept D.tells (D.seen device.old) frames.old }
    requires block { n < (D.seen device.old).count }
    requires whole { length bytes.now ≡ (D.seen device.old).size }
    ensures ok { OnOk result (PutsBlock n bytes.now frames.old frames.new) }
    ensures err { OnErr result (frames.new.table ≡ frames.old.table) }
    ensures put { IsTrue D.tells → OnOk result ((over (D.seen device.new) (held_by frames.new)).cur
        ≡ slice_set (over (D.seen device.old) (held_by frames.old)).cur n bytes.now) }
    ensures kept { IsKept D.tells (D.seen device.new) frames.new }
    ensures seat { KeepsSeat frames.old frames.new }
    ensures after { Puts D.tells n bytes.now (over (D.seen device.old) (held_by frames.old))
        (over (D.seen device.new) (held_by frames.new)) }
    ensures cause { HasWriteCause (D.faults device.old) (D.faults device.new) result }
{
    let last = find_lasts(&frames.table, n);
    if let Some(number) = last.found {
        fill(device, frames, number, n, bytes);
        return Ok(());
    }
    match room(device, frames, last) {
        Ok(number) => {
            fill(device, frames, number, n, bytes);
            Ok(())
        }
        Err(Failed) => Err(DeviceFault::Write),
    }
}

/// Puts a block into a frame that is empty or holds it. It is the first then, and changed.
fn fill<D: BlockDevice>(device: &D, frames: &mut Frames, number: u32, n: u32, bytes: &[u8])
    requires kept { IsKept D.tells (D.seen device.now) frames.old }
    requires block { n < (D.seen device.now).count }
    requires whole { length bytes.now ≡ (D.seen device.now).size }
    requires place { CanFill n frames.old number }
    ensures filled { FillsIn n bytes.now frames.old frames.new }
    ensures kept { IsKept D.tells (D.seen device.now) frames.new }
    ensures seat { KeepsSeat frames.old frames.new }
    ensures put { IsTrue D.tells → (over (D.seen device.now) (held_by frames.new)).cur
        ≡ slice_set (over (D.seen device.now) (held_by frames.old)).cur n bytes.now }
    ensures after { Puts D.tells n bytes.now (over (D.seen device.now) (held_by frames.old))
        (over (D.seen device.now) (held_by frames.new)) }
{
    let mut buffer = lift(&mut frames.table, number);
    buffer.fill(bytes);
    put_first(&mut frames.table, number, Place::Taken(n, true, buffer));
}
