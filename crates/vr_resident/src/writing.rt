//! How changed blocks are forced and flushed.
ghost use Rattle.std.specs.Prelude.{◌≡◌, ◌<◌, ℕ, [], ◌∷◌, min};
ghost use Rattle.std.specs.Prelude.{take, All, IsTrue, IfNone, IfOk, OnOk, OnErr};
ghost use Rattle.vr_types.specs.Blocks.{Keeps, Forced, AllForced};
ghost use Rattle.vr_types.specs.Faults.{CountsWrite, HasWriteCause};
ghost use Rattle.vr_resident.specs.Held.{over, changed_count};
ghost use Rattle.vr_resident.specs.Resident.{HasFaultCause};
ghost use Rattle.vr_resident.specs.Cache.{IsKept, KeepsSeat, IsForced, IsFlushed, held_by};

use crate::frames::Frames;
use crate::moving::write_out;
use crate::place::Sought;
use crate::table::last_fit;
use vr_device::BlockDevice;
use vr_types::{DeviceFault, Failed};

/// Writes a block, where it is held and changed.
fn write_block<D: BlockDevice>(device: &mut D, frames: &mut Frames, n: u32) -> Result<(), Failed>
    requires { IsKept D.tells (D.seen device.old) frames.old }
    ensures ok { OnOk result (IsForced (n ∷ []) frames.old frames.new) }
    ensures err { OnErr result (frames.new ≡ frames.old) }
    ensures kept { IsKept D.tells (D.seen device.new) frames.new }
    ensures seat { KeepsSeat frames.old frames.new }
    ensures after { Keeps D.tells (over (D.seen device.old) (held_by frames.old))
        (over (D.seen device.new) (held_by frames.new)) }
    ensures fault { CountsWrite (D.faults device.old) (D.faults device.new) result }
{
    match last_fit(&frames.table, Sought::ChangedBlock(n)) {
        Some(number) => write_out(device, frames, number),
        None => Ok(()),
    }
}

/// Writes the listed blocks that are held and changed, in that order, up to the first that fails.
fn write_listed<D: BlockDevice>(
    device: &mut D,
    frames: &mut Frames,
    list: &[u32],
) -> Result<(), Failed>
    requires { IsKept D.tells (D.seen device.old) frames.old }
    ensures ok { OnOk result (IsForced list.now frames.old frames.new) }
    ensures err { OnErr result ((k : ℕ) × IsForced (take k list.now) frames.old frames.new) }
    ensures kept { IsKept D.tells (D.seen device.new) frames.new }
    ensures seat { KeepsSeat frames.old frames.new }
    ensures after { Keeps D.tells (over (D.seen device.old) (held_by frames.old))
        (over (D.seen device.new) (held_by frames.new)) }
    ensures fault { CountsWrite (D.faults device.old) (D.faults device.new) result }
{
    for n in list {
        if write_block(device, frames, *n).is_err() {
            return Err(Failed);
        }
    }
    Ok(())
}

/// Writes the listed blocks that are held and changed, and syncs once.
pub(crate) fn force<D: BlockDevice>(
    device: &mut D,
    frames: &mut Frames,
    list: &[u32],
) -> Result<(), DeviceFault>
    requires kept { IsKept D.tells (D.seen device.old) frames.old }
    requires listed { All (λ n. n < (D.seen device.old).count) list.now }
    ensures ok { OnOk result (IsForced list.now frames.old frames.new) }
    ensures err { OnErr result ((k : ℕ) × IsForced (take k list.now) frames.old frames.new) }
    ensures forced { IsTrue D.tells → OnOk result
        (Forced list.now (over (D.seen device.old) (held_by frames.old)).cur
        (over (D.seen device.new) (held_by frames.new)).may) }
    ensures kept { IsKept D.tells (D.seen device.new) frames.new }
    ensures seat { KeepsSeat frames.old frames.new }
    ensures after { Keeps D.tells (over (D.seen device.old) (held_by frames.old))
        (over (D.seen device.new) (held_by frames.new)) }
    ensures cause { HasWriteCause (D.faults device.old) (D.faults device.new) result }
{
    match write_listed(device, frames, list) {
        Err(Failed) => Err(DeviceFault::Write),
        Ok(()) => match device.sync() {
            Ok(()) => Ok(()),
            Err(Failed) => Err(DeviceFault::Write),
        },
    }
}

/// Writes this many changed blocks, or all where there are fewer, the least recently used first.
pub(crate) fn flush<D: BlockDevice>(
    device: &mut D,
    frames: &mut Frames,
    most: usize,
) -> Result<usize, DeviceFault>
    requires { IsKept D.tells (D.seen device.old) frames.old }
    ensures ok { IfOk result (λ k. IsFlushed k frames.old frames.new) }
    ensures count { IfOk result (λ k. k ≡ min most (changed_count (held_by frames.old))) }
    ensures err { OnErr result ((k : ℕ) × (k < most) × IsFlushed k frames.old frames.new) }
    ensures kept { IsKept D.tells (D.seen device.new) frames.new }
    ensures seat { KeepsSeat frames.old frames.new }
    ensures after { Keeps D.tells (over (D.seen device.old) (held_by frames.old))
        (over (D.seen device.new) (held_by frames.new)) }
    ensures cause { HasWriteCause (D.faults device.old) (D.faults device.new) result }
{
    for written in 0..most {
        match last_fit(&frames.table, Sought::Changed) {
            None => return Ok(written),
            Some(number) => {
                if write_out(device, frames, number).is_err() {
                    return Err(DeviceFault::Write);
                }
            }
        }
    }
    Ok(most)
}

/// Writes every changed block and syncs once, up to the first that fails.
pub(crate) fn write_all<D: BlockDevice>(device: &mut D, frames: &mut Frames) -> Option<DeviceFault>
    requires { IsKept D.tells (D.seen device.old) frames.old }
    ensures kept { IsKept D.tells (D.seen device.new) frames.new }
    ensures seat { KeepsSeat frames.old frames.new }
    ensures after { Keeps D.tells (over (D.seen device.old) (held_by frames.old))
        (over (D.seen device.new) (held_by frames.new)) }
    ensures written { IsTrue D.tells → IfNone result ((D.seen device.new).cur
        ≡ (over (D.seen device.old) (held_by frames.old)).cur) }
    ensures synced { IsTrue D.tells → IfNone result (AllForced (D.seen device.old).count
        (over (D.seen device.old) (held_by frames.old)).cur (D.seen device.new).may) }
    ensures fault { HasFaultCause (D.faults device.old) (D.faults device.new) result }
{
    let most = frames.table.len();
    match flush(device, frames, most) {
        Err(fault) => Some(fault),
        Ok(_) => match device.sync() {
            Ok(()) => None,
            Err(Failed) => Some(DeviceFault::Write),
        },
    }
}
