//! How blocks leave their frames, and are written.
ghost use Rattle.std.specs.Prelude.{◌≡◌, ◌<◌, IsTrue, IsOk, OnOk};
ghost use Rattle.std.specs.Prelude.{OnErr, true, false, length, slice_set};
ghost use Rattle.vr_types.specs.Blocks.{Keeps, Puts};
ghost use Rattle.vr_types.specs.Faults.{CountsWrite};
ghost use Rattle.vr_resident.specs.Held.{over};
ghost use Rattle.vr_resident.specs.Table.{IsFit};
ghost use Rattle.vr_resident.specs.Places.{IsLast};
ghost use Rattle.vr_resident.specs.Cache.{IsKept, Leaves, WritesAt, held_by};
ghost use Rattle.vr_resident.specs.declared.place.Sought.TheVariants.{Changed, Held};

use crate::frames::Frames;
use crate::place::Place;
use crate::table::change;
use vr_device::BlockDevice;
use vr_types::Failed;

/// Writes a block, if it is changed.
fn write_if<D: BlockDevice>(
    device: &mut D,
    changed: bool,
    block: u32,
    bytes: &[u8],
) -> Result<(), Failed>
    requires block { block < (D.seen device.old).count }
    requires whole { length bytes.now ≡ (D.seen device.old).size }
    ensures still { changed ≡ false → IsOk result × (device.new ≡ device.old) }
    ensures written { changed ≡ true → IsTrue D.tells → OnOk result
        ((D.seen device.new).cur ≡ slice_set (D.seen device.old).cur block bytes.now) }
    ensures after { changed ≡ true
        → Puts D.tells block bytes.now (D.seen device.old) (D.seen device.new) }
    ensures fault { CountsWrite (D.faults device.old) (D.faults device.new) result }
{
    if changed {
        device.write(block, bytes)
    } else {
        Ok(())
    }
}

/// The block that was used least recently leaves its frame, which is empty then. A changed one is
/// written first, and stays where that fails.
pub(crate) fn evict<D: BlockDevice>(
    device: &mut D,
    frames: &mut Frames,
    number: u32,
) -> Result<(), Failed>
    requires kept { IsKept D.tells (D.seen device.old) frames.old }
    requires taken { IsLast Held frames.old.table.entries number }
    ensures ok { OnOk result (Leaves number frames.old frames.new) }
    ensures err { OnErr result (frames.new ≡ frames.old) }
    ensures kept { IsKept D.tells (D.seen device.new) frames.new }
    ensures after { Keeps D.tells (over (D.seen device.old) (held_by frames.old))
        (over (D.seen device.new) (held_by frames.new)) }
    ensures fault { CountsWrite (D.faults device.old) (D.faults device.new) result }
{
    match change(&mut frames.table, number, Place::Bare) {
        Place::Taken(block, changed, buffer) => {
            match write_if(device, changed, block, buffer.block(frames.size)) {
                Ok(()) => {
                    drop(change(&mut frames.table, number, Place::Empty(buffer)));
                    Ok(())
                }
                Err(Failed) => {
                    let back = Place::Taken(block, changed, buffer);
                    drop(change(&mut frames.table, number, back));
                    Err(Failed)
                }
            }
        }
        _ => unreachable!(),
    }
}

/// Writes the changed block of a place, which isn't changed then. Where that fails it still is.
pub(crate) fn write_out<D: BlockDevice>(
    device: &mut D,
    frames: &mut Frames,
    number: u32,
) -> Result<(), Failed>
    requires kept { IsKept D.tells (D.seen device.old) frames.old }
    requires changed { IsFit Changed frames.old.table.entries number }
    ensures ok { OnOk result (WritesAt number frames.old frames.new) }
    ensures err { OnErr result (frames.new ≡ frames.old) }
    ensures kept { IsKept D.tells (D.seen device.new) frames.new }
    ensures after { Keeps D.tells (over (D.seen device.old) (held_by frames.old))
        (over (D.seen device.new) (held_by frames.new)) }
    ensures fault { CountsWrite (D.faults device.old) (D.faults device.new) result }
{
    match change(&mut frames.table, number, Place::Bare) {
        Place::Taken(block, _, buffer) => {
            let result = device.write(block, buffer.block(frames.size));
            let place = Place::Taken(block, result.is_err(), buffer);
            drop(change(&mut frames.table, number, place));
            result
        }
        _ => unreachable!(),
    }
}
