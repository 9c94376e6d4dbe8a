//! Which blocks are kept: how one comes into a buffer, from the device or as it is put.
ghost use Rattle.std.specs.Prelude.{◌≡◌, ◌<◌, ◌-◌, IfSome, IsOk, IsTrue, OnErr, OnOk};
ghost use Rattle.std.specs.Prelude.{All, length, map, slice_set};
ghost use Rattle.vr_types.specs.Blocks.{Keeps, Puts};
ghost use Rattle.vr_types.specs.Faults.{CountsRead, CountsWrite};
ghost use Rattle.vr_recent.specs.Buffers.{
  AreOf,
  Fronts,
  HasBlock,
  HoldsBlock,
  HoldsNone,
  Sets,
  forgot,
  fronted,
  place_for,
  place_of,
};

use crate::buffer::Buffer;
use crate::order;
use vr_device::BlockDevice;
use vr_types::Failed;

/// Reads block `n` into the buffer at this place.
fn read_at<D: BlockDevice>(
    device: &mut D,
    buffers: &mut [Buffer],
    place: usize,
    n: u32,
) -> Result<(), Failed>
    requires block { n < (D.seen device.old).count }
    requires place { place < length buffers.old }
    requires of { AreOf D.tells (D.seen device.old) buffers.old }
    ensures ok { OnOk result (Sets place (HoldsBlock n) buffers.old buffers.new) }
    ensures err { OnErr result (Sets place HoldsNone buffers.old buffers.new) }
    ensures of { AreOf D.tells (D.seen device.new) buffers.new }
    ensures after { Keeps D.tells (D.seen device.old) (D.seen device.new) }
    ensures fault { CountsRead (D.faults device.old) (D.faults device.new) result }
{
    match buffers[place].read(device, n) {
        Ok(()) => Ok(()),
        Err(Failed) => Err(Failed),
    }
}

/// Reads block `n` into the buffer at this place, which is the first then.
fn read_in<D: BlockDevice>(
    device: &mut D,
    buffers: &mut [Buffer],
    place: usize,
    n: u32,
) -> Result<(), Failed>
    requires block { n < (D.seen device.old).count }
    requires place { place < length buffers.old }
    requires of { AreOf D.tells (D.seen device.old) buffers.old }
    ensures ok { OnOk result (Fronts place (HoldsBlock n) buffers.old buffers.new) }
    ensures err { OnErr result (Sets place HoldsNone buffers.old buffers.new) }
    ensures of { AreOf D.tells (D.seen device.new) buffers.new }
    ensures after { Keeps D.tells (D.seen device.old) (D.seen device.new) }
    ensures fault { CountsRead (D.faults device.old) (D.faults device.new) result }
{
    match read_at(device, buffers, place, n) {
        Ok(()) => {
            order::to_front(buffers, place);
            Ok(())
        }
        Err(Failed) => Err(Failed),
    }
}

/// Brings block `n` to the front. Where a buffer holds it the device isn't called. Else the device
/// reads it into the buffer that was used least recently; where that fails, which the count of
/// reads that failed shows, that buffer holds no block.
pub fn bring<D: BlockDevice>(device: &mut D, buffers: &mut [Buffer], n: u32) -> Result<(), Failed>
    requires block { n < (D.seen device.old).count }
    requires some { 0 < length buffers.old }
    requires of { AreOf D.tells (D.seen device.old) buffers.old }
    ensures kept { IfSome (place_of n buffers.old) (λ place. IsOk result
        × (device.new ≡ device.old) × (buffers.new ≡ fronted place buffers.old)) }
    ensures first { OnOk result
        (Fronts (place_for n buffers.old) (HoldsBlock n) buffers.old buffers.new) }
    ensures unread { OnErr result
        (Sets (length buffers.old - 1) HoldsNone buffers.old buffers.new) }
    ensures of { AreOf D.tells (D.seen device.new) buffers.new }
    ensures after { Keeps D.tells (D.seen device.old) (D.seen device.new) }
    ensures fault { CountsRead (D.faults device.old) (D.faults device.new) result }
{
    match order::place_of(buffers, n) {
        Some(place) => {
            order::to_front(buffers, place);
            Ok(())
        }
        None => {
            let last = buffers.len() - 1;
            read_in(device, buffers, last, n)
        }
    }
}

/// Fills the buffer at this place with block `n`, and makes it the first.
fn keep(buffers: &mut [Buffer], place: usize, n: u32, bytes: &[u8])
    requires place { place < length buffers.old }
    requires whole { All (λ b. length b.bytes.items ≡ length bytes.now) buffers.old }
    ensures { Fronts place (HasBlock n bytes.now) buffers.old buffers.new }
{
    buffers[place].fill(n, bytes);
    order::to_front(buffers, place);
}

/// Writes block `n`. Where that succeeds the bytes are in the first buffer: the one that held the
/// block, or the one that was used least recently. Where it fails, which the count of writes that
/// failed shows, no buffer holds the block, since nobody knows what the device has.
pub fn store<D: BlockDevice>(
    device: &mut D,
    buffers: &mut [Buffer],
    n: u32,
    bytes: &[u8],
) -> Result<(), Failed>
    requires block { n < (D.seen device.old).count }
    requires whole { length bytes.now ≡ (D.seen device.old).size }
    requires some { 0 < length buffers.old }
    requires of { AreOf D.tells (D.seen device.old) buffers.old }
    ensures first { OnOk result (Fronts (place_for n buffers.old) (HasBlock n bytes.now)
        (map (forgot n) buffers.old) buffers.new) }
    ensures forgotten { OnErr result (buffers.new ≡ map (forgot n) buffers.old) }
    ensures of { AreOf D.tells (D.seen device.new) buffers.new }
    ensures put { IsTrue D.tells → OnOk result
        ((D.seen device.new).cur ≡ slice_set (D.seen device.old).cur n bytes.now) }
    ensures after { Puts D.tells n bytes.now (D.seen device.old) (D.seen device.new) }
    ensures fault { CountsWrite (D.faults device.old) (D.faults device.new) result }
{
    let place = order::place_for(buffers, n);
    order::forget(buffers, n);
    match device.write(n, bytes) {
        Ok(()) => {
            keep(buffers, place, n, bytes);
            Ok(())
        }
        Err(Failed) => Err(Failed),
    }
}
