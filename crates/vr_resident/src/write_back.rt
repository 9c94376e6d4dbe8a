//! Blocks of a device in frames.
ghost use Rattle.std.specs.Prelude.{◌≡◌, ◌<◌, ◌-◌, ℕ, All, IsTrue, IfOk};
ghost use Rattle.std.specs.Prelude.{IfNone, OnOk, OnErr, length, min, slice_set, take};
ghost use Rattle.std.specs.Borrow.{sem};
ghost use Rattle.std.specs.Io.BufRead.{Rests};
ghost use Rattle.vr_types.specs.Image.{block_at};
ghost use Rattle.vr_types.specs.Blocks.{Keeps, Puts, Forced, AllForced, AddsNone};
ghost use Rattle.vr_types.specs.Seen.{Left};
ghost use Rattle.vr_types.specs.Moments.{During};
ghost use Rattle.vr_frames.specs.Frames.{IsSeatOf, IsSameSeat, frames_of, parts_of};
ghost use Rattle.vr_resident.specs.Held.{AreClean, changed_count};
ghost use Rattle.vr_resident.specs.Places.{buffers_of, count_of, gave};
ghost use Rattle.vr_resident.specs.declared.place.Sought.TheVariants.{Free};
ghost use Rattle.vr_types.specs.Faults.{HasCause, HasWriteCause};
ghost use Rattle.vr_resident.specs.contracts.write_back.Resident.{the_row};
ghost use Rattle.vr_resident.specs.Resident.{seen_through, held_in, HasFaultCause};
ghost use Rattle.vr_resident.specs.Cache.{
  IsFramed,
  IsKept,
  IsFirst,
  IsBlockOf,
  IsForced,
  IsFlushed,
  entries_of,
  others,
  pool_of,
  KeepsSeat,
  Got,
  PutsBlock,
};

use crate::bringing::{bring, store};
use crate::frames::Frames;
use crate::place::Place;
use crate::{giving, writing};
use std::marker::Model;
use vr_device::BlockDevice;
use vr_frames::FrameSeat;
use vr_types::{Blocks, DeviceFault};

/// The blocks of a device, of which it holds some in frames. A block that is put stays in its frame
/// until it is forced or flushed, or has to make room. Nothing is written when it is dropped: see
/// `close`.
#[derive(Drop)]
pub struct Resident<D: BlockDevice> {
    device: D,
    frames: Frames,
}

impl<D: BlockDevice> Model for Resident<D> {
    ghost use Rattle.vr_resident.specs.Cache.{IsKept};
    ghost use Rattle.vr_resident.specs.Resident.{Resident as Cached};

    ghost Value = { Cached D };

    ghost view = { λ r. record { device = r.device; frames = r.frames } };

    ghost invariant = { λ r. IsKept D.tells (D.seen r.device) r.frames };
}

/// The block of the first place.
fn first(frames: &Frames, _n: u32) -> &[u8]
    requires framed { IsFramed frames.now }
    requires first { IsFirst _n frames.now }
    ensures { IsBlockOf _n frames.now result.now }
{
    match frames.table.peek_mru() {
        Some((_, Place::Taken(_, _, buffer))) => buffer.block(frames.size),
        _ => unreachable!(),
    }
}

impl<D: BlockDevice> Blocks for Resident<D> {
    ghost use Rattle.vr_resident.specs.Seeing.{cur_through, images_through, sized_through};

    ghost tells = { D.tells };

    ghost seen = { λ r. seen_through (D.seen r.device) r.frames };

    ghost faults = { λ r. D.faults r.device };

    ghost cur_may = { λ r told. cur_through (D.seen r.device) r.frames (D.cur_may r.device told) };

    ghost images_may = { λ r image told left. images_through (D.seen r.device) r.frames image
        (D.images_may r.device image told left) };

    ghost some_image = { λ r t told past. D.some_image r.device t told past };

    ghost sized = { λ r n block told below may. sized_through (D.seen r.device) r.frames n block
        (λ old. D.sized r.device n block told below old) may };

    fn get(&mut self, n: u32) -> Result<&[u8], DeviceFault>
        requires { n < (D.seen self.old.device).count }
        ensures content { IsTrue D.tells → IfOk result (λ s. s.now
            ≡ block_at (seen_through (D.seen self.old.device) self.old.frames).cur n) }
        ensures length { IfOk result (λ s. length s.now ≡ (D.seen self.old.device).size) }
        ensures* after { sem 𝓛 (Rests (the_row D.row D.BlockDevice) self.entry (λ new.
            Keeps D.tells (seen_through (D.seen self.old.device) self.old.frames)
            (seen_through (D.seen new.device) new.frames)
            × HasCause (D.faults self.old.device) (D.faults new.device) result
            × Got n result self.old.frames new.frames)) }
    {
        match bring(&mut self.device, &mut self.frames, n) {
            Ok(()) => Ok(first(&self.frames, n)),
            Err(fault) => Err(fault),
        }
    }

    fn put(&mut self, n: u32, bytes: &[u8]) -> Result<(), DeviceFault>
        requires block { n < (D.seen self.old.device).count }
        requires whole { length bytes.now ≡ (D.seen self.old.device).size }
        ensures put { IsTrue D.tells → OnOk result
            ((seen_through (D.seen self.new.device) self.new.frames).cur
            ≡ slice_set (seen_through (D.seen self.old.device) self.old.frames).cur n bytes.now) }
        ensures after { Puts D.tells n bytes.now
            (seen_through (D.seen self.old.device) self.old.frames)
            (seen_through (D.seen self.new.device) self.new.frames) }
        ensures cause { HasWriteCause (D.faults self.old.device) (D.faults self.new.device) result }
        ensures first { OnOk result (PutsBlock n bytes.now self.old.frames self.new.frames) }
        ensures still { OnErr result (self.new.frames.table ≡ self.old.frames.table) }
        ensures seat { KeepsSeat self.old.frames self.new.frames }
    {
        store(&mut self.device, &mut self.frames, n, bytes)
    }

    fn force(&mut self, list: &[u32]) -> Result<(), DeviceFault>
        requires { All (λ n. n < (D.seen self.old.device).count) list.now }
        ensures forced { IsTrue D.tells → OnOk result (Forced list.now
            (seen_through (D.seen self.old.device) self.old.frames).cur
            (seen_through (D.seen self.new.device) self.new.frames).may) }
        ensures after { Keeps D.tells (seen_through (D.seen self.old.device) self.old.frames)
            (seen_through (D.seen self.new.device) self.new.frames) }
        ensures cause { HasWriteCause (D.faults self.old.device) (D.faults self.new.device) result }
        ensures written { OnOk result (IsForced list.now self.old.frames self.new.frames) }
        ensures some { OnErr result
            ((k : ℕ) × IsForced (take k list.now) self.old.frames self.new.frames) }
        ensures seat { KeepsSeat self.old.frames self.new.frames }
    {
        writing::force(&mut self.device, &mut self.frames, list)
    }
}

impl<D: BlockDevice> Resident<D> {
    /// The blocks of a device, over these frames.
    pub(crate) fn over(device: D, frames: Frames) -> Self
        requires { IsKept D.tells (D.seen device) frames }
        ensures device { result.device ≡ device }
        ensures frames { result.frames ≡ frames }
    {
        Resident { device, frames }
    }

    /// A block that is held and isn't changed is what the device reads. This is a law: it does
    /// nothing.
    pub fn clean_block_is_the_devices(&self)
        ensures { IsTrue D.tells → AreClean (D.seen self.now.device).cur
            (held_in (D.seen self.now.device) self.now.frames) }
    {
        // What always holds of a cache is known where one of its fields is used.
        let _ = &self.device;
    }

    /// Writes this many changed blocks, or all where there are fewer, the least recently used
    /// first, and answers how many. It doesn't sync. `Write` comes where a write of the device
    /// failed: the blocks that were written before are not changed any more, and the others still
    /// are.
    pub fn flush_turn(&mut self, most: u32) -> Result<u32, DeviceFault>
        ensures flushed { IfOk result (λ k. IsFlushed k self.old.frames self.new.frames) }
        ensures count { IfOk result (λ k. k
            ≡ min most (changed_count (held_in (D.seen self.old.device) self.old.frames))) }
        ensures some { OnErr result
            ((k : ℕ) × (k < most) × IsFlushed k self.old.frames self.new.frames) }
        ensures seat { KeepsSeat self.old.frames self.new.frames }
        ensures after { Keeps D.tells (seen_through (D.seen self.old.device) self.old.frames)
            (seen_through (D.seen self.new.device) self.new.frames) }
        ensures cause { HasWriteCause (D.faults self.old.device) (D.faults self.new.device) result }
    {
        match writing::flush(&mut self.device, &mut self.frames, most as usize) {
            Ok(written) => Ok(written as u32),
            Err(fault) => Err(fault),
        }
    }

    /// Gives frames that hold no changed block back to the pool, until 16 are left or none is
    /// clean, the least recently used first, and answers how many. Buffers of the cache's own count
    /// among the 16, and stay.
    pub fn give_back(&mut self) -> u32
        ensures gave { entries_of self.new.frames ≡ gave result (entries_of self.old.frames) }
        ensures count { result ≡ min (length (buffers_of (entries_of self.old.frames)) - 16)
            (count_of Free (entries_of self.old.frames)) }
        ensures device { self.new.device ≡ self.old.device }
        ensures seat { KeepsSeat self.old.frames self.new.frames }
        ensures after { Keeps D.tells (seen_through (D.seen self.old.device) self.old.frames)
            (seen_through (D.seen self.new.device) self.new.frames) }
    {
        giving::give_back(&mut self.frames)
    }

    /// Ends the cache: it writes every changed block and syncs once, up to the first that fails,
    /// and gives every frame back to the pool. The fault is that of a write or sync that failed;
    /// the blocks that were not written are lost then.
    pub fn close(self) -> (D, FrameSeat, Option<DeviceFault>)
        ensures home { frames_of result.1 ≡ others self.frames }
        ensures of_pool { IsSeatOf (pool_of self.frames) result.1 }
        ensures same { IsSameSeat self.frames.seat result.1 }
        ensures parts { parts_of result.1 ≡ parts_of self.frames.seat }
        ensures count { (D.seen result.0).count ≡ (D.seen self.device).count }
        ensures size { (D.seen result.0).size ≡ (D.seen self.device).size }
        ensures written { IsTrue D.tells → IfNone result.2 ((D.seen result.0).cur
            ≡ (seen_through (D.seen self.device) self.frames).cur) }
        ensures synced { IsTrue D.tells → IfNone result.2 (AllForced (D.seen self.device).count
            (seen_through (D.seen self.device) self.frames).cur (D.seen result.0).may) }
        ensures adds_none { IsTrue D.tells → AddsNone (D.seen self.device).count
            (seen_through (D.seen self.device) self.frames).may (D.seen result.0).may }
        ensures moments { IsTrue D.tells → During (seen_through (D.seen self.device) self.frames)
            (D.seen result.0) (Left (seen_through (D.seen self.device) self.frames)) }
        ensures fault { HasFaultCause (D.faults self.device) (D.faults result.0) result.2 }
    {
        let Resident {
            mut device,
            mut frames,
        } = self;
        let fault = writing::write_all(&mut device, &mut frames);
        (device, giving::give_all(frames), fault)
    }
}
