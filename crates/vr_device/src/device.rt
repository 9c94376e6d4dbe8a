//! A device of blocks, with what a crash may leave of it.
ghost use Rattle.std.specs.Prelude.{◌≡◌, ◌<◌, ◌≤◌, ℕ, Bool, IsTrue, length, slice_set, OnOk};
ghost use Rattle.vr_types.specs.Image.{Block, Image, block_at};
ghost use Rattle.vr_types.specs.Seen.{Seen, Left};
ghost use Rattle.vr_types.specs.Blocks.{Keeps, Puts, AllForced};
ghost use Rattle.vr_types.specs.Faults.{Faults, CountsRead, CountsWrite};

use vr_types::Failed;

/// A device of blocks of one size, numbered from 0. Where it reports its contents, each call says
/// what it leaves of them, and a clock of the device's own, which moves only in its calls, says
/// what a crash at each moment may leave: of each block, independently of the others, one of the
/// contents that are left to it. A device may sync on its own, so what a crash may leave is bounded
/// from above alone.
pub trait BlockDevice: Drop {
    /// Whether the device reports its contents.
    ghost tells: { Bool };

    /// The number and size of the blocks, the contents as read, those that a crash may leave of
    /// each block, and the clock with the images of each moment.
    ghost seen: { Self → Seen };

    /// How often a read has failed, and a write or a sync.
    ghost faults: { Self → Faults };

    /// The number of blocks, which no call changes.
    fn blocks(&self) -> u32
        ensures { result ≡ (seen self.now).count };

    /// The size of a block in bytes, which no call changes.
    fn size(&self) -> u32
        ensures { result ≡ (seen self.now).size };

    /// Reads block `n`. After `Failed` the device is as it was, and `into` holds any bytes.
    fn read(&mut self, n: u32, into: &mut [u8]) -> Result<(), Failed>
        requires block { n < (seen self.old).count }
        requires whole { length into.old ≡ (seen self.old).size }
        ensures bytes { IsTrue tells → OnOk result (into.new ≡ block_at (seen self.old).cur n) }
        ensures after { Keeps tells (seen self.old) (seen self.new) }
        ensures fault { CountsRead (faults self.old) (faults self.new) result };

    /// Writes block `n`. After `Failed` the write may have happened.
    fn write(&mut self, n: u32, from: &[u8]) -> Result<(), Failed>
        requires block { n < (seen self.old).count }
        requires whole { length from.now ≡ (seen self.old).size }
        ensures written { IsTrue tells → OnOk result
            ((seen self.new).cur ≡ slice_set (seen self.old).cur n from.now) }
        ensures after { Puts tells n from.now (seen self.old) (seen self.new) }
        ensures fault { CountsWrite (faults self.old) (faults self.new) result };

    /// Makes what was written stable: a crash leaves what is read, and nothing else. After `Failed`
    /// it may leave what it might have left before.
    fn sync(&mut self) -> Result<(), Failed>
        ensures synced { IsTrue tells → OnOk result
            (AllForced (seen self.old).count (seen self.old).cur (seen self.new).may) }
        ensures after { Keeps tells (seen self.old) (seen self.new) }
        ensures fault { CountsWrite (faults self.old) (faults self.new) result };

    /// A crash may leave the contents that are read.
    ghost cur_may: { (device : Self) → IsTrue tells → Left (seen device) (seen device).cur };

    /// An image of the present moment is, block by block, one of the contents that may be left.
    ghost images_may: { (device : Self) (image : Image) → IsTrue tells
        → (seen device).images (seen device).moment image → Left (seen device) image };

    /// A crash at any moment so far leaves some image.
    ghost some_image: { (device : Self) (t : ℕ) → IsTrue tells
        → t ≤ (seen device).moment → (image : Image) × (seen device).images t image };

    /// Each content that may be left has the size of a block.
    ghost sized: { (device : Self) (n : ℕ) (block : Block) → IsTrue tells
        → n < (seen device).count → (seen device).may n block → length block ≡ (seen device).size };
}
