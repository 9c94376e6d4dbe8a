//! A file that holds blocks, as far as a device over it needs one.
ghost use Rattle.std.specs.Prelude.{◌≡◌, ◌<◌, ◌≤◌, ◌*◌, ℕ, Bool, IsTrue, length, slice_set, OnOk};
ghost use Rattle.vr_types.specs.Image.{Block, Image, block_at};
ghost use Rattle.vr_types.specs.Seen.{Seen, Left};
ghost use Rattle.vr_types.specs.Blocks.{Keeps, Puts, AllForced};
ghost use Rattle.vr_device.specs.BlockFile.{BeginsAt};

use vr_types::Failed;

/// A file that holds blocks of one size, one after the other: block n is the `size` bytes from byte
/// n * size on. Where it reports its content, each call says what it leaves of the blocks, and what
/// a crash may leave of them: a block that was written since the last sync that succeeded is left
/// whole, as it was written or as it was before.
pub trait BlockFile: Drop {
    /// Whether the file reports its content.
    ghost tells: { Bool };

    /// What is seen of its blocks.
    ghost seen: { Self → Seen };

    /// Reads the block that begins at this byte.
    fn read_at(&mut self, start: u64, into: &mut [u8]) -> Result<(), Failed>
        requires block { (n : ℕ) × BeginsAt (seen self.old) n start }
        requires whole { length into.old ≡ (seen self.old).size }
        ensures bytes { IsTrue tells → OnOk result
            ((n : ℕ) → BeginsAt (seen self.old) n start
            → into.new ≡ block_at (seen self.old).cur n) }
        ensures after { Keeps tells (seen self.old) (seen self.new) };

    /// Writes the block that begins at this byte. After `Failed` the write may have happened.
    fn write_at(&mut self, start: u64, from: &[u8]) -> Result<(), Failed>
        requires block { (n : ℕ) × BeginsAt (seen self.old) n start }
        requires whole { length from.now ≡ (seen self.old).size }
        ensures written { IsTrue tells → OnOk result ((n : ℕ) → BeginsAt (seen self.old) n start
            → (seen self.new).cur ≡ slice_set (seen self.old).cur n from.now) }
        ensures after { (n : ℕ) → BeginsAt (seen self.old) n start
            → Puts tells n from.now (seen self.old) (seen self.new) };

    /// Makes what was written stable: a crash leaves what is read, and nothing else.
    fn sync(&mut self) -> Result<(), Failed>
        ensures synced { IsTrue tells → OnOk result
            (AllForced (seen self.old).count (seen self.old).cur (seen self.new).may) }
        ensures after { Keeps tells (seen self.old) (seen self.new) };

    /// A crash may leave the contents that are read.
    ghost cur_may: { (file : Self) → IsTrue tells → Left (seen file) (seen file).cur };

    /// An image of the present moment is, block by block, one of the contents that may be left.
    ghost images_may: { (file : Self) (image : Image) → IsTrue tells
        → (seen file).images (seen file).moment image → Left (seen file) image };

    /// A crash at any moment so far leaves some image.
    ghost some_image: { (file : Self) (t : ℕ) → IsTrue tells
        → t ≤ (seen file).moment → (image : Image) × (seen file).images t image };

    /// Each content that may be left has the size of a block.
    ghost sized: { (file : Self) (n : ℕ) (block : Block) → IsTrue tells
        → n < (seen file).count → (seen file).may n block → length block ≡ (seen file).size };
}
