//! Blocks as the layers above a device read and write them, with what a crash may leave of them.
ghost use Rattle.std.specs.Prelude.{
  ◌≡◌,
  ◌<◌,
  ◌≤◌,
  ℕ,
  Bool,
  IsTrue,
  length,
  slice_set,
  IfOk,
  OnOk,
  All,
};
ghost use Rattle.std.specs.Borrow.{sem};
ghost use Rattle.std.specs.Io.BufRead.{Rests};
ghost use Rattle.vr_types.specs.Image.{Block, Image, block_at};
ghost use Rattle.vr_types.specs.Seen.{Seen, Left};
ghost use Rattle.vr_types.specs.Blocks.{Keeps, Puts, Forced};
ghost use Rattle.vr_types.specs.Faults.{Faults, HasCause, HasWriteCause};

use crate::fault::DeviceFault;

/// Blocks of one size, numbered from 0. Where it reports their contents, each call says what it
/// leaves of them, and what a crash at any moment of the call may leave. No call takes memory, and
/// none changes the number or the size of the blocks. `get` and `put` may have to write out another
/// block.
///
/// An implementation over a device has that device's moments, images and faults, and no others: a
/// promise about a crash is one about the images of the device, and an implementation that invents
/// its own promises nothing.
pub trait Blocks {
    /// Whether the contents are reported.
    ghost tells: { Bool };

    /// The number and size of the blocks, the contents that `get` lends, those that a crash may
    /// leave of each block, and the device's clock with the images of each moment.
    ghost seen: { Self → Seen };

    /// How often reads of the device have failed, and its writes and syncs.
    ghost faults: { Self → Faults };

    /// Lends the content of block `n`. Either fault may come, `Write` where another block had to be
    /// written out.
    fn get(&mut self, n: u32) -> Result<&[u8], DeviceFault>
        requires { n < (seen self.old).count }
        ensures content { IsTrue tells → IfOk result (λ s. s.now ≡ block_at (seen self.old).cur n) }
        ensures length { IfOk result (λ s. length s.now ≡ (seen self.old).size) }
        ensures* after { sem 𝓛 (Rests Self.row self.entry (λ new.
            Keeps tells (seen self.old) (seen new)
            × HasCause (faults self.old) (faults new) result)) };

    /// Makes the content of block `n` the bytes, and adds them to what a crash may leave of it.
    /// `Write` leaves the content as it was or makes it the bytes, and adds at most the bytes.
    fn put(&mut self, n: u32, bytes: &[u8]) -> Result<(), DeviceFault>
        requires block { n < (seen self.old).count }
        requires whole { length bytes.now ≡ (seen self.old).size }
        ensures put { IsTrue tells → OnOk result
            ((seen self.new).cur ≡ slice_set (seen self.old).cur n bytes.now) }
        ensures after { Puts tells n bytes.now (seen self.old) (seen self.new) }
        ensures cause { HasWriteCause (faults self.old) (faults self.new) result };

    /// Makes what a crash may leave of each listed block its current content alone. `Write` adds
    /// nothing to what it may leave.
    fn force(&mut self, list: &[u32]) -> Result<(), DeviceFault>
        requires { All (λ n. n < (seen self.old).count) list.now }
        ensures forced { IsTrue tells → OnOk result
            (Forced list.now (seen self.old).cur (seen self.new).may) }
        ensures after { Keeps tells (seen self.old) (seen self.new) }
        ensures cause { HasWriteCause (faults self.old) (faults self.new) result };

    /// A crash may leave the current contents.
    ghost cur_may: { (blocks : Self) → IsTrue tells → Left (seen blocks) (seen blocks).cur };

    /// An image of the present moment is, block by block, one of the contents that may be left.
    ghost images_may: { (blocks : Self) (image : Image) → IsTrue tells
        → (seen blocks).images (seen blocks).moment image → Left (seen blocks) image };

    /// A crash at any moment so far leaves some image.
    ghost some_image: { (blocks : Self) (t : ℕ) → IsTrue tells
        → t ≤ (seen blocks).moment → (image : Image) × (seen blocks).images t image };

    /// Each content that may be left has the size of a block.
    ghost sized: { (blocks : Self) (n : ℕ) (block : Block) → IsTrue tells
        → n < (seen blocks).count → (seen blocks).may n block → length block ≡ (seen blocks).size };
}
