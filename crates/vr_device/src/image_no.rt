//! Why no image of a device in memory could be made.
ghost use Rattle.std.specs.Prelude.{◌≡◌};
ghost use Rattle.vr_device.specs.declared.image_no.ImageNo.TheVariants.{Memory};

use vr_types::OutOfMemory;

/// Why no image could be made.
#[derive(Clone, Copy, PartialEq, Eq)]
pub enum ImageNo {
    /// The first block for which the choice has no number, or one past the block's contents. The
    /// number of blocks, where the choice is too long.
    Choice { block: u32 },
    /// Out of memory for the device.
    Memory,
}

impl From<OutOfMemory> for ImageNo {
    ghost from_gives = { λ _ no. no ≡ Memory };

    fn from(_: OutOfMemory) -> Self {
        ImageNo::Memory
    }
}
