//! Laws of the definitions that the clauses cite.
ghost use Rattle.std.specs.Prelude.{ℕ, List};
ghost use Rattle.vr_types.specs.Image.{Image, IsImage};
ghost use Rattle.vr_device.specs.Disk.{Disk, MayHold, IsChosen, IsSomeChoice};

use crate::file_device::FileDevice;
use crate::host_file::HostFile;
use crate::memory::MemoryDevice;
use crate::write_through::Direct;

/// What a choice gives is an image that a crash may leave, and each such image is given by some
/// choice.
pub fn choices_are_images()
    ensures image { (count : ℕ) (disk : Disk) (choice : List ℕ) (image : Image)
        → IsChosen count disk choice image → IsImage count (MayHold disk) image }
    ensures every { (count : ℕ) (disk : Disk) (image : Image)
        → IsImage count (MayHold disk) image → IsSomeChoice count disk image }
{}

/// Devices, and blocks over them, can be sent to another thread.
pub fn devices_can_be_sent() {
    can_be_sent::<MemoryDevice>();
    can_be_sent::<FileDevice<HostFile>>();
    can_be_sent::<Direct<MemoryDevice>>();
}

fn can_be_sent<T: Send>() {}
