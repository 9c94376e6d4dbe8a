//! A file made of the blocks of a device: a double for the host's.
ghost use Rattle.std.specs.Prelude.{◌≡◌, ◌<◌, ℕ};
ghost use Rattle.vr_device.specs.BlockFile.{BeginsAt};

use crate::block_file::BlockFile;
use crate::device::BlockDevice;
use std::marker::Model;
use vr_types::Failed;

/// A file that holds the blocks of a device, which have at least one byte. Its calls are the
/// device's, and fail where those do; over a device in memory it reports all its content. A clause
/// sees it as the device.
#[derive(Drop)]
pub struct DeviceFile<D: BlockDevice> {
    device: D,
}

impl<D: BlockDevice> Model for DeviceFile<D> {
    ghost use Rattle.std.specs.Prelude.{◌<◌};

    ghost Value = { D };

    ghost view = { λ f. f.device };

    ghost invariant = { λ f. 0 < (D.seen f.device).size };
}

impl<D: BlockDevice> DeviceFile<D> {
    /// Makes a file of the blocks of a device.
    pub fn over(device: D) -> DeviceFile<D>
        requires { 0 < (D.seen device).size }
        ensures { result ≡ device }
    {
        DeviceFile { device }
    }

    /// Gives the device back.
    pub fn into_inner(self) -> D
        ensures { result ≡ self }
    {
        self.device
    }

    /// The block that begins at a byte.
    fn block(&self, start: u64) -> u32
        ensures { (n : ℕ) → BeginsAt (D.seen self.now) n start → result ≡ n }
    {
        let number = start / self.device.size() as u64;
        number.min(self.device.blocks() as u64) as u32
    }
}

impl<D: BlockDevice> BlockFile for DeviceFile<D> {
    ghost tells = { D.tells };

    ghost seen = { λ f. D.seen f };

    ghost cur_may = { λ f told. D.cur_may f told };

    ghost images_may = { λ f image told left. D.images_may f image told left };

    ghost some_image = { λ f t told past. D.some_image f t told past };

    ghost sized = { λ f n block told below may. D.sized f n block told below may };

    fn read_at(&mut self, start: u64, into: &mut [u8]) -> Result<(), Failed> {
        let n = self.block(start);
        self.device.read(n, into)
    }

    fn write_at(&mut self, start: u64, from: &[u8]) -> Result<(), Failed> {
        let n = self.block(start);
        self.device.write(n, from)
    }

    fn sync(&mut self) -> Result<(), Failed> {
        self.device.sync()
    }
}
