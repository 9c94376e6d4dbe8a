//! A device that reports none of its contents, so that a log may be called on blocks of it on which
//! nobody proved that it stands.
ghost use Rattle.std.specs.Prelude.{◌≡◌, false};
ghost use Rattle.std.proofs.Common.{true≢false, sym};

use vr_device::BlockDevice;
use vr_types::Failed;

/// The device, with nothing said of its contents.
#[derive(Drop)]
pub struct Untold<D: BlockDevice> {
    device: D,
}

impl<D: BlockDevice> Untold<D> {
    /// Says nothing of the device's contents.
    pub fn over(device: D) -> Untold<D>
        ensures { result.device ≡ device }
    {
        Untold { device }
    }

    /// Gives the device back.
    pub fn into_inner(self) -> D {
        self.device
    }
}

impl<D: BlockDevice> BlockDevice for Untold<D> {
    ghost tells = { false };

    ghost seen = { λ u. D.seen u.device };

    ghost faults = { λ u. D.faults u.device };

    ghost cur_may = { λ u told. absurd (true≢false (sym told)) };

    ghost images_may = { λ u image told left. absurd (true≢false (sym told)) };

    ghost some_image = { λ u t told past. absurd (true≢false (sym told)) };

    ghost sized = { λ u n block told below may. absurd (true≢false (sym told)) };

    fn blocks(&self) -> u32 {
        self.device.blocks()
    }

    fn size(&self) -> u32 {
        self.device.size()
    }

    fn read(&mut self, n: u32, into: &mut [u8]) -> Result<(), Failed> {
        self.device.read(n, into)
    }

    fn write(&mut self, n: u32, from: &[u8]) -> Result<(), Failed> {
        self.device.write(n, from)
    }

    fn sync(&mut self) -> Result<(), Failed> {
        self.device.sync()
    }
}
