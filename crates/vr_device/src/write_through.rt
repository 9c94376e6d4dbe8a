//! Blocks over a device, each of them written through at once.
ghost use Rattle.std.specs.Prelude.{◌≡◌, ◌<◌, All, IsTrue, OnOk, IfOk, IfErr};
ghost use Rattle.vr_types.specs.Blocks.{Keeps, Forced, AllForced};
ghost use Rattle.vr_types.specs.Faults.{HasWriteCause};

use crate::device::BlockDevice;
use std::alloc::Global;
use std::marker::Model;
use vr_types::{Blocks, DeviceFault, Failed};

/// The blocks of a device. Each `put` is a write of the device at once, and each `force` a sync,
/// whatever it lists. It keeps one buffer of a block, which `get` lends. A clause sees it as its
/// device.
#[derive(Drop)]
pub struct Direct<D: BlockDevice> {
    device: D,
    block: Vec<u8>,
}

impl<D: BlockDevice> Model for Direct<D> {
    ghost use Rattle.std.specs.Prelude.{◌≡◌, length};

    ghost Value = { D };

    ghost view = { λ d. d.device };

    ghost invariant = { λ d. length d.block.items ≡ (D.seen d.device).size };
}

impl<D: BlockDevice> Direct<D> {
    /// Makes blocks of a device. `Err` is out of memory for the buffer, and hands the device back.
    pub(crate) fn new(alloc: Global, device: D) -> Result<Self, D>
        ensures ok { IfOk result (λ blocks. blocks ≡ device) }
        ensures err { IfErr result (λ back. back ≡ device) }
    {
        match vec![in alloc; 0; device.size() as usize] {
            Ok(block) => Ok(Direct { device, block }),
            Err(_) => Err(device),
        }
    }

    /// Gives the device back.
    pub fn into_inner(self) -> D
        ensures { result ≡ self }
    {
        self.device
    }
}

impl<D: BlockDevice> Blocks for Direct<D> {
    ghost tells = { D.tells };

    ghost seen = { λ d. D.seen d };

    ghost faults = { λ d. D.faults d };

    ghost cur_may = { λ d told. D.cur_may d told };

    ghost images_may = { λ d image told left. D.images_may d image told left };

    ghost some_image = { λ d t told past. D.some_image d t told past };

    ghost sized = { λ d n block told below may. D.sized d n block told below may };

    fn get(&mut self, n: u32) -> Result<&[u8], DeviceFault> {
        match self.device.read(n, &mut self.block) {
            Ok(()) => Ok(self.block.as_slice()),
            Err(Failed) => Err(DeviceFault::Read),
        }
    }

    fn put(&mut self, n: u32, bytes: &[u8]) -> Result<(), DeviceFault> {
        match self.device.write(n, bytes) {
            Ok(()) => Ok(()),
            Err(Failed) => Err(DeviceFault::Write),
        }
    }

    fn force(&mut self, _list: &[u32]) -> Result<(), DeviceFault>
        requires { All (λ n. n < (D.seen self.old).count) _list.now }
        ensures forced { IsTrue D.tells → OnOk result
            (Forced _list.now (D.seen self.old).cur (D.seen self.new).may) }
        ensures synced { IsTrue D.tells → OnOk result
            (AllForced (D.seen self.old).count (D.seen self.old).cur (D.seen self.new).may) }
        ensures after { Keeps D.tells (D.seen self.old) (D.seen self.new) }
        ensures cause { HasWriteCause (D.faults self.old) (D.faults self.new) result }
    {
        match self.device.sync() {
            Ok(()) => Ok(()),
            Err(Failed) => Err(DeviceFault::Write),
        }
    }
}
