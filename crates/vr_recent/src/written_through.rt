//! Blocks over a device, each written through at once, of which some are kept.
ghost use Rattle.std.specs.Prelude.{◌≡◌, ◌<◌, All, IsTrue, List, OnOk};
ghost use Rattle.std.specs.Prelude.{◌∷◌, length};
ghost use Rattle.vr_types.specs.Blocks.{AllForced, Forced, Keeps};
ghost use Rattle.vr_types.specs.Faults.{HasWriteCause};
ghost use Rattle.vr_recent.specs.Buffers.{IsEmpty};
ghost use Rattle.vr_recent.specs.declared.buffer.Buffer.{Buffer};

use crate::buffer::Buffer;
use crate::keeping::{bring, store};
use std::marker::Model;
use vr_device::BlockDevice;
use vr_types::{Blocks, DeviceFault, Failed};

/// The blocks of a device, of which the ones that were used last are kept in 16 buffers. Each `get`
/// lends from a buffer, and reads the block into one where none holds it; each `put` is a write of
/// the device at once, and each `force` a sync, whatever it lists. A clause sees it as its device.
#[derive(Drop)]
pub struct Recent<D: BlockDevice> {
    device: D,
    buffers: Vec<Buffer>,
}

impl<D: BlockDevice> Model for Recent<D> {
    ghost use Rattle.vr_recent.specs.Buffers.{IsKept};

    ghost Value = { D };

    ghost view = { λ r. r.device };

    ghost invariant = { λ r. IsKept D.tells (D.seen r.device) r.buffers.items };
}

impl<D: BlockDevice> Recent<D> {
    /// The blocks of a device, with buffers that hold none of them.
    pub(crate) fn over(device: D, buffers: Vec<Buffer>) -> Self
        requires count { length buffers.items ≡ 16 }
        requires empty { All (IsEmpty (D.seen device).size) buffers.items }
        ensures { result ≡ device }
    {
        Recent { device, buffers }
    }

    /// Gives the device back.
    pub fn into_inner(self) -> D
        ensures { result ≡ self }
    {
        self.device
    }
}

/// The bytes in the first buffer.
fn first(buffers: &[Buffer]) -> &[u8]
    requires { 0 < length buffers.now }
    ensures { (first : Buffer) (rest : List Buffer) → buffers.now ≡ first ∷ rest
        → result.now ≡ first.bytes.items }
{
    buffers[0].bytes.as_slice()
}

impl<D: BlockDevice> Blocks for Recent<D> {
    ghost tells = { D.tells };

    ghost seen = { λ d. D.seen d };

    ghost faults = { λ d. D.faults d };

    ghost cur_may = { λ d told. D.cur_may d told };

    ghost images_may = { λ d image told left. D.images_may d image told left };

    ghost some_image = { λ d t told past. D.some_image d t told past };

    ghost sized = { λ d n block told below may. D.sized d n block told below may };

    fn get(&mut self, n: u32) -> Result<&[u8], DeviceFault> {
        match bring(&mut self.device, &mut self.buffers, n) {
            Ok(()) => Ok(first(&self.buffers)),
            Err(Failed) => Err(DeviceFault::Read),
        }
    }

    fn put(&mut self, n: u32, bytes: &[u8]) -> Result<(), DeviceFault> {
        match store(&mut self.device, &mut self.buffers, n, bytes) {
            Ok(()) => Ok(()),
            Err(Failed) => Err(DeviceFault::Write),
        }
    }

    fn force(&mut self, _list: &[u32]) -> Result<(), DeviceFault>
        requires { All (λ n. n < (D.seen self.old).count) _list.now }
        ensures forced { IsTrue D.tells → OnOk result
            (Forced _list.now (D.seen self.old).cur (D.seen self.new).may) }
        ensures synced { IsTrue D.tells → OnOk result
            (AllForced (D.seen self.old).count (D.seen self.old).cur (D.seen self.new).may) }
        ensures after { Keeps D.tells (D.seen self.old) (D.seen self.new) }
        ensures cause { HasWriteCause (D.faults self.old) (D.faults self.new) result }
    {
        match self.device.sync() {
            Ok(()) => Ok(()),
            Err(Failed) => Err(DeviceFault::Write),
        }
    }
}
