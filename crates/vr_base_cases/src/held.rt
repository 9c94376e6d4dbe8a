//! The device that lines speak of.

use std::mem;
use vr_case_table::Stop;
use vr_device::{BlockDevice, DeviceFile, FileDevice, HostFile, MemoryDevice};

/// What the lines before left.
#[derive(Drop)]
pub enum Held {
    Nothing,
    Memory(MemoryDevice),
    /// A device over a file that is made of the blocks of a device in memory.
    File(FileDevice<DeviceFile<MemoryDevice>>),
    /// A device over a file of the host.
    Host(FileDevice<HostFile>),
}

impl Held {
    /// Makes this what is held.
    pub fn set(&mut self, new: Held) {
        *self = new;
    }

    /// The device in memory, to call it.
    pub fn memory(&mut self) -> Result<&mut MemoryDevice, Stop> {
        match self {
            Held::Memory(device) => Ok(device),
            _ => Err(Stop::Line),
        }
    }

    /// The device in memory, taken out; also of a file that is made of one.
    pub fn take(&mut self) -> Result<MemoryDevice, Stop> {
        match mem::replace(self, Held::Nothing) {
            Held::Memory(device) => Ok(device),
            Held::File(device) => Ok(device.into_inner().into_inner()),
            _ => Err(Stop::Line),
        }
    }
}

/// A device over a file that is made of the blocks of one in memory, which stays itself where its
/// blocks have no byte.
pub fn over_file(device: MemoryDevice) -> Held {
    let size = device.size();
    let blocks = device.blocks();
    if size == 0 {
        Held::Memory(device)
    } else {
        Held::File(FileDevice::over(DeviceFile::over(device), size, blocks))
    }
}
