//! What the lines before left: the device of a volume.

use crate::answers::Stop;
use vr_device::MemoryDevice;

/// What the lines before left.
#[derive(Drop)]
pub struct Desk {
    device: Option<MemoryDevice>,
}

impl Desk {
    /// Nothing yet.
    pub fn new() -> Desk {
        Desk { device: None }
    }

    /// A new device.
    pub fn set(&mut self, device: MemoryDevice) {
        self.device = Some(device);
    }

    /// The device, which isn't there any more.
    pub fn take(&mut self) -> Result<MemoryDevice, Stop> {
        match self.device.take() {
            Some(device) => Ok(device),
            None => Err(Stop::Line),
        }
    }

    /// The device, to call it.
    pub fn device(&mut self) -> Result<&mut MemoryDevice, Stop> {
        match &mut self.device {
            Some(device) => Ok(device),
            None => Err(Stop::Line),
        }
    }
}
