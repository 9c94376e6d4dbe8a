//! What the lines before left: the device of a volume, its shape, and the entries of its catalog.

use crate::answers::Stop;
use vr_device::MemoryDevice;

/// The shape of a volume: the bytes of a block, the blocks of the device, the blocks of the log, and the
/// intervals of an area.
#[derive(Clone, Copy)]
pub struct Shape {
    pub size: u32,
    pub blocks: u32,
    pub log: u32,
    pub area: u32,
}

/// What the lines before left.
#[derive(Drop)]
pub struct Desk {
    device: Option<MemoryDevice>,
    shape: Option<Shape>,
    /// The entries with which it was formatted as a line spells them, where it does.
    entries: Option<String>,
}

impl Desk {
    /// Nothing yet.
    pub fn new() -> Desk {
        Desk {
            device: None,
            shape: None,
            entries: None,
        }
    }

    /// A new device.
    pub fn set(&mut self, device: MemoryDevice) {
        self.device = Some(device);
    }

    /// The shape of the volume and the entries of its catalog.
    pub fn set_shape(&mut self, shape: Shape, entries: String) {
        self.shape = Some(shape);
        self.entries = Some(entries);
    }

    /// The shape of the last volume that was formatted.
    pub fn shape(&self) -> Result<Shape, Stop> {
        self.shape.ok_or(Stop::Line)
    }

    /// The entries of its catalog, as its line spells them: nothing where it doesn't.
    pub fn entries(&self) -> &str {
        match &self.entries {
            Some(entries) => entries.as_str(),
            None => "",
        }
    }

    /// The device, to call it.
    pub fn device(&mut self) -> Result<&mut MemoryDevice, Stop> {
        match &mut self.device {
            Some(device) => Ok(device),
            None => Err(Stop::Line),
        }
    }

    /// The device, which is no more here.
    pub fn take(&mut self) -> Result<MemoryDevice, Stop> {
        self.device.take().ok_or(Stop::Line)
    }
}
