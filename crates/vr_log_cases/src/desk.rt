//! What the lines before left: the volume's device and shape, and its log.
ghost use Rattle.std.specs.Prelude.{◌≡◌, false, IfOk};
ghost use Rattle.vr_types.specs.Geometry.{IsAllowed};

use crate::answers::Stop;
use std::mem;
use vr_device::MemoryDevice;
use vr_log::UndoLog;
use vr_types::Geometry;

/// A log that isn't broken, and the shape that it was made with.
#[derive(Drop)]
pub struct OpenLog {
    pub log: UndoLog,
    pub geometry: Geometry,
    ghost same: { log.geometry ≡ geometry },
    ghost sound: { log.broken ≡ false },
}

/// What the lines before left.
#[derive(Drop)]
pub struct Desk {
    device: Option<MemoryDevice>,
    geometry: Option<Geometry>,
    pub log: Option<OpenLog>,
}

impl Desk {
    /// Nothing yet.
    pub fn new() -> Desk {
        Desk {
            device: None,
            geometry: None,
            log: None,
        }
    }

    /// A new volume, without a log.
    pub fn set(&mut self, device: MemoryDevice, geometry: Geometry) {
        self.device = Some(device);
        self.geometry = Some(geometry);
        self.log = None;
    }

    /// The shape of the volume, which is allowed.
    pub fn geometry(&self) -> Result<Geometry, Stop>
        ensures { IfOk result IsAllowed }
    {
        match self.geometry {
            Some(geometry) if geometry.is_allowed() => Ok(geometry),
            _ => Err(Stop::Line),
        }
    }

    /// The device, to call it.
    pub fn device(&mut self) -> Result<&mut MemoryDevice, Stop> {
        match &mut self.device {
            Some(device) => Ok(device),
            None => Err(Stop::Line),
        }
    }

    /// The device, taken out.
    pub fn take(&mut self) -> Result<MemoryDevice, Stop> {
        mem::replace(&mut self.device, None).ok_or(Stop::Line)
    }

    /// Puts the device back.
    pub fn put(&mut self, device: MemoryDevice) {
        self.device = Some(device);
    }
}
