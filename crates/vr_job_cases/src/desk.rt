//! What the lines before left: the devices of a shelf.

use crate::answers::Stop;
use std::alloc::Global;
use std::mem;
use vr_device::MemoryDevice;

/// What the lines before left.
#[derive(Drop)]
pub struct Desk {
    shelf: Vec<MemoryDevice>,
}

impl Desk {
    /// An empty shelf.
    pub fn new(alloc: Global) -> Desk {
        Desk {
            shelf: Vec::new(alloc),
        }
    }

    /// Other devices.
    pub fn set(&mut self, shelf: Vec<MemoryDevice>) {
        self.shelf = shelf;
    }

    /// The devices, which are no more here.
    pub fn take(&mut self, alloc: Global) -> Vec<MemoryDevice> {
        mem::replace(&mut self.shelf, Vec::new(alloc))
    }

    /// The devices.
    pub fn devices(&mut self) -> &mut [MemoryDevice] {
        self.shelf.as_mut_slice()
    }

    /// The device of a number from 0 on.
    pub fn device(&mut self, at: usize) -> Result<&mut MemoryDevice, Stop> {
        self.shelf.get_mut(at).ok_or(Stop::Line)
    }
}
