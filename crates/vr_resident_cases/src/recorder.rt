//! A device that records the calls that are made to it.

use std::alloc::{AllocError, Global};
use std::cell::RefCell;
use std::rc::Rc;
use vr_device::BlockDevice;
use vr_types::Failed;

/// A call of a device, which may have failed.
#[derive(Clone, Copy, PartialEq, Eq)]
pub enum DeviceCall {
    Read(u32),
    Write(u32, [u8; 2]),
    Sync,
}

/// The calls so far, which whoever asks the cache looks at while the cache has the device.
pub type Log = Rc<RefCell<Vec<DeviceCall>>>;

/// A log with no call.
pub fn new_log(alloc: Global) -> Result<Log, AllocError> {
    Ok(Rc::new(alloc, RefCell::new(Vec::new(alloc)))?)
}

/// Adds a call. Where memory is out the log lacks it, and differs from what is wanted.
fn record(log: &Log, call: DeviceCall) {
    if let Ok(mut calls) = log.try_borrow_mut() {
        let _ = calls.push(call);
    }
}

/// Whether these are the calls of the log.
pub fn is_logged(log: &Log, wanted: &[DeviceCall]) -> bool {
    match log.try_borrow() {
        Ok(calls) => calls.as_slice() == wanted,
        Err(_) => false,
    }
}

/// The first two bytes of a block.
fn first_bytes(block: &[u8]) -> [u8; 2] {
    match block {
        [first, second, ..] => [*first, *second],
        _ => [0, 0],
    }
}

/// A device, and the log of its calls.
#[derive(Drop)]
pub struct Recorder<D: BlockDevice> {
    device: D,
    log: Log,
}

impl<D: BlockDevice> Recorder<D> {
    ghost use Rattle.std.specs.Prelude.{◌≡◌};

    /// Records the calls of a device.
    pub fn over(device: D, log: Log) -> Recorder<D>
        ensures { result.device ≡ device }
    {
        Recorder { device, log }
    }

    /// The device.
    pub fn device(&self) -> &D {
        &self.device
    }
}

impl<D: BlockDevice> BlockDevice for Recorder<D> {
    ghost tells = { D.tells };

    ghost seen = { λ r. D.seen r.device };

    ghost faults = { λ r. D.faults r.device };

    ghost cur_may = { λ r told. D.cur_may r.device told };

    ghost images_may = { λ r image told left. D.images_may r.device image told left };

    ghost some_image = { λ r t told past. D.some_image r.device t told past };

    ghost sized = { λ r n block told below may. D.sized r.device n block told below may };

    fn blocks(&self) -> u32 {
        self.device.blocks()
    }

    fn size(&self) -> u32 {
        self.device.size()
    }

    fn read(&mut self, n: u32, into: &mut [u8]) -> Result<(), Failed> {
        record(&self.log, DeviceCall::Read(n));
        self.device.read(n, into)
    }

    fn write(&mut self, n: u32, from: &[u8]) -> Result<(), Failed> {
        record(&self.log, DeviceCall::Write(n, first_bytes(from)));
        self.device.write(n, from)
    }

    fn sync(&mut self) -> Result<(), Failed> {
        record(&self.log, DeviceCall::Sync);
        self.device.sync()
    }
}
