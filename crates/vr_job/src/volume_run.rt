//! A volume of a shelf, as it is opened on its device for a run and closed at the end.
ghost use Rattle.std.specs.Prelude.{◌≡◌, ◌<◌, IfErr, IfOk, IsErr, IsTrue, OnOk, false};
ghost use Rattle.vr_types.specs.Blocks.{AllForced, Keeps};
ghost use Rattle.vr_types.specs.Faults.{CountsWrite};
ghost use Rattle.vr_job.specs.OpenEnds.{NeverFall};
ghost use Rattle.vr_job.specs.VolumeRun.{IsClosed, IsNotOpen, IsOpen};

use crate::opening::open;
use crate::serving::Serving;
use std::alloc::Global;
use vr_device::BlockDevice;
use vr_event::Volume;
use vr_history::History;
use vr_part::AnyPart;
use vr_recent::{Recent, recent};
use vr_trace::EndLine;
use vr_types::Failed;

/// A volume that was closed: its device, its history, and whether the device failed to sync.
#[derive(Drop)]
pub(crate) struct Closed<D: BlockDevice> {
    pub(crate) device: D,
    pub(crate) history: History,
    pub(crate) result: Result<(), Failed>,
}

/// Opens the volume of this number on this many blocks.
fn open_blocks<D: BlockDevice>(
    alloc: Global,
    blocks: Recent<D>,
    count: u32,
    number: u32,
) -> Result<Volume<Recent<D>, AnyPart>, (D, EndLine)>
    requires { (D.seen blocks).count ≡ count }
    ensures open { IfOk result (IsOpen D.tells D.seen D.faults number blocks) }
    ensures not_open { IfErr result (λ back.
        IsNotOpen D.tells D.seen D.faults number blocks back.0 back.1) }
{
    match open(alloc, blocks, count, number) {
        Ok(volume) => Ok(volume),
        Err((blocks, end)) => Err((blocks.into_inner(), end)),
    }
}

/// Opens the volume of this number on a device, ready to serve. `Err` hands the device back, and says
/// how the job ends, as `open` does.
pub(crate) fn open_one<D: BlockDevice>(
    alloc: Global,
    device: D,
    number: u32,
) -> Result<Serving<D>, (D, EndLine)>
    ensures open { IfOk result (IsOpen D.tells D.seen D.faults number device) }
    ensures not_open { IfErr result (λ back.
        IsNotOpen D.tells D.seen D.faults number device back.0 back.1) }
{
    let count = device.blocks();
    match recent(alloc, device) {
        Ok(blocks) => {
            let volume = open_blocks(alloc, blocks, count, number)?;
            Ok(Serving::new(alloc, volume))
        }
        Err(device) => Err((device, EndLine::NoMemory)),
    }
}

/// Syncs a device, so that from then on a crash leaves what is read.
fn sync<D: BlockDevice>(device: &mut D) -> Result<(), Failed>
    ensures forced { IsTrue D.tells → OnOk result (AllForced (D.seen device.new).count
        (D.seen device.new).cur (D.seen device.new).may) }
    ensures keeps { Keeps D.tells (D.seen device.old) (D.seen device.new) }
    ensures fault { CountsWrite (D.faults device.old) (D.faults device.new) result }
{
    device.sync()
}

/// Closes a device at the end of a run: it is synced, unless its volume has stopped, which the next
/// opening recovers.
fn close<D: BlockDevice>(device: &mut D, stopped: bool) -> Result<(), Failed>
    ensures keeps { Keeps D.tells (D.seen device.old) (D.seen device.new) }
    ensures counts { NeverFall (D.faults device.old) (D.faults device.new) }
    ensures ok { OnOk result (D.faults device.new ≡ D.faults device.old) }
    ensures fails { IsErr result
        → (D.faults device.old).writes < (D.faults device.new).writes }
    ensures forced { IsTrue D.tells → stopped ≡ false → OnOk result (AllForced
        (D.seen device.new).count (D.seen device.new).cur (D.seen device.new).may) }
{
    if stopped {
        return Ok(());
    }
    sync(device)
}

/// Closes a volume: its device is synced, unless the volume has stopped. It takes no memory.
pub(crate) fn close_one<D: BlockDevice>(serving: Serving<D>) -> Closed<D>
    ensures closed { IsClosed D.tells D.seen D.faults serving result.result result.device }
    ensures entries { result.history.entries ≡ serving.file.entries }
{
    let volume = serving.into_volume();
    let stopped = volume.is_stopped();
    let (blocks, history) = volume.into_parts();
    let mut device = blocks.into_inner();
    let result = close(&mut device, stopped);
    Closed {
        device,
        history,
        result,
    }
}
