//! A job that is run on a shelf of one device.
ghost use Rattle.std.specs.Prelude.{◌≤◌, IfOk, length};

use crate::answers::Stop;
use crate::numbered::Job;
use std::alloc::Global;
use std::sync::Wait;
use std::thread::Threads;
use vr_device::MemoryDevice;
use vr_history::History;
use vr_job::{End, ShelfEnd, run_volumes};
use vr_outside::OpenGate;
use vr_trace::StepReports;

/// What a run leaves: the device, the reports of its steps of IDCAMS, the history of its volume, and how
/// the job ended.
#[derive(Drop)]
pub struct VolumeEnd {
    pub device: MemoryDevice,
    pub reports: StepReports,
    pub history: History,
    pub end: End,
}

/// What a run leaves of the one volume of its shelf.
fn volume_end(end: ShelfEnd<MemoryDevice>) -> Result<VolumeEnd, Stop> {
    let ShelfEnd {
        mut shelf,
        reports,
        histories,
        end,
    } = end;
    let mut histories = histories.into_vec();
    match (shelf.pop(), histories.pop()) {
        (Some(device), Some(history)) => Ok(VolumeEnd {
            device,
            reports,
            history,
            end,
        }),
        _ => Err(Stop::Line),
    }
}

/// A shelf of one device.
fn shelf_of(alloc: Global, device: MemoryDevice) -> Result<Vec<MemoryDevice>, Stop>
    ensures { IfOk result (λ shelf. length shelf.items ≤ 16) }
{
    Ok(Vec::from_array(alloc, [device])?)
}

/// Runs a job on a device, as volume 0.
pub fn run_job<R: Threads + Wait + Sync>(
    rt: &R,
    alloc: Global,
    device: MemoryDevice,
    job: &Job,
) -> Result<VolumeEnd, Stop> {
    let shelf = shelf_of(alloc, device)?;
    match run_volumes(rt, alloc, shelf, job.steps(), &OpenGate) {
        Ok(end) => volume_end(end),
        Err(_) => Err(Stop::Memory),
    }
}
