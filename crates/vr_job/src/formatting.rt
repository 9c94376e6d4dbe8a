//! The formatting of the devices of a job as volumes 0, 1 and on.
ghost use Rattle.std.specs.Prelude.{◌≡◌, ◌≤◌, ◌^◌, ◌-◌, min, length, IfErr, IfNone, IfSome, OnOk};
ghost use Rattle.std.specs.Prelude.{IsTrue, false};
ghost use Rattle.vr_types.specs.Geometry.{IsAllowed};
ghost use Rattle.vr_format.specs.Formatted.{geometry_of};
ghost use Rattle.vr_job.specs.Formats as formats;
ghost use Rattle.vr_job.specs.Formats.{AreAllowed, AreFormatted, IsDeviceNo, IsForbidden, IsFormatEnd};
ghost use Rattle.vr_job.specs.Formats.{IsFormatNo, IsFresh};

use std::alloc::Global;
use vr_device::BlockDevice;
use vr_format::{FormatNo, format_volume};
use vr_trace::EndLine;
use vr_types::Geometry;

/// The number that a word of the command states, as a device takes it: one past the last that a
/// device can have counts as that.
pub(crate) fn narrow(stated: u64) -> u32
    ensures { result ≡ min stated (2 ^ 32 - 1) }
{
    stated.min(u64::from(u32::MAX)) as u32
}

/// Whether a volume on this device may have this many blocks of log and this many intervals an area.
fn is_allowed<D: BlockDevice>(device: &D, log: u32, area: u32) -> bool
    ensures yes { IsTrue result → IsAllowed (geometry_of (D.seen device.now) log area) }
    ensures no { result ≡ false → IsAllowed (geometry_of (D.seen device.now) log area) → ⊥ }
{
    let geometry = Geometry {
        size: device.size(),
        blocks: device.blocks(),
        log,
        area,
    };
    geometry.is_allowed()
}

/// The first device on which a volume may not have that shape.
fn first_forbidden<D: BlockDevice>(devices: &[D], log: u32, area: u32) -> Option<u32>
    requires { length devices.now ≤ 16 }
    ensures none { IfNone result (AreAllowed D.seen log area devices.now) }
    ensures some { IfSome result (λ number. IsForbidden D.seen log area number devices.now) }
{
    for at in 0..devices.len() {
        if !is_allowed(&devices[at], log, area) {
            return Some(at as u32);
        }
    }
    None
}

/// How a job ends whose volume of this number was not formatted.
fn format_line(number: u32, no: FormatNo) -> EndLine
    ensures { result ≡ formats.format_line number no }
{
    match no {
        FormatNo::Geometry => EndLine::Geometry { volume: number },
        FormatNo::Write => EndLine::DeviceFault { volume: number },
        // `format_volume` never answers `Entries`.
        FormatNo::Entries { .. } | FormatNo::Memory => EndLine::NoMemory,
    }
}

/// Formats a device as the volume of this number, with a shape that is allowed on it.
fn format_one<D: BlockDevice>(
    alloc: Global,
    device: &mut D,
    number: u32,
    log: u32,
    area: u32,
) -> Result<(), EndLine>
    requires few { number ≤ 99 }
    requires allowed { IsAllowed (geometry_of (D.seen device.old) log area) }
    ensures fresh { OnOk result (IsFresh D.tells D.seen log area number device.old device.new) }
    ensures no { IfErr result (IsDeviceNo D.faults number device.old device.new) }
{
    match format_volume(alloc, device, number, log, area) {
        Ok(()) => Ok(()),
        Err(no) => Err(format_line(number, no)),
    }
}

/// Formats each device, with a shape that is allowed on it.
fn format_each<D: BlockDevice>(
    alloc: Global,
    devices: &mut [D],
    log: u32,
    area: u32,
) -> Result<(), EndLine>
    requires few { length devices.old ≤ 16 }
    requires allowed { AreAllowed D.seen log area devices.old }
    ensures formatted { OnOk result (AreFormatted D.tells D.seen log area devices.old devices.new) }
    ensures no { IfErr result
        (IsFormatNo D.tells D.seen D.faults log area devices.old devices.new) }
{
    for at in 0..devices.len() {
        format_one(alloc, &mut devices[at], at as u32, log, area)?;
    }
    Ok(())
}

/// Formats this many devices, 1 to 16, as volumes 0, 1 and on, with this many blocks of log and
/// this many intervals an area. `Err` says how the job ends: `Shelf` exactly where there are more
/// or fewer devices; `Geometry` exactly where a volume may not have that shape on one of them, the
/// first one, and then none is written to; `DeviceFault` only where a write or the sync of that
/// device failed; `NoMemory` where memory ran out.
pub(crate) fn format_devices<D: BlockDevice>(
    alloc: Global,
    devices: &mut [D],
    count: u32,
    log: u32,
    area: u32,
) -> Result<(), EndLine>
    requires { count ≤ 16 }
    ensures count { OnOk result (length devices.old ≡ count) }
    ensures allowed { OnOk result (AreAllowed D.seen log area devices.old) }
    ensures formatted { OnOk result (AreFormatted D.tells D.seen log area devices.old devices.new) }
    ensures end { IfErr result
        (IsFormatEnd D.tells D.seen D.faults count log area devices.old devices.new) }
{
    if devices.len() != count as usize {
        return Err(EndLine::Shelf {
            devices: devices.len() as u64,
        });
    }
    match first_forbidden(devices, log, area) {
        Some(volume) => Err(EndLine::Geometry { volume }),
        None => format_each(alloc, devices, log, area),
    }
}
