//! How resident blocks are made.
ghost use Rattle.std.specs.Prelude.{◌≡◌, ◌≤◌, IfOk, IfErr};
ghost use Rattle.std.specs.Arc.{arc_value};
ghost use Rattle.vr_frames.specs.Frames.{frame_size, IsSeatOf};
ghost use Rattle.vr_resident.specs.Making.{IsNew, IsBack};
ghost use Rattle.vr_resident.specs.Refusing.{HasNoFrames};
ghost use Rattle.vr_resident.specs.declared.why.ResidentWhy.TheVariants.{Memory};

use crate::frames::Frames;
use crate::giving::give_all;
use crate::making::{bare_table, own_sixteen, take_sixteen};
use crate::why::{ResidentNo, ResidentWhy};
use crate::write_back::Resident;
use std::alloc::Global;
use std::sync::Arc;
use vr_device::BlockDevice;
use vr_frames::{FrameSeat, Pool};

/// Makes blocks of a device that stay in frames of the pool. It takes 16 frames, which it keeps,
/// and allocates a table of 64 places; no later call allocates. `NoFrames` comes where a frame that
/// it asked the pool for was not home; those that it got are given back.
pub fn resident<D: BlockDevice>(
    alloc: Global,
    device: D,
    pool: Arc<Pool, Global>,
    seat: FrameSeat,
) -> Result<Resident<D>, ResidentNo<D>>
    requires seat { IsSeatOf (arc_value pool) seat }
    requires room { (D.seen device).size ≤ frame_size (arc_value pool) }
    ensures device { IfOk result (λ r. r.device ≡ device) }
    ensures new { IfOk result (λ r. IsNew (arc_value pool) seat (D.seen device).size r.frames) }
    ensures back { IfErr result (λ no. no.device ≡ device) }
    ensures seat_back { IfErr result (λ no. IsBack (arc_value pool) seat no.seat) }
    ensures why { IfErr result (λ no. HasNoFrames (arc_value pool) seat no.seat no.why) }
{
    let size = device.size();
    match bare_table(alloc) {
        Err(_) => Err(ResidentNo {
            device,
            seat,
            why: ResidentWhy::Memory,
        }),
        Ok(table) => {
            let mut frames = Frames {
                table,
                pool,
                seat,
                size,
            };
            match take_sixteen(&mut frames) {
                None => Ok(Resident::over(device, frames)),
                Some(got) => Err(ResidentNo {
                    device,
                    seat: give_all(frames),
                    why: ResidentWhy::NoFrames { got },
                }),
            }
        }
    }
}

/// Makes blocks of a device that stay in 16 buffers of the cache's own, and in further frames of
/// the pool. It takes no frame. Out of memory is its one error.
pub fn resident_own<D: BlockDevice>(
    alloc: Global,
    device: D,
    pool: Arc<Pool, Global>,
    seat: FrameSeat,
) -> Result<Resident<D>, ResidentNo<D>>
    requires seat { IsSeatOf (arc_value pool) seat }
    requires room { (D.seen device).size ≤ frame_size (arc_value pool) }
    ensures device { IfOk result (λ r. r.device ≡ device) }
    ensures new { IfOk result (λ r. IsNew (arc_value pool) seat (D.seen device).size r.frames) }
    ensures back { IfErr result (λ no. no.device ≡ device) }
    ensures seat_back { IfErr result (λ no. IsBack (arc_value pool) seat no.seat) }
    ensures why { IfErr result (λ no. no.why ≡ Memory) }
{
    let size = device.size();
    match bare_table(alloc) {
        Err(_) => Err(ResidentNo {
            device,
            seat,
            why: ResidentWhy::Memory,
        }),
        Ok(table) => {
            let mut frames = Frames {
                table,
                pool,
                seat,
                size,
            };
            match own_sixteen(alloc, &mut frames) {
                Ok(()) => Ok(Resident::over(device, frames)),
                Err(_) => Err(ResidentNo {
                    device,
                    seat: give_all(frames),
                    why: ResidentWhy::Memory,
                }),
            }
        }
    }
}
