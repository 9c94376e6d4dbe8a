//! Resident blocks: a write-back cache of the kit's `lru` over frames that all volumes share. It
//! stands on `vr_device` for the device, on `vr_frames` for the pool, and on the words of
//! `vr_types`. It promises the contract of `Blocks` over every device, whether that reports its
//! contents or not: what is read is the device's contents with the changed blocks over them, and a
//! crash leaves what it may leave of the device, or of a changed block what was put there. And it
//! promises what a cache is: a list of the blocks that are held, the most recently used first, what
//! each call does to it, and which block leaves. Every frame comes home.
#![tactic(auto)]

mod bringing;
mod crossing;
mod frames;
mod giving;
mod making;
mod moving;
mod opening;
mod place;
mod room;
mod table;
mod why;
mod write_back;
mod writing;

pub use opening::{resident, resident_own};
pub use why::{ResidentNo, ResidentWhy};
pub use write_back::Resident;
