//! What a volume has in memory of its blocks (`Store`): its parts, log, before-images, the blocks
//! that units of recovery changed, and who owns the areas. It stands on what the blocks of a volume
//! stand for and on the events of its blocks (vr_volume), and on parts that can be made anew
//! (vr_start); what takes its records one after another is a visitor of vr_trace. Each call says by
//! which state of the record file the store is stored after it, and to what each image of each
//! moment of it recovers; that the state is that of a history is for the crates above.
#![tactic(auto)]

mod change;
mod changed;
mod define;
mod entry_changes;
mod last_image;
mod look;
mod next;
mod no;
mod parts;
mod prepared;
mod put_back;
mod report;
mod stage;
mod start;
mod store;
mod unit_end;
mod visit;

pub use changed::UnitBlocks;
pub use no::{DefineNo, LookNo};
pub use parts::Laid;
pub use prepared::Prepared;
pub use store::Store;
