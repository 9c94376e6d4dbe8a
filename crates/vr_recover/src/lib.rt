//! Opening a volume, and undoing what a crash left of it without an end. It stands on the catalog
//! (vr_catalog), the parts of any kind (vr_part), what opening decides of header and catalog
//! (vr_mount), the log (vr_log) and what the blocks of a volume stand for (vr_volume).
//!
//! It promises that what is opened is a volume, that it has then what its blocks recovered to, with
//! what was withdrawn where its address is, and when each answer comes; the catalog that counts is the
//! one with its before-images put back. And that while
//! before-images are put back and units of recovery are ended the blocks recover to what was
//! committed, in every image of every moment.
#![tactic(auto)]

mod alone;
mod backing_out;
mod begun;
mod catalog_back;
mod finding;
mod fitting;
mod imaging;
mod laid;
mod laws;
mod mounted;
mod open;
mod open_no;
mod restoring;
mod rooming;
mod served;
mod syncing;
mod undoing;
mod undone;
mod undone_parts;

pub use laws::{
    cleared_log_stays, each_image_opens, items_outlive_crashes, settled_is_safe,
    settled_may_be_undone, settled_part_is_opened,
};
pub use open::{Opened, open_volume};
pub use open_no::{OpenNo, Unserved};
