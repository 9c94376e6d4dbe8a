//! Splits of an area of a keyed part: its last entries move to another area of the volume, in
//! stages. How many stay is for the caller to say. It stands on `vr_types`, `vr_ci_match`, `vr_ci`,
//! `vr_seqset` and `vr_space`.
//!
//! It promises that no stage, whether it fails or not, adds anything to what a place of the part
//! may hold in the image of any moment, that each place keeps its record, and that the last stage
//! leaves the chain with the area more. Until then no chain reaches the area.
#![tactic(auto)]

mod copy;
mod head;
mod link;
mod split;
mod stages;
mod switch;

pub use copy::copy_entry;
pub use link::link_area;
pub use split::{CaSplit, ca_split};
pub use switch::switch_head;
