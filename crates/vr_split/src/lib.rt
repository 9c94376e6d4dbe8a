//! Splits of control intervals of an area of a keyed part: where one is cut, and the stages in which
//! it is done. It stands on `vr_types`, `vr_ci`, `vr_seqset` and `vr_space`.
//!
//! It promises the cut exactly, and of each stage, whether it fails or not, that it adds nothing to
//! what places of the area may hold in the image of any moment, that each place keeps its record,
//! that the head keeps its ends, so that the chain of areas goes on as it did, and that what is kept
//! keeps its room. A stage that is done leaves what the next one wants.
#![tactic(auto)]

mod cut;
mod halves;
mod head;
mod making;
mod records;
mod split;
mod stages;
mod steps;
mod weights;

pub use cut::plan_cut;
pub use split::{CiSplit, ci_split};
pub use weights::{Weights, empty_weights};
