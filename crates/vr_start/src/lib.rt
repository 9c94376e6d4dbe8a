//! A part of a volume that is made anew: the trait `Start` of parts that can be, and why one could
//! not. It stands on `vr_types`, `vr_ci_match`, `vr_ci`, `vr_seqset`, `vr_space`, `vr_catalog` and
//! `vr_attach`.
//!
//! It says what a part without records is at every layer above the parts: in order in blocks of its
//! own, and none of its places has an item, whatever a crash leaves. It promises that each cluster
//! whose entry keeps the rules of a catalog, and whose longest record has room in an interval, can
//! be made so.
#![tactic(auto)]

mod first_head;
mod laws;
mod no;
mod start;

pub use first_head::write_first_head;
pub use laws::entries_can_start;
pub use no::StartNo;
pub use start::Start;
