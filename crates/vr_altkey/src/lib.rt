//! The pairs of an alternate index: which pointers it has over its base, and which a change of a
//! base record adds and removes. It stands on the shared words (vr_types). It promises that the
//! pair of a record and the changes of pairs are those that the definitions give, that the pairs of
//! an index ascend, and that the changes lead from the pairs of the old base to those of the new.
#![tactic(auto)]

mod changing;
mod definition;
mod laws;
mod pairing;

pub use changing::changes;
pub use definition::{AltDef, AltList, PairChange, PairChanges};
pub use laws::{changes_lead_on, pairs_ascend};
pub use pairing::pair;
