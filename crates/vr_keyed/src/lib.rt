//! A key-sequenced part on blocks: a chain of areas, each with its head and its control intervals.
//! What speaks of one area is in modules of its own; `chain` and `change` say it of the part. It
//! stands on `vr_types`, `vr_ci`, `vr_seqset`, `vr_space`, `vr_split`, `vr_casplit`,
//! `vr_catalog` and `vr_attach`.
#![tactic(auto)]

mod advance;
mod attach;
mod begin;
mod chain;
mod change;
mod gather;
mod in_place;
mod keyed;
mod look;
mod meet;
mod next;
mod plan;
mod room;
mod rooms;
mod set;
mod slot;
mod slots;
mod splits;
mod stretch;
mod writing;

pub use begin::{Beginning, begins};
pub use gather::fits;
pub use keyed::{Keyed, new_part};
pub use room::{UnderWay, least_free};
