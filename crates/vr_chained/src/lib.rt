//! An entry-sequenced or relative part on blocks: records at relative byte addresses, or slots of
//! one length, in the control intervals of a chain of areas. It stands on `vr_slots` and
//! `vr_entries`, which have the intervals of each kind, on `vr_attach` and on what they stand on. It
//! promises what every `Part` promises; and that a part is attached as its blocks stand, with its
//! areas marked as its own, or the first block that breaks a rule is shown.
#![tactic(auto)]

mod chain;
mod chained;
mod extend;
mod filled;
mod laws;
mod look;
mod meet;
mod met;
mod next;
mod number;
mod rooms;
mod rules;
mod set;
mod tail;
mod walk;

pub use chain::{Chain, first_chain};
pub use chained::{Chained, chained_part};
pub use laws::damaged_chains_stay_nowhere;
