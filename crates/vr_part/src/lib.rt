//! A part of a volume of any kind that one may hold: key-sequenced, entry-sequenced or relative. It
//! stands on `vr_keyed` and `vr_chained`, whose parts it has, and on what they stand on.
//!
//! It promises what every `Part` promises, of each kind; and that a part is attached as its
//! definition says, with areas that nobody else has, or the first damage of its blocks is shown.
#![tactic(auto)]

mod any;
mod attach;
mod first_area;
mod first_roster;
mod start;

pub use any::AnyPart;
pub use attach::attach_part;
