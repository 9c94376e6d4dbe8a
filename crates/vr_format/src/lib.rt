//! Formatting a device as a volume. It stands on a device (vr_device), the catalog (vr_catalog), the
//! parts (vr_space) with their heads and rosters (vr_seqset) and intervals (vr_ci), the bytes of a
//! header (vr_mount), and what the blocks of a volume stand for (vr_volume).
//!
//! It promises that a volume which was formatted has its header, an empty log, its catalog and each
//! cluster of it without records, in every image that a crash may leave of it, and that it recovers
//! to that; that nothing else is written; and when each answer comes.
#![tactic(auto)]

mod clusters;
mod entries;
mod fillers;
mod first;
mod fit;
mod format;
mod head;
mod header;
mod in_order;
mod interval;
mod laws;
mod no;
mod part;
mod roster;
mod start;
mod volume;

pub use entries::format_entries;
pub use format::format_volume;
pub use laws::{formatted_is_plain, formatted_is_safe, formatted_recovers};
pub use no::FormatNo;
