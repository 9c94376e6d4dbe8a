//! What cases of volumes share: new volumes in memory, also with entries that a text spells, the words
//! and the source by which a job is run, the entries of a run with the verbs of their requests, and
//! why a case has no line. It stands on `vr_format` for volumes, on `vr_outside` for sources, and on
//! `vr_trace` for histories. It promises that it is safe and ends.
#![tactic(auto)]

mod answers;
mod asking;
mod entries;
mod spelled;
mod verbs;
mod volumes;

pub use answers::{Answer, Stop, say, say_next};
pub use asking::{add_lines, run_words, source};
pub use entries::entries_of;
pub use spelled::format_spelled;
pub use verbs::Verb;
pub use volumes::{FIRST_MAXIMUM, MAXIMUM, SMALL, cluster, first_volume, three_volumes, volume_of};
