//! REPRO of Access Method Services Commands, from a cluster or from data cards into a cluster, over
//! the volumes of a job, which the utilities have for themselves; and these volumes, whose data
//! sets are filled by requests. It stands on vr_amsparse for the command, on vr_ams_print for the
//! records that a command selects and for the cluster of a name, on vr_ams_define for a volume that
//! hands its records over, on vr_catalog for entries and faults, and on vr_trace for outcomes; of a
//! volume it asks for the trait `FilledVolume` alone. It promises that a command is refused with
//! the first cause that there is, and no volume asked then; else that the records that it selects
//! were put into the target one after another, each by requests of the utilities on the command's
//! line, with a COMMIT after every 16 that were added or replaced, and at the end; that its report
//! counts what the volume replied; and that what is entered comes after all that the volumes had.
#![tactic(auto)]

mod cursor;
mod ends;
mod feeding;
mod filled;
mod load;
mod piece;
mod progress;
mod putting;
mod reading;
mod report;
mod repro;
mod requests;
mod tried;

pub use filled::FilledVolume;
pub use repro::repro_records;
