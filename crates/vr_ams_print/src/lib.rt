//! PRINT and VERIFY of Access Method Services Commands, of clusters, over the volumes of a job,
//! which the utilities have for themselves. PRINT shows where a record is in its data set, and its
//! bytes as characters, as hexadecimal digits, or as both with offsets; VERIFY reads a data set
//! through. It stands on vr_amsparse for the order of a PRINT, on vr_ams_define for a volume that
//! hands its records over and counts them, on vr_catalog for entries and faults, on vr_text for
//! literals and digits, and on vr_trace for the places of records in listings and for outcomes. It
//! promises that a command is refused with the first cause that there is, and no volume asked then;
//! else that the volume of the name was asked for the records of its data set, or for their number,
//! in one event of the utilities on the command's line, after all that the volumes had; that what
//! is printed is by the byte the text of the definition, of those records that the command selects;
//! and that the other volumes stay as they were.
#![tactic(auto)]

mod form;
mod laws;
mod lines;
mod print;
mod printing;
mod record;
mod selection;
mod source;
mod texts;
mod verify;

pub use laws::each_byte_is_shown_once;
pub use print::{print_records, read_source};
pub use record::{write_printed, write_record};
pub use selection::{first_place, has_keys, is_within, last_key, most_of, skipped};
pub use source::{FoundCluster, find_source};
pub use verify::verify_cluster;
