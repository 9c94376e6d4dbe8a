//! Opening a volume, what is decided of its header and of its catalog. It stands on the blocks
//! (vr_types), the catalog (vr_catalog) and where the parts of a volume are (vr_attach). Formatting
//! one takes the bytes of its header and the place of its catalog from here.
//!
//! It promises that a header is taken exactly where block 0 is one of the volume's number and of a
//! shape that the device has, and when each answer comes; that records are taken as a catalog
//! exactly where they keep its rules; in which areas its parts are; and that a list of a part's
//! records is whole.
#![tactic(auto)]

mod areas;
mod catalog;
mod distinct;
mod header;
mod laws;
mod listing;
mod no;
mod records;
mod rules;

pub use areas::{are_apart, are_on, catalog_layout, owners_of};
pub use catalog::catalog_of_records;
pub use header::{header_bytes, read_header};
pub use laws::{header_version, one_header};
pub use listing::records_of_part;
pub use no::{HeaderNo, ListNo};
