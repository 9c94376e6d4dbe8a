//! An edit of the catalog of a volume: what ALTER, DELETE, or a DEFINE of an alternate index or a
//! path, changes in it (Access Method Services Commands). It stands on `vr_types`, `vr_ci_match`,
//! `vr_ci`, `vr_seqset`, `vr_space`, `vr_catalog` and `vr_attach`.
//!
//! It says what an edit makes of a catalog, when it may be made, and which entries are served. It
//! promises that a catalog with an edit is the one of the definition, and that an edit that may be
//! made keeps the rules of a catalog, lays each part where it was, but for a cluster's that goes,
//! and leaves entries that are served.
#![tactic(auto)]

mod edit;
mod editing;
mod laws;
mod records;

pub use edit::CatalogEdit;
pub use editing::{edited, part_gone, with_entry};
pub use laws::{catalogs_in_order, edits_are_served, edits_keep_order, edits_lay_parts};
pub use records::{place_in, record_of};
