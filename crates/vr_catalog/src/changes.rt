//! Changes of the catalog's records, and lists of names.

use crate::entry::CatEntry;
use vr_types::{Items, Name};

/// A change of one catalog record, at the place that is the entry's name.
#[derive(Drop)]
pub enum Change {
    Add(CatEntry),
    Update(CatEntry),
    Erase(Name),
}

/// The changes that a command makes, in order.
pub type Changes = Items<Change>;

/// Names of data sets, in order.
pub type NameList = Items<Name>;
