//! The catalog of a volume: its entries, clusters, alternate indexes and paths, each a record of
//! part 0. It stands on the words of vr_types. It promises that a record is read and written byte
//! by byte as the format says, and that DEFINE, ALTER and DELETE of Access Method Services give the
//! changes of the definition, or the first fault that has its cause.
#![tactic(auto)]

mod allowed;
mod altering;
mod catalog;
mod changes;
mod defining;
mod definition;
mod deleting;
mod entry;
mod fault;
mod laws;
mod limits;
mod names;
mod order;
mod read;
mod write;

pub use altering::alter;
pub use catalog::Catalog;
pub use changes::{Change, Changes, NameList};
pub use defining::define;
pub use definition::{Definition, catalog_definition};
pub use deleting::delete;
pub use entry::{CatEntry, EntryKind, FreeSpace, ShareOptions, SpaceUnit};
pub use fault::CatFault;
pub use laws::{one_entry, spelled_exactly};
pub use limits::{
    are_bad_sizes, are_few_intervals, ends_past, intervals_used, is_bad_cluster, plain_limit,
    spanned_limit,
};
pub use order::{Alter, DataOptions, Define, NewEntry};
pub use read::{EntryNo, read_entry};
pub use write::{RECORD_LENGTH, write_entry};
