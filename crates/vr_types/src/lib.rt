//! The words that every layer of the record manager shares: places, bytes and names of data sets,
//! units of recovery, requests, replies and refusals with the number that each shows, names of
//! locks, positions of files, the content of a data set, the shape of a volume, the owners of its
//! areas and the fields of its blocks, which calls of a double fail, the count of faults, and the
//! trait of blocks with what a crash may leave of them. It stands on std, and on the kit's lists. It
//! promises that each value built here is the list of bytes that it was built from, that a copy
//! equals what it was copied from, that places, bytes and names are compared by their bytes, and
//! that a data set name is taken exactly when the catalog's rules allow it.
#![tactic(auto)]

mod areas;
mod blocks;
mod bound;
mod count;
mod fault;
mod fields;
mod geometry;
mod lock_name;
mod makers;
mod memory;
mod name;
mod order;
mod place_buffer;
mod position;
mod reply;
mod request;
mod script;
mod settling;
mod shared_request;
mod unit;
mod values;
mod words;

pub use areas::Space;
pub use blocks::Blocks;
pub use bound::Bound;
pub use count::FaultCount;
pub use fault::{DeviceFault, Failed};
pub use fields::{
    are_zeros, area_field, area_of, eight_at, four_at, put_eight, put_four, put_two, two_at,
};
pub use geometry::{Geometry, is_block_size};
pub use lock_name::{LockName, LockNames};
pub use makers::{bytes, number_place, place, space};
pub use memory::OutOfMemory;
pub use name::{NAME_LIMIT, Name, NameFault, dataset_name};
pub use place_buffer::{PlaceBuffer, empty_place};
pub use position::{Position, Stand};
pub use reply::{Refusal, Reply};
pub use request::{FileRef, Find, Request};
pub use script::Script;
pub use settling::settle;
pub use shared_request::SharedRequest;
pub use sqlite_items::Items;
pub use unit::{AreaNo, Integrity, Kind, Mode, PartNo, StageKind, Unit};
pub use values::{Bytes, Place};
pub use words::Words;
