//! The state of a volume as plain lists, for the model of the record file: its contents, locks,
//! before-images, log records, positions, numbers of units and areas; what it has of a part, a file
//! and a unit; and what the file of a request is on, by the catalog. It stands on `vr_history`,
//! whose words it computes by their own form, one case after the other, and on `vr_catalog` for the
//! catalog's records. It promises that each value is that of the word which its clause names.
#![tactic(auto)]

mod content;
mod contents;
mod copies;
mod look;
mod opened_file;
mod opening;
mod request;
mod shape;
mod state;

pub use content::{
    PartContent, PlacedItem, Stored, item_in_slice, prepended, record_in_slice, with_item_in_slice,
    without_item_in_slice,
};
pub use contents::Contents;
pub use copies::copy_of_befores;
pub use look::{
    areas_of, dropped, is_kept, is_live, is_logged, is_unit, keeps_any, number_of_deck,
    position_of_file, stand_of,
};
pub use opened_file::{
    AlternateIndex, OpenedFile, built_over, catalog_of, definition_in, definition_of, opened,
};
pub use request::{
    acts_on_held, base_of, file_of, find_of, is_add, mode_asked, new_record, sees_kept,
};
pub use shape::Shape;
pub use state::{
    FilePosition, FileState, HeldLock, KeptImage, LoggedPlace, OwnedArea, copy_of_stored,
};
