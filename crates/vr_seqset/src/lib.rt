//! The head blocks of areas, over plain bytes: the sequence-set record of a keyed area, and the
//! roster of an entry-sequenced or relative one. The crate stands on vr_types and takes no memory.
//!
//! It promises one spelling, both ways. Each record that keeps the rules has one block of a size,
//! and each block is that of one record at most. `SeqView::read` and `RosterView::read` take
//! exactly these blocks, and name the first rule that another block breaks. `SeqWriter` and
//! `write_roster` leave the one block, whatever the buffer held. What is read is borrowed from the
//! block.
#![tactic(auto)]

mod checks;
mod entries;
mod entry;
mod fault;
mod head;
mod intervals;
mod laws;
mod roster;
mod spelling;
mod view;
mod writer;

pub use entries::SeqEntries;
pub use entry::SeqEntry;
pub use fault::SeqFault;
pub use head::SeqHead;
pub use intervals::interval_limit;
pub use laws::{earlier_entries, one_block_each, one_record_each, one_roster_each};
pub use roster::{RosterView, write_roster};
pub use view::SeqView;
pub use writer::SeqWriter;
