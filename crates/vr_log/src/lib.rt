//! The undo log of a volume: before-images of records and the ends of units of recovery, in blocks
//! 1 to L over any `Blocks`. It stands on vr_types.
//!
//! It promises what any crash leaves of it. In every image at every moment of every call, failing
//! or not, the log's blocks spell at least the records that were forced and a prefix of all records
//! of the generation, or the log before while no block of this one was forced, whose units have all
//! ended. No other block is touched. Blocks are read back as the log that they spell, and where
//! they spell none as damaged, with the first block that is misspelled. What an earlier log left
//! past the end is cleared, so that the log that was read back stands. A log is begun anew once its
//! generations come near their end, so each log that a crash may leave can be gone on with.
#![tactic(auto)]

mod appending;
mod clearing;
mod content;
mod decoding;
mod gathering;
mod kept;
mod laws;
mod live;
mod log;
mod making;
mod no;
mod read_no;
mod reading;
mod record;
mod records;
mod room;
mod tail;
mod writing;

pub use appending::append_all;
pub use clearing::clear_past;
pub use content::LogContent;
pub use laws::{
    blocks_spell_a_log_or_are_damaged, damaged_blocks_spell_no_log, each_image_has_the_log,
    fresh_log_stands, log_stands_while_others_put, made_log_stands, one_damaged_block,
    one_list_of_records, one_log_at_most, restarted_log_stands, write_ahead,
};
pub use log::{UndoLog, undo_log};
pub use no::LogNo;
pub use read_no::LogReadNo;
pub use reading::read_back;
pub use record::{Before, EndKind, LogPlace, LogRecord};
