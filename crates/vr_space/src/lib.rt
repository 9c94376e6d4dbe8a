//! What every record part of a volume is, whatever its kind: the traits `Part` and `Kept`, and what
//! their implementations and callers share. It stands on `vr_types`, `vr_ci` and `vr_seqset`.
//!
//! It promises that blocks stand for one content at most, whose places ascend.
#![tactic(auto)]

mod chain_layout;
mod kept;
mod keyed_layout;
mod laws;
mod layout;
mod part;
mod range;
mod reading;
mod room;
mod search;
mod whence;

pub use chain_layout::ChainLayout;
pub use kept::Kept;
pub use keyed_layout::KeyedLayout;
pub use laws::{content_is_read, kept_takes_no_room, one_content};
pub use layout::Layout;
pub use part::Part;
pub use range::{LentRange, is_in};
pub use reading::read_block;
pub use room::Room;
pub use search::{
    FoundEntry, count_up_to, entry_at, entry_count, entry_for, find_entry, record_at,
};
pub use whence::Whence;
