//! Control intervals of VSAM as blocks of bytes: a reader whose records are borrowed from a block,
//! and a writer that puts them there. It stands on `vr_ci_match`, which finds the first fault of a
//! block of an allowed size, and on `vr_types`. It promises that each value has one block of each
//! size that holds it, that `CiView::read` answers Ok exactly for those blocks, with their value,
//! and otherwise with the first fault, that what `CiWriter` and `write_segment` leave is that one
//! block, and that `write_over` changes one record of it.
#![tactic(auto)]

mod laws;
mod no_room;
mod over;
mod put;
mod records;
mod segment;
mod view;
mod walk;
mod writer;

pub use laws::one_spelling;
pub use no_room::NoRoom;
pub use over::write_over;
pub use records::Records;
pub use segment::write_segment;
pub use view::CiView;
pub use vr_ci_match::{CiFault, Form, Piece, Shape, slots};
pub use writer::CiWriter;
