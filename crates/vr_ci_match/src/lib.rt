//! Matching a block with the control interval that its RDFs, its records' bytes and its busy flag
//! describe. It stands on no other crate. It promises that a block of 512 to 32,768 bytes that
//! `match_block` accepts is that interval, or all zeros, and that of any other it reports the first
//! fault, and where it is. Which of these sizes are allowed is for `vr_ci` to test. It has the types
//! that `vr_ci` reads and writes intervals with: forms, shapes, RDFs and the CIDF.
#![tactic(auto)]

mod cidf;
mod compare;
mod compared;
mod fault;
mod form;
mod layout;
mod matching;
mod rdf;
mod tally;

pub use cidf::Cidf;
pub use fault::CiFault;
pub use form::{Form, Piece, Shape, slots};
pub use matching::{Found, match_block};
pub use rdf::Rdf;
