//! What an event of a request comes to.

use vr_types::SharedRequest;

/// What an event of a request came to.
#[derive(Drop)]
pub enum Act {
    /// The request was entered with its reply.
    Done,
    /// A step of the request was done, and it is to be asked again: it is handed back.
    Again(SharedRequest),
}
