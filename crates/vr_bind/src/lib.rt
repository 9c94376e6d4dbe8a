//! The requests that the text of a deck stands for: each file is looked up in the catalogs of the
//! volumes, and each order becomes a request with its volume and its line. It stands on vr_deck_text
//! for decks, on vr_catalog for what a name is on, and on vr_types for requests. It promises that
//! the requests are those of the definition, in order, each once.
#![tactic(auto)]

mod binding;
mod bound;
mod named;
mod places;
mod request;

pub use binding::bind;
pub use bound::DeckRequests;
