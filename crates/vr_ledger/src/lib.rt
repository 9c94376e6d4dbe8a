//! The ledger of one volume. Threads take the volume's latch one after another, and what a deck
//! knows of its own entries in the volume's history has to outlive the latch. The latch guards a
//! `Ledger`, which knows the whole history; each deck keeps a `Turn`, which knows the deck's
//! entries in it. The ledger stands on `atomic_table`, with one word, the number of the entries,
//! and on `vr_history` for what an entry is. What a seat at the table knows exists in the proofs
//! alone: at run time a turn is the deck's number, and a ledger counts entries.
//!
//! It promises: what a turn knows is all that the history has of the turn's deck, whatever other
//! decks entered since, and `record` and `leave` report that it is. The rule of `specs/Rule.antt`,
//! which each step of the table keeps, says so of all turns at once.
#![tactic(auto)]

mod crossing;
mod ledger;
mod seat;
mod turn;
mod view;

pub use ledger::Ledger;
pub use turn::Turn;
