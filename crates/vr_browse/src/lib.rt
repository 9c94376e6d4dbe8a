//! Where the files of the decks on a volume are for sequential reading, and which record each of
//! them holds for update. It stands on the shared words (vr_types). It promises that a file has the
//! position that was last set for it, that `set` changes one file alone, that dropping what one
//! file or all files of a deck hold leaves where they are, and that only `reserve` takes memory.
#![tactic(auto)]

mod positions;

pub use positions::Positions;
