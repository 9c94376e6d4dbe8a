//! The record file of a volume as a plain machine: a state of lists, and what each entry of a
//! history leaves of it. It stands on the definition (`vr_history`), and promises that it takes
//! exactly the entries that are steps of the definition, and then leaves the state that the
//! definition gives, and that it finds exactly the histories that are legal. It is slow, and is for
//! trying the definition out.
#![tactic(auto)]

mod deciding;
mod effects;
mod endings;
mod legal;
mod machine;
mod steps;

pub use legal::{are_steps, is_legal};
pub use machine::apply;
pub use vr_model_state::{
    Contents, FilePosition, FileState, HeldLock, KeptImage, LoggedPlace, OwnedArea, PartContent,
    PlacedItem, Shape, Stored,
};
