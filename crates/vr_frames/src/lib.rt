//! A pool of buffer frames that all volumes share. Any thread takes a free frame and gives it
//! back, and no call waits, takes a lock or takes memory. The pool stands on `atomic_table`: one
//! word for each frame, which is 0 while the frame is home, and one slot for its buffer. Each
//! volume has a seat. The seat's view, which exists in the proofs alone, keeps the numbers of the
//! frames that the seat holds, the claims of the seat that found a frame out, and its parts of the
//! right to know the whole pool.
//!
//! The table changes in six kinds of step, each of which keeps the rule of `specs/Rule.antt`:
//! a claim, the way of a slot in and out, a release, and the split and the join of seats.
//!
//! It promises: a frame is home, or in exactly one seat's hands. `take` answers None only where
//! each frame was out at a step of that call on the frame's own word. The seat with every part, if
//! it holds no frame, closes the pool with every frame home.
#![tactic(auto)]

mod closing;
mod crossing;
mod frame;
mod laws;
mod opening;
mod seat;
mod shared;
mod view;

pub use frame::Frame;
pub use laws::one_holder;
pub use opening::pool;
pub use seat::FrameSeat;
pub use shared::Pool;
