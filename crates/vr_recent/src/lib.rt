//! The blocks of a device, of which the ones that were used last are kept in memory. It stands on
//! the words of `vr_types` and on `vr_device`. It promises the contract of `Blocks` over every
//! device, with each put written through at once; that at most 16 blocks are kept, and no call
//! takes memory once the buffers are made; and that a block that is kept is lent without a call of
//! the device, until the one that was used least recently has to leave.
#![tactic(auto)]

mod buffer;
mod keeping;
mod making;
mod order;
mod written_through;

pub use buffer::Buffer;
pub use keeping::{bring, store};
pub use making::{KEPT, recent};
pub use written_through::Recent;
