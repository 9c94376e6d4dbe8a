//! A frame in its holder's hands.
ghost use Rattle.std.specs.Prelude.{◌≡◌};
ghost use Rattle.std.specs.Borrow.{sem};
ghost use Rattle.vr_frames.specs.Frames.{bytes_of};
ghost use Rattle.vr_frames.specs.Lends.{LendsBytes};

use crate::shared::Pool;
use crate::view::Buffer;
use std::snapshot::Snapshot;

/// A frame that was taken: a buffer that its holder alone reads and writes. Give it back with
/// `Pool::give`.
///
/// A frame that is dropped instead stays out for good, and its seat goes on holding its number.
#[derive(Drop)]
pub struct Frame {
    pub(crate) number: usize,
    pub(crate) buffer: Buffer,
    pub(crate) origin: Snapshot<Pool>,
}

impl Frame {
    /// The frame's bytes, as many as the pool's frames have. Their content is unspecified until
    /// the holder writes them.
    pub fn bytes(&self) -> &[u8]
        ensures { result.now ≡ bytes_of self.now }
    {
        self.buffer.as_slice()
    }

    /// The frame's bytes, for writing.
    pub fn bytes_mut(&mut self) -> &mut [u8]
        ensures* writes_back { sem 𝓛 (LendsBytes self.entry result) }
        ensures value { result.now ≡ bytes_of self.old }
    {
        self.buffer.as_mut_slice()
    }
}
