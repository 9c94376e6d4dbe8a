//! Bytes that fill a block.
ghost use Rattle.std.specs.Prelude.{◌≡◌, ◌≤◌, replicate, IfOk};

use std::alloc::{AllocError, Global};

/// As many zeros, and as many bytes of X'FF', as a block has bytes.
#[derive(Drop)]
pub(crate) struct Fillers {
    pub(crate) size: usize,
    zeros: Vec<u8>,
    highest: Vec<u8>,
    ghost zeros_are: { zeros.items ≡ replicate size 0 },
    ghost highest_are: { highest.items ≡ replicate size 255 },
}

impl Fillers {
    /// Makes them for blocks of this size.
    pub(crate) fn new(alloc: Global, size: usize) -> Result<Fillers, AllocError>
        ensures { IfOk result (λ fillers. fillers.size ≡ size) }
    {
        let zeros = vec![in alloc; 0; size]?;
        let highest = vec![in alloc; 255; size]?;
        Ok(Fillers {
            size,
            zeros,
            highest,
        })
    }

    /// So many zeros.
    pub(crate) fn zeros(&self, length: usize) -> &[u8]
        requires { length ≤ self.now.size }
        ensures { result.now ≡ replicate length 0 }
    {
        &self.zeros[..length]
    }

    /// This many bytes of X'FF'.
    pub(crate) fn highest(&self, length: usize) -> &[u8]
        requires { length ≤ self.now.size }
        ensures { result.now ≡ replicate length 255 }
    {
        &self.highest[..length]
    }
}
