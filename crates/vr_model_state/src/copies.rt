//! Copies of a state and of its lists.
ghost use Rattle.std.specs.Prelude.{◌≡◌, [], ◌∷◌, IfOk};
ghost use Rattle.vr_model_state.specs.Seen.{seen};

use crate::content::prepended;
use crate::state::{FilePosition, FileState, HeldLock, KeptImage, LoggedPlace, OwnedArea};
use std::alloc::Global;
use vr_types::OutOfMemory;

impl FileState {
    /// A state that stands for the same; fails only if memory runs out.
    pub fn copy(&self, alloc: Global) -> Result<FileState, OutOfMemory>
        ensures state { IfOk result (λ copy. seen copy ≡ seen self.now) }
        ensures shape { IfOk result (λ copy. copy.shape ≡ self.now.shape) }
    {
        Ok(FileState {
            shape: self.shape.copy(),
            contents: self.contents.copy(alloc)?,
            locks: copy_of_locks(alloc, &self.locks)?,
            befores: copy_of_befores(alloc, &self.befores)?,
            logged: copy_of_logged(alloc, &self.logged)?,
            used: self.used,
            positions: copy_of_positions(alloc, &self.positions)?,
            numbers: copy_of_numbers(alloc, &self.numbers)?,
            owned: copy_of_owned(alloc, &self.owned)?,
            stopped: self.stopped,
        })
    }
}

fn copy_of_locks(alloc: Global, from: &[HeldLock]) -> Result<Vec<HeldLock>, OutOfMemory>
    ensures { IfOk result (λ copy. copy.items ≡ from.now) }
{
    match from {
        [] => Ok(Vec::new(alloc)),
        [first, rest @ ..] => {
            let others = copy_of_locks(alloc, rest)?;
            Ok(prepended(first.copy(alloc)?, others)?)
        }
    }
}

/// Copies of before-images, in their order; fails only if memory runs out.
pub fn copy_of_befores(alloc: Global, from: &[KeptImage]) -> Result<Vec<KeptImage>, OutOfMemory>
    ensures { IfOk result (λ copy. copy.items ≡ from.now) }
{
    match from {
        [] => Ok(Vec::new(alloc)),
        [first, rest @ ..] => {
            let others = copy_of_befores(alloc, rest)?;
            Ok(prepended(first.copy(alloc)?, others)?)
        }
    }
}

fn copy_of_logged(alloc: Global, from: &[LoggedPlace]) -> Result<Vec<LoggedPlace>, OutOfMemory>
    ensures { IfOk result (λ copy. copy.items ≡ from.now) }
{
    match from {
        [] => Ok(Vec::new(alloc)),
        [first, rest @ ..] => {
            let others = copy_of_logged(alloc, rest)?;
            Ok(prepended(first.copy(alloc)?, others)?)
        }
    }
}

fn copy_of_positions(alloc: Global, from: &[FilePosition]) -> Result<Vec<FilePosition>, OutOfMemory>
    ensures { IfOk result (λ copy. copy.items ≡ from.now) }
{
    match from {
        [] => Ok(Vec::new(alloc)),
        [first, rest @ ..] => {
            let others = copy_of_positions(alloc, rest)?;
            Ok(prepended(first.copy(alloc)?, others)?)
        }
    }
}

fn copy_of_numbers(alloc: Global, from: &[(u32, u64)]) -> Result<Vec<(u32, u64)>, OutOfMemory>
    ensures { IfOk result (λ copy. copy.items ≡ from.now) }
{
    match from {
        [] => Ok(Vec::new(alloc)),
        [first, rest @ ..] => {
            let others = copy_of_numbers(alloc, rest)?;
            Ok(prepended(*first, others)?)
        }
    }
}

fn copy_of_owned(alloc: Global, from: &[OwnedArea]) -> Result<Vec<OwnedArea>, OutOfMemory>
    ensures { IfOk result (λ copy. copy.items ≡ from.now) }
{
    match from {
        [] => Ok(Vec::new(alloc)),
        [first, rest @ ..] => {
            let others = copy_of_owned(alloc, rest)?;
            Ok(prepended(first.copy(), others)?)
        }
    }
}
