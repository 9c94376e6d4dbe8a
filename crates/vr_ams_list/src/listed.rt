//! An entry that is listed.
ghost use Rattle.std.specs.Prelude.{◌≡◌, IfOk};
ghost use Rattle.vr_ams_list.specs.Held.{held_one};

use std::alloc::Global;
use vr_catalog::CatEntry;
use vr_types::OutOfMemory;

/// An entry that LISTCAT lists, and the number of its volume, 0 for the first.
#[derive(Drop)]
pub struct Listed {
    pub volume: usize,
    pub entry: CatEntry,
}

/// One that stays in its catalog.
#[derive(Clone, Copy)]
pub(crate) struct Held<'a> {
    pub(crate) volume: usize,
    pub(crate) entry: &'a CatEntry,
}

impl<'a> Held<'a> {
    /// Copies the entry; fails only if memory runs out.
    pub(crate) fn copied(&self, alloc: Global) -> Result<Listed, OutOfMemory>
        ensures { IfOk result (λ listed. listed ≡ held_one self.now) }
    {
        Ok(Listed {
            volume: self.volume,
            entry: self.entry.copy(alloc)?,
        })
    }
}
