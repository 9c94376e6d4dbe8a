//! A catalog as the list of its entries.
ghost use Rattle.std.specs.Prelude.{◌≡◌, ◌++◌, ◌∷◌, [], IfOk, OnOk, OnErr};
ghost use Rattle.std.specs.Option.{option_copied};

use crate::definition::{Definition, catalog_definition};
use crate::entry::CatEntry;
use std::alloc::Global;
use std::marker::Model;
use vr_types::{Name, OutOfMemory, PartNo};

/// The entries of a catalog, in the order of their names.
#[derive(Drop)]
pub struct Catalog {
    entries: Vec<CatEntry>,
}

impl Model for Catalog {
    ghost use Rattle.std.specs.Prelude.{List};
    ghost use Rattle.vr_catalog.specs.declared.entry.CatEntry.{CatEntry};

    ghost Value = { List CatEntry };

    ghost view = { λ catalog. catalog.entries.items };
}

impl Catalog {
    ghost use Rattle.vr_catalog.specs.Catalog.{
      entry_named,
      entry_with_part,
      definition_of as definition_in,
    };

    /// No entry, which takes no memory.
    pub fn new(alloc: Global) -> Catalog
        ensures { result ≡ [] }
    {
        Catalog {
            entries: Vec::new(alloc),
        }
    }

    /// The entries, in order.
    pub fn as_slice(&self) -> &[CatEntry]
        ensures { result.now ≡ self.now }
    {
        self.entries.as_slice()
    }

    /// Adds an entry at the end. If memory runs out, nothing changes.
    pub fn push(&mut self, entry: CatEntry) -> Result<(), OutOfMemory>
        ensures ok { OnOk result (self.new ≡ self.old ++ entry ∷ []) }
        ensures err { OnErr result (self.new ≡ self.old) }
    {
        self.entries.push(entry)?;
        Ok(())
    }

    /// The entry with this name.
    pub fn find(&self, name: &Name) -> Option<&CatEntry>
        ensures { option_copied result ≡ entry_named self.now name.now }
    {
        self.entries
            .as_slice()
            .iter()
            .find(|entry| entry.name == *name)
    }

    /// The entry with this part number.
    pub fn find_part(&self, part: PartNo) -> Option<&CatEntry>
        ensures { option_copied result ≡ entry_with_part self.now part.0 }
    {
        self.entries
            .as_slice()
            .iter()
            .find(|entry| entry.part == part)
    }

    /// The definition of a part: the catalog's own of part 0, and that of a cluster.
    pub fn definition_of(&self, part: PartNo) -> Option<Definition>
        ensures { result ≡ definition_in self.now part.0 }
    {
        if part.0 == 0 {
            return Some(catalog_definition());
        }
        match self.find_part(part) {
            None => None,
            Some(entry) => entry.cluster_definition(),
        }
    }

    /// Copies the value; fails only if memory runs out.
    pub fn copy(&self, alloc: Global) -> Result<Catalog, OutOfMemory>
        ensures { IfOk result (λ copy. copy ≡ self.now) }
    {
        let mut entries = Vec::new(alloc);
        for entry in self.entries.as_slice() {
            entries.push(entry.copy(alloc)?)?;
        }
        Ok(Catalog { entries })
    }
}
