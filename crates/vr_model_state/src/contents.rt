//! The contents of the parts of a volume, with the entries that the catalog among them spells.
ghost use Rattle.std.specs.Prelude.{◌≡◌, ◌∷◌, [], IfOk};
ghost use Rattle.std.specs.Option.{option_and_then};
ghost use Rattle.vr_catalog.specs.Catalog as catalogs;
ghost use Rattle.vr_catalog.specs.Record as records;
ghost use Rattle.vr_types.specs.Content.{record_of};
ghost use Rattle.vr_model_state.specs.Contents.{content_in};

use crate::content::{PartContent, PlacedItem, prepended};
use std::alloc::Global;
use std::marker::Model;
use vr_catalog::{CatEntry, EntryNo, read_entry};
use vr_types::OutOfMemory;

/// The contents of parts. Of several contents of one part the first counts, and a part without one
/// is empty. The records of the catalog, which is part 0, are read where its content is given, and
/// not where its entries are asked for.
#[derive(Drop)]
pub struct Contents {
    parts: Vec<(u32, PartContent)>,
    entries: Vec<CatEntry>,
}

impl Model for Contents {
    ghost use Rattle.std.specs.Prelude.{◌≡◌, ℕ, List};
    ghost use Rattle.vr_catalog.specs.Catalog.{entries_in};
    ghost use Rattle.vr_types.specs.Content.{Content};
    ghost use Rattle.vr_model_state.specs.Contents.{content_in};

    ghost Value = { List (ℕ × Content) };

    ghost view = { λ contents. contents.parts.items };

    ghost invariant = { λ contents.
        contents.entries.items ≡ entries_in (content_in contents.parts.items 0) };
}

impl Contents {
    /// No content, which takes no memory.
    pub fn empty(alloc: Global) -> Contents
        ensures { result ≡ [] }
    {
        Contents {
            parts: Vec::new(alloc),
            entries: Vec::new(alloc),
        }
    }

    /// These contents; fails only if memory runs out.
    pub fn of_parts(alloc: Global, parts: Vec<(u32, PartContent)>) -> Result<Contents, OutOfMemory>
        ensures { IfOk result (λ contents. contents ≡ parts.items) }
    {
        let entries = entries_in(alloc, content_of_part(&parts, 0))?;
        Ok(Contents { parts, entries })
    }

    /// The contents, each with the number of its part.
    pub fn as_slice(&self) -> &[(u32, PartContent)]
        ensures { result.now ≡ self.now }
    {
        self.parts.as_slice()
    }

    /// The content of a part.
    pub fn of_part(&self, part: u32) -> &[PlacedItem]
        ensures { result.now ≡ content_in self.now part }
    {
        content_of_part(&self.parts, part)
    }

    /// The entries of the catalog.
    pub fn entries(&self) -> &[CatEntry]
        ensures { result.now ≡ catalogs.entries_in (content_in self.now 0) }
    {
        self.entries.as_slice()
    }

    /// The contents with another one of a part; fails only if memory runs out.
    pub fn with_part(
        self,
        alloc: Global,
        part: u32,
        content: PartContent,
    ) -> Result<Contents, OutOfMemory>
        ensures { IfOk result (λ new. new ≡ (part, content) ∷ self) }
    {
        let Contents { parts, entries } = self;
        let entries = if 0 == part {
            entries_in(alloc, content.as_slice())?
        } else {
            entries
        };
        let parts = prepended((part, content), parts)?;
        Ok(Contents { parts, entries })
    }

    /// An equal value; fails only if memory runs out.
    pub fn copy(&self, alloc: Global) -> Result<Contents, OutOfMemory>
        ensures { IfOk result (λ copy. copy ≡ self.now) }
    {
        Ok(Contents {
            parts: copy_of_parts(alloc, &self.parts)?,
            entries: copy_of_entries(alloc, &self.entries)?,
        })
    }
}

/// The content of a part.
fn content_of_part(parts: &[(u32, PartContent)], part: u32) -> &[PlacedItem]
    ensures { result.now ≡ content_in parts.now part }
{
    match parts {
        [] => &[],
        [first, rest @ ..] => {
            if part == first.0 {
                first.1.as_slice()
            } else {
                content_of_part(rest, part)
            }
        }
    }
}

fn copy_of_parts(
    alloc: Global,
    from: &[(u32, PartContent)],
) -> Result<Vec<(u32, PartContent)>, OutOfMemory>
    ensures { IfOk result (λ copy. copy.items ≡ from.now) }
{
    match from {
        [] => Ok(Vec::new(alloc)),
        [first, rest @ ..] => {
            let others = copy_of_parts(alloc, rest)?;
            Ok(prepended((first.0, first.1.copy(alloc)?), others)?)
        }
    }
}

fn copy_of_entries(alloc: Global, from: &[CatEntry]) -> Result<Vec<CatEntry>, OutOfMemory>
    ensures { IfOk result (λ copy. copy.items ≡ from.now) }
{
    match from {
        [] => Ok(Vec::new(alloc)),
        [first, rest @ ..] => {
            let others = copy_of_entries(alloc, rest)?;
            Ok(prepended(first.copy(alloc)?, others)?)
        }
    }
}

/// The entries that the records of a content spell.
fn entries_in(alloc: Global, placed: &[PlacedItem]) -> Result<Vec<CatEntry>, OutOfMemory>
    ensures { IfOk result (λ entries. entries.items ≡ catalogs.entries_in placed.now) }
{
    match placed {
        [] => Ok(Vec::new(alloc)),
        [first, rest @ ..] => {
            let others = entries_in(alloc, rest)?;
            match entry_at(alloc, first)? {
                None => Ok(others),
                Some(entry) => prepended(entry, others),
            }
        }
    }
}

/// The entry that an item spells, if it spells one.
fn entry_at(alloc: Global, placed: &PlacedItem) -> Result<Option<CatEntry>, OutOfMemory>
    ensures { IfOk result (λ entry.
        entry ≡ option_and_then records.entry_of (record_of placed.now.1)) }
{
    match placed.item().record() {
        None => Ok(None),
        Some(bytes) => match read_entry(alloc, bytes) {
            Ok(entry) => Ok(Some(entry)),
            Err(EntryNo::Misspelled) => Ok(None),
            Err(EntryNo::Memory) => Err(OutOfMemory),
        },
    }
}
