//! The entries that the records of a catalog spell.
ghost use Rattle.std.specs.Prelude.{◌≡◌, [], All, IfOk, IsTrue, false};
ghost use Rattle.vr_mount.specs.Records.{AreSpelled, IsAdded, SpellsEntry};

use std::alloc::Global;
use vr_catalog::{Catalog, EntryNo, read_entry};
use vr_types::{Bytes, OutOfMemory};

/// Adds the entry that a record spells, and answers whether it spells one.
fn add_entry(alloc: Global, record_bytes: &[u8], catalog: &mut Catalog) -> Result<bool, OutOfMemory>
    ensures { IfOk result (IsAdded record_bytes.now catalog.old catalog.new) }
{
    match read_entry(alloc, record_bytes) {
        Ok(entry) => {
            catalog.push(entry)?;
            Ok(true)
        }
        Err(EntryNo::Misspelled) => Ok(false),
        Err(EntryNo::Memory) => Err(OutOfMemory),
    }
}

/// Adds the entries that the records spell to a catalog of none, and answers whether each of them
/// spells one.
pub(crate) fn read_each(
    alloc: Global,
    records: &[Bytes],
    catalog: &mut Catalog,
) -> Result<bool, OutOfMemory>
    requires { catalog.old ≡ [] }
    ensures spelled { IfOk result (λ each. IsTrue each → AreSpelled records.now catalog.new) }
    ensures misspelled { IfOk result (λ each. each ≡ false → All SpellsEntry records.now → ⊥) }
{
    for bytes in records {
        if !add_entry(alloc, bytes.as_slice(), catalog)? {
            return Ok(false);
        }
    }
    Ok(true)
}
