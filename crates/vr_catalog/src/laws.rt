//! Laws of the catalog record.
ghost use Rattle.std.specs.Prelude.{◌≡◌, ◌↔◌, ℕ, List, Some};
ghost use Rattle.vr_catalog.specs.declared.entry.CatEntry.{CatEntry};
ghost use Rattle.vr_catalog.specs.Record.{IsCatalogRecord, entry_of};

/// Bytes are the record of an entry exactly where that is the entry that they spell.
pub fn spelled_exactly()
    ensures { (bytes : List ℕ) (entry : CatEntry) →
        (entry_of bytes ≡ Some entry) ↔ IsCatalogRecord bytes entry }
{}

/// Bytes are the record of one entry at most.
pub fn one_entry()
    ensures { (bytes : List ℕ) (one other : CatEntry) →
        IsCatalogRecord bytes one → IsCatalogRecord bytes other → one ≡ other }
{}
