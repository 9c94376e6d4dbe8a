//! Laws of edits, each the contract of a function that does nothing.
ghost use Rattle.std.specs.Prelude.{◌≡◌, ◌↔◌, ℕ, List, All, IsTrue, is_some};
ghost use Rattle.vr_types.specs.Content.{Content, records_of};
ghost use Rattle.vr_types.specs.declared.geometry.Geometry.{Geometry};
ghost use Rattle.vr_catalog.specs.Catalog.{entries_in};
ghost use Rattle.vr_catalog.specs.Record.{entry_of};
ghost use Rattle.vr_catalog.specs.declared.entry.CatEntry.{CatEntry};
ghost use Rattle.vr_attach.specs.CatalogRules.{IsCatalog};
ghost use Rattle.vr_edits.specs.Edits.{IsInOrder, IsServedEntry, MayEdit, edited, shape_after};
ghost use Rattle.vr_edits.specs.declared.edit.CatalogEdit.{CatalogEdit};

/// A catalog keeps the rules once an edit is made of it that may be.
pub fn edits_keep_order()
    ensures { (geometry : Geometry) (entries : List CatEntry) (edit : CatalogEdit)
        → MayEdit geometry entries edit → IsInOrder geometry entries
        → IsInOrder geometry (edited edit entries) }
{}

/// Each part is where it was, but for a deleted cluster's, which is nowhere.
pub fn edits_lay_parts()
    ensures { (geometry : Geometry) (entries : List CatEntry) (edit : CatalogEdit)
        → MayEdit geometry entries edit → (part : ℕ)
        → shape_after geometry entries edit part }
{}

/// Entries that are served are so once an edit is made that may be.
pub fn edits_are_served()
    ensures { (geometry : Geometry) (entries : List CatEntry) (edit : CatalogEdit)
        → MayEdit geometry entries edit → All (IsServedEntry geometry) entries
        → All (IsServedEntry geometry) (edited edit entries) }
{}

/// A content is that of a catalog exactly where its records spell entries that are in order.
pub fn catalogs_in_order()
    ensures { (geometry : Geometry) (content : Content) → IsCatalog geometry content
        ↔ All (λ (placed : List ℕ × List ℕ). IsTrue (is_some (entry_of placed.1)))
        (records_of content) × IsInOrder geometry (entries_in content) }
{}
