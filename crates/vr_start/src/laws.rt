//! A law of parts that are made anew, the contract of a function that does nothing.
ghost use Rattle.std.specs.Prelude.{◌≡◌, ◌≤◌, ◌+◌, List, IsTrue, Some};
ghost use Rattle.vr_types.specs.Geometry.{IsAllowed};
ghost use Rattle.vr_types.specs.declared.geometry.Geometry.{Geometry as GeometryOf};
ghost use Rattle.vr_catalog.specs.Catalog.{cluster_definition};
ghost use Rattle.vr_catalog.specs.Entry.{is_entry};
ghost use Rattle.vr_catalog.specs.declared.definition.Definition.{Definition as DefinitionOf};
ghost use Rattle.vr_catalog.specs.declared.entry.CatEntry.{CatEntry as EntryOf};
ghost use Rattle.vr_catalog.specs.declared.entry.EntryKind.TheVariants.{Cluster};
ghost use Rattle.vr_attach.specs.CatalogRules.{IsEntryOf};
ghost use Rattle.vr_start.specs.Startable.{IsStartable};

/// A part can be made of each cluster whose entry a catalog may have beside its others. That its
/// longest record has room in an interval follows, unless it is spanned.
pub fn entries_can_start()
    ensures { (geometry : GeometryOf) (entries : List EntryOf) (entry : EntryOf)
        (definition : DefinitionOf) → IsAllowed geometry → IsTrue (is_entry entry)
        → IsEntryOf geometry entries entry → entry.entry_kind ≡ Cluster
        → cluster_definition entry.entry_kind entry ≡ Some definition
        → (IsTrue definition.spanned → definition.maximum + 7 ≤ geometry.size)
        → IsStartable geometry definition }
{}
