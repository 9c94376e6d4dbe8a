//! Laws of new entries.
ghost use Rattle.std.specs.Prelude.{◌≡◌, ◌+◌, ◌<◌, ◌^◌, List, None, true};
ghost use Rattle.vr_types.specs.declared.geometry.Geometry.{Geometry};
ghost use Rattle.vr_types.specs.declared.unit.AreaNo.{AreaNo};
ghost use Rattle.vr_catalog.specs.Define.{new_entry};
ghost use Rattle.vr_catalog.specs.declared.entry.CatEntry.{CatEntry};
ghost use Rattle.vr_catalog.specs.declared.order.Define.{Define};
ghost use Rattle.vr_ams_define.specs.Failures.{entry_failure};
ghost use Rattle.vr_ams_define.specs.NewCluster.{IsNewCluster, IsRuled, with_area, with_cluster};
ghost use Rattle.vr_ams_define.specs.Runs.{is_plain_cluster};

/// What the catalog of a volume doesn't refuse is a new cluster of it; and where the catalog keeps
/// the rules, it keeps them with the cluster, whatever its first area.
pub fn new_entry_is_new()
    ensures new { (geometry : Geometry) (entries : List CatEntry) (order : Define)
        → is_plain_cluster order.what ≡ true → entry_failure geometry entries order ≡ None
        → IsNewCluster geometry entries (new_entry entries order) }
    ensures ruled { (geometry : Geometry) (entries : List CatEntry) (order : Define)
        → IsRuled geometry entries → is_plain_cluster order.what ≡ true
        → entry_failure geometry entries order ≡ None
        → (area : AreaNo) → area.0 + 1 < 2 ^ 32
        → IsRuled geometry (with_cluster (with_area area (new_entry entries order)) entries) }
{}
