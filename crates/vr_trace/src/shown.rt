//! A volume, as the commands of IDCAMS see it.
ghost use Rattle.std.specs.Prelude.{◌≡◌, map};
ghost use Rattle.vr_trace.specs.Shown as stated;
ghost use Rattle.vr_trace.specs.Shown.{Shown};

use vr_catalog::Catalog;
use vr_types::Name;

/// A volume with a catalog, which a fault of its device may have stopped.
pub trait ShownVolume {
    /// The entries of its catalog, and whether it has stopped.
    ghost shown: { Self → Shown };

    /// Its catalog.
    fn catalog(&self) -> &Catalog
        ensures { result.now ≡ (shown self.now).catalog };

    /// Whether a write or a sync of it has failed in this run.
    fn is_stopped(&self) -> bool
        ensures { result ≡ (shown self.now).stopped };
}

/// Whether the catalog of a volume has the name.
pub fn has_name<V: ShownVolume>(volume: &V, name: &Name) -> bool
    ensures { result ≡ stated.has_name (V.shown volume.now) name.now }
{
    volume.catalog().find(name).is_some()
}

/// Whether the catalog of some volume has the name.
pub fn is_known<V: ShownVolume>(volumes: &[V], name: &Name) -> bool
    ensures { result ≡ stated.is_known (map V.shown volumes.now) name.now }
{
    for volume in volumes {
        if has_name(volume, name) {
            return true;
        }
    }
    false
}
