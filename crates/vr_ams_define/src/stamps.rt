//! The stamps of volumes.
ghost use Rattle.std.specs.Prelude.{◌≡◌};
ghost use Rattle.vr_trace.specs.Growing.{greatest_last};

use crate::owned::OwnedVolume;

/// The greatest of the last stamps of the volumes, 0 where nothing was entered.
pub fn last_of<V: OwnedVolume>(volumes: &[V]) -> u64
    ensures { result ≡ greatest_last V.history volumes.now }
{
    let mut last = 0;
    for volume in volumes {
        last = volume.last().max(last);
    }
    last
}
