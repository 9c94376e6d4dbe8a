//! When LISTCAT is refused.
ghost use Rattle.std.specs.Prelude.{◌≡◌, map};
ghost use Rattle.vr_ams_list.specs.Faults as stated;

use vr_catalog::CatFault;
use vr_trace::{Failure, ShownVolume, has_name, is_known};
use vr_types::{Name, Refusal};

/// The condition code of a command that needs a volume that has stopped.
const STOPPED_CODE: u8 = 12;

fn not_found() -> Failure
    ensures { result ≡ stated.not_found }
{
    Failure {
        fault: u16::from(CatFault::NotFound.number()),
        code: CatFault::NotFound.code(),
    }
}

fn stopped() -> Failure
    ensures { result ≡ stated.stopped }
{
    let refusal = Refusal::Stopped { stamp: 0 };
    Failure {
        fault: refusal.code(),
        code: STOPPED_CODE,
    }
}

/// Whether a name is on no volume.
fn is_missing<V: ShownVolume>(volumes: &[V], names: &[Name]) -> bool
    ensures { result ≡ stated.is_missing (map V.shown volumes.now) names.now }
{
    for name in names {
        if !is_known(volumes, name) {
            return true;
        }
    }
    false
}

/// Whether a volume has one of the names.
fn has_any<V: ShownVolume>(volume: &V, names: &[Name]) -> bool
    ensures { result ≡ stated.has_any (V.shown volume.now) names.now }
{
    for name in names {
        if has_name(volume, name) {
            return true;
        }
    }
    false
}

/// Whether a volume has stopped that has to be there.
fn has_stopped<V: ShownVolume>(volumes: &[V], names: &[Name]) -> bool
    ensures { result ≡ stated.has_stopped (map V.shown volumes.now) names.now }
{
    for volume in volumes {
        if volume.is_stopped() && (names.is_empty() || has_any(volume, names)) {
            return true;
        }
    }
    false
}

/// Why LISTCAT of these names is refused, if it is. A missing name goes before a volume that has
/// stopped.
pub fn list_failure<V: ShownVolume>(volumes: &[V], names: &[Name]) -> Option<Failure>
    ensures { result ≡ stated.failure_of (map V.shown volumes.now) names.now }
{
    if is_missing(volumes, names) {
        Some(not_found())
    } else if has_stopped(volumes, names) {
        Some(stopped())
    } else {
        None
    }
}
