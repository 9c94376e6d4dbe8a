//! When a DEFINE CLUSTER is refused before its volume is asked.
ghost use Rattle.std.specs.Prelude.{◌≡◌, map};
ghost use Rattle.std.specs.Option.{option_and_then};
ghost use Rattle.vr_types.specs.declared.reply.Refusal.TheVariants.{LogFull};
ghost use Rattle.vr_ams_define.specs.Failures as stated;

use vr_catalog::CatFault;
use vr_trace::{Failure, ShownVolume, is_known};
use vr_types::{DeviceFault, Name, Refusal};

/// The condition code of a command that a volume refuses.
const REFUSED_CODE: u8 = 12;

/// The fault of a command that a lock is in the way of.
const HELD_FAULT: u16 = 901;

/// A fault of the catalog, with its condition code.
pub fn catalog_failure(fault: CatFault) -> Failure
    ensures { result ≡ stated.catalog_failure fault }
{
    Failure {
        fault: u16::from(fault.number()),
        code: fault.code(),
    }
}

/// A refusal by a volume, which the listing shows as a fault.
fn volume_failure(refusal: &Refusal) -> Failure
    ensures { result ≡ stated.volume_failure refusal.now }
{
    Failure {
        fault: refusal.code(),
        code: REFUSED_CODE,
    }
}

/// The failure of a volume whose log is full.
pub(crate) fn log_failure() -> Failure
    ensures { result ≡ stated.volume_failure (LogFull 0 0 0) }
{
    volume_failure(&Refusal::LogFull {
        used: 0,
        need: 0,
        size: 0,
    })
}

/// The failure of a volume on which a lock is in the way.
pub(crate) fn held_failure() -> Failure
    ensures { result ≡ stated.held_failure }
{
    Failure {
        fault: HELD_FAULT,
        code: REFUSED_CODE,
    }
}

/// The failure of a volume whose device failed.
pub fn fault_failure(fault: DeviceFault) -> Failure
    ensures { result ≡ stated.fault_failure fault }
{
    match fault {
        DeviceFault::Read => volume_failure(&Refusal::ReadFault),
        DeviceFault::Write => volume_failure(&Refusal::WriteFault),
    }
}

/// The failure, where its cause is there.
pub(crate) fn failure_if(cause: bool, failure: Failure) -> Option<Failure>
    ensures { result ≡ stated.failure_if cause failure }
{
    if cause { Some(failure) } else { None }
}

/// The failure of a volume that has stopped: fault 903, code 12.
pub fn stopped_failure<V: ShownVolume>(volume: &V) -> Option<Failure>
    ensures { result ≡ stated.stopped_failure (V.shown volume.now) }
{
    let failure = volume_failure(&Refusal::Stopped { stamp: 0 });
    failure_if(volume.is_stopped(), failure)
}

/// The failure of the volume of this number, where it has stopped.
fn stopped_at<V: ShownVolume>(volumes: &[V], number: Option<usize>) -> Option<Failure>
    ensures { result ≡ option_and_then stated.stopped_failure
        (stated.volume_at (map V.shown volumes.now) number) }
{
    match number {
        None => None,
        Some(number) => match volumes.get(number) {
            None => None,
            Some(volume) => stopped_failure(volume),
        },
    }
}

/// The failure of a name that is in use on some volume.
pub(crate) fn name_failure<V: ShownVolume>(volumes: &[V], name: &Name) -> Option<Failure>
    ensures { result ≡ stated.name_failure (map V.shown volumes.now) name.now }
{
    failure_if(
        is_known(volumes, name),
        catalog_failure(CatFault::NameTaken),
    )
}

/// Why a DEFINE of this name on the volume of this number is refused, whatever the entry.
pub(crate) fn early_failure<V: ShownVolume>(
    volumes: &[V],
    number: Option<usize>,
    name: &Name,
) -> Option<Failure>
    ensures { result ≡ stated.early_failure (map V.shown volumes.now) number name.now }
{
    stopped_at(volumes, number).or(name_failure(volumes, name))
}
