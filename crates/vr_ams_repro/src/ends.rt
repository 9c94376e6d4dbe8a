//! The source and the target.
ghost use Rattle.std.specs.Prelude.{◌≡◌, map, IfOk};
ghost use Rattle.vr_ams_print.specs.Printed.{has_keys as are_keys};
ghost use Rattle.vr_ams_repro.specs.Outcomes as stated;
ghost use Rattle.vr_ams_repro.specs.Outcomes.{AreEnds, IsSourceOf};
ghost use Rattle.vr_ams_repro.specs.Steps.{AreFound, IsSourceFound};

use std::alloc::Global;
use vr_ams_define::catalog_failure;
use vr_ams_print::{FoundCluster, find_source, has_keys};
use vr_amsparse::{ReproCommand, Source};
use vr_catalog::CatFault;
use vr_trace::{Failure, ShownVolume};
use vr_types::{Name, OutOfMemory};

/// The source, none where it is data cards, and the target.
#[derive(Drop)]
pub(crate) struct Ends {
    pub(crate) source: Option<FoundCluster>,
    pub(crate) target: FoundCluster,
}

/// The cluster of a name as a source, or why it isn't read.
fn find_cluster<V: ShownVolume>(
    alloc: Global,
    keyed: bool,
    volumes: &[V],
    name: &Name,
) -> Result<Result<Option<FoundCluster>, Failure>, OutOfMemory>
    ensures { IfOk result
        (IsSourceFound keyed (map V.shown volumes.now) (Source.DataSet name.now)) }
{
    match find_source(alloc, keyed, volumes, name)? {
        Err(failure) => Ok(Err(failure)),
        Ok(source) => Ok(Ok(Some(source))),
    }
}

/// The source of a command, or why there is none.
fn find_from<V: ShownVolume>(
    alloc: Global,
    keyed: bool,
    volumes: &[V],
    source: &Source,
) -> Result<Result<Option<FoundCluster>, Failure>, OutOfMemory>
    ensures { IfOk result (IsSourceFound keyed (map V.shown volumes.now) source.now) }
{
    match source {
        Source::DataSet(name) => find_cluster(alloc, keyed, volumes, name),
        Source::Data(_) => {
            if keyed {
                Ok(Err(catalog_failure(CatFault::WrongKind)))
            } else {
                Ok(Ok(None))
            }
        }
    }
}

/// Whether the source and the target are one cluster.
fn is_same(source: &Option<FoundCluster>, target: &FoundCluster) -> bool
    ensures { result ≡ stated.is_same source.now target.now }
{
    match source {
        None => false,
        Some(source) => {
            source.place == target.place && source.entry.part.0 == target.entry.part.0
        }
    }
}

/// Both, unless they are one cluster.
fn apart<V: ShownVolume>(volumes: &[V], command: &ReproCommand, ends: Ends) -> Result<Ends, Failure>
    requires ends { AreEnds (map V.shown volumes.now) command.now ends }
    ensures { AreFound (map V.shown volumes.now) command.now result }
{
    if is_same(&ends.source, &ends.target) {
        Err(catalog_failure(CatFault::NotTogether))
    } else {
        Ok(ends)
    }
}

/// The target beside a source, or why there is none.
fn find_target<V: ShownVolume>(
    alloc: Global,
    volumes: &[V],
    command: &ReproCommand,
    source: Option<FoundCluster>,
) -> Result<Result<Ends, Failure>, OutOfMemory>
    requires source { IsSourceOf (are_keys command.now.from command.now.to)
        (map V.shown volumes.now) command.now.source source }
    ensures { IfOk result (AreFound (map V.shown volumes.now) command.now) }
{
    match find_source(alloc, false, volumes, &command.target)? {
        Err(failure) => Ok(Err(failure)),
        Ok(target) => Ok(apart(volumes, command, Ends { source, target })),
    }
}

/// The source and the target of a command, or why it is refused: faults 2, 903 and 3 of the source,
/// those of the target, and 12 where they are one cluster.
pub(crate) fn find_ends<V: ShownVolume>(
    alloc: Global,
    volumes: &[V],
    command: &ReproCommand,
) -> Result<Result<Ends, Failure>, OutOfMemory>
    ensures { IfOk result (AreFound (map V.shown volumes.now) command.now) }
{
    let keyed = has_keys(&command.from, &command.to);
    match find_from(alloc, keyed, volumes, &command.source)? {
        Err(failure) => Ok(Err(failure)),
        Ok(source) => find_target(alloc, volumes, command, source),
    }
}
