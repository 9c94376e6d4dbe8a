//! The entry of a name, and its volume.
ghost use Rattle.std.specs.Prelude.{◌≡◌, ◌<◌, length, map, IfErr, IfOk, IfSome, Some};
ghost use Rattle.std.specs.List.{count_by};
ghost use Rattle.vr_catalog.specs.Catalog.{entry_named};
ghost use Rattle.vr_edits.specs.Edits.{is_of_part};
ghost use Rattle.vr_ams_define.specs.Altered as stated;
ghost use Rattle.vr_ams_define.specs.EditSteps.{IsNamed, IsRefusedBy, IsTargetOn};

use crate::failure::{catalog_failure, failure_if, stopped_failure};
use crate::recorded::has_record;
use crate::refusal::DefineNo;
use std::alloc::Global;
use vr_catalog::{CatEntry, CatFault};
use vr_trace::{Failure, ShownVolume, has_name};
use vr_types::{Name, OutOfMemory};

/// An entry, and the number of its volume, 0 for the first.
#[derive(Drop)]
pub(crate) struct Target {
    pub(crate) place: usize,
    pub(crate) entry: CatEntry,
}

/// The number of the lowest volume whose catalog has the name, 0 for the first.
pub fn place_of<V: ShownVolume>(volumes: &[V], name: &Name) -> Option<usize>
    ensures place { result ≡ stated.place_of (map V.shown volumes.now) name.now }
    ensures within { IfSome result (λ place. place < length volumes.now) }
{
    for place in 0..volumes.len() {
        if has_name(&volumes[place], name) {
            return Some(place);
        }
    }
    None
}

/// How many entries are of the part of this one.
#[tactic(auto, using(std::proofs::lemmas::List::Sums::count_by_more_yes, std::proofs::lemmas::List::Sums::count_by_more_no))]
fn part_count(entries: &[CatEntry], entry: &CatEntry) -> usize
    ensures { result ≡ count_by (is_of_part entry.now) entries.now }
{
    let mut count = 0;
    for other in entries {
        if other.part.0 == entry.part.0 {
            count += 1;
        }
    }
    count
}

/// Whether no other entry has its part.
pub(crate) fn is_alone(entries: &[CatEntry], entry: &CatEntry) -> bool
    ensures { result ≡ stated.is_alone entries.now entry.now }
{
    part_count(entries, entry) == 1
}

/// Whether a record spells the entry, and it is the one of its part.
pub(crate) fn is_sound(
    alloc: Global,
    entries: &[CatEntry],
    entry: &CatEntry,
) -> Result<bool, OutOfMemory>
    ensures { IfOk result (λ is. is ≡ stated.is_sound entries.now entry.now) }
{
    Ok(has_record(alloc, entry)? && is_alone(entries, entry))
}

/// Why an entry of a volume can't be used, if so.
fn failure_on<V: ShownVolume>(
    alloc: Global,
    volume: &V,
    entry: &CatEntry,
) -> Result<Option<Failure>, OutOfMemory>
    ensures { IfOk result (λ failure.
        failure ≡ stated.failure_on (Some (V.shown volume.now)) (Some entry.now)) }
{
    if let Some(failure) = stopped_failure(volume) {
        return Ok(Some(failure));
    }
    let sound = is_sound(alloc, volume.catalog().as_slice(), entry)?;
    Ok(failure_if(!sound, catalog_failure(CatFault::WrongKind)))
}

/// A copy of the entry of a name, if the volume can use it.
fn entry_on<V: ShownVolume>(alloc: Global, volume: &V, name: &Name) -> Result<CatEntry, DefineNo>
    ensures found { IfOk result (IsTargetOn (V.shown volume.now) name.now) }
    ensures refused { IfErr result (IsRefusedBy (stated.failure_on (Some (V.shown volume.now))
        (entry_named (V.shown volume.now).catalog name.now))) }
{
    let Some(entry) = volume.catalog().find(name) else {
        return Err(DefineNo::Refused(catalog_failure(CatFault::NotFound)));
    };
    match failure_on(alloc, volume, entry)? {
        None => Ok(entry.copy(alloc)?),
        Some(failure) => Err(DefineNo::Refused(failure)),
    }
}

/// A copy of the entry of a name, on the lowest volume that has it, if it can be used: fault 2
/// where no volume has it, 903 where its volume has stopped, 3 where no record spells it, or another
/// entry has its part.
pub(crate) fn find_target<V: ShownVolume>(
    alloc: Global,
    volumes: &[V],
    name: &Name,
) -> Result<Target, DefineNo>
    ensures named { IfOk result (IsNamed (map V.shown volumes.now) name.now) }
    ensures within { IfOk result (λ target. target.place < length volumes.now) }
    ensures refused { IfErr result
        (IsRefusedBy (stated.name_failure (map V.shown volumes.now) name.now)) }
{
    let Some(place) = place_of(volumes, name) else {
        return Err(DefineNo::Refused(catalog_failure(CatFault::NotFound)));
    };
    let entry = entry_on(alloc, &volumes[place], name)?;
    Ok(Target { place, entry })
}
