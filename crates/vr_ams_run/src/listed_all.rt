//! LISTCAT ALL, which has each cluster counted as it lists it.
ghost use Rattle.std.specs.Prelude.{◌≡◌, ◌∷◌, ◌<◌, [], All, length, map, IfOk};
ghost use Rattle.vr_catalog.specs.declared.entry.EntryKind.TheVariants.{Cluster};
ghost use Rattle.vr_ams_define.specs.Grown.{AreRunOn};
ghost use Rattle.vr_ams_list.specs.Places.{IsGoing, IsThere};
ghost use Rattle.vr_ams_run.specs.Counting as steps;
ghost use Rattle.vr_ams_run.specs.ListedAll as stated;

use std::alloc::Global;
use vr_ams_define::{Counted, OwnedVolume, fault_failure, last_of};
use vr_ams_list::{Listed, entries_to_list, list_failure, write_full, write_total};
use vr_catalog::EntryKind;
use vr_trace::{Outcome, RunNo, Statistics, refused};
use vr_types::{Bytes, DeviceFault, Name};

/// The numbers of an entry that has no records of its own.
fn no_numbers() -> Statistics
    ensures { result ≡ stated.no_numbers }
{
    Statistics {
        records: 0,
        areas: 0,
        interval_splits: 0,
        area_splits: 0,
    }
}

/// Whether an entry of this kind is counted.
fn is_counted(kind: EntryKind) -> bool
    ensures { result ≡ stated.is_counted kind }
{
    match kind {
        EntryKind::Cluster => true,
        EntryKind::Alternate | EntryKind::Path => false,
    }
}

/// Asks the volume of a cluster for its numbers.
fn ask_count<V: OwnedVolume>(
    volumes: &mut [V],
    line: u32,
    listed: &Listed,
) -> Result<Counted, RunNo>
    requires there { IsThere (map V.shown volumes.old) listed.now }
    requires going { IsGoing (map V.shown volumes.old) listed.now }
    requires within { listed.now.volume < length volumes.old }
    requires cluster { listed.now.entry.entry_kind ≡ Cluster }
    ensures counted { IfOk result
        (steps.IsCounted V.shown V.answers line listed.now volumes.old volumes.new) }
    ensures grew { AreRunOn V.history V.goes (line ∷ []) volumes.old volumes.new }
    ensures geometry { map V.geometry volumes.new ≡ map V.geometry volumes.old }
{
    let after = last_of(volumes);
    let number = listed.volume;
    let volume = &mut volumes[number];
    volume.count(line, &listed.entry, after)
}

/// Counts an entry, where it has records of its own.
fn count_one<V: OwnedVolume>(
    volumes: &mut [V],
    line: u32,
    listed: &Listed,
) -> Result<Counted, RunNo>
    requires there { IsThere (map V.shown volumes.old) listed.now }
    requires going { IsGoing (map V.shown volumes.old) listed.now }
    ensures counted { IfOk result
        (steps.IsCounted V.shown V.answers line listed.now volumes.old volumes.new) }
    ensures grew { AreRunOn V.history V.goes (line ∷ []) volumes.old volumes.new }
    ensures geometry { map V.geometry volumes.new ≡ map V.geometry volumes.old }
{
    if !is_counted(listed.entry.entry_kind) {
        return Ok(Counted::Done(no_numbers()));
    }
    ask_count(volumes, line, listed)
}

/// Counts an entry and adds its lines, or answers the fault of the device.
fn list_one<V: OwnedVolume>(
    alloc: Global,
    volumes: &mut [V],
    line: u32,
    listed: &Listed,
    out: &mut Bytes,
) -> Result<Option<DeviceFault>, RunNo>
    requires there { IsThere (map V.shown volumes.old) listed.now }
    requires going { IsGoing (map V.shown volumes.old) listed.now }
    ensures listed { IfOk result (steps.IsListedOne V.shown V.answers line listed.now volumes.old
        volumes.new out.old out.new) }
    ensures grew { AreRunOn V.history V.goes (line ∷ []) volumes.old volumes.new }
    ensures geometry { map V.geometry volumes.new ≡ map V.geometry volumes.old }
{
    match count_one(volumes, line, listed)? {
        Counted::Fault(fault) => Ok(Some(fault)),
        Counted::Done(numbers) => {
            let catalog = volumes[listed.volume].catalog();
            write_full(alloc, out, catalog, &listed.entry, &numbers)?;
            Ok(None)
        }
    }
}

/// Counts entries, first to last, and adds the lines of each. A fault of the device ends it: none
/// after it is counted.
fn list_each<V: OwnedVolume>(
    alloc: Global,
    volumes: &mut [V],
    line: u32,
    entries: &[Listed],
    out: &mut Bytes,
) -> Result<Option<DeviceFault>, RunNo>
    requires there { All (IsThere (map V.shown volumes.old)) entries.now }
    requires going { All (IsGoing (map V.shown volumes.old)) entries.now }
    ensures listed { IfOk result (steps.AreListed V.shown V.answers line entries.now volumes.old
        volumes.new out.old out.new) }
    ensures grew { AreRunOn V.history V.goes (line ∷ []) volumes.old volumes.new }
    ensures geometry { map V.geometry volumes.new ≡ map V.geometry volumes.old }
{
    for listed in entries {
        if let Some(fault) = list_one(alloc, volumes, line, listed, out)? {
            return Ok(Some(fault));
        }
    }
    Ok(None)
}

/// The outcome of these entries.
fn list_these<V: OwnedVolume>(
    alloc: Global,
    volumes: &mut [V],
    line: u32,
    entries: &[Listed],
) -> Result<Outcome, RunNo>
    requires there { All (IsThere (map V.shown volumes.old)) entries.now }
    requires going { All (IsGoing (map V.shown volumes.old)) entries.now }
    ensures ended { IfOk result
        (steps.IsEndOf V.shown V.answers line entries.now volumes.old volumes.new) }
    ensures grew { AreRunOn V.history V.goes (line ∷ []) volumes.old volumes.new }
    ensures geometry { map V.geometry volumes.new ≡ map V.geometry volumes.old }
{
    let mut lines = Bytes::new(alloc);
    if let Some(fault) = list_each(alloc, volumes, line, entries, &mut lines)? {
        return Ok(refused(alloc, fault_failure(fault)));
    }
    write_total(alloc, &mut lines, entries.len())?;
    Ok(Outcome {
        lines,
        code: 0,
        fault: None,
    })
}

/// LISTCAT with ALL, of these names, or of all entries where there is none: as LISTCAT with NAME,
/// with what each entry has below its name. Each cluster is counted on its volume, one after
/// another, for the command on line `line` of the job; where the device fails as one is, the
/// command is refused (904, 905), no other is counted, and there is no detail line. What that
/// enters comes after all that the volumes have. Stamps or memory may run out; the volumes are then
/// as the counts so far left them.
pub(crate) fn list_all<V: OwnedVolume>(
    alloc: Global,
    volumes: &mut [V],
    line: u32,
    names: &[Name],
) -> Result<Outcome, RunNo>
    ensures ran { IfOk result (stated.IsListedAll V.shown V.answers line names.now volumes.old
        volumes.new) }
    ensures grew { AreRunOn V.history V.goes (line ∷ []) volumes.old volumes.new }
    ensures geometry { map V.geometry volumes.new ≡ map V.geometry volumes.old }
{
    if let Some(failure) = list_failure(volumes, names) {
        return Ok(refused(alloc, failure));
    }
    let entries = entries_to_list(alloc, volumes, names)?;
    list_these(alloc, volumes, line, entries.as_slice())
}
