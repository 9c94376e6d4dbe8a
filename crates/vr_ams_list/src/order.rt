//! The entries that are listed, by name.
ghost use Rattle.std.specs.Prelude.{◌≡◌, ◌++◌, map, IfOk, OnOk};
ghost use Rattle.std.specs.List.{filter};
ghost use Rattle.vr_ams_list.specs.Held.{held_entries};
ghost use Rattle.vr_ams_list.specs.Listing as stated;

use crate::listed::Held;
use std::alloc::Global;
use vr_catalog::CatEntry;
use vr_trace::ShownVolume;
use vr_types::{Name, OutOfMemory};

/// The entries of the volumes that are listed, by name.
pub(crate) fn listed_entries<'a, V: ShownVolume>(
    alloc: Global,
    volumes: &'a [V],
    names: &[Name],
) -> Result<Vec<Held<'a>>, OutOfMemory>
    ensures { IfOk result (λ entries. held_entries entries.items
        ≡ stated.listed_entries (map V.shown volumes.now) names.now) }
{
    let mut entries = Vec::new(alloc);
    take_all(&mut entries, volumes, names)?;
    sort_by_name(&mut entries)?;
    Ok(entries)
}

/// Sorts entries by their names; those of one name stay in their order.
fn sort_by_name(entries: &mut Vec<Held>) -> Result<(), OutOfMemory>
    ensures { OnOk result
        (held_entries entries.new.items ≡ stated.by_name (held_entries entries.old.items)) }
{
    entries.sort_by(|held, other| held.entry.name.cmp(&other.entry.name))?;
    Ok(())
}

/// Adds the entries of all volumes that are listed.
fn take_all<'a, V: ShownVolume>(
    entries: &mut Vec<Held<'a>>,
    volumes: &'a [V],
    names: &[Name],
) -> Result<(), OutOfMemory>
    ensures { OnOk result (held_entries entries.new.items ≡ held_entries entries.old.items
        ++ filter (stated.is_listed names.now) (stated.entries_of (map V.shown volumes.now))) }
{
    for number in 0..volumes.len() {
        take_one(entries, number, volumes[number].catalog().as_slice(), names)?;
    }
    Ok(())
}

/// Adds those of one catalog, which is that of the volume of this number.
fn take_one<'a>(
    entries: &mut Vec<Held<'a>>,
    number: usize,
    catalog: &'a [CatEntry],
    names: &[Name],
) -> Result<(), OutOfMemory>
    ensures { OnOk result (held_entries entries.new.items ≡ held_entries entries.old.items
        ++ filter (stated.is_listed names.now) (stated.listed_on number catalog.now)) }
{
    for entry in catalog {
        if is_listed(names, entry) {
            entries.push(Held {
                volume: number,
                entry,
            })?;
        }
    }
    Ok(())
}

/// Whether an entry is listed: each is where there are no names.
fn is_listed(names: &[Name], entry: &CatEntry) -> bool
    ensures { result ≡ stated.is_name_listed names.now entry.now.name }
{
    names.is_empty() || is_among(names, &entry.name)
}

fn is_among(names: &[Name], name: &Name) -> bool
    ensures { result ≡ stated.is_among names.now name.now }
{
    names.iter().any(|other| *name == *other)
}
