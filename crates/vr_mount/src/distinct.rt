//! Whether the numbers of entries are distinct.
ghost use Rattle.std.specs.Prelude.{◌≡◌, ◌↔◌, IsTrue};
ghost use Rattle.std.specs.List.{IsDistinct};
ghost use Rattle.std.specs.Prelude.{nat_eq};
ghost use Rattle.vr_mount.specs.Numbers.{AreToldApart, IsLone, IsNew, number_by, numbers_by};
ghost use Rattle.vr_mount.specs.Numbers.{laid_area as area_of};

use vr_catalog::CatEntry;

/// Which number of an entry: that of its part, or of the area that it lays.
#[derive(Clone, Copy)]
pub(crate) enum Which {
    Part,
    Area,
}

/// The area that an entry lays: the first one of a cluster.
pub(crate) fn laid_area(entry: &CatEntry) -> Option<u32>
    ensures { result ≡ area_of entry.now }
{
    entry.cluster_definition()?;
    entry.first_area.map(|area| area.0)
}

fn number_of(entry: &CatEntry, which: Which) -> Option<u32>
    ensures { result ≡ number_by which entry.now }
{
    match which {
        Which::Part => Some(entry.part.0),
        Which::Area => laid_area(entry),
    }
}

/// Whether an entry has this number.
fn has(entry: &CatEntry, which: Which, number: u32) -> bool
    ensures { IsTrue result ↔ (number_by which entry.now ≡ Some number) }
{
    number_of(entry, which) == Some(number)
}

/// Whether none of the entries has this number.
fn none_has(entries: &[CatEntry], which: Which, number: u32) -> bool
    ensures { IsTrue result ↔ IsNew number (numbers_by which entries.now) }
{
    for entry in entries {
        if has(entry, which, number) {
            return false;
        }
    }
    true
}

/// Whether none of the entries has this number, if there is one.
fn is_lone(entries: &[CatEntry], which: Which, number: Option<u32>) -> bool
    ensures { IsTrue result ↔ IsLone (numbers_by which entries.now) number }
{
    match number {
        None => true,
        Some(number) => none_has(entries, which, number),
    }
}

/// Whether no two entries have the same number.
fn no_two(entries: &[CatEntry], which: Which) -> bool
    ensures { IsTrue result ↔ IsDistinct nat_eq (numbers_by which entries.now) }
{
    for i in 0..entries.len() {
        if !is_lone(&entries[i + 1..], which, number_of(&entries[i], which)) {
            return false;
        }
    }
    true
}

/// Whether no two entries have the same number, and none has 0.
pub(crate) fn are_told_apart(entries: &[CatEntry], which: Which) -> bool
    ensures { IsTrue result ↔ AreToldApart which entries.now }
{
    none_has(entries, which, 0) && no_two(entries, which)
}
