//! The parts of a volume that is opened, and who owns its areas.
ghost use Rattle.std.specs.Prelude.{◌≡◌, ◌<◌, ◌+◌, ◌++◌, ◌∷◌, [], IsTrue, IfErr, IfOk, OnOk};
ghost use Rattle.std.specs.Prelude.{length, map};
ghost use Rattle.std.specs.List.Sorted.{IsNonDecreasingBy};
ghost use Rattle.vr_types.specs.Blocks.{Keeps};
ghost use Rattle.vr_types.specs.Geometry.{IsAllowed};
ghost use Rattle.vr_log.specs.LogNow.{IsOf};
ghost use Rattle.vr_part.specs.Any.{shape_any};
ghost use Rattle.vr_recover.specs.Found.{AllStand, AreAdded, AreKnown, LaysAs, MayAdd, ShowsOnly};
ghost use Rattle.vr_recover.specs.Found.{held_entries};
ghost use Rattle.vr_recover.specs.OpenNo.{HasOpenCause};
ghost use Rattle.vr_recover.specs.Opening.{AreByNumber, IsEntryShown, number_of};

use crate::open_no::OpenNo;
use std::alloc::Global;
use vr_catalog::{CatEntry, Definition};
use vr_part::{AnyPart, attach_part};
use vr_types::{Blocks, Geometry, OutOfMemory, Space};

/// Adds a part.
pub(crate) fn add(parts: &mut Vec<AnyPart>, part: AnyPart) -> Result<(), OutOfMemory>
    ensures { OnOk result (parts.new.items ≡ parts.old.items ++ part ∷ []) }
{
    parts.push(part)?;
    Ok(())
}

/// The entries in the order of their part numbers.
pub(crate) fn by_number<'a>(
    alloc: Global,
    entries: &'a [CatEntry],
) -> Result<Vec<&'a CatEntry>, OutOfMemory>
    ensures { IfOk result (λ ordered. AreByNumber entries.now (held_entries ordered.items)) }
{
    let mut ordered = Vec::new(alloc);
    for entry in entries {
        ordered.push(entry)?;
    }
    ordered.sort_by_key(|entry| entry.part.0)?;
    Ok(ordered)
}

/// Where an entry lays its part, if it does: its first area, and its definition.
fn laid_by(entry: &CatEntry) -> Option<(u32, Definition)>
    ensures { LaysAs entry.now result }
{
    let definition = entry.cluster_definition()?;
    let area = entry.first_area?;
    Some((area.0, definition))
}

/// Attaches the part of the entry at this index, if it lays one, and adds it; the areas of its chain
/// are marked as its own. Those of the entries before it were added, whose numbers are less.
fn add_entry<B: Blocks>(
    alloc: Global,
    blocks: &mut B,
    geometry: &Geometry,
    entries: &[&CatEntry],
    at: usize,
    parts: &mut Vec<AnyPart>,
    space: &mut Space,
) -> Result<(), OpenNo>
    requires allowed { IsAllowed geometry.now }
    requires shape { IsOf geometry.now (B.seen blocks.old) }
    requires may { MayAdd geometry.now (held_entries entries.now) }
    requires ascend { IsNonDecreasingBy number_of (held_entries entries.now) }
    requires at { at < length entries.now }
    requires added { AreAdded geometry.now (held_entries entries.now) at parts.old.items
        space.old }
    ensures added { OnOk result
        (AreAdded geometry.now (held_entries entries.now) (at + 1) parts.new.items space.new) }
    ensures known { IsTrue B.tells → AreKnown parts.old.items (B.seen blocks.old).cur
        → OnOk result (AreKnown parts.new.items (B.seen blocks.old).cur) }
    ensures stand { IsTrue B.tells
        → AllStand (map shape_any parts.old.items) (B.seen blocks.old).cur
        → OnOk result (AllStand (map shape_any parts.new.items) (B.seen blocks.old).cur) }
    ensures damaged { IsTrue B.tells → AreKnown parts.old.items (B.seen blocks.old).cur
        → AllStand (map shape_any parts.old.items) (B.seen blocks.old).cur
        → IfErr result (ShowsOnly
        (IsEntryShown geometry.now (held_entries entries.now) (B.seen blocks.old))) }
    ensures keeps { Keeps B.tells (B.seen blocks.old) (B.seen blocks.new) }
    ensures cause { HasOpenCause (B.faults blocks.old) (B.faults blocks.new) result }
{
    let entry = entries[at];
    let Some((area, definition)) = laid_by(entry) else {
        return Ok(());
    };
    let part = attach_part(
        alloc,
        blocks,
        geometry,
        entry.part,
        area,
        &definition,
        space,
    )?;
    add(parts, part)?;
    Ok(())
}

/// Attaches the part of each entry that lays one, in the order of their numbers, and adds it to the
/// catalog's own; `space` has the first area of each marked as its own, and then the areas of its chain.
pub(crate) fn add_entries<B: Blocks>(
    alloc: Global,
    blocks: &mut B,
    geometry: &Geometry,
    entries: &[&CatEntry],
    parts: &mut Vec<AnyPart>,
    space: &mut Space,
) -> Result<(), OpenNo>
    requires allowed { IsAllowed geometry.now }
    requires shape { IsOf geometry.now (B.seen blocks.old) }
    requires may { MayAdd geometry.now (held_entries entries.now) }
    requires ascend { IsNonDecreasingBy number_of (held_entries entries.now) }
    requires added { AreAdded geometry.now (held_entries entries.now) 0 parts.old.items
        space.old }
    requires known { IsTrue B.tells → AreKnown parts.old.items (B.seen blocks.old).cur }
    requires stand { IsTrue B.tells
        → AllStand (map shape_any parts.old.items) (B.seen blocks.old).cur }
    ensures added { OnOk result (AreAdded geometry.now (held_entries entries.now)
        (length entries.now) parts.new.items space.new) }
    ensures known { IsTrue B.tells
        → OnOk result (AreKnown parts.new.items (B.seen blocks.old).cur) }
    ensures stand { IsTrue B.tells
        → OnOk result (AllStand (map shape_any parts.new.items) (B.seen blocks.old).cur) }
    ensures damaged { IsTrue B.tells → IfErr result
        (ShowsOnly (IsEntryShown geometry.now (held_entries entries.now) (B.seen blocks.old))) }
    ensures keeps { Keeps B.tells (B.seen blocks.old) (B.seen blocks.new) }
    ensures cause { HasOpenCause (B.faults blocks.old) (B.faults blocks.new) result }
{
    for at in 0..entries.len() {
        add_entry(alloc, blocks, geometry, entries, at, parts, space)?;
    }
    Ok(())
}
