//! The walk over the areas of a keyed part: each head, then the interval of each entry.
ghost use Rattle.std.specs.Prelude.{◌≡◌, ◌<◌, ◌+◌, ◌^◌, [], ℕ, List, Option, Some, None, IsTrue};
ghost use Rattle.std.specs.Prelude.{IfErr};
ghost use Rattle.std.specs.Prelude.{IfOk, IfSome, MatchOption, MatchResult, OnOk, length};
ghost use Rattle.std.specs.Prelude.{slice_index_or, slice_set};
ghost use Rattle.vr_types.specs.Blocks.{Keeps};
ghost use Rattle.vr_types.specs.Faults.{HasCause};
ghost use Rattle.vr_types.specs.Geometry.{area_count};
ghost use Rattle.vr_types.specs.Space.{free_count};
ghost use Rattle.vr_types.specs.declared.unit.PartNo.{PartNo as PartNumber};
ghost use Rattle.vr_space.specs.Areas.{KnowsAreas, area_of, head_of, intervals_in};
ghost use Rattle.vr_space.specs.Keyed.{IsHead, entries_of, low_of};
ghost use Rattle.vr_space.specs.Part.{IsOn, KeyedShape, Stands, owned_count, part_no};
ghost use Rattle.vr_attach.specs.Areas.{AreWhole};
ghost use Rattle.vr_attach.specs.Linked.{IsLinkedDamagedAt};
ghost use Rattle.vr_attach.specs.Marked.{AreMarked, IsTakenIn};
ghost use Rattle.vr_attach.specs.Walked.{AreMarkedTo, EndsGreatest, HasRoomFor, IsAdded, IsOpen};
ghost use Rattle.vr_attach.specs.Walked.{IsWalkedAt, IsWalkedBy, low_after};
ghost use Rattle.vr_attach.specs.declared.rule.Rule.TheVariants as rules;

use crate::areas::Areas;
use crate::damage::Damage;
use crate::link::walk_area;
use crate::rule::Rule;
use crate::taken::take_area;
use vr_seqset::SeqView;
use vr_space::Layout;
use vr_types::{Blocks, DeviceFault, Space};

/// Adds an area to those of its part, by its head, which was read, with its intervals.
fn add_area(areas: &mut Areas, layout: &Layout, area: u32, top: &[u8])
    requires layout { layout.now ≡ area_of areas.old.part area }
    requires head { IsHead layout.now top.now }
    requires low { low_of top.now ≡ low_after areas.old.ends }
    requires ready { HasRoomFor areas.old area }
    requires few { areas.old.intervals + length (entries_of top.now) < 2 ^ 64 }
    ensures { IsAdded top.now area areas.old areas.new }
{
    let Ok(view) = SeqView::read(top, layout.area) else {
        unreachable!("it spells a record")
    };
    let intervals = view.count();
    areas.add(area, view.high(intervals - 1), intervals as u64);
}

/// Takes the area that comes next for the part; or its damage, where that one has an owner.
fn take_next(areas: &Areas, taken: &mut Space, next: u32) -> Result<(), Damage>
    requires there { next < area_count areas.now.part.geometry }
    requires count { length taken.old ≡ area_count areas.now.part.geometry }
    ensures taken { taken.new
        ≡ slice_set taken.old next (Some (part_no (KeyedShape areas.now.part))) }
    ensures free { OnOk result (slice_index_or taken.old next None ≡ None) }
    ensures fewer { OnOk result (free_count taken.new + 1 ≡ free_count taken.old) }
    ensures owned { IfErr result (λ damage. IsTakenIn taken.old next) }
    ensures block { IfErr result (λ damage. damage.block ≡ head_of areas.now.part next) }
    ensures rule { IfErr result (λ damage. damage.rule ≡ rules.AreaTwice) }
{
    let part = areas.layout();
    if !take_area(taken, next, part.part) {
        return Err(Damage {
            block: part.geometry.head_block(next),
            rule: Rule::AreaTwice,
        });
    }
    Ok(())
}

/// Walks over an area, adds it, and takes the one that comes next for the part, if there is one; or
/// the first damage, which may be that this one has an owner.
fn step<B: Blocks>(
    blocks: &mut B,
    areas: &mut Areas,
    taken: &mut Space,
    area: u32,
    top: &mut [u8],
) -> Result<Result<Option<u32>, Damage>, DeviceFault>
    requires on { IsOn (KeyedShape areas.old.part) (B.seen blocks.old) }
    requires top { length top.old ≡ areas.old.part.geometry.size }
    requires ready { IsOpen areas.old area taken.old }
    ensures ready { IfOk result (λ found. IfOk found (λ next.
        IfSome next (λ further. IsOpen areas.new further taken.new))) }
    ensures fewer { IfOk result (λ found. IfOk found (λ next.
        IfSome next (λ further. free_count taken.new + 1 ≡ free_count taken.old))) }
    ensures greatest { IfOk result (λ found. IfOk found (λ next.
        next ≡ None → EndsGreatest areas.new)) }
    ensures marked { (before : List (Option PartNumber))
        → AreMarkedTo before taken.old areas.old (Some area)
        → IfOk result (λ found. IfOk found (AreMarkedTo before taken.new areas.new)) }
    ensures walked { IsTrue B.tells → (before : List (Option PartNumber))
        → AreMarkedTo before taken.old areas.old (Some area)
        → IsWalkedAt (IsTakenIn before) (B.seen blocks.old).cur areas.old area
        → IfOk result (λ found. MatchResult found
        (IsWalkedBy (IsTakenIn before) (B.seen blocks.old).cur areas.new)
        (λ damage. IsLinkedDamagedAt areas.old.part (IsTakenIn before) (B.seen blocks.old).cur
        damage.block damage.rule)) }
    ensures count { length taken.new ≡ length taken.old }
    ensures part { areas.new.part ≡ areas.old.part }
    ensures top { length top.new ≡ length top.old }
    ensures keeps { Keeps B.tells (B.seen blocks.old) (B.seen blocks.new) }
    ensures cause { HasCause (B.faults blocks.old) (B.faults blocks.new) result }
{
    let layout = areas.layout().area(area);
    let count = areas.layout().geometry.areas();
    let next = match walk_area(blocks, &layout, area, count, areas.last_end(), top)? {
        Ok(next) => next,
        Err(damage) => return Ok(Err(damage)),
    };
    add_area(areas, &layout, area, top);
    let Some(next) = next else {
        return Ok(Ok(None));
    };
    match take_next(areas, taken, next) {
        Ok(()) => Ok(Ok(Some(next))),
        Err(damage) => Ok(Err(damage)),
    }
}

/// Walks over the chain of a part, of which no area is known yet: then its areas are those of the
/// chain, with the intervals of their heads, and are marked as the part's in `taken`. Else the
/// first damage. Each head is read into `top`, and each block once. It ends, since each area that
/// it goes on to was free.
pub fn walk_chain<B: Blocks>(
    blocks: &mut B,
    areas: &mut Areas,
    taken: &mut Space,
    top: &mut [u8],
) -> Result<Option<Damage>, DeviceFault>
    requires on { IsOn (KeyedShape areas.old.part) (B.seen blocks.old) }
    requires top { length top.old ≡ areas.old.part.geometry.size }
    requires none { areas.old ≡ record {
      part = areas.old.part;
      areas = [];
      ends = [];
      intervals = 0;
    } }
    requires count { length taken.old ≡ area_count areas.old.part.geometry }
    requires first { slice_index_or taken.old areas.old.part.first None
        ≡ Some (part_no (KeyedShape areas.old.part)) }
    requires alone { owned_count (part_no (KeyedShape areas.old.part)) taken.old ≡ 1 }
    ensures marked { IfOk result (λ found. found ≡ None
        → AreMarked (part_no (KeyedShape areas.old.part)) areas.old.part.first areas.new.areas
        taken.old taken.new) }
    ensures whole { IfOk result (λ found. found ≡ None → AreWhole areas.new) }
    ensures knows { IsTrue B.tells → IfOk result (λ found. found ≡ None
        → KnowsAreas areas.old.part areas.new.areas areas.new.ends (B.seen blocks.old).cur) }
    ensures counted { IsTrue B.tells → IfOk result (λ found. found ≡ None
        → areas.new.intervals ≡ intervals_in areas.old.part (B.seen blocks.old).cur) }
    ensures found { IsTrue B.tells → IfOk result (λ found. MatchOption found
        (Stands (KeyedShape areas.old.part) (B.seen blocks.old).cur)
        (λ damage. IsLinkedDamagedAt areas.old.part (IsTakenIn taken.old) (B.seen blocks.old).cur
        damage.block damage.rule)) }
    ensures count { length taken.new ≡ length taken.old }
    ensures part { areas.new.part ≡ areas.old.part }
    ensures top { length top.new ≡ length top.old }
    ensures keeps { Keeps B.tells (B.seen blocks.old) (B.seen blocks.new) }
    ensures cause { HasCause (B.faults blocks.old) (B.faults blocks.new) result }
{
    let mut area = areas.layout().first;
    loop {
        match step(blocks, areas, taken, area, top)? {
            Ok(Some(next)) => area = next,
            Ok(None) => return Ok(None),
            Err(damage) => return Ok(Some(damage)),
        }
    }
}
