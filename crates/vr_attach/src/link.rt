//! The rules of the head of an area of a chain, and the walk over the blocks of such an area.
ghost use Rattle.std.specs.Prelude.{◌≡◌, ◌<◌, ◌↔◌, ℕ, List, IsTrue, IfErr, IfOk, MatchOption, None};
ghost use Rattle.std.specs.Prelude.{OnOk, Some, length, replicate};
ghost use Rattle.vr_types.specs.Blocks.{Keeps};
ghost use Rattle.vr_types.specs.Faults.{HasCause};
ghost use Rattle.vr_types.specs.Image.{block_at};
ghost use Rattle.vr_seqset.specs.Reading.{record_in};
ghost use Rattle.vr_space.specs.AreaCalls.{IsAreaOn};
ghost use Rattle.vr_space.specs.Keyed.{last_high, low_in};
ghost use Rattle.vr_attach.specs.Damage.{IsLeastBroken, SpellsRecord};
ghost use Rattle.vr_attach.specs.Linked.{IsGoodTop, IsKeyedAreaBad, IsKeyedAreaSound, LinkBreaks};
ghost use Rattle.vr_attach.specs.Linked.{low_lent};

use crate::damage::{Damage, damage_under};
use crate::head::{are_single, is_greatest, is_of_part, is_placed, names_areas};
use crate::rule::Rule;
use vr_seqset::SeqView;
use vr_space::{Layout, read_block};
use vr_types::{Blocks, DeviceFault};

/// Whether the ranges of a record begin at a place: nowhere in the first of a chain.
fn begins_at(view: &SeqView<'_>, low: Option<&[u8]>) -> bool
    ensures { IsTrue result ↔ (low_in view.now ≡ low_lent low.entry) }
{
    match low {
        Some(low) => !view.first() && view.low() == low,
        None => view.first(),
    }
}

/// Whether a record names a next area, or its ranges end at the greatest place.
fn is_followed(layout: &Layout, view: &SeqView<'_>) -> bool
    requires { 0 < length view.now.entries }
    ensures { IsTrue result ↔ (view.now.next ≡ None
        → last_high view.now.entries ≡ Some (replicate layout.now.key 255)) }
{
    view.next().is_some() || is_greatest(view.high(view.count() - 1), layout.key)
}

/// The same as `link_rule`, of a head that was read.
fn record_link(
    layout: &Layout,
    area: u32,
    areas: u32,
    low: Option<&[u8]>,
    view: &SeqView<'_>,
) -> Option<Rule>
    requires { 0 < length view.now.entries }
    ensures { (top : List ℕ) → SpellsRecord layout.now top → record_in top ≡ view.now
        → MatchOption result (IsGoodTop layout.now area areas (low_lent low.entry) top)
        (IsLeastBroken (LinkBreaks layout.now area areas (low_lent low.entry) top)) }
{
    if !names_areas(view, areas) {
        return Some(Rule::AreaNumber);
    }
    if view.next() == Some(area) {
        return Some(Rule::AreaTwice);
    }
    if !is_placed(view, low.is_none()) || !are_single(view.entries()) {
        return Some(Rule::SequenceSet);
    }
    if !is_of_part(layout, view) {
        return Some(Rule::PartNumber);
    }
    if !begins_at(view, low) || !is_followed(layout, view) {
        return Some(Rule::Places);
    }
    None
}

/// The area that comes next by the head of an area, which is `area` of `areas`, if there is one; or
/// the least rule that the head breaks where its ranges are to begin at the low place.
fn next_link(
    layout: &Layout,
    area: u32,
    areas: u32,
    low: Option<&[u8]>,
    top: &[u8],
) -> Result<Option<u32>, Rule>
    requires { length top.now ≡ layout.now.size }
    ensures good { OnOk result (IsGoodTop layout.now area areas (low_lent low.entry) top.now) }
    ensures next { IfOk result (λ next. next ≡ (record_in top.now).next) }
    ensures broken { IfErr result
        (IsLeastBroken (LinkBreaks layout.now area areas (low_lent low.entry) top.now)) }
{
    match SeqView::read(top, layout.area) {
        Ok(view) => match record_link(layout, area, areas, low, &view) {
            Some(rule) => Err(rule),
            None => Ok(view.next()),
        },
        Err(_) => Err(Rule::SequenceSet),
    }
}

/// The least rule that the head of an area breaks, which is `area` of a volume with `areas` areas,
/// where its ranges are to begin at the low place: None for the first of a chain.
pub fn link_rule(
    layout: &Layout,
    area: u32,
    areas: u32,
    low: Option<&[u8]>,
    top: &[u8],
) -> Option<Rule>
    requires { length top.now ≡ layout.now.size }
    ensures { MatchOption result (IsGoodTop layout.now area areas (low_lent low.entry) top.now)
        (IsLeastBroken (LinkBreaks layout.now area areas (low_lent low.entry) top.now)) }
{
    next_link(layout, area, areas, low, top).err()
}

/// Walks over an area of a chain, which is `area` of `areas`, and whose ranges are to begin at the
/// low place: the area that comes next, if there is one, once the interval of each entry is read;
/// or the first block that breaks a rule, and the least rule that it breaks. It reads each block
/// once, the head into `top`.
pub fn walk_area<B: Blocks>(
    blocks: &mut B,
    layout: &Layout,
    area: u32,
    areas: u32,
    low: Option<&[u8]>,
    top: &mut [u8],
) -> Result<Result<Option<u32>, Damage>, DeviceFault>
    requires on { IsAreaOn layout.now (B.seen blocks.old) }
    requires top { length top.old ≡ layout.now.size }
    ensures good { IfOk result (λ found. OnOk found
        (IsGoodTop layout.now area areas (low_lent low.entry) top.new)) }
    ensures next { IfOk result (λ found. IfOk found (λ next. next ≡ (record_in top.new).next)) }
    ensures same { IsTrue B.tells → OnOk result
        (top.new ≡ block_at (B.seen blocks.old).cur layout.now.head) }
    ensures sound { IsTrue B.tells → IfOk result (λ found. OnOk found
        (IsKeyedAreaSound layout.now area areas (low_lent low.entry) (B.seen blocks.old).cur)) }
    ensures bad { IsTrue B.tells → IfOk result (λ found. IfErr found (λ damage.
        IsKeyedAreaBad layout.now area areas (low_lent low.entry) (B.seen blocks.old).cur
        damage.block damage.rule)) }
    ensures top { length top.new ≡ length top.old }
    ensures keeps { Keeps B.tells (B.seen blocks.old) (B.seen blocks.new) }
    ensures cause { HasCause (B.faults blocks.old) (B.faults blocks.new) result }
{
    read_block(blocks, layout.head, top)?;
    match next_link(layout, area, areas, low, top) {
        Err(rule) => Ok(Err(Damage {
            block: layout.head,
            rule,
        })),
        Ok(next) => match damage_under(blocks, layout, top)? {
            Some(damage) => Ok(Err(damage)),
            None => Ok(Ok(next)),
        },
    }
}
