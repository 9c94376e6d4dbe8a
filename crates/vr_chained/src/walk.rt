//! The walk over the areas of a chain: each roster, and then each interval that is used.
ghost use Rattle.std.specs.Prelude.{◌≡◌, ◌≢◌, ◌<◌, ◌≤◌, ◌+◌, ◌++◌, ◌∷◌, [], ℕ, Bool, List, Option};
ghost use Rattle.std.specs.Prelude.{Some, None, IsTrue, IfOk, IfErr, IfSome, OnOk, MatchOption};
ghost use Rattle.std.specs.Prelude.{false, length, slice_index_or, slice_set};
ghost use Rattle.vr_types.specs.Blocks.{Keeps};
ghost use Rattle.vr_types.specs.Faults.{HasCause};
ghost use Rattle.vr_types.specs.Geometry.{area_count};
ghost use Rattle.vr_types.specs.Image.{block_at};
ghost use Rattle.vr_types.specs.Space.{free_count};
ghost use Rattle.vr_types.specs.declared.unit.PartNo.{PartNo as PartNumber};
ghost use Rattle.vr_space.specs.Part.{NumberedShape, part_no};
ghost use Rattle.vr_space.specs.Rosters.{interval_in, roster_at, roster_block};
ghost use Rattle.vr_space.specs.Numbered.{IsFilled, IsNumberedOn};
ghost use Rattle.vr_attach.specs.Chain.{IsAreaSound, IsChainDamagedAt, IsRosterSound, FilledBreaks};
ghost use Rattle.vr_attach.specs.Damage.{IsLeastBroken};
ghost use Rattle.vr_attach.specs.Marked.{IsTakenIn};
ghost use Rattle.vr_attach.specs.declared.rule.Rule.TheVariants as rules;
ghost use Rattle.vr_chained.specs.Walked.{AreChainMarked, IsAreaBad, IsBadUnder, IsOpen};
ghost use Rattle.vr_chained.specs.Walked.{IsReadOf, IsWalkedAt, IsWalkedBy, IsWalkedOver};

use crate::chain::Chain;
use crate::rules::{AreaRoster, filled_rule, roster_of};
use vr_attach::{Damage, Rule, take_area};
use vr_space::{ChainLayout, read_block};
use vr_types::{Blocks, DeviceFault, Space};

/// The least rule that an interval of an area breaks.
fn rule_at<B: Blocks>(
    blocks: &mut B,
    layout: &ChainLayout,
    area: u32,
    interval: u32,
) -> Result<Option<Rule>, DeviceFault>
    requires on { IsNumberedOn layout.now (B.seen blocks.old) }
    requires area { area < area_count layout.now.geometry }
    requires interval { interval < layout.now.geometry.area }
    ensures rule { IsTrue B.tells → IfOk result (λ rule. MatchOption rule
        (IsFilled layout.now
        (block_at (B.seen blocks.old).cur (interval_in layout.now area interval)))
        (IsLeastBroken (FilledBreaks layout.now
        (block_at (B.seen blocks.old).cur (interval_in layout.now area interval))))) }
    ensures keeps { Keeps B.tells (B.seen blocks.old) (B.seen blocks.new) }
    ensures cause { HasCause (B.faults blocks.old) (B.faults blocks.new) result }
{
    let block = blocks.get(layout.interval_in(area, interval))?;
    Ok(filled_rule(layout, block))
}

/// The damage of the first intervals of an area, so many of them, if there is one.
fn damage_under<B: Blocks>(
    blocks: &mut B,
    layout: &ChainLayout,
    area: u32,
    used: u32,
) -> Result<Option<Damage>, DeviceFault>
    requires on { IsNumberedOn layout.now (B.seen blocks.old) }
    requires area { area < area_count layout.now.geometry }
    requires used { used ≤ layout.now.geometry.area }
    ensures found { IsTrue B.tells → IfOk result (λ found. MatchOption found
        ((i : ℕ) → i < used → IsFilled layout.now
        (block_at (B.seen blocks.old).cur (interval_in layout.now area i)))
        (λ damage. IsBadUnder layout.now (B.seen blocks.old).cur area used
        damage.block damage.rule)) }
    ensures keeps { Keeps B.tells (B.seen blocks.old) (B.seen blocks.new) }
    ensures cause { HasCause (B.faults blocks.old) (B.faults blocks.new) result }
{
    for i in 0..used {
        match rule_at(blocks, layout, area, i)? {
            Some(rule) => {
                return Ok(Some(Damage {
                    block: layout.interval_in(area, i),
                    rule,
                }));
            }
            None => {}
        }
    }
    Ok(None)
}

/// What is read of the roster of an area, once each interval that it counts is read; or the first
/// damage. The roster is read into `top`.
fn walk_area<B: Blocks>(
    blocks: &mut B,
    layout: &ChainLayout,
    area: u32,
    top: &mut [u8],
) -> Result<Result<AreaRoster, Damage>, DeviceFault>
    requires on { IsNumberedOn layout.now (B.seen blocks.old) }
    requires area { area < area_count layout.now.geometry }
    requires top { length top.old ≡ layout.now.geometry.size }
    ensures read { IfOk result (λ found. IfOk found
        (λ roster. IsReadOf layout.now top.new roster.used roster.next)) }
    ensures same { IsTrue B.tells → OnOk result
        (top.new ≡ block_at (B.seen blocks.old).cur (roster_block layout.now area)) }
    ensures sound { IsTrue B.tells → IfOk result (λ found. OnOk found
        (IsAreaSound layout.now (B.seen blocks.old).cur area)) }
    ensures bad { IsTrue B.tells → IfOk result (λ found. IfErr found (λ damage.
        IsAreaBad layout.now (B.seen blocks.old).cur area damage.block damage.rule)) }
    ensures top { length top.new ≡ length top.old }
    ensures keeps { Keeps B.tells (B.seen blocks.old) (B.seen blocks.new) }
    ensures cause { HasCause (B.faults blocks.old) (B.faults blocks.new) result }
{
    let block = layout.roster_block(area);
    read_block(blocks, block, top)?;
    match roster_of(layout, top) {
        Err(rule) => Ok(Err(Damage { block, rule })),
        Ok(roster) => match damage_under(blocks, layout, area, roster.used)? {
            Some(damage) => Ok(Err(damage)),
            None => Ok(Ok(roster)),
        },
    }
}

/// Goes on to the area that the last one leads to; or its damage, where that one has an owner.
fn go_on(chain: &mut Chain, taken: &mut Space, next: u32) -> Result<(), Damage>
    requires there { next < area_count chain.old.part.geometry }
    requires count { length taken.old ≡ area_count chain.old.part.geometry }
    requires room { length chain.old.areas + free_count taken.old
        ≤ area_count chain.old.part.geometry }
    ensures chain { OnOk result (chain.new ≡ record {
      part = chain.old.part;
      areas = chain.old.areas ++ next ∷ [];
      used = chain.old.used;
    }) }
    ensures free { OnOk result (slice_index_or taken.old next None ≡ None) }
    ensures fewer { OnOk result (free_count taken.new + 1 ≡ free_count taken.old) }
    ensures taken { taken.new
        ≡ slice_set taken.old next (Some (part_no (NumberedShape chain.old.part))) }
    ensures owned { IfErr result (λ damage. IsTakenIn taken.old next) }
    ensures block { IfErr result (λ damage. damage.block ≡ roster_block chain.old.part next) }
    ensures rule { IfErr result (λ damage. damage.rule ≡ rules.AreaTwice) }
    ensures part { chain.new.part ≡ chain.old.part }
{
    let part = chain.layout().part;
    if !take_area(taken, next, part) {
        return Err(Damage {
            block: chain.layout().roster_block(next),
            rule: Rule::AreaTwice,
        });
    }
    chain.add_area(next);
    Ok(())
}

/// Walks the last area, and goes on to the one that it leads to: whether there is one. Else the
/// first damage.
fn step<B: Blocks>(
    blocks: &mut B,
    chain: &mut Chain,
    taken: &mut Space,
    top: &mut [u8],
) -> Result<Result<bool, Damage>, DeviceFault>
    requires on { IsNumberedOn chain.old.part (B.seen blocks.old) }
    requires top { length top.old ≡ chain.old.part.geometry.size }
    requires ready { IsOpen chain.old taken.old }
    ensures ready { IfOk result (λ found. IfOk found (λ more. IsTrue more
        → IsOpen chain.new taken.new)) }
    ensures longer { IfOk result (λ found. IfOk found (λ more. IsTrue more
        → length chain.new.areas ≡ length chain.old.areas + 1)) }
    ensures marked { (before : List (Option PartNumber))
        → AreChainMarked chain.old.part chain.old.areas before taken.old
        → IfOk result (λ found. OnOk found
        (AreChainMarked chain.old.part chain.new.areas before taken.new)) }
    ensures walked { IsTrue B.tells → (before : List (Option PartNumber))
        → AreChainMarked chain.old.part chain.old.areas before taken.old
        → IsWalkedAt (IsTakenIn before) (B.seen blocks.old).cur chain.old
        → IfOk result (λ found. IfOk found (λ more.
        IsWalkedBy more (IsTakenIn before) (B.seen blocks.old).cur chain.new)) }
    ensures bad { IsTrue B.tells → (before : List (Option PartNumber))
        → AreChainMarked chain.old.part chain.old.areas before taken.old
        → IsWalkedAt (IsTakenIn before) (B.seen blocks.old).cur chain.old
        → IfOk result (λ found. IfErr found (λ damage.
        IsChainDamagedAt chain.old.part (IsTakenIn before) (B.seen blocks.old).cur
        damage.block damage.rule)) }
    ensures count { length taken.new ≡ length taken.old }
    ensures part { chain.new.part ≡ chain.old.part }
    ensures top { length top.new ≡ length top.old }
    ensures keeps { Keeps B.tells (B.seen blocks.old) (B.seen blocks.new) }
    ensures cause { HasCause (B.faults blocks.old) (B.faults blocks.new) result }
{
    let roster = match walk_area(blocks, chain.layout(), chain.last(), top)? {
        Ok(roster) => roster,
        Err(damage) => return Ok(Err(damage)),
    };
    chain.use_more(roster.used);
    let Some(next) = roster.next else {
        return Ok(Ok(false));
    };
    match go_on(chain, taken, next) {
        Ok(()) => Ok(Ok(true)),
        Err(damage) => Ok(Err(damage)),
    }
}

/// Walks over a chain of which there is the first area alone: then it is the one of the blocks, and
/// its areas are marked. Else the first damage. Each roster is read into `top`. It ends, since each
/// area that it goes on to was free.
pub(crate) fn walk<B: Blocks>(
    blocks: &mut B,
    chain: &mut Chain,
    taken: &mut Space,
    top: &mut [u8],
) -> Result<Option<Damage>, DeviceFault>
    requires on { IsNumberedOn chain.old.part (B.seen blocks.old) }
    requires top { length top.old ≡ chain.old.part.geometry.size }
    requires ready { IsOpen chain.old taken.old }
    ensures marked { (before : List (Option PartNumber))
        → AreChainMarked chain.old.part chain.old.areas before taken.old
        → IfOk result (λ found. found ≡ None
        → AreChainMarked chain.old.part chain.new.areas before taken.new) }
    ensures found { IsTrue B.tells → (before : List (Option PartNumber))
        → AreChainMarked chain.old.part chain.old.areas before taken.old
        → IsWalkedAt (IsTakenIn before) (B.seen blocks.old).cur chain.old
        → IfOk result (λ found. MatchOption found
        (IsWalkedOver (B.seen blocks.old).cur chain.new)
        (λ damage. IsChainDamagedAt chain.old.part (IsTakenIn before) (B.seen blocks.old).cur
        damage.block damage.rule)) }
    ensures count { length taken.new ≡ length taken.old }
    ensures part { chain.new.part ≡ chain.old.part }
    ensures top { length top.new ≡ length top.old }
    ensures keeps { Keeps B.tells (B.seen blocks.old) (B.seen blocks.new) }
    ensures cause { HasCause (B.faults blocks.old) (B.faults blocks.new) result }
{
    loop {
        match step(blocks, chain, taken, top)? {
            Ok(true) => {}
            Ok(false) => return Ok(None),
            Err(damage) => return Ok(Some(damage)),
        }
    }
}
