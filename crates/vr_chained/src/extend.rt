//! One interval more at the end of the chain, in its last area or in one that is claimed.
ghost use Rattle.std.specs.Prelude.{◌≡◌, ◌≢◌, ◌<◌, ◌≤◌, ◌+◌, ◌*◌, ◌++◌, ◌∷◌, [], List, All, Option};
ghost use Rattle.std.specs.Prelude.{Some, IsTrue, OnErr};
ghost use Rattle.std.specs.Prelude.{OnOk, length};
ghost use Rattle.vr_types.specs.Blocks.{Puts};
ghost use Rattle.vr_types.specs.Faults.{HasWriteCause};
ghost use Rattle.vr_types.specs.Fields.{IsArea};
ghost use Rattle.vr_types.specs.Geometry.{area_count};
ghost use Rattle.vr_types.specs.Seen.{Only};
ghost use Rattle.vr_types.specs.Space.{least_free};
ghost use Rattle.vr_types.specs.declared.unit.StageKind.TheVariants as stages;
ghost use Rattle.vr_types.specs.declared.unit.PartNo.{PartNo};
ghost use Rattle.vr_space.specs.Part.{HasKeptRoom, IsQuiet, KeepsChain, OwnersAfter, NumberedShape};
ghost use Rattle.vr_space.specs.Part.{part_no};
ghost use Rattle.vr_space.specs.Room.{Lengths};
ghost use Rattle.vr_space.specs.Rosters.{interval_in, roster_block};
ghost use Rattle.vr_space.specs.Numbered.{IsNumberedOn};
ghost use Rattle.vr_chained.specs.Chain.{IsChainOf};
ghost use Rattle.vr_chained.specs.Extended.{IsExtended, IsMadeRoster, IsMoreDue, MayExtend};
ghost use Rattle.vr_chained.specs.Filled.{IsUnfilled};

use crate::chain::Chain;
use crate::filled::write_unfilled;
use vr_seqset::write_roster;
use vr_types::{Blocks, DeviceFault, Space, settle};

/// Makes an interval of an area empty, and forces it. `sample` is any block.
fn put_empty<B: Blocks>(
    chain: &Chain,
    blocks: &mut B,
    area: u32,
    interval: u32,
    sample: &[u8],
    out: &mut [u8],
) -> Result<(), DeviceFault>
    requires on { IsNumberedOn chain.now.part (B.seen blocks.old) }
    requires area { area < area_count chain.now.part.geometry }
    requires interval { interval < chain.now.part.geometry.area }
    requires sample { length sample.now ≡ chain.now.part.geometry.size }
    requires out { length out.old ≡ chain.now.part.geometry.size }
    ensures empty { IsUnfilled chain.now.part out.new }
    ensures ok { IsTrue B.tells → OnOk result (Only (B.seen blocks.new)
        (interval_in chain.now.part area interval) (λ block. block ≡ out.new)) }
    ensures after { Puts B.tells (interval_in chain.now.part area interval) out.new
        (B.seen blocks.old) (B.seen blocks.new) }
    ensures out { length out.new ≡ length out.old }
    ensures cause { HasWriteCause (B.faults blocks.old) (B.faults blocks.new) result }
{
    write_unfilled(chain.layout(), sample, out);
    settle(blocks, chain.layout().interval_in(area, interval), out)
}

/// Writes the roster of an area, and forces it.
fn put_roster<B: Blocks>(
    chain: &Chain,
    blocks: &mut B,
    area: u32,
    used: u32,
    next: Option<u32>,
    out: &mut [u8],
) -> Result<(), DeviceFault>
    requires on { IsNumberedOn chain.now.part (B.seen blocks.old) }
    requires area { area < area_count chain.now.part.geometry }
    requires used { used ≤ chain.now.part.geometry.area }
    requires next { IsArea next }
    requires out { length out.old ≡ chain.now.part.geometry.size }
    ensures roster { IsMadeRoster chain.now.part used next out.new }
    ensures ok { IsTrue B.tells → OnOk result (Only (B.seen blocks.new)
        (roster_block chain.now.part area) (λ block. block ≡ out.new)) }
    ensures after { Puts B.tells (roster_block chain.now.part area) out.new
        (B.seen blocks.old) (B.seen blocks.new) }
    ensures out { length out.new ≡ length out.old }
    ensures cause { HasWriteCause (B.faults blocks.old) (B.faults blocks.new) result }
{
    let layout = chain.layout();
    let part = layout.part.0;
    write_roster(used as u16, part, next, layout.geometry.area as u16, out);
    settle(blocks, layout.roster_block(area), out)
}

/// The next interval of the last area is written empty and forced, then the roster that counts it.
fn add_interval<B: Blocks>(
    chain: &mut Chain,
    blocks: &mut B,
    sample: &[u8],
    out: &mut [u8],
) -> Result<(), DeviceFault>
    requires on { IsNumberedOn chain.old.part (B.seen blocks.old) }
    requires sample { length sample.now ≡ chain.old.part.geometry.size }
    requires out { length out.old ≡ chain.old.part.geometry.size }
    requires unused { chain.old.used < length chain.old.areas * chain.old.part.geometry.area }
    requires chain { IsTrue B.tells → IsChainOf chain.old (B.seen blocks.old).cur }
    ensures may { IsTrue B.tells → (areas : List (Option PartNo)) (kept : Lengths)
        → HasKeptRoom (NumberedShape chain.old.part) kept (B.seen blocks.old)
        → IsQuiet (NumberedShape chain.old.part) (B.seen blocks.old)
        → MayExtend chain.old.part areas kept (B.seen blocks.old) (B.seen blocks.new) }
    ensures done { IsTrue B.tells → OnOk result ((areas : List (Option PartNo))
        → IsQuiet (NumberedShape chain.old.part) (B.seen blocks.old)
        → IsExtended chain.old.part areas areas (B.seen blocks.old) (B.seen blocks.new)
        × IsChainOf chain.new (B.seen blocks.new).cur) }
    ensures more { OnOk result (chain.new ≡ record {
      part = chain.old.part;
      areas = chain.old.areas;
      used = chain.old.used + 1;
    }) }
    ensures stays { OnErr result (chain.new ≡ chain.old) }
    ensures part { chain.new.part ≡ chain.old.part }
    ensures out { length out.new ≡ length out.old }
    ensures count { (B.seen blocks.new).count ≡ (B.seen blocks.old).count }
    ensures size { (B.seen blocks.new).size ≡ (B.seen blocks.old).size }
    ensures cause { HasWriteCause (B.faults blocks.old) (B.faults blocks.new) result }
{
    let last = chain.last();
    let used = chain.used_of_last();
    put_empty(chain, blocks, last, used, sample, out)?;
    put_roster(chain, blocks, last, used + 1, None, out)?;
    chain.use_next();
    Ok(())
}

/// An area that the chain doesn't have is written with one empty interval and forced; then the
/// roster of the last area leads to it, and is forced.
fn link_area<B: Blocks>(
    chain: &mut Chain,
    blocks: &mut B,
    area: u32,
    sample: &[u8],
    out: &mut [u8],
) -> Result<(), DeviceFault>
    requires on { IsNumberedOn chain.old.part (B.seen blocks.old) }
    requires sample { length sample.now ≡ chain.old.part.geometry.size }
    requires out { length out.old ≡ chain.old.part.geometry.size }
    requires there { area < area_count chain.old.part.geometry }
    requires room { length chain.old.areas < area_count chain.old.part.geometry }
    requires apart { All (λ other. other ≢ area) chain.old.areas }
    requires whole { chain.old.used ≡ length chain.old.areas * chain.old.part.geometry.area }
    requires chain { IsTrue B.tells → IsChainOf chain.old (B.seen blocks.old).cur }
    ensures may { IsTrue B.tells → (areas : List (Option PartNo)) (kept : Lengths)
        → least_free areas ≡ Some area
        → HasKeptRoom (NumberedShape chain.old.part) kept (B.seen blocks.old)
        → IsQuiet (NumberedShape chain.old.part) (B.seen blocks.old)
        → MayExtend chain.old.part areas kept (B.seen blocks.old) (B.seen blocks.new) }
    ensures done { IsTrue B.tells → OnOk result ((areas after : List (Option PartNo))
        → least_free areas ≡ Some area → after ≢ areas
        → IsQuiet (NumberedShape chain.old.part) (B.seen blocks.old)
        → IsExtended chain.old.part areas after (B.seen blocks.old) (B.seen blocks.new)
        × IsChainOf chain.new (B.seen blocks.new).cur) }
    ensures more { OnOk result (chain.new ≡ record {
      part = chain.old.part;
      areas = chain.old.areas ++ area ∷ [];
      used = chain.old.used + 1;
    }) }
    ensures stays { OnErr result (chain.new ≡ chain.old) }
    ensures part { chain.new.part ≡ chain.old.part }
    ensures out { length out.new ≡ length out.old }
    ensures count { (B.seen blocks.new).count ≡ (B.seen blocks.old).count }
    ensures size { (B.seen blocks.new).size ≡ (B.seen blocks.old).size }
    ensures cause { HasWriteCause (B.faults blocks.old) (B.faults blocks.new) result }
{
    put_empty(chain, blocks, area, 0, sample, out)?;
    put_roster(chain, blocks, area, 1, None, out)?;
    let last = chain.last();
    put_roster(chain, blocks, last, chain.intervals(), Some(area), out)?;
    chain.add_area(area);
    chain.use_next();
    Ok(())
}

/// An area more: the least free one is linked, then claimed. Where no area is free, nothing is
/// done.
fn add_area<B: Blocks>(
    chain: &mut Chain,
    blocks: &mut B,
    space: &mut Space,
    sample: &[u8],
    out: &mut [u8],
) -> Result<(), DeviceFault>
    requires on { IsNumberedOn chain.old.part (B.seen blocks.old) }
    requires sample { length sample.now ≡ chain.old.part.geometry.size }
    requires out { length out.old ≡ chain.old.part.geometry.size }
    requires whole { chain.old.used ≡ length chain.old.areas * chain.old.part.geometry.area }
    requires chain { IsTrue B.tells → IsChainOf chain.old (B.seen blocks.old).cur }
    ensures may { IsTrue B.tells → (kept : Lengths)
        → HasKeptRoom (NumberedShape chain.old.part) kept (B.seen blocks.old)
        → IsQuiet (NumberedShape chain.old.part) (B.seen blocks.old)
        → MayExtend chain.old.part space.old kept (B.seen blocks.old) (B.seen blocks.new) }
    ensures done { IsTrue B.tells → OnOk result
        (IsQuiet (NumberedShape chain.old.part) (B.seen blocks.old)
        → IsExtended chain.old.part space.old space.new (B.seen blocks.old) (B.seen blocks.new)
        × IsChainOf chain.new (B.seen blocks.new).cur) }
    ensures owners { OnOk result (OwnersAfter (part_no (NumberedShape chain.old.part))
        stages.Extend space.old space.new) }
    ensures owners_stay { OnErr result (space.new ≡ space.old) }
    ensures chain { OnOk result (KeepsChain (NumberedShape chain.old.part)
        chain.old.areas chain.new.areas space.old space.new) }
    ensures chain_stays { OnErr result (chain.new ≡ chain.old) }
    ensures more { IsTrue B.tells → IsMoreDue chain.old space.old (B.seen blocks.old)
        → OnOk result (chain.new.used ≡ chain.old.used + 1) }
    ensures used { chain.old.used ≤ chain.new.used }
    ensures part { chain.new.part ≡ chain.old.part }
    ensures out { length out.new ≡ length out.old }
    ensures count { (B.seen blocks.new).count ≡ (B.seen blocks.old).count }
    ensures size { (B.seen blocks.new).size ≡ (B.seen blocks.old).size }
    ensures cause { HasWriteCause (B.faults blocks.old) (B.faults blocks.new) result }
{
    let Some(area) = space.least_free() else {
        return Ok(());
    };
    if !chain.takes(area.0) {
        return Ok(());
    }
    link_area(chain, blocks, area.0, sample, out)?;
    space.mark(area, chain.layout().part);
    Ok(())
}

/// One interval more. `sample` is any block.
pub(crate) fn extend<B: Blocks>(
    chain: &mut Chain,
    blocks: &mut B,
    space: &mut Space,
    sample: &[u8],
    out: &mut [u8],
) -> Result<(), DeviceFault>
    requires on { IsNumberedOn chain.old.part (B.seen blocks.old) }
    requires sample { length sample.now ≡ chain.old.part.geometry.size }
    requires out { length out.old ≡ chain.old.part.geometry.size }
    requires chain { IsTrue B.tells → IsChainOf chain.old (B.seen blocks.old).cur }
    ensures may { IsTrue B.tells → (kept : Lengths)
        → HasKeptRoom (NumberedShape chain.old.part) kept (B.seen blocks.old)
        → IsQuiet (NumberedShape chain.old.part) (B.seen blocks.old)
        → MayExtend chain.old.part space.old kept (B.seen blocks.old) (B.seen blocks.new) }
    ensures done { IsTrue B.tells → OnOk result
        (IsQuiet (NumberedShape chain.old.part) (B.seen blocks.old)
        → IsExtended chain.old.part space.old space.new (B.seen blocks.old) (B.seen blocks.new)
        × IsChainOf chain.new (B.seen blocks.new).cur) }
    ensures owners { OnOk result (OwnersAfter (part_no (NumberedShape chain.old.part))
        stages.Extend space.old space.new) }
    ensures owners_stay { OnErr result (space.new ≡ space.old) }
    ensures chain { OnOk result (KeepsChain (NumberedShape chain.old.part)
        chain.old.areas chain.new.areas space.old space.new) }
    ensures chain_stays { OnErr result (chain.new ≡ chain.old) }
    ensures more { IsTrue B.tells → IsMoreDue chain.old space.old (B.seen blocks.old)
        → OnOk result (chain.new.used ≡ chain.old.used + 1) }
    ensures used { chain.old.used ≤ chain.new.used }
    ensures part { chain.new.part ≡ chain.old.part }
    ensures out { length out.new ≡ length out.old }
    ensures count { (B.seen blocks.new).count ≡ (B.seen blocks.old).count }
    ensures size { (B.seen blocks.new).size ≡ (B.seen blocks.old).size }
    ensures cause { HasWriteCause (B.faults blocks.old) (B.faults blocks.new) result }
{
    if chain.is_whole() {
        add_area(chain, blocks, space, sample, out)
    } else {
        add_interval(chain, blocks, sample, out)
    }
}
