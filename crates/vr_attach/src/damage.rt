//! The walk over the intervals of a head, each of an entry.
ghost use Rattle.std.specs.Prelude.{◌<◌, ℕ, IsTrue, IfOk, MatchOption, length};
ghost use Rattle.vr_types.specs.Image.{block_at};
ghost use Rattle.vr_types.specs.Blocks.{Keeps};
ghost use Rattle.vr_types.specs.Faults.{HasCause};
ghost use Rattle.vr_space.specs.AreaCalls.{IsAreaOn};
ghost use Rattle.vr_space.specs.Keyed.{HoldsRange, InArea, IsHead, entries_of};
ghost use Rattle.vr_space.specs.Lent.{range_lent};
ghost use Rattle.vr_attach.specs.Damage.{HoldsNth, IntervalBreaks, IsBadInterval, IsLeastBroken};

use crate::interval::interval_rule;
use crate::rule::Rule;
use vr_space::{Layout, LentRange, entry_at, entry_count};
use vr_types::{Blocks, DeviceFault};

/// The first block of a part that breaks a rule, and the least rule that it breaks.
#[derive(Clone, Copy, PartialEq, Eq)]
pub struct Damage {
    pub block: u32,
    pub rule: Rule,
}

/// The least rule that the interval of a block breaks.
fn rule_at<B: Blocks>(
    blocks: &mut B,
    layout: &Layout,
    number: u32,
    range: &LentRange<'_>,
) -> Result<Option<Rule>, DeviceFault>
    requires on { IsAreaOn layout.now (B.seen blocks.old) }
    requires inside { InArea layout.now number }
    ensures rule { IsTrue B.tells → IfOk result (λ rule. MatchOption rule
        (HoldsRange layout.now (range_lent range.now) (block_at (B.seen blocks.old).cur number))
        (IsLeastBroken (IntervalBreaks layout.now (range_lent range.now)
        (block_at (B.seen blocks.old).cur number)))) }
    ensures keeps { Keeps B.tells (B.seen blocks.old) (B.seen blocks.new) }
    ensures cause { HasCause (B.faults blocks.old) (B.faults blocks.new) result }
{
    let block = blocks.get(number)?;
    Ok(interval_rule(layout, range, block))
}

/// The damage of the interval of the entry of a number, if it has one.
fn damage_at<B: Blocks>(
    blocks: &mut B,
    layout: &Layout,
    top: &[u8],
    number: usize,
) -> Result<Option<Damage>, DeviceFault>
    requires on { IsAreaOn layout.now (B.seen blocks.old) }
    requires head { IsHead layout.now top.now }
    requires within { number < length (entries_of top.now) }
    ensures holds { IsTrue B.tells → IfOk result (λ found. MatchOption found
        (HoldsNth layout.now top.now (B.seen blocks.old).cur number)
        (λ damage. ((i : ℕ) → i < number → HoldsNth layout.now top.now (B.seen blocks.old).cur i)
        → IsBadInterval layout.now top.now (B.seen blocks.old).cur damage.block damage.rule)) }
    ensures keeps { Keeps B.tells (B.seen blocks.old) (B.seen blocks.new) }
    ensures cause { HasCause (B.faults blocks.old) (B.faults blocks.new) result }
{
    let Some(found) = entry_at(layout, top, number) else {
        return Ok(None);
    };
    let block = layout.block_of(found.interval);
    let range = LentRange {
        low: found.low,
        high: found.high,
    };
    match rule_at(blocks, layout, block, &range)? {
        Some(rule) => Ok(Some(Damage { block, rule })),
        None => Ok(None),
    }
}

/// The first damage of the intervals of a head, if there is one.
pub(crate) fn damage_under<B: Blocks>(
    blocks: &mut B,
    layout: &Layout,
    top: &[u8],
) -> Result<Option<Damage>, DeviceFault>
    requires on { IsAreaOn layout.now (B.seen blocks.old) }
    requires head { IsHead layout.now top.now }
    ensures found { IsTrue B.tells → IfOk result (λ found. MatchOption found
        ((i : ℕ) → i < length (entries_of top.now)
        → HoldsNth layout.now top.now (B.seen blocks.old).cur i)
        (λ damage. IsBadInterval layout.now top.now (B.seen blocks.old).cur
        damage.block damage.rule)) }
    ensures keeps { Keeps B.tells (B.seen blocks.old) (B.seen blocks.new) }
    ensures cause { HasCause (B.faults blocks.old) (B.faults blocks.new) result }
{
    let count = entry_count(layout, top).unwrap_or(0);
    for i in 0..count {
        match damage_at(blocks, layout, top, i)? {
            Some(damage) => return Ok(Some(damage)),
            None => {}
        }
    }
    Ok(None)
}
