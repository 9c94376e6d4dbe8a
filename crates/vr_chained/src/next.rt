//! Searching for the next place with a record.
ghost use Rattle.std.specs.Prelude.{◌≡◌, ◌≤◌, ◌<◌, ◌+◌, ◌*◌, None, IsTrue, IfOk, IfSome};
ghost use Rattle.vr_types.specs.Blocks.{Keeps};
ghost use Rattle.vr_types.specs.Faults.{HasCause};
ghost use Rattle.vr_space.specs.Part.{NextIs, NumberedShape, Stands};
ghost use Rattle.vr_space.specs.Numbered.{IsNumberedOn, span_of, start_of};
ghost use Rattle.vr_chained.specs.Chain.{IsChainOf};
ghost use Rattle.vr_chained.specs.Searched.{HasNoneRead, IsFirstRead};

use crate::chain::Chain;
use crate::filled::first_held;
use crate::number::first_number;
use vr_space::Whence;
use vr_types::{Blocks, DeviceFault, PlaceBuffer};

/// The number of the first place with a record of an interval, from one of its places on.
fn first_in<B: Blocks>(
    chain: &Chain,
    blocks: &mut B,
    interval: u32,
    at: u32,
) -> Result<Option<u32>, DeviceFault>
    requires on { IsNumberedOn chain.now.part (B.seen blocks.old) }
    requires used { interval < chain.now.used }
    requires stands { IsTrue B.tells
        → Stands (NumberedShape chain.now.part) (B.seen blocks.old).cur }
    requires chain { IsTrue B.tells → IsChainOf chain.now (B.seen blocks.old).cur }
    ensures some { IsTrue B.tells → IfOk result (λ found. IfSome found
        (IsFirstRead chain.now.part (B.seen blocks.old).cur
        (start_of chain.now.part + interval * span_of chain.now.part + at)
        (start_of chain.now.part + (interval + 1) * span_of chain.now.part))) }
    ensures none { IsTrue B.tells → IfOk result (λ found. found ≡ None
        → HasNoneRead chain.now.part (B.seen blocks.old).cur
        (start_of chain.now.part + interval * span_of chain.now.part + at)
        (start_of chain.now.part + (interval + 1) * span_of chain.now.part)) }
    ensures keeps { Keeps B.tells (B.seen blocks.old) (B.seen blocks.new) }
    ensures cause { HasCause (B.faults blocks.old) (B.faults blocks.new) result }
{
    let Some(number) = chain.block_of(interval) else {
        return Ok(None);
    };
    let block = blocks.get(number)?;
    match first_held(&chain.layout, block, at) {
        Some(found) => Ok(Some(chain.number_of(interval, found))),
        None => Ok(None),
    }
}

/// The number of the first place with a record, from this number on: interval by interval, each
/// read once.
fn first_from<B: Blocks>(
    chain: &Chain,
    blocks: &mut B,
    number: u32,
) -> Result<Option<u32>, DeviceFault>
    requires on { IsNumberedOn chain.now.part (B.seen blocks.old) }
    requires some { start_of chain.now.part ≤ number }
    requires stands { IsTrue B.tells
        → Stands (NumberedShape chain.now.part) (B.seen blocks.old).cur }
    requires chain { IsTrue B.tells → IsChainOf chain.now (B.seen blocks.old).cur }
    ensures some { IsTrue B.tells → IfOk result (λ found. IfSome found
        (IsFirstRead chain.now.part (B.seen blocks.old).cur number 4294967296)) }
    ensures none { IsTrue B.tells → IfOk result (λ found. found ≡ None
        → HasNoneRead chain.now.part (B.seen blocks.old).cur number 4294967296) }
    ensures keeps { Keeps B.tells (B.seen blocks.old) (B.seen blocks.new) }
    ensures cause { HasCause (B.faults blocks.old) (B.faults blocks.new) result }
{
    let mut at = chain.at_in(number);
    for interval in chain.interval_of(number)..chain.used() {
        if let Some(found) = first_in(chain, blocks, interval, at)? {
            return Ok(Some(found));
        }
        at = 0;
    }
    Ok(None)
}

/// Gives the least place with a record that `from` allows; false where there is none.
pub(crate) fn next_in<B: Blocks>(
    chain: &Chain,
    blocks: &mut B,
    from: Whence<'_>,
    into: &mut PlaceBuffer,
) -> Result<bool, DeviceFault>
    requires on { IsNumberedOn chain.now.part (B.seen blocks.old) }
    requires room { 4 ≤ into.old.room }
    requires stands { IsTrue B.tells
        → Stands (NumberedShape chain.now.part) (B.seen blocks.old).cur }
    requires chain { IsTrue B.tells → IsChainOf chain.now (B.seen blocks.old).cur }
    ensures next { IsTrue B.tells → IfOk result (λ found. NextIs (NumberedShape chain.now.part)
        (B.seen blocks.old).cur from.entry found into.new.place) }
    ensures room { into.new.room ≡ into.old.room }
    ensures keeps { Keeps B.tells (B.seen blocks.old) (B.seen blocks.new) }
    ensures cause { HasCause (B.faults blocks.old) (B.faults blocks.new) result }
{
    let Some(number) = first_number(from, chain.layout.start()) else {
        return Ok(false);
    };
    let Some(found) = first_from(chain, blocks, number)? else {
        return Ok(false);
    };
    into.set(&found.to_be_bytes());
    Ok(true)
}
