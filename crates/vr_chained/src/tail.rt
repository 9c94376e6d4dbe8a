//! Where the last item of an entry-sequenced part ends, and so where the next one goes.
ghost use Rattle.std.specs.Prelude.{◌≡◌, ◌≢◌, ◌<◌, [], ℕ, List, false, None, Some, IsTrue, IfOk};
ghost use Rattle.std.specs.Prelude.{IfSome, bytes_eq};
ghost use Rattle.std.specs.Option.{option_map};
ghost use Rattle.vr_types.specs.Blocks.{Keeps};
ghost use Rattle.vr_types.specs.Faults.{HasCause};
ghost use Rattle.vr_types.specs.Fields.{four};
ghost use Rattle.vr_space.specs.Entries.{address_after};
ghost use Rattle.vr_space.specs.Numbered.{IsNumberPlace, IsNumberedOn, KnowsTail, interval_of};
ghost use Rattle.vr_space.specs.Numbered.{items_at};
ghost use Rattle.vr_space.specs.Part.{IsGiven, NumberedShape, Stands, given};
ghost use Rattle.vr_chained.specs.Chain.{IsChainOf, IsTailIn};
ghost use Rattle.vr_chained.specs.Setting.{room_before, tail_set};
ghost use Rattle.vr_chained.specs.Tail.{HasTaken, tail_of};

use crate::chain::Chain;
use crate::number::number_in;
use vr_entries::{Taken, taken_in};
use vr_types::{Blocks, DeviceFault};

/// The last interval with an item, by its number over the chain; the bytes of its items, and the
/// room that they need.
#[derive(Clone, Copy)]
pub struct Tail {
    pub interval: u32,
    pub bytes: u32,
    pub room: u32,
}

/// The address of the next record of this length, in bytes from the start of the part.
pub(crate) fn address_of(chain: &Chain, tail: Option<Tail>, length: u32) -> u32
    requires { IfSome (option_map tail_of tail) (IsTailIn chain.now) }
    ensures { result ≡ address_after chain.now.part (option_map tail_of tail) length }
{
    let Some(tail) = tail else {
        return 0;
    };
    let size = chain.layout.geometry.size;
    if u64::from(tail.room) + u64::from(length) + 3 <= u64::from(size - 4) {
        tail.interval * size + tail.bytes
    } else {
        (tail.interval + 1) * size
    }
}

/// Whether a place is where the next record of this length goes.
pub(crate) fn is_next(chain: &Chain, tail: Option<Tail>, place: &[u8], length: u32) -> bool
    requires place { IsNumberPlace chain.now.part place.now }
    requires tail { IfSome (option_map tail_of tail) (IsTailIn chain.now) }
    ensures { result ≡ bytes_eq place.now
        (four (address_after chain.now.part (option_map tail_of tail) length)) }
{
    number_in(chain.layout(), place) == address_of(chain, tail, length)
}

/// The room that the items before a place need in its interval.
fn room_to(chain: &Chain, tail: Option<Tail>, interval: u32) -> u32
    ensures { (place : List ℕ) → interval ≡ interval_of chain.now.part place
        → result ≡ room_before chain.now.part (option_map tail_of tail) place }
{
    match tail {
        Some(tail) => {
            if tail.interval == interval {
                tail.room
            } else {
                0
            }
        }
        None => 0,
    }
}

/// Where the last item ends once this is set at a place, where a block was put.
pub(crate) fn tail_after(
    chain: &Chain,
    tail: Option<Tail>,
    place: &[u8],
    bytes: Option<&[u8]>,
    put: Option<u32>,
) -> Option<Tail>
    requires place { IsNumberPlace chain.now.part place.now }
    requires tail { IfSome (option_map tail_of tail) (IsTailIn chain.now) }
    requires record { IsGiven (NumberedShape chain.now.part) place.now bytes }
    requires used { put ≢ None → interval_of chain.now.part place.now < chain.now.used }
    ensures tail { put ≢ None → option_map tail_of result
        ≡ tail_set chain.now.part (option_map tail_of tail) place.now (given bytes.entry) }
    ensures none { put ≡ None → result ≡ tail }
    ensures within { IfSome (option_map tail_of result) (IsTailIn chain.now) }
{
    let (Some(bytes), Some(_)) = (bytes, put) else {
        return tail;
    };
    if chain.layout.relative {
        return tail;
    }
    let length = bytes.len() as u32;
    if !is_next(chain, tail, place, length) {
        return tail;
    }
    let number = number_in(chain.layout(), place);
    let interval = chain.interval_of(number);
    Some(Tail {
        interval,
        bytes: chain.at_in(number) + length,
        room: room_to(chain, tail, interval) + length + 3,
    })
}

/// The tail of an interval whose items take this. None where there are none.
fn tail_with(interval: u32, taken: Taken) -> Option<Tail>
    ensures some { 0 < taken.count → result ≡ Some (record {
      interval = interval;
      bytes = taken.bytes;
      room = taken.room;
    }) }
    ensures none { taken.count ≡ 0 → result ≡ None }
{
    if taken.count == 0 {
        return None;
    }
    Some(Tail {
        interval,
        bytes: taken.bytes,
        room: taken.room,
    })
}

/// What the items of a used interval take. None where it has none.
fn tail_in<B: Blocks>(
    chain: &Chain,
    blocks: &mut B,
    interval: u32,
) -> Result<Option<Tail>, DeviceFault>
    requires on { IsNumberedOn chain.now.part (B.seen blocks.old) }
    requires used { interval < chain.now.used }
    requires entries { chain.now.part.relative ≡ false }
    requires stands { IsTrue B.tells
        → Stands (NumberedShape chain.now.part) (B.seen blocks.old).cur }
    requires chain { IsTrue B.tells → IsChainOf chain.now (B.seen blocks.old).cur }
    ensures none { IsTrue B.tells → IfOk result (λ tail. tail ≡ None
        → items_at chain.now.part (B.seen blocks.old).cur interval ≡ []) }
    ensures some { IsTrue B.tells → IfOk result (λ tail. IfSome (option_map tail_of tail)
        (HasTaken (items_at chain.now.part (B.seen blocks.old).cur interval))) }
    ensures interval { IfOk result (λ tail. IfSome tail (λ tail. tail.interval ≡ interval)) }
    ensures within { IfOk result (λ tail. IfSome (option_map tail_of tail) (IsTailIn chain.now)) }
    ensures keeps { Keeps B.tells (B.seen blocks.old) (B.seen blocks.new) }
    ensures cause { HasCause (B.faults blocks.old) (B.faults blocks.new) result }
{
    let Some(number) = chain.block_of(interval) else {
        return Ok(None);
    };
    let block = blocks.get(number)?;
    match taken_in(chain.layout(), block) {
        Some(taken) => Ok(tail_with(interval, taken)),
        None => Ok(None),
    }
}

/// Where the last item ends: it reads the intervals from the last one back, up to the first with an
/// item. A relative part has no need of it.
pub(crate) fn find_tail<B: Blocks>(
    chain: &Chain,
    blocks: &mut B,
) -> Result<Option<Tail>, DeviceFault>
    requires on { IsNumberedOn chain.now.part (B.seen blocks.old) }
    requires stands { IsTrue B.tells
        → Stands (NumberedShape chain.now.part) (B.seen blocks.old).cur }
    requires chain { IsTrue B.tells → IsChainOf chain.now (B.seen blocks.old).cur }
    ensures tail { IsTrue B.tells → IfOk result (λ tail. KnowsTail chain.now.part.relative
        chain.now.part (B.seen blocks.old).cur (option_map tail_of tail)) }
    ensures within { IfOk result (λ tail. IfSome (option_map tail_of tail) (IsTailIn chain.now)) }
    ensures keeps { Keeps B.tells (B.seen blocks.old) (B.seen blocks.new) }
    ensures cause { HasCause (B.faults blocks.old) (B.faults blocks.new) result }
{
    if chain.layout.relative {
        return Ok(None);
    }
    let used = chain.used();
    for past in 0..used {
        if let Some(tail) = tail_in(chain, blocks, used - 1 - past)? {
            return Ok(Some(tail));
        }
    }
    Ok(None)
}
