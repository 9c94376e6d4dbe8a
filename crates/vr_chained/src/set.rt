//! Setting a record at a place, or taking it away.
ghost use Rattle.std.specs.Prelude.{◌≡◌, ◌≢◌, ◌<◌, None, IsTrue, All, length, map, vec_len, IfOk};
ghost use Rattle.std.specs.Prelude.{OnOk, IfErr};
ghost use Rattle.vr_types.specs.Blocks.{Keeps};
ghost use Rattle.vr_types.specs.Faults.{HasCause, HasWriteCause};
ghost use Rattle.vr_types.specs.declared.fault.DeviceFault.TheVariants.{Read, Write};
ghost use Rattle.vr_space.specs.Known.{Known};
ghost use Rattle.vr_space.specs.Part.{InHeld, NumberedShape, given};
ghost use Rattle.vr_space.specs.Room.{Lengths};
ghost use Rattle.vr_space.specs.Rosters.{Numbered};
ghost use Rattle.vr_space.specs.Numbered.{IsNumberedOn, IsIntervalMet, IsNumberPlace, interval_of};
ghost use Rattle.vr_chained.specs.Chain.{IsChainOf};
ghost use Rattle.vr_chained.specs.Met.{AreMetsOf, HasMetPlace, IsMetOf, met_in, met_places};
ghost use Rattle.vr_chained.specs.Met.{mets_in};
ghost use Rattle.vr_chained.specs.Setting.{IsReady, IsSetNow, MaySet, put_of, refreshed};

use crate::chain::Chain;
use crate::filled::write_item;
use crate::look::at_of;
use crate::meet::meet;
use crate::met::{MetBlock, Mets};
use vr_types::{Blocks, DeviceFault};

/// Makes what is kept of a block what the block has now.
fn refresh_block(met: &mut MetBlock, number: u32, bytes: &[u8])
    requires { IsMetOf (length bytes.now) met.old }
    ensures met { met_in met.new ≡ refreshed number bytes.now (met_in met.old) }
    ensures room { IsMetOf (length bytes.now) met.new }
{
    if met.number == number {
        met.bytes.copy_from_slice(bytes);
    }
}

/// The same of each slot.
fn refresh_slots(slots: &mut [MetBlock], number: u32, bytes: &[u8])
    requires { All (IsMetOf (length bytes.now)) slots.old }
    ensures met { map met_in slots.new ≡ map (refreshed number bytes.now) (map met_in slots.old) }
    ensures room { All (IsMetOf (length bytes.now)) slots.new }
    ensures count { length slots.new ≡ length slots.old }
{
    for met in slots.iter_mut() {
        refresh_block(met, number, bytes);
    }
}

/// The same of all that was met.
fn refresh(mets: &mut Mets, number: u32, bytes: &[u8])
    requires { All (IsMetOf (length bytes.now)) mets.old.slots.items }
    ensures met { mets_in mets.new ≡ map (refreshed number bytes.now) (mets_in mets.old) }
    ensures room { All (IsMetOf (length bytes.now)) mets.new.slots.items }
    ensures most { vec_len mets.new.slots ≡ vec_len mets.old.slots }
{
    refresh_slots(mets.slots.as_mut_slice(), number, bytes);
}

/// Sets what is given at a place that was met: by one put, and without a read. It answers the block
/// that it put; None where nothing is there, and nothing is to be set.
fn put_set<B: Blocks>(
    mets: &mut Mets,
    chain: &Chain,
    blocks: &mut B,
    out: &mut [u8],
    place: &[u8],
    bytes: Option<&[u8]>,
) -> Result<Option<u32>, DeviceFault>
    requires on { IsNumberedOn chain.now.part (B.seen blocks.old) }
    requires place { IsNumberPlace chain.now.part place.now }
    requires room { AreMetsOf chain.now.part mets.old }
    requires out { length out.old ≡ chain.now.part.geometry.size }
    requires has { HasMetPlace (mets_in mets.old) place.now }
    requires chain { IsTrue B.tells → IsChainOf chain.now (B.seen blocks.old).cur }
    requires met { IsTrue B.tells
        → All (IsIntervalMet chain.now.part (B.seen blocks.old).cur) (mets_in mets.old) }
    ensures room { AreMetsOf chain.now.part mets.new }
    ensures most { vec_len mets.new.slots ≡ vec_len mets.old.slots }
    ensures places { met_places (mets_in mets.new) ≡ met_places (mets_in mets.old) }
    ensures may { IsTrue B.tells → (kept : Lengths) (known : Known)
        → IsReady chain.now.part kept known place.now (given bytes.entry) (B.seen blocks.old)
        → MaySet chain.now.part kept place.now (given bytes.entry)
        (B.seen blocks.old) (B.seen blocks.new) }
    ensures done { IsTrue B.tells → IfOk result (λ put. (kept : Lengths) (known : Known)
        → IsReady chain.now.part kept known place.now (given bytes.entry) (B.seen blocks.old)
        → IsSetNow chain.now.part known (put_of put) place.now (given bytes.entry)
        (B.seen blocks.old) (B.seen blocks.new)) }
    ensures chain { IsTrue B.tells → OnOk result ((kept : Lengths) (known : Known)
        → IsReady chain.now.part kept known place.now (given bytes.entry) (B.seen blocks.old)
        → IsChainOf chain.now (B.seen blocks.new).cur) }
    ensures met { IsTrue B.tells → OnOk result ((kept : Lengths) (known : Known)
        → IsReady chain.now.part kept known place.now (given bytes.entry) (B.seen blocks.old)
        → All (IsIntervalMet chain.now.part (B.seen blocks.new).cur) (mets_in mets.new)) }
    ensures put { (known : Known) → known.areas ≡ chain.now.areas → IfOk result
        (λ put. All (InHeld (NumberedShape chain.now.part) known) (put_of put)) }
    ensures used { IfOk result (λ put. put ≢ None
        → interval_of chain.now.part place.now < chain.now.used) }
    ensures below { IfOk result (λ put. All (λ n. n < (B.seen blocks.new).count) (put_of put)) }
    ensures count { (B.seen blocks.new).count ≡ (B.seen blocks.old).count }
    ensures size { (B.seen blocks.new).size ≡ (B.seen blocks.old).size }
    ensures cause { HasWriteCause (B.faults blocks.old) (B.faults blocks.new) result }
{
    let Some(block) = chain.block_at(place) else {
        return Ok(None);
    };
    let met = mets.met_at(place).bytes.as_slice();
    if !write_item(chain.layout(), met, at_of(chain, place), bytes, out) {
        return Ok(None);
    }
    blocks.put(block, out)?;
    refresh(mets, block, out);
    Ok(Some(block))
}

/// Makes what is given the record at a place, or takes the record there away: by one put, after at
/// most one read, and none where the place was met. It answers the block that it put.
pub(crate) fn set_in<B: Blocks>(
    mets: &mut Mets,
    chain: &Chain,
    blocks: &mut B,
    out: &mut [u8],
    place: &[u8],
    bytes: Option<&[u8]>,
) -> Result<Option<u32>, DeviceFault>
    requires on { IsNumberedOn chain.now.part (B.seen blocks.old) }
    requires place { IsNumberPlace chain.now.part place.now }
    requires room { AreMetsOf chain.now.part mets.old }
    requires out { length out.old ≡ chain.now.part.geometry.size }
    requires chain { IsTrue B.tells → IsChainOf chain.now (B.seen blocks.old).cur }
    requires met { IsTrue B.tells
        → All (IsIntervalMet chain.now.part (B.seen blocks.old).cur) (mets_in mets.old) }
    ensures room { AreMetsOf chain.now.part mets.new }
    ensures most { vec_len mets.new.slots ≡ vec_len mets.old.slots }
    ensures may { IsTrue B.tells → (kept : Lengths) (known : Known)
        → IsReady chain.now.part kept known place.now (given bytes.entry) (B.seen blocks.old)
        → MaySet chain.now.part kept place.now (given bytes.entry)
        (B.seen blocks.old) (B.seen blocks.new) }
    ensures done { IsTrue B.tells → IfOk result (λ put. (kept : Lengths) (known : Known)
        → IsReady chain.now.part kept known place.now (given bytes.entry) (B.seen blocks.old)
        → IsSetNow chain.now.part known (put_of put) place.now (given bytes.entry)
        (B.seen blocks.old) (B.seen blocks.new)) }
    ensures chain { IsTrue B.tells → OnOk result ((kept : Lengths) (known : Known)
        → IsReady chain.now.part kept known place.now (given bytes.entry) (B.seen blocks.old)
        → IsChainOf chain.now (B.seen blocks.new).cur) }
    ensures met { IsTrue B.tells → OnOk result ((kept : Lengths) (known : Known)
        → IsReady chain.now.part kept known place.now (given bytes.entry) (B.seen blocks.old)
        → All (IsIntervalMet chain.now.part (B.seen blocks.new).cur) (mets_in mets.new)) }
    ensures places { HasMetPlace (mets_in mets.old) place.now → OnOk result
        (met_places (mets_in mets.new) ≡ met_places (mets_in mets.old)) }
    ensures reads { HasMetPlace (mets_in mets.old) place.now
        → IfErr result (λ fault. fault ≡ Write) }
    ensures unread { IfErr result (λ fault. fault ≡ Read
        → Keeps B.tells (B.seen blocks.old) (B.seen blocks.new)
        × (IsTrue B.tells → All (IsIntervalMet chain.now.part (B.seen blocks.new).cur)
        (mets_in mets.new))) }
    ensures put { (known : Known) → known.areas ≡ chain.now.areas → IfOk result
        (λ put. All (InHeld (NumberedShape chain.now.part) known) (put_of put)) }
    ensures used { IfOk result (λ put. put ≢ None
        → interval_of chain.now.part place.now < chain.now.used) }
    ensures below { IfOk result (λ put. All (λ n. n < (B.seen blocks.new).count) (put_of put)) }
    ensures count { (B.seen blocks.new).count ≡ (B.seen blocks.old).count }
    ensures size { (B.seen blocks.new).size ≡ (B.seen blocks.old).size }
    ensures cause { HasCause (B.faults blocks.old) (B.faults blocks.new) result }
{
    meet(mets, chain, blocks, place)?;
    put_set(mets, chain, blocks, out, place, bytes)
}
