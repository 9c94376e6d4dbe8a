//! The intervals of the places that were met, so that `set` at one of them reads nothing.
ghost use Rattle.std.specs.Prelude.{◌≡◌, ◌<◌, ◌≤◌, [], IsTrue, IsOk, IfOk, OnOk, All, max, vec_len};
ghost use Rattle.vr_types.specs.Blocks.{Keeps};
ghost use Rattle.vr_types.specs.Faults.{HasCause};
ghost use Rattle.vr_space.specs.Numbered.{IsNumberedOn, IsIntervalMet, IsNumberPlace};
ghost use Rattle.vr_chained.specs.Chain.{IsChainOf};
ghost use Rattle.vr_chained.specs.Met.{AreMetsOf, HasMetPlace, IsMetOf, MeetsNext, met_in, mets_in};

use crate::chain::Chain;
use crate::met::{MetBlock, Mets};
use std::alloc::Global;
use vr_space::ChainLayout;
use vr_types::{Blocks, DeviceFault, OutOfMemory, empty_place};

fn empty_block(alloc: Global, layout: &ChainLayout) -> Result<MetBlock, OutOfMemory>
    ensures { IfOk result (IsMetOf layout.now.geometry.size) }
{
    Ok(MetBlock {
        place: empty_place(alloc, 4)?,
        number: 0,
        bytes: vec![in alloc; 0; layout.geometry.size as usize]?,
    })
}

/// Adds slots until there are this many. It fails only if memory runs out.
fn add_slots(
    slots: &mut Vec<MetBlock>,
    alloc: Global,
    layout: &ChainLayout,
    count: usize,
) -> Result<(), OutOfMemory>
    requires { All (IsMetOf layout.now.geometry.size) slots.old.items }
    ensures room { All (IsMetOf layout.now.geometry.size) slots.new.items }
    ensures count { OnOk result (vec_len slots.new ≡ max (vec_len slots.old) count) }
    ensures more { vec_len slots.old ≤ vec_len slots.new }
{
    for _ in slots.len()..count {
        slots.push(empty_block(alloc, layout)?)?;
    }
    Ok(())
}

/// Room for the intervals of two places, none met. It fails only if memory runs out.
pub(crate) fn no_mets(alloc: Global, layout: &ChainLayout) -> Result<Mets, OutOfMemory>
    ensures room { IfOk result (AreMetsOf layout.now) }
    ensures none { IfOk result (λ mets. mets_in mets ≡ []) }
    ensures most { IfOk result (λ mets. vec_len mets.slots ≡ 2) }
{
    let mut slots = Vec::new(alloc);
    add_slots(&mut slots, alloc, layout, 2)?;
    Ok(Mets { slots, filled: 0 })
}

/// Forgets what was met.
pub(crate) fn forget(mets: &mut Mets)
    ensures none { mets_in mets.new ≡ [] }
    ensures slots { mets.new.slots ≡ mets.old.slots }
{
    mets.filled = 0;
}

/// Forgets what was met, and makes room for the intervals of this many places. It fails only if
/// memory runs out.
pub(crate) fn keep(
    mets: &mut Mets,
    alloc: Global,
    layout: &ChainLayout,
    count: usize,
) -> Result<(), OutOfMemory>
    requires room { AreMetsOf layout.now mets.old }
    ensures room { AreMetsOf layout.now mets.new }
    ensures none { mets_in mets.new ≡ [] }
    ensures most { OnOk result (count ≤ vec_len mets.new.slots) }
{
    forget(mets);
    add_slots(&mut mets.slots, alloc, layout, count)
}

/// Reads the interval of a place, where it is in the chain.
fn fill<B: Blocks>(
    met: &mut MetBlock,
    chain: &Chain,
    blocks: &mut B,
    place: &[u8],
) -> Result<(), DeviceFault>
    requires on { IsNumberedOn chain.now.part (B.seen blocks.old) }
    requires place { IsNumberPlace chain.now.part place.now }
    requires room { IsMetOf chain.now.part.geometry.size met.old }
    requires chain { IsTrue B.tells → IsChainOf chain.now (B.seen blocks.old).cur }
    ensures room { IsMetOf chain.now.part.geometry.size met.new }
    ensures place { OnOk result (met.new.place.place ≡ place.now) }
    ensures met { IsTrue B.tells → OnOk result
        (IsIntervalMet chain.now.part (B.seen blocks.old).cur (met_in met.new)) }
    ensures keeps { Keeps B.tells (B.seen blocks.old) (B.seen blocks.new) }
    ensures cause { HasCause (B.faults blocks.old) (B.faults blocks.new) result }
{
    met.place.set(place);
    let Some(number) = chain.block_at(place) else {
        return Ok(());
    };
    met.bytes.copy_from_slice(blocks.get(number)?);
    met.number = number;
    Ok(())
}

/// The slot that is filled next. Where each of them is, what was met is forgotten.
fn next_slot(mets: &mut Mets) -> usize
    ensures below { result < vec_len mets.new.slots }
    ensures filled { mets.new.filled ≡ result }
    ensures few { result ≤ mets.old.filled }
    ensures kept { mets.old.filled < vec_len mets.old.slots → result ≡ mets.old.filled }
    ensures slots { mets.new.slots ≡ mets.old.slots }
{
    if mets.filled == mets.slots.len() {
        mets.filled = 0;
    }
    mets.filled
}

/// Reads the interval of a place into a slot.
fn read_in<B: Blocks>(
    mets: &mut Mets,
    chain: &Chain,
    blocks: &mut B,
    place: &[u8],
) -> Result<(), DeviceFault>
    requires on { IsNumberedOn chain.now.part (B.seen blocks.old) }
    requires place { IsNumberPlace chain.now.part place.now }
    requires room { AreMetsOf chain.now.part mets.old }
    requires chain { IsTrue B.tells → IsChainOf chain.now (B.seen blocks.old).cur }
    requires met { IsTrue B.tells
        → All (IsIntervalMet chain.now.part (B.seen blocks.old).cur) (mets_in mets.old) }
    ensures room { AreMetsOf chain.now.part mets.new }
    ensures most { vec_len mets.new.slots ≡ vec_len mets.old.slots }
    ensures places { OnOk result
        (MeetsNext place.now (vec_len mets.old.slots) (mets_in mets.old) (mets_in mets.new)) }
    ensures met { IsTrue B.tells
        → All (IsIntervalMet chain.now.part (B.seen blocks.old).cur) (mets_in mets.new) }
    ensures keeps { Keeps B.tells (B.seen blocks.old) (B.seen blocks.new) }
    ensures cause { HasCause (B.faults blocks.old) (B.faults blocks.new) result }
{
    let slot = next_slot(mets);
    fill(&mut mets.slots[slot], chain, blocks, place)?;
    mets.filled += 1;
    Ok(())
}

/// Keeps the interval of a place, too. Where the place was met, nothing is read; else one block is,
/// where the interval is in the chain.
pub(crate) fn meet<B: Blocks>(
    mets: &mut Mets,
    chain: &Chain,
    blocks: &mut B,
    place: &[u8],
) -> Result<(), DeviceFault>
    requires on { IsNumberedOn chain.now.part (B.seen blocks.old) }
    requires place { IsNumberPlace chain.now.part place.now }
    requires room { AreMetsOf chain.now.part mets.old }
    requires chain { IsTrue B.tells → IsChainOf chain.now (B.seen blocks.old).cur }
    requires met { IsTrue B.tells
        → All (IsIntervalMet chain.now.part (B.seen blocks.old).cur) (mets_in mets.old) }
    ensures room { AreMetsOf chain.now.part mets.new }
    ensures most { vec_len mets.new.slots ≡ vec_len mets.old.slots }
    ensures places { OnOk result
        (MeetsNext place.now (vec_len mets.old.slots) (mets_in mets.old) (mets_in mets.new)) }
    ensures met { IsTrue B.tells
        → All (IsIntervalMet chain.now.part (B.seen blocks.old).cur) (mets_in mets.new) }
    ensures known { HasMetPlace (mets_in mets.old) place.now
        → IsOk result × (mets.new ≡ mets.old) }
    ensures keeps { Keeps B.tells (B.seen blocks.old) (B.seen blocks.new) }
    ensures cause { HasCause (B.faults blocks.old) (B.faults blocks.new) result }
{
    if mets.has(place) {
        return Ok(());
    }
    read_in(mets, chain, blocks, place)
}
