//! The blocks that units of recovery changed and that were not forced since.
ghost use Rattle.std.specs.Prelude.{◌≡◌, ◌≢◌, ◌<◌, ◌∷◌, ◌++◌, ℕ, [], All, IfOk, IsTrue, OnErr, OnOk};
ghost use Rattle.std.specs.Prelude.{false, map};
ghost use Rattle.std.specs.List.{Contains, position};
ghost use Rattle.vr_types.specs.Locks.{same_unit};
ghost use Rattle.vr_types.specs.declared.unit.Unit.{Unit as UnitOfRecovery};
ghost use Rattle.vr_store.specs.Store.{ChangedBy, blocks_of, changed_by};

use std::alloc::Global;
use vr_types::{OutOfMemory, Unit};

/// The blocks that a unit changed and that were not forced since.
#[derive(Drop)]
pub struct UnitBlocks {
    pub unit: Unit,
    pub blocks: Vec<u32>,
}

/// Whether two units of recovery are one.
pub(crate) fn is_unit(unit: Unit, other: Unit) -> bool
    ensures { result ≡ same_unit unit other }
{
    unit.deck == other.deck && unit.number == other.number
}

/// The place of a unit's blocks, None exactly where it has none.
pub(crate) fn place_of(changed: &[UnitBlocks], unit: Unit) -> Option<usize>
    ensures { result ≡ position (λ by. same_unit unit by.unit) changed.now }
{
    for (at, by) in changed.iter().enumerate() {
        if is_unit(unit, by.unit) {
            return Some(at);
        }
    }
    None
}

/// Makes room for that many more blocks of a unit. It fails only if memory runs out. The blocks
/// stay, whatever the answer.
pub(crate) fn make_room(
    alloc: Global,
    changed: &mut Vec<UnitBlocks>,
    unit: Unit,
    more: usize,
) -> Result<(), OutOfMemory>
    ensures blocks { (other : UnitOfRecovery) → blocks_of other (map changed_by changed.new.items)
        ≡ blocks_of other (map changed_by changed.old.items) }
    ensures each { (count : ℕ)
        → All (λ (by : ChangedBy). All (λ n. n < count) by.blocks)
        (map changed_by changed.old.items)
        → All (λ (by : ChangedBy). All (λ n. n < count) by.blocks)
        (map changed_by changed.new.items) }
{
    match place_of(changed, unit) {
        Some(at) => more_room(&mut changed[at].blocks, more),
        None => add_unit(alloc, changed, unit, more),
    }
}

/// Makes room for that many more blocks.
fn more_room(blocks: &mut Vec<u32>, more: usize) -> Result<(), OutOfMemory>
    ensures { blocks.new.items ≡ blocks.old.items }
{
    blocks.reserve(more)?;
    Ok(())
}

/// A unit without blocks, with room for that many.
fn new_unit(alloc: Global, unit: Unit, more: usize) -> Result<UnitBlocks, OutOfMemory>
    ensures { IfOk result (λ by. changed_by by ≡ record { unit = unit; blocks = [] }) }
{
    let mut blocks = Vec::new(alloc);
    more_room(&mut blocks, more)?;
    Ok(UnitBlocks { unit, blocks })
}

/// Adds a unit without blocks, with room for that many.
fn add_unit(
    alloc: Global,
    changed: &mut Vec<UnitBlocks>,
    unit: Unit,
    more: usize,
) -> Result<(), OutOfMemory>
    ensures added { OnOk result (map changed_by changed.new.items
        ≡ map changed_by changed.old.items ++ record { unit = unit; blocks = [] } ∷ []) }
    ensures err { OnErr result (changed.new.items ≡ changed.old.items) }
{
    let by = new_unit(alloc, unit, more)?;
    changed.push(by)?;
    Ok(())
}

/// Adds blocks to those of a unit, each once, in room that was made. False: there is no room for all
/// of them. It takes no memory.
pub(crate) fn note(changed: &mut Vec<UnitBlocks>, unit: Unit, put: &[u32]) -> bool
    ensures had { (n : ℕ) → Contains (blocks_of unit (map changed_by changed.old.items)) n
        → Contains (blocks_of unit (map changed_by changed.new.items)) n }
    ensures put { IsTrue result → (n : ℕ) → Contains put.now n
        → Contains (blocks_of unit (map changed_by changed.new.items)) n }
    ensures others { (other : UnitOfRecovery) → same_unit other unit ≡ false
        → blocks_of other (map changed_by changed.new.items)
        ≡ blocks_of other (map changed_by changed.old.items) }
    ensures each { (count : ℕ) → All (λ n. n < count) put.now
        → All (λ (by : ChangedBy). All (λ n. n < count) by.blocks)
        (map changed_by changed.old.items)
        → All (λ (by : ChangedBy). All (λ n. n < count) by.blocks)
        (map changed_by changed.new.items) }
{
    match place_of(changed, unit) {
        Some(at) => add_blocks(&mut changed[at].blocks, put),
        None => false,
    }
}

/// Adds blocks, each once; false where there is no room for all of them.
fn add_blocks(blocks: &mut Vec<u32>, put: &[u32]) -> bool
    ensures had { (n : ℕ) → Contains blocks.old.items n → Contains blocks.new.items n }
    ensures put { IsTrue result → (n : ℕ) → Contains put.now n → Contains blocks.new.items n }
    ensures each { (count : ℕ) → All (λ n. n < count) put.now
        → All (λ n. n < count) blocks.old.items → All (λ n. n < count) blocks.new.items }
{
    match put {
        [] => true,
        [first, rest @ ..] => add_block(blocks, *first) && add_blocks(blocks, rest),
    }
}

/// Adds a block, where it isn't one of them; false where there is no room for it.
fn add_block(blocks: &mut Vec<u32>, n: u32) -> bool
    ensures had { (m : ℕ) → Contains blocks.old.items m → Contains blocks.new.items m }
    ensures has { IsTrue result → Contains blocks.new.items n }
    ensures each { (count : ℕ) → n < count
        → All (λ n. n < count) blocks.old.items → All (λ n. n < count) blocks.new.items }
{
    if blocks.contains(&n) {
        return true;
    }
    if blocks.len() == blocks.capacity() {
        return false;
    }
    blocks.push_reserved(n);
    true
}

/// Forgets the blocks of a unit.
pub(crate) fn forget(changed: &mut Vec<UnitBlocks>, unit: Unit)
    ensures none { blocks_of unit (map changed_by changed.new.items) ≡ [] }
    ensures others { (other : UnitOfRecovery) → same_unit other unit ≡ false
        → blocks_of other (map changed_by changed.new.items)
        ≡ blocks_of other (map changed_by changed.old.items) }
    ensures each { (count : ℕ)
        → All (λ (by : ChangedBy). All (λ n. n < count) by.blocks)
        (map changed_by changed.old.items)
        → All (λ (by : ChangedBy). All (λ n. n < count) by.blocks)
        (map changed_by changed.new.items) }
{
    changed.retain(|by| !is_unit(unit, by.unit));
}

/// Whether none of the blocks of a unit is left.
pub(crate) fn is_none(changed: &Vec<UnitBlocks>, unit: Unit) -> bool
    ensures none { IsTrue result → blocks_of unit (map changed_by changed.now.items) ≡ [] }
    ensures some { result ≡ false → blocks_of unit (map changed_by changed.now.items) ≢ [] }
{
    match place_of(changed, unit) {
        Some(at) => changed[at].blocks.as_slice().is_empty(),
        None => true,
    }
}
