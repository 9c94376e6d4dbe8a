//! The end of a unit of recovery.
ghost use Rattle.std.specs.Prelude.{◌≡◌, ◌==◌, ◌+◌, ℕ, [], IfOk, Some, None, filter, map, nat_eq};
ghost use Rattle.std.specs.List.{list_any};
ghost use Rattle.vr_catalog.specs.Catalog as catalogs;
ghost use Rattle.vr_history.specs.Effects as effects;
ghost use Rattle.vr_history.specs.Opened as files;
ghost use Rattle.vr_model.specs.Endings as endings;
ghost use Rattle.vr_model_state.specs.Seen.{number_in, seen};
ghost use Rattle.vr_model.specs.Writes.{with_number};

use std::alloc::Global;
use vr_catalog::{CatEntry, EntryKind};
use vr_model_change::plus;
use vr_model_state::{
    Contents, FilePosition, FileState, HeldLock, KeptImage, LoggedPlace, OwnedArea, PartContent,
    catalog_of, is_unit, number_of_deck, prepended,
};
use vr_types::{OutOfMemory, Position, Unit};

fn other_locks(alloc: Global, held: &[HeldLock], unit: Unit) -> Result<Vec<HeldLock>, OutOfMemory>
    ensures { IfOk result (λ left.
        left.items ≡ filter (λ lock. effects.is_other unit lock.unit) held.now) }
{
    match held {
        [] => Ok(Vec::new(alloc)),
        [first, rest @ ..] => {
            let others = other_locks(alloc, rest, unit)?;
            if is_unit(unit, first.unit) {
                Ok(others)
            } else {
                Ok(prepended(first.copy(alloc)?, others)?)
            }
        }
    }
}

fn other_befores(
    alloc: Global,
    befores: &[KeptImage],
    unit: Unit,
) -> Result<Vec<KeptImage>, OutOfMemory>
    ensures { IfOk result (λ left.
        left.items ≡ filter (λ kept. effects.is_other unit kept.unit) befores.now) }
{
    match befores {
        [] => Ok(Vec::new(alloc)),
        [first, rest @ ..] => {
            let others = other_befores(alloc, rest, unit)?;
            if is_unit(unit, first.unit) {
                Ok(others)
            } else {
                Ok(prepended(first.copy(alloc)?, others)?)
            }
        }
    }
}

fn other_logged(
    alloc: Global,
    logged: &[LoggedPlace],
    unit: Unit,
) -> Result<Vec<LoggedPlace>, OutOfMemory>
    ensures { IfOk result (λ left.
        left.items ≡ filter (λ log. effects.is_other unit log.unit) logged.now) }
{
    match logged {
        [] => Ok(Vec::new(alloc)),
        [first, rest @ ..] => {
            let others = other_logged(alloc, rest, unit)?;
            if is_unit(unit, first.unit) {
                Ok(others)
            } else {
                Ok(prepended(first.copy(alloc)?, others)?)
            }
        }
    }
}

fn used_after(logged: &[LoggedPlace], used: u64) -> u64
    ensures { result ≡ effects.used_after logged.now used }
{
    match logged {
        [] => 0,
        [_, _rest @ ..] => used,
    }
}

/// The unit's locks, before-images and log records go.
fn without_lists(alloc: Global, state: FileState, unit: Unit) -> Result<FileState, OutOfMemory>
    ensures { IfOk result (λ new. seen new ≡ endings.without_lists unit (seen state)) }
{
    let mut state = state;
    let locks = other_locks(alloc, &state.locks, unit)?;
    let befores = other_befores(alloc, &state.befores, unit)?;
    let logged = other_logged(alloc, &state.logged, unit)?;
    state.used = used_after(&logged, state.used);
    state.locks = locks;
    state.befores = befores;
    state.logged = logged;
    Ok(state)
}

fn unheld_of(alloc: Global, file: &FilePosition, deck: u32) -> Result<FilePosition, OutOfMemory>
    ensures { IfOk result (λ new. new ≡ endings.unheld_of deck file.now) }
{
    let position = file.position.copy(alloc)?;
    if file.deck == deck {
        Ok(FilePosition {
            deck: file.deck,
            slot: file.slot,
            position: Position {
                stand: position.stand,
                held: None,
            },
        })
    } else {
        Ok(FilePosition {
            deck: file.deck,
            slot: file.slot,
            position,
        })
    }
}

fn unheld_in(
    alloc: Global,
    positions: &[FilePosition],
    deck: u32,
) -> Result<Vec<FilePosition>, OutOfMemory>
    ensures { IfOk result (λ new. new.items ≡ endings.unheld_in deck positions.now) }
{
    match positions {
        [] => Ok(Vec::new(alloc)),
        [first, rest @ ..] => {
            let others = unheld_in(alloc, rest, deck)?;
            Ok(prepended(unheld_of(alloc, first, deck)?, others)?)
        }
    }
}

/// The deck's files drop what they hold.
fn without_held(alloc: Global, state: FileState, deck: u32) -> Result<FileState, OutOfMemory>
    ensures { IfOk result (λ new. seen new ≡ endings.without_held deck (seen state)) }
{
    let mut state = state;
    let positions = unheld_in(alloc, &state.positions, deck)?;
    state.positions = positions;
    Ok(state)
}

/// The state with a number of one deck.
fn with_deck_number(state: FileState, deck: u32, number: u64) -> Result<FileState, OutOfMemory>
    ensures { IfOk result (λ new. seen new ≡ with_number deck number (seen state)) }
{
    let mut state = state;
    state.numbers.insert(0, (deck, number))?;
    Ok(state)
}

/// The deck's next unit begins. A number that 64 bits don't hold counts as out of memory.
#[tactic(auto, using(crate::proofs::Pointwise::number_next))]
fn with_next(state: FileState, deck: u32) -> Result<FileState, OutOfMemory>
    ensures { IfOk result (λ new. seen new ≡ endings.with_next deck (seen state)) }
{
    let number = plus(number_of_deck(&state.numbers, deck), 1)?;
    Ok(with_deck_number(state, deck, number)?)
}

/// The unit ends.
fn without_unit(alloc: Global, state: FileState, unit: Unit) -> Result<FileState, OutOfMemory>
    ensures { IfOk result (λ new. seen new ≡ effects.without_unit unit (seen state)) }
{
    let unlisted = without_lists(alloc, state, unit)?;
    let unheld = without_held(alloc, unlisted, unit.deck)?;
    Ok(with_next(unheld, unit.deck)?)
}

/// The numbers of the parts of some entries.
fn parts_in(alloc: Global, entries: &[CatEntry]) -> Result<Vec<u32>, OutOfMemory>
    ensures { IfOk result (λ parts. parts.items ≡ catalogs.parts_in entries.now) }
{
    match entries {
        [] => Ok(Vec::new(alloc)),
        [first, rest @ ..] => {
            let others = parts_in(alloc, rest)?;
            Ok(prepended(first.part.0, others)?)
        }
    }
}

fn has_areas(entry: &CatEntry) -> bool
    ensures { result ≡ effects.has_areas entry.now.entry_kind entry.now }
{
    match entry.entry_kind {
        EntryKind::Cluster => true,
        EntryKind::Alternate => entry.built,
        EntryKind::Path => false,
    }
}

/// The parts that have areas.
fn parts_laid(alloc: Global, entries: &[CatEntry]) -> Result<Vec<u32>, OutOfMemory>
    ensures { IfOk result (λ parts. parts.items ≡ effects.parts_laid entries.now) }
{
    match entries {
        [] => Ok(Vec::new(alloc)),
        [first, rest @ ..] => {
            let others = parts_laid(alloc, rest)?;
            if has_areas(first) {
                Ok(prepended(first.part.0, others)?)
            } else {
                Ok(others)
            }
        }
    }
}

fn is_among(parts: &[u32], part: u32) -> bool
    ensures { result ≡ list_any (nat_eq part) parts.now }
{
    match parts {
        [] => false,
        [first, rest @ ..] => part == *first || is_among(rest, part),
    }
}

fn has_part(parts: &[u32], part: u32) -> bool
    ensures { result ≡ effects.has_part parts.now part }
{
    part == 0 || is_among(parts, part)
}

fn is_utility_live(logged: &[LoggedPlace]) -> bool
    ensures { result ≡ list_any (λ log. log.unit.deck == 0) logged.now }
{
    match logged {
        [] => false,
        [first, rest @ ..] => first.unit.deck == 0 || is_utility_live(rest),
    }
}

/// The contents of some parts.
fn kept_contents(
    alloc: Global,
    contents: &[(u32, PartContent)],
    parts: &[u32],
) -> Result<Vec<(u32, PartContent)>, OutOfMemory>
    ensures { IfOk result (λ kept. kept.items ≡ endings.kept_in parts.now contents.now) }
{
    match contents {
        [] => Ok(Vec::new(alloc)),
        [first, rest @ ..] => {
            let others = kept_contents(alloc, rest, parts)?;
            if has_part(parts, first.0) {
                Ok(prepended((first.0, first.1.copy(alloc)?), others)?)
            } else {
                Ok(others)
            }
        }
    }
}

/// The state with the contents of some parts alone.
fn with_parts(alloc: Global, state: FileState, parts: &[u32]) -> Result<FileState, OutOfMemory>
    ensures { IfOk result (λ new. seen new ≡ endings.with_parts parts.now (seen state)) }
{
    let mut state = state;
    let kept = kept_contents(alloc, state.contents.as_slice(), parts)?;
    state.contents = Contents::of_parts(alloc, kept)?;
    Ok(state)
}

/// The areas of some parts.
fn kept_areas(
    alloc: Global,
    owned: &[OwnedArea],
    parts: &[u32],
) -> Result<Vec<OwnedArea>, OutOfMemory>
    ensures { IfOk result (λ kept.
        kept.items ≡ filter (λ area. effects.has_part parts.now area.part) owned.now) }
{
    match owned {
        [] => Ok(Vec::new(alloc)),
        [first, rest @ ..] => {
            let others = kept_areas(alloc, rest, parts)?;
            if has_part(parts, first.part) {
                Ok(prepended(first.copy(), others)?)
            } else {
                Ok(others)
            }
        }
    }
}

/// The state with the areas of some parts alone.
fn with_areas(alloc: Global, state: FileState, parts: &[u32]) -> Result<FileState, OutOfMemory>
    ensures { IfOk result (λ new. seen new ≡ endings.with_areas parts.now (seen state)) }
{
    let mut state = state;
    let owned = kept_areas(alloc, &state.owned, parts)?;
    state.owned = owned;
    Ok(state)
}

/// What the catalog hasn't goes.
fn given_back(alloc: Global, state: FileState) -> Result<FileState, OutOfMemory>
    ensures { IfOk result (λ new. seen new ≡ endings.given_back (seen state)) }
{
    let parts = parts_of(alloc, &state)?;
    let laid = laid_of(alloc, &state)?;
    let parted = with_parts(alloc, state, &parts)?;
    Ok(with_areas(alloc, parted, &laid)?)
}

/// The parts of the catalog.
fn parts_of(alloc: Global, state: &FileState) -> Result<Vec<u32>, OutOfMemory>
    ensures { IfOk result (λ parts.
        parts.items ≡ catalogs.parts_in (files.catalog_of (seen state.now))) }
{
    Ok(parts_in(alloc, catalog_of(state))?)
}

/// The parts of the catalog that have areas.
fn laid_of(alloc: Global, state: &FileState) -> Result<Vec<u32>, OutOfMemory>
    ensures { IfOk result (λ parts.
        parts.items ≡ effects.parts_laid (files.catalog_of (seen state.now))) }
{
    Ok(parts_laid(alloc, catalog_of(state))?)
}

/// What the catalog hasn't goes, once no unit of the utilities is live.
fn gives_back(alloc: Global, state: FileState) -> Result<FileState, OutOfMemory>
    ensures { IfOk result (λ new. seen new ≡ effects.gives_back (seen state)) }
{
    if is_utility_live(&state.logged) {
        Ok(state)
    } else {
        Ok(given_back(alloc, state)?)
    }
}

/// The unit ends, and what the catalog hasn't goes.
pub(crate) fn ends_unit(
    alloc: Global,
    state: FileState,
    unit: Unit,
) -> Result<FileState, OutOfMemory>
    ensures { IfOk result (λ new. seen new ≡ effects.ends_unit unit (seen state)) }
{
    let state = without_unit(alloc, state, unit)?;
    Ok(gives_back(alloc, state)?)
}
