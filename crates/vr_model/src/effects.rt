//! What an entry leaves of the state: one function for each effect of the definition.
ghost use Rattle.std.specs.Prelude.{◌≡◌, ◌∷◌, ◌++◌, [], IfOk, Some, None, filter, map, option_map};
ghost use Rattle.vr_history.specs.Effects as effects;
ghost use Rattle.vr_history.specs.Names as names;
ghost use Rattle.vr_history.specs.State as states;
ghost use Rattle.std.specs.List.{list_any};
ghost use Rattle.vr_types.specs.Content.{item_at};
ghost use Rattle.vr_types.specs.Locks.{same_unit};
ghost use Rattle.vr_types.specs.Position.{unheld};
ghost use Rattle.vr_model_state.specs.Items.{item_of};
ghost use Rattle.vr_model_state.specs.Seen.{seen};
ghost use Rattle.vr_model.specs.Writes.{with_content, with_position};

use std::alloc::Global;
use std::mem::replace;
use vr_model_change::{LogImage, PlaceChange, plus};
use vr_model_state::{
    Contents, FilePosition, FileState, HeldLock, KeptImage, LoggedPlace, OwnedArea, PartContent,
    PlacedItem, Stored, copy_of_befores, copy_of_stored, is_kept, is_unit, item_in_slice,
    keeps_any, position_of_file, prepended, with_item_in_slice, without_item_in_slice,
};
use vr_types::{FileRef, LockName, Mode, OutOfMemory, Place, Position, Stand, Unit};

/// The state with a position of one file.
fn with_file_at(
    state: FileState,
    deck: u32,
    slot: u32,
    position: Position,
) -> Result<FileState, OutOfMemory>
    ensures { IfOk result (λ new. seen new ≡ with_position deck slot position (seen state)) }
{
    let mut state = state;
    let file = FilePosition {
        deck,
        slot,
        position,
    };
    state.positions.insert(0, file)?;
    Ok(state)
}

/// The state where a file stands at another place.
pub(crate) fn stands_at(
    alloc: Global,
    state: FileState,
    deck: u32,
    slot: u32,
    stand: Stand,
) -> Result<FileState, OutOfMemory>
    ensures { IfOk result (λ new.
        seen new ≡ effects.moves_file deck slot (effects.standing stand) (seen state)) }
{
    let old = position_of_file(alloc, &state.positions, deck, slot)?;
    let position = Position {
        stand,
        held: old.held,
    };
    Ok(with_file_at(state, deck, slot, position)?)
}

/// The state where a file holds the record at a place for update.
pub(crate) fn holds_at(
    alloc: Global,
    state: FileState,
    deck: u32,
    slot: u32,
    place: Place,
) -> Result<FileState, OutOfMemory>
    ensures { IfOk result (λ new.
        seen new ≡ effects.moves_file deck slot (effects.holding place) (seen state)) }
{
    let old = position_of_file(alloc, &state.positions, deck, slot)?;
    let position = Position {
        stand: old.stand,
        held: Some(place),
    };
    Ok(with_file_at(state, deck, slot, position)?)
}

/// The state where a file holds nothing for update.
fn holds_nothing(
    alloc: Global,
    state: FileState,
    deck: u32,
    slot: u32,
) -> Result<FileState, OutOfMemory>
    ensures { IfOk result (λ new. seen new ≡ effects.moves_file deck slot unheld (seen state)) }
{
    let old = position_of_file(alloc, &state.positions, deck, slot)?;
    let position = Position {
        stand: old.stand,
        held: None,
    };
    Ok(with_file_at(state, deck, slot, position)?)
}

/// What the file holds for update is dropped.
pub(crate) fn drops_held(
    alloc: Global,
    state: FileState,
    deck: u32,
    file: Option<FileRef>,
) -> Result<FileState, OutOfMemory>
    ensures { IfOk result (λ new. seen new ≡ effects.drops_held deck file (seen state)) }
{
    match file {
        None => Ok(state),
        Some(file) => Ok(holds_nothing(alloc, state, deck, file.slot)?),
    }
}

fn raised(held: Mode, asked: Mode) -> Mode
    ensures { result ≡ names.raised held asked }
{
    match (held, asked) {
        (Mode::Shared, Mode::Shared) => Mode::Shared,
        (Mode::Shared, Mode::Exclusive) => Mode::Exclusive,
        (Mode::Exclusive, Mode::Shared) => Mode::Exclusive,
        (Mode::Exclusive, Mode::Exclusive) => Mode::Exclusive,
    }
}

fn is_own(unit: Unit, name: &LockName, lock: &HeldLock) -> bool
    ensures { result ≡ names.is_own unit name.now lock.now }
{
    is_unit(unit, lock.unit) && *name == lock.name
}

/// A lock, raised where it is the unit's on the name.
fn raises(
    alloc: Global,
    unit: Unit,
    name: &LockName,
    mode: Mode,
    lock: &HeldLock,
) -> Result<HeldLock, OutOfMemory>
    ensures { IfOk result (λ new. new ≡ names.raises unit name.now mode lock.now) }
{
    let new = lock.copy(alloc)?;
    if is_own(unit, name, lock) {
        Ok(HeldLock {
            name: new.name,
            unit: new.unit,
            mode: raised(new.mode, mode),
        })
    } else {
        Ok(new)
    }
}

fn any_own(held: &[HeldLock], unit: Unit, name: &LockName) -> bool
    ensures { result ≡ list_any (names.is_own unit name.now) held.now }
{
    match held {
        [] => false,
        [first, rest @ ..] => is_own(unit, name, first) || any_own(rest, unit, name),
    }
}

fn all_raised(
    alloc: Global,
    held: &[HeldLock],
    unit: Unit,
    mode: Mode,
    name: &LockName,
) -> Result<Vec<HeldLock>, OutOfMemory>
    ensures { IfOk result (λ new. new.items ≡ map (names.raises unit name.now mode) held.now) }
{
    match held {
        [] => Ok(Vec::new(alloc)),
        [first, rest @ ..] => {
            let others = all_raised(alloc, rest, unit, mode, name)?;
            Ok(prepended(raises(alloc, unit, name, mode, first)?, others)?)
        }
    }
}

/// The locks with a name in a mode.
fn with_lock(
    alloc: Global,
    held: Vec<HeldLock>,
    unit: Unit,
    mode: Mode,
    name: &LockName,
) -> Result<Vec<HeldLock>, OutOfMemory>
    ensures { IfOk result (λ new. new.items ≡ names.with_lock unit mode name.now held.items) }
{
    if any_own(&held, unit, name) {
        let new = all_raised(alloc, &held, unit, mode, name)?;
        return Ok(new);
    }
    let mut held = held;
    held.push(HeldLock {
        name: name.copy(alloc)?,
        unit,
        mode,
    })?;
    Ok(held)
}

fn with_locks(
    alloc: Global,
    held: Vec<HeldLock>,
    unit: Unit,
    mode: Mode,
    asked: &[LockName],
) -> Result<Vec<HeldLock>, OutOfMemory>
    ensures { IfOk result (λ new. new.items ≡ names.with_locks unit mode asked.now held.items) }
{
    match asked {
        [] => Ok(held),
        [first, rest @ ..] => {
            let held = with_lock(alloc, held, unit, mode, first)?;
            Ok(with_locks(alloc, held, unit, mode, rest)?)
        }
    }
}

/// The unit takes its locks.
pub(crate) fn takes_locks(
    alloc: Global,
    state: FileState,
    unit: Unit,
    mode: Mode,
    asked: &[LockName],
) -> Result<FileState, OutOfMemory>
    ensures { IfOk result (λ new. seen new ≡ effects.locks unit mode asked.now (seen state)) }
{
    let mut state = state;
    let held = replace(&mut state.locks, Vec::new(alloc));
    state.locks = with_locks(alloc, held, unit, mode, asked)?;
    Ok(state)
}

/// A content where a place has an item from now on, or none.
fn placed_in(
    alloc: Global,
    change: &PlaceChange,
    placed: &[PlacedItem],
) -> Result<PartContent, OutOfMemory>
    ensures { IfOk result (λ new.
        new ≡ effects.placed_in change.now.place change.now.new placed.now) }
{
    match &change.new {
        None => Ok(PartContent::from_vec(without_item_in_slice(alloc, placed, &change.place)?)),
        Some(item) => {
            let item = item.copy(alloc)?;
            let items = with_item_in_slice(alloc, placed, &change.place, item)?;
            Ok(PartContent::from_vec(items))
        }
    }
}

/// The state with a content of one part.
fn with_part(
    alloc: Global,
    state: FileState,
    part: u32,
    content: PartContent,
) -> Result<FileState, OutOfMemory>
    ensures { IfOk result (λ new. seen new ≡ with_content part content (seen state)) }
{
    let mut state = state;
    let contents = replace(&mut state.contents, Contents::empty(alloc));
    state.contents = contents.with_part(alloc, part, content)?;
    Ok(state)
}

/// The state after a change of one place.
#[tactic(auto, using(crate::proofs::Pointwise::content_changed))]
pub(crate) fn changes(
    alloc: Global,
    state: FileState,
    change: &PlaceChange,
) -> Result<FileState, OutOfMemory>
    ensures { IfOk result (λ new. seen new ≡ effects.changes change.now (seen state)) }
{
    let content = placed_in(alloc, change, state.content(change.part))?;
    Ok(with_part(alloc, state, change.part, content)?)
}

/// What the unit keeps of a place that it changes.
fn image_kept(
    alloc: Global,
    state: &FileState,
    unit: Unit,
    change: &PlaceChange,
) -> Result<KeptImage, OutOfMemory>
    ensures { IfOk result (λ kept. kept ≡ effects.image_kept (seen state.now) unit change.now) }
{
    let placed = state.content(change.part);
    Ok(KeptImage {
        unit,
        part: change.part,
        place: change.place.copy(alloc)?,
        old: old_item(alloc, placed, &change.place)?,
    })
}

/// A copy of what stands at a place.
fn old_item(
    alloc: Global,
    placed: &[PlacedItem],
    place: &Place,
) -> Result<Option<Stored>, OutOfMemory>
    ensures { IfOk result (λ old. option_map item_of old ≡ item_at placed.now place.now) }
{
    match item_in_slice(placed, place) {
        None => Ok(None),
        Some(stored) => Ok(Some(stored.copy(alloc)?)),
    }
}

/// The unit's first change of a place keeps what stood there.
pub(crate) fn keeps_before(
    alloc: Global,
    state: FileState,
    unit: Unit,
    change: &PlaceChange,
) -> Result<FileState, OutOfMemory>
    ensures { IfOk result (λ new. seen new ≡ effects.keeps_before unit change.now (seen state)) }
{
    if is_kept(&state.befores, unit, change.part, &change.place) {
        return Ok(state);
    }
    let kept = image_kept(alloc, &state, unit, change)?;
    let mut state = state;
    state.befores.push(kept)?;
    Ok(state)
}

/// The places that are logged.
fn as_logged(
    alloc: Global,
    unit: Unit,
    images: &[LogImage],
) -> Result<Vec<LoggedPlace>, OutOfMemory>
    ensures { IfOk result (λ all. all.items ≡ map (effects.as_logged unit) images.now) }
{
    match images {
        [] => Ok(Vec::new(alloc)),
        [first, rest @ ..] => {
            let others = as_logged(alloc, unit, rest)?;
            let logged = LoggedPlace {
                unit,
                part: first.part,
                place: first.place.copy(alloc)?,
            };
            Ok(prepended(logged, others)?)
        }
    }
}

/// The places that a change logs, and the bytes that this takes.
pub(crate) fn logs(
    alloc: Global,
    state: FileState,
    unit: Unit,
    images: &[LogImage],
    need: u64,
) -> Result<FileState, OutOfMemory>
    ensures { IfOk result (λ new. seen new ≡ effects.logs unit images.now need (seen state)) }
{
    let mut state = state;
    let mut all = as_logged(alloc, unit, images)?;
    state.logged.append(&mut all)?;
    state.used = plus(state.used, need)?;
    Ok(state)
}

/// The before-images of a unit.
fn kept_of_unit(
    alloc: Global,
    befores: &[KeptImage],
    unit: Unit,
) -> Result<Vec<KeptImage>, OutOfMemory>
    ensures { IfOk result (λ all.
        all.items ≡ filter (λ kept. same_unit unit kept.unit) befores.now) }
{
    match befores {
        [] => Ok(Vec::new(alloc)),
        [first, rest @ ..] => {
            let others = kept_of_unit(alloc, rest, unit)?;
            if is_unit(unit, first.unit) {
                Ok(prepended(first.copy(alloc)?, others)?)
            } else {
                Ok(others)
            }
        }
    }
}

fn last_of(alloc: Global, befores: &[KeptImage]) -> Result<Option<KeptImage>, OutOfMemory>
    ensures { IfOk result (λ last. last ≡ effects.last_of befores.now) }
{
    match befores {
        [] => Ok(None),
        [only] => Ok(Some(only.copy(alloc)?)),
        [_, rest @ ..] => Ok(last_of(alloc, rest)?),
    }
}

/// The unit's last kept before-image.
pub(crate) fn last_kept(
    alloc: Global,
    state: &FileState,
    unit: Unit,
) -> Result<Option<KeptImage>, OutOfMemory>
    ensures { IfOk result (λ last. last ≡ effects.last_kept (seen state.now) unit) }
{
    let all = kept_of_unit(alloc, &state.befores, unit)?;
    let last = last_of(alloc, &all)?;
    Ok(last)
}

/// The before-images without the unit's last.
fn without_last(
    alloc: Global,
    befores: &[KeptImage],
    unit: Unit,
) -> Result<Vec<KeptImage>, OutOfMemory>
    ensures { IfOk result (λ left. left.items ≡ effects.without_last unit befores.now) }
{
    match befores {
        [] => Ok(Vec::new(alloc)),
        [first, rest @ ..] => {
            if is_unit(unit, first.unit) && !keeps_any(rest, unit) {
                Ok(copy_of_befores(alloc, rest)?)
            } else {
                let others = without_last(alloc, rest, unit)?;
                Ok(prepended(first.copy(alloc)?, others)?)
            }
        }
    }
}

/// The unit's last kept before-image is taken out.
pub(crate) fn takes_out(
    alloc: Global,
    state: FileState,
    unit: Unit,
) -> Result<FileState, OutOfMemory>
    ensures { IfOk result (λ new. seen new ≡ effects.takes_out unit (seen state)) }
{
    let mut state = state;
    let left = without_last(alloc, &state.befores, unit)?;
    state.befores = left;
    Ok(state)
}

/// An area gets a part.
pub(crate) fn claims(state: FileState, area: u32, part: u32) -> Result<FileState, OutOfMemory>
    ensures { IfOk result (λ new. seen new ≡ effects.claims area part (seen state)) }
{
    let mut state = state;
    state.owned.push(OwnedArea { area, part })?;
    Ok(state)
}

/// A write fault stops the volume.
pub(crate) fn stops(state: FileState, stamp: u64) -> FileState
    ensures { seen result ≡ effects.stops stamp (seen state) }
{
    let mut state = state;
    state.stopped = Some(stamp);
    state
}
