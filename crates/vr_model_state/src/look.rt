//! What a state has of a part, a file and a unit of recovery.
ghost use Rattle.std.specs.Prelude.{◌≡◌, ◌∷◌, [], IfOk, Some, None, ◌==◌, ◌&&◌, ◌≤◌, bytes_eq};
ghost use Rattle.std.specs.Prelude.{filter, length};
ghost use Rattle.std.specs.List.{list_any};
ghost use Rattle.std.specs.Option.{option_copied, option_map};
ghost use Rattle.vr_types.specs.Content.{item_at};
ghost use Rattle.vr_history.specs.Case as cases;
ghost use Rattle.vr_history.specs.Found as founds;
ghost use Rattle.vr_types.specs.Locks.{same_unit};
ghost use Rattle.vr_model_state.specs.Items.{item_of};
ghost use Rattle.vr_model_state.specs.Seen.{case_in, number_in, position_in, seen};

use crate::content::{PlacedItem, Stored, item_in_slice};
use crate::request::file_of;
use crate::state::{FilePosition, FileState, KeptImage, LoggedPlace, OwnedArea};
use std::alloc::Global;
use vr_types::{OutOfMemory, Place, Position, Request, Stand, Unit};

impl FileState {
    /// The content of a part.
    pub fn content(&self, part: u32) -> &[PlacedItem]
        ensures { result.now ≡ (seen self.now).contents part }
    {
        self.contents.of_part(part)
    }

    /// What stands at a place of a part.
    pub fn item_at(&self, part: u32, place: &Place) -> Option<&Stored>
        ensures { option_map item_of (option_copied result)
            ≡ item_at ((seen self.now).contents part) place.now }
    {
        item_in_slice(self.content(part), place)
    }

    /// Where a file of a deck stands, and what it holds; fails only if memory runs out.
    pub fn position(&self, alloc: Global, deck: u32, slot: u32) -> Result<Position, OutOfMemory>
        ensures { IfOk result (λ position. position ≡ (seen self.now).positions deck slot) }
    {
        Ok(position_of_file(alloc, &self.positions, deck, slot)?)
    }

    /// The number of a deck's unit of recovery.
    pub fn number(&self, deck: u32) -> u64
        ensures { result ≡ (seen self.now).numbers deck }
    {
        number_of_deck(&self.numbers, deck)
    }
}

/// Where a file stands, and what it holds.
pub fn position_of_file(
    alloc: Global,
    positions: &[FilePosition],
    deck: u32,
    slot: u32,
) -> Result<Position, OutOfMemory>
    ensures { IfOk result (λ position. position ≡ position_in positions.now deck slot) }
{
    match positions {
        [] => Ok(Position {
            stand: Stand::Start,
            held: None,
        }),
        [first, rest @ ..] => {
            if deck == first.deck && slot == first.slot {
                first.position.copy(alloc)
            } else {
                position_of_file(alloc, rest, deck, slot)
            }
        }
    }
}

/// The number of a deck's unit.
pub fn number_of_deck(numbers: &[(u32, u64)], deck: u32) -> u64
    ensures { result ≡ number_in numbers.now deck }
{
    match numbers {
        [] => 1,
        [first, rest @ ..] => {
            if deck == first.0 {
                first.1
            } else {
                number_of_deck(rest, deck)
            }
        }
    }
}

/// Whether two names are of one unit of recovery.
pub fn is_unit(unit: Unit, other: Unit) -> bool
    ensures { result ≡ same_unit unit other }
{
    unit.deck == other.deck && unit.number == other.number
}

/// Whether the log has a before record of a unit.
pub fn is_live(logged: &[LoggedPlace], unit: Unit) -> bool
    ensures { result ≡ list_any (λ log. same_unit unit log.unit) logged.now }
{
    match logged {
        [] => false,
        [first, rest @ ..] => is_unit(unit, first.unit) || is_live(rest, unit),
    }
}

/// Whether the log has a before record of a place for a unit.
pub fn is_logged(logged: &[LoggedPlace], unit: Unit, part: u32, place: &Place) -> bool
    ensures { result ≡ list_any (λ log. same_unit unit log.unit
        && (log.part == part && bytes_eq place.now log.place)) logged.now }
{
    match logged {
        [] => false,
        [first, rest @ ..] => {
            (is_unit(unit, first.unit) && (first.part == part && *place == first.place))
                || is_logged(rest, unit, part, place)
        }
    }
}

/// Whether a unit keeps a before-image of a place.
pub fn is_kept(befores: &[KeptImage], unit: Unit, part: u32, place: &Place) -> bool
    ensures { result ≡ list_any (λ kept. same_unit unit kept.unit
        && (kept.part == part && bytes_eq place.now kept.place)) befores.now }
{
    match befores {
        [] => false,
        [first, rest @ ..] => {
            (is_unit(unit, first.unit) && (first.part == part && *place == first.place))
                || is_kept(rest, unit, part, place)
        }
    }
}

/// Whether a unit keeps any before-image.
pub fn keeps_any(befores: &[KeptImage], unit: Unit) -> bool
    ensures { result ≡ list_any (λ kept. same_unit unit kept.unit) befores.now }
{
    match befores {
        [] => false,
        [first, rest @ ..] => is_unit(unit, first.unit) || keeps_any(rest, unit),
    }
}

/// The areas of a part.
pub fn areas_of(owned: &[OwnedArea], part: u32) -> usize
    ensures value { result ≡ length (filter (λ area. area.part == part) owned.now) }
    ensures bound { result ≤ length owned.now }
{
    match owned {
        [] => 0,
        [first, rest @ ..] => {
            let others = areas_of(rest, part);
            if first.part == part {
                others + 1
            } else {
                others
            }
        }
    }
}

/// Where the file of a request stands, if it is on one.
pub fn stand_of(
    alloc: Global,
    state: &FileState,
    unit: Unit,
    request: &Request,
) -> Result<Option<Stand>, OutOfMemory>
    ensures { IfOk result (λ stand. stand ≡ founds.stand_of (case_in state.now unit request.now)) }
{
    match file_of(request) {
        None => Ok(None),
        Some(file) => {
            let position = position_of_file(alloc, &state.positions, unit.deck, file.slot)?;
            Ok(Some(position.stand))
        }
    }
}

/// The place of the record that the request's file holds for update.
pub fn dropped(
    alloc: Global,
    state: &FileState,
    unit: Unit,
    request: &Request,
) -> Result<Option<Place>, OutOfMemory>
    ensures { IfOk result (λ place. place ≡ cases.dropped (case_in state.now unit request.now)) }
{
    match file_of(request) {
        None => Ok(None),
        Some(file) => {
            let position = position_of_file(alloc, &state.positions, unit.deck, file.slot)?;
            Ok(position.held)
        }
    }
}
