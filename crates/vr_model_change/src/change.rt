//! What a request changes: one place of the base cluster, and the pairs of its alternate indexes.
ghost use Rattle.std.specs.Prelude.{◌≡◌, ◌∷◌, ◌++◌, [], IfOk, Some, None, filter, take, drop, map};
ghost use Rattle.std.specs.Prelude.{option_map, option_and_then};
ghost use Rattle.std.specs.Option.{option_copied, option_map_or};
ghost use Rattle.vr_catalog.specs.Definition as definitions;
ghost use Rattle.vr_types.specs.Content.{Standing, record_at};
ghost use Rattle.vr_history.specs.Case as cases;
ghost use Rattle.vr_history.specs.Change as moves;
ghost use Rattle.vr_history.specs.Opened as files;
ghost use Rattle.vr_model_state.specs.Items.{item_of};
ghost use Rattle.vr_model_state.specs.Seen.{case_in, seen};

use crate::address::{next_address, place_of_number};
use crate::finding::{field_of, first_bytes};
use std::alloc::Global;
use std::marker::Model;
use vr_catalog::Definition;
use vr_model_state::{
    AlternateIndex, FileState, Stored, base_of, built_over, definition_in, dropped, is_add,
    new_record, opened, prepended, record_in_slice,
};
use vr_types::{Bytes, Kind, OutOfMemory, Place, Request, Unit, bytes, place};

/// The bytes of a slice from one on.
fn bytes_from(all: &[u8], from: usize) -> &[u8]
    ensures { result.now ≡ drop from all.now }
{
    if from < all.len() {
        &all[from..]
    } else {
        &all[all.len()..]
    }
}

/// The key of a record, as far as it reaches.
pub fn key_of<'a>(definition: &Definition, bytes: &'a [u8]) -> &'a [u8]
    ensures { result.now ≡ definitions.key_of definition.now bytes.now }
{
    let rest = bytes_from(bytes, definition.key_offset as usize);
    first_bytes(rest, definition.key_length as usize)
}

/// The place of an added record.
fn place_added(
    alloc: Global,
    state: &FileState,
    unit: Unit,
    request: &Request,
    definition: &Definition,
    named: &Option<Place>,
    bytes: &Bytes,
) -> Result<Place, OutOfMemory>
    ensures { IfOk result (λ place. place ≡ moves.place_added (case_in state.now unit request.now)
        definition.now named.now bytes.now) }
{
    match definition.kind {
        Kind::Keyed => Ok(place(alloc, key_of(definition, bytes.as_slice()))?),
        Kind::Entry => {
            let placed = state.content(base_of(request));
            let address = next_address(state.shape.size(), placed, bytes.len() as u64)?;
            Ok(place_of_number(alloc, address)?)
        }
        Kind::Relative => match named {
            None => Ok(place(alloc, &[])?),
            Some(named) => Ok(named.copy(alloc)?),
        },
    }
}

/// The place of a PUT add, if its file can be opened.
fn place_of_add(
    alloc: Global,
    state: &FileState,
    unit: Unit,
    request: &Request,
    named: &Option<Place>,
    bytes: &Bytes,
) -> Result<Option<Place>, OutOfMemory>
    ensures { IfOk result (λ place. let asked = case_in state.now unit request.now in
        place ≡ option_map (λ definition. moves.place_added asked definition named.now bytes.now)
        (files.definition_in (files.opened asked))) }
{
    let opened = opened(alloc, state, unit, request)?;
    match definition_in(&opened) {
        None => Ok(None),
        Some(definition) => {
            let place = place_added(alloc, state, unit, request, &definition, named, bytes)?;
            Ok(Some(place))
        }
    }
}

/// The place that a request changes, if it changes one.
pub fn place_changed(
    alloc: Global,
    state: &FileState,
    unit: Unit,
    request: &Request,
) -> Result<Option<Place>, OutOfMemory>
    ensures { IfOk result (λ place.
        place ≡ moves.place_changed (case_in state.now unit request.now)) }
{
    match request {
        Request::Add { place, bytes, .. } => {
            Ok(place_of_add(alloc, state, unit, request, place, bytes)?)
        }
        Request::Update { .. } => Ok(dropped(alloc, state, unit, request)?),
        Request::Erase { .. } => Ok(dropped(alloc, state, unit, request)?),
        Request::Get { .. } | Request::Point { .. } | Request::EndReq { .. } => Ok(None),
        Request::Commit | Request::Backout => Ok(None),
    }
}

/// What stands at a place of a part from now on, if anything.
#[derive(Drop)]
pub struct PlaceChange {
    pub part: u32,
    pub place: Place,
    pub new: Option<Stored>,
}

impl Model for PlaceChange {
    ghost use Rattle.vr_history.specs.Change.{Change};

    ghost Value = { Change };

    ghost use Rattle.std.specs.Prelude.{option_map};
    ghost use Rattle.vr_model_state.specs.Items.{item_of};

    ghost view = { λ change. record {
      part = change.part;
      place = change.place;
      new = option_map item_of change.new;
    } };
}

/// What a request gives its place.
fn new_item(alloc: Global, request: &Request) -> Result<Option<Stored>, OutOfMemory>
    ensures { IfOk result (λ stored. option_map item_of stored
        ≡ option_map Standing (cases.new_record request.now)) }
{
    match new_record(request) {
        None => Ok(None),
        Some(record) => Ok(Some(Stored::Standing(bytes(alloc, record)?))),
    }
}

/// The one change to the base cluster of a request that is done.
pub fn change_of(
    alloc: Global,
    state: &FileState,
    unit: Unit,
    request: &Request,
) -> Result<Option<PlaceChange>, OutOfMemory>
    ensures { IfOk result (λ change.
        change ≡ moves.change_of (case_in state.now unit request.now)) }
{
    match place_changed(alloc, state, unit, request)? {
        None => Ok(None),
        Some(place) => Ok(Some(PlaceChange {
            part: base_of(request),
            place,
            new: new_item(alloc, request)?,
        })),
    }
}

/// The record at a place of the base cluster.
pub fn record_held<'a>(state: &'a FileState, request: &Request, place: &Place) -> Option<&'a [u8]>
    ensures { option_copied result ≡ record_at ((seen state.now).contents
        (option_map_or (λ file. file.base.0) (cases.file_of request.now) 0)) place.now }
{
    record_in_slice(state.content(base_of(request)), place)
}

/// A copy of bytes that there may be.
pub fn copy_of_bytes(alloc: Global, from: Option<&[u8]>) -> Result<Option<Bytes>, OutOfMemory>
    ensures { IfOk result (λ copy. copy ≡ option_copied from.entry) }
{
    match from {
        None => Ok(None),
        Some(from) => Ok(Some(bytes(alloc, from)?)),
    }
}

/// The record that a change takes the place of.
pub fn old_record(
    alloc: Global,
    state: &FileState,
    unit: Unit,
    request: &Request,
) -> Result<Option<Bytes>, OutOfMemory>
    ensures { IfOk result (λ old. old ≡ moves.old_record (case_in state.now unit request.now)) }
{
    if is_add(request) {
        return Ok(None);
    }
    match place_changed(alloc, state, unit, request)? {
        None => Ok(None),
        Some(place) => Ok(copy_of_bytes(alloc, record_held(state, request, &place))?),
    }
}

/// How a change moves the pair of one alternate index.
#[derive(Drop)]
pub struct KeyMove {
    pub alternate: AlternateIndex,
    pub place: Place,
    pub given_up: Option<Place>,
    pub taken: Option<Place>,
}

impl Model for KeyMove {
    ghost use Rattle.vr_history.specs.Change.{PairMove};

    ghost Value = { PairMove };

    ghost view = { λ moved. record {
      alternate = moved.alternate;
      place = moved.place;
      given_up = moved.given_up;
      taken = moved.taken;
    } };
}

/// The alternate field of a record that there may be.
pub fn field_in(
    alloc: Global,
    index: &AlternateIndex,
    from: Option<&[u8]>,
) -> Result<Option<Place>, OutOfMemory>
    ensures { IfOk result (λ key. key ≡ moves.field_in index.now (option_copied from.entry)) }
{
    let Some(from) = from else {
        return Ok(None);
    };
    match field_of(index, from) {
        None => Ok(None),
        Some(field) => Ok(Some(place(alloc, field)?)),
    }
}

/// The alternate field of the record that a change takes the place of.
fn field_given_up(
    alloc: Global,
    state: &FileState,
    unit: Unit,
    request: &Request,
    index: &AlternateIndex,
) -> Result<Option<Place>, OutOfMemory>
    ensures { IfOk result (λ key. key
        ≡ moves.field_in index.now (moves.old_record (case_in state.now unit request.now))) }
{
    match old_record(alloc, state, unit, request)? {
        None => Ok(None),
        Some(old) => Ok(field_in(alloc, index, Some(old.as_slice()))?),
    }
}

/// How a request moves the pair of one alternate index.
pub fn move_of(
    alloc: Global,
    state: &FileState,
    unit: Unit,
    request: &Request,
    place: &Place,
    index: &AlternateIndex,
) -> Result<KeyMove, OutOfMemory>
    ensures { IfOk result (λ moved. moved
        ≡ moves.move_of (case_in state.now unit request.now) place.now index.now) }
{
    Ok(KeyMove {
        alternate: index.copy(),
        place: place.copy(alloc)?,
        given_up: field_given_up(alloc, state, unit, request, index)?,
        taken: field_in(alloc, index, new_record(request))?,
    })
}

/// Whether both keys are there and the same, or neither is there.
fn is_same_key(one: &Option<Place>, other: &Option<Place>) -> bool
    ensures { result ≡ moves.is_same_key one.now other.now }
{
    match (one, other) {
        (None, None) => true,
        (Some(one), Some(other)) => one == other,
        _ => false,
    }
}

/// Whether a pair moves at all.
pub fn moves_key(moved: &KeyMove) -> bool
    ensures { result ≡ moves.moves_key moved.now }
{
    !is_same_key(&moved.given_up, &moved.taken)
}

/// The pairs that a request moves, of some alternate indexes.
fn moves_in(
    alloc: Global,
    state: &FileState,
    unit: Unit,
    request: &Request,
    place: &Place,
    indexes: &[AlternateIndex],
) -> Result<Vec<KeyMove>, OutOfMemory>
    ensures { IfOk result (λ all. all.items ≡ filter moves.moves_key
        (map (moves.move_of (case_in state.now unit request.now) place.now) indexes.now)) }
{
    match indexes {
        [] => Ok(Vec::new(alloc)),
        [first, rest @ ..] => {
            let others = moves_in(alloc, state, unit, request, place, rest)?;
            let moved = move_of(alloc, state, unit, request, place, first)?;
            if moves_key(&moved) {
                Ok(prepended(moved, others)?)
            } else {
                Ok(others)
            }
        }
    }
}

/// The pairs that a request moves, by the part numbers of their alternate indexes.
pub fn pair_moves(
    alloc: Global,
    state: &FileState,
    unit: Unit,
    request: &Request,
) -> Result<Vec<KeyMove>, OutOfMemory>
    ensures { IfOk result (λ all.
        all.items ≡ moves.pair_moves (case_in state.now unit request.now)) }
{
    match place_changed(alloc, state, unit, request)? {
        None => Ok(Vec::new(alloc)),
        Some(place) => {
            let built = built_over(alloc, state, base_of(request))?;
            let all = moves_in(alloc, state, unit, request, &place, &built)?;
            Ok(all)
        }
    }
}
