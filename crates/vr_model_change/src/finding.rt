//! Which record a read finds.
ghost use Rattle.std.specs.Prelude.{◌≡◌, ◌∷◌, ◌++◌, [], IfOk, Some, None, ◌==◌, ◌&&◌, not, filter};
ghost use Rattle.std.specs.Prelude.{take, map, option_map, option_and_then};
ghost use Rattle.std.specs.List.{filter_map};
ghost use Rattle.std.specs.Option.{option_copied};
ghost use Rattle.vr_altkey.specs.Pairs as pairs;
ghost use Rattle.vr_history.specs.Case as cases;
ghost use Rattle.vr_history.specs.Found as founds;
ghost use Rattle.vr_types.specs.Locks.{same_unit};
ghost use Rattle.vr_model_state.specs.Items.{item_of};
ghost use Rattle.vr_model_state.specs.OpenedFiles.{as_opened};
ghost use Rattle.vr_model_state.specs.Seen.{case_in, seen};

use std::alloc::Global;
use std::marker::Model;
use vr_model_state::{
    AlternateIndex, FileState, KeptImage, OpenedFile, PlacedItem, Stored, base_of, find_of,
    is_unit, opened, prepended, sees_kept, stand_of,
};
use vr_types::{Bytes, Find, OutOfMemory, Place, Request, Stand, Unit, bytes};

/// A record that a read may find: where it comes in the order of the read, its place in the base,
/// and its bytes.
#[derive(Drop)]
pub struct FoundRecord {
    pub at: Place,
    pub base: Place,
    pub bytes: Bytes,
}

impl Model for FoundRecord {
    ghost use Rattle.vr_history.specs.Found.{Candidate};

    ghost Value = { Candidate };

    ghost view = { λ found. record { at = found.at; base = found.base; bytes = found.bytes } };
}

impl FoundRecord {
    /// An equal value; fails only if memory runs out.
    fn copy(&self, alloc: Global) -> Result<FoundRecord, OutOfMemory>
        ensures { IfOk result (λ copy. copy ≡ self.now) }
    {
        Ok(FoundRecord {
            at: self.at.copy(alloc)?,
            base: self.base.copy(alloc)?,
            bytes: self.bytes.copy(alloc)?,
        })
    }
}

/// The record of an item with its place, if it is one.
fn standing(alloc: Global, placed: &PlacedItem) -> Result<Option<(Place, Bytes)>, OutOfMemory>
    ensures { IfOk result (λ this. this ≡ founds.standing_at placed.now.0 (Some placed.now.1)) }
{
    match placed.item().record() {
        None => Ok(None),
        Some(record) => Ok(Some((placed.place().copy(alloc)?, bytes(alloc, record)?))),
    }
}

/// The record of what may be stored, with its place, if it is one.
fn standing_at(
    alloc: Global,
    place: &Place,
    stored: &Option<Stored>,
) -> Result<Option<(Place, Bytes)>, OutOfMemory>
    ensures { IfOk result (λ this.
        this ≡ founds.standing_at place.now (option_map item_of stored.now)) }
{
    match stored {
        None => Ok(None),
        Some(Stored::Withdrawn(_)) => Ok(None),
        Some(Stored::Standing(record)) => Ok(Some((place.copy(alloc)?, record.copy(alloc)?))),
    }
}

/// The records of a content with their places.
pub fn records_in(alloc: Global, placed: &[PlacedItem]) -> Result<Vec<(Place, Bytes)>, OutOfMemory>
    ensures { IfOk result (λ records. records.items ≡ founds.records_in placed.now) }
{
    match placed {
        [] => Ok(Vec::new(alloc)),
        [first, rest @ ..] => {
            let others = records_in(alloc, rest)?;
            match standing(alloc, first)? {
                None => Ok(others),
                Some(record) => Ok(prepended(record, others)?),
            }
        }
    }
}

/// The records of a part that other units may bring back.
fn kept_by_others(
    alloc: Global,
    unit: Unit,
    part: u32,
    befores: &[KeptImage],
) -> Result<Vec<(Place, Bytes)>, OutOfMemory>
    ensures { IfOk result (λ records. records.items ≡ founds.kept_by_others unit part befores.now) }
{
    match befores {
        [] => Ok(Vec::new(alloc)),
        [first, rest @ ..] => {
            let others = kept_by_others(alloc, unit, part, rest)?;
            if is_unit(unit, first.unit) || first.part != part {
                return Ok(others);
            }
            match standing_at(alloc, &first.place, &first.old)? {
                None => Ok(others),
                Some(record) => Ok(prepended(record, others)?),
            }
        }
    }
}

/// Two lists, one after the other.
pub fn joined<T: Drop>(first: Vec<T>, second: Vec<T>) -> Result<Vec<T>, OutOfMemory>
    ensures { IfOk result (λ all. all.items ≡ first.items ++ second.items) }
{
    let mut all = first;
    let mut second = second;
    all.append(&mut second)?;
    Ok(all)
}

/// The records that a request may see.
fn seen_records(
    alloc: Global,
    state: &FileState,
    unit: Unit,
    request: &Request,
) -> Result<Vec<(Place, Bytes)>, OutOfMemory>
    ensures { IfOk result (λ records. let asked = case_in state.now unit request.now in
        records.items ≡ founds.seen_by (cases.sees_kept request.now) asked) }
{
    let base = base_of(request);
    let standing = records_in(alloc, state.content(base))?;
    if sees_kept(request) {
        let kept = kept_by_others(alloc, unit, base, &state.befores)?;
        Ok(joined(standing, kept)?)
    } else {
        Ok(standing)
    }
}

/// The alternate field of a record, if the record is long enough for it.
pub(crate) fn field_of<'a>(index: &AlternateIndex, bytes: &'a [u8]) -> Option<&'a [u8]>
    ensures { option_copied result
        ≡ pairs.field_of index.now.key_length index.now.key_offset bytes.now }
{
    let from = index.key_offset as usize;
    let to = from + index.key_length as usize;
    if to <= bytes.len() {
        Some(&bytes[from..to])
    } else {
        None
    }
}

/// A key, and then a place.
pub(crate) fn pair_place(alloc: Global, key: &[u8], place: &Place) -> Result<Place, OutOfMemory>
    ensures { IfOk result (λ pair. pair ≡ key.now ++ place.now) }
{
    let mut pair = Vec::from_slice(alloc, key)?;
    pair.extend_from_slice(place.as_slice())?;
    Ok(Place::from_vec(pair))
}

/// A record as a read of the file may find it, if it may.
fn candidate_in(
    alloc: Global,
    opened: &OpenedFile,
    this: &(Place, Bytes),
) -> Result<Option<FoundRecord>, OutOfMemory>
    ensures { IfOk result (λ found. found ≡ founds.candidate_in (as_opened opened.now) this.now) }
{
    let (place, bytes) = this;
    match opened {
        OpenedFile::Unknown => Ok(None),
        OpenedFile::Cluster(_) => Ok(Some(FoundRecord {
            at: place.copy(alloc)?,
            base: place.copy(alloc)?,
            bytes: bytes.copy(alloc)?,
        })),
        OpenedFile::ByPath(_, index) => match field_of(index, bytes.as_slice()) {
            None => Ok(None),
            Some(field) => Ok(Some(FoundRecord {
                at: pair_place(alloc, field, place)?,
                base: place.copy(alloc)?,
                bytes: bytes.copy(alloc)?,
            })),
        },
    }
}

/// Records as a read of the file may find them.
pub fn candidates_in(
    alloc: Global,
    opened: &OpenedFile,
    records: &[(Place, Bytes)],
) -> Result<Vec<FoundRecord>, OutOfMemory>
    ensures { IfOk result (λ found.
        found.items ≡ filter_map (founds.candidate_in (as_opened opened.now)) records.now) }
{
    match records {
        [] => Ok(Vec::new(alloc)),
        [first, rest @ ..] => {
            let others = candidates_in(alloc, opened, rest)?;
            match candidate_in(alloc, opened, first)? {
                None => Ok(others),
                Some(record) => Ok(prepended(record, others)?),
            }
        }
    }
}

/// The records that a read may find.
fn candidates(
    alloc: Global,
    state: &FileState,
    unit: Unit,
    request: &Request,
) -> Result<Vec<FoundRecord>, OutOfMemory>
    ensures { IfOk result (λ found.
        found.items ≡ founds.candidates (case_in state.now unit request.now)) }
{
    let opened = opened(alloc, state, unit, request)?;
    let records = seen_records(alloc, state, unit, request)?;
    let found = candidates_in(alloc, &opened, &records)?;
    Ok(found)
}

/// Whether a place comes where a sequential read goes on.
fn is_past(stand: &Stand, at: &Place) -> bool
    ensures { result ≡ founds.is_past stand.now at.now }
{
    match stand {
        Stand::Start => true,
        Stand::At(place) => place.cmp(at).is_le(),
        Stand::After(place) => place.cmp(at).is_lt(),
        Stand::End => false,
        Stand::None => false,
    }
}

/// The first bytes of a slice, at most n.
pub(crate) fn first_bytes(all: &[u8], n: usize) -> &[u8]
    ensures { result.now ≡ take n all.now }
{
    if n < all.len() { &all[..n] } else { all }
}

/// The key of a pair of an alternate index.
pub fn key_of_pair<'a>(index: &AlternateIndex, at: &'a Place) -> &'a [u8]
    ensures { result.now ≡ take index.now.key_length at.now }
{
    first_bytes(at.as_slice(), index.key_length as usize)
}

/// Whether a direct read for a place, or through a path for a key, finds what comes at a place.
fn is_at(opened: &OpenedFile, place: &Place, at: &Place) -> bool
    ensures { result ≡ founds.is_at (as_opened opened.now) place.now at.now }
{
    match opened {
        OpenedFile::Unknown => false,
        OpenedFile::Cluster(_) => place == at,
        OpenedFile::ByPath(_, index) => place.as_slice() == key_of_pair(index, at),
    }
}

/// Whether a read asks for a record.
fn is_asked(opened: &OpenedFile, stand: &Stand, find: &Find, this: &FoundRecord) -> bool
    ensures { result ≡ founds.is_asked (as_opened opened.now) stand.now find.now this.now }
{
    match find {
        Find::Next => is_past(stand, &this.at),
        Find::Equal(place) => is_at(opened, place, &this.at),
        Find::AtLeast(place) => place.cmp(&this.at).is_le(),
    }
}

/// The one of two records that comes first.
fn lower_of(this: FoundRecord, other: Option<FoundRecord>) -> FoundRecord
    ensures { result ≡ founds.lower_of this other }
{
    match other {
        None => this,
        Some(other) => {
            if this.at.cmp(&other.at).is_le() {
                this
            } else {
                other
            }
        }
    }
}

/// The first of those records that a read asks for.
fn lowest_asked(
    alloc: Global,
    opened: &OpenedFile,
    stand: &Stand,
    find: &Find,
    records: &[FoundRecord],
) -> Result<Option<FoundRecord>, OutOfMemory>
    ensures { IfOk result (λ found. found ≡ founds.lowest
        (filter (founds.is_asked (as_opened opened.now) stand.now find.now) records.now)) }
{
    match records {
        [] => Ok(None),
        [first, rest @ ..] => {
            let other = lowest_asked(alloc, opened, stand, find, rest)?;
            if is_asked(opened, stand, find, first) {
                Ok(Some(lower_of(first.copy(alloc)?, other)))
            } else {
                Ok(other)
            }
        }
    }
}

/// The record that a read finds from where its file stands.
fn found_from(
    alloc: Global,
    state: &FileState,
    unit: Unit,
    request: &Request,
    stand: &Stand,
    find: &Find,
) -> Result<Option<FoundRecord>, OutOfMemory>
    ensures { IfOk result (λ found.
        found ≡ founds.found_from (case_in state.now unit request.now) stand.now find.now) }
{
    let opened = opened(alloc, state, unit, request)?;
    let records = candidates(alloc, state, unit, request)?;
    let found = lowest_asked(alloc, &opened, stand, find, &records)?;
    Ok(found)
}

/// The record that a read finds.
pub fn found(
    alloc: Global,
    state: &FileState,
    unit: Unit,
    request: &Request,
) -> Result<Option<FoundRecord>, OutOfMemory>
    ensures { IfOk result (λ found. found ≡ founds.found (case_in state.now unit request.now)) }
{
    let Some(stand) = stand_of(alloc, state, unit, request)? else {
        return Ok(None);
    };
    match find_of(request) {
        None => Ok(None),
        Some(find) => Ok(found_from(alloc, state, unit, request, &stand, find)?),
    }
}

/// The place of the base that a read asks for.
fn place_in(
    alloc: Global,
    opened: &OpenedFile,
    find: &Find,
    found: Option<FoundRecord>,
) -> Result<Option<Place>, OutOfMemory>
    ensures { IfOk result (λ place. place ≡ founds.place_in (as_opened opened.now) find.now found) }
{
    match (opened, find) {
        (OpenedFile::Unknown, _) => Ok(None),
        (OpenedFile::Cluster(_), Find::Equal(place)) => Ok(Some(place.copy(alloc)?)),
        _ => Ok(found.map(|record| record.base)),
    }
}

/// The place of the base that the read of a request asks for, if it asks for one.
pub fn place_read(
    alloc: Global,
    state: &FileState,
    unit: Unit,
    request: &Request,
) -> Result<Option<Place>, OutOfMemory>
    ensures { IfOk result (λ place.
        place ≡ founds.place_read (case_in state.now unit request.now)) }
{
    match find_of(request) {
        None => Ok(None),
        Some(find) => {
            let opened = opened(alloc, state, unit, request)?;
            let found = found(alloc, state, unit, request)?;
            Ok(place_in(alloc, &opened, find, found)?)
        }
    }
}
