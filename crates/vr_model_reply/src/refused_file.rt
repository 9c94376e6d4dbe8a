//! Refusals of a request by the file that it is on, and by the places and records that it names.
ghost use Rattle.std.specs.Prelude.{◌≡◌, [], IfOk, Some, None, min, length, ◌^◌, ◌-◌};
ghost use Rattle.std.specs.List.{list_any};
ghost use Rattle.std.specs.Option.{option_copied};
ghost use Rattle.vr_history.specs.RefusedFile as refusals;
ghost use Rattle.vr_model_state.specs.OpenedFiles.{as_opened};
ghost use Rattle.vr_model_state.specs.Seen.{case_in, seen};

use std::alloc::Global;
use vr_model_change::number_of;
use vr_model_state::{FileState, LoggedPlace, OpenedFile, file_of, opened};
use vr_types::{Find, Kind, OutOfMemory, Place, Refusal, Request, Unit};

/// A refusal where a test holds.
pub(crate) fn refused_if(test: bool, refusal: Refusal) -> Option<Refusal>
    ensures { result ≡ refusals.refused_if test refusal }
{
    if test { Some(refusal) } else { None }
}

fn is_unknown(opened: &OpenedFile) -> bool
    ensures { result ≡ refusals.is_unknown (as_opened opened.now) }
{
    match opened {
        OpenedFile::Unknown => true,
        OpenedFile::Cluster(_) => false,
        OpenedFile::ByPath(_, _) => false,
    }
}

/// Whether a unit of the utilities that changed the catalog is still live.
fn changes_catalog(logged: &[LoggedPlace]) -> bool
    ensures { result ≡ list_any refusals.changed_catalog logged.now }
{
    match logged {
        [] => false,
        [first, rest @ ..] => (first.unit.deck == 0 && first.part == 0) || changes_catalog(rest),
    }
}

fn is_catalog_changing(state: &FileState, unit: Unit, request: &Request) -> bool
    ensures { result ≡ refusals.is_catalog_changing (case_in state.now unit request.now) }
{
    unit.deck != 0 && (state.stopped.is_none() && changes_catalog(&state.logged))
}

/// The name is in no catalog, or what it names can't be opened.
pub(crate) fn no_file(
    alloc: Global,
    state: &FileState,
    unit: Unit,
    request: &Request,
) -> Result<Option<Refusal>, OutOfMemory>
    ensures { IfOk result (λ refusal.
        refusal ≡ refusals.no_file (case_in state.now unit request.now)) }
{
    if file_of(request).is_none() {
        return Ok(None);
    }
    let opened = opened(alloc, state, unit, request)?;
    let unopened = is_unknown(&opened) || is_catalog_changing(state, unit, request);
    Ok(refused_if(unopened, Refusal::NoFile))
}

/// A write or a sync of the volume failed earlier.
pub(crate) fn stopped(state: &FileState, unit: Unit, request: &Request) -> Option<Refusal>
    ensures { result ≡ refusals.stopped (case_in state.now unit request.now) }
{
    match state.stopped {
        None => None,
        Some(stamp) => Some(Refusal::Stopped { stamp }),
    }
}

fn has_form(kind: Kind, place: &Place) -> bool
    ensures { result ≡ refusals.has_form kind place.now }
{
    let length = place.as_slice().len();
    match kind {
        Kind::Keyed => length != 0,
        Kind::Entry => length == 4,
        Kind::Relative => length == 4,
    }
}

fn goes_with(opened: &OpenedFile, place: &Place) -> bool
    ensures { result ≡ refusals.goes_with (as_opened opened.now) place.now }
{
    match opened {
        OpenedFile::Unknown => true,
        OpenedFile::Cluster(definition) => has_form(definition.kind, place),
        OpenedFile::ByPath(_, _) => has_form(Kind::Keyed, place),
    }
}

fn allows_find(opened: &OpenedFile, find: &Find) -> bool
    ensures { result ≡ refusals.allows_find (as_opened opened.now) find.now }
{
    match find {
        Find::Next => true,
        Find::Equal(place) => goes_with(opened, place),
        Find::AtLeast(place) => goes_with(opened, place),
    }
}

fn allows_point(opened: &OpenedFile, find: &Find) -> bool
    ensures { result ≡ refusals.allows_point (as_opened opened.now) find.now }
{
    match find {
        Find::Next => false,
        Find::Equal(place) => goes_with(opened, place),
        Find::AtLeast(place) => goes_with(opened, place),
    }
}

fn allows_slot(kind: Kind, named: &Option<Place>) -> bool
    ensures { result ≡ refusals.allows_slot kind named.now }
{
    match kind {
        Kind::Keyed => named.is_none(),
        Kind::Entry => named.is_none(),
        Kind::Relative => match named {
            None => false,
            Some(place) => has_form(Kind::Relative, place),
        },
    }
}

fn allows_add(opened: &OpenedFile, named: &Option<Place>) -> bool
    ensures { result ≡ refusals.kind_allows (λ kind. refusals.allows_slot kind named.now)
        (as_opened opened.now) }
{
    match opened {
        OpenedFile::Unknown => true,
        OpenedFile::Cluster(definition) => allows_slot(definition.kind, named),
        OpenedFile::ByPath(definition, _) => allows_slot(definition.kind, named),
    }
}

fn can_erase(kind: Kind) -> bool
    ensures { result ≡ refusals.can_erase kind }
{
    match kind {
        Kind::Keyed => true,
        Kind::Entry => false,
        Kind::Relative => true,
    }
}

fn allows_erase(opened: &OpenedFile) -> bool
    ensures { result ≡ refusals.kind_allows refusals.can_erase (as_opened opened.now) }
{
    match opened {
        OpenedFile::Unknown => true,
        OpenedFile::Cluster(definition) => can_erase(definition.kind),
        OpenedFile::ByPath(definition, _) => can_erase(definition.kind),
    }
}

fn goes_with_kind(opened: &OpenedFile, request: &Request) -> bool
    ensures { result ≡ refusals.goes_with_kind (as_opened opened.now) request.now }
{
    match request {
        Request::Get { find, .. } => allows_find(opened, find),
        Request::Point { find, .. } => allows_point(opened, find),
        Request::Add { place, .. } => allows_add(opened, place),
        Request::Update { .. } => true,
        Request::Erase { .. } => allows_erase(opened),
        Request::EndReq { .. } | Request::Commit | Request::Backout => true,
    }
}

/// The request doesn't go with the kind of the data set.
pub(crate) fn not_allowed(
    alloc: Global,
    state: &FileState,
    unit: Unit,
    request: &Request,
) -> Result<Option<Refusal>, OutOfMemory>
    ensures { IfOk result (λ refusal.
        refusal ≡ refusals.not_allowed (case_in state.now unit request.now)) }
{
    let opened = opened(alloc, state, unit, request)?;
    let other = !goes_with_kind(&opened, request);
    Ok(refused_if(other, Refusal::NotAllowed))
}

/// The slot that a read of a relative data set names.
fn slot_sought(find: &Find) -> Option<&Place>
    ensures { option_copied result ≡ refusals.slot_sought find.now }
{
    match find {
        Find::Next => None,
        Find::Equal(place) => Some(place),
        Find::AtLeast(place) => Some(place),
    }
}

/// The slot that a request on a relative data set names.
fn slot_named(request: &Request) -> Option<&Place>
    ensures { option_copied result ≡ refusals.slot_named request.now }
{
    match request {
        Request::Get { find, .. } => slot_sought(find),
        Request::Point { find, .. } => slot_sought(find),
        Request::Add { place, .. } => place.as_ref(),
        Request::Update { .. } | Request::Erase { .. } | Request::EndReq { .. } => None,
        Request::Commit | Request::Backout => None,
    }
}

fn is_slot_zero(opened: &OpenedFile, place: &Place) -> bool
    ensures { result ≡ refusals.is_slot_zero (as_opened opened.now) place.now }
{
    match opened {
        OpenedFile::Unknown => false,
        OpenedFile::ByPath(_, _) => false,
        OpenedFile::Cluster(definition) => match definition.kind {
            Kind::Keyed => false,
            Kind::Entry => false,
            Kind::Relative => number_of(place.as_slice()) == 0,
        },
    }
}

/// Slot 0.
pub(crate) fn bad_slot(
    alloc: Global,
    state: &FileState,
    unit: Unit,
    request: &Request,
) -> Result<Option<Refusal>, OutOfMemory>
    ensures { IfOk result (λ refusal.
        refusal ≡ refusals.bad_slot (case_in state.now unit request.now)) }
{
    match slot_named(request) {
        None => Ok(None),
        Some(place) => {
            let opened = opened(alloc, state, unit, request)?;
            Ok(refused_if(is_slot_zero(&opened, place), Refusal::BadSlot))
        }
    }
}

/// The refusal of a length.
fn length_refused(bytes: &[u8]) -> Refusal
    ensures { result ≡ Refusal.BadLength (refusals.shown_length bytes.now) }
{
    Refusal::BadLength {
        length: bytes.len().min(u32::MAX as usize) as u32,
    }
}

fn has_length(wanted: u16, place: &Place) -> Option<Refusal>
    ensures { result ≡ refusals.has_length wanted place.now }
{
    let other = place.as_slice().len() != wanted as usize;
    refused_if(other, length_refused(place.as_slice()))
}

fn key_length_wrong(opened: &OpenedFile, place: &Place) -> Option<Refusal>
    ensures { result ≡ refusals.key_length_wrong (as_opened opened.now) place.now }
{
    match opened {
        OpenedFile::Unknown => None,
        OpenedFile::ByPath(_, index) => has_length(index.key_length, place),
        OpenedFile::Cluster(definition) => match definition.kind {
            Kind::Keyed => has_length(definition.key_length, place),
            Kind::Entry => None,
            Kind::Relative => None,
        },
    }
}

fn find_length_wrong(opened: &OpenedFile, find: &Find) -> Option<Refusal>
    ensures { result ≡ refusals.find_length_wrong (as_opened opened.now) find.now }
{
    match find {
        Find::Next => None,
        Find::Equal(place) => key_length_wrong(opened, place),
        Find::AtLeast(place) => key_length_wrong(opened, place),
    }
}

fn record_wrong(opened: &OpenedFile, bytes: &[u8]) -> Option<Refusal>
    ensures { result ≡ refusals.record_wrong (as_opened opened.now) bytes.now }
{
    match opened {
        OpenedFile::Unknown => None,
        OpenedFile::Cluster(definition) => {
            let valid = definition.is_valid_record(bytes);
            refused_if(!valid, length_refused(bytes))
        }
        OpenedFile::ByPath(definition, _) => {
            let valid = definition.is_valid_record(bytes);
            refused_if(!valid, length_refused(bytes))
        }
    }
}

fn length_wrong(opened: &OpenedFile, request: &Request) -> Option<Refusal>
    ensures { result ≡ refusals.length_wrong (as_opened opened.now) request.now }
{
    match request {
        Request::Get { find, .. } => find_length_wrong(opened, find),
        Request::Point { find, .. } => find_length_wrong(opened, find),
        Request::Add { bytes, .. } => record_wrong(opened, bytes.as_slice()),
        Request::Update { bytes, .. } => record_wrong(opened, bytes.as_slice()),
        Request::Erase { .. } | Request::EndReq { .. } => None,
        Request::Commit | Request::Backout => None,
    }
}

/// A record, or a key, of a length that isn't valid.
pub(crate) fn bad_length(
    alloc: Global,
    state: &FileState,
    unit: Unit,
    request: &Request,
) -> Result<Option<Refusal>, OutOfMemory>
    ensures { IfOk result (λ refusal.
        refusal ≡ refusals.bad_length (case_in state.now unit request.now)) }
{
    let opened = opened(alloc, state, unit, request)?;
    Ok(length_wrong(&opened, request))
}
