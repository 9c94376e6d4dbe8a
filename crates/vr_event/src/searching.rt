//! The place that a read comes to: the one that it names, or the first that it finds.
ghost use Rattle.std.specs.Prelude.{◌≡◌, ℕ, IfOk, IfSome, IsTrue, None};
ghost use Rattle.std.specs.Option.{option_copied};
ghost use Rattle.vr_types.specs.Blocks.{Keeps};
ghost use Rattle.vr_space.specs.Whence.{allows};
ghost use Rattle.vr_types.specs.declared.request.Find.TheVariants as finds;
ghost use Rattle.vr_history.specs.Case as cases;
ghost use Rattle.vr_history.specs.Replies.{first_of};
ghost use Rattle.vr_history.specs.State.{State};
ghost use Rattle.vr_undo.specs.Records.{befores_of};
ghost use Rattle.vr_answer.specs.Here.{base_here, or_start};
ghost use Rattle.vr_answer.specs.InHand.{InEach};
ghost use Rattle.vr_answer.specs.Least as least;
ghost use Rattle.vr_answer.specs.Tried.{file_refusals};
ghost use Rattle.vr_event.specs.Getting.{IsRead};
ghost use Rattle.vr_event.specs.Putting.{AreLaidBy};
ghost use Rattle.vr_event.specs.Searching as searching;
ghost use Rattle.vr_store.specs.Cause.{HasLookCause};
ghost use Rattle.vr_store.specs.Next.{HoldsPlaces};
ghost use Rattle.vr_store.specs.Store.{IsSet, IsStored, Stands};

use std::alloc::Global;
use std::cmp::Ordering;
use vr_answer::Case;
use vr_catalog::Catalog;
use vr_space::{Part, Whence};
use vr_store::{LookNo, Store};
use vr_types::{
    Blocks, Find, Integrity, Kind, OutOfMemory, PartNo, Place, Request, Stand, Unit, empty_place,
};

/// Which record a request asks for.
fn find_of(request: &Request) -> Option<&Find>
    ensures { option_copied result ≡ cases.find_of request.now }
{
    match request {
        Request::Get { find, .. } | Request::Point { find, .. } => Some(find),
        Request::Add { .. } | Request::Update { .. } | Request::Erase { .. } => None,
        Request::EndReq { .. } | Request::Commit | Request::Backout => None,
    }
}

/// Whether a read also asks for what a live unit of recovery may bring back: with consistency it
/// does.
fn sees_kept(request: &Request) -> bool
    ensures { result ≡ cases.sees_kept request.now }
{
    match request {
        Request::Get {
            update,
            integrity,
            ..
        } => *update || !matches!(integrity, Integrity::Nri),
        Request::Point { .. } | Request::Add { .. } | Request::Update { .. } => false,
        Request::Erase { .. } | Request::EndReq { .. } => false,
        Request::Commit | Request::Backout => false,
    }
}

/// Where the search of a sequential read begins, by where its file stands. None at the end, and
/// nowhere.
fn whence_next(stand: Option<&Stand>) -> Option<Whence<'_>>
    ensures { searching.AsksFrom (or_start (option_copied stand.entry)) finds.Next result }
{
    match stand {
        None | Some(Stand::Start) => Some(Whence::Start),
        Some(Stand::At(place)) => Some(Whence::At(place)),
        Some(Stand::After(place)) => Some(Whence::After(place)),
        Some(Stand::End | Stand::None) => None,
    }
}

/// Where the search of a read begins that names no place. None where it finds nothing.
fn whence_of<'a>(stand: Option<&'a Stand>, find: &'a Find) -> Option<Whence<'a>>
    ensures { least.Searches find.now
        → searching.AsksFrom (or_start (option_copied stand.entry)) find.now result }
{
    match find {
        Find::Next => whence_next(stand),
        Find::AtLeast(place) | Find::Equal(place) => Some(Whence::At(place)),
    }
}

/// The place that a read names. None of a read that searches.
fn place_named(find: &Find) -> Option<&Place>
    ensures named { IfSome result (λ place. find.now ≡ finds.Equal place.now) }
    ensures none { result ≡ None → least.Searches find.now }
{
    match find {
        Find::Equal(place) => Some(place),
        Find::Next | Find::AtLeast(_) => None,
    }
}

/// How many bytes a place of a part has at most.
pub(crate) fn place_room(catalog: &Catalog, part: PartNo) -> u32
    ensures { result ≡ searching.place_room catalog.now part.0 }
{
    match catalog.definition_of(part) {
        None => 0,
        Some(definition) => match definition.kind {
            Kind::Keyed => definition.key_length as u32,
            Kind::Entry | Kind::Relative => 4,
        },
    }
}

/// The lesser of two places, the second one copied.
fn lesser(
    alloc: Global,
    standing: Option<Place>,
    kept: Option<&Place>,
) -> Result<Option<Place>, OutOfMemory>
    ensures { IfOk result (λ at. at ≡ least.lesser standing (option_copied kept.entry)) }
{
    match kept {
        None => Ok(standing),
        Some(other) => match &standing {
            None => Ok(Some(other.copy(alloc)?)),
            Some(one) => match one.as_slice().cmp(other.as_slice()) {
                Ordering::Greater => Ok(Some(other.copy(alloc)?)),
                _ => Ok(standing),
            },
        },
    }
}

/// The least place of a part of a store with a record that a search may find; None where there is
/// none, or no such part. `Fault` is the device's, and `Memory` says that memory ran out for the
/// place.
pub(crate) fn next_place<B: Blocks, P: Part>(
    alloc: Global,
    blocks: &mut B,
    store: &mut Store<P>,
    number: PartNo,
    from: Whence<'_>,
    room: u32,
) -> Result<Option<Place>, LookNo>
    requires set { IsSet store.old (B.seen blocks.old) }
    requires room { HoldsPlaces store.old.parts number.0 room }
    requires stands { IsTrue B.tells → Stands store.old (B.seen blocks.old) }
    ensures next { IsTrue B.tells → IfOk result (λ next. (volume : ℕ) (state : State)
        → IsStored volume store.old state (B.seen blocks.old)
        → least.IsLeastWith (allows from.entry)
        (searching.HasRecord (state.contents number.0)) next) }
    ensures same { store.new ≡ store.old }
    ensures keeps { Keeps B.tells (B.seen blocks.old) (B.seen blocks.new) }
    ensures cause { HasLookCause (B.faults blocks.old) (B.faults blocks.new) result }
{
    let mut into = empty_place(alloc, room)?;
    if store.next(blocks, number, from, &mut into)? {
        Ok(Some(into.into_place()))
    } else {
        Ok(None)
    }
}

/// The first of the least place with a record and, where the read sees such places, the least at
/// which another unit may bring one back. It fails only if memory runs out.
fn or_kept<P: Part>(
    alloc: Global,
    store: &Store<P>,
    unit: Unit,
    number: PartNo,
    from: Whence<'_>,
    sees: bool,
    standing: Option<Place>,
) -> Result<Option<Place>, OutOfMemory>
    ensures { IfOk result (λ at. (state : State) → befores_of store.now.undo ≡ state.befores
        → least.IsLeastWith (allows from.entry)
        (searching.HasRecord (state.contents number.0)) standing
        → searching.IsFirstSeen (allows from.entry) unit number.0 sees state at) }
{
    if sees {
        lesser(alloc, standing, store.next_other(unit, number, from))
    } else {
        Ok(standing)
    }
}

/// The least place of a part of a store that a read may find: one with a record, or where the read
/// sees such places, one at which another unit may bring a record back.
fn first_seen<B: Blocks, P: Part>(
    alloc: Global,
    blocks: &mut B,
    store: &mut Store<P>,
    unit: Unit,
    number: PartNo,
    from: Whence<'_>,
    room: u32,
    sees: bool,
) -> Result<Option<Place>, LookNo>
    requires set { IsSet store.old (B.seen blocks.old) }
    requires room { HoldsPlaces store.old.parts number.0 room }
    requires stands { IsTrue B.tells → Stands store.old (B.seen blocks.old) }
    ensures first { IsTrue B.tells → IfOk result (λ at. (volume : ℕ) (state : State)
        → IsStored volume store.old state (B.seen blocks.old)
        → searching.IsFirstSeen (allows from.entry) unit number.0 sees state at) }
    ensures same { store.new ≡ store.old }
    ensures keeps { Keeps B.tells (B.seen blocks.old) (B.seen blocks.new) }
    ensures cause { HasLookCause (B.faults blocks.old) (B.faults blocks.new) result }
{
    let standing = next_place(alloc, blocks, store, number, from, room)?;
    Ok(or_kept(alloc, store, unit, number, from, sees, standing)?)
}

/// Searches for the place of a read that names none. Nothing is put.
fn searched<B: Blocks, P: Part>(
    alloc: Global,
    blocks: &mut B,
    store: &mut Store<P>,
    catalog: &Catalog,
    case: &Case,
    part: PartNo,
    find: &Find,
) -> Result<Option<Place>, LookNo>
    requires set { IsSet store.old (B.seen blocks.old) }
    requires laid { AreLaidBy case.now.geometry catalog.now store.old.parts }
    requires stands { IsTrue B.tells → Stands store.old (B.seen blocks.old) }
    ensures first { IsTrue B.tells → IfOk result (λ at. (volume : ℕ) (state : State)
        → IsStored volume store.old state (B.seen blocks.old) → least.Searches find.now
        → searching.IsFirstSeen
        (least.asks_for (or_start (option_copied case.now.stand)) find.now) case.now.unit part.0
        (cases.sees_kept case.now.request.now) state at) }
    ensures same { store.new ≡ store.old }
    ensures keeps { Keeps B.tells (B.seen blocks.old) (B.seen blocks.new) }
    ensures cause { HasLookCause (B.faults blocks.old) (B.faults blocks.new) result }
{
    match whence_of(case.stand, find) {
        None => Ok(None),
        Some(from) => {
            let room = place_room(catalog, part);
            let sees = sees_kept(case.request);
            first_seen(alloc, blocks, store, case.unit, part, from, room, sees)
        }
    }
}

/// The place that a read comes to that nothing in memory refuses: the one that it names, or the
/// first that it finds, None where it finds none. Nothing is put. `Fault` is the device's, and
/// `Memory` says that memory ran out for the place.
pub(crate) fn place_sought<B: Blocks, P: Part>(
    alloc: Global,
    blocks: &mut B,
    store: &mut Store<P>,
    catalog: &Catalog,
    case: &Case,
    part: PartNo,
) -> Result<Option<Place>, LookNo>
    requires set { IsSet store.old (B.seen blocks.old) }
    requires laid { AreLaidBy case.now.geometry catalog.now store.old.parts }
    requires base { part.0 ≡ base_here case.now.request.now }
    requires stands { IsTrue B.tells → Stands store.old (B.seen blocks.old) }
    ensures sought { IsTrue B.tells → IfOk result (λ at. (volume : ℕ) → InEach case.now (λ whole.
        IsStored volume store.old whole.state (B.seen blocks.old) → IsRead whole.request
        → first_of (file_refusals whole) ≡ None → searching.IsSought whole at)) }
    ensures same { store.new ≡ store.old }
    ensures keeps { Keeps B.tells (B.seen blocks.old) (B.seen blocks.new) }
    ensures cause { HasLookCause (B.faults blocks.old) (B.faults blocks.new) result }
{
    match find_of(case.request) {
        None => Ok(None),
        Some(find) => match place_named(find) {
            Some(place) => Ok(Some(place.copy(alloc)?)),
            None => searched(alloc, blocks, store, catalog, case, part, find),
        },
    }
}
