//! Refusals by the record that was read, and by the locks of others.
ghost use Rattle.std.specs.Prelude.{◌≡◌, IfOk, IsTrue, None, OnErr, is_some, option_and_then};
ghost use Rattle.std.specs.Option.{option_copied};
ghost use Rattle.vr_history.specs.RefusedRecord as records;
ghost use Rattle.vr_history.specs.Replies.{first_of, may_want};
ghost use Rattle.vr_history.specs.Step.{stand_refused};
ghost use Rattle.vr_answer.specs.Here as here;
ghost use Rattle.vr_answer.specs.InHand.{InEachWith};
ghost use Rattle.vr_answer.specs.Opening.{as_opened, definition_here};
ghost use Rattle.vr_answer.specs.Scope.{IsDirect};
ghost use Rattle.vr_answer.specs.Tried.{record_refusals};

use crate::areas::space_here;
use crate::by_file::refused_if;
use crate::case::{Case, Looked, base_of, definition};
use crate::locking::held_here;
use crate::places::key_in;
use std::alloc::Global;
use vr_catalog::Definition;
use vr_types::{Find, Kind, OutOfMemory, Place, Refusal, Request};

/// An update or an erase of a record that isn't there any more.
fn gone_here(case: &Case, there: bool) -> Option<Refusal>
    ensures { result ≡ here.gone_here case.now there }
{
    match case.request {
        Request::Update { .. } | Request::Erase { .. } => refused_if(!there, Refusal::NotFound),
        Request::Get { .. } | Request::Point { .. } | Request::Add { .. } => None,
        Request::EndReq { .. } | Request::Commit | Request::Backout => None,
    }
}

/// Whether a record has another key than the place: no key is in a record whose place is a number.
fn has_other_key(definition: &Definition, bytes: &[u8], place: &Place) -> bool
    ensures { result
        ≡ records.other_key definition.now.kind definition.now place.now bytes.now }
{
    match definition.kind {
        Kind::Keyed => key_in(definition, bytes) != place.as_slice(),
        Kind::Entry => false,
        Kind::Relative => false,
    }
}

fn is_other_key(case: &Case, bytes: &[u8], place: &Place) -> bool
    ensures { result ≡ here.is_other_key (definition_here case.now) bytes.now place.now }
{
    match definition(case) {
        None => false,
        Some(definition) => has_other_key(&definition, bytes, place),
    }
}

/// An update that changes the key of its record.
fn key_changed_here(case: &Case) -> Option<Refusal>
    ensures { result ≡ here.key_changed_here case.now }
{
    match case.request {
        Request::Update { bytes, .. } => match case.held {
            None => None,
            Some(place) => {
                let other = is_other_key(case, bytes.as_slice(), place);
                refused_if(other, Refusal::KeyChanged)
            }
        },
        Request::Get { .. } | Request::Point { .. } | Request::Add { .. } => None,
        Request::Erase { .. } | Request::EndReq { .. } => None,
        Request::Commit | Request::Backout => None,
    }
}

/// Whether a record has another length than the one that it takes the place of, which has to have
/// the same in an entry-sequenced data set.
fn has_other_length(kind: Kind, present: Option<&[u8]>, bytes: &[u8]) -> bool
    ensures { result ≡ records.other_length kind (option_copied present.entry) bytes.now }
{
    match kind {
        Kind::Keyed => false,
        Kind::Entry => match present {
            None => false,
            Some(present) => present.len() != bytes.len(),
        },
        Kind::Relative => false,
    }
}

fn is_other_length(case: &Case, present: Option<&[u8]>, bytes: &[u8]) -> bool
    ensures { result ≡ here.is_other_length (definition_here case.now)
        (option_copied present.entry) bytes.now }
{
    match definition(case) {
        None => false,
        Some(definition) => has_other_length(definition.kind, present, bytes),
    }
}

/// An update that changes the length of an entry-sequenced record.
fn length_changed_here(case: &Case, present: Option<&[u8]>) -> Option<Refusal>
    ensures { result ≡ here.length_changed_here case.now (option_copied present.entry) }
{
    match case.request {
        Request::Update { bytes, .. } => {
            let other = is_other_length(case, present, bytes.as_slice());
            refused_if(other, Refusal::LengthChanged)
        }
        Request::Get { .. } | Request::Point { .. } | Request::Add { .. } => None,
        Request::Erase { .. } | Request::EndReq { .. } => None,
        Request::Commit | Request::Backout => None,
    }
}

/// An update that changes what has to stay of a record.
fn bytes_changed_here(case: &Case, present: Option<&[u8]>) -> Option<Refusal>
    ensures { result ≡ here.bytes_changed_here case.now (option_copied present.entry) }
{
    match key_changed_here(case) {
        Some(refusal) => Some(refusal),
        None => length_changed_here(case, present),
    }
}

/// The refusals that come before those by locks.
fn unlocked_here(case: &Case, present: Option<&[u8]>) -> Option<Refusal>
    ensures { result ≡ here.unlocked_here case.now (option_copied present.entry) }
{
    match gone_here(case, present.is_some()) {
        Some(refusal) => Some(refusal),
        None => bytes_changed_here(case, present),
    }
}

/// How a read that names its place is refused where no record is there: by an address in an
/// entry-sequenced data set, and else.
fn absent_in(case: &Case) -> Refusal
    ensures { result ≡ records.absent_in (as_opened (definition_here case.now)) }
{
    match definition(case) {
        None => Refusal::NotFound,
        Some(definition) => match definition.kind {
            Kind::Keyed => Refusal::NotFound,
            Kind::Entry => Refusal::NoAddress,
            Kind::Relative => Refusal::NotFound,
        },
    }
}

/// How a read that finds no record is refused: past the last record of its file, where it is
/// sequential.
fn absent_for(case: &Case, find: &Find) -> Refusal
    ensures { result ≡ records.absent_for (as_opened (definition_here case.now)) find.now }
{
    match find {
        Find::Next => Refusal::EndOfData,
        Find::Equal(_) | Find::AtLeast(_) => absent_in(case),
    }
}

/// The refusals by whether a record is there.
fn presence_here(case: &Case, there: bool) -> Option<Refusal>
    ensures { result ≡ here.presence_here case.now there }
{
    match case.request {
        Request::Get { find, .. } => refused_if(!there, absent_for(case, find)),
        Request::Point { find, .. } => refused_if(!there, absent_for(case, find)),
        Request::Add { .. } => {
            let part = base_of(case.request);
            refused_if(there, Refusal::Duplicate { part })
        }
        Request::Update { .. } | Request::Erase { .. } | Request::EndReq { .. } => None,
        Request::Commit | Request::Backout => None,
    }
}

/// The refusals once no lock is in the way: by whether a record is there, and by areas.
fn found_here(case: &Case, there: bool) -> Option<Refusal>
    ensures { result ≡ here.found_here case.now there }
{
    match presence_here(case, there) {
        Some(refusal) => Some(refusal),
        None => space_here(case),
    }
}

/// The refusals by locks, and those that come after them.
fn locked_here(
    alloc: Global,
    case: &Case,
    looked: Looked<'_>,
) -> Result<Option<Refusal>, OutOfMemory>
    ensures value { IfOk result (λ refusal. refusal ≡ here.locked_here case.now
        (option_copied looked.entry.place) (is_some (option_copied looked.entry.present))) }
    ensures memory { OnErr result (IsTrue (may_want case.now.request.now)) }
{
    match held_here(alloc, case, looked.place)? {
        Some(refusal) => Ok(Some(refusal)),
        None => Ok(found_here(case, looked.present.is_some())),
    }
}

/// The first refusal by the record that is there, or that none is.
pub(crate) fn record_here(
    alloc: Global,
    case: &Case,
    looked: Looked<'_>,
) -> Result<Option<Refusal>, OutOfMemory>
    ensures value { IfOk result (λ refusal. refusal ≡ here.record_here case.now
        (option_copied looked.entry.place) (option_copied looked.entry.present)) }
    ensures memory { OnErr result (IsTrue (may_want case.now.request.now)) }
{
    match unlocked_here(case, looked.present) {
        Some(refusal) => Ok(Some(refusal)),
        None => locked_here(alloc, case, looked),
    }
}

/// The first refusal by the place that the request comes to, and the record that stands there, and
/// by the locks of others: `NotFound` of an update or an erase, `KeyChanged`, `LengthChanged` of an
/// entry-sequenced data set, `Held`, `EndOfData` of a sequential read and `NotFound` of any other,
/// `NoAddress` in an entry-sequenced data set, `Duplicate` of an add, and `NoSpace` where a place
/// that is a number needs more areas than are free. Memory is taken for the name of the lock alone.
/// It fails only if memory runs out, and not for a request that is on no file.
pub fn refused_by_record(
    alloc: Global,
    case: &Case,
    looked: Looked<'_>,
) -> Result<Option<Refusal>, OutOfMemory>
    ensures value { IfOk result (λ refusal. InEachWith case.now looked.entry
        (λ whole. refusal ≡ first_of (record_refusals whole))) }
    ensures stays { IfOk result (λ refusal. IsDirect case.now.request.now
        → option_and_then (stand_refused case.now.request.now) refusal ≡ None) }
    ensures memory { OnErr result (IsTrue (may_want case.now.request.now)) }
{
    record_here(alloc, case, looked)
}
