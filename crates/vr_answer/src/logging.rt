//! The space of the log that a request needs.
ghost use Rattle.std.specs.Prelude.{◌≡◌, ◌<◌, ◌^◌, ◌+◌, None, length, nat_lt, option_and_then};
ghost use Rattle.std.specs.Option.{ForSome, option_copied};
ghost use Rattle.vr_types.specs.LogSpace as space;
ghost use Rattle.vr_history.specs.LogSpace as logs;
ghost use Rattle.vr_history.specs.RefusedRoom as rooms;
ghost use Rattle.vr_history.specs.Step.{stand_refused};
ghost use Rattle.vr_answer.specs.Here as here;
ghost use Rattle.vr_answer.specs.InHand.{InEachLogged};
ghost use Rattle.vr_answer.specs.Scope.{IsDirect};

use crate::by_file::refused_if;
use crate::case::{Case, Looked};
use crate::places::changed_here;
use vr_types::{Geometry, Refusal, Request};

/// The record that a change takes the place of.
fn old_here<'a>(case: &Case, present: Option<&'a [u8]>) -> Option<&'a [u8]>
    ensures { option_copied result ≡ here.old_here case.now (option_copied present.entry) }
{
    match case.request {
        Request::Add { .. } => None,
        Request::Get { .. } | Request::Point { .. } | Request::Update { .. } => present,
        Request::Erase { .. } | Request::EndReq { .. } => present,
        Request::Commit | Request::Backout => present,
    }
}

/// The bytes of a before record.
fn before_length(place: &[u8], old: Option<&[u8]>) -> u64
    requires { ForSome (option_copied old) (λ bytes. length bytes < 2 ^ 32) }
    ensures { result ≡ space.before_length place.now (option_copied old.entry) }
{
    match old {
        None => 20 + place.len() as u64,
        Some(bytes) => 20 + place.len() as u64 + bytes.len() as u64,
    }
}

/// The bytes of the log for the place that is changed.
fn bytes_for(place: Option<&[u8]>, old: Option<&[u8]>, logged: bool) -> u64
    requires { ForSome (option_copied old) (λ bytes. length bytes < 2 ^ 32) }
    ensures { result ≡ here.bytes_for (option_copied place.entry) (option_copied old.entry) logged }
{
    match place {
        None => 0,
        Some(place) => { if logged { 0 } else { before_length(place, old) } }
    }
}

/// The bytes of the log that a request needs: a before record where the place that it changes has
/// none of its unit yet (`logged`), and the end record of a unit that begins with it (not `live`).
pub fn log_need(case: &Case, looked: Looked<'_>, logged: bool, live: bool) -> u64
    requires { ForSome (option_copied looked.present) (λ bytes. length bytes < 2 ^ 32) }
    ensures { InEachLogged case.now looked.entry logged live
        (λ whole. result ≡ logs.log_need whole) }
{
    need_here(case, looked.present, logged, live)
}

/// The bytes of the log that a request needs.
fn need_here(case: &Case, present: Option<&[u8]>, logged: bool, live: bool) -> u64
    requires { ForSome (option_copied present) (λ bytes. length bytes < 2 ^ 32) }
    ensures { result ≡ here.need_here case.now (option_copied present.entry) logged live }
{
    let end = if live { 0 } else { 9 };
    bytes_for(changed_here(case), old_here(case, present), logged) + end
}

/// The bytes that the log of a volume has.
fn log_size(geometry: Geometry) -> u64
    ensures { result ≡ space.log_size geometry }
{
    geometry.log as u64 * geometry.size.saturating_sub(16) as u64
}

/// Whether this many bytes more go past the end of the log.
fn is_past_end(size: u64, used: u64, need: u64) -> bool
    ensures { result ≡ nat_lt size (used + need) }
{
    size < used || size - used < need
}

/// A refusal where the log has no room for what a change logs.
pub(crate) fn full_here(
    case: &Case,
    present: Option<&[u8]>,
    logged: bool,
    live: bool,
) -> Option<Refusal>
    requires { ForSome (option_copied present) (λ bytes. length bytes < 2 ^ 32) }
    ensures { result ≡ here.full_here case.now (option_copied present.entry) logged live }
{
    let used = case.used;
    let need = need_here(case, present, logged, live);
    let size = log_size(case.geometry);
    let full = changed_here(case).is_some() && is_past_end(size, used, need);
    refused_if(full, Refusal::LogFull { used, need, size })
}

/// `LogFull` where the log has no room for what a change logs, the last of the refusals. It takes
/// no memory.
pub fn log_full(case: &Case, looked: Looked<'_>, logged: bool, live: bool) -> Option<Refusal>
    requires { ForSome (option_copied looked.present) (λ bytes. length bytes < 2 ^ 32) }
    ensures value { InEachLogged case.now looked.entry logged live
        (λ whole. result ≡ rooms.log_full whole) }
    ensures stays { IsDirect case.now.request.now
        → option_and_then (stand_refused case.now.request.now) result ≡ None }
{
    full_here(case, looked.present, logged, live)
}
