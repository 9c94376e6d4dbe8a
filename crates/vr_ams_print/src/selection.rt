//! Which records a command selects: FROMKEY, SKIP, TOKEY and COUNT.
ghost use Rattle.std.specs.Prelude.{◌≡◌, IfOk};
ghost use Rattle.vr_ams_print.specs.Printed as stated;
ghost use Rattle.vr_ams_print.specs.Steps as steps;

use std::alloc::Global;
use vr_amsparse::{From, To};
use vr_types::{Bytes, OutOfMemory, Place};

/// Whether the first record is that of a key.
fn is_from_key(from: &From) -> bool
    ensures { result ≡ stated.is_from_key from.now }
{
    match from {
        From::Key(_) => true,
        From::Start | From::Skip(_) => false,
    }
}

/// Whether the last record is that of a key.
fn is_to_key(to: &To) -> bool
    ensures { result ≡ stated.is_to_key to.now }
{
    match to {
        To::Key(_) => true,
        To::End | To::Count(_) => false,
    }
}

/// Whether records are selected by keys, by FROMKEY or TOKEY.
pub fn has_keys(from: &From, to: &To) -> bool
    ensures { result ≡ stated.has_keys from.now to.now }
{
    is_from_key(from) || is_to_key(to)
}

/// Where reading begins, with FROMKEY. Out of memory is its one error.
pub fn first_place(alloc: Global, from: &From) -> Result<Option<Place>, OutOfMemory>
    ensures { IfOk result (λ place. place ≡ stated.first_place from.now) }
{
    match from {
        From::Start | From::Skip(_) => Ok(None),
        From::Key(key) => {
            let bytes = Vec::from_slice(alloc, key.as_slice())?;
            Ok(Some(Place::from_vec(bytes)))
        }
    }
}

/// How many records SKIP passes over.
pub fn skipped(from: &From) -> u64
    ensures { result ≡ stated.skipped from.now }
{
    match from {
        From::Start | From::Key(_) => 0,
        From::Skip(count) => *count,
    }
}

/// How many records may be selected: COUNT, or as many as a number of 64 bits says.
pub fn most_of(to: &To) -> u64
    ensures { result ≡ steps.most_of to.now }
{
    match to {
        To::End | To::Key(_) => u64::MAX,
        To::Count(count) => *count,
    }
}

/// A copy of the key of TOKEY. Out of memory is its one error.
pub fn last_key(alloc: Global, to: &To) -> Result<Option<Bytes>, OutOfMemory>
    ensures { IfOk result (λ last. last ≡ steps.last_key to.now) }
{
    match to {
        To::End | To::Count(_) => Ok(None),
        To::Key(key) => Ok(Some(key.copy(alloc)?)),
    }
}

/// Whether the record of a place isn't past the key of TOKEY, where there is one.
pub fn is_within(last: &Option<Bytes>, place: &[u8], bytes: &[u8]) -> bool
    ensures { result ≡ steps.is_within last.now (place.now, bytes.now) }
{
    match last {
        None => true,
        Some(key) => {
            let size = key.len().min(place.len());
            let cut = &place[..size];
            cut.cmp(key.as_slice()).is_le()
        }
    }
}
