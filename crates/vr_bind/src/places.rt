//! The places that operands name.
ghost use Rattle.std.specs.Prelude.{◌≡◌, IfOk};
ghost use Rattle.vr_bind.specs.Places.{key_asked, order_by, place_by, place_in, find_in, slot_in};

use std::alloc::Global;
use vr_deck_text::{At, Seek};
use vr_types::{Bytes, FileRef, Find, Kind, OutOfMemory, PartNo, Place, number_place, place};

/// How many zero bytes an empty literal stands for where a key is asked for: too many for every
/// key.
const EMPTY_KEY: usize = 256;

/// The key that a literal asks for.
fn key_asked(alloc: Global, key: &Bytes) -> Result<Place, OutOfMemory>
    ensures { IfOk result (λ place. place ≡ key_asked key.now) }
{
    if key.is_empty() {
        place(alloc, &[0; EMPTY_KEY])
    } else {
        place(alloc, key.as_slice())
    }
}

/// In what order the records of a file are.
fn order_by(path: Option<PartNo>, kind: Kind) -> Kind
    ensures { result ≡ order_by path kind }
{
    match path {
        None => kind,
        Some(_) => Kind::Keyed,
    }
}

/// The place that an operand names in a file whose records are in this order.
fn place_by(alloc: Global, kind: Kind, at: &At) -> Result<Place, OutOfMemory>
    ensures { IfOk result (λ place. place ≡ place_by kind at.now) }
{
    match (kind, at) {
        (Kind::Keyed, At::Key(key)) => key_asked(alloc, key),
        (Kind::Entry, At::Rba(address)) => number_place(alloc, *address),
        (Kind::Relative, At::Rrn(number)) => number_place(alloc, *number),
        _ => place(alloc, b""),
    }
}

/// The place that an operand names in a file.
fn place_in(alloc: Global, file: FileRef, at: &At) -> Result<Place, OutOfMemory>
    ensures { IfOk result (λ place. place ≡ place_in file at.now) }
{
    place_by(alloc, order_by(file.path, file.kind), at)
}

/// Which record is asked for.
pub(crate) fn find_in(alloc: Global, file: FileRef, seek: &Seek) -> Result<Find, OutOfMemory>
    ensures { IfOk result (λ find. find ≡ find_in file seek.now) }
{
    match seek {
        Seek::Next => Ok(Find::Next),
        Seek::Equal(at) => Ok(Find::Equal(place_in(alloc, file, at)?)),
        Seek::AtLeast(at) => Ok(Find::AtLeast(place_in(alloc, file, at)?)),
    }
}

/// Where a record is to be added, if that is given.
pub(crate) fn slot_in(
    alloc: Global,
    file: FileRef,
    at: &Option<At>,
) -> Result<Option<Place>, OutOfMemory>
    ensures { IfOk result (λ slot. slot ≡ slot_in file at.now) }
{
    match at {
        None => Ok(None),
        Some(at) => Ok(Some(place_in(alloc, file, at)?)),
    }
}
