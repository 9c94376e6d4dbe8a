//! Where an entry-sequenced data set puts the next record, and how many areas a numbered place
//! needs. Numbers that 64 bits don't hold count as out of memory: no records of such lengths have
//! room in it.
ghost use Rattle.std.specs.Prelude.{◌≡◌, ◌+◌, ◌*◌, ◌/◌, ◌<◌, ◌≤◌, ◌∷◌, [], IfOk, Some, None};
ghost use Rattle.std.specs.Int.{to_be_bytes, w32};
ghost use Rattle.std.specs.Option.{option_copied};
ghost use Rattle.std.specs.Prelude.{slice_index};
ghost use Rattle.vr_history.specs.Address as addresses;
ghost use Rattle.vr_model_state.specs.Items.{item_of};

use std::alloc::Global;
use vr_model_state::{PlacedItem, Stored};
use vr_types::{Kind, OutOfMemory, Place};

/// A sum.
pub fn plus(one: u64, other: u64) -> Result<u64, OutOfMemory>
    ensures { IfOk result (λ sum. sum ≡ one + other) }
{
    match one.checked_add(other) {
        Some(sum) => Ok(sum),
        None => Err(OutOfMemory),
    }
}

/// A product.
fn times(one: u64, other: u64) -> Result<u64, OutOfMemory>
    ensures { IfOk result (λ product. product ≡ one * other) }
{
    match one.checked_mul(other) {
        Some(product) => Ok(product),
        None => Err(OutOfMemory),
    }
}

/// The bytes that an item takes, withdrawn or not.
pub fn length_of(stored: &Stored) -> u64
    ensures { result ≡ addresses.length_of (item_of stored.now) }
{
    match stored {
        Stored::Standing(bytes) => bytes.len() as u64,
        Stored::Withdrawn(length) => *length,
    }
}

/// A byte of a place, 0 past its end.
fn byte_of(place: &[u8], at: usize) -> u8
    ensures { result ≡ slice_index place.now at }
{
    if at < place.len() { place[at] } else { 0 }
}

/// The number that a place is.
pub fn number_of(place: &[u8]) -> u32
    ensures { result ≡ addresses.number_of place.now }
{
    let bytes = [
        byte_of(place, 0),
        byte_of(place, 1),
        byte_of(place, 2),
        byte_of(place, 3),
    ];
    u32::from_be_bytes(bytes)
}

/// The place of four bytes that a number is.
pub(crate) fn place_of_number(alloc: Global, number: u64) -> Result<Place, OutOfMemory>
    ensures { IfOk result (λ place. place ≡ to_be_bytes w32 number) }
{
    let bytes = [
        (number / 16_777_216 % 256) as u8,
        (number / 65_536 % 256) as u8,
        (number / 256 % 256) as u8,
        (number % 256) as u8,
    ];
    let bytes = Vec::from_slice(alloc, &bytes)?;
    Ok(Place::from_vec(bytes))
}

/// Whether one interval has no room for a record.
fn is_spanned(size: u64, length: u64) -> bool
    ensures { result ≡ addresses.is_spanned size length }
{
    size.saturating_sub(6) <= length
}

/// How many intervals a record takes.
fn intervals_for(size: u64, length: u64) -> u64
    requires { 10 < size }
    ensures { result ≡ addresses.intervals_for size length }
{
    if is_spanned(size, length) {
        length.div_ceil(size - 10)
    } else {
        1
    }
}

/// The interval in which a record at an address ends.
fn last_interval(size: u64, address: u64, length: u64) -> Result<u64, OutOfMemory>
    requires { 10 < size }
    ensures { IfOk result (λ last. last ≡ addresses.last_interval size address length) }
{
    let end = plus(address / size, intervals_for(size, length))?;
    Ok(end.saturating_sub(1))
}

/// The last item of a content.
fn last_item(placed: &[PlacedItem]) -> Option<&PlacedItem>
    ensures { option_copied result ≡ addresses.last_item placed.now }
{
    match placed {
        [] => None,
        [only] => Some(only),
        [_, rest @ ..] => last_item(rest),
    }
}

fn begins_in(size: u64, interval: u64, placed: &PlacedItem) -> bool
    requires { 0 < size }
    ensures { result ≡ addresses.begins_in size interval placed.now }
{
    number_of(placed.place().as_slice()) as u64 / size == interval
}

/// The room that the items which begin in an interval take there.
fn room_taken(size: u64, interval: u64, placed: &[PlacedItem]) -> Result<u64, OutOfMemory>
    requires { 0 < size }
    ensures { IfOk result (λ room. room ≡ addresses.room_taken size interval placed.now) }
{
    match placed {
        [] => Ok(0),
        [first, rest @ ..] => {
            let others = room_taken(size, interval, rest)?;
            if begins_in(size, interval, first) {
                let room = plus(length_of(first.item()), 3)?;
                Ok(plus(room, others)?)
            } else {
                Ok(others)
            }
        }
    }
}

/// The bytes of the items which begin in an interval.
fn lengths_taken(size: u64, interval: u64, placed: &[PlacedItem]) -> Result<u64, OutOfMemory>
    requires { 0 < size }
    ensures { IfOk result (λ room. room ≡ addresses.lengths_taken size interval placed.now) }
{
    match placed {
        [] => Ok(0),
        [first, rest @ ..] => {
            let others = lengths_taken(size, interval, rest)?;
            if begins_in(size, interval, first) {
                Ok(plus(length_of(first.item()), others)?)
            } else {
                Ok(others)
            }
        }
    }
}

/// The address of a record after the last item.
fn address_after(
    size: u64,
    placed: &[PlacedItem],
    new: u64,
    last: &PlacedItem,
) -> Result<u64, OutOfMemory>
    requires { 10 < size }
    ensures { IfOk result (λ address.
        address ≡ addresses.next_after size placed.now new (Some last.now)) }
{
    let length = length_of(last.item());
    let address = number_of(last.place().as_slice()) as u64;
    let interval = last_interval(size, address, length)?;
    let taken = room_taken(size, interval, placed)?;
    let room = plus(taken, new)?;
    let room = plus(room, 3)?;
    if !is_spanned(size, length) && !is_spanned(size, new) && room <= size - 4 {
        let start = times(interval, size)?;
        let lengths = lengths_taken(size, interval, placed)?;
        Ok(plus(start, lengths)?)
    } else {
        let next = plus(interval, 1)?;
        Ok(times(next, size)?)
    }
}

/// The address of the next record of an entry-sequenced data set.
pub(crate) fn next_address(size: u64, placed: &[PlacedItem], new: u64) -> Result<u64, OutOfMemory>
    requires { 10 < size }
    ensures { IfOk result (λ address. address ≡ addresses.next_address size placed.now new) }
{
    match last_item(placed) {
        None => Ok(0),
        Some(last) => Ok(address_after(size, placed, new, last)?),
    }
}

/// The slots of an interval.
fn slots_in(size: u64, length: u64) -> Result<u64, OutOfMemory>
    requires { 10 < size }
    ensures { IfOk result (λ slots. slots ≡ addresses.slots_in size length) }
{
    let slot = plus(length, 3)?;
    Ok((size - 4) / slot)
}

/// A quotient, 0 where the divisor is.
fn over(number: u64, divisor: u64) -> u64
    ensures { result ≡ number / divisor }
{
    if divisor == 0 { 0 } else { number / divisor }
}

/// The last interval that a record at a place takes, where the place says it.
pub fn interval_needed(
    kind: Kind,
    size: u64,
    maximum: u64,
    place: &[u8],
    length: u64,
) -> Result<Option<u64>, OutOfMemory>
    requires { 10 < size }
    ensures { IfOk result (λ last.
        last ≡ addresses.interval_needed kind size maximum place.now length) }
{
    let number = number_of(place) as u64;
    match kind {
        Kind::Keyed => Ok(None),
        Kind::Entry => Ok(Some(last_interval(size, number, length)?)),
        Kind::Relative => Ok(Some(over(number.saturating_sub(1), slots_in(size, maximum)?))),
    }
}

/// How many areas are needed beside those that the part has.
pub fn areas_needed(intervals: u64, owned: u64, last: u64) -> Result<u64, OutOfMemory>
    requires { 0 < intervals }
    ensures { IfOk result (λ need. need ≡ addresses.areas_needed intervals owned last) }
{
    let end = plus(last, 1)?;
    Ok(end.div_ceil(intervals).saturating_sub(owned))
}
