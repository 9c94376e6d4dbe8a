//! The numbers of slots and bytes, and the places that spell them.
ghost use Rattle.std.specs.Prelude.{◌≡◌, ◌≤◌, ◌<◌, ◌↔◌, ℕ, None, IsTrue, IfSome};
ghost use Rattle.std.specs.Prelude.{slice_index};
ghost use Rattle.vr_types.specs.Fields.{four};
ghost use Rattle.vr_space.specs.Numbered.{IsNumberPlace, number_of};
ghost use Rattle.vr_space.specs.Whence.{allows};
ghost use Rattle.vr_chained.specs.Searched.{is_from, longest, number_from};

use vr_space::{ChainLayout, Whence};
use vr_types::four_at;

/// The number at a place. None where the place is that of no slot, or no byte, of the part.
pub(crate) fn number_at(layout: &ChainLayout, place: &[u8]) -> Option<u32>
    ensures some { IfSome result
        (λ n. IsNumberPlace layout.now place.now × (n ≡ number_of place.now)) }
    ensures none { result ≡ None → IsNumberPlace layout.now place.now → ⊥ }
{
    if place.len() != 4 {
        return None;
    }
    let number = four_at(place, 0);
    if number < layout.start() {
        None
    } else {
        Some(number)
    }
}

/// The number at a place that has one.
pub(crate) fn number_in(layout: &ChainLayout, place: &[u8]) -> u32
    requires { IsNumberPlace layout.now place.now }
    ensures { result ≡ number_of place.now }
{
    match number_at(layout, place) {
        Some(number) => number,
        None => unreachable!("it is the place of a number"),
    }
}

/// A byte of these, or zero past their end.
fn byte_at(bytes: &[u8], i: usize) -> u8
    ensures { result ≡ slice_index bytes.now i }
{
    bytes.get(i).copied().unwrap_or(0)
}

/// The number of the first four bytes, with zeros after them where there are fewer.
fn start_number(bytes: &[u8]) -> u32
    ensures { result ≡ number_from bytes.now }
{
    u32::from_be_bytes([
        byte_at(bytes, 0),
        byte_at(bytes, 1),
        byte_at(bytes, 2),
        byte_at(bytes, 3),
    ])
}

/// The most bytes that are at the place of their own number, or before it where those past them
/// alone count.
fn longest_at(past: bool) -> usize
    ensures { result ≡ longest past }
{
    if past { 3 } else { 4 }
}

/// The least number whose four bytes are at these bytes or past them, or past them alone. None
/// where there is none.
fn least_from(bytes: &[u8], past: bool) -> Option<u32>
    ensures some { IfSome result (λ n. (r : ℕ) → r < 4294967296
        → (IsTrue (is_from past bytes.now (four r)) ↔ (n ≤ r))) }
    ensures none { result ≡ None → (r : ℕ) → r < 4294967296
        → IsTrue (is_from past bytes.now (four r)) → ⊥ }
{
    let number = start_number(bytes);
    if bytes.len() > longest_at(past) {
        number.checked_add(1)
    } else {
        Some(number)
    }
}

/// The least number of a place that the search may find, from this one on. None where it may find
/// none.
pub(crate) fn first_number(from: Whence<'_>, start: u32) -> Option<u32>
    ensures some { IfSome result (λ n. (start ≤ n) × ((r : ℕ) → start ≤ r → r < 4294967296
        → (IsTrue (allows from.entry (four r)) ↔ (n ≤ r)))) }
    ensures none { result ≡ None → (r : ℕ) → start ≤ r → r < 4294967296
        → IsTrue (allows from.entry (four r)) → ⊥ }
{
    let number = match from {
        Whence::Start => start,
        Whence::At(first) => least_from(first.as_slice(), false)?,
        Whence::After(last) => least_from(last.as_slice(), true)?,
        Whence::Above(low) => least_from(low, true)?,
    };
    Some(number.max(start))
}
