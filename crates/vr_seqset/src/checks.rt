//! The rules of a sequence-set record, each tested by itself.
ghost use Rattle.std.specs.Prelude.{◌≡◌, ◌≢◌, ◌+◌, ◌*◌, ◌<◌, ◌≤◌, ◌↔◌, [], ◌∷◌, ◌++◌, ℕ, List, All};
ghost use Rattle.std.specs.Prelude.{None, length, map, drop, slice_index, IsTrue, IfSome, IfNone};
ghost use Rattle.std.specs.Prelude.{MatchBool, if◌then◌else◌};
ghost use Rattle.std.specs.List.{flat_map};
ghost use Rattle.std.specs.List.Sorted.{IsStrictlySortedBy};
ghost use Rattle.std.specs.declared.cmp.Ordering.TheVariants.{Less};
ghost use Rattle.std.specs.Ordering.{nat_cmp};
ghost use Rattle.std.specs.Cmp.Lexicographic.{slice_cmp};
ghost use Rattle.vr_types.specs.Fields.{AreZeros, two_at as two_bytes_at};
ghost use Rattle.vr_seqset.specs.Entry.{IsWhole, entry_in, entries_in, entry_bytes};
ghost use Rattle.vr_seqset.specs.Numbers.{AreOnceBelow, Marks};
ghost use Rattle.vr_seqset.specs.SequenceSet.{spelling, KeepsChain};
ghost use Rattle.vr_seqset.specs.Reading.{record_in};
ghost use Rattle.vr_seqset.specs.Faults.{CanBeCut, HasZeros};
ghost use Rattle.vr_seqset.specs.declared.checks.TheConstants.{MOST_INTERVALS};

use crate::entries::SeqEntries;
use crate::entry::SeqEntry;
use vr_types::{are_zeros, is_block_size, two_at};

/// No area uses more: a block of 32,768 bytes with places of one byte has room for 6,547 entries.
pub(crate) const MOST_INTERVALS: usize = 6547;

/// Most areas have no more, and so few flags cost little to make each time a head is read.
const FEW_INTERVALS: usize = 256;

/// Whether the kind byte is there.
pub(crate) fn begins_with(block: &[u8], kind: u8) -> bool
    requires { 0 < kind }
    ensures { IsTrue result ↔ (slice_index block.now 0 ≡ kind) }
{
    match block {
        [] => false,
        [first, ..] => *first == kind,
    }
}

/// The bytes after the last entry, where lengths and counts are right.
pub(crate) fn rest_of(block: &[u8]) -> Option<&[u8]>
    ensures cut { IfSome result (λ _. CanBeCut block.now) }
    ensures rest { IfSome result (λ rest.
        rest.now ≡ drop (length (spelling (record_in block.now))) block.now) }
    ensures none { IfNone result (¬ (CanBeCut block.now)) }
{
    if !is_block_size(block.len()) {
        return None;
    }
    let count = two_at(block, 2) as usize;
    let place = two_at(block, 6) as usize;
    if count == 0 || place == 0 || place > block.len() - 32 {
        return None;
    }
    after_entries(&block[32 + place..], count, place)
}

/// The bytes after that many entries, where each of them is whole.
fn after_entries(bytes: &[u8], count: usize, place: usize) -> Option<&[u8]>
    requires { 0 < place }
    ensures whole { IfSome result (λ _. All (IsWhole place) (entries_in count place bytes.now)) }
    ensures rest { IfSome result (λ rest.
        rest.now
        ≡ drop (length (flat_map entry_bytes (entries_in count place bytes.now))) bytes.now) }
    ensures none { IfNone result (¬ (All (IsWhole place) (entries_in count place bytes.now))) }
{
    let mut rest = bytes;
    for _ in 0..count {
        rest = after_entry(rest, place)?;
    }
    Some(rest)
}

/// The bytes after the first entry, where it is whole.
#[tactic(auto, using(crate::proofs::EntryLemmas::whole_steps))]
fn after_entry(bytes: &[u8], place: usize) -> Option<&[u8]>
    requires { 0 < place }
    ensures whole { IfSome result (λ _. IsWhole place (entry_in place bytes.now)) }
    ensures rest { IfSome result (λ rest.
        rest.now ≡ drop (2 + 2 * two_bytes_at 0 bytes.now + place) bytes.now) }
    ensures none { IfNone result (¬ (IsWhole place (entry_in place bytes.now))) }
{
    if bytes.len() < 2 {
        return None;
    }
    let count = two_at(bytes, 0) as usize;
    let room = bytes.len() - 2;
    if count == 0 || 2 * count > room || place > room - 2 * count {
        return None;
    }
    Some(&bytes[2 + 2 * count + place..])
}

/// Whether each interval number is below the limit, and none comes twice.
pub(crate) fn are_used_once(entries: SeqEntries<'_>, limit: usize) -> bool
    requires { limit ≤ MOST_INTERVALS }
    ensures { IsTrue result
        ↔ AreOnceBelow limit (flat_map (λ entry. entry.intervals) entries.entry) }
{
    if limit <= FEW_INTERVALS {
        mark_entries(&mut [false; FEW_INTERVALS], entries, limit)
    } else {
        mark_entries(&mut [false; MOST_INTERVALS], entries, limit)
    }
}

/// Whether each interval of the entries is below the limit, and none comes twice. It marks them in
/// flags of which none is set yet.
fn mark_entries(seen: &mut [bool], entries: SeqEntries<'_>, limit: usize) -> bool
    requires long { limit ≤ length seen.old }
    requires unset { Marks limit seen.old [] }
    ensures { IsTrue result
        ↔ AreOnceBelow limit (flat_map (λ entry. entry.intervals) entries.entry) }
{
    for entry in entries {
        if !mark_all(seen, &entry, limit) {
            return false;
        }
    }
    true
}

/// Marks an entry's intervals, where none of them is marked yet and each is below the limit.
fn mark_all(seen: &mut [bool], entry: &SeqEntry<'_>, limit: usize) -> bool
    requires { limit ≤ length seen.old }
    ensures { (used : List ℕ)
        → AreOnceBelow limit used → Marks limit seen.old used → MatchBool result
        (AreOnceBelow limit (used ++ entry.now.intervals)
        × Marks limit seen.new (used ++ entry.now.intervals))
        (¬ (AreOnceBelow limit (used ++ entry.now.intervals))) }
{
    for j in 0..entry.intervals() {
        let number = entry.interval(j) as usize;
        if number >= limit || seen[number] {
            return false;
        }
        seen[number] = true;
    }
    true
}

/// Whether each high place is above the one before, and the first above the low place of a record
/// that is not the first of its chain.
pub(crate) fn ascend(first: bool, low: &[u8], entries: SeqEntries<'_>) -> bool
    ensures { IsTrue result ↔ IsStrictlySortedBy (slice_cmp nat_cmp)
        ((if first then [] else low.now ∷ []) ++ map (λ entry. entry.high) entries.entry) }
{
    let mut below = if first { None } else { Some(low) };
    for entry in entries {
        let high = entry.high();
        if !is_above(high, below) {
            return false;
        }
        below = Some(high);
    }
    true
}

/// Whether a place is above the one before it, where there is one.
fn is_above(high: &[u8], below: Option<&[u8]>) -> bool
    ensures { IsTrue result
        ↔ IfSome below.entry (λ place. slice_cmp nat_cmp place.now high.now ≡ Less) }
{
    match below {
        Some(place) => place.cmp(&high).is_lt(),
        None => true,
    }
}

/// Whether a record has what only the first of a chain may have.
pub(crate) fn keeps_chain(first: bool, low: &[u8], top: u32, index_area: Option<u32>) -> bool
    ensures { IsTrue result ↔ MatchBool first (AreZeros low.now) ((top ≡ 0) × (index_area ≡ None)) }
{
    if first {
        are_zeros(low)
    } else {
        top == 0 && index_area.is_none()
    }
}

/// Whether each byte without a name is zero, where `rest` is what comes after the last entry, and
/// `chain` says whether the record has what only the first of a chain may have.
pub(crate) fn has_zeros(block: &[u8], rest: &[u8], chain: bool) -> bool
    requires size { 32 ≤ length block.now }
    requires rest { rest.now ≡ drop (length (spelling (record_in block.now))) block.now }
    requires chain { IsTrue chain ↔ KeepsChain (record_in block.now) }
    ensures { IsTrue result ↔ HasZeros block.now }
{
    chain && block[1] < 2 && are_zeros(&block[4..6]) && are_zeros(&block[24..32]) && are_zeros(rest)
}
