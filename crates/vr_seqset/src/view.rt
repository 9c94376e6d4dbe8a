//! A sequence-set record that was read.
ghost use Rattle.std.specs.Prelude.{◌≡◌, ◌<◌, length, slice_index, slice_get, position, Some, None};
ghost use Rattle.std.specs.Prelude.{IfOk, IfErr, IfSome, IfNone, IsOkAnd, ℕ};
ghost use Rattle.std.specs.Option.{IsSomeAnd};
ghost use Rattle.vr_seqset.specs.SequenceSet.{SequenceSet, IsSequenceSet, HasLengths};
ghost use Rattle.vr_seqset.specs.Reading.{entry_of, record_in};
ghost use Rattle.vr_seqset.specs.Search.{reaches};
ghost use Rattle.vr_seqset.specs.Faults.{Keeps, IsFirstBroken, CanBeCut};

use crate::checks::{are_used_once, ascend, begins_with, has_zeros, keeps_chain, rest_of};
use crate::entries::SeqEntries;
use crate::entry::{SeqEntry, entry_at};
use crate::fault::SeqFault;
use crate::intervals::interval_limit;
use std::marker::Model;
use vr_types::{area_of, four_at, two_at};

/// The sequence-set record of a keyed area (the lowest level of the index of a key-sequenced data
/// set, DFSMS Using Data Sets). A clause sees what the record says. All that is read is lent out of
/// the block, and nothing is copied.
#[derive(Drop)]
pub struct SeqView<'a> {
    block: &'a [u8],
}

impl<'a> Model for SeqView<'a> {
    ghost use Rattle.vr_seqset.specs.SequenceSet.{SequenceSet};
    ghost use Rattle.vr_seqset.specs.Reading.{record_in};
    ghost use Rattle.vr_seqset.specs.Faults.{CanBeCut};

    ghost Value = { SequenceSet };

    ghost view = { λ v. record_in v.block.now };

    ghost invariant = { λ v. CanBeCut v.block.now };
}

#[tactic(auto, using(crate::proofs::RecordLemmas::reads), unfolding(crate::specs::Reading::record_in))]
impl<'a> SeqView<'a> {
    /// Reads the head block of an area that has `cis` intervals. It answers `Ok` exactly for the
    /// block of a record that keeps the rules, and else the first rule that the block breaks.
    #[tactic(auto)]
    pub fn read(bytes: &'a [u8], cis: u16) -> Result<SeqView<'a>, SeqFault>
        // What is read is what the block spells.
        ensures found { IfOk result (λ view. IsSequenceSet cis bytes.now view) }
        // What a block spells is read.
        ensures only { (s : SequenceSet) → IsSequenceSet cis bytes.now s
            → IsOkAnd result (λ view. view ≡ s) }
        // A fault names the first rule that is broken.
        ensures fault { IfErr result (IsFirstBroken (Keeps cis bytes.now)) }
    {
        if !begins_with(bytes, b'S') {
            return Err(SeqFault::Kind);
        }
        let Some(rest) = rest_of(bytes) else {
            return Err(SeqFault::Lengths);
        };
        let view = SeqView { block: bytes };
        let limit = interval_limit(cis, bytes.len(), view.low().len());
        if !are_used_once(view.entries(), limit) {
            return Err(SeqFault::Intervals);
        }
        if !ascend(view.first(), view.low(), view.entries()) {
            return Err(SeqFault::Places);
        }
        let chain = keeps_chain(view.first(), view.low(), view.top(), view.index_area());
        if !has_zeros(bytes, rest, chain) {
            return Err(SeqFault::Zeros);
        }
        Ok(view)
    }

    /// Cuts a head block into its fields and entries, for a caller that knows that it spells a
    /// record, or wants to know nothing of one that doesn't: the lengths and counts alone are
    /// looked at, since they bound what is lent. None where one of them is wrong.
    #[tactic(auto)]
    pub fn cut(bytes: &'a [u8]) -> Option<SeqView<'a>>
        // It shows what the block has at the places of the fields.
        ensures shown { IfSome result (λ view. view ≡ record_in bytes.now) }
        ensures lengths { IfSome result (HasLengths (length bytes.now)) }
        // What a block spells is shown.
        ensures only { (cis : ℕ) (s : SequenceSet) → IsSequenceSet cis bytes.now s
            → IsSomeAnd result (λ view. view ≡ s) }
        ensures none { IfNone result (¬ (CanBeCut bytes.now)) }
    {
        rest_of(bytes)?;
        Some(SeqView { block: bytes })
    }

    /// Whether it is the first of its part's chain.
    pub fn first(&self) -> bool
        ensures { result ≡ self.now.first }
    {
        self.block[1] == 1
    }

    /// The number of the part.
    pub fn part(&self) -> u32
        ensures { result ≡ self.now.part }
    {
        four_at(self.block, 8)
    }

    /// The number of the next area of the chain.
    pub fn next(&self) -> Option<u32>
        ensures { result ≡ self.now.next }
    {
        area_of(four_at(self.block, 12))
    }

    /// The block of the top index record, or 0.
    pub fn top(&self) -> u32
        ensures { result ≡ self.now.top }
    {
        four_at(self.block, 16)
    }

    /// The number of the first index area.
    pub fn index_area(&self) -> Option<u32>
        ensures { result ≡ self.now.index_area }
    {
        area_of(four_at(self.block, 20))
    }

    /// The place above which the entries begin, zeros in the first of a chain. All places of the
    /// record have its length.
    pub fn low(&self) -> &'a [u8]
        ensures { result.now ≡ self.now.low }
    {
        let place = two_at(self.block, 6) as usize;
        &self.block[32..32 + place]
    }

    /// How many entries there are.
    pub fn count(&self) -> usize
        ensures { result ≡ length self.now.entries }
    {
        two_at(self.block, 2) as usize
    }

    /// The entries in their order.
    pub fn entries(&self) -> SeqEntries<'a>
        ensures { result ≡ self.now.entries }
    {
        let place = two_at(self.block, 6) as usize;
        SeqEntries {
            bytes: &self.block[32 + place..],
            left: self.count(),
            place,
        }
    }

    /// The entry of a number from 0 on. It walks over those before it.
    pub fn entry(&self, i: usize) -> SeqEntry<'a>
        requires { i < length self.now.entries }
        ensures { result ≡ entry_of self.now i }
    {
        let place = two_at(self.block, 6) as usize;
        entry_at(&self.block[32 + place..], place, i)
    }

    /// How many intervals entry `i` has.
    pub fn intervals(&self, i: usize) -> usize
        requires { i < length self.now.entries }
        ensures { result ≡ length (entry_of self.now i).intervals }
    {
        self.entry(i).intervals()
    }

    /// The number of interval `j` of entry `i`.
    pub fn interval(&self, i: usize, j: usize) -> u16
        requires entry { i < length self.now.entries }
        requires interval { j < length (entry_of self.now i).intervals }
        ensures { result ≡ slice_index (entry_of self.now i).intervals j }
    {
        self.entry(i).interval(j)
    }

    /// The high place of entry `i`.
    pub fn high(&self, i: usize) -> &'a [u8]
        requires { i < length self.now.entries }
        ensures { result.now ≡ (entry_of self.now i).high }
    {
        self.entry(i).high()
    }

    /// The entry whose range holds the place, with its number: the first one whose high place is at
    /// or past it. Places are compared byte by byte, as slices are. None where all high places are
    /// below it. It reads each byte of the entries once at most.
    pub fn find(&self, place: &[u8]) -> Option<(usize, SeqEntry<'a>)>
        ensures first { IfSome result
            (λ found. position (reaches place.now) self.now.entries ≡ Some found.0) }
        ensures entry { IfSome result (λ found. slice_get self.now.entries found.0 ≡ Some found.1) }
        ensures none { IfNone result (position (reaches place.now) self.now.entries ≡ None) }
    {
        let mut entries = self.entries();
        for i in 0..self.count() {
            let entry = entries.next()?;
            if place.cmp(&entry.high()).is_le() {
                return Some((i, entry));
            }
        }
        None
    }
}
