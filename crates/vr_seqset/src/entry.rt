//! One entry of a sequence-set record.
ghost use Rattle.std.specs.Prelude.{◌≡◌, ◌<◌, ◌≤◌, ◌+◌, ◌*◌, ℕ, All, length, slice_index};
ghost use Rattle.std.specs.Prelude.{slice_get, drop, Some};
ghost use Rattle.vr_types.specs.Fields.{two_at as two_bytes_at};
ghost use Rattle.vr_seqset.specs.Entry.{entry_in, entries_in, IsWhole};

use std::marker::Model;
use vr_types::two_at;

/// An entry, borrowed from its block: the intervals that hold its records, and its high place.
#[derive(Drop)]
pub struct SeqEntry<'a> {
    numbers: &'a [u8],
    high: &'a [u8],
}

impl<'a> Model for SeqEntry<'a> {
    ghost use Rattle.std.specs.Prelude.{◌/◌, length};
    ghost use Rattle.vr_seqset.specs.Entry.{Entry, numbers_in};

    ghost Value = { Entry };

    ghost view = { λ e. record {
      intervals = numbers_in
          (length e.numbers.now / 2) e.numbers.now;
      high = e.high.now;
    } };
}

impl<'a> SeqEntry<'a> {
    /// How many intervals hold the entry's records.
    #[tactic(auto, using(crate::proofs::EntryLemmas::single))]
    pub fn intervals(&self) -> usize
        ensures { result ≡ length self.now.intervals }
    {
        self.numbers.len() / 2
    }

    /// The number of one of them.
    #[tactic(auto, using(crate::proofs::EntryLemmas::single))]
    pub fn interval(&self, j: usize) -> u16
        requires { j < length self.now.intervals }
        ensures { result ≡ slice_index self.now.intervals j }
    {
        two_at(self.numbers, 2 * j)
    }

    /// The place up to which the entry's records go.
    pub fn high(&self) -> &'a [u8]
        ensures { result.now ≡ self.now.high }
    {
        self.high
    }
}

/// The first entry of the bytes, and the bytes after it.
#[tactic(auto, using(crate::proofs::EntryLemmas::whole_within), unfolding(crate::specs::Entry::entry_in))]
pub(crate) fn split_entry<'a>(bytes: &'a [u8], place: usize) -> (SeqEntry<'a>, &'a [u8])
    requires place { 0 < place }
    requires whole { IsWhole place (entry_in place bytes.now) }
    ensures entry { result.0 ≡ entry_in place bytes.now }
    ensures rest { result.1.now ≡ drop (2 + 2 * two_bytes_at 0 bytes.now + place) bytes.now }
{
    let count = two_at(bytes, 0) as usize;
    let (numbers, after) = bytes[2..].split_at(2 * count);
    let (high, rest) = after.split_at(place);
    (SeqEntry { numbers, high }, rest)
}

/// Entry `i` of those that the bytes begin with.
pub(crate) fn entry_at<'a>(bytes: &'a [u8], place: usize, i: usize) -> SeqEntry<'a>
    requires place { 0 < place }
    requires whole { All (IsWhole place) (entries_in (i + 1) place bytes.now) }
    ensures { slice_get (entries_in (i + 1) place bytes.now) i ≡ Some result }
{
    let mut rest = bytes;
    for _ in 0..i {
        rest = split_entry(rest, place).1;
    }
    split_entry(rest, place).0
}
