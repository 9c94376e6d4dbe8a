//! The entries of a sequence-set record, in their order.
ghost use Rattle.std.specs.Iterator.{YieldsFirst, item_count};

use crate::entry::{SeqEntry, split_entry};
use std::marker::Model;

/// Gives the entries that are left, in ascending order of their high places, each in constant time.
#[derive(Drop)]
pub struct SeqEntries<'a> {
    pub(crate) bytes: &'a [u8],
    pub(crate) left: usize,
    pub(crate) place: usize,
}

impl<'a> Model for SeqEntries<'a> {
    ghost use Rattle.std.specs.Prelude.{List, All, ◌<◌};
    ghost use Rattle.vr_seqset.specs.Entry.{Entry, entries_in, IsWhole};

    ghost Value = { List Entry };

    ghost view = { λ s. entries_in s.left s.place s.bytes.now };

    ghost invariant = { λ s. (0 < s.place)
        × All (IsWhole s.place) (entries_in s.left s.place s.bytes.now) };
}

impl<'a> Iterator for SeqEntries<'a> {
    type Item = SeqEntry<'a>;

    ghost next_gives = { YieldsFirst (λ s. s) };

    ghost remaining = { item_count (λ s. s) };

    #[tactic(auto, unfolding(crate::specs::Entry::entries_in))]
    fn next(&mut self) -> Option<SeqEntry<'a>> {
        if self.left == 0 {
            return None;
        }
        let (entry, rest) = split_entry(self.bytes, self.place);
        self.left -= 1;
        self.bytes = rest;
        Some(entry)
    }
}
