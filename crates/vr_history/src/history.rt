//! The list of the entries that were made on a volume.
ghost use Rattle.std.specs.Prelude.{◌≡◌, ◌<◌, ◌≤◌, ◌+◌, ◌-◌, [], ◌∷◌, ◌++◌, OnOk, OnErr};
ghost use Rattle.vr_history.specs.Merged.{IsStamped, last_stamp};

use crate::entry::Entry;
use std::alloc::Global;
use std::marker::Model;
use vr_types::OutOfMemory;

/// The entries that were made on a volume, in order. Their stamps rise.
#[derive(Drop)]
pub struct History {
    entries: Vec<Entry>,
}

impl Model for History {
    ghost use Rattle.vr_history.specs.Kept.{Kept, kept_of};
    ghost use Rattle.vr_history.specs.Merged.{IsStamped};

    ghost Value = { Kept };

    ghost view = { λ history. kept_of history.entries };

    ghost invariant = { λ history. IsStamped 0 history.entries.items };
}

impl History {
    /// No entry, which takes no memory.
    pub fn new(alloc: Global) -> History
        ensures { result.entries ≡ [] }
    {
        History {
            entries: Vec::new(alloc),
        }
    }

    /// The entries, in order.
    pub fn entries(&self) -> &[Entry]
        ensures value { result.now ≡ self.now.entries }
        ensures stamped { IsStamped 0 self.now.entries }
    {
        self.entries.as_slice()
    }

    /// The stamp of the last entry, 0 where there is none.
    pub fn last(&self) -> u64
        ensures { result ≡ last_stamp 0 self.now.entries }
    {
        match self.entries.last() {
            Some(entry) => entry.stamp,
            None => 0,
        }
    }

    /// Makes room for that many more entries. The entries stay, whatever the answer.
    pub fn reserve(&mut self, more: usize) -> Result<(), OutOfMemory>
        ensures entries { self.new.entries ≡ self.old.entries }
        ensures room { OnOk result (more ≤ self.new.room) }
        ensures kept { self.old.room ≤ self.new.room }
    {
        self.entries.reserve(more)?;
        Ok(())
    }

    /// Adds an entry at the end, in room that was reserved. It takes no memory.
    pub fn push(&mut self, entry: Entry)
        requires room { 0 < self.old.room }
        requires rises { last_stamp 0 self.old.entries < entry.stamp }
        ensures entries { self.new.entries ≡ self.old.entries ++ entry ∷ [] }
        ensures room { self.new.room ≡ self.old.room - 1 }
    {
        self.entries.push_reserved(entry);
    }
}
