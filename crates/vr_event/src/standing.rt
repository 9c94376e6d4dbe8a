//! What a volume reports of itself, and what it makes room for.
ghost use Rattle.std.specs.Prelude.{◌≡◌, ◌<◌, ◌≤◌, ◌+◌, ◌-◌, ◌^◌, ℕ, IsSome, IsTrue, None, OnOk};
ghost use Rattle.std.specs.Prelude.{false, true};
ghost use Rattle.vr_history.specs.Merged.{last_stamp};
ghost use Rattle.vr_history.specs.State.{State};
ghost use Rattle.vr_record_file.specs.Now.{has_deck, number_of, state_now};
ghost use Rattle.vr_event.specs.Volume.{IsHeld, IsWhole};

use crate::volume::Volume;
use vr_catalog::Catalog;
use vr_history::{Entry, History};
use vr_space::Part;
use vr_types::{Blocks, Geometry, OutOfMemory};

impl<B: Blocks, P: Part> Volume<B, P> {
    /// The entries of the history, in order.
    pub fn entries(&self) -> &[Entry]
        ensures { result.now ≡ self.now.file.entries }
    {
        self.file.entries()
    }

    /// The number of the volume.
    pub fn number(&self) -> u32
        ensures { result ≡ self.now.number }
    {
        self.number
    }

    /// The history.
    pub fn history(&self) -> &History
        ensures { result.now.entries ≡ self.now.file.entries }
    {
        self.file.history()
    }

    /// The stamp of the last entry, 0 where there is none.
    pub fn last(&self) -> u64
        ensures { result ≡ last_stamp 0 self.now.file.entries }
    {
        self.file.last()
    }

    /// Whether a write that failed stopped the volume.
    pub fn is_stopped(&self) -> bool
        ensures yes { IsTrue result → IsSome self.now.file.stopped }
        ensures no { result ≡ false → self.now.file.stopped ≡ None }
    {
        self.file.stopped().is_some()
    }

    /// Its shape.
    pub fn geometry(&self) -> Geometry
        ensures { result ≡ self.now.file.geometry }
    {
        self.file.geometry()
    }

    /// The catalog.
    pub fn catalog(&self) -> &Catalog
        ensures { result.now ≡ self.now.file.catalog }
    {
        self.file.catalog()
    }

    /// The number of a deck's unit of recovery: 1 where the deck wasn't entered.
    pub fn unit_number(&self, deck: u32) -> u32
        ensures value { result ≡ number_of self.now.file.numbers deck }
        ensures held { (opening : State) → IsHeld B.seen opening self.now
            → result ≡ (state_now opening self.now.file).numbers deck }
    {
        self.file.number(deck)
    }

    /// Whether the log has a further generation, and a deck's unit of recovery one after it.
    pub fn has_numbers(&self, deck: u32) -> bool
        ensures generation { IsTrue result → self.now.store.log.generation + 1 < 2 ^ 63 }
        ensures number { IsTrue result → number_of self.now.file.numbers deck < 2 ^ 32 - 1 }
    {
        self.store.generation() < (1 << 63) - 1 && self.unit_number(deck) < u32::MAX
    }

    /// Makes room for this many entries and one more file. It fails only if memory runs out. All
    /// else stays, whatever the answer.
    pub fn reserve(&mut self, entries: usize) -> Result<(), OutOfMemory>
        ensures room { OnOk result (entries ≤ self.new.file.room) }
        ensures files_room { OnOk result (0 < self.new.file.files_room) }
        ensures same { self.new ≡ record self.old {
          file = record self.old.file {
            room = self.new.file.room;
            files_room = self.new.file.files_room;
          };
        } }
        ensures held { (opening : State) → IsHeld B.seen opening self.old
            → IsHeld B.seen opening self.new }
        ensures whole { IsWhole B.seen self.old → IsWhole B.seen self.new }
    {
        self.file.reserve(entries)
    }

    /// Enters a deck, whose first unit of recovery has the number 1; one that was entered stays as
    /// it is. It fails only if memory runs out. The number of each deck's unit stays, whatever the
    /// answer.
    pub fn enter_deck(&mut self, deck: u32) -> Result<(), OutOfMemory>
        ensures entered { OnOk result (has_deck deck self.new.file.numbers ≡ true) }
        ensures others { (other : ℕ) → has_deck other self.old.file.numbers ≡ true
            → has_deck other self.new.file.numbers ≡ true }
        ensures numbers { (other : ℕ) → number_of self.new.file.numbers other
            ≡ number_of self.old.file.numbers other }
        ensures same { self.new ≡ record self.old {
          file = record self.old.file {
            numbers = self.new.file.numbers;
          };
        } }
        ensures held { (opening : State) → IsHeld B.seen opening self.old
            → IsHeld B.seen opening self.new }
        ensures whole { IsWhole B.seen self.old → IsWhole B.seen self.new }
    {
        self.file.enter_deck(deck)
    }
}

impl<B: Blocks, P: Part + Drop> Volume<B, P> {
    /// The blocks and the history alone.
    pub fn into_parts(self) -> (B, History)
        ensures blocks { result.0 ≡ self.blocks }
        ensures history { result.1.entries ≡ self.file.entries }
    {
        let Volume { blocks, file, .. } = self;
        (blocks, file.into_history())
    }
}
