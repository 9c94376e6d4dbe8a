//! The record file in memory.
ghost use Rattle.std.specs.Prelude.{◌≡◌, ◌<◌, ◌≤◌, ◌^◌, ◌-◌, ℕ, List, [], None, OnOk, true};
ghost use Rattle.std.specs.List.{AllByRecursion};
ghost use Rattle.vr_types.specs.Content.{Content};
ghost use Rattle.vr_catalog.specs.Catalog.{entries_in};
ghost use Rattle.vr_history.specs.Effects.{has_part, parts_laid};
ghost use Rattle.vr_history.specs.Merged.{last_stamp};
ghost use Rattle.vr_history.specs.State.{Owned, State, opening_state};
ghost use Rattle.vr_answer.specs.Scope.{AreUnbuilt};
ghost use Rattle.vr_record_file.specs.Now.{IsStateOf, lets_go, next_stamp, with_event};
ghost use Rattle.vr_history.specs.declared.entry.What.TheVariants.{Asked};

use crate::numbers::DeckNumber;
use std::alloc::Global;
use std::marker::Model;
use vr_answer::file_of;
use vr_browse::Positions;
use vr_catalog::Catalog;
use vr_history::{Entry, History, What};
use vr_locks::{LockTable, lock_table};
use vr_types::{Geometry, OutOfMemory, Reply, Request, SharedRequest, Unit};

/// What a volume has in memory of its record file, beside the records.
#[derive(Drop)]
pub struct RecordFile {
    pub(crate) geometry: Geometry,
    pub(crate) catalog: Catalog,
    pub(crate) locks: LockTable,
    pub(crate) positions: Positions,
    pub(crate) numbers: Vec<DeckNumber>,
    pub(crate) stopped: Option<u64>,
    pub(crate) history: History,
}

impl Model for RecordFile {
    ghost use Rattle.vr_record_file.specs.Now.{FileNow};

    ghost Value = { FileNow };

    ghost view = { λ file. record {
      geometry = file.geometry;
      catalog = file.catalog;
      locks = file.locks;
      files = file.positions.files;
      numbers = file.numbers.items;
      stopped = file.stopped;
      entries = file.history.entries;
      room = file.history.room;
      files_room = file.positions.room;
    } };
}

impl RecordFile {
    /// A record file with no lock, no position, no deck and no entry, on this catalog. It takes no
    /// memory. It is what no history gives from a volume that is opened with this catalog, which
    /// has no alternate index that is built, whose areas are all of parts in it (`state`).
    pub fn new(alloc: Global, geometry: Geometry, catalog: Catalog) -> RecordFile
        ensures geometry { result.geometry ≡ geometry }
        ensures catalog { result.catalog ≡ catalog }
        ensures entries { result.entries ≡ [] }
        ensures stopped { result.stopped ≡ None }
        ensures state { (contents : ℕ → Content) (owned : List Owned)
            → catalog ≡ entries_in (contents 0) → AreUnbuilt catalog
            → AllByRecursion (λ area. has_part (parts_laid catalog) area.part ≡ true) owned
            → IsStateOf (opening_state contents owned) result }
    {
        RecordFile {
            geometry,
            catalog,
            locks: lock_table(alloc),
            positions: Positions::new(alloc),
            numbers: Vec::new(alloc),
            stopped: None,
            history: History::new(alloc),
        }
    }

    /// The entries of the history, in order.
    pub fn entries(&self) -> &[Entry]
        ensures { result.now ≡ self.now.entries }
    {
        self.history.entries()
    }

    /// The history.
    pub fn history(&self) -> &History
        ensures { result.now.entries ≡ self.now.entries }
    {
        &self.history
    }

    /// The stamp of the last entry, 0 where there is none.
    pub fn last(&self) -> u64
        ensures { result ≡ last_stamp 0 self.now.entries }
    {
        self.history.last()
    }

    /// The catalog.
    pub fn catalog(&self) -> &Catalog
        ensures { result.now ≡ self.now.catalog }
    {
        &self.catalog
    }

    /// The locks.
    pub(crate) fn locks(&self) -> &LockTable
        ensures { result.now ≡ self.now.locks }
    {
        &self.locks
    }

    /// The stamp of the write fault that stopped the volume, where one did.
    pub fn stopped(&self) -> Option<u64>
        ensures { result ≡ self.now.stopped }
    {
        self.stopped
    }

    /// The shape of the volume.
    pub fn geometry(&self) -> Geometry
        ensures { result ≡ self.now.geometry }
    {
        self.geometry
    }

    /// The history alone.
    pub fn into_history(self) -> History
        ensures { result.entries ≡ self.entries }
    {
        self.history
    }

    /// Makes room for this many entries and one more file. It fails only if memory runs out. All
    /// else stays, whatever the answer.
    pub fn reserve(&mut self, entries: usize) -> Result<(), OutOfMemory>
        ensures same { self.new ≡ record self.old {
          room = self.new.room;
          files_room = self.new.files_room;
        } }
        ensures room { OnOk result (entries ≤ self.new.room) }
        ensures files_room { OnOk result (0 < self.new.files_room) }
        ensures room_kept { self.old.room ≤ self.new.room }
        ensures files_room_kept { self.old.files_room ≤ self.new.files_room }
        ensures state { (opening : State) → IsStateOf opening self.old
            → IsStateOf opening self.new }
    {
        self.history.reserve(entries)?;
        self.positions.reserve()?;
        Ok(())
    }

    /// The stamp of the next entry: above those of the history, and above one that is handed in.
    pub(crate) fn next_stamp(&self, after: u64) -> u64
        requires last { last_stamp 0 self.now.entries < 2 ^ 64 - 1 }
        requires after { after < 2 ^ 64 - 1 }
        ensures { result ≡ next_stamp self.now.entries after }
    {
        self.history.last().max(after) + 1
    }

    /// Enters an event at the next stamp, in room that was reserved. It takes no memory.
    #[tactic(auto, using(crate::proofs::Steps::last_entered))]
    pub(crate) fn enter(&mut self, unit: Unit, line: u32, what: What, after: u64)
        requires room { 0 < self.old.room }
        requires last { last_stamp 0 self.old.entries < 2 ^ 64 - 1 }
        requires after { after < 2 ^ 64 - 1 }
        ensures leaves { self.new ≡ with_event after unit line what self.old }
        ensures last { last_stamp 0 self.new.entries ≡ next_stamp self.old.entries after }
    {
        let stamp = self.next_stamp(after);
        self.history.push(Entry {
            stamp,
            unit,
            line,
            what,
        });
    }

    /// The file of a request lets go what it held for update.
    pub(crate) fn let_go(&mut self, deck: u32, request: &Request)
        ensures { self.new ≡ lets_go deck request.now self.old }
    {
        if let Some(on) = file_of(request) {
            self.positions.drop_held(deck, on.slot);
        }
    }

    /// Enters a request with its reply at the next stamp: its file lets go what it held for update,
    /// and nothing else changes. It takes no memory.
    pub(crate) fn enter_asked(
        &mut self,
        unit: Unit,
        line: u32,
        request: SharedRequest,
        reply: Reply,
        after: u64,
    )
        requires room { 0 < self.old.room }
        requires last { last_stamp 0 self.old.entries < 2 ^ 64 - 1 }
        requires after { after < 2 ^ 64 - 1 }
        ensures leaves { self.new ≡ with_event after unit line (Asked request reply)
            (lets_go unit.deck request self.old) }
        ensures last { last_stamp 0 self.new.entries ≡ next_stamp self.old.entries after }
    {
        self.let_go(unit.deck, request.get());
        self.enter(unit, line, What::Asked { request, reply }, after);
    }
}
