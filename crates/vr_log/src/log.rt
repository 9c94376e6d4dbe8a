//! The undo log.
ghost use Rattle.std.specs.Prelude.{◌≡◌, ◌<◌, ◌≤◌, ◌+◌, [], ◌∷◌, ◌++◌, length, All, Contains, ℕ};
ghost use Rattle.std.specs.Prelude.{◌*◌, IsTrue, true, false, IfOk};
ghost use Rattle.std.specs.Prelude.{OnOk, OnErr, IfErr, if◌then◌else◌};
ghost use Rattle.vr_types.specs.Blocks.{Keeps};
ghost use Rattle.vr_types.specs.Faults.{HasWriteCause};
ghost use Rattle.vr_types.specs.Geometry.{IsAllowed};
ghost use Rattle.vr_types.specs.LogSpace.{log_size, end_length};
ghost use Rattle.vr_types.specs.Regions.{Touches};
ghost use Rattle.vr_log.specs.declared.record.LogRecord.TheVariants.{End};
ghost use Rattle.vr_log.specs.Live.{live_in, used_by, need_of, is_in, EndsLive};
ghost use Rattle.vr_log.specs.Memory.{AreNumbered};
ghost use Rattle.vr_log.specs.LogNow.{
  made,
  restarted,
  with_record,
  forced_now,
  IsAppended,
  IsForced,
  IsOf,
  IsNextPlace,
  IsFullNo,
  IsFullWhere,
  HasLogCause,
  HasLog,
  HasLogOrNone,
  no_log,
};
ghost use Rattle.vr_log.specs.Reading.{HasReadCause, IsNoDamage};
ghost use Rattle.vr_log.specs.Records.{HasFields, HasLengths};
ghost use Rattle.vr_log.specs.Standing.{InLog, LogStands};

use crate::clearing::clear_all;
use crate::content::LogContent;
use crate::kept::{Kept, Older};
use crate::live::Live;
use crate::making::{new_live, new_tail, numbers_to, pass_records};
use crate::no::LogNo;
use crate::read_no::LogReadNo;
use crate::record::{EndKind, LogPlace, LogRecord};
use crate::tail::Tail;
use crate::writing::{note_unit, put_record, record_length};
use std::alloc::Global;
use std::marker::Model;
use std::snapshot::Snapshot;
use vr_types::{Blocks, DeviceFault, Geometry, OutOfMemory, Unit};

/// The undo log of a volume, in blocks 1 to L.
#[derive(Drop)]
pub struct UndoLog {
    geometry: Geometry,
    tail: Tail,
    live: Live,
    numbers: Vec<u32>,
    bytes: u64,
    forced: u64,
    broken: bool,
    records: Kept,
    forced_records: Snapshot<Kept>,
    older: Older,
}

impl Model for UndoLog {
    ghost use Rattle.std.specs.Prelude.{◌≡◌, false, length};
    ghost use Rattle.vr_types.specs.Geometry.{IsAllowed};
    ghost use Rattle.vr_log.specs.Memory.{AreNumbered};
    ghost use Rattle.vr_log.specs.LogNow.{LogNow};
    ghost use Rattle.vr_log.specs.Kept.{records_in};
    ghost use Rattle.vr_log.specs.Memory.{behind_in, IsKept, AreNumbers};

    ghost Value = { LogNow };

    ghost view = { λ log. record {
      geometry = log.geometry;
      generation = log.tail.generation;
      records = records_in log.records;
      forced = length (records_in log.forced_records.value);
      behind = behind_in log.tail.begun log.older;
      broken = log.broken;
    } };

    ghost invariant = { λ log. IsAllowed log.geometry
        × AreNumbers log.geometry log.numbers
        × (log.broken ≡ false → IsKept log.geometry (records_in log.records)
        (records_in log.forced_records.value) log.tail log.live log.bytes log.forced) };
}

impl UndoLog {
    /// Adds a record after the others, and puts the blocks that its bytes fall into. The room of a
    /// unit's end is kept from its first before-image on. It answers where the record begins. At
    /// every moment, failing or not, each image has the records that were forced and a prefix of
    /// all with this one. `Full`: nothing is done, since the bytes in use and those that the record
    /// needs are more than the log has. `Write` is the device's; `Read` never comes.
    pub fn append<B: Blocks>(&mut self, blocks: &mut B, rec: &LogRecord) -> Result<LogPlace, LogNo>
        requires sound { self.old.broken ≡ false }
        requires shape { IsOf self.old.geometry (B.seen blocks.old) }
        requires lengths { HasLengths rec.now }
        requires live { EndsLive (live_in self.old.records) rec.now }
        requires stands { IsTrue B.tells → LogStands self.old (B.seen blocks.old) }
        ensures place { IfOk result (IsNextPlace self.old) }
        ensures log { OnOk result (IsAppended self.old rec.now self.new) }
        ensures shape { OnOk result (IsOf self.new.geometry (B.seen blocks.new)) }
        ensures stands { IsTrue B.tells → OnOk result (LogStands self.new (B.seen blocks.new)) }
        ensures moments { IsTrue B.tells → Touches (InLog self.old.geometry)
            (HasLog (with_record self.old rec.now)) (B.seen blocks.old) (B.seen blocks.new) }
        ensures full { IsFullWhere self.old (need_of (live_in self.old.records) rec.now) result }
        ensures unchanged { IfErr result (λ no. IsFullNo no
            → (self.new ≡ self.old) × (blocks.new ≡ blocks.old)) }
        ensures cause { HasLogCause (B.faults blocks.old) (B.faults blocks.new) result }
    {
        let used = self.used();
        let need = self.need(rec);
        let size = self.size();
        if used + need > size {
            return Err(LogNo::Full { used, need, size });
        }
        let place = self.place();
        match self.enter(blocks, rec) {
            Ok(()) => Ok(place),
            Err(DeviceFault::Write) => Err(LogNo::Write),
            Err(DeviceFault::Read) => Err(LogNo::Read),
        }
    }

    /// Adds the record that ends a unit, in the room that was kept for it. `Write` is the device's.
    pub fn end_record<B: Blocks>(
        &mut self,
        blocks: &mut B,
        unit: Unit,
        kind: EndKind,
    ) -> Result<(), DeviceFault>
        requires sound { self.old.broken ≡ false }
        requires shape { IsOf self.old.geometry (B.seen blocks.old) }
        requires live { IsTrue (is_in unit (live_in self.old.records)) }
        requires stands { IsTrue B.tells → LogStands self.old (B.seen blocks.old) }
        ensures log { OnOk result (IsAppended self.old (End unit kind) self.new) }
        ensures shape { OnOk result (IsOf self.new.geometry (B.seen blocks.new)) }
        ensures stands { IsTrue B.tells → OnOk result (LogStands self.new (B.seen blocks.new)) }
        ensures moments { IsTrue B.tells → Touches (InLog self.old.geometry)
            (HasLog (with_record self.old (End unit kind))) (B.seen blocks.old)
            (B.seen blocks.new) }
        ensures cause { HasWriteCause (B.faults blocks.old) (B.faults blocks.new) result }
    {
        self.enter(blocks, &LogRecord::End { unit, kind })
    }

    /// Forces the records that were appended, in one sync; where none was since the last time,
    /// nothing is done. `Write` is the device's, and the log is broken then: what stands of its
    /// blocks isn't known.
    pub fn force<B: Blocks>(&mut self, blocks: &mut B) -> Result<(), DeviceFault>
        requires sound { self.old.broken ≡ false }
        requires shape { IsOf self.old.geometry (B.seen blocks.old) }
        requires stands { IsTrue B.tells → LogStands self.old (B.seen blocks.old) }
        ensures forced { OnOk result (self.new ≡ forced_now self.old) }
        ensures stands { IsTrue B.tells → OnOk result (LogStands self.new (B.seen blocks.new)) }
        ensures moments { IsTrue B.tells → Touches (InLog self.old.geometry) (HasLog self.old)
            (B.seen blocks.old) (B.seen blocks.new) }
        ensures keeps { Keeps B.tells (B.seen blocks.old) (B.seen blocks.new) }
        ensures broken { OnErr result (self.new.broken ≡ true) }
        ensures idle { IsForced self.old → (self.new ≡ self.old) × (blocks.new ≡ blocks.old) }
        ensures cause { HasWriteCause (B.faults blocks.old) (B.faults blocks.new) result }
    {
        if self.forced == self.bytes {
            return Ok(());
        }
        self.broken = true;
        let room = self.tail.block.len() as u64 - 16;
        let list = from_block(&self.numbers, self.forced, room, self.tail.index);
        blocks.force(list)?;
        self.broken = false;
        self.tail.begun = true;
        self.forced = self.bytes;
        self.forced_records = Snapshot::of(&self.records);
        Ok(())
    }

    /// Begins the next generation, with no record. Nothing is put before the next record is
    /// appended. The generation stands still at 2^64 - 1.
    pub fn restart(&mut self)
        requires sound { self.old.broken ≡ false }
        requires none_live { live_in self.old.records ≡ [] }
        requires forced { IsForced self.old }
        ensures { self.new ≡ restarted self.old }
    {
        if self.tail.begun {
            self.older = Older::Ended(self.tail.generation, Snapshot::of(&self.records));
        }
        self.tail.generation = self.tail.generation.saturating_add(1);
        self.tail.index = 0;
        self.tail.used = 0;
        self.tail.begun = false;
        self.bytes = 0;
        self.forced = 0;
        self.records = Kept::Nothing;
        self.forced_records = Snapshot::of(&self.records);
    }

    /// Begins the log anew once its units have all ended: its blocks become zeros, block 1 first, and
    /// are forced, so that it has no generation yet, as on a volume that was just formatted. So its
    /// generations never come to an end. In each image of every moment, whether it fails or not, the
    /// blocks spell the log that they had, or none yet; where it fails the log is broken. `Fault` is
    /// the device's; `Memory`: there is none for the zeros of a block; `Damaged` never comes.
    pub fn renew<B: Blocks>(&mut self, alloc: Global, blocks: &mut B) -> Result<(), LogReadNo>
        requires sound { self.old.broken ≡ false }
        requires none_live { live_in self.old.records ≡ [] }
        requires forced { IsForced self.old }
        requires shape { IsOf self.old.geometry (B.seen blocks.old) }
        requires stands { IsTrue B.tells → LogStands self.old (B.seen blocks.old) }
        ensures log { OnOk result (self.new ≡ made self.old.geometry no_log) }
        ensures shape { IsOf self.old.geometry (B.seen blocks.new) }
        ensures stands { IsTrue B.tells → OnOk result (LogStands self.new (B.seen blocks.new)) }
        ensures moments { IsTrue B.tells → Touches (InLog self.old.geometry)
            (HasLogOrNone self.old) (B.seen blocks.old) (B.seen blocks.new) }
        ensures no_damage { IfErr result IsNoDamage }
        ensures cause { HasReadCause (B.faults blocks.old) (B.faults blocks.new) result }
    {
        self.broken = true;
        blocks.force(&self.numbers)?;
        clear_all(alloc, blocks, &self.geometry)?;
        self.broken = false;
        self.forget(alloc);
        Ok(())
    }

    /// Begins the first generation in memory, on blocks that spell none.
    fn forget(&mut self, alloc: Global)
        requires { self.old.broken ≡ false }
        ensures { self.new ≡ made self.old.geometry no_log }
    {
        self.older = Older::Made(Snapshot::of(&LogContent::new(alloc, 0)));
        self.tail.generation = 1;
        self.tail.index = 0;
        self.tail.used = 0;
        self.tail.begun = false;
        self.bytes = 0;
        self.forced = 0;
        self.records = Kept::Nothing;
        self.forced_records = Snapshot::of(&self.records);
        self.live.clear();
    }

    /// Whether the unit is live: it has a before-image and no end record after it.
    pub fn is_live(&self, unit: Unit) -> bool
        requires { self.now.broken ≡ false }
        ensures { result ≡ is_in unit (live_in self.now.records) }
    {
        self.live.has(unit)
    }

    /// How many units are live.
    pub fn live(&self) -> usize
        requires { self.now.broken ≡ false }
        ensures { result ≡ length (live_in self.now.records) }
    {
        self.live.len()
    }

    /// The generation.
    pub fn generation(&self) -> u64
        ensures { result ≡ self.now.generation }
    {
        self.tail.generation
    }

    /// Adds a record that has room.
    pub(crate) fn enter<B: Blocks>(
        &mut self,
        blocks: &mut B,
        rec: &LogRecord,
    ) -> Result<(), DeviceFault>
        requires sound { self.old.broken ≡ false }
        requires shape { IsOf self.old.geometry (B.seen blocks.old) }
        requires lengths { HasLengths rec.now }
        requires live { EndsLive (live_in self.old.records) rec.now }
        requires room { used_by self.old.records ≤ log_size self.old.geometry
            → used_by self.old.records + need_of (live_in self.old.records) rec.now
            ≤ log_size self.old.geometry }
        requires stands { IsTrue B.tells → LogStands self.old (B.seen blocks.old) }
        ensures log { OnOk result (IsAppended self.old rec.now self.new) }
        ensures shape { OnOk result (IsOf self.new.geometry (B.seen blocks.new)) }
        ensures stands { IsTrue B.tells → OnOk result (LogStands self.new (B.seen blocks.new)) }
        ensures moments { IsTrue B.tells → Touches (InLog self.old.geometry)
            (HasLog (with_record self.old rec.now)) (B.seen blocks.old) (B.seen blocks.new) }
        ensures cause { HasWriteCause (B.faults blocks.old) (B.faults blocks.new) result }
    {
        self.broken = true;
        put_record(&mut self.tail, blocks, rec)?;
        self.bytes += record_length(rec);
        note_unit(&mut self.live, rec);
        self.records = Kept::After(Snapshot::of(&self.records), Snapshot::of(rec));
        self.broken = false;
        Ok(())
    }

    /// The bytes in use: those of the records, and the room kept for the ends of the live units.
    pub fn used(&self) -> u64
        requires { self.now.broken ≡ false }
        ensures value { result ≡ used_by self.now.records }
        ensures most { result ≤ log_size self.now.geometry }
        ensures small { result < 4294967296 }
        ensures allowed { IsAllowed self.now.geometry }
    {
        self.bytes + 9 * self.live.len() as u64
    }

    /// The bytes that a record needs.
    fn need(&self, rec: &LogRecord) -> u64
        requires sound { self.now.broken ≡ false }
        requires lengths { HasLengths rec.now }
        ensures value { result ≡ need_of (live_in self.now.records) rec.now }
        ensures most { result < 4294967296 + 65600 }
    {
        match rec {
            LogRecord::Before { unit, .. } => {
                let there = self.live.has(*unit);
                record_length(rec) + end_room(there)
            }
            LogRecord::End { .. } => 0,
        }
    }

    /// The bytes that the log has.
    pub(crate) fn size(&self) -> u64
        ensures { result ≡ log_size self.now.geometry }
    {
        self.geometry.log as u64 * (self.geometry.size as u64 - 16)
    }

    /// Where the next record begins.
    fn place(&self) -> LogPlace
        requires { self.now.broken ≡ false }
        ensures { IsNextPlace self.now result }
    {
        LogPlace {
            block: 1 + self.tail.index,
            at: 16 + self.tail.used,
        }
    }
}

/// The numbers of the blocks of a log from that of a byte on, to the block of this index.
fn from_block(numbers: &[u32], byte: u64, room: u64, last: u32) -> &[u32]
    requires each { AreNumbered numbers.now }
    requires room { 0 < room }
    requires byte { byte < (last + 1) * room }
    requires last { last < length numbers.now }
    ensures below { (count : ℕ) → length numbers.now < count → All (λ n. n < count) result.now }
    ensures found { (index : ℕ) → byte < (index + 1) * room → index ≤ last
        → Contains result.now (1 + index) }
{
    let first = (byte / room) as usize;
    &numbers[first..last as usize + 1]
}

/// The room that the end of a unit still needs.
pub(crate) fn end_room(there: bool) -> u64
    ensures value { result ≡ (if there then 0 else end_length) }
    ensures most { result ≤ 9 }
{
    if there { 0 } else { 9 }
}

/// The log after the records of `content`, which stand on the blocks. Besides a block it takes 8
/// bytes for each 20 of the log, for the live units that it may have, and 4 for each of its blocks,
/// so that no other call takes memory.
pub fn undo_log(
    alloc: Global,
    geometry: &Geometry,
    content: &LogContent,
) -> Result<UndoLog, OutOfMemory>
    requires allowed { IsAllowed geometry.now }
    requires fields { All HasFields content.now.records }
    requires room { used_by content.now.records ≤ log_size geometry.now }
    ensures { IfOk result (λ log. log ≡ made geometry.now content.now) }
{
    let mut tail = new_tail(alloc, *geometry, content.generation().max(1))?;
    let mut live = new_live(alloc, *geometry)?;
    let numbers = numbers_to(alloc, geometry.log)?;
    pass_records(*geometry, &mut tail, &mut live, content.records());
    let bytes = tail.index as u64 * (geometry.size as u64 - 16) + tail.used as u64;
    let records = Kept::Of(Snapshot::of(content));
    Ok(UndoLog {
        geometry: *geometry,
        tail,
        live,
        numbers,
        bytes,
        forced: bytes,
        broken: false,
        forced_records: Snapshot::of(&records),
        records,
        older: Older::Made(Snapshot::of(content)),
    })
}
