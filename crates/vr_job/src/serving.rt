//! A volume that the threads of decks share, and the utilities between them: one event of a
//! request, under the volume's latch, or of a definition, an edit, a count or a reading.
ghost use Rattle.std.specs.Prelude.{◌≡◌, ◌<◌, ◌≤◌, ◌==◌, ◌+◌, ◌-◌, ◌^◌, [], IsTrue, OnErr, OnOk};
ghost use Rattle.std.specs.Prelude.{false, true, Contains, IfOk, IsErr, None, Ok, is_some};
ghost use Rattle.std.specs.Option.{option_copied};
ghost use Rattle.vr_catalog.specs.declared.entry.EntryKind.TheVariants.{Cluster};
ghost use Rattle.vr_ams_define.specs.Answers.{HasRead, IsShownAfter, IsShownCounted, IsShownRead};
ghost use Rattle.vr_edits.specs.Edits.{MayEdit};
ghost use Rattle.vr_ams_define.specs.Answers.Exchange.{Counting, Defining, Editing};
ghost use Rattle.vr_ams_define.specs.Edited.{IsShownEdited};
ghost use Rattle.vr_ams_define.specs.Grown.{HasEntered as HasEnteredOn};
ghost use Rattle.vr_ams_define.specs.NewCluster.{IsNewCluster};
ghost use Rattle.vr_event.specs.DefineSteps.{HasCome, LacksRoomWhere, MayDefineNow};
ghost use Rattle.vr_event.specs.Defining.{HasDefineFaults, utility_unit};
ghost use Rattle.vr_event.specs.Volume.{Holds, IsWhole};
ghost use Rattle.vr_event.specs.declared.define.Define.TheVariants as events;
ghost use Rattle.vr_history.specs.Merged.{last_stamp};
ghost use Rattle.vr_record_file.specs.Now.{has_deck, number_of};
ghost use Rattle.vr_trace.specs.Laws.{deck_entries};
ghost use Rattle.vr_worker.specs.Asked as asked;
ghost use Rattle.vr_worker.specs.Asked.{HasEntered, MayAsk};
ghost use Rattle.vr_job.specs.Answering as answering;
ghost use Rattle.vr_job.specs.Answering.{IsAnswered};
ghost use Rattle.vr_job.specs.Going.{Follows, WentOn};
ghost use Rattle.vr_job.specs.Serving.{IsNearerFor, IsServing, LeavesLess, StaysServing, is_done};
ghost use Rattle.vr_job.specs.Serving.{shown_of, unit_of};

use crate::counting::count;
use crate::editing::edit_catalog;
use crate::reading::read;
use std::alloc::Global;
use std::marker::Model;
use vr_ams_define::{Changed, Counted, Defined, OwnedVolume, ReadBack};
use vr_catalog::{CatEntry, Catalog};
use vr_device::BlockDevice;
use vr_edits::CatalogEdit;
use vr_event::{Act, Define, Volume};
use vr_history::History;
use vr_part::AnyPart;
use vr_recent::Recent;
use vr_space::Part;
use vr_start::Start;
use vr_trace::{RecordVisitor, RunNo, ShownVolume};
use vr_types::{Blocks, Geometry, OutOfMemory, Place, SharedRequest, Unit};
use vr_worker::{Cataloged, Served};

/// The least stamp with which no event begins.
const STAMP_LIMIT: u64 = 1 << 62;

/// No event but an edit of the catalog adds more entries.
pub(crate) const EVENT_ENTRIES: usize = 6;

/// Enters a deck, where it wasn't. It fails only if memory runs out. Nothing is entered in the
/// history, whatever the answer.
fn enter<B: Blocks, P: Part>(volume: &mut Volume<B, P>, deck: u32) -> Result<(), OutOfMemory>
    requires { IsServing B.tells B.seen volume.old }
    ensures deck { OnOk result (has_deck deck volume.new.file.numbers ≡ true) }
    ensures stopped { volume.new.file.stopped ≡ volume.old.file.stopped }
    ensures stays { StaysServing B.tells B.seen B.faults volume.old volume.new }
{
    volume.enter_deck(deck)
}

/// Enters a deck and makes room for one event, which adds at most this many entries. It fails only
/// if memory runs out. Nothing is entered in the history, whatever the answer.
fn make_room<B: Blocks, P: Part>(
    volume: &mut Volume<B, P>,
    deck: u32,
    entries: usize,
) -> Result<(), OutOfMemory>
    requires { IsServing B.tells B.seen volume.old }
    ensures deck { OnOk result (has_deck deck volume.new.file.numbers ≡ true) }
    ensures room { OnOk result (entries ≤ volume.new.file.room) }
    ensures files_room { OnOk result (0 < volume.new.file.files_room) }
    ensures stopped { volume.new.file.stopped ≡ volume.old.file.stopped }
    ensures stays { StaysServing B.tells B.seen B.faults volume.old volume.new }
{
    enter(volume, deck)?;
    volume.reserve(entries)
}

/// Makes room for one event of a deck whose last stamp is `after`, which adds at most this many
/// entries, and sees that there are stamps and numbers for it. Nothing is entered in the history,
/// whatever the answer.
pub(crate) fn make_ready<B: Blocks, P: Part>(
    volume: &mut Volume<B, P>,
    deck: u32,
    after: u64,
    entries: usize,
) -> Result<(), RunNo>
    requires { IsServing B.tells B.seen volume.old }
    ensures deck { OnOk result (has_deck deck volume.new.file.numbers ≡ true) }
    ensures room { OnOk result (entries ≤ volume.new.file.room) }
    ensures files_room { OnOk result (0 < volume.new.file.files_room) }
    ensures last { OnOk result (last_stamp 0 volume.new.file.entries < 2 ^ 62) }
    ensures after { OnOk result (after < 2 ^ 62) }
    ensures generation { OnOk result (volume.new.store.log.generation + 1 < 2 ^ 63) }
    ensures number { OnOk result (number_of volume.new.file.numbers deck < 2 ^ 32 - 1) }
    ensures stopped { volume.new.file.stopped ≡ volume.old.file.stopped }
    ensures stays { StaysServing B.tells B.seen B.faults volume.old volume.new }
{
    make_room(volume, deck, entries)?;
    if volume.last() >= STAMP_LIMIT || after >= STAMP_LIMIT || !volume.has_numbers(deck) {
        return Err(RunNo::Stamps);
    }
    Ok(())
}

/// Whether an event entered its request.
fn is_done(act: &Act) -> bool
    ensures { result ≡ is_done act.now }
{
    matches!(act, Act::Done)
}

/// One event of a request of a deck's current unit, in room that was made: whether the request was
/// answered.
fn event<B: Blocks, P: Part>(
    alloc: Global,
    volume: &mut Volume<B, P>,
    unit: Unit,
    line: u32,
    request: SharedRequest,
    after: u64,
) -> bool
    requires serving { IsServing B.tells B.seen volume.old }
    requires room { 4 ≤ volume.old.file.room }
    requires files { 0 < volume.old.file.files_room }
    requires last { last_stamp 0 volume.old.file.entries < 2 ^ 62 }
    requires after { after < 2 ^ 62 }
    requires generation { volume.old.store.log.generation + 1 < 2 ^ 63 }
    requires number { number_of volume.old.file.numbers unit.deck < 2 ^ 32 - 1 }
    requires deck { has_deck unit.deck volume.old.file.numbers ≡ true }
    requires own { (unit.deck == 0) ≡ false }
    requires current { unit ≡ unit_of unit.deck volume.old.file }
    requires may_ask { MayAsk request (deck_entries unit.deck volume.old.file.entries) }
    ensures serving { IsServing B.tells B.seen volume.new }
    ensures went { WentOn B.tells B.seen B.faults volume.old volume.new }
    ensures entered { HasEntered volume.old.number unit.deck line request after result
        volume.old.file.entries volume.new.file.entries }
    ensures nearer { result ≡ false → IsNearerFor B.tells volume.old volume.new unit.deck }
{
    let act = volume.act(alloc, unit, line, request, after);
    is_done(&act)
}

/// One event of a request of a deck: whether the request was answered.
fn serve<B: Blocks, P: Part>(
    alloc: Global,
    volume: &mut Volume<B, P>,
    deck: u32,
    line: u32,
    request: &SharedRequest,
    after: u64,
) -> Result<bool, RunNo>
    requires serving { IsServing B.tells B.seen volume.old }
    requires own { (deck == 0) ≡ false }
    requires may_ask { MayAsk request.now (deck_entries deck volume.old.file.entries) }
    ensures serving { IsServing B.tells B.seen volume.new }
    ensures follows { Follows B.tells B.seen B.faults volume.old volume.new }
    ensures entered { HasEntered volume.old.number deck line request.now after
        (asked.is_done result) volume.old.file.entries volume.new.file.entries }
    ensures failed { OnErr result (volume.new.file.entries ≡ volume.old.file.entries) }
    ensures nearer { IfOk result (λ done. done ≡ false
        → IsNearerFor B.tells volume.old volume.new deck) }
    ensures number { volume.new.number ≡ volume.old.number }
{
    make_ready(volume, deck, after, EVENT_ENTRIES)?;
    let shared = request.share()?;
    let number = volume.unit_number(deck);
    let done = event(alloc, volume, Unit { deck, number }, line, shared, after);
    Ok(done)
}

/// What an event of a definition came to, as its command has it.
fn answer_of(event: Define) -> Defined
    ensures { result ≡ answering.answer_of event }
{
    match event {
        Define::Done { area } => Defined::Done { area },
        Define::Again => Defined::Again,
        Define::NoArea => Defined::NoArea,
        Define::NoRoom => Defined::NoRoom,
        Define::Held => Defined::Held,
        Define::Full => Defined::Full,
        Define::Fault(fault) => Defined::Fault(fault),
    }
}

/// One event of a definition of a cluster by the utilities, which are deck 0, in room that was
/// made.
fn define_event<B: Blocks, P: Start + Drop>(
    alloc: Global,
    volume: &mut Volume<B, P>,
    line: u32,
    entry: &CatEntry,
    after: u64,
) -> Result<Define, OutOfMemory>
    requires serving { IsServing B.tells B.seen volume.old }
    requires may { MayDefineNow B.seen after volume.old }
    requires entry { IsNewCluster volume.old.file.geometry volume.old.file.catalog entry.now }
    ensures serving { IsServing B.tells B.seen volume.new }
    ensures went { WentOn B.tells B.seen B.faults volume.old volume.new }
    ensures come { HasCome B.seen after (utility_unit volume.old.file) line entry.now result
        volume.old volume.new }
    ensures no_room { IsTrue B.tells → LacksRoomWhere B.seen entry.now result volume.old }
    ensures nearer { IsTrue B.tells → result ≡ Ok events.Again
        → LeavesLess volume.old volume.new }
    ensures cause { HasDefineFaults (B.faults volume.old.blocks) (B.faults volume.new.blocks)
        result }
    ensures entered { HasEnteredOn line after volume.old.file.entries volume.new.file.entries }
{
    volume.define(alloc, line, entry, after)
}

/// One event of a definition of a cluster by the utilities.
fn define<B: Blocks, P: Start + Drop>(
    alloc: Global,
    volume: &mut Volume<B, P>,
    line: u32,
    entry: &CatEntry,
    after: u64,
) -> Result<Defined, RunNo>
    requires serving { IsServing B.tells B.seen volume.old }
    requires going { volume.old.file.stopped ≡ None }
    requires entry { IsNewCluster volume.old.file.geometry volume.old.file.catalog entry.now }
    ensures serving { IsServing B.tells B.seen volume.new }
    ensures follows { Follows B.tells B.seen B.faults volume.old volume.new }
    ensures answered { IfOk result (λ answer. IsAnswered B.tells B.seen B.faults volume.old line
        (Defining entry.now answer) volume.new) }
    ensures shown { IfOk result (λ answer. IsShownAfter answer entry.now (shown_of volume.old)
        (shown_of volume.new)) }
    ensures refused { IsErr result → shown_of volume.new ≡ shown_of volume.old }
    ensures entered { HasEnteredOn line after volume.old.file.entries volume.new.file.entries }
    ensures number { volume.new.number ≡ volume.old.number }
    ensures geometry { volume.new.file.geometry ≡ volume.old.file.geometry }
{
    make_ready(volume, 0, after, EVENT_ENTRIES)?;
    let event = define_event(alloc, volume, line, entry, after)?;
    Ok(answer_of(event))
}

/// A volume that serves the decks of a job.
#[derive(Drop)]
pub(crate) struct Serving<D: BlockDevice> {
    alloc: Global,
    volume: Volume<Recent<D>, AnyPart>,
}

impl<D: BlockDevice> Model for Serving<D> {
    ghost use Rattle.vr_event.specs.Volume.{VolumeNow};
    ghost use Rattle.vr_job.specs.Serving.{IsServing};

    ghost Value = { VolumeNow D };

    ghost view = { λ serving. serving.volume };

    ghost invariant = { λ serving. IsServing D.tells D.seen serving.volume };
}

impl<D: BlockDevice> Serving<D> {
    /// A volume with no history yet, ready to serve.
    pub(crate) fn new(alloc: Global, volume: Volume<Recent<D>, AnyPart>) -> Serving<D>
        requires whole { IsWhole D.seen volume }
        requires holds { IsTrue D.tells → Holds D.seen volume }
        requires begins { volume.file.entries ≡ [] }
        ensures { result ≡ volume }
    {
        Serving { alloc, volume }
    }

    /// The volume alone.
    pub(crate) fn into_volume(self) -> Volume<Recent<D>, AnyPart>
        ensures volume { result ≡ self }
        ensures whole { IsWhole D.seen result }
    {
        self.volume
    }
}

impl<D: BlockDevice> Served for Serving<D> {
    ghost use Rattle.vr_job.specs.Going.{Follows, follows-itself, follows-on};
    ghost use Rattle.vr_job.specs.Serving.{IsNearerFor};

    ghost number = { λ serving. serving.number };

    ghost entries = { λ serving. serving.file.entries };

    ghost follows = { λ old new. Follows D.tells D.seen D.faults old new };

    ghost nears = { λ old new deck. IsNearerFor D.tells old new deck };

    ghost stays = { λ serving. follows-itself D.tells D.seen D.faults serving };

    ghost goes_on = { λ a b c first second. follows-on D.tells D.seen D.faults a b c first second };

    fn number(&self) -> u32
        ensures { result ≡ self.now.number }
    {
        self.volume.number()
    }

    fn history(&self) -> &History
        ensures { result.now.entries ≡ self.now.file.entries }
    {
        self.volume.history()
    }

    fn answer(
        &mut self,
        deck: u32,
        line: u32,
        request: &SharedRequest,
        after: u64,
    ) -> Result<bool, RunNo>
        requires deck { (deck == 0) ≡ false }
        requires may_ask { MayAsk request.now (deck_entries deck self.old.file.entries) }
        ensures number { self.new.number ≡ self.old.number }
        ensures follows { Follows D.tells D.seen D.faults self.old self.new }
        ensures entered { HasEntered self.old.number deck line request.now after
            (asked.is_done result) self.old.file.entries self.new.file.entries }
        ensures failed { OnErr result (self.new.file.entries ≡ self.old.file.entries) }
        ensures nearer { IfOk result (λ done. done ≡ false
            → IsNearerFor D.tells self.old self.new deck) }
    {
        serve(self.alloc, &mut self.volume, deck, line, request, after)
    }
}

impl<D: BlockDevice> ShownVolume for Serving<D> {
    ghost use Rattle.std.specs.Prelude.{is_some};
    ghost use Rattle.vr_job.specs.Serving.{shown_of};

    ghost shown = { λ serving. shown_of serving };

    fn catalog(&self) -> &Catalog
        ensures { result.now ≡ self.now.file.catalog }
    {
        self.volume.catalog()
    }

    fn is_stopped(&self) -> bool
        ensures { result ≡ is_some self.now.file.stopped }
    {
        self.volume.is_stopped()
    }
}

impl<D: BlockDevice> OwnedVolume for Serving<D> {
    ghost use Rattle.vr_job.specs.Answering.{IsAnswered};
    ghost use Rattle.vr_job.specs.Going.{Follows, follows-itself, follows-on};

    ghost geometry = { λ serving. serving.file.geometry };

    ghost history = { λ serving. serving.file.entries };

    ghost goes = { λ old new. Follows D.tells D.seen D.faults old new };

    ghost goes_nowhere = { λ serving. follows-itself D.tells D.seen D.faults serving };

    ghost goes_further = { λ a b c first second.
        follows-on D.tells D.seen D.faults a b c first second };

    ghost answers = { λ old line exchange new.
        IsAnswered D.tells D.seen D.faults old line exchange new };

    fn geometry(&self) -> Geometry
        ensures { result ≡ self.now.file.geometry }
    {
        self.volume.geometry()
    }

    fn last(&self) -> u64
        ensures { result ≡ last_stamp 0 self.now.file.entries }
    {
        self.volume.last()
    }

    fn define(&mut self, line: u32, entry: &CatEntry, after: u64) -> Result<Defined, RunNo>
        requires going { is_some self.old.file.stopped ≡ false }
        requires entry { IsNewCluster self.old.file.geometry self.old.file.catalog entry.now }
        ensures answered { IfOk result (λ answer. IsAnswered D.tells D.seen D.faults self.old line
            (Defining entry.now answer) self.new) }
        ensures shown { IfOk result (λ answer. IsShownAfter answer entry.now (shown_of self.old)
            (shown_of self.new)) }
        ensures refused { IsErr result → shown_of self.new ≡ shown_of self.old }
        ensures entered { HasEnteredOn line after self.old.file.entries self.new.file.entries }
        ensures goes { Follows D.tells D.seen D.faults self.old self.new }
        ensures geometry { self.new.file.geometry ≡ self.old.file.geometry }
    {
        define(self.alloc, &mut self.volume, line, entry, after)
    }

    fn count(&mut self, line: u32, entry: &CatEntry, after: u64) -> Result<Counted, RunNo>
        requires going { is_some self.old.file.stopped ≡ false }
        requires entry { Contains self.old.file.catalog entry.now }
        requires cluster { entry.now.entry_kind ≡ Cluster }
        ensures counted { IfOk result (λ counted. IsAnswered D.tells D.seen D.faults self.old line
            (Counting entry.now counted) self.new) }
        ensures shown { IfOk result (λ counted. IsShownCounted counted (shown_of self.old)
            (shown_of self.new)) }
        ensures refused { IsErr result → shown_of self.new ≡ shown_of self.old }
        ensures entered { HasEnteredOn line after self.old.file.entries self.new.file.entries }
        ensures goes { Follows D.tells D.seen D.faults self.old self.new }
        ensures geometry { self.new.file.geometry ≡ self.old.file.geometry }
    {
        count(self.alloc, &mut self.volume, line, entry, after)
    }

    fn read<R: RecordVisitor>(
        &mut self,
        line: u32,
        entry: &CatEntry,
        from: Option<&Place>,
        after: u64,
        visitor: &mut R,
    ) -> Result<ReadBack, RunNo>
        requires going { is_some self.old.file.stopped ≡ false }
        requires entry { Contains self.old.file.catalog entry.now }
        requires cluster { entry.now.entry_kind ≡ Cluster }
        ensures read { IfOk result (λ answer. HasRead (IsAnswered D.tells D.seen D.faults) R.after
            R.done line entry.now (option_copied from.entry) self.old self.new visitor.old
            visitor.new answer) }
        ensures shown { IfOk result (λ answer. IsShownRead answer (shown_of self.old)
            (shown_of self.new)) }
        ensures refused { IsErr result → shown_of self.new ≡ shown_of self.old }
        ensures entered { HasEnteredOn line after self.old.file.entries self.new.file.entries }
        ensures goes { Follows D.tells D.seen D.faults self.old self.new }
        ensures geometry { self.new.file.geometry ≡ self.old.file.geometry }
    {
        read(
            self.alloc,
            &mut self.volume,
            line,
            entry,
            from,
            after,
            visitor,
        )
    }

    fn edit(&mut self, line: u32, edit: &CatalogEdit, after: u64) -> Result<Changed, RunNo>
        requires going { is_some self.old.file.stopped ≡ false }
        requires edit { MayEdit self.old.file.geometry self.old.file.catalog edit.now }
        ensures changed { IfOk result (λ answer. IsAnswered D.tells D.seen D.faults self.old line
            (Editing edit.now answer) self.new) }
        ensures shown { IfOk result (λ answer. IsShownEdited answer edit.now (shown_of self.old)
            (shown_of self.new)) }
        ensures refused { IsErr result → shown_of self.new ≡ shown_of self.old }
        ensures entered { HasEnteredOn line after self.old.file.entries self.new.file.entries }
        ensures goes { Follows D.tells D.seen D.faults self.old self.new }
        ensures geometry { self.new.file.geometry ≡ self.old.file.geometry }
    {
        edit_catalog(self.alloc, &mut self.volume, line, edit, after)
    }
}

impl<D: BlockDevice> Cataloged for Serving<D> {
    ghost use Rattle.std.proofs.Common.{refl};
    ghost use Rattle.vr_job.specs.Going.{follows-number};

    ghost same_history = { λ serving. refl };

    ghost goes_follows = { λ a b goes. goes };

    ghost goes_number = { λ a b goes. follows-number D.tells D.seen D.faults a b goes };
}
