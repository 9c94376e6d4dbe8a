//! A volume that the utilities have for themselves.
ghost use Rattle.std.specs.Prelude.{◌≡◌, ℕ, List, false, Contains, IfOk, IsErr};
ghost use Rattle.std.specs.Option.{option_copied};
ghost use Rattle.vr_catalog.specs.declared.entry.EntryKind.TheVariants.{Cluster};
ghost use Rattle.vr_edits.specs.Edits.{MayEdit};
ghost use Rattle.vr_history.specs.Merged.{last_stamp};
ghost use Rattle.vr_history.specs.declared.entry.Entry.{Entry};
ghost use Rattle.vr_types.specs.declared.geometry.Geometry.{Geometry};
ghost use Rattle.vr_ams_define.specs.Answers.{Exchange, HasRead, IsShownAfter, IsShownCounted};
ghost use Rattle.vr_ams_define.specs.Answers.{IsShownRead};
ghost use Rattle.vr_ams_define.specs.Answers.Exchange.{Counting, Defining, Editing};
ghost use Rattle.vr_ams_define.specs.Edited.{IsShownEdited};
ghost use Rattle.vr_ams_define.specs.Grown.{HasEntered};
ghost use Rattle.vr_ams_define.specs.NewCluster.{IsNewCluster};

use crate::answer::{Changed, Counted, Defined, ReadBack};
use vr_catalog::CatEntry;
use vr_edits::CatalogEdit;
use vr_trace::{RecordVisitor, RunNo, ShownVolume};
use vr_types::{Geometry, Place};

/// A volume that no deck has, which a command of IDCAMS may read, and whose catalog it may change.
pub trait OwnedVolume: ShownVolume {
    /// Its shape.
    ghost geometry: { Self → Geometry };

    /// Its history.
    ghost history: { Self → List Entry };

    /// The second is a later state of the first.
    ghost goes: { Self → Self → Type 0 };

    ghost goes_nowhere: { (volume : Self) → Self.goes volume volume };

    ghost goes_further: { (a b c : Self) → Self.goes a b → Self.goes b c → Self.goes a c };

    /// How a volume may answer to a command on a line, and be then: what it promises of its answers
    /// and of their causes.
    ghost answers: { Self → ℕ → Exchange → Self → Type 0 };

    /// Its shape, by whose rules its catalog is.
    fn geometry(&self) -> Geometry
        ensures { result ≡ geometry self.now };

    /// The stamp of the last entry of its history, 0 where it has none.
    fn last(&self) -> u64
        ensures { result ≡ last_stamp 0 (history self.now) };

    /// Adds a cluster that has no area yet to the catalog, with the least free area as its first,
    /// as one event of a command whose first word is on line `line` of the job; or does a stage of
    /// a split of the catalog that has to come before (`Again`). What it enters comes after stamp
    /// `after`. Where it is refused, or no stamps are left, or no unit of recovery of the utilities
    /// (`Stamps`), or memory runs out (`Memory`), the volume shows what it showed; a write that
    /// fails stops it.
    fn define(&mut self, line: u32, entry: &CatEntry, after: u64) -> Result<Defined, RunNo>
        requires going { (Self.shown self.old).stopped ≡ false }
        requires entry { IsNewCluster (geometry self.old) (Self.shown self.old).catalog entry.now }
        ensures answered { IfOk result (λ answer.
            answers self.old line (Defining entry.now answer) self.new) }
        ensures shown { IfOk result (λ answer.
            IsShownAfter answer entry.now (Self.shown self.old) (Self.shown self.new)) }
        ensures refused { IsErr result → Self.shown self.new ≡ Self.shown self.old }
        ensures entered { HasEntered line after (history self.old) (history self.new) }
        ensures goes { goes self.old self.new }
        ensures geometry { geometry self.new ≡ geometry self.old };

    /// Counts a cluster of the catalog for a command whose first word is on line `line` of the job,
    /// as one event: its records, its areas, and its splits in this run. Nothing of the volume
    /// changes; a write that fails stops it. What that enters comes after stamp `after`. Where no
    /// stamps are left (`Stamps`), or memory runs out (`Memory`), nothing is entered.
    fn count(&mut self, line: u32, entry: &CatEntry, after: u64) -> Result<Counted, RunNo>
        requires going { (Self.shown self.old).stopped ≡ false }
        requires entry { Contains (Self.shown self.old).catalog entry.now }
        requires cluster { entry.now.entry_kind ≡ Cluster }
        ensures counted { IfOk result (λ counted.
            answers self.old line (Counting entry.now counted) self.new) }
        ensures shown { IfOk result (λ counted.
            IsShownCounted counted (Self.shown self.old) (Self.shown self.new)) }
        ensures refused { IsErr result → Self.shown self.new ≡ Self.shown self.old }
        ensures entered { HasEntered line after (history self.old) (history self.new) }
        ensures goes { goes self.old self.new }
        ensures geometry { geometry self.new ≡ geometry self.old };

    /// Hands the records of a cluster of the catalog to a visitor, in the order of their places,
    /// from the first whose place is `from` or past it, all of them where there is none, until it
    /// is done or there are no more, for a command whose first word is on line `line` of the job,
    /// as one event. Nothing of the volume changes; a write that fails stops it. What that enters
    /// comes after stamp `after`. Where no stamps are left (`Stamps`), or memory runs out
    /// (`Memory`), the visitor's too, nothing is entered. What the visitor has then, or where the
    /// device fails, may be a part of it.
    fn read<R: RecordVisitor>(
        &mut self,
        line: u32,
        entry: &CatEntry,
        from: Option<&Place>,
        after: u64,
        visitor: &mut R,
    ) -> Result<ReadBack, RunNo>
        requires going { (Self.shown self.old).stopped ≡ false }
        requires entry { Contains (Self.shown self.old).catalog entry.now }
        requires cluster { entry.now.entry_kind ≡ Cluster }
        ensures read { IfOk result (λ answer. HasRead answers R.after R.done line entry.now
            (option_copied from.entry) self.old self.new visitor.old visitor.new answer) }
        ensures shown { IfOk result (λ answer.
            IsShownRead answer (Self.shown self.old) (Self.shown self.new)) }
        ensures refused { IsErr result → Self.shown self.new ≡ Self.shown self.old }
        ensures entered { HasEntered line after (history self.old) (history self.new) }
        ensures goes { goes self.old self.new }
        ensures geometry { geometry self.new ≡ geometry self.old };

    /// Makes an edit of the catalog, as one event of a command whose first word is on line `line`
    /// of the job: all of it or, where the volume answers anything else than `Done`, nothing. With
    /// a cluster that is deleted go its records. Or it does a stage of a split of the catalog that
    /// has to come before (`Again`). What it enters comes after stamp `after`. Where it is refused,
    /// or no stamps are left, or no unit of recovery of the utilities (`Stamps`), or memory runs
    /// out (`Memory`), the volume shows what it showed; a write that fails stops it.
    fn edit(&mut self, line: u32, edit: &CatalogEdit, after: u64) -> Result<Changed, RunNo>
        requires going { (Self.shown self.old).stopped ≡ false }
        requires edit { MayEdit (geometry self.old) (Self.shown self.old).catalog edit.now }
        ensures changed { IfOk result (λ answer.
            answers self.old line (Editing edit.now answer) self.new) }
        ensures shown { IfOk result (λ answer.
            IsShownEdited answer edit.now (Self.shown self.old) (Self.shown self.new)) }
        ensures refused { IsErr result → Self.shown self.new ≡ Self.shown self.old }
        ensures entered { HasEntered line after (history self.old) (history self.new) }
        ensures goes { goes self.old self.new }
        ensures geometry { geometry self.new ≡ geometry self.old };
}
