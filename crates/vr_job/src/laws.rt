//! Laws of histories and of what a run leaves, each the contract of a function that does nothing.
ghost use Rattle.std.specs.Prelude.{◌≡◌, ◌≢◌, ◌≤◌, ◌⊎◌, [], ◌++◌, ℕ, Contains, List, None};
ghost use Rattle.vr_types.specs.Content.{Content};
ghost use Rattle.vr_types.specs.Geometry.{IsAllowed};
ghost use Rattle.vr_types.specs.Image.{Image};
ghost use Rattle.vr_types.specs.Moments.{Guards};
ghost use Rattle.vr_types.specs.Position.{unheld};
ghost use Rattle.vr_types.specs.Seen.{Left};
ghost use Rattle.vr_types.specs.declared.geometry.Geometry.{Geometry};
ghost use Rattle.vr_types.specs.declared.unit.Unit.{Unit as UnitOfRecovery};
ghost use Rattle.vr_catalog.specs.declared.entry.CatEntry.{CatEntry};
ghost use Rattle.vr_format.specs.Fit.{IsFormattedWith};
ghost use Rattle.vr_format.specs.Formatted.{IsFormatted, first_entries};
ghost use Rattle.vr_history.specs.Addresses.{IsEntrySequenced, addresses_given};
ghost use Rattle.vr_history.specs.Legal.{state_of};
ghost use Rattle.vr_history.specs.Merged.{Numbered};
ghost use Rattle.vr_history.specs.State.{BeforeImage, State};
ghost use Rattle.vr_history.specs.Step.{state_after};
ghost use Rattle.vr_history.specs.declared.entry.Entry.{Entry};
ghost use Rattle.vr_job_ends.specs.declared.job_end.End.{End};
ghost use Rattle.vr_job_text.specs.declared.job.JobStep.{JobStep};
ghost use Rattle.vr_recover.specs.Addresses.{HasItem, IsSettledAt, IsSettledIn};
ghost use Rattle.vr_recover.specs.Recovered.{KeepsAll};
ghost use Rattle.vr_volume.specs.Crashes.{IsUnlogged, RecoversTo};
ghost use Rattle.vr_trace.specs.Growing.{IsEntered};
ghost use Rattle.vr_worker.specs.Steps.{AreGapless};
ghost use Rattle.vr_job.specs.Committed.{HasCommitted, IsCommittedBy, IsCommittedWhile, StaysIn};
ghost use Rattle.vr_job.specs.Moved.{AreElsewhere, Ends, IsOn};
ghost use Rattle.vr_job.specs.OpensAgain.{OpensAgain};
ghost use Rattle.vr_job.specs.VolumeRun.{IsRun, opening_of};

use vr_device::BlockDevice;

/// What a run leaves of a volume is what its history committed, record by record, without what was
/// withdrawn: each image at each moment is one that a crash left before, or recovers to what some
/// first entries of the history committed, perhaps with the unit that is in its commit (`moments`).
/// At the end it recovers to what all of it committed (`end`); on a volume that stopped, to what
/// was committed before the event in which it did, or of a definition after what that enters before
/// its COMMIT, with the unit in doubt only where its COMMIT was answered 905 (`stopped`). It is so
/// in each part that the catalog had as the volume was opened and after each of those entries,
/// whatever is added to it or changed of others.
pub fn leaves_what_is_committed<D: BlockDevice>()
    ensures moments { (number : ℕ) (shape : Geometry) (catalog : List CatEntry) (end : End)
        (entries : List Entry) (old ended new : D)
        → (run : IsRun D.tells D.seen D.faults number shape catalog end entries old ended new)
        → Guards (D.seen old) (D.seen new) (λ image. Left (D.seen old) image
        ⊎ IsCommittedBy run.geometry number catalog (opening_of run.contents run.owners) entries
        image) }
    ensures end { (number : ℕ) (shape : Geometry) (catalog : List CatEntry) (end : End)
        (entries : List Entry) (old ended new : D)
        → (run : IsRun D.tells D.seen D.faults number shape catalog end entries old ended new)
        → (state_of run.geometry (opening_of run.contents run.owners) entries).stopped ≡ None
        → (image : Image) → Left (D.seen new) image
        → HasCommitted run.geometry number catalog (opening_of run.contents run.owners) entries []
        image }
    ensures stopped { (number : ℕ) (shape : Geometry) (catalog : List CatEntry) (end : End)
        (entries : List Entry) (old ended new : D)
        → (run : IsRun D.tells D.seen D.faults number shape catalog end entries old ended new)
        → (stops : (state_of run.geometry (opening_of run.contents run.owners) entries).stopped
        ≢ None) → (image : Image) → Left (D.seen new) image
        → IsCommittedWhile run.geometry number catalog (opening_of run.contents run.owners)
        (run.stopped stops).before (run.stopped stops).made image }
{}

/// Each image of a run opens again: at each moment from the end of its opening on, to the run's end
/// and after it, an opening refuses each image that a crash may leave for nothing that it has: only
/// where memory runs out or the device fails (`run`). While a volume is opened an image is such a
/// one, too, or one that a crash left before (`opening`). And so is each image of a new volume
/// (`formatted`), and of one that was formatted with entries (`formatted_with`).
pub fn each_image_opens<D: BlockDevice>()
    ensures run { (number : ℕ) (shape : Geometry) (catalog : List CatEntry) (end : End)
        (entries : List Entry) (old ended new : D)
        → (run : IsRun D.tells D.seen D.faults number shape catalog end entries old ended new)
        → Guards (D.seen run.opened) (D.seen new) (OpensAgain D.seen run.geometry number) }
    ensures opening { (number : ℕ) (shape : Geometry) (catalog : List CatEntry) (end : End)
        (entries : List Entry) (old ended new : D)
        → (run : IsRun D.tells D.seen D.faults number shape catalog end entries old ended new)
        → Guards (D.seen old) (D.seen run.opened) (λ image. Left (D.seen old) image
        ⊎ OpensAgain D.seen run.geometry number image) }
    ensures formatted { (geometry : Geometry) (number : ℕ) (image : Image) → IsAllowed geometry
        → IsFormatted geometry number (first_entries number) image
        → OpensAgain D.seen geometry number image }
    ensures formatted_with { (geometry : Geometry) (number : ℕ) (entries : List CatEntry)
        (image : Image) → IsAllowed geometry → IsFormattedWith geometry number entries image
        → OpensAgain D.seen geometry number image }
{}

/// An entry-sequenced address that was given is never given again, once the unit that added its
/// record has ended, whatever crashes come. After any first entries of a history each address at
/// which its opening has an item, or that these entries gave, is settled where no live unit has
/// logged it (`settles`): it has a record that is committed, or one that was withdrawn. What is
/// settled in the state to which an image recovers as a crash comes is an item of the next opening
/// (`crash`: `moments` and `events` of `IsRun` say which states these are). So is, where a crash
/// comes while a volume is opened, each record of the contents that it is opened with, and what was
/// withdrawn in them, but where its log had a before-image (`opening`). And no history gives an
/// address at which its opening has an item, standing or withdrawn (`given`). `crash` and `opening`
/// hold of each part, `settles` and `given` of one that the catalog of the opening has as
/// entry-sequenced, and has after each of the entries.
pub fn no_address_is_given_again<D: BlockDevice>()
    ensures settles { (number : ℕ) (shape : Geometry) (catalog : List CatEntry) (end : End)
        (entries : List Entry) (old ended new : D)
        → (run : IsRun D.tells D.seen D.faults number shape catalog end entries old ended new)
        → (before after : List Entry) → entries ≡ before ++ after → (part : ℕ)
        → IsEntrySequenced part (opening_of run.contents run.owners)
        → StaysIn part catalog before → (place : List ℕ)
        → HasItem (run.contents part) place ⊎ Contains (addresses_given part before) place
        → IsUnlogged (state_of run.geometry (opening_of run.contents run.owners) before) part place
        → (counted : List UnitOfRecovery)
        → IsSettledAt counted (state_of run.geometry (opening_of run.contents run.owners) before)
        part place }
    ensures crash { (number : ℕ) (shape : Geometry) (catalog : List CatEntry) (end : End)
        (entries : List Entry) (old ended new : D)
        → (run : IsRun D.tells D.seen D.faults number shape catalog end entries old ended new)
        → (state : State) (counted : List UnitOfRecovery)
        → RecoversTo run.geometry number state counted (D.seen old).cur → (part : ℕ)
        (place : List ℕ) → IsSettledAt counted state part place → HasItem (run.contents part) place }
    ensures opening { (number : ℕ) (shape : Geometry) (catalog : List CatEntry) (end : End)
        (entries : List Entry) (old ended new : D)
        → (run : IsRun D.tells D.seen D.faults number shape catalog end entries old ended new)
        → (images : List BeforeImage) (contents : ℕ → Content)
        → KeepsAll run.geometry number images contents (D.seen old).cur → (part : ℕ)
        (place : List ℕ) → IsSettledIn images contents part place
        → HasItem (run.contents part) place }
    ensures given { (number : ℕ) (shape : Geometry) (catalog : List CatEntry) (end : End)
        (entries : List Entry) (old ended new : D)
        → (run : IsRun D.tells D.seen D.faults number shape catalog end entries old ended new)
        → (part : ℕ) → IsEntrySequenced part (opening_of run.contents run.owners)
        → StaysIn part catalog entries
        → (place : List ℕ) → HasItem (run.contents part) place
        → Contains (addresses_given part entries) place → ⊥ }
{}

/// Where no stamp is left out, each one from 1 up to that of an entry is that of an entry, on one
/// volume or another: so stamps are used up by entries alone.
pub fn each_stamp_is_taken()
    ensures { (steps : List JobStep) (histories : List (List Entry)) → AreGapless steps histories
        → (this : Numbered) → IsEntered histories this → (stamp : ℕ) → 1 ≤ stamp
        → stamp ≤ this.entry.stamp
        → (other : Numbered) × IsEntered histories other × (other.entry.stamp ≡ stamp) }
{}

/// No position of one file is moved by a request of another, of the same deck or another one,
/// whatever its reply, nor by what else is entered: neither where the file stands nor what it holds
/// for update changes (`others`). The end of a unit moves no file either: what the files of its
/// deck hold goes, and where they stand stays (`ends`). So a file stands where it stood through all
/// entries that are no request on it (`through`).
pub fn no_request_moves_another_file()
    ensures others { (geometry : Geometry) (state : State) (entry : Entry) (deck slot : ℕ)
        → (IsOn deck slot entry → ⊥) → (Ends deck entry → ⊥)
        → (state_after geometry state entry).positions deck slot ≡ state.positions deck slot }
    ensures ends { (geometry : Geometry) (state : State) (entry : Entry) (deck slot : ℕ)
        → Ends deck entry
        → (state_after geometry state entry).positions deck slot
        ≡ unheld (state.positions deck slot) }
    ensures through { (geometry : Geometry) (state : State) (entries : List Entry) (deck slot : ℕ)
        → AreElsewhere deck slot entries
        → ((state_of geometry state entries).positions deck slot).stand
        ≡ (state.positions deck slot).stand }
{}
