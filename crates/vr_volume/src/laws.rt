//! Laws of what the blocks of a volume stand for, and of what they recover to: each is the contract
//! of a function that does nothing.
ghost use Rattle.std.specs.Prelude.{◌≡◌, ◌≤◌, ◌⊎◌, ◌∷◌, ℕ, List, [], Option, length};
ghost use Rattle.std.specs.Option.{option_map};
ghost use Rattle.vr_types.specs.Content.{Content, Standing, item_at};
ghost use Rattle.vr_types.specs.Image.{Image, block_at};
ghost use Rattle.vr_types.specs.Seen.{Left};
ghost use Rattle.vr_types.specs.declared.unit.PartNo.{PartNo};
ghost use Rattle.vr_types.specs.declared.geometry.Geometry.{Geometry};
ghost use Rattle.vr_space.specs.Owners.{Owners};
ghost use Rattle.vr_log.specs.Content.{Content as LogContent};
ghost use Rattle.vr_log.specs.LogNow.{LogNow, with_record};
ghost use Rattle.vr_log.specs.declared.record.EndKind.TheVariants.{BackedOut, Committed};
ghost use Rattle.vr_log.specs.declared.record.LogRecord.TheVariants.{Before, End};
ghost use Rattle.vr_log.specs.declared.record.LogRecord.{LogRecord};
ghost use Rattle.vr_types.specs.declared.unit.Unit.{Unit as UnitOfRecovery};
ghost use Rattle.vr_history.specs.declared.entry.Entry.{Entry};
ghost use Rattle.vr_history.specs.Committed.{committed, is_counted};
ghost use Rattle.vr_history.specs.Laws.{HasPartThroughout, record_now};
ghost use Rattle.vr_history.specs.Legal.{AreSteps, state_of};
ghost use Rattle.vr_history.specs.State.{BeforeImage, Owned, State, opening_state};
ghost use Rattle.vr_volume.specs.Committed.{CountAlike, IsCurrent, committed_by};
ghost use Rattle.vr_volume.specs.Crashes.{RecoversTo};
ghost use Rattle.vr_volume.specs.Rests.{IsVolumeAtRest};
ghost use Rattle.vr_volume.specs.Safe.{IsImageSafe, IsSafe, IsSafeImage};
ghost use Rattle.vr_volume.specs.Volume.{Recovers, RecoversItems, VolumeStandsFor};

use vr_types::Blocks;

/// The blocks of a volume stand for one log and one content of each part at most.
pub fn one_volume()
    ensures { (geometry : Geometry) (number : ℕ) (image : Image) (log least : LogContent)
        (one other : ℕ → Content) → 8 ≤ length (block_at image 1)
        → VolumeStandsFor geometry number image log one
        → VolumeStandsFor geometry number image least other
        → (log ≡ least) × ((part : ℕ) → one part ≡ other part) }
{}

/// And they recover to one content of each part at most.
pub fn one_recovery()
    ensures { (geometry : Geometry) (number : ℕ) (image : Image) (one other : ℕ → Content)
        → 8 ≤ length (block_at image 1) → Recovers geometry number image one
        → Recovers geometry number image other → (part : ℕ) → one part ≡ other part }
{}

/// A safe image recovers to the records of the contents that are committed by its log; and off the
/// places of the log's before-images its blocks have their items, withdrawn or not.
pub fn image_recovers()
    ensures { (geometry : Geometry) (number : ℕ) (owners : Owners) (log : LogContent)
        (committed : ℕ → Content) (image : Image)
        → IsImageSafe geometry number owners log committed image
        → RecoversItems geometry number log committed image }
{}

/// Each image that a crash may leave of a safe volume is a safe one.
pub fn each_image_is_safe<B: Blocks>(blocks: &B)
    ensures { (geometry : Geometry) (number : ℕ) (owners : Owners) (log : LogNow)
        (committed : List LogRecord → ℕ → Content)
        → IsSafe geometry number owners log committed (B.seen blocks.now)
        → (image : Image) → Left (B.seen blocks.now) image
        → IsSafeImage geometry number owners log committed image }
{}

/// What is committed in the state that a history gives, by a log that has the commits of the units
/// that count, is what the history committed: the records of each part that the catalog has
/// throughout. The other units are those that are in their commit as a crash comes.
pub fn committed_by_its_history()
    ensures { (geometry : Geometry) (contents : ℕ → Content) (owned : List Owned)
        (entries : List Entry) (others : List UnitOfRecovery) (records : List LogRecord)
        (part : ℕ) → let opening = opening_state contents owned in
        AreSteps geometry opening entries
        → HasPartThroughout geometry part (is_counted others entries) opening contents entries
        → CountAlike others entries records (state_of geometry opening entries)
        → (place : List ℕ)
        → record_now (committed_by (state_of geometry opening entries) records) part place
        ≡ record_now (committed geometry opening entries others) part place }
{}

/// While an event of a volume at rest goes on, an image that is safe by the log recovers to what is
/// committed in the state, and keeps what was withdrawn at places that no unit has logged (`rest`);
/// so does one by the log with a before-image more, of a record that stands at its place in the
/// state, or of none, by a unit that is its deck's current one (`before`), and by the log with the
/// end of a unit that is backed out (`backed_out`). With a commit the image recovers to that, or to
/// what is committed where the unit counts (`commit`).
pub fn crash_recovers<B: Blocks>(blocks: &B)
    ensures rest { (geometry : Geometry) (number : ℕ) (owners : Owners) (log : LogNow)
        (images : List BeforeImage) (state : State)
        → IsVolumeAtRest geometry number owners log images state (B.seen blocks.now)
        → (image : Image) → IsSafeImage geometry number owners log (committed_by state) image
        → RecoversTo geometry number state [] image }
    ensures before { (geometry : Geometry) (number : ℕ) (owners : Owners) (log : LogNow)
        (images : List BeforeImage) (state : State)
        → IsVolumeAtRest geometry number owners log images state (B.seen blocks.now)
        → (unit : UnitOfRecovery) (part : PartNo) (place : List ℕ) (old : Option (List ℕ))
        → IsCurrent state.numbers unit
        → option_map Standing old ≡ item_at (state.contents part.0) place → (image : Image)
        → IsSafeImage geometry number owners (with_record log (Before unit part place old))
        (committed_by state) image → RecoversTo geometry number state [] image }
    ensures backed_out { (geometry : Geometry) (number : ℕ) (owners : Owners) (log : LogNow)
        (images : List BeforeImage) (state : State)
        → IsVolumeAtRest geometry number owners log images state (B.seen blocks.now)
        → (unit : UnitOfRecovery) (image : Image)
        → IsSafeImage geometry number owners (with_record log (End unit BackedOut))
        (committed_by state) image → RecoversTo geometry number state [] image }
    ensures commit { (geometry : Geometry) (number : ℕ) (owners : Owners) (log : LogNow)
        (images : List BeforeImage) (state : State)
        → IsVolumeAtRest geometry number owners log images state (B.seen blocks.now)
        → (unit : UnitOfRecovery) (image : Image)
        → IsSafeImage geometry number owners (with_record log (End unit Committed))
        (committed_by state) image → RecoversTo geometry number state [] image
        ⊎ RecoversTo geometry number state (unit ∷ []) image }
{}
