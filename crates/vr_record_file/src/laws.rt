//! Laws of what is in memory, each the contract of a function that does nothing.
ghost use Rattle.std.specs.Prelude.{◌≡◌, ℕ, false, List, None, Option, Some};
ghost use Rattle.vr_types.specs.Locks.{Lock, first_conflict, same_unit};
ghost use Rattle.vr_types.specs.declared.geometry.Geometry.{Geometry};
ghost use Rattle.vr_types.specs.declared.lock_name.LockName.TheVariants.{Record};
ghost use Rattle.vr_types.specs.declared.reply.Refusal.{Refusal};
ghost use Rattle.vr_types.specs.declared.reply.Reply.TheVariants.{Refused};
ghost use Rattle.vr_types.specs.declared.request.Request.{Request};
ghost use Rattle.vr_types.specs.declared.unit.Mode.{Mode};
ghost use Rattle.vr_types.specs.declared.unit.Unit as units;
ghost use Rattle.vr_history.specs.Replies.{IsAnswered};
ghost use Rattle.vr_history.specs.State.{Logged, State};
ghost use Rattle.vr_history.specs.Step.{case_of};
ghost use Rattle.vr_catalog.specs.declared.entry.CatEntry.{CatEntry};
ghost use Rattle.vr_types.specs.declared.unit.AreaNo.{AreaNo};
ghost use Rattle.vr_types.specs.declared.unit.PartNo.{PartNo};
ghost use Rattle.vr_history.specs.Merged.{last_stamp};
ghost use Rattle.vr_record_file.specs.Defining.{IsDefined, IsInDoubt, MayDefine, defined};
ghost use Rattle.vr_record_file.specs.Defining.{failed_to_define};
ghost use Rattle.vr_record_file.specs.CatalogEdit.{IsCatalogEdited, IsEditInDoubt};
ghost use Rattle.vr_record_file.specs.CatalogEdit.{MayEditCatalog, RecordChange, catalog_edited};
ghost use Rattle.vr_record_file.specs.CatalogEdit.{failed_to_edit};
ghost use Rattle.vr_record_file.specs.declared.entry_step.EntryStep.{EntryStep};
ghost use Rattle.vr_record_file.specs.Now.{FileNow, IsLockedIn, IsStateOf, state_now};

/// A place that the log has is under its unit's exclusive lock, which is in the way of every other
/// unit.
#[tactic(auto, using(crate::proofs::Standing::logged_in_the_way))]
pub fn logged_places_are_locked()
    ensures { (locks : List Lock) (logged : Logged) (unit : units.Unit) (mode : Mode)
        → IsLockedIn locks logged → same_unit unit logged.unit ≡ false
        → first_conflict locks unit mode (Record (record { 0 = logged.part }) logged.place) ≡ None
        → ⊥ }
{}

/// Once the volume has stopped no answer looks at locks: what refuses a request over any locks
/// refuses it.
#[tactic(auto, using(crate::proofs::Standing::stopped_alike))]
pub fn stopped_volumes_look_at_no_lock()
    ensures { (geometry : Geometry) (state : State) (unit : units.Unit) (request : Request)
        (locks : List Lock) (stamp : ℕ) (refusal : Refusal) → state.stopped ≡ Some stamp
        → IsAnswered (case_of geometry (record state { locks = locks }) unit request)
        (Refused refusal)
        → IsAnswered (case_of geometry state unit request) (Refused refusal) }
{}

/// What the entries of a definition leave of the state, field by field: the record stands in the
/// catalog, the area is the part's, the space of the log is taken, or all of it is free again where
/// no unit is live, the number of its deck rises, and nothing else is left of its unit.
pub fn defined_state()
    ensures { (opening : State) (file : FileNow) (after line : ℕ) (unit : units.Unit)
        (part : PartNo) (area : AreaNo) (add : Request) (place bytes : List ℕ) (commit : Request)
        (catalog : List CatEntry) → IsStateOf opening file
        → MayDefine opening file unit part area add place bytes commit catalog
        → IsDefined unit part area place bytes (state_now opening file) (state_now opening
        (defined after unit line part area add place commit catalog file)) }
{}

/// And what they leave where a write failed: the record stands in the catalog, the unit is in
/// doubt, with its before-image, and the volume stopped at the last stamp.
pub fn definition_in_doubt()
    ensures { (opening : State) (file : FileNow) (after line : ℕ) (unit : units.Unit)
        (part : PartNo) (area : AreaNo) (add : Request) (place bytes : List ℕ) (commit : Request)
        (catalog : List CatEntry) → IsStateOf opening file
        → MayDefine opening file unit part area add place bytes commit catalog
        → let to = failed_to_define after unit line part area add place commit catalog file in
        IsInDoubt unit part area add place bytes (last_stamp 0 to.entries)
        (state_now opening file) (state_now opening to) }
{}

/// What the entries of an edit of the catalog leave of the state, field by field: its changes are
/// made, a part that the catalog lacks then has no content and no area, the log is empty, the number
/// of its deck rises, and nothing else is left of its unit.
pub fn edited_state()
    ensures { (opening : State) (file : FileNow) (after line : ℕ) (unit : units.Unit)
        (steps : List EntryStep) (changes : List RecordChange) (commit : Request)
        (catalog : List CatEntry) → IsStateOf opening file
        → MayEditCatalog opening file unit steps changes commit catalog
        → IsCatalogEdited unit changes catalog (state_now opening file) (state_now opening
        (catalog_edited after unit line steps commit catalog file)) }
{}

/// And what they leave where a write failed: its changes are made, the unit is in doubt, with its
/// before-images, and the volume stopped at the last stamp.
pub fn edit_in_doubt()
    ensures { (opening : State) (file : FileNow) (after line : ℕ) (unit : units.Unit)
        (steps : List EntryStep) (changes : List RecordChange) (commit : Request)
        (catalog : List CatEntry) → IsStateOf opening file
        → (may : MayEditCatalog opening file unit steps changes commit catalog)
        → let to = failed_to_edit after unit line steps commit catalog file in
        IsEditInDoubt unit may.on changes (last_stamp 0 to.entries)
        (state_now opening file) (state_now opening to) }
{}
