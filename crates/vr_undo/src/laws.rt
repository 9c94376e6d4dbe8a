//! Laws: what is kept goes as the state of a volume does.
ghost use Rattle.std.specs.Prelude.{◌≡◌, ◌&&◌, ◌∷◌, [], ℕ, Bool, List, false, filter, not, option_map};
ghost use Rattle.vr_types.specs.Content.{Standing, item_at};
ghost use Rattle.vr_types.specs.declared.unit.Unit as units;
ghost use Rattle.vr_history.specs.Change.{Change};
ghost use Rattle.vr_history.specs.Effects.{ends_unit, is_other, keeps_before, last_kept, logs};
ghost use Rattle.vr_history.specs.Effects.{takes_out, without_last};
ghost use Rattle.vr_history.specs.LogSpace.{Logging};
ghost use Rattle.vr_history.specs.State.{State, is_logged};
ghost use Rattle.vr_undo.specs.declared.before.Before.{Before};
ghost use Rattle.vr_undo.specs.declared.record.KeptRecord.{KeptRecord};
ghost use Rattle.vr_undo.specs.Records.{image_of, is_record_at, last_in, with_image, with_logged};
ghost use Rattle.vr_undo.specs.Records.{with_record, without_last_by};

/// The before-images and the logged places go as those of the state of a volume do: where a unit
/// changes a place, where the last before-image of a unit is put back, and where a unit ends.
pub fn kept_as_in_the_state()
    ensures befores { (state : State) (unit : units.Unit) (change : Change) (before : Before)
        → before.part.0 ≡ change.part → before.place ≡ change.place
        → option_map Standing before.old
        ≡ item_at (state.contents change.part) change.place
        → with_image unit (image_of unit before) state.befores
        ≡ (keeps_before unit change state).befores }
    ensures logged { (state : State) (unit : units.Unit) (logging : Logging) (need : ℕ)
        → with_logged unit logging.part logging.place state.logged
        ≡ (logs unit (filter (λ one. not (is_logged state unit one.part one.place))
        (logging ∷ [])) need state).logged }
    ensures last { (state : State) (unit : units.Unit)
        → last_in unit state.befores ≡ last_kept state unit }
    ensures out { (state : State) (unit : units.Unit)
        → without_last unit state.befores ≡ (takes_out unit state).befores }
    ensures befores_ended { (state : State) (unit : units.Unit)
        → filter (λ kept. is_other unit kept.unit) state.befores
        ≡ (ends_unit unit state).befores }
    ensures logged_ended { (state : State) (unit : units.Unit)
        → filter (λ log. is_other unit log.unit) state.logged ≡ (ends_unit unit state).logged }
{}

/// What was kept is as before once it is taken back, where anything was new.
pub fn unkept_is_as_before()
    ensures { (unit : units.Unit) (before : Before) (logged kept : Bool)
        (records : List KeptRecord) → (logged && kept) ≡ false
        → without_last_by (is_record_at unit before.part.0 before.place)
        (with_record unit before logged kept records) ≡ records }
{}
