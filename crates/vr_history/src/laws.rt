//! Laws of the record file, each the contract of a function that does nothing.
ghost use Rattle.std.specs.Prelude.{◌≡◌, ◌≢◌, ℕ, List, [], ◌∷◌, ◌++◌, Option};
ghost use Rattle.std.specs.List.{AllPairs};
ghost use Rattle.vr_types.specs.declared.geometry.Geometry.{Geometry};
ghost use Rattle.vr_types.specs.declared.reply.Refusal.{Refusal as RefusalOf};
ghost use Rattle.vr_types.specs.declared.reply.Reply.TheVariants.{Done, Refused};
ghost use Rattle.vr_types.specs.declared.request.Request.TheVariants.{Backout};
ghost use Rattle.vr_types.specs.declared.unit.Unit.{Unit as UnitOfRecovery};
ghost use Rattle.vr_history.specs.declared.entry.Entry.{Entry};
ghost use Rattle.vr_history.specs.declared.entry.What.TheVariants.{Asked};
ghost use Rattle.vr_history.specs.Addresses.{AreOwned, IsInOrder, RunsOver, addresses_given};
ghost use Rattle.vr_history.specs.Case.{Case};
ghost use Rattle.vr_history.specs.Committed.{committed, is_counted};
ghost use Rattle.vr_history.specs.Effects.{ends_unit};
ghost use Rattle.vr_history.specs.Laws.{
  AreMerged,
  HasNoLock,
  HasPartThroughout,
  NoTwoConflict,
  OnlyRefused,
  record_now,
  settled_record,
};
ghost use Rattle.vr_history.specs.Legal.{AreSteps, state_of};
ghost use Rattle.vr_history.specs.Merged.{merged};
ghost use Rattle.vr_history.specs.State.{Owned, State, opening_state};
ghost use Rattle.vr_types.specs.Content.{Content, places_of};
ghost use Rattle.vr_history.specs.Step.{after_asked};

/// A refused request changes nothing but where its file stands and what it holds.
pub fn refused_changes_nothing()
    ensures { (case : Case) (refusal : RefusalOf)
        → OnlyRefused case refusal (after_asked case (Refused refusal)) }
{}

/// A unit of recovery that ended holds no lock.
pub fn ended_holds_nothing()
    ensures { (unit : UnitOfRecovery) (state : State)
        → HasNoLock unit (ends_unit unit state).locks }
{}

/// The entries of the merged history come by their stamps, and those of one stamp by their volumes.
pub fn merged_in_order()
    ensures { (histories : List (List Entry)) → AreMerged (merged histories) }
{}

/// Two live units of recovery never hold one name where one of the two locks is exclusive.
pub fn no_two_locks_conflict()
    ensures { (geometry : Geometry) (contents : ℕ → Content) (owned : List Owned)
        (entries : List Entry)
        → AreSteps geometry (opening_state contents owned) entries
        → NoTwoConflict (state_of geometry (opening_state contents owned) entries).locks }
{}

/// The committed contents of a history, with any units counted beside those that committed, have at
/// each place the record of the state, or the one that a unit which doesn't count keeps as its
/// before-image. The part is one that the catalog has throughout.
pub fn committed_is_settled()
    ensures { (geometry : Geometry) (contents : ℕ → Content) (owned : List Owned)
        (entries : List Entry) (others : List UnitOfRecovery) (part : ℕ)
        → let opening = opening_state contents owned in let counts = is_counted others entries in
        AreSteps geometry opening entries
        → HasPartThroughout geometry part counts opening contents entries
        → (place : List ℕ) → record_now (committed geometry opening entries others) part place
        ≡ settled_record counts (state_of geometry opening entries) part place }
{}

/// Where no unit keeps a before-image, as once all have ended, the committed contents are those of
/// the state.
pub fn committed_is_current()
    ensures { (geometry : Geometry) (contents : ℕ → Content) (owned : List Owned)
        (entries : List Entry) (others : List UnitOfRecovery) (part : ℕ)
        → let opening = opening_state contents owned in
        AreSteps geometry opening entries
        → HasPartThroughout geometry part (is_counted others entries) opening contents entries
        → (state_of geometry opening entries).befores ≡ []
        → (place : List ℕ) → record_now (committed geometry opening entries others) part place
        ≡ record_now (state_of geometry opening entries).contents part place }
{}

/// A unit of recovery that is backed out leaves the committed contents as they were.
pub fn backed_out_changes_nothing()
    ensures { (geometry : Geometry) (opening : State) (entries : List Entry)
        (others : List UnitOfRecovery) (last : Entry) (feedback : ℕ) (place bytes : Option (List ℕ))
        → last.what ≡ Asked Backout (Done feedback place bytes)
        → committed geometry opening (entries ++ last ∷ []) others
        ≡ committed geometry opening entries others }
{}

/// An entry-sequenced address that was once given is never given again, whichever deck or unit of
/// recovery adds, and whether the record was backed out or not. The data set's places after a
/// history are those of the opening and then those that its entries gave, in their order (`kept`);
/// no two of them are one (`apart`); and what the history leaves is in order again, so that the
/// volume's next history goes on from there (`in_order`). An empty data set is in order (`empty`).
/// An opening may lack whole intervals before later ones, as a crash can leave the data set. The
/// catalog has it as an entry-sequenced one throughout.
pub fn addresses_never_again()
    ensures kept { (geometry : Geometry) (part : ℕ) (contents : ℕ → Content) (owned : List Owned)
        (entries : List Entry)
        → RunsOver geometry part contents owned entries
        → places_of ((state_of geometry (opening_state contents owned) entries).contents part)
        ≡ places_of (contents part) ++ addresses_given part entries }
    ensures apart { (geometry : Geometry) (part : ℕ) (contents : ℕ → Content) (owned : List Owned)
        (entries : List Entry)
        → RunsOver geometry part contents owned entries
        → AllPairs (λ one other. one ≢ other)
        (places_of (contents part) ++ addresses_given part entries) }
    ensures in_order { (geometry : Geometry) (part : ℕ) (contents : ℕ → Content)
        (owned : List Owned) (entries : List Entry)
        → RunsOver geometry part contents owned entries
        → let after = state_of geometry (opening_state contents owned) entries in
        IsInOrder geometry (after.contents part) after.owned }
    ensures empty { (geometry : Geometry) (owned : List Owned)
        → AreOwned geometry owned → IsInOrder geometry [] owned }
{}
