//! What the entry of a request leaves of the state, each the contract of a function that does
//! nothing.
ghost use Rattle.std.specs.Prelude.{◌≡◌, ℕ, Bool, List, None, Option, Some};
ghost use Rattle.vr_types.specs.declared.geometry.Geometry.{Geometry};
ghost use Rattle.vr_types.specs.declared.reply.Refusal.{Refusal as RefusalOf};
ghost use Rattle.vr_types.specs.declared.reply.Refusal.TheVariants.{EndOfData, NoAddress, NotFound};
ghost use Rattle.vr_types.specs.declared.reply.Reply.TheVariants.{Done, Refused};
ghost use Rattle.vr_types.specs.declared.request.FileRef as files;
ghost use Rattle.vr_types.specs.declared.position.Stand.TheVariants as stands;
ghost use Rattle.vr_types.specs.declared.request.Find.{Find};
ghost use Rattle.vr_types.specs.declared.request.Find.TheVariants.{AtLeast, Equal, Next};
ghost use Rattle.vr_types.specs.declared.request.Request.{Request as RequestOf};
ghost use Rattle.vr_types.specs.declared.request.Request.TheVariants as requests;
ghost use Rattle.vr_types.specs.declared.unit.Integrity.{Integrity};
ghost use Rattle.vr_types.specs.declared.unit.Unit as units;
ghost use Rattle.vr_history.specs.Case.{Case as Asked};
ghost use Rattle.vr_history.specs.Change.{place_changed};
ghost use Rattle.vr_history.specs.Effects.{ends_unit};
ghost use Rattle.vr_history.specs.Found.{place_read};
ghost use Rattle.vr_history.specs.State.{State};
ghost use Rattle.vr_history.specs.Step.{after_asked, case_of, stand_refused};
ghost use Rattle.vr_answer.specs.After as after;
ghost use Rattle.vr_answer.specs.Least.{found_at};
ghost use Rattle.vr_answer.specs.Scope.{HasNoneBuilt};

/// A PUT or an ERASE that is done, whose place is known, changes that place alone (`IsChanged`).
#[tactic(auto, using(crate::proofs::AfterLemmas::after_change))]
pub fn change_leaves()
    ensures { (geometry : Geometry) (state : State) (unit : units.Unit) (request : RequestOf)
        (place : List ℕ) (feedback : ℕ) (shown bytes : Option (List ℕ))
        → HasNoneBuilt state
        → place_changed (case_of geometry state unit request) ≡ Some place
        → after.IsChanged (case_of geometry state unit request) place
        (after_asked (case_of geometry state unit request) (Done feedback shown bytes)) }
{}

/// A direct GET that is done leaves its lock, where it keeps one, and holds its place, where it is
/// for update.
#[tactic(auto, using(crate::proofs::AfterLemmas::after_read))]
pub fn read_leaves()
    ensures { (geometry : Geometry) (state : State) (unit : units.Unit) (on : files.FileRef)
        (place : List ℕ) (update : Bool) (integrity : Integrity) (feedback : ℕ)
        (shown bytes : Option (List ℕ))
        → let case = case_of geometry state unit (requests.Get on (Equal place) update integrity) in
        place_read case ≡ Some place
        → after_asked case (Done feedback shown bytes)
        ≡ after.read_leaves case on place update integrity }
{}

/// A read that searches and is done leaves what a direct one leaves of the place that it comes to,
/// and a sequential one its file after that place too (`sequential`, `at_least`); a POINT that is
/// done leaves its file at the place that it comes to (`point`). Where they find no record, a
/// sequential read leaves its file at the end (`at_end`), and a POINT nowhere (`lost`), also one by
/// an address (`no_address`).
pub fn search_leaves()
    ensures sequential { (geometry : Geometry) (state : State) (unit : units.Unit)
        (on : files.FileRef) (place : List ℕ) (update : Bool) (integrity : Integrity)
        (feedback : ℕ) (shown bytes : Option (List ℕ))
        → let case = case_of geometry state unit (requests.Get on Next update integrity) in
        place_read case ≡ Some place
        → found_at case ≡ Some place
        → after_asked case (Done feedback shown bytes)
        ≡ after.stands_as case on (stands.After place)
        (after.read_leaves case on place update integrity) }
    ensures at_least { (geometry : Geometry) (state : State) (unit : units.Unit)
        (on : files.FileRef) (place key : List ℕ) (update : Bool) (integrity : Integrity)
        (feedback : ℕ) (shown bytes : Option (List ℕ))
        → let case = case_of geometry state unit
        (requests.Get on (AtLeast key) update integrity) in
        place_read case ≡ Some place
        → after_asked case (Done feedback shown bytes)
        ≡ after.read_leaves case on place update integrity }
    ensures point { (geometry : Geometry) (state : State) (unit : units.Unit)
        (on : files.FileRef) (place : List ℕ) (find : Find) (feedback : ℕ)
        (shown bytes : Option (List ℕ))
        → let case = case_of geometry state unit (requests.Point on find) in
        found_at case ≡ Some place
        → after_asked case (Done feedback shown bytes)
        ≡ after.stands_as case on (stands.At place) (after.let_go case) }
    ensures at_end { (geometry : Geometry) (state : State) (unit : units.Unit)
        (on : files.FileRef) (update : Bool) (integrity : Integrity)
        → let case = case_of geometry state unit (requests.Get on Next update integrity) in
        after_asked case (Refused EndOfData)
        ≡ after.stands_as case on stands.End (after.let_go case) }
    ensures lost { (geometry : Geometry) (state : State) (unit : units.Unit)
        (on : files.FileRef) (find : Find)
        → let case = case_of geometry state unit (requests.Point on find) in
        after_asked case (Refused NotFound)
        ≡ after.stands_as case on stands.None (after.let_go case) }
    ensures no_address { (geometry : Geometry) (state : State) (unit : units.Unit)
        (on : files.FileRef) (find : Find)
        → let case = case_of geometry state unit (requests.Point on find) in
        after_asked case (Refused NoAddress)
        ≡ after.stands_as case on stands.None (after.let_go case) }
{}

/// A request that is refused drops what its file holds; where the refusal moves no file, as none of
/// a direct request does, nothing else changes.
#[tactic(auto, using(crate::proofs::AfterLemmas::after_refused))]
pub fn refusal_leaves()
    ensures { (case : Asked) (refusal : RefusalOf)
        → stand_refused case.request refusal ≡ None
        → after_asked case (Refused refusal) ≡ after.let_go case }
{}

/// An ENDREQ that is done leaves its file nowhere; a COMMIT or a BACKOUT ends its unit.
pub fn end_leaves()
    ensures endreq { (geometry : Geometry) (state : State) (unit : units.Unit)
        (on : files.FileRef) (feedback : ℕ) (shown bytes : Option (List ℕ))
        → let case = case_of geometry state unit (requests.EndReq on) in
        after_asked case (Done feedback shown bytes) ≡ after.stands_nowhere case on }
    ensures commit { (geometry : Geometry) (state : State) (unit : units.Unit)
        (feedback : ℕ) (shown bytes : Option (List ℕ))
        → after_asked (case_of geometry state unit requests.Commit) (Done feedback shown bytes)
        ≡ ends_unit unit state }
    ensures backout { (geometry : Geometry) (state : State) (unit : units.Unit)
        (feedback : ℕ) (shown bytes : Option (List ℕ))
        → after_asked (case_of geometry state unit requests.Backout) (Done feedback shown bytes)
        ≡ ends_unit unit state }
{}
