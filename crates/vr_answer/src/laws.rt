//! Laws of the answer, each the contract of a function that does nothing.
ghost use Rattle.std.specs.Prelude.{◌≡◌, ◌++◌, ◌∷◌, [], ℕ, false, IsTrue, List, None, Option};
ghost use Rattle.std.specs.Prelude.{Some};
ghost use Rattle.vr_catalog.specs.declared.definition.Definition.{Definition as Stated};
ghost use Rattle.vr_types.specs.declared.reply.Refusal.{Refusal as RefusalOf};
ghost use Rattle.vr_types.specs.declared.reply.Refusal.TheVariants as refusals;
ghost use Rattle.vr_types.specs.declared.reply.Reply.TheVariants.{Refused};
ghost use Rattle.vr_types.specs.declared.unit.Kind.TheVariants as kinds;
ghost use Rattle.vr_types.specs.Content.{Content};
ghost use Rattle.vr_types.specs.Locks.{Lock, first_conflict, same_unit};
ghost use Rattle.vr_types.specs.declared.geometry.Geometry.{Geometry};
ghost use Rattle.vr_types.specs.declared.lock_name.LockName.{LockName};
ghost use Rattle.vr_types.specs.declared.lock_name.LockName.TheVariants.{Record};
ghost use Rattle.vr_types.specs.declared.position.Stand.{Stand};
ghost use Rattle.vr_types.specs.declared.request.Find.{Find};
ghost use Rattle.vr_types.specs.declared.request.Find.TheVariants.{Equal};
ghost use Rattle.vr_types.specs.declared.request.Request.{Request as RequestOf};
ghost use Rattle.vr_types.specs.declared.unit.Mode.{Mode};
ghost use Rattle.vr_types.specs.declared.unit.Unit as units;
ghost use Rattle.vr_history.specs.declared.entry.Entry.{Entry};
ghost use Rattle.vr_history.specs.Case.{Case as Asked, new_record, sees_kept};
ghost use Rattle.vr_history.specs.Effects.{without_unit};
ghost use Rattle.vr_history.specs.Legal.{state_of};
ghost use Rattle.vr_history.specs.Names.{with_locks};
ghost use Rattle.vr_history.specs.State.{BeforeImage, Owned, State, opening_state};
ghost use Rattle.vr_history.specs.Step.{case_of};
ghost use Rattle.vr_locks.specs.Locked as table;
ghost use Rattle.vr_answer.specs.Kept.{IsUnderLock, KeptUnderLocks};
ghost use Rattle.vr_answer.specs.Least as least;
ghost use Rattle.vr_answer.specs.Looked.{place_looked_at};
ghost use Rattle.vr_history.specs.Opened.{Cluster, opened as opened_of};
ghost use Rattle.vr_history.specs.RefusedRoom.{log_full as full};
ghost use Rattle.vr_history.specs.Replies as replies;
ghost use Rattle.vr_answer.specs.Tried.{file_refusals, record_refusals};

/// The refusals are tried in three parts: by what is in memory, by the record that was read, and by
/// the log.
#[tactic(auto, using(crate::proofs::CallerLemmas::in_order))]
pub fn refusals_come_in_order()
    ensures { (case : Asked) → replies.all_refusals case
        ≡ file_refusals case ++ (record_refusals case ++ full case ∷ []) }
{}

/// What the calls answer in their order is the reply that the record file gives: the first refusal
/// by what is in memory (`file`), and where there is none that by the record (`by_record`), and
/// where there is none that by the log (`by_log`), and where there is none the reply to a request
/// that is done (`done`), a BACKOUT once its unit keeps no before-image.
pub fn answer_comes_in_order()
    ensures file { (case : Asked) (refusal : RefusalOf)
        → replies.first_of (file_refusals case) ≡ Some refusal
        → replies.IsAnswered case (Refused refusal) }
    ensures by_record { (case : Asked) (refusal : RefusalOf)
        → replies.first_of (file_refusals case) ≡ None
        → replies.first_of (record_refusals case) ≡ Some refusal
        → replies.IsAnswered case (Refused refusal) }
    ensures by_log { (case : Asked) (refusal : RefusalOf)
        → replies.first_of (file_refusals case) ≡ None
        → replies.first_of (record_refusals case) ≡ None
        → full case ≡ Some refusal
        → replies.IsAnswered case (Refused refusal) }
    ensures done { (case : Asked)
        → replies.first_of (file_refusals case) ≡ None
        → replies.first_of (record_refusals case) ≡ None
        → full case ≡ None
        → replies.CanEnd case case.request
        → replies.IsAnswered case (replies.done_by case case.request) }
{}

/// What may come in place of the answer once `refused_by_file` refuses nothing: that an area is
/// lacked for a key-sequenced cluster, where the record refuses nothing either (`room`); `Memory`
/// where memory ran out on a request on a file (`memory`); and a fault
/// of a write, or of a read (`write`, `read`). A request that looks at a place may read (`looks`).
pub fn may_come_instead()
    ensures room { (case : Asked) (definition : Stated) (bytes : List ℕ)
        → replies.first_of (file_refusals case) ≡ None
        → replies.first_of (record_refusals case) ≡ None
        → opened_of case ≡ Cluster definition
        → definition.kind ≡ kinds.Keyed
        → new_record case.request ≡ Some bytes
        → replies.LacksRoom case (Refused replies.lacks_area) }
    ensures memory { (case : Asked)
        → replies.first_of (file_refusals case) ≡ None
        → IsTrue (replies.may_want case.request)
        → replies.LacksMemory case (Refused refusals.Memory) }
    ensures write { (case : Asked)
        → replies.first_of (file_refusals case) ≡ None
        → replies.MeetsFault case (Refused refusals.WriteFault) }
    ensures read { (case : Asked)
        → replies.first_of (file_refusals case) ≡ None
        → IsTrue (replies.may_read case.request)
        → replies.MeetsFault case (Refused refusals.ReadFault) }
    ensures looks { (geometry : Geometry) (state : State) (unit : units.Unit)
        (request : RequestOf) (place : List ℕ)
        → place_looked_at (case_of geometry state unit request) ≡ Some place
        → IsTrue (replies.may_read request) }
{}

/// What a read of a cluster comes to. One that names its place comes to that place, whether a
/// record stands there or not (`named`). One that searches comes to the first place that it asks
/// for, of the places at which a record stands and, where it sees them, those at which another unit
/// may bring one back (`searched`): the lesser of the first of both. What any read finds comes at
/// that place in the order of the read (`found`).
pub fn found_is_least()
    ensures named { (case : Asked) (definition : Stated) (stand : Stand) (place : List ℕ)
        → least.IsReadOf case definition stand (Equal place)
        → least.ComesTo case (Some place) }
    ensures searched { (case : Asked) (definition : Stated) (stand : Stand) (find : Find)
        (standing kept : Option (List ℕ))
        → least.IsReadOf case definition stand find
        → least.Searches find
        → least.AreLeast case stand find standing kept
        → least.ComesTo case (least.first_seen (sees_kept case.request) standing kept) }
    ensures found { (case : Asked) (definition : Stated) (stand : Stand) (find : Find)
        (standing kept : Option (List ℕ))
        → least.IsReadOf case definition stand find
        → least.AreLeast case stand find standing kept
        → least.found_at case ≡ least.first_seen (sees_kept case.request) standing kept }
{}

/// Each before-image of a history is under the exclusive lock of its unit (`kept`), which is in the
/// way of every other unit (`in_the_way`). So what another unit may bring back is refused with
/// `Held`.
pub fn before_images_are_locked()
    ensures kept { (geometry : Geometry) (contents : ℕ → Content) (owned : List Owned)
        (entries : List Entry)
        → KeptUnderLocks (state_of geometry (opening_state contents owned) entries) }
    ensures in_the_way { (state : State) (kept : BeforeImage) (unit : units.Unit) (mode : Mode)
        → IsUnderLock state.locks kept
        → same_unit unit kept.unit ≡ false
        → first_conflict state.locks unit mode (Record (record { 0 = kept.part }) kept.place)
        ≡ None
        → ⊥ }
{}

/// The lock table takes locks, and takes those of a unit away, as the record file says.
pub fn locks_are_taken_alike()
    ensures taken { (unit : units.Unit) (mode : Mode) (names : List LockName) (locks : List Lock)
        → table.with_locks unit mode locks names ≡ with_locks unit mode names locks }
    ensures ended { (unit : units.Unit) (state : State)
        → table.without_unit unit state.locks ≡ (without_unit unit state).locks }
{}
