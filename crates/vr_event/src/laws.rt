//! Laws of events, each the contract of a function that does nothing.
ghost use Rattle.std.specs.Prelude.{◌≤◌, ◌+◌, ℕ};
ghost use Rattle.vr_types.specs.Faults.{Faults};
ghost use Rattle.vr_types.specs.declared.request.Request.{Request};
ghost use Rattle.vr_types.specs.declared.unit.Unit as units;
ghost use Rattle.vr_record_file.specs.Now.{FileNow};
ghost use Rattle.vr_event.specs.Acting.{IsActed};
ghost use Rattle.vr_event.specs.Made.{HasMade};
ghost use Rattle.vr_event.specs.declared.act.Act as acts;

/// An event adds the entry of its request to the history, once, where it is done, and no entry of a
/// request where it is to be asked again. The stamps of what it adds are those that come next. A
/// fault follows a request that is refused for it alone, and stops the volume: one that is answered
/// otherwise leaves a volume that goes on.
pub fn event_adds()
    ensures { (before now : Faults) (act : acts.Act) (after : ℕ) (unit : units.Unit) (line : ℕ)
        (request : Request) (old new : FileNow)
        → IsActed before now act after unit line request old new
        → HasMade act after unit line request old new }
{}

/// An event takes room for two entries at most.
#[tactic(auto, using(crate::proofs::Acts::acted_room))]
pub fn event_takes_room()
    ensures { (before now : Faults) (act : acts.Act) (after : ℕ) (unit : units.Unit) (line : ℕ)
        (request : Request) (old new : FileNow)
        → IsActed before now act after unit line request old new → old.room ≤ new.room + 2 }
{}
