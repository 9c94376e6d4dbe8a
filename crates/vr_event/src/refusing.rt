//! Requests that a volume refuses.
ghost use Rattle.std.specs.Prelude.{◌≡◌, ◌<◌, ◌-◌, ◌^◌, IsSome, IsTrue, None, false};
ghost use Rattle.vr_types.specs.declared.reply.Reply.TheVariants.{Refused};
ghost use Rattle.vr_history.specs.declared.entry.What.TheVariants.{Asked};
ghost use Rattle.vr_history.specs.Case.{file_of};
ghost use Rattle.vr_history.specs.Legal.{is_write_fault};
ghost use Rattle.vr_history.specs.Merged.{last_stamp};
ghost use Rattle.vr_history.specs.State.{State};
ghost use Rattle.vr_history.specs.Step.{stand_refused};
ghost use Rattle.vr_record_file.specs.Now.{CanSet, MayBeAsked, lets_go, with_event};
ghost use Rattle.vr_event.specs.Volume.{IsHeld, IsWhole};

use crate::volume::Volume;
use vr_space::Part;
use vr_types::{Blocks, Refusal, SharedRequest, Unit};

impl<B: Blocks, P: Part> Volume<B, P> {
    /// Enters a request that is refused, but for a fault of a write: its file is moved where the
    /// refusal moves it, past the end of the data, and by a POINT that found nothing; there is room
    /// for one more file then, or it was set before. No block is touched, and what the blocks hold
    /// stays what the history gives.
    pub fn refuse(
        &mut self,
        unit: Unit,
        line: u32,
        request: SharedRequest,
        refusal: Refusal,
        after: u64,
    )
        requires room { 0 < self.old.file.room }
        requires files { IsSome (stand_refused request refusal)
            → CanSet self.old.file unit.deck (file_of request) }
        requires last { last_stamp 0 self.old.file.entries < 2 ^ 64 - 2 }
        requires after { after < 2 ^ 64 - 2 }
        ensures held { IsTrue B.tells → (opening : State) → IsHeld B.seen opening self.old
            → MayBeAsked opening self.old.file unit request (Refused refusal)
            → is_write_fault (Refused refusal) ≡ false → IsHeld B.seen opening self.new }
        ensures whole { IsWhole B.seen self.old → IsWhole B.seen self.new }
        ensures same { self.new.file ≡ with_event after unit line
            (Asked request (Refused refusal)) (record self.old.file {
              files = self.new.file.files;
              files_room = self.new.file.files_room;
            }) }
        ensures leaves { stand_refused request refusal ≡ None
            → self.new.file ≡ with_event after unit line
            (Asked request (Refused refusal)) (lets_go unit.deck request self.old.file) }
        ensures blocks { self.new.blocks ≡ self.old.blocks }
        ensures store { self.new.store ≡ self.old.store }
        ensures volume { self.new.number ≡ self.old.number }
    {
        self.file.refuse(unit, line, request, refusal, after);
    }
}
