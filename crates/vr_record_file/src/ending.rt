//! Requests that end a unit of recovery.
ghost use Rattle.std.specs.Prelude.{◌≡◌, ◌<◌, ◌-◌, ◌^◌, None, true};
ghost use Rattle.vr_types.specs.declared.reply.Reply.TheVariants.{Done};
ghost use Rattle.vr_history.specs.declared.entry.What.TheVariants.{Asked};
ghost use Rattle.vr_history.specs.Merged.{last_stamp};
ghost use Rattle.vr_history.specs.State.{State};
ghost use Rattle.vr_record_file.specs.Now.{EndsUnit, IsStateOf, MayBeAsked, ended, has_deck};
ghost use Rattle.vr_record_file.specs.Now.{number_of, with_event};

use crate::file::RecordFile;
use crate::numbers::raise_number;
use vr_history::What;
use vr_types::{Reply, SharedRequest, Unit};

impl RecordFile {
    /// A unit's locks go, its deck's files let go what they hold, and its deck's number rises.
    fn end(&mut self, unit: Unit)
        ensures { self.new ≡ ended unit self.old }
    {
        self.locks.end(unit);
        self.positions.drop_deck(unit.deck);
        raise_number(&mut self.numbers, unit.deck);
    }

    /// Enters a COMMIT or a BACKOUT that was done, of a deck that was entered: its unit's locks go,
    /// its deck's files let go what they hold, and its deck's number rises (`leaves`). It takes no
    /// memory.
    pub fn end_unit(&mut self, unit: Unit, line: u32, request: SharedRequest, after: u64)
        requires room { 0 < self.old.room }
        requires last { last_stamp 0 self.old.entries < 2 ^ 64 - 2 }
        requires after { after < 2 ^ 64 - 2 }
        requires deck { has_deck unit.deck self.old.numbers ≡ true }
        requires number { number_of self.old.numbers unit.deck < 2 ^ 32 - 1 }
        ensures leaves { self.new ≡ with_event after unit line (Asked request (Done 0 None None))
            (ended unit self.old) }
        ensures state { (opening : State) → IsStateOf opening self.old
            → MayBeAsked opening self.old unit request (Done 0 None None) → EndsUnit request
            → IsStateOf opening self.new }
    {
        self.end(unit);
        let reply = Reply::Done {
            feedback: 0,
            place: None,
            bytes: None,
        };
        self.enter(unit, line, What::Asked { request, reply }, after);
    }
}
