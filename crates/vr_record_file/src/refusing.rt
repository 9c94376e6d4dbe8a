//! Requests that are refused.
ghost use Rattle.std.specs.Prelude.{◌≡◌, ◌<◌, ◌-◌, ◌^◌, IsSome, None, Some, List, false};
ghost use Rattle.vr_browse.specs.Positions.{SetsOnly};
ghost use Rattle.vr_types.specs.Locks.{Lock};
ghost use Rattle.vr_types.specs.declared.position.Stand as stands;
ghost use Rattle.vr_types.specs.declared.reply.Refusal.TheVariants.{WriteFault};
ghost use Rattle.vr_types.specs.declared.reply.Reply.TheVariants.{Refused};
ghost use Rattle.vr_types.specs.declared.request.FileRef as files;
ghost use Rattle.vr_history.specs.declared.entry.What.TheVariants.{Asked};
ghost use Rattle.vr_history.specs.Case.{file_of};
ghost use Rattle.vr_history.specs.Legal.{is_write_fault};
ghost use Rattle.vr_history.specs.Merged.{last_stamp};
ghost use Rattle.vr_history.specs.State.{State};
ghost use Rattle.vr_history.specs.Step.{stand_lost, stand_refused};
ghost use Rattle.vr_record_file.specs.Now.{CanSet, IsStateOf, MayBeAsked, failed, faulted};
ghost use Rattle.vr_record_file.specs.Now.{lets_go, with_event};

use crate::file::RecordFile;
use vr_history::What;
use vr_types::{DeviceFault, Position, Refusal, Reply, Request, SharedRequest, Stand, Unit};

/// Where a refusal leaves its file, if it moves it: past the end of the data, and nowhere after a
/// POINT that finds nothing.
fn stand_refused(request: &Request, refusal: &Refusal) -> Option<Stand>
    ensures { result ≡ stand_refused request.now refusal.now }
{
    match refusal {
        Refusal::EndOfData => Some(Stand::End),
        Refusal::NotFound | Refusal::NoAddress => stand_lost(request),
        _ => None,
    }
}

/// Where a read that finds nothing leaves its file, if it moves it.
fn stand_lost(request: &Request) -> Option<Stand>
    ensures { result ≡ stand_lost request.now }
{
    match request {
        Request::Point { .. } => Some(Stand::None),
        _ => None,
    }
}

impl RecordFile {
    /// The file of a request that is refused lets go what it held, and is moved where the refusal
    /// moves it.
    fn move_refused(&mut self, deck: u32, request: &Request, refusal: &Refusal)
        requires { IsSome (stand_refused request.now refusal.now)
            → CanSet self.old deck (file_of request.now) }
        ensures same { self.new ≡ record self.old {
          files = self.new.files;
          files_room = self.new.files_room;
        } }
        ensures stays { stand_refused request.now refusal.now ≡ None
            → self.new ≡ lets_go deck request.now self.old }
        ensures moved { (stand : stands.Stand) (on : files.FileRef)
            → stand_refused request.now refusal.now ≡ Some stand → file_of request.now ≡ Some on
            → SetsOnly self.old.files self.new.files deck on.slot
            (record { stand = stand; held = None }) }
        ensures none { file_of request.now ≡ None → self.new.files ≡ self.old.files }
    {
        match stand_refused(request, refusal) {
            None => self.let_go(deck, request),
            Some(stand) => self.place(deck, request, Position { stand, held: None }),
        }
    }

    /// Enters a request that was refused, but for a fault of a write: its file lets go what it held
    /// for update. Past the end of the data it stands at the end, and after a POINT that found
    /// nothing it stands nowhere (`file`); no other refusal moves it (`leaves`), and nothing else
    /// changes (`same`). It takes no memory: where the refusal moves the file, there is room for
    /// one more, or it was set before.
    pub fn refuse(
        &mut self,
        unit: Unit,
        line: u32,
        request: SharedRequest,
        refusal: Refusal,
        after: u64,
    )
        requires room { 0 < self.old.room }
        requires files { IsSome (stand_refused request refusal)
            → CanSet self.old unit.deck (file_of request) }
        requires last { last_stamp 0 self.old.entries < 2 ^ 64 - 2 }
        requires after { after < 2 ^ 64 - 2 }
        ensures same { self.new ≡ with_event after unit line (Asked request (Refused refusal))
            (record self.old {
              files = self.new.files;
              files_room = self.new.files_room;
            }) }
        ensures leaves { stand_refused request refusal ≡ None
            → self.new ≡ with_event after unit line (Asked request (Refused refusal))
            (lets_go unit.deck request self.old) }
        ensures file { (stand : stands.Stand) (on : files.FileRef)
            → stand_refused request refusal ≡ Some stand → file_of request ≡ Some on
            → SetsOnly self.old.files self.new.files unit.deck on.slot
            (record { stand = stand; held = None }) }
        ensures state { (opening : State) → IsStateOf opening self.old
            → MayBeAsked opening self.old unit request (Refused refusal)
            → is_write_fault (Refused refusal) ≡ false → IsStateOf opening self.new }
    {
        self.move_refused(unit.deck, request.get(), &refusal);
        let reply = Reply::Refused(refusal);
        self.enter(unit, line, What::Asked { request, reply }, after);
    }

    /// The fault at this stamp stops the volume.
    fn stop(&mut self, stamp: u64)
        ensures { self.new ≡ record self.old { stopped = Some stamp } }
    {
        self.stopped = Some(stamp);
    }

    /// Enters a fault of a write that met no request, which stops the volume (`leaves`). It takes
    /// no memory.
    pub fn fault(&mut self, unit: Unit, line: u32, after: u64)
        requires room { 0 < self.old.room }
        requires last { last_stamp 0 self.old.entries < 2 ^ 64 - 1 }
        requires after { after < 2 ^ 64 - 1 }
        requires going { self.old.stopped ≡ None }
        ensures leaves { self.new ≡ faulted after unit line self.old }
        ensures state { (opening : State) → IsStateOf opening self.old
            → IsStateOf opening self.new }
    {
        let stamp = self.next_stamp(after);
        let fault = DeviceFault::Write;
        self.enter(unit, line, What::Faulted { fault }, after);
        self.stop(stamp);
    }

    /// Enters a request that a fault of a write refused, and at the next stamp the fault, which
    /// stops the volume (`leaves`). The unit may have taken the locks of the request before: the
    /// history has none of them (`state`). It takes no memory.
    pub fn fail_write(&mut self, unit: Unit, line: u32, request: SharedRequest, after: u64)
        requires room { 1 < self.old.room }
        requires last { last_stamp 0 self.old.entries < 2 ^ 64 - 2 }
        requires after { after < 2 ^ 64 - 2 }
        requires going { self.old.stopped ≡ None }
        ensures leaves { self.new ≡ failed after unit line request self.old }
        ensures state { (opening : State) (before : List Lock)
            → IsStateOf opening (record self.old { locks = before })
            → MayBeAsked opening (record self.old { locks = before }) unit request
            (Refused WriteFault)
            → IsStateOf opening self.new }
    {
        let reply = Reply::Refused(Refusal::WriteFault);
        self.enter_asked(unit, line, request, reply, after);
        self.fault(unit, line, 0);
    }
}
