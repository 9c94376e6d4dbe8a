//! Reads that are done.
ghost use Rattle.std.specs.Prelude.{◌≡◌, ◌<◌, ◌-◌, ◌^◌, ℕ, Bool, IfErr, List, None, OnErr, OnOk};
ghost use Rattle.std.specs.Prelude.{Option, Some, cond};
ghost use Rattle.vr_browse.specs.Positions.{SetsOnly};
ghost use Rattle.vr_types.specs.declared.reply.Reply.TheVariants.{Done};
ghost use Rattle.vr_types.specs.declared.request.FileRef as files;
ghost use Rattle.vr_types.specs.declared.request.Find as finds;
ghost use Rattle.vr_types.specs.declared.request.Request.TheVariants as requests;
ghost use Rattle.vr_types.specs.declared.unit.Integrity as integrities;
ghost use Rattle.vr_locks.specs.Answer.{CauseOf};
ghost use Rattle.vr_history.specs.declared.entry.What.TheVariants as whats;
ghost use Rattle.vr_history.specs.Case as cases;
ghost use Rattle.vr_history.specs.Found.{place_read};
ghost use Rattle.vr_history.specs.Merged.{last_stamp};
ghost use Rattle.vr_history.specs.Names.{lock_names};
ghost use Rattle.vr_history.specs.State.{State};
ghost use Rattle.vr_history.specs.Step.{case_of};
ghost use Rattle.vr_record_file.specs.Now.{CanSet, IsStateOf, MayBeAsked, conflict_kept};
ghost use Rattle.vr_record_file.specs.Now.{locks_kept, mode_kept as kept, stand_done, state_now};
ghost use Rattle.vr_record_file.specs.Now.{with_event};

use crate::file::RecordFile;
use vr_history::What;
use vr_locks::LockNo;
use vr_types::{
    Integrity, LockNames, Mode, Place, Position, Reply, Request, SharedRequest, Stand, Unit,
};

/// How a read that is done locks its record, where it keeps the lock: for update, and with CRE.
fn mode_kept(request: &Request) -> Option<Mode>
    ensures { result ≡ kept request.now }
{
    match request {
        Request::Get {
            update,
            integrity,
            ..
        } => {
            if *update {
                Some(Mode::Exclusive)
            } else {
                match integrity {
                    Integrity::Nri | Integrity::Cr => None,
                    Integrity::Cre => Some(Mode::Shared),
                }
            }
        }
        Request::Point { .. } | Request::Add { .. } | Request::Update { .. } => None,
        Request::Erase { .. } | Request::EndReq { .. } => None,
        Request::Commit | Request::Backout => None,
    }
}

impl RecordFile {
    /// A unit takes the locks that a read keeps, all or none.
    fn lock_read(&mut self, unit: Unit, request: &Request, names: &LockNames) -> Result<(), LockNo>
        ensures refused { IfErr result
            (CauseOf (conflict_kept unit (kept request.now) names.now self.old.locks)) }
        ensures taken { OnOk result (self.new ≡ record self.old {
          locks = locks_kept unit (kept request.now) names.now self.old.locks;
        }) }
        ensures unchanged { OnErr result (self.new ≡ self.old) }
    {
        match mode_kept(request) {
            None => Ok(()),
            Some(mode) => self.lock(unit, names, mode),
        }
    }

    /// Takes the lock of a GET that was done, where it keeps one, and enters it: its file stands
    /// where the caller says (`stand_done`), and for update it holds the record's place (`held`).
    /// `Held` comes only where a lock of another unit is in the way, and `Memory` only where memory
    /// ran out; nothing changes then. There is room for one more file, or the file was set before.
    pub fn read(
        &mut self,
        unit: Unit,
        line: u32,
        request: SharedRequest,
        reply: Reply,
        names: &LockNames,
        stand: Stand,
        held: Option<Place>,
        after: u64,
    ) -> Result<(), LockNo>
        requires room { 0 < self.old.room }
        requires files { CanSet self.old unit.deck (cases.file_of request) }
        requires last { last_stamp 0 self.old.entries < 2 ^ 64 - 2 }
        requires after { after < 2 ^ 64 - 2 }
        ensures refused { IfErr result
            (CauseOf (conflict_kept unit (kept request) names.now self.old.locks)) }
        ensures unchanged { OnErr result (self.new ≡ self.old) }
        ensures leaves { OnOk result (self.new ≡ with_event after unit line
            (whats.Asked request reply) (record self.old {
              locks = locks_kept unit (kept request) names.now self.old.locks;
              files = self.new.files;
              files_room = self.new.files_room;
            })) }
        ensures file { OnOk result ((on : files.FileRef) → cases.file_of request ≡ Some on
            → SetsOnly self.old.files self.new.files unit.deck on.slot
            (record { stand = stand; held = held })) }
        ensures state { OnOk result ((opening : State) (on : files.FileRef) (find : finds.Find)
            (place : List ℕ) (update : Bool) (integrity : integrities.Integrity) (feedback : ℕ)
            (shown bytes : Option (List ℕ))
            → let case = case_of self.old.geometry (state_now opening self.old) unit request in
            IsStateOf opening self.old → MayBeAsked opening self.old unit request reply
            → request ≡ requests.Get on find update integrity
            → reply ≡ Done feedback shown bytes → place_read case ≡ Some place
            → names.now ≡ lock_names case request → stand ≡ stand_done case
            → held ≡ cond update (Some place) None → IsStateOf opening self.new) }
    {
        self.lock_read(unit, request.get(), names)?;
        self.place(unit.deck, request.get(), Position { stand, held });
        self.enter(unit, line, What::Asked { request, reply }, after);
        Ok(())
    }
}
