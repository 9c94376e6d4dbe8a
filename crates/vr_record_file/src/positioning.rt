//! Where files stand: POINT, ENDREQ, and what moves them otherwise.
ghost use Rattle.std.specs.Prelude.{◌≡◌, ◌<◌, ◌-◌, ◌^◌, ℕ, Bool, IfOk, List, None, Option, Some};
ghost use Rattle.std.specs.Option.{option_copied, option_map, unwrap_or};
ghost use Rattle.vr_browse.specs.Positions.{SetsOnly, position_at};
ghost use Rattle.vr_types.specs.declared.position.Stand.TheVariants as stands;
ghost use Rattle.vr_types.specs.declared.reply.Reply.TheVariants.{Done};
ghost use Rattle.vr_types.specs.declared.request.FileRef as files;
ghost use Rattle.vr_types.specs.declared.request.Find as finds;
ghost use Rattle.vr_types.specs.declared.request.Find.TheVariants.{Equal};
ghost use Rattle.vr_types.specs.declared.request.Request.TheVariants as requests;
ghost use Rattle.vr_types.specs.declared.unit.Integrity as integrities;
ghost use Rattle.vr_history.specs.declared.entry.What.TheVariants as whats;
ghost use Rattle.vr_history.specs.Case as cases;
ghost use Rattle.vr_history.specs.Merged.{last_stamp};
ghost use Rattle.vr_history.specs.State.{State};
ghost use Rattle.vr_history.specs.Step.{case_of};
ghost use Rattle.vr_answer.specs.Least.{found_at};
ghost use Rattle.vr_record_file.specs.Now.{CanSet, IsStateOf, MayBeAsked, stand_done, stand_in};
ghost use Rattle.vr_record_file.specs.Now.{stand_read, state_now, with_event};

use crate::file::RecordFile;
use std::alloc::Global;
use vr_answer::file_of;
use vr_history::What;
use vr_types::{Find, OutOfMemory, Place, Position, Reply, Request, SharedRequest, Stand, Unit};

/// A copy of where a file stands: at its start, where its deck hasn't used it yet.
fn copy_of_stand(alloc: Global, stood: Option<&Stand>) -> Result<Stand, OutOfMemory>
    ensures { IfOk result (λ copy. copy ≡ unwrap_or (option_copied stood.entry) stands.Start) }
{
    match stood {
        None => Ok(Stand::Start),
        Some(stand) => stand.copy(alloc),
    }
}

/// Where the file of a GET stands once it found a record at this place.
fn stand_read(
    alloc: Global,
    request: &Request,
    at: &Place,
    stood: Option<&Stand>,
) -> Result<Stand, OutOfMemory>
    ensures { IfOk result (λ stand.
        stand ≡ stand_read request.now at.now (option_copied stood.entry)) }
{
    match request {
        Request::Get {
            find: Find::Next,
            ..
        } => Ok(Stand::After(at.copy(alloc)?)),
        _ => copy_of_stand(alloc, stood),
    }
}

impl RecordFile {
    /// Where a file stands; None where its deck hasn't used it yet.
    fn stand_at(&self, deck: u32, slot: u32) -> Option<&Stand>
        ensures { option_copied result
            ≡ option_map (λ position. position.stand) (position_at self.now.files deck slot) }
    {
        match self.positions.get(deck, slot) {
            None => None,
            Some(position) => Some(&position.stand),
        }
    }

    /// Where the file of a request stands; None where its deck hasn't used it yet, which is at its
    /// start.
    pub fn stand(&self, deck: u32, request: &Request) -> Option<&Stand>
        ensures { option_copied result ≡ stand_in self.now.files deck (cases.file_of request.now) }
    {
        match file_of(request) {
            None => None,
            Some(on) => self.stand_at(deck, on.slot),
        }
    }

    /// Where the file of a GET stands once it is done, for `read`: after the record that it found,
    /// which is at this place in the order of the read, where it is sequential, and else where it
    /// stood, whatever it found. It fails only if memory runs out.
    pub fn stand_read(
        &self,
        alloc: Global,
        unit: Unit,
        request: &Request,
        at: &Place,
    ) -> Result<Stand, OutOfMemory>
        ensures found { IfOk result (λ stand. (opening : State) (on : files.FileRef)
            (find : finds.Find) (update : Bool) (integrity : integrities.Integrity)
            → let case = case_of self.now.geometry (state_now opening self.now) unit request.now in
            IsStateOf opening self.now → request.now ≡ requests.Get on find update integrity
            → found_at case ≡ Some at.now → stand ≡ stand_done case) }
        ensures direct { IfOk result (λ stand. (opening : State) (on : files.FileRef)
            (place : List ℕ) (update : Bool) (integrity : integrities.Integrity)
            → let case = case_of self.now.geometry (state_now opening self.now) unit request.now in
            IsStateOf opening self.now
            → request.now ≡ requests.Get on (Equal place) update integrity
            → stand ≡ stand_done case) }
    {
        stand_read(alloc, request, at, self.stand(unit.deck, request))
    }

    /// The file of a request stands somewhere, and holds something or nothing. No other is moved.
    pub(crate) fn place(&mut self, deck: u32, request: &Request, to: Position)
        requires { CanSet self.old deck (cases.file_of request.now) }
        ensures same { self.new ≡ record self.old {
          files = self.new.files;
          files_room = self.new.files_room;
        } }
        ensures set { (on : files.FileRef) → cases.file_of request.now ≡ Some on
            → SetsOnly self.old.files self.new.files deck on.slot to }
        ensures none { cases.file_of request.now ≡ None → self.new.files ≡ self.old.files }
    {
        if let Some(on) = file_of(request) {
            self.positions.set(deck, on.slot, to);
        }
    }

    /// Enters a request that was done: its file stands somewhere and holds nothing.
    fn enter_at(
        &mut self,
        unit: Unit,
        line: u32,
        request: SharedRequest,
        reply: Reply,
        stand: Stand,
        after: u64,
    )
        requires room { 0 < self.old.room }
        requires files { CanSet self.old unit.deck (cases.file_of request) }
        requires last { last_stamp 0 self.old.entries < 2 ^ 64 - 2 }
        requires after { after < 2 ^ 64 - 2 }
        ensures leaves { self.new ≡ with_event after unit line (whats.Asked request reply)
            (record self.old {
              files = self.new.files;
              files_room = self.new.files_room;
            }) }
        ensures file { (on : files.FileRef) → cases.file_of request ≡ Some on
            → SetsOnly self.old.files self.new.files unit.deck on.slot
            (record { stand = stand; held = None }) }
    {
        let to = Position { stand, held: None };
        self.place(unit.deck, request.get(), to);
        self.enter(unit, line, What::Asked { request, reply }, after);
    }

    /// Enters a POINT that was done: its file stands at the place where the record that it found
    /// comes in the order of the read, and holds nothing. It takes no lock and no memory: there is
    /// room for one more file, or the file was set before.
    pub fn point(
        &mut self,
        unit: Unit,
        line: u32,
        request: SharedRequest,
        reply: Reply,
        at: Place,
        after: u64,
    )
        requires room { 0 < self.old.room }
        requires files { CanSet self.old unit.deck (cases.file_of request) }
        requires last { last_stamp 0 self.old.entries < 2 ^ 64 - 2 }
        requires after { after < 2 ^ 64 - 2 }
        ensures leaves { self.new ≡ with_event after unit line (whats.Asked request reply)
            (record self.old {
              files = self.new.files;
              files_room = self.new.files_room;
            }) }
        ensures file { (on : files.FileRef) → cases.file_of request ≡ Some on
            → SetsOnly self.old.files self.new.files unit.deck on.slot
            (record { stand = stands.At at; held = None }) }
        ensures state { (opening : State) (on : files.FileRef) (find : finds.Find) (feedback : ℕ)
            (shown bytes : Option (List ℕ))
            → let case = case_of self.old.geometry (state_now opening self.old) unit request in
            IsStateOf opening self.old → MayBeAsked opening self.old unit request reply
            → request ≡ requests.Point on find → reply ≡ Done feedback shown bytes
            → found_at case ≡ Some at → IsStateOf opening self.new }
    {
        self.enter_at(unit, line, request, reply, Stand::At(at), after);
    }

    /// Enters an ENDREQ that was done: its file stands nowhere and holds nothing. It takes no
    /// memory: there is room for one more file, or the file was set before.
    pub fn end_request(&mut self, unit: Unit, line: u32, request: SharedRequest, after: u64)
        requires room { 0 < self.old.room }
        requires files { CanSet self.old unit.deck (cases.file_of request) }
        requires last { last_stamp 0 self.old.entries < 2 ^ 64 - 2 }
        requires after { after < 2 ^ 64 - 2 }
        ensures leaves { self.new ≡ with_event after unit line
            (whats.Asked request (Done 0 None None)) (record self.old {
              files = self.new.files;
              files_room = self.new.files_room;
            }) }
        ensures file { (on : files.FileRef) → cases.file_of request ≡ Some on
            → SetsOnly self.old.files self.new.files unit.deck on.slot
            (record { stand = stands.None; held = None }) }
        ensures state { (opening : State) (on : files.FileRef) → IsStateOf opening self.old
            → MayBeAsked opening self.old unit request (Done 0 None None)
            → request ≡ requests.EndReq on → IsStateOf opening self.new }
    {
        let reply = Reply::Done {
            feedback: 0,
            place: None,
            bytes: None,
        };
        self.enter_at(unit, line, request, reply, Stand::None, after);
    }
}
