//! A request with what is in memory when it is met.
ghost use Rattle.std.specs.Prelude.{◌≡◌, ◌==◌, false, None};
ghost use Rattle.std.specs.Option.{option_copied};
ghost use Rattle.vr_browse.specs.Positions.{position_of};
ghost use Rattle.vr_history.specs.Case as cases;
ghost use Rattle.vr_history.specs.RefusedRoom.{free_areas};
ghost use Rattle.vr_history.specs.State.{State};
ghost use Rattle.vr_history.specs.Step.{case_of};
ghost use Rattle.vr_answer.specs.InHand.{IsCaseOf, IsFileOf};
ghost use Rattle.vr_answer.specs.Numbered.{AreNumbersOf};
ghost use Rattle.vr_record_file.specs.Now.{IsStateOf, held_in, state_now};

use crate::file::RecordFile;
use vr_answer::{Case, file_of};
use vr_types::{Place, Request, Unit};

impl RecordFile {
    /// The place that a file holds for update.
    fn held_at(&self, deck: u32, slot: u32) -> Option<&Place>
        ensures { option_copied result ≡ (position_of self.now.files deck slot).held }
    {
        match self.positions.get(deck, slot) {
            None => None,
            Some(position) => position.held.as_ref(),
        }
    }

    /// The place that the file of a request holds for update.
    pub fn held(&self, deck: u32, request: &Request) -> Option<&Place>
        ensures { option_copied result ≡ held_in self.now.files deck (cases.file_of request.now) }
    {
        match file_of(request) {
            None => None,
            Some(on) => self.held_at(deck, on.slot),
        }
    }

    /// A request of a deck, with what is in memory, the number of free areas and the bytes of the
    /// log in use; and the address that an added record gets, where places are numbers, else None,
    /// and how many areas the data set has. What is in memory of the file agrees with the state
    /// that the history gives (`file`), and so does all, where what is handed in does (`going`);
    /// once the volume has stopped, with the state that has the locks that are in memory
    /// (`always`), which no answer looks at then.
    pub fn case<'a>(
        &'a self,
        unit: Unit,
        request: &'a Request,
        free: u32,
        used: u64,
        address: Option<&'a [u8]>,
        areas: u32,
    ) -> Case<'a>
        ensures file { (opening : State) → IsStateOf opening self.now
            → IsFileOf result (state_now opening self.now) }
        ensures going { (opening : State) → IsStateOf opening self.now → self.now.stopped ≡ None
            → (unit.deck == 0) ≡ false
            → used ≡ (state_now opening self.now).used
            → free ≡ free_areas (case_of self.now.geometry (state_now opening self.now) unit
            request.now)
            → AreNumbersOf (option_copied address.entry) areas
            (case_of self.now.geometry (state_now opening self.now) unit request.now)
            → IsCaseOf result (state_now opening self.now) }
        ensures always { (opening : State) → IsStateOf opening self.now
            → (unit.deck == 0) ≡ false
            → used ≡ (state_now opening self.now).used
            → free ≡ free_areas (case_of self.now.geometry (state_now opening self.now) unit
            request.now)
            → AreNumbersOf (option_copied address.entry) areas
            (case_of self.now.geometry (state_now opening self.now) unit request.now)
            → IsCaseOf result (record (state_now opening self.now) { locks = self.now.locks }) }
        ensures catalog { result.catalog.now ≡ self.now.catalog }
        ensures stopped { result.stopped ≡ self.now.stopped }
        ensures asked { result.request.now ≡ request.now }
        ensures unit { result.unit ≡ unit }
        ensures geometry { result.geometry ≡ self.now.geometry }
    {
        Case {
            geometry: self.geometry(),
            catalog: self.catalog(),
            locks: self.locks(),
            held: self.held(unit.deck, request),
            stand: self.stand(unit.deck, request),
            stopped: self.stopped(),
            free,
            used,
            address,
            areas,
            unit,
            request,
            catalog_changing: false,
        }
    }
}
