//! An edit of a catalog that nothing is in the way of, and the volume that is asked for it.
ghost use Rattle.std.specs.Prelude.{◌≡◌, ◌∷◌, [], length, map, ◌<◌, IfOk, IfSome, IsErr};
ghost use Rattle.vr_ams_define.specs.Asked as stated;
ghost use Rattle.vr_ams_define.specs.EditSteps.{HasAsked, IsCarried, IsThere};
ghost use Rattle.vr_ams_define.specs.Grown.{AreRunOn};

use crate::answer::Changed;
use crate::asking_edit::ask_edit;
use crate::failure::{catalog_failure, fault_failure, held_failure, log_failure};
use crate::owned::OwnedVolume;
use crate::refusal::DefineNo;
use crate::stamps::last_of;
use vr_catalog::CatFault;
use vr_edits::CatalogEdit;
use vr_trace::{Failure, RunNo};

/// An edit, and the number of its volume, 0 for the first.
#[derive(Drop)]
pub(crate) struct Planned {
    pub(crate) place: usize,
    pub(crate) edit: CatalogEdit,
}

/// Why a volume refuses an edit, by its last answer.
fn failure_by(answer: Changed) -> Option<Failure>
    ensures { result ≡ stated.failure_by answer }
{
    match answer {
        Changed::Done | Changed::Again => None,
        Changed::NoRoom => Some(catalog_failure(CatFault::NoArea)),
        Changed::Held | Changed::Live => Some(held_failure()),
        Changed::Full => Some(log_failure()),
        Changed::Fault(fault) => Some(fault_failure(fault)),
    }
}

/// Asks the volume of an edit for it. What that enters comes after all that the volumes have.
fn edit_planned<V: OwnedVolume>(
    volumes: &mut [V],
    line: u32,
    plan: &Planned,
) -> Result<Changed, RunNo>
    requires within { plan.now.place < length volumes.old }
    requires there { IsThere (map V.shown volumes.old) (map V.geometry volumes.old) plan.now }
    ensures asked { IfOk result (HasAsked V.shown V.answers line plan.now volumes.old
        volumes.new) }
    ensures unchanged { IsErr result → map V.shown volumes.new ≡ map V.shown volumes.old }
    ensures ran { AreRunOn V.history V.goes (line ∷ []) volumes.old volumes.new }
    ensures geometry { map V.geometry volumes.new ≡ map V.geometry volumes.old }
{
    let after = last_of(volumes);
    let volume = &mut volumes[plan.place];
    ask_edit(volume, line, &plan.edit, after)
}

/// Asks for an edit, where one is planned, and shows why it is refused, if it is.
pub(crate) fn carry_out<V: OwnedVolume>(
    volumes: &mut [V],
    line: u32,
    plan: &Result<Option<Planned>, DefineNo>,
) -> Result<Option<Failure>, RunNo>
    requires there { IfOk plan.now (λ planned. IfSome planned
        (IsThere (map V.shown volumes.old) (map V.geometry volumes.old))) }
    ensures carried { IfOk result
        (IsCarried V.shown V.answers line plan.now volumes.old volumes.new) }
    ensures unchanged { IsErr result → map V.shown volumes.new ≡ map V.shown volumes.old }
    ensures ran { AreRunOn V.history V.goes (line ∷ []) volumes.old volumes.new }
    ensures geometry { map V.geometry volumes.new ≡ map V.geometry volumes.old }
{
    match plan {
        Ok(Some(planned)) => Ok(failure_by(edit_planned(volumes, line, planned)?)),
        Ok(None) => Ok(None),
        Err(DefineNo::Refused(failure)) => Ok(Some(*failure)),
        Err(DefineNo::Ended(no)) => Err(*no),
    }
}
