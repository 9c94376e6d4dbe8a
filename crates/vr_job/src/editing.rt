//! An edit of the catalog of a volume by the utilities, for ALTER, DELETE, and DEFINE of an alternate
//! index or a path: one event of deck 0.
ghost use Rattle.std.specs.Prelude.{◌≡◌, IfOk, IsErr, IsTrue, None, Ok};
ghost use Rattle.vr_edits.specs.Edits.{MayEdit};
ghost use Rattle.vr_ams_define.specs.Answers.Exchange.{Editing};
ghost use Rattle.vr_ams_define.specs.Edited.{IsShownEdited};
ghost use Rattle.vr_ams_define.specs.Grown.{HasEntered};
ghost use Rattle.vr_event.specs.CatalogEdit.{HasEditFaults, LacksRoomWhereEdited};
ghost use Rattle.vr_event.specs.Defining.{utility_unit};
ghost use Rattle.vr_event.specs.EditSteps.{HasEditCome, MayEditNow};
ghost use Rattle.vr_event.specs.declared.edit.Edit.TheVariants as events;
ghost use Rattle.vr_job.specs.Answering as answering;
ghost use Rattle.vr_job.specs.Answering.{IsAnswered};
ghost use Rattle.vr_job.specs.Going.{Follows, WentOn};
ghost use Rattle.vr_job.specs.Serving.{IsServing, LeavesLess, shown_of};

use crate::serving::make_ready;
use std::alloc::Global;
use vr_ams_define::Changed;
use vr_edits::CatalogEdit;
use vr_event::{Edit, Volume, entries_to_edit};
use vr_start::Start;
use vr_trace::RunNo;
use vr_types::{Blocks, OutOfMemory};

/// What an event of an edit came to, as its command has it.
fn changed_of(event: Edit) -> Changed
    ensures { result ≡ answering.changed_of event }
{
    match event {
        Edit::Done => Changed::Done,
        Edit::Again => Changed::Again,
        Edit::NoRoom => Changed::NoRoom,
        Edit::Held => Changed::Held,
        Edit::Live => Changed::Live,
        Edit::Full => Changed::Full,
        Edit::Fault(fault) => Changed::Fault(fault),
    }
}

/// One event of an edit of the catalog by the utilities, which are deck 0, in room that was made.
fn edit_event<B: Blocks, P: Start + Drop>(
    alloc: Global,
    volume: &mut Volume<B, P>,
    line: u32,
    edit: &CatalogEdit,
    after: u64,
) -> Result<Edit, OutOfMemory>
    requires serving { IsServing B.tells B.seen volume.old }
    requires may { MayEditNow B.seen after edit.now volume.old }
    ensures serving { IsServing B.tells B.seen volume.new }
    ensures went { WentOn B.tells B.seen B.faults volume.old volume.new }
    ensures come { HasEditCome B.seen after (utility_unit volume.old.file) line edit.now result
        volume.old volume.new }
    ensures no_room { IsTrue B.tells → LacksRoomWhereEdited B.seen edit.now result volume.old }
    ensures nearer { IsTrue B.tells → result ≡ Ok events.Again
        → LeavesLess volume.old volume.new }
    ensures cause { HasEditFaults (B.faults volume.old.blocks) (B.faults volume.new.blocks)
        result }
    ensures entered_on { HasEntered line after volume.old.file.entries volume.new.file.entries }
{
    volume.edit_catalog(alloc, line, edit, after)
}

/// One event of an edit of the catalog by the utilities.
pub(crate) fn edit_catalog<B: Blocks, P: Start + Drop>(
    alloc: Global,
    volume: &mut Volume<B, P>,
    line: u32,
    edit: &CatalogEdit,
    after: u64,
) -> Result<Changed, RunNo>
    requires serving { IsServing B.tells B.seen volume.old }
    requires going { volume.old.file.stopped ≡ None }
    requires edit { MayEdit volume.old.file.geometry volume.old.file.catalog edit.now }
    ensures serving { IsServing B.tells B.seen volume.new }
    ensures follows { Follows B.tells B.seen B.faults volume.old volume.new }
    ensures changed { IfOk result (λ answer. IsAnswered B.tells B.seen B.faults volume.old line
        (Editing edit.now answer) volume.new) }
    ensures shown { IfOk result (λ answer. IsShownEdited answer edit.now (shown_of volume.old)
        (shown_of volume.new)) }
    ensures refused { IsErr result → shown_of volume.new ≡ shown_of volume.old }
    ensures entered { HasEntered line after volume.old.file.entries volume.new.file.entries }
    ensures number { volume.new.number ≡ volume.old.number }
    ensures geometry { volume.new.file.geometry ≡ volume.old.file.geometry }
{
    make_ready(volume, 0, after, entries_to_edit(edit))?;
    let event = edit_event(alloc, volume, line, edit, after)?;
    Ok(changed_of(event))
}
