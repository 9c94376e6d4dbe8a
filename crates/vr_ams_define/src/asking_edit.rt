//! Asking a volume for an edit of its catalog until it answers.
ghost use Rattle.std.specs.Prelude.{◌≡◌, false, IfOk, IsErr};
ghost use Rattle.vr_edits.specs.Edits.{MayEdit};
ghost use Rattle.vr_ams_define.specs.Answers.{HasEdited};
ghost use Rattle.vr_ams_define.specs.Steps.{IsLater};

use crate::answer::Changed;
use crate::owned::OwnedVolume;
use vr_edits::CatalogEdit;
use vr_trace::RunNo;

/// Asks a volume for an edit of its catalog until it has done each stage that comes before. What it
/// enters comes after stamp `after`.
pub(crate) fn ask_edit<V: OwnedVolume>(
    volume: &mut V,
    line: u32,
    edit: &CatalogEdit,
    after: u64,
) -> Result<Changed, RunNo>
    requires going { (V.shown volume.old).stopped ≡ false }
    requires edit { MayEdit (V.geometry volume.old) (V.shown volume.old).catalog edit.now }
    ensures edited { IfOk result
        (HasEdited V.shown V.answers line edit.now volume.old volume.new) }
    ensures refused { IsErr result → V.shown volume.new ≡ V.shown volume.old }
    ensures later { IsLater V.history V.goes line after volume.old volume.new }
    ensures geometry { V.geometry volume.new ≡ V.geometry volume.old }
{
    for _turn in 0..u64::MAX {
        match volume.edit(line, edit, after)? {
            Changed::Again => {}
            answer => return Ok(answer),
        }
    }
    // A loop has to have an end, and only where the device reports its contents is it proved that
    // each turn leaves fewer stages. No volume has the blocks for as many.
    Err(RunNo::Memory)
}
