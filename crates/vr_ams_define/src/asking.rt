//! Asking a volume until it answers.
ghost use Rattle.std.specs.Prelude.{◌≡◌, false, IfOk, IsErr};
ghost use Rattle.vr_ams_define.specs.Answers.{HasAnswered};
ghost use Rattle.vr_ams_define.specs.NewCluster.{IsNewCluster};
ghost use Rattle.vr_ams_define.specs.Steps.{IsLater};

use crate::answer::Defined;
use crate::owned::OwnedVolume;
use vr_catalog::CatEntry;
use vr_trace::RunNo;

/// Asks a volume for a new cluster until it has done each stage that comes before. What it enters
/// comes after stamp `after`.
pub(crate) fn ask<V: OwnedVolume>(
    volume: &mut V,
    line: u32,
    entry: &CatEntry,
    after: u64,
) -> Result<Defined, RunNo>
    requires going { (V.shown volume.old).stopped ≡ false }
    requires entry { IsNewCluster (V.geometry volume.old) (V.shown volume.old).catalog entry.now }
    ensures answered { IfOk result
        (HasAnswered V.shown V.answers line entry.now volume.old volume.new) }
    ensures refused { IsErr result → V.shown volume.new ≡ V.shown volume.old }
    ensures later { IsLater V.history V.goes line after volume.old volume.new }
    ensures geometry { V.geometry volume.new ≡ V.geometry volume.old }
{
    for _turn in 0..u64::MAX {
        match volume.define(line, entry, after)? {
            Defined::Again => {}
            answer => return Ok(answer),
        }
    }
    // A loop has to have an end, and only where the device reports its contents is it proved that
    // each turn leaves fewer stages. No volume has the blocks for as many.
    Err(RunNo::Memory)
}
