//! Laws of reports.
ghost use Rattle.std.specs.Prelude.{◌≤◌, List};
ghost use Rattle.vr_amsparse.specs.declared.command.Node.{Node};
ghost use Rattle.vr_ams_run.specs.Running.{IsReport};
ghost use Rattle.vr_trace.specs.declared.report.StepReport.{StepReport};

use vr_ams_define::OwnedVolume;

/// The code of a step is 16 at most.
pub fn code_is_at_most_16<V: OwnedVolume>()
    ensures { (commands : List Node) (old new : List V) (report : StepReport)
        → IsReport V.shown V.geometry V.answers commands old new report → report.code ≤ 16 }
{}
