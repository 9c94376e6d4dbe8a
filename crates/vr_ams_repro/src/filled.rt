//! A volume whose data sets the utilities may fill.
ghost use Rattle.std.specs.Prelude.{◌≡◌, ℕ, IfOk, IsErr};
ghost use Rattle.vr_types.specs.declared.reply.Reply.{Reply};
ghost use Rattle.vr_types.specs.declared.request.Request.{Request};
ghost use Rattle.vr_ams_define.specs.Grown.{HasEntered};
ghost use Rattle.vr_ams_repro.specs.Replies.{IsShownReplied};

use vr_ams_define::OwnedVolume;
use vr_trace::RunNo;
use vr_types::{Reply, SharedRequest};

/// A volume that no deck has, whose data sets a command of IDCAMS may change by requests.
pub trait FilledVolume: OwnedVolume {
    /// How a volume may reply to a request of deck 0 on a line, and be then: what it promises of
    /// its replies and of their causes.
    ghost replies: { Self → ℕ → Request → Reply → Self → Type 0 };

    /// Serves a request of deck 0, for a command whose first word is on line `line` of the job, to
    /// its reply, with the stages that come before. What it enters comes after stamp `after`. The
    /// catalog stays; a write that fails stops the volume. Where no stamps are left, or no unit of
    /// recovery of the utilities (`Stamps`), or memory runs out before it has a reply (`Memory`),
    /// the volume shows what it showed.
    fn ask(&mut self, line: u32, request: SharedRequest, after: u64) -> Result<Reply, RunNo>
        ensures replied { IfOk result (λ reply. replies self.old line request reply self.new) }
        ensures shown { IfOk result (λ reply.
            IsShownReplied reply (Self.shown self.old) (Self.shown self.new)) }
        ensures refused { IsErr result → Self.shown self.new ≡ Self.shown self.old }
        ensures entered { HasEntered line after (Self.history self.old) (Self.history self.new) }
        ensures goes { Self.goes self.old self.new }
        ensures geometry { Self.geometry self.new ≡ Self.geometry self.old };
}
