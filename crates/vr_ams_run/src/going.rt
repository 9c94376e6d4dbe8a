//! How far a step has come.
ghost use Rattle.std.specs.Prelude.{◌≡◌, OnOk};
ghost use Rattle.vr_ams_run.specs.Running as stated;

use crate::codes::{Codes, ends, holds, no_codes, set_by, with_code};
use std::alloc::Global;
use vr_amsparse::{Branch, Condition, Setting, Within};
use vr_trace::{Outcome, StepReport, write_outcome};
use vr_types::{Bytes, Items, OutOfMemory};

/// How far a step has come.
#[derive(Drop)]
pub(crate) struct Going {
    pub(crate) codes: Codes,
    /// Whether a SET has ended its commands.
    pub(crate) over: bool,
    /// For each command so far the branch that it took, where it is an IF that was reached.
    pub(crate) took: Items<Option<Branch>>,
    /// What the commands so far have printed.
    pub(crate) lines: Bytes,
}

fn is_same_branch(taken: Branch, branch: Branch) -> bool
    ensures { result ≡ stated.same_branch taken branch }
{
    match (taken, branch) {
        (Branch::Then, Branch::Then) | (Branch::Else, Branch::Else) => true,
        (Branch::Then, Branch::Else) | (Branch::Else, Branch::Then) => false,
    }
}

/// Whether an IF was reached and took this branch.
fn has_taken(took: Option<Option<Branch>>, branch: Branch) -> bool
    ensures { result ≡ stated.has_taken took branch }
{
    match took {
        Some(Some(taken)) => is_same_branch(taken, branch),
        Some(None) | None => false,
    }
}

/// The branch that an IF takes.
fn branch_for(holds: bool) -> Branch
    ensures { result ≡ stated.branch_for holds }
{
    if holds { Branch::Then } else { Branch::Else }
}

impl Going {
    /// Before the first command.
    pub(crate) fn new(alloc: Global) -> Going
        ensures { result ≡ stated.first_going }
    {
        Going {
            codes: no_codes(),
            over: false,
            took: Items::new(alloc),
            lines: Bytes::new(alloc),
        }
    }

    /// Whether a command is reached that stands in this branch.
    pub(crate) fn reaches(&self, within: Option<Within>) -> bool
        ensures { result ≡ stated.reaches self.now.took within }
    {
        match within {
            None => true,
            Some(within) => has_taken(self.took.get(within.node).copied(), within.branch),
        }
    }

    /// A command that isn't reached, or isn't run yet.
    pub(crate) fn pass(&mut self) -> Result<(), OutOfMemory>
        ensures { OnOk result (self.new ≡ stated.passed self.old) }
    {
        self.took.push(None)?;
        Ok(())
    }

    /// IF.
    pub(crate) fn branch(&mut self, condition: Condition) -> Result<(), OutOfMemory>
        ensures { OnOk result (self.new ≡ stated.branched condition self.old) }
    {
        self.took
            .push(Some(branch_for(holds(condition, self.codes))))?;
        Ok(())
    }

    /// SET.
    pub(crate) fn set(&mut self, setting: Setting) -> Result<(), OutOfMemory>
        ensures { OnOk result (self.new ≡ stated.changed setting self.old) }
    {
        self.took.push(None)?;
        self.codes = set_by(setting, self.codes);
        self.over = ends(setting);
        Ok(())
    }

    /// A command with this name, whose first word is on line `line`, ended so.
    pub(crate) fn end(
        &mut self,
        alloc: Global,
        line: u32,
        name: &[u8],
        outcome: &Outcome,
    ) -> Result<(), OutOfMemory>
        ensures { OnOk result (self.new ≡ stated.ended line name.now outcome.now self.old) }
    {
        write_outcome(alloc, &mut self.lines, line, name, outcome)?;
        self.took.push(None)?;
        self.codes = with_code(outcome.code, self.codes);
        Ok(())
    }

    /// The report of a step that ends here.
    pub(crate) fn into_report(self) -> StepReport
        ensures { result ≡ stated.report_in self }
    {
        let Going { codes, lines, .. } = self;
        StepReport {
            lines,
            code: codes.greatest,
        }
    }
}
