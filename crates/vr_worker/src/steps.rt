//! The steps of a job, one after another.
ghost use Rattle.std.specs.Prelude.{◌≡◌, ◌<◌, ◌^◌, [], All, IfOk, IsErrOf, length, map};
ghost use Rattle.vr_job_text.specs.Job.{deck_steps};
ghost use Rattle.vr_job_text.specs.Numbers.{AreNumbered};
ghost use Rattle.vr_job_text.specs.declared.job.JobStep.TheVariants.{Decks};
ghost use Rattle.vr_trace.specs.declared.no.RunNo.TheVariants.{Stamps};
ghost use Rattle.vr_worker.specs.Asks.{catalogs_of};
ghost use Rattle.vr_worker.specs.Decks.{ArePlaced, HasUsedUp};
ghost use Rattle.vr_worker.specs.OneStep.{AddsReport, HasRunStep, MayRunStep};
ghost use Rattle.vr_worker.specs.Reports.{HaveRunSteps};
ghost use Rattle.vr_worker.specs.Runs.{AreFresh, AreRuns};
ghost use Rattle.vr_worker.specs.Steps.{AreGapless, AreSinceSteps, ComeInSteps};

use crate::cataloged::Cataloged;
use crate::deck::DeckRun;
use crate::decks::run_decks;
use crate::utilities::report_step;
use std::alloc::Global;
use std::mem;
use std::sync::Wait;
use std::thread::Threads;
use vr_bind::bind;
use vr_catalog::Catalog;
use vr_job_text::{Deck, JobStep, Step};
use vr_outside::Gate;
use vr_trace::{RunNo, StepReports};
use vr_types::OutOfMemory;

/// The catalogs of volumes, from volume 0 on.
fn catalogs_of<V: Cataloged>(alloc: Global, volumes: &[V]) -> Result<Vec<&Catalog>, OutOfMemory>
    ensures { IfOk result (λ catalogs. map (λ c. c.now) catalogs.items
        ≡ catalogs_of V.shown volumes.now) }
{
    let mut catalogs = Vec::new(alloc);
    for volume in volumes {
        catalogs.push(volume.catalog())?;
    }
    Ok(catalogs)
}

/// The decks of a step as they run, each with its requests by these catalogs.
fn bind_all(
    alloc: Global,
    decks: &[Deck],
    catalogs: &[&Catalog],
) -> Result<Vec<DeckRun>, OutOfMemory>
    requires { length catalogs.now < 2 ^ 32 }
    ensures { IfOk result (λ runs. AreRuns (map (λ c. c.now) catalogs.now) decks.now runs.items) }
{
    let mut runs = Vec::new(alloc);
    for deck in decks {
        let requests = bind(alloc, &deck.text, catalogs)?;
        runs.push(DeckRun {
            number: deck.number,
            requests: requests.into_vec(),
        })?;
    }
    Ok(runs)
}

/// The decks of a step as they run, each with its requests by the catalogs of the volumes.
fn bind_step<V: Cataloged>(
    alloc: Global,
    step: &Step,
    volumes: &[V],
) -> Result<Vec<DeckRun>, OutOfMemory>
    requires { length volumes.now < 2 ^ 32 }
    ensures { IfOk result (λ runs. AreRuns (catalogs_of V.shown volumes.now) step.now.decks
        runs.items) }
{
    let catalogs = catalogs_of(alloc, volumes)?;
    bind_all(alloc, step.decks.as_slice(), catalogs.as_slice())
}

/// Runs the decks of a step over the volumes.
fn run_step<R: Threads + Wait + Sync, V: Cataloged + Send, G: Gate + Sync>(
    rt: &R,
    alloc: Global,
    volumes: &mut Vec<V>,
    step: &Step,
    gate: &G,
) -> Result<(), RunNo>
    requires placed { ArePlaced V.number volumes.old.items }
    requires fresh { AreFresh V.entries step.now.decks volumes.old.items }
    requires few { length volumes.old.items < 2 ^ 32 }
    ensures placed { ArePlaced V.number volumes.new.items }
    ensures left { HasRunStep V.shown V.entries V.follows (Decks step.now) result
        volumes.old.items volumes.new.items }
    ensures stamps { IsErrOf result Stamps → HasUsedUp V.entries volumes.new.items }
{
    let runs = bind_step(alloc, step, volumes.as_slice())?;
    let taken = mem::replace(volumes, Vec::new(alloc));
    let end = run_decks(rt, alloc, runs, taken, gate);
    *volumes = end.volumes;
    end.result
}

/// Runs a step over the volumes, as the steps before it left them.
fn run_any<R: Threads + Wait + Sync, V: Cataloged + Send, G: Gate + Sync>(
    rt: &R,
    alloc: Global,
    volumes: &mut Vec<V>,
    step: &JobStep,
    reports: &mut StepReports,
    gate: &G,
) -> Result<(), RunNo>
    requires placed { ArePlaced V.number volumes.old.items }
    requires fresh { MayRunStep V.entries step.now volumes.old.items }
    requires few { length volumes.old.items < 2 ^ 32 }
    ensures placed { ArePlaced V.number volumes.new.items }
    ensures left { HasRunStep V.shown V.entries V.follows step.now result volumes.old.items
        volumes.new.items }
    ensures reported { AddsReport V.shown V.geometry V.answers step.now result volumes.old.items
        volumes.new.items reports.old reports.new }
    ensures stamps { IsErrOf result Stamps → HasUsedUp V.entries volumes.new.items }
{
    match step {
        JobStep::Decks(step) => run_step(rt, alloc, volumes, step, gate),
        JobStep::Utilities(step) => report_step(alloc, volumes.as_mut_slice(), step, reports),
    }
}

/// Runs the steps over the volumes, which have no history yet, one step after another, to the end
/// or until stamps or memory run out. Each deck is bound over the catalogs of all volumes as its
/// step begins, and runs on a thread of its own where one can be made. What a step enters comes
/// after all that the steps before it entered, on whichever volumes. The commands of a step of
/// IDCAMS run over the volumes as the steps before it left them, and may change them; its report is
/// added to the others.
pub fn run_steps<R: Threads + Wait + Sync, V: Cataloged + Send, G: Gate + Sync>(
    rt: &R,
    alloc: Global,
    volumes: &mut Vec<V>,
    steps: &[JobStep],
    reports: &mut StepReports,
    gate: &G,
) -> Result<(), RunNo>
    requires placed { ArePlaced V.number volumes.old.items }
    requires begins { All (λ (volume : V). V.entries volume ≡ []) volumes.old.items }
    requires numbered { AreNumbered (deck_steps steps.now) }
    requires few { length volumes.old.items < 2 ^ 32 }
    requires none { reports.old ≡ [] }
    ensures placed { ArePlaced V.number volumes.new.items }
    ensures since { AreSinceSteps V.entries V.follows steps.now volumes.old.items
        volumes.new.items }
    ensures in_steps { ComeInSteps steps.now (map V.entries volumes.new.items) }
    ensures gapless { AreGapless steps.now (map V.entries volumes.new.items) }
    ensures done { HaveRunSteps V.shown V.geometry V.answers V.entries V.follows steps.now result
        reports.new volumes.old.items volumes.new.items }
    ensures stamps { IsErrOf result Stamps → HasUsedUp V.entries volumes.new.items }
{
    for step in steps {
        run_any(rt, alloc, volumes, step, reports, gate)?;
    }
    Ok(())
}
