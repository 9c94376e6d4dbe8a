//! DEFINE CLUSTER.
ghost use Rattle.std.specs.Prelude.{◌≡◌, ◌≢◌, ◌++◌, ◌∷◌, ◌<◌, length, map, slice_get, IfErr};
ghost use Rattle.std.specs.Prelude.{IfOk, IsErr, OnOk, [], Err, Some, IfSome, true, false};
ghost use Rattle.vr_ams_define.specs.Chosen.{chosen as chosen_of};
ghost use Rattle.vr_ams_define.specs.Failures.{failure_on};
ghost use Rattle.vr_ams_define.specs.Grown.{AreRunOn};
ghost use Rattle.vr_ams_define.specs.Outcomes as stated;
ghost use Rattle.vr_ams_define.specs.Runs.{is_plain_cluster};
ghost use Rattle.vr_ams_define.specs.Steps.{IsEnd};
ghost use Rattle.vr_ams_define.specs.declared.answer.Defined.TheVariants.{Again};
ghost use Rattle.vr_ams_define.specs.declared.refusal.DefineNo.TheVariants.{Ended};
ghost use Rattle.vr_trace.specs.Shown.{Shown};

use crate::answer::Defined;
use crate::chosen::chosen;
use crate::defining::define_on;
use crate::failure::{catalog_failure, early_failure, fault_failure, held_failure, log_failure};
use crate::outcome::done;
use crate::owned::OwnedVolume;
use crate::refusal::DefineNo;
use crate::stamps::last_of;
use std::alloc::Global;
use vr_catalog::{CatFault, Define};
use vr_trace::{Outcome, RunNo, refused, write_outcome};
use vr_types::{Bytes, OutOfMemory};

/// The outcome by the last answer of a volume.
fn outcome_of(alloc: Global, answer: Defined) -> Outcome
    requires { answer ≢ Again }
    ensures { stated.IsOutcome answer result }
{
    match answer {
        Defined::Done { .. } => done(alloc),
        Defined::Again => unreachable!(),
        Defined::NoArea | Defined::NoRoom => refused(alloc, catalog_failure(CatFault::NoArea)),
        Defined::Held => refused(alloc, held_failure()),
        Defined::Full => refused(alloc, log_failure()),
        Defined::Fault(fault) => refused(alloc, fault_failure(fault)),
    }
}

/// What the definition on its volume came to, as an outcome.
fn conclude(alloc: Global, end: Result<Defined, DefineNo>) -> Result<Outcome, RunNo>
    requires { IfOk end (λ answer. answer ≢ Again) }
    ensures ends { IfOk result (IsEnd end) }
    ensures ended { IfErr result (λ no. end ≡ Err (Ended no)) }
{
    match end {
        Ok(answer) => Ok(outcome_of(alloc, answer)),
        Err(DefineNo::Refused(failure)) => Ok(refused(alloc, failure)),
        Err(DefineNo::Ended(no)) => Err(no),
    }
}

/// Defines a cluster on the volume of this number, which hasn't stopped.
fn define_at<V: OwnedVolume>(
    alloc: Global,
    volumes: &mut [V],
    number: usize,
    line: u32,
    order: &Define,
) -> Result<Outcome, RunNo>
    requires within { number < length volumes.old }
    requires going { IfSome (slice_get (map V.shown volumes.old) number)
        (λ (volume : Shown). volume.stopped ≡ false) }
    requires plain { is_plain_cluster order.now.what ≡ true }
    ensures defined { IfOk result (stated.IsDefinedBy V.shown V.answers volumes.old
        (failure_on (slice_get (map V.shown volumes.old) number)
        (slice_get (map V.geometry volumes.old) number) order.now)
        (Some number) line order.now volumes.new) }
    ensures unchanged { IsErr result
        → stated.IsLeft V.shown volumes.old (Some number) volumes.new }
    ensures ran { AreRunOn V.history V.goes (line ∷ []) volumes.old volumes.new }
    ensures geometry { map V.geometry volumes.new ≡ map V.geometry volumes.old }
{
    let after = last_of(volumes);
    let volume = &mut volumes[number];
    let end = define_on(alloc, volume, line, order, after);
    conclude(alloc, end)
}

/// Writes the line of a DEFINE CLUSTER, whose first word is on line `line` of the job:
/// `LINE l DEFINE CLUSTER CODE c`, with ` FAULT f` where it was refused.
pub fn write_cluster(
    alloc: Global,
    out: &mut Bytes,
    line: u32,
    outcome: &Outcome,
) -> Result<(), OutOfMemory>
    ensures { OnOk result (out.new ≡ out.old ++ stated.cluster_lines line outcome.now) }
{
    write_outcome(alloc, out, line, b"DEFINE CLUSTER", outcome)
}

/// DEFINE CLUSTER of Access Method Services Commands over the volumes, volume 0 first, which no
/// deck has: the cluster is defined on the lowest volume that VOLUMES allows (`volume`), volume 0
/// where it isn't given. It is refused, and no volume changes, with the first of these: fault 903
/// where that volume has stopped; 1 where the name is on some volume; 4 where there is no such
/// volume; 5, 6, 7 and 14 by its catalog. Else the volume is asked: fault 8 where no area is free,
/// 901 where a lock is in the way, 902 where its log is full, 904 and 905 where its device fails.
/// What is entered comes after all that the volumes have. Where stamps or memory run out, no volume
/// shows anything else than it showed.
pub fn define_cluster<V: OwnedVolume>(
    alloc: Global,
    volumes: &mut [V],
    line: u32,
    order: &Define,
    volume: &Option<Bytes>,
) -> Result<Outcome, RunNo>
    requires plain { is_plain_cluster order.now.what ≡ true }
    ensures defined { IfOk result (stated.IsDefined V.shown V.geometry V.answers volumes.old line
        order.now volume.now volumes.new) }
    ensures unchanged { IsErr result → stated.IsLeft V.shown volumes.old
        (chosen_of (length volumes.old) volume.now) volumes.new }
    ensures ran { AreRunOn V.history V.goes (line ∷ []) volumes.old volumes.new }
    ensures geometry { map V.geometry volumes.new ≡ map V.geometry volumes.old }
{
    let number = chosen(volumes.len(), volume);
    if let Some(failure) = early_failure(volumes, number, &order.name) {
        return Ok(refused(alloc, failure));
    }
    match number {
        None => Ok(refused(alloc, catalog_failure(CatFault::NoVolume))),
        Some(number) => define_at(alloc, volumes, number, line, order),
    }
}
