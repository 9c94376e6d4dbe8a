//! REPRO.
ghost use Rattle.std.specs.Prelude.{◌≡◌, ◌<◌, ◌∷◌, ◌&&◌, [], length, map, not, IfOk, OnOk};
ghost use Rattle.vr_ams_define.specs.Grown.{AreRunOn};
ghost use Rattle.vr_ams_print.specs.Steps.{IsThere};
ghost use Rattle.vr_ams_repro.specs.Outcomes as stated;
ghost use Rattle.vr_ams_repro.specs.Progress.{begun};
ghost use Rattle.vr_ams_repro.specs.Steps.{AreApart, IsSourceThere};

use crate::ends::{Ends, find_ends};
use crate::feeding::commit_if;
use crate::filled::FilledVolume;
use crate::load::{Load, kind_of};
use crate::progress::Progress;
use crate::reading::{fill_from, fill_from_cards};
use crate::report::outcome_of;
use std::alloc::Global;
use vr_ams_define::last_of;
use vr_ams_print::FoundCluster;
use vr_amsparse::ReproCommand;
use vr_trace::{Outcome, RunNo, refused};
use vr_types::Bytes;

/// Fills the target from a data set, or from data cards.
fn fill<V: FilledVolume>(
    alloc: Global,
    volumes: &mut [V],
    load: &Load,
    source: &Option<FoundCluster>,
    command: &ReproCommand,
    cards: &[Bytes],
    progress: &mut Progress,
) -> Result<(), RunNo>
    requires begun { progress.old ≡ begun }
    requires source { IsSourceThere (map V.shown volumes.old) source.now }
    requires target { IsThere (map V.shown volumes.old) load.now.target }
    ensures filled { OnOk result (stated.IsFilled V.shown V.answers V.replies load.now source.now
        command.now cards.now volumes.old progress.new volumes.new) }
    ensures ran { AreRunOn V.history V.goes (load.now.line ∷ []) volumes.old volumes.new }
    ensures geometry { map V.geometry volumes.new ≡ map V.geometry volumes.old }
{
    match source {
        None => fill_from_cards(alloc, volumes, load, command, cards, progress),
        Some(source) => fill_from(alloc, volumes, load, source, command, progress),
    }
}

/// Whether something was entered that no COMMIT has followed, and the volume hasn't stopped.
fn is_open<V: FilledVolume>(volume: &V, progress: &Progress) -> bool
    ensures { result ≡ progress.now.asked && not (V.shown volume.now).stopped }
{
    progress.asked && !volume.is_stopped()
}

/// Commits what no COMMIT has followed, unless the volume of the target has stopped.
fn end<V: FilledVolume>(
    alloc: Global,
    volumes: &mut [V],
    load: &Load,
    progress: Progress,
) -> Result<Progress, RunNo>
    requires within { load.now.target.place < length volumes.old }
    ensures ended { IfOk result (λ last. stated.IsEnded V.shown V.answers V.replies load.now
        progress volumes.old last volumes.new) }
    ensures ran { AreRunOn V.history V.goes (load.now.line ∷ []) volumes.old volumes.new }
    ensures geometry { map V.geometry volumes.new ≡ map V.geometry volumes.old }
{
    let after = last_of(volumes);
    let number = load.target.place;
    let volume = &mut volumes[number];
    let due = is_open(volume, &progress);
    commit_if(alloc, volume, load, after, due, progress)
}

/// Fills the target, commits, and reports.
fn run<V: FilledVolume>(
    alloc: Global,
    volumes: &mut [V],
    load: &Load,
    source: &Option<FoundCluster>,
    command: &ReproCommand,
    cards: &[Bytes],
) -> Result<Outcome, RunNo>
    requires source { IsSourceThere (map V.shown volumes.old) source.now }
    requires target { IsThere (map V.shown volumes.old) load.now.target }
    ensures run { IfOk result (stated.IsRunWith V.shown V.answers V.replies load.now source.now
        command.now cards.now volumes.old volumes.new) }
    ensures ran { AreRunOn V.history V.goes (load.now.line ∷ []) volumes.old volumes.new }
    ensures geometry { map V.geometry volumes.new ≡ map V.geometry volumes.old }
{
    let mut progress = Progress::new();
    fill(alloc, volumes, load, source, command, cards, &mut progress)?;
    let last = end(alloc, volumes, load, progress)?;
    Ok(outcome_of(alloc, &last)?)
}

/// Runs a command that isn't refused.
fn run_between<V: FilledVolume>(
    alloc: Global,
    volumes: &mut [V],
    line: u32,
    command: &ReproCommand,
    cards: &[Bytes],
    ends: Ends,
) -> Result<Outcome, RunNo>
    requires ends { AreApart (map V.shown volumes.old) command.now ends }
    ensures run { IfOk result (stated.IsRun V.shown V.answers V.replies line command.now cards.now
        volumes.old volumes.new) }
    ensures ran { AreRunOn V.history V.goes (line ∷ []) volumes.old volumes.new }
    ensures geometry { map V.geometry volumes.new ≡ map V.geometry volumes.old }
{
    let Ends { source, target } = ends;
    let load = Load {
        line,
        source: kind_of(&source),
        target,
        replace: command.replace,
    };
    run(alloc, volumes, &load, &source, command, cards)
}

/// REPRO of Access Method Services Commands, from a cluster, or from data cards, each a record of
/// 80 bytes, into a cluster, over the volumes, volume 0 first, which no deck has. It is refused,
/// and no volume is asked, with the first of these: of the source fault 2 where no volume has the
/// name, 903 where the lowest that has it has stopped, and 3 where that is no cluster's name, or
/// FROMKEY or TOKEY is given and it isn't key-sequenced; the same of the target, but for keys; and
/// 12 where they are one cluster. Else each record that it selects is added to the target, or, with
/// REPLACE, replaces the one that has its key or its slot; a COMMIT comes after every 16 of these,
/// and at the end. A record that is refused is counted. The command ends with the fault 902 where
/// the log is full, and stays so after a COMMIT, with 903 where the volume of the target has
/// stopped, with 904 and 905 where a device fails, and with the number of a COMMIT that is
/// refused. What is entered comes after all that the volumes have. Where stamps or memory run out,
/// records may have been put.
pub fn repro_records<V: FilledVolume>(
    alloc: Global,
    volumes: &mut [V],
    line: u32,
    command: &ReproCommand,
    cards: &[Bytes],
) -> Result<Outcome, RunNo>
    ensures repro { IfOk result (stated.IsReproBy V.shown V.answers V.replies line command.now
        cards.now volumes.old volumes.new) }
    ensures ran { AreRunOn V.history V.goes (line ∷ []) volumes.old volumes.new }
    ensures geometry { map V.geometry volumes.new ≡ map V.geometry volumes.old }
{
    match find_ends(alloc, volumes, command)? {
        Err(failure) => Ok(refused(alloc, failure)),
        Ok(ends) => run_between(alloc, volumes, line, command, cards, ends),
    }
}
