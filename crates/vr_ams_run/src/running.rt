//! The commands of a step.
ghost use Rattle.std.specs.Prelude.{◌≡◌, ◌∷◌, [], true, IfOk, OnOk};
ghost use Rattle.vr_ams_define.specs.Grown.{AreRunOn};
ghost use Rattle.vr_ams_define.specs.Runs.{is_plain_cluster as is_plain};
ghost use Rattle.vr_ams_run.specs.Running as stated;

use crate::going::Going;
use crate::listed_all::list_all;
use std::alloc::Global;
use vr_ams_define::{
    OwnedVolume, alter_entry, define_cluster, define_over, delete_entries, is_run as is_entry_run,
};
use vr_ams_list::list_entries;
use vr_ams_print::{print_records, verify_cluster};
use vr_amsparse::{Command, DefineCommand, DeleteCommand, ListCommand, Node, PrintCommand};
use vr_catalog::{Alter, NewEntry};
use vr_trace::{RunNo, StepReport};
use vr_types::Name;

/// Whether a command is run yet.
pub fn is_run(command: &Command) -> bool
    ensures { result ≡ stated.is_run command.now }
{
    match command {
        Command::Delete(_) | Command::ListCatalog(_) | Command::If(_) | Command::Set(_) => true,
        Command::Print(_) | Command::Verify(_) | Command::Alter(_) => true,
        Command::Define(define) => is_entry_run(&define.order.what),
        Command::Repro(_) | Command::BuildIndex(_) | Command::Examine(_) => false,
    }
}

/// LISTCAT, with ALL or with NAME.
fn run_list<V: OwnedVolume>(
    alloc: Global,
    volumes: &mut [V],
    line: u32,
    command: &ListCommand,
    going: &mut Going,
) -> Result<(), RunNo>
    ensures ran { OnOk result (stated.ListRun V.shown V.answers command.now.all line command.now
        (record { volumes = volumes.old; going = going.old })
        (record { volumes = volumes.new; going = going.new })) }
    ensures grew { AreRunOn V.history V.goes (line ∷ []) volumes.old volumes.new }
{
    let names = command.entries.as_slice();
    if command.all {
        let outcome = list_all(alloc, volumes, line, names)?;
        return Ok(going.end(alloc, line, b"LISTCAT", &outcome)?);
    }
    let outcome = list_entries(alloc, volumes, names)?;
    Ok(going.end(alloc, line, b"LISTCAT", &outcome)?)
}

/// DEFINE of a cluster that isn't spanned.
fn run_cluster<V: OwnedVolume>(
    alloc: Global,
    volumes: &mut [V],
    line: u32,
    command: &DefineCommand,
    going: &mut Going,
) -> Result<(), RunNo>
    requires plain { is_plain command.now.order.what ≡ true }
    ensures ran { OnOk result (stated.IsDefinedAs V.shown V.geometry V.answers line command.now
        (record { volumes = volumes.old; going = going.old })
        (record { volumes = volumes.new; going = going.new })) }
    ensures grew { AreRunOn V.history V.goes (line ∷ []) volumes.old volumes.new }
{
    let outcome = define_cluster(alloc, volumes, line, &command.order, &command.volume)?;
    Ok(going.end(alloc, line, b"DEFINE CLUSTER", &outcome)?)
}

/// DEFINE of an alternate index or a path, which has this name in the report.
fn run_over<V: OwnedVolume>(
    alloc: Global,
    volumes: &mut [V],
    line: u32,
    command: &DefineCommand,
    name: &[u8],
    going: &mut Going,
) -> Result<(), RunNo>
    ensures ran { OnOk result (stated.IsOverAs V.shown V.geometry V.answers name.now line
        command.now (record { volumes = volumes.old; going = going.old })
        (record { volumes = volumes.new; going = going.new })) }
    ensures grew { AreRunOn V.history V.goes (line ∷ []) volumes.old volumes.new }
{
    let outcome = define_over(alloc, volumes, line, &command.order, &command.volume)?;
    Ok(going.end(alloc, line, name, &outcome)?)
}

/// DEFINE. Of a spanned cluster it isn't run yet.
fn run_define<V: OwnedVolume>(
    alloc: Global,
    volumes: &mut [V],
    line: u32,
    command: &DefineCommand,
    going: &mut Going,
) -> Result<(), RunNo>
    ensures ran { OnOk result (stated.DefineRun V.shown V.geometry V.answers
        command.now.order.what line command.now
        (record { volumes = volumes.old; going = going.old })
        (record { volumes = volumes.new; going = going.new })) }
    ensures grew { AreRunOn V.history V.goes (line ∷ []) volumes.old volumes.new }
{
    match &command.order.what {
        NewEntry::Cluster { spanned: true, .. } => Ok(going.pass()?),
        NewEntry::Cluster { spanned: false, .. } => {
            run_cluster(alloc, volumes, line, command, going)
        }
        NewEntry::Alternate { .. } => {
            let name = b"DEFINE ALTERNATEINDEX";
            run_over(alloc, volumes, line, command, name, going)
        }
        NewEntry::Path { .. } => { run_over(alloc, volumes, line, command, b"DEFINE PATH", going) }
    }
}

/// ALTER.
fn run_alter<V: OwnedVolume>(
    alloc: Global,
    volumes: &mut [V],
    line: u32,
    order: &Alter,
    going: &mut Going,
) -> Result<(), RunNo>
    ensures ran { OnOk result (stated.IsAlteredAs V.shown V.answers line order.now
        (record { volumes = volumes.old; going = going.old })
        (record { volumes = volumes.new; going = going.new })) }
    ensures grew { AreRunOn V.history V.goes (line ∷ []) volumes.old volumes.new }
{
    let outcome = alter_entry(alloc, volumes, line, order)?;
    Ok(going.end(alloc, line, b"ALTER", &outcome)?)
}

/// DELETE.
fn run_delete<V: OwnedVolume>(
    alloc: Global,
    volumes: &mut [V],
    line: u32,
    command: &DeleteCommand,
    going: &mut Going,
) -> Result<(), RunNo>
    ensures ran { OnOk result (stated.IsDeletedAs V.shown V.answers line command.now
        (record { volumes = volumes.old; going = going.old })
        (record { volumes = volumes.new; going = going.new })) }
    ensures grew { AreRunOn V.history V.goes (line ∷ []) volumes.old volumes.new }
{
    let names = command.names.as_slice();
    let outcome = delete_entries(alloc, volumes, line, names, command.kind)?;
    Ok(going.end(alloc, line, b"DELETE", &outcome)?)
}

/// PRINT.
fn run_print<V: OwnedVolume>(
    alloc: Global,
    volumes: &mut [V],
    line: u32,
    command: &PrintCommand,
    going: &mut Going,
) -> Result<(), RunNo>
    ensures ran { OnOk result (stated.IsPrintedAs V.shown V.answers line command.now
        (record { volumes = volumes.old; going = going.old })
        (record { volumes = volumes.new; going = going.new })) }
    ensures grew { AreRunOn V.history V.goes (line ∷ []) volumes.old volumes.new }
{
    let outcome = print_records(alloc, volumes, line, command)?;
    Ok(going.end(alloc, line, b"PRINT", &outcome)?)
}

/// VERIFY.
fn run_verify<V: OwnedVolume>(
    alloc: Global,
    volumes: &mut [V],
    line: u32,
    name: &Name,
    going: &mut Going,
) -> Result<(), RunNo>
    ensures ran { OnOk result (stated.IsVerifiedAs V.shown V.answers line name.now
        (record { volumes = volumes.old; going = going.old })
        (record { volumes = volumes.new; going = going.new })) }
    ensures grew { AreRunOn V.history V.goes (line ∷ []) volumes.old volumes.new }
{
    let outcome = verify_cluster(alloc, volumes, line, name)?;
    Ok(going.end(alloc, line, b"VERIFY", &outcome)?)
}

/// Runs a command that is reached.
fn run_command<V: OwnedVolume>(
    alloc: Global,
    volumes: &mut [V],
    line: u32,
    command: &Command,
    going: &mut Going,
) -> Result<(), RunNo>
    ensures ran { OnOk result (stated.CommandRun V.shown V.geometry V.answers line command.now
        (record { volumes = volumes.old; going = going.old })
        (record { volumes = volumes.new; going = going.new })) }
    ensures grew { AreRunOn V.history V.goes (line ∷ []) volumes.old volumes.new }
{
    match command {
        Command::If(condition) => Ok(going.branch(*condition)?),
        Command::Set(setting) => Ok(going.set(*setting)?),
        Command::Define(define) => run_define(alloc, volumes, line, define, going),
        Command::ListCatalog(list) => run_list(alloc, volumes, line, list, going),
        Command::Alter(order) => run_alter(alloc, volumes, line, order, going),
        Command::Delete(delete) => run_delete(alloc, volumes, line, delete, going),
        Command::Print(print) => run_print(alloc, volumes, line, print, going),
        Command::Verify(name) => run_verify(alloc, volumes, line, name, going),
        Command::Repro(_) | Command::BuildIndex(_) | Command::Examine(_) => Ok(going.pass()?),
    }
}

/// Runs a command, where it is reached.
fn run_node<V: OwnedVolume>(
    alloc: Global,
    volumes: &mut [V],
    node: &Node,
    going: &mut Going,
) -> Result<(), RunNo>
    ensures ran { OnOk result (stated.NodeRun V.shown V.geometry V.answers node.now
        (record { volumes = volumes.old; going = going.old })
        (record { volumes = volumes.new; going = going.new })) }
    ensures grew { AreRunOn V.history V.goes (node.now.line ∷ []) volumes.old volumes.new }
{
    if !going.over && going.reaches(node.within) {
        run_command(alloc, volumes, node.line, &node.command, going)
    } else {
        Ok(going.pass()?)
    }
}

/// Runs commands, first to last.
fn run_all<V: OwnedVolume>(
    alloc: Global,
    volumes: &mut [V],
    commands: &[Node],
    going: &mut Going,
) -> Result<(), RunNo>
    ensures ran { OnOk result (stated.NodesRun V.shown V.geometry V.answers commands.now
        (record { volumes = volumes.old; going = going.old })
        (record { volumes = volumes.new; going = going.new })) }
    ensures grew { AreRunOn V.history V.goes (stated.lines_of commands.now) volumes.old
        volumes.new }
{
    for node in commands {
        run_node(alloc, volumes, node, going)?;
    }
    Ok(())
}

/// Runs the commands of a step over the volumes, volume 0 first, in order, and gives the report of
/// the step: DEFINE but of a spanned cluster, ALTER, DELETE, PRINT, LISTCAT, VERIFY, IF and SET,
/// after Access Method Services Commands. Each runs over the volumes as those
/// before it left them. A command for which `is_run` is false does nothing. Where stamps or memory
/// run out there is no report, and the volumes are as the commands so far left them.
pub fn run_commands<V: OwnedVolume>(
    alloc: Global,
    volumes: &mut [V],
    commands: &[Node],
) -> Result<StepReport, RunNo>
    ensures ran { IfOk result (stated.IsReport V.shown V.geometry V.answers commands.now
        volumes.old volumes.new) }
    ensures grew { AreRunOn V.history V.goes (stated.lines_of commands.now) volumes.old
        volumes.new }
{
    let mut going = Going::new(alloc);
    run_all(alloc, volumes, commands, &mut going)?;
    Ok(going.into_report())
}
