//! DELETE.
ghost use Rattle.std.specs.Prelude.{◌≡◌, ◌++◌, ◌∷◌, [], map, IfErr, IfOk, IsErr, OnOk};
ghost use Rattle.vr_ams_define.specs.Altered.{place_of};
ghost use Rattle.vr_ams_define.specs.Deleted as stated;
ghost use Rattle.vr_ams_define.specs.EditSteps.{AreDeletedSome, IsPlanned, IsRefusedBy, planned_lines};
ghost use Rattle.vr_ams_define.specs.Grown.{AreRunOn};

use crate::carrying::{Planned, carry_out};
use crate::failure::catalog_failure;
use crate::gone::{gone_with, may_go, write_planned};
use crate::owned::OwnedVolume;
use crate::refusal::DefineNo;
use crate::target::find_target;
use std::alloc::Global;
use vr_catalog::{CatFault, EntryKind};
use vr_edits::CatalogEdit;
use vr_trace::{Failure, Outcome, RunNo};
use vr_types::{Bytes, Name, OutOfMemory};

/// Whether a DELETE that says this of the kind of entries deletes those of this kind.
fn allows(said: Option<EntryKind>, kind: EntryKind) -> bool
    ensures { result ≡ stated.allows said kind }
{
    match said {
        None => true,
        Some(said) => said == kind,
    }
}

/// The edit that deletes the entry of a name, or why that is refused.
fn plan_delete<V: OwnedVolume>(
    alloc: Global,
    volumes: &[V],
    name: &Name,
    kind: Option<EntryKind>,
) -> Result<Option<Planned>, DefineNo>
    ensures planned { IfOk result (IsPlanned (map V.shown volumes.now) (map V.geometry volumes.now)
        (stated.delete_failure (map V.shown volumes.now) kind name.now)
        (place_of (map V.shown volumes.now) name.now)
        (stated.delete_edit (map V.shown volumes.now) name.now)) }
    ensures refused { IfErr result
        (IsRefusedBy (stated.delete_failure (map V.shown volumes.now) kind name.now)) }
{
    let target = find_target(alloc, volumes, name)?;
    if !allows(kind, target.entry.entry_kind) {
        return Err(DefineNo::Refused(catalog_failure(CatFault::WrongKind)));
    }
    let catalog = volumes[target.place].catalog();
    let gone = gone_with(alloc, catalog, name)?;
    if !may_go(alloc, catalog, &gone)? {
        return Err(DefineNo::Refused(catalog_failure(CatFault::WrongKind)));
    }
    Ok(Some(Planned {
        place: target.place,
        edit: CatalogEdit::Delete(gone),
    }))
}

/// What one name of a DELETE came to: why it is refused, if it is, and its detail lines.
#[derive(Drop)]
struct NameEnd {
    why: Option<Failure>,
    lines: Bytes,
}

/// The detail lines of a name, by why it is refused, if it is.
fn end_by(alloc: Global, why: Option<Failure>, lines: Bytes) -> NameEnd
    ensures { (result.why ≡ why) × (result.lines ≡ stated.lines_by why lines) }
{
    match why {
        None => NameEnd { why, lines },
        Some(_) => NameEnd {
            why,
            lines: Bytes::new(alloc),
        },
    }
}

/// Deletes the entry of a name, with what stands over it, or tells why that is refused.
fn delete_one<V: OwnedVolume>(
    alloc: Global,
    volumes: &mut [V],
    line: u32,
    name: &Name,
    kind: Option<EntryKind>,
) -> Result<NameEnd, RunNo>
    ensures deleted { IfOk result (λ end. stated.IsOneDeleted V.shown V.answers line kind name.now
        volumes.old volumes.new end.why end.lines) }
    ensures unchanged { IsErr result → map V.shown volumes.new ≡ map V.shown volumes.old }
    ensures ran { AreRunOn V.history V.goes (line ∷ []) volumes.old volumes.new }
    ensures geometry { map V.geometry volumes.new ≡ map V.geometry volumes.old }
{
    let plan = plan_delete(alloc, volumes, name, kind);
    let lines = write_planned(alloc, &plan)?;
    let why = carry_out(volumes, line, &plan)?;
    Ok(end_by(alloc, why, lines))
}

/// The condition code of a name, by why it is refused, if it is.
fn code_of(failure: Option<Failure>) -> u8
    ensures { result ≡ stated.code_of failure }
{
    match failure {
        None => 0,
        Some(failure) => failure.code,
    }
}

/// The greatest code, 0 where there is none.
fn worst_code(failures: &[Option<Failure>]) -> u8
    ensures { result ≡ stated.worst_code failures.now }
{
    let mut worst = 0;
    for failure in failures {
        worst = worst.max(code_of(*failure));
    }
    worst
}

fn fault_of(failure: Option<Failure>) -> Option<u16>
    ensures { result ≡ stated.fault_of failure }
{
    match failure {
        None => None,
        Some(failure) => Some(failure.fault),
    }
}

/// The fault of the first name that gave this code.
fn fault_with(code: u8, failures: &[Option<Failure>]) -> Option<u16>
    ensures { result ≡ stated.fault_with code failures.now }
{
    for failure in failures {
        if code_of(*failure) == code {
            return fault_of(*failure);
        }
    }
    None
}

/// What the names of a DELETE came to: the detail lines, and of each why it is refused, if it is.
#[derive(Drop)]
struct Deletions {
    lines: Bytes,
    failures: Vec<Option<Failure>>,
}

impl Deletions {
    /// Adds what one name came to.
    fn add(&mut self, end: &NameEnd) -> Result<(), OutOfMemory>
        ensures lines { OnOk result (self.new.lines ≡ self.old.lines ++ end.now.lines) }
        ensures failures { OnOk result
            (self.new.failures.items ≡ self.old.failures.items ++ end.now.why ∷ []) }
    {
        self.lines.extend(end.lines.as_slice())?;
        self.failures.push(end.why)?;
        Ok(())
    }
}

/// Deletes the entries of names, one after another.
fn delete_each<V: OwnedVolume>(
    alloc: Global,
    volumes: &mut [V],
    line: u32,
    names: &[Name],
    kind: Option<EntryKind>,
) -> Result<Deletions, RunNo>
    ensures deleted { IfOk result (λ deletions. stated.AreDeleted V.shown V.answers line kind
        names.now volumes.old volumes.new deletions.failures.items deletions.lines) }
    ensures left { IsErr result → AreDeletedSome V.shown V.answers line kind names.now volumes.old
        volumes.new }
    ensures ran { AreRunOn V.history V.goes (line ∷ []) volumes.old volumes.new }
    ensures geometry { map V.geometry volumes.new ≡ map V.geometry volumes.old }
{
    let mut deletions = Deletions {
        lines: Bytes::new(alloc),
        failures: Vec::new(alloc),
    };
    for name in names {
        let end = delete_one(alloc, volumes, line, name, kind)?;
        deletions.add(&end)?;
    }
    Ok(deletions)
}

/// DELETE of Access Method Services Commands over the volumes, volume 0 first, which no deck has:
/// each name is a unit of its own, in order, and its entry goes with what stands over it, a cluster
/// with its records. One is refused, and its entry stays, with the first of these: fault 2 where no
/// volume has the name; 903 where the lowest that has it has stopped; 3 where no record spells its
/// entry, or another entry has its part, where the command deletes entries of another kind (`kind`),
/// or where more than 65,535 entries would go (some of those over it are deleted first). Else the
/// volume is asked: fault 901 where a lock or a live unit of recovery is in the way, 902 where its log is full, 904
/// and 905 where its device fails. Each entry that is deleted has a detail line, in the order of the
/// catalog. The code of the command is the greatest, and its fault that of the first name that gave
/// this code. What is entered comes after all that the volumes have. Where stamps or memory run out,
/// the volumes show what the names so far left.
pub fn delete_entries<V: OwnedVolume>(
    alloc: Global,
    volumes: &mut [V],
    line: u32,
    names: &[Name],
    kind: Option<EntryKind>,
) -> Result<Outcome, RunNo>
    ensures deleted { IfOk result (stated.IsDeletedBy V.shown V.answers line kind names.now
        volumes.old volumes.new) }
    ensures left { IsErr result → AreDeletedSome V.shown V.answers line kind names.now volumes.old
        volumes.new }
    ensures ran { AreRunOn V.history V.goes (line ∷ []) volumes.old volumes.new }
    ensures geometry { map V.geometry volumes.new ≡ map V.geometry volumes.old }
{
    let deletions = delete_each(alloc, volumes, line, names, kind)?;
    let code = worst_code(deletions.failures.as_slice());
    Ok(Outcome {
        code,
        fault: fault_with(code, deletions.failures.as_slice()),
        lines: deletions.lines,
    })
}
