//! The parts of a volume that was opened, with their numbers.
ghost use Rattle.std.specs.Prelude.{◌≡◌, [], IfErr, IfOk, OnOk, map};
ghost use Rattle.vr_job.specs.Opened.{laid_now, opened_now};

use std::alloc::Global;
use vr_catalog::Catalog;
use vr_log::UndoLog;
use vr_part::AnyPart;
use vr_recover::Opened;
use vr_store::Laid;
use vr_trace::EndLine;
use vr_types::{Geometry, OutOfMemory, Space};

/// What a volume is made of that was opened.
#[derive(Drop)]
pub(crate) struct Ready {
    pub(crate) geometry: Geometry,
    pub(crate) catalog: Box<Catalog>,
    pub(crate) parts: Vec<Laid<AnyPart>>,
    pub(crate) log: UndoLog,
    pub(crate) space: Space,
}

/// A part with its number.
fn numbered(part: AnyPart) -> Laid<AnyPart>
    ensures { laid_now result ≡ opened_now part }
{
    Laid {
        number: part.number(),
        part,
    }
}

/// Adds parts with their numbers.
fn add_parts(into: &mut Vec<Laid<AnyPart>>, parts: Vec<AnyPart>) -> Result<(), OutOfMemory>
    requires { into.old.items ≡ [] }
    ensures { OnOk result (map laid_now into.new.items ≡ map opened_now parts.items) }
{
    for part in parts {
        into.push(numbered(part))?;
    }
    Ok(())
}

/// Parts with their numbers. Out of memory is its one error.
fn number_all(alloc: Global, parts: Vec<AnyPart>) -> Result<Vec<Laid<AnyPart>>, OutOfMemory>
    ensures { IfOk result (λ laid. map laid_now laid.items ≡ map opened_now parts.items) }
{
    let mut laid = Vec::new(alloc);
    match add_parts(&mut laid, parts) {
        Ok(()) => Ok(laid),
        Err(no) => Err(no),
    }
}

/// What was opened, each part with its number. Out of memory is its one error.
pub(crate) fn number_parts(alloc: Global, opened: Opened) -> Result<Box<Ready>, EndLine>
    ensures geometry { IfOk result (λ made. made.value.geometry ≡ opened.geometry) }
    ensures catalog { IfOk result (λ made. made.value.catalog.value ≡ opened.catalog.value) }
    ensures parts { IfOk result (λ made. map laid_now made.value.parts.items
        ≡ map opened_now opened.parts.items) }
    ensures log { IfOk result (λ made. made.value.log ≡ opened.log) }
    ensures space { IfOk result (λ made. made.value.space ≡ opened.space) }
    ensures memory { IfErr result (λ end. end ≡ EndLine.NoMemory) }
{
    let Opened {
        geometry,
        catalog,
        parts,
        log,
        space,
    } = opened;
    match number_all(alloc, parts) {
        Ok(parts) => boxed(
            alloc,
            Ready {
                geometry,
                catalog,
                parts,
                log,
                space,
            },
        ),
        Err(OutOfMemory) => Err(EndLine::NoMemory),
    }
}

/// The same in a box.
fn boxed(alloc: Global, ready: Ready) -> Result<Box<Ready>, EndLine>
    ensures value { IfOk result (λ made. made.value ≡ ready) }
    ensures memory { IfErr result (λ end. end ≡ EndLine.NoMemory) }
{
    match Box::new(alloc, ready) {
        Ok(made) => Ok(made),
        Err(_) => Err(EndLine::NoMemory),
    }
}
