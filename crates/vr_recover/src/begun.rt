//! What opening reads first: the header and the log.
ghost use Rattle.std.specs.Prelude.{◌≡◌, IsTrue, IfOk, IfErr};
ghost use Rattle.vr_types.specs.Blocks.{Keeps};
ghost use Rattle.vr_types.specs.Geometry.{IsAllowed};
ghost use Rattle.vr_types.specs.Image.{block_at};
ghost use Rattle.vr_attach.specs.Header.{header_block};
ghost use Rattle.vr_log.specs.LogNow.{IsOf, made};
ghost use Rattle.vr_log.specs.Spells.{Spells};
ghost use Rattle.vr_recover.specs.Found.{IsLogFound, ShowsOnly};
ghost use Rattle.vr_recover.specs.OpenNo.{HasOpenCause, IsOwnNo};
ghost use Rattle.vr_recover.specs.Opening.{IsLogShown, IsRefused};
ghost use Rattle.vr_recover.specs.declared.open_no.OpenNo.TheVariants.{Memory};

use crate::open_no::OpenNo;
use std::alloc::Global;
use vr_log::{LogContent, LogReadNo, UndoLog, read_back, undo_log};
use vr_mount::{HeaderNo, read_header};
use vr_types::{Blocks, DeviceFault, Geometry};

/// A log as it was read, and to go on with.
#[derive(Drop)]
pub(crate) struct Begun {
    pub(crate) geometry: Geometry,
    pub(crate) content: LogContent,
    pub(crate) log: UndoLog,
}

/// The shape of the volume, by its header.
pub(crate) fn read_shape<B: Blocks>(
    blocks: &mut B,
    count: u32,
    number: u32,
) -> Result<Geometry, OpenNo>
    requires { (B.seen blocks.old).count ≡ count }
    ensures header { IsTrue B.tells → IfOk result (λ geometry.
        block_at (B.seen blocks.old).cur 0 ≡ header_block geometry number) }
    ensures allowed { IfOk result IsAllowed }
    ensures shape { IfOk result (λ geometry. IsOf geometry (B.seen blocks.old)) }
    ensures refused { IsTrue B.tells → IfErr result (IsRefused number (B.seen blocks.old)) }
    ensures keeps { Keeps B.tells (B.seen blocks.old) (B.seen blocks.new) }
    ensures cause { HasOpenCause (B.faults blocks.old) (B.faults blocks.new) result }
{
    match read_header(blocks, count, number) {
        Ok(geometry) => Ok(geometry),
        Err(HeaderNo::Damaged) => Err(OpenNo::Damaged { block: 0, rule: 1 }),
        Err(HeaderNo::Version { found }) => Err(OpenNo::Version { found }),
        Err(HeaderNo::Read) => Err(OpenNo::Read),
        Err(HeaderNo::Write) => Err(OpenNo::Write),
    }
}

/// What the log says.
fn read_log<B: Blocks>(
    alloc: Global,
    blocks: &mut B,
    geometry: &Geometry,
) -> Result<LogContent, OpenNo>
    requires allowed { IsAllowed geometry.now }
    requires shape { IsOf geometry.now (B.seen blocks.old) }
    ensures spelled { IsTrue B.tells
        → IfOk result (Spells geometry.now (B.seen blocks.old).cur) }
    ensures damaged { IsTrue B.tells
        → IfErr result (ShowsOnly (IsLogShown geometry.now (B.seen blocks.old))) }
    ensures found { IfOk result (IsLogFound geometry.now) }
    ensures keeps { Keeps B.tells (B.seen blocks.old) (B.seen blocks.new) }
    ensures cause { HasOpenCause (B.faults blocks.old) (B.faults blocks.new) result }
{
    match read_back(alloc, blocks, geometry) {
        Ok(content) => Ok(content),
        Err(LogReadNo::Damaged { block }) => Err(OpenNo::Damaged { block, rule: 2 }),
        Err(LogReadNo::Fault(DeviceFault::Read)) => Err(OpenNo::Read),
        Err(LogReadNo::Fault(DeviceFault::Write)) => Err(OpenNo::Write),
        Err(LogReadNo::Memory) => Err(OpenNo::Memory),
    }
}

/// The log, to go on with. It fails only if memory runs out.
fn begin(alloc: Global, geometry: &Geometry, content: LogContent) -> Result<Box<Begun>, OpenNo>
    requires allowed { IsAllowed geometry.now }
    requires found { IsLogFound geometry.now content }
    ensures geometry { IfOk result (λ begun. begun.value.geometry ≡ geometry.now) }
    ensures content { IfOk result (λ begun. begun.value.content ≡ content) }
    ensures log { IfOk result (λ begun. begun.value.log ≡ made geometry.now content) }
    ensures found { IfOk result (λ begun. IsLogFound geometry.now begun.value.content) }
    ensures memory { IfErr result (λ no. no ≡ Memory) }
    ensures own { IfErr result IsOwnNo }
{
    let log = undo_log(alloc, geometry, &content)?;
    let begun = Begun {
        geometry: *geometry,
        content,
        log,
    };
    match Box::new(alloc, begun) {
        Ok(begun) => Ok(begun),
        Err(_) => Err(OpenNo::Memory),
    }
}

/// Reads the log of a volume.
pub(crate) fn begin_log<B: Blocks>(
    alloc: Global,
    blocks: &mut B,
    geometry: &Geometry,
) -> Result<Box<Begun>, OpenNo>
    requires allowed { IsAllowed geometry.now }
    requires shape { IsOf geometry.now (B.seen blocks.old) }
    ensures geometry { IfOk result (λ begun. begun.value.geometry ≡ geometry.now) }
    ensures spelled { IsTrue B.tells → IfOk result (λ begun.
        Spells geometry.now (B.seen blocks.old).cur begun.value.content) }
    ensures log { IfOk result (λ begun. begun.value.log
        ≡ made geometry.now begun.value.content) }
    ensures found { IfOk result (λ begun. IsLogFound geometry.now begun.value.content) }
    ensures damaged { IsTrue B.tells
        → IfErr result (ShowsOnly (IsLogShown geometry.now (B.seen blocks.old))) }
    ensures keeps { Keeps B.tells (B.seen blocks.old) (B.seen blocks.new) }
    ensures cause { HasOpenCause (B.faults blocks.old) (B.faults blocks.new) result }
{
    let content = read_log(alloc, blocks, geometry)?;
    begin(alloc, geometry, content)
}
