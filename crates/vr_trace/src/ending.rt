//! The one line of a job that ends otherwise than by its steps.
ghost use Rattle.std.specs.Prelude.{◌≡◌, ◌++◌, ◌∷◌, [], OnOk, IfOk, IfSome, IfNone, codes};
ghost use Rattle.vr_trace.specs.Lines.{field};
ghost use Rattle.vr_trace.specs.Ends.{end_text, end_line_of, kind_text, position_text, HasNumber};

use crate::line::{NEW_LINE, write_field};
use std::alloc::Global;
use vr_types::{Bytes, OutOfMemory};

/// Which text of a job is at fault: its cards, the tokens or the commands of a step of IDCAMS, or a
/// deck, each with the number of the fault; or a text that is right in form and asks for what isn't
/// run.
#[derive(Clone, Copy, PartialEq, Eq)]
pub enum TextKind {
    Card { number: u32 },
    Scan { number: u32 },
    Ams { number: u32 },
    Deck { number: u32 },
    Form,
}

/// How a job ends that prints one line in place of a listing, or after it. Volumes are numbered
/// from 0.
#[derive(Clone, Copy, PartialEq, Eq)]
pub enum EndLine {
    /// The words are no command.
    NoCommand,
    /// The source of the text failed.
    ReadFault,
    /// The text is too long.
    InputTooLong,
    /// The text isn't a job, for what stands at a line and a column.
    Refused {
        kind: TextKind,
        line: u32,
        column: u32,
    },
    /// A device failed.
    DeviceFault {
        volume: u32,
    },
    /// A block breaks a rule of its format.
    Damaged {
        volume: u32,
        block: u32,
        rule: u32,
    },
    /// The header has a version that isn't known.
    Version {
        volume: u32,
        version: u32,
    },
    /// The shape isn't allowed.
    Geometry {
        volume: u32,
    },
    /// There are this many devices, and that isn't allowed.
    Shelf {
        devices: u64,
    },
    /// The stamps of a volume are used up.
    StampsUsedUp,
    /// So many volumes were formatted.
    Formatted {
        volumes: u32,
    },
    /// Memory ran out, and nothing is printed.
    NoMemory,
}

/// What a job that ends so prints. Out of memory is its one error.
pub fn end_line(alloc: Global, end: &EndLine) -> Result<Bytes, OutOfMemory>
    ensures { IfOk result (λ text. text ≡ end_line_of end.now) }
{
    let mut out = Bytes::new(alloc);
    write_end(alloc, &mut out, end)?;
    Ok(out)
}

/// What such a job prints where that has no number, which takes no memory.
pub fn fixed_line(end: &EndLine) -> Option<&'static [u8]>
    ensures text { IfSome result (λ text. text.now ≡ end_line_of end.now) }
    ensures none { IfNone result (HasNumber end.now) }
{
    match end {
        EndLine::NoCommand => Some(b"NO COMMAND\n"),
        EndLine::ReadFault => Some(b"READ FAULT\n"),
        EndLine::InputTooLong => Some(b"INPUT TOO LONG\n"),
        EndLine::StampsUsedUp => Some(b"STAMPS USED UP\n"),
        EndLine::NoMemory => Some(b""),
        _ => None,
    }
}

/// Writes what such a job prints.
fn write_end(alloc: Global, out: &mut Bytes, end: &EndLine) -> Result<(), OutOfMemory>
    ensures { OnOk result (out.new ≡ out.old ++ end_line_of end.now) }
{
    match fixed_line(end) {
        Some(text) => out.extend(text),
        None => write_numbered(alloc, out, end),
    }
}

/// Writes a line with a number.
fn write_numbered(alloc: Global, out: &mut Bytes, end: &EndLine) -> Result<(), OutOfMemory>
    requires { HasNumber end.now }
    ensures { OnOk result (out.new ≡ out.old ++ end_line_of end.now) }
{
    write_text(alloc, out, end)?;
    out.push(NEW_LINE)
}

/// Writes what a line with a number says.
fn write_text(alloc: Global, out: &mut Bytes, end: &EndLine) -> Result<(), OutOfMemory>
    requires { HasNumber end.now }
    ensures { OnOk result (out.new ≡ out.old ++ end_text end.now) }
{
    match end {
        EndLine::Refused { kind, line, column } => {
            write_refused(alloc, out, *kind, *line, *column)
        }
        EndLine::DeviceFault { volume } => write_volume(alloc, out, *volume, b" DEVICE FAULT"),
        EndLine::Damaged {
            volume,
            block,
            rule,
        } => write_damaged(alloc, out, *volume, *block, *rule),
        EndLine::Version { volume, version } => write_version(alloc, out, *volume, *version),
        EndLine::Geometry { volume } => write_volume(alloc, out, *volume, b" GEOMETRY"),
        EndLine::Shelf { devices } => write_field(alloc, out, b"SHELF ", *devices),
        EndLine::Formatted { volumes } => {
            write_field(alloc, out, b"FORMATTED ", u64::from(*volumes))
        }
        _ => Ok(()),
    }
}

fn write_refused(
    alloc: Global,
    out: &mut Bytes,
    kind: TextKind,
    line: u32,
    column: u32,
) -> Result<(), OutOfMemory>
    ensures { OnOk result (out.new ≡ out.old ++ end_text (EndLine.Refused kind line column)) }
{
    out.extend(b"JOB REFUSED ")?;
    write_kind(alloc, out, kind)?;
    write_position(alloc, out, line, column)
}

fn write_position(alloc: Global, out: &mut Bytes, line: u32, column: u32) -> Result<(), OutOfMemory>
    ensures { OnOk result (out.new ≡ out.old ++ position_text line column) }
{
    write_field(alloc, out, b" LINE ", u64::from(line))?;
    write_field(alloc, out, b" COLUMN ", u64::from(column))
}

fn write_kind(alloc: Global, out: &mut Bytes, kind: TextKind) -> Result<(), OutOfMemory>
    ensures { OnOk result (out.new ≡ out.old ++ kind_text kind) }
{
    match kind {
        TextKind::Card { number } => write_field(alloc, out, b"CARD ", u64::from(number)),
        TextKind::Scan { number } => write_field(alloc, out, b"SCAN ", u64::from(number)),
        TextKind::Ams { number } => write_field(alloc, out, b"AMS ", u64::from(number)),
        TextKind::Deck { number } => write_field(alloc, out, b"DECK ", u64::from(number)),
        TextKind::Form => out.extend(b"FORM 0"),
    }
}

/// Writes the number of a volume, and what is said of it.
fn write_volume(alloc: Global, out: &mut Bytes, volume: u32, said: &[u8]) -> Result<(), OutOfMemory>
    ensures { OnOk result (out.new ≡ out.old ++ (field (codes "VOLUME ") volume ++ said.now)) }
{
    write_field(alloc, out, b"VOLUME ", u64::from(volume))?;
    out.extend(said)
}

fn write_damaged(
    alloc: Global,
    out: &mut Bytes,
    volume: u32,
    block: u32,
    rule: u32,
) -> Result<(), OutOfMemory>
    ensures { OnOk result (out.new ≡ out.old ++ end_text (EndLine.Damaged volume block rule)) }
{
    write_field(alloc, out, b"VOLUME ", u64::from(volume))?;
    write_field(alloc, out, b" DAMAGED BLOCK ", u64::from(block))?;
    write_field(alloc, out, b" RULE ", u64::from(rule))
}

fn write_version(
    alloc: Global,
    out: &mut Bytes,
    volume: u32,
    version: u32,
) -> Result<(), OutOfMemory>
    ensures { OnOk result (out.new ≡ out.old ++ end_text (EndLine.Version volume version)) }
{
    write_field(alloc, out, b"VOLUME ", u64::from(volume))?;
    write_field(alloc, out, b" VERSION ", u64::from(version))
}
