//! The lines of the merged history.
ghost use Rattle.std.specs.Prelude.{◌≡◌, ◌++◌, map, OnOk, IfOk};
ghost use Rattle.std.specs.List.{flat_map};
ghost use Rattle.vr_trace.specs.Numbering.{numbered_of};
ghost use Rattle.vr_trace.specs.TraceLines as traced;

use crate::histories::Histories;
use crate::line::{NEW_LINE, verb, write_field, write_result, write_unit};
use crate::merging::{NumberedEntry, merge};
use std::alloc::Global;
use vr_history::What;
use vr_types::{Bytes, OutOfMemory, Reply, Request};

/// A line for each entry of the merged history of the volumes, in its order. Out of memory is its
/// one error.
pub fn trace_lines(alloc: Global, histories: &Histories) -> Result<Bytes, OutOfMemory>
    ensures { IfOk result (λ text. text ≡ traced.trace_of histories.now) }
{
    let merged = merge(alloc, histories)?;
    let mut out = Bytes::new(alloc);
    write_all(alloc, &mut out, merged.as_slice())?;
    Ok(out)
}

/// Writes the lines of entries.
fn write_all(
    alloc: Global,
    out: &mut Bytes,
    entries: &[NumberedEntry<'_>],
) -> Result<(), OutOfMemory>
    ensures { OnOk result (out.new
        ≡ out.old ++ flat_map traced.trace_line (map numbered_of entries.now)) }
{
    for this in entries {
        write_one(alloc, out, this)?;
    }
    Ok(())
}

/// Writes the line of an entry.
fn write_one(alloc: Global, out: &mut Bytes, this: &NumberedEntry<'_>) -> Result<(), OutOfMemory>
    ensures { OnOk result (out.new ≡ out.old ++ traced.trace_line (numbered_of this.now)) }
{
    write_origin(alloc, out, this)?;
    write_what(alloc, out, &this.entry.what)?;
    out.push(NEW_LINE)
}

/// Writes the stamp of an entry, its volume, its unit and its line.
fn write_origin(alloc: Global, out: &mut Bytes, this: &NumberedEntry<'_>) -> Result<(), OutOfMemory>
    ensures { OnOk result (out.new ≡ out.old ++ traced.origin_text (numbered_of this.now)) }
{
    write_field(alloc, out, b"STAMP ", this.entry.stamp)?;
    write_field(alloc, out, b" VOL ", this.volume as u64)?;
    out.extend(b" UNIT ")?;
    write_unit(alloc, out, this.entry.unit)?;
    write_field(alloc, out, b" LINE ", u64::from(this.entry.line))?;
    out.extend(b" ")
}

/// Writes what an entry reports.
fn write_what(alloc: Global, out: &mut Bytes, what: &What) -> Result<(), OutOfMemory>
    ensures { OnOk result (out.new ≡ out.old ++ traced.what_text what.now) }
{
    match what {
        What::Asked { request, reply } => write_asked(alloc, out, request.get(), reply),
        What::Undone { .. } => out.extend(b"UNDONE"),
        What::Claimed { area, .. } => write_field(alloc, out, b"CLAIMED ", u64::from(area.0)),
        What::Split { .. } => out.extend(b"SPLIT"),
        What::Faulted { .. } => out.extend(b"FAULTED"),
    }
}

/// Writes the verb of a request and the numbers of its reply.
fn write_asked(
    alloc: Global,
    out: &mut Bytes,
    request: &Request,
    reply: &Reply,
) -> Result<(), OutOfMemory>
    ensures { OnOk result (out.new ≡ out.old ++ traced.asked_text request.now reply.now) }
{
    out.extend(verb(request))?;
    write_result(alloc, out, reply)
}
