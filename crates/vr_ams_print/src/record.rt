//! What PRINT prints of a record, and at its end.
ghost use Rattle.std.specs.Prelude.{◌≡◌, ◌++◌, OnOk};
ghost use Rattle.vr_trace.specs.Lines.{number_text};
ghost use Rattle.vr_ams_print.specs.Record as stated;

use crate::lines::write_lines;
use std::alloc::Global;
use vr_amsparse::PrintForm;
use vr_text::write_literal;
use vr_trace::{NEW_LINE, write_field};
use vr_types::{Bytes, Kind, OutOfMemory, four_at};

/// Adds what PRINT prints of a record: a line with its place in a data set of the kind, and the
/// lines that show its bytes. Out of memory is its one error, and may leave a part of them.
pub fn write_record(
    alloc: Global,
    out: &mut Bytes,
    kind: Kind,
    place: &[u8],
    form: PrintForm,
    bytes: &[u8],
) -> Result<(), OutOfMemory>
    ensures { OnOk result
        (out.new ≡ out.old ++ stated.record_text kind place.now form bytes.now) }
{
    write_place(alloc, out, kind, place)?;
    write_lines(out, form, bytes)
}

/// Adds the line at the end of PRINT: how many records were printed. Out of memory is its one
/// error, and may leave a part of the line.
pub fn write_printed(alloc: Global, out: &mut Bytes, count: u64) -> Result<(), OutOfMemory>
    ensures { OnOk result (out.new ≡ out.old ++ stated.printed_line count) }
{
    write_field(alloc, out, b"PRINTED ", count)?;
    out.push(NEW_LINE)
}

/// Writes the line before a record.
fn write_place(alloc: Global, out: &mut Bytes, kind: Kind, place: &[u8]) -> Result<(), OutOfMemory>
    ensures { OnOk result (out.new ≡ out.old ++ stated.place_line kind place.now) }
{
    out.extend(place_word(kind))?;
    match kind {
        Kind::Keyed => write_literal(place, out)?,
        Kind::Entry | Kind::Relative => write_place_number(alloc, out, place)?,
    }
    out.push(NEW_LINE)
}

fn place_word(kind: Kind) -> &'static [u8]
    ensures { result.now ≡ stated.place_word kind }
{
    match kind {
        Kind::Keyed => b"KEY ",
        Kind::Entry => b"RBA ",
        Kind::Relative => b"RRN ",
    }
}

/// Writes the number in the four bytes of a place. Other bytes, which are the place of no record
/// there, are written as a literal.
fn write_place_number(alloc: Global, out: &mut Bytes, place: &[u8]) -> Result<(), OutOfMemory>
    ensures { OnOk result (out.new ≡ out.old ++ number_text place.now) }
{
    if place.len() == 4 {
        write_field(alloc, out, b"", u64::from(four_at(place, 0)))
    } else {
        write_literal(place, out)
    }
}
